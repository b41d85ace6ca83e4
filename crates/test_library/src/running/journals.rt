//! Centres that keep journals: an event is written before its answer is sent, a full disk, and centres that go on from
//! journals.

use crate::line::{INITIATION, VERSION};
use crate::running::play::Act;
use crate::running::plays::{Before, Journals, Play, Seen, ServeMode, Taken};

const SET_1: [&str; 1] = ["1 > set A 1"];

const OPENED: [&str; 2] = ["1 > set A 1", "2 > train A 9B028000000040000040"];

// Both journals are empty, and may grow to the size of a paper.
const EMPTY: Journals<'_> = Journals {
    rooms: (256, 256),
    before: &[],
};

// A start of train 1, registered at A, in section 2 of B. First the interlocking releases the section.
const SET: Before<'_> = (1, Taken::Set);

const INITIATED: Before<'_> = (2, Taken::Said(INITIATION));

const ESTABLISHED: Before<'_> = (3, Taken::Said("9F028000000080000040"));

// With this event B asks A for the right.
const STARTED: Before<'_> = (
    4,
    Taken::Said("9D0680000000C00000500040A0280CC096140050014406400418"),
);

// The train opens its session again, with T_TRAIN 4. Message 32 that answers it has T_TRAIN 3.
const OPENED_AGAIN: &str = "9B028000000100000040";

const THIRD_VERSION: &str = "2002C0000000DFFFFFE800";

// A gives B the supervision right of the train.
const ASKED: Before<'_> = (5, Taken::Delivered(1, 0));

const GIVEN: Before<'_> = (6, Taken::Delivered(0, 1));

pub static PLAYS: [Play<'_>; 6] = [
    // The interlocking releases a section, and train 1 opens its session. After each answer its event is in the
    // journal.
    Play {
        name: "what_is_answered_is_written_before",
        mode: ServeMode::Usual,
        journals: Some(EMPTY),
        rounds: &[(
            1,
            &[
                (0, Act::Control),
                (0, Act::Asks("set A 1\n", "> set A 1\nA 1 Done\n")),
                (0, Act::Written(&SET_1)),
                (1, Act::Train),
                (1, Act::Sends(INITIATION)),
                (1, Act::Hears(VERSION)),
                (1, Act::Written(&OPENED)),
            ],
        )],
        status: 0,
        seen: &[
            Seen::Begins("> set A 1\nA 1 Done\n> train A 9B028000000040000040\nA -> 1 "),
            Seen::OfA(&OPENED),
            Seen::OfB(&[]),
        ],
    },
    // A line waits for its answer until there is room. The first five bytes of its entry are written, and the file has
    // no room for more. Meanwhile centre A takes no other event, and no train.
    Play {
        name: "nothing_is_answered_while_the_disk_is_full",
        mode: ServeMode::Usual,
        journals: Some(Journals {
            rooms: (5, 256),
            before: &[],
        }),
        rounds: &[(
            1,
            &[
                (0, Act::Control),
                (1, Act::Control),
                (0, Act::Asks("set A 1\n", "")),
                (0, Act::Fills(5)),
                (1, Act::Asks("set A 0\n", "journal fault\n")),
                (2, Act::Train),
                (2, Act::Ends),
                (1, Act::Asks("set B 2\n", "> set B 2\nB 2 Done\n")),
                (0, Act::HasRoom(256)),
                (0, Act::Asks("", "> set A 1\nA 1 Done\n")),
            ],
        )],
        status: 0,
        seen: &[
            Seen::Begins("> set A 1\nA 1 Done\n> set B 2\nB 2 Done\nsection 0 A shut\n"),
            Seen::OfA(&SET_1),
        ],
    },
    Play {
        name: "a_journal_that_stays_full_is_given_up",
        mode: ServeMode::Usual,
        journals: Some(Journals {
            rooms: (5, 5),
            before: &[],
        }),
        rounds: &[(
            1,
            &[
                (0, Act::Control),
                (0, Act::Asks("set A 1\n", "")),
                (0, Act::Fills(5)),
            ],
        )],
        status: 6,
        seen: &[Seen::Begins("> set A 1\nA 1 Done\n"), Seen::LengthOfA(5)],
    },
    // The frames go over their links once more, and no centre takes one twice. The train's messages are counted on.
    Play {
        name: "centres_go_on_where_they_were",
        mode: ServeMode::Usual,
        journals: Some(Journals {
            rooms: (256, 256),
            before: &[SET, INITIATED, ESTABLISHED, STARTED, ASKED, GIVEN],
        }),
        rounds: &[(
            1,
            &[
                (0, Act::Control),
                (
                    0,
                    Act::Asks(
                        "show\n",
                        "> show\nsection 0 A shut\nsection 1 A shut\nsection 2 B given 1\nsection 3 C shut\ntrain 1 B\n",
                    ),
                ),
                (0, Act::Asks("set A 0\n", "> set A 0\nA 0 Done\n")),
                (1, Act::SecondTrain),
                (1, Act::Sends(OPENED_AGAIN)),
                (1, Act::Hears(THIRD_VERSION)),
            ],
        )],
        status: 0,
        seen: &[
            Seen::Counts("> deliver", 2),
            Seen::OfA(&["6 > set A 0"]),
            Seen::OfB(&["7 > train B 9B028000000100000040"]),
            Seen::Audits(8, 8),
        ],
    },
    // The event that sends the first frame is missing.
    Play {
        name: "journals_of_another_run_are_refused, without a start",
        mode: ServeMode::Usual,
        journals: Some(Journals {
            rooms: (256, 256),
            before: &[SET, INITIATED, ESTABLISHED, ASKED, GIVEN],
        }),
        rounds: &[],
        status: 6,
        seen: &[Seen::Prints("")],
    },
    // The delivery of the first frame is missing.
    Play {
        name: "journals_of_another_run_are_refused, without a delivery",
        mode: ServeMode::Usual,
        journals: Some(Journals {
            rooms: (256, 256),
            before: &[SET, INITIATED, ESTABLISHED, STARTED, GIVEN],
        }),
        rounds: &[],
        status: 6,
        seen: &[Seen::Prints("")],
    },
];
