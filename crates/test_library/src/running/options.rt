//! The options of `serve`. They bound the messages of a train, report shut sections and the use of logs and links, and
//! bind a train to a connection.

use crate::line::{ESTABLISHED, INITIATION, VERSION};
use crate::running::line::{MISSION_OF_ONE, REQUEST_OF_ONE};
use crate::running::play::Act;
use crate::running::plays::{OPENED_FIRST, Play, Seen, ServeMode};

// Train 1 initiates its session again with T_TRAIN 3 and 4.
const THIRD_INITIATION: &str = "9B0280000000C0000040";

const FOURTH_INITIATION: &str = "9B028000000100000040";

// Message 32 with T_TRAIN 2 and 3.
const SECOND_VERSION: &str = "2002C00000009FFFFFE800";

const THIRD_VERSION: &str = "2002C0000000DFFFFFE800";

// Train 1 has left section 0.
const REPORT: &str = "880680000001C0000040010280A0328190500140051019001060";

pub static PLAYS: [Play<'_>; 3] = [
    // A message of train 1 before its first initiation ends its connection. Connection 1 opens the session. A message
    // over connection 2 ends connection 2, and an initiation over connection 3 is accepted. No other message is in the
    // log.
    Play {
        name: "a_train_is_served_over_the_connection_that_opened_its_session",
        mode: ServeMode::Bound,
        journals: None,
        rounds: &[(
            1,
            &[
                (0, Act::Train),
                (0, Act::Sends(ESTABLISHED)),
                (0, Act::Ends),
                (1, Act::Train),
                (1, Act::Sends(INITIATION)),
                (1, Act::Hears(VERSION)),
                (2, Act::Train),
                (2, Act::Sends(ESTABLISHED)),
                (2, Act::Ends),
                (1, Act::Sends(ESTABLISHED)),
                (1, Act::Sends(THIRD_INITIATION)),
                (1, Act::Hears(SECOND_VERSION)),
                (3, Act::Train),
                (3, Act::Sends(FOURTH_INITIATION)),
                (3, Act::Hears(THIRD_VERSION)),
                (1, Act::Ends),
            ],
        )],
        status: 0,
        seen: &[
            OPENED_FIRST,
            Seen::Counts("> train A ", 4),
            Seen::Counts("> train A 9F028000000080000040\n", 1),
        ],
    },
    // Train 1 opens its session six times, all at once, and gets six answers. Two pass at once, and each of the others
    // 50 milliseconds after the one before. The clock's milliseconds may be cut off at both ends.
    Play {
        name: "a_train_that_is_too_fast_is_held_back_and_loses_nothing",
        mode: ServeMode::Slow,
        journals: None,
        rounds: &[(
            1,
            &[
                (0, Act::Train),
                (0, Act::Opens(6)),
                (0, Act::Takes(6 * 11)),
                (0, Act::Lasts(4 * 50 - 2)),
            ],
        )],
        status: 0,
        seen: &[Seen::Counts("> train A ", 6)],
    },
    // The interlocking wishes section 0 back while the train covers it, and then the train leaves it. Connection 1 of
    // the interlocking only listens.
    Play {
        name: "the_interlocking_is_told_of_a_section_that_is_shut",
        mode: ServeMode::Reporting,
        journals: None,
        rounds: &[(
            1,
            &[
                (0, Act::Control),
                (1, Act::Control),
                (0, Act::Asks("set A 0\n", "> set A 0\nA 0 Done\n")),
                (0, Act::Asks("set A 1\n", "> set A 1\nA 1 Done\n")),
                (
                    0,
                    Act::Asks(
                        "show\n",
                        "> show\nsection 0 A open\nsection 1 A open\nsection 2 B shut\nsection 3 C shut\nA log 2 of 1000000\nA clock 2 of 1073741823\nA link B 0 of 65536\nA link C 0 of 65536\nB log 0 of 1000000\nB clock 0 of 1073741823\nB link A 0 of 65536\nB link C 0 of 65536\nC log 0 of 1000000\nC clock 0 of 1073741823\nC link A 0 of 65536\nC link B 0 of 65536\n",
                    ),
                ),
                (2, Act::Train),
                (2, Act::Sends(MISSION_OF_ONE)),
                (2, Act::Takes(11 + 10 + 14)),
                (2, Act::Sends(REQUEST_OF_ONE)),
                (2, Act::Takes(18)),
                (0, Act::Asks("unset A 0\n", "> unset A 0\nA 0 Asked\n")),
                (2, Act::Sends(REPORT)),
                (0, Act::Asks("", "A 0 Told\n")),
                (1, Act::Asks("", "A 0 Told\n")),
            ],
        )],
        status: 0,
        seen: &[
            Seen::Noted(" A: train 1 begins its mission", 1),
            Seen::Noted(" A: section 0 was wished back, and is shut now", 1),
            Seen::Begins("> set A 0\nA 0 Done\n> set A 1\nA 1 Done\n"),
        ],
    },
];
