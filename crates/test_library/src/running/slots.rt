//! Endpoints whose slots are all taken: the connection that makes room for a new one.

use crate::line::{INITIATION, VERSION};
use crate::running::play::Act;
use crate::running::plays::{OPENED_FIRST, Play, Seen, ServeMode};

// The most connections that the control endpoint serves at once.
const CONTROLS: usize = 4;

// The most connections that a centre serves at once: one for each of the two trains, and eight.
const TRAINS: usize = 10;

// Section 2 has another home.
const NOT_HOME: Act<'_> = Act::Asks("set A 2\n", "> set A 2\nA 2 NotHome\n");

pub static PLAYS: [Play<'_>; 3] = [
    // All four connections send, and the first of them sends again. For a fifth one the second is ended.
    Play {
        name: "the_control_connection_that_is_silent_longest_makes_room",
        mode: ServeMode::Usual,
        journals: None,
        rounds: &[(
            1,
            &[
                (0, Act::Control),
                (0, Act::Asks("set A 1\n", "> set A 1\nA 1 Done\n")),
                (1, Act::Control),
                (2, Act::Control),
                (3, Act::Control),
                (1, NOT_HOME),
                (2, NOT_HOME),
                (3, NOT_HOME),
                (0, NOT_HOME),
                (CONTROLS, Act::Control),
                (CONTROLS, NOT_HOME),
                (0, NOT_HOME),
                (1, Act::Ends),
            ],
        )],
        status: 0,
        seen: &[Seen::Begins("> set A 1\nA 1 Done\n")],
    },
    // A train opens its session. All other slots have silent connections. The train opens its session over another
    // connection, and the first one ends.
    Play {
        name: "a_connection_that_serves_no_train_makes_room",
        mode: ServeMode::Usual,
        journals: None,
        rounds: &[(
            1,
            &[
                (0, Act::Train),
                (0, Act::Sends(INITIATION)),
                (0, Act::Hears(VERSION)),
                (1, Act::Train),
                (2, Act::Train),
                (3, Act::Train),
                (4, Act::Train),
                (5, Act::Train),
                (6, Act::Train),
                (7, Act::Train),
                (8, Act::Train),
                (9, Act::Train),
                (TRAINS, Act::Train),
                (TRAINS, Act::Sends("9B028000000080000040")),
                (TRAINS, Act::Hears("2002C00000009FFFFFE800")),
                (1, Act::Ends),
                (0, Act::Ends),
            ],
        )],
        status: 0,
        seen: &[OPENED_FIRST],
    },
    // More connections than slots arrive in order: twenty at the centre, and twelve at the control endpoint. Each at
    // the centre opens train 1's session, is answered, and ends with a fault.
    Play {
        name: "a_seat_is_free_after_each_connection",
        mode: ServeMode::Usual,
        journals: None,
        rounds: &[
            (
                20,
                &[
                    (0, Act::Train),
                    (0, Act::Opens(1)),
                    (0, Act::Takes(11)),
                    (0, Act::Sends("9B0240")),
                    (0, Act::Ends),
                ],
            ),
            (
                12,
                &[
                    (0, Act::Control),
                    (0, Act::Asks("set B 1\n", "> set B 1\nB 1 NotHome\n")),
                ],
            ),
        ],
        status: 0,
        seen: &[OPENED_FIRST],
    },
];
