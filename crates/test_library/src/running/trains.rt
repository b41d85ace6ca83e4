//! Trains that are served side by side, while a right arrives from another centre.

use crate::line::{ACCEPTED, INITIATION, VERSION};
use crate::running::play::Act;
use crate::running::plays::{Play, Seen, ServeMode};

pub static PLAYS: [Play<'_>; 1] = [
    // The interlocking releases section 1, and is answered. Then train 2 opens its session and starts a mission in
    // section 1, with the right from centre C. Meanwhile train 1 opens its session. Train 2 stays connected until train
    // 1 is answered.
    Play {
        name: "two_trains_are_served_and_the_print_is_audited",
        mode: ServeMode::Usual,
        journals: None,
        rounds: &[
            (
                1,
                &[
                    (0, Act::Control),
                    (0, Act::Asks("set A 1\n", "> set A 1\nA 1 Done\n")),
                ],
            ),
            (
                1,
                &[
                    (0, Act::Train),
                    (1, Act::Train),
                    (
                        0,
                        Act::Sends(
                            "9B0280000000400000809F0280000000800000809D0680000000C00000900040A0280CA096140050014406400418",
                        ),
                    ),
                    (1, Act::Sends(INITIATION)),
                    (0, Act::Hears(VERSION)),
                    (0, Act::Hears(ACCEPTED)),
                    (1, Act::Hears(VERSION)),
                ],
            ),
        ],
        status: 0,
        seen: &[
            Seen::Noted(" A: train 2 begins its mission", 1),
            Seen::Begins("> set A 1\nA 1 Done\n"),
            Seen::Has("A -> 2 2902800000009FFFFFE0\n"),
            Seen::Audits(7, u64::MAX),
        ],
    },
];
