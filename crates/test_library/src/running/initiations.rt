//! Which connection serves a train that initiates its session more than once.

use crate::line::{INITIATION, VERSION};
use crate::running::play::Act;
use crate::running::plays::{OPENED_FIRST, Play, ServeMode};

// Train 2 initiates its session, and is answered as train 1.
const INITIATION_OF_TWO: &str = "9B028000000040000080";

// Train 1 initiates its session again, with T_TRAIN 2 and 4.
const SECOND_INITIATION: &str = "9B028000000080000040";

const FOURTH_INITIATION: &str = "9B028000000100000040";

// It establishes the session with T_TRAIN 2 and 3, and terminates it with T_TRAIN 3 and 4.
const SECOND_ESTABLISHED: &str = "9F028000000080000040";

const THIRD_ESTABLISHED: &str = "9F0280000000C0000040";

const THIRD_TERMINATION: &str = "9C0280000000C0000040";

const FOURTH_TERMINATION: &str = "9C028000000100000040";

// Message 32 with T_TRAIN 2 and 3, and message 39 with T_TRAIN 2 and 3.
const SECOND_VERSION: &str = "2002C00000009FFFFFE800";

const THIRD_VERSION: &str = "2002C0000000DFFFFFE800";

const SECOND_TERMINATED: &str = "2702800000009FFFFFE0";

const THIRD_TERMINATED: &str = "270280000000DFFFFFE0";

pub static PLAYS: [Play<'_>; 3] = [
    // The train initiates its session over connection 0, and then over connection 1, over which it ends the session.
    Play {
        name: "the_later_initiation_serves_the_train",
        mode: ServeMode::Usual,
        journals: None,
        rounds: &[(
            1,
            &[
                (0, Act::Train),
                (0, Act::Sends(INITIATION)),
                (0, Act::Hears(VERSION)),
                (1, Act::Train),
                (1, Act::Sends(SECOND_INITIATION)),
                (1, Act::Hears(SECOND_VERSION)),
                (0, Act::Ends),
                (1, Act::Sends(THIRD_ESTABLISHED)),
                (1, Act::Sends(FOURTH_TERMINATION)),
                (1, Act::Hears(THIRD_TERMINATED)),
            ],
        )],
        status: 0,
        seen: &[OPENED_FIRST],
    },
    // The train initiates its session, ends it, and initiates it again over the same connection.
    Play {
        name: "a_second_initiation_over_one_connection_leaves_nothing_out",
        mode: ServeMode::Usual,
        journals: None,
        rounds: &[(
            1,
            &[
                (0, Act::Train),
                (0, Act::Sends(INITIATION)),
                (0, Act::Sends(SECOND_ESTABLISHED)),
                (0, Act::Sends(THIRD_TERMINATION)),
                (0, Act::Sends(FOURTH_INITIATION)),
                (0, Act::Hears(VERSION)),
                (0, Act::Hears(SECOND_TERMINATED)),
                (0, Act::Hears(THIRD_VERSION)),
            ],
        )],
        status: 0,
        seen: &[OPENED_FIRST],
    },
    // Two trains initiate their sessions over one connection, and the first train once more. In between it is answered
    // that its session has ended: that answer has no connection.
    Play {
        name: "a_connection_serves_the_train_that_initiated_last",
        mode: ServeMode::Usual,
        journals: None,
        rounds: &[(
            1,
            &[
                (0, Act::Train),
                (0, Act::Sends(INITIATION)),
                (0, Act::Sends(SECOND_ESTABLISHED)),
                (0, Act::Sends(INITIATION_OF_TWO)),
                (0, Act::Sends(THIRD_TERMINATION)),
                (0, Act::Sends(FOURTH_INITIATION)),
                (0, Act::Hears(VERSION)),
                (0, Act::Hears(VERSION)),
                (0, Act::Hears(THIRD_VERSION)),
            ],
        )],
        status: 0,
        seen: &[OPENED_FIRST],
    },
];
