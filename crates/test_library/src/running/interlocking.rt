//! The control endpoint: the answers to its lines, and how it ends.

use crate::line::{INITIATION, VERSION};
use crate::running::play::Act;
use crate::running::plays::{OPENED_FIRST, Play, Seen, ServeMode};

pub static PLAYS: [Play<'_>; 4] = [
    // Lines of the control endpoint with their answers, and the end of it. In the print the event of C is the second:
    // it has the stamp of the first event of A.
    Play {
        name: "each_line_is_answered_as_a_run_prints_it",
        mode: ServeMode::Usual,
        journals: None,
        rounds: &[(
            1,
            &[
                (0, Act::Control),
                (0, Act::Asks("set A 1\n", "> set A 1\nA 1 Done\n")),
                (0, Act::Asks("set A 2\n", "> set A 2\nA 2 NotHome\n")),
                (0, Act::Asks("set C 3\n", "> set C 3\nC 3 Done\n")),
                (0, Act::Asks("set D 1\n", "script fault\n")),
                (0, Act::Asks("set A 65536\n", "script fault\n")),
                (0, Act::Asks("train A 9B\n", "script fault\n")),
                (0, Act::Asks("deliver A B 1\n", "script fault\n")),
                (
                    0,
                    Act::Asks(
                        "\n# no line\nshow\n",
                        "> show\nsection 0 A shut\nsection 1 A open\nsection 2 B shut\nsection 3 C open\n",
                    ),
                ),
                (0, Act::Asks("unset A 1\n", "> unset A 1\nA 1 Done\n")),
                (0, Act::Asks("stop\n", "")),
                (0, Act::Ends),
            ],
        )],
        status: 0,
        seen: &[Seen::Prints(
            "> set A 1\nA 1 Done\n> set C 3\nC 3 Done\n> set A 2\nA 2 NotHome\n> unset A 1\nA 1 Done\nsection 0 A shut\nsection 1 A shut\nsection 2 B shut\nsection 3 C open\n",
        )],
    },
    // A request of a browser ends its connection, and the lines after it are not commands.
    Play {
        name: "a_request_of_a_browser_ends_its_connection",
        mode: ServeMode::Usual,
        journals: None,
        rounds: &[(
            1,
            &[
                (0, Act::Control),
                (0, Act::Asks("POST / HTTP/1.1\nset A 1\n", "")),
                (0, Act::Ends),
                (1, Act::Control),
                (1, Act::Asks("set A 0\n", "> set A 0\nA 0 Done\n")),
            ],
        )],
        status: 0,
        seen: &[Seen::Prints(
            "> set A 0\nA 0 Done\nsection 0 A open\nsection 1 A shut\nsection 2 B shut\nsection 3 C shut\n",
        )],
    },
    // A train holds its connection, and `stop now` ends it.
    Play {
        name: "stop_now_ends_the_connection_of_a_train",
        mode: ServeMode::Usual,
        journals: None,
        rounds: &[(
            1,
            &[
                (0, Act::Train),
                (0, Act::Sends(INITIATION)),
                (0, Act::Hears(VERSION)),
                (1, Act::Control),
                (1, Act::Asks("stop now\n", "")),
                (1, Act::Ends),
                (0, Act::Ends),
            ],
        )],
        status: 0,
        seen: &[OPENED_FIRST],
    },
    // Connection 1 sends bytes with a fault, and is ended. After that a train on connection 0 is answered.
    Play {
        name: "bytes_with_a_fault_end_their_connection_alone",
        mode: ServeMode::Usual,
        journals: None,
        rounds: &[(
            1,
            &[
                (0, Act::Train),
                (1, Act::Train),
                (1, Act::Sends("9B0240")),
                (1, Act::Ends),
                (0, Act::Sends(INITIATION)),
                (0, Act::Takes(11)),
            ],
        )],
        status: 0,
        seen: &[OPENED_FIRST],
    },
];
