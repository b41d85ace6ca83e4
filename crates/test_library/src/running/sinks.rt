//! The delivery of a centre's answers: each goes to its train, over the connection that serves this train.

use crate::line::{INITIATION, VERSION};
use crate::running::client::{Done, Missed, heard, say};
use crate::running::line::{MISSION_OF_ONE, REQUEST_OF_ONE, bytes_of};
use crate::running::play::Act;
use crate::running::plays::{Play, Seen, ServeMode};
use rbc_msgs::{TrackBody, TrackMsg, decode_track};
use std::alloc::Global;
use std::net::TcpStream;
use std::thread;
use std::time::Duration;

// The most requests of the train for its authority.
const REQUESTS: u32 = 1_000;

pub static PLAYS: [Play<'_>; 3] = [
    // Train 1 opens its session, and starts its mission. Sections 0, 1 and 2 are released.
    Play {
        name: "a_train_hears_both_messages_of_one_step",
        mode: ServeMode::Usual,
        journals: None,
        rounds: &[(
            1,
            &[
                (0, Act::Control),
                (0, Act::Asks("set A 0\n", "> set A 0\nA 0 Done\n")),
                (0, Act::Asks("set A 1\n", "> set A 1\nA 1 Done\n")),
                (0, Act::Asks("set B 2\n", "> set B 2\nB 2 Done\n")),
                (1, Act::Train),
                (1, Act::Sends(MISSION_OF_ONE)),
                (1, Act::Takes(11 + 10 + 14)),
                (1, Act::Crosses),
            ],
        )],
        status: 0,
        seen: &[Seen::Begins("> set A 0\nA 0 Done\n")],
    },
    // Section 1 is wished back. Message 9 with T_TRAIN 5 asks the train to end its authority 1 000 m after the start of
    // section 0.
    Play {
        name: "a_train_hears_what_the_interlocking_wishes",
        mode: ServeMode::Usual,
        journals: None,
        rounds: &[(
            1,
            &[
                (0, Act::Control),
                (0, Act::Asks("set A 0\n", "> set A 0\nA 0 Done\n")),
                (0, Act::Asks("set A 1\n", "> set A 1\nA 1 Done\n")),
                (0, Act::Asks("set B 2\n", "> set B 2\nB 2 Done\n")),
                (1, Act::Train),
                (1, Act::Sends(MISSION_OF_ONE)),
                (1, Act::Takes(11 + 10 + 14)),
                (1, Act::Sends(REQUEST_OF_ONE)),
                (1, Act::Takes(18)),
                (
                    0,
                    Act::Asks(
                        "unset A 1\n",
                        "> unset A 1\nA -> 1 09048000000140280C81E810901FF801F400\nA 1 Asked\n",
                    ),
                ),
                (1, Act::Hears("09048000000140280C81E810901FF801F400")),
            ],
        )],
        status: 0,
        seen: &[Seen::Begins("> set A 0\nA 0 Done\n")],
    },
    // The train opens its session with T_TRAIN 2. A second connection sends T_TRAIN 1 and then bytes with a fault, and
    // ends unanswered. Messages to the train are sent over the first connection.
    Play {
        name: "a_session_that_is_not_heard_moves_no_train",
        mode: ServeMode::Usual,
        journals: None,
        rounds: &[(
            1,
            &[
                (0, Act::Train),
                (0, Act::Sends("9B028000000080000040")),
                (0, Act::Hears(VERSION)),
                (1, Act::Train),
                (1, Act::Sends(INITIATION)),
                (1, Act::Sends("9B0240")),
                (1, Act::Ends),
                (0, Act::Sends("9B0280000000C0000040")),
                (0, Act::Hears("2002C00000009FFFFFE800")),
            ],
        )],
        status: 0,
        seen: &[Seen::Begins(
            "> train A 9B028000000080000040\nA -> 1 2002C00000005FFFFFE800\n> train A 9B028000000040000040\nA silent 1\n",
        )],
    },
];

/// Asks for the authority until it reaches over the border. Message 3 of that step is followed by message 24 with the
/// next T_TRAIN.
pub fn ask_until_both_come(host: &HostRuntime, alloc: Global, train: &TcpStream) -> Done<()> {
    let mut before = None;
    for k in 0..REQUESTS {
        say(train, &request(alloc, 5 + k)?)?;
        let came = message(alloc, train)?;
        match came.body() {
            TrackBody::Authority { .. } => before = Some(came.t_train()),
            TrackBody::Transition { .. } if before == came.t_train().checked_sub(1) => return Ok(
                (),
            ),
            _ => return Err(Missed::OtherAnswer),
        }
        thread::sleep(host, Duration::from_millis(5));
    }
    Err(Missed::NoAnswer)
}

// The request of train 1 with this T_TRAIN.
fn request(alloc: Global, t_train: u32) -> Done<Vec<u8>> {
    let sixty_fourths = t_train.saturating_mul(64);
    let digits = format!(in alloc;
        "8406800000{sixty_fourths:04X}00004200081405019012C2800A002880C80083"
    )?;
    bytes_of(alloc, &digits)
}

// The next message of the centre.
fn message(alloc: Global, train: &TcpStream) -> Done<TrackMsg> {
    let mut bytes = heard(alloc, train, 3)?;
    let length = length_in(&bytes)?;
    let rest = heard(alloc, train, length.saturating_sub(3))?;
    bytes.extend_from_slice(&rest)?;
    decode_track(&bytes).ok().ok_or(Missed::Digits)
}

// L_MESSAGE, which begins after the first byte.
fn length_in(bytes: &[u8]) -> Done<usize> {
    match bytes {
        [_, second, third, ..] => Ok(usize::from(*second) * 4 + usize::from(*third) / 64),
        _ => Err(Missed::Read),
    }
}
