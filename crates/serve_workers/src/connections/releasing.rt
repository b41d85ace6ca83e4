ghost use Rattle.std.specs.Prelude.{◌≡◌};

use crate::connections::connection::Connection;
use crate::writing::Lane;
use std::alloc::Global;
use std::sync::{Arc, Mutex, MutexGuard, Wait};
use std::thread;

/// The most replies to a train that wait for their turn before the thread that reads its connection rests.
const FEW: usize = 64;

/// The most rests of that thread.
const RESTS: u32 = 10_000;

/// Sends the messages whose turn has come, over the connection that serves the train. It returns whether many replies
/// still wait. If a reply was not taken, no later reply can follow it: the connection is cut. The first reply is
/// written here if the calling thread reads the connection, and no other waits.
pub(crate) fn release<R: Wait>(
    rt: &R,
    own: Option<usize>,
    to: Option<(usize, Arc<Connection, Global>)>,
    mut lane: MutexGuard<'_, Lane>,
    is_taken: bool,
) -> bool {
    let Some((number, connection)) = to else {
        say_due(rt, None, &mut lane);
        return lane.waiting() > FEW;
    };
    if !is_taken {
        connection.cut();
    }
    let turn = if own == Some(number) {
        connection.turn()
    } else {
        None
    };
    let Some(turn) = turn else {
        say_due(rt, Some(&connection), &mut lane);
        return lane.waiting() > FEW;
    };
    let first = lane.release();
    say_due(rt, Some(&connection), &mut lane);
    let is_long = lane.waiting() > FEW;
    drop(lane);
    if let Some(first) = first {
        connection.write(turn, &first);
    }
    is_long
}

// Sends the messages whose turn has come to the writer of the connection. If there is no connection, they are dropped.
fn say_due<R: Wait>(rt: &R, connection: Option<&Connection>, lane: &mut Lane)
    ensures { lane.new.serving ≡ lane.old.serving }
{
    for _ in 0..lane.waiting() {
        let Some(reply) = lane.release() else {
            break;
        };
        if let Some(connection) = connection {
            connection.say(rt, reply);
        }
    }
}

/// Rests while many replies wait for one that another thread is about to submit.
pub(crate) fn rest<R: Wait>(rt: &R, lane: &Mutex<Lane>) {
    for _ in 0..RESTS {
        if lane.lock(rt).waiting() <= FEW {
            break;
        }
        thread::yield_now();
    }
}
