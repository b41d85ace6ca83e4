ghost use Rattle.std.specs.Prelude.{◌≡◌, ◌<◌, [], Some, length, IfSome};
ghost use Rattle.rbc_msgs.specs.Streams.{Fed};

use crate::fault::StreamFault;
use crate::stream_reading::read_on;
use crate::train::TrainMsg;
use std::alloc::Global;
use std::marker::Model;
use std::mem;

/// The bytes from a train, which arrive in pieces of any size, as consecutive messages (profile). It keeps the first
/// part of a message that is not whole, at most 1 022 bytes. After a fault it reads nothing further.
#[derive(Debug, Drop)]
pub struct Stream {
    alloc: Global,
    state: State,
}

#[derive(Debug, Drop)]
enum State {
    // The first part of a message that is not whole.
    Reading(Vec<u8>),
    Failed,
}

impl Model for Stream {
    ghost use Rattle.std.specs.Prelude.{ℕ, List, Option};

    ghost Value = { Option (List ℕ) };

    ghost use Rattle.rbc_msgs.specs.StreamView.{kept_bytes, KeepsARest};

    ghost view = { kept_bytes };

    ghost invariant = { KeepsARest };
}

impl Stream {
    /// The stream of a connection on which nothing has arrived yet.
    pub fn new(alloc: Global) -> Stream
        ensures { result ≡ Some [] }
    {
        Stream {
            alloc,
            state: State::Reading(Vec::new(alloc)),
        }
    }

    /// Takes the next piece of the stream, and appends each message that is whole now. An unknown NID_MESSAGE and a too
    /// small L_MESSAGE are found with the third byte of a message, any other fault with its last. The messages before
    /// it are appended. After any fault, or if memory ran out, each later call answers `Failed`.
    pub fn feed(&mut self, piece: &[u8], out: &mut Vec<TrainMsg>) -> Result<(), StreamFault>
        ensures fed { Fed self.old piece.now out.old.items out.new.items result self.new }
        ensures few { IfSome self.new (λ rest. length rest < 1023) }
    {
        let State::Reading(mut rest) = mem::replace(&mut self.state, State::Failed) else {
            return Err(StreamFault::Failed);
        };
        read_on(self.alloc, &mut rest, piece, out)?;
        self.state = State::Reading(rest);
        Ok(())
    }
}
