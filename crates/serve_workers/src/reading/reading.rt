ghost use Rattle.std.specs.Prelude.{ℕ, ◌-◌, ◌^◌, ◌<◌, List};
ghost use Rattle.std.specs.Io.KnownBytes.{Consumes};
ghost use Rattle.serve_workers.specs.Reading.Intake.{Brings, EndsSo};

use crate::reading::source::Source;
use rbc_msgs::{Stream, StreamFault, TrainMsg};

/// The most bytes of one read: a few messages of the greatest length.
const PIECE: usize = 4096;

/// The reason why nothing more is read from a connection.
#[derive(Clone, Copy, Debug, PartialEq, Eq)]
pub enum IntakeEnd {
    /// No bytes are left.
    EndOfStream,
    /// The bytes show a fault, or memory ran out.
    Fault(StreamFault),
    /// A read failed.
    Device,
}

/// Reads one piece from the source, and appends the messages that are complete with it. Messages before a fault of the
/// bytes are appended first. At the other ends the stream keeps the bytes of an incomplete message.
pub fn read_messages<S: Source>(
    source: &mut S,
    stream: &mut Stream,
    messages: &mut Vec<TrainMsg>,
) -> Result<(), IntakeEnd>
    requires { S.failures source.old < 2 ^ 64 - 1 }
    ensures brings { (piece : List ℕ) × Consumes (S.left source.old) (S.left source.new) piece
        × Brings stream.old piece messages.old.items messages.new.items result stream.new }
    ensures ends { EndsSo (S.left source.new) (S.failures source.old) (S.failures source.new) result }
{
    let mut buffer = [0u8; PIECE];
    match source.read(&mut buffer) {
        Err(_) => Err(IntakeEnd::Device),
        Ok(0) => Err(IntakeEnd::EndOfStream),
        Ok(count) => match stream.feed(&buffer[..count], messages) {
            Ok(()) => Ok(()),
            Err(fault) => Err(IntakeEnd::Fault(fault)),
        },
    }
}
