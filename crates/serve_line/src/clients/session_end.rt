ghost use Rattle.std.specs.Prelude.{◌≡◌};
ghost use Rattle.serve_line.specs.SessionEnds as spec;

use serve_workers::SessionEnd;

/// The end of a train's connection.
#[derive(Clone, Copy)]
pub(crate) enum End {
    Session(SessionEnd),
    /// Its train was too slow to read its answers.
    Cut,
    /// It had to leave its slot.
    Left,
    /// A message of this engine came over it, and it does not serve that train.
    Foreign(u32),
}

/// The end of a connection with this end of its session. `is_kept`: it was not cut before. `is_leaving`: it has to
/// leave its slot. `refused`: the engine of the message that it refused, if it refused one.
pub(crate) fn end_after(
    session: SessionEnd,
    is_kept: bool,
    is_leaving: bool,
    refused: Option<u32>,
) -> End
    ensures { result ≡ spec.end_after session is_kept is_leaving refused }
{
    match refused {
        Some(nid_engine) => End::Foreign(nid_engine),
        None if is_kept => kept_end(session, is_leaving),
        None => End::Cut,
    }
}

// The end of a connection that was not cut. One that has to leave its slot gives no further message to its session.
fn kept_end(session: SessionEnd, is_leaving: bool) -> End
    ensures { result ≡ spec.kept_end session is_leaving }
{
    match session {
        SessionEnd::Device if is_leaving => End::Left,
        _ => End::Session(session),
    }
}

impl End {
    /// The engine of the message at which the connection ended, if it refused that message.
    pub fn foreign(self) -> Option<u32>
        ensures { result ≡ spec.foreign_at self }
    {
        match self {
            End::Foreign(nid_engine) => Some(nid_engine),
            End::Session(_) | End::Cut | End::Left => None,
        }
    }

    /// The text of the note of the end, with the number of its fault or of the engine.
    pub fn words(self) -> (&'static str, Option<u32>)
        ensures words { result.0.now ≡ spec.words_of self }
        ensures number { result.1 ≡ spec.number_at self }
    {
        match self {
            End::Session(SessionEnd::EndOfStream) => ("ends", None),
            End::Session(SessionEnd::Fault(fault)) => (
                "is ended, stream fault",
                Some(u32::from(fault.number())),
            ),
            End::Session(SessionEnd::Device) => ("is lost", None),
            End::Session(SessionEnd::Refused(fault)) => (
                "is ended, refused",
                Some(u32::from(fault.number())),
            ),
            End::Cut => ("is cut, its train is too slow", None),
            End::Left => ("is ended, it had to leave its slot", None),
            End::Foreign(nid_engine) => (
                "is ended, a message came over it of a train that it does not serve:",
                Some(nid_engine),
            ),
        }
    }
}
