//! The meaning of errors of the system.

ghost use Rattle.std.specs.Prelude.{◌≡◌};
ghost use Rattle.serve_line.specs.Failures as spec;

use std::io::ErrorKind;

/// Whether this error of `accept` only means that no connection came.
pub(crate) fn is_idle(kind: ErrorKind) -> bool
    ensures { result ≡ spec.is_idle kind }
{
    matches!(
        kind,
        ErrorKind::WouldBlock | ErrorKind::Interrupted | ErrorKind::ConnectionAborted
    )
}

/// Whether this error of a read or a write only means that nothing could be done now.
pub(crate) fn is_rest(kind: ErrorKind) -> bool
    ensures { result ≡ spec.is_rest kind }
{
    matches!(
        kind,
        ErrorKind::WouldBlock | ErrorKind::TimedOut | ErrorKind::Interrupted
    )
}
