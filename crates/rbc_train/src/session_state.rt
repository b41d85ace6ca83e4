//! The changes of a train's session.

ghost use Rattle.std.specs.Prelude.{◌≡◌};
ghost use Rattle.rbc_spec.specs.Centre as spec;
ghost use Rattle.rbc_session.specs.Sessions.{phase_at, HasRoom};
ghost use Rattle.rbc_session.specs.SessionStates.{StandsFor};
ghost use Rattle.rbc_train.specs.SessionStates.{Enters};

use rbc_session::{SessionState, Sessions};
use std::mem;

// It is up, if it was opened.
fn established(
    sessions: &mut Sessions,
    session_state: SessionState,
    nid_engine: u32,
) -> SessionState
    requires stands { StandsFor sessions.old session_state nid_engine }
    requires opened { phase_at sessions.old nid_engine ≡ spec.Opened }
    ensures { Enters sessions.old sessions.new result nid_engine spec.Up }
{
    match session_state {
        SessionState::Opened(session) => SessionState::Up(sessions.establish(session)),
        SessionState::Closed => SessionState::Closed,
        SessionState::Up(session) => SessionState::Up(session),
    }
}

/// Closes the train's session, if there is one, and opens another.
pub(crate) fn open(session_state: &mut SessionState, sessions: &mut Sessions, nid_engine: u32)
    requires stands { StandsFor sessions.old session_state.old nid_engine }
    requires room { HasRoom sessions.old }
    ensures { Enters sessions.old sessions.new session_state.new nid_engine spec.Opened }
{
    let stood = mem::replace(session_state, SessionState::Closed);
    sessions.end(stood);
    let opened = SessionState::Opened(sessions.open_reserved(nid_engine));
    let closed = mem::replace(session_state, opened);
    sessions.end(closed);
}

/// The session that was opened with the train is up.
pub(crate) fn establish(session_state: &mut SessionState, sessions: &mut Sessions, nid_engine: u32)
    requires stands { StandsFor sessions.old session_state.old nid_engine }
    requires opened { phase_at sessions.old nid_engine ≡ spec.Opened }
    ensures { Enters sessions.old sessions.new session_state.new nid_engine spec.Up }
{
    let stood = mem::replace(session_state, SessionState::Closed);
    let stands = established(sessions, stood, nid_engine);
    let left = mem::replace(session_state, stands);
    sessions.end(left);
}

/// Closes the train's session, if there is one.
pub(crate) fn close(session_state: &mut SessionState, sessions: &mut Sessions, nid_engine: u32)
    requires stands { StandsFor sessions.old session_state.old nid_engine }
    ensures { Enters sessions.old sessions.new session_state.new nid_engine spec.Closed }
{
    let stood = mem::replace(session_state, SessionState::Closed);
    sessions.end(stood);
}
