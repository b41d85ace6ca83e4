ghost use Rattle.std.specs.Prelude.{◌≡◌};

/// The train has asked for the session (3.5.3).
#[derive(Clone, Copy, Debug, PartialEq, Eq)]
pub struct Opened;

/// The train has confirmed the session (3.5.3).
#[derive(Clone, Copy, Debug, PartialEq, Eq)]
pub struct Up;

/// A session with a train, which one holder has. It can't be copied or dropped: it ends in `Sessions::close`, also when
/// its centre ends. Its phase is `Opened` or `Up`.
#[must_use]
#[derive(Debug)]
pub struct Session<S> {
    pub(crate) key: usize,
    pub(crate) phase: S,
}

/// The state of a train's session at a centre.
#[derive(Debug)]
pub enum SessionState {
    /// There is none.
    Closed,
    Opened(Session<Opened>),
    Up(Session<Up>),
}

/// The phase of the session with a train.
#[derive(Clone, Copy, Debug, PartialEq, Eq)]
pub enum Phase {
    /// There is none.
    Closed,
    /// The train has asked for it.
    Opened,
    /// The train has confirmed it.
    Up,
}

impl SessionState {
    ghost use Rattle.rbc_session.specs.SessionStates.{phase_of, session_phase};

    /// The phase of the session.
    pub fn phase(&self) -> Phase
        ensures { phase_of result ≡ session_phase self.now }
    {
        match self {
            SessionState::Closed => Phase::Closed,
            SessionState::Opened(_) => Phase::Opened,
            SessionState::Up(_) => Phase::Up,
        }
    }
}
