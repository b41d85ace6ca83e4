ghost use Rattle.std.specs.Prelude.{◌≡◌, None, is_some, option_map};
ghost use Rattle.rbc_spec.specs.Rules.{taking};
ghost use Rattle.rbc_spec.specs.Links.{is_under};
ghost use Rattle.rbc_handover.specs.Acceptings.{accepted_number, expectation_of};
ghost use Rattle.rbc_handover.specs.Expectations.{announced_as, ended_under, is_to_be_told, is_taking_under};

use std::mem;

/// The handover was announced, and this centre has not replied yet that it takes over.
#[derive(Clone, Copy, Debug, PartialEq, Eq)]
pub struct Expected;

/// This centre has replied that it takes over.
#[derive(Clone, Copy, Debug, PartialEq, Eq)]
pub struct Taking;

/// A handover of a train that another centre has announced to this one, which one holder has. It can't be copied or
/// dropped: it ends when it is cancelled or taken, or when its centre ends. Its phase is `Expected` or `Taking`.
#[must_use]
#[derive(Debug)]
pub struct Accepting<S> {
    number: u32,
    phase: S,
}

/// The state of a train's handover from one other centre.
#[must_use]
#[derive(Debug)]
pub enum AcceptingState {
    /// None was announced, or it was cancelled or taken.
    Nothing,
    Expected(Accepting<Expected>),
    Taking(Accepting<Taking>),
}

impl<S: Drop> Accepting<S> {
    /// Its number at the centre that announced it.
    pub fn number(&self) -> u32
        ensures { result ≡ accepted_number self.now }
    {
        self.number
    }

    /// Ends it: its number.
    pub fn end(self) -> u32
        ensures { result ≡ accepted_number self }
    {
        let Accepting { number, phase: _ } = self;
        number
    }
}

impl Accepting<Expected> {
    // The handover that was announced under this number.
    fn begin(number: u32) -> Accepting<Expected>
        ensures { accepted_number result ≡ number }
    {
        Accepting {
            number,
            phase: Expected,
        }
    }

    // This centre replies that it takes over.
    fn take_over(self) -> Accepting<Taking>
        ensures { accepted_number result ≡ accepted_number self }
    {
        let Accepting {
            number,
            phase: Expected,
        } = self;
        Accepting {
            number,
            phase: Taking,
        }
    }
}

impl AcceptingState {
    // Whether a handover is expected.
    pub(crate) fn stands(&self) -> bool
        ensures { result ≡ is_some (expectation_of self.now) }
    {
        match self {
            AcceptingState::Nothing => false,
            AcceptingState::Expected(_) => true,
            AcceptingState::Taking(_) => true,
        }
    }

    // Whether it is expected under this number.
    pub(crate) fn is_under(&self, number: u32) -> bool
        ensures { result ≡ is_under number (expectation_of self.now) }
    {
        match self {
            AcceptingState::Nothing => false,
            AcceptingState::Expected(accepting) => accepting.number() == number,
            AcceptingState::Taking(accepting) => accepting.number() == number,
        }
    }

    // Whether it is expected under this number, and this centre has replied that it takes over.
    pub(crate) fn may_take(&self, number: u32) -> bool
        ensures { result ≡ is_taking_under number (expectation_of self.now) }
    {
        match self {
            AcceptingState::Taking(accepting) => accepting.number() == number,
            AcceptingState::Expected(_) => false,
            AcceptingState::Nothing => false,
        }
    }

    // A handover is announced under this number. A pending one stays.
    pub(crate) fn announced(&mut self, number: u32)
        ensures { expectation_of self.new ≡ announced_as number (expectation_of self.old) }
    {
        if !self.stands() {
            hold(self, AcceptingState::Expected(Accepting::begin(number)));
        }
    }

    // Its number, if it is expected.
    pub(crate) fn number(&self) -> Option<u32>
        ensures { result ≡ option_map (λ e. e.number) (expectation_of self.now) }
    {
        match self {
            AcceptingState::Nothing => None,
            AcceptingState::Expected(accepting) => Some(accepting.number()),
            AcceptingState::Taking(accepting) => Some(accepting.number()),
        }
    }

    // This centre takes over. The result is whether it has to reply so now: not if nothing is expected, nor if it has
    // replied before.
    pub(crate) fn take_over(&mut self) -> bool
        ensures told { result ≡ is_to_be_told (expectation_of self.old) }
        ensures state { expectation_of self.new ≡ option_map taking (expectation_of self.old) }
    {
        match mem::replace(self, AcceptingState::Nothing) {
            AcceptingState::Expected(accepting) => {
                hold(self, AcceptingState::Taking(accepting.take_over()));
                true
            }
            other => {
                hold(self, other);
                false
            }
        }
    }

    // The handover of this number is cancelled. One under another number stays.
    pub(crate) fn cancelled(&mut self, number: u32)
        ensures { expectation_of self.new ≡ ended_under number (expectation_of self.old) }
    {
        if self.is_under(number) {
            self.forget();
        }
    }

    // Nothing is expected from now on.
    pub(crate) fn forget(&mut self)
        ensures { expectation_of self.new ≡ None }
    {
        hold(self, AcceptingState::Nothing);
    }

    /// Ends it when its centre ends.
    pub fn end(self) {
        match self {
            AcceptingState::Nothing => {}
            AcceptingState::Expected(accepting) => {
                accepting.end();
            }
            AcceptingState::Taking(accepting) => {
                accepting.end();
            }
        }
    }
}

// Replaces the state. The state before ends.
fn hold(held: &mut AcceptingState, state: AcceptingState)
    ensures { held.new ≡ state }
{
    let before = mem::replace(held, state);
    before.end();
}
