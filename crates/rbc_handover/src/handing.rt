ghost use Rattle.std.specs.Prelude.{◌≡◌};
ghost use Rattle.rbc_handover.specs.Handings.{number_of, centre_of, name_of};

/// The name of a handover in the frames to the accepting centre.
#[derive(Clone, Copy, Debug, PartialEq, Eq)]
pub struct HandoverName {
    /// Its number at the centre that announced it, from 1.
    pub number: u32,
    /// The accepting centre.
    pub to: u8,
}

/// A handover of a train that its centre has announced, which one holder has. It can't be copied or dropped: it is
/// yielded or cancelled. It is cancelled also when its centre ends.
#[must_use]
#[derive(Debug)]
pub struct Handing {
    number: u32,
    to: u8,
}

impl Handing {
    // The handover that is announced under this number to this centre.
    pub(crate) fn begin(number: u32, to: u8) -> Handing
        ensures number { number_of result ≡ number }
        ensures centre { centre_of result ≡ to }
    {
        Handing { number, to }
    }

    /// Its number at the centre that announced it, from 1.
    pub fn number(&self) -> u32
        ensures { result ≡ number_of self.now }
    {
        self.number
    }

    /// The accepting centre.
    pub fn to(&self) -> u8
        ensures { result ≡ centre_of self.now }
    {
        self.to
    }

    /// Its name.
    pub fn name(&self) -> HandoverName
        ensures { result ≡ name_of self.now }
    {
        HandoverName {
            number: self.number,
            to: self.to,
        }
    }

    /// Ends it by a cancellation; returns its name for the frame to the accepting centre.
    pub fn cancel(self) -> HandoverName
        ensures { result ≡ name_of self }
    {
        let Handing { number, to } = self;
        HandoverName { number, to }
    }

    /// Ends it by a Yield; returns its name for the frame that carries the mission to the accepting centre.
    pub fn yield_to(self) -> HandoverName
        ensures { result ≡ name_of self }
    {
        let name = self.name();
        let Handing { number: _, to: _ } = self;
        name
    }
}
