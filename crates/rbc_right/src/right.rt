ghost use Rattle.std.specs.Prelude.{◌≡◌};
ghost use Rattle.rbc_right.specs.Rights.{number_of_right, right_of};

/// The right to supervise a train, which one holder has. It can't be copied or dropped. It ends when it returns to its
/// registrar, is written into a frame, or its centre ends.
#[must_use]
#[derive(Debug)]
pub struct Right {
    train: u8,
}

impl Right {
    /// The right that has arrived in a frame, for the train at this position of the line file.
    pub fn arrive(number: u8) -> Right
        ensures { result ≡ right_of number }
    {
        Right { train: number }
    }

    /// Ends this value, since a frame carries the right from now on; returns the train's position in the line file.
    pub fn send(self) -> u8
        ensures { result ≡ number_of_right self }
    {
        let Right { train } = self;
        train
    }

    /// The place of its train in the line file, from 0.
    pub fn train(&self) -> u8
        ensures { result ≡ number_of_right self.now }
    {
        self.train
    }
}
