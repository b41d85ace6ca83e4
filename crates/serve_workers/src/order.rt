ghost use Rattle.std.specs.Prelude.{◌≡◌, ◌+◌, ◌-◌, ◌^◌, ℕ, Bool, min};

/// The numbers under which the receiving worker of a link asks for frames.
pub trait Order {
    /// The number that is asked for now.
    ghost asks: { Self → ℕ };

    /// The number that may be asked for next, after a turn that committed a frame or after one that did not.
    ghost follows: { Self → Bool → ℕ → Type 0 };

    /// The number that is asked for now.
    fn number(&self) -> u32
        ensures { result ≡ asks self.now };

    /// Goes on to the next number, after a turn that committed a frame or after one that did not.
    fn go_on(&mut self, is_committed: bool)
        ensures { follows self.old is_committed (asks self.new) };
}

/// The order of the numbers: 1, 2, 3 and so on. Each is repeated until its frame was received and committed.
#[derive(Debug, Drop)]
pub struct InOrder {
    number: u32,
}

impl InOrder {
    /// Asks for frame 1 first.
    pub fn new() -> InOrder
        ensures { result.number ≡ 1 }
    {
        InOrder { number: 1 }
    }

    /// Asks first for the frame after this number, which is that of the last committed frame. There is no number after
    /// the greatest: that is asked for again.
    pub fn after(number: u32) -> InOrder
        ensures { result.number ≡ min (number + 1) (2 ^ 32 - 1) }
    {
        InOrder {
            number: number.saturating_add(1),
        }
    }
}

impl Order for InOrder {
    ghost use Rattle.std.specs.Prelude.{◌≡◌, ◌+◌, ◌-◌, ◌^◌, min, MatchBool};

    ghost asks = { λ o. o.number };

    ghost follows = { λ o is_committed n. MatchBool is_committed (n ≡ min (o.number + 1) (2 ^ 32 - 1)) (n ≡ o.number) };

    fn number(&self) -> u32 {
        self.number
    }

    fn go_on(&mut self, is_committed: bool) {
        if is_committed {
            self.number = self.number.saturating_add(1);
        }
    }
}
