ghost use Rattle.std.specs.Prelude.{◌≡◌};
ghost use Rattle.rbc_hand.specs.Tokens.{section_of};

use crate::lent::Lent;
use rbc_book::Claim;

/// The token of a section in a train's movement authority. It can't be copied or dropped.
#[must_use]
#[derive(Debug)]
pub enum Token {
    /// A section of the centre's own home.
    Own(Claim),
    /// A section of another home.
    Name(Lent),
}

impl Token {
    /// The section, numbered over the whole line.
    pub fn section(&self) -> u16
        ensures { result ≡ section_of self.now }
    {
        match self {
            Token::Own(claim) => claim.section(),
            Token::Name(lent) => lent.section(),
        }
    }
}
