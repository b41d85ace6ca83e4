//! Draws by lot.

ghost use Rattle.std.specs.Prelude.{◌≡◌, ◌<◌, ◌≤◌, false, true};

use crate::draws::Draws;

/// A number below the bound.
pub fn below(draws: &mut Draws, bound: usize) -> usize
    requires { 0 < bound }
    ensures { result < bound }
{
    draws.draw() as usize % bound
}

/// True with this chance, in per cent.
pub fn in_hundred(draws: &mut Draws, chance: u8) -> bool
    ensures never { chance ≡ 0 → result ≡ false }
    ensures always { 100 ≤ chance → result ≡ true }
{
    draws.draw() % 100 < u32::from(chance)
}
