//! Draws by lot.

ghost use Rattle.std.specs.Prelude.{◌≡◌, ◌≤◌, false, true};

use rand::RngExt;
use rand_pcg::Pcg32;

/// True with this chance, in per cent.
pub(crate) fn in_hundred(draws: &mut Pcg32, chance: u8) -> bool
    ensures never { chance ≡ 0 → result ≡ false }
    ensures always { 100 ≤ chance → result ≡ true }
{
    draws.random_range(0..100) < u32::from(chance)
}
