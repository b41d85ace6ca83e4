ghost use Rattle.std.specs.Prelude.{◌≡◌, ◌<◌, ◌^◌};
ghost use Rattle.cli_storm.specs.Draws.{next, drawn};

// The constants of a linear congruential generator with 64 bits (Knuth's MMIX).
const MULTIPLIER: u64 = 6_364_136_223_846_793_005;

const INCREMENT: u64 = 1_442_695_040_888_963_407;

/// Draws the numbers of a storm: the same numbers for the same seed.
#[derive(Clone, Copy)]
pub struct Draws {
    /// The state: the seed, or the number that the last draw left.
    pub x: u64,
}

impl Draws {
    /// Draws a number below 2 147 483 648.
    pub fn draw(&mut self) -> u32
        ensures left { self.new.x ≡ next self.old.x }
        ensures drawn { result ≡ drawn self.new.x }
        ensures range { result < 2 ^ 31 }
    {
        self.x = self.x.wrapping_mul(MULTIPLIER).wrapping_add(INCREMENT);
        (self.x / (1 << 33)) as u32
    }
}
