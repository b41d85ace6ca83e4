//! Pseudo-random numbers.

// The next pseudo-random number after this one.
fn next_of(seed: u32) -> u32 {
    seed.wrapping_mul(1_664_525).wrapping_add(1_013_904_223)
}

/// A sequence of pseudo-random numbers.
#[derive(Clone, Copy)]
pub struct Chance {
    pub seed: u32,
}

impl Chance {
    /// The next number below `count`, or 0 if `count` is 0.
    pub fn below(&mut self, count: u16) -> u16 {
        self.seed = next_of(self.seed);
        ((self.seed >> 16) % u32::from(count.max(1))) as u16
    }

    /// Is true once in `turns` turns.
    pub fn once_in(&mut self, turns: u16) -> bool {
        self.below(turns) == 0
    }
}
