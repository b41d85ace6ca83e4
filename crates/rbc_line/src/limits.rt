//! The tests of the limits that a line file keeps. Each limit is a range that includes both its ends.
ghost use Rattle.std.specs.Prelude.{◌≡◌};
ghost use Rattle.rbc_line.specs.Faults.{is_outside, is_name, has_count_fault};

/// Whether a number of the file is below the lowest or above the highest that it may be.
pub fn is_outside(low: u32, high: u32, n: i64) -> bool
    ensures { result ≡ is_outside low high n }
{
    n < i64::from(low) || n > i64::from(high)
}

/// Whether the text may name a centre or a track: 1 to 16 ASCII letters and digits.
pub fn is_name(name: &str) -> bool
    ensures { result ≡ is_name name.now }
{
    let bytes = name.as_bytes();
    if bytes.is_empty() || bytes.len() > 16 {
        return false;
    }
    bytes.iter().all(|b| b.is_ascii_alphanumeric())
}

/// Whether a count is below its minimum or above its maximum.
#[tactic(auto, unfolding(crate::specs::Faults::has_count_fault))]
pub fn has_count_fault(low: usize, high: usize, n: usize) -> bool
    ensures { result ≡ has_count_fault low high n }
{
    n < low || n > high
}
