ghost use Rattle.std.specs.Prelude.{◌≡◌, ◌+◌, ◌^◌, ◌<◌, ◌≤◌, [], IsTrue};
ghost use Rattle.rbc_allocation.specs.Marks.{marked};

use arrayvec::ArrayVec;
use std::marker::Model;

/// Sections to report to the interlocking, in rising order: some of at most 64 consecutive ones, each by one bit.
#[derive(Debug, Drop)]
pub struct Told {
    first: u16,
    count: u16,
    marks: u64,
}

impl Model for Told {
    ghost use Rattle.std.specs.Prelude.{ℕ, ◌+◌, ◌^◌, ◌<◌, ◌≤◌, List};
    ghost use Rattle.rbc_allocation.specs.Marks.{marked};

    ghost Value = { List ℕ };

    ghost view = { λ t. marked t.first t.count t.marks };

    ghost invariant = { λ t. (t.count ≤ 64) × (t.first + t.count ≤ 65535) × (t.marks < 2 ^ t.count) };
}

impl Told {
    /// No section.
    #[inline(always)]
    #[tactic(auto, unfolding(crate::specs::Marks::marked))]
    pub fn nothing() -> Told
        ensures { result ≡ [] }
    {
        Told {
            first: 0,
            count: 0,
            marks: 0,
        }
    }

    /// The marked ones of `count` sections from the first on: the lowest bit is the last section's.
    #[inline(always)]
    pub fn of(first: u16, count: u16, marks: u64) -> Told
        requires few { count ≤ 64 }
        requires numbers { first + count ≤ 65535 }
        requires fits { marks < 2 ^ count }
        ensures { result ≡ marked first count marks }
    {
        Told {
            first,
            count,
            marks,
        }
    }

    /// A copy.
    #[inline(always)]
    pub fn copied(&self) -> Told
        ensures { result ≡ self.now }
    {
        Told {
            first: self.first,
            count: self.count,
            marks: self.marks,
        }
    }

    /// Whether the other ones are the same, marked in the same way. A copy is. Sections that are marked in two ways
    /// may be the same, too.
    #[inline(always)]
    pub fn is_alike(&self, other: &Told) -> bool
        ensures { IsTrue result → self.now ≡ other.now }
    {
        self.first == other.first && self.count == other.count && self.marks == other.marks
    }

    /// The sections.
    pub fn sections(&self) -> ArrayVec<u16, 64>
        ensures { result.items ≡ self.now }
    {
        let (first, count, marks) = (self.first, self.count, self.marks);
        let mut sections = ArrayVec::new();
        for k in 0..count {
            if (marks >> (count - 1 - k)) % 2 == 1 {
                sections.push(first + k);
            }
        }
        sections
    }
}
