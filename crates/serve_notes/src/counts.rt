ghost use Rattle.std.specs.Prelude.{◌≡◌};
ghost use Rattle.serve_notes.specs.Counts.{omitted_before, turned, counted, is_written_in};

use crate::kinds::{FREQUENT, Kind};

/// The most notes of a kind that are written in one second. Of further notes only the number is written.
const EACH_SECOND: u32 = 10;

/// For each kind, the notes written in its last second, and the notes omitted.
#[derive(Drop)]
pub(crate) struct Counts {
    counts: [Count; FREQUENT],
}

#[derive(Clone, Copy)]
struct Count {
    // The second, by the monotonic clock.
    second: u64,
    written: u32,
    left_out: u64,
    // All notes of the kind so far.
    all: u64,
}

/// The decision about a note.
#[derive(Clone, Copy)]
pub(crate) struct Taken {
    pub is_written: bool,
    /// The number of notes of its kind that were omitted in an earlier second, and not reported yet.
    pub left_out: u64,
}

impl Counts {
    /// Counts before the first note.
    pub fn new() -> Counts {
        let count = Count {
            second: 0,
            written: 0,
            left_out: 0,
            all: 0,
        };
        Counts {
            counts: [count; FREQUENT],
        }
    }

    /// Counts a note of this kind in this second, and decides whether it is written.
    pub fn take(&mut self, kind: Kind, second: u64) -> Taken {
        match self.counts.get_mut(kind as usize) {
            Some(count) => count.take(second),
            None => Taken {
                is_written: true,
                left_out: 0,
            },
        }
    }

    /// The number of notes of this kind that were omitted before this second, and not reported yet.
    pub fn left_out(&mut self, kind: Kind, second: u64) -> u64 {
        match self.counts.get_mut(kind as usize) {
            Some(count) => count.turn(second),
            None => 0,
        }
    }
}

impl Counts {
    /// The notes of each kind of refusal so far: lines, connections, threads and devices. Omitted notes count too.
    pub fn refusals(&self) -> [u64; 4] {
        [
            self.all(Kind::Line),
            self.all(Kind::Refusal),
            self.all(Kind::Thread),
            self.all(Kind::Device),
        ]
    }

    // All notes of a kind so far.
    fn all(&self, kind: Kind) -> u64 {
        match self.counts.get(kind as usize) {
            Some(count) => count.all,
            None => 0,
        }
    }
}

impl Count {
    // Counts a note in this second, and decides whether it is written.
    fn take(&mut self, second: u64) -> Taken
        ensures before { result.left_out ≡ omitted_before second self.old }
        ensures written { result.is_written ≡ is_written_in second self.old }
        ensures after { self.new ≡ counted (is_written_in second self.old) (turned second self.old) }
    {
        let left_out = self.turn(second);
        let is_written = self.written < EACH_SECOND;
        if is_written {
            self.written = self.written.saturating_add(1);
        } else {
            self.left_out = self.left_out.saturating_add(1);
        }
        self.all = self.all.saturating_add(1);
        Taken {
            is_written,
            left_out,
        }
    }

    // Begins this second, if it is a new one. The result is the number of notes omitted before.
    fn turn(&mut self, second: u64) -> u64
        ensures before { result ≡ omitted_before second self.old }
        ensures after { self.new ≡ turned second self.old }
    {
        if self.second == second {
            return 0;
        }
        let left_out = self.left_out;
        *self = Count {
            second,
            written: 0,
            left_out: 0,
            all: self.all,
        };
        left_out
    }
}
