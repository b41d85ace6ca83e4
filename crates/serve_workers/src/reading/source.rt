ghost use Rattle.std.specs.Prelude.{◌≡◌, ℕ, ◌+◌, ◌-◌, ◌<◌, ◌^◌, List, Option, MatchResult};
ghost use Rattle.std.specs.Io.{ReadsAtMost};
ghost use Rattle.std.specs.Io.KnownBytes.{ReadConsumes};

/// A read did not succeed.
#[derive(Clone, Copy, Debug, PartialEq, Eq)]
pub struct ReadFailed;

/// The source of a train's bytes.
pub trait Source {
    // The bytes that later reads will give, if the source knows them.
    ghost left: { Self → Option (List ℕ) };

    // The number of failed reads.
    ghost failures: { Self → ℕ };

    /// Reads some bytes into the front of the buffer, and returns their number. The number is 0 only if no bytes are
    /// left, or the buffer has no room. A failed read gives no bytes.
    fn read(&mut self, buffer: &mut [u8]) -> Result<usize, ReadFailed>
        requires { failures self.old < 2 ^ 64 - 1 }
        ensures bound { ReadsAtMost result buffer.new }
        ensures bytes { ReadConsumes (left self.old) (left self.new) result buffer.new }
        ensures counted { MatchResult result (λ _. failures self.new ≡ failures self.old)
            (λ _. failures self.new ≡ failures self.old + 1) };
}
