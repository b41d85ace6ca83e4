ghost use Rattle.std.specs.Prelude.{◌≡◌, List, ℕ, OnOk, OnErr};
ghost use Rattle.std.specs.Io.KnownBytes.{append_known};
ghost use Rattle.serve_journal.specs.Bytes.{cut_to, IsCut};

use std::io;

/// A file that grows at its end, and that a crash may cut short.
pub trait DurableFile {
    // The bytes of the file.
    ghost contents: { Self → Option (List ℕ) } = { λ _. None };

    // The bytes that a crash keeps: whatever is left after a crash at any moment from now on begins with them.
    ghost durable: { Self → Option (List ℕ) } = { λ _. None };

    ghost use Rattle.std.specs.Prelude.{Option, None, take};

    /// Appends bytes. After an error a part of them may be in the file.
    fn append(&mut self, bytes: &[u8]) -> io::Result<()>
        ensures ok { OnOk result (contents self.new ≡ append_known (contents self.old) bytes.now) }
        ensures err { OnErr result ((count : ℕ)
            × (contents self.new ≡ append_known (contents self.old) (take count bytes.now))) }
        ensures durable { durable self.new ≡ durable self.old };

    /// Waits until all contents are durable.
    fn sync(&mut self) -> io::Result<()>
        ensures ok { OnOk result (durable self.new ≡ contents self.old) }
        ensures contents { contents self.new ≡ contents self.old }
        ensures err { OnErr result (durable self.new ≡ durable self.old) };

    /// Cuts the file after its first `length` bytes. It is an error if the file has fewer.
    fn cut(&mut self, length: u64) -> io::Result<()>
        ensures ok { OnOk result (IsCut length (contents self.old) (contents self.new)) }
        ensures err { OnErr result (contents self.new ≡ contents self.old) }
        ensures durable { durable self.new ≡ cut_to length (durable self.old) };
}
