ghost use Rattle.std.specs.List.{fold};
ghost use Rattle.std.specs.Prelude.{◌≡◌, true};
ghost use Rattle.serve_line.specs.Tallies.{tallied, tally_of};

use std::io;
use std::io::Write;

/// Counts the lines of a print that begin an event.
#[derive(Drop)]
pub(crate) struct Tally {
    // The number of lines that begin an event and were sent, completely or in part.
    events: u64,
    // Whether the next byte begins a line.
    is_new: bool,
}

impl Tally {
    /// The count before a print.
    pub fn new() -> Tally
        ensures { (result.events ≡ 0) × (result.is_new ≡ true) }
    {
        Tally {
            events: 0,
            is_new: true,
        }
    }

    /// The number of events sent, the last perhaps in part.
    pub fn events(&self) -> u64
        ensures { result ≡ self.now.events }
    {
        self.events
    }

    // Counts the events among these sent bytes.
    fn count(&mut self, bytes: &[u8])
        ensures { tally_of self.new.events self.new.is_new
            ≡ fold tallied (tally_of self.old.events self.old.is_new) bytes.now }
    {
        for byte in bytes {
            if self.is_new && *byte == b'>' {
                self.events = self.events.saturating_add(1);
            }
            self.is_new = *byte == b'\n';
        }
    }
}

/// The writer of a print under a buffer. It counts the events that it passes on. The buffer's user knows that bytes are
/// appended to a writer, but not to which one. So the name of this writer precedes its bytes, and stays there.
#[derive(Drop)]
pub(crate) struct TallyWriter<'a, O> {
    pub out: &'a mut O,
    pub tally: &'a mut Tally,
}

impl<O: Write> Write for TallyWriter<'_, O> {
    ghost use Rattle.serve_line.specs.Prints.{named};

    ghost contents = { λ w. named w.out.ghost_name (O.contents w.out.now) };

    #[tactic(auto, using(crate::proofs::PrintLemmas::named_writes))]
    fn write(&mut self, bytes: &[u8]) -> io::Result<usize> {
        let result = self.out.write(bytes);
        if let Ok(count) = &result {
            self.tally.count(&bytes[..*count]);
        }
        result
    }

    #[tactic(auto, using(crate::proofs::PrintLemmas::named_keeps))]
    fn flush(&mut self) -> io::Result<()> {
        self.out.flush()
    }
}
