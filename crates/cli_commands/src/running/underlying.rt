use std::io;
use std::io::Write;

/// A writer under a buffer. The buffer's user knows that bytes are appended to a writer, but not to which one. So the
/// name of this writer precedes its bytes, and stays there.
#[derive(Drop)]
pub(crate) struct Underlying<'a, O> {
    pub out: &'a mut O,
}

impl<O: Write> Write for Underlying<'_, O> {
    ghost use Rattle.cli_commands.specs.Running.Named.{named};

    ghost contents = { λ b. named b.out.ghost_name (O.contents b.out.now) };

    #[tactic(auto, using(crate::proofs::RunningLemmas::Named::named_writes))]
    fn write(&mut self, buf: &[u8]) -> io::Result<usize> {
        self.out.write(buf)
    }

    #[tactic(auto, using(crate::proofs::RunningLemmas::Named::named_keeps))]
    fn flush(&mut self) -> io::Result<()> {
        self.out.flush()
    }

    #[tactic(auto, using(crate::proofs::RunningLemmas::Named::named_all))]
    fn write_all(&mut self, buf: &[u8]) -> io::Result<()> {
        self.out.write_all(buf)
    }
}
