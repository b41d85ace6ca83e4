ghost use Rattle.text_journal.specs.Whole.{AreWhole};

use memchr::memrchr;

/// The length of the whole lines of a text in bytes: up to and with its last line feed.
pub fn whole_length(text: &[u8]) -> usize
    ensures { AreWhole text.now result }
{
    match memrchr(b'\n', text) {
        Some(at) => at + 1,
        None => 0,
    }
}
