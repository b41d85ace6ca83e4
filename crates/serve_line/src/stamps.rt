//! The stamp of the last event of a log.

ghost use Rattle.std.specs.Prelude.{◌≡◌};
ghost use Rattle.serve_line.specs.Stamps.{last_stamp};

use rbc_log::Entry;

/// The stamp of the last of these entries; 0 without an entry.
pub(crate) fn last_stamp(entries: &[Entry]) -> u32
    ensures { result ≡ last_stamp entries.now }
{
    match entries.last() {
        Some(entry) => entry.outcome.stamp,
        None => 0,
    }
}
