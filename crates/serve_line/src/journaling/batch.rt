ghost use Rattle.std.specs.Prelude.{◌≡◌, take, drop, IfOk};
ghost use Rattle.rbc_log.specs.Log.{LogValue};
ghost use Rattle.rbc_node.specs.Node.{centre_of, IsLogOf};
ghost use Rattle.serve_line.specs.Journaling.Noting.{AreNotesOf};

use jiff::Timestamp;
use rbc_log::{CentreLog, Entry as Committed};
use rbc_node::Node;
use serve_control::world_event;
use std::alloc::{AllocError, Global};
use std::sync::Wait;
use std::time::Clock;
use text_journal::Entry;

/// The most events of one write. The centre takes no step while they are copied.
const MOST_AT_ONCE: usize = 256;

/// The next events of a centre after the first `written`, in the order of its log, at most 256. All have the time of
/// this call, if the clock gives it.
pub(crate) fn next_entries<R: Wait + Clock>(
    rt: &R,
    alloc: Global,
    node: &Node,
    written: usize,
) -> Result<Vec<Entry>, AllocError>
    ensures { IfOk result (λ next. (l : LogValue) × IsLogOf (centre_of node.now) l
        × AreNotesOf (take 256 (drop written l.entries)) next.items) }
{
    let look = node.look(rt);
    Ok(entries_from(alloc, look.log(), written, now_ms(rt))?)
}

/// The entries after the first `written`, at most 256.
pub(crate) fn next_of(entries: &[Committed], written: usize) -> &[Committed]
    ensures { result.now ≡ take 256 (drop written entries.now) }
{
    let Some(left) = entries.get(written..) else {
        return &[];
    };
    match left.get(..MOST_AT_ONCE) {
        Some(first) => first,
        None => left,
    }
}

// The milliseconds since 1970 in UTC, by the clock of the system.
fn now_ms<T: Clock>(clock: &T) -> Option<u64> {
    let now = Timestamp::now(clock).ok()?;
    u64::try_from(now.as_millisecond()).ok()
}

fn entries_from(
    alloc: Global,
    log: &CentreLog,
    written: usize,
    time_ms: Option<u64>,
) -> Result<Vec<Entry>, AllocError>
    ensures { IfOk result (λ next. AreNotesOf (take 256 (drop written log.now.entries)) next.items) }
{
    let entries = next_of(log.entries(), written);
    let mut next = Vec::new(alloc);
    for entry in entries {
        let Ok(event) = world_event(alloc, entry) else {
            return Err(AllocError);
        };
        next.push(Entry {
            stamp: entry.outcome.stamp,
            time_ms,
            event,
        })?;
    }
    Ok(next)
}
