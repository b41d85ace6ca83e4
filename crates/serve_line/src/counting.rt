//! The counts of running centres, for the metrics.

ghost use Rattle.std.specs.Prelude.{◌≡◌, ℕ, option_map, slice_get};
ghost use Rattle.serve_line.specs.Marks.{silent_of};

use crate::journaling::Journal;
use crate::state::Server;
use rbc_node::Node;
use serve_notes::{NoteCounts, Notes};
use std::sync::Wait;
use text_page::{CentreCounts, LineCounts};

/// Sets the events that journals do not have yet, the late answers, and the counts of notes. They are the current ones.
pub(crate) fn mark_counts<R: Wait, N: Notes>(
    rt: &R,
    server: &Server<'_>,
    notes: &N,
    counts: &mut LineCounts,
)
    ensures { (c : ℕ) → option_map silent_of (slice_get counts.new.centres.items c)
        ≡ option_map silent_of (slice_get counts.old.centres.items c) }
{
    mark_centres(rt, server, &mut counts.centres);
    let NoteCounts { refusals, lost } = notes.counts();
    counts.refusals = refusals;
    counts.lost_notes = lost;
}

// Sets the events that the journal of each centre does not have yet, and its late answers.
fn mark_centres<R: Wait>(rt: &R, server: &Server<'_>, centres: &mut [CentreCounts])
    ensures { (c : ℕ) → option_map silent_of (slice_get centres.new c)
        ≡ option_map silent_of (slice_get centres.old c) }
{
    for c in 0..centres.len() {
        if let (Some(node), Some(journal)) = (server.nodes.get(c), server.journals.get(c)) {
            centres[c] = counts_with(rt, node, journal, centres[c]);
        }
    }
}

// The counts of a centre with the events that its journal does not have yet, and with its late answers.
fn counts_with<R: Wait>(
    rt: &R,
    node: &Node,
    journal: &Journal,
    counts: CentreCounts,
) -> CentreCounts
    ensures { silent_of result ≡ silent_of counts }
{
    let written = journal.written(rt);
    let taken = node.look(rt).log().entries().len();
    CentreCounts {
        unwritten: taken.saturating_sub(written) as u64,
        late: journal.late(),
        ..counts
    }
}
