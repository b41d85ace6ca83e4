//! The metrics that running centres count.

ghost use Rattle.std.specs.Prelude.{◌≡◌};
ghost use Rattle.text_page.specs.Metrics.{wait_value};

use crate::metrics::{begin, label_of};
use crate::view::{CentreCounts, Layout, LineCounts};
use std::alloc::AllocError;

/// The reasons of silence, in the order of their printed numbers.
static REASONS: [&str; 10] = [
    "stale_stamp",
    "no_session",
    "foreign_engine",
    "no_place",
    "not_supervised",
    "no_train_data",
    "proposal_pending",
    "unasked",
    "mission_ended",
    "wrong_phase",
];

/// The kinds of refusals, in their order in `LineCounts`.
static KINDS: [&str; 4] = ["line", "connection", "thread", "device"];

/// A metric of the answers that wait for the journal of a centre.
#[derive(Clone, Copy)]
enum OfWait {
    Lag,
    Late,
}

static OF_WAITS: [(OfWait, &str, &str, &str); 2] = [
    (
        OfWait::Lag,
        "rbc_journal_lag_events",
        "gauge",
        "Events of the centre that its journal does not have yet.",
    ),
    (
        OfWait::Late,
        "rbc_late_answers_total",
        "counter",
        "Answers that waited a second or more for the journal of the centre.",
    ),
];

/// Writes the metrics that running centres count.
pub(crate) fn add_counts(
    text: &mut String,
    layout: &Layout,
    counts: &LineCounts,
) -> Result<(), AllocError> {
    add_silent(text, layout, counts)?;
    add_waits(text, layout, counts)?;
    add_notes(text, counts)
}

fn add_silent(text: &mut String, layout: &Layout, counts: &LineCounts) -> Result<(), AllocError> {
    let help = "Messages of trains that the centre left without an answer, by the reason.";
    begin(text, "rbc_silent_total", "counter", help)?;
    for (number, centre) in counts.centres.iter().enumerate() {
        let label = label_of(layout, number);
        for (reason, count) in REASONS.iter().zip(centre.silent.iter()) {
            writeln!(
                text,
                "rbc_silent_total{{centre=\"{label}\",reason=\"{reason}\"}} {count}"
            )?;
        }
    }
    Ok(())
}

fn add_waits(text: &mut String, layout: &Layout, counts: &LineCounts) -> Result<(), AllocError> {
    for (metric, name, kind, help) in &OF_WAITS {
        begin(text, name, kind, help)?;
        for (number, centre) in counts.centres.iter().enumerate() {
            let label = label_of(layout, number);
            let value = metric.value_of(centre);
            writeln!(text, "{name}{{centre=\"{label}\"}} {value}")?;
        }
    }
    Ok(())
}

fn add_notes(text: &mut String, counts: &LineCounts) -> Result<(), AllocError> {
    let help =
        "Refused lines of the interlocking and refused connections, by the kind of the note.";
    begin(text, "rbc_refusals_total", "counter", help)?;
    for (kind, count) in KINDS.iter().zip(counts.refusals.iter()) {
        writeln!(text, "rbc_refusals_total{{kind=\"{kind}\"}} {count}")?;
    }
    let help = "Notes that were lost, since too many waited to be written.";
    begin(text, "rbc_notes_lost_total", "counter", help)?;
    let lost = counts.lost_notes;
    writeln!(text, "rbc_notes_lost_total {lost}")
}

impl OfWait {
    fn value_of(self, centre: &CentreCounts) -> u64
        ensures { result ≡ wait_value self centre.now }
    {
        match self {
            OfWait::Lag => centre.unwritten,
            OfWait::Late => centre.late,
        }
    }
}
