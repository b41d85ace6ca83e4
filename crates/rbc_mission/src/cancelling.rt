//! The cancellation of a handover.

ghost use Rattle.std.specs.Prelude.{◌≡◌, not, None, option_map, if◌then◌else◌};
ghost use Rattle.rbc_spec.specs.Maps.{has};
ghost use Rattle.rbc_spec.specs.SectionRuns.{is_empty};
ghost use Rattle.rbc_spec.specs.Acts as acts;
ghost use Rattle.rbc_line.specs.SectionRuns.{run_of};
ghost use Rattle.rbc_handover.specs.Handings.{handing_of, handover_name};

use rbc_border::part_at;
use rbc_handover::{Handover, HandoverName};
use rbc_line::{Line, SectionRun};

/// Whether a hand on this track still has a section of the accepting centre of the handover, if one is pending.
pub(crate) fn keeps_border(line: &Line, handover: &Handover, track: u8, hand: SectionRun) -> bool
    ensures { result ≡ not
        (has (λ h. is_empty (acts.part_at line.now h.to track (run_of hand))) (handing_of handover.now)) }
{
    match handover.name() {
        Some(name) => part_at(line, name.to, track, hand).is_some(),
        None => true,
    }
}

/// Cancels the pending handover, unless it stays, and returns its name.
pub(crate) fn cancel_unless(handover: &mut Handover, stays: bool) -> Option<HandoverName>
    ensures name { result ≡ (if stays then None else option_map handover_name (handing_of handover.old)) }
    ensures handover { handing_of handover.new ≡ (if stays then handing_of handover.old else None) }
{
    if stays {
        return None;
    }
    handover.cancel()
}
