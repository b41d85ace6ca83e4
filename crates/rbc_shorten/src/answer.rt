ghost use Rattle.std.specs.Prelude.{◌≡◌, ◌+◌, ℕ, Some, is_err, IfOk};
ghost use Rattle.rbc_spec.specs.SectionRuns.{part_before};
ghost use Rattle.rbc_spec.specs.Place as place;
ghost use Rattle.rbc_spec.specs.Message as message;
ghost use Rattle.rbc_spec.specs.Centre as spec;
ghost use Rattle.rbc_spec.specs.Step.{is_unasked};
ghost use Rattle.rbc_line.specs.SectionRuns.{run_of};
ghost use Rattle.rbc_shorten.specs.Facts.{standing_of};
ghost use Rattle.rbc_shorten.specs.Answers.{on_asked, cut_of, freeing, act_of, IsAnswer};

use crate::facts::Proposal;
use rbc_line::{Line, SectionRun};
use rbc_place::section_end;

/// The part that an answer cuts off the hand.
#[derive(Clone, Copy, Debug, PartialEq, Eq)]
pub enum Cut {
    /// Nothing: the hand stays as it is.
    Nothing,
    /// All sections but this number of the first.
    Keep(u16),
}

/// No request is pending, or the answer is to another.
#[derive(Clone, Copy, Debug, PartialEq, Eq)]
pub struct Unasked;

/// The cut after the train has granted the request with this stamp (message 137). `front` is its safe front end in
/// decimetres, if the message has a place on the mission's track. A train that has run past the proposed end frees
/// nothing. `Unasked` if and only if no request is pending, or it has another stamp.
pub fn granted(
    line: &Line,
    proposal: Option<Proposal>,
    stamp: u32,
    hand: SectionRun,
    front: Option<u32>,
) -> Result<Cut, Unasked>
    ensures exact { result ≡ on_asked (cut_of line.now (run_of hand) front) proposal stamp }
    ensures reason { (m : spec.Mission) (position : place.Position) → standing_of proposal ≡ m.proposal
        → is_err result ≡ is_unasked (Some m) (message.ShorteningGranted stamp position) }
    // The sections that a centre frees by the rules.
    ensures rules { (c t : ℕ) (position : place.Position) (m : spec.Mission) (p : spec.Proposal)
        → IsAnswer line.now position m p proposal front
        → IfOk result (λ left. freeing line.now c t position m p ≡ act_of line.now c t m p left) }
{
    let proposal = asked(proposal, stamp)?;
    match front {
        Some(front) if front <= 10 * section_end(line, u32::from(proposal.last_kept)) => {
            Ok(Cut::Keep(kept(hand, proposal.last_kept)))
        }
        _ => Ok(Cut::Nothing),
    }
}

/// The train has rejected the request with this stamp (message 138): nothing is freed. `Unasked` if and only if no
/// request is pending, or it has another stamp.
pub fn rejected(proposal: Option<Proposal>, stamp: u32) -> Result<(), Unasked>
    ensures exact { result ≡ on_asked (λ p. tt) proposal stamp }
    ensures reason { (m : spec.Mission) (position : place.Position) → standing_of proposal ≡ m.proposal
        → is_err result ≡ is_unasked (Some m) (message.ShorteningRejected stamp position) }
{
    asked(proposal, stamp)?;
    Ok(())
}

// The pending request, if the answer is to it.
fn asked(proposal: Option<Proposal>, stamp: u32) -> Result<Proposal, Unasked>
    ensures { result ≡ on_asked (λ p. p) proposal stamp }
{
    match proposal {
        Some(proposal) if proposal.stamp == stamp => Ok(proposal),
        _ => Err(Unasked),
    }
}

// How many sections of the hand are kept up to the last that is to be.
fn kept(hand: SectionRun, last_kept: u16) -> u16
    ensures { result ≡ (part_before (last_kept + 1) (run_of hand)).count }
{
    let upto = (u32::from(last_kept) + 1).saturating_sub(u32::from(hand.first));
    upto.min(u32::from(hand.count)) as u16
}
