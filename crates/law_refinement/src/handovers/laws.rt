//! Laws of the effect of the frames of a handover.

ghost use Rattle.std.specs.Prelude.{◌≡◌, ℕ, Bool, true};
ghost use Rattle.law_base.specs.Counting.Network.{took, TakesHead};
ghost use Rattle.rbc_spec.specs.Line.{Line, IsLine, is_centre};
ghost use Rattle.rbc_spec.specs.SectionRuns.{SectionRun};
ghost use Rattle.rbc_spec.specs.Frame.{YieldedPlace};
ghost use Rattle.rbc_spec.specs.Frame.Body.{Announce, Cancel, TakingOver, Yield};
ghost use Rattle.rbc_spec.specs.Step.{ticked};
ghost use Rattle.rbc_spec.specs.Links.{received};
ghost use Rattle.rbc_spec.specs.LineCentre.{LineState};
ghost use Rattle.law_invariants.specs.Flow.Flow.{Flow, took_frame};
ghost use Rattle.law_invariants.specs.Flow.Sound.{IsFlowSound};
ghost use Rattle.law_invariants.specs.Flow.Shows.{Shows};
ghost use Rattle.law_invariants.specs.Flow.Leads.{Leads};

/// A handover is announced: the centre expects the train, and nothing of that is shown.
pub fn an_announcement_leads_on()
    ensures { (line : Line) (w : Flow) (v : LineState) (a c h t track number stamp : ℕ) → IsLine line
        → IsFlowSound line w
        → Shows line w v → is_centre line a ≡ true → is_centre line c ≡ true → TakesHead w a c (Announce h t track)
        → Leads line (took w a c) c
        (received line c a (Announce h t track) (took_frame a number (ticked stamp (w.at c)))) v }
{}

/// A Cancel arrives: the centre no longer expects the train.
pub fn a_cancellation_leads_on()
    ensures { (line : Line) (w : Flow) (v : LineState) (a c h t number stamp : ℕ) → IsLine line → IsFlowSound line w
        → Shows line w v → is_centre line a ≡ true → is_centre line c ≡ true → TakesHead w a c (Cancel h t)
        → Leads line (took w a c) c (received line c a (Cancel h t) (took_frame a number (ticked stamp (w.at c)))) v }
{}

/// The accepting centre takes over: the mission whose handover it names is yielded.
pub fn a_taking_over_leads_on()
    ensures { (line : Line) (w : Flow) (v : LineState) (a c h t number stamp : ℕ) → IsLine line → IsFlowSound line w
        → Shows line w v → is_centre line a ≡ true → is_centre line c ≡ true → TakesHead w a c (TakingOver h t)
        → Leads line (took w a c) c
        (received line c a (TakingOver h t) (took_frame a number (ticked stamp (w.at c)))) v }
{}

/// A mission is yielded. The one line centre takes it up at the receiving centre, with the later of both stamps. It may
/// then send the train a request to shorten its authority.
pub fn a_yield_leads_on()
    ensures { (line : Line) (w : Flow) (v : LineState) (a c h t heard number stamp : ℕ) (has_data is_ended : Bool)
        (carried : YieldedPlace) (hand : SectionRun)
        → IsLine line → IsFlowSound line w → Shows line w v → is_centre line a ≡ true → is_centre line c ≡ true
        → TakesHead w a c (Yield h t heard has_data is_ended carried hand)
        → Leads line (took w a c) c (received line c a (Yield h t heard has_data is_ended carried hand)
        (took_frame a number (ticked stamp (w.at c)))) v }
{}
