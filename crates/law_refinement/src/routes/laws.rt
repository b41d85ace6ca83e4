//! Laws of the effect of frames of rights and of lent sections, and of the interlocking.

ghost use Rattle.std.specs.Prelude.{◌≡◌, ℕ, true};
ghost use Rattle.rbc_spec.specs.SectionRuns.{SectionRun};
ghost use Rattle.rbc_spec.specs.Line.{Line, IsLine, is_centre};
ghost use Rattle.rbc_spec.specs.Frame.Body.{AskRight, GiveRight, RefuseRight, ReturnRight, RouteAsk, RouteInfo};
ghost use Rattle.rbc_spec.specs.Frame.Body.{RouteReturn, RouteWithdraw};
ghost use Rattle.rbc_spec.specs.Centre.{Centre};
ghost use Rattle.rbc_spec.specs.Step.{set, unset};
ghost use Rattle.rbc_spec.specs.LineCentre.{LineState};
ghost use Rattle.law_invariants.specs.Flow.Flow.{Flow};
ghost use Rattle.law_invariants.specs.Flow.Sound.{IsFlowSound};
ghost use Rattle.law_invariants.specs.Flow.Shows.{Shows};
ghost use Rattle.law_refinement.specs.Routes.Bodies.{LeadsByBody, LeadsByLinked};
ghost use Rattle.law_refinement.specs.Routes.Interlocking.{LeadsSet, LeadsUnset};

/// A frame of a right to supervise leads the one line centre on, with any effect at the receiving centre. No right is
/// shown. A given right admits a waiting start, a refused one dismisses it, and all else stays.
pub fn what_a_frame_of_rights_leads_to()
    ensures asked { (line : Line) (t : ℕ) → LeadsByBody line (AskRight t) }
    ensures given { (line : Line) (t : ℕ) → LeadsByBody line (GiveRight t) }
    ensures refused { (line : Line) (t : ℕ) → LeadsByBody line (RefuseRight t) }
    ensures returned { (line : Line) (t : ℕ) → LeadsByBody line (ReturnRight t) }
{}

/// A set and an unset at a centre are the own steps of the one line centre. After the unset of a section in use it may
/// ask the train to shorten its authority.
pub fn what_the_interlocking_leads_to()
    ensures set { (line : Line) (w : Flow) (v : LineState) (c s : ℕ) (k : Centre) → IsLine line → IsFlowSound line w
        → Shows line w v
        → is_centre line c ≡ true → w.at c ≡ k → LeadsSet line w c s (set line c s k) v }
    ensures unset { (line : Line) (w : Flow) (v : LineState) (c s : ℕ) (k : Centre) → IsLine line → IsFlowSound line w
        → Shows line w v
        → is_centre line c ≡ true → w.at c ≡ k → LeadsUnset line w c s (unset line c s k) v }
{}

/// A frame of lent sections leads the one line centre on. It keeps the sections that are requested and lent, and frees
/// those that are returned. After that it may order the train to end its session. For a section that is wished back it
/// may send a request to shorten. Lent sections that arrive are not shown. Their sender has to be linked with the
/// receiver, and so another centre: no centre has sections of its own home in a pool.
pub fn what_a_frame_of_routes_leads_to()
    ensures asked { (line : Line) (t first most : ℕ) → LeadsByBody line (RouteAsk t first most) }
    ensures told { (line : Line) (t : ℕ) (run : SectionRun) → LeadsByLinked line (RouteInfo t run) }
    ensures withdrawn { (line : Line) (t s : ℕ) → LeadsByBody line (RouteWithdraw t s) }
    ensures returned { (line : Line) (t : ℕ) (run : SectionRun) → LeadsByBody line (RouteReturn t run) }
{}
