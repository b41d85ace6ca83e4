//! Laws of the messages that change a mission. For each, its own part is the own step of the one line centre
//! (`specs/Parts.antt`: `IsOwnStep`). The answer is that part (`IsWhole`), or that part and the acts after it
//! (`IsInParts`).

ghost use Rattle.std.specs.Prelude.{◌≡◌, ℕ, true, None};
ghost use Rattle.rbc_spec.specs.Line.{Line, IsLine, is_centre};
ghost use Rattle.rbc_spec.specs.Place.{Position};
ghost use Rattle.rbc_spec.specs.Message.{TrainMessage};
ghost use Rattle.rbc_spec.specs.Message.TrainBody.{Request, Report, ShorteningGranted, EndOfMission};
ghost use Rattle.rbc_spec.specs.Acts.{Act};
ghost use Rattle.rbc_spec.specs.Step.{silence, ticked, hear_and_answer};
ghost use Rattle.rbc_spec.specs.LineCentre.{LineState, hears, nothing};
ghost use Rattle.rbc_spec.specs.Run.{Steps};
ghost use Rattle.law_invariants.specs.Flow.Flow.{Flow};
ghost use Rattle.law_invariants.specs.Flow.Sound.{IsFlowSound};
ghost use Rattle.law_invariants.specs.Flow.Shows.{Shows};
ghost use Rattle.law_invariants.specs.Flow.Leads.{LeadsHeard};
ghost use Rattle.law_refinement.specs.Missions.Parts.{own_report, own_end, own_granted, own_request, at_border_then};
ghost use Rattle.law_refinement.specs.Missions.Parts.{of_train, IsOwnStep, IsWhole, IsInParts, LeadsOnward};

/// A position report: the cleared sections leave the hand, and a hand that became empty closes the mission. A report of
/// a train that is not supervised here changes nothing that the one line centre shows: it listens. No act follows.
pub fn a_report_is_an_own_step()
    ensures own { (line : Line) (c t_train t : ℕ) (position : Position) → IsLine line
        → IsOwnStep line c (of_train t_train t (Report position)) (own_report line c t position) }
    ensures whole { (line : Line) (c t_train t : ℕ) (position : Position)
        → IsWhole line c (of_train t_train t (Report position)) (own_report line c t position) }
    ensures listens { (line : Line) (w : Flow) (v : LineState) (c t_train t stamp : ℕ) (position : Position)
        → IsLine line → IsFlowSound line w
        → Shows line w v → is_centre line c ≡ true → (w.at c).mission t ≡ None
        → silence line c (ticked stamp (w.at c)) (of_train t_train t (Report position)) ≡ None
        → Steps line v c (of_train t_train t (Report position)) nothing
        (hears c (of_train t_train t (Report position)) v) None }
{}

/// An end of mission: a report, then the pool is returned and the mission is ended.
pub fn an_end_of_mission_is_an_own_step()
    ensures own { (line : Line) (c t_train t : ℕ) (position : Position) → IsLine line
        → IsOwnStep line c (of_train t_train t (EndOfMission position)) (own_end line c t position) }
    ensures whole { (line : Line) (c t_train t : ℕ) (position : Position)
        → IsWhole line c (of_train t_train t (EndOfMission position)) (own_end line c t position) }
{}

/// A granted shortening: the request ends. The hand is cut after the last section kept, with its pool, if the train has
/// not run past the proposed end.
pub fn a_granted_shortening_is_an_own_step()
    ensures own { (line : Line) (c t_train t stamp : ℕ) (position : Position) → IsLine line
        → IsOwnStep line c (of_train t_train t (ShorteningGranted stamp position)) (own_granted line c t position) }
    ensures whole { (line : Line) (c t_train t stamp : ℕ) (position : Position)
        → IsWhole line c (of_train t_train t (ShorteningGranted stamp position)) (own_granted line c t position) }
{}

/// A request: the hand is extended as far as it may go, by open sections of this centre and by those of the pool. The
/// authority for it is sent. The acts at the border follow.
pub fn a_request_is_an_own_step()
    ensures own { (line : Line) (c t_train t : ℕ) (position : Position) → IsLine line
        → IsOwnStep line c (of_train t_train t (Request position)) (own_request line c t position) }
    ensures parts { (line : Line) (c t_train t : ℕ) (position : Position)
        → IsInParts line c (of_train t_train t (Request position)) (own_request line c t position)
        (at_border_then line c t position) }
{}

/// Suppose that the acts after it lead to quiet steps in every state of the centre. Then the whole answer is the own
/// step and these quiet steps.
pub fn an_own_step_and_what_follows()
    ensures { (line : Line) (c : ℕ) (m : TrainMessage) (own later : Act) → IsOwnStep line c m own
        → IsInParts line c m own later → LeadsOnward line c later
        → (w : Flow) (v : LineState) (stamp : ℕ) → IsFlowSound line w → Shows line w v → is_centre line c ≡ true
        → silence line c (ticked stamp (w.at c)) m ≡ None
        → LeadsHeard line w c m (hear_and_answer line c m (ticked stamp (w.at c))) v }
{}
