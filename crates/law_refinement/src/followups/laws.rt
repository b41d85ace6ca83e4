//! Laws of the acts that follow a centre's own step.

ghost use Rattle.std.specs.Prelude.{◌≡◌, ◌≤◌, ℕ, ◌&&◌, true, false, Some, None};
ghost use Rattle.std.specs.Option.{option_map_or};
ghost use Rattle.law_base.specs.Counting.Network.{took, TakesHead};
ghost use Rattle.rbc_spec.specs.Line.{Line, IsLine, is_centre, is_home, next_centre};
ghost use Rattle.rbc_spec.specs.Frame.{Body, TakingOver};
ghost use Rattle.rbc_spec.specs.Links.{taking_over};
ghost use Rattle.rbc_spec.specs.SectionRuns.{is_empty};
ghost use Rattle.rbc_spec.specs.Place.{Place};
ghost use Rattle.rbc_spec.specs.Message.{TrainMessage};
ghost use Rattle.rbc_spec.specs.Centre.{Centre, Mission, beginning};
ghost use Rattle.rbc_spec.specs.Acts.{Reply, rest, part_at, propose_if_so, end_order};
ghost use Rattle.rbc_spec.specs.Rules.{announce_if_due, ask_route_if_due, at_border};
ghost use Rattle.rbc_spec.specs.LineCentre.{LineState, is_given_to};
ghost use Rattle.rbc_spec.specs.OwnSteps.{ended};
ghost use Rattle.law_base.specs.Rules.Distances.{IsRequestHeard, extended};
ghost use Rattle.law_invariants.specs.Flow.Flow.{Flow};
ghost use Rattle.law_invariants.specs.Flow.Pairs.{before};
ghost use Rattle.law_invariants.specs.Flow.Keeping.{nothing_came, came_with, IsFairAct, LeavesSound};
ghost use Rattle.law_invariants.specs.Flow.Sound.{IsFlowSound, IsCentreSound, IsHandAt};
ghost use Rattle.law_invariants.specs.Flow.Shows.{Shows};
ghost use Rattle.law_invariants.specs.Flow.Leads.{replied, Leads};
ghost use Rattle.law_invariants.specs.Handover.Orderly.{allowed_by, IsOrderly, IsTakenWith};
ghost use Rattle.rbc_spec.specs.Step.{Event};
ghost use Rattle.law_invariants.specs.Handover.Steps.{left_by};
ghost use Rattle.law_refinement.specs.Followups.Announced.{AnnouncesAll};
ghost use Rattle.law_refinement.specs.Followups.Borders.{IsNextOf, MayAnnounce};
ghost use Rattle.law_refinement.specs.Followups.Shown.{IsShownSo, ends};

/// A fair and orderly act of a centre that leaves sound parts keeps all sound: by itself, and after the next frame of a
/// link.
pub fn an_act_keeps_all_sound()
    ensures by_itself { (line : Line) (w : Flow) (c : ℕ) (q : Reply) → IsLine line → IsFlowSound line w
        → is_centre line c ≡ true
        → LeavesSound line c q.state q.frames → IsFairAct line c (w.at c) nothing_came q.state q.frames
        → IsOrderly (w.at c) q.state q.frames → IsFlowSound line (replied w c q) }
    ensures at_head { (line : Line) (w : Flow) (a c : ℕ) (f : Body) (q : Reply) → IsLine line → IsFlowSound line w
        → is_centre line a ≡ true → is_centre line c ≡ true → TakesHead w a c f
        → LeavesSound line c q.state q.frames → IsFairAct line c (w.at c) (came_with a c f) q.state q.frames
        → IsTakenWith a f (w.at c) q.state q.frames → IsFlowSound line (replied (took w a c) c q) }
{}

/// A request to shorten, if it may be sent, is a quiet step.
pub fn a_request_to_shorten_is_quiet()
    ensures { (line : Line) (w : Flow) (c t s : ℕ) (k : Centre) (v : LineState) → IsLine line → IsFlowSound line w
        → Shows line w v
        → is_centre line c ≡ true → w.at c ≡ k → Leads line w c (propose_if_so line t s k) v }
{}

/// The order to end a session is a quiet step, if the centre has no mission of the train. No section of its home may be
/// given to the train.
pub fn an_end_of_session_is_quiet()
    ensures { (line : Line) (w : Flow) (c t : ℕ) (k : Centre) (v : LineState) → IsLine line → IsFlowSound line w
        → Shows line w v
        → is_centre line c ≡ true → w.at c ≡ k → k.mission t ≡ None
        → ((s : ℕ) → (is_home line c s && is_given_to t (v.mark s)) ≡ false) → Leads line w c (end_order line c t k) v }
{}

/// The acts at the border after an extension of a hand. A request for more sections is not seen. The distance to the
/// border is sent by a quiet step, if it may be sent. Both together are quiet steps too.
pub fn what_follows_at_a_border()
    ensures asks { (line : Line) (w : Flow) (c t d : ℕ) (k : Centre) (v : LineState) → IsLine line → IsFlowSound line w
        → Shows line w v
        → is_centre line c ≡ true → w.at c ≡ k → is_centre line d ≡ true → IsNextOf line c t d k
        → Leads line w c (ask_route_if_due line t d k) v }
    ensures announces { (line : Line) (w : Flow) (c t d : ℕ) (k : Centre) (v : LineState) → IsLine line
        → IsFlowSound line w → Shows line w v
        → is_centre line c ≡ true → w.at c ≡ k → MayAnnounce line c t d k
        → Leads line w c (announce_if_due line t d k) v }
    ensures both { (line : Line) (w : Flow) (c t d : ℕ) (k : Centre) (v : LineState) → IsLine line → IsFlowSound line w
        → Shows line w v
        → is_centre line c ≡ true → w.at c ≡ k → is_centre line d ≡ true → IsNextOf line c t d k
        → MayAnnounce line c t d k
        → Leads line w c (at_border line c t d k) v }
    ensures grants { (line : Line) (w : Flow) (c t track : ℕ) (k : Centre) (v : LineState) → IsLine line
        → IsFlowSound line w → Shows line w v
        → is_centre line c ≡ true → w.at c ≡ k
        → ((m : Mission) → k.mission t ≡ Some m → m.place.track ≡ track)
        → ((d : ℕ) → next_centre line c track ≡ Some d → MayAnnounce line c t d k)
        → Leads line w c (option_map_or (at_border line c t) (next_centre line c track) rest k) v }
{}

/// A handover that is taken over is yielded, for all homes in the hand. The supervision is laid down by a quiet step.
/// Another orders the train to end its session, if the session is up and no own section is in the hand.
pub fn a_yield_lays_down()
    ensures { (line : Line) (w : Flow) (c a number t : ℕ) (k : Centre) (v : LineState) → IsLine line
        → IsFlowSound line w → Shows line w v
        → is_centre line c ≡ true → w.at c ≡ k
        → ((d u h : ℕ) → allowed_by a (TakingOver number t) d u h ≡ true → (before w c d u h ≡ 0) × (h ≤ k.announced))
        → Leads line w c (taking_over line c a number t k) v }
{}

/// After the extension by a request the border may be sent. Premise: if no handover was announced before, the hand had
/// no section of the next centre.
pub fn a_request_may_announce()
    ensures unannounced { (line : Line) (c d : ℕ) (k j : Centre) (m : TrainMessage) (n : Mission) (place : Place)
        → IsLine line
        → IsRequestHeard line c k m n place → IsHandAt line n.place n.hand → next_centre line c place.track ≡ Some d
        → (n.handing ≡ None → is_empty (part_at line d place.track n.hand) ≡ true)
        → j.mission m.nid_engine ≡ Some (extended line c k place n) → j.phase m.nid_engine ≡ k.phase m.nid_engine
        → MayAnnounce line c m.nid_engine d j }
    ensures announced { (line : Line) (c d : ℕ) (k j : Centre) (m : TrainMessage) (n : Mission) (place : Place)
        → IsLine line
        → IsRequestHeard line c k m n place → IsHandAt line n.place n.hand → next_centre line c place.track ≡ Some d
        → AnnouncesAll line c k
        → j.mission m.nid_engine ≡ Some (extended line c k place n) → j.phase m.nid_engine ≡ k.phase m.nid_engine
        → MayAnnounce line c m.nid_engine d j }
{}

/// At an end of mission the pool is returned, and the mission is ended. After that it is shown as ended, without a
/// pending request to shorten. All else is shown as before.
pub fn an_ended_mission_is_shown()
    ensures { (line : Line) (w : Flow) (c t : ℕ) (m : Mission) (k : Centre) (v : LineState) → IsLine line
        → IsFlowSound line w → Shows line w v
        → is_centre line c ≡ true → w.at c ≡ k → k.mission t ≡ Some m
        → IsShownSo line w c (ends line c t m k) (ended t v) }
{}

/// A mission without an announced handover has no section of the next centre in its hand. This holds in the initial
/// state, and after each step of a sound centre.
pub fn a_centre_announces_all()
    ensures begins { (line : Line) (c : ℕ) → IsLine line → AnnouncesAll line c (beginning line c) }
    ensures step { (line : Line) (c : ℕ) (k : Centre) (event : Event) → IsLine line → IsCentreSound line c k
        → AnnouncesAll line c k
        → AnnouncesAll line c (left_by line c k event) }
{}
