//! Laws of the flow between the centres of a line.

ghost use Rattle.std.specs.Prelude.{◌≡◌, ◌≤◌, ℕ, ◌+◌, ◌==◌, ◌&&◌, not, if◌then◌else◌, Bool, true, List, [], All};
ghost use Rattle.std.specs.Prelude.{Some, Ok};
ghost use Rattle.law_base.specs.Counting.Sums.{one_if};
ghost use Rattle.law_base.specs.Counting.Network.{took, acted, TakesHead, IsCounted};
ghost use Rattle.law_base.specs.Counting.Resource.{sent_by};
ghost use Rattle.law_base.specs.Local.Local.{IsOrdered};
ghost use Rattle.rbc_spec.specs.Maps.{put};
ghost use Rattle.rbc_spec.specs.SectionRuns.{SectionRun, within};
ghost use Rattle.rbc_spec.specs.Line.{Line, IsLine, is_centre};
ghost use Rattle.rbc_spec.specs.Place.{Place};
ghost use Rattle.rbc_spec.specs.Frame.{Frame, Body, YieldedPlace, carried_place};
ghost use Rattle.rbc_spec.specs.Frame.Body.{GiveRight, Yield};
ghost use Rattle.rbc_spec.specs.Centre.{Centre};
ghost use Rattle.rbc_spec.specs.Acts.{Act, rest, returned};
ghost use Rattle.rbc_spec.specs.LineCentre.{LineState, line_beginning};
ghost use Rattle.rbc_spec.specs.Links.{may_take, received};
ghost use Rattle.rbc_spec.specs.Message.{TrainMessage};
ghost use Rattle.rbc_spec.specs.Outcome.{Next};
ghost use Rattle.rbc_spec.specs.ReadOff.{StandsFor};
ghost use Rattle.rbc_spec.specs.Promises.{HasOnePlace};
ghost use Rattle.rbc_spec.specs.Step.{Train, Set, Unset, Deliver, Effect, offered, link_answer, state_after, taken};
ghost use Rattle.rbc_spec.specs.World.{World, Event, Answer, new_world, frame_sent, world_step};
ghost use Rattle.law_invariants.specs.Flow.Flow.{Flow, flow_of, in_world, took_frame, centre_count};
ghost use Rattle.law_invariants.specs.Flow.Numbers.{IsNumbered, taken_after};
ghost use Rattle.law_invariants.specs.Flow.Neighbours.{AreNeighbours};
ghost use Rattle.law_invariants.specs.Flow.Counts.{tokens};
ghost use Rattle.law_invariants.specs.Flow.Pairs.{IsPaired};
ghost use Rattle.law_invariants.specs.Flow.Keeping.{nothing_came, came_with, IsFairAct, LeavesSound, IsNeutral};
ghost use Rattle.law_invariants.specs.Flow.Keeping.{IsApart, IsAside};
ghost use Rattle.law_invariants.specs.Flow.Sound.{ArePaired, IsFlowSound, LosesNothing};
ghost use Rattle.law_invariants.specs.Flow.Shows.{Shows};
ghost use Rattle.law_invariants.specs.Flow.Leads.{replied, Leads, LeadsOn};

/// A line begins sound, with nothing lost and its frames numbered, and the one line centre's beginning shows it.
pub fn a_line_begins_sound()
    ensures sound { (line : Line) → IsFlowSound line (flow_of (new_world line)) }
    ensures whole { (line : Line) → LosesNothing line (flow_of (new_world line)) }
    ensures numbered { (line : Line) → IsNumbered (new_world line) }
    ensures shown { (line : Line) → Shows line (flow_of (new_world line)) line_beginning }
{}

/// A state that shows the flow of a sound world represents the world.
pub fn what_shows_stands()
    ensures { (line : Line) (w : World) (v : LineState) → IsFlowSound line (flow_of w) → Shows line (flow_of w) v
        → StandsFor line w v }
{}

/// If nothing is lost either, each section in use, each right and each mission is in one place.
pub fn a_flow_that_loses_nothing_has_one_place()
    ensures { (line : Line) (w : World) → IsLine line → IsFlowSound line (flow_of w) → LosesNothing line (flow_of w)
        → HasOnePlace line w }
{}

/// Each frame is numbered by its position on its link. So the frame that a link calls the next is the head of the
/// frames on the way.
pub fn each_frame_keeps_its_number()
    ensures kept { (line : Line) (w : World) (event : Event) (answer : Answer) (new : World) → IsNumbered w
        → world_step line w event ≡ Ok (answer, new) → IsNumbered new }
    ensures number { (w : World) → IsNumbered w → (a b number : ℕ) (f : Frame) → frame_sent w a b number ≡ Some f
        → f.number ≡ number }
    ensures next { (w : World) → IsNumbered w → (a b number : ℕ) (f : Frame) → frame_sent w a b number ≡ Some f
        → offered ((w.at b).taken a) f.number ≡ Next → TakesHead (flow_of w) a b f.body }
{}

/// On every line the next centre of a track is linked with the one before it, and does not have it as its own next.
pub fn the_next_centre_is_a_neighbour()
    ensures { (line : Line) → IsLine line → AreNeighbours line }
{}

/// An act that does nothing leads to the same state. If quiet steps follow each of two acts, they follow both in order.
pub fn one_act_after_another()
    ensures none { (line : Line) (w : Flow) (c : ℕ) (k : Centre) (v : LineState)
        → IsFlowSound line (replied w c (rest k)) → Shows line (replied w c (rest k)) v → Leads line w c (rest k) v }
    ensures two { (line : Line) (w : Flow) (c : ℕ) (k : Centre) (v : LineState) (first second : Act)
        → LeadsOn line w c k v first second }
{}

/// A centre accepts each Yield that is the next frame of its link, with the place that it carries.
pub fn each_yield_is_taken()
    ensures { (line : Line) (w : Flow) (a c number t heard : ℕ) (has_data is_ended : Bool) (carried : YieldedPlace)
        (hand : SectionRun)
        → IsLine line → IsFlowSound line w → is_centre line a ≡ true → is_centre line c ≡ true
        → TakesHead w a c (Yield number t heard has_data is_ended carried hand)
        → (place : Place) × (carried_place carried ≡ Some place)
        × (may_take line c (w.at c) a number t place hand ≡ true) }
{}

/// The right for a waiting start of mission arrives, as the next frame of its link, at the centre that asked for it.
/// The one line centre admits the start, and all stays sound.
pub fn a_right_is_admitted()
    ensures { (line : Line) (w : Flow) (v : LineState) (a c t number : ℕ) (place : Place) → IsFlowSound line w
        → Shows line w v
        → is_centre line a ≡ true → is_centre line c ≡ true → TakesHead w a c (GiveRight t)
        → (w.at c).wait t ≡ Some place → (w.at c).has_asked t ≡ true
        → Leads line (took w a c) c (received line c a (GiveRight t) (took_frame a number (w.at c))) v }
{}

/// A fair act of a centre that leaves sound parts keeps all sound, by itself or at the head of a link. It must keep the
/// agreement of pairs of centres on handovers, as it does if it has no part in one.
pub fn a_fair_act_keeps_all_sound()
    ensures by_itself { (line : Line) (w : Flow) (c : ℕ) (y : Centre) (frames : ℕ → List Body) → IsFlowSound line w
        → is_centre line c ≡ true
        → LeavesSound line c y frames → IsFairAct line c (w.at c) nothing_came y frames
        → ArePaired line (acted w c y frames)
        → IsFlowSound line (acted w c y frames) }
    ensures at_head { (line : Line) (w : Flow) (a c : ℕ) (f : Body) (y : Centre) (frames : ℕ → List Body)
        → IsFlowSound line w
        → is_centre line a ≡ true → is_centre line c ≡ true → TakesHead w a c f
        → LeavesSound line c y frames → IsFairAct line c (w.at c) (came_with a c f) y frames
        → ArePaired line (acted (took w a c) c y frames)
        → IsFlowSound line (acted (took w a c) c y frames) }
    ensures sent { (w : Flow) (c i j t : ℕ) (y : Centre) (frames : ℕ → List Body) → IsCounted w
        → ((d : ℕ) → All IsNeutral (frames d))
        → IsApart (w.at c) y → IsPaired w i j t → IsPaired (acted w c y frames) i j t }
    ensures taken { (w : Flow) (a c i j t : ℕ) (f : Body) → TakesHead w a c f → IsNeutral f → IsPaired w i j t
        → IsPaired (took w a c) i j t }
    ensures aside { (line : Line) (w : Flow) (c : ℕ) (y : Centre) → IsFlowSound line w → is_centre line c ≡ true
        → IsAside (w.at c) y
        → IsFlowSound line (acted w c y (λ d. [])) }
{}

/// How many frames a centre has taken from each other changes only by the step of a frame that is the next of its link.
pub fn a_step_takes_the_next_frame_alone()
    ensures train { (line : Line) (c : ℕ) (k : Centre) (m : TrainMessage)
        → (taken line c (Train m) k).1.taken ≡ k.taken }
    ensures set { (line : Line) (c s : ℕ) (k : Centre) → (taken line c (Set s) k).1.taken ≡ k.taken }
    ensures unset { (line : Line) (c s : ℕ) (k : Centre) → (taken line c (Unset s) k).1.taken ≡ k.taken }
    ensures deliver { (line : Line) (c d : ℕ) (f : Frame) (k : Centre)
        → (taken line c (Deliver d f) k).1.taken ≡ taken_after d f (link_answer line c k d f) k }
{}

/// A step of a centre is an act of the flow: by itself, or at the head of a link.
pub fn a_step_is_an_act()
    ensures by_itself { (w : World) (c stamp : ℕ) (k : Centre) (e : Effect) (trains : List ℕ)
        → ((d : ℕ) → k.sent d ≡ (w.at c).sent d)
        → ((a : ℕ) → e.reply.state.taken a ≡ (w.at c).taken a)
        → flow_of (in_world w c (state_after stamp k e) trains)
        ≡ acted (flow_of w) c (state_after stamp k e) e.reply.frames }
    ensures at_head { (w : World) (c stamp : ℕ) (k : Centre) (e : Effect) (trains : List ℕ) (a : ℕ)
        → ((d : ℕ) → k.sent d ≡ (w.at c).sent d)
        → ((x : ℕ) → e.reply.state.taken x ≡ put (w.at c).taken a ((w.at c).taken a + 1) x)
        → flow_of (in_world w c (state_after stamp k e) trains)
        ≡ acted (took (flow_of w) a c) c (state_after stamp k e) e.reply.frames }
{}

/// The frames that return sections name each section of the run at most once, and no other.
pub fn what_goes_home_goes_once()
    ensures { (line : Line) (c t track u s : ℕ) (r : SectionRun) (k : Centre) → IsOrdered line
        → sent_by (tokens line u s) (centre_count line) c (returned line c t track r k).frames
        ≤ one_if ((t == u) && within r s) }
{}
