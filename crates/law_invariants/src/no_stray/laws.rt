//! Laws of frames and pending questions in each world after a list of events.

ghost use Rattle.std.specs.Prelude.{◌≡◌, ◌⊎◌, ℕ, Bool, true, false, List, [], Some, None, Ok};
ghost use Rattle.rbc_spec.specs.SectionRuns.{SectionRun, within};
ghost use Rattle.rbc_spec.specs.Line.{Line, IsLine, is_centre, is_home};
ghost use Rattle.rbc_spec.specs.Place.{Place};
ghost use Rattle.rbc_spec.specs.Frame.{Frame, YieldedPlace, yielded_place};
ghost use Rattle.rbc_spec.specs.Frame.Body.{GiveRight, RefuseRight, RouteInfo, RouteReturn, Yield};
ghost use Rattle.rbc_spec.specs.Outcome.{Next};
ghost use Rattle.rbc_spec.specs.Centre.{is_out_for};
ghost use Rattle.rbc_spec.specs.Step.{link_answer};
ghost use Rattle.rbc_spec.specs.World.{World, Event, Answer, Delivery, new_world, frame_sent, world_step, world_run};
ghost use Rattle.law_invariants.specs.NoUnasked.Asked.{Question, stands};
ghost use Rattle.law_invariants.specs.NoStray.Due.{IsFrameDue, IsTakenOver};
ghost use Rattle.law_invariants.specs.NoStray.Questions.{IsAnswered, frames_from, frames_to};

/// After any list of events, each frame that is the next of its link names a train of the line and is due. An answer
/// finds its question, a returned thing is out there, and the handover of the frame is known.
pub fn no_frame_is_stray()
    ensures { (line : Line) (events : List Event) (answers : List Answer) (w : World) (a b number : ℕ) (f : Frame)
        → IsLine line
        → world_run line (new_world line) events ≡ Ok (answers, w) → frame_sent w a b number ≡ Some f
        → link_answer line b (w.at b) a f ≡ Next
        → IsFrameDue line w a b f }
{}

/// So a right is given or refused only if it was asked for and has no answer yet.
pub fn no_right_comes_unasked()
    ensures { (line : Line) (events : List Event) (answers : List Answer) (w : World) (a b number t : ℕ) (f : Frame)
        → IsLine line
        → world_run line (new_world line) events ≡ Ok (answers, w) → frame_sent w a b number ≡ Some f
        → link_answer line b (w.at b) a f ≡ Next
        → (f.body ≡ GiveRight t) ⊎ (f.body ≡ RefuseRight t) → (w.at b).has_asked t ≡ true }
{}

/// Sections are lent only to answer a pending request for the first of them, and only by their home.
pub fn no_route_comes_unasked()
    ensures { (line : Line) (events : List Event) (answers : List Answer) (w : World) (a b number t : ℕ)
        (r : SectionRun) (f : Frame) → IsLine line
        → world_run line (new_world line) events ≡ Ok (answers, w) → frame_sent w a b number ≡ Some f
        → link_answer line b (w.at b) a f ≡ Next
        → f.body ≡ RouteInfo t r
        → ((w.at b).route_ask t ≡ Some r.first) × (is_home line a r.first ≡ true)
        × ((s : ℕ) → within r s ≡ true → is_home line a s ≡ true) }
{}

/// Each returned section is out for its train at the centre to which it returns.
pub fn only_what_is_out_comes_home()
    ensures { (line : Line) (events : List Event) (answers : List Answer) (w : World) (a b number t s : ℕ)
        (r : SectionRun) (f : Frame) → IsLine line
        → world_run line (new_world line) events ≡ Ok (answers, w) → frame_sent w a b number ≡ Some f
        → link_answer line b (w.at b) a f ≡ Next
        → f.body ≡ RouteReturn t r → within r s ≡ true
        → (is_home line b s ≡ true) × (is_out_for t ((w.at b).book s) ≡ true) }
{}

/// Each Yield that is the next of its link is expected under its number. After its delivery the mission is at the
/// receiving centre.
pub fn each_yield_is_taken()
    ensures { (line : Line) (events : List Event) (answers : List Answer) (w new : World) (answer : Answer)
        (a b at number t heard : ℕ)
        (has_data is_ended : Bool) (carried : YieldedPlace) (hand : SectionRun) (f : Frame) → IsLine line
        → world_run line (new_world line) events ≡ Ok (answers, w) → frame_sent w a b at ≡ Some f
        → link_answer line b (w.at b) a f ≡ Next
        → f.body ≡ Yield number t heard has_data is_ended carried hand
        → world_step line w (Delivery a b at) ≡ Ok (answer, new)
        → (place : Place) × (carried ≡ yielded_place place) × IsTakenOver a number t place hand (w.at b) (new.at b) }
{}

/// Each pending question of a centre is on its way, or its answer is, once. For each waiting start the right was asked
/// for. So if nothing is on the way from a centre or to it, it has all its answers, and no start waits there.
pub fn each_question_is_answered()
    ensures on_the_way { (line : Line) (events : List Event) (answers : List Answer) (w : World) → IsLine line
        → world_run line (new_world line) events ≡ Ok (answers, w) → IsAnswered line w }
    ensures at_rest { (line : Line) (events : List Event) (answers : List Answer) (w : World) (c : ℕ) → IsLine line
        → world_run line (new_world line) events ≡ Ok (answers, w) → is_centre line c ≡ true → frames_from line w c ≡ []
        → frames_to line w c ≡ []
        → ((x : Question) → stands x (w.at c) ≡ false) × ((t : ℕ) → (w.at c).wait t ≡ None) }
{}
