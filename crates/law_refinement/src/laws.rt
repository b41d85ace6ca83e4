//! Laws of whole lines.

ghost use Rattle.std.specs.Prelude.{◌≡◌, ◌≢◌, ◌⊎◌, ℕ, true, false, Some, None, Ok, Err};
ghost use Rattle.rbc_spec.specs.Line.{Line, IsLine, is_centre};
ghost use Rattle.rbc_spec.specs.Frame.{Frame};
ghost use Rattle.rbc_spec.specs.Message.{TrainMessage};
ghost use Rattle.rbc_spec.specs.Outcome.{Next, Reason};
ghost use Rattle.rbc_spec.specs.Centre.{Centre};
ghost use Rattle.rbc_spec.specs.Step as step;
ghost use Rattle.rbc_spec.specs.Step.{Event, taken, link_answer};
ghost use Rattle.rbc_spec.specs.LineCentre.{LineState, line_beginning};
ghost use Rattle.rbc_spec.specs.World as world;
ghost use Rattle.rbc_spec.specs.World.{World, Bytes, Delivery, centre_of, new_world, frame_sent};
ghost use Rattle.rbc_spec.specs.Run as run;
ghost use Rattle.rbc_spec.specs.Run.{TellsInOrder};
ghost use Rattle.rbc_spec.specs.ReadOff.{StandsFor, read_off};
ghost use Rattle.rbc_spec.specs.Theorems.{WholeLineTheorem, EachEventTheorem};
ghost use Rattle.law_refinement.specs.Meets.{Meets, StaysWith};

/// In every state of a centre, a step reports sections to the interlocking in the order of their numbers.
pub fn each_step_tells_in_order()
    ensures { (line : Line) (c : ℕ) (k : Centre) (event : Event) → TellsInOrder (taken line c event k).0.words }
{}

/// The initial state of the one line centre meets a new world. A state that meets a world is read off it, and
/// represents it.
pub fn what_meets_a_world()
    ensures beginning { (line : Line) → Meets line (new_world line) line_beginning }
    ensures read { (line : Line) (w : World) (v : LineState) → Meets line w v → v ≡ read_off line w }
    ensures stands { (line : Line) (w : World) (v : LineState) → Meets line w v → StandsFor line w (read_off line w) }
{}

/// The one line centre is silent for the same reason as the centre at which the message arrives. If the centre answers,
/// the one line centre has no reason, or may listen to the train. If the one line centre has no reason, the centre
/// answers.
pub fn the_line_centre_is_silent_alike()
    ensures silent { (line : Line) (w : World) (v : LineState) (c : ℕ) (m : TrainMessage) (why : Reason)
        → Meets line w v
        → step.silence line c (w.at c) m ≡ Some why → run.silence line v c m ≡ Some why }
    ensures heard { (line : Line) (w : World) (v : LineState) (c : ℕ) (m : TrainMessage) → Meets line w v
        → step.silence line c (w.at c) m ≡ None
        → (run.silence line v c m ≡ None) ⊎ (run.may_listen line c m.body (run.silence line v c m) ≡ true) }
    ensures answered { (line : Line) (w : World) (v : LineState) (c : ℕ) (m : TrainMessage) → Meets line w v
        → run.silence line v c m ≡ None → step.silence line c (w.at c) m ≡ None }
{}

/// An event without effect at the centres has none at the one line centre. It gives the same answer, and its state
/// meets the new world. Such events are a silent message, bytes without a message, and an event at a centre that is not
/// of the line. Others are a frame that is not the next of its link, and one that was never sent.
pub fn what_leads_nowhere()
    ensures silent { (line : Line) (w : World) (v : LineState) (c : ℕ) (m : TrainMessage) (why : Reason) → IsLine line
        → Meets line w v
        → step.silence line c (w.at c) m ≡ Some why → StaysWith line w v (Bytes c (Ok m)) }
    ensures unspelled { (line : Line) (w : World) (v : LineState) (c number : ℕ) → IsLine line → Meets line w v
        → StaysWith line w v (Bytes c (Err number)) }
    ensures stray { (line : Line) (w : World) (v : LineState) (a b number : ℕ) (f : Frame) → IsLine line
        → Meets line w v
        → frame_sent w a b number ≡ Some f → link_answer line b (w.at b) a f ≢ Next
        → StaysWith line w v (Delivery a b number) }
    ensures unsent { (line : Line) (w : World) (v : LineState) (a b number : ℕ) → IsLine line → Meets line w v
        → frame_sent w a b number ≡ None → StaysWith line w v (Delivery a b number) }
    ensures nowhere { (line : Line) (w : World) (v : LineState) (event : world.Event) → IsLine line → Meets line w v
        → is_centre line (centre_of event) ≡ false → StaysWith line w v event }
{}

/// For every list of events, the answers and states of the centres of a line are a run of the one line centre.
pub fn the_whole_line_theorem()
    ensures { WholeLineTheorem }
{}

/// After any list of events, the one line centre may give the same answer to each further event, between the states
/// that are read off. The event keeps its promises, and the new world is sound. So no right and no section in use is
/// lost.
pub fn each_event_of_the_line()
    ensures { EachEventTheorem }
{}
