//! Laws of prompt schedules.

ghost use Rattle.std.specs.Prelude.{◌≡◌, ℕ, ◌<◌, true, false, List, length, Some, Ok};
ghost use Rattle.rbc_spec.specs.Line.{Line, IsLine, is_centre};
ghost use Rattle.rbc_spec.specs.Centre.{is_registrar_of};
ghost use Rattle.rbc_spec.specs.Place.{Place};
ghost use Rattle.rbc_spec.specs.Frame.{Frame};
ghost use Rattle.rbc_spec.specs.Outcome.{Next, Outcome};
ghost use Rattle.rbc_spec.specs.Step.{link_answer};
ghost use Rattle.rbc_spec.specs.World.{World, Event, Answer, Answered, Delivery, new_world, frame_sent, way};
ghost use Rattle.rbc_spec.specs.World.{world_step, world_run};
ghost use Rattle.law_invariants.specs.NoUnasked.Asked.{Question, asks, answers, stands};
ghost use Rattle.law_invariants.specs.Ranges.Stays.{IsReadInRange};
ghost use Rattle.law_progress.specs.Fair.Schedule.{world_after};
ghost use Rattle.law_progress.specs.Prompt.Answering.{IsPrompt, IsTakenSoon, IsAnsweredSoon, PutsAnswer, is_asked_of};
ghost use Rattle.law_progress.specs.Prompt.Answering.{IsStartAnswered, HasInOrder};

/// Take an endless schedule in which each link delivers its next frame within k events. Trains and the interlocking may
/// go on for ever. Then each frame on the way is taken within k events for each frame up to it on its link. Or a
/// delivery on that link is refused before that, at the end of a step clock or for a full link.
pub fn each_frame_is_taken_in_time()
    ensures { (line : Line) (schedule : ℕ → Event) (k n a b i : ℕ) → IsLine line
        → ((j : ℕ) → IsReadInRange (schedule j)) → IsPrompt line schedule k
        → i < length (way (world_after line schedule n) a b) → IsTakenSoon line schedule k n a b i }
{}

/// After any list of events, the delivery of a question that is the next of its link has its answer in the same step.
/// That is one frame, back to the centre that asked. The delivery of an answer ends its question.
pub fn a_question_is_answered_at_once()
    ensures asked { (line : Line) (events : List Event) (replies : List Answer) (w new : World) (c d number : ℕ)
        (f : Frame) (o : Outcome) (x : Question) → IsLine line
        → world_run line (new_world line) events ≡ Ok (replies, w) → frame_sent w c d number ≡ Some f
        → link_answer line d (w.at d) c f ≡ Next → asks x f.body ≡ true
        → world_step line w (Delivery c d number) ≡ Ok (Answered o, new) → PutsAnswer x (o.frames c) }
    ensures ended { (line : Line) (events : List Event) (replies : List Answer) (w new : World) (c d number : ℕ)
        (f : Frame) (answer : Answer) (x : Question) → IsLine line
        → world_run line (new_world line) events ≡ Ok (replies, w) → frame_sent w d c number ≡ Some f
        → link_answer line c (w.at c) d f ≡ Next → answers x f.body ≡ true
        → world_step line w (Delivery d c number) ≡ Ok (answer, new) → stands x (new.at c) ≡ false }
{}

/// In such a schedule, each pending question of centre c to centre d is answered within a number of events
/// (`answer_time`). That number follows from k and from the frames on the way between c and d. Or a delivery between c
/// and d is refused before that. Trains and the interlocking may go on for ever.
pub fn each_question_is_answered_in_time()
    ensures { (line : Line) (schedule : ℕ → Event) (k n c d : ℕ) (x : Question) → IsLine line
        → ((j : ℕ) → IsReadInRange (schedule j)) → IsPrompt line schedule k → is_centre line c ≡ true
        → is_asked_of line d x ≡ true → stands x ((world_after line schedule n).at c) ≡ true
        → IsAnsweredSoon line schedule k n c d x }
{}

/// In such a schedule, take a start of mission that waits at centre c. Within that number of events it is answered by
/// message 41 or 40 of c, or its train begins or ends a session at c. Or a delivery between c and the registrar of its
/// train is refused before that.
pub fn each_start_is_answered_in_time()
    ensures { (line : Line) (schedule : ℕ → Event) (k n c d t : ℕ) (place : Place) → IsLine line
        → ((j : ℕ) → IsReadInRange (schedule j)) → IsPrompt line schedule k → is_centre line c ≡ true
        → is_registrar_of line d t ≡ true → ((world_after line schedule n).at c).wait t ≡ Some place
        → IsStartAnswered line schedule k n c d t }
{}

/// There are such schedules, whatever trains and the interlocking do. Take any endless list of events. Some schedule
/// has them in their order, one at each multiple of k, and is prompt for k.
pub fn each_endless_list_has_a_prompt_schedule()
    ensures { (line : Line) (others : ℕ → Event) → IsLine line
        → (schedule : ℕ → Event) × (k : ℕ) × HasInOrder others k schedule × IsPrompt line schedule k }
{}
