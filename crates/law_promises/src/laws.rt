//! Laws of promises.

ghost use Rattle.std.specs.Prelude.{◌≡◌, ℕ, Contains, List, map, true, false, Ok};
ghost use Rattle.rbc_spec.specs.Line.{Line, IsLine, is_home};
ghost use Rattle.rbc_spec.specs.Outcome.{Outcome, Told, Done};
ghost use Rattle.rbc_spec.specs.LineCentre.{Given, LineState, is_given_to, line_beginning};
ghost use Rattle.rbc_spec.specs.World.{World, Event, Unset, Answer, Answered, new_world, world_step, world_run};
ghost use Rattle.rbc_spec.specs.ReadOff.{read_off};
ghost use Rattle.rbc_spec.specs.Promises.{MayFree};
ghost use Rattle.rbc_spec.specs.Run.{Run};
ghost use Rattle.law_outside.specs.Outside.{IsSafeOutside, OutsideTheorem, sees_all, nothing_seen, spoken_of};
ghost use Rattle.law_promises.specs.Promised.{IsFreedWithin, IsTakenBack};

/// After any list of events, a section that the line shows as given to a train stays given by the next event. The
/// exceptions are messages of the train to its supervisor. A report or an end of mission clears the section, or the
/// train grants the pending request to give it up.
pub fn a_section_leaves_a_hand_only_by_its_train()
    ensures { (line : Line) (events : List Event) (answers : List Answer) (w new : World) (event : Event)
        (answer : Answer) (t s : ℕ) → IsLine line
        → world_run line (new_world line) events ≡ Ok (answers, w) → world_step line w event ≡ Ok (answer, new)
        → (read_off line w).mark s ≡ Given t → is_given_to t ((read_off line new).mark s) ≡ false
        → MayFree line w t s event }
{}

/// So if a section was given to a train and is not any more, some event between freed it in one of these ways.
pub fn a_section_that_left_was_freed()
    ensures { (line : Line) (past events : List Event) (earlier answers : List Answer) (w last : World) (t s : ℕ)
        → IsLine line
        → world_run line (new_world line) past ≡ Ok (earlier, w) → world_run line w events ≡ Ok (answers, last)
        → (read_off line w).mark s ≡ Given t → is_given_to t ((read_off line last).mark s) ≡ false
        → IsFreedWithin line w events t s }
{}

/// If a section is reported back, or an unset of it is answered by Done, it is shut at its home and nobody has it. No
/// hand, no pool, no waiting start and no frame on the way has it.
pub fn a_section_told_back_is_nobodys()
    ensures told { (line : Line) (events : List Event) (answers : List Answer) (w new : World) (event : Event)
        (o : Outcome) (c s : ℕ) → IsLine line
        → world_run line (new_world line) events ≡ Ok (answers, w) → world_step line w event ≡ Ok (Answered o, new)
        → is_home line c s ≡ true → Contains o.words (Told s) → IsTakenBack line c s new }
    ensures done { (line : Line) (events : List Event) (answers : List Answer) (w new : World) (o : Outcome) (c s : ℕ)
        → IsLine line
        → world_run line (new_world line) events ≡ Ok (answers, w)
        → world_step line w (Unset c s) ≡ Ok (Answered o, new)
        → is_home line c s ≡ true → Contains o.words (Done s) → IsTakenBack line c s new }
{}

/// The view from outside is safe for all events at the centres of a line, also with late, repeated or lost frames. No
/// two trains may run over one section by the messages to them. None may run over a section that the interlocking has
/// not released, or has taken back.
pub fn what_the_world_sees_is_safe()
    ensures { OutsideTheorem }
{}

/// The same of each run of the one line centre. By all messages to them no two trains may run over one section. None
/// may run over a section that the interlocking has not released, or has taken back.
pub fn what_is_told_is_safe()
    ensures { (line : Line) (events : List Event) (answers : List Answer) (v : LineState) → IsLine line
        → Run line line_beginning events answers v
        → IsSafeOutside line (sees_all line events (map spoken_of answers) nothing_seen) }
{}
