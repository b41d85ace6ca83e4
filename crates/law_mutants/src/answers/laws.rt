//! Laws of answers, and of the wrong ones beside them.

ghost use Rattle.std.specs.Prelude.{◌≡◌, ℕ, true, List, Ok};
ghost use Rattle.law_base.specs.Counting.Network.{took, TakesHead, IsCounted};
ghost use Rattle.law_base.specs.Counting.Resource.{IsWithinCap, IsAtCap};
ghost use Rattle.rbc_spec.specs.Line.{Line, IsLine, is_centre};
ghost use Rattle.rbc_spec.specs.Place.{Place};
ghost use Rattle.rbc_spec.specs.Frame.Body.{AskRight, RouteReturn};
ghost use Rattle.rbc_spec.specs.Centre.{is_registrar_of};
ghost use Rattle.rbc_spec.specs.Rules.{start_waiting};
ghost use Rattle.rbc_spec.specs.Links.{right_asked, is_train};
ghost use Rattle.rbc_spec.specs.World.{World, Event, Answer, Delivery, new_world, world_step, world_run};
ghost use Rattle.law_invariants.specs.Flow.Counts.{rights, tokens};
ghost use Rattle.law_invariants.specs.Flow.Flow.{Flow, flow_of, centre_count};
ghost use Rattle.law_invariants.specs.Flow.Leads.{replied};
ghost use Rattle.law_invariants.specs.NoUnasked.Asked.{Question, questions};
ghost use Rattle.law_invariants.specs.NoUnasked.Asked.Question.{OfRight};
ghost use Rattle.law_mutants.specs.Small.{small, only, in_section_1, flow, returning};
ghost use Rattle.law_mutants.specs.Past.{GoesPast};
ghost use Rattle.law_mutants.specs.Answers.Rules.{keeping_right, staying_silent, asking_again, swallowing_return};
ghost use Rattle.law_mutants.specs.Answers.Worlds.{asking, giving_up, asking_in_vain, FallsShort};

/// After each question for a right at the head of a link, a train has its right at most once. If the given right stays
/// too, the train has it at the registrar and in the answer.
pub fn no_right_is_given_and_kept()
    ensures the_rule_keeps { (line : Line) (w : Flow) (a c u t : ℕ) → IsLine line → IsCounted w
        → is_centre line a ≡ true → is_centre line c ≡ true
        → TakesHead w a c (AskRight u) → IsWithinCap (rights line t) (centre_count line) w
        → IsWithinCap (rights line t) (centre_count line) (replied (took w a c) c (right_asked line c a u (w.at c))) }
    ensures the_wrong_rule_breaks { TakesHead (flow asking) 1 0 (AskRight 1)
        × GoesPast (rights small 1) small (flow asking)
        (replied (took (flow asking) 1 0) 0 (keeping_right small 0 1 1 ((flow asking).at 0))) }
{}

/// The registrar is asked for the right of a train of the line. Then each question is on its way, or its answer is, as
/// before. If a missing right is not refused, the question is pending and nothing on the way will answer it.
pub fn no_question_is_met_by_silence()
    ensures the_rule_keeps { (line : Line) (w : Flow) (a c t d : ℕ) (x : Question) → IsLine line → IsCounted w
        → is_centre line a ≡ true → is_centre line c ≡ true
        → TakesHead w a c (AskRight t) → is_train line t ≡ true → is_registrar_of line c t ≡ true
        → IsAtCap (questions x d) (centre_count line) w
        → IsAtCap (questions x d) (centre_count line) (replied (took w a c) c (right_asked line c a t (w.at c))) }
    ensures the_wrong_rule_breaks { TakesHead (flow asking_in_vain) 1 0 (AskRight 1)
        × FallsShort (questions (OfRight 1) 1) small (flow asking_in_vain)
        (replied (took (flow asking_in_vain) 1 0) 0 (staying_silent small 0 1 1 ((flow asking_in_vain).at 0))) }
{}

/// For each waiting start, at most as many questions and answers are on the way as questions are pending. If the right
/// is asked for again while the first question is on its way, there are two for one.
pub fn no_right_is_asked_for_twice()
    ensures the_rule_keeps { (line : Line) (w : Flow) (c t d : ℕ) (place : Place) (x : Question) → IsLine line
        → IsCounted w → is_centre line c ≡ true
        → IsWithinCap (questions x d) (centre_count line) w
        → IsWithinCap (questions x d) (centre_count line) (replied w c (start_waiting line t place (w.at c))) }
    ensures the_wrong_rule_breaks { GoesPast (questions (OfRight 1) 1) small (flow giving_up)
        (replied (flow giving_up) 1 (asking_again small 1 in_section_1 ((flow giving_up).at 1))) }
{}

/// After each delivery, each token of a section in use is in one place. If returned sections stay in use, they are in
/// use and nowhere.
pub fn no_return_is_swallowed()
    ensures the_rule_keeps { (line : Line) (events : List Event) (answers : List Answer) (w new : World)
        (answer : Answer) (a b number t s : ℕ) → IsLine line
        → world_run line (new_world line) events ≡ Ok (answers, w)
        → world_step line w (Delivery a b number) ≡ Ok (answer, new)
        → IsAtCap (tokens line t s) (centre_count line) (flow_of new) }
    ensures the_wrong_rule_breaks { TakesHead (flow returning) 0 1 (RouteReturn 1 (only 2))
        × FallsShort (tokens small 1 2) small (flow returning)
        (replied (took (flow returning) 0 1) 1 (swallowing_return small 1 0 1 (only 2) ((flow returning).at 1))) }
{}
