//! Laws of the promise of a world's step.

ghost use Rattle.std.specs.Prelude.{◌≡◌, ◌≢◌, ℕ, List, All, Result, Ok, Err, map};
ghost use Rattle.rbc_spec.specs.Line.{Line};
ghost use Rattle.rbc_spec.specs.Outcome.{Outcome};
ghost use Rattle.rbc_spec.specs.World.{World, Event, world_run};
ghost use Rattle.rbc_world.specs.rbc_centre.declared.fault.StepFault.{StepFault};
ghost use Rattle.rbc_world.specs.rbc_centre.declared.fault.StepFault.TheVariants.{Memory};
ghost use Rattle.rbc_world.specs.declared.event.Answer.{Answer};
ghost use Rattle.law_alike.specs.Alike.{IsStep, AreSteps, IsWrittenAs, answered, answers_of, seen};

/// Two steps keep the clauses, perhaps of different programs. From the same world, by the same event, and with enough
/// memory, they return the same visible answer or refusal. They leave the same line and world.
pub fn a_step_has_one_result()
    ensures { (line left others_left : Line) (w new others_new : World) (event : Event)
        (result other : Result Answer StepFault)
        → IsStep line w event result left new → IsStep line w event other others_left others_new → result ≢ Err Memory
        → other ≢ Err Memory
        → (seen result ≡ seen other) × (left ≡ others_left) × (new ≡ others_new) }
{}

/// So do two programs over a whole list of events, step by step. They return the same for each event, and leave the
/// same world.
pub fn a_list_of_events_has_one_end()
    ensures { (line : Line) (w new others_new : World) (events : List Event)
        (results others : List (Result Answer StepFault))
        → AreSteps line w events results new → AreSteps line w events others others_new
        → All (λ r. r ≢ Err Memory) results → All (λ r. r ≢ Err Memory) others
        → (map seen results ≡ map seen others) × (new ≡ others_new) }
{}

/// The answered events of a program are a run of the definition, with the program's visible answers, to the program's
/// last world. This has no premise on memory: a refused event changes nothing, and may be tried again.
pub fn answered_events_are_a_run()
    ensures { (line : Line) (w new : World) (events : List Event) (results : List (Result Answer StepFault))
        → AreSteps line w events results new
        → world_run line w (answered events results) ≡ Ok (answers_of results, new) }
{}

/// Two programs may each refuse some events, also for lack of memory, and be given them again. If the answered events
/// are the same list in both, so are the visible answers and the last worlds.
pub fn refused_events_may_be_left_out()
    ensures { (line : Line) (w new others_new : World) (events other_events : List Event)
        (results others : List (Result Answer StepFault))
        → AreSteps line w events results new → AreSteps line w other_events others others_new
        → answered events results ≡ answered other_events others
        → (answers_of results ≡ answers_of others) × (new ≡ others_new) }
{}

/// The visible part of an outcome has one spelling. The bytes of its messages to trains and of its frames are the same
/// for every program.
pub fn an_outcome_has_one_spelling()
    ensures { (o : Outcome) (messages others : List (ℕ × List ℕ)) (frames other_frames : ℕ → List (List ℕ))
        → IsWrittenAs o messages frames → IsWrittenAs o others other_frames
        → (messages ≡ others) × ((d : ℕ) → frames d ≡ other_frames d) }
{}
