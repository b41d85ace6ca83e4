//! Laws of the messages that are left without an answer.

ghost use Rattle.std.specs.Prelude.{◌≡◌, ◌⊎◌, ℕ, [], true, Some, None};
ghost use Rattle.rbc_spec.specs.Line.{Line};
ghost use Rattle.rbc_spec.specs.Message.{TrainMessage};
ghost use Rattle.rbc_spec.specs.Outcome.{Reason};
ghost use Rattle.rbc_spec.specs.Centre.{Centre};
ghost use Rattle.rbc_spec.specs.Step.{Train, stamp_of, ticked, taken};
ghost use Rattle.rbc_spec.specs.Step as step;
ghost use Rattle.rbc_spec.specs.LineCentre.{LineState};
ghost use Rattle.rbc_spec.specs.World.{World};
ghost use Rattle.rbc_spec.specs.Run as run;
ghost use Rattle.rbc_spec.specs.ReadOff.{StandsFor};
ghost use Rattle.law_base.specs.Rules.Silences.{HasEndIfAsked};

/// In every state of a centre, the outcome of a message has its reason of silence, or none if it is answered.
pub fn a_step_shows_its_reason_of_silence()
    ensures { (line : Line) (c : ℕ) (k : Centre) (m : TrainMessage)
        → (taken line c (Train m) k).0.silence ≡ step.silence line c k m }
{}

/// A silent message has no messages, replies or frames as its answer, and changes only the clock.
pub fn a_silent_message_changes_nothing()
    ensures state { (line : Line) (c : ℕ) (k : Centre) (m : TrainMessage) (why : Reason)
        → step.silence line c k m ≡ Some why
        → (taken line c (Train m) k).1 ≡ ticked (stamp_of k (Train m)) k }
    ensures sayings { (line : Line) (c : ℕ) (k : Centre) (m : TrainMessage) (why : Reason)
        → step.silence line c k m ≡ Some why
        → (taken line c (Train m) k).0.sayings ≡ [] }
    ensures frames { (line : Line) (c d : ℕ) (k : Centre) (m : TrainMessage) (why : Reason)
        → step.silence line c k m ≡ Some why
        → (taken line c (Train m) k).0.frames d ≡ [] }
    ensures words { (line : Line) (c : ℕ) (k : Centre) (m : TrainMessage) (why : Reason)
        → step.silence line c k m ≡ Some why
        → (taken line c (Train m) k).0.words ≡ [] }
{}

/// In every world that a state of the one line centre represents, that state has a centre's reason of silence. If the
/// centre answers, the state has no reason, or may listen to the train.
pub fn the_line_centre_is_silent_for_the_same_reasons()
    ensures silent { (line : Line) (w : World) (v : LineState) (c : ℕ) (m : TrainMessage) (why : Reason)
        → StandsFor line w v → HasEndIfAsked line (w.at c) m
        → step.silence line c (w.at c) m ≡ Some why → run.silence line v c m ≡ Some why }
    ensures heard { (line : Line) (w : World) (v : LineState) (c : ℕ) (m : TrainMessage) → StandsFor line w v
        → HasEndIfAsked line (w.at c) m
        → step.silence line c (w.at c) m ≡ None
        → (run.silence line v c m ≡ None) ⊎ (run.may_listen line c m.body (run.silence line v c m) ≡ true) }
{}
