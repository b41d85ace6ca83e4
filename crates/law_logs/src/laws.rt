//! Laws of the logs of centres that ran side by side.

ghost use Rattle.std.specs.Prelude.{◌≡◌, ℕ, Ok};
ghost use Rattle.rbc_spec.specs.Line.{Line};
ghost use Rattle.rbc_spec.specs.Outcome.{Outcome};
ghost use Rattle.rbc_spec.specs.Centre.{Centre};
ghost use Rattle.rbc_spec.specs.Step.{Event, step};
ghost use Rattle.law_logs.specs.Logs.{IsStamped, FamilyTheorem, SortedTheorem};
ghost use Rattle.law_logs.specs.Messages.{NumberTheorem};

/// For every event of a centre, the clock then shows the stamp of the step. It is above the old clock, and above the
/// stamp of a frame that arrived. The frames of the step follow those sent before, with that stamp, and are numbered
/// on.
pub fn each_step_is_stamped()
    ensures { (line : Line) (c : ℕ) (event : Event) (k new : Centre) (outcome : Outcome)
        → step line c event k ≡ Ok (outcome, new) → IsStamped k event outcome new }
{}

/// Suppose that each log replays its centre from the initial state, and that each delivered frame is in its sender's
/// log. Then every merge of the logs by stamp and centre is one run of the world, in whatever order the steps were
/// made. The world answers each event as its entry has it, and each centre ends in the state in which its log does.
pub fn the_family_theorem()
    ensures { FamilyTheorem }
{}

/// A list has each entry of each log once, each log's entries in their order. Sorted by stamp, and for one stamp by
/// centre, it is a merge of the logs. Each log keeps its order, whatever the method of sorting.
pub fn a_sorted_list_is_a_merge()
    ensures { SortedTheorem }
{}

/// The messages of a centre to a train have T_TRAIN 1, 2, 3 and so on, in the order of its log.
pub fn each_message_is_numbered()
    ensures { NumberTheorem }
{}
