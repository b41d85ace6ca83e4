//! Laws of the rules, for every line and every state of a centre. They are of runs of sections, of distances, of silent
//! messages, and of the frames and messages of a step.
//!
//! No code. The statements of `laws.rt` have to stay; their proofs may change.

mod asks;
mod distances;
mod sections;
mod silences;
mod steps;

pub use asks::a_question_stands_for_an_empty_pool;
pub use distances::{a_place_is_ahead_of_its_group, no_distance_is_cut};
pub use sections::{
    a_cut_run_is_joined_again, a_run_is_cut_in_two, runs_are_joined, runs_of_the_same_sections,
    the_longest_run, what_passes_first, what_runs_share,
};
pub use silences::{
    a_silent_message_changes_nothing, a_step_shows_its_reason_of_silence,
    the_line_centre_is_silent_for_the_same_reasons,
};
pub use steps::{a_step_sends_few, a_step_sends_in_order, each_frame_is_counted_in_range};
