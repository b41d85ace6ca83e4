//! Laws of the flow between the centres of a line: their states, and the frames on the way. `specs/Sound.antt` has the
//! invariants, and `specs/Shows.antt` the state of the one line centre that a flow shows. `specs/Leads.antt` has the
//! effect of an act of a centre on both.
//!
//! No code. The statements of `laws.rt` have to stay; their proofs may change.

mod laws;

pub use laws::{
    a_fair_act_keeps_all_sound, a_flow_that_loses_nothing_has_one_place, a_line_begins_sound,
    a_right_is_admitted, a_step_is_an_act, a_step_takes_the_next_frame_alone,
    each_frame_keeps_its_number, each_yield_is_taken, one_act_after_another,
    the_next_centre_is_a_neighbour, what_goes_home_goes_once, what_shows_stands,
};
