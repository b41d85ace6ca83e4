//! Laws of the state that the one line centre shows of the centres of a line. They state its change by an act of one
//! centre (`specs/After.antt`), field by field, and that it is the state that is read off.
//!
//! No code. The statements of `laws.rt` have to stay; their proofs may change.

mod laws;

pub use laws::{
    a_hand_is_what_is_given, a_section_enters_or_leaves_a_hand, a_yield_hands_over,
    an_act_of_one_centre, hands_after, mark_after, mission_after, one_part_after,
    what_a_mark_tells, what_an_act_shows, what_frames_carry, what_is_shown_is_read_off,
    what_is_unseen_changes_nothing_else, where_a_mission_is, where_an_act_is,
};
