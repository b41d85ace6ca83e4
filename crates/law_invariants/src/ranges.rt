//! Laws of ranges: each field of each frame that a centre sends is in its range, so every frame of every world has a
//! spelling.
//!
//! No code. The statements of `laws.rt` have to stay; their proofs may change.

mod laws;

pub use laws::{
    a_centre_begins_in_range, a_centre_stays_in_range, each_answer_says_few,
    each_frame_has_its_ranges, each_frame_of_a_world_has_its_ranges,
};
