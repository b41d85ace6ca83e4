//! Laws of a sound centre: its initial state is sound, and each event keeps it sound. Whether a centre is sound
//! (`IsCentreSound` of `law_invariants::flow`) depends only on its own state.
//!
//! No code. The statements of `laws.rt` have to stay; their proofs may change.

mod laws;

pub use laws::{
    a_centre_begins_sound, a_centre_stays_sound, a_frame_in_range_has_a_hand,
    each_centre_of_a_world_is_sound,
};
