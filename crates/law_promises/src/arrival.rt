//! The view by which trains run if only a part of the messages to them arrives: that is safe too.
//!
//! `specs/Received.antt` has the law of the centres of a line: any message may be lost. `specs/Meeting.antt` has the
//! consequence for trains that stay within the stretch by which they run. `specs/Arrival.antt` has the law of any
//! centres whose answers are safe, if no acceptance is lost.
//!
//! No code. The statements of `laws.rt` have to stay; their proofs may change. The scenes show lost messages, and the
//! reason for each premise.

mod laws;
mod scenes;

pub use laws::{received_messages_are_safe, trains_do_not_meet, what_comes_is_safe};
pub use scenes::{
    a_lost_acceptance_is_seen, a_lost_authority_is_seen, trains_within_are_seen,
    wrong_trains_are_seen,
};
