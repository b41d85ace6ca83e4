//! Progress while trains and the interlocking go on. Suppose that each link delivers its next frame within k events,
//! whatever happens between. Then each frame is taken within a bound, and each question between centres is answered
//! within one. The bounds follow from the lengths of queues. That frames are delivered so is the premise, and not
//! claimed.
//!
//! A question asks for the right of a train, or for sections. Other things between centres wait for a train, so they
//! have no bound. An announced handover waits for a report, and a section that its home asks back for its train.
//!
//! No code. The statements of `laws.rt` have to stay; their proofs may change.

mod laws;

pub use laws::{
    a_question_is_answered_at_once, each_endless_list_has_a_prompt_schedule,
    each_frame_is_taken_in_time, each_question_is_answered_in_time, each_start_is_answered_in_time,
};
