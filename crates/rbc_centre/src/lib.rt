//! One radio block centre (RBC): its state, and the step from an event to an answer.
//!
//! A [`Centre`] supervises its part of a line. Its [`Centre::step`] takes an [`Event`]: a train's message, a section
//! that the interlocking releases or takes back, or a frame from another centre. The [`Outcome`] has the messages to
//! trains, the frames to other centres, the replies to the interlocking, and the reason if the centre stays silent. A
//! [`StepFault`] changes nothing. The contract of `Centre::step` is one equation with the step in
//! `rbc_spec.specs.Centre`.
//!
//! The types of an outcome that belong to crates below are passed on from here.
//!
//! Bodies and proofs may change. The clauses of public functions have to stay: the crates above depend on them.
#![tactic(auto)]

mod centre;
mod delivering;
mod desk;
mod event;
mod fault;
mod frame_room;
mod frames;
mod hearing;
mod interlocking;
mod keeping;
mod outcome;
mod posted;
mod ranges;
mod reach;
mod returned;
mod same;
mod sent_frame;

pub use centre::{Centre, LAST_STAMP};
pub use event::Event;
pub use fault::StepFault;
pub use frame_room::FrameRoom;
pub use frames::Frames;
pub use outcome::{Outcome, Word};
pub use rbc_line::SectionRun;
pub use rbc_link::LinkAnswer;
pub use rbc_linkmsg::{Body, Frame};
pub use rbc_session::Phase;
pub use rbc_train::{Letter, Mail, MissionFacts, Notice, Place, Reason, Saying, Told, TrainPage};
pub use sent_frame::SentFrame;
