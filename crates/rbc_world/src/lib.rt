//! The centres (RBCs) of a line side by side, and the theorem that together they act as one line centre.
//!
//! A [`World`] has each centre of a line, the frames that they have sent, and the trains that messages have named. Its
//! [`World::step_to`] takes one [`WorldEvent`], and writes the answer over one that the caller lends. [`World::step`]
//! returns a new answer. Its [`World::run`] takes a list of events from the beginning. The contract of `run` is the
//! main theorem: the answers and the last state are a run of one line centre (`rbc_spec.specs.Run`). A [`World::view`]
//! gives the use of each section, and each train with its mission.
//!
//! ```
//! let line = Line::from_toml(alloc, text)?;
//! let mut world = World::new(alloc, &line)?;
//! let mut answer = Answer::nothing();
//! world.step_to(&WorldEvent::Set { centre: 0, section: 1 }, &mut answer)?;
//! world.step_to(&WorldEvent::Train { centre: 0, bytes }, &mut answer)?;
//! let messages = match &answer {
//!     Answer::Outcome(outcome) => outcome.sayings.len(),
//!     Answer::Fault(_) | Answer::NoCentre | Answer::NotSent => 0,
//! };
//! let view = world.view(alloc)?;
//! ```
//!
//! The types of an event and an answer that belong to crates below are passed on from here.
//!
//! Bodies and proofs may change. The clauses of public functions have to stay: the crates above depend on them.
#![tactic(auto)]

mod event;
mod hearing;
mod missions;
mod run;
mod view;
mod world;

pub use event::{Answer, WorldEvent};
pub use rbc_book::{Mark, SectionView};
pub use rbc_centre::{
    Body, Centre, Event, Frame, FrameRoom, Frames, LAST_STAMP, LinkAnswer, MissionFacts, Outcome,
    Phase, Reason, Saying, SectionRun, SentFrame, StepFault, TrainPage, Word,
};
pub use run::Outputs;
pub use view::{LineView, MissionView, SessionView, Supervisor, TrainView, mark_of};
pub use world::World;
