//! The texts of `rbcline`: scripts and their play on a line, prints (`print`), and exit statuses (`status`).
//!
//! Types of `rbc_world` that scripts or prints contain are re-exported here, and the mark of a section (`mark_of`).
//!
//! Bodies are free. docs/FORMATS.md fixes the printed text and each exit status.
#![tactic(auto)]

pub mod play;
pub mod print;
pub mod script;
pub mod status;

pub use rbc_world::{
    Answer, Body, Centre, Event, Frame, FrameRoom, Frames, LAST_STAMP, LineView, LinkAnswer, Mark,
    MissionFacts, MissionView, Outcome, Phase, Saying, SectionRun, SectionView, SentFrame,
    StepFault, Supervisor, TrainPage, Word, World, WorldEvent, mark_of,
};
