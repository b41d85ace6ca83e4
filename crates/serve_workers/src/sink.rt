use rbc_centre::Outcome;
use std::sync::Wait;

/// The sink of a centre's answers: its messages to trains and its frames to links. Nothing is claimed of their
/// delivery.
pub trait AnswerSink {
    /// The connection of the message serves this engine from now on, by its NID_ENGINE.
    fn opened<R: Wait>(&self, rt: &R, nid_engine: u32);

    /// Takes the outcome of a commit.
    fn answered<R: Wait>(&self, rt: &R, outcome: &Outcome);
}

/// The sink that drops all answers.
#[derive(Clone, Copy, Debug)]
pub struct NoSink;

impl AnswerSink for NoSink {
    fn opened<R: Wait>(&self, _rt: &R, _nid_engine: u32) {}

    fn answered<R: Wait>(&self, _rt: &R, _outcome: &Outcome) {}
}
