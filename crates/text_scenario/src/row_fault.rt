use crate::fault::SentFault;
use crate::nearest::Nearest;
use std::alloc::{AllocError, AllocFailed};
use thiserror::Error;

/// Why a line of words is refused.
#[derive(Clone, Copy, Debug, Error)]
pub enum RowFault<'a> {
    #[error("memory ran out")]
    Memory,
    #[error("`{0}` is not known here{1}")]
    Unknown(&'a str, Nearest<'a>),
    #[error("the line ends early: {0} is missing")]
    Missing(&'static str),
    #[error("`{0}` is not {1}")]
    Value(&'a str, &'static str),
    #[error("`{0}` is a word too many")]
    Further(&'a str),
    #[error("train {0} has spoken with no centre yet: `train {0} at CENTRE: ..` names one")]
    NoCentre(u32),
    #[error("{0}")]
    Sent(SentFault),
}

impl From<AllocError> for RowFault<'_> {
    fn from(_error: AllocError) -> Self {
        RowFault::Memory
    }
}

impl<T: Drop> From<AllocFailed<T>> for RowFault<'_> {
    fn from(_error: AllocFailed<T>) -> Self {
        RowFault::Memory
    }
}

impl From<SentFault> for RowFault<'_> {
    fn from(fault: SentFault) -> Self {
        match fault {
            SentFault::Memory => RowFault::Memory,
            _ => RowFault::Sent(fault),
        }
    }
}
