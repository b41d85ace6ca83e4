//! The promise to the world outside the centres of a line: its definition, and scenes that test it.
//!
//! `specs/Outside.antt` is the definition that a reader has to believe. It derives two things from the messages of a
//! run (`sees_all`): how far each train may run, and which sections the interlocking has released. A view is safe
//! (`IsSafeOutside`) if no two trains may run over one section, and none over a section that is not released. That the
//! centres keep the promise is proved in `law_promises`.
//!
//! The functions here have no code. They are scenes that test the definition. A definition that takes a part back too
//! early would call a dangerous scene safe, and the check refuses it.
#![tactic(auto)]

mod scenes;

pub use scenes::{
    answers_that_forget_are_seen, trains_side_by_side_are_seen, what_trains_take_back_is_seen,
    wrong_answers_are_seen,
};
