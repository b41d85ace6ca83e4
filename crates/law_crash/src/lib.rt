//! A crash loses nothing that was sent out. Each centre sends an outcome out only after its event is in the centre's
//! journal. A crash cuts each journal at any position after that, and the centres begin again from the journals.
//!
//! `specs/Crashes.antt` has the premises: how a program writes, and how it begins again. Its two statements are of one
//! crash and of any number. All that was sent out before a crash is in the logs after it, with the same outcomes. All
//! that was sent out, before the crash and after it, keeps the promise to the outside. `specs/Scenes.antt` has programs
//! that keep the premises, and two that break one and lose something.
//!
//! No code. The statements of `laws.rt` have to stay; their proofs may change. That the program keeps the premises is
//! tested, and not proved.
#![tactic(auto)]

mod laws;
mod scenes;

pub use laws::a_crash_loses_nothing_that_was_told;
pub use scenes::{
    a_program_may_write_first, who_answers_first_forgets, who_takes_first_has_no_run,
};
