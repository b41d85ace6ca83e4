//! The section book of a radio block centre. It has the use of each home section, and the claims on those that are in
//! use for a train. A section that is taken has one claim. A claim is made only by taking an open section or by
//! reclaiming a lent one. It ends when the section is given back or lent. When a centre ends it gives its claims back
//! too: giving back has no premise and takes no memory.
//!
//! An [`Entry`] is the use of a section as its home has it, a [`Mark`] the use as the whole line sees it.
//!
//! Bodies and proofs may change. The clauses of public functions have to stay: the crates above depend on them.
#![tactic(auto)]

mod answer;
mod book;
mod change;
mod claim;
mod edits;
mod mark;
mod page;
mod parts;
mod run;
mod runs;

pub use answer::{Back, NotHome, Unset};
pub use book::Book;
pub use claim::{Claim, Claims};
pub use mark::{Mark, SectionView};
pub use page::{Entry, Page};
