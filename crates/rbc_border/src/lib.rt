//! A train at the border to the next centre. On the train's side a centre asks the next one for the sections in advance
//! of the train's hand. It keeps the names of lent sections in the train's pool. On the other side a centre lends its
//! free sections, and takes them back. Frames between the centres are made from runs of sections; the names end or
//! begin beside them. Room for the pool is made at the beginning, and no call takes memory after that. The rules are
//! the profile's, in words of SUBSET-039 (Route Related Information). They serve a movement authority over the border
//! (SUBSET-026 3.8, 3.15.1).
//!
//! Bodies and proofs may change. The clauses of public functions have to stay: the crates above depend on them.
#![tactic(auto)]

mod arriving;
mod border;
mod homes;
mod lending;
mod names;
mod question;
mod returning;
mod used;
mod way;

pub use arriving::{Arrival, may_arrive};
pub use border::Border;
pub use homes::{part_at, part_of};
pub use lending::lend;
pub use question::Question;
pub use returning::bring_back;
pub use used::uses_some;
pub use way::Way;
