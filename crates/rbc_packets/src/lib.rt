//! The packets of radio messages (SUBSET-026 7.4). Each is a struct of typed fields. It is read from the bits after
//! NID_PACKET, with the first fault in the order of the tests, and written as its one spelling.
//!
//! Bodies and proofs may change. The clauses of public functions have to stay: the crates above depend on them.
#![tactic(auto)]

mod authority;
mod fault;
mod level;
mod location;
mod opaque;
mod packets;
mod position;
mod reading;
mod session_order;
mod train_length;
mod transition;
mod writing;

pub use authority::Authority;
pub use fault::PacketFault;
pub use level::Level;
pub use location::Location;
pub use opaque::Opaque;
pub use packets::Packets;
pub use position::Position;
pub use session_order::SessionOrder;
pub use train_length::TrainLength;
pub use transition::Transition;
