//! Boards that carry frames from one centre to another, in the order of their numbers. Who knows a frame of a link
//! under a number agrees with all who know one under it.
//!
//! ```
//! let frame = Frame::new(1, 4, Body::AskRight { engine: 2 });
//! let board = CellBoard::new(alloc, 65_536)?;
//! let mut sender = board.seen()?;
//! let mut receiver = board.seen()?;
//! let before = board.get(&mut receiver, 1);
//! board
//!     .put(&mut sender, 1, frame)
//!     .ok()
//!     .ok_or("the frame is put")?;
//! let after = board.get(&mut receiver, 1);
//! ```
//!
//! Here `before` is `None`, and `after` is the frame.
//!
//! Bodies and proofs may change. The clauses of public functions have to stay: the crates above depend on them.
#![tactic(auto)]

mod carrier;
mod cells;
mod queue;
mod rule;
mod view;

pub use carrier::Carrier;
pub use cells::{CellBoard, CellSeen};
pub use queue::{QueueCarrier, QueueSeen};
pub use rule::InStep;
pub use view::View;
