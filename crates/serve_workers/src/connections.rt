//! The connections of trains at a centre. Each serves the engine that last opened a session over it. The centre's
//! messages to an engine go to the connection that serves it.
//!
//! Bodies are free. docs/FORMATS.md fixes the bytes of each connection.

mod connection;
mod connections;
mod releasing;
mod route;
mod routing_table;

pub use connection::{Connection, Shared};
pub use connections::{ConnectionSink, TrainConnections};
