//! The shared state of the threads of a running line: the endpoints, with a slot for each connection, and the links. It
//! also has the sinks of the centres' answers, and the flags of the line's end.
//!
//! Bodies are free. docs/FORMATS.md fixes the bytes of each connection.

mod build;
mod build_slots;
mod control_socket;
mod endpoints;
mod hosts;
mod limits;
mod options;
mod paces;
mod peer;
mod queue;
mod room;
mod server;
mod sink;
mod slots;
mod streams;
mod watch;

pub use build::{connections_of, journals_of, links_of, nodes_of, sinks_of, wakers_of};
pub use build_slots::endpoints_of;
pub use control_socket::{SocketFault, free_path, listen_at_path};
pub use endpoints::{Endpoints, Listening, ListeningAt, PagePort};
pub use limits::ENDPOINT_REST_MS;
pub use options::ServeOptions;
pub use paces::Paces;
pub use peer::{DirectedLink, Peer};
pub use queue::{Queue, Watch};
pub(crate) use room::{Room, SlotState, room_for};
pub use server::{Server, State};
pub use sink::CentreSink;
pub use slots::{Endpoint, Slot};
pub(crate) use streams::set_waits;
pub use streams::{Address, Listener, PeerStream};
