//! The clients of a running line. Trains send messages, which are committed and answered. The interlocking sends lines,
//! which are answered as a run prints them.
//!
//! Bodies are free. docs/FORMATS.md fixes the bytes of each connection.

mod admission;
mod answer;
mod binding;
mod connection_refusal;
mod control;
mod cutter;
mod endpoint_loop;
mod entrance;
mod grace;
mod limits;
mod noted;
mod paced;
mod rate_limit;
mod rows;
mod sending;
mod session_end;
mod sessions;

pub use endpoint_loop::run_endpoint;
pub(crate) use sending::write_some;
