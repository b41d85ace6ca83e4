//! Reads the prints of any centres, and runs none. `reader` reads for a monitor: the events, each with the messages and
//! replies after it. A line is read only if it is the printed line of its message or reply. `capture` makes a capture
//! for Wireshark of the radio messages. Each message is in a TCP segment, on a connection for each train and centre.
//! `segment` has the bytes of a segment, `records` those of the capture, and `connection` numbers the bytes that each
//! end sends.
//!
//! Bodies are free. docs/FORMATS.md fixes the printed text, and has the form of a capture.
#![tactic(auto)]

mod capture;
mod connection;
mod event;
mod fault;
mod part;
mod reader;
mod records;
mod row;
mod segment;
mod spoken;

pub use capture::capture_of;
pub use fault::RowFault;
pub use reader::Reader;
