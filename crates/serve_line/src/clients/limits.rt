//! The limits for one peer: sizes, and the time of each wait.

/// The most replies that wait for one train. At one more, its connection is cut.
pub(crate) const REPLIES: usize = 256;

/// The most events of a connection that wait for the journal before its next message is read.
pub(crate) const UNWRITTEN: u32 = 64;

/// The most bytes of a line at the control endpoint.
pub(crate) const MOST_ROW: usize = 4_096;

/// The longest wait of a write to a train that reads nothing, in seconds. After it the connection is cut. A whole
/// answer to the interlocking has the same limit.
pub(crate) const PATIENCE_S: u64 = 10;

/// The longest silence of a train, in seconds. After it the connection counts as lost.
pub(crate) const SILENCE_S: u64 = 600;

/// The rest of an endpoint after the system failed to give a connection, in milliseconds.
pub(crate) const DEAF_REST_MS: u64 = 1_000;

/// The longest wait of a control connection, for a line or for a part of a write, in milliseconds. After it the
/// connection checks the time and whether the centres still run.
pub(crate) const CONTROL_REST_MS: u64 = 100;

/// The longest silence of the reserve connection, in rests of a control connection: 5 seconds.
pub(crate) const RESERVE_RESTS: u32 = 50;

/// The time for a connection to leave its slot for another, in rests of an endpoint: 1 second.
pub(crate) const LEAVING_RESTS: u32 = 50;

/// The time of a connection of the interlocking before the next one has to leave its slot too, in rests of an endpoint:
/// 0.2 seconds.
pub(crate) const NEXT_RESTS: u32 = 10;

/// The time of trains after `stop` until their connections are ended, in rests of an endpoint: about 30 seconds.
pub(crate) const GRACE_RESTS: u32 = 1_500;
