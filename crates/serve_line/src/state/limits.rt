//! The limits of a running line, and the rest of an endpoint. The limits of one peer, and the times of its waits, are
//! in `serve_line::clients`.

/// The connections of a centre in addition to one for each train of the line.
pub(crate) const SPARE: usize = 8;

/// The connections of the control endpoint at the same time.
pub(crate) const CONTROLS: usize = 4;

/// The messages per second that a centre takes of each train, and of all other engines together.
pub(crate) const PER_SECOND: u32 = 50;

/// The messages that it takes at once.
pub(crate) const BURST: u32 = 100;

/// The most bytes of unsolicited lines that wait for one connection of the interlocking. At more, the connection ends.
pub(crate) const MOST_TOLD: usize = 65_536;

/// The longest rest between two looks at the centres' logs for the notes, in seconds.
pub(crate) const LOG_REST_S: u64 = 1;

/// The longest wait of an endpoint for a connection before it looks whether the centres still run, in milliseconds. It
/// is also the longest rest of an endpoint that waits for a free slot.
pub const ENDPOINT_REST_MS: u64 = 20;
