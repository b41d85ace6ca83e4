use rbc_node::Share;
use serve_workers::LinkEnds;
use std::sync::Mutex;

/// The kind of peer at an endpoint.
#[derive(Clone, Copy)]
pub enum Peer {
    /// Trains, connected to the centre of this number.
    Trains(u8),
    /// The interlocking, connected to all centres.
    Interlocking,
}

/// The link from one centre to another.
#[derive(Drop)]
pub struct DirectedLink {
    /// The number of the sending centre.
    pub from: u8,
    /// The number of the receiving centre.
    pub to: u8,
    /// The signals between its two workers.
    pub ends: LinkEnds,
    /// The receipts of the frames that were received over it.
    pub share: Mutex<Share>,
}
