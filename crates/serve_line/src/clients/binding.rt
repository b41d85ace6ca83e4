ghost use Rattle.std.specs.Prelude.{◌≡◌, false, true};

use crate::clients::cutter::Head;
use serve_workers::connections::ConnectionSink;
use std::sync::Wait;

/// NID_MESSAGE of an initiation of session.
const INITIATION: u8 = 155;

/// Decides which messages are taken over a train's connection.
#[derive(Drop)]
pub(crate) struct Binding<'a, R> {
    pub rt: &'a R,
    pub connection: ConnectionSink<'a>,
    /// Whether a train's messages are taken only over the connection that serves the train.
    pub is_bound: bool,
}

impl<R: Wait> Binding<'_, R> {
    /// Whether a message is taken. An initiation of session is taken over any connection.
    pub fn admits(&self, head: Head) -> bool
        ensures free { self.now.is_bound ≡ false → result ≡ true }
        ensures initiation { head.nid_message ≡ 155 → result ≡ true }
    {
        if !self.is_bound || head.nid_message == INITIATION {
            return true;
        }
        let ConnectionSink {
            connections,
            number,
        } = self.connection;
        connections.serves(self.rt, number, head.nid_engine)
    }
}
