ghost use Rattle.std.specs.Prelude.{◌≡◌, false, true, vec_len, IfOk, IfSome, IfNone};
ghost use Rattle.rbc_msgs.specs.TrackSpelling.{SpellsTrack};
ghost use Rattle.serve_journal.specs.Shown.{shows};

use rbc_msgs::{EncodeFault, TrackMsg, encode_track};
use serve_journal::Kept;
use std::alloc::Global;

/// A message to a train, with its bytes. They leave the centre once the journal of a centre keeps an event.
#[derive(Debug, Drop)]
pub struct Reply {
    message: TrackMsg,
    bytes: Vec<u8>,
    // The number of that centre.
    centre: u8,
    // The stamp of that event; 0 if the reply waits for none.
    stamp: u32,
    ghost spelled: { ∥ SpellsTrack bytes.items message ∥₁ },
}

impl Reply {
    /// The reply with this message, which waits for no event. No message is too long, so it fails only if memory runs
    /// out.
    pub fn new(alloc: Global, message: TrackMsg) -> Result<Reply, EncodeFault>
        ensures message { IfOk result (λ reply. reply.message ≡ message) }
        ensures stamp { IfOk result (λ reply. reply.stamp ≡ 0) }
    {
        let bytes = encode_track(alloc, &message)?;
        Ok(Reply {
            message,
            bytes,
            centre: 0,
            stamp: 0,
        })
    }

    /// The same reply, which waits for the event of this centre with this stamp. It waits for none if the stamp is 0.
    pub fn answering(self, centre: u8, stamp: u32) -> Reply
        ensures message { result.message ≡ self.message }
        ensures centre { result.centre ≡ centre }
        ensures stamp { result.stamp ≡ stamp }
    {
        let mut reply = self;
        reply.centre = centre;
        reply.stamp = stamp;
        reply
    }

    /// The number of the centre of the event for which it waits.
    pub fn centre(&self) -> u8
        ensures { result ≡ self.now.centre }
    {
        self.centre
    }

    /// The stamp of the event for which it waits; 0 if it waits for none.
    pub fn stamp(&self) -> u32
        ensures { result ≡ self.now.stamp }
    {
        self.stamp
    }

    /// The message.
    pub fn message(&self) -> TrackMsg
        ensures { result ≡ self.now.message }
    {
        self.message
    }

    /// The number of bytes of the message.
    pub(crate) fn size(&self) -> usize
        ensures { result ≡ vec_len self.now.bytes }
    {
        self.bytes.len()
    }

    /// The bytes of the message. `None` unless `kept` shows the event for which the reply waits: the journal of that
    /// very centre keeps it.
    pub(crate) fn open(&self, kept: &Kept) -> Option<&[u8]>
        ensures some { IfSome result (λ bytes. shows kept.now self.now.centre self.now.stamp ≡ true) }
        ensures spelled { IfSome result (λ bytes. SpellsTrack bytes.now self.now.message) }
        ensures none { IfNone result (shows kept.now self.now.centre self.now.stamp ≡ false) }
    {
        if !kept.shows(self.centre, self.stamp) {
            return None;
        }
        Some(self.bytes())
    }

    // The bytes of the message.
    fn bytes(&self) -> &[u8]
        ensures { SpellsTrack result.now self.now.message }
    {
        self.bytes.as_slice()
    }
}
