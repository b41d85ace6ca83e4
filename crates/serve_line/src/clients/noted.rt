use crate::clients::limits::UNWRITTEN;
use crate::state::CentreSink;
use serve_notes::{About, Kind, Notes, PeerConnection};
use serve_workers::AnswerSink;
use serve_workers::connections::ConnectionSink;
use serve_workers::writing::Release;
use std::sync::Wait;
use std::sync::atomic::{AtomicU32, Ordering};
use text_script::Outcome;

/// A train's connection as its session sees it. It notes each train that opens its session.
#[derive(Drop)]
pub(crate) struct LoggedSink<'a, N> {
    pub connection_sink: ConnectionSink<'a>,
    pub sink: &'a CentreSink<'a>,
    pub notes: &'a N,
    /// The number of answered events of the connection.
    pub events: AtomicU32,
}

impl<N> LoggedSink<'_, N> {
    // Waits for the journal after every `UNWRITTEN`th event, so that answers that wait for the disk have room.
    fn keep_near<R: Wait>(&self, rt: &R, stamp: u32) {
        if self.events.fetch_add(1, Ordering::SeqCst) % UNWRITTEN == UNWRITTEN - 1 {
            let _ = self.sink.reaches(rt, self.sink.awaited(stamp));
        }
    }
}

impl<N: Notes> AnswerSink for LoggedSink<'_, N> {
    fn opened<R: Wait>(&self, rt: &R, nid_engine: u32) {
        self.connection_sink.opened(rt, nid_engine);
        let name = self.sink.name;
        let number = self.connection_sink.number;
        let about = About::centre(Kind::Session, name).train(nid_engine);
        self.notes.note(
            about.over(PeerConnection::Train(number)),
            format_args!(
                "{name}: train {nid_engine} opens its session over train connection {number}"
            ),
        );
    }

    fn answered<R: Wait>(&self, rt: &R, outcome: &Outcome) {
        if let Some(kept) = self.sink.may_send(rt, outcome) {
            self.connection_sink.answered(rt, outcome);
            self.sink.tell(rt, outcome, &kept);
        }
        self.keep_near(rt, outcome.stamp);
    }
}
