ghost use Rattle.std.specs.Prelude.{◌≡◌};
ghost use Rattle.serve_notes.specs.declared.about.PeerConnection.TheVariants.{Train};
ghost use Rattle.serve_notes.specs.declared.kinds.Kind.TheVariants.{End as EndKind};
ghost use Rattle.serve_line.specs.SessionEnds.{foreign_at};

use crate::clients::binding::Binding;
use crate::clients::limits::{PATIENCE_S, REPLIES, SILENCE_S};
use crate::clients::noted::LoggedSink;
use crate::clients::paced::Paced;
use crate::clients::rate_limit::RateLimit;
use crate::clients::session_end::{End, end_after};
use crate::state::{CentreSink, Server, Slot, set_waits};
use crossbeam_channel::{Receiver, bounded};
use rbc_node::{Node, Open};
use serve_notes::{About, Kind, Notes, PeerConnection};
use serve_workers::connections::{Connection, ConnectionSink, Shared};
use serve_workers::run_session;
use serve_workers::writing::{Reply, SharedWriter, run_held_writer, run_writer};
use std::alloc::{AllocError, Global};
use std::net::{Shutdown, TcpStream};
use std::sync::atomic::AtomicU32;
use std::sync::{Arc, Wait};
use std::thread;
use std::thread::Threads;
use std::time::{Clock, Duration};
use text_script::print::name_of;

/// Serves a train's connection at a centre to its end.
pub(crate) fn serve_train<R: Threads + Wait + Sync + Clock, N: Notes + Sync>(
    rt: &R,
    server: &Server<'_>,
    notes: &N,
    centre: u8,
    slot: &Slot,
    stream: Arc<TcpStream, Global>,
) {
    let name = name_of(server.line, centre);
    let number = slot.number;
    let at = centre as usize;
    let (Some(node), Some(sink)) = (server.nodes.get(at), server.sinks.get(at)) else {
        return;
    };
    let connections = sink.connections;
    let Ok(ends) = entered(rt, server.alloc, sink, number, stream) else {
        notes.note(
            about_slot(Kind::Refusal, name, number),
            format_args!("{name}: a train is refused, memory ran out"),
        );
        return;
    };
    notes.note(
        about_slot(Kind::Begin, name, number),
        format_args!("{name}: train connection {number} begins"),
    );
    let noted = LoggedSink {
        connection_sink: ConnectionSink {
            connections,
            number,
        },
        sink,
        events: AtomicU32::new(0),
        notes,
    };
    match read_and_write(rt, server, node, slot, &ends, &noted) {
        Some(end) => tell_end(notes, name, number, end),
        None => notes.note(
            about_slot(Kind::Thread, name, number),
            format_args!("{name}: train connection {number} is ended, no thread could be made"),
        ),
    }
}

// The subject of a note about the connection with this number, at the centre of this name.
fn about_slot(kind: Kind, name: &str, number: usize) -> About<'_>
    ensures { result
        ≡ record { kind = kind; centre = Some name.entry; engine = None; peer = Some (Train number) } }
{
    About::centre(kind, name).over(PeerConnection::Train(number))
}

// The subject of the note of an end. It names the train of a refused message.
fn about_end(name: &str, number: usize, end: End) -> About<'_>
    ensures { result
        ≡ record { kind = EndKind; centre = Some name.entry; engine = foreign_at end; peer = Some (Train number) } }
{
    let about = about_slot(Kind::End, name, number);
    match end.foreign() {
        Some(nid_engine) => about.train(nid_engine),
        None => about,
    }
}

// The parts of a connection that its two threads use.
#[derive(Drop)]
struct Ends {
    stream: Arc<TcpStream, Global>,
    shared_writer: Arc<SharedWriter<Shared>, Global>,
    replies: Receiver<Reply>,
}

// Registers the connection with the centre's connections, and returns the parts for its threads.
fn entered<R: Wait>(
    rt: &R,
    alloc: Global,
    sink: &CentreSink<'_>,
    number: usize,
    stream: Arc<TcpStream, Global>,
) -> Result<Ends, AllocError> {
    set_waits(
        &stream,
        Duration::from_secs(SILENCE_S),
        Duration::from_secs(PATIENCE_S),
    );
    let (ends, connection) = ends_of(alloc, stream)?;
    sink.connections.enter(rt, number, connection)?;
    Ok(ends)
}

// The parts of a connection for its threads, and the part for the centre's connections.
fn ends_of(
    alloc: Global,
    stream: Arc<TcpStream, Global>,
) -> Result<(Ends, Connection), AllocError> {
    let shared_writer = Arc::new(alloc, SharedWriter::new(Shared(Arc::try_clone(&stream)?)))?;
    let (sender, replies) = bounded(alloc, REPLIES)?;
    let connection = Connection::new(
        sender,
        Arc::try_clone(&shared_writer)?,
        Arc::try_clone(&stream)?,
    );
    let ends = Ends {
        stream,
        shared_writer,
        replies,
    };
    Ok((ends, connection))
}

// Reads and writes the connection, each in a thread, and returns its end. If the writer's thread can't be made, the
// connection is not read, and the result is `None`.
fn read_and_write<R: Threads + Wait + Sync + Clock, N: Notes + Sync>(
    rt: &R,
    server: &Server<'_>,
    node: &Node,
    slot: &Slot,
    ends: &Ends,
    noted: &LoggedSink<'_, N>,
) -> Option<End> {
    thread::scope(thread::scope_env(), rt, |scope| {
        let sink = noted.sink;
        if scope.spawn(move || write_replies(rt, ends, sink)).is_err() {
            noted.connection_sink.connections.leave(rt, slot.number);
            return None;
        }
        Some(read_messages(rt, server, node, slot, &ends.stream, noted))
    })
}

// Commits the messages of the train, and returns the end of the session.
fn read_messages<R: Wait + Clock, N: Notes>(
    rt: &R,
    server: &Server<'_>,
    node: &Node,
    slot: &Slot,
    stream: &TcpStream,
    noted: &LoggedSink<'_, N>,
) -> End {
    let mut shares = slot.shares.lock(rt);
    let Some(share) = shares.first_mut() else {
        return End::Cut;
    };
    let rate_limit = RateLimit {
        rt,
        line: server.line,
        paces: &noted.sink.paces,
        slot,
    };
    let binding = Binding {
        rt,
        connection: noted.connection_sink,
        is_bound: server.options.is_bound,
    };
    let mut source = Paced::new(stream, rate_limit, binding);
    let end = run_session(rt, server.alloc, node, &Open, share, &mut source, noted);
    let is_kept = noted.connection_sink.connections.leave(rt, slot.number);
    end_after(end, is_kept, slot.is_leaving(), source.refused())
}

// Writes the pending replies of a connection. If there is a journal, each reply waits until its event is written there.
// After the last reply the connection is shut for the reader too.
fn write_replies<R: Wait>(rt: &R, ends: &Ends, sink: &CentreSink<'_>) {
    let mut out = ends.shared_writer.end(rt);
    let _ = match sink.journal {
        Some(_) => run_held_writer(rt, &ends.replies, sink, &mut out),
        None => run_writer(rt, &ends.replies, &mut out),
    };
    let _ = ends.stream.shutdown(Shutdown::Both);
}

fn tell_end<N: Notes>(notes: &N, name: &str, number: usize, end: End) {
    let about = about_end(name, number, end);
    match end.words() {
        (told, Some(fault)) => {
            notes.note(
                about,
                format_args!("{name}: train connection {number} {told} {fault}"),
            );
        }
        (told, None) => notes.note(
            about,
            format_args!("{name}: train connection {number} {told}"),
        ),
    }
}
