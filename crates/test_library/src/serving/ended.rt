//! Connections that ended: one that its centre ended after an initiation serves no train again, and one whose train is
//! too slow is cut.

use crate::codec::bytes::bytes_of;
use crate::line::{A, INITIATION, TWO_CENTRES, VERSION, line_of};
use crate::nodes::{node_of, said};
use crossbeam_channel::{Receiver, Sender, bounded};
use rbc_node::{Node, Open};
use rbc_world::Outcome;
use serve_workers::AnswerSink;
use serve_workers::connections::{Connection, ConnectionSink, Shared, TrainConnections};
use serve_workers::writing::{Reply, SharedWriter, run_writer};
use std::alloc::Global;
use std::io::Read;
use std::net::{IpAddr, Ipv4Addr, Shutdown, SocketAddr, TcpListener, TcpStream};
use std::sync::{Arc, Wait};
use std::test::*;

// Train 1 initiates its session again, with T_TRAIN 2 and 3.
const SECOND_INITIATION: &str = "9B028000000080000040";

const THIRD_INITIATION: &str = "9B0280000000C0000040";

// Message 32 with T_TRAIN 2, and after it message 32 with T_TRAIN 3.
const LATER_VERSIONS: &str = "2002C00000009FFFFFE8002002C0000000DFFFFFE800";

// The connections that submit the three answers.
static TWO_SUBMIT: [usize; 3] = [0, 1, 0];

static ONE_SUBMITS: [usize; 3] = [0, 0, 0];

/// A connection: the source of its writer, and the train's end.
#[derive(Drop)]
struct Ends {
    stream: Arc<TcpStream, Global>,
    shared_writer: Arc<SharedWriter<Shared>, Global>,
    replies: Receiver<Reply>,
    train: TcpStream,
}

/// The connections of centre A, and the system over which trains connect.
#[derive(Clone, Copy)]
struct Bench<'a, 'c> {
    host: &'a HostRuntime,
    alloc: Global,
    connections: &'a TrainConnections<'c>,
}

// The answers of centre A to the three initiations.
fn answers<R: Wait>(rt: &R, alloc: Global) -> Result<Vec<Outcome>, Fail> {
    let node = node_of(alloc, A)?;
    answers_of(rt, alloc, &node)
}

fn answers_of<R: Wait>(rt: &R, alloc: Global, node: &Node) -> Result<Vec<Outcome>, Fail> {
    let mut share = node.share();
    let mut outcomes = Vec::new(alloc);
    for digits in [INITIATION, SECOND_INITIATION, THIRD_INITIATION] {
        let taken = node.commit(rt, &Open, &mut share, said(alloc, digits)?);
        outcomes.push(taken.ok().ok_or("the message is taken")?)?;
    }
    Ok(outcomes)
}

// The two ends of a connection: the train's, and the other.
fn pair(host: &HostRuntime) -> Result<(TcpStream, TcpStream), Fail> {
    let loopback = SocketAddr::new(IpAddr::V4(Ipv4Addr::LOCALHOST), 0);
    let listener = TcpListener::bind(host, loopback)?;
    let train = TcpStream::connect(host, listener.local_addr()?)?;
    let (stream, _) = listener.accept()?;
    Ok((train, stream))
}

// A connection of this number, with room for this many replies that wait.
fn entered<R: Wait>(
    rt: &R,
    bench: Bench<'_, '_>,
    number: usize,
    room: usize,
) -> Result<Ends, Fail> {
    let (sender, replies) = bounded(bench.alloc, room)?;
    let ends = ends_of(bench.host, bench.alloc, replies)?;
    bench
        .connections
        .enter(rt, number, connection_of(&ends, sender)?)?;
    Ok(ends)
}

fn ends_of(host: &HostRuntime, alloc: Global, replies: Receiver<Reply>) -> Result<Ends, Fail> {
    let (train, stream) = pair(host)?;
    let stream = Arc::new(alloc, stream)?;
    let shared_writer = Arc::new(alloc, SharedWriter::new(Shared(Arc::try_clone(&stream)?)))?;
    Ok(Ends {
        stream,
        shared_writer,
        replies,
        train,
    })
}

fn connection_of(ends: &Ends, sender: Sender<Reply>) -> Result<Connection, Fail> {
    let writer = Arc::try_clone(&ends.shared_writer)?;
    let stream = Arc::try_clone(&ends.stream)?;
    Ok(Connection::new(sender, writer, stream))
}

// The connection leaves, its writer writes the answers that wait, and it ends: all bytes at its train.
fn brought<R: Wait>(
    rt: &R,
    bench: Bench<'_, '_>,
    number: usize,
    ends: Ends,
) -> Result<Vec<u8>, Fail> {
    bench.connections.leave(rt, number);
    let _ = run_writer(rt, &ends.replies, &mut ends.shared_writer.end(rt));
    let _ = ends.stream.shutdown(Shutdown::Both);
    read_at(bench.alloc, &ends.train)
}

// All bytes at the train.
fn read_at(alloc: Global, train: &TcpStream) -> Result<Vec<u8>, Fail> {
    let mut bytes = Vec::new(alloc);
    let mut input = train;
    input.read_to_end(&mut bytes)?;
    Ok(bytes)
}

// The connections submit the answers, in order.
fn hand_in<R: Wait>(
    rt: &R,
    connections: &TrainConnections<'_>,
    by: &[usize; 3],
    outcomes: &[Outcome],
) {
    for (outcome, number) in outcomes.iter().zip(by.iter()) {
        let number = *number;
        let sink = ConnectionSink {
            connections: &*connections,
            number,
        };
        sink.answered(rt, outcome);
    }
}

// The bytes of both connections after the answers were submitted.
fn brought_by_two<R: Wait>(
    rt: &R,
    bench: Bench<'_, '_>,
    outcomes: &[Outcome],
) -> Result<(Vec<u8>, Vec<u8>), Fail> {
    let first = entered(rt, bench, 0, 8)?;
    let second = entered(rt, bench, 1, 8)?;
    hand_in(rt, bench.connections, &TWO_SUBMIT, outcomes);
    let first = brought(rt, bench, 0, first)?;
    let second = brought(rt, bench, 1, second)?;
    Ok((first, second))
}

fn brought_after_answers<R: Wait>(
    rt: &R,
    host: &HostRuntime,
    outcomes: &[Outcome],
) -> Result<(Vec<u8>, Vec<u8>), Fail> {
    let alloc = host.alloc();
    let line = line_of(alloc, TWO_CENTRES)?;
    let connections = TrainConnections::new(alloc, &line, 2, &[])?;
    let bench = Bench {
        host,
        alloc,
        connections: &connections,
    };
    brought_by_two(rt, bench, outcomes)
}

#[test]
fn a_connection_that_was_ended_serves_no_train_again(rt: HostRuntime) -> Result<(), Fail> {
    let outcomes = answers(&rt, rt.alloc())?;
    let (first, second) = brought_after_answers(&rt, &rt, &outcomes)?;
    let version = bytes_of(rt.alloc(), VERSION)?;
    let later = bytes_of(rt.alloc(), LATER_VERSIONS)?;
    assert!(rt; (first.as_slice(), second.as_slice()) == (version.as_slice(), later.as_slice()));
    Ok(())
}

// Whether a connection with room for one reply is kept after all answers were submitted, and the bytes at its train.
// Its replies wait for the journal of A, so nothing is written meanwhile.
fn left_by_a_slow_train<R: Wait>(
    rt: &R,
    bench: Bench<'_, '_>,
    outcomes: &[Outcome],
) -> Result<(bool, Vec<u8>), Fail> {
    let ends = entered(rt, bench, 0, 1)?;
    hand_in(rt, bench.connections, &ONE_SUBMITS, outcomes);
    let is_kept = bench.connections.leave(rt, 0);
    Ok((is_kept, read_at(bench.alloc, &ends.train)?))
}

fn left_after_answers<R: Wait>(
    rt: &R,
    host: &HostRuntime,
    outcomes: &[Outcome],
) -> Result<(bool, Vec<u8>), Fail> {
    let alloc = host.alloc();
    let line = line_of(alloc, TWO_CENTRES)?;
    let connections = TrainConnections::new(alloc, &line, 2, &[])?.held(Some(A));
    let bench = Bench {
        host,
        alloc,
        connections: &connections,
    };
    left_by_a_slow_train(rt, bench, outcomes)
}

#[test]
fn a_connection_whose_train_is_too_slow_is_cut(rt: HostRuntime) -> Result<(), Fail> {
    let outcomes = answers(&rt, rt.alloc())?;
    let (is_kept, bytes) = left_after_answers(&rt, &rt, &outcomes)?;
    assert!(rt; (is_kept, bytes.as_slice()) == (false, [].as_slice()));
    Ok(())
}
