//! The session of a connection, over bytes in memory.

use crate::codec::bytes::bytes_of;
use crate::line::{A, INITIATION};
use crate::nodes::node_of;
use rbc_node::Open;
use serve_workers::reading::Reads;
use serve_workers::{NoSink, SessionEnd, run_session};
use std::alloc::Global;
use std::io;
use std::io::{ErrorKind, Read};
use std::sync::Wait;
use std::test::*;

/// Bytes in memory, and after them the end, or a read that fails.
#[derive(Drop)]
struct Ending<'a> {
    bytes: &'a [u8],
    fails: bool,
}

impl Read for Ending<'_> {
    fn read(&mut self, buffer: &mut [u8]) -> io::Result<usize> {
        if self.fails && self.bytes.is_empty() {
            return Err(io::Error::from(ErrorKind::ConnectionReset));
        }
        self.bytes.read(buffer)
    }
}

/// How a session ends, and how many receipts its share and entries the log have then.
type Ended = (SessionEnd, usize, usize);

// A session over these bytes at a new node of centre A.
fn ended<R: Wait>(rt: &R, alloc: Global, reader: Ending<'_>) -> Result<Ended, Fail> {
    let node = node_of(alloc, A)?;
    let mut share = node.share();
    let mut source = Reads::new(reader);
    let end = run_session(rt, alloc, &node, &Open, &mut share, &mut source, &NoSink);
    let entries = node.look(rt).log().entries().len();
    Ok((end, share.receipts().len(), entries))
}

// The number of bytes of an initiation that are read, whether a read fails after them, and the result.
static ENDS: [(usize, bool, Ended); 4] = [
    (5, true, (SessionEnd::Device, 0, 0)),
    (5, false, (SessionEnd::EndOfStream, 0, 0)),
    (10, true, (SessionEnd::Device, 1, 1)),
    (10, false, (SessionEnd::EndOfStream, 1, 1)),
];

#[test]
fn a_session_commits_what_is_whole_before_its_end(rt: HostRuntime) -> Result<(), Fail> {
    let whole = bytes_of(rt.alloc(), INITIATION)?;
    for (count, fails, wanted) in &ENDS {
        let bytes = whole.get(..*count).ok_or("it has so many bytes")?;
        let fails = *fails;
        let seen = ended(&rt, rt.alloc(), Ending { bytes, fails })?;
        assert!(rt; seen == *wanted, "{count} {fails}");
    }
    Ok(())
}
