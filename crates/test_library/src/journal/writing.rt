//! The writing of a journal.

use crate::codec::bytes::bytes_of;
use crate::journal::line::{ENTRIES, FILE, FIRST};
use crate::line::{B, INITIATION, line_of};
use rbc_line::Line;
use rbc_world::WorldEvent;
use std::alloc::Global;
use std::test::*;
use text_journal::{Entry, add_entry, first_line};

// The start of 2026, and the millisecond before it.
const NEW_YEAR: Option<u64> = Some(1_767_225_600_000);

const BEFORE: Option<u64> = Some(1_767_225_599_999);

// The journal of B with a section released, a frame and a message.
fn written(alloc: Global) -> Result<Vec<u8>, Fail> {
    let line = line_of(alloc, FILE)?;
    let mut text = Vec::new(alloc);
    text.extend_from_slice(first_line(alloc, &line, B)?.as_bytes())?;
    text.push(b'\n')?;
    add_entries(alloc, line, text)
}

fn add_entries(alloc: Global, line: Line, mut text: Vec<u8>) -> Result<Vec<u8>, Fail> {
    let bytes = bytes_of(alloc, INITIATION)?;
    let set = WorldEvent::Set {
        centre: B,
        section: 1,
    };
    let frame = WorldEvent::Deliver {
        from: 0,
        to: B,
        number: 1,
    };
    let train = WorldEvent::Train { centre: B, bytes };
    for (stamp, time_ms, event) in [(1, NEW_YEAR, set), (7, BEFORE, frame), (8, None, train)] {
        let entry = Entry {
            stamp,
            time_ms,
            event,
        };
        add_entry(alloc, &line, &entry, &mut text)?;
    }
    Ok(text)
}

#[test]
fn a_journal_has_a_line_for_each_event(rt: HostRuntime) -> Result<(), Fail> {
    let text = written(rt.alloc())?;
    let expected = format!(in rt.alloc(); "{FIRST}{ENTRIES}")?;
    assert!(rt; text.as_slice() == expected.as_bytes());
    Ok(())
}
