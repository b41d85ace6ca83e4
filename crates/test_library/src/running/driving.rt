//! A train that is driven by hand, over bytes in memory.

use crate::line::VERSION;
use crate::running::line::{HALF_AN_INITIATION, bytes_of};
use cli_drive::{DriveFault, drive, see_off, steps_of};
use std::alloc::Global;
use std::io;
use std::io::{ErrorKind, Read, Write};
use std::test::*;

/// A centre that sends these bytes, whatever it receives. Then it ends the connection, or fails.
#[derive(Drop)]
struct Centre<'a> {
    answers: &'a [u8],
    is_faulty: bool,
    heard: Vec<u8>,
}

impl Read for Centre<'_> {
    fn read(&mut self, buffer: &mut [u8]) -> io::Result<usize> {
        if self.answers.is_empty() && self.is_faulty {
            return Err(io::Error::from(ErrorKind::TimedOut));
        }
        self.answers.read(buffer)
    }
}

impl Write for Centre<'_> {
    fn write(&mut self, bytes: &[u8]) -> io::Result<usize> {
        let count = bytes.len().min(3);
        match self.heard.extend_from_slice(&bytes[..count]) {
            Ok(()) => Ok(count),
            Err(_) => Err(io::Error::from(ErrorKind::OutOfMemory)),
        }
    }

    fn flush(&mut self) -> io::Result<()> {
        Ok(())
    }
}

/// The lines of a train at a centre that sends these answers, and the expected result.
struct Row<'a> {
    name: &'a str,
    lines: &'a str,
    answers: &'a str,
    is_faulty: bool,
    end: Result<(), DriveFault>,
    printed: &'a str,
    heard: &'a str,
    /// `None` if the connection is not read to its end.
    seen_off: Option<Result<(), DriveFault>>,
}

static ROWS: [Row<'_>; 5] = [
    // It waits for a message between its own, and prints that message.
    Row {
        name: "a_train_sends_its_lines_and_prints_what_is_answered",
        lines: "9b02800000\nwait 1\n9B02",
        answers: VERSION,
        is_faulty: false,
        end: Ok(()),
        printed: "2002C00000005FFFFFE800\n",
        heard: "9B028000009B02",
        seen_off: Some(Ok(())),
    },
    Row {
        name: "an_answer_that_does_not_come_whole_ends_the_train",
        lines: "wait 2\n",
        answers: "2002C00000005FFFFFE8002002",
        is_faulty: false,
        end: Err(DriveFault::Socket),
        printed: "2002C00000005FFFFFE800\n",
        heard: "",
        seen_off: None,
    },
    Row {
        name: "an_answer_that_does_not_come_whole_ends_the_train, none",
        lines: "wait 2\n",
        answers: "",
        is_faulty: true,
        end: Err(DriveFault::Socket),
        printed: "",
        heard: "",
        seen_off: None,
    },
    Row {
        name: "an_answer_that_does_not_come_whole_ends_the_train, no message of a centre",
        lines: "wait 2\n",
        answers: HALF_AN_INITIATION,
        is_faulty: false,
        end: Err(DriveFault::Socket),
        printed: "",
        heard: "",
        seen_off: None,
    },
    Row {
        name: "a_centre_that_takes_no_more_is_not_seen_off",
        lines: "",
        answers: VERSION,
        is_faulty: true,
        end: Ok(()),
        printed: "",
        heard: "",
        seen_off: Some(Err(DriveFault::Socket)),
    },
];

#[test]
fn each_train_ends_as_it_should(rt: HostRuntime) -> Result<(), Fail> {
    for wanted in &ROWS {
        let is_so = ends_so(rt.alloc(), wanted)?;
        let name = wanted.name;
        assert!(rt; is_so, "{name}");
    }
    Ok(())
}

fn ends_so(alloc: Global, wanted: &Row<'_>) -> Result<bool, Fail> {
    let answers = bytes_of(alloc, wanted.answers)?;
    let sent = bytes_of(alloc, wanted.heard)?;
    let centre = Centre {
        answers: &answers,
        is_faulty: wanted.is_faulty,
        heard: Vec::new(alloc),
    };
    driven_so(alloc, wanted, centre, &sent)
}

// Whether the train ends as expected at this centre, and the centre has received these bytes.
fn driven_so(
    alloc: Global,
    wanted: &Row<'_>,
    mut centre: Centre<'_>,
    sent: &[u8],
) -> Result<bool, Fail> {
    let steps = steps_of(alloc, wanted.lines)
        .ok()
        .ok_or("the lines have a form")?;
    let mut out = Vec::new(alloc);
    let end = drive(alloc, &steps, &mut centre, &mut out);
    let seen_off = match wanted.seen_off {
        Some(_) => Some(see_off(&mut centre)),
        None => None,
    };
    let ends = (end, seen_off) == (wanted.end, wanted.seen_off);
    Ok(ends && (out.as_slice(), centre.heard.as_slice()) == (wanted.printed.as_bytes(), sent))
}
