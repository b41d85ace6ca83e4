//! A client of the interlocking's endpoint, over bytes in memory.

use cli_drive::DriveFault;
use cli_drive::telling::{Verdict, copy_answers, judge};
use std::alloc::Global;
use std::io;
use std::io::{ErrorKind, Read};
use std::test::*;

/// An endpoint that sends these answers. Then it ends the connection, or sends nothing more.
#[derive(Drop)]
struct Endpoint<'a> {
    answers: &'a [u8],
    is_silent: bool,
}

impl Read for Endpoint<'_> {
    fn read(&mut self, buffer: &mut [u8]) -> io::Result<usize> {
        if self.answers.is_empty() && self.is_silent {
            return Err(io::Error::from(ErrorKind::WouldBlock));
        }
        self.answers.read(buffer)
    }
}

/// Lines, the answers to them, and the expected verdict.
struct Row<'a> {
    name: &'a str,
    lines: &'a [&'a str],
    answers: &'a str,
    is_silent: bool,
    verdict: Result<Verdict, DriveFault>,
}

// The answers are those of docs/FORMATS.md, "The control endpoint".
static ROWS: [Row<'_>; 11] = [
    Row {
        name: "each line is answered",
        lines: &["set A 1", "show"],
        answers: "> set A 1\nA 1 Done\n> show\nsection 0 A shut\nsection 1 A free\n",
        is_silent: false,
        verdict: Ok(Verdict::Done),
    },
    Row {
        name: "an empty line, a comment and `stop` have no answer",
        lines: &["", "# the end", "stop"],
        answers: "",
        is_silent: false,
        verdict: Ok(Verdict::Done),
    },
    Row {
        name: "`stop now` has no answer",
        lines: &["set A 1", "stop now"],
        answers: "> set A 1\nA 1 Done\n",
        is_silent: false,
        verdict: Ok(Verdict::Done),
    },
    Row {
        name: "the connection ends before the second answer",
        lines: &["set A 1", "set A 2"],
        answers: "> set A 1\nA 1 Done\n",
        is_silent: false,
        verdict: Ok(Verdict::Short),
    },
    Row {
        name: "the connection ends in an answer",
        lines: &["set A 1"],
        answers: "> set A 1\nA 1 Do",
        is_silent: false,
        verdict: Err(DriveFault::Socket),
    },
    Row {
        name: "a section that is shut is not an answer",
        lines: &["unset A 3"],
        answers: "A 3 Told\n",
        is_silent: false,
        verdict: Ok(Verdict::Short),
    },
    Row {
        name: "the endpoint is silent after its answer",
        lines: &["set A 1"],
        answers: "> set A 1\nA 1 Done\n",
        is_silent: true,
        verdict: Err(DriveFault::Socket),
    },
    Row {
        name: "a line has no form",
        lines: &["sett A 1", "set A 2"],
        answers: "script fault\n> set A 2\nA 2 Done\n",
        is_silent: false,
        verdict: Ok(Verdict::ScriptFault),
    },
    Row {
        name: "a commit is refused, and a line has no form",
        lines: &["set A 1", "sett A 2"],
        answers: "refused 4\nscript fault\n",
        is_silent: false,
        verdict: Ok(Verdict::Refused),
    },
    Row {
        name: "a journal can't be written, and a commit is refused",
        lines: &["set A 1", "set B 5"],
        answers: "refused 3\njournal fault\n",
        is_silent: false,
        verdict: Ok(Verdict::JournalFault),
    },
    // `refused` and `script` may be names of centres.
    Row {
        name: "centres have names like faults",
        lines: &["set refused 3", "set script 5"],
        answers: "> set refused 3\nrefused 3 Done\n> set script 5\nscript 5 Asked\n",
        is_silent: false,
        verdict: Ok(Verdict::Done),
    },
];

#[test]
fn answers_are_printed_and_judged(rt: HostRuntime) -> Result<(), Fail> {
    for wanted in &ROWS {
        let is_so = is_judged_so(rt.alloc(), wanted)?;
        let name = wanted.name;
        assert!(rt; is_so, "{name}");
    }
    Ok(())
}

// Whether all answers are printed, and the verdict is the expected one.
fn is_judged_so(alloc: Global, wanted: &Row<'_>) -> Result<bool, Fail> {
    let mut endpoint = Endpoint {
        answers: wanted.answers.as_bytes(),
        is_silent: wanted.is_silent,
    };
    let mut out = Vec::new(alloc);
    let verdict = match copy_answers(alloc, &mut endpoint, &mut out) {
        Ok(answers) => judge(alloc, wanted.lines, &answers),
        Err(fault) => Err(fault),
    };
    Ok((verdict, out.as_slice()) == (wanted.verdict, wanted.answers.as_bytes()))
}
