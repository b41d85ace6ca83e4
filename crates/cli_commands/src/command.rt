ghost use Rattle.text_script.specs.Status.Statuses.{IsStatus};

use crate::audit::audit_printed;
use crate::decode::decode;
use crate::demo::run_demo;
use crate::diagram::draw_printed;
use crate::encode::encode;
use crate::explain::explain;
use crate::files::Files;
use crate::forms::VERSION;
use crate::in_words::{show_message, tell_printed};
use crate::journal::Part;
use crate::line_file::{LineFile, line_file_in};
use crate::output::tell;
use crate::pcap::capture_printed;
use crate::printed::print_journals;
use crate::run::{check, run};
use crate::scenarios::{script_in_words, test};
use crate::storm::run_storm;
use crate::watch::watch_printed;
use crate::words::{Listing, Request, Task, requested};
use std::alloc::{AllocError, Global};
use std::convert::AsStr;
use std::io::{BufWriter, Write};
use text_script::status::{Fault, ended};

/// Runs the command of the arguments after the program's name, and returns the exit status. It is 0 for success. It
/// is 1 if an audit found a difference, `watch` a danger, or `decode` a fault. `demo` and `trains` give 1 for an unsafe
/// place. It is 2 for refused arguments (help too), and 3 for an unreadable file, a script fault or journals. It is 4
/// for a line fault, 5 for a refused step, and 7 for a message fault. It is 6 for a refused write, or for a command
/// that needs sockets.
pub fn command<S: AsStr, F: Files, O: Write, E: Write>(
    alloc: Global,
    words: &[S],
    files: &F,
    out: &mut O,
    err: &mut E,
) -> u8
    ensures { IsStatus result }
{
    let done = obey(alloc, words, files, out, err);
    ended(done, out, err)
}

fn obey<'a, S: AsStr, F: Files, O: Write, E: Write>(
    alloc: Global,
    words: &'a [S],
    files: &F,
    out: &mut O,
    err: &mut E,
) -> Result<(), Fault<'a>> {
    match requested(alloc, words)? {
        Request::Version => print_version(out),
        Request::Check { file } => check(alloc, file, files, out),
        Request::Run { file, script } => run(alloc, file, script, files, out),
        Request::Encode { fields, is_frame } => encode(alloc, fields, is_frame, files, out, err),
        Request::Message { digits } => show_message(alloc, digits, out),
        request => match BufWriter::new(alloc, out) {
            Ok(mut out) => obey_buffered(alloc, words, request, files, &mut out, err),
            Err(_) => Err(AllocError.into()),
        },
    }
}

fn print_version<O: Write>(out: &mut O) -> Result<(), Fault<'static>> {
    Ok(tell(out, format_args!("rbcline {VERSION}"))?)
}

// Runs a command whose output is buffered.
fn obey_buffered<'a, S: AsStr, F: Files, O: Write, E: Write>(
    alloc: Global,
    words: &'a [S],
    request: Request<'a>,
    files: &F,
    out: &mut O,
    err: &mut E,
) -> Result<(), Fault<'a>> {
    match request {
        Request::Explain { file, script } => explain(alloc, file, script, files, out),
        Request::Test { file } => test(alloc, file, words, files, out),
        Request::OnLine { file, task } => obey_on_line(alloc, file, task, files, out, err),
        Request::Demo { file, settings } => run_demo(alloc, file, settings, files, out),
        Request::Decode(decoding) => decode(alloc, words, decoding, files, out),
        // This crate has files, but no sockets: the program itself runs these.
        _ => Err(Fault::Socket),
    }
}

// Reads the line file of this name, and does a task on its line.
fn obey_on_line<'a, F: Files, O: Write, E: Write>(
    alloc: Global,
    file: &'a str,
    task: Task<'a>,
    files: &F,
    out: &mut O,
    err: &mut E,
) -> Result<(), Fault<'a>> {
    match line_file_in(alloc, file, files) {
        Ok(given) => do_task(alloc, &given, task, files, out, err),
        Err(fault) => Err(fault),
    }
}

fn do_task<'a, F: Files, O: Write, E: Write>(
    alloc: Global,
    given: &LineFile,
    task: Task<'a>,
    files: &F,
    out: &mut O,
    err: &mut E,
) -> Result<(), Fault<'a>> {
    match task {
        Task::Script(text) => script_in_words(alloc, &given.line, text, files, out, err),
        Task::Storm { script, seed } => run_storm(alloc, &given.line, script, seed, files, out),
        Task::Print(listing) => tell_part(print_journals(alloc, given, listing, files, out)?, err),
        Task::Audit(printed) => tell_part(audit_printed(alloc, given, printed, files, out)?, err),
        Task::Watch(printed) => {
            let has_event = watch_printed(alloc, given, printed, files, out, err)?;
            note_lack(has_event, "no event", printed, err)
        }
        Task::Words(listing) => {
            let has_run = tell_printed(alloc, given, listing, files, out)?;
            note_words(has_run, listing, files, err)
        }
        Task::Picture(drawing) => {
            let has_event = draw_printed(alloc, given, drawing, files, out)?;
            note_lack(has_event, "no event", drawing.printed, err)
        }
        Task::Capture {
            printed,
            first_port,
        } => {
            let has_message = capture_printed(alloc, given, printed, first_port, files, out)?;
            note_lack(has_message, "no message", printed, err)
        }
    }
}

// Notes after `words` that the print has no times, and that it lacks a run.
fn note_words<F: Files, E: Write>(
    has_run: bool,
    listing: Listing<'_>,
    files: &F,
    err: &mut E,
) -> Result<(), Fault<'static>> {
    note_untimed(&listing, files, err)?;
    note_lack(has_run, "nothing of a run", listing.name, err)
}

// Notes that the file of a print lacks this, unless it has it: perhaps it is another file.
fn note_lack<E: Write>(
    has_it: bool,
    lack: &str,
    printed: &str,
    err: &mut E,
) -> Result<(), Fault<'static>> {
    if !has_it {
        let note = format_args!(
            "rbcline: {lack} is in {printed}: is it a print of `run` or `serve`?"
        );
        tell(err, note)?;
    }
    Ok(())
}

// Notes that a print has no times, if they are needed and it is a file.
fn note_untimed<F: Files, E: Write>(
    listing: &Listing<'_>,
    files: &F,
    err: &mut E,
) -> Result<(), Fault<'static>> {
    if listing.needs_times() && !files.is_folder(listing.name) {
        let name = listing.name;
        let note = format_args!("rbcline: {name} has no times: those of events are in journals");
        tell(err, note)?;
    }
    Ok(())
}

// Reports the part of the journals that was read, if a program writes them meanwhile.
fn tell_part<E: Write>(part: Option<Part>, err: &mut E) -> Result<(), Fault<'static>> {
    if let Some(part) = part {
        tell(err, part)?;
    }
    Ok(())
}
