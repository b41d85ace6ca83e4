//! Watches a print of any centres: whether trains were in danger after one of its events.

ghost use Rattle.std.specs.Prelude.{◌≡◌, IfErr, IfOk, IfSome, is_some, None, OnOk, Some, true};
ghost use Rattle.cli_commands.specs.Watching.{IsDanger, Watches};
ghost use Rattle.law_outside.specs.Outside.{nothing_seen};
ghost use Rattle.rbc_watch.specs.declared.watch.Watch.{Watch as Monitor};
ghost use Rattle.rbc_watch.specs.Events.{sees_exchange};
ghost use Rattle.rbc_watch.specs.Seen.{line_of, seen_by};

use crate::files::{Files, Rows};
use crate::line_file::LineFile;
use crate::output::tell;
use crate::printed::printed_in;
use crate::script_faults::row_fault;
use rbc_line::Line;
use rbc_watch::{Danger, Exchange, Watch, WatchFault};
use std::alloc::{AllocError, Global};
use std::fmt;
use std::io::Write;
use text_prints::{Reader, RowFault};
use text_script::status::Fault;

/// Reads a print, and reports the first event after which a train is in danger, or that there is none. If the name is a
/// folder's, it reads the print of the line's journals. The reason why a line is refused is reported to `err`. Returns
/// whether an event is in the print.
pub fn watch_printed<'a, F: Files, O: Write, E: Write>(
    alloc: Global,
    given: &LineFile,
    printed: &'a str,
    files: &F,
    out: &mut O,
    err: &mut E,
) -> Result<bool, Fault<'a>> {
    let mut watched = Watched::new(alloc, &given.line)?;
    match watch_rows(alloc, given, printed, files, &mut watched) {
        Ok(()) => report(&watched, printed, out, err),
        Err(fault) => Err(fault),
    }
}

fn watch_rows<'a, F: Files>(
    alloc: Global,
    given: &LineFile,
    printed: &'a str,
    files: &F,
    watched: &mut Watched<'_>,
) -> Result<(), Fault<'a>> {
    if files.is_folder(printed) {
        let text = printed_in(alloc, given, printed, files)?;
        for row in text.as_str().lines() {
            watched.row(row);
        }
    } else if files.each_row(alloc, printed, watched).is_none() {
        return Err(Fault::CannotRead(printed));
    }
    watched.end();
    Ok(())
}

// Prints the end of the monitor.
fn report<'a, O: Write, E: Write>(
    watched: &Watched<'_>,
    printed: &'a str,
    out: &mut O,
    err: &mut E,
) -> Result<bool, Fault<'a>>
    ensures { Watches watched.now.ending watched.now.events printed.now result }
{
    let events = watched.events;
    match &watched.ending {
        None => {
            tell(out, format_args!("{events} events: safe to the outside"))?;
            Ok(events > 0)
        }
        Some(Ending::Danger(danger)) => {
            let row = watched.begun;
            let danger = InWords(*danger);
            tell(out, format_args!("line {row}, event {events}: {danger}"))?;
            Err(Fault::Differs)
        }
        Some(Ending::Row(cause)) => {
            writeln!(err, "line {}: {cause}", watched.rows)?;
            Err(Fault::CannotRead(printed))
        }
        Some(Ending::Memory) => Err(AllocError.into()),
    }
}

/// Why a monitor reads no more lines.
#[derive(Drop)]
enum Ending {
    Memory,
    /// A train is in danger after the last event.
    Danger(Danger),
    /// The last line is refused, for this reason.
    Row(String),
}

impl From<AllocError> for Ending {
    fn from(_error: AllocError) -> Self {
        Ending::Memory
    }
}

impl From<WatchFault> for Ending {
    ghost use Rattle.std.specs.Prelude.{◌≡◌};
    ghost use Rattle.cli_commands.specs.Watching.{ending_of};

    ghost from_gives = { λ fault ending. ending ≡ ending_of fault };

    fn from(fault: WatchFault) -> Self {
        match fault {
            WatchFault::Memory => Ending::Memory,
            WatchFault::Broken(danger) => Ending::Danger(danger),
        }
    }
}

/// A monitor that receives the lines of a print.
#[derive(Drop)]
struct Watched<'a> {
    alloc: Global,
    line: &'a Line,
    reader: Reader<'a>,
    /// None after its ending.
    watch: Option<Watch>,
    /// The number of lines received.
    rows: u64,
    /// The line of the last event, from 1.
    begun: u64,
    /// The number of events that the monitor took.
    events: u64,
    ending: Option<Ending>,
}

impl Rows for Watched<'_> {
    fn row(&mut self, row: &str) {
        if self.ending.is_some() {
            return;
        }
        self.rows = self.rows.saturating_add(1);
        if let Err(ending) = self.read(row) {
            self.ending = Some(ending);
        }
    }
}

impl<'a> Watched<'a> {
    fn new(alloc: Global, line: &'a Line) -> Result<Watched<'a>, AllocError>
        ensures nothing { IfOk result (λ watched. (watched.ending ≡ None) × (watched.events ≡ 0)) }
        ensures watch { IfOk result (λ watched. IfSome watched.watch
            (λ watch. (line_of watch ≡ line.now) × (seen_by watch ≡ nothing_seen))) }
    {
        Ok(Watched {
            alloc,
            line,
            reader: Reader::new(alloc, line),
            watch: Some(Watch::new(alloc, line)?),
            rows: 0,
            begun: 0,
            events: 0,
            ending: None,
        })
    }

    // Takes the last event, after all lines.
    fn end(&mut self)
        ensures { is_some self.old.ending ≡ true
            → (self.new.ending ≡ self.old.ending) × (self.new.events ≡ self.old.events) }
    {
        if self.ending.is_some() {
            return;
        }
        let last = self.reader.end();
        if let Err(ending) = self.take(&last) {
            self.ending = Some(ending);
        }
    }

    // Reads a line. If an event is complete before it, the monitor takes that.
    fn read(&mut self, row: &str) -> Result<(), Ending> {
        let taken = match self.reader.row(row) {
            Ok(exchange) => self.take(&exchange),
            Err(fault) => Err(cause_of(self.alloc, self.line, row, fault)?),
        };
        if taken.is_ok() && row.starts_with("> ") {
            self.begun = self.rows;
        }
        taken
    }

    // Takes an event, if one is complete.
    fn take(&mut self, exchange: &Option<Exchange>) -> Result<(), Ending>
        ensures danger { (watch : Monitor) → self.old.watch ≡ Some watch → IfSome exchange.now (λ x. IfErr result
            (IsDanger (line_of watch) (sees_exchange (line_of watch) x (seen_by watch)))) }
        ensures seen { (watch : Monitor) → self.old.watch ≡ Some watch → IfSome exchange.now (λ x. OnOk result
            (IfSome self.new.watch (λ w. seen_by w ≡ sees_exchange (line_of watch) x (seen_by watch)))) }
    {
        let Some(exchange) = exchange else {
            return Ok(());
        };
        self.events = self.events.saturating_add(1);
        if let Some(watch) = self.watch.take() {
            self.watch = Some(watch.next(exchange)?);
        }
        Ok(())
    }
}

// Why this line is refused.
fn cause_of(alloc: Global, line: &Line, row: &str, fault: RowFault) -> Result<Ending, AllocError> {
    if fault == RowFault::Memory {
        return Ok(Ending::Memory);
    }
    if let Some(text) = row.strip_prefix("> ")
        && let Some(cause) = row_fault(alloc, line, text)?
    {
        return Ok(Ending::Row(format!(in alloc; "{cause}")?));
    }
    Ok(Ending::Row(format!(in alloc; "{fault}")?))
}

/// A danger in words.
#[derive(Clone, Copy)]
struct InWords(Danger);

impl fmt::Display for InWords {
    fn fmt<W: fmt::Write>(&self, f: &mut fmt::Formatter<W>) -> fmt::Result {
        match self.0 {
            Danger::TwoTrains {
                one,
                other,
                section,
            } => write!(f, "trains {one} and {other} may run over section {section}"),
            Danger::NotReleased {
                nid_engine,
                section,
            } => write!(
                f,
                "train {nid_engine} may run over section {section}, which is not released"
            ),
            Danger::Stray => write!(f, "a train was sent a message that it cannot place"),
        }
    }
}
