//! The print of a demo: a table of its trains, or a script of its events.

ghost use Rattle.std.specs.Io.KnownBytes.{Appends};
ghost use Rattle.std.specs.Prelude.{◌&&◌, ◌+◌, ◌-◌, ◌/◌, ◌^◌, ◌≡◌, codes, if◌then◌else◌, IfSome, min, nat_le, OnOk};
ghost use Rattle.std.specs.Prelude.{true};
ghost use Rattle.cli_demo.specs.Script.{event_text, row_text};

use crate::demo::Demo;
use crate::fault::DemoFault;
use rbc_line::Line;
use rbc_railway::RunningTrain;
use std::alloc::Global;
use std::fmt::Display;
use std::io::Write;
use text_script::WorldEvent;
use text_script::print::name_of;
use train_unit::driving::Driver;

/// The number of events after which each train has a line.
const OFTEN: u32 = 500;

/// The counts of a demo.
#[derive(Clone, Copy)]
pub(crate) struct Tally {
    pub(crate) events: u32,
    pub(crate) handovers: u32,
    pub(crate) is_safe: bool,
    /// The events at which the trains were shown last.
    shown: u32,
}

impl Tally {
    pub(crate) fn new() -> Tally
        ensures { result ≡ record { events = 0; handovers = 0; is_safe = true; shown = 0 } }
    {
        Tally {
            events: 0,
            handovers: 0,
            is_safe: true,
            shown: 0,
        }
    }

    /// Counts an event.
    pub(crate) fn happen(&mut self)
        ensures { self.new ≡ record self.old { events = min (self.old.events + 1) (2 ^ 32 - 1) } }
    {
        self.events = self.events.saturating_add(1);
    }

    /// Counts a change of the centre that a train follows. The first centre of a train is not a change.
    fn follow(&mut self, is_first: bool)
        ensures { self.new ≡ (if is_first then self.old
            else record self.old { handovers = min (self.old.handovers + 1) (2 ^ 32 - 1) }) }
    {
        if !is_first {
            self.handovers = self.handovers.saturating_add(1);
        }
    }

    /// Takes the check at the end of a second.
    pub(crate) fn check(&mut self, is_safe: bool)
        ensures { self.new ≡ record self.old { is_safe = self.old.is_safe && is_safe } }
    {
        self.is_safe = self.is_safe && is_safe;
    }

    /// Whether all trains are to be shown: `OFTEN` events came since they were shown last.
    fn is_due(&self) -> bool
        ensures { result ≡ nat_le 500 (self.now.events - self.now.shown) }
    {
        self.events.saturating_sub(self.shown) >= OFTEN
    }

    /// The verdict on all seconds.
    fn verdict(&self) -> &'static str
        ensures { result.now ≡ (if self.now.is_safe
            then codes "At no second were two trains on one section, or a train on a section that was not released."
            else codes "FAILED: two trains were on one section, or a train on a section that was not released.") }
    {
        if self.is_safe {
            "At no second were two trains on one section, or a train on a section that was not released."
        } else {
            "FAILED: two trains were on one section, or a train on a section that was not released."
        }
    }
}

impl Demo {
    // The head of the table.
    pub(crate) fn begin<W: Write>(&self, out: &mut W) -> Result<(), DemoFault> {
        if !self.settings.is_script {
            writeln!(
                out,
                "   event  second     train  track               front_m  authority_m  RBC"
            )?;
        }
        Ok(())
    }

    /// The train follows another centre since now.
    pub(crate) fn follows_other<W: Write>(
        &mut self,
        train: usize,
        is_first: bool,
        out: &mut W,
    ) -> Result<(), DemoFault> {
        self.tally.follow(is_first);
        self.show(train, out)
    }

    pub(crate) fn show_often<W: Write>(&mut self, out: &mut W) -> Result<(), DemoFault> {
        if !self.tally.is_due() {
            return Ok(());
        }
        self.tally.shown = self.tally.events;
        self.show_all(out)
    }

    fn second_now(&self) -> u32
        ensures { result ≡ (self.entry.now.now - 1000) / 100 }
    {
        self.now.saturating_sub(1_000) / 100
    }

    // A line of the table: the place of a train, the end of its authority, and the centre that it follows.
    fn show<W: Write>(&self, train: usize, out: &mut W) -> Result<(), DemoFault> {
        if self.settings.is_script {
            return Ok(());
        }
        let (Some(running), Some(driver)) = (
            self.railway.trains().get(train),
            self.drivers.get(train),
        ) else {
            return Ok(());
        };
        self.show_running(running, driver, out)
    }

    fn show_running<W: Write>(
        &self,
        running: &RunningTrain,
        driver: &Driver,
        out: &mut W,
    ) -> Result<(), DemoFault> {
        let line = self.railway.line();
        let ends = running.ends();
        writeln!(
            out,
            "{:>8}{:>8}{:>10}  {:<16}{:>11}{:>13}  {}",
            self.tally.events,
            self.second_now(),
            running.nid_engine(),
            line.track_name(ends.track).unwrap_or("?"),
            ends.front / 10,
            limit_of(running),
            followed_name(line, driver)
        )?;
        Ok(())
    }

    // The last lines of the table.
    pub(crate) fn end<W: Write>(&self, out: &mut W) -> Result<(), DemoFault> {
        if self.settings.is_script {
            return Ok(());
        }
        self.show_all(out)?;
        self.print_counts(out)?;
        writeln!(out, "{}", self.tally.verdict())?;
        Ok(())
    }

    fn show_all<W: Write>(&self, out: &mut W) -> Result<(), DemoFault> {
        for train in 0..self.drivers.len() {
            self.show(train, out)?;
        }
        Ok(())
    }

    fn print_counts<W: Write>(&self, out: &mut W) -> Result<(), DemoFault> {
        let Tally {
            events,
            handovers,
            ..
        } = self.tally;
        writeln!(
            out,
            "{events} events, {} messages, {} lost, {handovers} handovers",
            self.radio.sent, self.radio.lost
        )?;
        let arrived = self.count_arrived();
        writeln!(out, "{arrived} of {} trains arrived", self.drivers.len())?;
        Ok(())
    }

    fn count_arrived(&self) -> u32 {
        let mut arrived = 0u32;
        for train in 0..self.drivers.len() {
            if self.has_arrived(train) {
                arrived = arrived.saturating_add(1);
            }
        }
        arrived
    }
}

// How far a train may run, in metres.
fn limit_of(running: &RunningTrain) -> u64 {
    let front = running.ends().front;
    running.unit().may_reach(front).unwrap_or(u64::from(front)) / 10
}

// The name of the centre that a train follows.
fn followed_name<'n>(line: &'n Line, driver: &Driver) -> &'n str {
    match driver.follows {
        Some(centre) => line.centre_name(centre).unwrap_or("?"),
        None => "-",
    }
}

/// Prints an event as a line of a script.
pub(crate) fn print_event<W: Write>(
    alloc: Global,
    line: &Line,
    event: &WorldEvent,
    out: &mut W,
) -> Result<(), DemoFault>
    ensures { OnOk result (Appends (W.contents out.old) (W.contents out.new) (event_text line.now event.now)) }
{
    match event {
        WorldEvent::Train { centre, bytes } => {
            let digits = hex::encode_upper(alloc, bytes)?;
            print_row(out, "train", name_of(line, *centre), digits)
        }
        WorldEvent::Set { centre, section } => {
            print_row(out, "set", name_of(line, *centre), *section)
        }
        WorldEvent::Unset { centre, section } => {
            print_row(out, "unset", name_of(line, *centre), *section)
        }
        WorldEvent::Deliver { from, to, number } => {
            let from = name_of(line, *from);
            let to = name_of(line, *to);
            writeln!(out, "deliver {from} {to} {number}")?;
            Ok(())
        }
    }
}

// Prints a line of a script: its word, the centre that it names, and the text after that.
fn print_row<W: Write, D: Display + Drop>(
    out: &mut W,
    word: &str,
    centre: &str,
    rest: D,
) -> Result<(), DemoFault>
    ensures { OnOk result (IfSome (D.output rest) (λ text. Appends (W.contents out.old) (W.contents out.new)
        (row_text word.now centre.now text))) }
{
    writeln!(out, "{word} {centre} {rest}")?;
    Ok(())
}
