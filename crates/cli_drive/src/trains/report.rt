//! The print of trains over TCP.

ghost use Rattle.std.specs.Prelude.{[], ◌&&◌, ◌+◌, ◌++◌, ◌-◌, ◌/◌, ◌^◌, ◌∷◌, ◌≡◌, codes, if◌then◌else◌, min};
ghost use Rattle.std.specs.Prelude.{◌*◌, ◌≤◌, length, List, OnOk, slice_get, true, ℕ};
ghost use Rattle.std.specs.Io.KnownBytes.{Appends};
ghost use Rattle.cli_drive.specs.Obedience.{train_at};
ghost use Rattle.cli_drive.specs.Reports.{arrivals_row, counts_row, IsEnding, shown_again, verdict};
ghost use Rattle.cli_drive.specs.Rows.{AreTrainRows, followed_name, IsShown, IsTrainRow};
ghost use Rattle.train_unit.specs.Trains as rules;

use crate::trains::fault::TrainsFault;
use crate::trains::seconds::Running;
use crate::trains::train::Train;
use rbc_line::Line;
use std::io::Write;

/// The number of seconds after which each train has a line.
const OFTEN: u32 = 60;

/// The counts of a run.
#[derive(Clone, Copy)]
pub(crate) struct Tally {
    pub(crate) handovers: u32,
    /// At the end of no second two trains were on one section.
    pub(crate) are_apart: bool,
    /// The second at which the trains were shown last.
    shown: u32,
}

impl Tally {
    pub(crate) fn new() -> Tally
        ensures { result ≡ record { handovers = 0; are_apart = true; shown = 0 } }
    {
        Tally {
            handovers: 0,
            are_apart: true,
            shown: 0,
        }
    }

    /// Counts a change of the centre that a train follows. The first centre of a train is not a change.
    fn count(&mut self, is_first: bool)
        ensures { self.new ≡ (if is_first then self.old
            else record self.old { handovers = min (self.old.handovers + 1) (2 ^ 32 - 1) }) }
    {
        if !is_first {
            self.handovers = self.handovers.saturating_add(1);
        }
    }

    /// Takes the check at the end of a second.
    pub(crate) fn check(&mut self, are_apart: bool)
        ensures { self.new ≡ record self.old { are_apart = self.old.are_apart && are_apart } }
    {
        self.are_apart = self.are_apart && are_apart;
    }

    /// The verdict on all seconds.
    fn verdict(&self) -> &'static str
        ensures { result.now ≡ verdict self.now.are_apart }
    {
        if self.are_apart {
            "At no second were two trains on one section."
        } else {
            "FAILED: two trains were on one section."
        }
    }

    // The last line: the verdict.
    fn print<W: Write>(&self, out: &mut W) -> Result<(), TrainsFault>
        ensures { OnOk result (Appends (W.contents out.old) (W.contents out.new)
            (verdict self.now.are_apart ++ 10 ∷ [])) }
    {
        writeln!(out, "{}", self.verdict())?;
        out.flush()?;
        Ok(())
    }
}

impl<R> Running<'_, R> {
    // The head of the table.
    pub(crate) fn begin<W: Write>(&self, out: &mut W) -> Result<(), TrainsFault>
        ensures { OnOk result (Appends (W.contents out.old) (W.contents out.new)
            (codes "  second     train  track               front_m  authority_m  RBC" ++ 10 ∷ [])) }
    {
        writeln!(
            out,
            "  second     train  track               front_m  authority_m  RBC"
        )?;
        out.flush()?;
        Ok(())
    }

    fn second_now(&self) -> u32
        ensures { result ≡ (self.entry.now.now - 1000) / 100 }
    {
        self.now.saturating_sub(1_000) / 100
    }

    /// The train follows another centre since now.
    pub(crate) fn follows_other<W: Write>(
        &mut self,
        train: usize,
        is_first: bool,
        out: &mut W,
    ) -> Result<(), TrainsFault>
        ensures { self.new ≡ record self.old {
          tally = (if is_first then self.old.tally
              else record self.old.tally { handovers = min (self.old.tally.handovers + 1) (2 ^ 32 - 1) });
        } }
    {
        self.tally.count(is_first);
        self.show(train, out)
    }

    // Prints the line of a train.
    fn show<W: Write>(&self, train: usize, out: &mut W) -> Result<(), TrainsFault>
        ensures { OnOk result (IsShown self.entry.now.line.now ((self.entry.now.now - 1000) / 100)
            (slice_get self.entry.now.trains.items train) (W.contents out.old) (W.contents out.new)) }
    {
        match self.trains.get(train) {
            Some(train) => print_row(self.line, self.second_now(), train, out),
            None => Ok(()),
        }
    }

    /// Shows each train, if `OFTEN` seconds have passed since then.
    pub(crate) fn show_often<W: Write>(&mut self, out: &mut W) -> Result<(), TrainsFault>
        ensures trains { self.new.trains ≡ self.old.trains }
        ensures shown { self.new ≡ record self.old {
          tally = record self.old.tally {
            shown = shown_again self.old.tally.shown ((self.old.now - 1000) / 100);
          };
        } }
    {
        let second = self.second_now();
        if second.saturating_sub(self.tally.shown) < OFTEN {
            return Ok(());
        }
        self.tally.shown = second;
        self.show_all(out)
    }

    fn show_all<W: Write>(&self, out: &mut W) -> Result<(), TrainsFault>
        ensures { OnOk result ((rows : List ℕ)
            × AreTrainRows self.entry.now.line.now ((self.entry.now.now - 1000) / 100) self.entry.now.trains.items rows
            × Appends (W.contents out.old) (W.contents out.new) rows) }
    {
        print_rows(self.line, self.second_now(), &self.trains, out)
    }

    // The last lines of the table.
    pub(crate) fn end<W: Write>(&self, out: &mut W) -> Result<(), TrainsFault>
        ensures { OnOk result ((text : List ℕ)
            × IsEnding self.entry.now.line.now ((self.entry.now.now - 1000) / 100) self.entry.now.trains.items
            (counts_row ((self.entry.now.now - 1000) / 100) self.entry.now.radio self.entry.now.calls
            self.entry.now.tally.handovers) self.entry.now.tally.are_apart text
            × Appends (W.contents out.old) (W.contents out.new) text) }
    {
        self.show_all(out)?;
        self.print_counts(out)?;
        print_arrivals(&self.trains, out)?;
        self.tally.print(out)
    }

    fn print_counts<W: Write>(&self, out: &mut W) -> Result<(), TrainsFault>
        ensures { OnOk result (Appends (W.contents out.old) (W.contents out.new)
            (counts_row ((self.entry.now.now - 1000) / 100) self.entry.now.radio self.entry.now.calls
            self.entry.now.tally.handovers)) }
    {
        writeln!(
            out,
            "{} seconds, {} messages, {} lost, {} late, {} connections, {} handovers",
            self.second_now(),
            self.radio.sent,
            self.radio.lost,
            self.radio.delayed,
            self.calls.opened(),
            self.tally.handovers
        )?;
        Ok(())
    }
}

// Prints how many of the trains have arrived.
fn print_arrivals<W: Write>(trains: &[Train], out: &mut W) -> Result<(), TrainsFault>
    ensures { OnOk result ((arrived : ℕ) × (arrived ≤ length trains.now)
        × Appends (W.contents out.old) (W.contents out.new) (arrivals_row arrived (length trains.now))) }
{
    let arrived = trains
        .iter()
        .filter(|train| train.driver.has_arrived(train.ends))
        .count();
    writeln!(out, "{arrived} of {} trains arrived", trains.len())?;
    Ok(())
}

// Prints a line for each train.
fn print_rows<W: Write>(
    line: &Line,
    second: u32,
    trains: &[Train],
    out: &mut W,
) -> Result<(), TrainsFault>
    ensures { OnOk result ((rows : List ℕ) × AreTrainRows line.now second trains.now rows
        × Appends (W.contents out.old) (W.contents out.new) rows) }
{
    for train in trains {
        print_row(line, second, train, out)?;
    }
    Ok(())
}

// Prints the line of a train: its place, the end of its authority, and the centre that it follows.
fn print_row<W: Write>(
    line: &Line,
    second: u32,
    train: &Train,
    out: &mut W,
) -> Result<(), TrainsFault>
    ensures { OnOk result ((row : List ℕ) × IsTrainRow line.now second train.now row
        × Appends (W.contents out.old) (W.contents out.new) row) }
{
    writeln!(
        out,
        "{:>8}{:>10}  {:<16}{:>11}{:>13}  {}",
        second,
        train.unit.nid_engine(),
        line.track_name(train.ends.track).unwrap_or("?"),
        train.ends.front / 10,
        limit_of(train),
        followed_name(line, train)
    )?;
    out.flush()?;
    Ok(())
}

// How far a train may run, in metres.
fn limit_of(train: &Train) -> u64
    ensures { rules.may_reach (10 * result) (train_at train.now) ≡ true }
{
    let front = train.ends.front;
    train.unit.may_reach(front).unwrap_or(u64::from(front)) / 10
}

// The name of the centre that a train follows.
fn followed_name<'n>(line: &'n Line, train: &Train) -> &'n str
    ensures { result.now ≡ followed_name line.entry.now train.now }
{
    match train.driver.follows {
        Some(centre) => line.centre_name(centre).unwrap_or("?"),
        None => "-",
    }
}
