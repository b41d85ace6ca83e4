//! The seconds of trains over TCP.

ghost use Rattle.std.specs.Prelude.{◌+◌, ◌<◌, ◌≡◌, Err, length, OnOk, slice_get};
ghost use Rattle.cli_drive.specs.Changes.{ChangesAt};
ghost use Rattle.cli_drive.specs.Fronts.{front_section};
ghost use Rattle.cli_drive.specs.Obedience.{ends_of, HasRun, KeepsEnds, RunByRules, RunsByRules};
ghost use Rattle.std.specs.List.{position};
ghost use Rattle.std.specs.Prelude.{None, true};
ghost use Rattle.cli_drive.specs.Radios.{is_due};
ghost use Rattle.cli_drive.specs.declared.trains.fault.TrainsFault.TheVariants.{Socket};

use crate::trains::calls::{Calls, port_after};
use crate::trains::fault::TrainsFault;
use crate::trains::interlocking::Interlocking;
use crate::trains::observer::Observer;
use crate::trains::radio::{Letter, Radio};
use crate::trains::report::Tally;
use crate::trains::settings::Settings;
use crate::trains::train::Train;
use rand::SeedableRng;
use rand_pcg::Pcg32;
use rbc_line::{Line, Section};
use std::alloc::{AllocError, Global};
use std::io::Write;
use std::net::{Net, TcpStream};
use std::thread;
use std::time::{Clock, Duration};
use train_unit::driving::placed_on;

/// Trains that run over the centres of a line.
#[derive(Drop)]
pub(crate) struct Running<'a, R> {
    pub(crate) rt: &'a R,
    pub(crate) alloc: Global,
    pub(crate) line: &'a Line,
    pub(crate) settings: Settings,
    pub(crate) trains: Vec<Train>,
    pub(crate) interlocking: Interlocking,
    pub(crate) radio: Radio,
    pub(crate) calls: Calls,
    pub(crate) draws: Pcg32,
    /// The time, in units of 10 ms.
    pub(crate) now: u32,
    pub(crate) tally: Tally,
}

/// Runs trains over the centres of a line, which listen on this host. It ends when all trains have ended their missions
/// at their goals, or when the seconds are over. At the end of each second the observer gets the true places. Returns
/// whether no two trains were on one section at the end of a second.
pub fn run<R: Net<Stream = TcpStream> + Clock + AllocGlobal, P: Observer, W: Write>(
    rt: &R,
    line: &Line,
    settings: Settings,
    observer: &P,
    out: &mut W,
) -> Result<bool, TrainsFault>
    ensures { 65535 < settings.port + length line.now.centres → result ≡ Err Socket }
{
    let mut run = begun(rt, rt.alloc(), line, settings)?;
    run.all(observer, out)
}

// The trains at their first places. No connection is open yet.
fn begun<'a, R>(
    rt: &'a R,
    alloc: Global,
    line: &'a Line,
    settings: Settings,
) -> Result<Running<'a, R>, TrainsFault>
    ensures { 65535 < settings.port + length line.entry.now.centres → result ≡ Err Socket }
{
    let centres = line.centre_count();
    let control = port_after(settings.port, centres).ok_or(TrainsFault::Socket)?;
    let interlocking = Interlocking::new(alloc, line, control)?;
    let trains = first_trains(alloc, line, &interlocking.sections, settings.trains)?;
    let calls = Calls::new(alloc, trains.len(), centres, settings.port)?;
    Ok(Running {
        rt,
        alloc,
        line,
        settings,
        trains,
        interlocking,
        radio: Radio::new(alloc, settings.loss, settings.late),
        calls,
        draws: Pcg32::seed_from_u64(settings.seed),
        now: 1_000,
        tally: Tally::new(),
    })
}

// The trains at their first places.
fn first_trains(
    alloc: Global,
    line: &Line,
    sections: &[Section],
    most: u8,
) -> Result<Vec<Train>, AllocError> {
    let mut trains = Vec::new(alloc);
    for place in placed_on(alloc, line, sections, most)? {
        trains.push(Train::new(place))?;
    }
    Ok(trains)
}

impl<R: Net<Stream = TcpStream> + Clock> Running<'_, R> {
    // All seconds. Returns whether no two trains were on one section at the end of one.
    fn all<P: Observer, W: Write>(
        &mut self,
        observer: &P,
        out: &mut W,
    ) -> Result<bool, TrainsFault> {
        self.begin(out)?;
        for _ in 0..self.settings.seconds {
            if self.have_all_ended() {
                break;
            }
            self.second(observer, out)?;
        }
        self.end(out)?;
        Ok(self.tally.are_apart)
    }

    // A second: sections are released, trains run and send, and messages arrive.
    fn second<P: Observer, W: Write>(
        &mut self,
        observer: &P,
        out: &mut W,
    ) -> Result<(), TrainsFault>
        ensures { OnOk result (RunByRules self.old.trains.items self.new.trains.items) }
    {
        self.act()?;
        thread::sleep(self.rt, Duration::from_millis(self.settings.second_ms));
        self.observe(observer, out)?;
        Ok(())
    }

    // Sections are released, trains run and send, and messages arrive at their centres.
    fn act(&mut self) -> Result<(), TrainsFault>
        ensures { OnOk result (RunByRules self.old.trains.items self.new.trains.items) }
    {
        self.now = self.now.saturating_add(100);
        self.release()?;
        self.move_all()?;
        self.send_due()?;
        Ok(())
    }

    // Messages that are due arrive at their centres.
    fn send_due(&mut self) -> Result<(), TrainsFault>
        ensures trains { self.new.trains ≡ self.old.trains }
        ensures sent { OnOk result (position (is_due self.old.now true) self.new.radio.letters.items ≡ None) }
    {
        while let Some(letter) = self.radio.arrival(self.now, true) {
            self.calls.send(self.rt, &letter, self.now)?;
        }
        Ok(())
    }
}

impl<R> Running<'_, R> {
    // Each train runs, and sends its messages.
    #[tactic(auto, using(crate::proofs::Moving::all_moved))]
    fn move_all(&mut self) -> Result<(), TrainsFault>
        ensures { OnOk result (RunByRules self.old.trains.items self.new.trains.items) }
    {
        for i in 0..self.trains.len() {
            self.move_one(i)?;
        }
        Ok(())
    }

    // A train runs, and sends its messages.
    fn move_one(&mut self, i: usize) -> Result<(), TrainsFault>
        ensures { OnOk result (ChangesAt RunsByRules i self.old.trains.items self.new.trains.items) }
    {
        self.run_one(i);
        self.speak(i)?;
        Ok(())
    }

    fn run_one(&mut self, i: usize)
        ensures { ChangesAt HasRun i self.old.trains.items self.new.trains.items }
    {
        if let Some(train) = self.trains.get_mut(i) {
            train.run(&mut self.draws);
        }
    }

    // Messages arrive at trains, and then the trains are looked at and shown.
    fn observe<P: Observer, W: Write>(
        &mut self,
        observer: &P,
        out: &mut W,
    ) -> Result<(), TrainsFault>
        ensures { ends_of self.new.trains.items ≡ ends_of self.old.trains.items }
    {
        self.listen(out)?;
        self.look(observer)?;
        self.show_often(out)
    }

    // Messages of centres come, and those that are due arrive at their trains.
    fn listen<W: Write>(&mut self, out: &mut W) -> Result<(), TrainsFault>
        ensures { ends_of self.new.trains.items ≡ ends_of self.old.trains.items }
    {
        self.collect()?;
        self.deliver(out)
    }

    // A train sends the message that is due to each centre.
    #[tactic(auto, using(crate::proofs::Moving::kept))]
    fn speak(&mut self, i: usize) -> Result<(), TrainsFault>
        ensures { OnOk result (ChangesAt KeepsEnds i self.old.trains.items self.new.trains.items) }
    {
        let Some(section) = self.section_of(i) else {
            return Ok(());
        };
        let Some(section) = self.interlocking.sections.get(section).copied() else {
            return Ok(());
        };
        for centre in 0..self.line.centre_count() {
            self.speak_to(i, centre, section)?;
        }
        Ok(())
    }

    // A train on this section sends the message that is due to a centre.
    fn speak_to(&mut self, i: usize, centre: u8, section: Section) -> Result<(), TrainsFault>
        ensures { OnOk result (ChangesAt KeepsEnds i self.old.trains.items self.new.trains.items) }
    {
        let Some(train) = self.trains.get_mut(i) else {
            return Ok(());
        };
        let said = train.speak(self.alloc, self.line, centre, section, self.now)?;
        if let Some(bytes) = said {
            let letter = Letter {
                train: i,
                centre,
                is_up: true,
                bytes,
                due: self.now,
            };
            self.radio.send(&mut self.draws, letter)?;
        }
        Ok(())
    }

    /// The section of a train's front end.
    pub(crate) fn section_of(&self, i: usize) -> Option<usize>
        ensures { result ≡ front_section self.entry.now.interlocking.sections.items
            (slice_get self.entry.now.trains.items i) }
    {
        match self.trains.get(i) {
            Some(train) => train.section(&self.interlocking.sections),
            None => None,
        }
    }

    fn have_all_ended(&self) -> bool {
        for train in &self.trains {
            if !train.has_ended() {
                return false;
            }
        }
        true
    }
}
