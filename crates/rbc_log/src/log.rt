ghost use Rattle.std.specs.Prelude.{◌≡◌, ◌↔◌, true, [], map, IsTrue, IfOk, IfErr, OnOk, OnErr};
ghost use Rattle.rbc_spec.specs.Line.{is_centre};
ghost use Rattle.rbc_centre.specs.States.{line_of, number_of};
ghost use Rattle.rbc_centre.specs.Views.{event_of, outcome_of, frame_number};
ghost use Rattle.law_logs.specs.Logs.{sent_to};
ghost use Rattle.rbc_log.specs.Entries.{entry_of};
ghost use Rattle.rbc_log.specs.Log.{IsReplaying, Appends, IsUnchanged, MayCommit, IsRefusal};

use crate::entry::Entry;
use crate::fault::CommitFault;
use crate::lines::is_same_line;
use rbc_centre::{Centre, Event, Frame, FrameRoom, Outcome};
use rbc_line::Line;
use std::alloc::{AllocError, Global};
use std::marker::Model;

/// The greatest number of entries in a log.
pub const MOST_ENTRIES: usize = 1_000_000;

/// A centre, and the log of all events that it took.
#[derive(Drop)]
pub struct CentreLog {
    line: Line,
    core: Centre,
    entries: Vec<Entry>,
    /// Room for the frames of an entry.
    room: FrameRoom,
}

impl Model for CentreLog {
    ghost use Rattle.std.specs.Prelude.{◌≡◌};
    ghost use Rattle.rbc_centre.specs.States.{line_of};
    ghost use Rattle.rbc_log.specs.Log.{LogValue, IsReplaying};

    ghost Value = { LogValue };

    ghost view = { λ l. record { core = l.core; entries = l.entries.items } };

    ghost invariant = { λ l. IsReplaying (record { core = l.core; entries = l.entries.items })
        × (l.line ≡ line_of l.core) };
}

impl CentreLog {
    /// A centre of the line in its initial state, with an empty log. A copy of the line is kept.
    pub fn new(alloc: Global, line: &Line, centre: u8) -> Result<CentreLog, AllocError>
        requires { is_centre line.now centre ≡ true }
        ensures line { IfOk result (λ l. line_of l.core ≡ line.now) }
        ensures number { IfOk result (λ l. number_of l.core ≡ centre) }
        ensures empty { IfOk result (λ l. l.entries ≡ []) }
        ensures replays { IfOk result IsReplaying }
    {
        Ok(CentreLog {
            line: line.copied(alloc)?,
            core: Centre::new(alloc, line, centre)?,
            entries: Vec::new(alloc),
            room: FrameRoom::new(alloc),
        })
    }

    /// The line of the centre.
    pub fn line(&self) -> &Line
        ensures value { result.now ≡ line_of self.now.core }
        ensures replays { IsReplaying self.now }
    {
        &self.line
    }

    /// Whether the centre is of this line. All data of the line are compared.
    pub fn is_of_line(&self, line: &Line) -> bool
        ensures { IsTrue result ↔ (line_of self.now.core ≡ line.now) }
    {
        is_same_line(&self.line, line)
    }

    /// The number of the centre.
    pub fn number(&self) -> u8
        ensures { result ≡ number_of self.now.core }
    {
        self.core.number()
    }

    /// The centre.
    pub fn core(&self) -> &Centre
        ensures value { result.now ≡ self.now.core }
        ensures replays { IsReplaying self.now }
    {
        &self.core
    }

    /// The entries, in order.
    pub fn entries(&self) -> &[Entry]
        ensures value { result.now ≡ self.now.entries }
        ensures replays { IsReplaying self.now }
    {
        self.entries.as_slice()
    }

    /// The frame of this number that the centre has sent to another. It is `None` if and only if the number is 0 or was
    /// not sent yet.
    pub fn frame(&self, to: u8, number: u32) -> Option<Frame>
        ensures value { result ≡ frame_number (sent_to to (map entry_of self.now.entries)) number }
        ensures replays { IsReplaying self.now }
    {
        self.core.frame(to, number)
    }

    /// Whether an event may be committed. It is refused as `LogFull` if the log is full, and else as the centre refuses
    /// it.
    pub fn may_commit(&self, event: &Event) -> Result<(), CommitFault>
        ensures ok { OnOk result (MayCommit self.now (event_of event.now)) }
        ensures refused { IfErr result (IsRefusal self.now (event_of event.now)) }
        ensures replays { IsReplaying self.now }
    {
        if self.entries.len() >= MOST_ENTRIES {
            return Err(CommitFault::LogFull);
        }
        self.core.may_step(event)?;
        Ok(())
    }

    /// The centre takes the event, and the log gets it with its outcome. Room for the entry is made first.
    pub fn commit(&mut self, event: Event) -> Result<Outcome, CommitFault>
        ensures appends { IfOk result (λ o. Appends self.old self.new event (outcome_of o)) }
        ensures refused { IfErr result (IsRefusal self.old (event_of event)) }
        ensures err { OnErr result (IsUnchanged self.old self.new) }
        ensures replays { IsReplaying self.new }
    {
        self.may_commit(&event)?;
        let mut outcome = Outcome::nothing();
        self.commit_allowed(event, &mut outcome)?;
        Ok(outcome)
    }

    /// The same commit, of an event that may be committed (`may_commit`), so that it is refused only if memory runs
    /// out. The outcome is written over `out`. If it is refused, `out` has no meaning.
    pub fn commit_allowed(&mut self, event: Event, out: &mut Outcome) -> Result<(), AllocError>
        requires { MayCommit self.old (event_of event) }
        ensures appends { OnOk result (Appends self.old self.new event (outcome_of out.new)) }
        ensures err { OnErr result (IsUnchanged self.old self.new) }
        ensures replays { IsReplaying self.new }
    {
        self.entries.reserve(1)?;
        self.room.reserve()?;
        self.core.step_allowed(&event, out)?;
        let entry = Entry {
            centre: self.core.number(),
            event,
            outcome: out.copied(&mut self.room),
        };
        self.entries.push_reserved(entry);
        Ok(())
    }
}
