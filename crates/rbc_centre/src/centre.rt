ghost use Rattle.std.specs.Prelude.{◌≡◌, ◌+◌, true, length, IfOk, IfErr, Ok, OnOk, OnErr, Some, None, option_map};
ghost use Rattle.std.specs.Option.{option_map_or};
ghost use Rattle.rbc_spec.specs.Line.{is_centre};
ghost use Rattle.rbc_spec.specs.SectionRuns.{no_run};
ghost use Rattle.rbc_spec.specs.Centre.{beginning};
ghost use Rattle.rbc_spec.specs.Step as spec;
ghost use Rattle.rbc_spec.specs.Step.{refusal, stamp_of};
ghost use Rattle.rbc_book.specs.Entries.{entry_of};
ghost use Rattle.rbc_line.specs.SectionRuns.{run_of};
ghost use Rattle.rbc_train.specs.rbc_place.Places.{place_of};
ghost use Rattle.rbc_train.specs.Desks.{mission_by};
ghost use Rattle.rbc_session.specs.SessionStates.{phase_of};
ghost use Rattle.rbc_centre.specs.Answer.{Steps, IsWantedBy, IsRefusalOf, TakesMemory};
ghost use Rattle.rbc_centre.specs.Kept.{IsCentre};
ghost use Rattle.rbc_centre.specs.Views.{event_of, outcome_of, frame_number, handing_at};

use crate::desk::Desk;
use crate::event::Event;
use crate::fault::StepFault;
use crate::frame_room::FrameRoom;
use crate::frames::MOST_TO_ONE;
use crate::keeping::{end_trains, unknown_trains};
use crate::outcome::Outcome;
use rbc_book::{Book, Page};
use rbc_handover::HandoverCount;
use rbc_line::{Line, SectionRun};
use rbc_link::Links;
use rbc_linkmsg::{Body, Frame};
use rbc_right::Registrar;
use rbc_session::{Phase, Sessions};
use rbc_train::{Heard, TrainPage, TrainState};
use std::alloc::{AllocError, Global};
use std::cmp::max;

/// The greatest stamp of a step.
pub const LAST_STAMP: u32 = 1_073_741_823;

// The view of a train from which no message was received.
const UNKNOWN: TrainPage = TrainPage {
    phase: Phase::Closed,
    heard: None,
    said: 0,
    mission: None,
    hand: SectionRun { first: 0, count: 0 },
    pool: SectionRun { first: 0, count: 0 },
    waiting: None,
};

/// A radio block centre.
pub struct Centre {
    pub(crate) line: Line,
    pub(crate) number: u8,
    /// The stamp of the last step, 0 before the first.
    pub(crate) clock: u32,
    /// The use of its home sections.
    pub(crate) book: Book,
    /// The supervision rights that are here, and the handovers that were announced.
    pub(crate) desk: Desk,
    /// The communication sessions with its trains.
    pub(crate) sessions: Sessions,
    /// The frames that arrived from the other centres, and those sent to them.
    pub(crate) links: Links<Body>,
    /// Room for the frames of one step.
    pub(crate) room: FrameRoom,
    /// The effect of a message or a frame. Each that a train takes is written over the one before.
    pub(crate) heard: Heard,
    /// The state of each train, in the order of the line file.
    pub(crate) trains: Vec<TrainState>,
    ghost rules: { IsCentre line number clock book desk sessions links trains.items },
}

impl Drop for Centre {
    // Each session ends with its centre, and so does each mission.
    fn drop(self) {
        let Centre {
            line: _,
            number: _,
            clock: _,
            mut book,
            desk: _,
            mut sessions,
            links: _,
            room: _,
            heard: _,
            trains,
        } = self;
        end_trains(trains, &mut sessions, &mut book);
    }
}

impl Centre {
    ghost use Rattle.rbc_centre.specs.States.{line_of, number_of, state_of, IsSame};
    ghost use Rattle.rbc_centre.specs.Taken.{HasRoomToSend, MayTake};

    /// A centre of the line in its initial state. It keeps a copy of the line.
    pub fn new(alloc: Global, line: &Line, number: u8) -> Result<Centre, AllocError>
        requires { is_centre line.now number ≡ true }
        ensures line { IfOk result (λ k. line_of k ≡ line.now) }
        ensures number { IfOk result (λ k. number_of k ≡ number) }
        ensures beginning { IfOk result (λ k. state_of k ≡ beginning line.now number) }
    {
        let line = line.copied(alloc)?;
        let mut book = Book::new(alloc, &line, number)?;
        let registrar = Registrar::new(alloc, &line, number)?;
        let handovers = HandoverCount::new();
        let mut sessions = Sessions::new(alloc);
        let links = Links::new(alloc, &line, number)?;
        let trains = unknown_trains(alloc, &line, &mut sessions, &mut book)?;
        Ok(Centre {
            line,
            number,
            clock: 0,
            book,
            desk: Desk {
                registrar,
                handovers,
            },
            sessions,
            links,
            room: FrameRoom::new(alloc),
            heard: Heard::nothing(),
            trains,
        })
    }

    /// The number of the centre.
    pub fn number(&self) -> u8
        ensures { result ≡ number_of self.now }
    {
        self.number
    }

    /// The page of a section in the centre's book; a number that is not of a section is shut.
    pub fn page(&self, s: u16) -> Page
        ensures entry { entry_of result.entry ≡ (state_of self.now).book s }
        ensures wish { result.is_wished ≡ (state_of self.now).wish s }
    {
        self.book.page(s)
    }

    /// The centre's view of a train; an engine that is not of the line has sent no message.
    pub fn train(&self, nid_engine: u32) -> TrainPage
        ensures phase { phase_of result.phase ≡ (state_of self.now).phase nid_engine }
        ensures heard { result.heard ≡ (state_of self.now).heard nid_engine }
        ensures said { result.said ≡ (state_of self.now).said nid_engine }
        ensures mission { mission_by result.mission result.hand result.pool
            (handing_at ((state_of self.now).mission nid_engine)) ≡ (state_of self.now).mission nid_engine }
        ensures hand { run_of result.hand
            ≡ option_map_or (λ m. m.hand) ((state_of self.now).mission nid_engine) no_run }
        ensures pool { run_of result.pool
            ≡ option_map_or (λ m. m.pool) ((state_of self.now).mission nid_engine) no_run }
        ensures waiting { option_map place_of result.waiting ≡ (state_of self.now).wait nid_engine }
    {
        match self.line.train_number(nid_engine) {
            Some(i) => self.trains[i as usize].page(),
            None => UNKNOWN,
        }
    }

    /// The frame of this number that was sent to a centre. It is `None` if and only if the number is 0 or was not sent
    /// yet.
    #[inline(always)]
    pub fn frame(&self, to: u8, number: u32) -> Option<Frame>
        ensures { result ≡ frame_number ((state_of self.now).sent to) number }
    {
        let sent = self.links.get(to, number)?;
        Some(Frame::new(sent.number, sent.stamp, sent.body))
    }

    /// The number of frames sent to a centre. It is the number of the last.
    pub fn sent(&self, to: u8) -> u32
        ensures { result ≡ length ((state_of self.now).sent to) }
    {
        self.links.sent(to)
    }

    /// The number of frames taken from a centre. It is the number of the last.
    pub fn taken(&self, from: u8) -> u32
        ensures { result ≡ (state_of self.now).taken from }
    {
        self.links.taken(from)
    }

    /// Whether an event may be taken. It is refused as `ClockEnd` if its stamp would pass the last one. Else it is
    /// refused as `LinkFull` if a link has fewer than four numbers left.
    pub fn may_step(&self, event: &Event) -> Result<(), StepFault>
        ensures ok { OnOk result
            (refusal (line_of self.now) (number_of self.now) (state_of self.now) (event_of event.now) ≡ None) }
        ensures err { IfErr result
            (λ fault. IsRefusalOf fault
            (refusal (line_of self.now) (number_of self.now) (state_of self.now) (event_of event.now))) }
    {
        match event {
            Event::Train(_) | Event::Set(_) | Event::Unset(_) => self.may_take(self.clock),
            Event::Deliver { frame, .. } => self.may_take(max(self.clock, frame.stamp())),
        }
    }

    // Makes room for the frames of one step. A refusal changes only the room.
    #[inline(always)]
    pub(crate) fn reserve_frames(&mut self) -> Result<(), AllocError>
        ensures same { IsSame self.old self.new }
        ensures room { OnOk result (HasRoomToSend self.new) }
    {
        self.links.reserve(MOST_TO_ONE)?;
        self.room.reserve()
    }

    // Whether an event whose stamp is one above this may be taken.
    #[inline(always)]
    pub(crate) fn may_take(&self, stamp: u32) -> Result<(), StepFault>
        ensures ok { OnOk result ((event : spec.Event) → stamp_of (state_of self.now) event ≡ stamp + 1
            → refusal (line_of self.now) (number_of self.now) (state_of self.now) event ≡ None) }
        ensures err { IfErr result
            (λ fault. (event : spec.Event) → stamp_of (state_of self.now) event ≡ stamp + 1
            → IsRefusalOf fault (refusal (line_of self.now) (number_of self.now) (state_of self.now) event)) }
    {
        if stamp >= LAST_STAMP {
            return Err(StepFault::ClockEnd);
        }
        if self.links.is_full() {
            return Err(StepFault::LinkFull);
        }
        Ok(())
    }

    /// Takes an event, and answers it. A refused event changes nothing. It is refused if its stamp would pass the last
    /// one, if a link is nearly full, or if memory runs out. Memory is needed only to open a session and to send
    /// frames. Of arriving frames, only the next of its sender needs it.
    pub fn step(&mut self, event: &Event) -> Result<Outcome, StepFault>
        ensures line { line_of self.new ≡ line_of self.old }
        ensures number { number_of self.new ≡ number_of self.old }
        ensures exact { Steps (λ o. (outcome_of o, state_of self.new)) result
            (spec.step (line_of self.old) (number_of self.old) (event_of event.now) (state_of self.old)) }
        ensures memory { IsWantedBy (state_of self.old) (event_of event.now) result }
        ensures err { OnErr result (state_of self.new ≡ state_of self.old) }
    {
        let mut out = Outcome::nothing();
        match self.step_to(event, &mut out) {
            Ok(()) => Ok(out),
            Err(fault) => Err(fault),
        }
    }

    /// The same step, which writes its outcome over `out`, and uses its list of frames again. If it is refused, `out`
    /// has no meaning.
    #[inline(always)]
    pub fn step_to(&mut self, event: &Event, out: &mut Outcome) -> Result<(), StepFault>
        ensures line { line_of self.new ≡ line_of self.old }
        ensures number { number_of self.new ≡ number_of self.old }
        ensures exact { Steps (λ u. (outcome_of out.new, state_of self.new)) result
            (spec.step (line_of self.old) (number_of self.old) (event_of event.now) (state_of self.old)) }
        ensures memory { IsWantedBy (state_of self.old) (event_of event.now) result }
        ensures err { OnErr result (state_of self.new ≡ state_of self.old) }
    {
        self.may_step(event)?;
        self.step_allowed(event, out)?;
        Ok(())
    }

    /// The same step, of an event that may be taken (`may_step`), so that it is refused only if memory runs out.
    #[inline(always)]
    pub fn step_allowed(&mut self, event: &Event, out: &mut Outcome) -> Result<(), AllocError>
        requires allowed { MayTake self.old (event_of event.now) }
        ensures line { line_of self.new ≡ line_of self.old }
        ensures number { number_of self.new ≡ number_of self.old }
        ensures exact { OnOk result
            (spec.step (line_of self.old) (number_of self.old) (event_of event.now) (state_of self.old)
            ≡ Ok (outcome_of out.new, state_of self.new)) }
        ensures memory { OnErr result (TakesMemory (state_of self.old) (event_of event.now)) }
        ensures err { OnErr result (state_of self.new ≡ state_of self.old) }
    {
        match event {
            Event::Train(message) => self.take(message, out)?,
            Event::Set(s) => self.set(*s, out),
            Event::Unset(s) => self.unset(*s, out)?,
            Event::Deliver { from, frame } => self.deliver(*from, frame, out)?,
        }
        Ok(())
    }
}
