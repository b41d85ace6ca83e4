//! The changes of the view by an event, and by the messages and replies after it.

ghost use Rattle.std.specs.Prelude.{◌≡◌, map, None, OnOk, option_and_then, option_map, true, if◌then◌else◌};
ghost use Rattle.law_outside.specs.Outside as spec;
ghost use Rattle.rbc_msgs.specs.StepMessage as message;
ghost use Rattle.rbc_msgs.specs.StepMessage.{step_body, step_message};
ghost use Rattle.rbc_spec.specs.Outcome.{Done};
ghost use Rattle.rbc_watch.specs.Events.{event_of, saying_of, sees_exchange, word_of};
ghost use Rattle.rbc_watch.specs.Seen.{released_on, view_of};
ghost use Rattle.rbc_watch.specs.Steps.{less, started_at};
ghost use Rattle.rbc_watch.specs.Stretches.{stretch_of};

use crate::event::{Event, Exchange};
use crate::spoken::{Saying, Word};
use crate::stretch::{Stretch, accepted, begun};
use crate::view::View;
use rbc_line::Line;
use rbc_msgs::{TrackBody, TrainBody, TrainMsg};
use rbc_packets::Position;
use rbc_place::extent;
use rbc_vars::{LEndsection, QStatus};
use std::alloc::AllocError;

impl View {
    /// An event, and the messages and replies after it.
    pub(crate) fn see(&mut self, line: &Line, exchange: &Exchange) -> Result<(), AllocError>
        ensures { OnOk result (view_of self.new ≡ sees_exchange line.now exchange.now (view_of self.old)) }
    {
        let event = &exchange.event;
        let Some(spoken) = &exchange.spoken else {
            return Ok(());
        };
        if spoken.is_heard {
            self.hear(line, event)?;
        }
        self.tell_all(line, event, &spoken.sayings)?;
        self.reply_all(event, &spoken.words)
    }

    /// An event that was accepted.
    fn hear(&mut self, line: &Line, event: &Event) -> Result<(), AllocError>
        ensures { OnOk result (view_of self.new
            ≡ spec.said_by line.now (event_of event.now) true (view_of self.old)) }
    {
        match event {
            Event::Bytes {
                centre,
                read: Ok(message),
            } => self.say(line, *centre, message),
            _ => Ok(()),
        }
    }

    /// A message of a train to a centre.
    fn say(&mut self, line: &Line, c: u8, message: &TrainMsg) -> Result<(), AllocError>
        ensures { OnOk result (view_of self.new
            ≡ spec.says line.now c (step_message message.now) (step_body message.now.body) (view_of self.old)) }
    {
        let nid_engine = message.nid_engine();
        match message.body() {
            TrainBody::StartOfMission { q_status, position } => {
                let start = start_of(line, message.t_train(), *q_status, position);
                self.set_start(nid_engine, c, start)
            }
            TrainBody::InitiationOfSession | TrainBody::TerminationOfSession => {
                self.set_start(nid_engine, c, None)
            }
            _ => self.give_up(line, c, message),
        }
    }

    /// A train gives up the part of its stretch that its message takes back.
    #[tactic(auto, using(crate::proofs::Views::nothing_less, crate::proofs::Views::one_less))]
    fn give_up(&mut self, line: &Line, c: u8, message: &TrainMsg) -> Result<(), AllocError>
        ensures { OnOk result (view_of self.new
            ≡ less line.now c (step_message message.now) (view_of self.old)) }
    {
        let nid_engine = message.nid_engine();
        let Some(x) = self.stretch(nid_engine) else {
            return Ok(());
        };
        let rest = x.after(line, c, message.t_train(), message.body());
        self.get(nid_engine, Some(rest))
    }

    /// Messages to trains, in order.
    fn tell_all(&mut self, line: &Line, event: &Event, sayings: &[Saying]) -> Result<(), AllocError>
        ensures { OnOk result (view_of self.new
            ≡ spec.all_told line.now (event_of event.now) (map saying_of sayings.now) (view_of self.old)) }
    {
        for saying in sayings {
            self.tell(line, event, saying)?;
        }
        Ok(())
    }

    /// A message to a train.
    fn tell(&mut self, line: &Line, event: &Event, saying: &Saying) -> Result<(), AllocError>
        ensures { OnOk result (view_of self.new
            ≡ spec.is_told line.now (event_of event.now) (saying_of saying.now) saying.now.message.body
            (view_of self.old)) }
    {
        match saying.message.body() {
            TrackBody::TrainAccepted => self.accept(saying.nid_engine, event.centre()),
            TrackBody::TrainRejected => self.set_start(saying.nid_engine, event.centre(), None),
            TrackBody::Authority(authority) => {
                let x = self.extended(line, event, saying, authority.l_endsection);
                self.get(saying.nid_engine, x)
            }
            TrackBody::ShorteningRequest(authority) => {
                let x = self.asked(line, event.centre(), saying, authority.l_endsection);
                self.get(saying.nid_engine, x)
            }
            _ => Ok(()),
        }
    }

    /// The start of a train at a centre is accepted.
    fn accept(&mut self, nid_engine: u32, c: u8) -> Result<(), AllocError>
        ensures { OnOk result (view_of self.new
            ≡ spec.gets nid_engine
            (option_and_then (spec.accepted ((view_of self.old).stretch nid_engine))
            ((view_of self.old).start nid_engine c))
            (spec.starts nid_engine c None (view_of self.old))) }
    {
        let x = self.started(nid_engine, c);
        self.set_start(nid_engine, c, None)?;
        self.get(nid_engine, x)
    }

    /// The stretch of a train after its start at a centre is accepted.
    fn started(&self, nid_engine: u32, c: u8) -> Option<Stretch>
        ensures { option_map stretch_of result
            ≡ option_and_then (spec.accepted ((view_of self.now).stretch nid_engine))
            ((view_of self.now).start nid_engine c) }
    {
        let start = self.start(nid_engine, c)?;
        accepted(self.stretch(nid_engine), start)
    }

    /// The stretch of a train after an authority.
    fn extended(
        &self,
        line: &Line,
        event: &Event,
        saying: &Saying,
        end: LEndsection,
    ) -> Option<Stretch>
        ensures { option_map stretch_of result
            ≡ option_and_then (spec.extended line.now (event_of event.now) saying.now.nid_engine
            saying.now.message.nid_lrbg end) ((view_of self.now).stretch saying.now.nid_engine) }
    {
        let x = self.stretch(saying.nid_engine)?;
        x.extended(line, event, saying, end)
    }

    /// The stretch of a train after a request of this centre to shorten.
    fn asked(&self, line: &Line, c: u8, saying: &Saying, end: LEndsection) -> Option<Stretch>
        ensures { option_map stretch_of result
            ≡ option_and_then (spec.asked_for line.now c saying.now.message.t_train saying.now.message.nid_lrbg end)
            ((view_of self.now).stretch saying.now.nid_engine) }
    {
        let x = self.stretch(saying.nid_engine)?;
        x.asked_for(line, c, &saying.message, end)
    }

    /// Replies to the interlocking, in order.
    fn reply_all(&mut self, event: &Event, words: &[Word]) -> Result<(), AllocError>
        ensures { OnOk result (view_of self.new
            ≡ spec.all_heard (event_of event.now) (map word_of words.now) (view_of self.old)) }
    {
        for word in words {
            self.reply(event, word)?;
        }
        Ok(())
    }

    /// A reply to the interlocking.
    fn reply(&mut self, event: &Event, word: &Word) -> Result<(), AllocError>
        ensures { OnOk result (view_of self.new
            ≡ spec.hears (event_of event.now) (word_of word.now) (view_of self.old)) }
    {
        match word {
            Word::Done(s) => self.finish(event, *s),
            Word::Told(s) => {
                self.take_back(*s);
                Ok(())
            }
            Word::Asked(_) | Word::NotHome(_) => Ok(()),
        }
    }

    /// The event is done for a section. Done counts only for the section that the interlocking has set.
    fn finish(&mut self, event: &Event, s: u16) -> Result<(), AllocError>
        ensures { OnOk result (view_of self.new
            ≡ spec.hears (event_of event.now) (Done s) (view_of self.old)) }
    {
        match event {
            Event::Set { section, .. } => self.release_if(s == *section, s),
            Event::Unset { section, .. } => {
                self.take_back(*section);
                Ok(())
            }
            Event::Bytes { .. } | Event::Delivery { .. } => Ok(()),
        }
    }

    fn release_if(&mut self, is_set: bool, s: u16) -> Result<(), AllocError>
        ensures { OnOk result (view_of self.new
            ≡ (if is_set then released_on s true (view_of self.old) else view_of self.old)) }
    {
        if is_set {
            self.release(s)?;
        }
        Ok(())
    }
}

/// The stretch of a start of mission, if its place is valid and known.
fn start_of(line: &Line, t_train: u32, status: QStatus, position: &Position) -> Option<Stretch>
    ensures { option_map stretch_of result
        ≡ started_at line.now t_train (message.is_valid status) (message.position_of position.now) }
{
    if !matches!(status, QStatus::Valid) {
        return None;
    }
    begun(line, t_train, extent(line, position)?)
}
