ghost use Rattle.std.specs.Prelude.{◌≡◌, ◌<◌, ℕ, true, length, slice_get, IfOk, IfSome, OnErr, Some};
ghost use Rattle.rbc_spec.specs.Line.{IsLine, is_centre};
ghost use Rattle.rbc_spec.specs.World.{new_world, world_step, at_centre, takes, frame_sent, Bytes, Delivery};
ghost use Rattle.rbc_msgs.specs.TrainReading.{read_train};
ghost use Rattle.rbc_world.specs.States.{AtBeginning, stands_for};
ghost use Rattle.rbc_world.specs.Reached.{WasReached, MayBeTold};
ghost use Rattle.rbc_world.specs.Stepped.{KeepsTheorems, IsWorldOf};
ghost use Rattle.rbc_world.specs.Named.{AreOfLine, mentioned};
ghost use Rattle.rbc_centre.specs.declared.centre.Centre.{Centre};
ghost use Rattle.rbc_centre.specs.States as one;
ghost use Rattle.rbc_centre.specs.Views.{event_of as one_event};

use crate::event::{Answer, WorldEvent};
use crate::hearing::{add_mention, first_mention, make_room};
use indexmap::IndexSet;
use rbc_centre::{Centre, Event, Frame, StepFault};
use rbc_line::Line;
use rbc_msgs::{MsgFault, decode_train};
use std::alloc::{AllocError, Global};

/// The centres of a line side by side.
#[derive(Drop)]
pub struct World {
    alloc: Global,
    pub(crate) line: Line,
    pub(crate) centres: Vec<Centre>,
    /// The trains of the line that messages have named, in the order of first mention.
    pub(crate) trains: IndexSet<u32>,
    ghost each_centre: { length centres.items ≡ length line.centres },
    ghost one_line: { (c : ℕ) → (k : Centre) → slice_get centres.items c ≡ Some k → one.line_of k ≡ line },
    ghost in_order: { (c : ℕ) → (k : Centre) → slice_get centres.items c ≡ Some k → one.number_of k ≡ c },
    ghost are_of_line: { AreOfLine line trains.keys },
    ghost reached: { ∥ WasReached line (stands_for line centres.items trains.keys) ∥₁ },
}

impl World {
    ghost use Rattle.rbc_world.specs.World.{line_of, state_of};
    ghost use Rattle.rbc_world.specs.Views.{event_of, answer_of, nothing_answered, numbered};
    ghost use Rattle.rbc_world.specs.Answers.{Gives, TakesMemory, BytesTakeMemory, EventTakesMemory};
    ghost use Rattle.rbc_world.specs.Answers.{IsNextSent, IfWanted};

    /// The centres of the line in their initial state. A copy of the line is kept.
    pub fn new(alloc: Global, line: &Line) -> Result<World, AllocError>
        ensures line { IfOk result (λ w. line_of w ≡ line.now) }
        ensures beginning { IfOk result (λ w. state_of w ≡ new_world line.now) }
        ensures reached { IfOk result (λ w. ∥ WasReached (line_of w) (state_of w) ∥₁) }
    {
        Ok(World {
            alloc,
            line: line.copied(alloc)?,
            centres: centres_of(alloc, line)?,
            trains: IndexSet::new(alloc),
        })
    }

    /// The trains of the line that messages at its centres have named, in the order of first mention.
    #[tactic(auto, unfolding(crate::specs::States::stands_for))]
    pub fn trains(&self) -> &IndexSet<u32>
        ensures { result.now.keys ≡ (state_of self.now).trains }
    {
        &self.trains
    }

    /// Takes an event, and answers it. A refusal changes nothing: memory, stamps, or the numbers of a link have run
    /// out.
    pub fn step(&mut self, event: &WorldEvent) -> Result<Answer, StepFault>
        ensures line { line_of self.new ≡ line_of self.old }
        // The answer and the new state are those of the definition of a world's step.
        ensures exact { Gives (λ a. (answer_of a, state_of self.new)) result
            (world_step (line_of self.old) (state_of self.old) (event_of event.now)) }
        ensures theorems { IfOk result
            (λ a. KeepsTheorems (line_of self.old) (state_of self.old) (event_of event.now) (answer_of a)
            (state_of self.new)) }
        ensures world { IsWorldOf (line_of self.new) (state_of self.new) }
        // Only three events need memory. A train's bytes, at a centre of the line, need it for kept packets, a session,
        // a frame or a first mention. An unset needs it if the section is out. A frame needs it if it is the next of
        // its link.
        ensures memory { IfWanted result (TakesMemory (line_of self.old) (state_of self.old) event.now) }
        ensures err { OnErr result (state_of self.new ≡ state_of self.old) }
    {
        let mut answer = Answer::nothing();
        match self.step_to(event, &mut answer) {
            Ok(()) => Ok(answer),
            Err(fault) => Err(fault),
        }
    }

    /// The same step, which writes its answer over one that the caller lends. The list of frames in a lent outcome is
    /// used again. A refusal leaves the empty outcome.
    pub fn step_to(&mut self, event: &WorldEvent, answer: &mut Answer) -> Result<(), StepFault>
        ensures line { line_of self.new ≡ line_of self.old }
        ensures exact { Gives (λ u. (answer_of answer.new, state_of self.new)) result
            (world_step (line_of self.old) (state_of self.old) (event_of event.now)) }
        ensures theorems { IfOk result
            (λ u. KeepsTheorems (line_of self.old) (state_of self.old) (event_of event.now) (answer_of answer.new)
            (state_of self.new)) }
        ensures world { IsWorldOf (line_of self.new) (state_of self.new) }
        ensures memory { IfWanted result (TakesMemory (line_of self.old) (state_of self.old) event.now) }
        ensures err { OnErr result (state_of self.new ≡ state_of self.old) }
        ensures refused { OnErr result (answer_of answer.new ≡ nothing_answered) }
    {
        known_line(&self.line);
        self.write_answer(event, answer)
    }

    // Writes the answer over the one that is lent.
    #[inline(always)]
    fn write_answer(&mut self, event: &WorldEvent, answer: &mut Answer) -> Result<(), StepFault>
        ensures line { line_of self.new ≡ line_of self.old }
        ensures exact { Gives (λ u. (answer_of answer.new, state_of self.new)) result
            (world_step (line_of self.old) (state_of self.old) (event_of event.now)) }
        ensures memory { IfWanted result (TakesMemory (line_of self.old) (state_of self.old) event.now) }
        ensures err { OnErr result (state_of self.new ≡ state_of self.old) }
        ensures refused { OnErr result (answer_of answer.new ≡ nothing_answered) }
    {
        match self.take(event, answer) {
            Ok(()) => Ok(()),
            Err(fault) => {
                answer.clear();
                Err(fault)
            }
        }
    }

    #[inline(always)]
    fn take(&mut self, event: &WorldEvent, answer: &mut Answer) -> Result<(), StepFault>
        ensures line { line_of self.new ≡ line_of self.old }
        ensures exact { Gives (λ u. (answer_of answer.new, state_of self.new)) result
            (world_step (line_of self.old) (state_of self.old) (event_of event.now)) }
        ensures memory { IfWanted result (TakesMemory (line_of self.old) (state_of self.old) event.now) }
        ensures err { OnErr result (state_of self.new ≡ state_of self.old) }
    {
        match event {
            WorldEvent::Train { centre, bytes } => self.receive(*centre, bytes, answer),
            WorldEvent::Set { centre, section } => {
                self.tell(*centre, &Event::Set(*section), answer)
            }
            WorldEvent::Unset { centre, section } => {
                self.tell(*centre, &Event::Unset(*section), answer)
            }
            WorldEvent::Deliver { from, to, number } => self.deliver(*from, *to, *number, answer),
        }
    }

    // A centre takes an event that it may get, such as a frame that was sent to it. Room for a first mention is made
    // first.
    #[inline(always)]
    fn tell(&mut self, c: u8, event: &Event, answer: &mut Answer) -> Result<(), StepFault>
        requires { MayBeTold (state_of self.old) c event.now }
        ensures line { line_of self.new ≡ line_of self.old }
        ensures exact { Gives (λ u. (answer_of answer.new, state_of self.new)) result
            (at_centre (line_of self.old) (state_of self.old) c
            (takes (line_of self.old) (state_of self.old) c
            (mentioned (line_of self.old) event.now (state_of self.old).trains) (one_event event.now))) }
        ensures memory { IfWanted result (EventTakesMemory (line_of self.old) (state_of self.old) c event.now) }
        ensures err { OnErr result (state_of self.new ≡ state_of self.old) }
    {
        if c as usize >= self.centres.len() {
            *answer = Answer::NoCentre;
            return Ok(());
        }
        let first = first_mention(&self.line, &self.trains, event);
        make_room(&mut self.trains, first)?;
        answer.make_outcome();
        let Answer::Outcome(out) = answer else {
            unreachable!()
        };
        self.centres[c as usize].step_to(event, out)?;
        add_mention(&mut self.trains, first);
        Ok(())
    }

    // The frame that one centre sent to another under this number is delivered.
    fn deliver(
        &mut self,
        from: u8,
        to: u8,
        number: u32,
        answer: &mut Answer,
    ) -> Result<(), StepFault>
        ensures line { line_of self.new ≡ line_of self.old }
        ensures exact { Gives (λ u. (answer_of answer.new, state_of self.new)) result
            (world_step (line_of self.old) (state_of self.old) (Delivery from to number)) }
        ensures memory { IfWanted result (IsNextSent (state_of self.old) from to number) }
        ensures err { OnErr result (state_of self.new ≡ state_of self.old) }
    {
        match self.frame_sent(from, to, number) {
            Some(frame) => self.tell(to, &Event::Deliver { from, frame }, answer),
            None => {
                *answer = Answer::NotSent;
                Ok(())
            }
        }
    }

    // The frame that one centre sent to another under this number. Frames are sent only to centres of the line.
    #[inline(always)]
    pub(crate) fn frame_sent(&self, from: u8, to: u8, number: u32) -> Option<Frame>
        ensures value { result ≡ frame_sent (state_of self.now) from to number }
        ensures receiver { IfSome result (λ f. is_centre (line_of self.now) to ≡ true) }
    {
        known_line(&self.line);
        if (from as usize) < self.centres.len() {
            self.centres[from as usize].frame(to, number)
        } else {
            None
        }
    }

    // Bytes from a train arrive at a centre.
    #[inline(always)]
    fn receive(&mut self, c: u8, bytes: &[u8], answer: &mut Answer) -> Result<(), StepFault>
        ensures line { line_of self.new ≡ line_of self.old }
        ensures exact { Gives (λ u. (answer_of answer.new, state_of self.new)) result
            (world_step (line_of self.old) (state_of self.old) (Bytes c (numbered (read_train bytes.now)))) }
        ensures memory { IfWanted result
            ((is_centre (line_of self.old) c ≡ true)
            × BytesTakeMemory (line_of self.old) (state_of self.old).trains (read_train bytes.now)) }
        ensures err { OnErr result (state_of self.new ≡ state_of self.old) }
    {
        if c as usize >= self.centres.len() {
            *answer = Answer::NoCentre;
            return Ok(());
        }
        match decode_train(self.alloc, bytes) {
            Ok(message) => self.tell(c, &Event::Train(message), answer),
            Err(fault) => match fault {
                MsgFault::Memory => Err(StepFault::Memory),
                _ => {
                    *answer = Answer::Fault(fault);
                    Ok(())
                }
            },
        }
    }
}

// Every rule of a line holds of each line.
pub(crate) fn known_line(line: &Line)
    ensures { IsLine line.now }
{
    line.centre_count();
}

// The centres of the line, in order.
fn centres_of(alloc: Global, line: &Line) -> Result<Vec<Centre>, AllocError>
    ensures count { IfOk result (λ centres. length centres.items ≡ length line.now.centres) }
    ensures each { IfOk result
        (λ centres. (c : ℕ) → (k : Centre) → slice_get centres.items c ≡ Some k → AtBeginning line.now c k) }
{
    let mut centres = Vec::new(alloc);
    for c in 0..line.centre_count() {
        centres.push(Centre::new(alloc, line, c)?)?;
    }
    Ok(centres)
}
