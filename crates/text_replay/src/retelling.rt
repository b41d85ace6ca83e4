//! Puts the lines of a print into words while its events are played again.

ghost use Rattle.std.specs.Prelude.{◌≡◌, ◌==◌, Ok, OnOk, option_map};
ghost use Rattle.std.specs.List.{find};
ghost use Rattle.rbc_spec.specs.World.{centre_of, world_step};
ghost use Rattle.text_script.specs.rbc_world.Views.{answer_of, event_of, nothing_answered};
ghost use Rattle.text_script.specs.rbc_world.World.{line_of, state_of};
ghost use Rattle.text_script.specs.rbc_centre.Views.{outcome_of};
ghost use Rattle.rbc_linkmsg.specs.Bodies.{body_of};
ghost use Rattle.text_replay.specs.Told.{body_sent};

use crate::contents::{contents_in_words, name_of_body};
use crate::events::{EVENT, centre_of};
use rbc_line::Line;
use std::alloc::{AllocError, Global};
use text_script::script::{Entry, EntryFault, entry_of};
use text_script::{Answer, Body, Outcome, StepFault, World, WorldEvent};
use text_words::{Row, Told, line_in_words, row_of};

/// The line's centres after the events of a print so far.
#[derive(Drop)]
pub struct Retelling {
    world: World,
    /// The centre of the last event.
    centre: u8,
    /// The answer to the last event. It is empty once a line could not be played.
    answer: Answer,
    /// Whether a line could not be played.
    has_stopped: bool,
}

impl Retelling {
    /// The line's centres at their beginning.
    pub fn new(alloc: Global, line: &Line) -> Result<Retelling, AllocError> {
        Ok(Retelling {
            world: World::new(alloc, line)?,
            centre: 0,
            answer: Answer::nothing(),
            has_stopped: false,
        })
    }

    /// Plays the event of the next line of a print, and puts the line into words. None if `run` prints no such line. A
    /// frame has its contents if the answer to the last event has the frame; otherwise it has the meaning of its name.
    pub fn told(
        &mut self,
        alloc: Global,
        line: &Line,
        row: &str,
    ) -> Result<Option<Told>, AllocError> {
        if let Some(text) = row.strip_prefix(EVENT) {
            self.play(alloc, line, text)?;
        }
        let Some(mut told) = line_in_words(alloc, line, row)? else {
            return Ok(None);
        };
        if let Some(what) = self.frame_in_words(alloc, line, row)? {
            told.what = what;
        }
        Ok(Some(told))
    }

    // Plays a line of a script. Nothing is played after a line that has no form of one, or whose step is refused.
    fn play(&mut self, alloc: Global, line: &Line, text: &str) -> Result<(), AllocError> {
        if self.has_stopped {
            return Ok(());
        }
        let entry = match entry_of(alloc, line, text) {
            Ok(entry) => entry,
            Err(EntryFault::Memory) => return Err(AllocError),
            Err(EntryFault::Form) => {
                self.stop();
                return Ok(());
            }
        };
        if let Entry::Event(event) = entry {
            match self.take(&event) {
                Ok(()) => {}
                Err(StepFault::Memory) => return Err(AllocError),
                Err(_) => self.stop(),
            }
        }
        Ok(())
    }

    fn stop(&mut self)
        ensures { answer_of self.new.answer ≡ nothing_answered }
    {
        self.has_stopped = true;
        self.answer = Answer::nothing();
    }

    // Takes the step of an event.
    fn take(&mut self, event: &WorldEvent) -> Result<(), StepFault>
        ensures step { OnOk result (world_step (line_of self.old.world) (state_of self.old.world) (event_of event.now)
            ≡ Ok (answer_of self.new.answer, state_of self.new.world)) }
        ensures centre { OnOk result (self.new.centre ≡ centre_of (event_of event.now)) }
    {
        self.world.step_to(event, &mut self.answer)?;
        self.centre = centre_of(event);
        Ok(())
    }

    // The frame of a printed line with its contents. None if the answer to the last event has no such frame.
    fn frame_in_words(
        &self,
        alloc: Global,
        line: &Line,
        row: &str,
    ) -> Result<Option<String>, AllocError> {
        let words: Vec<&str> = row.split(' ').collect(alloc)?;
        let Some((number, body)) = self.frame_of(line, &words) else {
            return Ok(None);
        };
        let contents = contents_in_words(alloc, line, body)?;
        Ok(Some(format!(in alloc; "frame {number}: {contents}")?))
    }

    // The number and the body of the frame of a printed line, if the answer to the last event has the frame.
    fn frame_of(&self, line: &Line, words: &[&str]) -> Option<(u32, Body)> {
        match (row_of(line, words), words) {
            (
                Some(
                    Row::Frame {
                        from,
                        to,
                        number,
                        ..
                    },
                ),
                [.., name],
            ) => {
                let from = line.centre_named(from)?;
                let to = line.centre_named(to)?;
                let body = self.body_sent(from, to, number)?;
                if name_of_body(body) == *name {
                    Some((number, body))
                } else {
                    None
                }
            }
            _ => None,
        }
    }

    // The body of the frame of this number from one centre to another, if the answer to the last event has the frame.
    fn body_sent(&self, from: u8, to: u8, number: u32) -> Option<Body>
        ensures { option_map body_of result
            ≡ body_sent self.now.centre (answer_of self.now.answer) from to number }
    {
        match &self.answer {
            Answer::Outcome(outcome) if from == self.centre => body_in(outcome, to, number),
            _ => None,
        }
    }
}

fn body_in(outcome: &Outcome, to: u8, number: u32) -> Option<Body>
    ensures { option_map body_of result ≡ option_map (λ f. f.body)
        (find (λ f. f.number == number) ((outcome_of outcome.now).frames to)) }
{
    outcome
        .frames
        .to(to)
        .iter()
        .find(|frame| frame.number() == number)
        .map(|frame| frame.body())
}
