ghost use Rattle.std.specs.Prelude.{◌≡◌, ◌∷◌, [], IfOk, OnErr, OnOk};
ghost use Rattle.rbc_spec.specs.World.{centre_of, new_world, world_step};
ghost use Rattle.text_script.specs.rbc_world.World.{line_of, state_of};
ghost use Rattle.text_script.specs.rbc_world.Views.{answer_of, event_of};
ghost use Rattle.text_script.specs.rbc_world.Answers.{Gives};
ghost use Rattle.text_script.specs.declared.script.Entry.TheVariants as entry;
ghost use Rattle.text_script.specs.Played.{Leaves};
ghost use Rattle.cli_storm.specs.Links.{all_links};
ghost use Rattle.cli_storm.specs.Storm.{Continues, after, deliveries, played_by, storm, with_delivery};

use crate::draws::Draws;
use crate::links::{Link, count_answer, draw_delivery, links_of};
use rbc_line::Line;
use std::alloc::{AllocError, Global};
use text_script::play::{Observer, PlayFault};
use text_script::script::Entry;
use text_script::{Answer, StepFault, World, WorldEvent};

/// The number of deliveries that are drawn after an event of the script.
const DELIVERIES: u8 = 4;

/// The centres of a line in a storm.
#[derive(Drop)]
pub struct Storm {
    world: World,
    links: Vec<Link>,
    draws: Draws,
    /// The answer to the last event, which the next is written over.
    answer: Answer,
    ghost counted: { links.items ≡ all_links (line_of world) (state_of world) },
}

impl Storm {
    /// Starts with new centres, and with draws from this seed.
    pub fn new(alloc: Global, line: &Line, seed: u64) -> Result<Storm, AllocError>
        ensures line { IfOk result (λ s. line_of s.world ≡ line.now) }
        ensures beginning { IfOk result (λ s. state_of s.world ≡ new_world line.now) }
        ensures seed { IfOk result (λ s. s.draws.x ≡ seed) }
    {
        Ok(Storm {
            world: World::new(alloc, line)?,
            links: links_of(alloc, line)?,
            draws: Draws { x: seed },
            answer: Answer::nothing(),
        })
    }

    /// The centres of the line.
    pub fn world(&self) -> &World
        ensures { result.now ≡ self.now.world }
    {
        &self.world
    }

    /// Plays a script's entries in order, and four drawn deliveries after each event. It reports each to the
    /// observer, as `play` does, and stops at the first event that is refused.
    pub fn play<T: Observer>(
        &mut self,
        entries: &[Entry],
        observer: &mut T,
    ) -> Result<(), PlayFault<T::Fault>>
        ensures line { line_of self.new.world ≡ line_of self.old.world }
        ensures told { Leaves T.tells (line_of self.old.world) (state_of self.old.world) observer.old
            (storm (line_of self.old.world) (state_of self.old.world) self.old.draws.x entries.now) result
            (state_of self.new.world) observer.new }
    {
        for entry in entries {
            self.play_one(entry, observer)?;
        }
        Ok(())
    }

    fn play_one<T: Observer>(
        &mut self,
        entry: &Entry,
        observer: &mut T,
    ) -> Result<(), PlayFault<T::Fault>>
        ensures line { line_of self.new.world ≡ line_of self.old.world }
        ensures told { Continues T.tells (line_of self.old.world) (state_of self.old.world) observer.old
            (played_by (line_of self.old.world) (state_of self.old.world) self.old.draws.x entry.now) result
            (state_of self.new.world) observer.new self.new.draws.x }
    {
        match entry {
            Entry::Show => self.show(observer),
            Entry::Event(event) => {
                self.take(event, observer)?;
                self.deliver(observer)
            }
        }
    }

    fn show<T: Observer>(&mut self, observer: &mut T) -> Result<(), PlayFault<T::Fault>>
        ensures same { self.new ≡ self.old }
        ensures told { Leaves T.tells (line_of self.old.world) (state_of self.old.world) observer.old
            (entry.Show ∷ []) result (state_of self.new.world) observer.new }
    {
        match observer.show(&self.world) {
            Ok(()) => Ok(()),
            Err(fault) => Err(PlayFault::Untold(fault)),
        }
    }

    // Plays the deliveries that are drawn after an event of the script.
    fn deliver<T: Observer>(&mut self, observer: &mut T) -> Result<(), PlayFault<T::Fault>>
        ensures line { line_of self.new.world ≡ line_of self.old.world }
        ensures told { Continues T.tells (line_of self.old.world) (state_of self.old.world) observer.old
            (deliveries 4 (line_of self.old.world) (state_of self.old.world) self.old.draws.x) result
            (state_of self.new.world) observer.new self.new.draws.x }
    {
        for _ in 0..DELIVERIES {
            self.deliver_one(observer)?;
        }
        Ok(())
    }

    // Plays one delivery, if one is drawn.
    fn deliver_one<T: Observer>(&mut self, observer: &mut T) -> Result<(), PlayFault<T::Fault>>
        ensures line { line_of self.new.world ≡ line_of self.old.world }
        ensures told { Continues T.tells (line_of self.old.world) (state_of self.old.world) observer.old
            (with_delivery (line_of self.old.world) (state_of self.old.world) self.old.draws.x) result
            (state_of self.new.world) observer.new self.new.draws.x }
    {
        match draw_delivery(&mut self.draws, &self.links) {
            Some(event) => self.take(&event, observer),
            None => Ok(()),
        }
    }

    // Reports an event, lets the centres take it, and reports its answer.
    fn take<T: Observer>(
        &mut self,
        event: &WorldEvent,
        observer: &mut T,
    ) -> Result<(), PlayFault<T::Fault>>
        ensures line { line_of self.new.world ≡ line_of self.old.world }
        ensures draws { self.new.draws ≡ self.old.draws }
        ensures left { OnOk result
            (state_of self.new.world ≡ after (line_of self.old.world) (state_of self.old.world) event.now) }
        ensures told { Leaves T.tells (line_of self.old.world) (state_of self.old.world) observer.old
            (entry.Event event.now ∷ []) result (state_of self.new.world) observer.new }
    {
        if let Err(fault) = observer.comes(event) {
            return Err(PlayFault::Untold(fault));
        }
        if let Err(fault) = self.step(event) {
            return Err(PlayFault::Refused(fault));
        }
        match observer.answered(event, &self.answer) {
            Ok(()) => Ok(()),
            Err(fault) => Err(PlayFault::Untold(fault)),
        }
    }

    // The centres take an event. The frames that they send are counted.
    fn step(&mut self, event: &WorldEvent) -> Result<(), StepFault>
        ensures line { line_of self.new.world ≡ line_of self.old.world }
        ensures draws { self.new.draws ≡ self.old.draws }
        ensures exact { Gives (λ u. (answer_of self.new.answer, state_of self.new.world)) result
            (world_step (line_of self.old.world) (state_of self.old.world) (event_of event.now)) }
        ensures err { OnErr result (state_of self.new.world ≡ state_of self.old.world) }
    {
        self.world.step_to(event, &mut self.answer)?;
        count_answer(&mut self.links, centre_of(event), &self.answer);
        Ok(())
    }
}

// The centre that takes the step of an event.
fn centre_of(event: &WorldEvent) -> u8
    ensures { result ≡ centre_of (event_of event.now) }
{
    match event {
        WorldEvent::Train { centre, .. } => *centre,
        WorldEvent::Set { centre, .. } => *centre,
        WorldEvent::Unset { centre, .. } => *centre,
        WorldEvent::Deliver { to, .. } => *to,
    }
}
