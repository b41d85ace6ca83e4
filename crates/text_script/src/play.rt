//! Plays a script on a world, and reports each step to an observer.

ghost use Rattle.std.specs.Prelude.{◌≡◌, ◌∷◌, [], OnOk};
ghost use Rattle.rbc_world.specs.World.{line_of, state_of};
ghost use Rattle.rbc_world.specs.Views.{answer_of};
ghost use Rattle.text_script.specs.declared.script.Entry.TheVariants as entry;
ghost use Rattle.text_script.specs.Played.{Telling, Showing, Coming, Answering, Leaves};

use crate::script::Entry;
use rbc_world::{Answer, StepFault, World, WorldEvent};

/// Receives each event of a script, and its answer.
pub trait Observer {
    /// Why the observer failed.
    type Fault: Drop;

    // The observer's state before a report, the report, and its state after it.
    ghost tells: { Self → Telling → Self → Type 0 };

    /// Reports that the script asks for the line, as the centres supervise it.
    fn show(&mut self, world: &World) -> Result<(), Self::Fault>
        ensures { OnOk result (tells self.old (Showing (line_of world.now) (state_of world.now)) self.new) };

    /// Reports an event, before the world takes it.
    fn comes(&mut self, event: &WorldEvent) -> Result<(), Self::Fault>
        ensures { OnOk result (tells self.old (Coming event.now) self.new) };

    /// Reports the answer to an event.
    fn answered(&mut self, event: &WorldEvent, answer: &Answer) -> Result<(), Self::Fault>
        ensures { OnOk result (tells self.old (Answering event.now (answer_of answer.now)) self.new) };
}

/// Why a script is not played to its end.
#[derive(Drop)]
pub enum PlayFault<F> {
    /// The world refused the step of an event.
    Refused(StepFault),
    /// The observer failed.
    Untold(F),
}

/// Plays a script's entries on a world in order, and reports each to the observer. It stops at the first event that is
/// refused: the entries before it have been reported, and no later one.
pub fn play<T: Observer>(
    world: &mut World,
    entries: &[Entry],
    observer: &mut T,
) -> Result<(), PlayFault<T::Fault>>
    ensures line { line_of world.new ≡ line_of world.old }
    ensures told { Leaves T.tells (line_of world.old) (state_of world.old) observer.old entries.now result
        (state_of world.new) observer.new }
{
    let mut answer = Answer::nothing();
    for entry in entries {
        play_one(world, entry, observer, &mut answer)?;
    }
    Ok(())
}

fn play_one<T: Observer>(
    world: &mut World,
    entry: &Entry,
    observer: &mut T,
    answer: &mut Answer,
) -> Result<(), PlayFault<T::Fault>>
    ensures line { line_of world.new ≡ line_of world.old }
    ensures told { Leaves T.tells (line_of world.old) (state_of world.old) observer.old (entry.now ∷ []) result
        (state_of world.new) observer.new }
{
    match entry {
        Entry::Show => show(world, observer),
        Entry::Event(event) => take(world, event, observer, answer),
    }
}

fn show<T: Observer>(world: &World, observer: &mut T) -> Result<(), PlayFault<T::Fault>>
    ensures { Leaves T.tells (line_of world.now) (state_of world.now) observer.old (entry.Show ∷ []) result
        (state_of world.now) observer.new }
{
    match observer.show(world) {
        Ok(()) => Ok(()),
        Err(fault) => Err(PlayFault::Untold(fault)),
    }
}

// The answer is written over the one that is lent.
fn take<T: Observer>(
    world: &mut World,
    event: &WorldEvent,
    observer: &mut T,
    answer: &mut Answer,
) -> Result<(), PlayFault<T::Fault>>
    ensures line { line_of world.new ≡ line_of world.old }
    ensures told { Leaves T.tells (line_of world.old) (state_of world.old) observer.old
        (entry.Event event.now ∷ []) result (state_of world.new) observer.new }
{
    if let Err(fault) = observer.comes(event) {
        return Err(PlayFault::Untold(fault));
    }
    if let Err(fault) = world.step_to(event, answer) {
        return Err(PlayFault::Refused(fault));
    }
    match observer.answered(event, answer) {
        Ok(()) => Ok(()),
        Err(fault) => Err(PlayFault::Untold(fault)),
    }
}
