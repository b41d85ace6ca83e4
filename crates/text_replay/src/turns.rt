//! The values of several things over the events, as of trains: of each those that differ from the value before.

ghost use Rattle.std.specs.Prelude.{◌≡◌, [], option_map, slice_get, unwrap_or, OnOk};
ghost use Rattle.text_replay.specs.Turned.{turned};

use std::alloc::{AllocError, Global};

/// A value, and the event from which on it is so.
#[derive(Clone, Copy)]
pub struct Turn<T> {
    pub value: T,
    pub since: usize,
}

/// The values of each thing, by the things' numbers. Events are numbered from 0, from the first noted one.
#[derive(Drop)]
pub struct Turns<T> {
    lists: Vec<Vec<Turn<T>>>,
}

impl<T: Copy + PartialEq> Turns<T> {
    /// Starts without a noted event, for `count` things.
    pub fn new(alloc: Global, count: usize) -> Result<Turns<T>, AllocError> {
        let mut lists = Vec::new(alloc);
        for _ in 0..count {
            lists.push(Vec::new(alloc))?;
        }
        Ok(Turns { lists })
    }

    /// Notes the value of a thing after an event. Each thing is noted at each event, in order.
    pub fn note(&mut self, number: usize, event: usize, value: T) -> Result<(), AllocError> {
        match self.lists.get_mut(number) {
            Some(turns) => note_value(turns, event, value),
            None => Ok(()),
        }
    }

    /// The values of a thing, in order.
    pub fn of(&self, number: usize) -> &[Turn<T>]
        ensures { result.now
            ≡ unwrap_or (option_map (λ turns. turns.items) (slice_get self.now.lists.items number)) [] }
    {
        match self.lists.get(number) {
            Some(turns) => turns,
            None => &[],
        }
    }

    /// The value of a thing after a noted event.
    pub fn at(&self, number: usize, event: usize) -> Option<T> {
        let turns = self.of(number);
        let after = turns.partition_point(|turn| turn.since <= event);
        let turn = turns.get(after.checked_sub(1)?)?;
        Some(turn.value)
    }
}

// Adds a value if it differs from the last one.
fn note_value<T: Copy + PartialEq>(
    turns: &mut Vec<Turn<T>>,
    event: usize,
    value: T,
) -> Result<(), AllocError>
    ensures { OnOk result (turns.new.items ≡ turned T.eq event value turns.old.items) }
{
    match turns.last() {
        Some(turn) if turn.value == value => Ok(()),
        _ => {
            turns.push(Turn {
                value,
                since: event,
            })?;
            Ok(())
        }
    }
}
