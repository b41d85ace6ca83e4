//! The states that a centre keeps of the trains of its line: made with the centre, and ended with it.

ghost use Rattle.std.specs.Prelude.{◌≡◌, ◌<◌, ℕ, slice_get, length, IfOk, Some, option_map};
ghost use Rattle.rbc_centre.specs.State.{IsUnknown};
ghost use Rattle.rbc_train.specs.declared.train.TrainState.{TrainState};

use rbc_book::Book;
use rbc_line::Line;
use rbc_session::Sessions;
use rbc_train::TrainState;
use std::alloc::{AllocError, Global};

/// The states of the trains of the line, none of which has sent a message. If memory runs out, those already made are
/// ended.
pub(crate) fn unknown_trains(
    alloc: Global,
    line: &Line,
    sessions: &mut Sessions,
    book: &mut Book,
) -> Result<Vec<TrainState>, AllocError>
    ensures count { IfOk result (λ trains. length trains.items ≡ length line.now.trains) }
    ensures each { IfOk result
        (λ trains. (i : ℕ) → (p : TrainState) → slice_get trains.items i ≡ Some p → IsUnknown line.now i p) }
    ensures sessions { IfOk result (λ trains. sessions.new ≡ sessions.old) }
    ensures book { IfOk result (λ trains. book.new ≡ book.old) }
{
    let count = line.train_count();
    let mut trains = Vec::with_capacity(alloc, count as usize)?;
    for i in 0..count {
        match TrainState::unknown(alloc, line, i, engine_of(line, i), book) {
            Ok(train) => trains.push_reserved(train),
            Err(error) => {
                end_trains(trains, sessions, book);
                return Err(error);
            }
        }
    }
    Ok(trains)
}

// The NID_ENGINE of the train at a place of the line file.
fn engine_of(line: &Line, i: u8) -> u32
    requires { i < length line.now.trains }
    ensures { option_map (λ p. p.nid_engine) (slice_get line.now.trains i) ≡ Some result }
{
    match line.train(i) {
        Some(train) => train.nid_engine,
        None => unreachable!(),
    }
}

/// Ends each train with its centre.
pub(crate) fn end_trains(mut trains: Vec<TrainState>, sessions: &mut Sessions, book: &mut Book) {
    while let Some(train) = trains.pop() {
        train.end(sessions, book);
    }
    trains.destroy_empty();
}
