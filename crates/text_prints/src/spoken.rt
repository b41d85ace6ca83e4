//! Gathers the messages and replies after an event, line by line.

ghost use Rattle.std.specs.Prelude.{◌≡◌, ◌++◌, ◌∷◌, [], IfOk, option_map};
ghost use Rattle.rbc_watch.specs.Events.{saying_of, spoken_of, word_of};
ghost use Rattle.text_prints.specs.Parts.{AddsRow, or_heard, with_part, with_saying, with_word};

use crate::fault::RowFault;
use crate::part::Part;
use crate::row::part_in;
use rbc_line::Line;
use rbc_watch::{Exchange, Saying, Spoken, Word};
use std::alloc::{AllocError, Global};
use text_script::print::name_of;

/// The exchange with the next line.
pub(crate) fn with_row(
    alloc: Global,
    line: &Line,
    exchange: Exchange,
    row: &str,
) -> Result<Exchange, RowFault>
    ensures { IfOk result (AddsRow line.now exchange (row.now ++ 10 ∷ [])) }
{
    let part = part_in(alloc, line, name_of(line, exchange.event.centre()), row)?;
    let spoken = with_part(alloc, exchange.spoken, part)?;
    Ok(Exchange {
        event: exchange.event,
        spoken,
    })
}

/// The messages and replies after an event, with one more part.
fn with_part(
    alloc: Global,
    spoken: Option<Spoken>,
    part: Part,
) -> Result<Option<Spoken>, AllocError>
    ensures { IfOk result
        (λ after. option_map spoken_of after ≡ with_part part (option_map spoken_of spoken)) }
{
    match part {
        Part::Said(saying) => Ok(Some(with_saying(or_heard(alloc, spoken), saying)?)),
        Part::Replied(word) => Ok(Some(with_word(or_heard(alloc, spoken), word)?)),
        Part::Silent(_) => {
            let mut spoken = or_heard(alloc, spoken);
            spoken.is_heard = false;
            Ok(Some(spoken))
        }
        Part::Accepted => Ok(Some(or_heard(alloc, spoken))),
        Part::Nothing => Ok(spoken),
    }
}

/// The messages and replies after an event. If there are none yet, the event was accepted.
fn or_heard(alloc: Global, spoken: Option<Spoken>) -> Spoken
    ensures { spoken_of result ≡ or_heard (option_map spoken_of spoken) }
{
    match spoken {
        Some(spoken) => spoken,
        None => Spoken {
            is_heard: true,
            sayings: Vec::new(alloc),
            words: Vec::new(alloc),
        },
    }
}

// The same with one more message to a train.
#[tactic(auto, using(crate::proofs::Parts::one_more_said))]
fn with_saying(spoken: Spoken, saying: Saying) -> Result<Spoken, AllocError>
    ensures { IfOk result (λ after. spoken_of after ≡ with_saying (saying_of saying) (spoken_of spoken)) }
{
    let mut spoken = spoken;
    spoken.sayings.push(saying)?;
    Ok(spoken)
}

// The same with one more reply to the interlocking.
#[tactic(auto, using(crate::proofs::Parts::one_more_word))]
fn with_word(spoken: Spoken, word: Word) -> Result<Spoken, AllocError>
    ensures { IfOk result (λ after. spoken_of after ≡ with_word (word_of word) (spoken_of spoken)) }
{
    let mut spoken = spoken;
    spoken.words.push(word)?;
    Ok(spoken)
}
