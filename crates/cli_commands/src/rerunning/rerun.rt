ghost use Rattle.std.specs.Prelude.{◌≡◌, ◌↔◌, Some, IsTrue};
ghost use Rattle.text_script.specs.rbc_world.Views.{answer_of};
ghost use Rattle.cli_commands.specs.Rerunning.Rerun.{Finds, stamp_of};

use crate::rerunning::place::{Place, missing_sender, next_row};
use rbc_line::Line;
use std::alloc::Global;
use text_journal::Entry;
use text_script::{Answer, StepFault, World};

/// Runs the events of the entries from the line's beginning. Finds the first entry whose stamp is not that of its
/// event's answer; none if the entries are a run of the line. An event that no centre takes, such as a frame that was
/// not sent, has no stamp.
pub fn first_unfit(
    alloc: Global,
    line: &Line,
    entries: &[Entry],
) -> Result<Option<Place>, StepFault>
    ensures { Finds line.now entries.now result }
{
    let mut world = World::new(alloc, line)?;
    let mut answer = Answer::nothing();
    let mut at = 0;
    for entry in entries {
        world.step_to(&entry.event, &mut answer)?;
        if has_stamp(&answer, entry.stamp) {
            at += 1;
        } else {
            let centre = entry.centre();
            let row = next_row(entries, at, centre);
            let sender = missing_sender(&answer, &entry.event);
            return Ok(Some(Place {
                centre,
                row,
                sender,
            }));
        }
    }
    Ok(None)
}

// Whether the answer has this stamp.
fn has_stamp(answer: &Answer, stamp: u32) -> bool
    ensures { IsTrue result ↔ (stamp_of (answer_of answer.now) ≡ Some stamp) }
{
    match answer {
        Answer::Outcome(outcome) => outcome.stamp == stamp,
        Answer::NoCentre | Answer::NotSent | Answer::Fault(_) => false,
    }
}
