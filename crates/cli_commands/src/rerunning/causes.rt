ghost use Rattle.std.specs.List.{Contains};
ghost use Rattle.std.specs.Prelude.{◌+◌, ◌<◌, ◌≡◌, ◌^◌, IfOk, length, OnOk, suc};
ghost use Rattle.cli_commands.specs.Rerunning.Causes.{IsCutOf, KeepsOrLeaves};
ghost use Rattle.text_journal.specs.Order.{taken_at};

use rbc_line::Line;
use std::alloc::Global;
use text_journal::Entry;
use text_script::{Answer, StepFault, World};

/// Entries whose delivered frames were all sent, and the number of entries that are left out.
#[derive(Drop)]
pub struct Caused {
    pub entries: Vec<Entry>,
    pub left_out: usize,
}

/// Cuts each journal before its first delivery of a frame that was not sent. Journals that are read one by one while
/// centres write them may have such a delivery: the sending event was written after its journal was read. The entries
/// are in the order of their stamps.
pub fn with_causes(alloc: Global, line: &Line, entries: Vec<Entry>) -> Result<Caused, StepFault>
    ensures { IfOk result (IsCutOf entries.items) }
{
    let mut world = World::new(alloc, line)?;
    keep_caused(alloc, &mut world, entries)
}

fn keep_caused(alloc: Global, world: &mut World, entries: Vec<Entry>) -> Result<Caused, StepFault>
    ensures { IfOk result (IsCutOf entries.items) }
{
    let mut caused = Caused {
        entries: Vec::new(alloc),
        left_out: 0,
    };
    let mut cut = Vec::new(alloc);
    let mut answer = Answer::nothing();
    for entry in entries {
        keep_one(&mut caused, &mut cut, world, &mut answer, entry)?;
    }
    Ok(caused)
}

// Keeps an entry, or leaves it out: its frame was not sent, or its journal is cut before it.
fn keep_one(
    caused: &mut Caused,
    cut: &mut Vec<u8>,
    world: &mut World,
    answer: &mut Answer,
    entry: Entry,
) -> Result<(), StepFault>
    requires { length caused.now.entries.items + caused.now.left_out < 2 ^ 63 }
    ensures entries { OnOk result (KeepsOrLeaves caused.old.entries.items entry caused.new.entries.items) }
    ensures cut { OnOk result (Contains cut.old.items (taken_at entry)
        → caused.new.entries.items ≡ caused.old.entries.items) }
    ensures counted { OnOk result (length caused.new.entries.items + caused.new.left_out
        ≡ suc (length caused.old.entries.items + caused.old.left_out)) }
{
    let centre = entry.centre();
    if cut.contains(&centre) {
        caused.left_out += 1;
        return Ok(());
    }
    world.step_to(&entry.event, answer)?;
    if let Answer::NotSent = answer {
        cut.push(centre)?;
        caused.left_out += 1;
    } else {
        caused.entries.push(entry)?;
    }
    Ok(())
}
