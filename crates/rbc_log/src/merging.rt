ghost use Rattle.std.specs.Prelude.{◌≡◌, ◌<◌, ◌↔◌, ◌++◌, ◌==◌, All, IsTrue, length, map, IfOk, IfErr, OnOk, OnErr};
ghost use Rattle.std.specs.List.{list_any};
ghost use Rattle.std.specs.List.Sorted.{IsPermutation};
ghost use Rattle.law_logs.specs.Logs.{IsInOrder};
ghost use Rattle.rbc_centre.specs.States.{number_of};
ghost use Rattle.rbc_log.specs.Entries.{entry_of, written_of};
ghost use Rattle.rbc_log.specs.Log.{IsReplaying};
ghost use Rattle.rbc_log.specs.Merge.{AreOfCentres, AreOfLine, AreOfOneLine, all_entries as entries_of_all, IsMerged};
ghost use Rattle.rbc_log.specs.Merge.{MakesOneRun, IsMergeRefusal};

use crate::entry::Entry;
use crate::log::CentreLog;
use crate::merge_fault::MergeFault;
use rbc_centre::FrameRoom;
use rbc_line::Line;
use std::alloc::{AllocError, Global};

/// All entries of the logs, by their stamps, and for one stamp by their centres. Each log keeps its order. If each
/// delivered frame is in its sender's log, the entries are one run: of the line's world, and of the one line centre. It
/// takes as long as a stable sort of the entries, and without entries no memory.
pub fn merge(alloc: Global, logs: &[&CentreLog]) -> Result<Vec<Entry>, MergeFault>
    ensures merged { IfOk result (λ es. IsMerged (map (λ l. l.now) logs.now) es.items) }
    ensures run { IfOk result (λ es. MakesOneRun (map (λ l. l.now) logs.now) es.items) }
    ensures refused { IfErr result (IsMergeRefusal (map (λ l. l.now) logs.now)) }
{
    if !are_of_centres(logs) {
        return Err(MergeFault::Twice);
    }
    if !are_of_one_line(logs) {
        return Err(MergeFault::OtherLine);
    }
    Ok(in_order(alloc, logs)?)
}

/// Whether no two logs are of one centre.
fn are_of_centres(logs: &[&CentreLog]) -> bool
    ensures { IsTrue result ↔ AreOfCentres (map (λ l. l.now) logs.now) }
{
    match logs.split_first() {
        Some((first, rest)) => !has_centre(rest, first.number()) && are_of_centres(rest),
        None => true,
    }
}

/// Whether one of the logs is of this centre.
fn has_centre(logs: &[&CentreLog], centre: u8) -> bool
    ensures { result ≡ list_any (λ l. number_of l.core == centre) (map (λ l. l.now) logs.now) }
{
    match logs.split_first() {
        Some((first, rest)) => first.number() == centre || has_centre(rest, centre),
        None => false,
    }
}

/// Whether all logs are of one line.
fn are_of_one_line(logs: &[&CentreLog]) -> bool
    ensures { IsTrue result ↔ AreOfOneLine (map (λ l. l.now) logs.now) }
{
    match logs.split_first() {
        Some((first, rest)) => are_of_line(rest, first.line()),
        None => true,
    }
}

/// Whether all logs are of this line.
fn are_of_line(logs: &[&CentreLog], line: &Line) -> bool
    ensures { IsTrue result ↔ AreOfLine line.now (map (λ l. l.now) logs.now) }
{
    match logs.split_first() {
        Some((first, rest)) => first.is_of_line(line) && are_of_line(rest, line),
        None => true,
    }
}

/// All entries of the logs in the order of stamps.
fn in_order(alloc: Global, logs: &[&CentreLog]) -> Result<Vec<Entry>, AllocError>
    ensures once { IfOk result
        (λ es. IsPermutation (map written_of (entries_of_all (map (λ l. l.now) logs.now)))
        (map written_of es.items)) }
    ensures in_order { IfOk result (λ es. IsInOrder (map entry_of es.items)) }
    ensures replays { OnOk result (All IsReplaying (map (λ l. l.now) logs.now)) }
    ensures memory { OnErr result (0 < length (entries_of_all (map (λ l. l.now) logs.now))) }
{
    let mut all = all_entries(alloc, logs)?;
    all.sort_by_key(|entry| (entry.outcome.stamp, entry.centre))?;
    Ok(all)
}

/// All entries of the logs, log by log.
fn all_entries(alloc: Global, logs: &[&CentreLog]) -> Result<Vec<Entry>, AllocError>
    ensures entries { IfOk result
        (λ es. map written_of es.items ≡ map written_of (entries_of_all (map (λ l. l.now) logs.now))) }
    ensures replays { OnOk result (All IsReplaying (map (λ l. l.now) logs.now)) }
    ensures memory { OnErr result (0 < length (entries_of_all (map (λ l. l.now) logs.now))) }
{
    let mut all = Vec::new(alloc);
    for log in logs {
        add_entries(&mut all, log.entries())?;
    }
    Ok(all)
}

/// Copies entries after those that are there.
fn add_entries(all: &mut Vec<Entry>, entries: &[Entry]) -> Result<(), AllocError>
    ensures entries { OnOk result
        (map written_of all.new.items ≡ map written_of all.old.items ++ map written_of entries.now) }
    ensures memory { OnErr result (0 < length entries.now) }
{
    let alloc = *all.allocator();
    let mut room = FrameRoom::new(alloc);
    for entry in entries {
        room.reserve()?;
        all.push(entry.copied(alloc, &mut room)?)?;
    }
    Ok(())
}
