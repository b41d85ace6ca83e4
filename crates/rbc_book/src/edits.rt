//! Changes of a list of runs, in the order of their first sections. None of them takes memory while there is room.
ghost use Rattle.std.specs.Prelude.{◌≡◌, ◌+◌, ◌<◌, ◌≤◌, length, vec_capacity, OnOk, IfSome, None, slice_get};
ghost use Rattle.std.specs.List.{insert, remove};
ghost use Rattle.rbc_book.specs.Runs.{most, At, AreInOrder, AreApart, sections_in};
ghost use Rattle.rbc_book.specs.Edits.{changed_at, resized, Has, IsJoined, IsWritten, AreBefore, IsAppended};

use crate::page::Page;
use crate::parts::{write_first, write_inside, write_last, write_whole};
use crate::run::Run;
use std::alloc::AllocError;

// The run at a position, if there is one.
pub(crate) fn run_at(runs: &[Run], i: usize) -> Option<Run>
    ensures value { result ≡ slice_get runs.now i }
    ensures within { IfSome result (λ _. i < length runs.now) }
    ensures none { result ≡ None → length runs.now ≤ i }
{
    runs.get(i).copied()
}

// Gives the run at a place other ends.
pub(crate) fn resize(runs: &mut Vec<Run>, i: usize, first: u16, count: u16)
    requires { i < length runs.old.items }
    ensures items { runs.new.items ≡ changed_at (resized first count) i runs.old.items }
    ensures capacity { vec_capacity runs.old ≤ vec_capacity runs.new }
{
    let run = &mut runs[i];
    run.first = first;
    run.count = count;
}

// Inserts a run at a position of the list, which has room. A copy within the list moves a run in half of the
// instructions of `Vec::insert`.
pub(crate) fn put(runs: &mut Vec<Run>, i: usize, run: Run)
    requires within { i ≤ length runs.old.items }
    requires room { length runs.old.items < vec_capacity runs.old }
    ensures items { runs.new.items ≡ insert runs.old.items i run }
    ensures capacity { vec_capacity runs.old ≤ vec_capacity runs.new }
{
    let count = runs.len();
    let pushed = runs.push(run);
    prove!(pushed.is_ok());
    runs.copy_within(i..count, i + 1);
    runs[i] = run;
}

// Takes the run at a position out of the list.
fn remove(runs: &mut Vec<Run>, i: usize)
    requires { i < length runs.old.items }
    ensures items { runs.new.items ≡ remove runs.old.items i }
    ensures capacity { vec_capacity runs.old ≤ vec_capacity runs.new }
{
    let count = runs.len();
    runs.copy_within(i + 1..count, i);
    runs.truncate(count - 1);
}

// Joins a run and the next one, if the next one continues it.
#[inline(always)]
pub(crate) fn join(runs: &mut Vec<Run>, i: usize)
    requires { AreInOrder 0 runs.old.items }
    ensures joined { IsJoined i runs.old.items runs.new.items }
    ensures capacity { vec_capacity runs.old ≤ vec_capacity runs.new }
{
    let Some(run) = run_at(runs, i) else {
        return;
    };
    let Some(next) = run_at(runs, i + 1) else {
        return;
    };
    if !run.goes_on(next) {
        return;
    }
    resize(runs, i, run.first, run.count + next.count);
    remove(runs, i + 1);
}

// Writes the page of `size` sections from s on, which the run at a position has. They stay in that run, move into the
// one before or after, or become a run of their own.
#[inline(never)]
pub(crate) fn write_at(runs: &mut Vec<Run>, i: usize, s: u16, size: u16, page: Page)
    requires some { 1 ≤ size }
    requires here { At (Has s size) i runs.old.items }
    requires order { AreInOrder 0 runs.old.items }
    requires apart { AreApart runs.old.items }
    requires room { sections_in runs.old.items ≤ vec_capacity runs.old }
    ensures written { IsWritten s size page runs.old.items runs.new.items }
    ensures capacity { vec_capacity runs.old ≤ vec_capacity runs.new }
{
    let run = runs[i];
    if run.page() == page {
        return;
    }
    if run.count == size {
        write_whole(runs, i, s, size, page);
    } else if run.first == s {
        write_first(runs, i, s, size, page);
    } else if run.next_after() == u32::from(s) + u32::from(size) {
        write_last(runs, i, s, size, page);
    } else {
        write_inside(runs, i, s, size, page);
    }
}

// Adds a section after all runs, to the last run if that is possible.
pub(crate) fn append(runs: &mut Vec<Run>, s: u16, track: u8, page: Page) -> Result<(), AllocError>
    requires order { AreInOrder 0 runs.old.items }
    requires apart { AreApart runs.old.items }
    requires before { AreBefore s runs.old.items }
    requires bound { s < most }
    ensures { OnOk result (IsAppended s (record { page = page; track = track }) runs.old.items runs.new.items) }
{
    let count = runs.len();
    runs.push(Run {
        first: s,
        count: 1,
        track,
        is_wished: page.is_wished,
        entry: page.entry,
    })?;
    if count > 0 {
        join(runs, count - 1);
    }
    Ok(())
}
