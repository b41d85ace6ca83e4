//! Writes the page of consecutive sections, by their position in their run: they are the whole run, its first sections,
//! its last, or some inside. If a neighbour of the run has that page and the same track, it takes them in.
ghost use Rattle.std.specs.Prelude.{◌≡◌, ◌+◌, ◌-◌, ◌<◌, ◌≤◌, length, vec_capacity, IfSome, None};
ghost use Rattle.rbc_book.specs.Runs.{At, AreInOrder, AreApart, GoesOn, sections_in};
ghost use Rattle.rbc_book.specs.Edits.{changed_at, with_page, IsWhole, IsFirst, IsLast, IsInner, IsWritten};

use crate::edits::{join, put, resize, run_at};
use crate::page::Page;
use crate::run::Run;

// The run before a position, if this run continues it.
fn ahead_of(runs: &[Run], i: usize, next: Run) -> Option<Run>
    ensures some { IfSome result (λ r. (0 < i) × At (λ q. q ≡ r) (i - 1) runs.now × GoesOn r next) }
    ensures none { result ≡ None → 0 < i → ¬ At (λ r. GoesOn r next) (i - 1) runs.now }
{
    if i == 0 {
        return None;
    }
    let ahead = run_at(runs, i - 1)?;
    if ahead.goes_on(next) {
        Some(ahead)
    } else {
        None
    }
}

// The run at a position, if it continues this run.
fn after_of(runs: &[Run], i: usize, run: Run) -> Option<Run>
    ensures some { IfSome result (λ r. At (λ q. q ≡ r) i runs.now × GoesOn run r) }
    ensures none { result ≡ None → ¬ At (λ r. GoesOn run r) i runs.now }
{
    let next = run_at(runs, i)?;
    if run.goes_on(next) { Some(next) } else { None }
}

// Gives the run at a place another page.
fn turn(runs: &mut Vec<Run>, i: usize, page: Page)
    requires { i < length runs.old.items }
    ensures items { runs.new.items ≡ changed_at (with_page page) i runs.old.items }
    ensures capacity { vec_capacity runs.old ≤ vec_capacity runs.new }
{
    let run = &mut runs[i];
    run.is_wished = page.is_wished;
    run.entry = page.entry;
}

// Writes the page of a whole run.
pub(crate) fn write_whole(runs: &mut Vec<Run>, i: usize, s: u16, size: u16, page: Page)
    requires some { 1 ≤ size }
    requires here { At (IsWhole s size) i runs.old.items }
    requires order { AreInOrder 0 runs.old.items }
    requires apart { AreApart runs.old.items }
    ensures written { IsWritten s size page runs.old.items runs.new.items }
    ensures capacity { vec_capacity runs.old ≤ vec_capacity runs.new }
{
    turn(runs, i, page);
    join(runs, i);
    if i > 0 {
        join(runs, i - 1);
    }
}

// Writes the page of the first sections of a run of more.
pub(crate) fn write_first(runs: &mut Vec<Run>, i: usize, s: u16, size: u16, page: Page)
    requires some { 1 ≤ size }
    requires here { At (IsFirst s size page) i runs.old.items }
    requires order { AreInOrder 0 runs.old.items }
    requires apart { AreApart runs.old.items }
    requires room { sections_in runs.old.items ≤ vec_capacity runs.old }
    ensures written { IsWritten s size page runs.old.items runs.new.items }
    ensures capacity { vec_capacity runs.old ≤ vec_capacity runs.new }
{
    let run = runs[i];
    let alone = Run {
        count: size,
        is_wished: page.is_wished,
        entry: page.entry,
        ..run
    };
    let first = s + size;
    let count = run.count - size;
    if let Some(ahead) = ahead_of(runs, i, alone) {
        resize(runs, i - 1, ahead.first, ahead.count + size);
        resize(runs, i, first, count);
    } else {
        resize(runs, i, first, count);
        put(runs, i, alone);
    }
}

// Writes the page of the last sections of a run of more.
pub(crate) fn write_last(runs: &mut Vec<Run>, i: usize, s: u16, size: u16, page: Page)
    requires some { 1 ≤ size }
    requires here { At (IsLast s size page) i runs.old.items }
    requires order { AreInOrder 0 runs.old.items }
    requires apart { AreApart runs.old.items }
    requires room { sections_in runs.old.items ≤ vec_capacity runs.old }
    ensures written { IsWritten s size page runs.old.items runs.new.items }
    ensures capacity { vec_capacity runs.old ≤ vec_capacity runs.new }
{
    let run = runs[i];
    let alone = Run {
        first: s,
        count: size,
        is_wished: page.is_wished,
        entry: page.entry,
        ..run
    };
    let count = s - run.first;
    if let Some(next) = after_of(runs, i + 1, alone) {
        resize(runs, i, run.first, count);
        resize(runs, i + 1, s, size + next.count);
    } else {
        resize(runs, i, run.first, count);
        put(runs, i + 1, alone);
    }
}

// Writes the page of sections inside a run, which is divided.
pub(crate) fn write_inside(runs: &mut Vec<Run>, i: usize, s: u16, size: u16, page: Page)
    requires some { 1 ≤ size }
    requires here { At (IsInner s size page) i runs.old.items }
    requires order { AreInOrder 0 runs.old.items }
    requires apart { AreApart runs.old.items }
    requires room { sections_in runs.old.items ≤ vec_capacity runs.old }
    ensures written { IsWritten s size page runs.old.items runs.new.items }
    ensures capacity { vec_capacity runs.old ≤ vec_capacity runs.new }
{
    let run = runs[i];
    let count = s - run.first;
    let alone = Run {
        first: s,
        count: size,
        is_wished: page.is_wished,
        entry: page.entry,
        ..run
    };
    let rest = Run {
        first: s + size,
        count: run.count - count - size,
        ..run
    };
    resize(runs, i, run.first, count);
    put(runs, i + 1, alone);
    put(runs, i + 2, rest);
}
