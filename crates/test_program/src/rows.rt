//! The cases of the folder `rows`. Before them a train's start over two nodes is played (`refusals`).

mod folder;
mod page;
mod refusals;
mod row;

use self::folder::Folder;
use self::refusals::play_scene;
use self::row::passes;
use std::io::Write;
use std::sync::Wait;
use std::{fs, io, rt};

/// Plays the start over two nodes. The result is the exit status.
pub fn play_nodes<R: Wait + Print + AllocGlobal>(rt: &R) -> u8 {
    play_scene(rt, rt.alloc(), &mut io::writer(rt))
}

/// Plays the start over two nodes, and then the cases. The result is the exit status, which is 0 if all passed.
pub fn play_rows<R: Wait + rt::Files + Print + AllocGlobal + Clone + Drop>(rt: &R) -> u8 {
    let status = play_nodes(rt);
    if status != 0 {
        return status;
    }
    match play_all(rt, &mut io::writer(rt)) {
        Ok(true) => 0,
        _ => 1,
    }
}

/// Plays the cases in the order of their names. The result is whether all passed.
fn play_all<R: rt::Files + AllocGlobal + Clone + Drop, W: Write>(
    rt: &R,
    out: &mut W,
) -> io::Result<bool> {
    let mut passed = 0u32;
    let mut failed = 0u32;
    for name in &names(rt)? {
        let folder = Folder { rt, name };
        if passes(rt.alloc(), &folder, out)? {
            passed = passed.saturating_add(1);
        } else {
            failed = failed.saturating_add(1);
        }
    }
    writeln!(out, "{passed} passed, {failed} failed")?;
    out.flush()?;
    Ok(failed == 0)
}

fn names<R: rt::Files + AllocGlobal + Clone + Drop>(rt: &R) -> io::Result<Vec<String>> {
    let mut names = Vec::new(rt.alloc());
    for entry in fs::read_dir(rt, "rows")? {
        names.push(String::from_str(rt.alloc(), entry?.file_name())?)?;
    }
    names.sort()?;
    Ok(names)
}
