//! The directions in which the centres of a line send frames.

ghost use Rattle.std.specs.Prelude.{◌≡◌, IfOk};
ghost use Rattle.serve_line.specs.Directions.{directions_from, directions_of};

use rbc_line::Line;
use std::alloc::{AllocError, Global};

/// A direction of a link: the numbers of its sender and its receiver.
#[derive(Clone, Copy)]
pub(crate) struct Direction {
    pub from: u8,
    pub to: u8,
}

/// Each direction of each link of the line, once, by the numbers of the sender and the receiver.
pub(crate) fn directions_of(alloc: Global, line: &Line) -> Result<Vec<Direction>, AllocError>
    ensures { IfOk result (λ all. all.items ≡ directions_of line.now) }
{
    let mut all = Vec::new(alloc);
    for from in 0..line.centre_count() {
        let mut next = directions_from(alloc, line, from)?;
        all.append(&mut next)?;
    }
    Ok(all)
}

// The directions in which a centre sends frames.
fn directions_from(alloc: Global, line: &Line, from: u8) -> Result<Vec<Direction>, AllocError>
    ensures { IfOk result (λ all. all.items ≡ directions_from line.now from) }
{
    (0..line.centre_count())
        .filter(|to| line.linked(from, *to))
        .map(|to| Direction { from, to })
        .collect(alloc)
}
