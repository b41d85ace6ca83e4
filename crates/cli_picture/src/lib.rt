//! The time-distance diagram of a run, as railways draw it: the line from left to right, the events or their times
//! downward. The events of a print are replayed on the line's centres. The diagram shows the state of the line after
//! each event. It has the sections in authorities and the kept ones, fronts, the supervisor of each train, and the
//! requests to it.
//!
//! Bodies are free. docs/FORMATS.md fixes the printed text and each exit status.
#![tactic(auto)]

ghost use Rattle.std.specs.Prelude.{◌≡◌, IfOk, is_some, nat_lt};
ghost use Rattle.cli_picture.specs.Time.{after_place, first_place};

mod bars;
mod boxes;
mod draw;
mod events;
mod fronts;
mod grid;
mod heard;
mod legend;
mod marks;
mod played;
mod run;
mod scale;
mod seats;
mod style;
mod ticks;
mod time;

use crate::draw::draw;
use crate::played::{played, played_over_time};
use rbc_line::Line;
use std::alloc::Global;
use text_replay::Cut;
use text_script::status::Fault;
pub use time::TimePart;

/// Draws the events of a print that the cut names, as an SVG document. Only the lines that begin with `> ` are read.
/// Errors: the cut names a train that is not of the line, or names no event. A line has no form of a script. A step is
/// refused.
pub fn picture(
    alloc: Global,
    line: &Line,
    printed: &str,
    cut: Cut,
) -> Result<String, Fault<'static>> {
    let run = played(alloc, line, printed, cut)?;
    Ok(draw(alloc, &run)?)
}

/// Draws a part of a print over time, as an SVG document. Only the lines that begin with `> ` are read: the part has
/// their times. None if it has no event. Errors: the part names a train that is not of the line. A line has no form of
/// a script. A step is refused.
pub fn picture_over_time(
    alloc: Global,
    line: &Line,
    printed: &str,
    part: &TimePart<'_>,
) -> Result<Option<String>, Fault<'static>>
    ensures { IfOk result (λ svg. is_some svg ≡ nat_lt (first_place part.now) (after_place part.now)) }
{
    match played_over_time(alloc, line, printed, part)? {
        Some(run) => Ok(Some(draw(alloc, &run)?)),
        None => Ok(None),
    }
}
