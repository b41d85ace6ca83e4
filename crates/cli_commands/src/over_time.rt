//! The diagram of journals over time.

use crate::diagram::Drawing;
use crate::files::Files;
use crate::line_file::LineFile;
use crate::matching::refusal;
use crate::printed::{Printed, print_by_time, printed_in};
use crate::requests::TimeRange;
use cli_picture::{TimePart, picture_over_time};
use std::alloc::{AllocError, Global};
use text_script::status::Fault;

// Why a print is not drawn over time, after its name, and the way out.
const NO_JOURNALS: &str =
    "has no times: those of events are in journals. Give their folder, or leave out '--time', '--since' and '--until'";

const NO_TIME: &str =
    "has no event with a time: journals of version 1 have none. Leave out '--time'";

const NO_EVENT: &str =
    "has no event from '--since' on and before '--until'. 'rbcline print --times' prints the times of events";

const OTHER_ORDER: &str =
    "has times in another order than its events, as after a clock was set back. Leave out '--time', '--since' and '--until'";

/// Draws the events of journals that are within the range, over time, as an SVG document. A print that is a file is
/// refused. So are journals without a time in the range, and times that are not in the order of a run.
pub fn drawn_over_time<'a, F: Files>(
    alloc: Global,
    given: &LineFile,
    drawing: Drawing<'a>,
    range: TimeRange,
    files: &F,
) -> Result<String, Fault<'a>> {
    let name = drawing.printed;
    if !files.is_folder(name) {
        return Err(refused(alloc, name, NO_JOURNALS)?);
    }
    match print_by_time(alloc, given, name, files)? {
        Some(printed) => draw(alloc, given, &printed, drawing, range),
        None => Err(unordered(alloc, given, name, files)?),
    }
}

// The refusal of journals with times in another order than that of a run.
fn unordered<'a, F: Files>(
    alloc: Global,
    given: &LineFile,
    name: &'a str,
    files: &F,
) -> Result<Fault<'a>, Fault<'a>> {
    // The journals may not fit together in their own order either.
    let _ = printed_in(alloc, given, name, files)?;
    Ok(refused(alloc, name, OTHER_ORDER)?)
}

fn draw(
    alloc: Global,
    given: &LineFile,
    printed: &Printed,
    drawing: Drawing<'_>,
    range: TimeRange,
) -> Result<String, Fault<'static>> {
    let part = TimePart {
        times_ms: &printed.times_ms,
        since_ms: range.since_ms,
        until_ms: range.until_ms,
        train: drawing.cut.train,
    };
    match picture_over_time(alloc, &given.line, printed.text.as_str(), &part)? {
        Some(svg) => Ok(svg),
        None if range.is_bounded() => Err(refused(alloc, drawing.printed, NO_EVENT)?),
        None => Err(refused(alloc, drawing.printed, NO_TIME)?),
    }
}

// The refusal of a print of this name.
fn refused(alloc: Global, name: &str, why: &str) -> Result<Fault<'static>, AllocError> {
    let reason = format!(in alloc; "{name} {why}")?;
    Ok(Fault::Usage(refusal(alloc, reason.as_str())?))
}
