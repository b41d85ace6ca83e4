//! The diagram of a print of `run`.

use crate::files::Files;
use crate::line_file::LineFile;
use crate::output::write_whole;
use crate::over_time::drawn_over_time;
use crate::printed::{has_event, printed_in};
use crate::requests::TimeRange;
use cli_picture::picture;
use rbc_line::Line;
use std::alloc::Global;
use std::io::Write;
use text_replay::{Cut, page_of};
use text_script::status::Fault;

/// The arguments of `picture` besides the line.
#[derive(Clone, Copy)]
pub struct Drawing<'a> {
    /// The name of the print's file, or of the folder of the journals.
    pub printed: &'a str,
    /// The part of the run that is drawn.
    pub cut: Cut,
    /// The range of time that is drawn, if time is the axis.
    pub axis: Option<TimeRange>,
    pub is_html: bool,
}

/// Draws a part of a run, from a print of `run` or `serve` or from journals. It writes the time-distance diagram as an
/// SVG document, over events or over time, or an HTML page with the line after each event. Returns whether an event is
/// in the print.
pub fn draw_printed<'a, F: Files, O: Write>(
    alloc: Global,
    given: &LineFile,
    drawing: Drawing<'a>,
    files: &F,
    out: &mut O,
) -> Result<bool, Fault<'a>> {
    match drawing.axis {
        Some(range) => {
            let svg = drawn_over_time(alloc, given, drawing, range, files)?;
            write_whole(out, svg.as_bytes())?;
            Ok(true)
        }
        None => {
            let text = printed_in(alloc, given, drawing.printed, files)?;
            draw(alloc, &given.line, text.as_str(), drawing, out)
        }
    }
}

fn draw<O: Write>(
    alloc: Global,
    line: &Line,
    text: &str,
    drawing: Drawing<'_>,
    out: &mut O,
) -> Result<bool, Fault<'static>> {
    let drawn = if drawing.is_html {
        page_of(alloc, line, text, drawing.cut)
    } else {
        picture(alloc, line, text, drawing.cut)
    };
    write_whole(out, drawn?.as_bytes())?;
    Ok(has_event(text))
}
