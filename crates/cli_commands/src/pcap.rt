//! The capture of a print for Wireshark.

use crate::files::Files;
use crate::line_file::LineFile;
use crate::output::write_whole;
use crate::printed::printed_in;
use rbc_line::Line;
use std::alloc::Global;
use std::io::Write;
use text_prints::capture_of;
use text_script::status::Fault;

/// Writes the capture of the messages in a print of `run` or `serve`, or in journals. The first centre has this port.
/// Returns whether the print has a message.
pub(crate) fn capture_printed<'a, F: Files, O: Write>(
    alloc: Global,
    given: &LineFile,
    printed: &'a str,
    first_port: u16,
    files: &F,
    out: &mut O,
) -> Result<bool, Fault<'a>> {
    let text = printed_in(alloc, given, printed, files)?;
    capture(alloc, &given.line, text.as_str(), first_port, out)
}

fn capture<O: Write>(
    alloc: Global,
    line: &Line,
    text: &str,
    first_port: u16,
    out: &mut O,
) -> Result<bool, Fault<'static>> {
    let (bytes, has_message) = capture_of(alloc, line, text, first_port)?;
    write_whole(out, &bytes)?;
    Ok(has_message)
}
