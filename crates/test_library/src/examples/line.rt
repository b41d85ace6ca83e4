//! The example of `rbc_line`: a line file is read, and its sections are looked up.

use rbc_line::Line;
use std::alloc::Global;
use std::test::*;

/// The lengths of the sections of a centre, in metres.
pub fn lengths_at(alloc: Global, text: &str, name: &str) -> Result<Vec<u16>, Fail> {
    let line = Line::from_toml(alloc, text)?;
    let centre = line
        .centre_named(name)
        .ok_or("the line has no such centre")?;
    let mut lengths = Vec::new(alloc);
    for number in 0..line.section_count() {
        if let Some(section) = line.section(number) {
            if section.home == centre {
                lengths.push(section.metres)?;
            }
        }
    }
    Ok(lengths)
}
