//! The data of a line that do not change.

use rbc_line::{Line, Section};
use std::alloc::{AllocError, Global};
use text_page::Layout;

/// The data of a line that do not change; its centres listen at these ports.
pub fn layout_of(alloc: Global, line: &Line, ports: Vec<u16>) -> Result<Layout, AllocError> {
    Ok(Layout {
        nid_c: line.nid_c(),
        centres: centres_of(alloc, line)?,
        ports,
        tracks: tracks_of(alloc, line)?,
        sections: sections_of(alloc, line)?,
    })
}

fn centres_of(alloc: Global, line: &Line) -> Result<Vec<String>, AllocError> {
    let mut names = Vec::new(alloc);
    for c in 0..line.centre_count() {
        if let Some(name) = line.centre_name(c) {
            names.push(String::from_str(alloc, name)?)?;
        }
    }
    Ok(names)
}

fn tracks_of(alloc: Global, line: &Line) -> Result<Vec<String>, AllocError> {
    let mut names = Vec::new(alloc);
    for track in 0..line.track_count() {
        if let Some(name) = line.track_name(track) {
            names.push(String::from_str(alloc, name)?)?;
        }
    }
    Ok(names)
}

fn sections_of(alloc: Global, line: &Line) -> Result<Vec<Section>, AllocError> {
    let mut sections = Vec::new(alloc);
    for s in 0..line.section_count() {
        if let Some(section) = line.section(s) {
            sections.push(section)?;
        }
    }
    Ok(sections)
}
