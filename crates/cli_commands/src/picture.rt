//! Prints a line for a reader: its centres, its tracks with their sections and borders, and its trains.

ghost use Rattle.std.specs.Io.KnownBytes.{Appends};
ghost use Rattle.std.specs.Prelude.{◌≡◌, length, OnOk};
ghost use Rattle.cli_commands.specs.Pictures.{border_before, border_text, centre_text, extent_text, picture_text};
ghost use Rattle.cli_commands.specs.Pictures.{placed_text, row_text, section_end, section_on, section_text};
ghost use Rattle.cli_commands.specs.Pictures.{sections_text, track_metres, track_text, train_at, train_text};

use rbc_line::{Line, Section, Train};
use std::io;
use std::io::Write;
use text_script::print::name_of;

/// Prints the whole content of a line file.
pub fn print_picture<W: Write>(out: &mut W, line: &Line) -> io::Result<()>
    ensures { OnOk result (Appends (W.contents out.old) (W.contents out.new) (picture_text line.now)) }
{
    writeln!(out, "NID_C {}", line.nid_c())?;
    for centre in 0..line.centre_count() {
        print_centre(out, line, centre)?;
    }
    for track in 0..line.track_count() {
        print_track(out, line, track)?;
    }
    for number in 0..line.train_count() {
        print_train(out, line, number)?;
    }
    Ok(())
}

fn print_centre<W: Write>(out: &mut W, line: &Line, centre: u8) -> io::Result<()>
    ensures { OnOk result (Appends (W.contents out.old) (W.contents out.new) (centre_text line.now centre)) }
{
    let name = name_of(line, centre);
    let nid_rbc = line.nid_rbc(centre).unwrap_or(0);
    write!(out, "centre {name}, NID_RBC {nid_rbc}, linked with")?;
    let mut is_alone = true;
    for other in 0..line.centre_count() {
        if line.linked(centre, other) {
            write!(out, " {}", name_of(line, other))?;
            is_alone = false;
        }
    }
    writeln!(out, "{}", if is_alone { " none" } else { "" })
}

fn print_track<W: Write>(out: &mut W, line: &Line, track: u8) -> io::Result<()>
    ensures { OnOk result (Appends (W.contents out.old) (W.contents out.new) (track_text line.now track)) }
{
    let name = line.track_name(track).unwrap_or("?");
    writeln!(out, "track {name}, {} m", metres_of(line, track))?;
    print_row(out, line, track)?;
    print_sections(out, line, track)
}

/// The length of a track in metres: the end of its last section.
fn metres_of(line: &Line, track: u8) -> u32
    ensures { result ≡ track_metres line.now track }
{
    let mut metres = 0;
    for number in 0..line.section_count() {
        if let Some(section) = section_on(line, track, number) {
            metres = end_of(&section);
        }
    }
    metres
}

/// Prints the section numbers of a track on one line, after the name of their home, with a bar at each border.
fn print_row<W: Write>(out: &mut W, line: &Line, track: u8) -> io::Result<()>
    ensures { OnOk result (Appends (W.contents out.old) (W.contents out.new) (row_text line.now track)) }
{
    let mut home = None;
    for number in 0..line.section_count() {
        if let Some(section) = section_on(line, track, number) {
            if home != Some(section.home) {
                let bar = if home.is_some() { " |" } else { " " };
                write!(out, "{bar} {}:", name_of(line, section.home))?;
            }
            write!(out, " {number}")?;
            home = Some(section.home);
        }
    }
    writeln!(out)
}

/// Prints the sections of a track, one on each line, and the borders between them.
fn print_sections<W: Write>(out: &mut W, line: &Line, track: u8) -> io::Result<()>
    ensures { OnOk result (Appends (W.contents out.old) (W.contents out.new)
        (sections_text line.now track (length line.now.sections))) }
{
    let mut home = None;
    for number in 0..line.section_count() {
        if let Some(section) = section_on(line, track, number) {
            print_placed(out, line, home, number, &section)?;
            home = Some(section.home);
        }
    }
    Ok(())
}

/// Prints a section after one of this home, and the border between them.
fn print_placed<W: Write>(
    out: &mut W,
    line: &Line,
    before: Option<u8>,
    number: u16,
    section: &Section,
) -> io::Result<()>
    ensures { OnOk result (Appends (W.contents out.old) (W.contents out.new)
        (placed_text line.now before number section.now)) }
{
    print_border(out, line, before, section)?;
    print_section(out, line, number, section)
}

/// Prints the border before a section, if the section before it has another home.
fn print_border<W: Write>(
    out: &mut W,
    line: &Line,
    before: Option<u8>,
    section: &Section,
) -> io::Result<()>
    ensures { OnOk result (Appends (W.contents out.old) (W.contents out.new)
        (border_before line.now before section.now)) }
{
    match before {
        Some(before) if before != section.home => print_change(out, line, before, section),
        _ => Ok(()),
    }
}

/// Prints the border between the home before a section and the section's own.
fn print_change<W: Write>(out: &mut W, line: &Line, before: u8, section: &Section) -> io::Result<()>
    ensures { OnOk result (Appends (W.contents out.old) (W.contents out.new)
        (border_text line.now before section.now)) }
{
    let from = name_of(line, before);
    let to = name_of(line, section.home);
    writeln!(out, "  border from {from} to {to} at {} m", section.start)
}

fn print_section<W: Write>(
    out: &mut W,
    line: &Line,
    number: u16,
    section: &Section,
) -> io::Result<()>
    ensures { OnOk result (Appends (W.contents out.old) (W.contents out.new)
        (section_text line.now number section.now)) }
{
    let home = name_of(line, section.home);
    write!(out, "  section {number}, home {home}, ")?;
    print_extent(out, section)?;
    writeln!(out, ", balise {}", section.balise)
}

// Prints the beginning and the end of a section, and its length.
fn print_extent<W: Write>(out: &mut W, section: &Section) -> io::Result<()>
    ensures { OnOk result (Appends (W.contents out.old) (W.contents out.new) (extent_text section.now)) }
{
    let end = end_of(section);
    write!(
        out,
        "{} to {end} m, {} m long",
        section.start, section.metres
    )
}

fn print_train<W: Write>(out: &mut W, line: &Line, number: u8) -> io::Result<()>
    ensures { OnOk result (Appends (W.contents out.old) (W.contents out.new) (train_at line.now number)) }
{
    match line.train(number) {
        Some(train) => print_listed(out, line, &train),
        None => Ok(()),
    }
}

fn print_listed<W: Write>(out: &mut W, line: &Line, train: &Train) -> io::Result<()>
    ensures { OnOk result (Appends (W.contents out.old) (W.contents out.new) (train_text line.now train.now)) }
{
    let registrar = name_of(line, train.registrar);
    writeln!(out, "train {}, registrar {registrar}", train.nid_engine)
}

/// The section of this number, if it is on the track.
fn section_on(line: &Line, track: u8, number: u16) -> Option<Section>
    ensures { result ≡ section_on line.now track number }
{
    match line.section(number) {
        Some(section) if section.track == track => Some(section),
        _ => None,
    }
}

// The end of a section, in metres from the start of its track.
fn end_of(section: &Section) -> u32
    ensures { result ≡ section_end section.now }
{
    section.start.saturating_add(u32::from(section.metres))
}
