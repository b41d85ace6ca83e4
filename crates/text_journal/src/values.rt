ghost use Rattle.std.specs.Prelude.{◌≡◌, ◌++◌, IfOk, OnOk, string_bytes};
ghost use Rattle.std.specs.List.{flat_map};
ghost use Rattle.text_journal.specs.LineText.{centre_line, line_text, section_line, track_line, train_line};

use rbc_line::Line;
use std::alloc::{AllocError, Global};

/// All values of a line as a text. Line files that differ only in comments, blanks or layout have one text.
pub(crate) fn line_text(alloc: Global, line: &Line) -> Result<String, AllocError>
    ensures { IfOk result (λ text. string_bytes text ≡ line_text line.now) }
{
    let mut text = format!(in alloc; "line {}\n", line.nid_c())?;
    add_centres(alloc, line, &mut text)?;
    add_tracks(alloc, line, &mut text)?;
    add_sections(alloc, line, &mut text)?;
    add_trains(alloc, line, &mut text)?;
    Ok(text)
}

fn add_centres(alloc: Global, line: &Line, text: &mut String) -> Result<(), AllocError>
    ensures { OnOk result (string_bytes text.new ≡ string_bytes text.old ++ flat_map centre_line line.now.centres) }
{
    for c in 0..line.centre_count() {
        let name = line.centre_name(c).unwrap_or("");
        if let Some(nid_rbc) = line.nid_rbc(c) {
            let row = format!(in alloc; "centre {name} {nid_rbc}\n")?;
            text.push_str(row.as_str())?;
        }
    }
    Ok(())
}

fn add_tracks(alloc: Global, line: &Line, text: &mut String) -> Result<(), AllocError>
    ensures { OnOk result (string_bytes text.new ≡ string_bytes text.old ++ flat_map track_line line.now.tracks) }
{
    for track in 0..line.track_count() {
        if let Some(name) = line.track_name(track) {
            let row = format!(in alloc; "track {name}\n")?;
            text.push_str(row.as_str())?;
        }
    }
    Ok(())
}

fn add_sections(alloc: Global, line: &Line, text: &mut String) -> Result<(), AllocError>
    ensures { OnOk result (string_bytes text.new ≡ string_bytes text.old ++ flat_map section_line line.now.sections) }
{
    for s in 0..line.section_count() {
        if let Some(section) = line.section(s) {
            let (track, metres) = (section.track, section.metres);
            let (home, balise) = (section.home, section.balise);
            let row = format!(in alloc; "section {track} {metres} {home} {balise}\n")?;
            text.push_str(row.as_str())?;
        }
    }
    Ok(())
}

fn add_trains(alloc: Global, line: &Line, text: &mut String) -> Result<(), AllocError>
    ensures { OnOk result (string_bytes text.new ≡ string_bytes text.old ++ flat_map train_line line.now.trains) }
{
    for i in 0..line.train_count() {
        if let Some(train) = line.train(i) {
            let (nid_engine, registrar) = (train.nid_engine, train.registrar);
            let row = format!(in alloc; "train {nid_engine} {registrar}\n")?;
            text.push_str(row.as_str())?;
        }
    }
    Ok(())
}
