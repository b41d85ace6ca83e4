ghost use Rattle.std.specs.Prelude.{◌≡◌, ◌==◌, ℕ, List, OnOk, IfSome, codes, length, option_and_then};
ghost use Rattle.std.specs.List.{find};
ghost use Rattle.std.specs.Io.KnownBytes.{Appends};
ghost use Rattle.rbc_spec.specs.LineCentre.{LineState};
ghost use Rattle.rbc_spec.specs.World.{centre_of};
ghost use Rattle.rbc_world.specs.View.{mark_shown, seat_of, Shows};
ghost use Rattle.rbc_world.specs.Views.{answer_of, event_of};
ghost use Rattle.rbc_world.specs.World.{line_of, state_of};
ghost use Rattle.text_script.specs.Print.Rows.{event_row, home_at, mark_text, name_at, script_row, section_row};
ghost use Rattle.text_script.specs.Print.Rows.{train_row};
ghost use Rattle.text_script.specs.Print.Answers.{IsAnswerPrint};
ghost use Rattle.text_script.specs.Print.Shown.{line_text, section_rows, train_rows};

use crate::print::outcome::print_outcome;
use crate::status::PrintFault;
use rbc_line::Line;
use rbc_world::{Answer, LineView, Mark, SectionView, World, WorldEvent};
use std::alloc::Global;
use std::fmt::Display;
use std::io::Write;

/// Prints the numbers of centres, tracks, sections and trains of the line.
pub fn print_counts<W: Write>(out: &mut W, line: &Line) -> Result<(), PrintFault> {
    let centres = line.centre_count();
    let tracks = line.track_count();
    let sections = line.section_count();
    let trains = line.train_count();
    writeln!(
        out,
        "ok: {centres} centres, {tracks} tracks, {sections} sections, {trains} trains"
    )?;
    Ok(())
}

/// Prints an event as a line of a script, after `> `.
pub fn print_event<W: Write>(
    alloc: Global,
    out: &mut W,
    line: &Line,
    event: &WorldEvent,
) -> Result<(), PrintFault>
    ensures { OnOk result (Appends (W.contents out.old) (W.contents out.new) (event_row line.now event.now)) }
{
    match event {
        WorldEvent::Train { centre, bytes } => {
            let digits = hex::encode_upper(alloc, bytes)?;
            print_row(out, "train", name_of(line, *centre), digits)
        }
        WorldEvent::Set { centre, section } => {
            print_row(out, "set", name_of(line, *centre), *section)
        }
        WorldEvent::Unset { centre, section } => {
            print_row(out, "unset", name_of(line, *centre), *section)
        }
        WorldEvent::Deliver { from, to, number } => {
            let from = name_of(line, *from);
            let to = name_of(line, *to);
            writeln!(out, "> deliver {from} {to} {number}")?;
            Ok(())
        }
    }
}

// Prints a line of a script: its word, the centre that it names, and the text after that.
fn print_row<W: Write, D: Display + Drop>(
    out: &mut W,
    word: &str,
    centre: &str,
    rest: D,
) -> Result<(), PrintFault>
    ensures { OnOk result (IfSome (D.output rest) (λ text. Appends (W.contents out.old) (W.contents out.new)
        (script_row word.now centre.now text))) }
{
    writeln!(out, "> {word} {centre} {rest}")?;
    Ok(())
}

/// Prints the script line `show`, after `> `.
pub fn print_show<W: Write>(out: &mut W) -> Result<(), PrintFault>
    ensures { OnOk result (Appends (W.contents out.old) (W.contents out.new) (codes "> show\n")) }
{
    writeln!(out, "> show")?;
    Ok(())
}

/// Prints the answer to an event.
pub fn print_answer<W: Write>(
    alloc: Global,
    out: &mut W,
    line: &Line,
    event: &WorldEvent,
    answer: &Answer,
) -> Result<(), PrintFault>
    ensures { OnOk result ((text : List ℕ) × IsAnswerPrint line.now (centre_of (event_of event.now))
        (answer_of answer.now) text × Appends (W.contents out.old) (W.contents out.new) text) }
{
    let centre = name_of(line, centre_of(event));
    match answer {
        Answer::Outcome(outcome) => print_outcome(alloc, out, line, centre, outcome)?,
        Answer::Fault(fault) => writeln!(out, "{centre} fault {}", fault.number())?,
        Answer::NotSent => writeln!(out, "not sent")?,
        // A script names only centres of the line.
        Answer::NoCentre => {}
    }
    Ok(())
}

/// Prints the use of each section, and the supervisor of each train that messages have named.
pub fn print_line<W: Write>(
    alloc: Global,
    out: &mut W,
    line: &Line,
    world: &World,
) -> Result<(), PrintFault>
    ensures { OnOk result (line.now ≡ line_of world.now
        → Appends (W.contents out.old) (W.contents out.new) (line_text line.now (state_of world.now))) }
{
    let view = world.view(alloc)?;
    print_sections(out, line, &view)?;
    print_trains(out, line, world, &view)
}

// Prints the use of each section.
fn print_sections<W: Write>(out: &mut W, line: &Line, view: &LineView) -> Result<(), PrintFault>
    ensures { OnOk result ((v : LineState) → Shows line.now v view.now
        → Appends (W.contents out.old) (W.contents out.new) (section_rows line.now v (length line.now.sections))) }
{
    for (number, section) in view.sections.iter().enumerate() {
        print_section(out, line, number, section)?;
    }
    Ok(())
}

// Prints the supervisor of each train that messages have named.
fn print_trains<W: Write>(
    out: &mut W,
    line: &Line,
    world: &World,
    view: &LineView,
) -> Result<(), PrintFault>
    ensures { OnOk result ((v : LineState) → Shows line.now v view.now
        → Appends (W.contents out.old) (W.contents out.new) (train_rows line.now v (state_of world.now).trains)) }
{
    for nid_engine in world.trains().as_slice() {
        print_train(out, line, *nid_engine, supervisor_of(view, *nid_engine))?;
    }
    Ok(())
}

// The centre that supervises a train, if one does.
fn supervisor_of(view: &LineView, nid_engine: u32) -> Option<u8>
    ensures { result ≡ option_and_then seat_of (find (λ x. x.nid_engine == nid_engine) view.now.trains.items) }
{
    for train in &view.trains {
        if train.nid_engine == nid_engine {
            return train.supervisor();
        }
    }
    None
}

/// Prints the use of a section.
pub fn print_section<W: Write>(
    out: &mut W,
    line: &Line,
    number: usize,
    section: &SectionView,
) -> Result<(), PrintFault>
    ensures { OnOk result (Appends (W.contents out.old) (W.contents out.new) (section_row line.now number
        (mark_shown section.now.mark) section.now.is_wished)) }
{
    write!(out, "section {number} {} ", home_of(line, number))?;
    print_mark(out, section.mark)?;
    let wish = if section.is_wished { " wished" } else { "" };
    writeln!(out, "{wish}")?;
    Ok(())
}

// Prints the use of a section, with the engine of the train that uses it.
fn print_mark<W: Write>(out: &mut W, mark: Mark) -> Result<(), PrintFault>
    ensures { OnOk result (Appends (W.contents out.old) (W.contents out.new) (mark_text (mark_shown mark))) }
{
    let (word, train) = match mark {
        Mark::Shut => ("shut", None),
        Mark::Open => ("open", None),
        Mark::Kept { nid_engine } => ("kept", Some(nid_engine)),
        Mark::Given { nid_engine } => ("given", Some(nid_engine)),
    };
    match train {
        Some(nid_engine) => write!(out, "{word} {nid_engine}")?,
        None => write!(out, "{word}")?,
    }
    Ok(())
}

/// Prints which centre supervises a train.
pub fn print_train<W: Write>(
    out: &mut W,
    line: &Line,
    nid_engine: u32,
    supervisor: Option<u8>,
) -> Result<(), PrintFault>
    ensures { OnOk result (Appends (W.contents out.old) (W.contents out.new)
        (train_row line.now nid_engine supervisor)) }
{
    let name = match supervisor {
        Some(centre) => name_of(line, centre),
        None => "none",
    };
    writeln!(out, "train {nid_engine} {name}")?;
    Ok(())
}

/// The centre that takes the step of an event.
fn centre_of(event: &WorldEvent) -> u8
    ensures { result ≡ centre_of (event_of event.now) }
{
    match event {
        WorldEvent::Train { centre, .. } => *centre,
        WorldEvent::Set { centre, .. } => *centre,
        WorldEvent::Unset { centre, .. } => *centre,
        WorldEvent::Deliver { to, .. } => *to,
    }
}

/// The name of a centre of the line.
pub fn name_of(line: &Line, centre: u8) -> &str
    ensures { result.now ≡ name_at line.now centre }
{
    line.centre_name(centre).unwrap_or("?")
}

/// The name of a section's home centre.
fn home_of(line: &Line, number: usize) -> &str
    ensures { result.now ≡ home_at line.now number }
{
    if number >= line.section_count() as usize {
        return "?";
    }
    match line.section(number as u16) {
        Some(section) => name_of(line, section.home),
        None => "?",
    }
}
