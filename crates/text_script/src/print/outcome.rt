ghost use Rattle.std.specs.Prelude.{◌≡◌, ◌↔◌, ℕ, List, [], IsTrue, OnOk, length, map, option_map};
ghost use Rattle.std.specs.List.{flat_map};
ghost use Rattle.std.specs.Option.{option_map_or};
ghost use Rattle.std.specs.Io.KnownBytes.{Appends};
ghost use Rattle.rbc_world.specs.rbc_centre.Sent.{frames_to};
ghost use Rattle.rbc_world.specs.rbc_centre.Views.{outcome_of, word_of};
ghost use Rattle.rbc_linkmsg.specs.Bodies.{body_of};
ghost use Rattle.rbc_world.specs.rbc_train.Reasons.{reason_of};
ghost use Rattle.rbc_world.specs.rbc_train.Sayings.{saying_of};
ghost use Rattle.text_script.specs.Print.Rows.{body_name, name_at, frame_row, remark_row, silence_row, word_row};
ghost use Rattle.text_script.specs.Print.Answers.{AreSayingRows, IsLinkRemark, IsOutcomePrint, IsRemark, IsSayingRow};
ghost use Rattle.text_script.specs.Print.Answers.{SaysNothing, frame_rows};

use crate::print::print::name_of;
use crate::status::PrintFault;
use rbc_line::Line;
use rbc_msgs::encode_track;
use rbc_world::{Body, Frames, LinkAnswer, Outcome, Reason, Saying, Word};
use std::alloc::Global;
use std::io::Write;

/// Prints the outcome of a step at the centre of this name.
pub fn print_outcome<W: Write>(
    alloc: Global,
    out: &mut W,
    line: &Line,
    centre: &str,
    outcome: &Outcome,
) -> Result<(), PrintFault>
    ensures { OnOk result ((text : List ℕ) × IsOutcomePrint line.now centre.now (outcome_of outcome.now) text
        × Appends (W.contents out.old) (W.contents out.new) text) }
{
    print_sayings(alloc, out, centre, outcome.sayings.as_slice())?;
    print_all_frames(out, line, centre, &outcome.frames)?;
    print_words(out, centre, outcome)?;
    print_remark(out, centre, outcome)
}

// Prints the step's messages to trains.
fn print_sayings<W: Write>(
    alloc: Global,
    out: &mut W,
    centre: &str,
    sayings: &[Saying],
) -> Result<(), PrintFault>
    ensures { OnOk result ((text : List ℕ) × AreSayingRows centre.now (map saying_of sayings.now) text
        × Appends (W.contents out.old) (W.contents out.new) text) }
{
    for saying in sayings {
        print_saying(alloc, out, centre, saying)?;
    }
    Ok(())
}

fn print_saying<W: Write>(
    alloc: Global,
    out: &mut W,
    centre: &str,
    saying: &Saying,
) -> Result<(), PrintFault>
    ensures { OnOk result ((text : List ℕ) × IsSayingRow centre.now (saying_of saying.now) text
        × Appends (W.contents out.old) (W.contents out.new) text) }
{
    let Ok(bytes) = encode_track(alloc, &saying.message) else {
        return Err(PrintFault::Memory);
    };
    let digits = hex::encode_upper(alloc, &bytes)?;
    writeln!(out, "{centre} -> {} {digits}", saying.nid_engine)?;
    Ok(())
}

// Prints the frames of the step, by the centres that receive them.
fn print_all_frames<W: Write>(
    out: &mut W,
    line: &Line,
    centre: &str,
    frames: &Frames,
) -> Result<(), PrintFault>
    ensures { OnOk result (Appends (W.contents out.old) (W.contents out.new) (frame_rows line.now centre.now
        (frames_to frames.now) (length line.now.centres))) }
{
    for to in 0..line.centre_count() {
        print_frames(out, line, centre, to, frames)?;
    }
    Ok(())
}

// Prints the frames to one centre.
fn print_frames<W: Write>(
    out: &mut W,
    line: &Line,
    centre: &str,
    to: u8,
    frames: &Frames,
) -> Result<(), PrintFault>
    ensures { OnOk result (Appends (W.contents out.old) (W.contents out.new) (flat_map (frame_row centre.now
        (name_at line.now to)) (frames_to frames.now to))) }
{
    let name = name_of(line, to);
    for frame in frames.to(to).as_slice() {
        let number = frame.number();
        let body = body_name(frame.body());
        writeln!(out, "{centre} => {name} {number} {body}")?;
    }
    Ok(())
}

// The printed name of a frame's body.
fn body_name(body: Body) -> &'static str
    ensures { result.now ≡ body_name (body_of body) }
{
    match body {
        Body::AskRight { .. } => "AskRight",
        Body::GiveRight { .. } => "GiveRight",
        Body::RefuseRight { .. } => "RefuseRight",
        Body::ReturnRight { .. } => "ReturnRight",
        Body::RouteAsk { .. } => "RouteAsk",
        Body::RouteInfo { .. } => "RouteInfo",
        Body::RouteWithdraw { .. } => "RouteWithdraw",
        Body::RouteReturn { .. } => "RouteReturn",
        Body::Announce { .. } => "Announce",
        Body::Cancel { .. } => "Cancel",
        Body::TakingOver { .. } => "TakingOver",
        Body::Yield { .. } => "Yield",
    }
}

// Prints the step's replies to the interlocking.
fn print_words<W: Write>(out: &mut W, centre: &str, outcome: &Outcome) -> Result<(), PrintFault>
    ensures { OnOk result (Appends (W.contents out.old) (W.contents out.new) (flat_map (word_row centre.now)
        (outcome_of outcome.now).words)) }
{
    for word in outcome.words().as_slice() {
        print_word(out, centre, word)?;
    }
    Ok(())
}

fn print_word<W: Write>(out: &mut W, centre: &str, word: &Word) -> Result<(), PrintFault>
    ensures { OnOk result (Appends (W.contents out.old) (W.contents out.new) (word_row centre.now
        (word_of word.now))) }
{
    let (section, told) = match word {
        Word::Done(section) => (*section, "Done"),
        Word::Asked(section) => (*section, "Asked"),
        Word::NotHome(section) => (*section, "NotHome"),
        Word::Told(section) => (*section, "Told"),
    };
    writeln!(out, "{centre} {section} {told}")?;
    Ok(())
}

// Prints why the step was silent, or its last remark.
fn print_remark<W: Write>(out: &mut W, centre: &str, outcome: &Outcome) -> Result<(), PrintFault>
    ensures { OnOk result ((text : List ℕ) × IsRemark centre.now (outcome_of outcome.now)
        (outcome_of outcome.now).silence text × Appends (W.contents out.old) (W.contents out.new) text) }
{
    match outcome.silence {
        Some(why) => print_silence(out, centre, why),
        None => print_last(out, centre, remark_on(outcome)),
    }
}

fn print_silence<W: Write>(out: &mut W, centre: &str, why: Reason) -> Result<(), PrintFault>
    ensures { OnOk result (Appends (W.contents out.old) (W.contents out.new) (silence_row centre.now
        (reason_of why))) }
{
    writeln!(out, "{centre} silent {}", why.number())?;
    Ok(())
}

fn print_last<W: Write>(out: &mut W, centre: &str, remark: Option<&str>) -> Result<(), PrintFault>
    ensures { OnOk result (Appends (W.contents out.old) (W.contents out.new) (option_map_or (remark_row centre.now)
        (option_map (λ r. r.now) remark.entry) [])) }
{
    let Some(remark) = remark else {
        return Ok(());
    };
    writeln!(out, "{centre} {remark}")?;
    Ok(())
}

// The remark: a frame was old or came early, or the step took its event and sends nothing.
fn remark_on(outcome: &Outcome) -> Option<&'static str>
    ensures { IsLinkRemark (outcome_of outcome.now) (outcome_of outcome.now).link (option_map
        (λ remark. remark.now) result) }
{
    match outcome.link {
        Some(LinkAnswer::Old) => Some("old"),
        Some(LinkAnswer::Early) => Some("early"),
        _ if says_nothing(outcome) => Some("ok"),
        _ => None,
    }
}

// Whether a step sends nothing: to no train, to no other centre, and not to the interlocking.
fn says_nothing(outcome: &Outcome) -> bool
    ensures { IsTrue result ↔ SaysNothing (outcome_of outcome.now) }
{
    outcome.sayings.is_empty() && outcome.frames.is_empty() && outcome.words().is_empty()
}
