//! Counts the frames of each link, and draws a delivery by these counts.

ghost use Rattle.std.specs.Prelude.{◌≡◌, ◌<◌, IfOk, length, map, slice_get, Some};
ghost use Rattle.std.specs.List.{filter};
ghost use Rattle.rbc_spec.specs.World.{new_world};
ghost use Rattle.text_script.specs.rbc_centre.Sent.{frames_to};
ghost use Rattle.text_script.specs.rbc_world.Views.{answer_of};
ghost use Rattle.cli_storm.specs.Links.{all_links, counted, counted_by, delivery, has_sent, last_number};

use crate::draws::Draws;
use rbc_line::Line;
use std::alloc::{AllocError, Global};
use text_script::{Answer, Frame, Frames, WorldEvent};

/// A link from one centre of a line to another.
#[derive(Clone, Copy)]
pub struct Link {
    /// The number of the sender.
    pub from: u8,
    /// The number of the receiver.
    pub to: u8,
    /// The number of frames that it has sent.
    pub sent: u32,
}

/// The links of a line before any frame is sent, by sender, and then by receiver.
pub fn links_of(alloc: Global, line: &Line) -> Result<Vec<Link>, AllocError>
    ensures { IfOk result (λ ls. ls.items ≡ all_links line.now (new_world line.now)) }
{
    let count = line.centre_count();
    let mut links = Vec::new(alloc);
    for place in 0..count * count {
        links.push(Link {
            from: place / count,
            to: place % count,
            sent: 0,
        })?;
    }
    Ok(links)
}

// Counts the frames of an event's answer at centre `from`.
pub(crate) fn count_answer(links: &mut Vec<Link>, from: u8, answer: &Answer)
    ensures { links.new.items ≡ counted_by from (answer_of answer.now) links.old.items }
{
    match answer {
        Answer::Outcome(outcome) => count_frames(links, from, &outcome.frames),
        Answer::NoCentre | Answer::NotSent | Answer::Fault(_) => {}
    }
}

// Counts the frames that a step of centre `from` has sent.
fn count_frames(links: &mut Vec<Link>, from: u8, frames: &Frames)
    ensures { links.new.items ≡ map (counted from (frames_to frames.now)) links.old.items }
{
    for link in links.iter_mut() {
        *link = counted(*link, from, frames);
    }
}

fn counted(link: Link, from: u8, frames: &Frames) -> Link
    ensures { result ≡ counted from (frames_to frames.now) link }
{
    if link.from != from {
        return link;
    }
    let frames = frames.to(link.to);
    Link {
        from: link.from,
        to: link.to,
        sent: last_number(link.sent, frames.as_slice()),
    }
}

// The number of the last frame, or `before` if there is none.
fn last_number(before: u32, frames: &[Frame]) -> u32
    ensures { result ≡ last_number before frames.now }
{
    let mut number = before;
    for frame in frames {
        number = frame.number();
    }
    number
}

/// Draws a delivery: one of the links that have sent a frame, and the number of one of its frames or the next number.
/// None if no link has sent a frame.
pub fn draw_delivery(draws: &mut Draws, links: &[Link]) -> Option<WorldEvent>
    ensures { (result, draws.new.x) ≡ delivery (filter has_sent links.now) draws.old.x }
{
    let count = sending_count(links);
    if count == 0 {
        return None;
    }
    let link = sending_at(links, draws.draw() as usize % count);
    let number = u64::from(draws.draw()) % (u64::from(link.sent) + 1) + 1;
    Some(WorldEvent::Deliver {
        from: link.from,
        to: link.to,
        number: number as u32,
    })
}

// The number of links that have sent a frame.
fn sending_count(links: &[Link]) -> usize
    ensures { result ≡ length (filter has_sent links.now) }
{
    let mut count = 0;
    for link in links {
        if link.sent > 0 {
            count += 1;
        }
    }
    count
}

// The link at this place among those that have sent a frame.
fn sending_at(links: &[Link], place: usize) -> Link
    requires { place < length (filter has_sent links.now) }
    ensures { slice_get (filter has_sent links.now) place ≡ Some result }
{
    let mut left = place;
    for link in links {
        if link.sent > 0 {
            if left == 0 {
                return *link;
            }
            left -= 1;
        }
    }
    unreachable!()
}
