//! The links between centres: frames are delivered out of order, and again.

ghost use Rattle.std.specs.Prelude.{◌++◌, ◌<◌, ◌≡◌, ◌≤◌, IfOk, IfSome, length, map, OnOk, slice_get, Some};
ghost use Rattle.cli_demo.specs.Deliveries.{IsSentOn, links_from, links_to, sent_from, taken_by};
ghost use Rattle.cli_storm.specs.Links.{last_number};
ghost use Rattle.text_script.specs.rbc_centre.Sent.{frames_to};
ghost use Rattle.cli_demo.specs.declared.links.Link.{Link as Way};

use cli_storm::{Draws, below, in_hundred};
use rbc_line::Line;
use std::alloc::{AllocError, Global};
use text_script::{Frame, Frames, LinkAnswer, WorldEvent};

/// A link from one centre to another: how many frames were sent, and how many were taken.
#[derive(Clone, Copy)]
struct Link {
    from: u8,
    to: u8,
    sent: u32,
    taken: u32,
}

/// The links of a line.
#[derive(Drop)]
pub(crate) struct Links {
    links: Vec<Link>,
}

impl Links {
    pub(crate) fn new(alloc: Global, line: &Line) -> Result<Links, AllocError>
        ensures { IfOk result (λ links. links.links.items
            ≡ links_from (length line.now.centres) (length line.now.centres)) }
    {
        let mut links = Vec::new(alloc);
        for from in 0..line.centre_count() {
            add_links(&mut links, from, line.centre_count())?;
        }
        Ok(Links { links })
    }

    /// How many links there are.
    pub(crate) fn count(&self) -> usize
        ensures { result ≡ length self.now.links.items }
    {
        self.links.len()
    }

    /// The frames of a centre are on the way.
    pub(crate) fn send(&mut self, from: u8, frames: &Frames)
        ensures { self.new.links.items ≡ map (sent_from from (frames_to frames.now)) self.old.links.items }
    {
        send_on(&mut self.links, from, frames);
    }

    /// A centre answered an event: it took the frame that was delivered, or not.
    pub(crate) fn answered(&mut self, event: &WorldEvent, answer: Option<LinkAnswer>) {
        let WorldEvent::Deliver { from, to, number } = event else {
            return;
        };
        if answer == Some(LinkAnswer::Next) {
            take_on(&mut self.links, *from, *to, *number);
        }
    }

    /// A frame of the link that is delivered now, by lot: mostly the next one, else any.
    pub(crate) fn delivery(&self, draws: &mut Draws, loss: u8, link: usize) -> Option<WorldEvent>
        ensures { (way : Way) → slice_get self.now.links.items link ≡ Some way → IfSome result (IsSentOn way) }
    {
        let link = self.links.get(link)?;
        if link.sent == 0 {
            return None;
        }
        let is_late = link.taken < link.sent;
        if (!is_late && in_hundred(draws, 98)) || in_hundred(draws, loss) {
            return None;
        }
        let number = link.number(draws)?;
        Some(WorldEvent::Deliver {
            from: link.from,
            to: link.to,
            number,
        })
    }
}

// Adds the links from a centre to each.
fn add_links(links: &mut Vec<Link>, from: u8, count: u8) -> Result<(), AllocError>
    ensures { OnOk result (links.new.items ≡ links.old.items ++ links_to from count) }
{
    for to in 0..count {
        links.push(Link {
            from,
            to,
            sent: 0,
            taken: 0,
        })?;
    }
    Ok(())
}

// The frames of a step of centre `from` are on the way.
fn send_on(links: &mut Vec<Link>, from: u8, frames: &Frames)
    ensures { links.new.items ≡ map (sent_from from (frames_to frames.now)) links.old.items }
{
    for link in links.iter_mut() {
        *link = sent_from(*link, from, frames);
    }
}

fn sent_from(link: Link, from: u8, frames: &Frames) -> Link
    ensures { result ≡ sent_from from (frames_to frames.now) link }
{
    if link.from != from {
        return link;
    }
    let frames = frames.to(link.to);
    Link {
        from: link.from,
        to: link.to,
        sent: last_number(link.sent, frames.as_slice()),
        taken: link.taken,
    }
}

// The number of the last frame, or `before` if there is none.
fn last_number(before: u32, frames: &[Frame]) -> u32
    ensures { result ≡ last_number before frames.now }
{
    let mut number = before;
    for frame in frames {
        number = frame.number();
    }
    number
}

// The frame of this number was taken, on the link from one centre to another.
fn take_on(links: &mut Vec<Link>, from: u8, to: u8, number: u32)
    ensures { links.new.items ≡ map (taken_by from to number) links.old.items }
{
    for link in links.iter_mut() {
        *link = taken_by(*link, from, to, number);
    }
}

fn taken_by(link: Link, from: u8, to: u8, number: u32) -> Link
    ensures { result ≡ taken_by from to number link }
{
    if link.from == from && link.to == to {
        Link {
            from,
            to,
            sent: link.sent,
            taken: number,
        }
    } else {
        link
    }
}

impl Link {
    // The number of a frame: mostly the next one that was not taken, else any. None if none was sent.
    fn number(&self, draws: &mut Draws) -> Option<u32>
        ensures { IfSome result (λ n. (0 < n) × (n ≤ self.now.sent)) }
    {
        if self.taken < self.sent && in_hundred(draws, 75) {
            return Some(self.taken.saturating_add(1));
        }
        if self.sent == 0 {
            return None;
        }
        let place = below(draws, self.sent as usize);
        Some((place as u32).saturating_add(1))
    }
}
