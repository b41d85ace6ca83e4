ghost use Rattle.std.specs.Prelude.{◌≡◌, ℕ, ◌+◌, ◌≤◌, ◌<◌, ◌==◌, ◌&&◌, true, if◌then◌else◌, [], ◌∷◌, ◌++◌, length};
ghost use Rattle.std.specs.Prelude.{nat_lt, option_copied, IfOk, OnOk, IsOk, IsTrue};
ghost use Rattle.std.specs.List.{list_any, range_with_len};
ghost use Rattle.rbc_spec.specs.Frame as spec;
ghost use Rattle.rbc_spec.specs.Line.{is_linked};
ghost use Rattle.rbc_spec.specs.Maps.{put};
ghost use Rattle.rbc_spec.specs.Step.{offered, numbered};
ghost use Rattle.rbc_spec.specs.Outcome.{NoLink};
ghost use Rattle.rbc_spec.specs.Frame.{last_stamp};
ghost use Rattle.rbc_link.specs.Inbox.{answer_of, taken_after};
ghost use Rattle.rbc_link.specs.Outgoing.{frame_number, frames_by};
ghost use Rattle.rbc_link.specs.Links as listed;

use crate::link::Link;
use crate::link_answer::LinkAnswer;
use crate::sent::Sent;
use rbc_line::Line;
use std::alloc::{AllocError, Global};
use std::marker::Model;

/// The links of one centre with the others of its line, by their numbers. `B` is the type of a frame's body.
#[derive(Drop)]
pub struct Links<B> {
    /// Of each centre of the line, itself too.
    links: Vec<Link<B>>,
    /// It is known that no link is full and that each has room for the frames of a step.
    is_ready: bool,
}

impl<B> Model for Links<B> {
    ghost use Rattle.std.specs.Prelude.{List};
    ghost use Rattle.rbc_link.specs.declared.link.Link.{Link};

    ghost Value = { List (Link B) };

    ghost view = { λ l. l.links.items };

    ghost use Rattle.std.specs.Prelude.{◌≡◌, true};
    ghost use Rattle.rbc_link.specs.Links.{IsReady};

    ghost invariant = { λ l. l.is_ready ≡ true → IsReady l.links.items };
}

impl<B> Links<B> {
    ghost use Rattle.rbc_link.specs.Links.{has_link, taken_from, sent_to, room_to, KeepsLinks, HasRoom};

    /// The initial links of a centre of the line: no frame was taken or sent.
    pub fn new(alloc: Global, line: &Line, centre: u8) -> Result<Links<B>, AllocError>
        ensures count { IfOk result (λ l. length l ≡ length line.now.centres) }
        ensures linked { IfOk result (λ l. (d : ℕ) → has_link l d ≡ is_linked line.now centre d) }
        ensures taken { IfOk result (λ l. (d : ℕ) → taken_from l d ≡ 0) }
        ensures sent { IfOk result (λ l. (d : ℕ) → sent_to l d ≡ []) }
    {
        let count = line.centre_count();
        let mut links = Vec::with_capacity(alloc, count as usize)?;
        for d in 0..count {
            links.push_reserved(Link::new(alloc, line.linked(centre, d)));
        }
        Ok(Links {
            links,
            is_ready: false,
        })
    }

    /// Whether there is a link with this centre.
    #[tactic(auto, unfolding(crate::specs::Links::has_link))]
    pub fn has(&self, centre: u8) -> bool
        ensures { result ≡ has_link self.now centre }
    {
        match self.links.get(centre as usize) {
            Some(link) => link.is_linked,
            None => false,
        }
    }

    /// How many frames of this centre were taken.
    #[tactic(auto, unfolding(crate::specs::Links::taken_from))]
    pub fn taken(&self, from: u8) -> u32
        ensures { result ≡ taken_from self.now from }
    {
        match self.links.get(from as usize) {
            Some(link) => link.inbox.taken(),
            None => 0,
        }
    }

    /// How many frames were sent to this centre.
    #[tactic(auto, unfolding(crate::specs::Links::sent_to))]
    pub fn sent(&self, to: u8) -> u32
        ensures { result ≡ length (sent_to self.now to) }
    {
        match self.links.get(to as usize) {
            Some(link) => link.outbox.count(),
            None => 0,
        }
    }

    /// The frame of this number that was sent to a centre; `None` if and only if the number is 0 or was not sent yet.
    #[tactic(auto, unfolding(crate::specs::Links::sent_to))]
    pub fn get(&self, to: u8, number: u32) -> Option<&Sent<B>>
        ensures { option_copied result ≡ frame_number (sent_to self.now to) number }
    {
        match self.links.get(to as usize) {
            Some(link) => link.outbox.get(number),
            None => None,
        }
    }

    /// Offers the link from a centre a frame by its number, which is at most 65 536. Only the next frame is taken;
    /// nothing changes else.
    pub fn offer(&mut self, from: u8, number: u32) -> LinkAnswer
        requires { number ≤ 65536 }
        ensures answer { answer_of result
            ≡ (if has_link self.old from then offered (taken_from self.old from) number else NoLink) }
        ensures count { length self.new ≡ length self.old }
        ensures linked { (d : ℕ) → has_link self.new d ≡ has_link self.old d }
        ensures taken { (d : ℕ) → taken_from self.new d ≡ put (taken_from self.old) from
            (taken_after (answer_of result) (taken_from self.old from) number) d }
        ensures sent { (d : ℕ) → sent_to self.new d ≡ sent_to self.old d }
        ensures room { (d : ℕ) → room_to self.new d ≡ room_to self.old d }
    {
        if !self.has(from) {
            return LinkAnswer::NoLink;
        }
        self.links[from as usize].offer(number)
    }

    /// Whether some link has fewer than four numbers left. Then no step is taken.
    #[inline(always)]
    pub fn is_full(&self) -> bool
        ensures { result ≡ list_any (λ d. has_link self.now d && nat_lt 65532 (length (sent_to self.now d)))
            (range_with_len 0 (length self.now)) }
    {
        if self.is_ready {
            return false;
        }
        is_some_full(self.links.as_slice())
    }

    /// Makes room for `count` further frames on each link, so that sending them takes no memory. A refusal changes only
    /// the room.
    #[inline(always)]
    pub fn reserve(&mut self, count: usize) -> Result<(), AllocError>
        ensures keeps { KeepsLinks self.old self.new }
        ensures room { OnOk result (HasRoom self.new count) }
        ensures succeeds { HasRoom self.old count → IsOk result }
    {
        if self.is_ready && count <= FRAMES_TO_ONE {
            return Ok(());
        }
        self.make_ready(count)
    }

    // Makes the room, and tests all links.
    #[inline(never)]
    fn make_ready(&mut self, count: usize) -> Result<(), AllocError>
        ensures keeps { KeepsLinks self.old self.new }
        ensures room { OnOk result (HasRoom self.new count) }
        ensures succeeds { HasRoom self.old count → IsOk result }
    {
        self.is_ready = false;
        reserve_each(&mut self.links, count)?;
        if FRAMES_TO_ONE <= count && !self.is_full() {
            self.is_ready = true;
        }
        Ok(())
    }

    /// Sends a centre a frame with this body and the stamp of the step: its number is the next of the link. There is
    /// room for it, and a number.
    #[inline(never)]
    pub fn post(&mut self, to: u8, stamp: u32, body: B) -> u32
        requires linked { has_link self.old to ≡ true }
        requires room { 0 < room_to self.old to }
        requires numbers { length (sent_to self.old to) < 65536 }
        requires stamped { (1 ≤ stamp) × (stamp ≤ last_stamp) }
        ensures number { result ≡ length (sent_to self.old to) + 1 }
        ensures count { length self.new ≡ length self.old }
        ensures linked { (d : ℕ) → has_link self.new d ≡ has_link self.old d }
        ensures taken { (d : ℕ) → taken_from self.new d ≡ taken_from self.old d }
        ensures sent { (meaning : B → spec.Body) (d : ℕ) → frames_by meaning (sent_to self.new d)
            ≡ frames_by meaning (sent_to self.old d)
            ++ numbered stamp (length (sent_to self.old d)) (if d == to then meaning body ∷ [] else []) }
        ensures room { (d : ℕ) → room_to self.old d ≡ room_to self.new d + (if d == to then 1 else 0) }
    {
        let number = self.links[to as usize].send(stamp, body);
        self.is_ready = self.is_ready && is_ready(&self.links[to as usize]);
        number
    }
}

// How many frames a step sends on one link at the most.
const FRAMES_TO_ONE: usize = 4;

// The least number of frame numbers that each link must have left for a step.
const NUMBERS_LEFT: u32 = 4;

// Whether some link has fewer numbers left than that.
fn is_some_full<B>(links: &[Link<B>]) -> bool
    ensures { result ≡ list_any (λ l. l.is_linked && nat_lt 65536 (length l.outbox.frames + 4)) links.now }
{
    links
        .iter()
        .any(|link| link.is_linked && link.outbox.is_full(NUMBERS_LEFT))
}

// Whether a link has room and numbers for the frames of a step.
fn is_ready<B>(link: &Link<B>) -> bool
    ensures room { IsTrue result → 4 ≤ link.now.outbox.room }
    ensures numbers { IsTrue result → length link.now.outbox.frames ≤ 65532 }
{
    link.outbox.has_room(FRAMES_TO_ONE) && !link.outbox.is_full(NUMBERS_LEFT)
}

// Makes room on each link.
fn reserve_each<B>(links: &mut Vec<Link<B>>, count: usize) -> Result<(), AllocError>
    ensures keeps { listed.KeepsLinks links.old.items links.new.items }
    ensures room { OnOk result (listed.HasRoom links.new.items count) }
    ensures succeeds { listed.HasRoom links.old.items count → IsOk result }
{
    for i in 0..links.len() {
        links[i].reserve(count)?;
    }
    Ok(())
}
