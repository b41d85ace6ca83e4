//! The frames of a step to other centres, sent on its links.

ghost use Rattle.std.specs.Prelude.{◌≡◌, ◌⊎◌, ◌+◌, ◌≤◌, ◌<◌, ℕ, IsTrue, [], Some, length};
ghost use Rattle.std.specs.Vec.{vec_capacity};
ghost use Rattle.rbc_linkmsg.specs.declared.body.Body.{Body as BodyCode};
ghost use Rattle.rbc_spec.specs.Frame.{last_stamp};
ghost use Rattle.rbc_train.specs.Letters.{bodies_in};
ghost use Rattle.rbc_centre.specs.Posts.{MayPost, MaySend, HasSent, IsSent, only};
ghost use Rattle.rbc_centre.specs.Sent.{frames_to};

use crate::frame_room::FrameRoom;
use crate::frames::Frames;
use crate::reach::Reach;
use crate::returned::{letter_to, stays};
use crate::sent_frame::SentFrame;
use rbc_handover::Expectations;
use rbc_line::{Line, SectionRun};
use rbc_link::Links;
use rbc_linkmsg::{Body, Frame};
use rbc_train::{Mail, Notice, part_of};
use std::cmp::min;

/// The mail of a step, and the values that are sent with it.
#[derive(Clone, Copy)]
pub(crate) struct Dispatch<'a> {
    pub(crate) line: &'a Line,
    /// The number of the centre that takes the step.
    pub(crate) centre: u8,
    /// The train that the mail is of.
    pub(crate) nid_engine: u32,
    /// The stamp of the step.
    pub(crate) stamp: u32,
    /// The handovers of the train that the centre expects.
    pub(crate) expectations: &'a Expectations,
    pub(crate) mail: &'a Mail,
}

impl Dispatch<'_> {
    ghost use Rattle.rbc_line.specs.SectionRuns.{run_of};
    ghost use Rattle.rbc_train.specs.Letters.{going_home};
    ghost use Rattle.rbc_centre.specs.Dispatches.{bodies_to};

    /// Sends the mail to each centre: first the sections that return to its home, then the notice of a handover, and
    /// then the letter. The frames replace those before.
    #[inline(always)]
    pub(crate) fn post(&self, links: &mut Links<Body>, room: &mut FrameRoom, frames: &mut Frames)
        requires { MaySend self.now.line.now self.now.centre self.now.stamp (bodies_to self.now) links.old room.old }
        ensures { IsSent self.now.stamp (bodies_to self.now) links.old links.new (frames_to frames.new) }
    {
        if self.is_nothing() {
            frames.clear();
            return;
        }
        // The copy keeps a step that sends nothing in registers.
        let dispatch = *self;
        dispatch.post_all(links, room, frames);
    }

    // Whether there is nothing to send.
    #[inline(always)]
    fn is_nothing(&self) -> bool
        ensures { IsTrue result → (d : ℕ) → bodies_to self.now d ≡ [] }
    {
        self.mail.notice == Notice::Nothing
            && self.mail.letter.is_none()
            && stays(self.line, self.centre, self.mail.first)
            && stays(self.line, self.centre, self.mail.second)
    }

    // Sends each centre its part of the mail.
    fn post_all(&self, links: &mut Links<Body>, room: &mut FrameRoom, frames: &mut Frames)
        requires { MaySend self.now.line.now self.now.centre self.now.stamp (bodies_to self.now) links.old room.old }
        ensures { IsSent self.now.stamp (bodies_to self.now) links.old links.new (frames_to frames.new) }
    {
        let reach = Reach::of(self);
        let mut list = room.swap(frames.list.take());
        let end = min(reach.last.saturating_add(1), self.line.centre_count());
        for to in reach.first..end {
            self.post_to(links, &mut list, to);
        }
        frames.list = Some(list);
    }

    // Sends one centre its part of the mail.
    #[inline(always)]
    fn post_to(&self, links: &mut Links<Body>, list: &mut Vec<SentFrame>, to: u8)
        requires stamp { (1 ≤ self.now.stamp) × (self.now.stamp ≤ last_stamp) }
        requires may { MayPost links.old to (bodies_to self.now to) }
        requires room { (bodies_to self.now to ≡ []) ⊎ (length list.old.items + 4 ≤ vec_capacity list.old) }
        ensures sent { HasSent self.now.stamp (only to (bodies_to self.now to))
            links.old links.new list.old.items list.new.items }
        ensures count { length list.new.items ≤ length list.old.items + 4 }
        ensures capacity { vec_capacity list.new ≡ vec_capacity list.old }
    {
        let mail = self.mail;
        let stamp = self.stamp;
        post_one(links, list, stamp, to, self.home(to, mail.first));
        post_one(links, list, stamp, to, self.home(to, mail.second));
        let notice = mail
            .notice
            .to_centre(self.nid_engine, self.expectations, to);
        post_one(links, list, stamp, to, notice);
        post_one(links, list, stamp, to, letter_to(mail.letter, to));
    }

    // The body that returns to a centre those sections of a run that are of its home, if there are some.
    #[inline(always)]
    fn home(&self, to: u8, sections: SectionRun) -> Option<Body>
        ensures { bodies_in result ≡ going_home self.now.line.now self.now.centre self.now.nid_engine
            self.now.mail.now.track (run_of sections) to }
    {
        if sections.is_empty() {
            return None;
        }
        let run = part_of(self.line, self.centre, to, self.mail.track, sections)?;
        Some(Body::RouteReturn {
            engine: self.nid_engine,
            run,
        })
    }
}

/// The same body for each other centre of the line.
#[derive(Drop)]
pub(crate) struct Broadcast<'a> {
    pub(crate) line: &'a Line,
    /// The number of the centre that takes the step.
    pub(crate) centre: u8,
    /// The stamp of the step.
    pub(crate) stamp: u32,
    pub(crate) body: Body,
}

impl Broadcast<'_> {
    ghost use Rattle.rbc_centre.specs.Dispatches.{told_by};

    /// Sends it to each of them. The frames replace those before.
    pub(crate) fn post(&self, links: &mut Links<Body>, room: &mut FrameRoom, frames: &mut Frames)
        requires { MaySend self.now.line.now self.now.centre self.now.stamp (told_by self.now) links.old room.old }
        ensures { IsSent self.now.stamp (told_by self.now) links.old links.new (frames_to frames.new) }
    {
        let mut list = room.swap(frames.list.take());
        for to in 0..self.line.centre_count() {
            post_one(links, &mut list, self.stamp, to, self.body_to(to));
        }
        frames.list = Some(list);
    }

    // The body for one centre, if it is another centre of the line.
    fn body_to(&self, to: u8) -> Option<Body>
        ensures { bodies_in result ≡ told_by self.now to }
    {
        if self.line.linked(self.centre, to) {
            Some(self.body)
        } else {
            None
        }
    }
}

// Sends a centre this body, if there is one, as the next frame of its link.
#[inline(always)]
fn post_one(
    links: &mut Links<Body>,
    list: &mut Vec<SentFrame>,
    stamp: u32,
    to: u8,
    body: Option<Body>,
)
    requires stamp { (1 ≤ stamp) × (stamp ≤ last_stamp) }
    requires may { MayPost links.old to (bodies_in body) }
    requires room { (b : BodyCode) → body ≡ Some b → length list.old.items < vec_capacity list.old }
    ensures sent { HasSent stamp (only to (bodies_in body)) links.old links.new list.old.items list.new.items }
    ensures count { length list.new.items ≤ length list.old.items + 1 }
    ensures capacity { vec_capacity list.new ≡ vec_capacity list.old }
{
    let Some(body) = body else {
        return;
    };
    let number = links.post(to, stamp, body);
    list.push_reserved(SentFrame {
        to,
        frame: Frame::new(number, stamp, body),
    });
}
