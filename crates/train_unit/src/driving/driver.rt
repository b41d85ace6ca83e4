//! A train's driver: its sessions with centres, and its next message to each.

use crate::driving::speech::{DOUBT, Speech};
use crate::ends::Ends;
use crate::policy::{Contact, NextMessage, Session};
use crate::unit::OnBoardUnit;

/// After this time a train sends a report or an end of a session again, in units of 10 ms.
const REPORT: u32 = 600;

/// After this time without a message of a centre a train opens its session again.
const SILENCE: u32 = 3_000;

/// How often a train sends the end of its mission, which no centre acknowledges.
const ENDS: u8 = 20;

/// How far from the end of its authority, or from its goal, a train stops, in decimetres.
pub const MARGIN: u32 = 20;

/// The knowledge of a train about a centre.
#[derive(Clone, Copy, Debug)]
pub(crate) struct Talk {
    pub(crate) contact: Contact,
    /// When the train received the last message of the centre.
    pub(crate) heard: u32,
    /// When the train sent the last report to it.
    reported: u32,
    /// The centre has ordered the end of the session.
    pub(crate) is_ending: bool,
}

/// The knowledge of a train besides that of its on-board unit.
#[derive(Clone, Copy, Debug)]
pub struct Driver {
    /// The goal of its front end, in decimetres from the start of the track.
    pub goal: u32,
    /// T_TRAIN of its last message.
    pub clock: u32,
    /// The centre that it follows, as its on-board unit does.
    pub follows: Option<u8>,
    /// The centre that it followed last.
    pub followed: Option<u8>,
    /// T_TRAIN of the last message by which it gave something back.
    pub(crate) gave_back: u32,
    /// A centre has accepted it.
    pub is_accepted: bool,
    /// How often it has sent the end of its mission at its goal.
    pub(crate) ended: u8,
    talks: [Option<Talk>; 8],
}

impl Driver {
    /// A driver before its first message.
    pub fn new(goal: u32) -> Driver {
        Driver {
            goal,
            clock: 0,
            follows: None,
            followed: None,
            gave_back: 0,
            is_accepted: false,
            ended: 0,
            talks: [None; 8],
        }
    }

    /// Whether the train is at its goal.
    pub fn has_arrived(&self, ends: Ends) -> bool {
        ends.front.saturating_add(MARGIN) >= self.goal
    }

    /// Whether the train has ended its mission at its goal.
    pub fn is_done(&self) -> bool {
        self.ended > 0
    }

    /// Whether the train talks to this centre.
    pub fn talks_to(&self, centre: u8) -> bool {
        self.talk(centre).is_some()
    }

    pub(crate) fn talk(&self, centre: u8) -> Option<Talk> {
        self.talks.get(centre as usize).copied()?
    }

    pub(crate) fn set_talk(&mut self, centre: u8, talk: Option<Talk>) {
        if let Some(place) = self.talks.get_mut(centre as usize) {
            *place = talk;
        }
    }

    /// The train is to have a session with this centre.
    pub fn engage(&mut self, centre: u8, now: u32) {
        if self.talk(centre).is_none() {
            self.set_talk(centre, Some(opened(centre, now)));
        }
    }

    /// The train talks to no other centre from now on.
    pub(crate) fn keep_only(&mut self, centre: u8) {
        let talk = self.talk(centre);
        self.talks = [None; 8];
        self.set_talk(centre, talk);
    }

    /// A session in which nothing was received for long is opened again, or is over if it was to end.
    pub fn reopen(&mut self, centre: u8, now: u32) {
        if self.ended < ENDS
            && let Some(talk) = self.talk(centre)
            && talk.heard.saturating_add(SILENCE) < now
        {
            let again = if talk.is_ending {
                None
            } else {
                Some(opened(centre, now))
            };
            self.set_talk(centre, again);
        }
    }

    /// The next message of the train to a centre, with this T_TRAIN. `home` is the home of its front end's section.
    pub fn speech(
        &self,
        unit: &OnBoardUnit,
        centre: u8,
        home: u8,
        stamp: u32,
        ends: Ends,
    ) -> Option<Speech> {
        let talk = self.talk(centre)?;
        let is_due = talk.reported.saturating_add(REPORT) <= stamp;
        if talk.is_ending {
            return is_due.then_some(Speech::EndOfSession);
        }
        let is_last = self.has_arrived(ends) && home == centre && self.follows == Some(centre);
        if self.is_done() && (home != centre || self.ended >= ENDS) {
            return None;
        }
        if (self.is_done() || is_last) && is_established(talk.contact.session) {
            return is_due.then_some(Speech::EndOfMission);
        }
        if is_due && self.follows.is_some() && is_established(talk.contact.session) {
            return Some(Speech::Report);
        }
        let front = ends.front.saturating_add(DOUBT);
        Some(Speech::Next(unit.next_message(talk.contact, stamp, front)?))
    }

    /// The train has sent this to the centre.
    pub fn has_sent(&mut self, centre: u8, speech: Speech, stamp: u32) {
        self.clock = stamp;
        let Some(mut talk) = self.talk(centre) else {
            return;
        };
        match speech {
            Speech::Next(next) => {
                talk.contact.last = stamp;
                talk.sent(next);
                if is_granted(next) {
                    self.gave_back = stamp;
                    self.follows = None;
                }
            }
            Speech::EndOfMission => {
                talk.reported = stamp;
                self.gave_back = stamp;
                self.follows = None;
                self.ended = self.ended.saturating_add(1);
            }
            Speech::Report | Speech::EndOfSession => talk.reported = stamp,
        }
        self.set_talk(centre, Some(talk));
    }
}

impl Talk {
    // The policy's message was sent.
    fn sent(&mut self, next: NextMessage) {
        match next {
            NextMessage::SessionEstablished => self.contact.session = Session::Established,
            NextMessage::ShorteningGranted(_) | NextMessage::ShorteningRejected(_) => {
                self.contact.request = None;
            }
            _ => {}
        }
    }
}

fn is_granted(next: NextMessage) -> bool {
    matches!(next, NextMessage::ShorteningGranted(_))
}

fn is_established(session: Session) -> bool {
    matches!(session, Session::Established | Session::Accepted)
}

// A talk that begins.
fn opened(centre: u8, now: u32) -> Talk {
    Talk {
        contact: Contact {
            centre,
            session: Session::Closed,
            last: now.saturating_sub(400),
            request: None,
        },
        heard: now,
        reported: now,
        is_ending: false,
    }
}
