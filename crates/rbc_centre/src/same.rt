ghost use Rattle.std.specs.Prelude.{◌≡◌, ◌↔◌, map, option_map, IsTrue, IfOk};
ghost use Rattle.rbc_link.specs.Inbox.{answer_of};
ghost use Rattle.rbc_train.specs.Reasons.{reason_of};
ghost use Rattle.rbc_train.specs.Sayings.{saying_of};
ghost use Rattle.rbc_centre.specs.Rooms.{HasFrameRoom};
ghost use Rattle.rbc_centre.specs.Views.{word_of, outcome_of};

use crate::event::Event;
use crate::frame_room::FrameRoom;
use crate::outcome::{Outcome, Word};
use arrayvec::ArrayVec;
use rbc_link::LinkAnswer;
use rbc_train::{Reason, Saying};
use std::alloc::{AllocError, Global};

impl Event {
    /// Whether another event is the same.
    pub fn is_same(&self, other: &Event) -> bool
        ensures { IsTrue result ↔ (self.now ≡ other.now) }
    {
        match self {
            Event::Train(message) => match other {
                Event::Train(another) => message.is_same(another),
                Event::Set(_) | Event::Unset(_) | Event::Deliver { .. } => false,
            },
            Event::Set(s) => match other {
                Event::Set(another) => s == another,
                Event::Train(_) | Event::Unset(_) | Event::Deliver { .. } => false,
            },
            Event::Unset(s) => match other {
                Event::Unset(another) => s == another,
                Event::Train(_) | Event::Set(_) | Event::Deliver { .. } => false,
            },
            Event::Deliver { from, frame } => match other {
                Event::Deliver {
                    from: another,
                    frame: other_frame,
                } => from == another && frame == other_frame,
                Event::Train(_) | Event::Set(_) | Event::Unset(_) => false,
            },
        }
    }

    /// A copy of the event. Only the packets of a train's message that are kept without being read take memory.
    pub fn copied(&self, alloc: Global) -> Result<Event, AllocError>
        ensures { IfOk result (λ event. event ≡ self.now) }
    {
        match self {
            Event::Train(message) => Ok(Event::Train(message.copied(alloc)?)),
            Event::Set(s) => Ok(Event::Set(*s)),
            Event::Unset(s) => Ok(Event::Unset(*s)),
            Event::Deliver { from, frame } => Ok(Event::Deliver {
                from: *from,
                frame: *frame,
            }),
        }
    }
}

// Whether the messages are the same, in the same order.
fn same_sayings(sayings: &[Saying], others: &[Saying]) -> bool
    ensures { IsTrue result ↔ (map saying_of sayings.now ≡ map saying_of others.now) }
{
    sayings == others
}

// Whether the replies are the same, in the same order.
fn same_words(words: &[Word], others: &[Word]) -> bool
    ensures { IsTrue result ↔ (map word_of words.now ≡ map word_of others.now) }
{
    words == others
}

// Whether the replies of two outcomes are the same.
fn same_replies(one: &Outcome, other: &Outcome) -> bool
    ensures { IsTrue result ↔ ((outcome_of one.now).words ≡ (outcome_of other.now).words) }
{
    if one.word == other.word && one.told.is_alike(&other.told) {
        return true;
    }
    same_lists(one, other)
}

// Compares the lists of the replies. A function of its own keeps them out of outcomes that are the same.
#[inline(never)]
fn same_lists(one: &Outcome, other: &Outcome) -> bool
    ensures { IsTrue result ↔ ((outcome_of one.now).words ≡ (outcome_of other.now).words) }
{
    let words = one.words();
    let others = other.words();
    same_words(words.as_slice(), others.as_slice())
}

// Whether the answer of the link is the same.
fn same_link(link: Option<LinkAnswer>, other: Option<LinkAnswer>) -> bool
    ensures { IsTrue result ↔ (option_map answer_of link ≡ option_map answer_of other) }
{
    link == other
}

// Whether the same reason is given for silence.
fn same_silence(silence: Option<Reason>, other: Option<Reason>) -> bool
    ensures { IsTrue result ↔ (option_map reason_of silence ≡ option_map reason_of other) }
{
    silence == other
}

impl Outcome {
    /// Whether another outcome is the same.
    pub fn is_same(&self, other: &Outcome) -> bool
        ensures { IsTrue result ↔ (outcome_of self.now ≡ outcome_of other.now) }
    {
        self.stamp == other.stamp
            && same_sayings(self.sayings.as_slice(), other.sayings.as_slice())
            && self.frames.is_same(&other.frames)
            && same_replies(self, other)
            && same_link(self.link, other.link)
            && same_silence(self.silence, other.silence)
    }

    /// A copy of the outcome. If memory runs out, its frames take the room.
    pub fn copied(&self, room: &mut FrameRoom) -> Outcome
        requires { HasFrameRoom room.old }
        ensures { outcome_of result ≡ outcome_of self.now }
    {
        let mut sayings = ArrayVec::new();
        // Most steps have no message.
        if !self.sayings.is_empty() {
            let Ok(()) = sayings.try_extend_from_slice(self.sayings.as_slice()) else {
                unreachable!()
            };
        }
        Outcome {
            stamp: self.stamp,
            sayings,
            frames: self.frames.copied(room),
            word: self.word,
            told: self.told.copied(),
            link: self.link,
            silence: self.silence,
        }
    }
}
