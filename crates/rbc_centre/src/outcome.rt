ghost use Rattle.std.specs.Prelude.{◌≡◌, [], ◌∷◌, None, map, option_map};
ghost use Rattle.rbc_link.specs.Inbox.{answer_of};
ghost use Rattle.rbc_train.specs.Reasons.{reason_of};
ghost use Rattle.rbc_train.specs.Sayings.{saying_of, sayings_of, told_train};
ghost use Rattle.rbc_centre.specs.Sent.{frames_to};
ghost use Rattle.rbc_centre.specs.Views.{word_of};

use crate::frames::Frames;
use arrayvec::ArrayVec;
use rbc_link::LinkAnswer;
use rbc_train::{Heard, Reason, Saying, Told};

/// A reply to the interlocking about a section, by its number over the whole line.
#[derive(Clone, Copy, Debug, PartialEq, Eq)]
pub enum Word {
    /// A set or an unset is done.
    Done(u16),
    /// The section is in use, and its return is asked for.
    Asked(u16),
    /// The section is not of this centre's home.
    NotHome(u16),
    /// The section was wished back, and is shut now.
    Told(u16),
}

impl Default for Word {
    /// The value of unused positions in a list of replies.
    fn default() -> Word {
        Word::Done(0)
    }
}

/// The outcome of a step of a centre.
#[derive(Debug, Drop)]
pub struct Outcome {
    /// The stamp of the step, from 1 to 1 073 741 823.
    pub stamp: u32,
    /// The messages to trains, in order.
    pub sayings: ArrayVec<Saying, 2>,
    /// The frames to other centres.
    pub frames: Frames,
    /// The reply to the interlocking.
    pub word: Option<Word>,
    /// The sections that were wished back and are shut now. They are reported to the interlocking after the reply.
    pub told: Told,
    /// The answer of the link to a delivered frame.
    pub link: Option<LinkAnswer>,
    /// Why a train's message was left without an answer.
    pub silence: Option<Reason>,
}

impl Outcome {
    ghost use Rattle.rbc_centre.specs.Views.{outcome_of, outcome_heard};

    /// Nothing yet, under stamp 0. A step writes its answer over it.
    pub fn nothing() -> Outcome
        ensures { outcome_of result
            ≡ record {
              stamp = 0;
              sayings = [];
              frames = λ d. [];
              words = [];
              link = None;
              silence = None;
            } }
    {
        Outcome {
            stamp: 0,
            sayings: ArrayVec::new(),
            frames: Frames::nothing(),
            word: None,
            told: Told::nothing(),
            link: None,
            silence: None,
        }
    }

    /// A step without messages, replies and frames: a frame with this answer of the link, or a message that is silent
    /// for this reason.
    #[inline(always)]
    pub(crate) fn write_nothing(
        &mut self,
        stamp: u32,
        link: Option<LinkAnswer>,
        silence: Option<Reason>,
    )
        ensures { outcome_of self.new
            ≡ record {
              stamp = stamp;
              sayings = [];
              frames = λ d. [];
              words = [];
              link = option_map answer_of link;
              silence = option_map reason_of silence;
            } }
    {
        self.stamp = stamp;
        self.sayings.clear();
        self.frames.clear();
        self.word = None;
        self.told = Told::nothing();
        self.link = link;
        self.silence = silence;
    }

    /// A step with this effect of its message or frame, and this answer of the link. Its frames are in `self` already.
    #[inline(always)]
    pub(crate) fn write_heard(&mut self, stamp: u32, link: Option<LinkAnswer>, heard: &Heard)
        ensures { outcome_of self.new ≡ outcome_heard stamp link (frames_to self.old.frames) heard.now }
    {
        self.stamp = stamp;
        write_in_order(&mut self.sayings, &heard.saying, &heard.order);
        self.word = None;
        self.told = heard.told.copied();
        self.link = link;
        self.silence = None;
    }

    /// A step with one reply to the interlocking, and at most one message to a train.
    #[inline(always)]
    pub(crate) fn write_told(&mut self, stamp: u32, word: Word, saying: Option<Saying>)
        ensures { outcome_of self.new
            ≡ record {
              stamp = stamp;
              sayings = sayings_of saying;
              frames = λ d. [];
              words = word_of word ∷ [];
              link = None;
              silence = None;
            } }
    {
        self.frames.clear();
        self.write_word(stamp, word, saying);
    }

    /// A step with one reply to the interlocking. Its frames are in `self` already.
    pub(crate) fn write_sent(&mut self, stamp: u32, word: Word)
        ensures { outcome_of self.new
            ≡ record {
              stamp = stamp;
              sayings = [];
              frames = frames_to self.old.frames;
              words = word_of word ∷ [];
              link = None;
              silence = None;
            } }
    {
        self.write_word(stamp, word, None);
    }

    // One reply, and at most one message. The frames in `self` stay.
    #[inline(always)]
    fn write_word(&mut self, stamp: u32, word: Word, saying: Option<Saying>)
        ensures { outcome_of self.new
            ≡ record {
              stamp = stamp;
              sayings = sayings_of saying;
              frames = frames_to self.old.frames;
              words = word_of word ∷ [];
              link = None;
              silence = None;
            } }
    {
        self.stamp = stamp;
        write_in_order(&mut self.sayings, &saying, &None);
        self.word = Some(word);
        self.told = Told::nothing();
        self.link = None;
        self.silence = None;
    }

    /// The replies to the interlocking, in order.
    pub fn words(&self) -> ArrayVec<Word, 65>
        ensures { map word_of result.items ≡ (outcome_of self.now).words }
    {
        let mut words = ArrayVec::new();
        if let Some(word) = self.word {
            words.push(word);
        }
        let told = self.told.sections();
        for s in told.as_slice() {
            words.push(Word::Told(*s));
        }
        words
    }
}

// Replaces the messages by the answer and the order after it, if there are any.
#[inline(always)]
fn write_in_order(
    sayings: &mut ArrayVec<Saying, 2>,
    saying: &Option<Saying>,
    order: &Option<Saying>,
)
    ensures { map saying_of sayings.new.items ≡ told_train saying.now order.now }
{
    sayings.clear();
    if let Some(saying) = saying {
        sayings.push(*saying);
    }
    if let Some(order) = order {
        sayings.push(*order);
    }
}
