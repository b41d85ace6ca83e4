//! The frames that a step sends to other centres.

ghost use Rattle.std.specs.Prelude.{◌≡◌, ◌↔◌, ◌≤◌, ℕ, [], IsTrue, length};
ghost use Rattle.rbc_centre.specs.Listed.{frames_in, list_of};

use crate::frame_room::FrameRoom;
use crate::sent_frame::SentFrame;
use arrayvec::ArrayVec;
use rbc_linkmsg::Frame;

/// How many centres a line has at the most.
pub(crate) const MOST_CENTRES: usize = 8;

/// The number of frames to one centre for which a step makes room: two for returned sections, one about a handover, and
/// a letter.
pub(crate) const MOST_TO_ONE: usize = 4;

/// The frames that a step sent to other centres. An empty list takes no memory.
#[derive(Debug, Drop)]
pub struct Frames {
    /// By the numbers of the centres, and those to one centre by their numbers on the link.
    pub(crate) list: Option<Vec<SentFrame>>,
    ghost count: { length (list_of list) ≤ 32 },
    ghost few: { (d : ℕ) → length (frames_in (list_of list) d) ≤ 4 },
    ghost near: { (d : ℕ) → 8 ≤ d → frames_in (list_of list) d ≡ [] },
}

impl Frames {
    ghost use Rattle.rbc_centre.specs.Sent.{frames_to};
    ghost use Rattle.rbc_centre.specs.Rooms.{HasFrameRoom};

    /// No frame was sent.
    #[inline(always)]
    pub(crate) fn nothing() -> Frames
        ensures { frames_to result ≡ (λ d. []) }
    {
        Frames { list: None }
    }

    /// Drops all frames. The list keeps its memory.
    #[inline(always)]
    pub(crate) fn clear(&mut self)
        ensures { frames_to self.new ≡ (λ d. []) }
    {
        match &mut self.list {
            Some(list) => list.clear(),
            None => {}
        }
    }

    /// All frames, by the numbers of their receivers, and those to one centre in the order of their numbers.
    pub fn as_slice(&self) -> &[SentFrame]
        ensures value { frames_in result.now ≡ frames_to self.now }
        ensures list { result.now ≡ list_of self.now.list }
    {
        match &self.list {
            Some(list) => list.as_slice(),
            None => &[],
        }
    }

    /// The frames to a centre, in the order of their numbers.
    pub fn to(&self, centre: u8) -> ArrayVec<Frame, MOST_TO_ONE>
        ensures { result.items ≡ frames_to self.now centre }
    {
        let mut frames = ArrayVec::new();
        for sent in self.as_slice() {
            if sent.to == centre {
                frames.push(sent.frame);
            }
        }
        frames
    }

    /// Whether no frame was sent.
    pub fn is_empty(&self) -> bool
        ensures { IsTrue result ↔ ((d : ℕ) → frames_to self.now d ≡ []) }
    {
        self.as_slice().is_empty()
    }

    /// Whether each centre was sent the same frames.
    pub fn is_same(&self, other: &Frames) -> bool
        ensures { IsTrue result ↔ (frames_to self.now ≡ frames_to other.now) }
    {
        if self.is_empty() && other.is_empty() {
            return true;
        }
        self.is_same_to_each(other)
    }

    // Compares the frames to each centre. A function of its own keeps their lists out of outcomes without a frame.
    #[inline(never)]
    fn is_same_to_each(&self, other: &Frames) -> bool
        ensures { IsTrue result ↔ (frames_to self.now ≡ frames_to other.now) }
    {
        for to in 0..MOST_CENTRES as u8 {
            if !same_frames(self.to(to).as_slice(), other.to(to).as_slice()) {
                return false;
            }
        }
        true
    }

    /// A copy of the frames. If memory runs out, it takes the room.
    pub fn copied(&self, room: &mut FrameRoom) -> Frames
        requires { HasFrameRoom room.old }
        ensures { frames_to result ≡ frames_to self.now }
    {
        let frames = self.as_slice();
        if frames.is_empty() {
            return Frames::nothing();
        }
        let mut list = room.list_for(frames.len());
        for frame in frames {
            list.push_reserved(*frame);
        }
        Frames { list: Some(list) }
    }
}

// Whether these are the same frames in the same order.
fn same_frames(frames: &[Frame], others: &[Frame]) -> bool
    ensures { IsTrue result ↔ (frames.now ≡ others.now) }
{
    frames == others
}
