ghost use Rattle.std.specs.Prelude.{◌≡◌};
ghost use Rattle.rbc_centre.specs.declared.outcome.Outcome.{Outcome};
ghost use Rattle.rbc_world.specs.declared.event.Answer.TheVariants as answer;

use rbc_centre::Outcome;
use rbc_msgs::MsgFault;

/// An event of the centres of a line.
#[derive(Debug, Drop)]
pub enum WorldEvent {
    /// Bytes from a train arrive at a centre.
    Train { centre: u8, bytes: Vec<u8> },
    /// The interlocking releases a section at a centre.
    Set { centre: u8, section: u16 },
    /// The interlocking takes a section back.
    Unset { centre: u8, section: u16 },
    /// A frame that one centre sent to another under a number is delivered, perhaps late or again.
    Deliver { from: u8, to: u8, number: u32 },
}

/// The answer to an event.
#[derive(Debug, Drop)]
pub enum Answer {
    /// A centre took a step.
    Outcome(Outcome),
    /// The centre is not of the line. Nothing changes.
    NoCentre,
    /// No frame was sent under that number. Nothing changes.
    NotSent,
    /// The bytes spell no message. Nothing changes.
    Fault(MsgFault),
}

impl Answer {
    ghost use Rattle.rbc_world.specs.Views.{answer_of, nothing_answered};

    /// The empty outcome, under stamp 0. A step writes its answer over it.
    pub fn nothing() -> Answer
        ensures { answer_of result ≡ nothing_answered }
    {
        Answer::Outcome(Outcome::nothing())
    }

    /// An outcome stays, to be written over. Any other answer becomes the empty outcome.
    #[inline(always)]
    pub(crate) fn make_outcome(&mut self)
        ensures { (o : Outcome) × (self.new ≡ answer.Outcome o) }
    {
        match self {
            Answer::Outcome(_) => {}
            Answer::NoCentre | Answer::NotSent | Answer::Fault(_) => self.clear(),
        }
    }

    /// Becomes the empty outcome. Few steps call it, and a function of its own keeps its values out of theirs.
    #[cold]
    #[inline(never)]
    pub(crate) fn clear(&mut self)
        ensures nothing { answer_of self.new ≡ nothing_answered }
        ensures outcome { (o : Outcome) × (self.new ≡ answer.Outcome o) }
    {
        *self = Answer::Outcome(Outcome::nothing());
    }
}
