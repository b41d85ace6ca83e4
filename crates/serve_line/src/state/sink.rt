ghost use Rattle.std.specs.Prelude.{[], ◌≡◌, ◌≢◌, true, option_map, IfSome};
ghost use Rattle.text_script.specs.rbc_centre.Views.{outcome_of};
ghost use Rattle.serve_journal.specs.Shown.{shows};
ghost use Rattle.serve_line.specs.Journaling.Waiting.{awaited};

use crate::journaling::{Journal, Journaled};
use crate::state::paces::Paces;
use crate::state::queue::Queue;
use crate::state::slots::Endpoint;
use serve_journal::{Kept, Sealed};
use serve_workers::AnswerSink;
use serve_workers::connections::TrainConnections;
use serve_workers::writing::{AtOnce, Release};
use std::alloc::Global;
use std::io::Write;
use std::sync::Wait;
use text_script::{Outcome, Word};

/// The sink of a centre's answers: its trains, its links, and, if the interlocking is notified of sections, its
/// connections. If the centre keeps a journal, nothing leaves it before the event is written there. Replies to the
/// interlocking wait here. Messages to trains and frames wait in the threads that send them.
#[derive(Drop)]
pub struct CentreSink<'a> {
    /// The allocator.
    pub alloc: Global,
    /// The connections of the centre's trains, and the wakers of its links.
    pub connections: &'a TrainConnections<'a>,
    /// The control endpoint, if its connections are notified.
    pub control: Option<&'a Endpoint>,
    /// The centre's journal, if it keeps one.
    pub journal: Option<&'a Journal>,
    /// The events that wait for that journal.
    pub queue: Queue,
    /// The message rates of the centre.
    pub paces: Paces,
    /// The number of the centre.
    pub centre: u8,
    /// The name of the centre.
    pub name: &'a str,
}

impl CentreSink<'_> {
    /// Waits until this answer may leave, and shows the events that the journal keeps then. `None` if the journal was
    /// given up before. An answer without a reply to the interlocking waits only if the journal is late or can't be
    /// written.
    pub fn may_send<R: Wait>(&self, rt: &R, outcome: &Outcome) -> Option<Kept>
        ensures { IfSome result (λ kept. (outcome_of outcome.now).words ≢ []
            → shows kept self.now.centre (awaited (option_map (λ j. j.now.begun) self.now.journal) outcome.now.stamp)
            ≡ true) }
    {
        if !outcome.words().is_empty() {
            return self.reaches(rt, self.awaited(outcome.stamp));
        }
        let Some(journal) = self.journal else {
            return Some(Kept::no_event(self.centre));
        };
        self.queue.enter();
        let kept = journal.keeps_up(rt, self.centre, outcome.stamp);
        self.queue.leave(kept.is_some());
        kept
    }

    /// Waits until the journal keeps the centre's event with this stamp. `None` if the journal was given up first.
    /// Without a journal only stamp 0 is kept, which is that of no event.
    pub fn reaches<R: Wait>(&self, rt: &R, stamp: u32) -> Option<Kept>
        ensures { IfSome result (λ kept. shows kept self.now.centre stamp ≡ true) }
    {
        let Some(journal) = self.journal else {
            return AtOnce.release(rt, self.centre, stamp);
        };
        self.queue.enter();
        let kept = journal.reaches(rt, self.centre, stamp);
        self.queue.leave(kept.is_some());
        kept
    }

    /// As `reaches`, but it is also `None` if the journal can't be written now.
    pub(crate) fn comes_to<R: Wait>(&self, rt: &R, stamp: u32) -> Option<Kept>
        ensures { IfSome result (λ kept. shows kept self.now.centre stamp ≡ true) }
    {
        let Some(journal) = self.journal else {
            return AtOnce.release(rt, self.centre, stamp);
        };
        self.queue.enter();
        let kept = journal.comes_to(rt, self.centre, stamp);
        self.queue.leave(kept.is_some());
        kept
    }

    /// Notifies the interlocking of each section whose return was requested and that is shut now, if the journal keeps
    /// the event.
    pub fn tell<R: Wait>(&self, rt: &R, outcome: &Outcome, kept: &Kept) {
        let Some(endpoint) = self.control else {
            return;
        };
        for word in outcome.words().as_slice() {
            if let Word::Told(section) = word {
                let text = match self.notification(*section, outcome.stamp) {
                    Some(text) => text.open(kept),
                    None => None,
                };
                for slot in &endpoint.slots {
                    slot.tell(rt, text.as_ref());
                }
            }
        }
    }

    // The notification that the event with this stamp shut a section. It waits for that event. `None` if memory runs
    // out.
    fn notification(&self, section: u16, stamp: u32) -> Option<Sealed<Vec<u8>>>
        ensures centre { IfSome result (λ text. text.centre ≡ self.now.centre) }
        ensures stamp { IfSome result
            (λ text. text.stamp ≡ awaited (option_map (λ j. j.now.begun) self.now.journal) stamp) }
    {
        let mut text = Vec::new(self.alloc);
        writeln!(text, "{} {section} Told", self.name).ok()?;
        Some(Sealed::new(text, self.centre, self.awaited(stamp)))
    }
}

impl AnswerSink for CentreSink<'_> {
    fn opened<R: Wait>(&self, _rt: &R, _nid_engine: u32) {}

    fn answered<R: Wait>(&self, rt: &R, outcome: &Outcome) {
        if let Some(kept) = self.may_send(rt, outcome) {
            self.connections.answered(rt, outcome);
            self.tell(rt, outcome, &kept);
        }
    }
}

impl Release for CentreSink<'_> {
    ghost use Rattle.std.specs.Prelude.{option_map};
    ghost use Rattle.serve_line.specs.Journaling.Waiting.{awaited};

    ghost awaits = { λ s stamp. awaited (option_map (λ j. j.now.begun) s.journal) stamp };

    fn awaited(&self, stamp: u32) -> u32 {
        let journal = self.journal;
        Journaled { journal }.awaited(stamp)
    }

    // A message to a train may be written when its event is in the journal.
    fn release<R: Wait>(&self, rt: &R, centre: u8, stamp: u32) -> Option<Kept> {
        if centre != self.centre {
            return AtOnce.release(rt, centre, stamp);
        }
        self.reaches(rt, stamp)
    }
}
