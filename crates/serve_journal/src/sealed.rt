ghost use Rattle.std.specs.Prelude.{◌≡◌, ◌++◌, [], false, true, IfSome, IfNone, OnOk, OnErr};
ghost use Rattle.serve_journal.specs.Shown.{shows};

use crate::kept::Kept;
use std::alloc::{AllocError, Global};

/// An answer that leaves its centre once the journal of a centre keeps an event.
#[derive(Debug, Drop)]
pub struct Sealed<T: Drop> {
    answer: T,
    // The number of that centre.
    centre: u8,
    // The stamp of that event; 0 if the answer waits for none.
    stamp: u32,
}

/// An answer that may leave its centre: it was opened.
#[derive(Debug, Drop)]
pub struct Opened<T: Drop> {
    answer: T,
}

impl<T: Drop> Sealed<T> {
    /// An answer that waits for the event of this centre with this stamp; it waits for none if the stamp is 0.
    pub fn new(answer: T, centre: u8, stamp: u32) -> Sealed<T>
        ensures answer { result.answer ≡ answer }
        ensures centre { result.centre ≡ centre }
        ensures stamp { result.stamp ≡ stamp }
    {
        Sealed {
            answer,
            centre,
            stamp,
        }
    }

    /// The number of the centre of that event.
    pub fn centre(&self) -> u8
        ensures { result ≡ self.now.centre }
    {
        self.centre
    }

    /// The stamp of the event for which it waits; 0 if it waits for none.
    pub fn stamp(&self) -> u32
        ensures { result ≡ self.now.stamp }
    {
        self.stamp
    }

    /// Opens the answer if `kept` shows its event: the journal of that very centre keeps it. `None` if it does not.
    pub fn open(self, kept: &Kept) -> Option<Opened<T>>
        ensures some { IfSome result
            (λ opened. (opened.answer ≡ self.answer) × (shows kept.now self.centre self.stamp ≡ true)) }
        ensures none { IfNone result (shows kept.now self.centre self.stamp ≡ false) }
    {
        if !kept.shows(self.centre, self.stamp) {
            return None;
        }
        let Sealed { answer, .. } = self;
        Some(Opened { answer })
    }
}

impl<T: Drop> Opened<T> {
    /// The same answer, which waits for one event more: the event of this centre with this stamp.
    pub fn sealed(self, centre: u8, stamp: u32) -> Sealed<T>
        ensures answer { result.answer ≡ self.answer }
        ensures centre { result.centre ≡ centre }
        ensures stamp { result.stamp ≡ stamp }
    {
        let Opened { answer } = self;
        Sealed::new(answer, centre, stamp)
    }

    /// The answer.
    pub fn get(&self) -> &T
        ensures { result.now ≡ self.now.answer }
    {
        &self.answer
    }

    /// The answer itself.
    pub fn into_inner(self) -> T
        ensures { result ≡ self.answer }
    {
        let Opened { answer } = self;
        answer
    }
}

impl Opened<Vec<u8>> {
    /// No text.
    pub fn nothing(alloc: Global) -> Opened<Vec<u8>>
        ensures { result.answer.items ≡ [] }
    {
        Opened {
            answer: Vec::new(alloc),
        }
    }

    /// Takes off the text.
    pub fn clear(&mut self)
        ensures { self.new.answer.items ≡ [] }
    {
        self.answer.clear();
    }

    /// Adds a text of the program itself, which shows no event.
    pub fn add_fixed(&mut self, text: &'static str) -> Result<(), AllocError>
        ensures ok { OnOk result (self.new.answer.items ≡ self.old.answer.items ++ text.entry.now) }
        ensures err { OnErr result (self.new.answer.items ≡ self.old.answer.items) }
    {
        self.answer.extend_from_slice(text.as_bytes())
    }

    /// Adds a text that was opened too.
    pub fn add(&mut self, text: &Opened<Vec<u8>>) -> Result<(), AllocError>
        ensures ok { OnOk result (self.new.answer.items ≡ self.old.answer.items ++ text.now.answer.items) }
        ensures err { OnErr result (self.new.answer.items ≡ self.old.answer.items) }
    {
        self.answer.extend_from_slice(&text.answer)
    }
}
