//! The radio: messages between trains and centres are lost, late or repeated by lot.

ghost use Rattle.std.specs.Prelude.{[], ◌+◌, ◌++◌, ◌-◌, ◌^◌, ◌<◌, ◌≡◌, ◌∷◌, IfOk, IfSome, length, min, OnErr, OnOk};
ghost use Rattle.std.specs.Prelude.{OnSome, vec_len};
ghost use Rattle.std.specs.List.{position};
ghost use Rattle.cli_drive.specs.Radios.{Arrives, is_due};

use crate::trains::lots::in_hundred;
use rand::RngExt;
use rand_pcg::Pcg32;
use std::alloc::{AllocError, Global};

/// The longest delay of a late message, in seconds.
const MOST_LATE: u32 = 20;

/// A message on the way between a train and a centre.
#[derive(Drop)]
pub(crate) struct Letter {
    /// The place of the train in the list of trains.
    pub(crate) train: usize,
    pub(crate) centre: u8,
    /// It is for the centre.
    pub(crate) is_up: bool,
    pub(crate) bytes: Vec<u8>,
    /// When it arrives, in units of 10 ms.
    pub(crate) due: u32,
}

/// The messages on the way.
#[derive(Drop)]
pub(crate) struct Radio {
    alloc: Global,
    letters: Vec<Letter>,
    loss: u8,
    late: u8,
    /// How many messages were sent.
    pub(crate) sent: u64,
    /// How many of them were lost by lot.
    pub(crate) lost: u64,
    /// How many of them were late by lot.
    pub(crate) delayed: u64,
}

impl Radio {
    pub(crate) fn new(alloc: Global, loss: u8, late: u8) -> Radio
        ensures { (result.letters.items ≡ []) × (result.loss ≡ loss) × (result.late ≡ late) }
    {
        Radio {
            alloc,
            letters: Vec::new(alloc),
            loss,
            late,
            sent: 0,
            lost: 0,
            delayed: 0,
        }
    }

    /// A message is sent. By lot it is lost, or late. Half of the late ones arrive in time too.
    pub(crate) fn send(&mut self, draws: &mut Pcg32, letter: Letter) -> Result<(), AllocError>
        ensures sent { self.new.sent ≡ min (self.old.sent + 1) (2 ^ 64 - 1) }
        ensures kept { self.old.loss ≡ 0 → self.old.late ≡ 0
            → OnOk result (self.new.letters.items ≡ self.old.letters.items ++ letter ∷ []) }
    {
        self.sent = self.sent.saturating_add(1);
        if in_hundred(draws, self.loss) {
            self.lost = self.lost.saturating_add(1);
            return Ok(());
        }
        if in_hundred(draws, self.late) {
            return self.send_late(draws, letter);
        }
        self.put(letter)
    }

    // A late message is sent. Half of them arrive in time too.
    fn send_late(&mut self, draws: &mut Pcg32, mut letter: Letter) -> Result<(), AllocError>
        ensures counts { (self.new.sent ≡ self.old.sent) × (self.new.lost ≡ self.old.lost)
            × (self.new.delayed ≡ min (self.old.delayed + 1) (2 ^ 64 - 1)) }
    {
        self.delayed = self.delayed.saturating_add(1);
        if in_hundred(draws, 50) {
            self.put(copied(self.alloc, &letter)?)?;
        }
        let seconds = draws.random_range(1..=MOST_LATE);
        letter.due = letter.due.saturating_add(seconds * 100);
        self.put(letter)
    }

    /// The first message on the way that is due, in this direction.
    pub(crate) fn arrival(&mut self, now: u32, is_up: bool) -> Option<Letter>
        ensures arrives { Arrives now is_up self.old.letters.items self.new.letters.items result }
        ensures fewer { OnSome result (vec_len self.new.letters + 1 ≡ vec_len self.old.letters) }
    {
        let place = first_due(&self.letters, now, is_up)?;
        Some(self.letters.remove(place))
    }

    fn put(&mut self, letter: Letter) -> Result<(), AllocError>
        ensures ok { OnOk result (self.new.letters.items ≡ self.old.letters.items ++ letter ∷ []) }
        ensures err { OnErr result (self.new.letters.items ≡ self.old.letters.items) }
        ensures counts { (self.new.sent ≡ self.old.sent) × (self.new.lost ≡ self.old.lost)
            × (self.new.delayed ≡ self.old.delayed) }
    {
        self.letters.reserve(1)?;
        self.letters.push_reserved(letter);
        Ok(())
    }
}

// The place of the first message that is due, in this direction.
fn first_due(letters: &[Letter], now: u32, is_up: bool) -> Option<usize>
    ensures place { result ≡ position (is_due now is_up) letters.now }
    ensures range { IfSome result (λ i. i < length letters.now) }
{
    letters.iter().position(|letter| is_due(letter, now, is_up))
}

fn is_due(letter: &Letter, now: u32, is_up: bool) -> bool
    ensures { result ≡ is_due now is_up letter.now }
{
    letter.is_up == is_up && letter.due <= now
}

fn copied(alloc: Global, letter: &Letter) -> Result<Letter, AllocError>
    ensures { IfOk result (λ copy. (copy.train ≡ letter.now.train) × (copy.centre ≡ letter.now.centre)
        × (copy.is_up ≡ letter.now.is_up) × (copy.bytes.items ≡ letter.now.bytes.items)
        × (copy.due ≡ letter.now.due)) }
{
    Ok(Letter {
        train: letter.train,
        centre: letter.centre,
        is_up: letter.is_up,
        bytes: letter.bytes.to_vec(alloc)?,
        due: letter.due,
    })
}
