//! The messages of centres to trains.

ghost use Rattle.std.specs.Prelude.{[], ◌+◌, ◌++◌, ◌-◌, ◌^◌, ◌∷◌, ◌≡◌, false, min, None, OnOk};
ghost use Rattle.std.specs.List.{position};
ghost use Rattle.cli_drive.specs.Obedience.{ends_of, KeepTrains};
ghost use Rattle.cli_drive.specs.Radios.{is_due};

use crate::trains::fault::TrainsFault;
use crate::trains::inbox::Came;
use crate::trains::radio::Letter;
use crate::trains::seconds::Running;
use crate::trains::train::Train;
use rbc_line::Line;
use rbc_msgs::decode_track;
use std::io::Write;

impl<R> Running<'_, R> {
    /// Reads all connections. Each message that has arrived is on the way to its train. A connection of a train that no
    /// longer talks to the centre ends.
    pub(crate) fn collect(&mut self) -> Result<(), TrainsFault>
        ensures { KeepTrains self.old.trains.items self.new.trains.items }
    {
        for train in 0..self.trains.len() {
            for centre in 0..self.line.centre_count() {
                self.collect_one(train, centre)?;
            }
        }
        Ok(())
    }

    fn collect_one(&mut self, train: usize, centre: u8) -> Result<(), TrainsFault>
        ensures { KeepTrains self.old.trains.items self.new.trains.items }
    {
        self.calls.read(train, centre)?;
        for _ in 0..u64::MAX {
            match self.calls.message(train, centre)? {
                Came::Message(bytes) => self.put_down(train, centre, bytes)?,
                Came::Nothing => break,
                Came::Garbage => {
                    self.calls.end(train, centre);
                    break;
                }
            }
        }
        self.hang_up(train, centre);
        Ok(())
    }

    // A message of a centre is on the way to its train.
    fn put_down(&mut self, train: usize, centre: u8, bytes: Vec<u8>) -> Result<(), TrainsFault>
        ensures trains { KeepTrains self.old.trains.items self.new.trains.items }
        ensures sent { self.new.radio.sent ≡ min (self.old.radio.sent + 1) (2 ^ 64 - 1) }
        ensures kept { self.old.radio.loss ≡ 0 → self.old.radio.late ≡ 0 → OnOk result (self.new.radio.letters.items
            ≡ self.old.radio.letters.items ++ record {
              train = train;
              centre = centre;
              is_up = false;
              bytes = bytes;
              due = self.old.now;
            } ∷ []) }
    {
        came(&mut self.trains, train, &bytes);
        let letter = Letter {
            train,
            centre,
            is_up: false,
            bytes,
            due: self.now,
        };
        self.radio.send(&mut self.draws, letter)?;
        Ok(())
    }

    // Ends the connection of a train that no longer talks to the centre.
    fn hang_up(&mut self, train: usize, centre: u8)
        ensures { self.new.trains ≡ self.old.trains }
    {
        let is_over = match self.trains.get(train) {
            Some(train) => !train.driver.talks_to(centre),
            None => true,
        };
        if is_over {
            self.calls.end(train, centre);
        }
    }

    /// Messages that are due arrive at their trains.
    pub(crate) fn deliver<W: Write>(&mut self, out: &mut W) -> Result<(), TrainsFault>
        ensures ends { ends_of self.new.trains.items ≡ ends_of self.old.trains.items }
        ensures arrived { OnOk result (position (is_due self.old.now false) self.new.radio.letters.items ≡ None) }
    {
        while let Some(letter) = self.radio.arrival(self.now, false) {
            self.hear(&letter, out)?;
        }
        Ok(())
    }

    // A message arrives at its train.
    fn hear<W: Write>(&mut self, letter: &Letter, out: &mut W) -> Result<(), TrainsFault>
        ensures ends { ends_of self.new.trains.items ≡ ends_of self.old.trains.items }
        ensures radio { (self.new.radio ≡ self.old.radio) × (self.new.now ≡ self.old.now) }
    {
        let Some(is_first) = heard(&mut self.trains, self.line, letter, self.now) else {
            return Ok(());
        };
        self.follows_other(letter.train, is_first, out)
    }
}

// A message of a centre has come over a connection of a train.
#[tactic(auto, using(crate::proofs::OneChange::map_kept))]
fn came(trains: &mut Vec<Train>, train: usize, bytes: &[u8])
    ensures { KeepTrains trains.old.items trains.new.items }
{
    let Ok(message) = decode_track(bytes) else {
        return;
    };
    let Some(train) = trains.get_mut(train) else {
        return;
    };
    train.came(&message);
}

// A message arrives at its train. If the train follows another centre since then: whether it followed none before.
#[tactic(auto, using(crate::proofs::OneChange::map_kept))]
fn heard(trains: &mut Vec<Train>, line: &Line, letter: &Letter, now: u32) -> Option<bool>
    ensures { ends_of trains.new.items ≡ ends_of trains.old.items }
{
    let Ok(message) = decode_track(&letter.bytes) else {
        return None;
    };
    let Some(train) = trains.get_mut(letter.train) else {
        return None;
    };
    let is_first = train.driver.followed.is_none();
    train
        .hear(line, letter.centre, &message, now)
        .then_some(is_first)
}
