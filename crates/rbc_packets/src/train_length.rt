ghost use Rattle.std.specs.Prelude.{◌≡◌, ◌+◌, ◌≤◌, ◌++◌, length, IfOk, IfSome, OnSome};
ghost use Rattle.rbc_packets.specs.Layout.{joined, widths};
ghost use Rattle.rbc_packets.specs.Steps.{Takes};
ghost use Rattle.rbc_packets.specs.PositionSpelling.{train_length_fields, TrainLengthFits};
ghost use Rattle.rbc_packets.specs.PositionReading.{train_length_at};

use crate::fault::PacketFault;
use crate::reading::{q_length, take};
use rbc_bits::{BitPart, BitRow, BitWord};
use rbc_vars::{LTrainint, QLength};

/// Q_LENGTH and L_TRAININT: whether train integrity is confirmed, and by which source, and the train's length if it is.
#[derive(Clone, Copy, Debug, PartialEq, Eq)]
pub enum TrainLength {
    /// Nothing is known.
    NoInformation,
    /// Integrity is confirmed by a monitoring device.
    ConfirmedByDevice(LTrainint),
    /// Integrity is confirmed by the driver.
    ConfirmedByDriver(LTrainint),
    /// The train may have been parted.
    Lost,
}

impl TrainLength {
    #[tactic(auto, unfolding(crate::specs::PositionReading::train_length_at, crate::specs::Layout::joined))]
    #[inline(always)]
    pub(crate) fn read(part: &mut BitPart) -> Result<Self, PacketFault>
        ensures exact { Takes (λ x. x) result part.new (train_length_at part.old) }
        ensures taken { IfOk result (λ l. part.old ≡ joined (train_length_fields l) ++ part.new) }
        ensures fits { IfOk result TrainLengthFits }
    {
        match q_length(part)? {
            QLength::NoInformation => Ok(TrainLength::NoInformation),
            QLength::ConfirmedByDevice => {
                let l_trainint = LTrainint::new(take(part, 15)?);
                Ok(TrainLength::ConfirmedByDevice(l_trainint))
            }
            QLength::ConfirmedByDriver => {
                let l_trainint = LTrainint::new(take(part, 15)?);
                Ok(TrainLength::ConfirmedByDriver(l_trainint))
            }
            QLength::Lost => Ok(TrainLength::Lost),
        }
    }

    /// The fields at the front of a word that has them; `None` without a train length.
    #[tactic(auto, unfolding(crate::specs::Layout::joined))]
    #[inline(always)]
    pub(crate) fn usual(word: &mut BitWord) -> Option<Self>
        requires { 17 ≤ length word.old }
        ensures taken { IfSome result (λ l. word.old ≡ joined (train_length_fields l) ++ word.new) }
        ensures fits { IfSome result TrainLengthFits }
        ensures length { OnSome result (length word.old ≡ 17 + length word.new) }
    {
        match QLength::of(word.next(2))? {
            QLength::ConfirmedByDevice => {
                let l_trainint = LTrainint::new(word.next(15));
                Some(TrainLength::ConfirmedByDevice(l_trainint))
            }
            QLength::ConfirmedByDriver => {
                let l_trainint = LTrainint::new(word.next(15));
                Some(TrainLength::ConfirmedByDriver(l_trainint))
            }
            _ => None,
        }
    }

    #[tactic(auto, unfolding(crate::specs::Layout::joined))]
    #[inline(always)]
    pub(crate) fn write(&self, row: &mut BitRow)
        requires room { length row.old + 17 ≤ 256 }
        ensures ok { row.new ≡ row.old ++ joined (train_length_fields self.now) }
        ensures length { length row.new ≤ length row.old + 17 }
        ensures fits { TrainLengthFits self.now }
    {
        match self {
            TrainLength::NoInformation => row.put(0, 2),
            TrainLength::ConfirmedByDevice(l_trainint) => {
                row.put(1, 2);
                row.put(l_trainint.value(), 15);
            }
            TrainLength::ConfirmedByDriver(l_trainint) => {
                row.put(2, 2);
                row.put(l_trainint.value(), 15);
            }
            TrainLength::Lost => row.put(3, 2),
        }
    }

    /// How many bits its fields have.
    #[inline(always)]
    pub(crate) fn bits(&self) -> u64
        ensures { result ≡ widths (train_length_fields self.now) }
    {
        match self {
            TrainLength::NoInformation | TrainLength::Lost => 2,
            TrainLength::ConfirmedByDevice(_) | TrainLength::ConfirmedByDriver(_) => 17,
        }
    }
}
