ghost use Rattle.std.specs.Prelude.{◌≡◌, ◌+◌, ◌≤◌, ◌++◌, length, IfOk, IfSome, OnSome};
ghost use Rattle.rbc_packets.specs.Layout.{joined, widths};
ghost use Rattle.rbc_packets.specs.Steps.{Takes};
ghost use Rattle.rbc_packets.specs.PositionSpelling.{level_fields, LevelFits};
ghost use Rattle.rbc_packets.specs.PositionReading.{level_at};

use crate::fault::PacketFault;
use crate::reading::{m_level, take};
use rbc_bits::{BitPart, BitRow, BitWord};
use rbc_vars::{MLevel, NidNtc};

/// M_LEVEL and NID_NTC: the level under which the train runs, and the national system for level NTC.
#[derive(Clone, Copy, Debug, PartialEq, Eq)]
pub enum Level {
    /// Level 0.
    Level0,
    /// Level NTC, under this national train control system.
    Ntc(NidNtc),
    /// Level 1.
    Level1,
    /// Level 2.
    Level2,
    /// Level 3.
    Level3,
    /// A value without a meaning.
    Spare5,
    /// A value without a meaning.
    Spare6,
    /// A value without a meaning.
    Spare7,
}

impl Level {
    #[tactic(auto, unfolding(crate::specs::PositionReading::level_at, crate::specs::Layout::joined))]
    #[inline(always)]
    pub(crate) fn read(part: &mut BitPart) -> Result<Self, PacketFault>
        ensures exact { Takes (λ x. x) result part.new (level_at part.old) }
        ensures taken { IfOk result (λ l. part.old ≡ joined (level_fields l) ++ part.new) }
        ensures fits { IfOk result LevelFits }
    {
        match m_level(part)? {
            MLevel::Level0 => Ok(Level::Level0),
            MLevel::Ntc => {
                let nid_ntc = NidNtc::new(take(part, 8)?);
                Ok(Level::Ntc(nid_ntc))
            }
            MLevel::Level1 => Ok(Level::Level1),
            MLevel::Level2 => Ok(Level::Level2),
            MLevel::Level3 => Ok(Level::Level3),
            MLevel::Spare5 => Ok(Level::Spare5),
            MLevel::Spare6 => Ok(Level::Spare6),
            MLevel::Spare7 => Ok(Level::Spare7),
        }
    }

    /// The field at the front of a word that has it; `None` if NID_NTC follows.
    #[tactic(auto, unfolding(crate::specs::Layout::joined))]
    #[inline(always)]
    pub(crate) fn usual(word: &mut BitWord) -> Option<Self>
        requires { 3 ≤ length word.old }
        ensures taken { IfSome result (λ l. word.old ≡ joined (level_fields l) ++ word.new) }
        ensures fits { IfSome result LevelFits }
        ensures length { OnSome result (length word.old ≡ 3 + length word.new) }
    {
        match MLevel::of(word.next(3))? {
            MLevel::Level0 => Some(Level::Level0),
            MLevel::Ntc => None,
            MLevel::Level1 => Some(Level::Level1),
            MLevel::Level2 => Some(Level::Level2),
            MLevel::Level3 => Some(Level::Level3),
            MLevel::Spare5 => Some(Level::Spare5),
            MLevel::Spare6 => Some(Level::Spare6),
            MLevel::Spare7 => Some(Level::Spare7),
        }
    }

    #[tactic(auto, unfolding(crate::specs::Layout::joined))]
    #[inline(always)]
    pub(crate) fn write(&self, row: &mut BitRow)
        requires room { length row.old + 11 ≤ 256 }
        ensures ok { row.new ≡ row.old ++ joined (level_fields self.now) }
        ensures fits { LevelFits self.now }
    {
        match self {
            Level::Level0 => row.put(0, 3),
            Level::Ntc(nid_ntc) => {
                row.put(1, 3);
                row.put(nid_ntc.value(), 8);
            }
            Level::Level1 => row.put(2, 3),
            Level::Level2 => row.put(3, 3),
            Level::Level3 => row.put(4, 3),
            Level::Spare5 => row.put(5, 3),
            Level::Spare6 => row.put(6, 3),
            Level::Spare7 => row.put(7, 3),
        }
    }

    /// How many bits its fields have.
    #[inline(always)]
    pub(crate) fn bits(&self) -> u64
        ensures { result ≡ widths (level_fields self.now) }
    {
        match self {
            Level::Ntc(_) => 11,
            _ => 3,
        }
    }
}
