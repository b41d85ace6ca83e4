ghost use Rattle.std.specs.Prelude.{◌≡◌, ◌+◌, ◌≤◌, ◌++◌, length, IfOk, IfSome, OnSome};
ghost use Rattle.rbc_packets.specs.Layout.{joined};
ghost use Rattle.rbc_packets.specs.Steps.{Takes};
ghost use Rattle.rbc_packets.specs.PositionSpelling.{location_fields, LocationFits};
ghost use Rattle.rbc_packets.specs.PositionReading.{location_at};

use crate::fault::PacketFault;
use crate::reading::{direction, q_scale, take};
use rbc_bits::{BitPart, BitRow, BitWord};
use rbc_vars::{DLrbg, Direction, LDoubtover, LDoubtunder, NidLrbg, QScale};

/// The position of the train: its estimated front end from a balise group, and its doubts in rear and in advance of
/// that.
#[derive(Clone, Copy, Debug, PartialEq, Eq)]
pub struct Location {
    /// The balise group.
    pub nid_lrbg: NidLrbg,
    /// The unit of the distances.
    pub q_scale: QScale,
    /// From the group to the estimated front end.
    pub d_lrbg: DLrbg,
    /// The orientation of the train.
    pub q_dirlrbg: Direction,
    /// On which side of the group its front end is.
    pub q_dlrbg: Direction,
    /// How far it may be in rear.
    pub l_doubtover: LDoubtover,
    /// How far it may be ahead.
    pub l_doubtunder: LDoubtunder,
}

impl Location {
    #[tactic(auto, unfolding(crate::specs::PositionReading::location_at, crate::specs::Layout::joined))]
    #[inline(always)]
    pub(crate) fn read(part: &mut BitPart) -> Result<Self, PacketFault>
        ensures exact { Takes (λ x. x) result part.new (location_at part.old) }
        ensures taken { IfOk result (λ l. part.old ≡ joined (location_fields l) ++ part.new) }
        ensures fits { IfOk result LocationFits }
    {
        let q_scale = q_scale(part)?;
        let nid_lrbg = NidLrbg::new(take(part, 24)?);
        let d_lrbg = DLrbg::new(take(part, 15)?);
        let q_dirlrbg = direction(part)?;
        let q_dlrbg = direction(part)?;
        let l_doubtover = LDoubtover::new(take(part, 15)?);
        let l_doubtunder = LDoubtunder::new(take(part, 15)?);
        Ok(Location {
            q_scale,
            nid_lrbg,
            d_lrbg,
            q_dirlrbg,
            q_dlrbg,
            l_doubtover,
            l_doubtunder,
        })
    }

    /// The fields at the front of a word that has them.
    #[tactic(auto, unfolding(crate::specs::Layout::joined))]
    #[inline(always)]
    pub(crate) fn usual(word: &mut BitWord) -> Option<Self>
        requires { 75 ≤ length word.old }
        ensures taken { IfSome result (λ l. word.old ≡ joined (location_fields l) ++ word.new) }
        ensures fits { IfSome result LocationFits }
        ensures length { OnSome result (length word.old ≡ 75 + length word.new) }
    {
        let q_scale = QScale::of(word.next(2))?;
        let nid_lrbg = NidLrbg::new(word.next(24));
        let d_lrbg = DLrbg::new(word.next(15));
        let q_dirlrbg = Direction::of(word.next(2))?;
        let q_dlrbg = Direction::of(word.next(2))?;
        let l_doubtover = LDoubtover::new(word.next(15));
        let l_doubtunder = LDoubtunder::new(word.next(15));
        Some(Location {
            q_scale,
            nid_lrbg,
            d_lrbg,
            q_dirlrbg,
            q_dlrbg,
            l_doubtover,
            l_doubtunder,
        })
    }

    #[tactic(auto, unfolding(crate::specs::Layout::joined))]
    #[inline(always)]
    pub(crate) fn write(&self, row: &mut BitRow)
        requires room { length row.old + 75 ≤ 256 }
        ensures ok { row.new ≡ row.old ++ joined (location_fields self.now) }
        ensures length { length row.new ≡ length row.old + 75 }
        ensures fits { LocationFits self.now }
    {
        row.put(self.q_scale.value(), 2);
        row.put(self.nid_lrbg.value(), 24);
        row.put(self.d_lrbg.value(), 15);
        row.put(self.q_dirlrbg.value(), 2);
        row.put(self.q_dlrbg.value(), 2);
        row.put(self.l_doubtover.value(), 15);
        row.put(self.l_doubtunder.value(), 15);
    }
}
