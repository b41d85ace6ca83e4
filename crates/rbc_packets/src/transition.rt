ghost use Rattle.std.specs.Prelude.{◌≡◌, ◌+◌, ◌≤◌, ◌++◌, ◌∷◌, length, IfOk, IfSome, Bool, List, Ok};
ghost use Rattle.rbc_packets.specs.Layout.{joined, track_packet};
ghost use Rattle.rbc_packets.specs.Steps.{Takes};
ghost use Rattle.rbc_packets.specs.TrackSpelling.{transition_fields, TransitionFits};
ghost use Rattle.rbc_packets.specs.TrackReading.{transition_at, transition_fields_at};

use crate::fault::PacketFault;
use crate::reading::{
    end, take, take_fixed, take_radio, track_part, usual_field, usual_fixed, usual_header,
    usual_radio,
};
use crate::writing::{put_radio, put_track_header};
use rbc_bits::{BitPart, BitReader, BitRow};
use rbc_vars::{DRbctr, NidC, NidRbc};

/// Packet 131, RBC transition order: the border at which another centre takes over, and that centre (7.4.2.38,
/// profile).
#[derive(Clone, Copy, Debug, PartialEq, Eq)]
pub struct Transition {
    /// The border, from the balise group of the message.
    pub d_rbctr: DRbctr,
    /// The country or region of the accepting centre.
    pub nid_c: NidC,
    /// The accepting centre.
    pub nid_rbc: NidRbc,
}

impl Transition {
    /// NID_PACKET of an RBC transition order.
    pub const NID_PACKET: u64 = 131;

    /// L_PACKET: how many bits the packet has.
    pub const L_PACKET: u64 = 129;

    /// Reads the packet after its NID_PACKET.
    #[inline(always)]
    pub fn read_packet(reader: &mut BitReader) -> Result<Self, PacketFault>
        // The bits spell the value that is read.
        ensures found { IfOk result
            (λ t. (reader.old ≡ joined (track_packet (transition_fields t)) ++ reader.new) × TransitionFits t) }
        // A spelled value is read.
        ensures only { (t : Transition) (rest : List Bool) → TransitionFits t
            → reader.old ≡ joined (track_packet (transition_fields t)) ++ rest → (result ≡ Ok t) × (reader.new ≡ rest) }
        // Which fault it is.
        ensures exact { Takes (λ x. x) result reader.new (transition_at reader.old) }
    {
        Transition::read(reader)
    }

    #[tactic(auto, unfolding(crate::specs::TrackReading::transition_at))]
    #[inline(always)]
    fn read(reader: &mut BitReader) -> Result<Self, PacketFault>
        ensures exact { Takes (λ x. x) result reader.new (transition_at reader.old) }
        ensures taken { IfOk result (λ t. reader.old ≡ joined (track_packet (transition_fields t)) ++ reader.new) }
        ensures fits { IfOk result TransitionFits }
    {
        let bits = track_part(reader)?;
        let mut part = bits.part();
        let transition = Transition::fields(&mut part)?;
        end(part)?;
        Ok(transition)
    }

    #[tactic(auto, unfolding(crate::specs::TrackReading::transition_fields_at, crate::specs::Layout::joined))]
    #[inline(always)]
    fn fields(part: &mut BitPart) -> Result<Self, PacketFault>
        ensures exact { Takes (λ x. x) result part.new (transition_fields_at part.old) }
        ensures taken { IfOk result (λ t. part.old ≡ joined (transition_fields t) ++ part.new) }
        ensures fits { IfOk result TransitionFits }
    {
        take_fixed(part, 2, 1)?;
        let d_rbctr = DRbctr::new(take(part, 15)?);
        let nid_c = NidC::new(take(part, 10)?);
        let nid_rbc = NidRbc::new(take(part, 14)?);
        take_radio(part)?;
        Ok(Transition {
            d_rbctr,
            nid_c,
            nid_rbc,
        })
    }

    /// The packet with its NID_PACKET. `None` if it is another, or if a value is refused. The positions of its fields
    /// are known, so only values are tested.
    #[tactic(auto, unfolding(crate::specs::Layout::joined))]
    #[inline(always)]
    pub fn usual(reader: &mut BitReader) -> Option<Self>
        ensures found { IfSome result
            (λ t. (reader.old ≡ joined ((8, 131) ∷ track_packet (transition_fields t)) ++ reader.new)
            × TransitionFits t) }
    {
        usual_header(reader, Transition::NID_PACKET, Transition::L_PACKET)?;
        usual_fixed(reader, 2, 1)?;
        let d_rbctr = DRbctr::new(usual_field(reader, 15)?);
        let nid_c = NidC::new(usual_field(reader, 10)?);
        let nid_rbc = NidRbc::new(usual_field(reader, 14)?);
        usual_radio(reader)?;
        Some(Transition {
            d_rbctr,
            nid_c,
            nid_rbc,
        })
    }

    /// Writes the packet.
    #[tactic(auto, unfolding(crate::specs::Layout::joined))]
    #[inline(always)]
    pub fn write_packet(&self, row: &mut BitRow)
        requires room { length row.old + 129 ≤ 256 }
        ensures ok { row.new ≡ row.old ++ joined ((8, 131) ∷ track_packet (transition_fields self.now)) }
        ensures fits { TransitionFits self.now }
    {
        put_track_header(row, Transition::NID_PACKET, Transition::L_PACKET);
        row.put(1, 2);
        row.put(self.d_rbctr.value(), 15);
        row.put(self.nid_c.value(), 10);
        row.put(self.nid_rbc.value(), 14);
        put_radio(row);
    }
}
