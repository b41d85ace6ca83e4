ghost use Rattle.std.specs.Prelude.{◌≡◌, ◌+◌, ◌≤◌, ◌++◌, ◌∷◌, length, IfOk, IfSome, Bool, List, Ok};
ghost use Rattle.rbc_packets.specs.Layout.{joined, track_packet};
ghost use Rattle.rbc_packets.specs.Steps.{Takes};
ghost use Rattle.rbc_packets.specs.TrackSpelling.{session_order_fields, SessionOrderFits};
ghost use Rattle.rbc_packets.specs.TrackReading.{session_order_at, session_order_fields_at};

use crate::fault::PacketFault;
use crate::reading::{
    end, take, take_fixed, take_radio, track_part, usual_field, usual_fixed, usual_header,
    usual_radio,
};
use crate::writing::{put_radio, put_track_header};
use rbc_bits::{BitPart, BitReader, BitRow};
use rbc_vars::{NidC, NidRbc};

/// Packet 42, session management: the session with this centre is to be terminated (7.4.2.11, profile).
#[derive(Clone, Copy, Debug, PartialEq, Eq)]
pub struct SessionOrder {
    /// The country or region of the centre.
    pub nid_c: NidC,
    /// The centre.
    pub nid_rbc: NidRbc,
}

impl SessionOrder {
    /// NID_PACKET of session management.
    pub const NID_PACKET: u64 = 42;

    /// L_PACKET: how many bits the packet has.
    pub const L_PACKET: u64 = 113;

    /// Reads the packet after its NID_PACKET.
    #[inline(always)]
    pub fn read_packet(reader: &mut BitReader) -> Result<Self, PacketFault>
        // The bits spell the value that is read.
        ensures found { IfOk result
            (λ s. (reader.old ≡ joined (track_packet (session_order_fields s)) ++ reader.new)
            × SessionOrderFits s) }
        // A spelled value is read.
        ensures only { (s : SessionOrder) (rest : List Bool) → SessionOrderFits s
            → reader.old ≡ joined (track_packet (session_order_fields s)) ++ rest
            → (result ≡ Ok s) × (reader.new ≡ rest) }
        // Which fault it is.
        ensures exact { Takes (λ x. x) result reader.new (session_order_at reader.old) }
    {
        SessionOrder::read(reader)
    }

    #[tactic(auto, unfolding(crate::specs::TrackReading::session_order_at))]
    #[inline(always)]
    fn read(reader: &mut BitReader) -> Result<Self, PacketFault>
        ensures exact { Takes (λ x. x) result reader.new (session_order_at reader.old) }
        ensures taken { IfOk result (λ s. reader.old ≡ joined (track_packet (session_order_fields s)) ++ reader.new) }
        ensures fits { IfOk result SessionOrderFits }
    {
        let bits = track_part(reader)?;
        let mut part = bits.part();
        let session_order = SessionOrder::fields(&mut part)?;
        end(part)?;
        Ok(session_order)
    }

    #[tactic(auto, unfolding(crate::specs::TrackReading::session_order_fields_at, crate::specs::Layout::joined))]
    #[inline(always)]
    fn fields(part: &mut BitPart) -> Result<Self, PacketFault>
        ensures exact { Takes (λ x. x) result part.new (session_order_fields_at part.old) }
        ensures taken { IfOk result (λ s. part.old ≡ joined (session_order_fields s) ++ part.new) }
        ensures fits { IfOk result SessionOrderFits }
    {
        take_fixed(part, 1, 0)?;
        let nid_c = NidC::new(take(part, 10)?);
        let nid_rbc = NidRbc::new(take(part, 14)?);
        take_radio(part)?;
        Ok(SessionOrder { nid_c, nid_rbc })
    }

    /// The packet with its NID_PACKET. `None` if it is another, or if a value is refused. The positions of its fields
    /// are known, so only values are tested.
    #[tactic(auto, unfolding(crate::specs::Layout::joined))]
    #[inline(always)]
    pub fn usual(reader: &mut BitReader) -> Option<Self>
        ensures found { IfSome result
            (λ s. (reader.old ≡ joined ((8, 42) ∷ track_packet (session_order_fields s)) ++ reader.new)
            × SessionOrderFits s) }
    {
        usual_header(reader, SessionOrder::NID_PACKET, SessionOrder::L_PACKET)?;
        usual_fixed(reader, 1, 0)?;
        let nid_c = NidC::new(usual_field(reader, 10)?);
        let nid_rbc = NidRbc::new(usual_field(reader, 14)?);
        usual_radio(reader)?;
        Some(SessionOrder { nid_c, nid_rbc })
    }

    /// Writes the packet.
    #[tactic(auto, unfolding(crate::specs::Layout::joined))]
    #[inline(always)]
    pub fn write_packet(&self, row: &mut BitRow)
        requires room { length row.old + 113 ≤ 256 }
        ensures ok { row.new ≡ row.old ++ joined ((8, 42) ∷ track_packet (session_order_fields self.now)) }
        ensures fits { SessionOrderFits self.now }
    {
        put_track_header(row, SessionOrder::NID_PACKET, SessionOrder::L_PACKET);
        row.put(0, 1);
        row.put(self.nid_c.value(), 10);
        row.put(self.nid_rbc.value(), 14);
        put_radio(row);
    }
}
