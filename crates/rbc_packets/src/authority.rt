ghost use Rattle.std.specs.Prelude.{◌≡◌, ◌+◌, ◌≤◌, ◌++◌, ◌∷◌, [], length, IfOk, OnOk, IfSome, OnSome, Bool, List, Ok};
ghost use Rattle.rbc_packets.specs.Layout.{joined, track_packet};
ghost use Rattle.rbc_packets.specs.Steps.{Takes};
ghost use Rattle.rbc_packets.specs.TrackSpelling.{authority_fields, AuthorityFits};
ghost use Rattle.rbc_packets.specs.TrackReading.{authority_at, authority_fields_at, sections_at, no_more_at};

use crate::fault::PacketFault;
use crate::reading::{end, take, take_fixed, track_part, usual_field, usual_fixed, usual_header};
use crate::writing::put_track_header;
use rbc_bits::{BitPart, BitReader, BitRow};
use rbc_vars::LEndsection;

/// Packet 15, Level 2/3 Movement Authority, of one section and without timers, danger point or overlap (7.4.2.4,
/// profile).
#[derive(Clone, Copy, Debug, PartialEq, Eq)]
pub struct Authority {
    /// The end of the authority, from the balise group of the message.
    pub l_endsection: LEndsection,
}

impl Authority {
    /// NID_PACKET of a movement authority.
    pub const NID_PACKET: u64 = 15;

    /// L_PACKET: how many bits the packet has.
    pub const L_PACKET: u64 = 66;

    /// Reads the packet after its NID_PACKET.
    #[inline(always)]
    pub fn read_packet(reader: &mut BitReader) -> Result<Self, PacketFault>
        // The bits spell the value that is read.
        ensures found { IfOk result
            (λ a. (reader.old ≡ joined (track_packet (authority_fields a)) ++ reader.new) × AuthorityFits a) }
        // A spelled value is read.
        ensures only { (a : Authority) (rest : List Bool) → AuthorityFits a
            → reader.old ≡ joined (track_packet (authority_fields a)) ++ rest → (result ≡ Ok a) × (reader.new ≡ rest) }
        // Which fault it is.
        ensures exact { Takes (λ x. x) result reader.new (authority_at reader.old) }
    {
        Authority::read(reader)
    }

    #[tactic(auto, unfolding(crate::specs::TrackReading::authority_at))]
    #[inline(always)]
    fn read(reader: &mut BitReader) -> Result<Self, PacketFault>
        ensures exact { Takes (λ x. x) result reader.new (authority_at reader.old) }
        ensures taken { IfOk result (λ a. reader.old ≡ joined (track_packet (authority_fields a)) ++ reader.new) }
        ensures fits { IfOk result AuthorityFits }
    {
        let bits = track_part(reader)?;
        let mut part = bits.part();
        let authority = Authority::fields(&mut part)?;
        end(part)?;
        Ok(authority)
    }

    #[tactic(auto, unfolding(crate::specs::TrackReading::authority_fields_at, crate::specs::Layout::joined))]
    #[inline(always)]
    fn fields(part: &mut BitPart) -> Result<Self, PacketFault>
        ensures exact { Takes (λ x. x) result part.new (authority_fields_at part.old) }
        ensures taken { IfOk result (λ a. part.old ≡ joined (authority_fields a) ++ part.new) }
        ensures fits { IfOk result AuthorityFits }
    {
        take_sections(part)?;
        let l_endsection = LEndsection::new(take(part, 15)?);
        take_no_more(part)?;
        Ok(Authority { l_endsection })
    }

    /// The packet with its NID_PACKET. `None` if it is another, or if a value is refused. All of its bits but those of
    /// L_ENDSECTION have one value. So they are read as few fields, and only values are tested.
    #[tactic(auto, unfolding(crate::specs::Layout::joined))]
    #[inline(always)]
    pub fn usual(reader: &mut BitReader) -> Option<Self>
        ensures found { IfSome result
            (λ a. (reader.old ≡ joined ((8, 15) ∷ track_packet (authority_fields a)) ++ reader.new)
            × AuthorityFits a) }
    {
        usual_header(reader, Authority::NID_PACKET, Authority::L_PACKET)?;
        usual_sections(reader)?;
        let l_endsection = LEndsection::new(usual_field(reader, 15)?);
        usual_no_more(reader)?;
        Some(Authority { l_endsection })
    }

    /// Writes the packet.
    #[tactic(auto, unfolding(crate::specs::Layout::joined))]
    #[inline(always)]
    pub fn write_packet(&self, row: &mut BitRow)
        requires room { length row.old + 66 ≤ 256 }
        ensures ok { row.new ≡ row.old ++ joined ((8, 15) ∷ track_packet (authority_fields self.now)) }
        ensures fits { AuthorityFits self.now }
    {
        put_track_header(row, Authority::NID_PACKET, Authority::L_PACKET);
        put_sections(row);
        row.put(self.l_endsection.value(), 15);
        put_no_more(row);
    }
}

// Q_SCALE (1 m), END_SPEED (0), END_TIME (1 023, no limit) and N_ITER (0): one section.
#[tactic(auto, unfolding(crate::specs::TrackReading::sections_at, crate::specs::Layout::joined))]
#[inline(always)]
fn take_sections(part: &mut BitPart) -> Result<(), PacketFault>
    ensures exact { Takes (λ x. x) result part.new (sections_at part.old) }
    ensures taken { OnOk result (part.old ≡ joined ((2, 1) ∷ (7, 0) ∷ (10, 1023) ∷ (5, 0) ∷ []) ++ part.new) }
{
    take_fixed(part, 2, 1)?;
    take_fixed(part, 7, 0)?;
    take_fixed(part, 10, 1023)?;
    take_fixed(part, 5, 0)
}

// Q_SECTIONTIMER, Q_ENDTIMER, Q_DANGERPOINT and Q_OVERLAP: none.
#[tactic(auto, unfolding(crate::specs::TrackReading::no_more_at, crate::specs::Layout::joined))]
#[inline(always)]
fn take_no_more(part: &mut BitPart) -> Result<(), PacketFault>
    ensures exact { Takes (λ x. x) result part.new (no_more_at part.old) }
    ensures taken { OnOk result (part.old ≡ joined ((1, 0) ∷ (1, 0) ∷ (1, 0) ∷ (1, 0) ∷ []) ++ part.new) }
{
    take_fixed(part, 1, 0)?;
    take_fixed(part, 1, 0)?;
    take_fixed(part, 1, 0)?;
    take_fixed(part, 1, 0)
}

// The four fields as one of 24 bits.
const SECTIONS: u64 = 4_227_040;

#[tactic(auto, unfolding(rbc_bits::specs::Bits::field, crate::specs::Layout::joined))]
#[inline(always)]
fn usual_sections(reader: &mut BitReader) -> Option<()>
    ensures { OnSome result (reader.old ≡ joined ((2, 1) ∷ (7, 0) ∷ (10, 1023) ∷ (5, 0) ∷ []) ++ reader.new) }
{
    usual_fixed(reader, 24, SECTIONS)
}

// The four fields are one of 4 bits.
#[tactic(auto, unfolding(rbc_bits::specs::Bits::field, crate::specs::Layout::joined))]
#[inline(always)]
fn usual_no_more(reader: &mut BitReader) -> Option<()>
    ensures { OnSome result (reader.old ≡ joined ((1, 0) ∷ (1, 0) ∷ (1, 0) ∷ (1, 0) ∷ []) ++ reader.new) }
{
    usual_fixed(reader, 4, 0)
}

#[tactic(auto, unfolding(rbc_bits::specs::Bits::field, crate::specs::Layout::joined))]
#[inline(always)]
fn put_sections(row: &mut BitRow)
    requires room { length row.old + 24 ≤ 256 }
    ensures ok { row.new ≡ row.old ++ joined ((2, 1) ∷ (7, 0) ∷ (10, 1023) ∷ (5, 0) ∷ []) }
    ensures length { length row.new ≡ length row.old + 24 }
{
    row.put(SECTIONS, 24);
}

// The four fields are one of 4 bits.
#[tactic(auto, unfolding(rbc_bits::specs::Bits::field, crate::specs::Layout::joined))]
#[inline(always)]
fn put_no_more(row: &mut BitRow)
    requires room { length row.old + 4 ≤ 256 }
    ensures ok { row.new ≡ row.old ++ joined ((1, 0) ∷ (1, 0) ∷ (1, 0) ∷ (1, 0) ∷ []) }
{
    row.put(0, 4);
}
