ghost use Rattle.std.specs.Prelude.{◌≡◌, ◌+◌, ◌^◌, ◌<◌, ◌≤◌, ◌++◌, ◌∷◌, [], length, take, IfOk, OnOk, OnSome, IfNone};
ghost use Rattle.std.specs.Prelude.{IsOkUnless, Bool, List, Ok};
ghost use Rattle.rbc_bits.specs.Bits.{bits_of, filled};
ghost use Rattle.rbc_packets.specs.Layout.{joined};
ghost use Rattle.rbc_packets.specs.Packet.{Packet, PacketFits};
ghost use Rattle.rbc_packets.specs.Steps.{TakesUnless};
ghost use Rattle.rbc_packets.specs.OpaqueReading.{opaque_at, opaque_bits};

use crate::fault::PacketFault;
use crate::reading::train_part;
use crate::writing::{put_header, put_train_header};
use rbc_bits::{BitReader, BitRow, BitWriter};
use smallvec::SmallVec;
use std::alloc::Global;
use std::marker::Model;

// The room, in bits, of a `BitRow` after a header, a position report and the header of a packet.
const MOST_FEW: u32 = 24;

// The number of bytes in the value itself: those of a word.
const IN_PLACE: usize = 16;

/// A packet of a train that is kept without being read: its NID_PACKET, and the bits after its header. It is held by a
/// pointer, since few messages have one, and each has the size of the largest.
#[derive(Debug, Drop)]
pub struct Opaque {
    kept: Box<Kept>,
}

#[derive(Debug, Drop)]
struct Kept {
    nid_packet: u8,
    count: u32,
    bytes: SmallVec<u8, IN_PLACE>,
}

impl Model for Opaque {
    ghost use Rattle.rbc_packets.specs.Packet.{Packet};

    ghost Value = { Packet };

    ghost use Rattle.rbc_packets.specs.OpaqueView.{packet_of, HasPacketRanges};

    ghost view = { packet_of };

    ghost invariant = { HasPacketRanges };
}

impl Opaque {
    /// A packet of these bits, which L_PACKET has room for.
    #[inline(always)]
    pub fn new(alloc: Global, nid_packet: u8, bits: BitReader) -> Result<Self, PacketFault>
        requires { length bits < 8171 }
        ensures ok { IfOk result (λ p. p ≡ record { nid_packet = nid_packet; bits = bits.entry }) }
        ensures memory { IsOkUnless result PacketFault.Memory }
    {
        let kept = Kept {
            nid_packet,
            count: bits.remaining(),
            bytes: bytes_of(alloc, bits)?,
        };
        match Box::new(alloc, kept) {
            Ok(kept) => Ok(Opaque { kept }),
            Err(_) => Err(PacketFault::Memory),
        }
    }

    /// Reads the packet of this NID_PACKET after it.
    #[inline(always)]
    pub fn read_packet(
        alloc: Global,
        nid_packet: u8,
        reader: &mut BitReader,
    ) -> Result<Self, PacketFault>
        // The bits spell the value that is read.
        ensures found { IfOk result
            (λ p. (reader.old ≡ opaque_bits p ++ reader.new) × (p.nid_packet ≡ nid_packet) × PacketFits p) }
        // A spelled value is read, unless memory runs out.
        ensures only { (p : Packet) (rest : List Bool) → PacketFits p → p.nid_packet ≡ nid_packet
            → reader.old ≡ opaque_bits p ++ rest →
            TakesUnless PacketFault.Memory (λ x. x) result reader.new (Ok (p, rest)) }
        // Which fault it is.
        ensures exact { TakesUnless PacketFault.Memory (λ x. x) result reader.new (opaque_at nid_packet reader.old) }
    {
        Opaque::read(alloc, nid_packet, reader)
    }

    #[tactic(auto, unfolding(crate::specs::OpaqueReading::opaque_at))]
    #[inline(always)]
    fn read(alloc: Global, nid_packet: u8, reader: &mut BitReader) -> Result<Self, PacketFault>
        ensures exact { TakesUnless PacketFault.Memory (λ x. x) result reader.new (opaque_at nid_packet reader.old) }
        ensures taken { IfOk result (λ p. reader.old ≡ opaque_bits p ++ reader.new) }
        ensures number { IfOk result (λ p. p.nid_packet ≡ nid_packet) }
        ensures fits { IfOk result PacketFits }
    {
        let part = train_part(reader)?;
        Opaque::new(alloc, nid_packet, part)
    }

    /// Writes the packet. A refusal leaves nothing of the writer.
    pub fn write_packet(&self, mut writer: BitWriter) -> Result<BitWriter, PacketFault>
        ensures ok { IfOk result (λ w. w ≡ writer ++ (joined ((8, self.now.nid_packet) ∷ []) ++ opaque_bits self.now)) }
        ensures fits { OnOk result (PacketFits self.now) }
        ensures memory { IsOkUnless result PacketFault.Memory }
    {
        let bits = self.bits();
        let l_packet = 21 + u64::from(bits.remaining());
        put_train_header(&mut writer, self.nid_packet().into(), l_packet)?;
        copy(bits, &mut writer)?;
        Ok(writer)
    }

    /// Writes the packet into a `BitRow`. `None` if it has more than 24 bits after its header; then nothing is written.
    #[inline(always)]
    pub fn put_few(&self, row: &mut BitRow) -> Option<()>
        requires room { length row.old + 45 ≤ 256 }
        ensures ok { OnSome result
            (row.new ≡ row.old ++ (joined ((8, self.now.nid_packet) ∷ []) ++ opaque_bits self.now)) }
        ensures none { IfNone result (row.new ≡ row.old) }
        ensures more { IfNone result (24 < length self.now.bits) }
        ensures fits { OnSome result (PacketFits self.now) }
    {
        let bits = self.bits();
        let width = bits.remaining();
        if width > MOST_FEW {
            return None;
        }
        put_header(row, self.nid_packet().into(), 21 + u64::from(width));
        put_bits(row, bits);
        Some(())
    }

    /// NID_PACKET.
    pub fn nid_packet(&self) -> u8
        ensures value { result ≡ self.now.nid_packet }
        ensures range { result < 2 ^ 8 }
    {
        self.kept.nid_packet
    }

    /// The bits after the header.
    pub fn bits(&self) -> BitReader<'_>
        ensures bits { result ≡ self.now.bits }
        ensures few { length result < 8171 }
    {
        let kept = &*self.kept;
        let mut all = BitReader::new(kept.bytes.as_slice());
        match all.cut(kept.count) {
            Ok(bits) => bits,
            Err(_) => unreachable!(),
        }
    }
}

// Writes all bits of a part of one field.
#[inline(always)]
fn put_bits(row: &mut BitRow, mut part: BitReader)
    requires few { length part ≤ 64 }
    requires room { length row.old + length part ≤ 256 }
    ensures { row.new ≡ row.old ++ part.entry }
{
    let width = part.remaining();
    if width == 0 {
        return;
    }
    match part.take(width) {
        Ok(value) => row.put(value, width),
        Err(_) => unreachable!(),
    }
}

// The bytes of the bits; without memory if they fit in one word.
#[inline(always)]
fn bytes_of(alloc: Global, bits: BitReader) -> Result<SmallVec<u8, IN_PLACE>, PacketFault>
    requires { length bits < 8171 }
    ensures ok { IfOk result (λ bytes. take (length bits.entry) (bits_of bytes.items) ≡ bits.entry) }
    ensures few { IfOk result (λ bytes. length bytes.items ≤ 1022) }
    ensures memory { IsOkUnless result PacketFault.Memory }
{
    match bits.word() {
        Some(word) => Ok(SmallVec::from_buf(alloc, word.to_bytes())),
        None => Ok(SmallVec::from_vec(written(alloc, bits)?)),
    }
}

// The bytes of the bits. It is a separate call, since most packets fit in one word.
#[inline(never)]
fn written(alloc: Global, bits: BitReader) -> Result<Vec<u8>, PacketFault>
    ensures ok { IfOk result (λ bytes. bits_of bytes.items ≡ filled bits.entry) }
    ensures memory { IsOkUnless result PacketFault.Memory }
{
    let count = bits.remaining();
    let mut writer = BitWriter::with_capacity(alloc, ((count + 7) / 8) as usize)?;
    copy(bits, &mut writer)?;
    Ok(writer.finish()?)
}

// Writes all bits of a part, words at a time.
fn copy(mut part: BitReader, writer: &mut BitWriter) -> Result<(), PacketFault>
    ensures ok { OnOk result (writer.new ≡ writer.old ++ part.entry) }
    ensures memory { IsOkUnless result PacketFault.Memory }
{
    while let Ok(word) = part.take(64) {
        writer.put(word, 64)?;
    }
    let n = part.remaining();
    match part.take(n) {
        Ok(last) => Ok(writer.put(last, n)?),
        Err(_) => unreachable!(),
    }
}
