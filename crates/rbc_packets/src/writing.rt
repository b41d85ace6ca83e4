//! The headers of packets.

ghost use Rattle.std.specs.Prelude.{◌≡◌, ◌+◌, ◌^◌, ◌<◌, ◌≤◌, ◌++◌, ◌∷◌, [], length, OnOk, IsOkUnless};
ghost use Rattle.rbc_packets.specs.Layout.{joined};
ghost use Rattle.rbc_packets.specs.TrackSpelling.{no_radio};

use crate::fault::PacketFault;
use crate::reading::{NO_RADIO, track_header};
use rbc_bits::{BitRow, BitWriter};

/// NID_PACKET and L_PACKET of a train's packet.
#[tactic(auto, unfolding(crate::specs::Layout::joined))]
#[inline(always)]
pub(crate) fn put_train_header(
    writer: &mut BitWriter,
    nid_packet: u64,
    l_packet: u64,
) -> Result<(), PacketFault>
    requires number { nid_packet < 2 ^ 8 }
    requires length { l_packet < 2 ^ 13 }
    ensures ok { OnOk result (writer.new ≡ writer.old ++ joined ((8, nid_packet) ∷ (13, l_packet) ∷ [])) }
    ensures memory { IsOkUnless result PacketFault.Memory }
{
    writer.put(nid_packet, 8)?;
    writer.put(l_packet, 13)?;
    Ok(())
}

/// The same in a `BitRow`.
#[tactic(auto, unfolding(crate::specs::Layout::joined))]
#[inline(always)]
pub(crate) fn put_header(row: &mut BitRow, nid_packet: u64, l_packet: u64)
    requires number { nid_packet < 2 ^ 8 }
    requires length { l_packet < 2 ^ 13 }
    requires room { length row.old + 21 ≤ 256 }
    ensures ok { row.new ≡ row.old ++ joined ((8, nid_packet) ∷ (13, l_packet) ∷ []) }
    ensures length { length row.new ≡ length row.old + 21 }
{
    row.put(nid_packet, 8);
    row.put(l_packet, 13);
}

/// The header of a packet of a centre, with its NID_PACKET.
#[inline(always)]
pub(crate) fn put_track_header(row: &mut BitRow, nid_packet: u64, l_packet: u64)
    requires number { nid_packet < 2 ^ 8 }
    requires length { l_packet < 2 ^ 13 }
    requires room { length row.old + 23 ≤ 256 }
    ensures ok { row.new ≡ row.old ++ joined ((8, nid_packet) ∷ (2, 1) ∷ (13, l_packet) ∷ []) }
    ensures length { length row.new ≡ length row.old + 23 }
{
    row.put(track_header(nid_packet, l_packet), 23);
}

/// NID_RADIO, without a number, and Q_SLEEPSESSION, which is not asked for.
#[tactic(auto, unfolding(crate::specs::Layout::joined))]
#[inline(always)]
pub(crate) fn put_radio(row: &mut BitRow)
    requires room { length row.old + 65 ≤ 256 }
    ensures ok { row.new ≡ row.old ++ joined ((64, no_radio) ∷ (1, 0) ∷ []) }
{
    row.put(NO_RADIO, 64);
    row.put(0, 1);
}
