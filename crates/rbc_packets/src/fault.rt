ghost use Rattle.std.specs.Prelude.{◌≡◌};
ghost use Rattle.rbc_packets.specs.declared.fault.PacketFault.TheVariants.{Memory};

use rbc_bits::BitFault;

/// Why bits are not a readable packet, or why a packet was not read or written when memory ran out.
#[derive(Clone, Copy, Debug, PartialEq, Eq)]
pub enum PacketFault {
    /// The header is cut off, or L_PACKET passes the end of the message.
    Short = 1,
    /// L_PACKET is not the length that the packet's fields have.
    Length = 2,
    /// A field has a value that is refused.
    Value = 3,
    /// Memory ran out.
    Memory = 4,
}

// A writer refuses only if memory runs out.
impl From<BitFault> for PacketFault {
    ghost from_gives = { λ _ fault. fault ≡ Memory };

    fn from(_fault: BitFault) -> PacketFault {
        PacketFault::Memory
    }
}
