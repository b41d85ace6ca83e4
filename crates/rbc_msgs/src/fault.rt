ghost use Rattle.std.specs.Prelude.{◌≡◌};
ghost use Rattle.rbc_msgs.specs.Faults.{fault_number, stream_fault_number};
ghost use Rattle.rbc_msgs.specs.declared.fault.EncodeFault.TheVariants as encode;

use rbc_bits::BitFault;
use rbc_packets::PacketFault;
use std::alloc::{AllocError, AllocFailed};

/// Why bytes are not a readable message: the first fault in the order of the tests (profile).
#[derive(Clone, Copy, Debug, PartialEq, Eq)]
pub enum MsgFault {
    /// Fewer bytes than NID_MESSAGE and L_MESSAGE need, or than L_MESSAGE names.
    Short = 1,
    /// L_MESSAGE is too small for the message, bytes follow the last that it counts, or a track message has bits after
    /// its last field.
    Length = 2,
    /// A filling bit is not zero.
    Padding = 3,
    /// No message of this NID_MESSAGE is read.
    UnknownNumber = 4,
    /// A packet is cut off or has a wrong length.
    Packet = 5,
    /// A packet that the message must have is not there.
    Missing = 6,
    /// A field has a value that is refused.
    Value = 7,
    /// Memory ran out.
    Memory = 8,
}

impl MsgFault {
    /// The number by which a program names the fault.
    pub fn number(self) -> u8
        ensures { result ≡ fault_number self }
    {
        self as u8
    }
}

impl From<PacketFault> for MsgFault {
    ghost use Rattle.std.specs.Prelude.{◌≡◌};
    ghost use Rattle.rbc_msgs.specs.Reading.{packet_fault};

    ghost from_gives = { λ fault given. given ≡ packet_fault fault };

    fn from(fault: PacketFault) -> MsgFault {
        match fault {
            PacketFault::Short | PacketFault::Length => MsgFault::Packet,
            PacketFault::Value => MsgFault::Value,
            PacketFault::Memory => MsgFault::Memory,
        }
    }
}

impl From<AllocError> for MsgFault {
    ghost use Rattle.std.specs.Prelude.{◌≡◌};
    ghost use Rattle.rbc_msgs.specs.declared.fault.MsgFault.TheVariants as msg;

    ghost from_gives = { λ _ fault. fault ≡ msg.Memory };

    fn from(_error: AllocError) -> MsgFault {
        MsgFault::Memory
    }
}

impl<T: Drop> From<AllocFailed<T>> for MsgFault {
    ghost use Rattle.std.specs.Prelude.{◌≡◌};
    ghost use Rattle.rbc_msgs.specs.declared.fault.MsgFault.TheVariants as msg;

    ghost from_gives = { λ _ fault. fault ≡ msg.Memory };

    fn from(_error: AllocFailed<T>) -> MsgFault {
        MsgFault::Memory
    }
}

/// Why a stream of messages was not read further.
#[derive(Clone, Copy, Debug, PartialEq, Eq)]
pub enum StreamFault {
    /// The message that begins there has this fault.
    Message(MsgFault),
    /// An earlier call met a fault.
    Failed,
}

impl StreamFault {
    /// The number by which a program names the fault: that of the message's fault, or 9.
    pub fn number(self) -> u8
        ensures { result ≡ stream_fault_number self }
    {
        match self {
            StreamFault::Message(fault) => fault.number(),
            StreamFault::Failed => 9,
        }
    }
}

impl From<MsgFault> for StreamFault {
    ghost use Rattle.std.specs.Prelude.{◌≡◌};
    ghost use Rattle.rbc_msgs.specs.declared.fault.StreamFault.TheVariants.{Message};

    ghost from_gives = { λ fault given. given ≡ Message fault };

    fn from(fault: MsgFault) -> StreamFault {
        StreamFault::Message(fault)
    }
}

/// Why a message was not written.
#[derive(Clone, Copy, Debug, PartialEq, Eq)]
pub enum EncodeFault {
    /// Memory ran out.
    Memory = 1,
    /// The message has more than 1 023 bytes.
    TooLong = 2,
}

// A writer refuses only if memory runs out.
impl From<BitFault> for EncodeFault {
    ghost from_gives = { λ _ fault. fault ≡ encode.Memory };

    fn from(_fault: BitFault) -> EncodeFault {
        EncodeFault::Memory
    }
}

// So do packets that are written.
impl From<PacketFault> for EncodeFault {
    ghost from_gives = { λ _ fault. fault ≡ encode.Memory };

    fn from(_fault: PacketFault) -> EncodeFault {
        EncodeFault::Memory
    }
}
