ghost use Rattle.std.specs.Prelude.{◌≡◌, IfOk};
ghost use Rattle.law_outside.specs.Outside as spec;
ghost use Rattle.rbc_msgs.specs.TrainReading.{read_train};
ghost use Rattle.rbc_spec.specs.World as world;
ghost use Rattle.rbc_watch.specs.Events.{event_of, numbered};

use crate::spoken::Spoken;
use rbc_msgs::{MsgFault, TrainMsg, decode_train};
use std::alloc::{AllocError, Global};

/// An event of the centres of a line.
#[derive(Debug, Drop)]
pub enum Event {
    /// Bytes from a train arrive at a centre. They spell a message, or show a fault.
    Bytes {
        centre: u8,
        read: Result<TrainMsg, MsgFault>,
    },
    /// The interlocking releases a section at a centre.
    Set {
        centre: u8,
        section: u16,
    },
    /// The interlocking takes a section back.
    Unset {
        centre: u8,
        section: u16,
    },
    /// A frame of one centre arrives at another.
    Delivery {
        from: u8,
        to: u8,
        number: u32,
    },
}

/// An event, with the messages and replies after it. `None`: the event had no effect.
#[derive(Debug, Drop)]
pub struct Exchange {
    pub event: Event,
    pub spoken: Option<Spoken>,
}

impl Event {
    /// These bytes of a train arrive at a centre.
    pub fn from_bytes(alloc: Global, centre: u8, bytes: &[u8]) -> Result<Event, AllocError>
        ensures { IfOk result
            (λ event. event_of event ≡ world.Bytes centre (numbered (read_train bytes.now))) }
    {
        match decode_train(alloc, bytes) {
            Ok(message) => Ok(Event::Bytes {
                centre,
                read: Ok(message),
            }),
            Err(MsgFault::Memory) => Err(AllocError),
            Err(fault) => Ok(Event::Bytes {
                centre,
                read: Err(fault),
            }),
        }
    }

    /// The centre at which the event happens.
    pub fn centre(&self) -> u8
        ensures { result ≡ world.centre_of (event_of self.now) }
    {
        match self {
            Event::Bytes { centre, .. } => *centre,
            Event::Set { centre, .. } => *centre,
            Event::Unset { centre, .. } => *centre,
            Event::Delivery { to, .. } => *to,
        }
    }

    /// T_TRAIN of the train's message that the event is.
    pub(crate) fn stamp(&self, nid_engine: u32) -> Option<u32>
        ensures { result ≡ spec.stamp_of (event_of self.now) nid_engine }
    {
        match self {
            Event::Bytes {
                read: Ok(message),
                ..
            } if message.nid_engine() == nid_engine => Some(message.t_train()),
            _ => None,
        }
    }
}
