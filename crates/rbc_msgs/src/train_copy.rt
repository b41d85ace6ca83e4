//! Copies of a train's message, which owns the bits of packets and is not `Copy`.

ghost use Rattle.std.specs.Prelude.{◌≡◌, IfOk};

use crate::train::TrainMsg;
use crate::train_body::TrainBody;
use rbc_packets::{Opaque, Packets};
use std::alloc::{AllocError, Global};

impl TrainMsg {
    /// A copy. Only packets that are kept without being read take memory.
    pub fn copied(&self, alloc: Global) -> Result<TrainMsg, AllocError>
        ensures { IfOk result (λ copy. copy ≡ self.now) }
    {
        let body = copied_body(alloc, self.body())?;
        let further = copied_packets(alloc, self.further())?;
        Ok(TrainMsg::new(self.t_train(), self.nid_engine(), body, further))
    }
}

// The body, after the header.
fn copied_body(alloc: Global, body: &TrainBody) -> Result<TrainBody, AllocError>
    ensures { IfOk result (λ copy. copy ≡ body.now) }
{
    match *body {
        TrainBody::TrainData {
            position,
            ref packet,
        } => {
            let packet = copied_packet(alloc, packet)?;
            Ok(TrainBody::TrainData { position, packet })
        }
        TrainBody::Request {
            q_marqstreason,
            position,
        } => Ok(TrainBody::Request {
            q_marqstreason,
            position,
        }),
        TrainBody::Report { position } => Ok(TrainBody::Report { position }),
        TrainBody::ShorteningGranted { request, position } => {
            Ok(TrainBody::ShorteningGranted { request, position })
        }
        TrainBody::ShorteningRejected { request, position } => {
            Ok(TrainBody::ShorteningRejected { request, position })
        }
        TrainBody::EndOfMission { position } => Ok(TrainBody::EndOfMission { position }),
        TrainBody::InitiationOfSession => Ok(TrainBody::InitiationOfSession),
        TrainBody::TerminationOfSession => Ok(TrainBody::TerminationOfSession),
        TrainBody::StartOfMission { q_status, position } => {
            Ok(TrainBody::StartOfMission { q_status, position })
        }
        TrainBody::SessionEstablished => Ok(TrainBody::SessionEstablished),
    }
}

fn copied_packets(alloc: Global, packets: &[Opaque]) -> Result<Packets, AllocError>
    ensures { IfOk result (λ copy. copy ≡ packets.now) }
{
    let mut copy = Vec::with_capacity(alloc, packets.len())?;
    for packet in packets {
        copy.push(copied_packet(alloc, packet)?)?;
    }
    Packets::of(alloc, copy)
}

fn copied_packet(alloc: Global, packet: &Opaque) -> Result<Opaque, AllocError>
    ensures { IfOk result (λ copy. copy ≡ packet.now) }
{
    match Opaque::new(alloc, packet.nid_packet(), packet.bits()) {
        Ok(copy) => Ok(copy),
        Err(_) => Err(AllocError),
    }
}
