ghost use Rattle.std.specs.Prelude.{◌≡◌, ◌<◌, IfErr, IfOk, [], length};
ghost use Rattle.rbc_msgs.specs.TrainView.{HasItsPackets};
ghost use Rattle.text_scenario.specs.Named.{body_of, message_named, packet_of, position_in};
ghost use Rattle.text_scenario.specs.Sent.{Gives, IsUnsent, Sends};

use crate::fault::SentFault;
use crate::kind::Kind;
use crate::report::Report;
use rbc_bits::BitReader;
use rbc_msgs::{EncodeFault, TrainBody, TrainMsg, encode_train};
use rbc_packets::{Opaque, Packets, Position};
use rbc_vars::NidEngine;
use rbc_world::WorldEvent;
use std::alloc::Global;

/// A train's message in words.
#[derive(Drop)]
pub struct Sent {
    pub centre: u8,
    pub nid_engine: NidEngine,
    pub kind: Kind,
    /// The position report: that of the line, or of the last line of the train.
    pub report: Option<Report>,
    /// The content of packet 11.
    pub content: Vec<u8>,
}

// NID_PACKET of the train data, and the most bytes that it has room for.
const DATA: u8 = 11;

const MOST_DATA: usize = 1021;

impl Sent {
    /// The event that this message reaches its centre with this T_TRAIN.
    #[tactic(auto, using(crate::proofs::Messages::too_long))]
    pub fn event(&self, alloc: Global, t_train: u32) -> Result<WorldEvent, SentFault>
        ensures sent { IfOk result (Sends self.now t_train) }
        ensures fault { IfErr result (IsUnsent self.now t_train) }
    {
        let message = self.message(alloc, t_train)?;
        match encode_train(alloc, &message) {
            Ok(bytes) => Ok(WorldEvent::Train {
                centre: self.centre,
                bytes,
            }),
            Err(EncodeFault::Memory) => Err(SentFault::Memory),
            Err(EncodeFault::TooLong) => Err(SentFault::TooLong),
        }
    }

    /// The message with this T_TRAIN.
    #[tactic(auto, using(crate::proofs::Messages::err, crate::proofs::Messages::late, crate::proofs::Messages::named))]
    pub fn message(&self, alloc: Global, t_train: u32) -> Result<TrainMsg, SentFault>
        ensures { Gives result (message_named self.now t_train) }
    {
        let body = match self.body(alloc) {
            Ok(body) => body,
            Err(fault) => return Err(fault),
        };
        if t_train == u32::MAX {
            return Err(SentFault::Time);
        }
        let nid_engine = self.nid_engine.value() as u32;
        Ok(TrainMsg::new(t_train, nid_engine, body, Packets::none()))
    }

    #[tactic(auto, unfolding(crate::specs::Named::body_of))]
    fn body(&self, alloc: Global) -> Result<TrainBody, SentFault>
        ensures exact { Gives result (body_of self.now.kind self.now.content.items (position_in self.now.report)) }
        ensures packets { IfOk result HasItsPackets }
    {
        Ok(match self.kind {
            Kind::TrainData => {
                let position = self.position()?;
                let packet = self.packet(alloc)?;
                TrainBody::TrainData { position, packet }
            }
            Kind::Request(q_marqstreason) => {
                let position = self.position()?;
                TrainBody::Request {
                    q_marqstreason,
                    position,
                }
            }
            Kind::Report => {
                let position = self.position()?;
                TrainBody::Report { position }
            }
            Kind::ShorteningGranted(request) => {
                let position = self.position()?;
                TrainBody::ShorteningGranted { request, position }
            }
            Kind::ShorteningRejected(request) => {
                let position = self.position()?;
                TrainBody::ShorteningRejected { request, position }
            }
            Kind::EndOfMission => {
                let position = self.position()?;
                TrainBody::EndOfMission { position }
            }
            Kind::InitiationOfSession => TrainBody::InitiationOfSession,
            Kind::TerminationOfSession => TrainBody::TerminationOfSession,
            Kind::StartOfMission(q_status) => {
                let position = self.position()?;
                TrainBody::StartOfMission { q_status, position }
            }
            Kind::SessionEstablished => TrainBody::SessionEstablished,
        })
    }

    // Packet 11.
    #[tactic(auto, using(crate::proofs::Messages::has_room))]
    fn packet(&self, alloc: Global) -> Result<Opaque, SentFault>
        ensures { Gives result (packet_of self.now.content.items) }
    {
        if self.content.len() > MOST_DATA {
            return Err(SentFault::TooLong);
        }
        match Opaque::new(alloc, DATA, BitReader::new(&self.content)) {
            Ok(packet) => Ok(packet),
            Err(_) => Err(SentFault::Memory),
        }
    }

    fn position(&self) -> Result<Position, SentFault>
        ensures { result ≡ position_in self.now.report }
    {
        match self.report {
            Some(report) => report.position(),
            None => Err(SentFault::NoPosition),
        }
    }
}
