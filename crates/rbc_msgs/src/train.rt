ghost use Rattle.std.specs.Prelude.{◌≡◌, ◌≢◌, ◌^◌, ◌<◌, All};
ghost use Rattle.rbc_spec.specs.Message.{unknown_time};
ghost use Rattle.rbc_msgs.specs.TrainView.{HasItsPackets};

use crate::train_body::TrainBody;
use rbc_packets::{Opaque, Packets};
use std::marker::Model;

/// A message of a train.
#[derive(Debug, Drop)]
pub struct TrainMsg {
    t_train: u32,
    nid_engine: u32,
    body: TrainBody,
    further: Packets,
}

impl Model for TrainMsg {
    ghost use Rattle.rbc_msgs.specs.TrainText.{TrainText};

    ghost Value = { TrainText };

    ghost use Rattle.rbc_msgs.specs.TrainView.{train_text, HasTrainRanges};

    ghost view = { train_text };

    ghost invariant = { HasTrainRanges };
}

impl TrainMsg {
    /// A message of the train with this NID_ENGINE, as its clock shows T_TRAIN, with further packets after its body.
    pub fn new(t_train: u32, nid_engine: u32, body: TrainBody, further: Packets) -> TrainMsg
        requires time { t_train < unknown_time }
        requires engine { nid_engine < 2 ^ 24 }
        requires packets { HasItsPackets body }
        requires further { All (λ p. p.nid_packet ≢ 0) further }
        ensures { result ≡ record { t_train = t_train; nid_engine = nid_engine; body = body; further = further } }
    {
        TrainMsg {
            t_train,
            nid_engine,
            body,
            further,
        }
    }

    /// T_TRAIN: the train's clock as the message was sent, in units of 10 ms, never the unknown time (7.5.1).
    pub fn t_train(&self) -> u32
        ensures value { result ≡ self.now.t_train }
        ensures range { result < unknown_time }
    {
        self.t_train
    }

    /// NID_ENGINE of the train.
    pub fn nid_engine(&self) -> u32
        ensures value { result ≡ self.now.nid_engine }
        ensures range { result < 2 ^ 24 }
    {
        self.nid_engine
    }

    /// Its body.
    pub fn body(&self) -> &TrainBody
        ensures value { result.now ≡ self.now.body }
        ensures packets { HasItsPackets result.now }
    {
        &self.body
    }

    /// The packets after those that the message must have, in their order.
    pub fn further(&self) -> &[Opaque]
        ensures value { result.now ≡ self.now.further }
        ensures numbers { All (λ p. p.nid_packet ≢ 0) result.now }
    {
        self.further.as_slice()
    }
}
