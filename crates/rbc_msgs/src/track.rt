ghost use Rattle.std.specs.Prelude.{◌≡◌, ◌^◌, ◌<◌};
ghost use Rattle.rbc_spec.specs.Message.{unknown_time};
ghost use Rattle.rbc_msgs.specs.Bodies.{track_body};

use rbc_packets::{Authority, SessionOrder, Transition};
use rbc_vars::TTrain;
use std::marker::Model;

/// NID_LRBG of a message that names no balise group (SUBSET-026 7.5.1).
pub const NID_LRBG_UNKNOWN: u32 = 16_777_215;

/// M_VERSION of the system version 2.0 (SUBSET-026 7.5.1).
pub(crate) const VERSION_2_0: u64 = 32;

/// The body of a message of a centre to a train (SUBSET-026 8.7).
#[derive(Clone, Copy, Debug, PartialEq, Eq)]
pub enum TrackBody {
    /// Message 3, Movement Authority (3.8).
    Authority(Authority),
    /// Message 8, Acknowledgement of Train Data: T_TRAIN of the train data.
    DataAcknowledged(TTrain),
    /// Message 9, Request to Shorten MA (3.8.6).
    ShorteningRequest(Authority),
    /// Message 24, General Message, with packet 131: the RBC transition order (3.15.1).
    Transition(Transition),
    /// Message 24, General Message, with packet 42: the session is to be terminated (3.5.5).
    EndSession(SessionOrder),
    /// Message 32, RBC/RIU System Version: version 2.0 (3.5.3).
    SystemVersion,
    /// Message 39, Acknowledgement of termination of a communication session (3.5.5).
    TerminationAcknowledged,
    /// Message 40, Train Rejected (5.4).
    TrainRejected,
    /// Message 41, Train Accepted (5.4).
    TrainAccepted,
}

/// A message to a train. It asks for no acknowledgement (profile).
#[derive(Clone, Copy, Debug, PartialEq, Eq)]
pub struct TrackMsg {
    t_train: u32,
    nid_lrbg: u32,
    body: TrackBody,
}

impl Model for TrackMsg {
    ghost use Rattle.rbc_spec.specs.Message.{TrackMessage};

    ghost Value = { TrackMessage };

    ghost use Rattle.rbc_msgs.specs.TrackView.{track_message, HasTrackRanges, track_inside};

    ghost view = { track_message };

    ghost invariant = { HasTrackRanges };

    ghost inverse = { track_inside };

    ghost use Rattle.rbc_msgs.specs.TrackView.{track_back};

    ghost inverse_ok = { track_back };
}

impl TrackMsg {
    /// A message with this T_TRAIN, which names this balise group or `NID_LRBG_UNKNOWN`.
    pub fn new(t_train: u32, nid_lrbg: u32, body: TrackBody) -> TrackMsg
        requires time { t_train < unknown_time }
        requires group { nid_lrbg < 2 ^ 24 }
        ensures { result ≡ record { t_train = t_train; nid_lrbg = nid_lrbg; body = track_body body } }
    {
        TrackMsg {
            t_train,
            nid_lrbg,
            body,
        }
    }

    /// T_TRAIN: the count of messages that the centre has sent to the train, from 1 (profile).
    pub fn t_train(&self) -> u32
        ensures value { result ≡ self.now.t_train }
        ensures range { result < unknown_time }
    {
        self.t_train
    }

    /// NID_LRBG of the balise group that the message names.
    pub fn nid_lrbg(&self) -> u32
        ensures value { result ≡ self.now.nid_lrbg }
        ensures range { result < 2 ^ 24 }
    {
        self.nid_lrbg
    }

    /// Its body.
    pub fn body(&self) -> TrackBody
        ensures { track_body result ≡ self.now.body }
    {
        self.body
    }
}
