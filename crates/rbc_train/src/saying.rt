ghost use Rattle.std.specs.Prelude.{◌≡◌, ◌<◌, ◌+◌, [], ◌∷◌, Some};
ghost use Rattle.rbc_spec.specs.Message.{unknown_group};
ghost use Rattle.rbc_msgs.specs.Bodies.{track_body};
ghost use Rattle.rbc_train.specs.Desk.{last_said};
ghost use Rattle.rbc_train.specs.Sayings.{saying_of, sayings_of};

use crate::train::TrainState;
use rbc_msgs::{NID_LRBG_UNKNOWN, TrackBody, TrackMsg};

/// A message to a train.
#[derive(Clone, Copy, Debug, PartialEq, Eq)]
pub struct Saying {
    pub nid_engine: u32,
    pub message: TrackMsg,
}

impl Saying {
    /// A message with this count as its T_TRAIN, from this balise group or `NID_LRBG_UNKNOWN`.
    pub(crate) fn of_count(nid_engine: u32, count: u32, nid_lrbg: u32, body: TrackBody) -> Saying
        requires count { count < 4294967295 }
        requires group { nid_lrbg < 16777216 }
        ensures { saying_of result
            ≡ record {
              nid_engine = nid_engine;
              message = record {
                t_train = count;
                nid_lrbg = nid_lrbg;
                body = track_body body;
              };
            } }
    {
        Saying {
            nid_engine,
            message: TrackMsg::new(count, nid_lrbg, body),
        }
    }
}

impl Default for Saying {
    /// The value of unused positions in a list of messages.
    fn default() -> Saying {
        Saying {
            nid_engine: 0,
            message: TrackMsg::new(0, NID_LRBG_UNKNOWN, TrackBody::SystemVersion),
        }
    }
}

impl TrainState {
    /// The next message to the train has this body, and refers to this balise group or `NID_LRBG_UNKNOWN`.
    pub(crate) fn answer(&mut self, nid_lrbg: u32, body: TrackBody) -> Saying
        requires count { self.old.said < last_said }
        requires group { nid_lrbg < 16777216 }
        ensures saying { saying_of result
            ≡ record {
              nid_engine = self.old.supervision.engine;
              message = record {
                t_train = self.old.said + 1;
                nid_lrbg = nid_lrbg;
                body = track_body body;
              };
            } }
        ensures counted { self.new ≡ record self.old { said = self.old.said + 1 } }
    {
        let nid_engine = self.nid_engine();
        self.said += 1;
        Saying::of_count(nid_engine, self.said, nid_lrbg, body)
    }

    /// The next message to the train has this body, and refers to no balise group.
    pub(crate) fn answered(&mut self, body: TrackBody) -> Saying
        requires { self.old.said < last_said }
        ensures said { sayings_of (Some result)
            ≡ record {
              nid_engine = self.old.supervision.engine;
              message = record {
                t_train = self.old.said + 1;
                nid_lrbg = unknown_group;
                body = track_body body;
              };
            } ∷ [] }
        ensures counted { self.new ≡ record self.old { said = self.old.said + 1 } }
    {
        self.answer(NID_LRBG_UNKNOWN, body)
    }
}
