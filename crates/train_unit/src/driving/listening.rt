//! The effects of a centre's message on a driver.

use crate::driving::driver::{Driver, Talk};
use crate::policy::Session;
use rbc_line::Line;
use rbc_msgs::{TrackBody, TrackMsg};

impl Driver {
    /// The train received a message of this centre. Returns whether it follows another centre since then.
    pub fn hears(&mut self, line: &Line, centre: u8, message: &TrackMsg, now: u32) -> bool {
        let Some(mut talk) = self.talk(centre) else {
            return false;
        };
        talk.heard = now;
        match message.body() {
            TrackBody::SystemVersion if talk.contact.session == Session::Closed => {
                talk.contact.session = Session::Open;
            }
            TrackBody::TrainAccepted => talk.accepted(),
            TrackBody::ShorteningRequest(_) => talk.contact.request = Some(message.t_train()),
            TrackBody::EndSession(_) if self.follows != Some(centre) => talk.is_ending = true,
            TrackBody::DataAcknowledged(stamp) => {
                talk.accepted();
                self.set_talk(centre, Some(talk));
                return self.acknowledged(centre, stamp.value());
            }
            TrackBody::Transition(transition) => {
                self.transition(line, transition.nid_rbc.value(), now);
            }
            TrackBody::TerminationAcknowledged if talk.is_ending => {
                self.set_talk(centre, None);
                return false;
            }
            _ => {}
        }
        self.set_talk(centre, Some(talk));
        false
    }

    // The centre has acknowledged train data with this T_TRAIN.
    fn acknowledged(&mut self, centre: u8, stamp: u64) -> bool {
        if stamp <= u64::from(self.gave_back) || self.is_done() {
            return false;
        }
        let is_other = self.followed != Some(centre);
        self.follows = Some(centre);
        self.followed = Some(centre);
        if is_other {
            self.keep_only(centre);
        }
        is_other
    }

    // The train is to have a session with the centre of this NID_RBC.
    fn transition(&mut self, line: &Line, nid_rbc: u64, now: u32) {
        for c in 0..line.centre_count() {
            if line.nid_rbc(c).map(u64::from) == Some(nid_rbc) {
                self.engage(c, now);
            }
        }
    }
}

impl Talk {
    // The centre has accepted the train, or acknowledged its train data.
    fn accepted(&mut self) {
        if self.contact.session == Session::Established {
            self.contact.session = Session::Accepted;
        }
    }
}
