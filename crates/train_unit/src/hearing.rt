//! The messages that a unit receives.

ghost use Rattle.std.specs.Prelude.{◌≡◌, ◌^◌, ◌<◌, ℕ, true};
ghost use Rattle.rbc_spec.specs.Line.{is_centre};
ghost use Rattle.rbc_spec.specs.Line as track;
ghost use Rattle.rbc_spec.specs.Message as said;
ghost use Rattle.law_trains.specs.Trains as rules;
ghost use Rattle.train_unit.specs.Units.{train_of};
ghost use Rattle.train_unit.specs.declared.ends.Ends.{Ends};

use crate::unit::{Asked, Followed, OnBoardUnit};
use rbc_line::Line;
use rbc_msgs::{TrackBody, TrackMsg};
use rbc_place::section_start;

/// The end of an authority, in metres from the start of the track: this many metres in advance of a balise group.
/// `None` if the group is not of the line.
fn end_from(line: &Line, nid_lrbg: u32, metres: u64) -> Option<u32>
    requires { metres < 2 ^ 15 }
    ensures { result ≡ rules.end_from line.now nid_lrbg metres }
{
    let s = line.section_of_group(nid_lrbg)?;
    Some(section_start(line, s) + metres as u32)
}

impl OnBoardUnit {
    /// The train receives a message of this centre.
    pub fn hears(&mut self, line: &Line, centre: u8, message: &TrackMsg)
        requires { is_centre line.now centre ≡ true }
        ensures name { self.new.nid_engine ≡ self.old.nid_engine }
        ensures exact { (ends : Ends) → train_of self.new ends
            ≡ rules.hears line.now centre message.now message.now.body (train_of self.old ends) }
    {
        match message.body() {
            TrackBody::DataAcknowledged(stamp) => {
                self.data_acknowledged(centre, message, stamp.value() as u32);
            }
            TrackBody::Authority(authority) => {
                self.authority(line, centre, message, authority.l_endsection.value());
            }
            TrackBody::ShorteningRequest(authority) => {
                self.shortening_request(line, centre, message, authority.l_endsection.value());
            }
            TrackBody::Transition(_)
            | TrackBody::EndSession(_)
            | TrackBody::SystemVersion
            | TrackBody::TerminationAcknowledged
            | TrackBody::TrainRejected
            | TrackBody::TrainAccepted => {}
        }
    }

    // It follows the centre that acknowledges train data which it sent after it last gave something back.
    fn data_acknowledged(&mut self, centre: u8, message: &TrackMsg, stamp: u32)
        ensures name { self.new.nid_engine ≡ self.old.nid_engine }
        ensures exact { (line : track.Line) (ends : Ends) → train_of self.new ends
            ≡ rules.hears line centre message.now (said.DataAcknowledged stamp) (train_of self.old ends) }
    {
        if self.gave_back < stamp {
            self.follows = Some(Followed {
                centre,
                stamp: message.t_train(),
            });
        }
    }

    // It takes an authority only from the centre that it follows, and only one that was sent after the acknowledgement.
    fn authority(&mut self, line: &Line, centre: u8, message: &TrackMsg, metres: u64)
        requires { metres < 2 ^ 15 }
        ensures name { self.new.nid_engine ≡ self.old.nid_engine }
        ensures exact { (ends : Ends) → train_of self.new ends
            ≡ rules.hears line.now centre message.now (said.Authority metres) (train_of self.old ends) }
    {
        if !self.takes(centre, message.t_train()) {
            return;
        }
        if let Some(end) = end_from(line, message.nid_lrbg(), metres) {
            self.end = Some(end);
        }
    }

    // Whether it takes an authority of this centre with this T_TRAIN.
    fn takes(&self, centre: u8, t_train: u32) -> bool
        ensures { (ends : Ends) → result ≡ rules.takes centre t_train (train_of self.now ends) }
    {
        match self.follows {
            Some(followed) => followed.centre == centre && followed.stamp < t_train,
            None => false,
        }
    }

    // It keeps the last request of each centre.
    fn shortening_request(&mut self, line: &Line, centre: u8, message: &TrackMsg, metres: u64)
        requires centre { is_centre line.now centre ≡ true }
        requires metres { metres < 2 ^ 15 }
        ensures name { self.new.nid_engine ≡ self.old.nid_engine }
        ensures exact { (ends : Ends) → train_of self.new ends
            ≡ rules.hears line.now centre message.now (said.ShorteningRequest metres) (train_of self.old ends) }
    {
        let Some(end) = end_from(line, message.nid_lrbg(), metres) else {
            return;
        };
        // The line has at most 8 centres, and this is one of them.
        if centre < line.centre_count() {
            self.asked[centre as usize] = Some(Asked {
                stamp: message.t_train(),
                end,
            });
        }
    }
}
