//! A policy: the next message of a train to a centre. Any policy is safe, since a unit refuses the messages that the
//! rules forbid. This one proposes no such message.

ghost use Rattle.std.specs.Prelude.{◌≡◌, ◌+◌, ◌&&◌, ◌||◌, ℕ, nat_le, nat_lt, is_none, Some, true, IfSome};
ghost use Rattle.rbc_spec.specs.Place.{Position};
ghost use Rattle.law_trains.specs.Trains as rules;
ghost use Rattle.train_unit.specs.Policy.{answer_to, body_of, IsAllowed};
ghost use Rattle.train_unit.specs.Units.{train_of};
ghost use Rattle.train_unit.specs.declared.ends.Ends.{Ends};

use crate::unit::{Followed, OnBoardUnit};

/// After this time without an answer a message is sent again, in units of 10 ms, as T_TRAIN.
const REPEAT: u64 = 500;

/// The session of a train with a centre, as the train knows it.
#[derive(Clone, Copy, Debug, PartialEq, Eq)]
pub enum Session {
    /// There is none.
    Closed,
    /// The centre has sent its system version (32).
    Open,
    /// The train has sent that the session is established (159).
    Established,
    /// The centre has accepted the train (41), or acknowledged its train data (8).
    Accepted,
}

/// A centre that a train is to have a session with.
#[derive(Clone, Copy, Debug, PartialEq, Eq)]
pub struct Contact {
    /// Number of the centre.
    pub centre: u8,
    /// The session.
    pub session: Session,
    /// T_TRAIN of the last message to it.
    pub last: u32,
    /// T_TRAIN of a request to shorten (message 9) that has no answer.
    pub request: Option<u32>,
}

/// A message of a train.
#[derive(Clone, Copy, Debug, PartialEq, Eq)]
pub enum NextMessage {
    /// Message 129, Validated Train Data.
    TrainData,
    /// Message 132, MA Request.
    Request,
    /// Message 137, Request to shorten MA is granted: T_TRAIN of the request.
    ShorteningGranted(u32),
    /// Message 138, Request to shorten MA is rejected: T_TRAIN of the request.
    ShorteningRejected(u32),
    /// Message 155, Initiation of a communication session.
    InitiationOfSession,
    /// Message 157, SoM Position Report.
    StartOfMission,
    /// Message 159, Session Established.
    SessionEstablished,
}

impl OnBoardUnit {
    /// The next message of the train to a centre, with this T_TRAIN. `None` if it has to wait. `front` is its safe
    /// front end, in decimetres from the start of the track.
    pub fn next_message(&self, contact: Contact, now: u32, front: u32) -> Option<NextMessage>
        ensures allowed { IfSome result (IsAllowed self.now contact.centre now) }
        // It waits for its clock, and without a request for the time after which a message is sent again.
        ensures waits { is_none result
            ≡ (nat_le now self.now.clock || (is_none contact.request && nat_lt now (contact.last + 500))) }
        ensures answers { (request : ℕ) → contact.request ≡ Some request
            → IfSome result (λ message. message ≡ answer_to self.now contact.centre request front) }
    {
        if now <= self.clock {
            return None;
        }
        if let Some(request) = contact.request {
            return Some(self.answer(contact.centre, request, front));
        }
        if u64::from(now) < u64::from(contact.last) + REPEAT {
            return None;
        }
        Some(self.advance(contact))
    }

    // The answer to a request to shorten: it is granted if the front end is not past the proposed end.
    fn answer(&self, centre: u8, request: u32, front: u32) -> NextMessage
        ensures answer { result ≡ answer_to self.now centre request front }
        ensures asked { (ends : Ends) (p : Position)
            → rules.was_asked centre (body_of result p) (train_of self.now ends) ≡ true }
    {
        match self.asked(centre) {
            Some(asked)
                if asked.stamp == request && u64::from(front) <= 10 * u64::from(asked.end) => {
                NextMessage::ShorteningGranted(request)
            }
            _ => NextMessage::ShorteningRejected(request),
        }
    }

    // The message that leads on to an authority of this centre.
    fn advance(&self, contact: Contact) -> NextMessage
        ensures { (ends : Ends) (p : Position)
            → rules.was_asked contact.centre (body_of result p) (train_of self.now ends) ≡ true }
    {
        match (contact.session, self.follows) {
            (Session::Closed, _) => NextMessage::InitiationOfSession,
            (Session::Open, _) => NextMessage::SessionEstablished,
            (Session::Established, None) => NextMessage::StartOfMission,
            (Session::Accepted, Some(Followed { centre, .. })) if centre == contact.centre => {
                NextMessage::Request
            }
            _ => NextMessage::TrainData,
        }
    }
}
