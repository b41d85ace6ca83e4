//! The number and the name of each message (SUBSET-026 8.6, 8.7).

ghost use Rattle.std.specs.Prelude.{◌≡◌, codes, unwrap_or};
ghost use Rattle.rbc_msgs.specs.Bodies.{track_body};
ghost use Rattle.rbc_msgs.specs.TrainSpelling.{train_number};
ghost use Rattle.rbc_msgs.specs.TrackSpelling.{track_number};
ghost use Rattle.text_words.specs.Meanings.{meaning_of, messages};

use crate::meanings::{Meanings, meaning_of};
use rbc_msgs::{TrackBody, TrainBody};

/// NID_MESSAGE of a message from a train.
pub fn number_of_train(body: &TrainBody) -> u64
    ensures { result ≡ train_number body.now }
{
    match body {
        TrainBody::TrainData { .. } => 129,
        TrainBody::Request { .. } => 132,
        TrainBody::Report { .. } => 136,
        TrainBody::ShorteningGranted { .. } => 137,
        TrainBody::ShorteningRejected { .. } => 138,
        TrainBody::EndOfMission { .. } => 150,
        TrainBody::InitiationOfSession => 155,
        TrainBody::TerminationOfSession => 156,
        TrainBody::StartOfMission { .. } => 157,
        TrainBody::SessionEstablished => 159,
    }
}

/// NID_MESSAGE of a message from a centre.
pub fn number_of_track(body: TrackBody) -> u64
    ensures { result ≡ track_number (track_body body) }
{
    match body {
        TrackBody::Authority(_) => 3,
        TrackBody::DataAcknowledged(_) => 8,
        TrackBody::ShorteningRequest(_) => 9,
        TrackBody::Transition(_) | TrackBody::EndSession(_) => 24,
        TrackBody::SystemVersion => 32,
        TrackBody::TerminationAcknowledged => 39,
        TrackBody::TrainRejected => 40,
        TrackBody::TrainAccepted => 41,
    }
}

const MESSAGES: Meanings = &[
    (3, "Movement Authority"),
    (8, "Acknowledgement of Train Data"),
    (9, "Request to Shorten MA"),
    (24, "General Message"),
    (32, "RBC/RIU System Version"),
    (
        39,
        "Acknowledgement of termination of a communication session",
    ),
    (40, "Train Rejected"),
    (41, "Train Accepted"),
    (129, "Validated Train Data"),
    (132, "MA Request"),
    (136, "Train Position Report"),
    (137, "Request to shorten MA is granted"),
    (138, "Request to shorten MA is rejected"),
    (150, "End of Mission"),
    (155, "Initiation of a communication session"),
    (156, "Termination of a communication session"),
    (157, "SoM Position Report"),
    (159, "Session Established"),
];

/// The name of the message of this NID_MESSAGE.
pub fn name_of_number(number: u64) -> &'static str
    ensures { result.now ≡ unwrap_or (meaning_of messages number) (codes "no message that is read") }
{
    match meaning_of(MESSAGES, number) {
        Some(name) => name,
        None => "no message that is read",
    }
}
