//! The names of messages and packets (SUBSET-026 7.4, 8.6 and 8.7).

ghost use Rattle.std.specs.Prelude.{◌≡◌, codes};
ghost use Rattle.text_fields.specs.Words.{messages, packets, words_or};

use crate::kind::{Words, words_or};
use crate::messages::Side;

/// The name of the message of this NID_MESSAGE.
pub(crate) fn name_of_message(number: u64) -> &'static str
    ensures { result.now ≡ words_or messages number (codes "unknown message") }
{
    words_or(MESSAGES, number, "unknown message")
}

/// The name of a packet of this NID_PACKET.
pub(crate) fn name_of_packet(side: Side, number: u64) -> &'static str
    ensures { result.now ≡ words_or (packets side) number (codes "unknown packet") }
{
    match side {
        Side::Train => words_or(TRAIN_PACKETS, number, "unknown packet"),
        Side::Centre => words_or(CENTRE_PACKETS, number, "unknown packet"),
    }
}

const MESSAGES: Words = &[
    (2, "SR Authorisation"),
    (3, "Movement Authority"),
    (6, "Recognition of exit from TRIP mode"),
    (8, "Acknowledgement of Train Data"),
    (9, "Request to Shorten MA"),
    (15, "Conditional Emergency Stop"),
    (16, "Unconditional Emergency Stop"),
    (18, "Revocation of Emergency Stop"),
    (24, "General Message"),
    (27, "SH Refused"),
    (28, "SH Authorised"),
    (32, "RBC/RIU System Version"),
    (33, "MA with Shifted Location Reference"),
    (34, "Track Ahead Free Request"),
    (37, "Infill MA"),
    (38, "Initiation of a communication session"),
    (
        39,
        "Acknowledgement of termination of a communication session",
    ),
    (40, "Train Rejected"),
    (41, "Train Accepted"),
    (43, "SoM position report confirmed by RBC"),
    (45, "Assignment of coordinate system"),
    (129, "Validated Train Data"),
    (130, "Request for Shunting"),
    (132, "MA Request"),
    (136, "Train Position Report"),
    (137, "Request to shorten MA is granted"),
    (138, "Request to shorten MA is rejected"),
    (146, "Acknowledgement"),
    (147, "Acknowledgement of Emergency Stop"),
    (149, "Track Ahead Free Granted"),
    (150, "End of Mission"),
    (153, "Radio infill request"),
    (154, "No compatible version supported"),
    (155, "Initiation of a communication session"),
    (156, "Termination of a communication session"),
    (157, "SoM Position Report"),
    (158, "Text message acknowledged by driver"),
    (159, "Session Established"),
];

const TRAIN_PACKETS: Words = &[
    (0, "position report"),
    (1, "position report based on two balise groups"),
    (3, "onboard telephone numbers"),
    (4, "error reporting"),
    (5, "train running number"),
    (9, "Level 2/3 transition information"),
    (11, "validated train data"),
    (
        44,
        "data used by applications outside the ERTMS/ETCS system",
    ),
];

const CENTRE_PACKETS: Words = &[
    (3, "national values"),
    (5, "linking"),
    (15, "Level 2/3 Movement Authority"),
    (21, "gradient profile"),
    (27, "international static speed profile"),
    (41, "level transition order"),
    (42, "session management"),
    (
        44,
        "data used by applications outside the ERTMS/ETCS system",
    ),
    (51, "axle load speed profile"),
    (57, "movement authority request parameters"),
    (58, "position report parameters"),
    (65, "temporary speed restriction"),
    (66, "temporary speed restriction revocation"),
    (68, "track condition"),
    (70, "route suitability data"),
    (71, "adhesion factor"),
    (72, "packet for sending plain text messages"),
    (76, "packet for sending fixed text messages"),
    (79, "geographical position information"),
    (80, "mode profile"),
    (131, "RBC transition order"),
];
