//! Faults of messages, and reasons of silence, in words.

ghost use Rattle.std.specs.Prelude.{◌≡◌, option_map, Some};
ghost use Rattle.rbc_msgs.specs.Faults.{fault_number};
ghost use Rattle.text_words.specs.Meanings.{faults, meaning_of, meaning_of_name, reasons, replies};

use crate::meanings::{Meanings, NamedMeanings, meaning_of, meaning_of_name};
use rbc_msgs::MsgFault;

/// The meaning of a fault of a message.
pub fn words_of_fault(fault: MsgFault) -> &'static str
    ensures { Some result.now ≡ meaning_of faults (fault_number fault) }
{
    match fault {
        MsgFault::Short => "bytes are missing",
        MsgFault::Length => "L_MESSAGE is not the length of the message",
        MsgFault::Padding => "a filling bit is not zero",
        MsgFault::UnknownNumber => "no message of this NID_MESSAGE is read",
        MsgFault::Packet => "a packet is cut off or has a wrong length",
        MsgFault::Missing => "a packet that has to be there is not",
        MsgFault::Value => "a field has a value that is refused",
        MsgFault::Memory => "memory ran out",
    }
}

/// The meaning of the fault of this number.
pub(crate) fn words_of_fault_number(number: u32) -> Option<&'static str>
    ensures { option_map (λ words. words.now) result ≡ meaning_of faults number }
{
    let fault = match number {
        1 => MsgFault::Short,
        2 => MsgFault::Length,
        3 => MsgFault::Padding,
        4 => MsgFault::UnknownNumber,
        5 => MsgFault::Packet,
        6 => MsgFault::Missing,
        7 => MsgFault::Value,
        8 => MsgFault::Memory,
        _ => return None,
    };
    Some(words_of_fault(fault))
}

const REASONS: Meanings = &[
    (1, "its T_TRAIN is not above the last one"),
    (2, "no session stands with the train"),
    (3, "the train is not of the line"),
    (4, "its report has no place to be taken at"),
    (5, "the train is not supervised here"),
    (6, "the train's data are not known"),
    (7, "a request to shorten stands"),
    (8, "it answers no request that stands"),
    (9, "the mission is ended"),
    (10, "the session is up already, or not up yet"),
];

/// The reason for which a message has no answer, by its printed number.
pub(crate) fn words_of_reason(number: u32) -> Option<&'static str>
    ensures { option_map (λ words. words.now) result ≡ meaning_of reasons number }
{
    meaning_of(REASONS, u64::from(number))
}

const REPLIES: NamedMeanings = &[
    ("Done", "done"),
    ("Asked", "in use, and its return is asked for"),
    ("NotHome", "not a section of this centre"),
    ("Told", "shut now, as was wished"),
];

/// The meaning of a reply to the interlocking, for its section.
pub(crate) fn words_of_word(word: &str) -> Option<&'static str>
    ensures { option_map (λ words. words.now) result ≡ meaning_of_name replies word.now }
{
    meaning_of_name(REPLIES, word)
}
