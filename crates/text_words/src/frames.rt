//! The frames between centres, in words.

ghost use Rattle.std.specs.Prelude.{◌≡◌, option_map};
ghost use Rattle.text_words.specs.Meanings.{bodies, meaning_of_name, remarks};

use crate::meanings::{NamedMeanings, meaning_of_name};

const BODIES: NamedMeanings = &[
    ("AskRight", "the train's right is asked for"),
    ("GiveRight", "the train's right is given"),
    ("RefuseRight", "the train's right is refused"),
    ("ReturnRight", "the train's right goes back"),
    (
        "RouteAsk",
        "sections beyond the train's authority are asked for",
    ),
    ("RouteInfo", "sections are lent, or none"),
    ("RouteWithdraw", "a lent section is wanted back"),
    ("RouteReturn", "lent sections come back"),
    ("Announce", "a handover is announced"),
    ("Cancel", "a handover is called off"),
    ("TakingOver", "the train will be taken over"),
    ("Yield", "the mission is handed over"),
];

const REMARKS: NamedMeanings = &[
    ("old", "the frame was taken before, and changes nothing"),
    (
        "early",
        "a frame before it was not taken yet, and it changes nothing",
    ),
];

/// The meaning of a frame whose body has this name. None if no body has it.
pub(crate) fn words_of_body(name: &str) -> Option<&'static str>
    ensures { option_map (λ words. words.now) result ≡ meaning_of_name bodies name.now }
{
    meaning_of_name(BODIES, name)
}

/// Why a delivered frame is not taken. None for any other word.
pub(crate) fn words_of_late(word: &str) -> Option<&'static str>
    ensures { option_map (λ words. words.now) result ≡ meaning_of_name remarks word.now }
{
    meaning_of_name(REMARKS, word)
}
