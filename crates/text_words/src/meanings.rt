//! Tables of meanings.

ghost use Rattle.std.specs.Prelude.{◌≡◌, option_map};
ghost use Rattle.text_words.specs.Meanings.{listed, meaning_of, meaning_of_name, named};

/// Numbers, each with its meaning.
pub(crate) type Meanings = &'static [(u64, &'static str)];

/// Words of a print, each with its meaning.
pub(crate) type NamedMeanings = &'static [(&'static str, &'static str)];

/// The meaning of a number, if the table has it.
pub(crate) fn meaning_of(meanings: Meanings, number: u64) -> Option<&'static str>
    ensures { option_map (λ words. words.now) result ≡ meaning_of (listed meanings.entry.now) number }
{
    for (one, meaning) in meanings {
        if *one == number {
            return Some(*meaning);
        }
    }
    None
}

/// The meaning of a word of a print, if the table has it.
pub(crate) fn meaning_of_name(meanings: NamedMeanings, name: &str) -> Option<&'static str>
    ensures { option_map (λ words. words.now) result ≡ meaning_of_name (named meanings.entry.now) name.now }
{
    for (one, meaning) in meanings {
        if *one == name {
            return Some(*meaning);
        }
    }
    None
}
