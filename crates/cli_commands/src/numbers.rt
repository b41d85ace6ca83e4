//! The arguments that are numbers, and the bounds of each.

ghost use Rattle.std.specs.Prelude.{◌≡◌};
ghost use Rattle.cli_commands.specs.Forms.{bounds_in, listed, numbers};

use clap::builder::ValueParser;
use clap::{Arg, ArgMatches};

/// The least and the greatest value of arguments, by their names.
type Bounds = &'static [(&'static str, (u64, u64))];

/// The bounds of a port.
const PORTS: (u64, u64) = (1, 65_535);

/// The bounds of a rate, of seconds, and of the number of an event.
const COUNTS: (u64, u64) = (1, 4_294_967_295);

const NUMBERS: Bounds = &[
    ("PORT", PORTS),
    ("page", PORTS),
    ("port", (1, 65_528)),
    ("SEED", (0, u64::MAX)),
    ("rate", COUNTS),
    ("burst", COUNTS),
    ("timeout", COUNTS),
    ("from", COUNTS),
    ("to", COUNTS),
    ("train", (0, 16_777_215)),
    ("trains", (1, 64)),
    ("loss", (0, 100)),
    ("late", (0, 100)),
    ("seed", (0, u64::MAX)),
    ("events", (1, 1_000_000)),
    ("seconds", (1, 1_000_000)),
];

/// The argument. If it is a number, it takes only numbers within its bounds.
pub fn bounded<'a>(argument: Arg<'a>, name: &str) -> Arg<'a> {
    match bounds_of(name) {
        Some((least, most)) => argument.value_parser(ValueParser::unsigned(least, most)),
        None => argument,
    }
}

// The least and the greatest value of the argument of this name, if it is a number.
fn bounds_of(name: &str) -> Option<(u64, u64)>
    ensures { result ≡ bounds_in numbers name.now }
{
    bounds_in(NUMBERS, name)
}

fn bounds_in(table: Bounds, name: &str) -> Option<(u64, u64)>
    ensures { result ≡ bounds_in (listed table.entry.now) name.now }
{
    for (number, bounds) in table {
        if *number == name {
            return Some(*bounds);
        }
    }
    None
}

/// The first number with a plus sign, after the name of its argument.
pub fn signed_number<'a>(matches: &ArgMatches<'a>) -> Option<(&'static str, &'a str)> {
    let (_, words) = matches.subcommand()?;
    for (name, _) in NUMBERS {
        if let Some(word) = words.get_str(name)
            && word.starts_with('+')
        {
            return Some((name, word));
        }
    }
    None
}
