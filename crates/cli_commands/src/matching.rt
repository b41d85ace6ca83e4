//! Reads the arguments by the table of the commands.

ghost use Rattle.std.specs.Prelude.{◌≡◌, IfSome, Some};
ghost use Rattle.cli_commands.specs.Words.{value};

use crate::forms::rbcline;
use crate::numbers::signed_number;
use clap::error::ErrorKind;
use clap::{ArgMatches, Error};
use jiff::Timestamp;
use std::alloc::{AllocError, Global};
use std::convert::AsStr;
use std::net::IpAddr;

/// The form of an address.
const ADDRESS: &str = "an address of IPv4 or IPv6, as 192.0.2.1";

/// The form of a time.
const TIME: &str = "a time with its zone, as 2026-11-29T08:00:00Z";

/// The arguments, by the table of the commands. Refused are a number with a plus sign, a wrong
/// address and a wrong time.
pub fn matched<'a, S: AsStr>(alloc: Global, words: &'a [S]) -> Result<ArgMatches<'a>, Error> {
    let matches = rbcline(alloc)?.try_get_matches_from(words)?;
    match test_values(alloc, &matches) {
        Ok(()) => Ok(matches),
        Err(error) => Err(error),
    }
}

fn test_values(alloc: Global, matches: &ArgMatches<'_>) -> Result<(), Error> {
    match wrong_value(alloc, matches)? {
        Some(reason) => Err(refusal(alloc, reason.as_str())?),
        None => Ok(()),
    }
}

/// The refusal of arguments for this reason.
pub(crate) fn refusal(alloc: Global, reason: &str) -> Result<Error, AllocError> {
    rbcline(alloc)?.error(ErrorKind::ValueValidation, reason)
}

// The reason why a value is refused that the table of the commands lets pass.
fn wrong_value(alloc: Global, matches: &ArgMatches<'_>) -> Result<Option<String>, AllocError> {
    if let Some((name, word)) = signed_number(matches) {
        let reason = format!(in alloc;
            "invalid value '{word}' for '{name}': a number has no sign"
        )?;
        return Ok(Some(reason));
    }
    let Some((word, name, form)) = wrong_form(matches) else {
        return Ok(None);
    };
    let reason = format!(in alloc; "invalid value '{word}' for '{name}': it is not {form}")?;
    Ok(Some(reason))
}

// The first value of an address or of a time that is not of its form, with its option and the form.
fn wrong_form<'a>(matches: &ArgMatches<'a>) -> Option<(&'a str, &'static str, &'static str)> {
    let (_, words) = matches.subcommand()?;
    if let Some(word) = wrong_address(words, "address") {
        return Some((word, "--address <ADDRESS>", ADDRESS));
    }
    if let Some(word) = wrong_address(words, "page-address") {
        return Some((word, "--page-address <ADDRESS>", ADDRESS));
    }
    if let Some(word) = wrong_time(words, "since") {
        return Some((word, "--since <TIME>", TIME));
    }
    let word = wrong_time(words, "until")?;
    Some((word, "--until <TIME>", TIME))
}

// The value of the option of this name, if it is not an address.
fn wrong_address<'a>(words: &ArgMatches<'a>, name: &str) -> Option<&'a str>
    ensures { IfSome result (λ word. value words.now name.now ≡ Some word.now) }
{
    let word = words.get_str(name)?;
    match word.parse::<IpAddr>() {
        Ok(_) => None,
        Err(_) => Some(word),
    }
}

// The value of the option of this name, if it is not a time.
fn wrong_time<'a>(words: &ArgMatches<'a>, name: &str) -> Option<&'a str>
    ensures { IfSome result (λ word. value words.now name.now ≡ Some word.now) }
{
    let word = words.get_str(name)?;
    match word.parse::<Timestamp>() {
        Ok(_) => None,
        Err(_) => Some(word),
    }
}
