//! The options of `serve`.

ghost use Rattle.std.specs.Prelude.{◌≡◌, IfSome, codes, false, not, option_map};
ghost use Rattle.std.specs.Option.{option_map_or};
ghost use Rattle.std.specs.Str.{bytes_eq};
ghost use Rattle.cli_commands.specs.Words.{AreServeOptions, IsFlag, command_of, folder_of, start_of, value};

use crate::requests::{JournalStart, JournalWords, Request, ServeWords};
use clap::ArgMatches;
use std::net::{AddrParseError, IpAddr};

/// The request `serve` of its arguments.
pub(super) fn named_serve<'a>(words: &ArgMatches<'a>) -> Option<Request<'a>>
    ensures { IfSome result (λ request. command_of request ≡ codes "serve") }
{
    Some(Request::Serve {
        file: words.get_str("FILE")?,
        port: words.get_one("PORT")?,
        words: serve_words(words)?,
    })
}

// The options of `serve`; `None` if an address is not one of IPv4 or IPv6.
fn serve_words<'a>(words: &ArgMatches<'a>) -> Option<ServeWords<'a>>
    ensures { IfSome result (AreServeOptions words.now) }
{
    let page_address = address_of(words, "page-address").ok()?;
    let address = address_of(words, "address").ok()?;
    Some(ServeWords {
        is_quiet: words.get_flag("quiet"),
        is_for_journald: words.get_flag("journald"),
        notes_as_json: is_json(words),
        page: words.get_one("page"),
        page_address,
        address,
        control: words.get_str("control"),
        is_bound: words.get_flag("bind"),
        is_telling: words.get_flag("tell"),
        shows_life: words.get_flag("life"),
        per_second: words.get_one("rate"),
        burst: words.get_one("burst"),
        is_unprinted: words.get_flag("no-print"),
        journal: journal_words(words),
    })
}

// Whether notes are JSON objects.
fn is_json(words: &ArgMatches<'_>) -> bool
    ensures { result ≡ option_map_or (λ form. bytes_eq form (codes "json")) (value words.now (codes "notes")) false }
{
    match words.get_str("notes") {
        Some(form) => form == "json",
        None => false,
    }
}

// The value of the option of this name, if it is given.
fn address_of(words: &ArgMatches<'_>, name: &str) -> Result<Option<IpAddr>, AddrParseError> {
    match words.get_str(name) {
        Some(text) => Ok(Some(text.parse()?)),
        None => Ok(None),
    }
}

// The options of journals. Only one of the three folders is given, and only with it `--no-sync` and `--no-print`.
fn journal_words<'a>(words: &ArgMatches<'a>) -> Option<JournalWords<'a>>
    ensures folder { option_map (λ journal. journal.folder.now) result ≡ folder_of words.now }
    ensures start { IfSome result (λ journal. journal.start ≡ start_of words.now) }
    ensures synced { IfSome result (λ journal. IsFlag words.now (codes "no-sync") (not journal.is_synced)) }
{
    let (start, folder) = if let Some(folder) = words.get_str("keep") {
        (JournalStart::Keep, folder)
    } else if let Some(folder) = words.get_str("resume") {
        (JournalStart::Resume, folder)
    } else {
        (JournalStart::Begin, words.get_str("journal")?)
    };
    Some(JournalWords {
        folder,
        start,
        is_synced: !words.get_flag("no-sync"),
    })
}
