ghost use Rattle.std.specs.Prelude.{◌≡◌, IfOk, IfSome, None, Some, codes, map, option_map};
ghost use Rattle.clap.specs.Matches.{subcommand_name_of};
ghost use Rattle.clap.specs.Words.{kind_of};
ghost use Rattle.cli_commands.specs.Words.{IsCutOf, IsFlag, command_of, task_command, unmatched};
ghost use Rattle.cli_commands.specs.Words.{value, values};

mod serving;
mod trains;

use crate::decode::Decoding;
use crate::diagram::Drawing;
use crate::matching::matched;
pub use crate::requests::{
    JournalStart, JournalWords, Listing, Request, ServeWords, Task, TellWords, TimeRange,
    TrainsWords,
};
use crate::time_range::{axis_of, range_of};
use crate::words::serving::named_serve;
use crate::words::trains::{named_demo, named_trains};
use clap::error::ErrorKind;
use clap::{ArgMatches, Error};
use std::alloc::{AllocError, Global};
use std::convert::AsStr;
use text_replay::Cut;
use text_script::status::Fault;

/// Reads the arguments after the program's name. If they are refused, the fault has the reason, or help.
pub fn requested<'a, S: AsStr>(alloc: Global, words: &'a [S]) -> Result<Request<'a>, Fault<'a>> {
    match matched(alloc, words) {
        Ok(matches) => named(&matches).ok_or(Fault::Words),
        Err(error) => unmatched(error),
    }
}

// The request or the fault of arguments that the table of the commands does not match.
fn unmatched<'a>(error: Error) -> Result<Request<'a>, Fault<'a>>
    ensures { result ≡ unmatched (kind_of error) error }
{
    match error.kind() {
        ErrorKind::OutOfMemory => Err(AllocError.into()),
        ErrorKind::DisplayVersion => Ok(Request::Version),
        _ => Err(Fault::Usage(error)),
    }
}

/// The lines of `tell` in its arguments; none if they are on standard input.
pub fn lines_of<'a, S: AsStr>(alloc: Global, words: &'a [S]) -> Result<Vec<&'a str>, Fault<'a>> {
    let Ok(matches) = matched(alloc, words) else {
        return Err(Fault::Words);
    };
    match matches.subcommand() {
        Some((_, words)) => Ok(given_lines(alloc, words)?),
        None => Ok(Vec::new(alloc)),
    }
}

fn given_lines<'a>(alloc: Global, words: &ArgMatches<'a>) -> Result<Vec<&'a str>, AllocError>
    ensures { IfOk result (λ lines. map (λ line. line.now) lines.items ≡ values words.now (codes "LINE")) }
{
    match words.get_strs("LINE") {
        Some(given) => given.to_vec(alloc),
        None => Ok(Vec::new(alloc)),
    }
}

// The request of matched arguments. It is there: each required argument has a value, and each number is in its range.
fn named<'a>(matches: &ArgMatches<'a>) -> Option<Request<'a>>
    ensures { IfSome result (λ request. subcommand_name_of matches.now ≡ Some (command_of request)) }
{
    let (command, words) = matches.subcommand()?;
    match command {
        "words" => named_words(words),
        "decode" => Some(named_decode(words)),
        "encode" => named_encode(words),
        "serve" => named_serve(words),
        "drive" => named_drive(words),
        "trains" => named_trains(words),
        "tell" => named_tell(words),
        "demo" => Some(named_demo(words)),
        _ => named_of_file(command, words),
    }
}

fn named_words<'a>(words: &ArgMatches<'a>) -> Option<Request<'a>>
    ensures { IfSome result (λ request. command_of request ≡ codes "words") }
{
    match words.get_str("message") {
        Some(digits) => Some(Request::Message { digits }),
        None => named_of_file("words", words),
    }
}

fn named_of_file<'a>(command: &str, words: &ArgMatches<'a>) -> Option<Request<'a>>
    ensures { IfSome result (λ request. command_of request ≡ command.now) }
{
    let file = words.get_str("FILE")?;
    match command {
        "check" => Some(Request::Check { file }),
        "explain" => Some(Request::Explain {
            file,
            script: words.get_str("SCRIPT"),
        }),
        "run" => named_run(file, words),
        "test" => Some(Request::Test { file }),
        _ => named_on_line(file, command, words),
    }
}

fn named_run<'a>(file: &'a str, words: &ArgMatches<'a>) -> Option<Request<'a>>
    ensures { IfSome result (λ request. command_of request ≡ codes "run") }
{
    let script = words.get_str("SCRIPT")?;
    Some(Request::Run { file, script })
}

fn named_on_line<'a>(file: &'a str, command: &str, words: &ArgMatches<'a>) -> Option<Request<'a>>
    ensures { IfSome result (λ request. command_of request ≡ command.now) }
{
    let task = task_of(command, words)?;
    Some(Request::OnLine { file, task })
}

fn task_of<'a>(command: &str, words: &ArgMatches<'a>) -> Option<Task<'a>>
    ensures { IfSome result (λ task. task_command task ≡ command.now) }
{
    match command {
        "script" => Some(Task::Script(words.get_str("WORDS")?)),
        "storm" => storm_of(words),
        "print" => Some(Task::Print(listing_of(words, "FOLDER")?)),
        "words" => Some(Task::Words(listing_of(words, "PRINTED")?)),
        _ => task_on_print(command, words),
    }
}

fn storm_of<'a>(words: &ArgMatches<'a>) -> Option<Task<'a>>
    ensures { IfSome result (λ task. task_command task ≡ codes "storm") }
{
    let script = words.get_str("SCRIPT")?;
    let seed = words.get_one("SEED")?;
    Some(Task::Storm { script, seed })
}

fn task_on_print<'a>(command: &str, words: &ArgMatches<'a>) -> Option<Task<'a>>
    ensures { IfSome result (λ task. task_command task ≡ command.now) }
{
    let printed = words.get_str("PRINTED")?;
    match command {
        "audit" => Some(Task::Audit(printed)),
        "watch" => Some(Task::Watch(printed)),
        "picture" => Some(Task::Picture(drawing_of(printed, words))),
        "pcap" => Some(capture_of(printed, words)),
        _ => None,
    }
}

fn drawing_of<'a>(printed: &'a str, words: &ArgMatches<'a>) -> Drawing<'a>
    ensures { IsFlag words.now (codes "html") result.is_html }
{
    Drawing {
        printed,
        cut: cut_of(words),
        axis: axis_of(words),
        is_html: words.get_flag("html"),
    }
}

fn capture_of<'a>(printed: &'a str, words: &ArgMatches<'a>) -> Task<'a>
    ensures { task_command result ≡ codes "pcap" }
{
    let first_port = words.get_one("port").unwrap_or(21_000);
    Task::Capture {
        printed,
        first_port,
    }
}

fn listing_of<'a>(words: &ArgMatches<'a>, name: &str) -> Option<Listing<'a>>
    ensures name { option_map (λ listing. listing.name.now) result ≡ value words.now name.now }
    ensures numbers { IfSome result (λ listing. IsFlag words.now (codes "numbers") listing.is_numbered) }
    ensures times { IfSome result (λ listing. IsFlag words.now (codes "times") listing.is_timed) }
{
    Some(Listing {
        name: words.get_str(name)?,
        is_numbered: words.get_flag("numbers"),
        is_timed: words.get_flag("times"),
        range: range_of(words),
    })
}

fn named_decode<'a>(words: &ArgMatches<'a>) -> Request<'a>
    ensures { command_of result ≡ codes "decode" }
{
    Request::Decode(Decoding {
        is_frame: words.get_flag("frame"),
        is_json: words.get_flag("json"),
    })
}

fn named_encode<'a>(words: &ArgMatches<'a>) -> Option<Request<'a>>
    ensures { IfSome result (λ request. command_of request ≡ codes "encode") }
{
    Some(Request::Encode {
        fields: words.get_str("FIELDS")?,
        is_frame: words.get_flag("frame"),
    })
}

fn named_drive<'a>(words: &ArgMatches<'a>) -> Option<Request<'a>>
    ensures { IfSome result (λ request. command_of request ≡ codes "drive") }
{
    Some(Request::Drive {
        port: words.get_one("PORT")?,
        file: words.get_str("FILE")?,
        timeout_s: words.get_one("timeout"),
    })
}

fn named_tell<'a>(words: &ArgMatches<'a>) -> Option<Request<'a>>
    ensures { IfSome result (λ request. command_of request ≡ codes "tell") }
{
    Some(Request::Tell(TellWords {
        endpoint: words.get_str("ENDPOINT")?,
        timeout_s: words.get_one("timeout"),
    }))
}

// The part of a run that `picture` draws.
fn cut_of(words: &ArgMatches<'_>) -> Cut
    ensures { IsCutOf words.now result }
{
    Cut {
        from: words.get_one("from"),
        to: words.get_one("to"),
        train: words.get_one("train"),
    }
}
