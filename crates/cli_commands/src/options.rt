//! The options of the commands.

use crate::numbers::bounded;
use crate::serve_options::{DOORS, JOURNALS, NOTES, SERVE};
use clap::builder::ValueParser;
use clap::{Arg, ArgAction, ArgGroup};
use std::alloc::{AllocError, Global};

// The options of `picture` with a value: the part of the run that is drawn.
static CUT: [(&str, &str, &str); 5] = [
    ("from", "N", "The first event that is drawn, from 1"),
    ("to", "N", "The last event that is drawn"),
    (
        "since",
        "TIME",
        "Draw journals over time, from this time on, such as 2026-11-29T08:00:00Z",
    ),
    ("until", "TIME", "Draw journals over time, before this time"),
    (
        "train",
        "ENGINE",
        "The one train that is drawn, by its NID_ENGINE",
    ),
];

// The argument, which excludes the options of `picture` over time.
fn without_time<'a>(argument: Arg<'a>) -> Result<Arg<'a>, AllocError> {
    argument
        .conflicts_with("time")?
        .conflicts_with("since")?
        .conflicts_with("until")
}

/// An option with a value.
pub fn part<'a>(
    alloc: Global,
    name: &'static str,
    value: &'static str,
    help: &'static str,
) -> Result<Arg<'a>, AllocError> {
    let part = Arg::new(alloc, name)
        .long(name)
        .value_name(value)
        .help(help);
    match name {
        "page-address" => part.requires_arg("page"),
        "notes" => Ok(part.value_parser(ValueParser::Names(&NOTES))),
        "from" | "to" => without_time(bounded(part, name)),
        _ => Ok(bounded(part, name)),
    }
}

// The options of `print` and `words` with a value.
static TIMES: [(&str, &str, &str); 2] = [
    (
        "since",
        "TIME",
        "Print only events of journals from this time on, such as 2026-11-29T08:00:00Z",
    ),
    (
        "until",
        "TIME",
        "Print only events of journals before this time",
    ),
];

// The options of `pcap`.
static PCAP: [(&str, &str, &str); 1] = [(
    "port",
    "PORT",
    "The port of the first centre; those after it are of the others [default: 21000]",
)];

// The options of `drive`.
static DRIVE: [(&str, &str, &str); 1] = [(
    "timeout",
    "SECONDS",
    "How long to wait for the centre at most [default: no limit]",
)];

// The options of `tell`.
static TELL: [(&str, &str, &str); 1] = [(
    "timeout",
    "SECONDS",
    "How long to wait for the endpoint at most [default: no limit]",
)];

// The options of `demo` with a value.
static DEMO: [(&str, &str, &str); 5] = [
    (
        "trains",
        "N",
        "The most trains [default: all of the line file]",
    ),
    (
        "loss",
        "PERCENT",
        "How many of 100 messages and deliveries are lost [default: 0]",
    ),
    (
        "seed",
        "SEED",
        "A number below 2^64; the same draws the same run [default: 0]",
    ),
    (
        "events",
        "N",
        "The most events at the centres, and the most seconds [default: 20000]",
    ),
    (
        "page",
        "PORT",
        "Run in real time, and show the line to browsers at http://127.0.0.1:PORT/; centres listen at the ports after it",
    ),
];

// The name of the group of the options of `demo` that exclude each other.
const SHOWN: &str = "shown";

/// The options of `demo` that exclude each other.
pub fn shown<'a>(alloc: Global) -> Result<ArgGroup<'a>, AllocError> {
    ArgGroup::new(alloc, SHOWN).arg("page")?.arg("script")
}

// The options of `trains` with a value.
static TRAINS: [(&str, &str, &str); 5] = [
    (
        "trains",
        "N",
        "The most trains [default: all of the line file]",
    ),
    (
        "loss",
        "PERCENT",
        "How many of 100 messages are lost [default: 0]",
    ),
    (
        "late",
        "PERCENT",
        "How many of 100 messages arrive late, half of them twice [default: 0]",
    ),
    (
        "seed",
        "SEED",
        "A number below 2^64; the same draws the same lots [default: 0]",
    ),
    (
        "seconds",
        "N",
        "The most seconds of the trains, each of 50 ms [default: 20000]",
    ),
];

/// The options of a command with a value: the name, the name of the value, and the meaning.
pub fn parts_of(command: &str) -> &'static [(&'static str, &'static str, &'static str)] {
    match command {
        "print" | "words" => &TIMES,
        "picture" => &CUT,
        "pcap" => &PCAP,
        "serve" => &DOORS,
        "drive" => &DRIVE,
        "tell" => &TELL,
        "demo" => &DEMO,
        "trains" => &TRAINS,
        _ => &[],
    }
}

// The options of `print` and `words` without a value.
static LISTED: [(&str, &str); 2] = [
    (
        "numbers",
        "Print the number of each event, as `picture` counts them",
    ),
    ("times", "Print the UTC time of each event of journals"),
];

static PICTURE: [(&str, &str); 2] = [
    (
        "html",
        "Draw it in an HTML page with a slider over the events",
    ),
    (
        "time",
        "Draw journals over time: UTC time is an axis, in place of the number of the event; not with --html, --from or --to",
    ),
];

static LIVING: [(&str, &str); 1] = [(
    "script",
    "Print the events as a script of `run`, in place of the table",
)];

static RELEASING: [(&str, &str); 1] = [(
    "no-release",
    "Release no section: another interlocking does",
)];

static DECODE: [(&str, &str); 2] = [
    ("frame", "The bytes are a frame between centres"),
    ("json", "Print a JSON object for each field, one a line"),
];

static ENCODE: [(&str, &str); 1] = [("frame", "The fields are those of a frame between centres")];

/// The options of a command without a value: the name, and the meaning.
pub fn flags_of(command: &str) -> &'static [(&'static str, &'static str)] {
    match command {
        "picture" => &PICTURE,
        "serve" => &SERVE,
        "decode" => &DECODE,
        "encode" => &ENCODE,
        "demo" => &LIVING,
        "trains" => &RELEASING,
        "print" | "words" => &LISTED,
        _ => &[],
    }
}

/// An option without a value.
pub fn flag<'a>(
    alloc: Global,
    name: &'static str,
    help: &'static str,
) -> Result<Arg<'a>, AllocError> {
    let flag = Arg::new(alloc, name)
        .long(name)
        .action(ArgAction::SetTrue)
        .help(help);
    match name {
        "no-sync" | "no-print" => flag.requires_arg(JOURNALS),
        "html" => without_time(flag),
        _ => Ok(flag),
    }
}
