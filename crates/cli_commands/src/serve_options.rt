//! The options of `serve`.

use clap::ArgGroup;
use std::alloc::{AllocError, Global};

/// The name of the three options for the folder of the journals. At most one of them is given.
pub const JOURNALS: &str = "journals";

/// The options for the folder of the journals.
pub fn journals<'a>(alloc: Global) -> Result<ArgGroup<'a>, AllocError> {
    ArgGroup::new(alloc, JOURNALS)
        .arg("journal")?
        .arg("resume")?
        .arg("keep")
}

/// The values of `--notes`.
pub static NOTES: [&str; 2] = ["text", "json"];

/// The options of `serve` with a value.
pub static DOORS: [(&str, &str, &str); 10] = [
    (
        "page",
        "PORT",
        "Show the line to browsers, at http://127.0.0.1:PORT/",
    ),
    (
        "page-address",
        "ADDRESS",
        "Show it at this address of the host, also to other hosts [default: 127.0.0.1]",
    ),
    (
        "address",
        "ADDRESS",
        "Let trains connect at this address of the host, also from other hosts [default: 127.0.0.1]",
    ),
    (
        "control",
        "PATH",
        "Let the interlocking connect to a Unix socket at PATH, in place of a port; only its owner may [mode 0600]",
    ),
    (
        "notes",
        "FORM",
        "The form of notes: `text`, or `json` for an object of JSON in each line [default: text]",
    ),
    (
        "rate",
        "N",
        "How many messages of a train each centre takes in a second [default: 50]",
    ),
    (
        "burst",
        "N",
        "How many of them it takes at once [default: 100]",
    ),
    (
        "journal",
        "FOLDER",
        "Begin a journal of each centre in this folder",
    ),
    (
        "resume",
        "FOLDER",
        "Continue from the journals in this folder",
    ),
    (
        "keep",
        "FOLDER",
        "Continue from the journals in this folder if each centre has one, and begin them otherwise",
    ),
];

/// The options of `serve` without a value.
pub static SERVE: [(&str, &str); 7] = [
    ("quiet", "Write no notes on standard error"),
    (
        "journald",
        "Begin each note with its level, as systemd's journal reads it, in place of the time",
    ),
    (
        "tell",
        "Notify the interlocking when a section that it asked back is shut",
    ),
    (
        "life",
        "Print the used part of each log, clock and link, after the lines of `show`",
    ),
    (
        "bind",
        "Take a train's messages only over the connection that opened its session last; others end their connection",
    ),
    (
        "no-sync",
        "Do not wait until the disk has each write of a journal",
    ),
    (
        "no-print",
        "Print no events at the end: the journals have them",
    ),
];
