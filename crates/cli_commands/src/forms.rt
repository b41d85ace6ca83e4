//! The commands of `rbcline`, and the arguments of each besides its options.

use crate::numbers::bounded;
use crate::options::{flag, flags_of, part, parts_of, shown};
use crate::serve_options::journals;
use clap::{Arg, ArgGroup, Command};
use std::alloc::{AllocError, Global};

/// A command: its name, its purpose, and its arguments with the meaning of each.
struct Form {
    name: &'static str,
    about: &'static str,
    words: &'static [(&'static str, &'static str)],
}

const FILE: (&str, &str) = ("FILE", "The line file; `-` is standard input");

const PRINTED: (&str, &str) = (
    "PRINTED",
    "What `run` or `serve` printed, or the folder of the line's journals",
);

const SCRIPT: (&str, &str) = (
    "SCRIPT",
    "The script, one event a line; `-` is standard input",
);

static FORMS: [Form; 19] = [
    Form {
        name: "check",
        about: "Read a line file, and say how many centres, tracks, sections and trains it has",
        words: &[FILE],
    },
    Form {
        name: "explain",
        about: "Print each fault of a line file or of a script in words, or show the line",
        words: &[FILE],
    },
    Form {
        name: "run",
        about: "Run a script of events, and print each event, its answers, and the line at the end",
        words: &[FILE, SCRIPT],
    },
    Form {
        name: "script",
        about: "Print the script of a text in words",
        words: &[
            FILE,
            (
                "WORDS",
                "The text in words, one event a line; `-` is standard input",
            ),
        ],
    },
    Form {
        name: "test",
        about: "Play scenarios in words, and print the first difference of each from what it expects",
        words: &[FILE],
    },
    Form {
        name: "storm",
        about: "Run a script with four deliveries drawn by lot after each event, and print as `run` does",
        words: &[
            FILE,
            SCRIPT,
            (
                "SEED",
                "A number below 2^64; the same draws the same deliveries",
            ),
        ],
    },
    Form {
        name: "demo",
        about: "Run trains that obey on a line, with messages lost by lot, and print where they are",
        words: &[],
    },
    Form {
        name: "serve",
        about: "Run the centres of a line on this host for trains and the interlocking, and print the run after `stop`",
        words: &[
            FILE,
            (
                "PORT",
                "The port of the first centre; those after it are of the others, and of the interlocking",
            ),
        ],
    },
    Form {
        name: "drive",
        about: "Send messages to a centre as a train does, and print its answers",
        words: &[
            ("PORT", "The port of the centre"),
            (
                "FILE",
                "Messages in hexadecimal, one a line, or `wait N` to read N answers",
            ),
        ],
    },
    Form {
        name: "trains",
        about: "Run trains that obey over running centres, with messages lost by lot, and print where they are",
        words: &[
            ("PORT", "The port of the first centre, as given to `serve`"),
            FILE,
        ],
    },
    Form {
        name: "tell",
        about: "Send lines to the interlocking's endpoint of running centres, and print the answers",
        words: &[(
            "ENDPOINT",
            "The port of the endpoint, or the path of its socket",
        )],
    },
    Form {
        name: "print",
        about: "Print the run of the journals in a folder, as `serve` does after `stop`",
        words: &[FILE, ("FOLDER", "The folder of the line's journals")],
    },
    Form {
        name: "audit",
        about: "Run the events of a print again, and compare its lines",
        words: &[FILE, PRINTED],
    },
    Form {
        name: "watch",
        about: "Find the first event of a print after which a train is in danger",
        words: &[FILE, PRINTED],
    },
    Form {
        name: "words",
        about: "Put a print of `run` into words, or show one message field by field",
        words: &[FILE, PRINTED],
    },
    Form {
        name: "decode",
        about: "Show bytes as radio messages, field by field, also refused ones",
        words: &[],
    },
    Form {
        name: "encode",
        about: "Print the bytes of radio messages from their fields",
        words: &[(
            "FIELDS",
            "The fields as `decode --json` prints them; `-` is standard input",
        )],
    },
    Form {
        name: "picture",
        about: "Draw a print of `run` as a time-distance diagram, in SVG",
        words: &[FILE, PRINTED],
    },
    Form {
        name: "pcap",
        about: "Make a capture for Wireshark of the messages in a print of `run`",
        words: &[FILE, PRINTED],
    },
];

/// The program, with its commands.
pub fn rbcline<'a>(alloc: Global) -> Result<Command<'a>, AllocError> {
    let commands = commands(alloc)?;
    program(alloc).bin_name("rbcline")?.subcommands(commands)
}

fn commands<'a>(alloc: Global) -> Result<Vec<Command<'a>>, AllocError> {
    let mut commands = Vec::new(alloc);
    for form in &FORMS {
        commands.push(command_of(alloc, form)?)?;
    }
    Ok(commands)
}

/// The version of the program.
pub(crate) const VERSION: &str = "0.17.0";

// The exit statuses, and a first command to try.
const ENDS: &str =
    "Exit status: 0 done, 1 a print or a scenario differs, a train is in danger, or bytes are refused, 2 these words, \
3 a file or script, 4 the line file, 5 a refused step, 6 a socket or the output, 7 bytes that are not a message\n\n\
To begin: rbcline run crates/rbc_cli/data/line.toml crates/rbc_cli/data/script";

// The program without its commands.
fn program<'a>(alloc: Global) -> Command<'a> {
    Command::new(alloc, "rbcline")
        .about("Radio block centres of ETCS Level 2 that supervise one line")
        .version(VERSION)
        .after_help(ENDS)
        .no_binary_name(true)
        .subcommand_required(true)
        .arg_required_else_help(true)
}

fn command_of<'a>(alloc: Global, form: &Form) -> Result<Command<'a>, AllocError> {
    let args = args_of(alloc, form)?;
    let groups = groups_of(alloc, form.name)?;
    Command::new(alloc, form.name)
        .about(form.about)
        .args(args)?
        .groups(groups)
}

// The groups of a command's options that exclude each other.
fn groups_of<'a>(alloc: Global, command: &str) -> Result<Vec<ArgGroup<'a>>, AllocError> {
    let mut groups = Vec::new(alloc);
    match command {
        "demo" => groups.push(shown(alloc)?)?,
        "serve" => groups.push(journals(alloc)?)?,
        _ => {}
    }
    Ok(groups)
}

// The arguments of a command, in the order of its help.
fn args_of<'a>(alloc: Global, form: &Form) -> Result<Vec<Arg<'a>>, AllocError> {
    let mut args = Vec::new(alloc);
    if form.name == "words" {
        args.push(message(alloc))?;
    }
    add_options(alloc, form.name, &mut args)?;
    add_words(alloc, form, &mut args)?;
    Ok(args)
}

fn add_options<'a>(
    alloc: Global,
    command: &str,
    args: &mut Vec<Arg<'a>>,
) -> Result<(), AllocError> {
    for (name, help) in flags_of(command) {
        args.push(flag(alloc, name, help)?)?;
    }
    for (name, value, help) in parts_of(command) {
        args.push(part(alloc, name, value, help)?)?;
    }
    Ok(())
}

fn add_words<'a>(alloc: Global, form: &Form, args: &mut Vec<Arg<'a>>) -> Result<(), AllocError> {
    for (name, help) in form.words {
        let word = Arg::new(alloc, name).required(true).help(help);
        args.push(bounded(word, name))?;
    }
    // The word that only this command has.
    let own = match form.name {
        "decode" => bytes(alloc),
        "demo" => line_of_demo(alloc),
        "explain" => script(alloc),
        "test" => scenarios(alloc),
        "tell" => lines(alloc),
        _ => return Ok(()),
    };
    args.push(own)?;
    Ok(())
}

fn bytes<'a>(alloc: Global) -> Arg<'a> {
    Arg::new(alloc, "HEX")
        .help(
            "Bytes in hexadecimal, also with blanks, colons or `0x`; or a file of them; `-` is standard input",
        )
        .required(true)
        .num_args(1..)
}

fn scenarios<'a>(alloc: Global) -> Arg<'a> {
    Arg::new(alloc, "WORDS")
        .help("Scenarios: texts in words, with lines `expect ..`; `-` is standard input")
        .required(true)
        .num_args(1..)
}

fn lines<'a>(alloc: Global) -> Arg<'a> {
    Arg::new(alloc, "LINE")
        .help("Lines such as `set A 1`, `show` or `stop` [default: the lines of standard input]")
        .num_args(1..)
}

fn script<'a>(alloc: Global) -> Arg<'a> {
    Arg::new(alloc, "SCRIPT").help("Print each faulty line of this script in place of the line")
}

fn line_of_demo<'a>(alloc: Global) -> Arg<'a> {
    Arg::new(alloc, "FILE").help("The line file [default: a line of three centres]")
}

fn message<'a>(alloc: Global) -> Arg<'a> {
    Arg::new(alloc, "message")
        .long("message")
        .value_name("HEX")
        .help("The message in hexadecimal, of a train or of a centre; `decode` shows more of it")
        .exclusive(true)
}
