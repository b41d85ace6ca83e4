//! The requests of the arguments.

ghost use Rattle.std.specs.Prelude.{◌≡◌, ◌↔◌, ◌||◌, IsTrue, not};
ghost use Rattle.cli_commands.specs.Times.{IsWithin, is_bounded};

use crate::decode::Decoding;
use crate::diagram::Drawing;
use cli_demo::Settings;
use std::net::IpAddr;

/// The request of the arguments.
#[derive(Clone, Copy)]
pub enum Request<'a> {
    /// Print the version of the program.
    Version,
    /// Read the line, and print its counts.
    Check {
        file: &'a str,
    },
    /// Print all faults of the line file, or show the line; or print all faults of a script.
    Explain {
        file: &'a str,
        script: Option<&'a str>,
    },
    /// Run the script on the line.
    Run {
        file: &'a str,
        script: &'a str,
    },
    /// Play the scenarios of the arguments on the line, and judge them.
    Test {
        file: &'a str,
    },
    /// Run trains on the line of this file, or on a built-in line.
    Demo {
        file: Option<&'a str>,
        settings: Settings,
    },
    /// Do a task on the line of this file.
    OnLine {
        file: &'a str,
        task: Task<'a>,
    },
    /// Run the centres of the line: the first listens at this port, the others at the ports after it.
    Serve {
        file: &'a str,
        port: u16,
        words: ServeWords<'a>,
    },
    /// Act as a train: send the lines of the file to the centre at this port.
    Drive {
        port: u16,
        file: &'a str,
        /// The longest time in seconds that the train waits for the centre, if it is given.
        timeout_s: Option<u32>,
    },
    /// Send lines to the interlocking's endpoint of running centres: those of the arguments ([`lines_of`]), or of
    /// standard input.
    Tell(TellWords<'a>),
    /// Run trains over centres in this process, on the line of this file or on a built-in line. Browsers see it at
    /// this port.
    LivePage {
        file: Option<&'a str>,
        page: u16,
        words: TrainsWords,
    },
    /// Run trains over the running centres of the line: the first of them listens at this port.
    Trains {
        port: u16,
        file: &'a str,
        words: TrainsWords,
    },
    /// Show the bytes of the arguments field by field.
    Decode(Decoding),
    /// Print the bytes of the fields in the file.
    Encode {
        fields: &'a str,
        is_frame: bool,
    },
    /// Show the message of these hexadecimal digits field by field.
    Message {
        digits: &'a str,
    },
}

/// A task on a line. A print is a file of this name, or the journals in a folder of this name.
#[derive(Clone, Copy)]
pub enum Task<'a> {
    /// Print the script of this text in words.
    Script(&'a str),
    /// Run the script, with drawn deliveries after each event.
    Storm {
        script: &'a str,
        seed: u64,
    },
    /// Print the run of the journals in the folder.
    Print(Listing<'a>),
    /// Run the events of a print again, and compare its lines, or the stamps of journals, with the run.
    Audit(&'a str),
    /// Find the first event of a print after which the promise to the world outside is broken.
    Watch(&'a str),
    /// Put a print into words.
    Words(Listing<'a>),
    /// Draw a part of a print.
    Picture(Drawing<'a>),
    /// Make a capture of a print.
    Capture {
        printed: &'a str,
        /// The port of the first centre.
        first_port: u16,
    },
}

/// A print that is shown line by line.
#[derive(Clone, Copy)]
pub struct Listing<'a> {
    /// The name of its file, or of the folder of its journals.
    pub name: &'a str,
    /// Each event is shown with its number.
    pub is_numbered: bool,
    /// Each event is shown with its time, if its journal has it.
    pub is_timed: bool,
    /// Only the events of this time are shown.
    pub range: TimeRange,
}

impl Listing<'_> {
    /// Whether all events are shown, as they are.
    pub(crate) fn is_plain(&self) -> bool
        ensures { result ≡ not (self.now.is_numbered || (self.now.is_timed || is_bounded self.now.range)) }
    {
        !self.is_numbered && !self.needs_times()
    }

    /// Whether the times of events are needed.
    pub(crate) fn needs_times(&self) -> bool
        ensures { result ≡ (self.now.is_timed || is_bounded self.now.range) }
    {
        self.is_timed || self.range.is_bounded()
    }
}

/// A range of time, in milliseconds since 1970 in UTC.
#[derive(Clone, Copy)]
pub struct TimeRange {
    /// Its beginning, if it has one.
    pub since_ms: Option<u64>,
    /// The first moment after it, if it has an end.
    pub until_ms: Option<u64>,
}

impl TimeRange {
    /// Whether it has a beginning or an end.
    pub(crate) fn is_bounded(self) -> bool
        ensures { result ≡ is_bounded self }
    {
        self.since_ms.is_some() || self.until_ms.is_some()
    }

    /// Whether an event of this time is within the range. An event whose time is not known is only within the range
    /// that has neither a beginning nor an end.
    pub fn contains(self, time_ms: Option<u64>) -> bool
        ensures { IsTrue result ↔ IsWithin self time_ms }
    {
        let Some(time_ms) = time_ms else {
            return self.since_ms.is_none() && self.until_ms.is_none();
        };
        let has_begun = match self.since_ms {
            Some(since_ms) => since_ms <= time_ms,
            None => true,
        };
        let has_ended = match self.until_ms {
            Some(until_ms) => until_ms <= time_ms,
            None => false,
        };
        has_begun && !has_ended
    }
}

/// The options of `serve` besides the line and the port.
#[derive(Clone, Copy)]
pub struct ServeWords<'a> {
    /// No notes are written.
    pub is_quiet: bool,
    /// Notes begin with their level, in the form of systemd's journal.
    pub is_for_journald: bool,
    /// Each note is a JSON object. With `is_for_journald` its level is before the object.
    pub notes_as_json: bool,
    /// The port at which browsers see the line, if there is one.
    pub page: Option<u16>,
    /// The address at which browsers connect, if it is not 127.0.0.1.
    pub page_address: Option<IpAddr>,
    /// The address at which trains connect, if it is not 127.0.0.1.
    pub address: Option<IpAddr>,
    /// The path of the Unix socket of the interlocking, if it has one in place of a port.
    pub control: Option<&'a str>,
    /// A train's messages are taken only over the connection that serves the train.
    pub is_bound: bool,
    /// Control connections receive the sections that are shut.
    pub is_telling: bool,
    /// `show` prints the used part of each log, clock and link.
    pub shows_life: bool,
    /// The number of messages that a train's connection may send in a second, if it is given.
    pub per_second: Option<u32>,
    /// The number of messages that it may send at once, if it is given.
    pub burst: Option<u32>,
    /// No event is printed at the end.
    pub is_unprinted: bool,
    /// The journals that the centres write, if they write any.
    pub journal: Option<JournalWords<'a>>,
}

/// The endpoint and the options of `tell`.
#[derive(Clone, Copy)]
pub struct TellWords<'a> {
    /// The endpoint's port, or the path of its socket.
    pub endpoint: &'a str,
    /// The longest time in seconds that the client waits for the endpoint, if it is given.
    pub timeout_s: Option<u32>,
}

/// The options of `trains` besides the line and the port.
#[derive(Clone, Copy)]
pub struct TrainsWords {
    /// The most trains, if it is given.
    pub trains: Option<u8>,
    /// How many of 100 messages are lost, if it is given.
    pub loss: Option<u8>,
    /// How many of 100 messages are late, if it is given.
    pub late: Option<u8>,
    /// The seed of all that is drawn by lot, if it is given.
    pub seed: Option<u64>,
    /// The most seconds, if they are given.
    pub seconds: Option<u32>,
    /// Another interlocking releases the sections.
    pub is_shut: bool,
}

/// Whether centres begin new journals, or continue from those in the folder.
#[derive(Clone, Copy, PartialEq, Eq)]
pub enum JournalStart {
    /// They begin: no journal in the folder has an event.
    Begin,
    /// They continue: each centre has its journal.
    Resume,
    /// They continue if each centre has its journal, and begin otherwise.
    Keep,
}

/// The options of `serve` for journals.
#[derive(Clone, Copy)]
pub struct JournalWords<'a> {
    /// The folder in which each centre has its journal.
    pub folder: &'a str,
    /// Whether the centres begin new journals.
    pub start: JournalStart,
    /// Each write is awaited until the disk has it.
    pub is_synced: bool,
}
