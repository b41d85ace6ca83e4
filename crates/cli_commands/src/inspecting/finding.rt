//! The faults of a line file, and their places, for the person who corrects it.

ghost use Rattle.std.specs.Fmt.{DisplaysOnOk};
ghost use Rattle.cli_commands.specs.Inspecting.Texts.{conflict_text, detail_text, finding_text, flaw_text, place_text};
ghost use Rattle.cli_commands.specs.Inspecting.Texts.{value_text};

use rbc_line::LineFault;
use std::fmt;
use std::fmt::Formatter;

/// A place in a line file. Numbers count from 0 in the order of the file; section numbers count over all tracks.
/// Names and engines help to find the place, if the file has them.
#[derive(Clone, Copy)]
pub enum Place<'a> {
    /// The file as a whole, not one centre, track, section or train.
    File,
    Centre {
        number: usize,
        name: Option<&'a str>,
    },
    Track {
        number: usize,
        name: Option<&'a str>,
    },
    Section {
        number: usize,
        track: Option<&'a str>,
    },
    Train {
        number: usize,
        engine: Option<i64>,
    },
}

/// A kind of item of which a line has a limited number.
#[derive(Clone, Copy)]
pub enum Counted {
    Centres,
    Tracks,
    Sections,
    Trains,
}

/// A fault at a place.
#[derive(Clone, Copy)]
pub enum Flaw<'a> {
    /// A required key is missing.
    Missing {
        key: &'static str,
    },
    /// A key that has no meaning in its table.
    Unknown {
        key: &'a str,
    },
    /// The value of a key is of another type.
    OtherType {
        key: &'static str,
        wanted: &'static str,
        found: &'static str,
    },
    /// A value that should be a table and is not one.
    NoTable {
        found: &'static str,
    },
    /// There are too few or too many items of this kind.
    Count {
        counted: Counted,
        count: usize,
    },
    /// A track without a section.
    Empty,
    /// A length that is not 100 to 2 000 metres.
    Length {
        metres: i64,
    },
    /// A number that is not from 0 to the highest.
    Number {
        key: &'static str,
        value: i64,
        highest: u32,
    },
    /// A name that is not 1 to 16 ASCII letters or digits.
    Name {
        name: &'a str,
    },
    /// A name that another item already has.
    NameTwice {
        name: &'a str,
        first: Place<'a>,
    },
    /// A number that another item already has.
    NumberTwice {
        key: &'static str,
        value: i64,
        first: Place<'a>,
    },
    /// A home or a registrar that names no centre.
    Home {
        key: &'static str,
        name: &'a str,
    },
    /// A home with earlier sections on the track, and sections of another home between them.
    Order {
        home: &'a str,
    },
    /// A fault for which no case was found. No file with such a fault is known.
    Unplaced {
        fault: LineFault,
    },
}

/// One fault at one place of a line file.
#[derive(Clone, Copy)]
pub struct Finding<'a> {
    pub place: Place<'a>,
    pub flaw: Flaw<'a>,
}

impl Counted {
    ghost use Rattle.std.specs.Prelude.{◌≡◌};
    ghost use Rattle.cli_commands.specs.Inspecting.Findings.{count_fault, limits, name_of};

    /// The fewest and the most items of this kind in a line.
    pub(crate) fn limits(self) -> (usize, usize)
        ensures { result ≡ limits self }
    {
        match self {
            Counted::Centres => (2, 8),
            Counted::Tracks => (1, 4),
            Counted::Sections => (1, 512),
            Counted::Trains => (1, 64),
        }
    }

    fn name(self) -> &'static str
        ensures { result.now ≡ name_of self }
    {
        match self {
            Counted::Centres => "centres",
            Counted::Tracks => "tracks",
            Counted::Sections => "sections",
            Counted::Trains => "trains",
        }
    }

    fn fault(self) -> LineFault
        ensures { result ≡ count_fault self }
    {
        match self {
            Counted::Centres => LineFault::Centres,
            Counted::Tracks => LineFault::Tracks,
            Counted::Sections => LineFault::Sections,
            Counted::Trains => LineFault::Trains,
        }
    }
}

impl Finding<'_> {
    ghost use Rattle.std.specs.Prelude.{◌≡◌};
    ghost use Rattle.cli_commands.specs.Inspecting.Findings.{flaw_fault};

    /// The line fault of this case.
    pub fn fault(&self) -> LineFault
        ensures { result ≡ flaw_fault self.now.flaw }
    {
        match self.flaw {
            Flaw::Missing { .. }
            | Flaw::Unknown { .. }
            | Flaw::OtherType { .. }
            | Flaw::NoTable { .. } => LineFault::Shape,
            Flaw::Count { counted, .. } => counted.fault(),
            Flaw::Empty => LineFault::Sections,
            Flaw::Length { .. } => LineFault::Length,
            Flaw::Number { .. } | Flaw::Name { .. } => LineFault::Number,
            Flaw::NameTwice { .. } | Flaw::NumberTwice { .. } => LineFault::Twice,
            Flaw::Home { .. } => LineFault::Home,
            Flaw::Order { .. } => LineFault::Order,
            Flaw::Unplaced { fault } => fault,
        }
    }
}

impl fmt::Display for Finding<'_> {
    ghost output = { finding_text };

    fn fmt<W: fmt::Write>(&self, f: &mut Formatter<W>) -> fmt::Result {
        write!(f, "{}: {}", self.place, self.flaw)
    }
}

impl fmt::Display for Place<'_> {
    ghost output = { place_text };

    fn fmt<W: fmt::Write>(&self, f: &mut Formatter<W>) -> fmt::Result {
        let (what, number) = match self {
            Place::File => return f.write_str("file"),
            Place::Centre { number, .. } => ("centre", number),
            Place::Track { number, .. } => ("track", number),
            Place::Section { number, .. } => ("section", number),
            Place::Train { number, .. } => ("train", number),
        };
        write!(f, "{what} {number}")?;
        write_detail(f, *self)
    }
}

/// Prints the name, the track or the engine of a place, if the file has it.
fn write_detail<W: fmt::Write>(f: &mut Formatter<W>, place: Place<'_>) -> fmt::Result
    ensures { DisplaysOnOk W.write_str_gives f.old result (detail_text place.entry) f.new }
{
    match place {
        Place::Centre {
            name: Some(name),
            ..
        }
        | Place::Track {
            name: Some(name),
            ..
        } => { write!(f, " {name:?}") }
        Place::Section {
            track: Some(track),
            ..
        } => write!(f, " of track {track:?}"),
        Place::Train {
            engine: Some(engine),
            ..
        } => write!(f, " (engine {engine})"),
        _ => Ok(()),
    }
}

impl fmt::Display for Flaw<'_> {
    ghost output = { flaw_text };

    fn fmt<W: fmt::Write>(&self, f: &mut Formatter<W>) -> fmt::Result {
        match self {
            Flaw::Missing { key } => write!(f, "key {key} is missing"),
            Flaw::Unknown { key } => write!(f, "key {key:?} has no meaning here"),
            Flaw::OtherType { key, wanted, found } => {
                write!(f, "{key} is of type {found}, not {wanted}")
            }
            Flaw::NoTable { found } => write!(f, "is of type {found}, not table"),
            Flaw::Empty => f.write_str("has no section"),
            other => write_value(f, *other),
        }
    }
}

/// Prints values out of their bounds, and the flaws that `write_conflict` prints.
fn write_value<W: fmt::Write>(f: &mut Formatter<W>, flaw: Flaw<'_>) -> fmt::Result
    ensures { DisplaysOnOk W.write_str_gives f.old result (value_text flaw.entry) f.new }
{
    match flaw {
        Flaw::Count { counted, count } => {
            let (low, high) = counted.limits();
            let name = counted.name();
            write!(f, "has {count} {name}, not {low} to {high}")
        }
        Flaw::Length { metres } => write!(f, "length {metres} is not 100 to 2000"),
        Flaw::Number {
            key,
            value,
            highest,
        } => write!(f, "{key} {value} is not 0 to {highest}"),
        Flaw::Name { name } => write!(f, "name {name:?} is not 1 to 16 ASCII letters or digits"),
        other => write_conflict(f, other),
    }
}

/// Prints values that conflict with the rest of the file, and a flaw that was not found.
fn write_conflict<W: fmt::Write>(f: &mut Formatter<W>, flaw: Flaw<'_>) -> fmt::Result
    ensures { DisplaysOnOk W.write_str_gives f.old result (conflict_text flaw.entry) f.new }
{
    match flaw {
        Flaw::NameTwice { name, first } => write!(f, "name {name:?} is that of {first} too"),
        Flaw::NumberTwice { key, value, first } => {
            write!(f, "{key} {value} is that of {first} too")
        }
        Flaw::Home { key, name } => write!(f, "{key} {name:?} names no centre"),
        Flaw::Order { home } => write!(f, "home {home:?} comes again behind another home"),
        _ => f.write_str("has the fault at a place that was not found"),
    }
}
