ghost use Rattle.std.specs.Prelude.{◌≡◌};
ghost use Rattle.serve_notes.specs.Kinds.{kind_name, kind_words, level_name, level_of, level_prefix};

/// How serious a note is.
#[derive(Clone, Copy)]
pub(crate) enum Level {
    /// A start is refused, or a centre answers nothing.
    Error,
    /// A peer is refused, or a centre will answer nothing if nobody acts.
    Warning,
    /// All else.
    Info,
}

impl Level {
    /// The level at the beginning of a line, in the form of systemd's journal.
    pub fn prefix(self) -> &'static str
        ensures { result.now ≡ level_prefix self }
    {
        match self {
            Level::Error => "<3>",
            Level::Warning => "<4>",
            Level::Info => "<6>",
        }
    }

    /// The name of the level.
    pub fn name(self) -> &'static str
        ensures { result.now ≡ level_name self }
    {
        match self {
            Level::Error => "error",
            Level::Warning => "warning",
            Level::Info => "info",
        }
    }
}

/// The number of kinds that may occur many times in a short time. They are the first ones.
pub(crate) const FREQUENT: usize = 11;

/// A kind of note.
#[derive(Clone, Copy)]
pub enum Kind {
    /// A connection begins.
    Begin,
    /// A connection ends.
    End,
    /// A train opens its session.
    Session,
    /// A train begins its mission.
    MissionBegin,
    /// A train ends its mission.
    MissionEnd,
    /// A train is handed over, or taken over.
    Handover,
    /// A section that was wished back is shut.
    Section,
    /// A line of the interlocking is refused.
    Line,
    /// A connection is refused.
    Refusal,
    /// A connection gets no thread.
    Thread,
    /// The system gives no connection.
    Device,
    /// A port or a socket listens.
    Port,
    /// A centre goes on from its journal.
    Resumed,
    /// The centres stop.
    Stop,
    /// A journal is written again.
    JournalWritten,
    /// The end of a journal is taken off.
    JournalCut,
    /// An event waits for a journal.
    JournalSlow,
    /// A log, a clock or a link is used up.
    Usage,
    /// A worker of the program gets no thread.
    Worker,
    /// The file of a socket is left.
    SocketLeft,
    /// Notes were lost.
    Lost,
    /// A journal can't be written.
    JournalStuck,
    /// A start is refused.
    Refused,
    /// The print ends early.
    PrintShort,
}

/// The kinds that may occur many times in a short time.
pub(crate) const KINDS: [Kind; FREQUENT] = [
    Kind::Begin,
    Kind::End,
    Kind::Session,
    Kind::MissionBegin,
    Kind::MissionEnd,
    Kind::Handover,
    Kind::Section,
    Kind::Line,
    Kind::Refusal,
    Kind::Thread,
    Kind::Device,
];

impl Kind {
    /// How serious a note of this kind is.
    pub(crate) fn level(self) -> Level
        ensures { result ≡ level_of self }
    {
        match self {
            Kind::JournalStuck | Kind::Refused | Kind::PrintShort => Level::Error,
            Kind::Line
            | Kind::Refusal
            | Kind::Thread
            | Kind::Device
            | Kind::JournalCut
            | Kind::JournalSlow
            | Kind::Usage
            | Kind::Worker
            | Kind::SocketLeft
            | Kind::Lost => Level::Warning,
            _ => Level::Info,
        }
    }

    /// The name of the kind.
    pub(crate) fn name(self) -> &'static str
        ensures { result.now ≡ kind_name self }
    {
        match self {
            Kind::Begin => "connection_begins",
            Kind::End => "connection_ends",
            Kind::Session => "session_opens",
            Kind::MissionBegin => "mission_begins",
            Kind::MissionEnd => "mission_ends",
            Kind::Handover => "handover",
            Kind::Section => "section_returned",
            Kind::Line => "line_refused",
            Kind::Refusal => "connection_refused",
            Kind::Thread => "no_thread",
            Kind::Device => "no_connection",
            Kind::Port => "port",
            Kind::Resumed => "resumed",
            Kind::Stop => "stop",
            Kind::JournalWritten => "journal_written",
            Kind::JournalCut => "journal_cut",
            Kind::JournalSlow => "journal_slow",
            Kind::Usage => "usage",
            Kind::Worker => "no_worker",
            Kind::SocketLeft => "socket_left",
            Kind::Lost => "notes_lost",
            Kind::JournalStuck => "journal_stuck",
            Kind::Refused => "start_refused",
            Kind::PrintShort => "print_short",
        }
    }

    /// The text after the number of omitted notes. Only notes of the first kinds are omitted.
    pub(crate) fn words(self) -> &'static str
        ensures { result.now ≡ kind_words self }
    {
        match self {
            Kind::Begin => "connections begin",
            Kind::End => "connections end",
            Kind::Session => "sessions are opened",
            Kind::MissionBegin => "missions begin",
            Kind::MissionEnd => "missions end",
            Kind::Handover => "trains are handed over or taken over",
            Kind::Section => "sections that were wished back are shut",
            Kind::Line => "lines are refused",
            Kind::Refusal => "connections are refused",
            Kind::Thread => "connections are ended, no thread could be made",
            Kind::Device => "times no connection can be taken",
            _ => "notes",
        }
    }
}
