//! The metrics of a running line, in the text format 0.0.4 of Prometheus.

ghost use Rattle.std.specs.Prelude.{◌≡◌, ◌==◌, ◌&&◌, count_by};
ghost use Rattle.text_page.specs.Metrics.{is_at, is_announced, centre_value, link_value};

use crate::counters::add_counts;
use crate::sections::word_of;
use crate::view::{CentreNow, Layout, LineCounts, LineNow, LinkNow, MissionNow};
use std::alloc::{AllocError, Global};

/// A metric of each centre.
#[derive(Clone, Copy)]
enum OfCentre {
    Events,
    EventsLimit,
    Stamp,
    StampLimit,
    Connections,
    Seats,
    Sessions,
    Missions,
    Handovers,
    JournalStuck,
    Ended,
}

static OF_CENTRES: [(OfCentre, &str, &str, &str); 11] = [
    (
        OfCentre::Events,
        "rbc_events_total",
        "counter",
        "Events that the centre has taken, which are the entries of its log.",
    ),
    (
        OfCentre::EventsLimit,
        "rbc_events_limit",
        "gauge",
        "Entries at which the log of the centre is full.",
    ),
    (
        OfCentre::Stamp,
        "rbc_stamp",
        "gauge",
        "Stamp of the last event of the centre.",
    ),
    (
        OfCentre::StampLimit,
        "rbc_stamp_limit",
        "gauge",
        "Last stamp that an event of the centre can have.",
    ),
    (
        OfCentre::Connections,
        "rbc_connections",
        "gauge",
        "Connections at the port of the centre.",
    ),
    (
        OfCentre::Seats,
        "rbc_seats",
        "gauge",
        "Connections for which the port of the centre has room.",
    ),
    (
        OfCentre::Sessions,
        "rbc_sessions",
        "gauge",
        "Sessions of the centre with trains.",
    ),
    (
        OfCentre::Missions,
        "rbc_missions",
        "gauge",
        "Missions that the centre supervises.",
    ),
    (
        OfCentre::Handovers,
        "rbc_handovers",
        "gauge",
        "Missions of which the centre has announced the handover.",
    ),
    (
        OfCentre::JournalStuck,
        "rbc_journal_stuck",
        "gauge",
        "1 if the journal of the centre cannot be written.",
    ),
    (
        OfCentre::Ended,
        "rbc_centre_ended",
        "gauge",
        "1 if the log, the clock or a link of the centre is at its end.",
    ),
];

/// A metric of each link.
#[derive(Clone, Copy)]
enum OfLink {
    Sent,
    Taken,
    Limit,
}

static OF_LINKS: [(OfLink, &str, &str, &str); 3] = [
    (
        OfLink::Sent,
        "rbc_link_frames_sent_total",
        "counter",
        "Frames that the first centre has sent to the second.",
    ),
    (
        OfLink::Taken,
        "rbc_link_frames_taken_total",
        "counter",
        "Frames that the second centre has taken from the first.",
    ),
    (
        OfLink::Limit,
        "rbc_link_frames_limit",
        "gauge",
        "Frame numbers of the link.",
    ),
];

/// The states of a section, in words.
static STATES: [&str; 4] = ["shut", "open", "kept", "given"];

/// Writes the metrics of the line, of its centres and of their links, and the counts of running centres, if there are
/// any.
pub fn metrics_of(
    alloc: Global,
    layout: &Layout,
    now: &LineNow,
    counts: Option<&LineCounts>,
) -> Result<String, AllocError> {
    let mut text = String::new(alloc);
    add_line(&mut text, now)?;
    add_centres(&mut text, layout, now)?;
    add_links(&mut text, layout, now)?;
    if let Some(counts) = counts {
        add_counts(&mut text, layout, counts)?;
    }
    Ok(text)
}

/// Begins a metric with its meaning and its type.
pub(crate) fn begin(
    text: &mut String,
    name: &str,
    kind: &str,
    help: &str,
) -> Result<(), AllocError> {
    writeln!(text, "# HELP {name} {help}\n# TYPE {name} {kind}")
}

fn add_line(text: &mut String, now: &LineNow) -> Result<(), AllocError> {
    let help = "1 if the centres are stopped, and accept no new connection.";
    begin(text, "rbc_stopped", "gauge", help)?;
    let stopped = u8::from(now.is_stopped);
    writeln!(text, "rbc_stopped {stopped}")?;
    begin(
        text,
        "rbc_sections",
        "gauge",
        "Sections of the line in each state.",
    )?;
    let sections = &now.sections;
    for state in &STATES {
        let count = sections
            .iter()
            .filter(|section| word_of(section.mark) == *state)
            .count();
        writeln!(text, "rbc_sections{{state=\"{state}\"}} {count}")?;
    }
    let help = "Sections that the interlocking wishes back.";
    begin(text, "rbc_sections_wished", "gauge", help)?;
    let count = sections.iter().filter(|section| section.is_wished).count();
    writeln!(text, "rbc_sections_wished {count}")
}

fn add_centres(text: &mut String, layout: &Layout, now: &LineNow) -> Result<(), AllocError> {
    for (metric, name, kind, help) in &OF_CENTRES {
        begin(text, name, kind, help)?;
        for (number, centre) in now.centres.iter().enumerate() {
            let label = label_of(layout, number);
            let value = metric.value_of(now, number, centre);
            writeln!(text, "{name}{{centre=\"{label}\"}} {value}")?;
        }
    }
    Ok(())
}

fn add_links(text: &mut String, layout: &Layout, now: &LineNow) -> Result<(), AllocError> {
    for (metric, name, kind, help) in &OF_LINKS {
        begin(text, name, kind, help)?;
        for link in &now.links {
            let from = label_of(layout, link.from as usize);
            let to = label_of(layout, link.to as usize);
            let value = metric.value_of(now, link);
            writeln!(text, "{name}{{from=\"{from}\",to=\"{to}\"}} {value}")?;
        }
    }
    Ok(())
}

/// The name of the centre with this number. It has only letters and digits.
pub(crate) fn label_of(layout: &Layout, number: usize) -> &str {
    match layout.centres.get(number) {
        Some(name) => name.as_str(),
        None => "",
    }
}

impl OfCentre {
    // The value of the metric, for the centre with this number.
    fn value_of(self, now: &LineNow, number: usize, centre: &CentreNow) -> u64
        ensures { result ≡ centre_value self now.now number centre.now }
    {
        match self {
            OfCentre::Events => centre.entries,
            OfCentre::EventsLimit => centre.limits.entries,
            OfCentre::Stamp => u64::from(centre.clock),
            OfCentre::StampLimit => u64::from(centre.limits.clock),
            OfCentre::Connections => centre.taken,
            OfCentre::Seats => centre.seats,
            OfCentre::Sessions => sessions_at(now, number),
            OfCentre::Missions => missions_at(now, number),
            OfCentre::Handovers => handovers_at(now, number),
            OfCentre::JournalStuck => u64::from(centre.is_stuck),
            OfCentre::Ended => u64::from(centre.end.is_some()),
        }
    }
}

impl OfLink {
    // The value of the metric. The limit is that of the centre that sends.
    fn value_of(self, now: &LineNow, link: &LinkNow) -> u32
        ensures { result ≡ link_value self now.now link.now }
    {
        match self {
            OfLink::Sent => link.sent,
            OfLink::Taken => link.taken,
            OfLink::Limit => match now.centres.get(link.from as usize) {
                Some(centre) => centre.limits.frames,
                None => 0,
            },
        }
    }
}

fn sessions_at(now: &LineNow, number: usize) -> u64
    ensures { result ≡ count_by (λ session. session.centre == number) now.now.sessions.items }
{
    let sessions = now.sessions.iter();
    sessions
        .filter(|session| session.centre as usize == number)
        .count() as u64
}

fn missions_at(now: &LineNow, number: usize) -> u64
    ensures { result ≡ count_by (λ mission. is_at mission number) now.now.missions.items }
{
    let missions = now.missions.iter();
    missions.filter(|mission| is_at(mission, number)).count() as u64
}

fn handovers_at(now: &LineNow, number: usize) -> u64
    ensures { result ≡ count_by (λ mission. is_at mission number && is_announced mission) now.now.missions.items }
{
    let missions = now.missions.iter();
    missions
        .filter(|mission| is_at(mission, number) && is_announced(mission))
        .count() as u64
}

// Whether a mission is supervised by the centre with this number.
fn is_at(mission: &Option<MissionNow>, number: usize) -> bool
    ensures { result ≡ is_at mission.now number }
{
    match mission {
        Some(mission) => match mission.supervisor {
            Some(centre) => centre as usize == number,
            None => false,
        },
        None => false,
    }
}

// Whether a handover of the mission is announced.
fn is_announced(mission: &Option<MissionNow>) -> bool
    ensures { result ≡ is_announced mission.now }
{
    match mission {
        Some(mission) => mission.handover.is_some(),
        None => false,
    }
}
