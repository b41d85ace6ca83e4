//! The line before the first event that is shown, and after each.

use crate::changes::SectionChanges;
use crate::events::centre_of;
use crate::handovers::Handovers;
use crate::shown::{mission_now, session_of};
use crate::turns::Turns;
use crate::words::event_in_words;
use rbc_line::Line;
use std::alloc::{AllocError, Global};
use text_page::{MissionNow, SessionNow};
use text_script::status::Fault;
use text_script::{Answer, LineView, MissionView, SectionRun, Supervisor, World, WorldEvent};

/// A part of a run. Except in `words`, event 0 is the state before the first event.
#[derive(Drop)]
pub(crate) struct Played {
    pub sections: SectionChanges,
    /// By the trains' places in the line file.
    pub missions: Turns<Option<MissionNow>>,
    /// By train, and then by centre.
    pub sessions: Turns<Option<SessionNow>>,
    /// The events in words.
    pub words: Vec<String>,
    /// The line after the last event.
    pub last: LineView,
}

/// Plays events, and records those from the first shown one on.
pub(crate) fn play(
    alloc: Global,
    line: &Line,
    events: &[WorldEvent],
    first: usize,
) -> Result<Played, Fault<'static>> {
    let mut centres = centres_at(alloc, line, events, first)?;
    let mut played = begun(alloc, line, &centres)?;
    tell(alloc, line, events, first, &mut centres, &mut played)?;
    Ok(played)
}

/// The centres of the line, and their announced handovers.
#[derive(Drop)]
struct Centres {
    world: World,
    handovers: Handovers,
    /// The answer to the last event, which the next is written over.
    answer: Answer,
}

// The centres before the first recorded event.
fn centres_at(
    alloc: Global,
    line: &Line,
    events: &[WorldEvent],
    first: usize,
) -> Result<Centres, Fault<'static>> {
    let world = World::new(alloc, line)?;
    let handovers = Handovers::new(alloc, line)?;
    let mut centres = Centres {
        world,
        handovers,
        answer: Answer::nothing(),
    };
    pass(line, events, first, &mut centres)?;
    Ok(centres)
}

// Plays the events before the first recorded one.
fn pass(
    line: &Line,
    events: &[WorldEvent],
    first: usize,
    centres: &mut Centres,
) -> Result<(), Fault<'static>> {
    for event in events.iter().take(first) {
        step(line, event, centres)?;
    }
    Ok(())
}

// The current state of the line, before the first recorded event.
fn begun(alloc: Global, line: &Line, centres: &Centres) -> Result<Played, AllocError> {
    let trains = line.train_count() as usize;
    let sessions = trains.saturating_mul(line.centre_count() as usize);
    Ok(Played {
        sections: SectionChanges::new(alloc, line)?,
        missions: Turns::new(alloc, trains)?,
        sessions: Turns::new(alloc, sessions)?,
        words: Vec::new(alloc),
        last: centres.world.view(alloc)?,
    })
}

// Plays and records the events from the first one on.
fn tell(
    alloc: Global,
    line: &Line,
    events: &[WorldEvent],
    first: usize,
    centres: &mut Centres,
    played: &mut Played,
) -> Result<(), Fault<'static>> {
    look(alloc, centres, played)?;
    for event in events.iter().skip(first) {
        let words = told(alloc, line, event, centres)?;
        played.words.push(words)?;
        look(alloc, centres, played)?;
    }
    Ok(())
}

// Plays an event, and puts it into words.
fn told(
    alloc: Global,
    line: &Line,
    event: &WorldEvent,
    centres: &mut Centres,
) -> Result<String, Fault<'static>> {
    step(line, event, centres)?;
    event_in_words(alloc, line, event, &centres.answer)
}

// Plays an event, and records the centres' frames about handovers.
fn step(line: &Line, event: &WorldEvent, centres: &mut Centres) -> Result<(), Fault<'static>> {
    centres.world.step_to(event, &mut centres.answer)?;
    hear(line, event, &centres.answer, &mut centres.handovers);
    Ok(())
}

// Records the centres' frames about handovers in an event.
fn hear(line: &Line, event: &WorldEvent, answer: &Answer, handovers: &mut Handovers) {
    if let Answer::Outcome(outcome) = answer {
        for sent in outcome.frames.as_slice() {
            handovers.hear(line, centre_of(event), sent.to, sent.frame.body());
        }
    }
}

// Records the current state of the line.
fn look(alloc: Global, centres: &Centres, played: &mut Played) -> Result<(), AllocError> {
    let view = centres.world.view(alloc)?;
    let event = played.words.len();
    played.sections.note(event, &view)?;
    note_missions(&view, &centres.handovers, event, &mut played.missions)?;
    note_sessions(&view, event, &mut played.sessions)?;
    played.last = view;
    Ok(())
}

// Records the mission of each train.
fn note_missions(
    view: &LineView,
    handovers: &Handovers,
    event: usize,
    missions: &mut Turns<Option<MissionNow>>,
) -> Result<(), AllocError> {
    for (train, seen) in view.trains.iter().enumerate() {
        let mission = match seen.mission {
            Some(mission) => Some(mission_of(seen.nid_engine, &mission, handovers, train)),
            None => None,
        };
        missions.note(train, event, mission)?;
    }
    Ok(())
}

// Records the sessions of each train.
fn note_sessions(
    view: &LineView,
    event: usize,
    sessions: &mut Turns<Option<SessionNow>>,
) -> Result<(), AllocError> {
    for (train, seen) in view.trains.iter().enumerate() {
        let first = train.saturating_mul(seen.sessions.len());
        for centre in 0..seen.sessions.len() {
            let session = session_of(view, train, centre);
            sessions.note(first.saturating_add(centre), event, session)?;
        }
    }
    Ok(())
}

// The mission of a train. It does not separate lent sections from other kept ones.
fn mission_of(
    nid_engine: u32,
    mission: &MissionView,
    handovers: &Handovers,
    train: usize,
) -> MissionNow {
    let supervisor = match mission.supervisor {
        Supervisor::At { centre } => Some(centre),
        Supervisor::Parted { .. } => None,
    };
    let none = SectionRun { first: 0, count: 0 };
    let mut now = mission_now(nid_engine, supervisor, &mission.facts, mission.hand, none);
    if let Some(centre) = supervisor {
        now.handover = handovers.next_of(train, centre);
    }
    now
}
