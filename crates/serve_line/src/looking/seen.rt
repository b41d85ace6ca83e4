//! The view of one centre.

ghost use Rattle.std.specs.Prelude.{◌≡◌, is_some, map, None, slice_set, Some, true};
ghost use Rattle.text_page.specs.declared.view.MissionNow.{MissionNow};
ghost use Rattle.serve_line.specs.Lists.{Continues};
ghost use Rattle.serve_line.specs.Pages.{lives_with, with_frames};

use crate::stamps::last_stamp;
use crate::status::end_of;
use rbc_line::Line;
use rbc_log::CentreLog;
use std::alloc::AllocError;
use text_page::{CentreNow, LineNow, LinkNow, MissionNow, SessionNow};
use text_replay::{mission_now, session_now};
use text_script::{Centre, TrainPage};

/// Adds a centre's trains, its links, and its usage.
pub(crate) fn see_centre(line: &Line, log: &CentreLog, now: &mut LineNow) -> Result<(), AllocError>
    ensures centres { now.new.centres.items ≡ lives_with log.now now.old.centres.items }
    ensures links { now.new.links.items ≡ map (with_frames log.now.core) now.old.links.items }
{
    let centre = log.core();
    now.events = now.events.saturating_add(log.entries().len() as u64);
    see_life(log, &mut now.centres);
    see_links(centre, &mut now.links);
    for i in 0..line.train_count() {
        if let Some(train) = line.train(i) {
            let page = centre.train(train.nid_engine);
            see_mission(
                centre.number(),
                i,
                train.nid_engine,
                &page,
                &mut now.missions,
            );
            see_session(centre.number(), train.nid_engine, &page, &mut now.sessions)?;
        }
    }
    Ok(())
}

// Sets the usage of the log's centre.
fn see_life(log: &CentreLog, centres: &mut [CentreNow])
    ensures { centres.new ≡ lives_with log.now centres.old }
{
    let number = log.number() as usize;
    if number < centres.len() {
        centres[number] = CentreNow {
            entries: log.entries().len() as u64,
            clock: last_stamp(log.entries()),
            end: end_of(log),
            ..centres[number]
        };
    }
}

// Sets the counts of frames that the centre has sent and taken, for each of its links.
fn see_links(centre: &Centre, links: &mut [LinkNow])
    ensures { links.new ≡ map (with_frames centre.now) links.old }
{
    for link in links.iter_mut() {
        *link = with_frames(centre, *link);
    }
}

// The link with the counts of the frames that the centre has sent or taken over it.
fn with_frames(centre: &Centre, link: LinkNow) -> LinkNow
    ensures { result ≡ with_frames centre.now link }
{
    let mut link = link;
    if link.from == centre.number() {
        link.sent = centre.sent(link.to);
    }
    if link.to == centre.number() {
        link.taken = centre.taken(link.from);
    }
    link
}

// Adds a train that is supervised here. If two centres show it, the later look counts.
fn see_mission(
    centre: u8,
    i: u8,
    nid_engine: u32,
    page: &TrainPage,
    missions: &mut [Option<MissionNow>],
)
    ensures none { page.now.mission ≡ None → missions.new ≡ missions.old }
    ensures some { is_some page.now.mission ≡ true → (m : MissionNow) × (m.nid_engine ≡ nid_engine)
        × (m.supervisor ≡ Some centre) × (m.hand ≡ page.now.hand)
        × (missions.new ≡ slice_set missions.old i (Some m)) }
{
    if let Some(facts) = page.mission {
        let mission = mission_now(nid_engine, Some(centre), &facts, page.hand, page.pool);
        put_mission(missions, i, mission);
    }
}

fn put_mission(missions: &mut [Option<MissionNow>], i: u8, mission: MissionNow)
    ensures { missions.new ≡ slice_set missions.old i (Some mission) }
{
    let at = i as usize;
    if at < missions.len() {
        missions[at] = Some(mission);
    }
}

// Adds the session of a train with the centre, if there is one.
fn see_session(
    centre: u8,
    nid_engine: u32,
    page: &TrainPage,
    sessions: &mut Vec<SessionNow>,
) -> Result<(), AllocError>
    ensures { Continues sessions.old.items sessions.new.items }
{
    if let Some(session) = session_now(nid_engine, centre, page.phase, page.waiting.is_some()) {
        sessions.push(session)?;
    }
    Ok(())
}
