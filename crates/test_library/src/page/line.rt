//! A line of two centres, with a train that has sections 0 and 1 of four.

use rbc_line::Section;
use rbc_world::{Mark, Phase, SectionRun, SectionView};
use std::alloc::{AllocError, Global};
use text_page::{
    CentreNow, EventNow, Layout, Limits, LineNow, LinkNow, MissionNow, SessionNow, TruePlace,
};

// Its sections: two of 100 m with home A, and two with home B.
static PLACES: [Section; 4] = [
    Section {
        track: 0,
        start: 0,
        metres: 100,
        home: 0,
        balise: 1,
    },
    Section {
        track: 0,
        start: 100,
        metres: 100,
        home: 0,
        balise: 2,
    },
    Section {
        track: 0,
        start: 200,
        metres: 100,
        home: 1,
        balise: 3,
    },
    Section {
        track: 0,
        start: 300,
        metres: 100,
        home: 1,
        balise: 4,
    },
];

/// The layout of its sections: two of 100 m with home A, and two with home B.
pub fn layout(alloc: Global) -> Result<Layout, AllocError> {
    Ok(Layout {
        nid_c: 7,
        centres: names(alloc, &["A", "B"])?,
        ports: Vec::from_slice(alloc, &[21_000, 21_001])?,
        tracks: names(alloc, &["main"])?,
        sections: Vec::from_slice(alloc, &PLACES)?,
    })
}

fn names(alloc: Global, given: &[&str]) -> Result<Vec<String>, AllocError> {
    let mut names = Vec::new(alloc);
    for name in given {
        names.push(String::from_str(alloc, name)?)?;
    }
    Ok(names)
}

// Train 19 is in sections 0 and 1, section 2 is kept for it, and section 3 is not released.
static SECTIONS: [SectionView; 4] = [
    SectionView {
        mark: Mark::Given { nid_engine: 19 },
        is_wished: false,
    },
    SectionView {
        mark: Mark::Given { nid_engine: 19 },
        is_wished: false,
    },
    SectionView {
        mark: Mark::Kept { nid_engine: 19 },
        is_wished: false,
    },
    SectionView {
        mark: Mark::Shut,
        is_wished: false,
    },
];

// The mission of train 19, with sections 0 and 1 in its authority, which is announced to B.
static MISSIONS: [Option<MissionNow>; 1] = [Some(MissionNow {
    nid_engine: 19,
    supervisor: Some(0),
    handover: Some(1),
    track: 0,
    front: 1_234,
    rear: None,
    hand: SectionRun { first: 0, count: 2 },
    pool: SectionRun { first: 2, count: 0 },
    asked: None,
    is_ended: false,
})];

static SESSIONS: [SessionNow; 1] = [SessionNow {
    nid_engine: 19,
    centre: 0,
    phase: Phase::Up,
    is_waiting: false,
}];

const LIMITS: Limits = Limits {
    entries: 10,
    clock: 20,
    frames: 30,
};

static CENTRES: [CentreNow; 2] = [
    CentreNow {
        entries: 4,
        clock: 4,
        taken: 1,
        seats: 9,
        is_stuck: false,
        end: None,
        limits: LIMITS,
    },
    CentreNow {
        entries: 1,
        clock: 4,
        taken: 1,
        seats: 9,
        is_stuck: true,
        end: None,
        limits: LIMITS,
    },
];

static LINKS: [LinkNow; 1] = [LinkNow {
    from: 0,
    to: 1,
    sent: 3,
    taken: 2,
}];

static TRUE_PLACES: [TruePlace; 1] = [TruePlace {
    nid_engine: 19,
    track: 0,
    rear: 200,
    front: 1_100,
}];

static LAST: [&str; 1] = ["4 · <b>\"A\\B\"</b> & more"];

/// The state of the line after five events. Train 19 is in section 0, section 2 is kept for it, and section 3 is not
/// released.
pub fn now(alloc: Global) -> Result<LineNow, AllocError> {
    let mut now = LineNow {
        events: 5,
        is_stopped: false,
        sections: Vec::new(alloc),
        missions: Vec::new(alloc),
        sessions: Vec::new(alloc),
        centres: Vec::new(alloc),
        links: Vec::new(alloc),
        true_places: Vec::new(alloc),
        last: Vec::new(alloc),
    };
    fill(alloc, &mut now)?;
    Ok(now)
}

fn fill(alloc: Global, now: &mut LineNow) -> Result<(), AllocError> {
    now.sections.extend_from_slice(&SECTIONS)?;
    now.missions.extend_from_slice(&MISSIONS)?;
    now.sessions.extend_from_slice(&SESSIONS)?;
    now.centres.extend_from_slice(&CENTRES)?;
    now.links.extend_from_slice(&LINKS)?;
    now.true_places.extend_from_slice(&TRUE_PLACES)?;
    for words in &LAST {
        now.last.push(EventNow {
            time_ms: None,
            words: String::from_str(alloc, words)?,
        })?;
    }
    Ok(())
}
