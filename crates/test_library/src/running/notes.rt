//! The notes of running centres: the missions and handovers that they report.

use crate::line::{ESTABLISHED, INITIATION, VERSION};
use crate::running::client::{Done, Missed, PATIENCE_S};
use crate::running::line::MISSION_OF_ONE;
use crate::running::play::{Act, send};
use crate::running::plays::{Play, Seen, ServeMode};
use serve_notes::{About, NoteCounts, Notes};
use std::alloc::Global;
use std::fmt::Display;
use std::net::TcpStream;
use std::sync::atomic::{AtomicUsize, Ordering};
use std::thread;
use std::time::Duration;

/// Counts the notes that have the texts of a play's first four comparisons.
#[derive(Drop)]
pub struct NoteCounter {
    seen: &'static [Seen<'static>],
    counts: [AtomicUsize; 4],
}

impl NoteCounter {
    /// No note was written.
    pub fn new(seen: &'static [Seen<'static>]) -> NoteCounter {
        NoteCounter {
            seen,
            counts: [
                AtomicUsize::new(0),
                AtomicUsize::new(0),
                AtomicUsize::new(0),
                AtomicUsize::new(0),
            ],
        }
    }

    /// Waits until a note has the text at this place.
    pub fn wait_for(&self, host: &HostRuntime, place: usize) -> Done<()> {
        for _ in 0..PATIENCE_S.saturating_mul(20) {
            if self.count(place) > 0 {
                return Ok(());
            }
            rest(host);
        }
        Err(Missed::Note)
    }

    /// Compares the numbers of notes.
    pub fn compare(&self) -> Done<()> {
        for (place, seen) in self.seen.iter().enumerate() {
            if let Seen::Noted(_, wanted) = seen {
                if self.count(place) != *wanted {
                    return Err(Missed::Note);
                }
            }
        }
        Ok(())
    }

    fn count(&self, place: usize) -> usize {
        match self.counts.get(place) {
            Some(count) => count.load(Ordering::SeqCst),
            None => 0,
        }
    }
}

impl Notes for NoteCounter {
    fn note<D: Display + Drop>(&self, _about: About<'_>, _text: D) {}

    fn line(&self, line: String) {
        for (seen, count) in self.seen.iter().zip(self.counts.iter()) {
            if let Seen::Noted(text, _) = seen {
                if line.as_str().contains(*text) {
                    count.fetch_add(1, Ordering::SeqCst);
                }
            }
        }
    }

    fn lose(&self, _count: u64) {}

    fn counts(&self) -> NoteCounts {
        NoteCounts::NOTHING
    }
}

/// Train 1 reports from section 2, again and again from T_TRAIN 3 on, until a note has the text at this place. Its
/// front is at 2 420 m, and its rear at 2 190 m. A report that arrives at B before the announcement has no effect.
pub fn report_until_noted(
    host: &HostRuntime,
    alloc: Global,
    stream: &TcpStream,
    notes: &NoteCounter,
    place: usize,
) -> Done<()> {
    for t_train in 3u32..1_000 {
        if notes.count(place) > 0 {
            return Ok(());
        }
        let sixty_fourths = t_train.saturating_mul(64);
        let digits = format!(in alloc;
            "8806800000{sixty_fourths:04X}000040010280A0330190500140051019001060"
        )?;
        send(alloc, stream, &digits)?;
        rest(host);
    }
    Err(Missed::Note)
}

fn rest(host: &HostRuntime) {
    thread::sleep(host, Duration::from_millis(50));
}

// Train 1 ends its mission at that place, with T_TRAIN 2000.
const END_IN_B: &str = "9606800001F400000040010280A0330190500140051019001060";

pub static PLAYS: [Play<'_>; 1] = [
    // Train 1 begins its mission at A, and gets an authority over the border. It opens its session with B, is taken
    // over there, and ends its mission.
    Play {
        name: "missions_and_a_handover_are_noted",
        mode: ServeMode::Json,
        journals: None,
        rounds: &[(
            1,
            &[
                (0, Act::Control),
                (0, Act::Asks("set A 0\n", "> set A 0\nA 0 Done\n")),
                (0, Act::Asks("set A 1\n", "> set A 1\nA 1 Done\n")),
                (0, Act::Asks("set B 2\n", "> set B 2\nB 2 Done\n")),
                (1, Act::Train),
                (1, Act::Sends(MISSION_OF_ONE)),
                (1, Act::Takes(11 + 10 + 14)),
                (1, Act::Crosses),
                (2, Act::SecondTrain),
                (2, Act::Sends(INITIATION)),
                (2, Act::Hears(VERSION)),
                (2, Act::Sends(ESTABLISHED)),
                (2, Act::Reports(2)),
                (2, Act::Sends(END_IN_B)),
                (2, Act::Noted(3)),
            ],
        )],
        status: 0,
        seen: &[
            Seen::Noted(
                "{\"centre\":\"A\",\"engine\":1,\"kind\":\"mission_begins\",\"level\":\"info\",\"peer\":null,\"text\":\"A: train 1 begins its mission\",\"time\":\"20",
                1,
            ),
            Seen::Noted(
                "{\"centre\":\"A\",\"engine\":1,\"kind\":\"handover\",\"level\":\"info\",\"peer\":null,\"text\":\"A: train 1 is handed over to B\",\"time\":\"20",
                1,
            ),
            Seen::Noted(
                "{\"centre\":\"B\",\"engine\":1,\"kind\":\"handover\",\"level\":\"info\",\"peer\":null,\"text\":\"B: train 1 is taken over from A\",\"time\":\"20",
                1,
            ),
            Seen::Noted(
                "{\"centre\":\"B\",\"engine\":1,\"kind\":\"mission_ends\",\"level\":\"info\",\"peer\":null,\"text\":\"B: train 1 ends its mission\",\"time\":\"20",
                1,
            ),
        ],
    },
];
