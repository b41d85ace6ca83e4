//! The first places of trains, and their goals.

use crate::driving::speech::LENGTH;
use crate::ends::Ends;
use rbc_line::{Line, Section};
use std::alloc::{AllocError, Global};

/// The first place of a front end, in decimetres from the start of its section.
const BEGINNING: u32 = 900;

/// The first place of a train.
#[derive(Clone, Copy, Debug)]
pub struct Place {
    /// NID_ENGINE of the train.
    pub nid_engine: u32,
    /// Its true ends.
    pub ends: Ends,
    /// The goal of its front end, in decimetres from the start of the track.
    pub goal: u32,
}

/// Places trains on the tracks in turn, at most this many. On one track each has a free section in advance. Its goal is
/// a section in rear of that of the train ahead. A train without room is left out.
pub fn placed_on(
    alloc: Global,
    line: &Line,
    sections: &[Section],
    most: u8,
) -> Result<Vec<Place>, AllocError> {
    let mut places = Vec::new(alloc);
    let tracks = usize::from(line.track_count().max(1));
    let count = usize::from(line.train_count().min(most));
    for number in 0..line.train_count() {
        let order = usize::from(number);
        if order < count
            && let Some(train) = line.train(number)
        {
            let track = part_of(sections, order % tracks);
            let here = count.saturating_sub(order % tracks).div_ceil(tracks);
            if let Some(place) = placed(sections, track, train.nid_engine, order / tracks, here) {
                places.push(place)?;
            }
        }
    }
    Ok(places)
}

// The place of one of the trains of a track: its order is counted from the last.
fn placed(
    sections: &[Section],
    track: (usize, usize),
    nid_engine: u32,
    order: usize,
    trains: usize,
) -> Option<Place> {
    let (first, count) = track;
    let trains = trains.min(count.saturating_add(1) / 2);
    if order >= trains {
        return None;
    }
    let begins = sections.get(first.saturating_add(order.saturating_mul(2)))?;
    let arrives = sections.get(first.saturating_add(count).saturating_sub(trains - order))?;
    let front = begins.start.min(1_024_000) * 10 + BEGINNING;
    Some(Place {
        nid_engine,
        ends: Ends {
            track: begins.track,
            front,
            rear: front as i32 - LENGTH as i32,
        },
        goal: (arrives.start.min(1_024_000) + u32::from(arrives.metres)) * 10,
    })
}

// The first section of a track, and how many it has.
fn part_of(sections: &[Section], track: usize) -> (usize, usize) {
    let mut first = 0usize;
    let mut count = 0usize;
    for section in sections {
        if usize::from(section.track) < track {
            first = first.saturating_add(1);
        } else if usize::from(section.track) == track {
            count = count.saturating_add(1);
        }
    }
    (first, count)
}
