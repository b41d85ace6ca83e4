//! The announced handovers, by the frames between centres.

use rbc_line::Line;
use std::alloc::{AllocError, Global};
use text_script::Body;

/// The announced handover of each train, by the train's place in the line file.
#[derive(Drop)]
pub struct Handovers {
    announced: Vec<Option<Announced>>,
}

/// A handover from one centre to another, by their numbers.
#[derive(Clone, Copy)]
struct Announced {
    from: u8,
    to: u8,
}

impl Handovers {
    /// Starts without announced handovers.
    pub fn new(alloc: Global, line: &Line) -> Result<Handovers, AllocError> {
        Ok(Handovers {
            announced: vec![in alloc; None; line.train_count() as usize]?,
        })
    }

    /// Records the handover in a frame from one centre to another, if it has one. Frames arrive in the order of
    /// sending.
    pub fn hear(&mut self, line: &Line, from: u8, to: u8, body: Body) {
        let Some(train) = line.train_number(body.engine()) else {
            return;
        };
        let Some(place) = self.announced.get_mut(train as usize) else {
            return;
        };
        match body {
            Body::Announce { .. } => *place = Some(Announced { from, to }),
            Body::Cancel { .. } | Body::Yield { .. } => match *place {
                Some(announced) if announced.from == from => *place = None,
                _ => {}
            },
            _ => {}
        }
    }

    /// The centre to which this supervisor has announced the handover of the train.
    pub fn next_of(&self, train: usize, supervisor: u8) -> Option<u8> {
        match self.announced.get(train) {
            Some(Some(announced)) if announced.from == supervisor => Some(announced.to),
            _ => None,
        }
    }
}
