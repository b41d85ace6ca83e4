ghost use Rattle.std.specs.Prelude.{◌≡◌, IfOk, length, map, replicate};

use rbc_line::Line;
use std::alloc::{AllocError, Global};
use text_page::LineNow;
use text_replay::Handovers;
use text_script::Centre;

/// The most frames of a link that are read under a centre's lock. The rest is read at a later look.
const MOST_READ: u32 = 256;

/// The announced handovers, from the frames of all links that were read so far.
#[derive(Drop)]
pub(crate) struct Sent {
    handovers: Handovers,
    // Indexed by the sender's and the receiver's number: the number of frames read.
    read: Vec<Vec<u32>>,
}

impl Sent {
    /// No frame was read.
    pub fn new(alloc: Global, line: &Line) -> Result<Sent, AllocError>
        ensures { IfOk result (λ sent. map (λ row. row.items) sent.read.items
            ≡ replicate (length line.now.centres) (replicate (length line.now.centres) 0)) }
    {
        Ok(Sent {
            handovers: Handovers::new(alloc, line)?,
            read: no_counts(alloc, line.centre_count() as usize)?,
        })
    }

    /// Reads the frames that a centre has sent since the last call.
    pub fn read_on(&mut self, line: &Line, centre: &Centre) {
        for to in 0..line.centre_count() {
            self.read_link(line, centre, to);
        }
    }

    fn read_link(&mut self, line: &Line, centre: &Centre, to: u8) {
        let from = centre.number();
        let Some(row) = self.read.get_mut(from as usize) else {
            return;
        };
        let Some(read) = row.get_mut(to as usize) else {
            return;
        };
        let first = *read;
        let last = centre.sent(to).min(first.saturating_add(MOST_READ));
        *read = last;
        for number in first..last {
            if let Some(frame) = centre.frame(to, number.saturating_add(1)) {
                self.handovers.hear(line, from, to, frame.body());
            }
        }
    }

    /// Adds to each mission the next handover that its supervisor has announced.
    pub fn add_handovers(&self, now: &mut LineNow) {
        for (train, mission) in now.missions.iter_mut().enumerate() {
            if let Some(mission) = mission {
                if let Some(supervisor) = mission.supervisor {
                    mission.handover = self.handovers.next_of(train, supervisor);
                }
            }
        }
    }
}

// Of each pair of centres the count 0.
fn no_counts(alloc: Global, centres: usize) -> Result<Vec<Vec<u32>>, AllocError>
    ensures { IfOk result (λ counts. map (λ row. row.items) counts.items
        ≡ replicate centres (replicate centres 0)) }
{
    let mut counts = Vec::new(alloc);
    for _ in 0..centres {
        let row = vec![in alloc; 0u32; centres]?;
        counts.push(row)?;
    }
    Ok(counts)
}
