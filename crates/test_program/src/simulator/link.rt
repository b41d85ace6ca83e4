//! The two threads of a link.

use crate::simulator::run::Run;
use crate::simulator::site::Site;
use crate::simulator::worker::Worker;
use rbc_centre::{Event, Frame};
use serve_workers::{InOrder, Order};

/// The link from one centre to another.
#[derive(Drop)]
pub struct Link {
    pub from: u8,
    pub to: u8,
    /// The receiving thread.
    pub worker: Worker,
    order: InOrder,
    // The frame that is on the link.
    frame: Option<Frame>,
    /// The number of a frame that it gives before the next.
    pub stray: Option<u32>,
}

impl Link {
    /// The link from a centre to another, without the frames that this has taken.
    pub fn new(to: &Site, from: u8) -> Link {
        Link {
            from,
            to: to.own.number,
            worker: Worker::new(to.own.new_share()),
            order: InOrder::after(to.own.log.core().taken(from)),
            frame: None,
            stray: None,
        }
    }

    /// It gives a drawn frame before the next: one that it has given, or the one after the next.
    pub fn stray(&mut self, run: &Run) {
        let next = self.order.number();
        let number = run.some_below(next);
        let early = next.saturating_add(1);
        self.stray = Some(if number == 0 { early } else { number });
    }

    /// Puts the next frame on the link, once the journal has its event.
    pub fn send(&mut self, from: &Site) -> bool {
        let number = self.stray.unwrap_or(self.order.number());
        let reach = &from.journal.reach;
        if self.frame.is_none()
            && !reach.is_closed
            && let Some(frame) = from.own.log.frame(self.to, number)
            && reach.kept.shows(self.from, reach.awaited(frame.stamp()))
        {
            self.frame = Some(frame);
            self.stray = None;
            return true;
        }
        false
    }

    /// Takes the next frame off the link, and commits it.
    pub fn receive(&mut self, to: &mut Site) -> bool {
        let Some(frame) = self.frame.take() else {
            return false;
        };
        let is_next = frame.number() == self.order.number();
        let from = self.from;
        let event = Event::Deliver { from, frame };
        let answer = self.worker.share.commit(&mut to.own.log, event);
        self.order.go_on(is_next && answer.is_ok());
        true
    }

    /// Whether an answer or a frame is on its way. A journal that was given up gives no frame.
    pub fn is_busy(&self, from: &Site) -> bool {
        let next = from.own.log.frame(self.to, self.order.number());
        !self.worker.is_idle()
            || self.frame.is_some()
            || next.is_some() && !from.journal.reach.is_closed
    }
}
