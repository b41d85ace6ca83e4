ghost use Rattle.std.specs.Prelude.{◌≡◌, ◌≤◌, Some, None, IfSome};

/// The part of a run that is drawn. Events are numbered from 1.
#[derive(Clone, Copy)]
pub struct Cut {
    /// The first event that is drawn. Without it, the run's first event is drawn first.
    pub from: Option<u32>,
    /// The last event that is drawn. Without it, or if the run ends earlier, the run's last event is drawn last.
    pub to: Option<u32>,
    /// The NID_ENGINE of the only train that is drawn. Without it, all trains are drawn.
    pub train: Option<u32>,
}

impl Cut {
    /// The places of the first event that is drawn, and of the one after the last, in a run of `events` events. `None`
    /// if `from` is 0 or no event of the run, or if `to` is before it. A `to` past the run's last event is that event.
    pub fn places(self, events: usize) -> Option<(usize, usize)>
        ensures within { IfSome result (λ p. (p.0 ≤ p.1) × (p.1 ≤ events)) }
        ensures whole { self.from ≡ None → self.to ≡ None → result ≡ Some (0, events) }
    {
        let from = self.from.unwrap_or(1);
        let to = self.to.unwrap_or(u32::MAX);
        if from == 0 || to < from {
            return None;
        }
        let first = from.saturating_sub(1) as usize;
        if first >= events && self.from.is_some() {
            return None;
        }
        let after = match self.to {
            Some(to) => events.min(to as usize),
            None => events,
        };
        Some((first, after))
    }
}
