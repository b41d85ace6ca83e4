ghost use Rattle.std.specs.Prelude.{◌≡◌, IfOk};
ghost use Rattle.text_replay.specs.Noted.{stretches_to};

use crate::changes::Change;
use std::alloc::{AllocError, Global};
use text_script::SectionView;

/// Consecutive events in which a section is seen as the same, by the first event and the one after the last.
#[derive(Clone, Copy)]
pub struct Stretch {
    pub seen: SectionView,
    pub since: usize,
    pub until: usize,
}

/// The stretch of each change, up to the next change. The last one is up to the last event; `events` is their number.
pub(crate) fn stretches_to(
    alloc: Global,
    changes: &[Change],
    events: usize,
) -> Result<Vec<Stretch>, AllocError>
    ensures { IfOk result (λ stretches. stretches.items ≡ stretches_to events changes.now) }
{
    let mut stretches = Vec::new(alloc);
    for i in 0..changes.len() {
        let until = match changes.get(i + 1) {
            Some(next) => next.since,
            None => events,
        };
        stretches.push(Stretch {
            seen: changes[i].seen,
            since: changes[i].since,
            until,
        })?;
    }
    Ok(stretches)
}
