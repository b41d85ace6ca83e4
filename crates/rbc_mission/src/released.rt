ghost use Rattle.std.specs.Prelude.{◌≡◌, ◌≤◌, [], None, if◌then◌else◌};
ghost use Rattle.rbc_spec.specs.SectionRuns.{no_run, joined};
ghost use Rattle.rbc_line.specs.SectionRuns.{run_of};

use crate::held::HeldRight;
use rbc_allocation::Told;
use rbc_border::Border;
use rbc_handover::HandoverName;
use rbc_line::SectionRun;

/// The parts that leave a mission. `told` are the sections that were wished back and are shut now, in rising order;
/// they are reported to the interlocking. `right` is the right to supervise the train, if the mission has closed. It
/// can't be dropped: it has to be returned. `returned` is the run of sections that left, the hand before the pool, of
/// which those of other homes have to be returned. The last field is the name of the handover that has to be cancelled.
#[must_use]
#[derive(Debug)]
pub struct Released {
    pub told: Told,
    pub right: HeldRight,
    pub returned: SectionRun,
    pub cancelled: Option<HandoverName>,
}

impl Released {
    /// Nothing leaves.
    pub fn nothing() -> Released
        ensures told { result.told ≡ [] }
        ensures right { result.right ≡ HeldRight.Nothing }
        ensures returned { run_of result.returned ≡ no_run }
        ensures cancelled { result.cancelled ≡ None }
    {
        Released {
            told: Told::nothing(),
            right: HeldRight::Nothing,
            returned: SectionRun { first: 0, count: 0 },
            cancelled: None,
        }
    }
}

/// The run of these sections of a hand, with the pool after them unless it stays.
pub(crate) fn leaving(sections: SectionRun, border: &mut Border, stays: bool) -> SectionRun
    requires hand { sections.count ≤ 32 }
    requires pool { border.old.pool.count ≤ 31 }
    ensures run { run_of result ≡ (if stays then run_of sections else joined (run_of sections) border.old.pool) }
    ensures border { border.new ≡ (if stays then border.old else record border.old { pool = no_run }) }
{
    if stays {
        return sections;
    }
    let pool = border.return_all();
    if sections.is_empty() {
        return pool;
    }
    SectionRun {
        first: sections.first,
        count: sections.count + pool.count,
    }
}
