use crate::rerunning::place::Place;
use text_script::StepFault;
use text_script::status::PrintFault;

/// Why the print of journals is not complete.
#[derive(Clone, Copy)]
pub enum RerunFault {
    /// The entries are not a run of the line: the place of the first unfit one. Nothing is written.
    Unfit(Place),
    /// The step of an event is refused.
    Refused(StepFault),
    /// The writer refused a write, or memory ran out.
    Untold(PrintFault),
}
