ghost use Rattle.serve_line.specs.Admissions.{IsAdmission};

/// The longest sleep of a thread before it checks whether its connection has to leave, in milliseconds.
const MOST_SLEEP_MS: u64 = 100;

/// The outcome of a question whether a message may pass.
#[derive(Clone, Copy)]
pub(crate) enum Admission {
    /// The message passes.
    Pass,
    /// The connection has to leave its slot.
    Leave,
    /// The message waits for this time, in milliseconds. Then the bucket is asked again.
    Wait(u64),
}

/// The outcome, by the answer of the bucket.
pub(crate) fn admission_of(asked: Result<(), u64>, is_leaving: bool) -> Admission
    ensures { IsAdmission asked is_leaving result }
{
    match asked {
        Ok(()) => Admission::Pass,
        Err(_) if is_leaving => Admission::Leave,
        Err(wait) => Admission::Wait(wait.min(MOST_SLEEP_MS)),
    }
}
