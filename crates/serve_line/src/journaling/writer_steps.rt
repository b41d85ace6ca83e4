ghost use Rattle.serve_line.specs.WriterSteps.{IsWriterStep};

/// The next step of the thread that writes a journal.
#[derive(Clone, Copy)]
pub(crate) enum WriterStep {
    /// All events are in the journal, and no further one is committed.
    Done,
    /// All events so far are in the journal.
    Rest,
    /// This many events were written, and more may wait.
    Go(usize),
    /// The journal can't be written now.
    Retry,
    /// The journal can't be written, and is given up.
    GiveUp,
}

/// The next step after a write of this many events; `None` if the write failed. `is_over`: before the write nothing
/// more was committed.
pub(crate) fn step_after(written: Option<usize>, is_over: bool, is_stopped: bool) -> WriterStep
    ensures { IsWriterStep written is_over is_stopped result }
{
    match written {
        Some(count) if count > 0 => WriterStep::Go(count),
        Some(_) if is_over => WriterStep::Done,
        Some(_) => WriterStep::Rest,
        None if is_stopped => WriterStep::GiveUp,
        None => WriterStep::Retry,
    }
}
