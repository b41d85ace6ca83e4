//! The law of crashes.

ghost use Rattle.law_crash.specs.Crashes.{CrashTheorem, CrashesTheorem};

/// A program writes each event to its centre's journal before it sends a part of the outcome out. After a crash the
/// centres take the events of their journals again. Their logs then begin with all entries that were sent out, with the
/// same outcomes. By all messages before the crash and after it, no two trains may run over one section. None may run
/// over a section that the interlocking has not released, or has taken back. So it is after any number of crashes.
pub fn a_crash_loses_nothing_that_was_told()
    ensures once { CrashTheorem }
    ensures again { CrashesTheorem }
{}
