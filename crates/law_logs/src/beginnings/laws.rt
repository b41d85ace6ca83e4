//! Laws of the beginnings of logs.

ghost use Rattle.law_logs.specs.Beginnings.Beginnings.{BeginningsTheorem, SameLogTheorem, WrittenFirstTheorem};

/// The logs of a line may be cut anywhere; each first part replays its centre. Suppose that each delivered frame is in
/// the first part of its sender's log. Then every merge of the first parts by stamp and centre is one run of the world.
pub fn beginnings_are_logs()
    ensures { BeginningsTheorem }
{}

/// A centre takes the first events of a log again, from its initial state. Its log is then the first part of that log.
pub fn one_log_of_the_events()
    ensures { SameLogTheorem }
{}

/// Entries of all centres are written in order, each after the entry that sent its frame. After any number of them,
/// each delivered frame is in the written part of its sender's log.
pub fn what_is_written_first_is_there()
    ensures { WrittenFirstTheorem }
{}
