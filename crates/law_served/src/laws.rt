//! The laws of the bytes that running centres read and write.

ghost use Rattle.law_served.specs.Served.{ReadTheorem, WrittenTheorem};

/// Let the logs of the centres be gathered with the shares of all works. Then the log of a centre has each whole
/// message that a session there read, up to the session's first fault or refusal. It has them in the order of the
/// bytes. Each event of a log came in: over a connection, from the interlocking, over a link, or from a journal. By all
/// messages of the logs, and by each part of them that arrives, no two trains may run over one section.
pub fn what_is_read_is_in_the_logs()
    ensures { ReadTheorem }
{}

/// Let a connection serve a train from the answer (32) to its initiation on. Let each submitted reply be a message of
/// the centre's log to the train. Let the written bytes spell the replies that are released while it serves. Then they
/// spell a beginning of the log's messages to the train from that answer on. None of these is left out or written
/// twice.
pub fn what_is_written_is_of_the_log()
    ensures { WrittenTheorem }
{}
