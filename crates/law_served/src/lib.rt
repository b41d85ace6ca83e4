//! The bytes that running centres read and write over the connections of trains. Each event of the centres' logs came
//! in over a connection or a link, or from a journal. All whole messages that were read are in the logs. The bytes to a
//! train spell a beginning of the messages that its centre's log has for it. All of it keeps the promise to the
//! outside.
//!
//! `specs/Served.antt` has the premises. They are clauses of the parts of a running centre: `run_session`, `Committer`,
//! `receive_frames`, `gather`, `run_writer` and the calls of a `Lane`. Its two theorems put them together.
//!
//! No code. The statements of `laws.rt` have to stay; their proofs may change. That the threads of a program call these
//! parts, each with its own connection, is tested, and not proved.
#![tactic(auto)]

mod laws;

pub use laws::{what_is_read_is_in_the_logs, what_is_written_is_of_the_log};
