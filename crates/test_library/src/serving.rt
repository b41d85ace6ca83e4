//! Tests of the parts that serve a connection: its session and its shared writer, over bytes in memory, and its end.
//! Tests of the lines of notes.

mod ended;
mod notes;
mod replies;
mod sessions;
