//! Tests of the workers of a link, over carriers in memory, and of a log that is full. They are of the frames that the
//! workers put and commit, in any order that is asked for. Carriers are tested in `codec`, running centres in
//! `running`.
//!
//! Expected values come from the standard or from the written rules, never from the program's own output.
mod carrying;
mod full_log;
pub mod narrow;
pub mod unruly;
