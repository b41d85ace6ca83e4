//! Tests of properties that no clause states: over values in memory, over threads, files and loopback. They are of
//! bytes (`codec`), of the pages of a line (`page`), and of centres with their nodes and logs (`centres`). Workers of a
//! link are tested in `workers`, and connections in `serving`. Running centres are tested over loopback in `running`,
//! with the files of their journals, the socket of the interlocking, `drive` and `tell`. The bytes of journals are
//! tested in `journal`. The examples of first pages are tests in `examples`, `journal` and `serving`. Printed texts are
//! data of `test_program`.
//!
//! Expected values come from the standard or from the written rules, never from the program's own output.
#![tactic(auto)]

#[cfg(test)]
mod centres;
#[cfg(test)]
mod codec;
#[cfg(test)]
mod examples;
#[cfg(test)]
mod journal;
pub mod line;
#[cfg(test)]
mod nodes;
#[cfg(test)]
mod page;
#[cfg(test)]
mod running;
#[cfg(test)]
mod serving;
#[cfg(test)]
mod workers;
