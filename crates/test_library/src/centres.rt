//! Tests of threads at a node, and of nodes whose logs are gathered and merged.

mod gather;
mod held;
mod node;
