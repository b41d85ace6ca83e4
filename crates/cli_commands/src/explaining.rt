//! Finds all faults of a line file, the lowest first. `LineText` always agrees with `rbc_line`, which refuses the
//! file; `cli_commands::inspecting` finds the cases.
//!
//! Bodies are free. docs/FORMATS.md fixes the printed text and each exit status.

mod order;
mod text;

pub use text::LineText;
