ghost use Rattle.std.specs.Prelude.{◌≡◌, IfOk, IfErr, Some, None};
ghost use Rattle.std.specs.List.Sorted.{IsNonDecreasingBy};
ghost use Rattle.toml.specs.Errors.{IsMemory};
ghost use Rattle.toml.specs.Parse.{parse_document};
ghost use Rattle.toml.specs.View.{table_view};
ghost use Rattle.cli_commands.specs.Explaining.Lowest.{Explains, fault_number};

use crate::explaining::order::cases_from;
use crate::inspecting::Finding;
use rbc_line::{Line, LineFault};
use std::alloc::{AllocError, Global};
use toml::Table;
use toml::de::Error;

/// A text that is valid TOML. As a line file it may be wrong.
#[derive(Drop)]
pub struct LineText {
    table: Table,
}

impl LineText {
    /// Reads a text. The error gives the place where the text is not TOML, or says that memory ran out.
    pub fn new(alloc: Global, text: &str) -> Result<LineText, Error>
        ensures text { IfOk result (λ t. parse_document text.now ≡ Some (table_view t.table)) }
        ensures refused { IfErr result (λ e. ¬ IsMemory e → parse_document text.now ≡ None) }
    {
        let table = toml::table_from_str(alloc, text)?;
        Ok(LineText { table })
    }

    /// Finds all faults of the text as a line file: the lowest fault first, and each fault's cases in the order of
    /// the file. A value that is missing or of another type is not tested further.
    pub fn findings(&self, alloc: Global) -> Result<Vec<Finding<'_>>, AllocError>
        ensures lowest { IfOk result (λ v. Explains (table_view self.now.table) v.items) }
        ensures order { IfOk result (λ v. IsNonDecreasingBy fault_number v.items) }
    {
        match Line::from_table(alloc, &self.table) {
            Ok(_) => Ok(Vec::new(alloc)),
            Err(LineFault::Memory) => Err(AllocError),
            Err(fault) => cases_from(alloc, fault, &self.table),
        }
    }
}
