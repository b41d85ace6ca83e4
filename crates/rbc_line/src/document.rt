//! From the text of a line file to the line.
ghost use Rattle.std.specs.Prelude.{◌≡◌, ◌≢◌, length, IfOk, IfErr, MatchOption};
ghost use Rattle.toml.specs.View.{table_view};
ghost use Rattle.rbc_spec.specs.Line.{IsLine};
ghost use Rattle.rbc_line.specs.DraftViews.{file_view};
ghost use Rattle.rbc_line.specs.Faults.{Applies, AppliesToFile, AppliesToTables, HasNoneBelow, IsLowest, Names};
ghost use Rattle.rbc_line.specs.LineFile.{line_file, line_of};
ghost use Rattle.rbc_line.specs.declared.fault.LineFault.{LineFault};
ghost use Rattle.rbc_line.specs.Tested.{Ascends};

use crate::build::rows_of;
use crate::draft::Draft;
use crate::fault::LineFault;
use crate::homes::has_split_home;
use crate::layout::Line;
use crate::lowest::lowest_fault;
use crate::read::read_draft;
use std::alloc::Global;
use toml::Table;

/// The line of a draft to which at most the last fault applies.
fn line_of_tested(alloc: Global, draft: &Draft) -> Result<Line, LineFault>
    requires order { Ascends 0 (length (file_view draft.now).tracks.names) (file_view draft.now).tracks.sections }
    requires none { HasNoneBelow (AppliesToFile (file_view draft.now)) 12 }
    ensures ok { IfOk result (λ line. line ≡ line_of (file_view draft.now)) }
    ensures sound { IfOk result (λ _. (fault : LineFault) → ¬ AppliesToFile (file_view draft.now) fault) }
    ensures line { IfOk result IsLine }
    ensures fault { IfErr result
        (λ f. f ≢ LineFault.Memory → IsLowest (AppliesToFile (file_view draft.now)) f) }
{
    let rows = rows_of(alloc, draft)?;
    if has_split_home(&rows.sections) {
        return Err(LineFault::Order);
    }
    let line = Line::with_tables(alloc, rows)?;
    Ok(line)
}

fn line_of_draft(alloc: Global, draft: &Draft) -> Result<Line, LineFault>
    requires { Ascends 0 (length (file_view draft.now).tracks.names) (file_view draft.now).tracks.sections }
    ensures ok { IfOk result (λ line. line ≡ line_of (file_view draft.now)) }
    ensures sound { IfOk result (λ _. (fault : LineFault) → ¬ AppliesToFile (file_view draft.now) fault) }
    ensures line { IfOk result IsLine }
    ensures fault { IfErr result
        (λ f. f ≢ LineFault.Memory → IsLowest (AppliesToFile (file_view draft.now)) f) }
{
    match lowest_fault(alloc, draft)? {
        Some(fault) => Err(fault),
        None => line_of_tested(alloc, draft),
    }
}

impl Line {
    /// Reads a line file. If no fault applies to the text, the result is the line of its tables, and else the lowest
    /// fault that applies. If an allocation is refused, the result is `Memory`.
    pub fn from_toml(alloc: Global, text: &str) -> Result<Line, LineFault>
        ensures ok { IfOk result (λ line. Names text.now line) }
        ensures line { IfOk result IsLine }
        ensures fault { IfErr result (λ f. f ≢ LineFault.Memory → IsLowest (Applies text.now) f) }
    {
        let table = match toml::table_from_str(alloc, text) {
            Ok(table) => table,
            Err(error) => {
                if error.is_memory() {
                    return Err(LineFault::Memory);
                }
                return Err(LineFault::Text);
            }
        };
        let line = Line::from_table(alloc, &table)?;
        Ok(line)
    }

    /// Reads the tables of a line file. If no fault applies to them, the result is their line, and else the lowest
    /// fault that applies. If an allocation is refused, the result is `Memory`.
    pub fn from_table(alloc: Global, table: &Table) -> Result<Line, LineFault>
        ensures named { IfOk result
            (λ line. MatchOption (line_file (table_view table.now)) ⊥ (λ file. line ≡ line_of file)) }
        ensures sound { IfOk result (λ _. (fault : LineFault) → ¬ AppliesToTables (table_view table.now) fault) }
        ensures line { IfOk result IsLine }
        ensures fault { IfErr result
            (λ f. f ≢ LineFault.Memory → IsLowest (AppliesToTables (table_view table.now)) f) }
    {
        let Some(draft) = read_draft(alloc, table)? else {
            return Err(LineFault::Shape);
        };
        let line = line_of_draft(alloc, &draft)?;
        Ok(line)
    }
}
