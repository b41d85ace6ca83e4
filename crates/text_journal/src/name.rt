ghost use Rattle.std.specs.Prelude.{◌≡◌, ◌++◌, IfOk, codes, string_bytes};
ghost use Rattle.text_script.specs.Print.Rows.{name_at};

use rbc_line::Line;
use std::alloc::{AllocError, Global};
use text_script::print::name_of;

/// The name of the file with the journal of a centre.
pub fn file_name(alloc: Global, line: &Line, centre: u8) -> Result<String, AllocError>
    ensures { IfOk result (λ name. string_bytes name ≡ name_at line.now centre ++ codes ".journal") }
{
    let name = name_of(line, centre);
    format!(in alloc; "{name}.journal")
}
