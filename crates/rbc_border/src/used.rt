ghost use Rattle.std.specs.Prelude.{◌≡◌, ℕ};
ghost use Rattle.rbc_spec.specs.Centre as spec;
ghost use Rattle.rbc_border.specs.Lending.{HasBook};

use rbc_book::Book;
use rbc_line::Line;

/// Whether some home section is in use for the train, here or at another centre. While one is, the train gets no order
/// to end its session with this centre (3.5.5).
pub fn uses_some(line: &Line, book: &Book, nid_engine: u32) -> bool
    ensures { (c : ℕ) (k : spec.Centre) → HasBook line.now c k book.now
        → result ≡ spec.uses_some line.now c k nid_engine }
{
    book.section_in_use(nid_engine).is_some()
}
