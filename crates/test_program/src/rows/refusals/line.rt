//! The line, and its train's messages.

ghost use Rattle.std.specs.Prelude.{◌≤◌, length, IfOk};

use rbc_line::{Line, LineFault};
use std::alloc::Global;

const TWO_CENTRES: &str = "nid_c = 5
[[centre]]
name = \"A\"
nid_rbc = 1
[[centre]]
name = \"B\"
nid_rbc = 2
[[track]]
name = \"main\"
section = [
  { length = 1000, home = \"A\", balise = 100 },
  { length = 1200, home = \"A\", balise = 101 },
  { length = 1000, home = \"B\", balise = 102 },
]
[[train]]
engine = 2
registrar = \"B\"
";

pub const A: u8 = 0;

pub const B: u8 = 1;

/// The train opens its session at A, confirms it, and starts its mission in section 1.
pub static START: [u8; 46] = [
    0x9B, 0x02, 0x80, 0x00, 0x00, 0x00, 0x40, 0x00, 0x00, 0x80, 0x9F, 0x02, 0x80, 0x00, 0x00, 0x00,
    0x80, 0x00, 0x00, 0x80, 0x9D, 0x06, 0x80, 0x00, 0x00, 0x00, 0xC0, 0x00, 0x00, 0x90, 0x00, 0x40,
    0xA0, 0x28, 0x0C, 0xA0, 0x96, 0x14, 0x00, 0x50, 0x01, 0x44, 0x06, 0x40, 0x04, 0x18,
];

/// The index at which each of its messages begins, and the end of the last one.
pub static BEGINS: [usize; 4] = [0, 10, 20, 46];

/// Sections 0 and 1 of centre A, and then section 2 of centre B, which registers the train.
pub fn two_centres(alloc: Global) -> Result<Line, LineFault>
    ensures { IfOk result (λ line. 2 ≤ length line.centres) }
{
    let Ok(line) = Line::from_toml(alloc, TWO_CENTRES) else {
        return Line::from_toml(alloc, TWO_CENTRES);
    };
    Ok(line)
}
