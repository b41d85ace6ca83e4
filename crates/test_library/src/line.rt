//! The line of the tests, and the messages of its trains and centres. `running` has a line of its own.

ghost use Rattle.std.specs.Prelude.{◌≤◌, length, IfOk};

use rbc_line::Line;
use std::alloc::Global;

/// The line file of two centres: sections 0 and 1 of centre A, and then section 2 of centre B. Train 1 is registered at
/// A, train 2 at B.
pub static TWO_CENTRES: &str = "nid_c = 5
[[centre]]
name = \"A\"
nid_rbc = 1
[[centre]]
name = \"B\"
nid_rbc = 2
[[track]]
name = \"main\"
section = [
  { length = 1000, home = \"A\", balise = 100 },
  { length = 1200, home = \"A\", balise = 101 },
  { length = 1000, home = \"B\", balise = 102 },
]
[[train]]
engine = 1
registrar = \"A\"
[[train]]
engine = 2
registrar = \"B\"
";

/// The number of centre A.
pub const A: u8 = 0;

/// The number of centre B.
pub const B: u8 = 1;

/// Train 1 opens its session: ten bytes.
pub const INITIATION: &str = "9B028000000040000040";

/// It establishes its session with T_TRAIN 2.
pub const ESTABLISHED: &str = "9F028000000080000040";

/// The centre answers with its version.
pub const VERSION: &str = "2002C00000005FFFFFE800";

/// It acknowledges train 2's mission.
pub const ACCEPTED: &str = "2902800000009FFFFFE0";

/// With section 1 set, a train that centre B registers opens a session at centre A and starts its mission there.
pub static START: [&str; 3] = [
    "9B028000000040000080",
    "9F028000000080000080",
    "9D0680000000C00000900040A0280CA096140050014406400418",
];

/// The line of a line file that is accepted.
pub fn line_of(alloc: Global, file: &str) -> Result<Line, &'static str>
    ensures { IfOk result (λ line. 2 ≤ length line.centres) }
{
    Line::from_toml(alloc, file)
        .ok()
        .ok_or("the line file is accepted")
}
