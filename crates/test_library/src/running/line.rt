//! The line of the tests.

use crate::running::client::{Done, Missed};
use std::alloc::Global;

/// The line file of three centres: sections 0 and 1 of centre A, then section 2 of centre B, and section 3 of centre C.
/// Train 1 is registered at A, train 2 at C.
pub static THREE_CENTRES: &str = "nid_c = 5
[[centre]]
name = \"A\"
nid_rbc = 1
[[centre]]
name = \"B\"
nid_rbc = 2
[[centre]]
name = \"C\"
nid_rbc = 3
[[track]]
name = \"main\"
section = [
  { length = 1000, home = \"A\", balise = 100 },
  { length = 1000, home = \"A\", balise = 101 },
  { length = 1000, home = \"B\", balise = 102 },
  { length = 1000, home = \"C\", balise = 103 },
]
[[train]]
engine = 1
registrar = \"A\"
[[train]]
engine = 2
registrar = \"C\"
";

/// The number of the control endpoint.
pub const CONTROL: usize = 3;

// The first five of the ten bytes by which train 1 opens its session.
pub const HALF_AN_INITIATION: &str = "9B02800000";

// Train 1 opens its session, starts its mission in section 0, and gives its train data: messages 155, 159, 157 and 129.
// The centre answers with 11, 10 and 14 bytes.
pub const MISSION_OF_ONE: &str =
    "9B0280000000400000409F0280000000800000409D0680000000C00000500040A0280C809614005001440640041881074000000100000040010280A03202585001400510190010616018A0";

// After that it asks for its authority, message 132. The answer has 18 bytes.
pub const REQUEST_OF_ONE: &str = "8406800000014000004200081405019012C2800A002880C80083";

/// The bytes of these hexadecimal digits.
pub fn bytes_of(alloc: Global, digits: &str) -> Done<Vec<u8>> {
    hex::decode(alloc, digits).ok().ok_or(Missed::Digits)
}
