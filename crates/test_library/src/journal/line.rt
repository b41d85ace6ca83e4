//! The line of the tests, and a journal of its centre B.

/// The line file: centre A with section 0, and centre B with section 1.
pub static FILE: &str = "nid_c = 5
[[centre]]
name = \"A\"
nid_rbc = 1
[[centre]]
name = \"B\"
nid_rbc = 2
[[track]]
name = \"main\"
section = [
  { length = 1000, home = \"A\", balise = 100 },
  { length = 1000, home = \"B\", balise = 101 },
]
[[train]]
engine = 1
registrar = \"A\"
";

/// The first line of the journal of B, of version 2: its digest is that of the values of the line.
pub const FIRST: &str =
    "journal 2 B c8c7010c54c6bcdebb164494cef02f19a321e54b556d9660c7b49c71216f517b";

/// The same of version 1: its digest is that of the line file.
pub const OLD_FIRST: &str =
    "journal 1 B ba35c55526b8ee737edcb0f3cc29d5304c156d9964d7e8ca30cc4d3f91642eea";

/// Three lines after one of them: the time of the second is below that of the first, and the third has none.
pub const ENTRIES: &str = "
2713c6e9 1 1767225600000 > set B 1
41e121de 7 1767225599999 > deliver A B 1
5000362a 8 > train B 9B028000000040000040
";
