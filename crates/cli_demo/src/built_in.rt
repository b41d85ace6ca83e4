/// The line of a demo without a line file: three centres, one track of 12 km, and three trains.
pub const BUILT_IN: &str = "nid_c = 5
[[centre]]
name = \"A\"
nid_rbc = 1
[[centre]]
name = \"B\"
nid_rbc = 2
[[centre]]
name = \"C\"
nid_rbc = 3
[[track]]
name = \"main\"
section = [
  { length = 1000, home = \"A\", balise = 100 },
  { length = 1000, home = \"A\", balise = 101 },
  { length = 1000, home = \"A\", balise = 102 },
  { length = 1000, home = \"A\", balise = 103 },
  { length = 1000, home = \"B\", balise = 104 },
  { length = 1000, home = \"B\", balise = 105 },
  { length = 1000, home = \"B\", balise = 106 },
  { length = 1000, home = \"B\", balise = 107 },
  { length = 1000, home = \"C\", balise = 108 },
  { length = 1000, home = \"C\", balise = 109 },
  { length = 1000, home = \"C\", balise = 110 },
  { length = 1000, home = \"C\", balise = 111 },
]
[[train]]
engine = 1
registrar = \"A\"
[[train]]
engine = 2
registrar = \"A\"
[[train]]
engine = 3
registrar = \"B\"
";
