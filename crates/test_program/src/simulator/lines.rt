//! The lines of runs: a seed draws one of them.

/// Three centres on one track with three trains, and two centres on two tracks with four trains.
pub static LINES: [&str; 2] = [
    "nid_c = 5
centre = [{ name = \"A\", nid_rbc = 1 }, { name = \"B\", nid_rbc = 2 }, { name = \"C\", nid_rbc = 3 }]
train = [{ engine = 1, registrar = \"C\" }, { engine = 2, registrar = \"A\" }, { engine = 3, registrar = \"B\" }]
[[track]]
name = \"main\"
section = [
  { length = 400, home = \"A\", balise = 100 },
  { length = 400, home = \"A\", balise = 101 },
  { length = 400, home = \"B\", balise = 102 },
  { length = 400, home = \"B\", balise = 103 },
  { length = 400, home = \"C\", balise = 104 },
  { length = 400, home = \"C\", balise = 105 },
]
",
    "nid_c = 5
centre = [{ name = \"A\", nid_rbc = 1 }, { name = \"B\", nid_rbc = 2 }]
train = [{ engine = 1, registrar = \"A\" }, { engine = 2, registrar = \"B\" }, { engine = 3, registrar = \"A\" },
  { engine = 4, registrar = \"A\" }]
[[track]]
name = \"main\"
section = [{ length = 400, home = \"A\", balise = 100 }, { length = 400, home = \"B\", balise = 101 }]
[[track]]
name = \"loop\"
section = [{ length = 400, home = \"A\", balise = 102 }, { length = 400, home = \"B\", balise = 103 }]
",
];
