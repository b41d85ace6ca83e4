//! The looks of the diagram: a class for each kind of mark, and two for each train, for its colour and its dashes.

ghost use Rattle.std.specs.Prelude.{◌≡◌, ◌%◌, ◌/◌};

/// The style sheet.
pub const STYLE: &str = ".bar{fill:currentColor;fill-opacity:.3;stroke:currentColor}
.kept{fill-opacity:.07;stroke-dasharray:2 3}
.wished{stroke:#111;stroke-width:2}
.wait{fill:none;stroke:currentColor;stroke-width:2;stroke-dasharray:2 2}
.way{fill:#111;fill-opacity:.5;stroke:#111;stroke-width:3;stroke-dasharray:3 2}
.seat circle{fill:#fff;stroke:currentColor;stroke-width:2}
.old circle{stroke-dasharray:2 2}
.way.old{fill:none;stroke-width:2}
.seat text,.name{font-size:11px;font-weight:bold;fill:currentColor;stroke:#fff;stroke-width:3px;paint-order:stroke}
.front{fill:none;stroke:currentColor;stroke-width:2;stroke-linejoin:round}
.band{fill:none;stroke:currentColor;stroke-width:6;stroke-opacity:.8}
.sign{fill:currentColor;stroke:currentColor;stroke-width:1.5}
.hollow{fill:#fff}
.cut{fill:none;stroke:currentColor;stroke-width:1.5;stroke-dasharray:4 3}
.even{fill:#fff}
.odd{fill:#f1f4f8}
.section{stroke:#cfd5dc}
.border{stroke:#333;stroke-width:2;stroke-dasharray:10 5}
.event{stroke:#e4e8ed}
text{fill:#222}
.small{font-size:11px;fill:#555}
.silent{fill:#666;font-style:italic}
.c0{color:#1f6fb4}.c1{color:#ab4f00}.c2{color:#1f7a29}.c3{color:#c8282d}
.c4{color:#7d4fb3}.c5{color:#8a5a3c}.c6{color:#b3317a}.c7{color:#08747d}
.d1{stroke-dasharray:8 3}.d2{stroke-dasharray:3 3}.d3{stroke-dasharray:10 3 2 3}.d4{stroke-dasharray:1 3}
.d5{stroke-dasharray:14 4}.d6{stroke-dasharray:6 2 2 2}.d7{stroke-dasharray:2 6}
";

/// The colour of a train, one of eight.
pub fn colour_of(train: u8) -> u8
    ensures { result ≡ train % 8 }
{
    train % 8
}

/// The dashes of a train, one of eight. Trains of one colour differ in their dashes.
pub fn dashes_of(train: u8) -> u8
    ensures { result ≡ train / 8 % 8 }
{
    train / 8 % 8
}
