//! A field of a message, as a protocol analyser shows it.

use std::fmt;
use std::fmt::Formatter;

/// The meaning of a value.
#[derive(Clone, Copy)]
pub enum Meaning {
    /// Only the number.
    Number,
    Words(&'static str),
    /// A message's name, and its sender.
    Message {
        name: &'static str,
        from: &'static str,
    },
    /// A count of a unit.
    Count {
        count: u64,
        unit: &'static str,
    },
    /// A distance in decimetres.
    Decimetres(u64),
    /// A balise group: NID_C and NID_BG.
    Group {
        nid_c: u64,
        nid_bg: u64,
    },
    /// This many bits.
    Bits(u32),
}

/// A variable of a message: its standard name, its value, and the meaning of that value.
#[derive(Clone, Copy)]
pub struct Field {
    /// Whether it belongs to a packet.
    pub is_in_packet: bool,
    pub name: &'static str,
    pub value: u64,
    pub meaning: Meaning,
}

impl fmt::Display for Field {
    fn fmt<W: fmt::Write>(&self, f: &mut Formatter<W>) -> fmt::Result {
        let inset = if self.is_in_packet { "  " } else { "" };
        let name = self.name;
        let value = self.value;
        write!(f, "{inset}{name:<16}{value:>10}")?;
        write_meaning(f, value, self.meaning)
    }
}

fn write_meaning<W: fmt::Write>(f: &mut Formatter<W>, value: u64, meaning: Meaning) -> fmt::Result {
    match meaning {
        Meaning::Number => Ok(()),
        Meaning::Words(words) => write!(f, "  {words}"),
        Meaning::Message { name, from } => write!(f, "  {name}, from a {from}"),
        Meaning::Count { count, unit } => write!(f, "  {count} {unit}"),
        Meaning::Decimetres(count) => write!(f, "  {}.{} m", count / 10, count % 10),
        Meaning::Group { nid_c, nid_bg } => write!(f, "  group {nid_bg} of NID_C {nid_c}"),
        Meaning::Bits(count) => write_bits(f, value, count),
    }
}

/// Writes the lowest `count` bits of a value, the highest first.
fn write_bits<W: fmt::Write>(f: &mut Formatter<W>, value: u64, count: u32) -> fmt::Result {
    f.write_str("  ")?;
    for at in (0..count).rev() {
        let is_set = value.checked_shr(at).unwrap_or(0) % 2 == 1;
        f.write_str(if is_set { "1" } else { "0" })?;
    }
    Ok(())
}
