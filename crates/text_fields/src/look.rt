//! The bits of a message: those that are shown, and those that are not yet.

ghost use Rattle.std.specs.Prelude.{◌≡◌, ◌+◌, ◌^◌, ◌<◌, ◌≤◌, ◌++◌, ◌∷◌, [], length, All, IfOk, OnOk, MatchOption};
ghost use Rattle.rbc_bits.specs.Bits.{field, bits_of};
ghost use Rattle.text_fields.specs.Shown.{bits_shown, all_bits, packet_of, Fits};
ghost use Rattle.text_fields.specs.Senses.{HaveSenses, IsKindOf, last_scale, scale_after};

use crate::kind::Kind;
use crate::layout::Field;
use crate::shown::Shown;
use rbc_bits::BitReader;
use std::alloc::{AllocError, Global};
use std::marker::Model;

/// The fields shown so far, and the bits after them.
#[derive(Drop)]
pub(crate) struct Look<'a> {
    shown: Vec<Shown>,
    left: BitReader<'a>,
    /// Q_SCALE of the packet that is shown, or 0.
    scale: u64,
}

impl<'a> Model for Look<'a> {
    ghost use Rattle.std.specs.Prelude.{Bool, List};
    ghost use Rattle.text_fields.specs.Looked.{IsLooked};
    ghost use Rattle.text_fields.specs.declared.shown.Shown.{Shown};

    ghost Value = { List Shown × List Bool };

    ghost view = { λ l. (l.shown.items, l.left) };

    ghost invariant = { λ l. IsLooked l.shown.items l.scale };
}

impl<'a> Look<'a> {
    /// No field is shown yet.
    pub fn new(alloc: Global, bytes: &'a [u8]) -> Look<'a>
        requires { length bytes.now ≤ 2 ^ 28 }
        ensures { result ≡ ([], bits_of bytes.now) }
    {
        Look {
            shown: Vec::new(alloc),
            left: BitReader::new(bytes),
            scale: 0,
        }
    }

    /// How many bits are left.
    pub fn left(&self) -> u32
        ensures { result ≡ length self.now.1 }
    {
        self.left.remaining()
    }

    /// How many fields are shown.
    pub fn count(&self) -> usize
        ensures { result ≡ length self.now.0 }
    {
        self.shown.len()
    }

    /// Shows the next bits as this field, if as many are left. It returns their value.
    pub fn take(
        &mut self,
        entry: Field,
        width: u32,
        packet: Option<u64>,
    ) -> Result<Option<u64>, AllocError>
        requires width { width ≤ 64 }
        requires kind { IsKindOf entry.name.now entry.kind }
        ensures bits { OnOk result (all_bits self.new ≡ all_bits self.old) }
        ensures there { OnOk result (width ≤ length self.old.1 → length self.old.1 ≡ width + length self.new.1) }
        // Its value is that of exactly the next bits, the highest first, and it is shown after the others.
        ensures shown { IfOk result (λ found. MatchOption found
            ((length self.old.1 < width) × (self.new ≡ self.old))
            (λ v. (self.old.1 ≡ field width v ++ self.new.1) × (v < 2 ^ width)
            × (self.new.0 ≡ self.old.0 ++ record {
              field = entry;
              width = width;
              value = v;
              packet = packet_of entry.kind packet v;
              scale = last_scale 0 self.old.0;
            } ∷ []))) }
    {
        match self.left.take(width) {
            Ok(value) => {
                self.shown.push(Shown {
                    field: entry,
                    width,
                    value,
                    packet: packet_of(entry.kind, packet, value),
                    scale: self.scale,
                })?;
                self.scale = scale_after(entry.name, value, self.scale);
                Ok(Some(value))
            }
            Err(_) => Ok(None),
        }
    }

    /// The shown fields, with the bits that are left as this field.
    pub fn finish(self, unread: Field) -> Result<Vec<Shown>, AllocError>
        requires { IsKindOf unread.name.now unread.kind }
        ensures bits { IfOk result (λ shown. bits_shown shown.items ≡ all_bits self.entry) }
        ensures fits { IfOk result (λ shown. All Fits shown.items) }
        ensures senses { IfOk result (λ shown. HaveSenses 0 shown.items) }
        ensures none { self.entry.1 ≡ [] → IfOk result (λ shown. shown.items ≡ self.entry.0) }
    {
        let mut look = self;
        while look.left() > 0 {
            let width = look.left().min(64);
            look.take(unread, width, None)?;
        }
        Ok(look.shown)
    }
}

// The packet of a field with this value: NID_PACKET begins a packet.
fn packet_of(kind: Kind, packet: Option<u64>, value: u64) -> Option<u64>
    ensures { result ≡ packet_of kind packet value }
{
    match kind {
        Kind::Packet => Some(value),
        _ => packet,
    }
}

// Q_SCALE after a field of this name and value.
fn scale_after(name: &str, value: u64, scale: u64) -> u64
    ensures { result ≡ scale_after name.now value scale }
{
    if name == "NID_PACKET" {
        0
    } else if name == "Q_SCALE" {
        value
    } else {
        scale
    }
}
