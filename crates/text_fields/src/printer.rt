//! Prints the fields of one message or frame.

ghost use Rattle.std.specs.Prelude.{◌+◌, ◌-◌, ◌^◌, ◌≡◌, min};
ghost use Rattle.text_fields.specs.Sections.{own_section, section_in};

use crate::fault::Refusal;
use crate::kind::Kind;
use crate::layout::Field;
use crate::meaning::{meaning_of, unit_of};
use crate::messages::Side;
use crate::object::{Content, Member, print_object};
use crate::print::{Form, PrintFault};
use crate::seen::Seen;
use crate::shown::Shown;
use std::alloc::Global;
use std::io::Write;

/// Prints the fields of one message or frame.
#[derive(Clone, Copy)]
pub(crate) struct Printer {
    pub alloc: Global,
    pub form: Form,
    /// The number of the message, from 1.
    pub count: u32,
    pub side: Side,
    /// Frames are this project's own.
    pub is_frame: bool,
}

impl Printer {
    /// Prints a message of this length. The text has a head before its fields.
    pub fn print_message<W: Write>(
        self,
        length: usize,
        seen: &Seen,
        refusal: Option<Refusal>,
        out: &mut W,
    ) -> Result<(), PrintFault> {
        if self.form == Form::Text {
            writeln!(out, "message {}: {length} bytes", self.count)?;
        }
        self.print(seen, refusal, out)
    }

    /// Prints the fields, with the refusal at its place.
    pub fn print<W: Write>(
        self,
        seen: &Seen,
        refusal: Option<Refusal>,
        out: &mut W,
    ) -> Result<(), PrintFault> {
        let mut place = 0usize;
        let mut from = 0u32;
        for shown in &seen.shown {
            self.print_refusal(refusal, place, from, out)?;
            self.print_field(*shown, from, out)?;
            place = place.saturating_add(1);
            from = from.saturating_add(shown.width);
        }
        self.print_refusal(refusal, place, from, out)
    }

    // Prints the refusal, if it is at this place.
    fn print_refusal<W: Write>(
        self,
        refusal: Option<Refusal>,
        place: usize,
        from: u32,
        out: &mut W,
    ) -> Result<(), PrintFault> {
        let Some(refusal) = refusal else {
            return Ok(());
        };
        if refusal.place != place {
            return Ok(());
        }
        let number = refusal.number;
        let words = refusal.words;
        match self.form {
            Form::Text => writeln!(out, "fault {number} at bit {from}: {words}")?,
            Form::Json => print_object(self.alloc, &self.members_of_refusal(refusal, from), out)?,
        }
        Ok(())
    }

    // The members of the object of a refusal.
    fn members_of_refusal(self, refusal: Refusal, from: u32) -> [Member<'static>; 4] {
        [
            ("message", Content::Number(self.count.into())),
            ("fault", Content::Number(refusal.number.into())),
            ("at", Content::Number(from.into())),
            ("meaning", Content::Text(refusal.words)),
        ]
    }

    fn print_field<W: Write>(self, shown: Shown, from: u32, out: &mut W) -> Result<(), PrintFault> {
        match self.form {
            Form::Text => self.print_words(shown, from, out),
            Form::Json => self.print_json(shown, from, out),
        }
    }

    fn print_words<W: Write>(self, shown: Shown, from: u32, out: &mut W) -> Result<(), PrintFault> {
        let inset = if shown.packet.is_some() { "  " } else { "" };
        let to = last_bit(from, shown.width);
        let name = shown.field.name;
        let value = shown.value;
        let section = self.section(shown);
        let side = self.side;
        write!(
            out,
            "{from:>5} {to:>5}  {section:<8}{inset}{name:<22}{value:>20}"
        )?;
        let meaning = meaning_of(side, shown);
        match shown.field.kind {
            Kind::Number | Kind::Range(..) => writeln!(out)?,
            _ => writeln!(out, "  {meaning}")?,
        }
        Ok(())
    }

    fn print_json<W: Write>(self, shown: Shown, from: u32, out: &mut W) -> Result<(), PrintFault> {
        let meaning = meaning_of(self.side, shown);
        let words = format!(in self.alloc; "{meaning}")?;
        print_object(
            self.alloc,
            &self.members_of(shown, from, words.as_str()),
            out,
        )
    }

    // The members of the object of a field.
    fn members_of<'w>(self, shown: Shown, from: u32, meaning: &'w str) -> [Member<'w>; 9] {
        let packet = match shown.packet {
            Some(number) => Content::Number(number),
            None => Content::Null,
        };
        [
            ("message", Content::Number(self.count.into())),
            ("from", Content::Number(from.into())),
            ("to", Content::Number(last_bit(from, shown.width).into())),
            ("name", Content::Text(shown.field.name)),
            ("value", Content::Number(shown.value)),
            ("unit", Content::Text(unit_of(shown))),
            ("meaning", Content::Text(meaning)),
            ("section", Content::Text(self.section(shown))),
            ("packet", packet),
        ]
    }

    /// The section of SUBSET-026 that defines the field, or `profile`.
    fn section(self, shown: Shown) -> &'static str
        ensures { result.now ≡ section_in self.side self.is_frame shown.field.kind shown.field.name.now }
    {
        match shown.field.kind {
            Kind::Message => self.side.messages(),
            Kind::Packet => self.side.packets(),
            Kind::Filling => "",
            Kind::Number
            | Kind::Count(_)
            | Kind::Words(_)
            | Kind::Only(..)
            | Kind::Range(..)
            | Kind::TrainTime
            | Kind::CentreTime
            | Kind::OtherTime
            | Kind::Group
            | Kind::Distance
            | Kind::Decimetres
            | Kind::Speed
            | Kind::Bits => own_section(shown.field, self.is_frame),
        }
    }
}

// The section that defines the variable of a field. Bits without a meaning have none.
fn own_section(field: Field, is_frame: bool) -> &'static str
    ensures { result.now ≡ own_section is_frame field.name.now }
{
    if field.name == "bits" {
        ""
    } else if is_frame {
        "profile"
    } else {
        field.section()
    }
}

// The last bit of a field.
fn last_bit(from: u32, width: u32) -> u32
    ensures { result ≡ min (2 ^ 32 - 1) (from + (width - 1)) }
{
    from.saturating_add(width.saturating_sub(1))
}
