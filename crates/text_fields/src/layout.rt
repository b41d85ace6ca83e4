//! The entries of the table of fields.

ghost use Rattle.std.specs.Prelude.{◌≡◌};
ghost use Rattle.text_fields.specs.Sections.{section_of};

use crate::kind::Kind;

/// A field of the table: its name in the standard, and the kind of its values.
#[derive(Clone, Copy)]
pub struct Field {
    pub name: &'static str,
    pub kind: Kind,
}

/// An entry of a table of fields: a name in the standard, a width in bits, and the kind of the values.
pub(crate) type Row = (&'static str, u32, Kind);

impl Field {
    /// The section of SUBSET-026 that defines its variable. END_SPEED and END_TIME are names of this project.
    pub(crate) fn section(self) -> &'static str
        ensures { result.now ≡ section_of self.name.now }
    {
        match self.name {
            "END_SPEED" | "END_TIME" => "profile",
            _ => "7.5.1",
        }
    }
}
