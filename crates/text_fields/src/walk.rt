//! Shows the bytes of a message, or of a frame, by its tables, to the last bit.

ghost use Rattle.std.specs.Prelude.{ℕ, ◌≡◌, ◌-◌, ◌^◌, ◌≤◌, ◌∷◌, ◌++◌, [], length, All, IfOk, OnOk, List, Bool};
ghost use Rattle.rbc_spec.specs.Message.{TrackMessage};
ghost use Rattle.rbc_bits.specs.Bits.{bits_of};
ghost use Rattle.rbc_msgs.specs.TrainText.{TrainText};
ghost use Rattle.rbc_msgs.specs.TrainSpelling.{SpellsTrain};
ghost use Rattle.rbc_msgs.specs.TrackSpelling.{SpellsTrack};
ghost use Rattle.text_fields.specs.Shown.{bits_shown, all_bits, Fits};
ghost use Rattle.text_fields.specs.Named.{Named, all_named};
ghost use Rattle.text_fields.specs.Senses.{AreKinds, HaveSenses, IsKindOf};
ghost use Rattle.text_fields.specs.Messages.{kept_content, train_shown, track_shown};
ghost use Rattle.text_fields.specs.Walks.{AreRows, Next, Shows, Takes, last_of};

use crate::kind::Kind;
use crate::layout::{Field, Row};
use crate::look::Look;
use crate::seen::{Notes, Seen};
use std::alloc::{AllocError, Global};

/// The greatest length of a message in bytes.
pub(crate) const LONGEST: usize = 1_023;

/// The greatest width of a field that is shown at once.
const MOST: u32 = 64;

/// Bits without a meaning.
const UNREAD: Field = Field {
    name: "bits",
    kind: Kind::Bits,
};

/// The length of the first message of the bytes: L_MESSAGE, if that is 3 at least and as many bytes are there.
/// Otherwise it goes to the end of the bytes, and has 1 023 bytes at most.
pub fn first_message(bytes: &[u8]) -> usize
    ensures within { result ≤ length bytes.now }
    ensures short { result ≤ 1023 }
    ensures some { 1 ≤ length bytes.now → 1 ≤ result }
{
    let most = bytes.len().min(LONGEST);
    match bytes {
        [_, second, third, ..] => {
            let l_message = 4 * usize::from(*second) + usize::from(*third) / 64;
            if l_message >= 3 && l_message <= most {
                l_message
            } else {
                most
            }
        }
        _ => most,
    }
}

/// Shows a message. An error comes only if memory runs out.
pub fn fields_of(alloc: Global, bytes: &[u8]) -> Result<Seen, AllocError>
    requires { length bytes.now ≤ 2 ^ 28 }
    // The shown bits, put together, are the bytes.
    ensures bits { IfOk result (λ seen. bits_shown seen.shown.items ≡ bits_of bytes.now) }
    // Each shown value has room in its bits.
    ensures fits { IfOk result (λ seen. All Fits seen.shown.items) }
    // Each field has a sense that the table has for its name, and the Q_SCALE of its packet.
    ensures senses { IfOk result (λ seen. HaveSenses 0 seen.shown.items) }
    // If the bytes spell a train's message, which `decode_train` reads, its fields are shown: the names, the widths and
    // the values, in their order. A packet that the decoder keeps as bits is shown as those.
    ensures train { (m : TrainText) → SpellsTrain bytes.now m
        → IfOk result (λ seen. all_named seen.shown.items ≡ train_shown (length bytes.now) m) }
    // The same of a centre's message, which `decode_track` reads.
    ensures track { (m : TrackMessage) → SpellsTrack bytes.now m
        → IfOk result (λ seen. all_named seen.shown.items ≡ track_shown (length bytes.now) m) }
{
    let mut walk = Walk::new(alloc, bytes);
    walk.message()?;
    walk.finish()
}

/// Shows a frame between centres. An error comes only if memory runs out.
pub fn fields_of_frame(alloc: Global, bytes: &[u8]) -> Result<Seen, AllocError>
    requires { length bytes.now ≤ 2 ^ 28 }
    // The shown bits, put together, are the bytes.
    ensures bits { IfOk result (λ seen. bits_shown seen.shown.items ≡ bits_of bytes.now) }
    // Each shown value has room in its bits.
    ensures fits { IfOk result (λ seen. All Fits seen.shown.items) }
    // Each field has a sense that the table has for its name, and the Q_SCALE of its packet.
    ensures senses { IfOk result (λ seen. HaveSenses 0 seen.shown.items) }
{
    let mut walk = Walk::new(alloc, bytes);
    walk.frame()?;
    walk.finish()
}

/// The bits of a message, and the state at the place up to which they are shown.
#[derive(Drop)]
pub(crate) struct Walk<'a> {
    pub look: Look<'a>,
    pub notes: Notes,
    /// How many bits are left after the packet that is shown.
    pub end: u32,
    pub packet: Option<u64>,
    /// The value of the last field.
    pub last: u64,
}

impl<'a> Walk<'a> {
    fn new(alloc: Global, bytes: &'a [u8]) -> Walk<'a>
        requires { length bytes.now ≤ 2 ^ 28 }
        ensures look { result.look ≡ ([], bits_of bytes.now) }
        ensures end { result.end ≡ 0 }
    {
        Walk {
            look: Look::new(alloc, bytes),
            notes: Notes::new(),
            end: 0,
            packet: None,
            last: 0,
        }
    }

    /// Shows the bits that are left, and returns all fields.
    fn finish(self) -> Result<Seen, AllocError>
        ensures bits { IfOk result (λ seen. bits_shown seen.shown.items ≡ all_bits self.entry.look) }
        ensures fits { IfOk result (λ seen. All Fits seen.shown.items) }
        ensures senses { IfOk result (λ seen. HaveSenses 0 seen.shown.items) }
        ensures none { self.entry.look.1 ≡ [] → IfOk result (λ seen. seen.shown.items ≡ self.entry.look.0) }
    {
        let Walk { look, notes, .. } = self;
        let shown = look.finish(UNREAD)?;
        Ok(Seen { shown, notes })
    }

    /// How many bits of the packet or the message are left.
    pub fn room(&self) -> u32
        ensures { result ≡ length self.now.look.1 - self.now.end }
    {
        self.look.left().saturating_sub(self.end)
    }

    /// Shows the next bits as this field. Returns whether they were there.
    pub fn take(&mut self, name: &'static str, width: u32, kind: Kind) -> Result<bool, AllocError>
        requires { IsKindOf name.now kind }
        ensures bits { OnOk result (all_bits self.new.look ≡ all_bits self.old.look) }
        ensures shows { IfOk result (λ there. (v : ℕ)
            → Takes (record { name = name.entry.now; field = (width, v) } ∷ [])
            self.old.look self.old.end self.new.look self.new.end there) }
        ensures last { OnOk result ((v : ℕ) (rest : List Bool)
            → Next (record { name = name.entry.now; field = (width, v) } ∷ []) rest self.old.look self.old.end
            → self.new.last ≡ v) }
    {
        if width > MOST || self.room() < width {
            return Ok(false);
        }
        let field = Field { name, kind };
        let Some(value) = self.look.take(field, width, self.packet)? else {
            return Ok(false);
        };
        self.note(kind, value);
        Ok(true)
    }

    /// Notes the value of the field that is shown last.
    fn note(&mut self, kind: Kind, value: u64)
        ensures look { self.new.look ≡ self.old.look }
        ensures end { self.new.end ≡ self.old.end }
        ensures last { self.new.last ≡ value }
    {
        if kind.refuses(value) {
            self.notes.note_refused(self.look.count());
        }
        self.last = value;
    }

    /// Shows the fields of a table in their order. Returns whether all of them were there.
    pub fn rows(&mut self, rows: &[Row]) -> Result<bool, AllocError>
        requires { AreKinds rows.now }
        ensures bits { OnOk result (all_bits self.new.look ≡ all_bits self.old.look) }
        ensures shows { IfOk result (λ there. (fields : List Named) → AreRows rows.now fields
            → Takes fields self.old.look self.old.end self.new.look self.new.end there) }
        ensures last { OnOk result ((fields : List Named) (rest : List Bool) → AreRows rows.now fields
            → Next fields rest self.old.look self.old.end → self.new.last ≡ last_of self.old.last fields) }
    {
        for (name, width, kind) in rows {
            if !self.take(*name, *width, *kind)? {
                return Ok(false);
            }
        }
        Ok(true)
    }

    /// Shows the bits that are left of the packet or the message, without a meaning.
    pub fn unread(&mut self) -> Result<(), AllocError>
        ensures bits { OnOk result (all_bits self.new.look ≡ all_bits self.old.look) }
        ensures none { length self.old.look.1 ≤ self.old.end → OnOk result (self.new.look ≡ self.old.look) }
        ensures shows { OnOk result ((bits rest : List Bool) → self.old.look.1 ≡ bits ++ rest
            → self.old.end ≡ length rest → Shows (kept_content bits) rest self.old.look self.new.look) }
    {
        for _ in 0..self.room() {
            let width = self.room().min(MOST);
            if width == 0 {
                break;
            }
            self.take(UNREAD.name, width, UNREAD.kind)?;
        }
        Ok(())
    }
}
