//! The packets of a message, and their headers (SUBSET-026 7.4).

ghost use Rattle.std.specs.Prelude.{ℕ, ◌≡◌, ◌≢◌, ◌+◌, ◌-◌, ◌==◌, ◌||◌, ◌≤◌, ◌++◌, length, not, true, IfOk, IsTrue};
ghost use Rattle.std.specs.Prelude.{OnOk, Bool, List};
ghost use Rattle.rbc_packets.specs.Layout.{widths};
ghost use Rattle.text_fields.specs.Shown.{all_bits};
ghost use Rattle.text_fields.specs.Named.{Named, fields_in};
ghost use Rattle.text_fields.specs.Messages.{packet_head, packet_shown};
ghost use Rattle.text_fields.specs.Tabled.{has_table};
ghost use Rattle.text_fields.specs.Walks.{Next, Shows, Takes, IsContent, IsLaid, after};

use crate::kind::Kind;
use crate::messages::Side;
use crate::walk::Walk;
use std::alloc::AllocError;

impl<'a> Walk<'a> {
    /// Shows a packet, and returns its NID_PACKET.
    pub fn packet(&mut self, side: Side) -> Result<u64, AllocError>
        ensures bits { OnOk result (all_bits self.new.look ≡ all_bits self.old.look) }
        ensures shows { OnOk result ((n : ℕ) (content : List Named) → IsLaid side n content → self.old.end ≡ 0
            → Takes (packet_shown side n content) self.old.look self.old.end self.new.look self.new.end true) }
    {
        let begun = self.room();
        self.take("NID_PACKET", 8, Kind::Packet)?;
        let number = self.last;
        self.packet = Some(number);
        let is_right = self.rest_of_packet(side, number, begun)?;
        self.note_packet(is_right);
        self.unread()?;
        self.end = 0;
        self.packet = None;
        Ok(number)
    }

    /// Notes a packet with a wrong length.
    fn note_packet(&mut self, is_right: bool)
        ensures look { self.new.look ≡ self.old.look }
        ensures end { self.new.end ≡ self.old.end }
    {
        if !is_right {
            self.notes.note_wrong(self.look.count());
        }
    }

    /// Shows a packet after NID_PACKET. Returns whether its length is right. `begun` bits were left before the packet.
    fn rest_of_packet(&mut self, side: Side, number: u64, begun: u32) -> Result<bool, AllocError>
        ensures bits { OnOk result (all_bits self.new.look ≡ all_bits self.old.look) }
        ensures shows { OnOk result ((content : List Named) (rest : List Bool) → IsContent side number content
            → self.old.end ≡ 0 → begun ≡ 8 + length self.old.look.1
            → Next (packet_head side (widths (fields_in content)) ++ content) rest self.old.look 0
            → Shows (packet_head side (widths (fields_in content)) ++ content) rest self.old.look self.new.look
            × (self.new.end ≡ length rest)) }
        ensures kept { side ≡ Side.Train → number ≢ 0 → OnOk result ((content : List Named) (rest : List Bool)
            → self.old.end ≡ 0 → begun ≡ 8 + length self.old.look.1
            → Next (packet_head side (widths (fields_in content)) ++ content) rest self.old.look 0
            → Shows (packet_head side (widths (fields_in content))) (after content rest) self.old.look self.new.look
            × (self.new.end ≡ length rest)) }
    {
        if !self.packet_end(side, begun)? {
            return Ok(false);
        }
        if !self.content(side, number)? {
            return Ok(false);
        }
        Ok(self.is_whole(side, number))
    }

    // Whether no bits of the packet are left, or it is shown as bits.
    fn is_whole(&self, side: Side, number: u64) -> bool
        ensures { result ≡ (not (has_table side number) || (length self.now.look.1 - self.now.end) == 0) }
    {
        !has_table(side, number) || self.room() == 0
    }

    /// Shows the header of a packet after NID_PACKET, and finds the end of the packet. Returns whether there is one.
    fn packet_end(&mut self, side: Side, begun: u32) -> Result<bool, AllocError>
        ensures bits { OnOk result (all_bits self.new.look ≡ all_bits self.old.look) }
        ensures shows { IfOk result (λ there. (count : ℕ) (rest : List Bool) → count ≤ length rest
            → self.old.end ≡ 0 → begun ≡ 8 + length self.old.look.1
            → Next (packet_head side count) rest self.old.look 0
            → IsTrue there × Shows (packet_head side count) rest self.old.look self.new.look
            × (self.new.end + count ≡ length rest)) }
    {
        if !self.head(side)? {
            return Ok(false);
        }
        let room = self.room();
        let header = u64::from(begun.saturating_sub(room));
        match self.last.checked_sub(header) {
            Some(rest) if rest <= u64::from(room) => {
                self.end = room - rest as u32;
                Ok(true)
            }
            _ => Ok(false),
        }
    }

    /// Shows Q_DIR of a centre's packet, and L_PACKET.
    fn head(&mut self, side: Side) -> Result<bool, AllocError>
        ensures bits { OnOk result (all_bits self.new.look ≡ all_bits self.old.look) }
        ensures shows { IfOk result (λ there. (count : ℕ)
            → Takes (packet_head side count) self.old.look self.old.end self.new.look self.new.end there) }
        ensures last { OnOk result ((count : ℕ) (rest : List Bool)
            → Next (packet_head side count) rest self.old.look self.old.end
            → self.new.last ≡ 8 + widths (fields_in (packet_head side count)) + count) }
    {
        match side {
            Side::Train => self.rows(&[("L_PACKET", 13, Kind::Count("bits"))]),
            Side::Centre => self.rows(&[
                ("Q_DIR", 2, Kind::Only(1, "nominal")),
                ("L_PACKET", 13, Kind::Count("bits")),
            ]),
        }
    }

    /// Shows the fields of a packet that has a table. Returns whether all of them were there.
    fn content(&mut self, side: Side, number: u64) -> Result<bool, AllocError>
        ensures bits { OnOk result (all_bits self.new.look ≡ all_bits self.old.look) }
        ensures shows { IfOk result (λ there. (fields : List Named) → IsContent side number fields
            → Takes fields
            self.old.look self.old.end self.new.look self.new.end there) }
        ensures kept { side ≡ Side.Train → number ≢ 0
            → OnOk result ((self.new.look ≡ self.old.look) × (self.new.end ≡ self.old.end)) }
    {
        match side {
            Side::Train if number == 0 => self.position(),
            Side::Centre if number == 15 => self.authority(),
            Side::Centre if number == 42 => self.session(),
            Side::Centre if number == 131 => self.transition(),
            _ => Ok(true),
        }
    }
}

// Whether the fields of the packet are shown by the table, and not as bits.
fn has_table(side: Side, number: u64) -> bool
    ensures { result ≡ has_table side number }
{
    match side {
        Side::Train => number == 0,
        Side::Centre => number == 15 || number == 42 || number == 131,
    }
}
