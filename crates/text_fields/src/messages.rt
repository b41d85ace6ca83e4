//! The layout of each message: its header and its own fields (SUBSET-026 8.4.4, 8.6 and 8.7).

ghost use Rattle.std.specs.Prelude.{ℕ, ◌≡◌, ◌<◌, ◌++◌, [], length, IfOk, OnOk, List, Bool, true};
ghost use Rattle.std.specs.List.{AllByRecursion};
ghost use Rattle.text_fields.specs.Sections.{messages_section, packets_section};
ghost use Rattle.text_fields.specs.Shown.{all_bits};
ghost use Rattle.text_fields.specs.Named.{Named};
ghost use Rattle.text_fields.specs.Messages.{PacketFields, packet_shown, packets_shown, filling_fields, numbered};
ghost use Rattle.text_fields.specs.Walks.{Next, Shows, Takes, IsHead, IsOwn, IsLaid, IsLaidPacket, IsLaidMessage};
ghost use Rattle.text_fields.specs.Walks.{count_of, rest_shown, side_of};

use crate::bodies::{Body, Own, Required, body_of};
use crate::kind::Kind;
use crate::walk::Walk;
use std::alloc::AllocError;

/// Who sends a message, so which header and packets it has.
#[derive(Clone, Copy, PartialEq, Eq)]
pub(crate) enum Side {
    Train,
    Centre,
}

impl Side {
    /// The sender of messages of this NID_MESSAGE: a train from 128 on.
    pub fn of(number: u64) -> Side
        ensures { result ≡ side_of number }
    {
        if number < 128 {
            Side::Centre
        } else {
            Side::Train
        }
    }

    /// The section of SUBSET-026 with the packets of its messages.
    pub fn packets(self) -> &'static str
        ensures { result.now ≡ packets_section self }
    {
        match self {
            Side::Train => "7.4.3",
            Side::Centre => "7.4.2",
        }
    }

    /// The section of SUBSET-026 with its messages.
    pub fn messages(self) -> &'static str
        ensures { result.now ≡ messages_section self }
    {
        match self {
            Side::Train => "8.6",
            Side::Centre => "8.7",
        }
    }
}

const STATUSES: &[(u64, &str)] = &[
    (0, "position invalid"),
    (1, "position valid"),
    (2, "position unknown"),
];

impl<'a> Walk<'a> {
    /// Shows a message, up to bits without a meaning.
    pub fn message(&mut self) -> Result<(), AllocError>
        ensures bits { OnOk result (all_bits self.new.look ≡ all_bits self.old.look) }
        ensures shows { OnOk result ((n fill : ℕ) (head own : List Named) (packets further : List PacketFields)
            → IsLaidMessage n head own packets further → fill < 8 → self.old.end ≡ 0
            → Next (numbered n head ++ (own ++ (packets_shown (side_of n) packets
            ++ rest_shown (side_of n) further fill))) [] self.old.look 0
            → Shows (numbered n head ++ (own ++ (packets_shown (side_of n) packets
            ++ rest_shown (side_of n) further fill))) [] self.old.look self.new.look) }
    {
        if !self.take("NID_MESSAGE", 8, Kind::Message)? {
            return Ok(());
        }
        let number = self.last;
        let side = Side::of(number);
        if !self.header(side)? {
            return Ok(());
        }
        match body_of(number) {
            Some(body) => self.body(side, body),
            None => Ok(()),
        }
    }

    /// Shows the header after NID_MESSAGE.
    fn header(&mut self, side: Side) -> Result<bool, AllocError>
        ensures bits { OnOk result (all_bits self.new.look ≡ all_bits self.old.look) }
        ensures shows { IfOk result (λ there. (fields : List Named) → IsHead side fields
            → Takes fields self.old.look self.old.end self.new.look self.new.end there) }
    {
        match side {
            Side::Train => self.rows(&[
                ("L_MESSAGE", 10, Kind::Count("bytes")),
                ("T_TRAIN", 32, Kind::TrainTime),
                ("NID_ENGINE", 24, Kind::Number),
            ]),
            Side::Centre => self.rows(&[
                ("L_MESSAGE", 10, Kind::Count("bytes")),
                ("T_TRAIN", 32, Kind::CentreTime),
                ("M_ACK", 1, Kind::Only(0, "no acknowledgement")),
                ("NID_LRBG", 24, Kind::Group),
            ]),
        }
    }

    /// Shows the body of a message.
    fn body(&mut self, side: Side, body: Body) -> Result<(), AllocError>
        ensures bits { OnOk result (all_bits self.new.look ≡ all_bits self.old.look) }
        ensures shows { OnOk result ((fill : ℕ) (own : List Named) (packets further : List PacketFields)
            → IsOwn body.own own → length packets ≡ count_of body.packets → AllByRecursion (IsLaidPacket side) packets
            → AllByRecursion (IsLaidPacket side) further → fill < 8 → self.old.end ≡ 0
            → Next (own ++ (packets_shown side packets ++ rest_shown side further fill)) [] self.old.look 0
            → Shows (own ++ (packets_shown side packets ++ rest_shown side further fill)) []
            self.old.look self.new.look) }
    {
        if !self.own(body.own)? {
            return Ok(());
        }
        self.required(side, body.packets)?;
        self.rest(side)
    }

    /// Shows the bits after the packets that have to be there.
    fn rest(&mut self, side: Side) -> Result<(), AllocError>
        ensures bits { OnOk result (all_bits self.new.look ≡ all_bits self.old.look) }
        ensures shows { OnOk result ((fill : ℕ) (further : List PacketFields)
            → AllByRecursion (IsLaidPacket side) further → fill < 8 → self.old.end ≡ 0
            → Next (rest_shown side further fill) [] self.old.look 0
            → Shows (rest_shown side further fill) [] self.old.look self.new.look) }
    {
        self.note_beyond(side);
        self.further(side)?;
        self.filling()
    }

    /// Notes that bits follow the last field of a centre's message.
    fn note_beyond(&mut self, side: Side)
        ensures look { self.new.look ≡ self.old.look }
        ensures end { self.new.end ≡ self.old.end }
    {
        if side == Side::Centre && self.room() >= 8 {
            self.notes.beyond = Some(self.look.count());
        }
    }

    /// Shows the field before the packets.
    fn own(&mut self, own: Own) -> Result<bool, AllocError>
        ensures bits { OnOk result (all_bits self.new.look ≡ all_bits self.old.look) }
        ensures shows { IfOk result (λ there. (fields : List Named) → IsOwn own fields
            → Takes fields self.old.look self.old.end self.new.look self.new.end there) }
    {
        match own {
            Own::None => Ok(true),
            Own::Reason => self.take("Q_MARQSTREASON", 5, Kind::Bits),
            Own::Time => self.take("T_TRAIN", 32, Kind::OtherTime),
            Own::Status => self.take("Q_STATUS", 2, Kind::Words(STATUSES)),
            Own::Version => self.take("M_VERSION", 7, Kind::Only(32, "version 2.0")),
        }
    }

    /// Shows the packets that have to be there.
    fn required(&mut self, side: Side, packets: Required) -> Result<(), AllocError>
        ensures bits { OnOk result (all_bits self.new.look ≡ all_bits self.old.look) }
        ensures shows { OnOk result ((there : List PacketFields) → length there ≡ count_of packets
            → AllByRecursion (IsLaidPacket side) there → self.old.end ≡ 0
            → Takes (packets_shown side there) self.old.look self.old.end self.new.look self.new.end true) }
    {
        match packets {
            Required::None => Ok(()),
            Required::Position => self.wanted(side, &[0]),
            Required::PositionAndData => {
                self.wanted(side, &[0])?;
                self.wanted(side, &[11])
            }
            Required::Authority => self.wanted(side, &[15]),
            Required::Order => self.wanted(side, &[131, 42]),
        }
    }

    /// Shows a packet that has to be there: one of these numbers.
    fn wanted(&mut self, side: Side, wanted: &[u64]) -> Result<(), AllocError>
        ensures bits { OnOk result (all_bits self.new.look ≡ all_bits self.old.look) }
        ensures shows { OnOk result ((n : ℕ) (content : List Named) → IsLaid side n content → self.old.end ≡ 0
            → Takes (packet_shown side n content) self.old.look self.old.end self.new.look self.new.end true) }
    {
        let count = self.look.count();
        if self.room() < 8 {
            self.notes.note_missing(count);
            return Ok(());
        }
        let number = self.packet(side)?;
        if !wanted.contains(&number) {
            self.notes.note_missing(count);
        }
        Ok(())
    }

    /// Shows further packets, as long as 8 bits or more are left.
    fn further(&mut self, side: Side) -> Result<(), AllocError>
        ensures bits { OnOk result (all_bits self.new.look ≡ all_bits self.old.look) }
        ensures shows { OnOk result ((packets : List PacketFields) (rest : List Bool)
            → AllByRecursion (IsLaidPacket side) packets → length rest < 8 → self.old.end ≡ 0
            → Next (packets_shown side packets) rest self.old.look self.old.end
            → Shows (packets_shown side packets) rest self.old.look self.new.look × (self.new.end ≡ self.old.end)) }
    {
        for _ in 0..self.room() {
            if self.room() < 8 {
                break;
            }
            let count = self.look.count();
            let number = self.packet(side)?;
            self.note_further(side, number, count);
        }
        Ok(())
    }

    /// Notes a second position report: `count` fields are shown before it.
    fn note_further(&mut self, side: Side, number: u64, count: usize)
        ensures look { self.new.look ≡ self.old.look }
        ensures end { self.new.end ≡ self.old.end }
    {
        if side == Side::Train && number == 0 {
            self.notes.note_refused(count.saturating_add(1));
        }
    }

    /// Shows the bits that are left as those that fill the last byte.
    fn filling(&mut self) -> Result<(), AllocError>
        ensures bits { OnOk result (all_bits self.new.look ≡ all_bits self.old.look) }
        ensures shows { OnOk result ((fill : ℕ) → self.old.end ≡ 0 → Next (filling_fields fill) [] self.old.look 0
            → Shows (filling_fields fill) [] self.old.look self.new.look) }
    {
        let width = self.room();
        if width > 0 {
            self.take("filling", width, Kind::Filling)?;
        }
        Ok(())
    }
}
