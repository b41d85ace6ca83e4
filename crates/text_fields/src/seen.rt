ghost use Rattle.std.specs.Prelude.{◌≡◌, None, Some, unwrap_or};

use crate::shown::Shown;

/// The places of possible faults: each is the count of the fields that are shown before it.
#[derive(Clone, Copy)]
pub struct Notes {
    /// After the first field with a refused value.
    pub refused: Option<usize>,
    /// Before the first packet with a wrong length, after its header.
    pub wrong_packet: Option<usize>,
    /// Before the packet that is there in place of a required one.
    pub missing: Option<usize>,
    /// Before the bits after the last field of a centre's message or of a frame.
    pub beyond: Option<usize>,
}

impl Notes {
    pub(crate) fn new() -> Notes
        ensures { result ≡ record { refused = None; wrong_packet = None; missing = None; beyond = None } }
    {
        Notes {
            refused: None,
            wrong_packet: None,
            missing: None,
            beyond: None,
        }
    }

    /// Notes the first field with a refused value.
    pub(crate) fn note_refused(&mut self, count: usize)
        ensures noted { self.new.refused ≡ Some (unwrap_or self.old.refused count) }
        ensures others { (self.new.wrong_packet ≡ self.old.wrong_packet) × (self.new.missing ≡ self.old.missing)
            × (self.new.beyond ≡ self.old.beyond) }
    {
        if self.refused.is_none() {
            self.refused = Some(count);
        }
    }

    /// Notes the first packet with a wrong length.
    pub(crate) fn note_wrong(&mut self, count: usize)
        ensures noted { self.new.wrong_packet ≡ Some (unwrap_or self.old.wrong_packet count) }
        ensures others { (self.new.refused ≡ self.old.refused) × (self.new.missing ≡ self.old.missing)
            × (self.new.beyond ≡ self.old.beyond) }
    {
        if self.wrong_packet.is_none() {
            self.wrong_packet = Some(count);
        }
    }

    /// Notes the first packet in place of a required one.
    pub(crate) fn note_missing(&mut self, count: usize)
        ensures noted { self.new.missing ≡ Some (unwrap_or self.old.missing count) }
        ensures others { (self.new.refused ≡ self.old.refused) × (self.new.wrong_packet ≡ self.old.wrong_packet)
            × (self.new.beyond ≡ self.old.beyond) }
    {
        if self.missing.is_none() {
            self.missing = Some(count);
        }
    }
}

/// The fields of one message or frame, in their order, and the places of its faults.
#[derive(Drop)]
pub struct Seen {
    pub shown: Vec<Shown>,
    pub notes: Notes,
}
