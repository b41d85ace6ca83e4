//! Builds a list of fields.

ghost use Rattle.std.specs.Prelude.{◌≡◌, ◌++◌, ◌∷◌, [], OnOk, codes, false, true};
ghost use Rattle.text_words.specs.Fields.{Adds, counted, group_variable, meant, numbered, sense_of, shown_in};

use crate::field::{Field, Meaning};
use rbc_msgs::NID_LRBG_UNKNOWN;
use std::alloc::{AllocError, Global};

/// The fields of a message so far, and whether the next ones belong to a packet.
#[derive(Drop)]
pub struct Fields {
    list: Vec<Field>,
    is_in_packet: bool,
}

impl Fields {
    pub fn new(alloc: Global) -> Fields
        ensures shown { shown_in result ≡ [] }
        ensures packet { result.is_in_packet ≡ false }
    {
        Fields {
            list: Vec::new(alloc),
            is_in_packet: false,
        }
    }

    pub fn finish(self) -> Vec<Field>
        ensures { result ≡ self.list }
    {
        self.list
    }

    pub fn add(
        &mut self,
        name: &'static str,
        value: u64,
        meaning: Meaning,
    ) -> Result<(), AllocError>
        ensures { OnOk result (Adds self.old self.new
            (record { name = name.entry.now; value = value; sense = sense_of meaning } ∷ [])) }
    {
        let is_in_packet = self.is_in_packet;
        self.list.push(Field {
            is_in_packet,
            name,
            value,
            meaning,
        })?;
        Ok(())
    }

    /// Adds a number that means no more than itself.
    pub fn number(&mut self, name: &'static str, value: u64) -> Result<(), AllocError>
        ensures { OnOk result (Adds self.old self.new (numbered name.entry.now value ∷ [])) }
    {
        self.add(name, value, Meaning::Number)
    }

    pub fn words(
        &mut self,
        name: &'static str,
        value: u64,
        words: &'static str,
    ) -> Result<(), AllocError>
        ensures { OnOk result (Adds self.old self.new (meant name.entry.now value words.entry.now ∷ [])) }
    {
        self.add(name, value, Meaning::Words(words))
    }

    /// Adds a distance in metres.
    pub fn metres(&mut self, name: &'static str, value: u64) -> Result<(), AllocError>
        ensures { OnOk result (Adds self.old self.new (counted name.entry.now value (codes "m") ∷ [])) }
    {
        let unit = "m";
        self.add(name, value, Meaning::Count { count: value, unit })
    }

    /// Adds the number of a packet, which begins here.
    pub fn packet(&mut self, number: u64, words: &'static str) -> Result<(), AllocError>
        ensures shown { OnOk result (shown_in self.new
            ≡ shown_in self.old ++ (true, meant (codes "NID_PACKET") number words.entry.now) ∷ []) }
        ensures packet { OnOk result (self.new.is_in_packet ≡ true) }
    {
        self.is_in_packet = true;
        self.words("NID_PACKET", number, words)
    }

    /// Adds L_PACKET, a count of bits.
    pub fn bits_of_packet(&mut self, count: u64) -> Result<(), AllocError>
        ensures { OnOk result (Adds self.old self.new (counted (codes "L_PACKET") count (codes "bits") ∷ [])) }
    {
        let unit = "bits";
        self.add("L_PACKET", count, Meaning::Count { count, unit })
    }

    /// Adds a balise group by its NID_LRBG.
    pub fn group(&mut self, nid_lrbg: u64) -> Result<(), AllocError>
        ensures { OnOk result (Adds self.old self.new (group_variable nid_lrbg ∷ [])) }
    {
        if nid_lrbg == u64::from(NID_LRBG_UNKNOWN) {
            return self.words("NID_LRBG", nid_lrbg, "unknown");
        }
        let nid_c = nid_lrbg / 16_384;
        let nid_bg = nid_lrbg % 16_384;
        self.add("NID_LRBG", nid_lrbg, Meaning::Group { nid_c, nid_bg })
    }
}
