ghost use Rattle.std.specs.Prelude.{◌≡◌};
ghost use Rattle.rbc_hand.specs.Tokens.{lent_on, lent_section, lent_train};

/// The name of a section of another home, which its centre has lent to a train here. It can't be copied or dropped. It
/// ends when the section is returned or handed over, or when its centre ends.
#[must_use]
#[derive(Debug)]
pub struct Lent {
    section: u16,
    nid_engine: u32,
    home: u8,
}

impl Lent {
    /// The name of a section that has arrived in a frame.
    pub fn arrive(section: u16, nid_engine: u32, home: u8) -> Lent
        ensures { result ≡ lent_on section nid_engine home }
    {
        Lent {
            section,
            nid_engine,
            home,
        }
    }

    /// Ends it, as its section is written into a frame; returns the number of the section.
    pub fn send(self) -> u16
        ensures { result ≡ lent_section self }
    {
        let Lent {
            section,
            nid_engine: _,
            home: _,
        } = self;
        section
    }

    /// The section, numbered over the whole line.
    pub fn section(&self) -> u16
        ensures { result ≡ lent_section self.now }
    {
        self.section
    }

    /// NID_ENGINE of the train that the section is lent to.
    pub fn nid_engine(&self) -> u32
        ensures { result ≡ lent_train self.now }
    {
        self.nid_engine
    }
}
