/// The use of a home section for a train, which one holder has. It can't be copied or dropped: it ends in
/// `Book::give_back` or `Book::lend`, also when its centre ends.
#[must_use]
#[derive(Debug)]
pub struct Claim {
    pub(crate) section: u16,
    pub(crate) nid_engine: u32,
}

impl Claim {
    ghost use Rattle.std.specs.Prelude.{◌≡◌};
    ghost use Rattle.rbc_book.specs.Claim.{section_of, train_of};

    /// The section, numbered over the whole line.
    pub fn section(&self) -> u16
        ensures { result ≡ section_of self.now }
    {
        self.section
    }

    /// NID_ENGINE of the train that the section is in use for.
    pub fn nid_engine(&self) -> u32
        ensures { result ≡ train_of self.now }
    {
        self.nid_engine
    }
}

/// The claims on consecutive sections for one train, as the book hands them out. They can't be copied or dropped: they
/// are taken out one by one.
#[must_use]
#[derive(Debug)]
pub struct Claims {
    pub(crate) first: u16,
    pub(crate) count: u16,
    pub(crate) nid_engine: u32,
}

impl Claims {
    ghost use Rattle.std.specs.Prelude.{◌≡◌, ◌+◌, ◌-◌, ◌<◌, ◌≤◌};
    ghost use Rattle.rbc_spec.specs.SectionRuns.{next_after};
    ghost use Rattle.rbc_book.specs.Claim.{claim_on, claims_on, claimed, claims_train};

    /// The first of the sections, numbered over the whole line.
    pub fn first(&self) -> u16
        ensures { result ≡ (claimed self.now).first }
    {
        self.first
    }

    /// How many they are.
    pub fn len(&self) -> u16
        ensures { result ≡ (claimed self.now).count }
    {
        self.count
    }

    /// The claim on the first of them goes off.
    pub fn cut_front(&mut self) -> Claim
        requires some { 0 < (claimed self.old).count }
        requires numbers { next_after (claimed self.old) ≤ 65535 }
        ensures claim { result ≡ claim_on (claimed self.old).first (claims_train self.old) }
        ensures rest { self.new ≡ claims_on
            (record { first = (claimed self.old).first + 1; count = (claimed self.old).count - 1 })
            (claims_train self.old) }
    {
        let section = self.first;
        self.first += 1;
        self.count -= 1;
        Claim {
            section,
            nid_engine: self.nid_engine,
        }
    }

    /// Ends the claims, of which none is left.
    pub fn end(self)
        requires { (claimed self).count ≡ 0 }
    {
        let Claims {
            first: _,
            count: _,
            nid_engine: _,
        } = self;
    }
}
