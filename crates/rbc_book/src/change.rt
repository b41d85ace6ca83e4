use crate::page::{Entry, Page};

/// A change of a section. It changes nothing if the section is not in the state that it requires.
#[derive(Clone, Copy, Debug)]
pub(crate) enum Change {
    /// The interlocking releases it.
    Set,
    /// The interlocking takes it back.
    Unset,
    /// It is taken into use for a train.
    Take { nid_engine: u32 },
    /// It is given back.
    GiveBack { nid_engine: u32 },
    /// It is lent to another centre.
    Lend { nid_engine: u32 },
    /// It is taken back from another centre.
    Reclaim { nid_engine: u32 },
}

impl Change {
    ghost use Rattle.rbc_book.specs.Changes.{IsAfter};

    /// The page of the section from then on.
    #[inline]
    pub(crate) fn of(self, page: Page) -> Page
        ensures { IsAfter self page result }
    {
        let Page { entry, is_wished } = page;
        match self {
            Change::Set if entry.is_unused() => Page::new(Entry::Open, false),
            Change::Set => Page::new(entry, false),
            Change::Unset if entry.is_unused() => Page::new(Entry::Shut, false),
            Change::Unset => Page::new(entry, true),
            Change::Take { nid_engine } if entry.is_open() => {
                Page::new(Entry::Taken { nid_engine }, is_wished)
            }
            Change::GiveBack { nid_engine } if entry.is_taken_for(nid_engine) => {
                Page::new(if is_wished { Entry::Shut } else { Entry::Open }, false)
            }
            Change::Lend { nid_engine } if entry.is_taken_for(nid_engine) => {
                Page::new(Entry::Out { nid_engine }, is_wished)
            }
            Change::Reclaim { nid_engine } if entry.is_out_for(nid_engine) => {
                Page::new(Entry::Taken { nid_engine }, is_wished)
            }
            _ => page,
        }
    }
}
