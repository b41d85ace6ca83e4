//! The effect of a message or a frame on other centres.

ghost use Rattle.std.specs.Prelude.{◌≡◌};
ghost use Rattle.rbc_handover.specs.Expectations.{claims, expected_from};
ghost use Rattle.rbc_train.specs.Letters.{mail_of, mail_home, notices, cancel_of, bodies_in};

use crate::letter::Letter;
use rbc_handover::{Announcers, Expectations};
use rbc_line::SectionRun;
use rbc_linkmsg::Body;
use rbc_mission::HandoverName;

/// No section.
pub(crate) const NO_SECTIONS: SectionRun = SectionRun { first: 0, count: 0 };

/// A notice of a handover to other centres (3.15.1).
#[derive(Clone, Copy, Debug, PartialEq, Eq)]
pub enum Notice {
    Nothing,
    /// The accepting centre gets an Announce: the train approaches on this track.
    Announce { name: HandoverName, track: u8 },
    /// The accepting centre gets a Cancel: the train will not arrive.
    Cancel(HandoverName),
    /// Each of these centres gets a TakingOver, under the number of the handover that is expected from there.
    TakingOver(Announcers),
}

impl Notice {
    /// The body for a centre about this train, which has these expectations.
    pub fn to_centre(self, nid_engine: u32, expectations: &Expectations, centre: u8) -> Option<Body>
        ensures { bodies_in result ≡ notices nid_engine (expected_from expectations.now) self centre }
    {
        match self {
            Notice::Nothing => None,
            Notice::Announce { name, track } => {
                if name.to != centre {
                    return None;
                }
                Some(Body::Announce {
                    handover: name.number,
                    engine: nid_engine,
                    track,
                })
            }
            Notice::Cancel(name) => {
                if name.to != centre {
                    return None;
                }
                Some(Body::Cancel {
                    handover: name.number,
                    engine: nid_engine,
                })
            }
            Notice::TakingOver(told) => claim_of(told, nid_engine, expectations, centre),
        }
    }
}

// The TakingOver for a centre, if it is one of those that get it.
fn claim_of(
    told: Announcers,
    nid_engine: u32,
    expectations: &Expectations,
    centre: u8,
) -> Option<Body>
    ensures { bodies_in result ≡ claims nid_engine told (expected_from expectations.now) centre }
{
    if !told.has(centre) {
        return None;
    }
    let handover = expectations.number(centre)?;
    Some(Body::TakingOver {
        handover,
        engine: nid_engine,
    })
}

/// The bodies for other centres. Each link gets returned sections first, then a notice of a handover, and then a
/// letter.
#[derive(Clone, Copy, Debug, PartialEq, Eq)]
pub struct Mail {
    /// The track of the sections, by its number in the line file.
    pub track: u8,
    /// Sections, each of which returns to its home; the run is empty if there are none.
    pub first: SectionRun,
    /// Others that are returned after these.
    pub second: SectionRun,
    /// The notice of a handover.
    pub notice: Notice,
    /// The letter to one centre.
    pub letter: Option<Letter>,
}

impl Mail {
    /// A letter or none, and no section.
    #[inline(always)]
    pub fn of(letter: Option<Letter>) -> Mail
        ensures { result ≡ mail_of letter }
    {
        Mail::home(0, NO_SECTIONS, Notice::Nothing, letter)
    }

    /// These sections of a track, a notice, and a letter or none.
    #[inline(always)]
    pub(crate) fn home(
        track: u8,
        sections: SectionRun,
        notice: Notice,
        letter: Option<Letter>,
    ) -> Mail
        ensures { result ≡ mail_home track sections notice letter }
    {
        Mail {
            track,
            first: sections,
            second: NO_SECTIONS,
            notice,
            letter,
        }
    }

    /// Cancels the pending handover, if there is one.
    #[inline(always)]
    pub(crate) fn cancel(&mut self, name: Option<HandoverName>)
        requires { self.old.notice ≡ Notice.Nothing }
        ensures { self.new ≡ record self.old { notice = cancel_of name } }
    {
        if let Some(name) = name {
            self.notice = Notice::Cancel(name);
        }
    }
}
