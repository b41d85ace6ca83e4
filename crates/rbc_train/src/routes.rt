//! Sections lent over a border: a home lends them to a train at another centre, and takes them back (profile;
//! SUBSET-039: Route Related Information).

ghost use Rattle.std.specs.Prelude.{◌≡◌, ◌+◌, ◌<◌, ◌≤◌, ◌&&◌, ℕ, not, if◌then◌else◌, is_some, is_none, []};
ghost use Rattle.std.specs.List.{list_any};
ghost use Rattle.rbc_spec.specs.Acts.{rest, where_so, end_order};
ghost use Rattle.rbc_spec.specs.Centre as spec;
ghost use Rattle.rbc_spec.specs.Frame.{HasRunRange};
ghost use Rattle.rbc_spec.specs.Line.{section};
ghost use Rattle.rbc_spec.specs.Links as links;
ghost use Rattle.rbc_spec.specs.Message as message;
ghost use Rattle.rbc_spec.specs.SectionRuns.{all_of};
ghost use Rattle.rbc_spec.specs.Sections.{nid_rbc};
ghost use Rattle.rbc_book.specs.Book.{Pages, is_own};
ghost use Rattle.rbc_line.specs.SectionRuns.{run_of};
ghost use Rattle.rbc_msgs.specs.Bodies.{track_body};
ghost use Rattle.rbc_msgs.specs.declared.track.TrackBody.TheVariants as code;
ghost use Rattle.rbc_right.specs.Rights.{Rights};
ghost use Rattle.rbc_train.specs.Desk.{HasParts, last_said, nothing, with_parts, replied, IsReady, SaysOnce, Does};
ghost use Rattle.rbc_train.specs.Sayings.{sayings_of};

use crate::heard::Heard;
use crate::letter::Letter;
use crate::saying::Saying;
use crate::train::TrainState;
use rbc_book::Book;
use rbc_border::{bring_back, lend, uses_some};
use rbc_line::{Line, SectionRun};
use rbc_linkmsg::Body;
use rbc_packets::SessionOrder;
use rbc_vars::{NidC, NidRbc};

impl TrainState {
    /// RouteAsk from a centre: the longest run of free home sections from the first on, up to the limit, is lent to the
    /// train there. A RouteInfo names the run.
    pub(crate) fn route_asked(
        &self,
        line: &Line,
        centre: u8,
        book: &mut Book,
        from: u8,
        first: u16,
        most: u16,
        out: &mut Heard,
    )
        requires { out.old ≡ nothing }
        ensures exact { (rights : Rights) → Does line.now centre
            (links.route_asked line.now centre from self.now.supervision.engine first most)
            self.now book.old rights self.now book.new rights out.new }
        ensures homes { (s : ℕ) → is_own book.new s ≡ is_own book.old s }
    {
        let engine = self.nid_engine();
        match lend(line, centre, book, engine, first, most) {
            Some(run) => {
                out.mail.letter = Some(Letter {
                    to: from,
                    body: Body::RouteInfo { engine, run },
                });
            }
            None => {}
        }
    }

    /// RouteInfo from a centre: the sections that were asked for become the pool of the train's mission, or are
    /// returned.
    pub(crate) fn route_told(
        &mut self,
        line: &Line,
        from: u8,
        sections: SectionRun,
        out: &mut Heard,
    )
        requires out { out.old ≡ nothing }
        requires few { sections.count ≤ 31 }
        ensures exact { (c : ℕ) (book : Pages) (rights : Rights) → Does line.now c
            (links.route_told line.now c from self.old.supervision.engine (run_of sections))
            self.old book rights self.new book rights out.new }
        ensures left { self.new ≡ record self.old {
          supervision = record self.old.supervision {
            mission = self.new.supervision.mission;
            asked = self.new.supervision.asked;
          };
        } }
    {
        let engine = self.nid_engine();
        match self.supervision.info(line, from, sections) {
            Some(run) => {
                out.mail.letter = Some(Letter {
                    to: from,
                    body: Body::RouteReturn { engine, run },
                });
            }
            None => {}
        }
    }

    /// RouteWithdraw: if the section is in the pool, the pool is returned from it on. If it is in the hand, the train
    /// gets a request to shorten before it (3.8.6), if that may be sent.
    pub(crate) fn route_withdrawn(&mut self, line: &Line, s: u16, out: &mut Heard)
        requires ready { IsReady self.old out.old }
        ensures exact { (c : ℕ) (book : Pages) (rights : Rights) → Does line.now c
            (if is_some (section line.now s) then links.route_withdrawn line.now c self.old.supervision.engine s else
            rest) self.old book rights self.new book rights out.new }
        ensures left { self.new ≡ record self.old {
          said = self.new.said;
          supervision = record self.old.supervision { mission = self.new.supervision.mission };
        } }
        ensures counted { self.new.said ≤ self.old.said + 1 }
    {
        if s >= line.section_count() {
            return;
        }
        let Some(mission) = self.supervision.mission() else {
            return;
        };
        match self.supervision.withdraw(s) {
            Some(sections) => {
                out.mail.track = mission.place.track;
                out.mail.first = sections;
            }
            None => out.saying = self.ask_back(line, s),
        }
    }

    /// RouteReturn from a centre: the sections that are out for the train are given back. If the train will not return
    /// to this centre, it is ordered to end its session (3.5.5).
    pub(crate) fn route_returned(
        &mut self,
        line: &Line,
        centre: u8,
        book: &mut Book,
        sections: SectionRun,
        out: &mut Heard,
    )
        requires ready { IsReady self.old out.old }
        requires range { HasRunRange 1 63 (run_of sections) }
        ensures exact { (rights : Rights) → Does line.now centre
            (if all_of (λ s. is_some (section line.now s)) (run_of sections) then links.route_returned line.now centre
            self.old.supervision.engine (run_of sections) else rest)
            self.old book.old rights self.new book.new rights out.new }
        ensures says { SaysOnce self.old self.new }
        ensures homes { (s : ℕ) → is_own book.new s ≡ is_own book.old s }
    {
        if sections.next_after() > u32::from(line.section_count()) {
            return;
        }
        let told = bring_back(book, self.nid_engine(), sections);
        let saying = self.end_order(line, centre, book);
        out.told = told;
        out.saying = saying;
    }

    // The order to end its session, for a train that will not return to this centre.
    fn end_order(&mut self, line: &Line, centre: u8, book: &Book) -> Option<Saying>
        requires { self.old.said < last_said }
        ensures exact { (rights : Rights) (k : spec.Centre) → HasParts line.now centre k self.old book.now rights
            → where_so (λ j. not (spec.uses_some line.now centre j self.old.supervision.engine)
            && ((is_none (j.mission self.old.supervision.engine) && is_none (j.wait self.old.supervision.engine))
            && not (spec.is_expected line.now j self.old.supervision.engine)))
            (end_order line.now centre self.old.supervision.engine) k
            ≡ replied (with_parts self.new book.now rights k) (sayings_of result) [] }
        ensures says { SaysOnce self.old self.new }
    {
        if !self.is_gone() {
            return None;
        }
        if uses_some(line, book, self.nid_engine()) {
            return None;
        }
        self.order_end(line, centre)
    }

    // Whether neither a mission of the train nor a start that waits is here, and it is not expected.
    fn is_gone(&self) -> bool
        ensures { result ≡ ((is_none self.now.supervision.mission && is_none self.now.waiting.wait) && not
            (list_any is_some self.now.expectations)) }
    {
        self.supervision.mission().is_none()
            && self.waiting.place().is_none()
            && !self.expectations.is_expected()
    }
}

/// The order to end the session with this centre (3.5.5).
pub(crate) fn session_order(line: &Line, centre: u8) -> SessionOrder
    ensures { track_body (code.EndSession result) ≡ message.EndSession line.now.nid_c (nid_rbc line.now centre) }
{
    let nid_c = line.nid_c();
    let nid_rbc = line.nid_rbc(centre).unwrap_or(0);
    SessionOrder {
        nid_c: NidC::new(u64::from(nid_c)),
        nid_rbc: NidRbc::new(u64::from(nid_rbc)),
    }
}
