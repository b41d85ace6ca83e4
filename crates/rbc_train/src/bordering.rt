//! The acts after the answer to a request, at the border to the next centre (3.15.1, profile).

ghost use Rattle.std.specs.Prelude.{◌≡◌, ◌-◌, ◌≤◌, ◌++◌, ℕ, Option, None, []};
ghost use Rattle.std.specs.Option.{option_map_or};
ghost use Rattle.rbc_spec.specs.Centre as spec;
ghost use Rattle.rbc_spec.specs.Message as order;
ghost use Rattle.rbc_spec.specs.Sections.{nid_rbc};
ghost use Rattle.rbc_spec.specs.Line.{next_centre, start};
ghost use Rattle.rbc_spec.specs.Place.{group_start as start_of_group};
ghost use Rattle.rbc_spec.specs.Acts.{rest};
ghost use Rattle.rbc_spec.specs.Rules as rules;
ghost use Rattle.rbc_msgs.specs.Bodies.{track_body};
ghost use Rattle.rbc_msgs.specs.declared.track.TrackBody.TheVariants as message;
ghost use Rattle.rbc_place.specs.Places.{place_of};
ghost use Rattle.rbc_handover.specs.Giving.{with_count};
ghost use Rattle.rbc_mission.specs.Supervisions.{HasSupervision, with_supervision};
ghost use Rattle.rbc_train.specs.Bordering.{KeepsAtBorder, MayAnnounce};
ghost use Rattle.rbc_train.specs.Desk.{counted_to, nothing, posted, replied};
ghost use Rattle.rbc_train.specs.Letters.{letters, mail_home, no_sections, notices};
ghost use Rattle.rbc_train.specs.declared.mail.Notice.TheVariants as notice;
ghost use Rattle.rbc_train.specs.Sayings.{sayings_of};

use crate::heard::Heard;
use crate::letter::Letter;
use crate::mail::Notice;
use crate::saying::Saying;
use crate::train::TrainState;
use rbc_handover::HandoverCount;
use rbc_line::Line;
use rbc_linkmsg::Body;
use rbc_mission::{Announcement, HandoverName};
use rbc_msgs::TrackBody;
use rbc_packets::Transition;
use rbc_place::{Place, group_start, section_start};
use rbc_vars::{DRbctr, NidC, NidRbc};

impl TrainState {
    /// Announces a handover to the next centre on the track, if the hand has a section of its home and none is pending.
    /// The train gets the distance to the border. Then that centre is asked for the sections in advance of the hand, if
    /// that is due.
    #[inline(always)]
    pub(crate) fn at_border(
        &mut self,
        line: &Line,
        centre: u8,
        count: &mut HandoverCount,
        track: u8,
        out: &mut Heard,
    )
        requires out { out.old ≡ record nothing { saying = out.old.saying } }
        requires may { MayAnnounce line.now self.old count.old }
        ensures exact { (e : ℕ → Option spec.Expectation) (k : spec.Centre) → HasSupervision k self.old.supervision
            → k.said self.old.supervision.engine ≡ self.old.said → k.announced ≡ count.old
            → option_map_or (rules.at_border line.now centre self.old.supervision.engine)
            (next_centre line.now centre track) rest k
            ≡ posted (λ d. notices self.old.supervision.engine e out.new.mail.notice d ++ letters out.new.mail.letter d)
            (replied (with_count count.new
            (counted_to self.old.supervision.engine self.new.said
            (with_supervision self.new.supervision k))) (sayings_of out.new.order) []) }
        ensures heard { out.new ≡ record {
          saying = out.old.saying;
          order = out.new.order;
          mail = mail_home 0 no_sections out.new.mail.notice out.new.mail.letter;
          told = [];
        } }
        ensures keeps { KeepsAtBorder self.old self.new count.old count.new }
    {
        let Some(next) = line.next_centre(centre, track) else {
            return;
        };
        self.announce(line, count, next, out);
        self.ask_route(line, next, &mut out.mail.letter);
    }

    // Announces a handover to this centre, if that is due.
    #[inline(never)]
    fn announce(&mut self, line: &Line, count: &mut HandoverCount, to: u8, out: &mut Heard)
        requires out { (out.old.order ≡ None) × (out.old.mail.notice ≡ notice.Nothing) }
        requires may { MayAnnounce line.now self.old count.old }
        ensures exact { (e : ℕ → Option spec.Expectation) (k : spec.Centre) → HasSupervision k self.old.supervision
            → k.said self.old.supervision.engine ≡ self.old.said → k.announced ≡ count.old
            → rules.announce_if_due line.now self.old.supervision.engine to k
            ≡ posted (notices self.old.supervision.engine e out.new.mail.notice)
            (replied (with_count count.new
            (counted_to self.old.supervision.engine self.new.said
            (with_supervision self.new.supervision k))) (sayings_of out.new.order) []) }
        ensures heard { out.new ≡ record out.old {
          order = out.new.order;
          mail = record out.old.mail { notice = out.new.mail.notice };
        } }
        ensures keeps { KeepsAtBorder self.old self.new count.old count.new }
    {
        let Some(mission) = self.supervision.mission() else {
            return;
        };
        let Some(announcement) = self.supervision.announce(line, count, to) else {
            return;
        };
        let Announcement { number, border } = announcement;
        let order = TrackBody::Transition(transition(line, to, border, &mission.place));
        out.mail.notice = Notice::Announce {
            name: HandoverName { number, to },
            track: mission.place.track,
        };
        out.order = Some(self.answer(mission.place.group, order));
    }

    // Asks the next centre for the sections in advance of the hand, if that is due.
    #[inline(never)]
    fn ask_route(&mut self, line: &Line, next: u8, letter: &mut Option<Letter>)
        requires { letter.old ≡ None }
        ensures exact { (k : spec.Centre) → HasSupervision k self.old.supervision
            → rules.ask_route_if_due line.now self.old.supervision.engine next k
            ≡ posted (letters letter.new) (replied (with_supervision self.new.supervision k) [] []) }
        ensures left { self.new
            ≡ record self.old { supervision = record self.old.supervision { asked = self.new.supervision.asked } } }
    {
        let engine = self.nid_engine();
        let Some(question) = self.supervision.ask(line, next) else {
            return;
        };
        *letter = Some(Letter {
            to: next,
            body: Body::RouteAsk {
                engine,
                first: question.first,
                most: question.most,
            },
        });
    }
}

// The order that this centre takes over from this section on, as far from the group of the place as that begins.
fn transition(line: &Line, to: u8, border: u16, place: &Place) -> Transition
    requires near { start line.now border - start_of_group line.now (place_of place.now) ≤ 32767 }
    ensures { track_body (message.Transition result)
        ≡ order.Transition (start line.now border - start_of_group line.now (place_of place.now)) line.now.nid_c
        (nid_rbc line.now to) }
{
    let metres = section_start(line, border).saturating_sub(group_start(line, place));
    let nid_rbc = line.nid_rbc(to).unwrap_or(0);
    Transition {
        d_rbctr: DRbctr::new(u64::from(metres)),
        nid_c: NidC::new(u64::from(line.nid_c())),
        nid_rbc: NidRbc::new(u64::from(nid_rbc)),
    }
}
