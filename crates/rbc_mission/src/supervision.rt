ghost use Rattle.std.specs.Prelude.{◌≡◌, ◌≤◌, ◌+◌, Some, None, option_map, IfOk};
ghost use Rattle.rbc_spec.specs.Centre as spec;
ghost use Rattle.rbc_line.specs.SectionRuns.{run_of};

use crate::facts::MissionFacts;
use crate::held::HeldRight;
use rbc_book::Book;
use rbc_border::Border;
use rbc_hand::Hand;
use rbc_handover::Handover;
use rbc_line::SectionRun;
use std::alloc::{AllocError, Global};
use std::marker::Model;

/// The supervision of one train of the line at a centre: its mission, if it has one, and the pending question for
/// sections. A mission has the facts, the sections of its movement authority and of its pool, the right to supervise
/// the train, and the pending handover. Room for 32 sections of the hand and for the pool is made at the beginning, and
/// no call takes memory after that. It can't be copied or dropped: its sections return to the book or to their home,
/// and its right to the registrar.
#[must_use]
#[derive(Debug)]
pub struct Supervision {
    // The train's place in the line file.
    pub(crate) number: u8,
    pub(crate) nid_engine: u32,
    pub(crate) mission: Option<MissionFacts>,
    pub(crate) hand: Hand,
    pub(crate) right: HeldRight,
    pub(crate) border: Border,
    pub(crate) handover: Handover,
}

impl Model for Supervision {
    ghost use Rattle.rbc_handover.specs.Handings.{handing_of};
    ghost use Rattle.rbc_mission.specs.Supervisions.{SupervisionState, supervision_state, IsSupervision};

    ghost Value = { SupervisionState };

    ghost view = { λ c. supervision_state c.number c.nid_engine c.mission c.hand c.border (handing_of c.handover) };

    ghost invariant = { λ c. IsSupervision c.number c.nid_engine c.mission c.hand c.right c.border
        (handing_of c.handover) };
}

impl Supervision {
    ghost use Rattle.rbc_mission.specs.Supervisions.{no_mission, mission_of, hand_of, pool_of, handing_in};
    ghost use Rattle.rbc_mission.specs.Supervisions.{HasRouteForm};

    /// A train with this place in the line file and this NID_ENGINE, without a mission.
    pub fn new(alloc: Global, number: u8, nid_engine: u32) -> Result<Supervision, AllocError>
        ensures { IfOk result (λ c. c ≡ no_mission number nid_engine) }
    {
        let hand = Hand::new(alloc)?;
        match Border::new(alloc, nid_engine) {
            Ok(border) => Ok(Supervision {
                number,
                nid_engine,
                mission: None,
                hand,
                right: HeldRight::Nothing,
                border,
                handover: Handover::None,
            }),
            Err(error) => {
                hand.end();
                Err(error)
            }
        }
    }

    /// The train's place in the line file, from 0.
    pub fn number(&self) -> u8
        ensures { result ≡ self.now.number }
    {
        self.number
    }

    /// The train's NID_ENGINE.
    pub fn nid_engine(&self) -> u32
        ensures { result ≡ self.now.engine }
    {
        self.nid_engine
    }

    /// The facts of the mission; `None` if and only if there is none.
    pub fn mission(&self) -> Option<MissionFacts>
        ensures value { option_map (mission_of (hand_of self.now) (pool_of self.now) (handing_in self.now)) result
            ≡ self.now.mission }
        ensures route { (m : spec.Mission) → self.now.mission ≡ Some m → HasRouteForm m }
    {
        self.mission
    }

    /// The sections of the movement authority; empty without a mission.
    pub fn hand(&self) -> SectionRun
        ensures value { run_of result ≡ hand_of self.now }
        ensures most { result.count ≤ 32 }
        ensures numbers { result.first + result.count ≤ 65535 }
    {
        if self.mission.is_none() {
            return SectionRun { first: 0, count: 0 };
        }
        self.hand.run()
    }

    /// The lent sections in advance of the hand; empty without a mission.
    pub fn pool(&self) -> SectionRun
        ensures value { run_of result ≡ pool_of self.now }
        ensures most { result.count ≤ 31 }
    {
        self.border.pool()
    }

    /// Ends it when its centre ends. Its sections return to the book, the names of lent ones end, and so does its
    /// handover.
    pub fn end(self, book: &mut Book) {
        let Supervision {
            number: _,
            nid_engine: _,
            mission: _,
            hand,
            right,
            border,
            handover,
        } = self;
        rbc_allocation::end_hand(hand, book);
        border.end();
        right.end();
        handover.end();
    }
}
