//! The fields of the frames between centres (profile).

ghost use Rattle.std.specs.Prelude.{◌≡◌, IfSome, OnOk};
ghost use Rattle.text_fields.specs.Senses.{AreKinds};
ghost use Rattle.text_fields.specs.Shown.{all_bits};

use crate::kind::Kind;
use crate::layout::Row;
use crate::walk::Walk;
use std::alloc::AllocError;

/// The header of a frame.
static FRAME_HEADER: [Row; 3] = [
    ("number", 32, Kind::Range(1, 65_536)),
    ("stamp", 32, Kind::Range(1, 1_073_741_823)),
    ("kind", 8, Kind::Words(FRAMES)),
];

const FRAMES: &[(u64, &str)] = &[
    (1, "AskRight, the train's right is asked for"),
    (2, "GiveRight, the train's right is given"),
    (3, "RefuseRight, the train's right is refused"),
    (4, "ReturnRight, the train's right goes back"),
    (
        5,
        "RouteAsk, sections beyond the train's authority are asked for",
    ),
    (6, "RouteInfo, sections are lent, or none"),
    (7, "RouteWithdraw, a lent section is wanted back"),
    (8, "RouteReturn, lent sections come back"),
    (9, "Announce, a handover is announced"),
    (10, "Cancel, a handover is called off"),
    (11, "TakingOver, the train will be taken over"),
    (12, "Yield, the mission is handed over"),
];

const ENGINE: Row = ("NID_ENGINE", 32, Kind::Range(0, 16_777_215));

const FIRST: Row = ("first section", 16, Kind::Range(0, 511));

const HANDOVER: Row = ("handover", 32, Kind::Range(1, 4_294_967_295));

const TRACK: Row = ("track", 8, Kind::Range(0, 3));

static RIGHT: [Row; 1] = [ENGINE];

static ASKED: [Row; 3] = [ENGINE, FIRST, ("most sections", 8, Kind::Range(1, 31))];

static LENT: [Row; 3] = [ENGINE, FIRST, ("count of sections", 8, Kind::Range(0, 31))];

static WITHDRAWN: [Row; 2] = [ENGINE, ("section", 16, Kind::Range(0, 511))];

static RETURNED: [Row; 3] = [ENGINE, FIRST, ("count of sections", 8, Kind::Range(1, 63))];

static ANNOUNCED: [Row; 3] = [HANDOVER, ENGINE, TRACK];

static HANDOVERS: [Row; 2] = [HANDOVER, ENGINE];

static YIELDED: [Row; 10] = [
    HANDOVER,
    ENGINE,
    ("T_TRAIN", 32, Kind::Range(0, 4_294_967_294)),
    TRACK,
    ("flags", 8, Kind::Range(0, 7)),
    ("NID_LRBG", 32, Kind::Range(0, 16_777_214)),
    ("front", 32, Kind::Decimetres),
    ("rear", 32, Kind::Decimetres),
    FIRST,
    ("count of sections", 8, Kind::Range(1, 32)),
];

/// The fields of a frame after its kind. None if no frame has the kind.
fn frame_rows(kind: u64) -> Option<&'static [Row]>
    ensures { IfSome result (λ rows. AreKinds rows.now) }
{
    match kind {
        1 | 2 | 3 | 4 => Some(&RIGHT),
        5 => Some(&ASKED),
        6 => Some(&LENT),
        7 => Some(&WITHDRAWN),
        8 => Some(&RETURNED),
        9 => Some(&ANNOUNCED),
        10 | 11 => Some(&HANDOVERS),
        12 => Some(&YIELDED),
        _ => None,
    }
}

impl<'a> Walk<'a> {
    /// Shows a frame, up to bytes without a meaning.
    pub fn frame(&mut self) -> Result<(), AllocError>
        ensures { OnOk result (all_bits self.new.look ≡ all_bits self.old.look) }
    {
        if !self.rows(&FRAME_HEADER)? {
            return Ok(());
        }
        if self.own_rows()? {
            self.note_more();
        }
        Ok(())
    }

    // Shows the fields of a frame after its kind. Returns whether all of them were there.
    fn own_rows(&mut self) -> Result<bool, AllocError>
        ensures { OnOk result (all_bits self.new.look ≡ all_bits self.old.look) }
    {
        match frame_rows(self.last) {
            Some(rows) => self.rows(rows),
            None => Ok(false),
        }
    }

    // Notes the bits after the last field, if there are any.
    fn note_more(&mut self)
        ensures { self.new.look ≡ self.old.look }
    {
        if self.room() > 0 {
            self.notes.beyond = Some(self.look.count());
        }
    }
}
