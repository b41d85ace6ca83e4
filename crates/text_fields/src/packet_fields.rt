//! The fields of each packet after its header (SUBSET-026 7.4).

ghost use Rattle.std.specs.Prelude.{ℕ, ◌≡◌, ◌⊎◌, ◌↔◌, ◌∷◌, [], codes, IfOk, IsTrue, OnOk};
ghost use Rattle.rbc_packets.specs.declared.location.Location.{Location};
ghost use Rattle.rbc_packets.specs.declared.train_length.TrainLength.{TrainLength};
ghost use Rattle.rbc_packets.specs.declared.level.Level.{Level};
ghost use Rattle.rbc_packets.specs.declared.position.Position.{Position};
ghost use Rattle.text_fields.specs.Shown.{all_bits};
ghost use Rattle.text_fields.specs.Named.{with_names};
ghost use Rattle.text_fields.specs.Messages.{location_shown, length_shown, running_shown, level_shown};
ghost use Rattle.text_fields.specs.Messages.{position_content, sections_shown, authority_content, transition_content};
ghost use Rattle.text_fields.specs.Messages.{end_of_session_content};
ghost use Rattle.text_fields.specs.Walks.{Takes};

use crate::kind::Kind;
use crate::walk::Walk;
use std::alloc::AllocError;

const SCALES: &[(u64, &str)] = &[(0, "unit 10 cm"), (1, "unit 1 m"), (2, "unit 10 m")];

const DIRECTIONS: &[(u64, &str)] = &[(0, "reverse"), (1, "nominal"), (2, "unknown"), (3, "spare")];

const LENGTHS: &[(u64, &str)] = &[
    (0, "no information"),
    (1, "confirmed by a device"),
    (2, "confirmed by the driver"),
    (3, "integrity lost"),
];

const LEVELS: &[(u64, &str)] = &[
    (0, "Level 0"),
    (1, "Level NTC"),
    (2, "Level 1"),
    (3, "Level 2"),
    (4, "Level 3"),
    (5, "spare"),
    (6, "spare"),
    (7, "spare"),
];

const MODES: &[(u64, &str)] = &[
    (0, "Full Supervision"),
    (1, "On Sight"),
    (2, "Staff Responsible"),
    (3, "Shunting"),
    (4, "Unfitted"),
    (5, "Sleeping"),
    (6, "Stand By"),
    (7, "Trip"),
    (8, "Post Trip"),
    (9, "System Failure"),
    (10, "Isolation"),
    (11, "Non Leading"),
    (12, "Limited Supervision"),
    (13, "National System"),
    (14, "Reversing"),
    (15, "Passive Shunting"),
];

impl<'a> Walk<'a> {
    /// Packet 0, position report.
    pub fn position(&mut self) -> Result<bool, AllocError>
        ensures bits { OnOk result (all_bits self.new.look ≡ all_bits self.old.look) }
        ensures shows { IfOk result (λ there. (p : Position)
            → Takes (position_content p)
            self.old.look self.old.end self.new.look self.new.end there) }
    {
        if !self.location()? {
            return Ok(false);
        }
        if !self.train_length()? {
            return Ok(false);
        }
        if !self.running()? {
            return Ok(false);
        }
        self.level()
    }

    /// The place of the train.
    fn location(&mut self) -> Result<bool, AllocError>
        ensures bits { OnOk result (all_bits self.new.look ≡ all_bits self.old.look) }
        ensures shows { IfOk result (λ there. (l : Location)
            → Takes (location_shown l)
            self.old.look self.old.end self.new.look self.new.end there) }
    {
        self.rows(&[
            ("Q_SCALE", 2, Kind::Words(SCALES)),
            ("NID_LRBG", 24, Kind::Group),
            ("D_LRBG", 15, Kind::Distance),
            ("Q_DIRLRBG", 2, Kind::Words(DIRECTIONS)),
            ("Q_DLRBG", 2, Kind::Words(DIRECTIONS)),
            ("L_DOUBTOVER", 15, Kind::Distance),
            ("L_DOUBTUNDER", 15, Kind::Distance),
        ])
    }

    /// Its integrity, and its length if that is confirmed.
    fn train_length(&mut self) -> Result<bool, AllocError>
        ensures bits { OnOk result (all_bits self.new.look ≡ all_bits self.old.look) }
        ensures shows { IfOk result (λ there. (t : TrainLength)
            → Takes (length_shown t)
            self.old.look self.old.end self.new.look self.new.end there) }
    {
        if !self.take("Q_LENGTH", 2, Kind::Words(LENGTHS))? {
            return Ok(false);
        }
        if !has_length(self.last) {
            return Ok(true);
        }
        self.take("L_TRAININT", 15, Kind::Count("m"))
    }

    /// How it runs.
    fn running(&mut self) -> Result<bool, AllocError>
        ensures bits { OnOk result (all_bits self.new.look ≡ all_bits self.old.look) }
        ensures shows { IfOk result (λ there. (p : Position)
            → Takes (running_shown p)
            self.old.look self.old.end self.new.look self.new.end there) }
    {
        self.rows(&[
            ("V_TRAIN", 7, Kind::Speed),
            ("Q_DIRTRAIN", 2, Kind::Words(DIRECTIONS)),
            ("M_MODE", 4, Kind::Words(MODES)),
        ])
    }

    /// Its level, and the national system of Level NTC.
    fn level(&mut self) -> Result<bool, AllocError>
        ensures bits { OnOk result (all_bits self.new.look ≡ all_bits self.old.look) }
        ensures shows { IfOk result (λ there. (l : Level)
            → Takes (level_shown l)
            self.old.look self.old.end self.new.look self.new.end there) }
    {
        if !self.take("M_LEVEL", 3, Kind::Words(LEVELS))? {
            return Ok(false);
        }
        if self.last != 1 {
            return Ok(true);
        }
        self.take("NID_NTC", 8, Kind::Number)
    }

    /// Packet 15, movement authority. Timers, a danger point and an overlap are shown, and decoders refuse them.
    pub fn authority(&mut self) -> Result<bool, AllocError>
        ensures bits { OnOk result (all_bits self.new.look ≡ all_bits self.old.look) }
        ensures shows { IfOk result (λ there. (l : ℕ)
            → Takes (authority_content l)
            self.old.look self.old.end self.new.look self.new.end there) }
    {
        if !self.sections()? {
            return Ok(false);
        }
        if !self.take("L_ENDSECTION", 15, Kind::Distance)? {
            return Ok(false);
        }
        if !self.section_timer()? {
            return Ok(false);
        }
        if !self.end_timer()? {
            return Ok(false);
        }
        if !self.danger_point()? {
            return Ok(false);
        }
        self.overlap()
    }

    /// Its fields up to the count of sections. The fields after them are known only for one section.
    fn sections(&mut self) -> Result<bool, AllocError>
        ensures bits { OnOk result (all_bits self.new.look ≡ all_bits self.old.look) }
        ensures shows { IfOk result (λ there. Takes sections_shown
            self.old.look self.old.end self.new.look self.new.end there) }
    {
        if !self.rows(&[
            ("Q_SCALE", 2, Kind::Only(1, "unit 1 m")),
            ("END_SPEED", 7, Kind::Only(0, "none")),
            ("END_TIME", 10, Kind::Only(1023, "no limit")),
            ("N_ITER", 5, Kind::Only(0, "one section")),
        ])? {
            return Ok(false);
        }
        if self.last != 0 {
            return Ok(false);
        }
        Ok(true)
    }

    /// The timer of the section.
    fn section_timer(&mut self) -> Result<bool, AllocError>
        ensures bits { OnOk result (all_bits self.new.look ≡ all_bits self.old.look) }
        ensures shows { IfOk result (λ there. Takes (with_names (codes "Q_SECTIONTIMER" ∷ []) ((1, 0) ∷ []))
            self.old.look self.old.end self.new.look self.new.end there) }
    {
        if !self.take("Q_SECTIONTIMER", 1, Kind::Only(0, "none"))? {
            return Ok(false);
        }
        if self.last != 1 {
            return Ok(true);
        }
        self.rows(&[
            ("T_SECTIONTIMER", 10, Kind::Number),
            ("D_SECTIONTIMERSTOPLOC", 15, Kind::Distance),
        ])
    }

    /// The timer of the end section.
    fn end_timer(&mut self) -> Result<bool, AllocError>
        ensures bits { OnOk result (all_bits self.new.look ≡ all_bits self.old.look) }
        ensures shows { IfOk result (λ there. Takes (with_names (codes "Q_ENDTIMER" ∷ []) ((1, 0) ∷ []))
            self.old.look self.old.end self.new.look self.new.end there) }
    {
        if !self.take("Q_ENDTIMER", 1, Kind::Only(0, "none"))? {
            return Ok(false);
        }
        if self.last != 1 {
            return Ok(true);
        }
        self.rows(&[
            ("T_ENDTIMER", 10, Kind::Number),
            ("D_ENDTIMERSTARTLOC", 15, Kind::Distance),
        ])
    }

    /// The danger point.
    fn danger_point(&mut self) -> Result<bool, AllocError>
        ensures bits { OnOk result (all_bits self.new.look ≡ all_bits self.old.look) }
        ensures shows { IfOk result (λ there. Takes (with_names (codes "Q_DANGERPOINT" ∷ []) ((1, 0) ∷ []))
            self.old.look self.old.end self.new.look self.new.end there) }
    {
        if !self.take("Q_DANGERPOINT", 1, Kind::Only(0, "none"))? {
            return Ok(false);
        }
        if self.last != 1 {
            return Ok(true);
        }
        self.rows(&[
            ("D_DP", 15, Kind::Distance),
            ("V_RELEASEDP", 7, Kind::Speed),
        ])
    }

    /// The overlap.
    fn overlap(&mut self) -> Result<bool, AllocError>
        ensures bits { OnOk result (all_bits self.new.look ≡ all_bits self.old.look) }
        ensures shows { IfOk result (λ there. Takes (with_names (codes "Q_OVERLAP" ∷ []) ((1, 0) ∷ []))
            self.old.look self.old.end self.new.look self.new.end there) }
    {
        if !self.take("Q_OVERLAP", 1, Kind::Only(0, "none"))? {
            return Ok(false);
        }
        if self.last != 1 {
            return Ok(true);
        }
        self.rows(&[
            ("D_STARTOL", 15, Kind::Distance),
            ("T_OL", 10, Kind::Number),
            ("D_OL", 15, Kind::Distance),
            ("V_RELEASEOL", 7, Kind::Speed),
        ])
    }

    /// Packet 131, RBC transition order.
    pub fn transition(&mut self) -> Result<bool, AllocError>
        ensures bits { OnOk result (all_bits self.new.look ≡ all_bits self.old.look) }
        ensures shows { IfOk result (λ there. (d c r : ℕ)
            → Takes (transition_content d c r)
            self.old.look self.old.end self.new.look self.new.end there) }
    {
        self.rows(&[
            ("Q_SCALE", 2, Kind::Only(1, "unit 1 m")),
            ("D_RBCTR", 15, Kind::Distance),
            ("NID_C", 10, Kind::Number),
            ("NID_RBC", 14, Kind::Number),
            ("NID_RADIO", 64, Kind::Only(u64::MAX, "all ones")),
            ("Q_SLEEPSESSION", 1, Kind::Only(0, "none")),
        ])
    }

    /// Packet 42, session management.
    pub fn session(&mut self) -> Result<bool, AllocError>
        ensures bits { OnOk result (all_bits self.new.look ≡ all_bits self.old.look) }
        ensures shows { IfOk result (λ there. (c r : ℕ)
            → Takes (end_of_session_content c r)
            self.old.look self.old.end self.new.look self.new.end there) }
    {
        self.rows(&[
            ("Q_RBC", 1, Kind::Only(0, "terminate the session")),
            ("NID_C", 10, Kind::Number),
            ("NID_RBC", 14, Kind::Number),
            ("NID_RADIO", 64, Kind::Only(u64::MAX, "all ones")),
            ("Q_SLEEPSESSION", 1, Kind::Only(0, "none")),
        ])
    }
}

// Whether L_TRAININT follows this Q_LENGTH.
fn has_length(q_length: u64) -> bool
    ensures { IsTrue result ↔ ((q_length ≡ 1) ⊎ (q_length ≡ 2)) }
{
    q_length == 1 || q_length == 2
}
