//! Laws of a centre that no other centre has a part in.

ghost use Rattle.std.specs.Prelude.{◌≡◌, ℕ, List, [], Ok};
ghost use Rattle.rbc_spec.specs.Line.{Line, IsLine};
ghost use Rattle.rbc_spec.specs.Message.{TrainMessage};
ghost use Rattle.rbc_spec.specs.Centre.{Centre, beginning};
ghost use Rattle.rbc_spec.specs.Step.{Train, Set, Unset};
ghost use Rattle.rbc_spec.specs.World.{World, Event, Answer, new_world, world_run};
ghost use Rattle.rbc_spec.specs.Theorems.{IsOneCentreLine};
ghost use Rattle.law_base.specs.Local.Local.{IsOrdered, IsLocalAt, IsLocal};
ghost use Rattle.law_base.specs.Local.Stays.{StaysLocal};

/// Each line is in order. The sections that a place covers are a run, and so are those of one home on a track. On one
/// track the ends of sections rise.
pub fn every_line_is_ordered()
    ensures { (line : Line) → IsLine line → IsOrdered line }
{}

/// At its beginning a centre is local.
pub fn a_centre_begins_local()
    ensures { (line : Line) (c : ℕ) → IsLocalAt line c (beginning line c) }
{}

/// A local centre stays local and sends no frame after each set and unset. On a one-centre line the same holds after
/// each message of a train.
pub fn a_centre_stays_local()
    ensures train { (line : Line) (c d : ℕ) (k : Centre) (m : TrainMessage) → IsOrdered line → IsOneCentreLine line d
        → IsLocalAt line c k → StaysLocal line c k (Train m) }
    ensures set { (line : Line) (c : ℕ) (k : Centre) (s : ℕ) → IsLocalAt line c k → StaysLocal line c k (Set s) }
    ensures unset { (line : Line) (c : ℕ) (k : Centre) (s : ℕ) → IsLocalAt line c k → StaysLocal line c k (Unset s) }
{}

/// Whatever happens to the centres of a one-centre line, each of them is local, and none has sent a frame.
pub fn a_line_stays_local()
    ensures local { (line : Line) (c : ℕ) (events : List Event) (answers : List Answer) (w : World) → IsLine line
        → IsOneCentreLine line c
        → world_run line (new_world line) events ≡ Ok (answers, w) → IsLocal line w }
    ensures none_sent { (line : Line) (c : ℕ) (events : List Event) (answers : List Answer) (w : World) (a b : ℕ)
        → IsLine line → IsOneCentreLine line c
        → world_run line (new_world line) events ≡ Ok (answers, w) → (w.at a).sent b ≡ [] }
{}
