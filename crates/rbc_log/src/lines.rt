ghost use Rattle.std.specs.Prelude.{◌≡◌, ◌↔◌, IsTrue, option_map, slice_get};
ghost use Rattle.rbc_line.specs.Views.{placed_section};

use rbc_line::Line;

/// Whether two lines are the same, in the whole content of a line file.
pub(crate) fn is_same_line(a: &Line, b: &Line) -> bool
    ensures { IsTrue result ↔ (a.now ≡ b.now) }
{
    a.nid_c() == b.nid_c()
        && has_same_centres(a, b)
        && has_same_tracks(a, b)
        && has_same_sections(a, b)
        && has_same_trains(a, b)
}

fn has_same_centres(a: &Line, b: &Line) -> bool
    ensures { IsTrue result ↔ (a.now.centres ≡ b.now.centres) }
{
    if a.centre_count() != b.centre_count() {
        return false;
    }
    for c in 0..a.centre_count() {
        if !is_same_centre(a, b, c) {
            return false;
        }
    }
    true
}

// Whether the centres of this number have the same name and the same NID_RBC.
fn is_same_centre(a: &Line, b: &Line, c: u8) -> bool
    ensures { IsTrue result ↔ (slice_get a.now.centres c ≡ slice_get b.now.centres c) }
{
    a.nid_rbc(c) == b.nid_rbc(c) && is_same_name(a.centre_name(c), b.centre_name(c))
}

fn has_same_tracks(a: &Line, b: &Line) -> bool
    ensures { IsTrue result ↔ (a.now.tracks ≡ b.now.tracks) }
{
    if a.track_count() != b.track_count() {
        return false;
    }
    for track in 0..a.track_count() {
        if !is_same_name(a.track_name(track), b.track_name(track)) {
            return false;
        }
    }
    true
}

fn has_same_sections(a: &Line, b: &Line) -> bool
    ensures { IsTrue result ↔ (a.now.sections ≡ b.now.sections) }
{
    if a.section_count() != b.section_count() {
        return false;
    }
    for s in 0..a.section_count() {
        if !is_same_section(a, b, s) {
            return false;
        }
    }
    true
}

fn is_same_section(a: &Line, b: &Line, s: u16) -> bool
    ensures { IsTrue result ↔ (placed_section a.now s ≡ placed_section b.now s) }
{
    a.section(s) == b.section(s)
}

fn has_same_trains(a: &Line, b: &Line) -> bool
    ensures { IsTrue result ↔ (a.now.trains ≡ b.now.trains) }
{
    if a.train_count() != b.train_count() {
        return false;
    }
    for i in 0..a.train_count() {
        if a.train(i) != b.train(i) {
            return false;
        }
    }
    true
}

// Whether both are the same name, or none.
fn is_same_name(a: Option<&str>, b: Option<&str>) -> bool
    ensures { IsTrue result ↔ (option_map (λ name. name.now) a.entry ≡ option_map (λ name. name.now) b.entry) }
{
    match (a, b) {
        (Some(name), Some(other)) => name == other,
        (None, None) => true,
        (Some(_), None) | (None, Some(_)) => false,
    }
}
