//! Draws the supervisor of each train, and the starts of mission that wait for the right to supervise it.

ghost use Rattle.std.specs.Prelude.{◌≡◌, IfSome, None, OnOk, option_and_then, option_map, Some, ℕ};
ghost use Rattle.rbc_place.specs.declared.place.Place.{Place as Spot};
ghost use Rattle.cli_picture.specs.Rings.{begin_ring, end_ring, old_class, old_words, ring_text};
ghost use Rattle.cli_picture.specs.Scale.{front_of, y_of};
ghost use Rattle.cli_picture.specs.Texts.{Draws};
ghost use Rattle.text_script.specs.Print.Rows.{name_at};
ghost use Rattle.cli_picture.specs.Missions.{centre_of, is_centre, new_seat, way_at};

use crate::boxes::{Look, Stay, draw_box};
use crate::fronts::has_left;
use crate::run::Run;
use crate::scale::Scale;
use crate::style::colour_of;
use rbc_place::Place;
use std::alloc::AllocError;
use text_script::print::name_of;
use text_script::{MissionView, Supervisor};

pub fn draw_seats(svg: &mut String, scale: &Scale<'_>, run: &Run<'_>) -> Result<(), AllocError> {
    for train in 0..run.line.train_count() {
        if run.wants(train) {
            draw_ways(svg, scale, run, train)?;
            draw_rings(svg, scale, run, train)?;
            for centre in 0..run.line.centre_count() {
                draw_waits(svg, scale, run, train, centre)?;
            }
        }
    }
    Ok(())
}

/// The centre that supervises a mission. `None` while the mission is on the way to the next centre.
fn centre_of(mission: &MissionView) -> Option<u8>
    ensures { result ≡ centre_of mission.now.supervisor }
{
    match mission.supervisor {
        Supervisor::At { centre } => Some(centre),
        Supervisor::Parted { .. } => None,
    }
}

fn centre_in(mission: Option<MissionView>) -> Option<u8>
    ensures { result ≡ option_and_then (λ m. centre_of m.supervisor) mission }
{
    centre_of(&mission?)
}

/// The place of a mission that is on the way.
fn way_in(mission: Option<MissionView>) -> Option<Place>
    ensures { result ≡ option_and_then (λ m. way_at m.supervisor m.facts.place) mission }
{
    let mission = mission?;
    match mission.supervisor {
        Supervisor::At { .. } => None,
        Supervisor::Parted { .. } => Some(mission.facts.place),
    }
}

/// Draws a ring with a centre's name when the centre begins to supervise the train. The first drawn event has a ring
/// for the centre that supervises the train then.
fn draw_rings(
    svg: &mut String,
    scale: &Scale<'_>,
    run: &Run<'_>,
    train: u8,
) -> Result<(), AllocError> {
    for e in 0..run.events.len() {
        let (before, after) = run.missions(e, train);
        if let Some((centre, place)) = new_seat(before, after, e) {
            let is_old = has_left(run, e, train, &place);
            draw_ring(svg, scale, (train, e), &place, Ring { centre, is_old })?;
        }
    }
    Ok(())
}

/// The ring of a centre, and whether the mission has an older place than the train has reported.
#[derive(Clone, Copy)]
struct Ring {
    centre: u8,
    is_old: bool,
}

/// The centre that begins to supervise a mission in an event, and the place of the mission. In event 0 it is the centre
/// that supervises the mission then.
fn new_seat(
    before: Option<MissionView>,
    after: Option<MissionView>,
    event: usize,
) -> Option<(u8, Place)>
    ensures { result ≡ new_seat before after event }
{
    let mission = after?;
    let centre = centre_of(&mission)?;
    if event == 0 || !is_centre(centre, centre_in(before)) {
        Some((centre, mission.facts.place))
    } else {
        None
    }
}

fn is_centre(centre: u8, other: Option<u8>) -> bool
    ensures { result ≡ is_centre centre other }
{
    match other {
        Some(other) => centre == other,
        None => false,
    }
}

// The ring is dashed, and has words, if the mission has an older place than the train has reported. `at` has the train
// and the event.
fn draw_ring(
    svg: &mut String,
    scale: &Scale<'_>,
    at: (u8, usize),
    place: &Place,
    ring: Ring,
) -> Result<(), AllocError>
    ensures { OnOk result (Draws svg.old svg.new (ring_text at.0 ring.is_old
        (front_of scale.now.line.now place.now) (y_of scale.now at.1) (name_at scale.now.line.now ring.centre))) }
{
    let x = scale.front(place);
    let y = scale.y(at.1);
    let name = name_of(scale.line, ring.centre);
    begin_ring(svg, at.0, ring.is_old, x, y)?;
    end_ring(svg, x, y, name, ring.is_old)
}

// Draws a circle in a train's colour.
fn begin_ring(svg: &mut String, train: u8, is_old: bool, x: u64, y: u64) -> Result<(), AllocError>
    ensures { OnOk result (Draws svg.old svg.new (begin_ring train is_old x y)) }
{
    let old = old_class(is_old);
    let colour = colour_of(train);
    write!(
        svg,
        "<g class=\"seat{old} c{colour}\"><circle cx=\"{x}\" cy=\"{y}\" r=\"4\"/>"
    )
}

// Writes the name of a centre right of its ring.
fn end_ring(svg: &mut String, x: u64, y: u64, name: &str, is_old: bool) -> Result<(), AllocError>
    ensures { OnOk result (Draws svg.old svg.new (end_ring x y name.now is_old)) }
{
    let words = old_words(is_old);
    writeln!(
        svg,
        "<text x=\"{x}\" y=\"{y}\" dx=\"7\" dy=\"4\">{name}{words}</text></g>"
    )
}

// The class and the words of a ring at an older place.
fn old_class(is_old: bool) -> &'static str
    ensures { result.now ≡ old_class is_old }
{
    if is_old { " old" } else { "" }
}

fn old_words(is_old: bool) -> &'static str
    ensures { result.now ≡ old_words is_old }
{
    if is_old { ": place in its mission" } else { "" }
}

/// Draws a box while a mission is on the way from one centre to the next. It is hollow if the mission has an older
/// place than the train has reported by its end.
fn draw_ways(
    svg: &mut String,
    scale: &Scale<'_>,
    run: &Run<'_>,
    train: u8,
) -> Result<(), AllocError> {
    let mut way = None;
    for e in 0..=run.events.len() {
        let (_, after) = run.missions(e, train);
        let place = way_in(after);
        if let Some((since, place)) = ended(way, place) {
            let look = if has_left(run, e, train, &place) {
                Look::OldWay
            } else {
                Look::Way
            };
            let until = e;
            draw_box(
                svg,
                scale,
                look,
                Stay {
                    train,
                    since,
                    until,
                },
                &place,
            )?;
        }
        way = followed(way, place, e);
    }
    Ok(())
}

/// Draws a dashed box while a start of mission waits at a centre.
fn draw_waits(
    svg: &mut String,
    scale: &Scale<'_>,
    run: &Run<'_>,
    train: u8,
    centre: u8,
) -> Result<(), AllocError> {
    let waits = run.waits_at(train, centre);
    for (w, wait) in waits.iter().enumerate() {
        if let Some(place) = wait.value {
            let until = match waits.get(w.saturating_add(1)) {
                Some(next) => next.since,
                None => run.events.len(),
            };
            let since = wait.since;
            draw_box(
                svg,
                scale,
                Look::Wait,
                Stay {
                    train,
                    since,
                    until,
                },
                &place,
            )?;
        }
    }
    Ok(())
}

/// The mark that has lasted at a place since an event, if it is not there any more.
fn ended(was: Option<(usize, Place)>, place: Option<Place>) -> Option<(usize, Place)>
    ensures lasted { IfSome result (λ mark. was ≡ Some mark) }
    ensures gone { place ≡ None → result ≡ was }
{
    let mark = was?;
    if place == Some(mark.1) {
        None
    } else {
        Some(mark)
    }
}

/// The mark that is at this place in an event. It goes on if it was there before.
fn followed(
    was: Option<(usize, Place)>,
    place: Option<Place>,
    event: usize,
) -> Option<(usize, Place)>
    ensures nowhere { place ≡ None → result ≡ None }
    ensures begins { was ≡ None → result ≡ option_map {U = ℕ × Spot} (λ p. (event, p)) place }
{
    let place = place?;
    match was {
        Some(mark) if mark.1 == place => Some(mark),
        _ => Some((event, place)),
    }
}
