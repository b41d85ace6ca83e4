//! Draws the boxes of missions on the way, and of starts that wait.

ghost use Rattle.std.specs.Prelude.{◌≡◌, OnOk};
ghost use Rattle.cli_picture.specs.Boxes.{begin_path, box_text, end_path, look_of, outline};
ghost use Rattle.cli_picture.specs.Scale.{front_of, rear_of, until_of, y_of};
ghost use Rattle.cli_picture.specs.Texts.{Draws};

use crate::scale::Scale;
use crate::style::colour_of;
use rbc_place::Place;
use std::alloc::AllocError;

/// The look of a box: a mission on the way, one at an older place than its train has reported, or a start that waits.
#[derive(Clone, Copy)]
pub enum Look {
    Way,
    OldWay,
    Wait,
}

/// The class and the description of a box.
fn look_of(look: Look) -> (&'static str, &'static str)
    ensures { look_of look ≡ (result.0.now, result.1.now) }
{
    match look {
        Look::Way => ("way", "on the way from one centre to the next"),
        Look::OldWay => (
            "way old",
            "on the way from one centre to the next, at the place in its mission",
        ),
        Look::Wait => ("wait", "a start of mission that waits"),
    }
}

/// The train of a box, and the events from which on and up to which it is there.
#[derive(Clone, Copy)]
pub struct Stay {
    pub train: u8,
    pub since: usize,
    pub until: usize,
}

/// Draws a box at a place.
pub fn draw_box(
    svg: &mut String,
    scale: &Scale<'_>,
    look: Look,
    stay: Stay,
    place: &Place,
) -> Result<(), AllocError>
    ensures { OnOk result (Draws svg.old svg.new (box_text stay.train (look_of look).0 (look_of look).1
        (front_of scale.now.line.now place.now) (rear_of scale.now.line.now place.now place.now.rear)
        (y_of scale.now stay.since) (until_of scale.now stay.until))) }
{
    let (class, words) = look_of(look);
    let ends = (scale.front(place), scale.rear(place));
    let y = scale.y(stay.since);
    let bottom = scale.until(stay.until);
    begin_path(svg, stay.train, class)?;
    draw_outline(svg, ends, y, bottom)?;
    end_path(svg, words)
}

// Begins a path of this class in a train's colour.
fn begin_path(svg: &mut String, train: u8, class: &str) -> Result<(), AllocError>
    ensures { OnOk result (Draws svg.old svg.new (begin_path train class.now)) }
{
    let colour = colour_of(train);
    write!(svg, "<path class=\"{class} c{colour}\" d=\"")
}

// Draws an outline. `ends` has the right end and the left one.
fn draw_outline(svg: &mut String, ends: (u64, u64), y: u64, bottom: u64) -> Result<(), AllocError>
    ensures { OnOk result (Draws svg.old svg.new (outline ends.0 ends.1 y bottom)) }
{
    let (right, left) = ends;
    write!(svg, "M{right} {y}V{bottom}H{left}V{y}z\">")
}

// Writes the title and the end of a path.
fn end_path(svg: &mut String, words: &str) -> Result<(), AllocError>
    ensures { OnOk result (Draws svg.old svg.new (end_path words.now)) }
{
    writeln!(svg, "<title>{words}</title></path>")
}
