//! Places on the line in metres from the start of their track.

ghost use Rattle.std.specs.Prelude.{◌≡◌, IfOk, string_bytes};
ghost use Rattle.text_words.specs.Said.{point_of, point_words, track_at, track_name};

use rbc_line::Line;
use rbc_packets::Position;
use rbc_place::{extent, section_start};
use std::alloc::{AllocError, Global};
use std::fmt;
use std::fmt::Formatter;

/// A distance in decimetres, shown in metres, with a tenth if it has one.
#[derive(Clone, Copy)]
pub struct Decimetres(pub i32);

impl fmt::Display for Decimetres {
    fn fmt<W: fmt::Write>(&self, f: &mut Formatter<W>) -> fmt::Result {
        let sign = if self.0 < 0 { "-" } else { "" };
        let size = self.0.unsigned_abs();
        let metres = size / 10;
        match size % 10 {
            0 => write!(f, "{sign}{metres}"),
            tenths => write!(f, "{sign}{metres}.{tenths}"),
        }
    }
}

/// The place of a train by its report: from the safe rear to the safe front. If integrity is not confirmed, it is
/// only the front.
pub fn place_in_words(
    alloc: Global,
    line: &Line,
    position: &Position,
) -> Result<String, AllocError> {
    let Some(place) = extent(line, position) else {
        return String::from_str(alloc, "no place on the line");
    };
    let track = line.track_name(place.track).unwrap_or("?");
    let front = Decimetres(i32::try_from(place.front).unwrap_or(i32::MAX));
    match place.rear {
        Some(rear) => {
            let rear = Decimetres(rear);
            format!(in alloc; "{rear} to {front} m of {track}")
        }
        None => format!(in alloc; "front at {front} m of {track}"),
    }
}

/// The place that lies this many metres past a balise group.
pub fn point_in_words(
    alloc: Global,
    line: &Line,
    nid_lrbg: u32,
    metres: u64,
) -> Result<String, AllocError>
    ensures { IfOk result (λ text. string_bytes text ≡ point_words line.now nid_lrbg metres) }
{
    let Some(number) = line.section_of_group(nid_lrbg) else {
        return format!(in alloc; "{metres} m past NID_LRBG {nid_lrbg}");
    };
    let point = point_of(line, number, metres);
    let track = track_of(line, number);
    format!(in alloc; "{point} m of {track}")
}

// The metres of a point this far from the start of a section.
fn point_of(line: &Line, number: u16, metres: u64) -> u64
    ensures { result ≡ point_of line.now number metres }
{
    u64::from(section_start(line, number)).saturating_add(metres)
}

/// The name of a track.
pub fn name_of_track(line: &Line, track: u8) -> &str
    ensures { result.now ≡ track_name line.now track }
{
    line.track_name(track).unwrap_or("?")
}

/// The name of the track of a section.
pub fn track_of(line: &Line, number: u16) -> &str
    ensures { result.now ≡ track_at line.now number }
{
    match line.section(number) {
        Some(section) => name_of_track(line, section.track),
        None => "?",
    }
}
