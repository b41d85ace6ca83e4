ghost use Rattle.std.specs.Prelude.{◌≡◌};
ghost use Rattle.rbc_spec.specs.Place as spec;
ghost use Rattle.rbc_place.specs.Places.{place_of};

use crate::cover::covered;
use crate::place::Place;
use crate::sections::track_end;
use rbc_hand::Hand;
use rbc_line::Line;

/// Whether the place is fit for a start of mission. Both ends of the train are known and on the track, and the rear end
/// is in rear of the front end. The train covers at most 32 sections.
pub fn is_fit(line: &Line, place: &Place) -> bool
    ensures { result ≡ spec.is_fit line.now (place_of place.now) }
{
    match place.rear {
        Some(rear) => {
            0 <= rear
                && i64::from(rear) < i64::from(place.front)
                && place.front <= 10 * track_end(line, place.track)
                && covered(line, place).count <= Hand::ROOM
        }
        None => false,
    }
}
