//! Whether a train may start its mission (5.4).

ghost use Rattle.std.specs.Prelude.{◌≡◌, ◌&&◌, ◌<◌, option_map, true, IfSome};
ghost use Rattle.rbc_spec.specs.Centre as spec;
ghost use Rattle.rbc_spec.specs.Centre.{is_free};
ghost use Rattle.rbc_spec.specs.Place as place;
ghost use Rattle.rbc_spec.specs.Place.{fit_place};
ghost use Rattle.rbc_spec.specs.SectionRuns.{within, all_of};
ghost use Rattle.rbc_msgs.specs.StepMessage as message;
ghost use Rattle.rbc_msgs.specs.StepMessage.{position_of};
ghost use Rattle.rbc_line.specs.SectionRuns.{run_of};
ghost use Rattle.rbc_place.specs.Places.{place_of};
ghost use Rattle.rbc_train.specs.Desks.{IsBookOf, HasBook};

use rbc_book::Book;
use rbc_line::{Line, SectionRun};
use rbc_packets::Position;
use rbc_place::{Place, extent, is_fit};
use rbc_vars::QStatus;

/// The place of a start of mission that is fit (5.4).
pub(crate) fn place_of_start(line: &Line, q_status: QStatus, position: &Position) -> Option<Place>
    ensures value { option_map place_of result
        ≡ fit_place line.now (message.is_valid q_status) (position_of position.now) }
    ensures fit { IfSome result (λ p. place.is_fit line.now (place_of p) ≡ true) }
{
    let place = extent(line, position)?;
    if matches!(q_status, QStatus::Valid) && is_fit(line, &place) {
        Some(place)
    } else {
        None
    }
}

/// Whether all sections of the run are in the hand.
pub(crate) fn has_all(hand: SectionRun, run: SectionRun) -> bool
    ensures { result ≡ all_of (within (run_of hand)) (run_of run) }
{
    run.is_empty() || (hand.first <= run.first && run.next_after() <= hand.next_after())
}

// Whether all sections of the run are released, and of this centre's home.
pub(crate) fn are_free(line: &Line, centre: u8, book: &Book, run: SectionRun) -> bool
    requires { IsBookOf line.now centre book.now }
    ensures { (k : spec.Centre) → HasBook k book.now → result ≡ all_of (is_free line.now centre k) (run_of run) }
{
    for k in 0..run.count {
        if !is_free(line, centre, book, u32::from(run.first) + u32::from(k)) {
            return false;
        }
    }
    true
}

// Whether a section is released, and of this centre's home.
fn is_free(line: &Line, centre: u8, book: &Book, s: u32) -> bool
    requires { IsBookOf line.now centre book.now }
    ensures { (k : spec.Centre) → HasBook k book.now → result ≡ is_free line.now centre k s }
{
    s < u32::from(line.section_count()) && book.page(s as u16).entry.is_open()
}
