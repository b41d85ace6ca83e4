ghost use Rattle.std.specs.Prelude.{◌≡◌, ◌+◌, ◌-◌, ◌<◌, ◌≤◌, ◌||◌, ℕ, true};
ghost use Rattle.rbc_spec.specs.SectionRuns.{next_after, longest, within};
ghost use Rattle.rbc_spec.specs.Centre.{is_open};
ghost use Rattle.rbc_spec.specs.Place.{group_start};
ghost use Rattle.rbc_book.specs.Book.{entry_at};
ghost use Rattle.rbc_line.specs.SectionRuns.{run_of};
ghost use Rattle.rbc_place.specs.Places.{place_of};
ghost use Rattle.rbc_grant.specs.Grants as grants;

use rbc_book::Book;
use rbc_hand::Hand;
use rbc_line::{Line, SectionRun};
use rbc_place::{Place, is_on, section_end};

/// The greatest distance from a balise group at which a movement authority may end, in metres.
pub(crate) const MOST_METRES: u32 = 32_767;

/// The number of sections that may extend the hand, up to 32 in the hand. The place's group is at this start.
#[inline(always)]
pub(crate) fn following(
    line: &Line,
    book: &Book,
    pool: SectionRun,
    hand: SectionRun,
    place: &Place,
    start: u32,
) -> u16
    requires start { start ≡ group_start line.now (place_of place.now) }
    requires bound { start ≤ 1024000 }
    ensures value { result
        ≡ longest (grants.may_follow line.now book.now (run_of pool) (place_of place.now)) (next_after (run_of hand))
        (32 - hand.count) }
    ensures bound { result ≤ 32 - hand.count }
{
    let room = Hand::ROOM.saturating_sub(hand.count);
    let open = open_ahead(book, hand, room);
    for k in 0..room {
        let s = hand.next_after() + u32::from(k);
        let is_known_open = k < open;
        if !may_follow(line, book, pool, place, start, s, is_known_open) {
            return k;
        }
    }
    room
}

// The number of consecutive open sections in advance of the hand, up to the limit.
fn open_ahead(book: &Book, hand: SectionRun, most: u16) -> u16
    ensures { (k : ℕ) → k < result → is_open (entry_at book.now (next_after (run_of hand) + k)) ≡ true }
{
    let first = hand.next_after();
    if first > u32::from(u16::MAX) {
        return 0;
    }
    book.open_run(first as u16, most)
}

// Whether the section may follow in the hand of a train at this place. It must be on its track, and open in this book
// or in the pool. Its end must be in range of the group, which is at this start. The book is not asked about a section
// that is known to be open.
#[inline(always)]
fn may_follow(
    line: &Line,
    book: &Book,
    pool: SectionRun,
    place: &Place,
    start: u32,
    s: u32,
    is_known_open: bool,
) -> bool
    requires known { is_known_open ≡ true → is_open (entry_at book.now s) ≡ true }
    requires start { start ≡ group_start line.now (place_of place.now) }
    requires bound { start ≤ 1024000 }
    ensures { result ≡ grants.may_follow line.now book.now (run_of pool) (place_of place.now) s }
{
    if s >= u32::from(line.section_count()) {
        return false;
    }
    is_on(line, place.track, s)
        && (is_known_open || is_free(book, pool, s as u16))
        && section_end(line, s) <= start + MOST_METRES
}

// Whether the section is open in this book, or of the pool.
fn is_free(book: &Book, pool: SectionRun, s: u16) -> bool
    ensures { result ≡ (is_open (entry_at book.now s) || within (run_of pool) s) }
{
    book.page(s).entry.is_open() || pool.contains(s)
}
