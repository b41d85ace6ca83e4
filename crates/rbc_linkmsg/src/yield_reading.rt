//! The body of a Yield, each number read at its place and looked at before the next.

ghost use Rattle.std.specs.Prelude.{◌≡◌, ◌+◌, ◌≤◌, ◌++◌, ◌∷◌, [], ℕ, Bool, length, drop, IfSome, IsTrue, is_some};
ghost use Rattle.byteorder.specs.Endian.{big_bytes};
ghost use Rattle.rbc_spec.specs.Frame as spec;
ghost use Rattle.rbc_spec.specs.SectionRuns as runs;
ghost use Rattle.rbc_line.specs.SectionRuns.{run_of};
ghost use Rattle.rbc_linkmsg.specs.Bodies.{body_of, place_of};
ghost use Rattle.rbc_linkmsg.specs.Raw as readings;
ghost use Rattle.rbc_linkmsg.specs.Spelling as spelling;
ghost use Rattle.rbc_linkmsg.specs.declared.kind.FrameKind.TheVariants as kinds;

use crate::body::{Body, YieldedPlace, Yielding};
use crate::body_writing::rear_distance;
use crate::ranges::is_engine;
use byteorder::{BigEndian, ByteOrder};
use rbc_line::SectionRun;

/// The body that the bytes of a Yield spell after the kind; `None` if they spell none.
#[inline(always)]
#[tactic(auto, unfolding(crate::specs::Spelling::spelled))]
pub(crate) fn read_yield(bytes: &[u8]) -> Option<Body>
    requires { length bytes.now ≡ 38 }
    ensures spelled { IfSome result (λ b. drop 9 bytes.now ≡ spelling.spelled (spelling.body_fields (body_of b))) }
    ensures range { IfSome result (λ b. spec.HasBodyRange (body_of b)) }
    ensures kind { IfSome result (λ b. spelling.kind_of (body_of b) ≡ kinds.Yield) }
    ensures found { (number t heard : ℕ) (d e : Bool) (p : spec.YieldedPlace) (hand : runs.SectionRun)
        → spec.HasBodyRange (spec.Yield number t heard d e p hand)
        → spelling.body_fields (spec.Yield number t heard d e p hand) ≡ readings.raw_fields bytes.now
        → IsTrue (is_some result) }
{
    let handover = u32_at(bytes, 9);
    if handover == 0 {
        return None;
    }
    let engine = u32_at(bytes, 13);
    if !is_engine(engine) {
        return None;
    }
    let yielding = read_yielding(bytes)?;
    Some(Body::Yield {
        handover,
        engine,
        yielding,
    })
}

// The mission that is handed over with the supervision.
#[inline(always)]
#[tactic(auto, unfolding(crate::specs::Spelling::spelled))]
fn read_yielding(bytes: &[u8]) -> Option<Yielding>
    requires { length bytes.now ≡ 38 }
    ensures spelled { IfSome result (λ y. drop 17 bytes.now ≡ spelling.spelled ((4, y.heard)
        ∷ (spelling.place_fields y.has_data y.is_ended (place_of y.place) ++ spelling.run_fields (run_of y.hand)))
        ++ drop 38 bytes.now) }
    ensures heard { IfSome result (λ y. y.heard ≤ 4294967294) }
    ensures place { IfSome result (λ y. spec.HasPlaceRange (place_of y.place)) }
    ensures hand { IfSome result (λ y. spec.HasRunRange 1 runs.most_in_hand (run_of y.hand)) }
    ensures found { (heard : ℕ) (d e : Bool) (p : spec.YieldedPlace) (hand : runs.SectionRun)
        → heard ≤ 4294967294 → spec.HasPlaceRange p → spec.HasRunRange 1 runs.most_in_hand hand
        → heard ≡ readings.number_at 4 17 bytes.now → spelling.place_fields d e p ≡ readings.raw_place_fields bytes.now
        → spelling.run_fields hand ≡ readings.raw_run_fields bytes.now → IsTrue (is_some result) }
{
    let heard = u32_at(bytes, 17);
    if heard > 4_294_967_294 {
        return None;
    }
    let place = read_place(bytes)?;
    let hand = read_hand(bytes)?;
    let flags = u8_at(bytes, 22);
    Some(Yielding {
        heard,
        has_data: flags % 2 == 1,
        is_ended: flags / 2 % 2 == 1,
        place,
        hand,
    })
}

// The place; the flags mark its rear as known or not.
#[inline(always)]
#[tactic(auto, unfolding(crate::specs::Spelling::spelled))]
fn read_place(bytes: &[u8]) -> Option<YieldedPlace>
    requires { length bytes.now ≡ 38 }
    ensures spelled { IfSome result (λ p. drop 21 bytes.now ≡ spelling.spelled (spelling.place_fields
        (readings.has_data_at bytes.now) (readings.is_ended_at bytes.now) (place_of p)) ++ drop 35 bytes.now) }
    ensures range { IfSome result (λ p. spec.HasPlaceRange (place_of p)) }
    ensures found { (d e : Bool) (p : spec.YieldedPlace) → spec.HasPlaceRange p
        → spelling.place_fields d e p ≡ readings.raw_place_fields bytes.now → IsTrue (is_some result) }
{
    let track = u8_at(bytes, 21);
    if track > 3 {
        return None;
    }
    let flags = u8_at(bytes, 22);
    if flags > 7 {
        return None;
    }
    let group = u32_at(bytes, 23);
    if group > 16_777_214 {
        return None;
    }
    let front = u32_at(bytes, 27).cast_signed();
    let distance = u32_at(bytes, 31);
    let rear = rear_from(flags, distance);
    if rear_distance(rear) != distance {
        return None;
    }
    Some(YieldedPlace {
        track,
        group,
        front,
        rear,
    })
}

// The rear, if the flags mark it as known.
#[inline(always)]
fn rear_from(flags: u8, rear: u32) -> Option<i32>
    ensures { result ≡ readings.rear_from flags rear }
{
    if flags < 4 {
        None
    } else {
        Some(rear.cast_signed())
    }
}

// The sections of the movement authority.
#[inline(always)]
#[tactic(auto, unfolding(crate::specs::Spelling::spelled))]
fn read_hand(bytes: &[u8]) -> Option<SectionRun>
    requires { length bytes.now ≡ 38 }
    ensures spelled { IfSome result (λ hand. drop 35 bytes.now
        ≡ spelling.spelled (spelling.run_fields (run_of hand)) ++ drop 38 bytes.now) }
    ensures range { IfSome result (λ hand. spec.HasRunRange 1 runs.most_in_hand (run_of hand)) }
    ensures found { (hand : runs.SectionRun) → spec.HasRunRange 1 runs.most_in_hand hand
        → spelling.run_fields hand ≡ readings.raw_run_fields bytes.now → IsTrue (is_some result) }
{
    let count = u16::from(u8_at(bytes, 37));
    if count == 0 || count > 32 {
        return None;
    }
    let first = u16_at(bytes, 35);
    let hand = SectionRun { first, count };
    if hand.next_after() > 512 {
        return None;
    }
    Some(hand)
}

// The number in the four bytes from this place on.
#[inline(always)]
#[tactic(auto, unfolding(crate::specs::Raw::number_at))]
fn u32_at(bytes: &[u8], place: usize) -> u32
    requires { place + 4 ≤ length bytes.now }
    ensures value { result ≡ readings.number_at 4 place bytes.now }
    ensures taken { drop place bytes.now ≡ big_bytes 4 result ++ drop (place + 4) bytes.now }
{
    BigEndian::read_u32(&bytes[place..])
}

// The number in the two bytes from this place on.
#[inline(always)]
#[tactic(auto, unfolding(crate::specs::Raw::number_at))]
fn u16_at(bytes: &[u8], place: usize) -> u16
    requires { place + 2 ≤ length bytes.now }
    ensures value { result ≡ readings.number_at 2 place bytes.now }
    ensures taken { drop place bytes.now ≡ big_bytes 2 result ++ drop (place + 2) bytes.now }
{
    BigEndian::read_u16(&bytes[place..])
}

// The byte at this place.
#[inline(always)]
#[tactic(auto, unfolding(crate::specs::Raw::number_at))]
fn u8_at(bytes: &[u8], place: usize) -> u8
    requires { place + 1 ≤ length bytes.now }
    ensures value { result ≡ readings.number_at 1 place bytes.now }
    ensures taken { drop place bytes.now ≡ big_bytes 1 result ++ drop (place + 1) bytes.now }
{
    bytes[place]
}
