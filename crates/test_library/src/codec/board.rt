//! A queue carries the frames of a link from one caller to another, in the order of their numbers. It has room for 64.
ghost use Rattle.std.specs.Prelude.{◌≤◌};

use rbc_board::{Carrier, QueueCarrier};
use rbc_linkmsg::{Body, Frame};
use std::test::*;

// A frame of this number.
fn numbered(number: u32) -> Frame
    requires { (1 ≤ number) × (number ≤ 65536) }
{
    Frame::new(number, number, Body::AskRight { engine: 2 })
}

// Puts `count` frames from the first on. The result is whether all are taken.
fn puts_all<C: Carrier>(carrier: &C, seen: &mut C::Seen, count: u32) -> bool
    requires link { C.is_of carrier.now seen.old }
    requires count { count ≤ 65536 }
    ensures { C.is_of carrier.now seen.new }
{
    for k in 0..count {
        if carrier.put(seen, k + 1, numbered(k + 1)).is_err() {
            return false;
        }
    }
    true
}

// One frame too many is put into a full queue: before the receiver takes the first frame, and after that. The result is
// that of both puts, and of two gets of the first frame.
fn put_past_the_room<C: Carrier>(
    carrier: &C,
    sender: &mut C::Seen,
    receiver: &mut C::Seen,
) -> ([Result<(), Frame>; 2], [Option<Frame>; 2])
    requires sender { C.is_of carrier.now sender.old }
    requires receiver { C.is_of carrier.now receiver.old }
{
    let full = carrier.put(sender, 65, numbered(65));
    let first = carrier.get(receiver, 1);
    let after = carrier.put(sender, 65, numbered(65));
    let again = carrier.get(receiver, 1);
    ([full, after], [first, again])
}

#[test]
fn a_queue_hands_back_what_it_has_no_room_for_and_gives_what_is_known_again(
    rt: HostRuntime,
) -> Result<(), Fail> {
    let (queue, mut sender, mut receiver) = QueueCarrier::new(&rt, rt.alloc())?;
    let are_taken = puts_all(&queue, &mut sender, 64);
    let (said, got) = put_past_the_room(&queue, &mut sender, &mut receiver);
    let (first, last) = (numbered(1), numbered(65));
    assert!(rt; (are_taken, said, got) == (true, [Err(last), Ok(())], [Some(first), Some(first)]));
    Ok(())
}

// The receiver puts a frame. The sender puts one under number 2, and then one under number 1 twice. The result is that
// of each put, and the frames that the sender gets under the numbers 2 and 1, and that the receiver gets.
fn put_and_got_by_each<C: Carrier>(
    carrier: &C,
    sender: &mut C::Seen,
    receiver: &mut C::Seen,
) -> ([Result<(), Frame>; 4], [Option<Frame>; 4])
    requires sender { C.is_of carrier.now sender.old }
    requires receiver { C.is_of carrier.now receiver.old }
    ensures sender { C.is_of carrier.now sender.new }
    ensures receiver { C.is_of carrier.now receiver.new }
{
    let said = [
        carrier.put(receiver, 1, numbered(1)),
        carrier.put(sender, 2, numbered(2)),
        carrier.put(sender, 1, numbered(1)),
        carrier.put(sender, 1, numbered(1)),
    ];
    let got = [
        carrier.get(sender, 2),
        carrier.get(sender, 1),
        carrier.get(receiver, 2),
        carrier.get(receiver, 1),
    ];
    (said, got)
}

#[test]
fn only_one_caller_of_a_queue_puts_and_only_the_other_takes(rt: HostRuntime) -> Result<(), Fail> {
    let (queue, mut sender, mut receiver) = QueueCarrier::new(&rt, rt.alloc())?;
    let (said, got) = put_and_got_by_each(&queue, &mut sender, &mut receiver);
    queue.compare(&mut sender, receiver, 1);
    let (first, second) = (numbered(1), numbered(2));
    let by_each = [Err(first), Err(second), Ok(()), Err(first)];
    assert!(rt; (said, got) == (by_each, [None, Some(first), None, Some(first)]));
    Ok(())
}
