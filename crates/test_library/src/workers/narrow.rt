//! A carrier that is full with one frame.

ghost use Rattle.std.specs.Prelude.{◌≡◌};

use rbc_board::Carrier;
use rbc_linkmsg::Frame;
use std::sync::atomic::{AtomicU32, Ordering};

/// Takes a frame only once the one before was got, and hands it back else.
#[derive(Drop)]
pub struct Narrow<C: Carrier + Drop> {
    inner: C,
    got: AtomicU32,
}

impl<C: Carrier + Drop> Narrow<C> {
    /// A narrow carrier over this one.
    pub fn new(inner: C) -> Narrow<C>
        ensures { result.inner ≡ inner }
    {
        Narrow {
            inner,
            got: AtomicU32::new(0),
        }
    }
}

impl<C: Carrier + Drop> Carrier for Narrow<C> {
    type Seen = C::Seen;

    ghost is_of = { λ c s. C.is_of c.inner s };

    ghost known = { λ s n. C.known s n };

    fn put(&self, seen: &mut C::Seen, number: u32, frame: Frame) -> Result<(), Frame> {
        if number > self.got.load(Ordering::SeqCst).saturating_add(1) {
            return Err(frame);
        }
        self.inner.put(seen, number, frame)
    }

    fn get(&self, seen: &mut C::Seen, number: u32) -> Option<Frame> {
        let frame = self.inner.get(seen, number)?;
        self.got.store(number, Ordering::SeqCst);
        Some(frame)
    }

    fn compare(&self, mine: &mut C::Seen, other: C::Seen, number: u32) {
        self.inner.compare(mine, other, number);
    }
}
