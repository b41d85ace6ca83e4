ghost use Rattle.std.specs.Prelude.{◌≡◌, ◌≤◌, ◌<◌, ℕ, ◌+◌, ◌-◌, ◌*◌, List, max, IfErr, OnOk, OnErr};
ghost use Rattle.serve_workers.specs.Reading.Rates.{Ask, Answers, held_at, last_time, passed};

/// The cost of one message in a bucket, in thousandths of a message.
const MESSAGE: u64 = 1000;

/// The rate of a connection's messages.
#[derive(Clone, Copy, Debug, PartialEq, Eq)]
pub struct Rate {
    /// The messages per second, on average.
    pub per_second: u32,
    /// The messages at once, after a long enough silence.
    pub burst: u32,
}

/// The messages that a connection may still send at once. The level rises with time, and each message takes from it. In
/// any span of time the bucket passes at most one burst, and the gain of its rate in that time
/// (`a_bucket_keeps_to_its_rate`).
#[derive(Clone, Copy, Debug)]
pub struct Bucket {
    rate: Rate,
    // In thousandths of a message.
    level: u64,
    // The time of the last fill, in milliseconds.
    at: u64,
}

impl Bucket {
    /// A full bucket, at the time 0.
    pub fn new(rate: Rate) -> Bucket
        ensures rate { result.rate ≡ rate }
        ensures full { result.level ≡ rate.burst * 1000 }
        ensures at { result.at ≡ 0 }
    {
        Bucket {
            rate,
            level: u64::from(rate.burst) * MESSAGE,
            at: 0,
        }
    }

    /// Asks whether one more message may pass at this time, in milliseconds. If it may not, the error is the number of
    /// milliseconds to wait before it asks again.
    pub fn ask(&mut self, now: u64) -> Result<(), u64>
        ensures rate { self.new.rate ≡ self.old.rate }
        ensures at { self.new.at ≡ max self.old.at now }
        ensures ok { OnOk result (self.new.level + 1000 ≡ held_at self.old now) }
        ensures err { OnErr result (self.new.level ≡ held_at self.old now) }
        ensures held { OnErr result (self.new.level < 1000) }
        ensures wait { IfErr result (λ wait. 1000 ≤ self.new.level + wait * max self.old.rate.per_second 1) }
        ensures soon { IfErr result (λ wait. (wait - 1) * max self.old.rate.per_second 1 + self.new.level ≤ 1000) }
    {
        self.fill(now);
        if self.level >= MESSAGE {
            self.level -= MESSAGE;
            return Ok(());
        }
        let per_second = u64::from(self.rate.per_second).max(1);
        Err((MESSAGE - self.level) / per_second + 1)
    }

    // Adds the gain since the last fill.
    fn fill(&mut self, now: u64)
        ensures rate { self.new.rate ≡ self.old.rate }
        ensures at { self.new.at ≡ max self.old.at now }
        ensures level { self.new.level ≡ held_at self.old now }
    {
        let gone = now.saturating_sub(self.at);
        let came = gone.saturating_mul(u64::from(self.rate.per_second));
        let room = u64::from(self.rate.burst) * MESSAGE;
        self.level = self.level.saturating_add(came).min(room);
        self.at = self.at.max(now);
    }
}

/// For any asks and any level at first: the bucket passes at most its capacity and the gain of its rate. The gain
/// counts from the last fill before the first ask to the last ask.
pub fn a_bucket_keeps_to_its_rate()
    ensures { (rate burst level at : ℕ) (asks : List Ask) → level ≤ burst * 1000 → Answers rate burst level at asks
        → passed asks * 1000 ≤ burst * 1000 + (last_time at asks - at) * rate }
{}
