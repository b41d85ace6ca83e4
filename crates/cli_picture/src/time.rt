//! The axis of time. Times are in milliseconds since 1970 in UTC.

ghost use Rattle.std.specs.Int.{div_ceil};
ghost use Rattle.std.specs.List.{find};
ghost use Rattle.std.specs.Prelude.{◌≡◌, ◌<◌, ◌≤◌, ◌+◌, ◌-◌, ◌*◌, ◌/◌, ◌%◌, ◌^◌, if◌then◌else◌, ℕ, nat_le, nat_lt};
ghost use Rattle.std.specs.Prelude.{max, min};
ghost use Rattle.std.specs.Prelude.{count_by, unwrap_or, IfSome, None, Some};
ghost use Rattle.cli_picture.specs.Scale.{time_at, time_of};
ghost use Rattle.cli_picture.specs.Time.{after_place, first_place, is_before, place_at, share_at, step_from};

/// The steps from one tick to the next. They are 1, 2, 5, 10, 15 and 30 seconds, as many minutes, and 1, 2, 3, 6 and 12
/// hours.
static STEPS_MS: [u64; 17] = [
    1_000, 2_000, 5_000, 10_000, 15_000, 30_000, 60_000, 120_000, 300_000, 600_000, 900_000,
    1_800_000, 3_600_000, 7_200_000, 10_800_000, 21_600_000, 43_200_000,
];

/// The length of a day.
pub const DAY_MS: u64 = 86_400_000;

/// The most steps from the first event to the last.
const MOST_STEPS: u64 = 20;

/// The part of a run that is drawn over time.
#[derive(Clone, Copy)]
pub struct TimePart<'a> {
    /// The times of all events of the run, in their order. Those that are not known come first, and the others do not
    /// fall.
    pub times_ms: &'a [Option<u64>],
    /// The beginning of the part, if it is given.
    pub since_ms: Option<u64>,
    /// The first moment after the part, if it is given.
    pub until_ms: Option<u64>,
    /// The NID_ENGINE of the only train that is drawn. Without it, all trains are drawn.
    pub train: Option<u32>,
}

impl TimePart<'_> {
    /// The places of the first event of the part, and of the one after the last. None if the part has no event.
    pub fn places(&self) -> Option<(usize, usize)>
        ensures { result ≡ (if nat_lt (first_place self.now) (after_place self.now)
            then Some (first_place self.now, after_place self.now) else None) }
    {
        let first = count_before(self.times_ms, self.since_ms.unwrap_or(0));
        let after = match self.until_ms {
            Some(until_ms) => count_before(self.times_ms, until_ms),
            None => self.times_ms.len(),
        };
        if first < after {
            Some((first, after))
        } else {
            None
        }
    }
}

// The number of events before a moment. An event whose time is not known is before each.
fn count_before(times_ms: &[Option<u64>], moment_ms: u64) -> usize
    ensures { result ≡ count_by (is_before moment_ms) times_ms.now }
{
    times_ms
        .iter()
        .filter(|time_ms| is_before(**time_ms, moment_ms))
        .count()
}

fn is_before(time_ms: Option<u64>, moment_ms: u64) -> bool
    ensures { result ≡ is_before moment_ms time_ms }
{
    match time_ms {
        Some(time_ms) => time_ms < moment_ms,
        None => true,
    }
}

/// The axis of a diagram over time. Its event 0 is its beginning, and the others are the drawn events.
#[derive(Clone, Copy)]
pub struct TimeAxis<'a> {
    times_ms: &'a [Option<u64>],
    pub from_ms: u64,
    pub to_ms: u64,
    /// The step from one tick to the next. Ticks are at the multiples of it.
    pub step_ms: u64,
    /// The first multiple on the axis, and the last one.
    pub first_tick: u64,
    pub last_tick: u64,
}

impl<'a> TimeAxis<'a> {
    /// The axis of the events of a part, from the place `first` to the one before `after`. An end that is not given is
    /// the tick next to the events.
    pub fn new(part: &TimePart<'a>, first: usize, after: usize) -> TimeAxis<'a>
        ensures begins { result.from_ms ≡ unwrap_or part.now.since_ms
            (time_at result.times_ms.now 0 - time_at result.times_ms.now 0 % result.step_ms) }
        ensures given { (until_ms : ℕ) → part.now.until_ms ≡ Some until_ms → result.to_ms ≡ until_ms }
        ensures ticks { result.first_tick ≡ div_ceil result.from_ms result.step_ms }
        ensures last { result.last_tick ≡ result.to_ms / result.step_ms }
    {
        let times_ms = part.times_ms.get(first..after).unwrap_or(&[]);
        let first_ms = time_at(times_ms, 0);
        let last_ms = time_at(times_ms, times_ms.len().saturating_sub(1));
        let begins_ms = part.since_ms.unwrap_or(first_ms);
        let ends_ms = part.until_ms.unwrap_or(last_ms);
        let step_ms = step_of(ends_ms.saturating_sub(begins_ms));
        let from_ms = begin_of(part.since_ms, first_ms, step_ms);
        let to_ms = end_of(part.until_ms, last_ms, step_ms);
        TimeAxis {
            times_ms,
            from_ms,
            to_ms,
            step_ms,
            first_tick: from_ms.div_ceil(step_ms),
            last_tick: to_ms / step_ms,
        }
    }

    /// The time of an event.
    pub fn time_ms(&self, event: usize) -> u64
        ensures { result ≡ time_of self.now event }
    {
        match event.checked_sub(1) {
            Some(place) => time_at(self.times_ms, place),
            None => self.from_ms,
        }
    }

    /// The place of a time on the axis, if the axis is `room` long. A time past an end is at that end.
    pub fn place(&self, time_ms: u64, room: u64) -> u64
        ensures within { result ≤ room }
        ensures exact { result ≡ place_at room self.now.from_ms self.now.to_ms time_ms }
    {
        place_of(time_ms, self.from_ms, self.to_ms, room)
    }
}

// The time at this place; 0 if it is not known.
fn time_at(times_ms: &[Option<u64>], place: usize) -> u64
    ensures { result ≡ time_at times_ms.now place }
{
    match times_ms.get(place) {
        Some(Some(time_ms)) => *time_ms,
        _ => 0,
    }
}

// The beginning of an axis: the given one, or the last tick that is not after the first event.
fn begin_of(since_ms: Option<u64>, first_ms: u64, step_ms: u64) -> u64
    requires { 0 < step_ms }
    ensures { result ≡ unwrap_or since_ms (first_ms - first_ms % step_ms) }
{
    since_ms.unwrap_or(first_ms - first_ms % step_ms)
}

// The end of an axis: the given one, or the first tick after the last event.
fn end_of(until_ms: Option<u64>, last_ms: u64, step_ms: u64) -> u64
    requires { 0 < step_ms }
    ensures { result ≡ unwrap_or until_ms (min (2 ^ 64 - 1) (last_ms - last_ms % step_ms + step_ms)) }
{
    until_ms.unwrap_or((last_ms - last_ms % step_ms).saturating_add(step_ms))
}

// The first step of which at most 20 are in the span. If there is none, it is the fewest days.
fn step_of(span_ms: u64) -> u64
    ensures few { span_ms ≤ MOST_STEPS * result }
    ensures some { 0 < result }
    ensures exact { result ≡ step_from STEPS_MS (max 1 (div_ceil span_ms MOST_STEPS)) }
{
    let least_ms = span_ms.div_ceil(MOST_STEPS).max(1);
    match first_from(&STEPS_MS, least_ms) {
        Some(step_ms) => step_ms,
        None => least_ms.next_multiple_of(DAY_MS),
    }
}

// The first step that is not below the least one.
fn first_from(steps_ms: &[u64], least_ms: u64) -> Option<u64>
    ensures reaches { IfSome result (λ step. least_ms ≤ step) }
    ensures exact { result ≡ find (nat_le least_ms) steps_ms.now }
{
    steps_ms
        .iter()
        .find(|step_ms| **step_ms >= least_ms)
        .copied()
}

// The place of a time on an axis of this length, from one time to another. It rises with the time.
fn place_of(time_ms: u64, from_ms: u64, to_ms: u64, room: u64) -> u64
    ensures within { result ≤ room }
    ensures exact { result ≡ place_at room from_ms to_ms time_ms }
    ensures rises { (later : ℕ) → time_ms ≤ later → result ≤ place_at room from_ms to_ms later }
{
    let whole = to_ms.saturating_sub(from_ms);
    let part = time_ms.saturating_sub(from_ms).min(whole);
    share_of(room, part, whole)
}

// The share of a part of the whole in a room, rounded down. It is 0 if the whole is 0.
fn share_of(room: u64, part: u64, whole: u64) -> u64
    requires { part ≤ whole }
    ensures within { result ≤ room }
    ensures exact { result ≡ share_at room part whole }
{
    if whole == 0 {
        return 0;
    }
    (u128::from(room) * u128::from(part) / u128::from(whole)) as u64
}
