ghost use Rattle.std.specs.Prelude.{◌≡◌, IfOk, length, slice_get, unwrap_or};
ghost use Rattle.rbc_spec.specs.Line.{train_number};

use rbc_line::Line;
use serve_workers::reading::{Bucket, Rate};
use std::alloc::{AllocError, Global};
use std::sync::Mutex;

/// The message rates at a centre: a bucket for each train of the line, and one for all other engines together. A new
/// connection does not get a new bucket.
#[derive(Drop)]
pub struct Paces {
    // In the order of the trains in the line file.
    trains: Vec<Mutex<Bucket>>,
    others: Mutex<Bucket>,
}

impl Paces {
    /// Full buckets of this rate.
    pub(crate) fn new(alloc: Global, line: &Line, rate: Rate) -> Result<Paces, AllocError>
        ensures { IfOk result (λ paces. length paces.trains.items ≡ length line.now.trains) }
    {
        Ok(Paces {
            trains: buckets_of(alloc, line.train_count(), rate)?,
            others: Mutex::new(Bucket::new(rate)),
        })
    }

    /// The bucket of an engine, by its NID_ENGINE.
    pub fn bucket(&self, line: &Line, nid_engine: u32) -> &Mutex<Bucket>
        ensures { result.now ≡ unwrap_or (slice_get self.now.trains.items
            (unwrap_or (train_number line.now nid_engine) (length line.now.trains))) self.now.others }
    {
        match self.trains.get(place_of(line, nid_engine)) {
            Some(bucket) => bucket,
            None => &self.others,
        }
    }
}

// This many full buckets of a rate.
fn buckets_of(alloc: Global, trains: u8, rate: Rate) -> Result<Vec<Mutex<Bucket>>, AllocError>
    ensures { IfOk result (λ buckets. length buckets.items ≡ trains) }
{
    let mut buckets = Vec::new(alloc);
    for _ in 0..trains {
        buckets.push(Mutex::new(Bucket::new(rate)))?;
    }
    Ok(buckets)
}

// The place of the bucket of an engine. It is after those of all trains if the engine is not of the line.
fn place_of(line: &Line, nid_engine: u32) -> usize
    ensures { result ≡ unwrap_or (train_number line.now nid_engine) (length line.now.trains) }
{
    match line.train_number(nid_engine) {
        Some(train) => train as usize,
        None => line.train_count() as usize,
    }
}
