//! How long datagrams took from one recording to the other.

ghost use Rattle.std.specs.Prelude.{◌≡◌, ◌≤◌, Some, None, length, max, min, replicate, IfOk};
ghost use Rattle.capture_beside.specs.Delays.{before_greatest_of, behind_least_of, bucket_of, first_from, median_of, place_at_rank, negation_of, spread_of, start_at, with_one};

use crate::sites::Site;
use std::alloc::{AllocError, Global};

/// How many differences are distinguished: those of one second to either side of the first one, in steps of `WIDTH`.
pub const BUCKETS: usize = 20_001;

/// The bucket of the first difference.
pub const MIDDLE: u64 = 10_000;

/// The width of a bucket in microseconds.
pub const WIDTH: u64 = 100;

/// The differences of the times of pairs: the time there less the time here.
#[derive(Debug, Drop)]
pub struct Delays {
    /// The first difference, from which the buckets are counted.
    pub first: Option<u64>,
    /// The least difference; 2^64 - 1 without one.
    pub least: u64,
    /// The greatest difference.
    pub greatest: u64,
    /// How many differences each bucket has.
    pub buckets: Vec<u64>,
}

/// How long the datagrams of a way took, in microseconds.
#[derive(Clone, Copy, Debug, PartialEq, Eq)]
pub struct Spread {
    /// The time at the receiver less that at the sender, of the fastest one: `EVEN` and its delay, with the
    /// difference of the clocks.
    pub least: u64,
    /// How much longer the one took than which half of all were not slower.
    pub median: u64,
    /// The same for 99 of 100.
    pub most: u64,
    /// How much longer the slowest one took.
    pub greatest: u64,
}

impl Delays {
    /// Returns delays without pairs.
    ///
    /// # Errors
    ///
    /// `AllocError` if there is too little memory.
    pub(crate) fn new(alloc: Global) -> Result<Self, AllocError>
        ensures { IfOk result (λ delays. (delays.first ≡ None) × (delays.buckets.items ≡ replicate BUCKETS 0)) }
    {
        Ok(Delays {
            first: None,
            least: u64::MAX,
            greatest: 0,
            buckets: vec![in alloc; 0u64; BUCKETS]?,
        })
    }

    /// Adds the difference of a pair.
    pub fn add(&mut self, difference: u64)
        // The first difference stays if there is one.
        ensures first { self.new.first ≡ Some (first_from self.old.first difference) }
        // The least difference is that of all.
        ensures least { self.new.least ≡ min self.old.least difference }
        // The greatest difference is that of all.
        ensures greatest { self.new.greatest ≡ max self.old.greatest difference }
        // Only the count of its bucket grows, by 1 (`bucket_of`).
        ensures buckets { self.new.buckets.items
            ≡ with_one (bucket_of (first_from self.old.first difference) difference) self.old.buckets.items }
    {
        let first = first_of(self.first, difference);
        self.first = Some(first);
        self.least = self.least.min(difference);
        self.greatest = self.greatest.max(difference);
        count(self.buckets.as_mut_slice(), bucket(first, difference));
    }

    /// Returns how long this number of pairs took, sent from a site, or from here if it is unknown. `None` without a pair.
    ///
    /// `median` and `most` are less than 100 microseconds too small, for differences of less than a second to the
    /// first one.
    pub fn spread(&self, origin: Option<Site>, pairs: u64) -> Option<Spread>
        // The least and the greatest are exact; the median is that of half of the `pairs`, rounded up, and the most
        // that of 99 of 100, both from the start of their bucket (`spread_of`).
        ensures { result ≡ spread_of origin pairs self.now.first self.now.least self.now.greatest self.now.buckets.items }
    {
        let first = self.first?;
        let greatest = self.greatest.saturating_sub(self.least);
        match origin {
            None | Some(Site::Here) => Some(Spread {
                least: self.least,
                median: self.behind_least(first, pairs - pairs / 2),
                most: self.behind_least(first, pairs - pairs / 100),
                greatest,
            }),
            Some(Site::There) => Some(Spread {
                least: negate(self.greatest),
                median: self.before_greatest(first, pairs / 2 + 1),
                most: self.before_greatest(first, pairs / 100 + 1),
                greatest,
            }),
        }
    }

    /// Returns the median of this number of differences, or `None` without a pair.
    pub fn median(&self, pairs: u64) -> Option<u64>
        // The median is the start of the bucket of half of the `pairs`, rounded up (`median_of`).
        ensures { result ≡ median_of pairs self.now.first self.now.buckets.items }
    {
        let first = self.first?;
        let place = place_of_rank(self.buckets.as_slice(), pairs - pairs / 2);
        Some(start_of(first, place))
    }

    /// Returns how far the difference of a rank is from the least one.
    fn behind_least(&self, first: u64, rank: u64) -> u64
        ensures { result ≡ behind_least_of first self.now.least rank self.now.buckets.items }
    {
        let place = place_of_rank(self.buckets.as_slice(), rank);
        start_of(first, place).saturating_sub(self.least)
    }

    /// Returns how far the difference of a rank is from the greatest one.
    fn before_greatest(&self, first: u64, rank: u64) -> u64
        ensures { result ≡ before_greatest_of first self.now.greatest rank self.now.buckets.items }
    {
        let place = place_of_rank(self.buckets.as_slice(), rank);
        let end = start_of(first, place).saturating_add(WIDTH - 1);
        self.greatest.saturating_sub(end)
    }
}

/// Returns the first difference, or this one.
fn first_of(first: Option<u64>, difference: u64) -> u64
    ensures { result ≡ first_from first difference }
{
    match first {
        None => difference,
        Some(first) => first,
    }
}

/// Adds one to a bucket.
fn count(buckets: &mut [u64], place: usize)
    ensures { buckets.new ≡ with_one place buckets.old }
{
    if place < buckets.len() {
        buckets[place] = buckets[place].saturating_add(1);
    }
}

/// Returns the bucket of a difference.
fn bucket(first: u64, difference: u64) -> usize
    ensures { result ≡ bucket_of first difference }
{
    if first <= difference {
        let steps = ((difference - first) / WIDTH).min(MIDDLE);
        (MIDDLE + steps) as usize
    } else {
        let steps = ((first - difference - 1) / WIDTH + 1).min(MIDDLE);
        (MIDDLE - steps) as usize
    }
}

/// Returns the least difference in a bucket.
fn start_of(first: u64, place: usize) -> u64
    ensures { result ≡ start_at first place }
{
    let place = place as u64;
    if MIDDLE <= place {
        first.saturating_add((place - MIDDLE).saturating_mul(WIDTH))
    } else {
        first.saturating_sub((MIDDLE - place) * WIDTH)
    }
}

/// Returns the bucket of the difference with this rank among all, from 1 in order of size.
#[tactic(auto, using(crate::proofs::Ranks::further, crate::proofs::Ranks::here, crate::proofs::Ranks::last))]
fn place_of_rank(buckets: &[u64], rank: u64) -> usize
    // The bucket is the first up to which so many differences were counted; the number of buckets if there are fewer.
    ensures place { result ≡ place_at_rank rank buckets.now }
    // The result is at most the number of buckets.
    ensures bound { result ≤ length buckets.now }
{
    let mut left = rank;
    let mut place = 0;
    while place < buckets.len() {
        if left <= buckets[place] {
            return place;
        }
        left -= buckets[place];
        place += 1;
    }
    place
}

/// Returns a difference with the other sign.
fn negate(difference: u64) -> u64
    ensures { result ≡ negation_of difference }
{
    (u64::MAX - difference).saturating_add(1)
}
