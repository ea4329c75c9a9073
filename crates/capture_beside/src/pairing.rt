//! The pairing of two recordings that are read in step.

ghost use Rattle.std.specs.Prelude.{◌≡◌, ◌<◌, [], length, nat_eq, IfOk, IfSome};
ghost use Rattle.std.specs.List.{list_all};
ghost use Rattle.capture_beside.specs.Pairs.{is_way_between, median_in, origin_of, turn_of, way_place, who_is_first};
ghost use Rattle.capture_beside.specs.declared.sites.TheConstants.{EVEN as EVEN_DIFFERENCE};

use crate::sites::{EVEN, Extent, Site, difference};
use crate::way::Way;
use capture::{Address, is_same};
use std::alloc::{AllocError, Global};

/// How many ways are kept: those of 16 connections with two channels.
pub const WAYS: usize = 64;

/// A recorded datagram.
#[derive(Clone, Copy, Debug, PartialEq, Eq)]
pub struct Arrival {
    /// The address that sent it.
    pub source: Address,
    /// The address that it was sent to.
    pub destination: Address,
    /// The fingerprint of its bytes.
    pub fingerprint: u64,
    /// When it was recorded, in microseconds since 1970.
    pub time: u64,
}

/// Two recordings that are read in step.
#[derive(Debug, Drop)]
pub struct Pairing {
    /// The ways in the order of their first datagrams.
    pub ways: Vec<Way>,
    /// The difference of the last pair; that of equal clocks before the first.
    pub shift: u64,
    /// How many datagrams go a further way.
    pub left_out: u64,
}

impl Pairing {
    /// Returns a pairing without datagrams.
    pub(crate) fn new(alloc: Global) -> Self
        ensures { (result.ways.items ≡ []) × (result.shift ≡ EVEN_DIFFERENCE) × (result.left_out ≡ 0) }
    {
        Pairing {
            ways: Vec::new(alloc),
            shift: EVEN,
            left_out: 0,
        }
    }

    /// Returns the recording that is read next; `None` if both are over.
    pub fn turn(&self, here: Option<Arrival>, there: Option<Arrival>) -> Option<Site>
        // It is the one whose next datagram is earlier, less the difference of the last pair (`turn_of`).
        ensures { result ≡ turn_of self.now.shift here there }
    {
        match (here, there) {
            (None, None) => None,
            (Some(_), None) => Some(Site::Here),
            (None, Some(_)) => Some(Site::There),
            (Some(here), Some(there)) => {
                if self.shift <= difference(here.time, there.time) {
                    Some(Site::Here)
                } else {
                    Some(Site::There)
                }
            }
        }
    }

    /// Adds a datagram of a recording to its way. `other` is what is read of the other recording.
    ///
    /// A datagram that needs a further way than `WAYS` is only counted.
    ///
    /// # Errors
    ///
    /// `AllocError` if there is too little memory.
    pub(crate) fn arrive(
        &mut self,
        alloc: Global,
        site: Site,
        arrival: &Arrival,
        other: Option<Extent>,
    ) -> Result<(), AllocError> {
        let Some(place) = place_for(&mut self.ways, alloc, arrival)? else {
            self.left_out = self.left_out.saturating_add(1);
            return Ok(());
        };
        let shift = self.shift;
        let way = &mut self.ways[place];
        if let Some(difference) = way.arrive(
            site,
            arrival.fingerprint,
            arrival.time,
            shift,
            other,
        )? {
            self.shift = difference;
        }
        Ok(())
    }

    /// Gives up all datagrams that wait, at the end of both recordings.
    pub(crate) fn close(&mut self, here: Option<Extent>, there: Option<Extent>) {
        let shift = self.shift;
        for way in self.ways.iter_mut() {
            way.close(shift, here, there);
        }
    }

    /// Returns `true` if no datagram is in both recordings.
    pub fn is_disjoint(&self) -> bool
        // No way has a pair.
        ensures { result ≡ list_all (λ way. nat_eq way.sums.both 0) self.now.ways.items }
    {
        self.ways.iter().all(|way| has_no_pair(way))
    }
}

/// Returns `true` if a way has no pair.
fn has_no_pair(way: &Way) -> bool
    ensures { result ≡ nat_eq way.now.sums.both 0 }
{
    way.sums.both == 0
}

/// Returns the place of the way of a datagram, which is a new one if there is room; `None` if there is no room.
fn place_for(
    ways: &mut Vec<Way>,
    alloc: Global,
    arrival: &Arrival,
) -> Result<Option<usize>, AllocError>
    ensures bound { IfOk result (λ found. IfSome found (λ place. place < length ways.new.items)) }
{
    let place = place_of(ways.as_slice(), arrival.source, arrival.destination);
    if place.is_some() {
        return Ok(place);
    }
    let last = ways.len();
    if WAYS <= last {
        return Ok(None);
    }
    ways.push(Way::new(alloc, arrival.source, arrival.destination)?)?;
    Ok(Some(last))
}

/// Returns the place of the way from one address to another.
fn place_of(ways: &[Way], source: Address, destination: Address) -> Option<usize>
    // The place is the first whose way has both addresses.
    ensures value { result ≡ way_place source destination ways.now }
    // The place of a way is in the list.
    ensures bound { IfSome result (λ place. place < length ways.now) }
{
    ways.iter()
        .position(|way| is_between(way, source, destination))
}

/// Returns `true` if a way goes from one address to another.
fn is_between(way: &Way, source: Address, destination: Address) -> bool
    ensures { result ≡ is_way_between source destination way.now }
{
    is_same(way.source, source) && is_same(way.destination, destination)
}

/// Returns the site of the sender of a way; `None` if that is unknown.
pub(crate) fn origin(ways: &[Way], way: &Way) -> Option<Site>
    ensures { result ≡ origin_of ways.now way.now }
{
    let back = place_of(ways, way.destination, way.source)?;
    let back = median(&ways[back])?;
    let forth = median(way)?;
    first_site(forth, back)
}

/// Returns the site of the sender by the medians of the differences forth and back.
fn first_site(forth: u64, back: u64) -> Option<Site>
    ensures { result ≡ who_is_first forth back }
{
    if back < forth {
        Some(Site::Here)
    } else if forth < back {
        Some(Site::There)
    } else {
        None
    }
}

/// Returns the median of the differences of a way, or `None` without a pair.
fn median(way: &Way) -> Option<u64>
    ensures { result ≡ median_in way.now }
{
    way.delays.median(way.sums.both)
}
