//! What is counted of a way.

ghost use Rattle.std.specs.Prelude.{◌≡◌};
ghost use Rattle.capture_beside.specs.Sites.{difference_of};
ghost use Rattle.capture_beside.specs.Sums.{arriving_datagram, give_up, count_without_partner, no_sums, no_tally, datagram_with, count_pair, count_partner, count_recorded, shift_from, with_recorded};

use crate::queue::WaitingDatagram;
use crate::sites::{Extent, Site, difference, is_outside};

/// What a recording has of a way.
#[derive(Clone, Copy, Debug, PartialEq, Eq)]
pub struct Tally {
    /// How many datagrams were recorded.
    pub recorded: u64,
    /// How many are missing in the other recording.
    pub alone: u64,
    /// How many were recorded before the other recording begins or after it ends.
    pub outside: u64,
    /// The number after the furthest one that has a partner.
    pub furthest: u64,
}

/// What both recordings have of a way.
#[derive(Clone, Copy, Debug, PartialEq, Eq)]
pub struct Sums {
    /// What the recording here has.
    pub here: Tally,
    /// What the recording there has.
    pub there: Tally,
    /// How many are in both recordings.
    pub both: u64,
    /// How many of those came behind one that was sent later.
    pub reordered: u64,
    /// The difference of the last pair.
    pub shift: Option<u64>,
}

impl Tally {
    /// Returns a tally without datagrams.
    fn new() -> Self
        ensures { result ≡ no_tally }
    {
        Tally {
            recorded: 0,
            alone: 0,
            outside: 0,
            furthest: 0,
        }
    }

    /// Counts a datagram as recorded, and returns it with its number.
    fn note(&mut self, fingerprint: u64, time: u64) -> WaitingDatagram
        // The result has the number of datagrams that were recorded before.
        ensures arrived { result ≡ datagram_with fingerprint time self.old.recorded }
        // Only the count of recorded datagrams grows, by 1.
        ensures tally { self.new ≡ with_recorded self.old }
    {
        let number = self.recorded;
        self.recorded = number.saturating_add(1);
        WaitingDatagram {
            fingerprint,
            time,
            number,
        }
    }

    /// Counts a datagram that has no partner.
    fn leave(&mut self, is_outside: bool)
        ensures { self.new ≡ count_without_partner is_outside self.old }
    {
        if is_outside {
            self.outside = self.outside.saturating_add(1);
        } else {
            self.alone = self.alone.saturating_add(1);
        }
    }

    /// Counts the number of a datagram that has a partner.
    fn reach(&mut self, number: u64)
        ensures { self.new ≡ count_partner number self.old }
    {
        self.furthest = self.furthest.max(number.saturating_add(1));
    }
}

impl Sums {
    /// Returns sums without datagrams.
    pub(crate) fn new() -> Self
        ensures { result ≡ no_sums }
    {
        Sums {
            here: Tally::new(),
            there: Tally::new(),
            both: 0,
            reordered: 0,
            shift: None,
        }
    }

    /// Counts a datagram as recorded, and returns it with its number.
    pub fn note(&mut self, site: Site, fingerprint: u64, time: u64) -> WaitingDatagram
        // The result has the number of datagrams that the site recorded before.
        ensures arrived { result ≡ arriving_datagram site fingerprint time self.old }
        // Only the count of recorded datagrams of this site grows, by 1 (`count_recorded`).
        ensures sums { self.new ≡ count_recorded site self.old }
    {
        match site {
            Site::Here => self.here.note(fingerprint, time),
            Site::There => self.there.note(fingerprint, time),
        }
    }

    /// Counts a pair, and returns its difference.
    pub fn pair(&mut self, here: WaitingDatagram, there: WaitingDatagram) -> u64
        // The result is the difference of the times of both.
        ensures difference { result ≡ difference_of here.time there.time }
        // The pair is counted, also as reordered if one of both comes behind a later one that has a partner
        // (`count_pair`).
        ensures sums { self.new ≡ count_pair here there self.old }
    {
        let difference = difference(here.time, there.time);
        if here.number < self.here.furthest || there.number < self.there.furthest {
            self.reordered = self.reordered.saturating_add(1);
        }
        self.both = self.both.saturating_add(1);
        self.here.reach(here.number);
        self.there.reach(there.number);
        self.shift = Some(difference);
        difference
    }

    /// Returns the sums with one more datagram that has no partner. `shift` is the difference of the clocks before the
    /// first pair of the way, `other` what is read of the other recording.
    pub fn without(
        self,
        site: Site,
        gone: WaitingDatagram,
        shift: u64,
        other: Option<Extent>,
    ) -> Self
        // The datagram is counted as outside of the other recording if it is, else as missing there (`give_up`).
        ensures { result ≡ give_up site gone shift other self }
    {
        let shift = shift_of(self.shift, shift);
        let is_outside = is_outside(site, gone.time, shift, other);
        let mut sums = self;
        match site {
            Site::Here => sums.here.leave(is_outside),
            Site::There => sums.there.leave(is_outside),
        }
        sums
    }
}

/// Returns the difference of the clocks: that of the last pair of a way, or else of all ways.
fn shift_of(own: Option<u64>, shift: u64) -> u64
    ensures { result ≡ shift_from own shift }
{
    match own {
        None => shift,
        Some(own) => own,
    }
}
