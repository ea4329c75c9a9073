//! A way: the datagrams from one address to another, a channel in one direction.

ghost use Rattle.std.specs.Prelude.{◌≡◌, [], None, IfOk, OnOk};
ghost use Rattle.capture_beside.specs.Queues.{others_at, next_place};
ghost use Rattle.capture_beside.specs.Sums.{arriving_datagram, no_sums, count_recorded};
ghost use Rattle.capture_beside.specs.Ways.{give_up_list, difference_in, here_after, outcome_at, outcome_of, own_after, pair_at, count_outcome, there_after};
ghost use Rattle.capture_beside.specs.declared.sites.Site.TheVariants.{Here, There};

use crate::delays::Delays;
use crate::queue::{Queue, WaitingDatagram};
use crate::sites::{Extent, Site};
use crate::sums::Sums;
use capture::Address;
use std::alloc::{AllocError, Global};

/// What becomes of a datagram that arrives.
#[derive(Clone, Copy, Debug, PartialEq, Eq)]
pub enum ArrivalOutcome {
    /// It has this partner, which waited in the other recording.
    Pair(WaitingDatagram),
    /// It waits; if there was no room, the oldest one does not wait any more.
    Wait(Option<WaitingDatagram>),
}

/// The datagrams from one address to another in both recordings.
#[derive(Debug, Drop)]
pub struct Way {
    /// The address that sends.
    pub source: Address,
    /// The address that it sends to.
    pub destination: Address,
    /// What waits in the recording here.
    pub here: Queue,
    /// What waits in the recording there.
    pub there: Queue,
    /// What is counted.
    pub sums: Sums,
    /// The differences of all pairs.
    pub delays: Delays,
}

impl Way {
    /// Returns a way without datagrams.
    ///
    /// # Errors
    ///
    /// `AllocError` if there is too little memory.
    pub fn new(alloc: Global, source: Address, destination: Address) -> Result<Self, AllocError>
        // The way has both addresses.
        ensures ends { IfOk result (λ way. (way.source ≡ source) × (way.destination ≡ destination)) }
        // Nothing is counted, and nothing waits.
        ensures empty { IfOk result (λ way. (way.sums ≡ no_sums) × (way.delays.first ≡ None)
            × (way.here.waiting.items ≡ []) × (way.there.waiting.items ≡ [])) }
    {
        Ok(Way {
            source,
            destination,
            here: Queue::new(alloc)?,
            there: Queue::new(alloc)?,
            sums: Sums::new(),
            delays: Delays::new(alloc)?,
        })
    }

    /// Adds a datagram of a site, and returns the difference of the pair if it has a partner.
    ///
    /// `shift` is the difference of the clocks before the first pair of the way, `other` what is read of the other
    /// recording.
    ///
    /// # Errors
    ///
    /// `AllocError` if there is too little memory.
    pub fn arrive(
        &mut self,
        site: Site,
        fingerprint: u64,
        time: u64,
        shift: u64,
        other: Option<Extent>,
    ) -> Result<Option<u64>, AllocError>
        // The result is the difference of the pair if a datagram with this `fingerprint` waits in the other recording,
        // else `None` (`outcome_of`).
        ensures difference { IfOk result (λ difference. difference
            ≡ difference_in site (arriving_datagram site fingerprint time self.old.sums)
            (outcome_of site fingerprint self.old.here self.old.there)) }
        // The datagram is counted as recorded, then the pair, or the one that does not wait any more (`count_outcome`).
        ensures sums { OnOk result (self.new.sums
            ≡ count_outcome site (arriving_datagram site fingerprint time self.old.sums)
            (outcome_of site fingerprint self.old.here self.old.there) shift other (count_recorded site self.old.sums)) }
        // Here, a datagram without a partner waits as the last one; a partner leaves (`here_after`).
        ensures here { OnOk result (self.new.here.waiting.items
            ≡ here_after site (arriving_datagram site fingerprint time self.old.sums) self.old.here self.old.there) }
        // The same holds there.
        ensures there { OnOk result (self.new.there.waiting.items
            ≡ there_after site (arriving_datagram site fingerprint time self.old.sums) self.old.here self.old.there) }
        // The addresses stay.
        ensures ends { (self.new.source ≡ self.old.source) × (self.new.destination ≡ self.old.destination) }
    {
        let arrived = self.sums.note(site, fingerprint, time);
        let meeting = match site {
            Site::Here => meet(&mut self.here, &mut self.there, arrived)?,
            Site::There => meet(&mut self.there, &mut self.here, arrived)?,
        };
        Ok(self.settle(site, arrived, meeting, shift, other))
    }

    /// Counts what became of a datagram, and returns the difference of a pair.
    fn settle(
        &mut self,
        site: Site,
        arrived: WaitingDatagram,
        meeting: ArrivalOutcome,
        shift: u64,
        other: Option<Extent>,
    ) -> Option<u64>
        // The result is the difference of a pair.
        ensures difference { result ≡ difference_in site arrived meeting }
        // A pair is counted, or the datagram that does not wait any more (`count_outcome`).
        ensures sums { self.new.sums ≡ count_outcome site arrived meeting shift other self.old.sums }
        // Both queues and addresses stay.
        ensures rest { (self.new.here ≡ self.old.here) × (self.new.there ≡ self.old.there)
            × (self.new.source ≡ self.old.source) × (self.new.destination ≡ self.old.destination) }
    {
        match meeting {
            ArrivalOutcome::Pair(partner) => {
                let (here, there) = in_order(site, arrived, partner);
                let difference = self.sums.pair(here, there);
                self.delays.add(difference);
                Some(difference)
            }
            ArrivalOutcome::Wait(None) => None,
            ArrivalOutcome::Wait(Some(gone)) => {
                self.sums = self.sums.without(site, gone, shift, other);
                None
            }
        }
    }

    /// Gives up all datagrams that wait, at the end of both recordings.
    pub fn close(&mut self, shift: u64, here: Option<Extent>, there: Option<Extent>)
        // Each datagram that waits is counted as one without a partner, first those here, then those there
        // (`give_up_list`).
        ensures sums { self.new.sums
            ≡ give_up_list There self.old.there.waiting.items shift here
            (give_up_list Here self.old.here.waiting.items shift there self.old.sums) }
        // No datagram waits any more.
        ensures empty { (self.new.here.waiting.items ≡ []) × (self.new.there.waiting.items ≡ []) }
        // Delays stay.
        ensures delays { self.new.delays ≡ self.old.delays }
    {
        self.sums = give_up_all(self.sums, Site::Here, &self.here, shift, there);
        self.sums = give_up_all(self.sums, Site::There, &self.there, shift, here);
        self.here.waiting.clear();
        self.there.waiting.clear();
    }
}

/// Returns a pair with the datagram here first.
fn in_order(
    site: Site,
    arrived: WaitingDatagram,
    partner: WaitingDatagram,
) -> (WaitingDatagram, WaitingDatagram)
    ensures { result ≡ pair_at site arrived partner }
{
    match site {
        Site::Here => (arrived, partner),
        Site::There => (partner, arrived),
    }
}

/// Counts all datagrams that wait as ones without a partner.
fn give_up_all(sums: Sums, site: Site, queue: &Queue, shift: u64, other: Option<Extent>) -> Sums
    ensures { result ≡ give_up_list site queue.now.waiting.items shift other sums }
{
    queue
        .waiting
        .iter()
        .fold(sums, |sums, gone| sums.without(site, *gone, shift, other))
}

/// Takes the partner of a datagram from the other queue, or lets it wait in its own.
fn meet(
    own: &mut Queue,
    other: &mut Queue,
    arrived: WaitingDatagram,
) -> Result<ArrivalOutcome, AllocError>
    // The partner is the next one in the other queue with the fingerprint; without one, the datagram waits.
    ensures meeting { IfOk result (λ meeting. meeting ≡ outcome_at
        (next_place other.old.next arrived.fingerprint other.old.waiting.items) own.old.waiting.items other.old.waiting.items) }
    // The own queue has one more exactly if there is no partner.
    ensures own { OnOk result (own.new.waiting.items ≡ own_after
        (next_place other.old.next arrived.fingerprint other.old.waiting.items) arrived own.old.waiting.items) }
    // The other queue has lost exactly the partner.
    ensures other { OnOk result (other.new.waiting.items ≡ others_at
        (next_place other.old.next arrived.fingerprint other.old.waiting.items) other.old.waiting.items) }
{
    match other.take(arrived.fingerprint) {
        Some(partner) => Ok(ArrivalOutcome::Pair(partner)),
        None => Ok(ArrivalOutcome::Wait(own.wait(arrived)?)),
    }
}
