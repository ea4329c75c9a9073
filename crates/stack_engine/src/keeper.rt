//! Channels in memory that keep each PDU of an end once, and the notes of the end.

ghost use Rattle.std.specs.Prelude.{◌≡◌, ◌≤◌, ◌+◌, ◌*◌, ◌<◌, [], ◌∷◌, ◌++◌, OnOk, IfSome, slice_index_or, length, map, drop};
ghost use Rattle.std.specs.List.{list_any};
ghost use Rattle.std.specs.Str.{bytes_eq};
ghost use Rattle.octets.specs.declared.limits.TheConstants.{RED_HEADER, RED_PDU_MAX};
ghost use Rattle.stack_engine.specs.Keeper.{KeeperValue, has_part};
ghost use Rattle.stack_engine.specs.Numbered.{AreNumbered, IsOnlyPlace, number_in};

use crate::notes::{KeptNote, Notes};
use crate::telegrams::Telegrams;
use crate::texts::Texts;
use channels::{ChannelFault, Channels, Note};
use octets::limits::{RED_HEADER, RED_PDU_MAX, SAFE_HEADER};
use octets::places::u32_at;
use std::alloc::{AllocError, Allocator, Global};
use std::collections::VecDeque;
use std::marker::Model;

/// The channel on which datagrams are kept: every PDU is sent on it first.
const KEPT_CHANNEL: usize = 1;

/// The most notes of one event apart from its PDUs. For each of nine parts: a redundancy event, a step, three
/// telegrams, three phases and two states; and as many again before and after them.
const EVENT_REMARKS: usize = 200;

/// Keeps what is sent on channel 1, in order. A send on any other channel is a copy of it, and fails: for the end, a
/// failed send is like a sent datagram. Nothing is ever received.
///
/// Sending does not allocate: without room it fails.
#[derive(Drop)]
pub struct Keeper<A: Allocator = Global> {
    /// Each datagram that was made, kept once for all channels, in order.
    datagrams: Texts<(), A>,
    /// The sequence number of the first datagram, if those of all datagrams follow one another. Otherwise, and before
    /// the first datagram, none.
    first_number: Option<u32>,
    /// How many sends have failed, those on other channels included, modulo 2^64.
    failed_sends: u64,
    /// The notes of the end, in order.
    remarks: VecDeque<KeptNote, A>,
    /// How many telegrams the end's application took.
    takes: usize,
}

impl<A: Allocator> Model for Keeper<A> {
    ghost use Rattle.std.specs.Prelude.{map, IfSome};
    ghost use Rattle.stack_engine.specs.Keeper.{KeeperValue};
    ghost use Rattle.stack_engine.specs.Numbered.{AreNumbered};

    ghost Value = { KeeperValue };

    ghost view = { λ k. record {
      datagrams = map (λ t. t.1) k.datagrams.texts;
      places = k.datagrams.places;
      octets = k.datagrams.octets;
      failed_sends = k.failed_sends;
    } };

    ghost invariant = { λ k. IfSome k.first_number (λ first. AreNumbered first (map (λ t. t.1) k.datagrams.texts)) };
}

impl<A: Allocator + Copy> Keeper<A> {
    /// Creates a keeper that keeps nothing and has no room.
    pub fn new(alloc: A) -> Self
        // A new `Keeper` keeps no datagram.
        ensures { result.datagrams ≡ [] }
    {
        Keeper {
            datagrams: Texts::new(alloc),
            first_number: None,
            failed_sends: 0,
            remarks: VecDeque::new(alloc),
            takes: 0,
        }
    }

    /// Makes room for a number of datagrams, and for the other notes of one event.
    ///
    /// # Errors
    ///
    /// Fails if an allocation fails.
    pub fn reserve(&mut self, datagrams: usize) -> Result<(), AllocError>
        requires { datagrams ≤ 1000 }
        // Making room leaves the kept datagrams as they are.
        ensures same { self.new.datagrams ≡ self.old.datagrams }
        // After a success there is a place for each of `datagrams` more.
        ensures places { OnOk result (datagrams ≤ self.new.places) }
        // After a success there is room for 1,258 bytes of each.
        ensures octets { OnOk result (datagrams * RED_PDU_MAX ≤ self.new.octets) }
    {
        self.remarks.try_reserve(datagrams + EVENT_REMARKS)?;
        self.datagrams.reserve(datagrams, datagrams * RED_PDU_MAX)
    }

    /// Drops all notes, and gives back the room for more datagrams and notes, as far as the allocator takes it.
    pub(crate) fn shrink(&mut self)
        ensures { self.new.datagrams ≡ self.old.datagrams }
    {
        self.remarks.clear();
        self.remarks.shrink_to_fit();
        self.datagrams.shrink();
    }

    /// Drops the first notes, this many of them.
    pub fn forget(&mut self, remarks: usize)
        // Dropping notes changes neither the kept datagrams nor their room.
        ensures { self.new ≡ self.old }
    {
        forget_first(&mut self.remarks, remarks);
    }
}

impl<A: Allocator> Keeper<A> {
    /// Returns the number of notes.
    pub fn remarks(&self) -> usize {
        self.remarks.len()
    }

    /// Returns the notes after the first `earlier` ones. `taken` has the telegrams that the end's application took.
    pub fn notes<'a>(&'a self, earlier: usize, taken: &'a Telegrams<A>) -> Notes<'a, A>
        // The datagrams that the notes are about are the kept ones.
        ensures datagrams { map (λ t. t.1) result.datagrams.now.texts ≡ self.now.datagrams }
        // The telegrams that the notes are about are those of `taken`.
        ensures taken { result.taken.now ≡ taken.now }
        // The notes are those after the first `earlier` ones.
        ensures earlier { result.earlier ≡ earlier }
    {
        Notes {
            remarks: &self.remarks,
            earlier,
            datagrams: &self.datagrams,
            taken,
        }
    }

    /// Returns the number of kept datagrams.
    pub fn len(&self) -> usize
        // `len` is the length of the list of kept `datagrams`.
        ensures { result ≡ length self.now.datagrams }
    {
        self.datagrams.len()
    }

    /// Returns true if a datagram with this part was kept after the first `dead` ones. If the sequence numbers of all
    /// datagrams follow one another, it compares one datagram at most.
    pub fn has_part(&self, dead: usize, part: &[u8]) -> bool
        // `has_part` is true if and only if one of the `datagrams` after the first `dead` ones has this part.
        ensures { result ≡ has_part part.now (drop dead self.now.datagrams) }
    {
        let Some(place) = self.only_place(part) else {
            return self.finds_part(dead, part);
        };
        if place < dead || place >= self.len() {
            return false;
        }
        self.is_part(place, part)
    }

    /// Returns the only place at which a datagram can have this part, by the sequence number in the part. Returns
    /// `None` if there may be several.
    fn only_place(&self, part: &[u8]) -> Option<usize>
        ensures { IfSome result (λ only. IsOnlyPlace part.now self.now.datagrams only) }
    {
        let first = self.first_number?;
        let number = sequence_number(part)?;
        Some(number.wrapping_sub(first) as usize)
    }

    /// Returns true if a datagram with this part was kept after the first `dead` ones. Tests each of them, the newest
    /// first.
    fn finds_part(&self, dead: usize, part: &[u8]) -> bool
        ensures { result ≡ has_part part.now (drop dead self.now.datagrams) }
    {
        let mut place = self.len();
        while place > dead {
            place -= 1;
            if self.is_part(place, part) {
                return true;
            }
        }
        false
    }

    /// Returns true if the datagram at a place has this part.
    fn is_part(&self, place: usize, part: &[u8]) -> bool
        requires { place < length self.now.datagrams }
        ensures { result ≡ bytes_eq part.now (drop RED_HEADER (slice_index_or self.now.datagrams place [])) }
    {
        let Some((_, datagram)) = self.datagrams.get(place) else {
            return false;
        };
        part == upper_part(datagram)
    }

    /// Returns the sequence number of the first datagram if this one is kept too. Returns `None` if the sequence
    /// numbers do not follow one another then.
    fn first_number_with(&self, datagram: &[u8]) -> Option<u32>
        ensures { IfSome result (λ first. AreNumbered first (self.now.datagrams ++ datagram.now ∷ [])) }
    {
        let number = sequence_number(upper_part(datagram))?;
        let kept = self.len();
        if kept == 0 {
            return Some(number);
        }
        let first = self.first_number?;
        let Ok(place) = u32::try_from(kept) else {
            return None;
        };
        if first.wrapping_add(place) == number {
            Some(first)
        } else {
            None
        }
    }
}

/// Returns the sequence number of a part, or `None` if the part is too short for a header.
fn sequence_number(part: &[u8]) -> Option<u32>
    ensures { result ≡ number_in part.now }
{
    if part.len() < SAFE_HEADER {
        return None;
    }
    Some(u32_at(part, 12))
}

/// Returns the part of a datagram: what is after its header.
fn upper_part(datagram: &[u8]) -> &[u8]
    ensures { result.now ≡ drop RED_HEADER datagram.now }
{
    match datagram.split_at_checked(RED_HEADER) {
        Some((_, upper)) => upper,
        None => &[],
    }
}

impl<A: Allocator + Copy> Channels for Keeper<A> {
    ghost use Rattle.stack_engine.specs.Keeper.{told_of};

    ghost told = { told_of };

    fn send(&mut self, channel: usize, datagram: &[u8]) -> Result<(), ChannelFault> {
        if channel != KEPT_CHANNEL
            || datagram.len() > RED_PDU_MAX
            || self.datagrams.places() == 0
            || self.datagrams.room() < RED_PDU_MAX
        {
            self.failed_sends = self.failed_sends.wrapping_add(1);
            return Err(ChannelFault::Room);
        }
        let place = self.datagrams.len();
        self.first_number = self.first_number_with(datagram);
        self.datagrams.add((), datagram);
        remark(&mut self.remarks, KeptNote::Made(place));
        Ok(())
    }

    fn receive(&mut self, buffer: &mut [u8]) -> Result<Option<(usize, usize)>, ChannelFault> {
        let _none = buffer;
        Ok(None)
    }

    fn hears_notes(&self) -> bool {
        true
    }

    fn note(&mut self, note: &Note<'_>) {
        let made = match note {
            Note::Redundancy(number, event) => KeptNote::Redundancy(*number, *event),
            Note::Step(number, step) => KeptNote::Step(*number, *step),
            Note::Take(_, _) => KeptNote::Take(self.takes),
            Note::State(state) => KeptNote::State(*state),
            Note::Phase(phase) => KeptNote::Phase(*phase),
        };
        if let KeptNote::Take(place) = made {
            self.takes = place.wrapping_add(1);
        }
        remark(&mut self.remarks, made);
    }
}

/// Adds a note if there is room for it.
fn remark<A: Allocator>(remarks: &mut VecDeque<KeptNote, A>, made: KeptNote) {
    if remarks.len() < remarks.capacity() {
        remarks.push_back_reserved(made);
    }
}

/// Drops the first `count` notes.
fn forget_first<A: Allocator>(remarks: &mut VecDeque<KeptNote, A>, count: usize) {
    for _ in 0..count {
        let _forgotten = remarks.pop_front();
    }
}
