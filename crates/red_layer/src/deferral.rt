//! The deferral queue: a finite map from sequence numbers to parts, with a fixed number of places. It
//! allocates only when it is made.
//!
//! The deferral queue of the redundancy layer of DIN VDE V 0831-200:2015.

ghost use Rattle.std.specs.Prelude.{◌≡◌, ◌<◌, ◌≤◌, ◌↔◌, ◌⊎◌, [], length, IsTrue, IsSome, IsNone, IfOk, IsErr, IfErr, OnOk, OnErr, IfSome, IfNone, is_some, All, vec_len};
ghost use Rattle.std.specs.List.{HoldsAt};
ghost use Rattle.red_layer.specs.declared.deferral.DeferralFault.TheVariants.{Memory};
ghost use Rattle.red_layer.specs.FiniteMap.{Rises, put_in, take_out, part_under, has_number, least_of, entries_of, IsUnder};

use std::alloc::{AllocError, Allocator, Global};
use std::marker::Model;

/// A finite map from sequence numbers to parts, with as many numbers at most as it has places.
///
/// The places are in no order. A free place is used again, and a deferred part is never moved.
#[derive(Drop)]
pub struct Deferral<T, A: Allocator = Global> {
    /// The places, each empty or with a part under its number.
    places: Vec<Option<(u32, T)>, A>,
    /// How many places hold a part, so that an empty table is not searched.
    count: usize,
}

impl<T, A: Allocator> Model for Deferral<T, A> {
    ghost use Rattle.std.specs.Prelude.{◌≡◌, length, vec_len};
    ghost use Rattle.red_layer.specs.FiniteMap.{Table, entries_of, Rises};

    ghost Value = { Table T };

    ghost view = { λ d. record { room = vec_len d.places; waiting = entries_of d.places.items } };

    ghost invariant = { λ d. Rises 0 (entries_of d.places.items) × (d.count ≡ length (entries_of d.places.items)) };
}

/// Why a table was not made.
#[derive(Clone, Copy, Debug, PartialEq, Eq)]
pub enum DeferralFault {
    /// There is no memory for its places.
    Memory,
}

impl From<AllocError> for DeferralFault {
    ghost from_gives = { λ _ fault. fault ≡ Memory };

    fn from(_: AllocError) -> DeferralFault {
        DeferralFault::Memory
    }
}

impl<T: Drop, A: Allocator> Deferral<T, A> {
    /// Makes an empty table with `q` places (1 to 8 in the profile). No other call allocates.
    ///
    /// # Errors
    ///
    /// - `Memory` if there is no memory for the places.
    pub fn new(alloc: A, q: usize) -> Result<Self, DeferralFault>
        // A new table is empty and has `q` places.
        ensures { IfOk result (λ table. table ≡ record { room = q; waiting = [] }) }
    {
        let mut places = Vec::with_capacity(alloc, q)?;
        for _ in 0..q {
            places.push(None).map_err(AllocError::from)?;
        }
        Ok(Deferral { places, count: 0 })
    }

    /// Adds a part under its number.
    ///
    /// # Errors
    ///
    /// Returns the part if every place is taken or the number is already there.
    pub fn put(&mut self, seq: u32, part: T) -> Result<(), T>
        // `put` fails if and only if every place is taken or the number is already there.
        ensures variant { IsErr result
            ↔ ((length self.old.waiting ≡ self.old.room) ⊎ IsTrue (has_number seq self.old.waiting)) }
        // If `put` succeeds, the map has the part under its number, and all other entries are unchanged.
        ensures ok { OnOk result
            (self.new ≡ record { room = self.old.room; waiting = put_in seq part self.old.waiting }) }
        // If `put` fails, the table is unchanged.
        ensures err { OnErr result (self.new ≡ self.old) }
        // If `put` fails, it returns the part.
        ensures given_back { IfErr result (λ back. back ≡ part) }

        // After `put`, the table holds at most as many parts as it has places.
        ensures bounded { length self.new.waiting ≤ self.new.room }
    {
        if self.count == self.places.len() {
            return Err(part);
        }
        match put_among(&mut self.places, seq, part) {
            Ok(()) => {
                self.count += 1;
                Ok(())
            }
            Err(part) => Err(part),
        }
    }

    /// Returns whether there is a part under the number.
    pub fn has(&self, seq: u32) -> bool
        // The result is true if and only if the map has the number.
        ensures { result ≡ has_number seq self.now.waiting }
    {
        place_of(&self.places, seq).is_some()
    }

    /// Takes out the part under the number, if there is one.
    pub fn take(&mut self, seq: u32) -> Option<T>
        // The result of `take` is the part under the number, or `None` if the map does not have it.
        ensures part { result ≡ part_under seq self.old.waiting }
        // `take` removes the number from the map, and leaves the other entries and the number of places
        // unchanged.
        ensures rest { self.new
            ≡ record { room = self.old.room; waiting = take_out seq self.old.waiting } }
    {
        if self.count == 0 {
            return None;
        }
        match take_from(&mut self.places, seq) {
            Some(part) => {
                self.count -= 1;
                Some(part)
            }
            None => None,
        }
    }

    /// Drops every part. The places stay.
    pub fn clear(&mut self)
        // After `clear`, the table is empty and has as many places as before.
        ensures { self.new ≡ record { room = self.old.room; waiting = [] } }
    {
        empty_places(&mut self.places);
        self.count = 0;
    }

    /// Returns the least number in the map, or `None` if it is empty.
    pub fn least(&self) -> Option<u32>
        // The result of `least` is the least number of the map, or `None` if the map is empty.
        ensures { result ≡ least_of self.now.waiting }
    {
        if self.count == 0 {
            return None;
        }
        least_number(&self.places)
    }
}

/// Puts a part into a free place of the table, or returns it.
fn put_among<T: Drop, A: Allocator>(
    places: &mut Vec<Option<(u32, T)>, A>,
    seq: u32,
    part: T,
) -> Result<(), T>
    requires { Rises 0 (entries_of places.old.items) }
    // `put_among` fails if and only if every place is taken or the number is already in one.
    ensures variant { IsErr result ↔ ((length (entries_of places.old.items) ≡ vec_len places.old)
        ⊎ IsTrue (has_number seq (entries_of places.old.items))) }
    // After `put_among`, the entries have strictly rising numbers.
    ensures rises { Rises 0 (entries_of places.new.items) }
    // If `put_among` succeeds, the entries have the part under its number in addition.
    ensures ok { OnOk result (entries_of places.new.items ≡ put_in seq part (entries_of places.old.items)) }
    // If `put_among` fails, the places are unchanged.
    ensures err { OnErr result (places.new.items ≡ places.old.items) }
    // If `put_among` fails, it returns the part.
    ensures given_back { IfErr result (λ back. back ≡ part) }
    // `put_among` leaves the number of places unchanged.
    ensures room { vec_len places.new ≡ vec_len places.old }
    // After `put_among`, there are at most as many entries as places.
    ensures bounded { length (entries_of places.new.items) ≤ vec_len places.new }
{
    put_at(places, seq, part)
}

/// Empties the place of a number in the table, and returns its part.
fn take_from<T: Drop, A: Allocator>(places: &mut Vec<Option<(u32, T)>, A>, seq: u32) -> Option<T>
    requires { Rises 0 (entries_of places.old.items) }
    // After `take_from`, the entries have strictly rising numbers.
    ensures rises { Rises 0 (entries_of places.new.items) }
    // The result of `take_from` is the part under `seq`, or `None`.
    ensures part { result ≡ part_under seq (entries_of places.old.items) }
    // `take_from` leaves all entries except that of `seq`.
    ensures rest { entries_of places.new.items ≡ take_out seq (entries_of places.old.items) }
    // `take_from` leaves the number of places unchanged.
    ensures room { vec_len places.new ≡ vec_len places.old }
{
    take_at(places, seq)
}

/// Empties every place of the table.
fn empty_places<T: Drop, A: Allocator>(places: &mut Vec<Option<(u32, T)>, A>)
    // After `empty_places`, there is no entry.
    ensures empty { entries_of places.new.items ≡ [] }
    // `empty_places` leaves the number of places unchanged.
    ensures room { vec_len places.new ≡ vec_len places.old }
{
    empty_all(places);
}

/// Empties every place.
fn empty_all<T: Drop>(places: &mut [Option<(u32, T)>])
    ensures { entries_of places.new ≡ [] }
{
    for place in places.iter_mut() {
        *place = None;
    }
}

/// Puts a part into a free place, or returns it.
#[tactic(auto, using(crate::proofs::Entries::entries_fit))]
fn put_at<T: Drop>(places: &mut [Option<(u32, T)>], seq: u32, part: T) -> Result<(), T>
    requires { Rises 0 (entries_of places.old) }
    // `put_at` fails if and only if every place is taken or the number is already in one.
    ensures variant { IsErr result
        ↔ ((length (entries_of places.old) ≡ length places.old) ⊎ IsTrue (has_number seq (entries_of places.old))) }
    // After `put_at`, the entries have strictly rising numbers.
    ensures rises { Rises 0 (entries_of places.new) }
    // If `put_at` succeeds, the entries have the part under its number in addition.
    ensures ok { OnOk result (entries_of places.new ≡ put_in seq part (entries_of places.old)) }
    // If `put_at` fails, the places are unchanged.
    ensures err { OnErr result (places.new ≡ places.old) }
    // If `put_at` fails, it returns the part.
    ensures given_back { IfErr result (λ back. back ≡ part) }
    // After `put_at`, there are at most as many entries as places.
    ensures bounded { length (entries_of places.new) ≤ length places.new }
{
    if place_of(places, seq).is_some() {
        return Err(part);
    }
    match free_place(places) {
        Some(place) => {
            places[place] = Some((seq, part));
            Ok(())
        }
        None => Err(part),
    }
}

/// Empties the place of a number, and returns its part.
fn take_at<T: Drop>(places: &mut [Option<(u32, T)>], seq: u32) -> Option<T>
    requires { Rises 0 (entries_of places.old) }
    // After `take_at`, the entries have strictly rising numbers.
    ensures rises { Rises 0 (entries_of places.new) }
    // The result of `take_at` is the part under `seq`, or `None`.
    ensures part { result ≡ part_under seq (entries_of places.old) }
    // `take_at` leaves all entries except that of `seq`.
    ensures rest { entries_of places.new ≡ take_out seq (entries_of places.old) }
{
    match place_of(places, seq) {
        Some(place) => match places[place].take() {
            Some((_, part)) => Some(part),
            None => None,
        },
        None => None,
    }
}

/// Returns the place that holds a number.
fn place_of<T>(places: &[Option<(u32, T)>], seq: u32) -> Option<usize>
    // `place_of` returns one of the places.
    ensures in_range { IfSome result (λ i. i < length places.now) }
    // `place_of` returns a place if and only if an entry has the number.
    ensures there { is_some result ≡ has_number seq (entries_of places.now) }
    // The place that `place_of` returns holds an entry under `seq`.
    ensures found { IfSome result (λ i. HoldsAt (IsUnder seq) places.now i) }
{
    search(places, seq)
}

/// Searches the places for a number.
fn search<T>(places: &[Option<(u32, T)>], seq: u32) -> Option<usize>
    // `search` returns one of the places.
    ensures in_range { IfSome result (λ i. i < length places.now) }
    // The place that `search` returns holds an entry under `seq`.
    ensures found { IfSome result (λ i. HoldsAt (IsUnder seq) places.now i) }
    // If `search` returns `None`, no place holds an entry under `seq`.
    ensures none { IfNone result (All (λ place. ¬ IsUnder seq place) places.now) }
{
    places.iter().position(|place| matches!(place, Some((number, _)) if *number == seq))
}

/// Returns an empty place.
fn free_place<T>(places: &[Option<(u32, T)>]) -> Option<usize>
    // `free_place` returns one of the places.
    ensures in_range { IfSome result (λ i. i < length places.now) }
    // The place that `free_place` returns is empty.
    ensures found { IfSome result (λ i. HoldsAt IsNone places.now i) }
    // If `free_place` returns `None`, every place holds an entry.
    ensures none { IfNone result (All IsSome places.now) }
{
    places.iter().position(|place| place.is_none())
}

/// Returns the least number in the places.
fn least_number<T>(places: &[Option<(u32, T)>]) -> Option<u32>
    ensures { result ≡ least_of (entries_of places.now) }
{
    let mut least = None;
    for place in places {
        if let Some((number, _)) = place {
            least = match least {
                Some(so_far) if so_far < *number => Some(so_far),
                _ => Some(*number),
            };
        }
    }
    least
}
