//! The ring of unconfirmed units.

ghost use Rattle.std.specs.Prelude.{◌≡◌, ◌+◌, ◌<◌, ◌≤◌, ◌^◌, ◌↔◌, ◌++◌, [], ◌∷◌, length, drop, slice_get, All, IsOk, OnOk, OnErr, IfOk, IfErr};
ghost use Rattle.octets.specs.declared.limits.TheConstants.{UNIT_MAX};
ghost use Rattle.safe_machine.specs.retrans.Units.{Rises, above, octets_of, renumber_units, seen_of};

use super::{NumberedUnit, Unit};
use circular_buffer::HeapCircularBuffer;
use octets::limits::UNIT_MAX;
use std::alloc::{AllocError, Allocator, Global};
use std::marker::Model;

/// The units that were sent and are not confirmed, under rising numbers, the one sent first at the front.
///
/// Only `new` allocates, and only `keep` copies bytes: those of the unit, over the bytes of an earlier one. No
/// place is cleared and no unit is moved, so a short unit costs as much as its bytes only.
#[derive(Drop)]
pub struct Unconfirmed<A: Allocator = Global> {
    /// One place for each unit that there is room for: first those of the units, in order. A place that is free
    /// again moves to the end.
    places: HeapCircularBuffer<NumberedUnit, A>,
    /// How many places hold an unconfirmed unit. The other places are never read.
    count: usize,
}

impl<A: Allocator> Model for Unconfirmed<A> {
    ghost use Rattle.std.specs.Prelude.{take};
    ghost use Rattle.safe_machine.specs.retrans.Units.{IsRing, Kept, Rises, unit_values};

    ghost Value = { Kept };

    ghost view = { λ u. record { room = u.places.capacity; units = unit_values (take u.count u.places.items) } };

    ghost invariant = { λ u. IsRing u.places u.count × Rises (unit_values (take u.count u.places.items)) };
}

impl<A: Allocator> Unconfirmed<A> {
    /// Returns an empty list with room for `n` units. A window has at most 32.
    ///
    /// # Errors
    ///
    /// Returns an error if the allocation fails.
    pub fn new(alloc: A, n: usize) -> Result<Self, AllocError>
        // A new `Unconfirmed` is empty and has room for `n` units.
        ensures { IfOk result (λ kept. kept ≡ record { room = n; units = [] }) }
    {
        let mut places = HeapCircularBuffer::with_capacity(alloc, n)?;
        for _ in 0..n {
            places.try_push_back((0, Unit::new())).unwrap();
        }
        Ok(Unconfirmed { places, count: 0 })
    }

    /// Returns how many units are unconfirmed.
    pub fn len(&self) -> usize
        // `len` returns the number of units, not the number of places.
        ensures len { result ≡ length self.now.units }
        // There are at most as many units as there is room for.
        ensures within { result ≤ self.now.room }
        // The numbers of the units rise.
        ensures rising { Rises self.now.units }
    {
        self.count // and not the number of places
    }

    /// Returns the unit at a place, counted from 0 for the one sent first, with its number.
    pub fn get(&self, place: usize) -> Option<&NumberedUnit>
        // `get` returns the number and the bytes of the unit at this place, or `None` if there are fewer units.
        ensures { seen_of result ≡ slice_get self.now.units place }
    {
        if place >= self.count {
            return None;
        }
        self.places.get(place)
    }

    /// Appends a unit under the number of the PDU that carried it. The number must be greater than those of all
    /// units kept.
    ///
    /// # Errors
    ///
    /// Returns the unit if there is no room, and changes nothing.
    pub fn sent(&mut self, number: u64, unit: Unit) -> Result<(), Unit>
        requires { All (λ u. u.number < number) self.old.units }
        // `sent` succeeds if and only if there is room.
        ensures room { IsOk result ↔ (length self.old.units < self.old.room) }
        // A unit that `sent` accepts is appended under its number; the other units and the room stay.
        ensures added { OnOk result (self.new ≡ record {
          room = self.old.room;
          units = self.old.units ++ record { number = number; octets = unit.items } ∷ [];
        }) }
        // If `sent` refuses a unit, nothing changes.
        ensures full { OnErr result (self.new ≡ self.old) }
        // A unit that `sent` refuses is returned unchanged.
        ensures given_back { IfErr result (λ back. back ≡ unit) }
    {
        if self.count == self.places.capacity() {
            return Err(unit);
        }
        self.keep(number, &unit);
        Ok(())
    }

    /// Appends a copy of a unit under the number of the PDU that carried it. The number must be greater than those
    /// of all units kept, and there must be room.
    pub fn keep(&mut self, number: u64, octets: &[u8])
        requires above { All (λ u. u.number < number) self.old.units }
        requires short { length octets.now ≤ UNIT_MAX }
        requires room { length self.old.units < self.old.room }
        // `keep` appends a copy of the bytes under their number; the other units and the room stay.
        ensures { self.new ≡ record {
          room = self.old.room;
          units = self.old.units ++ record { number = number; octets = octets.now } ∷ [];
        } }
    {
        write_unit(self.places.get_mut(self.count).unwrap(), number, octets);
        self.count += 1;
    }

    /// Drops the units whose numbers are at most `number`. They are at the front.
    pub fn confirm(&mut self, number: u64)
        // `confirm` keeps exactly the units with greater numbers, in order (`above`).
        ensures { self.new ≡ record { room = self.old.room; units = above number self.old.units } }
    {
        let confirmed = self.count_up_to(number);
        self.free(confirmed);
    }

    /// Counts the units with numbers up to this one. They are at the front.
    fn count_up_to(&self, number: u64) -> usize
        // The units after those counted are exactly those with greater numbers (`above`).
        ensures left { drop result self.now.units ≡ above number self.now.units }
        // No more are counted than there are.
        ensures within { result ≤ length self.now.units }
    {
        for place in 0..self.count {
            if self.places.get(place).unwrap().0 > number {
                return place;
            }
        }
        self.count
    }

    /// Drops the first units. If all are dropped, the next ones use the same places again.
    fn free(&mut self, dropped: usize)
        requires { dropped ≤ length self.old.units }
        ensures { self.new ≡ record { room = self.old.room; units = drop dropped self.old.units } }
    {
        self.count -= dropped;
        if self.count > 0 {
            for _ in 0..dropped {
                let place = self.places.pop_front().unwrap();
                self.places.try_push_back(place).unwrap();
            }
        }
    }

    /// Drops every unit. The room stays.
    pub fn clear(&mut self)
        // After `clear`, no unit is unconfirmed, and there is as much room as before.
        ensures { self.new ≡ record { room = self.old.room; units = [] } }
    {
        self.count = 0;
    }

    /// Gives the units consecutive numbers from `first` on, in order, as they are sent again. The last number must
    /// be below 2^64.
    pub fn renumber(&mut self, first: u64)
        requires { first + length self.old.units ≤ 2 ^ 64 }
        // `renumber` gives consecutive numbers from `first` on, and keeps the units and their order (`renumber_units`).
        ensures { self.new ≡ record { room = self.old.room; units = renumber_units first (octets_of self.old.units) } }
    {
        for far in 0..self.count {
            self.places.get_mut(far).unwrap().0 = first + far as u64;
        }
    }
}

/// Overwrites a place with a number and the bytes of a unit.
fn write_unit(place: &mut NumberedUnit, number: u64, octets: &[u8])
    requires { length octets.now ≤ UNIT_MAX }
    // After `write_unit`, the place has this number.
    ensures number { place.new.0 ≡ number }
    // After `write_unit`, the unit has exactly these bytes, and none of those before.
    ensures octets { place.new.1.items ≡ octets.now }
{
    place.0 = number;
    place.1.clear();
    let _fits = place.1.try_extend_from_slice(octets);
}
