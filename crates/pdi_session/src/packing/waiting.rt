//! The messages that wait to be sent, and packing the first of them into a unit.

ghost use Rattle.std.specs.Prelude.{◌≡◌, ◌==◌, ◌<◌, ◌≤◌, ◌+◌, ◌↔◌, [], ◌∷◌, ◌++◌, not, length, take, drop, IsOk, IsNone, IsTrue, OnOk, OnErr, IfOk, IfSome, IsOkAnd};
ghost use Rattle.arrayvec.specs.ArrayVec.{array_vec_len};
ghost use Rattle.octets.specs.declared.limits.TheConstants.{UNIT_MAX, UNIT_MIN};
ghost use Rattle.pdi_session.specs.TelegramCounts.{items_in};
ghost use Rattle.pdi_session.specs.packing.Ring.{IsMoved};
ghost use Rattle.pdi_session.specs.packing.UnitText.{AreMessages, IsMessage, UnitText, messages_of};

use super::unit::{put_message, unpack};
use super::{Full, Messages, PackFault, Unit, WAITING_MAX};
use crate::counts::is_item;
use arrayvec::ArrayVec;
use circular_buffer::HeapCircularBuffer;
use octets::limits::{MESSAGE_LENGTH, MESSAGE_MAX, UNIT_MAX, UNIT_MESSAGES};
use std::alloc::{AllocError, Allocator, Global};
use std::marker::Model;

/// A message in storage of the longest one, 400 bytes.
type Message = ArrayVec<u8, MESSAGE_MAX>;

/// The messages that wait to be sent, oldest first, at most 64.
///
/// `new` allocates all the room; no other call allocates. Only `add` copies a message, over the previous content
/// of a place.
#[derive(Drop)]
pub struct Waiting<A: Allocator = Global> {
    /// One place for each message that fits: first those of the waiting messages, in order. A place that is free
    /// again moves to the end.
    places: HeapCircularBuffer<Message, A>,
    /// The number of waiting messages. The places of no waiting message are never read.
    count: usize,
}

impl<A: Allocator> Model for Waiting<A> {
    ghost use Rattle.std.specs.Prelude.{ℕ, List, take};
    ghost use Rattle.pdi_session.specs.packing.Ring.{IsRing, messages_of_places};
    ghost use Rattle.pdi_session.specs.packing.UnitText.{AreMessages};

    ghost Value = { List (List ℕ) };

    ghost view = { λ w. messages_of_places (take w.count w.places.items) };

    ghost invariant = { λ w. IsRing w.places w.count × AreMessages (messages_of_places (take w.count w.places.items)) };
}

impl<A: Allocator> Waiting<A> {
    /// Creates an empty queue with room for 64 messages.
    ///
    /// # Errors
    ///
    /// Returns an error if the allocation fails.
    pub fn new(alloc: A) -> Result<Self, AllocError>
        // In a new queue no message waits.
        ensures { IfOk result (λ waiting. waiting ≡ []) }
    {
        let mut places = HeapCircularBuffer::with_capacity(alloc, WAITING_MAX)?;
        for _ in 0..WAITING_MAX {
            places.try_push_back(Message::new()).unwrap();
        }
        Ok(Waiting { places, count: 0 })
    }

    /// Returns the number of waiting messages.
    pub fn len(&self) -> usize
        // `len` is the number of messages that wait.
        ensures len { result ≡ length self.now }
        // At any time at most 64 messages wait.
        ensures within { result ≤ WAITING_MAX }
        // Each waiting message has 43 to 400 bytes.
        ensures sized { AreMessages self.now }
    {
        self.count // and not the number of places
    }

    /// Returns true if no message waits.
    pub fn is_empty(&self) -> bool
        // `is_empty` is true if and only if the number of waiting messages is 0.
        ensures { result ≡ (length self.now == 0) }
    {
        self.count == 0
    }

    /// Returns true if there is no room for another message.
    pub fn is_full(&self) -> bool
        // `is_full` is true if and only if 64 messages wait.
        ensures { result ≡ (length self.now == WAITING_MAX) }
    {
        self.count == WAITING_MAX
    }

    /// Appends a message, which must have 43 to 400 bytes.
    ///
    /// # Errors
    ///
    /// - `Full` if 64 messages wait; nothing changes then.
    pub fn add(&mut self, message: &[u8]) -> Result<(), Full>
        requires { IsMessage message.now }
        // `add` succeeds if and only if fewer than 64 messages wait.
        ensures room { IsOk result ↔ (length self.old < WAITING_MAX) }
        // An accepted message becomes the last one that waits.
        ensures added { OnOk result (self.new ≡ self.old ++ message.now ∷ []) }
        // A refused `add` leaves the waiting messages unchanged.
        ensures full { OnErr result (self.new ≡ self.old) }
    {
        if self.count == WAITING_MAX {
            return Err(Full);
        }
        write_message(self.places.get_mut(self.count).unwrap(), message);
        self.count += 1;
        Ok(())
    }

    /// Returns how many of the waiting messages are commands or status.
    pub fn items(&self) -> usize
        // `items` counts the waiting messages that are telegrams outside the establishment.
        ensures count { result ≡ items_in self.now }
        // At most 64 commands or status wait.
        ensures few { result ≤ WAITING_MAX }
    {
        let mut items = 0;
        for place in 0..self.count {
            if is_item(self.places.get(place).unwrap()) {
                items += 1;
            }
        }
        items
    }

    /// Drops every message. The room stays.
    pub fn clear(&mut self)
        // After `clear` no message waits.
        ensures { self.new ≡ [] }
    {
        self.count = 0;
    }

    /// Moves the oldest message to the end of a unit. The caller must make sure that one waits and that there is
    /// room.
    fn put_first(&mut self, unit: &mut Unit)
        requires some { 0 < length self.old }
        requires room { array_vec_len unit.old + MESSAGE_LENGTH + MESSAGE_MAX ≤ UNIT_MAX }
        ensures { IsMoved self.old unit.old.items self.new unit.new.items }
    {
        let oldest = self.places.front().unwrap();
        put_message(unit, oldest);
        self.count -= 1;
        if self.count > 0 {
            let free = self.places.pop_front().unwrap();
            self.places.try_push_back(free).unwrap();
        }
    }
}

/// Replaces the content of a place by a message.
fn write_message(place: &mut Message, message: &[u8])
    requires { length message.now ≤ MESSAGE_MAX }
    ensures { place.new.items ≡ message.now }
{
    place.clear();
    let _fits = place.try_extend_from_slice(message);
}

/// Takes the first `max` waiting messages, or all if fewer wait, and returns them as a unit. `max` must be 1 to 3.
/// Returns `None` if no message waits.
pub fn pack<A: Allocator>(waiting: &mut Waiting<A>, max: usize) -> Option<Unit>
    requires some { 1 ≤ max }
    requires most { max ≤ UNIT_MESSAGES }
    // The unit that `pack` returns has the first `max` waiting messages in order, or all if fewer wait.
    ensures packed { IfSome result (λ unit. UnitText (take max waiting.old) unit.items) }
    // A unit returned by `pack` has 45 to 1,206 bytes.
    ensures sized { IfSome result (λ unit. (UNIT_MIN ≤ length unit.items) × (length unit.items ≤ UNIT_MAX)) }
    // `pack` returns `None` if and only if no message waits.
    ensures none { IsNone result ↔ (waiting.old ≡ []) }
    // After `pack` the messages from number `max` + 1 on still wait, in order.
    ensures left { waiting.new ≡ drop max waiting.old }
{
    let mut unit = Unit::new();
    if !pack_into(waiting, max, &mut unit) {
        return None;
    }
    Some(unit)
}

/// Takes the first `max` waiting messages, or all if fewer wait, and writes them as a unit over the content of
/// `unit`. `max` must be 1 to 3. Returns false, and leaves `unit` unchanged, if no message waits.
pub fn pack_into<A: Allocator>(waiting: &mut Waiting<A>, max: usize, unit: &mut Unit) -> bool
    requires some { 1 ≤ max }
    requires most { max ≤ UNIT_MESSAGES }
    // If `pack_into` returns true, the unit has the first `max` waiting messages in order, or all if fewer wait.
    ensures packed { IsTrue result → UnitText (take max waiting.old) unit.new.items }
    // A unit written by `pack_into` has 45 to 1,206 bytes.
    ensures sized { IsTrue result → (UNIT_MIN ≤ length unit.new.items) × (length unit.new.items ≤ UNIT_MAX) }
    // `pack_into` returns true if and only if a message waits.
    ensures some { result ≡ not (length waiting.old == 0) }
    // The first `max` messages no longer wait after `pack_into`; the others still do, in order.
    ensures left { waiting.new ≡ drop max waiting.old }
{
    let count = max.min(waiting.len());
    if count == 0 {
        return false;
    }
    unit.clear();
    for _taken in 0..count {
        waiting.put_first(unit);
    }
    true
}

/// Packs messages and unpacks the unit.
pub fn read_back<'a, A: Allocator>(
    waiting: &mut Waiting<A>,
    max: usize,
    unit: &'a mut Unit,
) -> Option<Result<Messages<'a>, PackFault>>
    requires some { 1 ≤ max }
    requires most { max ≤ UNIT_MESSAGES }
    // Unpacking succeeds and returns the messages that were packed: the first `max`, or all if fewer wait.
    ensures read { IfSome result (λ answer. IsOkAnd answer (λ messages. messages_of messages ≡ take max waiting.old)) }
    // `read_back` returns `None` if and only if no message waits.
    ensures none { IsNone result ↔ (waiting.old ≡ []) }
    // `read_back` removes the first `max` messages and keeps the others in order.
    ensures left { waiting.new ≡ drop max waiting.old }
{
    *unit = pack(waiting, max)?;
    Some(unpack(unit))
}
