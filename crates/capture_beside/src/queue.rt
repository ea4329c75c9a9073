//! The datagrams of a way that one recording has and that have no partner in the other one yet.

ghost use Rattle.std.specs.Prelude.{◌≡◌, ◌<◌, [], ◌∷◌, ◌++◌, length, IfOk, OnOk, IfSome};
ghost use Rattle.capture_beside.specs.Queues.{others_at, next_at, next_place, oldest, place_of, next_after_removal, datagram_at, with_room};

use std::alloc::{AllocError, Global};

/// How many datagrams of a way wait in each recording.
pub const WAITING: usize = 4096;

/// A datagram that waits for its partner.
#[derive(Clone, Copy, Debug, PartialEq, Eq)]
pub struct WaitingDatagram {
    /// The fingerprint of its bytes.
    pub fingerprint: u64,
    /// When it was recorded, in microseconds since 1970.
    pub time: u64,
    /// Its number among the datagrams of its way in its recording, from 0.
    pub number: u64,
}

/// The datagrams that wait, in order.
#[derive(Debug, Drop)]
pub struct Queue {
    /// The datagrams.
    pub waiting: Vec<WaitingDatagram>,
    /// The place from which the next partner is sought: where the last one waited.
    pub next: usize,
}

impl Queue {
    /// Returns a queue without datagrams, with the memory for all that it keeps.
    ///
    /// # Errors
    ///
    /// `AllocError` if there is too little memory.
    pub(crate) fn new(alloc: Global) -> Result<Self, AllocError>
        ensures { IfOk result (λ queue. (queue.waiting.items ≡ []) × (queue.next ≡ 0)) }
    {
        Ok(Queue {
            waiting: Vec::with_capacity(alloc, WAITING)?,
            next: 0,
        })
    }

    /// Takes the next datagram with a fingerprint: from the last partner on, then from the oldest.
    pub fn take(&mut self, fingerprint: u64) -> Option<WaitingDatagram>
        // The result is the datagram at the next place with this `fingerprint`, and `None` if no datagram has it
        // (`next_place`).
        ensures taken { result ≡ datagram_at (next_place self.old.next fingerprint self.old.waiting.items) self.old.waiting.items }
        // Only that datagram leaves; the others keep their order.
        ensures left { self.new.waiting.items
            ≡ others_at (next_place self.old.next fingerprint self.old.waiting.items) self.old.waiting.items }
        // The next partner is sought from its place on.
        ensures next { self.new.next ≡ next_at (next_place self.old.next fingerprint self.old.waiting.items) self.old.next }
    {
        let place = place(self.waiting.as_slice(), self.next, fingerprint)?;
        self.next = place;
        Some(self.waiting.remove(place))
    }

    /// Lets a datagram wait, and returns the oldest one if there was no room.
    ///
    /// # Errors
    ///
    /// `AllocError` if there is too little memory; the datagram is then lost.
    pub fn wait(&mut self, arrived: WaitingDatagram) -> Result<Option<WaitingDatagram>, AllocError>
        // `wait` returns the oldest datagram of a full queue, and `None` if there is room (`oldest`).
        ensures gone { IfOk result (λ gone. gone ≡ oldest self.old.waiting.items) }
        // The new datagram is the last one; only the oldest leaves if there was no room (`with_room`).
        ensures waits { OnOk result (self.new.waiting.items ≡ with_room self.old.waiting.items ++ arrived ∷ []) }
        // The place from which the next partner is sought moves with the datagrams (`next_after_removal`).
        ensures next { self.new.next ≡ next_after_removal self.old.waiting.items self.old.next }
    {
        let gone = self.make_room();
        self.waiting.push(arrived)?;
        Ok(gone)
    }

    /// Takes the oldest datagram if the queue is full.
    fn make_room(&mut self) -> Option<WaitingDatagram>
        // The result is the oldest datagram if `WAITING` wait, else `None`.
        ensures gone { result ≡ oldest self.old.waiting.items }
        // A full queue loses its first datagram; any other does not change.
        ensures left { self.new.waiting.items ≡ with_room self.old.waiting.items }
        // The place of the last partner moves with the datagrams.
        ensures next { self.new.next ≡ next_after_removal self.old.waiting.items self.old.next }
    {
        if self.waiting.len() < WAITING {
            return None;
        }
        self.next = self.next.saturating_sub(1);
        Some(self.waiting.remove(0))
    }
}

/// Returns the place of the next datagram with a fingerprint: from `next` on, then from the start.
fn place(waiting: &[WaitingDatagram], next: usize, fingerprint: u64) -> Option<usize>
    // The place is the first from `next` on with this `fingerprint`, or else the first of all (`next_place`).
    ensures value { result ≡ next_place next fingerprint waiting.now }
    // The place is one of the datagrams.
    ensures bound { IfSome result (λ place. place < length waiting.now) }
{
    let (front, back) = waiting.split_at(next.min(waiting.len()));
    match place_of(back, fingerprint) {
        Some(place) => Some(front.len() + place),
        None => place_of(front, fingerprint),
    }
}

/// Returns the place of the first datagram with a fingerprint.
fn place_of(waiting: &[WaitingDatagram], fingerprint: u64) -> Option<usize>
    // The place is the first whose datagram has this `fingerprint`.
    ensures value { result ≡ place_of fingerprint waiting.now }
    // The first place is one of the datagrams.
    ensures bound { IfSome result (λ place. place < length waiting.now) }
{
    waiting
        .iter()
        .position(|waiting| waiting.fingerprint == fingerprint)
}
