//! A queue of byte strings in memory that is allocated once.

ghost use Rattle.std.specs.Prelude.{◌≡◌, [], is_ok, IfOk, length, ◌&&◌, ◌==◌, nat_le, if◌then◌else◌};
ghost use Rattle.end_for_callers.specs.Queues.{PopsInto, empty_queue, has_place_for, new_queue, with_piece};

use circular_buffer::HeapCircularBuffer;
use std::alloc::{AllocError, Allocator, Global};
use std::marker::Model;

/// There was no free place for a piece, or not enough room.
#[derive(Clone, Copy, Debug, PartialEq, Eq)]
pub struct QueueFull;

/// The buffer is shorter than the oldest piece.
#[derive(Clone, Copy, Debug, PartialEq, Eq)]
pub struct TooSmall {
    /// The size of the oldest piece, in bytes.
    pub needed: usize,
}

/// The tag and the size of a piece.
#[derive(Clone, Copy)]
pub(crate) struct Head<T> {
    /// The tag.
    pub(crate) tag: T,
    /// The size, in bytes.
    pub(crate) size: usize,
}

/// A queue of pieces, each a tag and a byte string; the oldest comes out first.
///
/// It has places for a number of pieces and room for a number of bytes. `new` allocates both, and `pop` frees
/// those of one piece.
#[derive(Drop)]
pub struct Queue<T, A: Allocator = Global> {
    /// The tag and size of each piece, oldest first.
    heads: HeapCircularBuffer<Head<T>, A>,
    /// The bytes of all pieces, one after the other.
    octets: HeapCircularBuffer<u8, A>,
}

impl<T, A: Allocator> Model for Queue<T, A> {
    ghost use Rattle.std.specs.Prelude.{◌-◌, length};
    ghost use Rattle.end_for_callers.specs.Pieces.{AreKept, pieces_in};
    ghost use Rattle.end_for_callers.specs.Queues.{Queued};

    ghost Value = { Queued T };

    ghost view = { λ q. record {
      waiting = pieces_in q.heads.items q.octets.items;
      places = q.heads.capacity - length q.heads.items;
      room = q.octets.capacity - length q.octets.items;
    } };

    ghost invariant = { λ q. AreKept q.heads q.octets };
}

impl<T: Copy + Drop, A: Allocator + Copy> Queue<T, A> {
    /// Creates an empty queue with this number of places and bytes of room.
    ///
    /// # Errors
    ///
    /// Returns an error if the allocation fails.
    pub fn new(alloc: A, places: usize, room: usize) -> Result<Self, AllocError>
        // In a new queue nothing waits, and all its places and room are free.
        ensures { IfOk result (λ q. q ≡ new_queue places room) }
    {
        Ok(Queue {
            heads: HeapCircularBuffer::with_capacity(alloc, places)?,
            octets: HeapCircularBuffer::with_capacity(alloc, room)?,
        })
    }
}

impl<T: Copy + Drop, A: Allocator> Queue<T, A> {
    /// Drops every piece. Their places and their room are free again.
    pub fn clear(&mut self)
        // After `clear` nothing waits, and all places and all room are free (`empty_queue`).
        ensures { self.new ≡ empty_queue self.old }
    {
        self.heads.clear();
        self.octets.clear();
    }
}

impl<T: Copy, A: Allocator> Queue<T, A> {
    /// Returns the number of free places.
    pub fn places(&self) -> usize
        // `places` is the number of pieces that still have a place.
        ensures { result ≡ self.now.places }
    {
        self.heads.capacity() - self.heads.len()
    }

    /// Returns the free room in bytes.
    pub fn room(&self) -> usize
        // `room` is the number of bytes that are free.
        ensures { result ≡ self.now.room }
    {
        self.octets.capacity() - self.octets.len()
    }

    /// Returns the number of pieces that wait.
    pub fn len(&self) -> usize
        // `len` counts the pieces that wait.
        ensures { result ≡ length self.now.waiting }
    {
        let waiting = self.heads.len();
        waiting
    }

    /// Returns true if no piece waits.
    pub fn is_empty(&self) -> bool
        // `is_empty` is true if and only if the number of waiting pieces is 0.
        ensures { result ≡ (length self.now.waiting == 0) }
    {
        self.heads.is_empty()
    }

    /// Appends a piece.
    ///
    /// # Errors
    ///
    /// - `QueueFull` if no place is free, or less room than the piece needs; nothing changes then.
    pub fn push(&mut self, tag: T, piece: &[u8]) -> Result<(), QueueFull>
        // `push` succeeds if and only if a place is free and the piece fits the free room.
        ensures room { is_ok result ≡ has_place_for (length piece.now) self.old }
        // An accepted piece becomes the last one, and takes one place and its size of room. A refused `push`
        // changes nothing.
        ensures pushed { self.new ≡ (if is_ok result then with_piece (tag, piece.now) self.old else self.old) }
    {
        let size = piece.len();
        if self.places() < 1 || self.room() < size {
            return Err(QueueFull);
        }
        let _all = self.octets.fill_from_slice(piece);
        self.heads.try_push_back(Head { tag, size }).unwrap();
        Ok(())
    }

    /// Removes the oldest piece, copies its bytes to the start of the buffer, and returns its tag and size.
    /// Returns `None` if no piece waits.
    ///
    /// # Errors
    ///
    /// - `TooSmall` if the buffer is shorter than the piece, which then stays.
    pub fn pop(&mut self, buffer: &mut [u8]) -> Result<Option<(T, usize)>, TooSmall>
        // `pop` copies the complete oldest piece to the start of the buffer, leaves the rest of the buffer, and
        // frees the piece's place and room (`TookOldest`). If nothing waits, or the buffer is too short
        // (`IsTooLong`), nothing changes.
        ensures { PopsInto result self.old buffer.old self.new buffer.new }
    {
        let Some(Head { tag, size }) = self.heads.front() else {
            return Ok(None);
        };
        let (tag, size) = (*tag, *size);
        if buffer.len() < size {
            return Err(TooSmall { needed: size });
        }
        let _oldest = self.heads.pop_front();
        let _all = self.octets.read_into(&mut buffer[..size]);
        Ok(Some((tag, size)))
    }
}
