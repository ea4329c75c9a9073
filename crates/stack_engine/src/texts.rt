//! A growing list of texts, each with a head. The bytes of all texts are in one buffer.

ghost use Rattle.std.specs.Prelude.{◌≡◌, ◌+◌, ◌≤◌, ℕ, List, [], ◌∷◌, ◌++◌, length, slice_get, slice_range, option_map, OnOk, IfSome};
ghost use Rattle.red_layer.specs.Parts.{is_nil};
ghost use Rattle.stack_engine.specs.TextPlaces.{AreWithin};

use std::alloc::{AllocError, Allocator, Global};
use std::marker::Model;

/// A text in the list: its head, and its place in the buffer.
#[derive(Drop)]
struct Kept<T> {
    /// The head of the text.
    head: T,
    /// The place of its first byte in the buffer.
    from: usize,
    /// The place after its last byte.
    to: usize,
}

/// A list of texts that only grows, each with a head, and room for more. Adding a text does not allocate.
#[derive(Drop)]
pub struct Texts<T, A: Allocator = Global> {
    /// The texts, in order.
    kept: Vec<Kept<T>, A>,
    /// The bytes of all texts, one after the other.
    octets: Vec<u8, A>,
}

impl<T, A: Allocator> Model for Texts<T, A> {
    ghost use Rattle.std.specs.Prelude.{◌-◌, vec_len, vec_capacity};
    ghost use Rattle.stack_engine.specs.Texts.{Shelf};
    ghost use Rattle.stack_engine.specs.TextPlaces.{texts_in, AreWithin};

    ghost Value = { Shelf T };

    ghost view = { λ t. record {
      texts = texts_in t.octets.items t.kept.items;
      places = vec_capacity t.kept - vec_len t.kept;
      octets = vec_capacity t.octets - vec_len t.octets;
    } };

    ghost invariant = { λ t. AreWithin t.octets.items t.kept.items };
}

impl<T: Drop, A: Allocator + Copy> Texts<T, A> {
    /// Creates an empty list without room.
    pub fn new(alloc: A) -> Self
        // New `Texts` are an empty list.
        ensures { result.texts ≡ [] }
    {
        Texts {
            kept: Vec::new(alloc),
            octets: Vec::new(alloc),
        }
    }

    /// Makes room for a number of texts, and for the bytes that they have together.
    ///
    /// # Errors
    ///
    /// Fails if an allocation fails.
    pub fn reserve(&mut self, places: usize, octets: usize) -> Result<(), AllocError>
        // Making room changes none of the `texts`.
        ensures same { self.new.texts ≡ self.old.texts }
        // After a success there are places for at least that many more texts.
        ensures places { OnOk result (places ≤ self.new.places) }
        // After a success there is room for at least that many more bytes.
        ensures octets { OnOk result (octets ≤ self.new.octets) }
    {
        self.kept.try_reserve(places)?;
        self.octets.try_reserve(octets)
    }

    /// Gives back the room for more texts, as far as the allocator takes it.
    pub(crate) fn shrink(&mut self)
        ensures { self.new.texts ≡ self.old.texts }
    {
        self.kept.shrink_to_fit();
        self.octets.shrink_to_fit();
    }

    /// Adds a text. The caller has made room for it.
    pub fn add(&mut self, head: T, text: &[u8])
        requires place { 1 ≤ self.old.places }
        requires room { length text.now ≤ self.old.octets }
        // The new text is the last one, with its head; all others stay.
        ensures added { self.new.texts ≡ self.old.texts ++ (head, text.now) ∷ [] }
        // Adding a text uses at most one place.
        ensures places { self.old.places ≤ self.new.places + 1 }
        // Adding a text uses at most as many bytes of room as it has.
        ensures octets { self.old.octets ≤ self.new.octets + length text.now }
    {
        match place_of_last(self.kept.as_slice(), self.octets.as_slice(), text) {
            Some((from, to)) => self.kept.push_reserved(Kept { head, from, to }),
            None => self.add_octets(head, text),
        }
    }

    /// Adds a text with bytes of its own. The caller has made room for it.
    fn add_octets(&mut self, head: T, text: &[u8])
        requires place { 1 ≤ self.old.places }
        requires room { length text.now ≤ self.old.octets }
        // The text is added after all others, with its head.
        ensures added { self.new.texts ≡ self.old.texts ++ (head, text.now) ∷ [] }
        // At most one place is used.
        ensures places { self.old.places ≤ self.new.places + 1 }
        // As many bytes of room are used as the text has.
        ensures octets { self.old.octets ≤ self.new.octets + length text.now }
    {
        let from = self.octets.len();
        self.octets.extend_from_slice(text).unwrap();
        let to = self.octets.len();
        self.kept.push_reserved(Kept { head, from, to });
    }
}

/// Returns where the last of these texts is in their buffer, if it has the bytes of `text`.
fn place_of_last<T>(kept: &[Kept<T>], octets: &[u8], text: &[u8]) -> Option<(usize, usize)>
    requires within { AreWithin octets.now kept.now }
    // The place is one in the buffer.
    ensures within { IfSome result (λ p. (p.0 ≤ p.1) × (p.1 ≤ length octets.now)) }
    // At the place are the bytes of `text`.
    ensures same { IfSome result (λ p. slice_range octets.now p.0 p.1 ≡ text.now) }
{
    let last = kept.get(kept.len().checked_sub(1)?)?;
    if &octets[last.from..last.to] == text {
        Some((last.from, last.to))
    } else {
        None
    }
}

impl<T, A: Allocator> Texts<T, A> {
    ghost use Rattle.stack_engine.specs.TextPlaces.{seen_text};

    /// Returns the number of texts.
    pub fn len(&self) -> usize
        // `len` is the length of the list of `texts`.
        ensures { result ≡ length self.now.texts }
    {
        self.kept.len()
    }

    /// Returns true if there are no texts.
    pub fn is_empty(&self) -> bool
        // `is_empty` is true if and only if the list of `texts` is empty.
        ensures { result ≡ is_nil self.now.texts }
    {
        self.kept.is_empty()
    }

    /// Returns for how many more texts there is a place.
    pub fn places(&self) -> usize
        // `places` is the number of texts that can be added without an allocation, if their bytes have room.
        ensures { result ≡ self.now.places }
    {
        self.kept.capacity() - self.kept.len()
    }

    /// Returns for how many more bytes there is room.
    pub fn room(&self) -> usize
        // `room` is the number of bytes that can be added without an allocation.
        ensures { result ≡ self.now.octets }
    {
        self.octets.capacity() - self.octets.len()
    }

    /// Returns the text at a place, from 0, with its head.
    pub fn get(&self, place: usize) -> Option<(&T, &[u8])>
        // `get` returns head and bytes of the text at this `place`, or `None` after the last one.
        ensures { option_map seen_text result ≡ slice_get self.now.texts place }
    {
        let kept = self.kept.get(place)?;
        Some((&kept.head, &self.octets[kept.from..kept.to]))
    }
}
