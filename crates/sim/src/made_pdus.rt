//! The PDUs that one end made during a script.

ghost use Rattle.std.specs.Prelude.{◌≡◌, ◌++◌, ◌∷◌, [], length, false, OnOk, OnErr};
ghost use Rattle.std.specs.Option.{option_copied, option_map};
ghost use Rattle.sim.specs.MadePdus.{datagram_at, new_pdu, is_named_at, mark_named_at};

use std::alloc::{AllocError, Allocator, Global};
use std::marker::Model;

/// A PDU that an end made.
#[derive(Drop)]
struct Pdu<A: Allocator = Global> {
    /// Its datagram.
    datagram: Vec<u8, A>,
    /// A line has named it.
    is_named: bool,
}

/// The PDUs of one end in the order in which it made them, each with its datagram and a mark if a line has named it.
#[derive(Drop)]
pub struct MadePdus<A: Allocator = Global> {
    /// The PDUs in the order of making.
    pdus: Vec<Pdu<A>, A>,
}

impl<A: Allocator> Model for MadePdus<A> {
    ghost use Rattle.std.specs.Prelude.{List, map};
    ghost use Rattle.sim.specs.MadePdus.{MadePdu};
    ghost use Rattle.sim.specs.MadePdusView.{pdu_seen};

    ghost Value = { List MadePdu };

    ghost view = { λ m. map pdu_seen m.pdus.items };
}

impl<A: Allocator + Copy> MadePdus<A> {
    /// Returns a list without PDUs.
    pub fn new(alloc: A) -> Self
        // The new list is empty.
        ensures { result ≡ [] }
    {
        MadePdus {
            pdus: Vec::new(alloc),
        }
    }

    /// Adds a PDU that the end made.
    ///
    /// # Errors
    ///
    /// An allocation failed. Nothing has changed then.
    pub fn add(&mut self, alloc: A, datagram: &[u8]) -> Result<(), AllocError>
        // On success the PDU is the last of the list, and no line has named it.
        ensures ok { OnOk result (self.new ≡ self.old ++ new_pdu datagram.now ∷ []) }
        // If an allocation fails, the list has no new PDU.
        ensures err { OnErr result (self.new ≡ self.old) }
    {
        self.pdus.try_reserve(1)?;
        let datagram = Vec::from_slice(alloc, datagram)?;
        self.pdus.push_reserved(Pdu {
            datagram,
            is_named: false,
        });
        Ok(())
    }
}

impl<A: Allocator> MadePdus<A> {
    /// Returns how many PDUs there are.
    pub fn len(&self) -> usize
        // The number is the length of the list.
        ensures { result ≡ length self.now }
    {
        self.pdus.len()
    }

    /// Returns the datagram of the PDU at a place, from 0; `None` if it has not been made yet.
    pub fn datagram(&self, place: usize) -> Option<&[u8]>
        // The datagram is that of the PDU at this `place` of the list (`datagram_at`).
        ensures { option_copied result ≡ datagram_at place self.now }
    {
        if place < self.pdus.len() {
            Some(self.pdus[place].datagram.as_slice())
        } else {
            None
        }
    }

    /// Returns `true` if a line has named the PDU at a place; one that has not been made is not named.
    pub fn is_named(&self, place: usize) -> bool
        // The result is the mark of the PDU at this `place`; false beyond the end of the list.
        ensures { result ≡ is_named_at place self.now }
    {
        place < self.pdus.len() && self.pdus[place].is_named
    }

    /// Marks the PDU at a place as named. If it has not been made, nothing changes.
    pub fn name(&mut self, place: usize)
        // Only the mark of the PDU at this `place` changes, to named (`mark_named_at`).
        ensures { self.new ≡ mark_named_at place self.old }
    {
        if place < self.pdus.len() {
            self.pdus[place].is_named = true;
        }
    }
}
