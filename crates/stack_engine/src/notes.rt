//! Notes of what the last accepted event did. No promise speaks of them.

ghost use Rattle.std.specs.Prelude.{◌≡◌, ◌==◌, option_map};

use crate::telegrams::Telegrams;
use crate::texts::Texts;
use channels::Note;
use pdi_session::Phase;
use red_layer::RedEvent;
use safe_machine::{ConnectionState, Step};
use std::alloc::{Allocator, Global};
use std::collections::VecDeque;

/// One thing that an event did.
#[derive(Clone, Copy, Debug, PartialEq, Eq)]
pub enum NoteView<'a> {
    /// The end made a PDU; this is its datagram.
    Made(&'a [u8]),
    /// A note of the end.
    Note(Note<'a>),
}

/// A note as it is kept; datagrams and telegrams are kept elsewhere.
#[derive(Clone, Copy, Debug)]
pub enum KeptNote {
    /// The PDU with this place among all that the end made.
    Made(usize),
    /// What the redundancy layer did with a datagram, and the datagram's number if it has one.
    Redundancy(Option<u32>, RedEvent),
    /// What the safety machine did with the part of this number.
    Step(u32, Step),
    /// The telegram with this place among all that the application took.
    Take(usize),
    /// The connection has changed to this state.
    State(ConnectionState),
    /// The session has changed to this phase.
    Phase(Phase),
}

/// What an event did, in order.
#[derive(Clone, Copy)]
pub struct Notes<'a, A: Allocator = Global> {
    /// The notes of all events that are kept, in order.
    pub(crate) remarks: &'a VecDeque<KeptNote, A>,
    /// How many of the first notes are of earlier events.
    pub(crate) earlier: usize,
    /// The datagrams that were made.
    pub(crate) datagrams: &'a Texts<(), A>,
    /// The telegrams that were taken.
    pub(crate) taken: &'a Telegrams<A>,
}

impl<'a, A: Allocator> Notes<'a, A> {
    ghost use Rattle.stack_engine.specs.NoteValues.{note_at, notes_in, seen_note};

    /// Returns the number of notes.
    pub fn len(&self) -> usize
        // `len` counts the kept notes after the earlier ones.
        ensures { result ≡ notes_in self.now }
    {
        self.remarks.len().saturating_sub(self.earlier)
    }

    /// Returns true if there are no notes.
    pub fn is_empty(&self) -> bool
        // `is_empty` is true if and only if there are no kept notes after the earlier ones.
        ensures { result ≡ (notes_in self.now == 0) }
    {
        self.len() == 0
    }

    /// Returns the note at a place, from 0.
    pub fn get(&self, place: usize) -> Option<NoteView<'a>>
        // `get` returns the kept note at this `place` after the earlier ones. The note of a PDU made has the
        // datagram at the place that it names, that of a telegram taken has its message type and payload.
        ensures { option_map seen_note result ≡ note_at self.now place }
    {
        let remark = self.remarks.get(self.earlier.checked_add(place)?)?;
        match *remark {
            KeptNote::Made(place) => {
                let (_, datagram) = self.datagrams.get(place)?;
                Some(NoteView::Made(datagram))
            }
            KeptNote::Take(place) => {
                let (kind, payload) = self.taken.get(place)?;
                Some(NoteView::Note(Note::Take(*kind, payload)))
            }
            KeptNote::Redundancy(number, event) => {
                Some(NoteView::Note(Note::Redundancy(number, event)))
            }
            KeptNote::Step(number, step) => Some(NoteView::Note(Note::Step(number, step))),
            KeptNote::State(state) => Some(NoteView::Note(Note::State(state))),
            KeptNote::Phase(phase) => Some(NoteView::Note(Note::Phase(phase))),
        }
    }
}
