//! What an end reports of its work, until the caller fetches it.

ghost use Rattle.std.specs.Prelude.{◌≡◌, IfOk, false};
ghost use Rattle.end_for_callers.specs.Notes.{heard_anew, next_of, note_of, rest_of, with_note};

use channels::Note;
use circular_buffer::HeapCircularBuffer;
use pdi_session::Phase;
use red_layer::RedEvent;
use safe_machine::{ConnectionState, Step};
use std::alloc::{AllocError, Global};
use std::marker::Model;

/// The most notes that wait. A call with one part makes about ten.
pub const NOTES_MAX: usize = 128;

/// One thing that an end did.
#[derive(Clone, Copy, Debug, PartialEq, Eq)]
pub enum StationNote {
    /// The connection has changed to this state.
    State(ConnectionState),
    /// The session has changed to this phase.
    Phase(Phase),
    /// What the redundancy layer did with a datagram, and the datagram's number if it is a redundancy PDU.
    Datagram(Option<u32>, RedEvent),
    /// What the safety machine did with the part of this redundancy number.
    Part(u32, Step),
    /// The application took a telegram with this message type.
    Take(u16),
    /// This number of notes had no room here, modulo 2^64.
    LeftOut(u64),
}

impl StationNote {
    /// Returns a note of an end as it is kept. The payload of a telegram is not.
    pub(crate) fn of(note: &Note<'_>) -> StationNote
        ensures { result ≡ note_of note.now }
    {
        match note {
            Note::Redundancy(number, event) => StationNote::Datagram(*number, *event),
            Note::Step(number, step) => StationNote::Part(*number, *step),
            Note::Take(kind, _) => StationNote::Take(*kind),
            Note::State(state) => StationNote::State(*state),
            Note::Phase(phase) => StationNote::Phase(*phase),
        }
    }
}

/// The notes that wait for the caller. As soon as one had no room, later ones have none either, so that what is fetched
/// has one gap at most, and says how long it is.
#[derive(Drop)]
pub struct Notes {
    /// Whether notes are kept.
    hears: bool,
    /// The notes, the oldest first.
    waiting: HeapCircularBuffer<StationNote, Global>,
    /// How many had no room, modulo 2^64.
    left_out: u64,
}

impl Model for Notes {
    ghost use Rattle.std.specs.Prelude.{◌≡◌};
    ghost use Rattle.end_for_callers.specs.Notes.{NoteQueue};
    ghost use Rattle.end_for_callers.specs.declared.notes.TheConstants.{NOTES_MAX};

    ghost Value = { NoteQueue };

    ghost view = { λ n. record { hears = n.hears; waiting = n.waiting.items; left_out = n.left_out } };

    ghost invariant = { λ n. n.waiting.capacity ≡ NOTES_MAX };
}

impl Notes {
    /// Makes room for 128 notes. None is kept until `set_kept` is called.
    ///
    /// # Errors
    ///
    /// Returns an error if the allocation fails.
    pub(crate) fn new(alloc: Global) -> Result<Notes, AllocError>
        ensures { IfOk result (λ n. n ≡ heard_anew false) }
    {
        Ok(Notes {
            hears: false,
            waiting: HeapCircularBuffer::with_capacity(alloc, NOTES_MAX)?,
            left_out: 0,
        })
    }

    /// Keeps notes from now on, or no longer. Those that wait are dropped.
    pub(crate) fn set_kept(&mut self, hears: bool)
        ensures { self.new ≡ heard_anew hears }
    {
        self.waiting.clear();
        self.left_out = 0;
        self.hears = hears;
    }

    /// Returns true if notes are kept.
    pub(crate) fn hears(&self) -> bool
        ensures { result ≡ self.now.hears }
    {
        self.hears
    }

    /// Appends a note, if notes are kept and there is room.
    pub(crate) fn add(&mut self, note: StationNote)
        ensures { self.new ≡ with_note note self.old }
    {
        if !self.hears {
            return;
        }
        if self.left_out > 0 || self.waiting.try_push_back(note).is_err() {
            self.left_out = self.left_out.wrapping_add(1);
        }
    }

    /// Removes the oldest note. After the last one it returns once how many had no room, if any.
    pub(crate) fn next(&mut self) -> Option<StationNote>
        // The result is the oldest note; after the last one the number of those without room, if it is not 0; then `None`.
        ensures next { result ≡ next_of self.old }
        // The returned note is gone, and nothing else.
        ensures rest { self.new ≡ rest_of self.old }
    {
        if let Some(note) = self.waiting.pop_front() {
            return Some(note);
        }
        if self.left_out == 0 {
            return None;
        }
        let left_out = self.left_out;
        self.left_out = 0;
        Some(StationNote::LeftOut(left_out))
    }
}
