//! The notes of an end, as C sees them.

ghost use Rattle.std.specs.Prelude.{◌≡◌};
ghost use Rattle.bekwidas.specs.Notes.{code_of_cause, code_of_event, code_of_step, fault_of_event, fault_of_step, note_in};

use crate::codes::{of_phase, of_state};
use end_for_callers::StationNote;
use red_layer::RedEvent;
use safe_machine::{DropCause, Step};

/// One thing that an end did, in numbers.
#[repr(C)]
#[derive(Drop)]
pub struct PlainNote {
    /// How many notes had no room, if this note says that; otherwise 0.
    pub count: u64,
    /// What it is about: 1 for the state, 2 for the phase, 3 for a datagram, 4 for a part, 5 for a telegram that was
    /// taken, and 6 for notes that had no room.
    pub what: u32,
    /// The new state or phase, what was done with the datagram or part, or the telegram's message type.
    pub value: i32,
    /// The redundancy number of the datagram or part, or 0 if it has none.
    pub number: u32,
    /// The test that the datagram or part failed, from 1, or 0 if it failed none.
    pub fault: u32,
}

/// Returns a note in numbers.
pub fn plain_note(note: StationNote) -> PlainNote
    // The numbers are those of the note.
    ensures { result ≡ note_in note }
{
    let mut plain = PlainNote {
        count: 0,
        what: 0,
        value: 0,
        number: 0,
        fault: 0,
    };
    match note {
        StationNote::State(state) => {
            plain.what = 1;
            plain.value = of_state(state);
        }
        StationNote::Phase(phase) => {
            plain.what = 2;
            plain.value = of_phase(phase);
        }
        StationNote::Datagram(number, event) => {
            plain.what = 3;
            plain.value = of_event(event);
            plain.number = number.unwrap_or(0);
            plain.fault = failed_by_datagram(event);
        }
        StationNote::Part(number, step) => {
            plain.what = 4;
            plain.value = of_step(step);
            plain.number = number;
            plain.fault = failed_by_part(step);
        }
        StationNote::Take(kind) => {
            plain.what = 5;
            plain.value = i32::from(kind);
        }
        StationNote::LeftOut(count) => {
            plain.what = 6;
            plain.count = count;
        }
    }
    plain
}

/// Returns the number of what the redundancy layer did with a datagram.
fn of_event(event: RedEvent) -> i32
    ensures { result ≡ code_of_event event }
{
    match event {
        RedEvent::Passed => 0,
        RedEvent::Wait => 1,
        RedEvent::Old => 2,
        RedEvent::Again => 3,
        RedEvent::Far => 4,
        RedEvent::Full => 5,
        RedEvent::Fault(_) => 6,
    }
}

/// Returns the number of the test that a datagram failed, or 0.
fn failed_by_datagram(event: RedEvent) -> u32
    ensures { result ≡ fault_of_event event }
{
    match event {
        RedEvent::Fault(fault) => u32::from(fault.number()),
        _ => 0,
    }
}

/// Returns the number of what the safety machine did with a part.
fn of_step(step: Step) -> i32
    ensures { result ≡ code_of_step step }
{
    match step {
        Step::Taken => 0,
        Step::Gap => 1,
        Step::Left(_, _) => 2,
        Step::Nothing => 3,
        Step::Dropped(cause) => of_cause(cause),
    }
}

/// Returns the number of why the safety machine dropped a part.
fn of_cause(cause: DropCause) -> i32
    ensures { result ≡ code_of_cause cause }
{
    match cause {
        DropCause::Fault(_) => 4,
        DropCause::Stranger => 5,
        DropCause::NotOpened => 6,
        DropCause::Number => 7,
        DropCause::Request => 8,
        DropCause::Answered => 9,
        DropCause::Below => 10,
    }
}

/// Returns the number of the test that a part failed, or 0.
fn failed_by_part(step: Step) -> u32
    ensures { result ≡ fault_of_step step }
{
    match step {
        Step::Dropped(DropCause::Fault(fault)) => u32::from(fault.number()),
        _ => 0,
    }
}
