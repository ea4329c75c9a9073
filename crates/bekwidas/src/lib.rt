//! An end for C. `capi/bekwidas.h` states what a caller must do. Datagrams and times go in; datagrams and
//! telegrams come out. Only `bek_open` allocates.
//!
//! C holds a `Slot`: a pointer to a station, whose content it does not see, and a flag that says if there is one.
//! Each function takes the station out of the slot, calls it, and puts it back.
//!
//! No function has a `requires`: each is safe for all numbers and bytes, and for a slot with or without an end. A
//! wrong call returns a code. The rules of an end are in `stack_end`, those of the queues in `end_for_callers`.
#![tactic(auto)]

mod agreement;
mod codes;
mod exports;
mod faults;
mod handle;
mod notes;
mod statistics;

pub use codes::numbers_law;
