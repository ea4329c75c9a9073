//! The base of every layer: numbers at places in bytes, and the limits of messages, units and PDUs.
#![tactic(auto)]

pub mod limits;
pub mod places;
mod storage;

pub use storage::{Unit, copy_of};

/// A time of an end's clock, or a duration, in milliseconds.
pub type Milliseconds = u64;
