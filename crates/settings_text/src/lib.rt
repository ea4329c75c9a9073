//! Settings as text: the settings in force in the form of a settings file, and the place of a fault in one.
//!
//! Every call returns the writer's error if there is one. The bytes written before it remain written.
#![tactic(auto)]

mod ends;
mod lists;
mod pieces;
mod places;

pub use ends::{write_expected, write_settings};
pub use places::write_place;
