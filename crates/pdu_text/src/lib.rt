//! The texts that programs print: a datagram line by line as `rasta show` prints it, and the lines of an
//! end and of its log. It depends only on the types and codecs of the layers, not on an end.
//!
//! Every writing call returns the writer's error if there is one. The bytes written before it remain
//! written, so the output is then a prefix of the text.
//!
//! Contracts: they describe the text that a call appends, for a writer whose contents are known.
#![tactic(auto)]

mod causes;
mod datagram;
mod disconnect_reasons;
mod hex_text;
mod last_lines;
mod lines;
mod messages;
mod names;
mod pieces;
mod reports;
mod texts;

pub use causes::Cause;
pub use datagram::show;
pub use hex_text::{HexFault, hex_octets, initial_value};
pub use last_lines::{Departure, FinalState, write_ending};
pub use lines::{EndEvent, write_channel, write_happening, write_missed};
pub use messages::show_body;
pub use names::{phase_name, red_cause, side_letter, side_name, state_name, step_cause};
pub use reports::{EndReport, write_refusal, write_report, write_take};
pub use texts::{write_hex, write_octets, write_text};
