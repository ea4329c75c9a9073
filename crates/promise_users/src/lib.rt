//! What you may rely on: one proved user of each promise.
//!
//! Each function calls one function or law of the layers and says in other words what that promises: by places and
//! numbers, where the promise is stated event by event, or the other way round. If somebody weakens a promise, its user
//! here has no proof.
#![tactic(auto)]

mod counts;
mod ends;
mod pair;
mod parts;
mod pdus;
mod reopened;
mod telegrams;

pub use counts::{ages, datagrams, first_requests};
pub use ends::{arrive, bounds, next_deadline, poll, put, settled, tick};
pub use pair::{apply, at_any_time, is_genuine, run};
pub use parts::gone_up;
pub use pdus::{pdu, requests};
pub use reopened::opened_again;
pub use telegrams::handed_on;
