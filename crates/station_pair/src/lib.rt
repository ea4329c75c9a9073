//! What two programs are promised, each with a station (an end with queues, as a program in C has it).
//!
//! Contracts: the laws hold for every list of calls of stations on two sides, with their results. A program calls the
//! latest station of its side; telegrams or datagrams taken later out of an earlier one are outside the laws.
#![tactic(auto)]

mod calls;
mod law;

pub use calls::{call, next_datagram, open, take};
pub use law::station_law;
