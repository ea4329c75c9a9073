//! One end of a connection with all its protocol layers: the type that an application opens on its channels.
//!
//! RaSTA after DIN VDE V 0831-200:2015 with an SCI session above it, in this project's profile.
#![tactic(auto)]

mod departure;
mod end;
mod judge;
mod law;
mod layers;
mod notes;
mod opening;
mod sender;
mod statistics;
mod upper;

pub use departure::{Departure, Leaver};
pub use end::End;
pub use law::{end_law, reopening_law, stale_law, statistics_law, timely_law};
pub use statistics::{
    MadeCounts, PartCounts, ReceptionCounts, RedFaultCounts, SafeFaultCounts, Statistics,
};

/// The length in bytes of the buffer into which a poll receives; a longer datagram is cut.
pub const POLL_BUFFER: usize = 2_048;

/// The most datagrams that one poll receives.
pub const POLL_DATAGRAMS: usize = 64;

/// Why an end was not opened: the first reason that applies.
#[derive(Clone, Copy, Debug, PartialEq, Eq)]
pub enum OpenFault {
    /// The settings are invalid for this side.
    BadConfig,
    /// An allocation failed.
    Memory,
}

/// Why a poll failed.
#[derive(Clone, Copy, Debug, PartialEq, Eq)]
pub enum PollFault {
    /// A reception failed. The datagrams received before it have been processed.
    Channel,
}
