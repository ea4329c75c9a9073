//! An end for callers that poll: datagrams, times and telegrams go in, and what the end sends and takes waits in
//! two queues until the caller fetches it.
//!
//! `open` allocates both queues; no other call allocates. A call is refused before it could overflow a queue. If
//! something finds no room all the same, the outcome of the call says so.
//!
//! In contracts a `Queue` is a list of byte strings, each with a tag. A `Station` is an end with two of them: the
//! datagrams sent and the telegrams taken that the caller has not fetched yet.
#![tactic(auto)]

mod inbox;
mod law;
mod notes;
mod openings;
mod outbox;
mod plain;
mod plain_text;
mod queue;
mod station;
mod totals;

pub use law::{load_law, watch_law};
pub use notes::{NOTES_MAX, Notes, StationNote};
use octets::limits::{Q_MAX, WINDOW_MAX};
pub use openings::Openings;
use pdi_session::{InitFault, PutFault};
pub use plain::{EndOpening, PLAIN_SETTINGS_SIZE, PlainSettings, is_name, numbers_law, text_size};
pub use queue::{Queue, QueueFull, TooSmall};
pub use station::{Rooms, Station, refusal_to_open};

/// The most telegrams that one call can deliver: three from each of nine parts.
pub const CALL_TELEGRAMS: usize = 27;

/// The most PDUs that one part causes, in addition to those of a retransmission.
pub const PART_PDUS: usize = 5;

/// The most datagrams that one call sends on a channel: nine parts, each with a retransmission of the greatest window.
pub const CALL_DATAGRAMS: usize = (Q_MAX + 1) * (WINDOW_MAX + PART_PDUS);

/// Why a call was refused. Nothing has changed then.
#[derive(Clone, Copy, Debug, PartialEq, Eq)]
pub enum CallFault {
    /// The time is before that of the last accepted call, or above 2^62.
    Time,
    /// A telegram found no room in an earlier call. Close the end: its application misses a telegram.
    Lost,
    /// There is room for fewer telegrams than one call may deliver. Take the waiting ones first.
    TakeFirst,
    /// There is room for fewer datagrams than a call may send. Send the waiting ones first.
    SendFirst,
    /// The session refuses the telegram.
    Put(PutFault),
    /// The session refuses the end of the initialisation.
    Init(InitFault),
}

/// The result of an accepted call.
#[derive(Clone, Copy, Debug, PartialEq, Eq)]
pub enum Outcome {
    /// Everything that the end sent and took is in the queues.
    Whole,
    /// A datagram found no room. It is lost, as on a channel, and counted.
    Unsent,
    /// A telegram found no room. From now on every call except `close` is refused.
    Lost,
}

/// Why an end was not opened. If several apply, it is the first in this order.
#[derive(Clone, Copy, Debug, PartialEq, Eq)]
pub enum StationFault {
    /// The time is above 2^62.
    Time,
    /// The settings are invalid for this side.
    BadConfig,
    /// There is room for fewer telegrams than one call may deliver, or for fewer datagrams than it may send.
    Rooms,
    /// An allocation failed.
    Memory,
}
