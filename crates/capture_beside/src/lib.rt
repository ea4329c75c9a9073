//! Two recordings of the same connections, taken at two places: which datagrams both have, which only one has, and
//! how long they took in between.
//!
//! `Here` is the place of the first recording, `There` that of the one beside it. Two datagrams are the same if they
//! go the same way (from one address to another) and all their bytes have the same fingerprint; that different bytes
//! have different fingerprints is not proved, since one has only 64 bits. A datagram that came twice is paired in
//! order. Of each way and recording the last `WAITING` datagrams wait for a partner.
#![tactic(auto)]

mod counts;
mod delays;
mod json;
mod law;
mod pairing;
mod pairing_run;
mod queue;
mod recordings;
mod sites;
mod sums;
mod text;
mod way;

pub use counts::Counts;
pub use delays::{BUCKETS, Delays, MIDDLE, Spread, WIDTH};
pub use law::counting_law;
pub use pairing::{Arrival, Pairing, WAYS};
pub use pairing_run::{Request, run};
pub use queue::{Queue, WAITING, WaitingDatagram};
pub use sites::{EVEN, Extent, Site, difference, extend, is_outside};
pub use sums::{Sums, Tally};
pub use way::{ArrivalOutcome, Way};
