//! The units that were sent and are not confirmed yet.
//!
//! This is the sending side of retransmission. `Unconfirmed` is a list of units. Each is kept under the number of
//! the PDU that carried it last. Only the machine uses it.
//!
//! Numbers have 64 bits and no wrap, so they are compared as they are. They rise, but are not consecutive: other
//! PDUs come between the units until the units are renumbered. The machine reads the 32 bits of a received number
//! as a step from a known one (`Numbers.ahead`).
//!
//! What confirming leaves is stated as a filter (`above`). That these units are the last of the list is a law
//! (`units_law`: `front`).

mod law;
mod unconfirmed;

pub use law::units_law;
pub use octets::Unit;
pub use unconfirmed::Unconfirmed;

/// A unit after the number of the PDU that carried it last, without wrap.
pub type NumberedUnit = (u64, Unit);
