//! Notes: what an end reports of its work, for traces and logs. No clause speaks of their content.

use pdi_session::Phase;
use red_layer::RedEvent;
use safe_machine::{ConnectionState, Step};

/// One thing that an end did.
#[derive(Clone, Copy, Debug, PartialEq, Eq)]
pub enum Note<'a> {
    /// What the redundancy layer did with the datagram that came, and the datagram's number if it is a redundancy
    /// PDU.
    Redundancy(Option<u32>, RedEvent),
    /// What the safety machine did with the part of this redundancy number.
    Step(u32, Step),
    /// The application took a telegram with this message type and payload.
    Take(u16, &'a [u8]),
    /// The connection has changed to this state.
    State(ConnectionState),
    /// The session has changed to this phase.
    Phase(Phase),
}
