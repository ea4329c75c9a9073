//! The safety and retransmission layer of DIN VDE V 0831-200:2015, in this project's profile: one end of a
//! connection, and the laws of two ends over a network that loses, repeats, delays and reorders.
//!
//! `Machine::open` is the only call that allocates. The value of a `Machine` is what it keeps (`View`). Each call
//! takes one turn (`Turns`): its clauses say what the machine keeps afterwards, and which PDUs it makes.
//! docs/protocol.md has the rules.
//!
//! The laws (`unit_law`) are about states that also have every PDU made and every unit taken (`State`, `Step`).
//! Such a step is the turn of what is kept of the state, so each rule is defined only once, in `Decision`,
//! `Deadlines` and `Turns`.
//!
//! The struct's invariant (`IsReached`) says that every machine is in a state that moves lead to from a legal
//! opening. So only `arrive` has a condition on numbers: the index of the peer's next PDU must be below 2^62. A
//! call raises it by at most 321. A caller can count the PDUs that came instead, as `Seat` in crates/layer_tests
//! does.
//!
//! Choices that the standard leaves open:
//!
//! - A step keeps the sequence number and the timestamp of the PDU that last set the expected number, not that
//!   number. So the values that a PDU carries before anything was taken (0 and 0) are not a special case.
//! - Each PDU made records how many of the peer's PDUs its maker had passed. The last of these is its basis, and
//!   freshness needs nothing else.
//! - If a unit is the mwa-th, the order of its heartbeat and its delivery is not stated: no caller can see it.
//!
//! In the sentences of the laws, moves are *sound* if the PDUs that arrive have numbers of 32 bits, and the units
//! sent have 45 to 1,206 bytes. They are *well formed* if each PDU that arrives also has a body that fits its type.
//! An opening is *legal* if `MachineConfig::is_legal` accepts its settings. The glossary defines genuine, timely,
//! in order and fresh.
#![tactic(auto)]

ghost use Rattle.std.specs.Prelude.{◌≡◌};

use octets::Milliseconds;
use safe_pdu::Identifier;

mod arrival;
mod effects;
mod endpoint;
mod law;
mod machine;
mod opening;
pub mod retrans;
mod sender;

pub use law::unit_law;
pub use machine::{Machine, PduOut, UnitIn};
pub use octets::Unit;
pub use safe_pdu::{Detail, Reason};

/// The state of a connection.
#[derive(Clone, Copy, Debug, PartialEq, Eq)]
pub enum ConnectionState {
    /// The connection is over.
    Closed,
    /// The server is open, and no ConnReq has come.
    Down,
    /// The client has requested the connection, or the server has accepted it.
    Start,
    /// The connection is established.
    Up,
    /// A gap was found, and a retransmission is requested.
    RetrReq,
    /// The retransmission is running.
    RetrRun,
}

/// The role of an end when a connection is opened.
#[derive(Clone, Copy, Debug, PartialEq, Eq)]
pub enum Role {
    /// The end that requests the connection: the interlocking.
    Client,
    /// The end that accepts it: the field element.
    Server,
}

/// The settings of one end.
#[derive(Clone, Copy, Debug, PartialEq, Eq)]
pub struct MachineConfig {
    /// The end's own identifier.
    pub own: Identifier,
    /// The identifier of the peer, which must differ from `own`.
    pub peer: Identifier,
    /// The own window: how many units the peer may leave unconfirmed, 1 to 32.
    pub n_sendmax: u16,
    /// The greatest age of the last confirmation, in milliseconds: 100 to 60,000.
    pub t_max: Milliseconds,
    /// The time after its last sending at which a connected end sends a heartbeat, in milliseconds: 10 to `t_max` -
    /// 1.
    pub t_h: Milliseconds,
    /// How many units the end takes without sending before a heartbeat confirms them: 1 to 16.
    pub mwa: u64,
    /// How many PDUs the end may make in one connection: 100 to 4,294,901,760.
    pub pdu_limit: u64,
    /// The settings of the safety code. It must have 8 or 16 bytes.
    pub rule: safe_pdu::CodeRule,
}

/// Why a machine could not be opened.
#[derive(Clone, Copy, Debug, PartialEq, Eq)]
pub enum MachineFault {
    /// The settings are invalid.
    BadConfig,
    /// The allocation of the ring of unconfirmed units failed.
    Memory,
}

/// Why a unit was not sent.
#[derive(Clone, Copy, Debug, PartialEq, Eq)]
pub enum SendFault {
    /// The state is neither Up nor RetrRun.
    NotUp,
    /// The peer's window is full: no more units may be unconfirmed.
    Window,
}

/// Why a PDU is dropped.
#[derive(Clone, Copy, Debug, PartialEq, Eq)]
pub enum DropCause {
    /// The bytes are not a safety PDU with a valid safety code.
    Fault(safe_pdu::SafeFault),
    /// The receiver is not this end, or the sender is not the peer.
    Stranger,
    /// The server waits for a ConnReq, and this PDU is another type.
    NotOpened,
    /// The sequence number is more than 10 times the own N_sendmax ahead of the expected one.
    Number,
    /// A retransmission is requested, and this PDU is not its RetrResp.
    Request,
    /// A RetrReq with this index, or a later one, was handled before.
    Answered,
    /// A RetrReq that confirms less than was confirmed before.
    Below,
}

/// What a machine did with the bytes it received.
#[derive(Clone, Copy, Debug, PartialEq, Eq)]
pub enum Step {
    /// It took the PDU: it connected, answered or resumed, or it delivered the unit.
    Taken,
    /// It dropped the PDU.
    Dropped(DropCause),
    /// The PDU revealed a gap, and a retransmission was requested.
    Gap,
    /// The end disconnected.
    Left(Reason, Detail),
    /// The end was closed before, or a DiscReq closed it.
    Nothing,
}
