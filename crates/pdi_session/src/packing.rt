//! Units and the messages that wait for one. A unit is the body of one Data PDU: one to three messages of 43 to
//! 400 bytes, each after its length (2 bytes, least significant first).
//!
//! Units are between the session layer and the safety and retransmission layer of DIN VDE V 0831-200:2015, in this
//! project's profile.

ghost use Rattle.std.specs.Prelude.{◌≡◌};
ghost use Rattle.pdi_session.specs.packing.FaultNames.{unit_name, unit_number};

use arrayvec::ArrayVec;
use octets::limits::UNIT_MESSAGES;

mod unit;
mod waiting;

pub use octets::Unit;
pub use octets::limits::WAITING_MAX;
pub use unit::{one_spelling, unpack};
pub use waiting::{Waiting, pack, pack_into, read_back};

/// The messages of a unit, in order, as views of it. It allocates nothing.
pub type Messages<'a> = ArrayVec<&'a [u8], UNIT_MESSAGES>;

/// Why bytes are not a unit. A wrong length in the third message is `Length`, since it comes before the end of
/// three messages.
#[derive(Clone, Copy, Debug, PartialEq, Eq)]
pub enum PackFault {
    /// There are no bytes.
    Empty,
    /// A length is not 43 to 400, fewer bytes follow than it says, or a single byte is left for a length.
    Length,
    /// Three messages were read and bytes remain.
    TooMany,
}

impl PackFault {
    /// Returns the number of the fault for output: its place in the list of faults, from 1.
    pub fn number(self) -> u8
        // `number` is 1 for Empty, 2 for Length and 3 for TooMany (`unit_number`).
        ensures { result ≡ unit_number self }
    {
        match self {
            PackFault::Empty => 1,
            PackFault::Length => 2,
            PackFault::TooMany => 3,
        }
    }

    /// Returns the name of the fault for output.
    pub fn name(self) -> &'static str
        // The name of a unit's fault is "Empty", "Length" or "TooMany" (`unit_name`).
        ensures { result.now ≡ unit_name self }
    {
        match self {
            PackFault::Empty => "Empty",
            PackFault::Length => "Length",
            PackFault::TooMany => "TooMany",
        }
    }
}

/// 64 messages wait already.
#[derive(Clone, Copy, Debug, PartialEq, Eq)]
pub struct Full;
