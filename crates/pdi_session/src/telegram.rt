//! The SCI telegram: the message between the two applications, and the content of every message of a unit. Layout
//! in bytes, numbers with the least significant byte first: protocol type (1), message type (2), sender's name
//! (20), receiver's name (20), payload (0 to 357).
//!
//! Telegrams belong to the session layer above RaSTA, in this project's profile.

ghost use Rattle.std.specs.Prelude.{◌≡◌};
ghost use Rattle.pdi_session.specs.telegram.FaultNames.{telegram_name, telegram_number};
ghost use Rattle.pdi_session.specs.telegram.Names.{IsName};

use crate::MessageType;
use arrayvec::ArrayString;
use octets::limits::MESSAGE_MIN;

mod codec;
mod known;
mod names;

pub use codec::{decode, encode, one_spelling, read_back};
pub use known::KnownPair;
pub use octets::limits::{FILLING, NAME_LENGTH};

/// The place of the message type, after the protocol type.
const KIND: usize = 1;

/// The place of the sender's name.
const SENDER: usize = 3;

/// The place of the receiver's name.
const RECEIVER: usize = SENDER + NAME_LENGTH;

const _: () = prove!(RECEIVER + NAME_LENGTH == MESSAGE_MIN);

/// Why a text is not a name. If several apply, it is the first in this order.
#[derive(Clone, Copy, Debug, PartialEq, Eq)]
pub enum NameFault {
    /// The text is empty.
    Empty,
    /// There are more than 20 bytes. A text of 11 two-byte characters is too long, too.
    Long,
    /// A byte is not in 0x21 to 0x7e, or it is the filling 0x5f.
    Character,
}

/// The name of an end: 1 to 20 characters 0x21 to 0x7e except 0x5f.
///
/// It is a view of the text or the telegram that it was read from, without the filling, so decoding copies
/// nothing. Every `Name` is valid, so `encode` has no condition on names.
#[derive(Clone, Copy, Debug, PartialEq, Eq)]
pub struct Name<'a> {
    /// The characters, without filling.
    characters: &'a str,
    ghost well_formed: { IsName characters.now },
}

/// A name with its own copy of the characters, for settings that outlive the text that they were read from.
#[derive(Clone, Copy, Debug, PartialEq, Eq)]
pub struct OwnedName {
    /// The characters, without filling.
    text: ArrayString<NAME_LENGTH>,
    ghost well_formed: { IsName text.bytes },
}

/// A telegram as a view of the message that it was read from.
#[derive(Clone, Copy, Debug, PartialEq, Eq)]
pub struct Telegram<'a> {
    /// The protocol type.
    pub protocol: u8,
    /// The message type.
    pub kind: MessageType,
    /// The name of the end that sent it.
    pub sender: Name<'a>,
    /// The name of the end that it is for.
    pub receiver: Name<'a>,
    /// The payload, 0 to 357 bytes.
    pub payload: &'a [u8],
}

/// Why bytes are not a telegram. If several apply, the decoder returns the first in this order.
#[derive(Clone, Copy, Debug, PartialEq, Eq)]
pub enum TeleFault {
    /// There are fewer than 43 bytes.
    Short,
    /// There are more than 400 bytes.
    Long,
    /// The sender's or the receiver's name is not valid; the fault does not say which.
    Name,
}

impl TeleFault {
    /// Returns the number of the fault for output: its place in the list of faults, from 1.
    pub fn number(self) -> u8
        // `number` is 1 for Short, 2 for Long and 3 for Name (`telegram_number`).
        ensures { result ≡ telegram_number self }
    {
        match self {
            TeleFault::Short => 1,
            TeleFault::Long => 2,
            TeleFault::Name => 3,
        }
    }

    /// Returns the name of the fault for output.
    pub fn name(self) -> &'static str
        // The name of a telegram's fault is "Short", "Long" or "Name" (`telegram_name`).
        ensures { result.now ≡ telegram_name self }
    {
        match self {
            TeleFault::Short => "Short",
            TeleFault::Long => "Long",
            TeleFault::Name => "Name",
        }
    }
}
