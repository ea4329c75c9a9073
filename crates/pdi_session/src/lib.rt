//! The SCI session: an interlocking and a field element agree on a PDI version, the field element sends its
//! initial status, and then both exchange commands and status.
//!
//! It is the session layer above RaSTA, in this project's profile. The interlocking is the client and requests the
//! session; the field element is the server. One session serves one connection.
//!
//! A telegram that ends a session also ends the connection: its end disconnects with reason 4 (service not
//! allowed) and the detail.
#![tactic(auto)]

ghost use Rattle.std.specs.Prelude.{◌≡◌, ℕ, List};
ghost use Rattle.pdi_session.specs.FaultNames.{init_fault_name, put_fault_name};
ghost use Rattle.pdi_session.specs.Tables.{detail_number};

use crate::telegram::OwnedName;
use arrayvec::ArrayVec;

mod counts;
mod forms;
mod law;
mod messages;
pub mod packing;
mod session;
mod tables;
pub mod telegram;

pub use counts::items_in_unit;
pub use law::{numbers_law, session_law};
pub use session::{Session, are_versions};

/// The number that says what a telegram is: its message type.
pub type MessageType = u16;

/// The message type of a version check, from the interlocking. Payload: version (1).
pub const VERSION_CHECK: MessageType = 0x0024;

/// The message type of the reply to a version check, from the field element. Payload: result (1), version (1),
/// length of the checksum (1, 0 to 16), checksum.
pub const VERSION_ANSWER: MessageType = 0x0025;

/// The message type of the request for initialisation, from the interlocking. It has no payload.
pub const INITIALISATION_REQUEST: MessageType = 0x0021;

/// The message type of the start of the initialisation, from the field element. It has no payload.
pub const START_INITIALISATION: MessageType = 0x0022;

/// The message type of the end of the initialisation, from the field element. It has no payload.
pub const INITIALISATION_COMPLETED: MessageType = 0x0023;

/// The result of a version check if the field element does not have the interlocking's version.
const DIFFERENT: u8 = 1;

/// The result of a version check if the field element has the interlocking's version.
const EQUAL: u8 = 2;

/// The most versions that a field element can have.
pub const VERSIONS_MAX: usize = 4;

/// The greatest size of a field element's checksum, in bytes.
pub const CHECKSUM_MAX: usize = 16;

/// The protocol type and the two names that every telegram of a session has.
#[derive(Clone, Copy, Debug, PartialEq, Eq)]
pub struct Parties {
    /// The protocol type.
    pub protocol: u8,
    /// The name of this end.
    pub own: OwnedName,
    /// The name of the peer.
    pub peer: OwnedName,
}

/// The settings of an interlocking's session.
#[derive(Clone, Copy, Debug, PartialEq, Eq)]
pub struct InterlockingConfig {
    /// Protocol type and names.
    pub parties: Parties,
    /// The PDI version.
    pub version: u8,
}

/// The settings of a field element's session.
#[derive(Debug, Drop)]
pub struct FieldConfig {
    /// Protocol type and names.
    pub parties: Parties,
    /// The PDI versions that it accepts. A reply to any other version names the first of them.
    pub versions: ArrayVec<u8, VERSIONS_MAX>,
    /// The checksum in its reply to an accepted version. The interlocking does not compare it.
    pub checksum: ArrayVec<u8, CHECKSUM_MAX>,
}

/// The state of a session.
#[derive(Clone, Copy, Debug, PartialEq, Eq)]
pub enum Phase {
    /// The connection is not up yet.
    Idle,
    /// The interlocking has sent its version and waits for the reply.
    Checking,
    /// The interlocking has requested the initialisation and waits for its start.
    Requesting,
    /// The field element waits for a version.
    AwaitCheck,
    /// The field element has accepted the version and waits for the request for initialisation.
    AwaitRequest,
    /// The field element has refused the version.
    Refused,
    /// The field element sends its initial status.
    Initialising,
    /// Commands and status are exchanged.
    Established,
    /// The session is over.
    Ended,
}

/// What the two ends agreed on in the version check.
#[derive(Clone, Copy, Debug, PartialEq, Eq)]
pub struct Agreed<'a> {
    /// The PDI version: the interlocking asked for it, and the field element accepted it.
    pub version: u8,
    /// The checksum in the field element's reply, 0 to 16 bytes. Nothing compares it: that is up to the interlocking.
    pub checksum: &'a [u8],
}

/// An agreement with its own copy of the checksum.
#[derive(Debug, Drop)]
struct Agreement {
    /// The PDI version.
    version: u8,
    /// The checksum.
    checksum: ArrayVec<u8, CHECKSUM_MAX>,
}

/// Why a telegram ended a session.
#[derive(Clone, Copy, Debug, PartialEq, Eq)]
pub enum SessionDetail {
    /// The field element does not have the interlocking's version: the result is 1.
    VersionDiffers,
    /// The phase has no row for the telegram, or the payload does not fit its message type. A reply with result 2
    /// and another version is out of order, too.
    OutOfOrder,
    /// The telegram has another protocol type, or is not from the peer to this end.
    NotOfThisPair,
}

impl SessionDetail {
    /// Returns the number of the detail in a DiscReq with reason 4 (service not allowed).
    pub fn number(self) -> u16
        // `number` is 1 for VersionDiffers, 2 for OutOfOrder and 3 for NotOfThisPair (`detail_number`).
        ensures { result ≡ detail_number self }
    {
        match self {
            SessionDetail::VersionDiffers => 1,
            SessionDetail::OutOfOrder => 2,
            SessionDetail::NotOfThisPair => 3,
        }
    }
}

/// A telegram ended the session: the end must disconnect with reason 4 and this detail.
#[derive(Clone, Copy, Debug, PartialEq, Eq)]
pub struct SessionEnd {
    /// Why the session ended.
    pub detail: SessionDetail,
}

/// Why `Session::put` refused a telegram. If several apply, it is the first in this order.
#[derive(Clone, Copy, Debug, PartialEq, Eq)]
pub enum PutFault {
    /// The phase is not one in which this end may put.
    NotEstablished,
    /// 64 messages wait already.
    Full,
    /// The message type is one of the five of the establishment.
    ReservedType,
    /// The payload has more than 357 bytes.
    TooLong,
}

impl PutFault {
    /// Returns the name of the refusal for output.
    pub fn name(self) -> &'static str
        // The name of a refused put is "NotEstablished", "Full", "ReservedType" or "TooLong", as its variant is
        // spelled.
        ensures { result.now ≡ put_fault_name self }
    {
        match self {
            PutFault::NotEstablished => "NotEstablished",
            PutFault::Full => "Full",
            PutFault::ReservedType => "ReservedType",
            PutFault::TooLong => "TooLong",
        }
    }
}

/// Why `Session::init_done` was refused. If both apply, it is the first.
#[derive(Clone, Copy, Debug, PartialEq, Eq)]
pub enum InitFault {
    /// This is not a field element in Initialising.
    NotInitialising,
    /// 64 messages wait already.
    Full,
}

impl InitFault {
    /// Returns the name of the refusal for output.
    pub fn name(self) -> &'static str
        // The name of a refused end of the initialisation is "NotInitialising" or "Full" (`init_fault_name`).
        ensures { result.now ≡ init_fault_name self }
    {
        match self {
            InitFault::NotInitialising => "NotInitialising",
            InitFault::Full => "Full",
        }
    }
}

/// The application's side of a session: receives the commands or status that the session accepts, in order.
pub trait Taker {
    /// The relation between the value before a call, the message type and payload, and the value after it.
    ghost takes: { Self → ℕ × List ℕ → Self → Type 0 };

    /// Processes a telegram's message type and payload (0 to 357 bytes).
    fn take(&mut self, kind: MessageType, payload: &[u8])
        // `take` changes the value as the implementation's relation `takes` allows for this message type and
        // payload.
        ensures { takes self.old (kind, payload.now) self.new };
}

/// Which end it is, with the settings of that end.
#[derive(Debug, Drop)]
enum OwnSide {
    /// An interlocking, with its version.
    Interlocking(u8),
    /// A field element, with its versions and its checksum.
    Field(ArrayVec<u8, VERSIONS_MAX>, ArrayVec<u8, CHECKSUM_MAX>),
}

/// A telegram of the establishment.
#[derive(Clone, Copy, Debug, PartialEq, Eq)]
pub enum Notice {
    /// The interlocking has this version.
    VersionCheck(u8),
    /// The field element has this version, too.
    VersionEqual(u8),
    /// The field element does not have the version; this is the first of its own. It is sent with an empty
    /// checksum, so that the interlocking's log can name it; the session ignores it.
    VersionDiffers(u8),
    /// The interlocking requests the initialisation.
    InitialisationRequest,
    /// The field element starts the initialisation.
    StartInitialisation,
    /// The field element has completed the initialisation.
    InitialisationCompleted,
}

/// The meaning of a telegram by its message type and payload.
#[derive(Clone, Copy, Debug, PartialEq, Eq)]
pub enum Form {
    /// It is a telegram of the establishment.
    Notifies(Notice),
    /// It is a command or status.
    Item,
    /// Its message type is of the establishment, but its payload does not fit.
    OtherPayload,
}

/// The decision of a session on an event.
#[derive(Clone, Copy, Debug, PartialEq, Eq)]
pub enum Verdict {
    /// The application takes the telegram; the phase stays.
    Takes,
    /// The session goes to this phase.
    Goes(Phase),
    /// The session goes to this phase and sends this notice.
    Answers(Phase, Notice),
    /// The session ends.
    Ends(SessionDetail),
}
