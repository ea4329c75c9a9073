//! Appending telegrams to the waiting messages.

ghost use Rattle.std.specs.Prelude.{◌≡◌, ◌<◌, ◌≤◌, ◌+◌, [], ◌∷◌, ◌++◌, length};
ghost use Rattle.pdi_session.specs.telegram.TeleText.{tele_text};
ghost use Rattle.octets.specs.declared.limits.TheConstants.{WAITING_MAX};
ghost use Rattle.pdi_session.specs.Settings.{addressing_of};
ghost use Rattle.pdi_session.specs.Telegrams.{kind_of, payload_of, telegram};

use super::{
    CHECKSUM_MAX, DIFFERENT, EQUAL, INITIALISATION_COMPLETED, INITIALISATION_REQUEST, Notice,
    Parties, START_INITIALISATION, VERSION_ANSWER, VERSION_CHECK,
};
use crate::MessageType;
use crate::packing::Waiting;
use crate::telegram::{Telegram, encode};
use arrayvec::ArrayVec;
use octets::limits::{MESSAGE_MAX, MESSAGE_MIN, PAYLOAD_MAX};
use std::alloc::Allocator;

/// The size of the longest reply to a version check: result, version, length and checksum.
const ANSWER_MAX: usize = 3 + CHECKSUM_MAX;

/// Messages up to this size use a small buffer, which costs less to clear than one of 400 bytes.
const SHORT_MESSAGE: usize = 64;

/// Appends a telegram with this message type and payload to the waiting messages.
pub(crate) fn add_telegram<A: Allocator>(
    parties: &Parties,
    kind: MessageType,
    payload: &[u8],
    waiting: &mut Waiting<A>,
)
    requires fits { length payload.now ≤ PAYLOAD_MAX }
    requires room { length waiting.old < WAITING_MAX }
    ensures { waiting.new ≡ waiting.old ++ tele_text (telegram (addressing_of parties.now) kind payload.now) ∷ [] }
{
    if MESSAGE_MIN + payload.len() <= SHORT_MESSAGE {
        let mut buffer = [0; SHORT_MESSAGE];
        add_by(parties, kind, payload, &mut buffer, waiting);
    } else {
        let mut buffer = [0; MESSAGE_MAX];
        add_by(parties, kind, payload, &mut buffer, waiting);
    }
}

/// Encodes a telegram into `buffer` and appends it to the waiting messages.
fn add_by<A: Allocator>(
    parties: &Parties,
    kind: MessageType,
    payload: &[u8],
    buffer: &mut [u8],
    waiting: &mut Waiting<A>,
)
    requires fits { length payload.now ≤ PAYLOAD_MAX }
    requires room { MESSAGE_MIN + length payload.now ≤ length buffer.old }
    requires place { length waiting.old < WAITING_MAX }
    ensures { waiting.new ≡ waiting.old ++ tele_text (telegram (addressing_of parties.now) kind payload.now) ∷ [] }
{
    let telegram = Telegram {
        protocol: parties.protocol,
        kind,
        sender: parties.own.name(),
        receiver: parties.peer.name(),
        payload,
    };
    let size = encode(&telegram, buffer);
    waiting.add(&buffer[..size]).unwrap();
}

/// Appends a telegram of the establishment to the waiting messages.
pub(crate) fn add_notice<A: Allocator>(
    parties: &Parties,
    checksum: &[u8],
    notice: Notice,
    waiting: &mut Waiting<A>,
)
    requires fits { length checksum.now ≤ CHECKSUM_MAX }
    requires room { length waiting.old < WAITING_MAX }
    ensures { waiting.new ≡ waiting.old
        ++ tele_text (telegram (addressing_of parties.now) (kind_of notice) (payload_of checksum.now notice)) ∷ [] }
{
    match notice {
        Notice::VersionCheck(version) => {
            add_telegram(parties, VERSION_CHECK, &[version], waiting);
        }
        Notice::VersionEqual(version) => add_equal(parties, checksum, version, waiting),
        Notice::VersionDiffers(version) => {
            add_telegram(parties, VERSION_ANSWER, &[DIFFERENT, version, 0], waiting);
        }
        Notice::InitialisationRequest => {
            add_telegram(parties, INITIALISATION_REQUEST, &[], waiting);
        }
        Notice::StartInitialisation => add_telegram(parties, START_INITIALISATION, &[], waiting),
        Notice::InitialisationCompleted => {
            add_telegram(parties, INITIALISATION_COMPLETED, &[], waiting);
        }
    }
}

/// Appends the reply that accepts a version.
fn add_equal<A: Allocator>(
    parties: &Parties,
    checksum: &[u8],
    version: u8,
    waiting: &mut Waiting<A>,
)
    requires fits { length checksum.now ≤ CHECKSUM_MAX }
    requires room { length waiting.old < WAITING_MAX }
    ensures { waiting.new ≡ waiting.old
        ++ tele_text (telegram (addressing_of parties.now) (kind_of (Notice.VersionEqual version))
        (payload_of checksum.now (Notice.VersionEqual version))) ∷ [] }
{
    let mut payload = ArrayVec::<u8, ANSWER_MAX>::new();
    payload
        .try_extend_from_slice(&[EQUAL, version, checksum.len() as u8])
        .unwrap();
    payload.try_extend_from_slice(checksum).unwrap();
    add_telegram(parties, VERSION_ANSWER, &payload, waiting);
}
