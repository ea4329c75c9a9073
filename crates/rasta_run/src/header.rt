//! The fields of datagrams that the log names. The end itself tests whether a datagram is a PDU; this does not.

ghost use Rattle.std.specs.Prelude.{◌≡◌};
ghost use Rattle.rasta_run.specs.Headers.{body_length, body_seen, code_seen, header_seen, kind_seen, version_seen};

use octets::limits::{LEAVING_BODY, OPENING_BODY};
use octets::places::{u16_at, u32_at};
use safe_pdu::{Identifier, Kind};

/// Where the type of the safety PDU ends, in bytes from the start of the datagram.
const KIND_END: usize = 12;

/// Where the identifier of the sender ends.
const SENDER_END: usize = 20;

/// Where the body of the safety PDU begins.
const BODY: usize = 36;

/// Where the version of RaSTA in the body of a ConnReq or ConnResp ends.
const VERSION_END: usize = 40;

/// The number and the identifiers in a datagram, the length of its safety code, and its version of RaSTA.
#[derive(Clone, Copy, Debug, PartialEq, Eq)]
pub struct Header {
    /// The redundancy number.
    pub number: u32,
    /// The identifier of the receiver.
    pub receiver: Identifier,
    /// The identifier of the sender.
    pub sender: Identifier,
    /// The length of the safety code in bytes, if type and length of the datagram show it.
    pub code: Option<u64>,
    /// The four bytes where a ConnReq or ConnResp has its version of RaSTA, as a little-endian number.
    pub version: Option<u32>,
}

/// Reads the number and the identifiers; `None` if there are too few bytes.
pub fn header_of(datagram: &[u8]) -> Option<Header>
    // `header_of` returns the little-endian numbers at the places of the fields, the length of the safety code and the
    // version, and `None` for fewer than 20 bytes.
    ensures { result ≡ header_seen datagram.now }
{
    if datagram.len() < SENDER_END {
        return None;
    }
    Some(Header {
        number: u32_at(datagram, 4),
        receiver: u32_at(datagram, 12),
        sender: u32_at(datagram, 16),
        code: code_of(datagram),
        version: version_of(datagram),
    })
}

/// Reads the four bytes where a ConnReq or ConnResp has its version of RaSTA; `None` if there are too few bytes.
fn version_of(datagram: &[u8]) -> Option<u32>
    ensures { result ≡ version_seen datagram.now }
{
    if datagram.len() < VERSION_END {
        return None;
    }
    Some(u32_at(datagram, BODY))
}

/// Returns the length of the safety code in bytes, if type and length of the datagram show it.
fn code_of(datagram: &[u8]) -> Option<u64>
    ensures { result ≡ code_seen datagram.now }
{
    let body = match kind_of(datagram) {
        Some(kind) => body_length(kind)?,
        None => return None,
    };
    let front = BODY + body;
    if datagram.len() < front {
        return None;
    }
    match datagram.len() - front {
        0 => Some(0),
        8 => Some(8),
        16 => Some(16),
        _ => None,
    }
}

/// Returns the length of the body of a PDU of this type, in bytes, if all have the same.
fn body_length(kind: Kind) -> Option<usize>
    ensures { result ≡ body_length kind }
{
    match kind {
        Kind::ConnReq | Kind::ConnResp => Some(OPENING_BODY),
        Kind::RetrReq | Kind::RetrResp | Kind::Heartbeat => Some(0),
        Kind::DiscReq => Some(LEAVING_BODY),
        Kind::Data | Kind::RetrData => None,
    }
}

/// Reads the type of the safety PDU; `None` if there are too few bytes, or no type has the number.
pub fn kind_of(datagram: &[u8]) -> Option<Kind>
    // `kind_of` returns the type with the number in the bytes 10 and 11, and `None` for fewer than 12 bytes.
    ensures { result ≡ kind_seen datagram.now }
{
    if datagram.len() < KIND_END {
        return None;
    }
    Kind::of(u16_at(datagram, 10))
}

/// Returns the body of the safety PDU in a datagram with a safety code of this length in bytes; empty if there are too
/// few bytes.
pub(crate) fn body_of(datagram: &[u8], code: usize) -> &[u8]
    ensures { result.now ≡ body_seen datagram.now code }
{
    let end = datagram.len().saturating_sub(code);
    if end < BODY {
        return &[];
    }
    &datagram[BODY..end]
}
