//! Decoding of a recorded datagram: a redundancy PDU around a safety PDU.

ghost use Rattle.std.specs.Prelude.{◌≡◌};
ghost use Rattle.safe_pdu.specs.Bodies.{IsBody};
ghost use Rattle.safe_pdu.specs.Pdu.{pdu_of};
ghost use Rattle.safe_pdu.specs.Places.{safe_seen};
ghost use Rattle.capture.specs.Datagrams.{fingerprint_of, header_of, datagram_of, datagram_above, leaving_of, with_digit};

use byteorder::{ByteOrder, LittleEndian};
use red_layer::pdu::RedFault;
use safe_pdu::{CodeRule, Identifier, Kind, Leaving, SafeFault, SafePdu, read_leaving};

/// The base of fingerprints: odd, with its bits spread, so that each digit changes the high bits.
const FINGERPRINT_BASE: u64 = 11_400_714_819_323_198_485;

/// A decoded datagram, or the fault of the layer that rejects it.
#[derive(Clone, Copy, Debug, PartialEq, Eq)]
pub enum DecodedDatagram {
    /// It is not a redundancy PDU.
    NoRed(RedFault),
    /// It is a redundancy PDU with this number, whose part is not a safety PDU.
    NoSafe(u32, SafeFault),
    /// It is a redundancy PDU with this number around a safety PDU.
    Pdu(u32, Header),
}

/// The header fields of a safety PDU, and the reason of a DiscReq.
#[derive(Clone, Copy, Debug, PartialEq, Eq)]
pub struct Header {
    /// The PDU type.
    pub kind: Kind,
    /// The identifier of the end that it is for.
    pub receiver: Identifier,
    /// The identifier of the end that made it.
    pub sender: Identifier,
    /// The sequence number (SN).
    pub sn: u32,
    /// The confirmed sequence number (CS).
    pub cs: u32,
    /// The timestamp (TS) in milliseconds.
    pub ts: u32,
    /// The confirmed timestamp (CTS) in milliseconds.
    pub cts: u32,
    /// A fingerprint of the PDU's bytes; it distinguishes PDUs with one number.
    pub fingerprint: u64,
    /// Reason and detail, if it is a DiscReq.
    pub leaving: Option<Leaving>,
}

/// Decodes a datagram of any bytes, with this rule of the safety code.
pub fn decode(octets: &[u8], rule: &CodeRule) -> DecodedDatagram
    // The result is that of both decoders: the redundancy number and the header fields, with reason and detail of a
    // DiscReq. Otherwise it is the first fault of the layer that rejects it (`datagram_of`).
    ensures { result ≡ datagram_of rule.now octets.now }
{
    match red_layer::pdu::decode(octets) {
        Ok(pdu) => decode_upper(pdu.seq, pdu.upper, rule),
        Err(fault) => DecodedDatagram::NoRed(fault),
    }
}

/// Decodes the part of a redundancy PDU.
fn decode_upper(seq: u32, upper: &[u8], rule: &CodeRule) -> DecodedDatagram
    ensures { result ≡ datagram_above seq upper.now (safe_seen rule.now upper.now) }
{
    match safe_pdu::decode(upper, rule) {
        Ok(pdu) => DecodedDatagram::Pdu(seq, read_header(&pdu, upper)),
        Err(fault) => DecodedDatagram::NoSafe(seq, fault),
    }
}

/// Copies the header fields of a safety PDU and computes its fingerprint.
fn read_header(pdu: &SafePdu<'_>, octets: &[u8]) -> Header
    requires { IsBody pdu.now.kind pdu.now.body.now }
    ensures { result ≡ header_of (pdu_of pdu.now) (fingerprint_of octets.now) }
{
    Header {
        kind: pdu.kind,
        receiver: pdu.receiver,
        sender: pdu.sender,
        sn: pdu.sn,
        cs: pdu.cs,
        ts: pdu.ts,
        cts: pdu.cts,
        fingerprint: spell(octets),
        leaving: departure(pdu.kind, pdu.body),
    }
}

/// Computes the fingerprint: the number that the digits of the bytes spell to a large base, after a leading 1 and modulo
/// 2^64. Four bytes are one digit.
pub fn spell(octets: &[u8]) -> u64
    // The fingerprint starts at 1 and takes in each four bytes in order, then the up to three that are left
    // (`fingerprint_of`).
    ensures { result ≡ fingerprint_of octets.now }
{
    let mut fingerprint = 1;
    let mut rest = octets;
    for _ in 0..octets.len() / 4 {
        if let [a, b, c, d, more @ ..] = rest {
            fingerprint = join_digit(fingerprint, LittleEndian::read_u32(&[*a, *b, *c, *d]));
            rest = more;
        }
    }
    rest.iter().fold(
        fingerprint,
        |fingerprint, octet| join_digit(fingerprint, *octet as u32),
    )
}

/// Adds a digit to a fingerprint.
fn join_digit(fingerprint: u64, digit: u32) -> u64
    ensures { result ≡ with_digit fingerprint digit }
{
    fingerprint
        .wrapping_mul(FINGERPRINT_BASE)
        .wrapping_add(digit as u64)
}

/// Returns reason and detail of a DiscReq.
fn departure(kind: Kind, body: &[u8]) -> Option<Leaving>
    requires { IsBody kind body.now }
    ensures { result ≡ leaving_of kind body.now }
{
    match kind {
        Kind::DiscReq => Some(read_leaving(body)),
        Kind::ConnReq
        | Kind::ConnResp
        | Kind::RetrReq
        | Kind::RetrResp
        | Kind::Heartbeat
        | Kind::Data
        | Kind::RetrData => None,
    }
}
