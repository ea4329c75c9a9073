//! Encoding and decoding of safety PDUs.

ghost use Rattle.std.specs.Prelude.{◌≡◌, ℕ, ◌+◌, ◌≤◌, List, length, take, drop, ◌↔◌, Ok, IsTrue, IfOk, IfErr, IsOkAnd};
ghost use Rattle.safe_pdu.specs.Pdu.{Pdu, pdu_of};
ghost use Rattle.safe_pdu.specs.Bodies.{IsBody};
ghost use Rattle.safe_pdu.specs.SafeText.{SafeText, HasNumbers, code_octets, header, is_text};
ghost use Rattle.safe_pdu.specs.Places.{FirstFault, IsAsked, read_as, safe_seen, seen_of};
ghost use Rattle.safe_pdu.specs.Laws.{AskedLaw, ReadAlikeLaw, ReadAskedLaw, ReadLaw};

use super::bodies::fits_body;
use super::{CodeRule, Kind, SafeFault, SafePdu};
use octets::limits::{SAFE_FRONT_MAX, SAFE_HEADER};
use octets::places::{put_octets, put_u16, put_u32, u16_at, u32_at};

/// Decodes the part of a redundancy PDU as a safety PDU. `octets` may contain any bytes.
///
/// The result borrows its body from `octets`; nothing is copied.
///
/// # Errors
///
/// Returns the first that applies:
///
/// - `Short` if there are fewer bytes than a header (28) and the safety code need;
/// - `Length` if the length field differs from the number of bytes, or there are more than 1,234 bytes and the
///   safety code;
/// - `Code` if the safety code is not that of the bytes before it;
/// - `BadType` if the PDU type is not one of the eight;
/// - `Body` if the body does not fit the PDU type.
#[inline(always)]
pub fn decode<'a>(octets: &'a [u8], rule: &CodeRule) -> Result<SafePdu<'a>, SafeFault>
    // If `decode` succeeds, the input is exactly the encoding of the returned PDU, safety code included: one of
    // the eight types with a body that fits it.
    ensures found { IfOk result (λ pdu. SafeText (pdu_of pdu) rule.now octets.now) }

    // Every encoding of a PDU is accepted, and decoded as that PDU.
    ensures only { (p : Pdu) → SafeText p rule.now octets.now → IsOkAnd result (λ pdu. pdu_of pdu ≡ p) }

    // If `decode` fails, it returns the first fault in the order above, and the input has that fault.
    ensures fault { IfErr result (FirstFault rule.now octets.now) }

    // The returned fields are the little-endian numbers at their places in the header; otherwise the first
    // fault is returned. Both are what `safe_seen` computes.
    ensures exact { seen_of result ≡ safe_seen rule.now octets.now }
{
    read_places(octets, rule)
}

/// Decodes a safety PDU field by field.
#[inline(always)]
fn read_places<'a>(octets: &'a [u8], rule: &CodeRule) -> Result<SafePdu<'a>, SafeFault>
    ensures { seen_of result ≡ safe_seen rule.now octets.now }
{
    let code_size = rule.length.octets();
    if octets.len() < SAFE_HEADER + code_size {
        return Err(SafeFault::Short);
    }
    let length = u16_at(octets, 0);
    if length as usize != octets.len() || octets.len() > SAFE_FRONT_MAX + code_size {
        return Err(SafeFault::Length);
    }
    let (front, code) = octets.split_at(octets.len() - code_size);
    if !rule.confirms(front, code) {
        return Err(SafeFault::Code);
    }
    let number = u16_at(octets, 2);
    let Some(kind) = Kind::of(number) else {
        return Err(SafeFault::BadType);
    };
    let (_, body) = front.split_at(SAFE_HEADER);
    if !fits_body(kind, body) {
        return Err(SafeFault::Body);
    }
    Ok(view_of(kind, octets, body))
}

/// Returns the fields of a header of at least 28 bytes, with the given PDU type and body.
#[inline(always)]
fn view_of<'a>(kind: Kind, octets: &[u8], body: &'a [u8]) -> SafePdu<'a>
    requires { SAFE_HEADER ≤ length octets.now }
    ensures { pdu_of result ≡ read_as kind octets.now body.entry.now }
{
    SafePdu {
        kind,
        receiver: u32_at(octets, 4),
        sender: u32_at(octets, 8),
        sn: u32_at(octets, 12),
        cs: u32_at(octets, 16),
        ts: u32_at(octets, 20),
        cts: u32_at(octets, 24),
        body,
    }
}

/// Writes the eight header fields at the start of the buffer and leaves the rest unchanged.
fn put_header(pdu: &SafePdu<'_>, size: u16, buffer: &mut [u8])
    requires { SAFE_HEADER ≤ length buffer.old }
    // The PDU's numbers fit their fields.
    ensures numbers { HasNumbers (pdu_of pdu.now) }
    // The first 28 bytes are the header of the PDU, with this size.
    ensures front { take SAFE_HEADER buffer.new ≡ header size (pdu_of pdu.now) }
    // The bytes after the header are unchanged.
    ensures rest { drop SAFE_HEADER buffer.new ≡ drop SAFE_HEADER buffer.old }
{
    put_u16(buffer, 0, size);
    put_u16(buffer, 2, pdu.kind.number());
    put_u32(buffer, 4, pdu.receiver);
    put_u32(buffer, 8, pdu.sender);
    put_u32(buffer, 12, pdu.sn);
    put_u32(buffer, 16, pdu.cs);
    put_u32(buffer, 20, pdu.ts);
    put_u32(buffer, 24, pdu.cts);
}

/// Encodes a safety PDU with its safety code at the start of the buffer, and returns the number of bytes
/// written.
///
/// The caller must provide a body that fits the PDU type, and room for the header (28 bytes), the body and the
/// safety code.
pub fn encode(pdu: &SafePdu<'_>, rule: &CodeRule, buffer: &mut [u8]) -> usize
    requires body { IsBody pdu.now.kind pdu.now.body.now }
    requires room { SAFE_HEADER + length pdu.now.body.now + code_octets rule.now.length ≤ length buffer.old }
    // The returned size is that of the header (28 bytes), the body and the safety code.
    ensures size { result ≡ SAFE_HEADER + length pdu.now.body.now + code_octets rule.now.length }
    // The bytes written are exactly the encoding of the PDU with a valid safety code.
    ensures written { SafeText (pdu_of pdu.now) rule.now (take result buffer.new) }
    // The buffer after the bytes written is unchanged.
    ensures rest { drop result buffer.new ≡ drop result buffer.old }
{
    let front = SAFE_HEADER + pdu.body.len();
    let size = front + rule.length.octets();
    put_header(pdu, size as u16, buffer);
    put_octets(buffer, SAFE_HEADER, pdu.body);
    rule.put_code(buffer, front);
    size
}

/// Encodes a safety PDU and decodes the result with the same safety code settings.
pub fn read_back<'a>(
    pdu: &SafePdu<'_>,
    rule: &CodeRule,
    buffer: &'a mut [u8],
) -> Result<SafePdu<'a>, SafeFault>
    requires body { IsBody pdu.now.kind pdu.now.body.now }
    requires room { SAFE_HEADER + length pdu.now.body.now + code_octets rule.now.length ≤ length buffer.old }
    // Decoding succeeds and returns the PDU that was encoded.
    ensures { IsOkAnd result (λ again. pdu_of again ≡ pdu_of pdu.now) }
{
    let size = encode(pdu, rule, buffer);
    decode(&buffer[..size], rule)
}

/// Laws of the encoding. The function does nothing when it is called.
pub fn text_law()
    // If the same bytes encode one PDU under one initial value and another PDU under another, with equal
    // lengths of the safety code, both PDUs are equal.
    ensures by_place { (p q : Pdu) (r s : CodeRule) (octets : List ℕ) → SafeText p r octets
        → SafeText q s octets → r.length ≡ s.length → p ≡ q }

    // A PDU has exactly one encoding under given safety code settings, so decoding and encoding again gives the
    // same bytes.
    ensures one_text { (p : Pdu) (rule : CodeRule) (octets again : List ℕ) → SafeText p rule octets
        → SafeText p rule again → octets ≡ again }

    // An encoding with an end's own identifier as receiver and the peer's as sender passes that end's check of
    // identifiers and safety code (`IsAsked`).
    ensures is_asked { (p : Pdu) (rule : CodeRule) (own peer : ℕ) (octets : List ℕ) → SafeText p rule octets
        → p.receiver ≡ own → p.sender ≡ peer → IsAsked rule own peer octets }

    // Reading an encoding field by field (`safe_seen`) returns its PDU.
    ensures complete { (p : Pdu) (rule : CodeRule) (octets : List ℕ) → SafeText p rule octets
        → safe_seen rule octets ≡ Ok p }

    // If reading field by field succeeds, the bytes are the encoding of the PDU returned (`ReadLaw`).
    ensures read { ReadLaw }

    // If the same bytes read as PDUs under two initial values, with equal lengths of the safety code, both PDUs
    // are equal (`ReadAlikeLaw`).
    ensures read_alike { ReadAlikeLaw }

    // If bytes read as a PDU for an end from its peer, they pass that end's check of identifiers and safety
    // code (`ReadAskedLaw`).
    ensures read_asked { ReadAskedLaw }

    // The test `is_asked` is true for exactly the bytes that have both identifiers at their places and end in a
    // valid safety code (`AskedLaw`).
    ensures asked { AskedLaw }

    // The test `is_text` is true for exactly the encodings of a PDU under given safety code settings.
    ensures test { (p : Pdu) (rule : CodeRule) (octets : List ℕ) → IsTrue (is_text p rule octets)
        ↔ SafeText p rule octets }
{}
