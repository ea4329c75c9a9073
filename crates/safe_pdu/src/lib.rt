//! The safety PDU: eight header fields, a body that fits the PDU type, and a safety code over both.
//!
//! Layout in bytes, least significant first: length of the whole PDU (2), PDU type (2), receiver, sender,
//! sequence number, confirmed sequence number, timestamp, confirmed timestamp (4 each), body, safety code
//! (0, 8 or 16).
//!
//! The safety and retransmission layer of DIN VDE V 0831-200:2015, in this project's profile. Sections are
//! not cited by number, because the standard's text is not part of this repository.
//!
//! Contracts: they hold for any safety code settings: 0, 8 or 16 bytes of the digest, under any initial
//! value.
#![tactic(auto)]

ghost use Rattle.std.specs.Prelude.{◌≡◌, ◌↔◌, ◌+◌, ◌≤◌, ◌++◌, length, take, drop, IsTrue};
ghost use Rattle.std.specs.Str.{bytes_eq};
ghost use Rattle.byteorder.specs.Endian.{little_bytes};
ghost use Rattle.safe_pdu.specs.Names.{kind_name, safe_name, safe_number};
ghost use Rattle.safe_pdu.specs.Pdu.{kind_number};
ghost use Rattle.safe_pdu.specs.Places.{kind_of};
ghost use Rattle.safe_pdu.specs.SafeText.{code_octets, code_over};

use octets::places::{put_u32, u32_at};

mod bodies;
mod codec;
mod reasons;

pub use bodies::{read_leaving, read_opening};
pub use codec::{decode, encode, read_back, text_law};
pub use reasons::{Detail, Reason};

/// The number that identifies an end: the receiver or the sender of a PDU.
pub type Identifier = u32;

/// The eight types of safety PDU, by the standard's names.
#[derive(Clone, Copy, Debug, PartialEq, Eq)]
pub enum Kind {
    /// ConnReq, 6200: the client requests a connection.
    ConnReq,
    /// ConnResp, 6201: the server accepts it.
    ConnResp,
    /// RetrReq, 6212: requests that everything from a gap on is sent again.
    RetrReq,
    /// RetrResp, 6213: the requested retransmission follows.
    RetrResp,
    /// DiscReq, 6216: the sender has closed the connection.
    DiscReq,
    /// HB, 6220: a heartbeat.
    Heartbeat,
    /// Data, 6240: a unit, for the first time.
    Data,
    /// RetrData, 6241: a unit, again.
    RetrData,
}

impl Kind {
    /// Returns the PDU type with a number, or `None` if no type has it.
    pub fn of(number: u16) -> Option<Self>
        // The result is the PDU type whose number is `number`, or `None` if it is not the number of one of
        // the eight.
        ensures { result ≡ kind_of number }
    {
        match number {
            6200 => Some(Kind::ConnReq),
            6201 => Some(Kind::ConnResp),
            6212 => Some(Kind::RetrReq),
            6213 => Some(Kind::RetrResp),
            6216 => Some(Kind::DiscReq),
            6220 => Some(Kind::Heartbeat),
            6240 => Some(Kind::Data),
            6241 => Some(Kind::RetrData),
            _ => None,
        }
    }

    /// Returns the number of the PDU type, as in the PDU.
    pub fn number(self) -> u16
        // The result is the number of the PDU type: 6200, 6201, 6212, 6213, 6216, 6220, 6240 or 6241.
        ensures { result ≡ kind_number self }
    {
        match self {
            Kind::ConnReq => 6200,
            Kind::ConnResp => 6201,
            Kind::RetrReq => 6212,
            Kind::RetrResp => 6213,
            Kind::DiscReq => 6216,
            Kind::Heartbeat => 6220,
            Kind::Data => 6240,
            Kind::RetrData => 6241,
        }
    }

    /// Returns the name of the PDU type, for printing.
    pub fn name(self) -> &'static str
        // The result is the standard's name of the PDU type, with "HB" for a heartbeat.
        ensures { result.now ≡ kind_name self }
    {
        match self {
            Kind::ConnReq => "ConnReq",
            Kind::ConnResp => "ConnResp",
            Kind::RetrReq => "RetrReq",
            Kind::RetrResp => "RetrResp",
            Kind::DiscReq => "DiscReq",
            Kind::Heartbeat => "HB",
            Kind::Data => "Data",
            Kind::RetrData => "RetrData",
        }
    }
}

/// The length of the safety code.
#[derive(Clone, Copy, Debug, PartialEq, Eq)]
pub enum CodeLength {
    /// None, for reading captured datagrams. No end uses it: opening an end with it is refused.
    Zero,
    /// Eight bytes, the first half of the digest.
    Eight,
    /// Sixteen bytes, the whole digest.
    Sixteen,
}

impl CodeLength {
    /// Returns the number of bytes.
    pub fn octets(self) -> usize
        // The result is 0, 8 or 16, by the length.
        ensures { result ≡ code_octets self }
    {
        match self {
            CodeLength::Zero => 0,
            CodeLength::Eight => 8,
            CodeLength::Sixteen => 16,
        }
    }
}

/// The settings of the safety code.
#[derive(Clone, Copy, Debug, PartialEq, Eq)]
pub struct CodeRule {
    /// The length of the safety code.
    pub length: CodeLength,
    /// The initial value of the MD4 digest of which the safety code is a prefix.
    pub initial_value: [u32; 4],
}

impl CodeRule {
    /// Returns whether a safety code is the code of the bytes before it.
    pub fn confirms(&self, front: &[u8], code: &[u8]) -> bool
        // The result is true for exactly one `code`: the first 0, 8 or 16 bytes of the MD4 digest of
        // `front` under the initial value.
        ensures { result ≡ bytes_eq code.now (code_over self.now front.now) }
    {
        if code.len() != self.length.octets() {
            return false;
        }
        let words = md4::digest_words(self.initial_value, front);
        match self.length {
            CodeLength::Zero => true,
            CodeLength::Eight => has_words(words[0], words[1], code),
            CodeLength::Sixteen => has_words(words[0], words[1], code)
                & has_words(words[2], words[3], &code[8..]),
        }
    }

    /// Writes the safety code of the first `size` bytes of the buffer after these, and leaves the rest
    /// unchanged.
    pub(crate) fn put_code(&self, buffer: &mut [u8], size: usize)
        requires { size + code_octets self.now.length ≤ length buffer.old }
        // The first `size` bytes are unchanged, and their safety code follows them.
        ensures front { take (size + code_octets self.now.length) buffer.new
            ≡ take size buffer.old ++ code_over self.now (take size buffer.old) }
        // The bytes after the safety code are unchanged.
        ensures rest { drop (size + code_octets self.now.length) buffer.new
            ≡ drop (size + code_octets self.now.length) buffer.old }
    {
        let words = md4::digest_words(self.initial_value, &buffer[..size]);
        match self.length {
            CodeLength::Zero => {}
            CodeLength::Eight => put_words(buffer, size, words[0], words[1]),
            CodeLength::Sixteen => {
                put_words(buffer, size, words[0], words[1]);
                put_words(buffer, size + 8, words[2], words[3]);
            }
        }
    }
}

/// Returns whether bytes start with two words of a digest.
#[inline(always)]
fn has_words(first: u32, second: u32, octets: &[u8]) -> bool
    requires { 8 ≤ length octets.now }
    ensures { result ≡ bytes_eq (take 8 octets.now) (little_bytes 4 first ++ little_bytes 4 second) }
{
    (first == u32_at(octets, 0)) & (second == u32_at(octets, 4))
}

/// Writes two words of a digest into the eight bytes from a place on, and leaves the rest unchanged.
#[inline(always)]
fn put_words(buffer: &mut [u8], place: usize, first: u32, second: u32)
    requires { place + 8 ≤ length buffer.old }
    // The bytes before `place` are unchanged, and both words follow them, each least significant byte
    // first.
    ensures front { take (place + 8) buffer.new ≡ take place buffer.old ++ little_bytes 4 first ++ little_bytes 4 second }
    // The bytes after the two words are unchanged.
    ensures rest { drop (place + 8) buffer.new ≡ drop (place + 8) buffer.old }
{
    put_u32(buffer, place, first);
    put_u32(buffer, place + 4, second);
}

/// Why bytes are not a safety PDU. If more than one applies, the decoder returns the first of this list.
#[derive(Clone, Copy, Debug, PartialEq, Eq)]
pub enum SafeFault {
    /// There are fewer bytes than a header (28) and the safety code need.
    Short,
    /// The length field differs from the number of bytes, or there are more than 1,234 bytes and the safety
    /// code.
    Length,
    /// The safety code is not that of the bytes before it. This never happens with a safety code of 0
    /// bytes.
    Code,
    /// The PDU type is not one of the eight.
    BadType,
    /// The body does not fit the PDU type.
    Body,
}

impl SafeFault {
    /// Returns the fault's number, for printing: its place in the list above, from 1.
    pub fn number(self) -> u8
        // The result is 1 for `Short`, 2 for `Length`, 3 for `Code`, 4 for `BadType` and 5 for `Body`.
        ensures { result ≡ safe_number self }
    {
        match self {
            SafeFault::Short => 1,
            SafeFault::Length => 2,
            SafeFault::Code => 3,
            SafeFault::BadType => 4,
            SafeFault::Body => 5,
        }
    }

    /// Returns the fault's name, for printing.
    pub fn name(self) -> &'static str
        // The result is "Short", "Length", "Code", "Type" or "Body".
        ensures { result.now ≡ safe_name self }
    {
        match self {
            SafeFault::Short => "Short",
            SafeFault::Length => "Length",
            SafeFault::Code => "Code",
            SafeFault::BadType => "Type",
            SafeFault::Body => "Body",
        }
    }
}

/// A safety PDU. Its body is borrowed from the datagram that it was decoded from.
#[derive(Clone, Copy, Debug, PartialEq, Eq)]
pub struct SafePdu<'a> {
    /// The PDU type.
    pub kind: Kind,
    /// The identifier of the end that receives it.
    pub receiver: Identifier,
    /// The identifier of the end that made it.
    pub sender: Identifier,
    /// The sequence number.
    pub sn: u32,
    /// The confirmed sequence number.
    pub cs: u32,
    /// The timestamp: the low 32 bits of the sender's time in milliseconds.
    pub ts: u32,
    /// The confirmed timestamp: that of the PDU whose sequence number is confirmed.
    pub cts: u32,
    /// The body, which fits the PDU type.
    pub body: &'a [u8],
}

/// The content of the body of a ConnReq or ConnResp. The version is borrowed from the body.
#[derive(Clone, Copy, Debug, PartialEq, Eq)]
pub struct Opening<'a> {
    /// The version: four ASCII digits.
    pub version: &'a [u8],
    /// N_sendmax, 1 to 32: how many units the sender's peer may have unconfirmed. It is the size of the
    /// receive buffer that the sender offers.
    pub n_sendmax: u16,
}

/// The content of the body of a DiscReq.
#[derive(Clone, Copy, Debug, PartialEq, Eq)]
pub struct Leaving {
    /// The detail of the reason.
    pub detail: u16,
    /// Why the sender disconnected.
    pub reason: u16,
}
