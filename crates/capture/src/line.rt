//! The reader of a capture's line: six fields separated by tabs.

ghost use Rattle.std.specs.Prelude.{◌≡◌, ◌≤◌, IfOk};
ghost use Rattle.capture.specs.Lines.{address_of, line_of, payload_of, payload_seen, record_seen};

use crate::words::{are_parted_by, host, number, part, time};

/// Largest payload that is kept, in bytes. A redundancy PDU has at most 1,258.
pub const PAYLOAD_ROOM: usize = 2048;

/// The caller's buffer for a payload.
pub type Buffer = [u8; PAYLOAD_ROOM];

/// The address of a host, most significant byte first.
#[derive(Clone, Copy, Debug, PartialEq, Eq)]
pub enum Host {
    /// An IPv4 address.
    V4([u8; 4]),
    /// An IPv6 address.
    V6([u8; 16]),
}

/// The host and port that a datagram comes from or goes to.
#[derive(Clone, Copy, Debug, PartialEq, Eq)]
pub struct Address {
    /// The address of the host.
    pub host: Host,
    /// The UDP port.
    pub port: u16,
}

/// A recorded datagram. Its payload is at the start of the caller's buffer.
#[derive(Clone, Copy, Debug, PartialEq, Eq)]
pub struct Record {
    /// When it was recorded, in whole microseconds since 1970.
    pub time: u64,
    /// The host and port that sent it.
    pub source: Address,
    /// The host and port that it was sent to.
    pub destination: Address,
    /// The size of its payload in bytes.
    pub size: usize,
}

/// Why a line is not a datagram. If several apply, the reader returns the first in this order.
#[derive(Clone, Copy, Debug, PartialEq, Eq)]
pub enum LineFault {
    /// There are not exactly six fields.
    Fields,
    /// The time is not seconds, a point, and six to nine digits.
    Time,
    /// The source is not an IPv4 address (four numbers of at most 255 separated by points) or an IPv6 address (RFC
    /// 4291, 2.2), or its port is not a number of at most 65,535.
    Source,
    /// The same for the destination.
    Destination,
    /// The payload has more than 2,048 bytes.
    Long,
    /// The payload is not hexadecimal digits, two for each byte.
    Payload,
}

/// The byte between fields.
const TAB: u8 = 9;

/// Reads a line without its line feed, and writes the payload to the start of the buffer.
///
/// The contracts say nothing about the rest of the buffer, nor about the buffer after a fault.
///
/// # Errors
///
/// Returns the first that applies:
///
/// - `Fields` if there are not exactly six fields;
/// - `Time` if the time is not seconds, a point, and six to nine digits;
/// - `Source` if the source is not an address with a port;
/// - `Destination` if the destination is not an address with a port;
/// - `Long` if the payload has more than 2,048 bytes;
/// - `Payload` if the payload is not two hexadecimal digits for each byte.
pub fn read_line(line: &[u8], buffer: &mut Buffer) -> Result<Record, LineFault>
    // The result and the payload in the buffer are what the six fields spell: time in microseconds, two addresses,
    // bytes. Otherwise the first fault is returned (`line_of`).
    ensures read { record_seen result buffer.new ≡ line_of line.now }
    // The size of the payload is at most 2,048 bytes, so it is within the buffer.
    ensures fits { IfOk result (λ found. found.size ≤ PAYLOAD_ROOM) }
{
    if !are_parted_by(line, TAB, 5) {
        return Err(LineFault::Fields);
    }
    let (moment, behind_time) = part(line, TAB);
    let (source_host, behind_source) = part(behind_time, TAB);
    let (source_port, behind_port) = part(behind_source, TAB);
    let (destination_host, behind_destination) = part(behind_port, TAB);
    let (destination_port, digits) = part(behind_destination, TAB);
    let Some(time) = time(moment) else {
        return Err(LineFault::Time);
    };
    let Some(source) = read_address(source_host, source_port) else {
        return Err(LineFault::Source);
    };
    let Some(destination) = read_address(destination_host, destination_port) else {
        return Err(LineFault::Destination);
    };
    match put_payload(digits, buffer) {
        Ok(size) => Ok(Record {
            time,
            source,
            destination,
            size,
        }),
        Err(fault) => Err(fault),
    }
}

/// Reads an address from the texts of a host and of a port.
fn read_address(host_text: &[u8], port_text: &[u8]) -> Option<Address>
    ensures { result ≡ address_of host_text.now port_text.now }
{
    let host = host(host_text)?;
    let port = number(port_text, 65_535)?;
    let port = port as u16;
    Some(Address { host, port })
}

/// Decodes hexadecimal digits to the start of the buffer and returns how many bytes they are.
fn put_payload(digits: &[u8], buffer: &mut Buffer) -> Result<usize, LineFault>
    // The bytes at the start of the buffer are the decoded `digits`. The call fails with `Long` beyond 2,048 bytes,
    // and with `Payload` for other texts (`payload_of`).
    ensures put { payload_seen result buffer.new ≡ payload_of digits.now }
    // The number of bytes is at most `PAYLOAD_ROOM`.
    ensures fits { IfOk result (λ size. size ≤ PAYLOAD_ROOM) }
{
    if digits.len() > 2 * PAYLOAD_ROOM {
        return Err(LineFault::Long);
    }
    if digits.len() % 2 == 1 {
        return Err(LineFault::Payload);
    }
    let size = digits.len() / 2;
    match hex::decode_to_slice(digits, &mut buffer[..size]) {
        Ok(()) => Ok(size),
        Err(_) => Err(LineFault::Payload),
    }
}
