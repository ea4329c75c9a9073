//! Numbers at places in bytes. Each function returns `None` if there are not enough bytes.

ghost use Rattle.std.specs.Prelude.{◌≡◌, ◌≤◌, ◌+◌, length, IfSome};
ghost use Rattle.capture.specs.Places.{big_at, four_at, long_at, octet_at, short_at, sixteen_at};

use byteorder::{BigEndian, ByteOrder, LittleEndian};

/// Returns the byte at a place.
pub(crate) fn octet(octets: &[u8], place: usize) -> Option<u8>
    ensures { result ≡ octet_at place octets.now }
{
    if place < octets.len() {
        return Some(octets[place]);
    }
    None
}

/// Returns the 16-bit number at a place, most significant byte first.
pub(crate) fn big(octets: &[u8], place: usize) -> Option<u16>
    ensures { result ≡ big_at place octets.now }
{
    if octets.len() >= 2 && place <= octets.len() - 2 {
        return Some(BigEndian::read_u16(&octets[place..]));
    }
    None
}

/// Returns the four bytes from a place on.
pub(crate) fn four(octets: &[u8], place: usize) -> Option<[u8; 4]>
    ensures { result ≡ four_at place octets.now }
{
    if octets.len() >= 4 && place <= octets.len() - 4 {
        return Some([
            octets[place],
            octets[place + 1],
            octets[place + 2],
            octets[place + 3],
        ]);
    }
    None
}

/// Returns the sixteen bytes from a place on.
pub(crate) fn sixteen(octets: &[u8], place: usize) -> Option<[u8; 16]>
    ensures { result ≡ sixteen_at place octets.now }
{
    if octets.len() < 16 || place > octets.len() - 16 {
        return None;
    }
    let mut found = [0; 16];
    found.copy_from_slice(&octets[place..place + 16]);
    Some(found)
}

/// Returns the 16-bit number at a place, in either byte order.
pub(crate) fn short(big: bool, octets: &[u8], place: usize) -> Option<u16>
    ensures { result ≡ short_at big place octets.now }
{
    if octets.len() < 2 || place > octets.len() - 2 {
        return None;
    }
    if big {
        Some(BigEndian::read_u16(&octets[place..]))
    } else {
        Some(LittleEndian::read_u16(&octets[place..]))
    }
}

/// Returns the 32-bit number at a place, in either byte order.
pub(crate) fn long(big: bool, octets: &[u8], place: usize) -> Option<u32>
    ensures { result ≡ long_at big place octets.now }
{
    if octets.len() < 4 || place > octets.len() - 4 {
        return None;
    }
    if big {
        Some(BigEndian::read_u32(&octets[place..]))
    } else {
        Some(LittleEndian::read_u32(&octets[place..]))
    }
}
