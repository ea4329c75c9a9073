//! Numbers at places in bytes, least significant byte first. Each caller must provide a place with enough
//! bytes.

ghost use Rattle.byteorder.specs.Endian.{little_bytes, little_number};
ghost use Rattle.std.specs.Prelude.{◌≡◌, ◌+◌, ◌≤◌, ◌++◌, length, take, drop};

use byteorder::{ByteOrder, LittleEndian};

/// Returns the number in the two bytes from a place on.
pub fn u16_at(octets: &[u8], place: usize) -> u16
    requires { place + 2 ≤ length octets.now }
    // The result of `u16_at` is the number that the two bytes from `place` on encode, least significant
    // byte first.
    ensures { result ≡ little_number 2 (drop place octets.now) }
{
    LittleEndian::read_u16(&octets[place..])
}

/// Returns the number in the four bytes from a place on.
pub fn u32_at(octets: &[u8], place: usize) -> u32
    requires { place + 4 ≤ length octets.now }
    // The result of `u32_at` is the number that the four bytes from `place` on encode, least significant
    // byte first.
    ensures { result ≡ little_number 4 (drop place octets.now) }
{
    LittleEndian::read_u32(&octets[place..])
}

/// Writes a number into the two bytes from a place on, and leaves the rest unchanged.
pub fn put_u16(buffer: &mut [u8], place: usize, number: u16)
    requires { place + 2 ≤ length buffer.old }
    // `put_u16` leaves the bytes before the place unchanged, and writes the number into the next two, least
    // significant byte first.
    ensures front { take (place + 2) buffer.new ≡ take place buffer.old ++ little_bytes 2 number }
    // `put_u16` leaves the bytes after the two written unchanged.
    ensures rest { drop (place + 2) buffer.new ≡ drop (place + 2) buffer.old }
{
    LittleEndian::write_u16(&mut buffer[place..place + 2], number);
}

/// Writes a number into the four bytes from a place on, and leaves the rest unchanged.
pub fn put_u32(buffer: &mut [u8], place: usize, number: u32)
    requires { place + 4 ≤ length buffer.old }
    // `put_u32` leaves the bytes before the place unchanged, and writes the number into the next four,
    // least significant byte first.
    ensures front { take (place + 4) buffer.new ≡ take place buffer.old ++ little_bytes 4 number }
    // `put_u32` leaves the bytes after the four written unchanged.
    ensures rest { drop (place + 4) buffer.new ≡ drop (place + 4) buffer.old }
{
    LittleEndian::write_u32(&mut buffer[place..place + 4], number);
}

/// Copies bytes into the buffer from a place on, and leaves the rest unchanged.
pub fn put_octets(buffer: &mut [u8], place: usize, octets: &[u8])
    requires { place + length octets.now ≤ length buffer.old }
    // The bytes before the place are unchanged, and the copied `octets` follow them.
    ensures front { take (place + length octets.now) buffer.new ≡ take place buffer.old ++ octets.now }
    // The bytes after the copied `octets` are unchanged.
    ensures rest { drop (place + length octets.now) buffer.new ≡ drop (place + length octets.now) buffer.old }
{
    buffer[place..place + octets.len()].copy_from_slice(octets);
}
