//! Texts of hex digits.

ghost use Rattle.std.specs.Prelude.{◌≡◌, None, Some, Err, IfOk};
ghost use Rattle.std.specs.Option.{option_copied};
ghost use Rattle.pdu_text.specs.HexText.{initial_value_of, octets_of};

use hex::FromHexError;
use octets::places::u32_at;
use std::alloc::Global;

/// Why the bytes of a text are not returned.
#[derive(Clone, Copy, Debug, PartialEq, Eq)]
pub enum HexFault {
    /// It is not hex digits, two for each byte, or it is empty: an empty datagram is more likely a slip in
    /// a shell script than a question.
    Hex,
    /// There is no memory for the bytes.
    Memory,
}

/// Returns the initial value in 32 hex digits, least significant byte of each word first, that of RFC 1320
/// without a text, or `None` if the text is not 32 hex digits. The text is tested even if the safety code
/// has 0 bytes, so that a slip never passes unseen.
pub fn initial_value(iv: Option<&str>) -> Option<[u32; 4]>
    // The result is the four words of a text of 32 hex digits, RFC 1320's words without a text, and `None`
    // for any other text.
    ensures { result ≡ initial_value_of (option_copied iv.entry) }
{
    let Some(text) = iv else {
        return Some(md4::INITIAL_VALUE);
    };
    let mut octets = [0u8; 16];
    match hex::decode_to_slice(text, &mut octets) {
        Ok(()) => Some([
            u32_at(&octets, 0),
            u32_at(&octets, 4),
            u32_at(&octets, 8),
            u32_at(&octets, 12),
        ]),
        Err(_) => None,
    }
}

/// Returns the bytes that a text of hex digits encodes.
///
/// # Errors
///
/// - `Hex` if the text is empty or not hex digits, two for each byte;
/// - `Memory` if there is no memory for the bytes.
pub fn hex_octets(alloc: Global, text: &str) -> Result<Vec<u8>, HexFault>
    // If `hex_octets` succeeds, the result is exactly the bytes that the text encodes.
    ensures ok { IfOk result (λ octets. octets_of text.now ≡ Some octets.items) }
    // The fault `Hex` is returned only if the text is empty or not a hex text.
    ensures hex { result ≡ Err HexFault.Hex → octets_of text.now ≡ None }
{
    if text.is_empty() {
        return Err(HexFault::Hex);
    }
    match hex::decode(alloc, text) {
        Ok(octets) => Ok(octets),
        Err(FromHexError::OutOfMemory) => Err(HexFault::Memory),
        Err(_) => Err(HexFault::Hex),
    }
}
