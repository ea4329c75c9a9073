//! Decoding a unit, and appending a message to one.

ghost use Rattle.std.specs.Prelude.{◌≡◌, ◌+◌, ◌≤◌, ℕ, true, false, List, ◌++◌, length, Ok, IfOk, IfErr, IsOkAnd, MatchOption};
ghost use Rattle.arrayvec.specs.ArrayVec.{array_vec_len};
ghost use Rattle.pdi_session.specs.packing.UnitText.{IsMessage, UnitText, messages_of, piece};
ghost use Rattle.pdi_session.specs.packing.Places.{FirstFault, behind_first, first_message, is_piece, pieces_seen, seen_of, unit_seen};

use super::{Messages, PackFault, Unit};
use octets::limits::{MESSAGE_LENGTH, MESSAGE_MAX, MESSAGE_MIN, UNIT_MAX, UNIT_MESSAGES};
use octets::places::{put_u16, u16_at};

/// Returns the first message and the bytes after it, if the bytes start with a complete message and its length.
fn first_piece(octets: &[u8]) -> Option<(&[u8], &[u8])>
    // The result is `None` if and only if the bytes do not start with a complete piece (`is_piece`).
    ensures none { MatchOption result (is_piece octets.now ≡ false) (λ _. is_piece octets.now ≡ true) }
    // The message returned is the one after the length field, with as many bytes as that says (`first_message`).
    ensures message { MatchOption result (is_piece octets.now ≡ false) (λ p. p.0.now ≡ first_message octets.now) }
    // The second part of the result is everything after that message (`behind_first`).
    ensures behind { MatchOption result (is_piece octets.now ≡ false) (λ p. p.1.now ≡ behind_first octets.now) }
{
    if octets.len() < MESSAGE_LENGTH {
        return None;
    }
    let size = u16_at(octets, 0) as usize;
    if size < MESSAGE_MIN || size > MESSAGE_MAX {
        return None;
    }
    let (_, behind_length) = octets.split_at(MESSAGE_LENGTH);
    if behind_length.len() < size {
        return None;
    }
    Some(behind_length.split_at(size))
}

/// Splits bytes into messages. Empty input has no messages.
fn messages_in(octets: &[u8]) -> Result<Messages<'_>, PackFault>
    ensures { seen_of result ≡ pieces_seen UNIT_MESSAGES octets.now }
{
    let mut messages = Messages::new();
    let mut rest = octets;
    while !rest.is_empty() {
        if messages.is_full() {
            return Err(PackFault::TooMany);
        }
        let Some((message, behind)) = first_piece(rest) else {
            return Err(PackFault::Length);
        };
        messages.push(message);
        rest = behind;
    }
    Ok(messages)
}

/// Decodes a unit. `octets` may contain any bytes. The messages returned are views of it; nothing is copied.
///
/// # Errors
///
/// Returns the fault that reading from the left meets first:
///
/// - `Empty` if there are no bytes;
/// - `TooMany` if bytes remain after three messages;
/// - `Length` if a length is not 43 to 400, or its message is incomplete.
pub fn unpack(octets: &[u8]) -> Result<Messages<'_>, PackFault>
    // If `unpack` succeeds, the bytes are exactly the unit of the 1 to 3 messages returned.
    ensures found { IfOk result (λ messages. UnitText (messages_of messages) octets.now) }

    // Every unit of 1 to 3 messages is accepted, and `unpack` returns these messages.
    ensures only { (ms : List (List ℕ)) → UnitText ms octets.now
        → IsOkAnd result (λ messages. messages_of messages ≡ ms) }

    // If `unpack` fails, its fault is the first that reading from the left meets, and the bytes have it.
    ensures fault { IfErr result (FirstFault octets.now) }

    // The messages or the fault are those that `unit_seen` computes from the bytes.
    ensures exact { seen_of result ≡ unit_seen octets.now }
{
    if octets.is_empty() {
        return Err(PackFault::Empty);
    }
    messages_in(octets)
}

/// Appends a message with its length to a unit that has room for both.
pub(crate) fn put_message(unit: &mut Unit, message: &[u8])
    requires sized { IsMessage message.now }
    requires room { array_vec_len unit.old + MESSAGE_LENGTH + length message.now ≤ UNIT_MAX }
    ensures { unit.new.items ≡ unit.old.items ++ piece message.now }
{
    let mut size = [0; MESSAGE_LENGTH];
    put_u16(&mut size, 0, message.len() as u16);
    unit.try_extend_from_slice(&size).unwrap();
    unit.try_extend_from_slice(message).unwrap();
}

/// Laws of the encoding of units. The function does nothing when it is called.
pub fn one_spelling()
    // The same bytes are the unit of only one list of messages.
    ensures value { (ms other : List (List ℕ)) (octets : List ℕ) → UnitText ms octets → UnitText other octets
        → ms ≡ other }
    // A list of messages has only one unit, so unpacking and packing again gives the same bytes.
    ensures text { (ms : List (List ℕ)) (octets again : List ℕ) → UnitText ms octets → UnitText ms again
        → octets ≡ again }
    // Reading the unit of a list of messages from the left returns that list.
    ensures read { (ms : List (List ℕ)) (octets : List ℕ) → UnitText ms octets → unit_seen octets ≡ Ok ms }
{}
