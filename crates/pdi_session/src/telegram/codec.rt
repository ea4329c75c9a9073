//! Encoding and decoding of telegrams.

ghost use Rattle.std.specs.Prelude.{◌≡◌, ◌==◌, ℕ, ◌+◌, ◌≤◌, ◌++◌, not, List, length, take, drop, count_by, Ok, IfOk, IfErr, IsOkAnd};
ghost use Rattle.pdi_session.specs.telegram.Names.{fill_name};
ghost use Rattle.pdi_session.specs.telegram.Tele.{Tele, characters_of, tele_of};
ghost use Rattle.pdi_session.specs.telegram.TeleText.{TeleText};
ghost use Rattle.pdi_session.specs.telegram.Places.{FirstFault, name_found, name_seen, seen_of, tele_seen};

use super::{FILLING, KIND, NAME_LENGTH, Name, RECEIVER, SENDER, TeleFault, Telegram};
use octets::limits::{MESSAGE_MAX, MESSAGE_MIN, PAYLOAD_MAX};
use octets::places::{put_octets, put_u16, u16_at};

/// A name's place with nothing but filling.
const UNNAMED: [u8; NAME_LENGTH] = [FILLING; NAME_LENGTH];

/// Returns how many bytes are not filling.
fn characters_in(field: &[u8]) -> usize
    ensures { result ≡ count_by (λ octet. not (octet == FILLING)) field.now }
{
    let mut count = 0;
    for octet in field {
        if *octet != FILLING {
            count += 1;
        }
    }
    count
}

/// Decodes a name from its place of 20 bytes.
fn name_in(field: &[u8]) -> Option<Name<'_>>
    requires { length field.now ≡ NAME_LENGTH }
    ensures { name_found result ≡ name_seen field.now }
{
    // If all bytes other than filling come first, only filling follows them.
    let (characters, _) = field.split_at(characters_in(field));
    Name::of_octets(characters)
}

/// Decodes a message, which may contain any bytes. The telegram returned is a view of it; nothing is copied.
///
/// # Errors
///
/// Returns the first that applies:
///
/// - `Short` if there are fewer than 43 bytes;
/// - `Long` if there are more than 400 bytes;
/// - `Name` if the sender's or the receiver's name is not valid.
#[tactic(auto, unfolding(crate::specs::telegram::Places::tele_seen))]
pub fn decode(octets: &[u8]) -> Result<Telegram<'_>, TeleFault>
    // If `decode` succeeds, the message is exactly the encoding of the telegram returned.
    ensures found { IfOk result (λ telegram. TeleText (tele_of telegram) octets.now) }

    // Every encoding of a telegram is accepted, and `decode` returns that telegram.
    ensures only { (t : Tele) → TeleText t octets.now → IsOkAnd result (λ telegram. tele_of telegram ≡ t) }

    // If `decode` fails, it returns the first fault in the order above, and the message has that fault.
    ensures fault { IfErr result (FirstFault octets.now) }

    // The fields returned are those at their places, names without filling; otherwise the first fault is returned.
    // Both are what `tele_seen` computes.
    ensures exact { seen_of result ≡ tele_seen octets.now }
{
    if octets.len() < MESSAGE_MIN {
        return Err(TeleFault::Short);
    }
    if octets.len() > MESSAGE_MAX {
        return Err(TeleFault::Long);
    }
    let Some(sender) = name_in(&octets[SENDER..RECEIVER]) else {
        return Err(TeleFault::Name);
    };
    let Some(receiver) = name_in(&octets[RECEIVER..MESSAGE_MIN]) else {
        return Err(TeleFault::Name);
    };
    let protocol = octets[0];
    let kind = u16_at(octets, KIND);
    let (_, payload) = octets.split_at(MESSAGE_MIN);
    Ok(Telegram {
        protocol,
        kind,
        sender,
        receiver,
        payload,
    })
}

/// Writes a name and its filling, 20 bytes in all, into the buffer at `place`.
pub(super) fn put_name(buffer: &mut [u8], place: usize, name: Name<'_>)
    requires { place + NAME_LENGTH ≤ length buffer.old }
    // Up to the end of the name, the buffer has its old bytes before `place`, and then the name with its filling
    // (`fill_name`).
    ensures front { take (place + NAME_LENGTH) buffer.new ≡ take place buffer.old ++ fill_name (characters_of name.entry) }
    // The bytes after the 20 of the name are unchanged.
    ensures rest { drop (place + NAME_LENGTH) buffer.new ≡ drop (place + NAME_LENGTH) buffer.old }
{
    let characters = name.as_str().as_bytes();
    // Filling goes over the whole place first, since copying a fixed size takes two moves and no call.
    put_octets(buffer, place, &UNNAMED);
    put_octets(buffer, place, characters);
}

/// Encodes a telegram at the start of the buffer and returns the number of bytes written. The payload must have at
/// most 357 bytes, and the buffer room for 43 bytes and the payload.
pub fn encode(telegram: &Telegram<'_>, buffer: &mut [u8]) -> usize
    requires fits { length telegram.now.payload.now ≤ PAYLOAD_MAX }
    requires room { MESSAGE_MIN + length telegram.now.payload.now ≤ length buffer.old }
    // `encode` returns 43 plus the size of the payload.
    ensures size { result ≡ MESSAGE_MIN + length telegram.now.payload.now }
    // The bytes that `encode` writes are exactly the encoding of the telegram.
    ensures written { TeleText (tele_of telegram.now) (take result buffer.new) }
    // `encode` leaves the buffer after the written bytes unchanged.
    ensures rest { drop result buffer.new ≡ drop result buffer.old }
{
    put_octets(buffer, 0, &[telegram.protocol]);
    put_u16(buffer, KIND, telegram.kind);
    put_name(buffer, SENDER, telegram.sender);
    put_name(buffer, RECEIVER, telegram.receiver);
    put_octets(buffer, MESSAGE_MIN, telegram.payload);
    MESSAGE_MIN + telegram.payload.len()
}

/// Encodes a telegram and decodes the result.
pub fn read_back<'a>(
    telegram: &Telegram<'_>,
    buffer: &'a mut [u8],
) -> Result<Telegram<'a>, TeleFault>
    requires fits { length telegram.now.payload.now ≤ PAYLOAD_MAX }
    requires room { MESSAGE_MIN + length telegram.now.payload.now ≤ length buffer.old }
    // Decoding an encoded telegram succeeds and returns the same telegram.
    ensures { IsOkAnd result (λ again. tele_of again ≡ tele_of telegram.now) }
{
    let size = encode(telegram, buffer);
    decode(&buffer[..size])
}

/// Laws of the encoding of telegrams. The function does nothing when it is called.
pub fn one_spelling()
    // The same bytes are the encoding of only one telegram.
    ensures value { (t other : Tele) (octets : List ℕ) → TeleText t octets → TeleText other octets
        → t ≡ other }
    // A telegram has only one encoding, so decoding and encoding again gives the same bytes.
    ensures text { (t : Tele) (octets again : List ℕ) → TeleText t octets → TeleText t again
        → octets ≡ again }
    // Reading an encoding field by field (`tele_seen`) returns its telegram.
    ensures read { (t : Tele) (octets : List ℕ) → TeleText t octets → tele_seen octets ≡ Ok t }
{}
