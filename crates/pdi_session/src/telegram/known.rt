//! Faster decoding of telegrams between two ends with known names.

ghost use Rattle.std.specs.Prelude.{◌≡◌, ◌+◌, ◌≤◌, length, take, drop, IsTrue, IfSome, Ok};
ghost use Rattle.pdi_session.specs.telegram.Known.{IsPair, first_name, second_name};
ghost use Rattle.pdi_session.specs.telegram.Names.{IsName};
ghost use Rattle.pdi_session.specs.telegram.Places.{seen_of, tele_seen};
ghost use Rattle.pdi_session.specs.telegram.Tele.{characters_of, tele_of};

use super::{KIND, NAME_LENGTH, Name, RECEIVER, SENDER, TeleFault, Telegram, codec};
use byteorder::{ByteOrder, LittleEndian};
use octets::limits::{MESSAGE_MAX, MESSAGE_MIN};
use octets::places::u16_at;

/// The size of both names in a telegram, in bytes.
const NAMES: usize = MESSAGE_MIN - SENDER;

/// The names of a sender and a receiver as a telegram has them. If a telegram has the same bytes there, their
/// characters need no test.
#[derive(Drop)]
pub struct KnownPair {
    /// Both names with their filling.
    octets: [u8; NAMES],
    /// The number of characters of the sender's name.
    sender: usize,
    /// The number of characters of the receiver's name.
    receiver: usize,
    ghost well_formed: { IsPair octets sender receiver },
}

impl KnownPair {
    /// Creates the pair of these two names.
    pub fn new(sender: Name<'_>, receiver: Name<'_>) -> Self
        // The first name of the new pair has the sender's characters.
        ensures sender { first_name result.octets result.sender ≡ characters_of sender.entry }
        // The second name of the new pair has the receiver's characters.
        ensures receiver { second_name result.octets result.receiver ≡ characters_of receiver.entry }
    {
        let mut octets = [0; NAMES];
        codec::put_name(&mut octets, 0, sender);
        codec::put_name(&mut octets, NAME_LENGTH, receiver);
        KnownPair {
            octets,
            sender: sender.as_str().len(),
            receiver: receiver.as_str().len(),
        }
    }

    /// Decodes a message from any sender, with the same result as `telegram::decode`. It is faster if the message
    /// has the names of this pair.
    ///
    /// # Errors
    ///
    /// Returns the first that applies:
    ///
    /// - `Short` if there are fewer than 43 bytes;
    /// - `Long` if there are more than 400 bytes;
    /// - `Name` if the sender's or the receiver's name is not valid.
    pub fn decode<'a>(&self, octets: &'a [u8]) -> Result<Telegram<'a>, TeleFault>
        // Decoding with a known pair gives the telegram or the fault that `tele_seen` computes, whichever names
        // the message has.
        ensures exact { seen_of result ≡ tele_seen octets.now }
    {
        match self.decode_known(octets) {
            Some(telegram) => Ok(telegram),
            None => codec::decode(octets),
        }
    }

    /// Decodes a message with the names of this pair. Returns `None` if it has other names, or is too short or too
    /// long.
    #[inline(always)]
    pub fn decode_known<'a>(&self, octets: &'a [u8]) -> Option<Telegram<'a>>
        // A telegram that `decode_known` returns is the one that the message encodes (`tele_seen`).
        ensures exact { IfSome result (λ t. tele_seen octets.now ≡ Ok (tele_of t)) }
        // The sender of a telegram that `decode_known` returns is the pair's first name.
        ensures sender { IfSome result (λ t. characters_of t.sender ≡ first_name self.now.octets self.now.sender) }
        // The receiver of a telegram that `decode_known` returns is the pair's second name.
        ensures receiver { IfSome result (λ t. characters_of t.receiver ≡ second_name self.now.octets self.now.receiver) }
    {
        if octets.len() < MESSAGE_MIN
            || octets.len() > MESSAGE_MAX
            || !self.has(&octets[SENDER..MESSAGE_MIN])
        {
            return None;
        }
        let (_, payload) = octets.split_at(MESSAGE_MIN);
        Some(Telegram {
            protocol: octets[0],
            kind: u16_at(octets, KIND),
            sender: Name::of_valid(&octets[SENDER..SENDER + self.sender]),
            receiver: Name::of_valid(&octets[RECEIVER..RECEIVER + self.receiver]),
            payload,
        })
    }

    /// Returns true if the bytes are those of the pair, compared as five words.
    #[inline(always)]
    fn has(&self, names: &[u8]) -> bool
        requires { length names.now ≡ NAMES }
        ensures { IsTrue result → names.now ≡ self.now.octets }
    {
        has_eight(names, &self.octets, 0)
            & has_eight(names, &self.octets, 8)
            & has_eight(names, &self.octets, 16)
            & has_eight(names, &self.octets, 24)
            & has_eight(names, &self.octets, 32)
    }
}

/// Returns true if both have the same eight bytes at a place.
#[inline(always)]
fn has_eight(one: &[u8], other: &[u8], place: usize) -> bool
    requires one { place + 8 ≤ length one.now }
    requires other { place + 8 ≤ length other.now }
    ensures { IsTrue result → take 8 (drop place one.now) ≡ take 8 (drop place other.now) }
{
    LittleEndian::read_u64(&one[place..]) == LittleEndian::read_u64(&other[place..])
}
