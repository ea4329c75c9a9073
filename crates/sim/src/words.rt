//! The words of a line: numbers, hexadecimal digits, ends and labels.

ghost use Rattle.std.specs.Prelude.{◌≡◌, ◌≤◌, IfSome, true};
ghost use Rattle.std.specs.List.{list_all};
ghost use Rattle.std.specs.Char.{is_ascii_digit};
ghost use Rattle.std.specs.Str.Parse.{digits_value};

use crate::fault::ScriptLineFault;
use crate::label::Label;
use end_settings::Side;
use hex::FromHexError;
use std::alloc::Allocator;

/// The words of a line, separated by one or more spaces.
#[derive(Drop)]
pub struct Words<'a> {
    /// What is left of the line.
    rest: &'a str,
}

impl<'a> Words<'a> {
    /// Returns the words of a line, from the first one.
    pub fn new(line: &'a str) -> Self {
        Words { rest: line }
    }

    /// Returns the next word, if there is one.
    pub fn next(&mut self) -> Option<&'a str> {
        let spaces = self
            .rest
            .as_bytes()
            .iter()
            .position(|octet| *octet != b' ')?;
        let (_, rest) = self.rest.split_at_checked(spaces)?;
        let (word, rest) = cut(rest, b' ');
        self.rest = rest.unwrap_or("");
        Some(word)
    }

    /// Returns the next word, which the line must have.
    pub fn word(&mut self) -> Result<&'a str, ScriptLineFault> {
        self.next().ok_or(ScriptLineFault::Unreadable)
    }

    /// Reads the next word as an end.
    pub fn side(&mut self) -> Result<Side, ScriptLineFault> {
        match self.word()? {
            "il" => Ok(Side::Interlocking),
            "fe" => Ok(Side::FieldElement),
            _ => Err(ScriptLineFault::Unreadable),
        }
    }

    /// Reads the next word as a number of at most `most`.
    pub fn number(&mut self, most: u64) -> Result<u64, ScriptLineFault> {
        number(self.word()?, most).ok_or(ScriptLineFault::Unreadable)
    }

    /// Reads the next word as a message type: four hexadecimal digits.
    pub fn kind(&mut self) -> Result<u16, ScriptLineFault> {
        let mut octets = [0; 2];
        match hex::decode_to_slice(self.word()?, &mut octets) {
            Ok(()) => Ok(u16::from_be_bytes(octets)),
            Err(_) => Err(ScriptLineFault::Unreadable),
        }
    }

    /// Reads the next word as one byte: two hexadecimal digits.
    pub fn octet(&mut self) -> Result<u8, ScriptLineFault> {
        let mut octets = [0; 1];
        match hex::decode_to_slice(self.word()?, &mut octets) {
            Ok(()) => Ok(octets[0]),
            Err(_) => Err(ScriptLineFault::Unreadable),
        }
    }

    /// Reads the next word as bytes: two hexadecimal digits for each, or `-` for none.
    pub fn octets<A: Allocator + Copy>(&mut self, alloc: A) -> Result<Vec<u8, A>, ScriptLineFault> {
        let word = self.word()?;
        if word == "-" {
            return Ok(Vec::new(alloc));
        }
        match hex::decode(alloc, word) {
            Ok(octets) => Ok(octets),
            Err(FromHexError::OutOfMemory) => Err(ScriptLineFault::Memory),
            Err(_) => Err(ScriptLineFault::Unreadable),
        }
    }

    /// Reads the next word as a label: `i` or `f`, and digits.
    pub fn label(&mut self) -> Result<Label, ScriptLineFault> {
        let word = self.word()?;
        let (side, digits) = if let Some(digits) = word.strip_prefix('i') {
            (Side::Interlocking, digits)
        } else if let Some(digits) = word.strip_prefix('f') {
            (Side::FieldElement, digits)
        } else {
            return Err(ScriptLineFault::Unreadable);
        };
        if digits.is_empty() || !is_digits(digits) {
            return Err(ScriptLineFault::Unreadable);
        }
        Ok(Label {
            side,
            place: label_place(digits),
        })
    }

    /// Reads all further words as numbers of at most `most`.
    pub fn numbers<A: Allocator + Copy>(
        &mut self,
        alloc: A,
        most: u64,
    ) -> Result<Vec<u64, A>, ScriptLineFault> {
        let mut numbers = Vec::new(alloc);
        for _ in 0..self.rest.len() {
            let Some(word) = self.next() else {
                break;
            };
            numbers.push(number(word, most).ok_or(ScriptLineFault::Unreadable)?)?;
        }
        Ok(numbers)
    }

    /// Checks that the line has no further word.
    pub fn end(&mut self) -> Result<(), ScriptLineFault> {
        match self.next() {
            None => Ok(()),
            Some(_) => Err(ScriptLineFault::Unreadable),
        }
    }
}

/// Cuts a text at the first such character of ASCII: returns what is before it, and what is after it, or `None` if the
/// text has no such character.
pub fn cut(text: &str, at: u8) -> (&str, Option<&str>) {
    let Some(place) = text.as_bytes().iter().position(|octet| *octet == at) else {
        return (text, None);
    };
    match (
        text.split_at_checked(place),
        text.split_at_checked(place + 1),
    ) {
        (Some((before, _)), Some((_, after))) => (before, Some(after)),
        _ => (text, None),
    }
}

/// Reads a decimal number of at most `most`.
pub fn number(word: &str, most: u64) -> Option<u64>
    // If a number is returned, the word has only decimal digits, and the number is their value.
    ensures found { IfSome result (λ n. (list_all is_ascii_digit word.now ≡ true) × (digits_value 10 word.now ≡ n)) }
    // The returned number is at most `most`.
    ensures bound { IfSome result (λ n. n ≤ most) }
{
    if !is_digits(word) {
        return None;
    }
    match word.parse::<u64>() {
        Ok(number) if number <= most => Some(number),
        _ => None,
    }
}

/// Returns the place of a label's PDU. If no PDU can have a label of these digits, the place is one that no PDU has.
fn label_place(digits: &str) -> usize {
    if digits.starts_with('0') {
        return usize::MAX;
    }
    match digits.parse::<usize>() {
        Ok(number) => number.saturating_sub(1),
        Err(_) => usize::MAX,
    }
}

/// Returns `true` if a word has only decimal digits.
fn is_digits(word: &str) -> bool
    ensures { result ≡ list_all is_ascii_digit word.now }
{
    word.as_bytes().iter().all(|octet| is_digit(*octet))
}

/// Returns `true` for a decimal digit.
fn is_digit(octet: u8) -> bool
    ensures { result ≡ is_ascii_digit octet }
{
    octet.is_ascii_digit()
}
