//! Creating and reading names.

ghost use Rattle.std.specs.Prelude.{◌≡◌, IfOk, IfErr, IsOkAnd};
ghost use Rattle.std.specs.List.{list_all};
ghost use Rattle.std.specs.Result.{result_ok};
ghost use Rattle.pdi_session.specs.telegram.Names.{IsName, FirstNameFault, is_character, name_read};
ghost use Rattle.pdi_session.specs.telegram.Places.{name_found};
ghost use Rattle.pdi_session.specs.telegram.Tele.{characters_of, name_of, owned_characters};

use super::{FILLING, NAME_LENGTH, Name, NameFault, OwnedName};
use arrayvec::ArrayString;

/// Returns true if a byte is allowed in a name.
fn fits_name(octet: u8) -> bool
    ensures { result ≡ is_character octet }
{
    0x21 <= octet && octet <= 0x7e && octet != FILLING
}

/// Returns true if every byte is allowed in a name.
fn fit_name(octets: &[u8]) -> bool
    ensures { result ≡ list_all is_character octets.now }
{
    octets.iter().all(|octet| fits_name(*octet))
}

impl<'a> Name<'a> {
    /// Creates a name from a text. It is a view of the text; nothing is copied.
    ///
    /// # Errors
    ///
    /// Returns the first that applies:
    ///
    /// - `Empty` if the text is empty;
    /// - `Long` if it has more than 20 bytes;
    /// - `Character` if a byte is not in 0x21 to 0x7e, or is the filling 0x5f.
    pub fn new(text: &'a str) -> Result<Self, NameFault>
        // If `Name::new` succeeds, the text is a valid name, and its characters are those of the result.
        ensures found { IfOk result (λ name. (characters_of name ≡ text.now) × IsName text.now) }

        // Every text that is a valid name is accepted, and the result has its characters.
        ensures only { IsName text.now → IsOkAnd result (λ name. characters_of name ≡ text.now) }

        // If `Name::new` fails, it returns the first fault in the order above, and the text has that fault.
        ensures fault { IfErr result (FirstNameFault text.now) }

        // The characters or the fault are those that `name_read` computes from the text.
        ensures exact { name_of result ≡ name_read text.now }
    {
        if text.is_empty() {
            return Err(NameFault::Empty);
        }
        if text.len() > NAME_LENGTH {
            return Err(NameFault::Long);
        }
        if !fit_name(text.as_bytes()) {
            return Err(NameFault::Character);
        }
        Ok(Name { characters: text })
    }

    /// Creates a name from bytes, or returns `None` if they are not a valid name.
    pub(super) fn of_octets(octets: &'a [u8]) -> Option<Self>
        ensures { name_found result ≡ result_ok (name_read octets.now) }
    {
        if octets.is_empty() || octets.len() > NAME_LENGTH || !fit_name(octets) {
            return None;
        }
        // The characters allowed in a name are ASCII, so the bytes are UTF-8: the precondition, proved here. The
        // safe function would test them a second time.
        let characters = unsafe { str::from_utf8_unchecked(octets) };
        Some(Name { characters })
    }

    /// Creates a name from bytes that the caller knows to be valid.
    pub(super) fn of_valid(octets: &'a [u8]) -> Self
        requires { IsName octets.now }
        ensures { characters_of result ≡ octets.now }
    {
        // Valid names are ASCII, as in `of_octets`.
        let characters = unsafe { str::from_utf8_unchecked(octets) };
        Name { characters }
    }

    /// Returns the characters, without the filling.
    pub fn as_str(self) -> &'a str
        // `as_str` returns the characters of the name.
        ensures characters { result.now ≡ characters_of self.entry }
        // Every `Name` has 1 to 20 characters 0x21 to 0x7e except 0x5f.
        ensures well_formed { IsName result.now }
    {
        self.characters
    }
}

impl OwnedName {
    /// Copies a name.
    pub fn new(name: Name<'_>) -> Self
        // The copy has the characters of the name it was made from.
        ensures { owned_characters result ≡ characters_of name.entry }
    {
        let mut text = ArrayString::new();
        text.try_push_str(name.as_str()).unwrap();
        OwnedName { text }
    }

    /// Returns the name as a view.
    pub fn name(&self) -> Name<'_>
        // `OwnedName::name` returns a name with the copied characters.
        ensures { characters_of result ≡ owned_characters self.now }
    {
        Name {
            characters: self.text.as_str(),
        }
    }
}
