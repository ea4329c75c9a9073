//! A reader for each kind of key.

ghost use Rattle.std.specs.Prelude.{◌≡◌, ◌≤◌, IfOk, IfSome, length, option_map, option_and_then};
ghost use Rattle.toml.specs.View.{view, items_view};
ghost use Rattle.toml.specs.Data.{as_array};
ghost use Rattle.std.specs.Prelude.{Some};
ghost use Rattle.pdi_session.specs.telegram.Tele.{owned_characters};
ghost use Rattle.settings_file.specs.Readers.{wrong_at, number_at, code_at, first_number_at, name_at, initial_value_at, checksum_at, octets_of, short_octets, different_octets, few_octets, if_different, one_version, il_versions, fe_versions, versions_at, are_different, contains_number, read_as};
ghost use Rattle.end_settings.specs.Lists.{versions_in, checksum_in};
ghost use Rattle.pdi_session.specs.declared.TheConstants.{VERSIONS_MAX};
ghost use Rattle.settings_file.specs.declared.keys.Key.TheVariants as key_of;

use crate::keys::{ExpectedValue, Key, KeyFault, PresentValue};
use arrayvec::ArrayVec;
use end_settings::{Checksum, Side, Versions};
use md4::INITIAL_VALUE;
use octets::places::u32_at;
use pdi_session::telegram::{Name, OwnedName};
use pdi_session::{CHECKSUM_MAX, VERSIONS_MAX};
use toml::Value;

/// Returns the fault at a key, with the value that the table has there.
pub fn wrong(table: &Value, key: Key, expected: ExpectedValue) -> KeyFault
    // `wrong` returns a fault with this key, the value it expects and the value found: nothing, a whole number, or
    // another value.
    ensures { result ≡ wrong_at (view table.now) key expected }
{
    let found = match table.get(key.text()) {
        None => PresentValue::Nothing,
        Some(value) => match value.as_integer() {
            Some(number) => PresentValue::Number(number),
            None => PresentValue::Other,
        },
    };
    KeyFault {
        key,
        expected,
        found,
    }
}

/// Reads a whole number in a range. A default is tested like a written number.
pub fn number(
    table: &Value,
    key: Key,
    low: u64,
    high: u64,
    default: Option<u64>,
) -> Result<u64, KeyFault>
    // `number` returns the whole number at the key, or the default, if it is from `low` to `high`; else the fault
    // of this range.
    ensures read { result ≡ number_at (view table.now) key low high default }
    // The number that `number` returns is at most `high`.
    ensures within { IfOk result (λ n. n ≤ high) }
{
    let expected = ExpectedValue::Whole { low, high };
    let fault = wrong(table, key, expected);
    let number = match table.get(key.text()) {
        Some(value) => match value.as_integer() {
            Some(whole) => match u64::try_from(whole) {
                Ok(number) => number,
                Err(_) => return Err(fault),
            },
            None => return Err(fault),
        },
        None => match default {
            Some(number) => number,
            None => return Err(fault),
        },
    };
    if low <= number && number <= high {
        Ok(number)
    } else {
        Err(fault)
    }
}

/// Reads a number of one byte.
pub fn octet(table: &Value, key: Key, default: u8) -> Result<u8, KeyFault>
    // `octet` returns the number at the key from 0 to 255, or the default, or the fault of this range.
    ensures { result ≡ number_at (view table.now) key 0 255 (Some default) }
{
    match number(table, key, 0, 255, Some(u64::from(default))) {
        Ok(number) => Ok(number as u8),
        Err(fault) => Err(fault),
    }
}

/// Reads a number of four bytes that has no default.
pub fn identifier(table: &Value, key: Key) -> Result<u32, KeyFault>
    // `identifier` returns the number at the key from 0 to 4,294,967,295, or the fault of this range; the key has
    // no default.
    ensures { result ≡ number_at (view table.now) key 0 4294967295 None }
{
    match number(table, key, 0, 4_294_967_295, None) {
        Ok(number) => Ok(number as u32),
        Err(fault) => Err(fault),
    }
}

/// Reads the first sequence number: 1 if the key is missing, `None` if it is to be drawn at random.
pub fn first_number(table: &Value) -> Result<Option<u32>, KeyFault>
    // `first_number` returns the number of four bytes at `first_sn`, `None` for the text `random`, 1 without the
    // key, and a fault for anything else.
    ensures { result ≡ first_number_at (view table.now) key_of.FirstSn }
{
    let key = Key::FirstSn;
    let fault = wrong(table, key, ExpectedValue::FirstNumber);
    let Some(value) = table.get(key.text()) else {
        return Ok(Some(1));
    };
    if let Some(text) = value.as_str() {
        return if text == "random" {
            Ok(None)
        } else {
            Err(fault)
        };
    }
    let Some(whole) = value.as_integer() else {
        return Err(fault);
    };
    match u32::try_from(whole) {
        Ok(number) => Ok(Some(number)),
        Err(_) => Err(fault),
    }
}

/// Reads the length of the safety code in bytes; 8 if the key is missing.
pub fn code(table: &Value) -> Result<u64, KeyFault>
    // `code` returns 8 or 16 as the key has it, 8 without the key, and a fault for anything else.
    ensures { result ≡ code_at (view table.now) key_of.Code }
{
    let key = Key::Code;
    let Some(value) = table.get(key.text()) else {
        return Ok(8);
    };
    match value.as_integer() {
        Some(8) => Ok(8),
        Some(16) => Ok(16),
        _ => Err(wrong(table, key, ExpectedValue::CodeLength)),
    }
}

/// Reads a name.
pub fn name(table: &Value, key: Key) -> Result<OwnedName, KeyFault>
    // `name` returns the characters of the text at the key if they are a name, and else a fault.
    ensures { read_as owned_characters result ≡ name_at (view table.now) key }
{
    let fault = wrong(table, key, ExpectedValue::Name);
    let Some(value) = table.get(key.text()) else {
        return Err(fault);
    };
    let Some(text) = value.as_str() else {
        return Err(fault);
    };
    match Name::new(text) {
        Ok(name) => Ok(OwnedName::new(name)),
        Err(_) => Err(fault),
    }
}

/// Reads the four words of an initial value from 32 hex digits, the least significant byte of each word first;
/// that of RFC 1320 if the key is missing.
pub fn initial_value(table: &Value) -> Result<[u32; 4], KeyFault>
    // `initial_value` returns the four words that 32 hex digits at the key spell, those of RFC 1320 without the
    // key, and a fault for anything else.
    ensures { result ≡ initial_value_at (view table.now) key_of.InitialValue }
{
    let key = Key::InitialValue;
    let fault = wrong(table, key, ExpectedValue::SixteenOctets);
    let Some(value) = table.get(key.text()) else {
        return Ok(INITIAL_VALUE);
    };
    let Some(text) = value.as_str() else {
        return Err(fault);
    };
    let mut octets = [0u8; 16];
    match hex::decode_to_slice(text, &mut octets) {
        Ok(()) => Ok([
            u32_at(&octets, 0),
            u32_at(&octets, 4),
            u32_at(&octets, 8),
            u32_at(&octets, 12),
        ]),
        Err(_) => Err(fault),
    }
}

/// Reads at most 16 bytes of hex digits.
fn short(text: &str) -> Option<Checksum>
    ensures { option_map checksum_in result ≡ short_octets text.now }
{
    let mut room = [0u8; CHECKSUM_MAX];
    let size = text.len() / 2;
    if size > CHECKSUM_MAX {
        return None;
    }
    let octets = &mut room[..size];
    let Ok(()) = hex::decode_to_slice(text, octets) else {
        return None;
    };
    Checksum::new(octets)
}

/// Reads a checksum of at most 16 bytes; empty if the key is missing.
pub fn checksum(table: &Value) -> Result<Checksum, KeyFault>
    // `checksum` returns the at most 16 bytes that the text at the key spells, no bytes without the key, and a
    // fault for anything else.
    ensures { read_as checksum_in result ≡ checksum_at (view table.now) key_of.Checksum }
{
    let key = Key::Checksum;
    let fault = wrong(table, key, ExpectedValue::UpToSixteenOctets);
    let text = match table.get(key.text()) {
        None => "",
        Some(value) => match value.as_str() {
            Some(text) => text,
            None => return Err(fault),
        },
    };
    match short(text) {
        Some(checksum) => Ok(checksum),
        None => Err(fault),
    }
}

/// Returns whether a number is among others.
fn is_among(number: u8, others: &[u8]) -> bool
    ensures { result ≡ contains_number number others.now }
{
    match others {
        [] => false,
        [first, rest @ ..] => number == *first || is_among(number, rest),
    }
}

/// Returns whether no two numbers are equal.
fn all_differ(numbers: &[u8]) -> bool
    ensures { result ≡ are_different numbers.now }
{
    match numbers {
        [] => true,
        [first, rest @ ..] => !is_among(*first, rest) && all_differ(rest),
    }
}

/// Reads a list of numbers of one byte.
fn octet_list(items: &[Value]) -> Option<ArrayVec<u8, VERSIONS_MAX>>
    requires { length items.now ≤ VERSIONS_MAX }
    ensures { option_map (λ v. v.items) result ≡ octets_of (items_view items.now) }
{
    let mut list = ArrayVec::new();
    for item in items {
        let whole = item.as_integer()?;
        let Ok(number) = u8::try_from(whole) else {
            return None;
        };
        list.push(number);
    }
    Some(list)
}

/// Reads one to four numbers of one byte.
#[tactic(auto, using(crate::proofs::Lengths::items_length_view))]
fn collect_versions(items: &[Value]) -> Option<ArrayVec<u8, VERSIONS_MAX>>
    ensures { option_map (λ v. v.items) result ≡ few_octets (items_view items.now) }
{
    if items.is_empty() || items.len() > VERSIONS_MAX {
        return None;
    }
    octet_list(items)
}

/// Returns the versions, if no two are equal.
fn if_differing(list: &[u8]) -> Option<Versions>
    requires { length list.now ≤ VERSIONS_MAX }
    ensures { option_map versions_in result ≡ if_different list.now }
{
    if all_differ(list) {
        Versions::new(list)
    } else {
        None
    }
}

/// Reads one to four different numbers of one byte.
fn different(value: &Value) -> Option<Versions>
    ensures { option_map versions_in result ≡ option_and_then different_octets (as_array (view value.now)) }
{
    let items = value.as_array()?;
    let list = collect_versions(items.as_slice())?;
    if_differing(list.as_slice())
}

/// Reads `version`; 1 if the key is missing.
fn one(table: &Value) -> Result<Versions, KeyFault>
    ensures { read_as versions_in result ≡ one_version (view table.now) }
{
    let number = octet(table, Key::Version, 1)?;
    Ok(Versions::new(&[number]).unwrap())
}

/// Reads the version of an interlocking.
fn for_interlocking(table: &Value) -> Result<Versions, KeyFault>
    ensures { read_as versions_in result ≡ il_versions (view table.now) }
{
    if table.get(Key::Versions.text()).is_some() {
        return Err(wrong(table, Key::Versions, ExpectedValue::Absent));
    }
    one(table)
}

/// Reads the versions of a field element, from one of the two keys.
fn for_field_element(table: &Value) -> Result<Versions, KeyFault>
    ensures { read_as versions_in result ≡ fe_versions (view table.now) }
{
    let Some(value) = table.get(Key::Versions.text()) else {
        return one(table);
    };
    if table.get(Key::Version.text()).is_some() {
        return Err(wrong(table, Key::Version, ExpectedValue::Absent));
    }
    match different(value) {
        Some(versions) => Ok(versions),
        None => Err(wrong(table, Key::Versions, ExpectedValue::DifferentVersions)),
    }
}

/// Reads the versions of an end: one for an interlocking, one to four for a field element.
pub fn versions(side: Side, table: &Value) -> Result<Versions, KeyFault>
    // `versions` returns the versions of an end of this side, or the fault of `version` or `versions`.
    ensures { read_as versions_in result ≡ versions_at side (view table.now) }
{
    match side {
        Side::Interlocking => for_interlocking(table),
        Side::FieldElement => for_field_element(table),
    }
}
