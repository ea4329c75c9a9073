//! Readers of lists, which allocate.

ghost use Rattle.std.specs.Prelude.{◌≡◌, ◌+◌, ◌*◌, Some, Ok, Err, IfOk, IfErr, map, length, string_bytes, ◌≤◌, option_and_then, option_map};
ghost use Rattle.toml.specs.View.{view, items_view};
ghost use Rattle.settings_file.specs.Readers.{texts_of, few_texts, addresses_at, put_of, puts_of, puts_at, IsFaultOf};
ghost use Rattle.settings_file.specs.declared.keys.Key.TheVariants as key_of;
ghost use Rattle.settings_file.specs.Groups.{put_seen};

use crate::keys::{ExpectedValue, Key, ReadFault};
use crate::readers::wrong;
use crate::values::PutEntry;
use hex::FromHexError;
use octets::limits::CHANNELS_MAX;
use std::alloc::{AllocError, Global};
use toml::Value;

/// Copies the texts of a list; `None` if an item is not a text.
fn texts(alloc: Global, items: &[Value]) -> Result<Option<Vec<String>>, AllocError>
    ensures { IfOk result (λ r. option_map (λ v. map string_bytes v.items) r ≡ texts_of (items_view items.now)) }
{
    let mut all = Vec::new(alloc);
    for item in items {
        let Some(text) = item.as_str() else {
            return Ok(None);
        };
        all.push(String::from_str(alloc, text)?)?;
    }
    Ok(Some(all))
}

/// Copies one to four texts. It allocates nothing for other lists.
#[tactic(auto, using(crate::proofs::Lengths::items_length_view))]
fn read_texts(alloc: Global, items: &[Value]) -> Result<Option<Vec<String>>, AllocError>
    ensures { IfOk result (λ r. option_map (λ v. map string_bytes v.items) r ≡ few_texts (items_view items.now)) }
{
    if items.is_empty() || items.len() > CHANNELS_MAX {
        return Ok(None);
    }
    texts(alloc, items)
}

/// Reads a list of one to four addresses, as texts.
///
/// # Errors
///
/// - `Key` if the key is missing or has another value;
/// - `Memory` if an allocation fails.
pub fn addresses(alloc: Global, table: &Value, key: Key) -> Result<Vec<String>, ReadFault>
    // If `addresses` succeeds, its result is the list of texts at the key.
    ensures ok { IfOk result (λ v. addresses_at (view table.now) key ≡ Ok (map string_bytes v.items)) }
    // If `addresses` fails with `Key`, it is the fault of the list at the key.
    ensures err { IfErr result (IsFaultOf (addresses_at (view table.now) key)) }
{
    let fault = ReadFault::Key(wrong(table, key, ExpectedValue::Addresses));
    let Some(value) = table.get(key.text()) else {
        return Err(fault);
    };
    let Some(items) = value.as_array() else {
        return Err(fault);
    };
    match read_texts(alloc, items.as_slice()) {
        Ok(Some(list)) => Ok(list),
        Ok(None) => Err(fault),
        Err(refused) => Err(ReadFault::Memory(refused)),
    }
}

/// Reads a telegram from its text: the message type in four hex digits, a colon, and the payload in hex digits.
/// Returns `None` if the bytes are not such a text.
///
/// # Errors
///
/// - Returns the error if an allocation fails.
pub fn put(alloc: Global, octets: &[u8]) -> Result<Option<PutEntry>, AllocError>
    // If `put` succeeds, it returns exactly the telegram whose message type and payload the bytes spell, with a
    // colon between them, or `None` if they spell none.
    ensures { IfOk result (λ r. option_map put_seen r ≡ put_of octets.now) }
{
    if octets.len() < 5 || octets[4] != b':' {
        return Ok(None);
    }
    let mut kind = [0u8; 2];
    let Ok(()) = hex::decode_to_slice(&octets[..4], &mut kind) else {
        return Ok(None);
    };
    match hex::decode(alloc, &octets[5..]) {
        Ok(payload) => Ok(Some(PutEntry {
            kind: number_of(kind[0], kind[1]),
            payload,
        })),
        Err(FromHexError::OutOfMemory) => Err(AllocError),
        Err(_) => Ok(None),
    }
}

/// Returns the number of two bytes, the most significant one first.
fn number_of(high: u8, low: u8) -> u16
    ensures { result ≡ high * 256 + low }
{
    u16::from(high) * 256 + u16::from(low)
}

/// Reads the telegrams of a list; `None` if an item is not one.
fn put_list(alloc: Global, items: &[Value]) -> Result<Option<Vec<PutEntry>>, AllocError>
    ensures { IfOk result (λ r. option_map (λ v. map put_seen v.items) r ≡ puts_of (items_view items.now)) }
{
    let mut all = Vec::new(alloc);
    for item in items {
        let Some(text) = item.as_str() else {
            return Ok(None);
        };
        let Some(put) = put(alloc, text.as_bytes())? else {
            return Ok(None);
        };
        all.push(put)?;
    }
    Ok(Some(all))
}

/// Reads the telegrams that an end is to put; an empty list if the key is missing.
///
/// # Errors
///
/// - `Key` if the value is not a list of telegrams;
/// - `Memory` if an allocation fails.
pub fn puts(alloc: Global, table: &Value) -> Result<Vec<PutEntry>, ReadFault>
    // If `puts` succeeds, its result is the list of telegrams at `puts`, empty if the key is missing.
    ensures ok { IfOk result (λ v. puts_at (view table.now) key_of.Puts ≡ Ok (map put_seen v.items)) }
    // If `puts` fails with `Key`, it is the fault of the value at `puts`.
    ensures err { IfErr result (IsFaultOf (puts_at (view table.now) key_of.Puts)) }
{
    let key = Key::Puts;
    let fault = ReadFault::Key(wrong(table, key, ExpectedValue::Puts));
    let Some(value) = table.get(key.text()) else {
        return Ok(Vec::new(alloc));
    };
    let Some(items) = value.as_array() else {
        return Err(fault);
    };
    match put_list(alloc, items.as_slice()) {
        Ok(Some(list)) => Ok(list),
        Ok(None) => Err(fault),
        Err(refused) => Err(ReadFault::Memory(refused)),
    }
}
