//! All faults of a settings file, not only the first.
//!
//! Each fault is judged by itself: a key whose range depends on another key (T_h below T_max, `peer_id` other than
//! `id`) only if that one is valid.

ghost use Rattle.std.specs.Prelude.{◌≡◌, ◌+◌, ◌^◌, ◌<◌, ◌++◌, ◌∷◌, [], if◌then◌else◌, ℕ, Option, None, Some, codes, length, map, option_and_then, option_map, string_bytes, List, IfOk, OnOk};
ghost use Rattle.toml.specs.Data.{get, table};
ghost use Rattle.toml.specs.View.{items_view, table_view, view};
ghost use Rattle.std.specs.Option.{option_map_or};
ghost use Rattle.end_settings.specs.declared.Side.TheVariants as side_of;
ghost use Rattle.settings_file.specs.declared.keys.Key.TheVariants as key_of;
ghost use Rattle.settings_file.specs.Groups.{limit_at};
ghost use Rattle.settings_file.specs.FileContents.{is_end, is_known, no_table, unknown};
ghost use Rattle.settings_file.specs.Findings.{address_faults, at_entry, at_its_key, end_findings, entry_faults, fault_at, faults_at, finding_seen, findings_of, heartbeat_fault, if_any, is_put, members_findings, required_table_findings, pair_findings, peer_fault, plain_finding, put_faults, short_text, table_findings, text_in, unknown_in};

use crate::Subcommand;
use crate::file_contents::{document, knows, names_end, unknown_fault};
use crate::groups::limit;
use crate::keys::{ExpectedValue, Key, KeyFault, PresentValue, ReadFault, SettingsFault, prefix};
use crate::lists::{addresses, put, puts};
use crate::readers::{
    checksum, code, first_number, identifier, initial_value, name, octet, versions, wrong,
};
use end_settings::Side;
use std::alloc::{AllocError, Global};
use std::fmt;
use toml::{Table, Value};

/// The longest text of a file that is quoted, in bytes.
pub const TEXT_MOST: usize = 80;

/// The keys that are not lists, in the order in which they are read.
const PLAIN_KEYS: [Key; 18] = [
    Key::Id,
    Key::PeerId,
    Key::Name,
    Key::PeerName,
    Key::Protocol,
    Key::Versions,
    Key::Code,
    Key::Checksum,
    Key::InitialValue,
    Key::FirstSn,
    Key::NSendmax,
    Key::NMaxpacket,
    Key::Deferral,
    Key::TMax,
    Key::THeartbeat,
    Key::TSeq,
    Key::Mwa,
    Key::PduLimit,
];

/// The fault of lists of addresses that differ in length.
const UNEQUAL: KeyFault = KeyFault {
    key: Key::Remote,
    expected: ExpectedValue::Addresses,
    found: PresentValue::Other,
};

/// A fault of a file.
#[derive(Debug, Drop)]
pub struct Finding {
    /// The fault. The TOML parser returns no places of values, so a key names its line.
    pub fault: SettingsFault,
    /// The entry of a list that has the fault, from 1.
    pub entry: Option<usize>,
    /// The text that the file has there, if it is a text of at most 80 bytes.
    pub text: Option<String>,
}

/// Returns all faults in the text of a settings file for the ends that a word runs: if it is not TOML, only that.
/// Otherwise unknown keys come first, then keys in the order in which they are read, then each entry of `puts`
/// that is not a telegram; in a file for both ends `il` comes before `fe`. Whether a text of `local` or `remote`
/// is an address shows only when channels are opened.
///
/// # Errors
///
/// - Returns the error if an allocation fails.
pub fn findings(alloc: Global, word: Subcommand, text: &str) -> Result<Vec<Finding>, AllocError>
    // If `findings` succeeds, it returns exactly the list of all faults in the text for the word, in its order,
    // each with its entry of a list and its short text. The line in a text that is not TOML is not stated here.
    ensures { IfOk result (λ all. map finding_seen all.items ≡ findings_of word text.now) }
{
    let mut list = Vec::new(alloc);
    match document(alloc, text) {
        Ok(table) => in_file(alloc, word, table, &mut list)?,
        Err(SettingsFault::Memory(refused)) => return Err(refused),
        Err(fault) => add(fault, &mut list)?,
    }
    Ok(list)
}

/// Adds the faults of a whole file.
fn in_file(
    alloc: Global,
    word: Subcommand,
    table: Table,
    list: &mut Vec<Finding>,
) -> Result<(), AllocError>
    ensures { OnOk result (map finding_seen list.new.items ≡ map finding_seen list.old.items ++ members_findings word (table_view table)) }
{
    match word {
        Subcommand::Il => in_end(alloc, Side::Interlocking, None, &Value::Table(table), list),
        Subcommand::Fe => in_end(alloc, Side::FieldElement, None, &Value::Table(table), list),
        Subcommand::Pair => in_pair(alloc, table, list),
    }
}

/// Adds the faults of a file for both ends.
fn in_pair(alloc: Global, table: Table, list: &mut Vec<Finding>) -> Result<(), AllocError>
    ensures { OnOk result (map finding_seen list.new.items ≡ map finding_seen list.old.items ++ pair_findings (table_view table)) }
{
    find_strange(alloc, &table, list)?;
    let value = Value::Table(table);
    in_named(alloc, Side::Interlocking, &value, list)?;
    in_named(alloc, Side::FieldElement, &value, list)
}

/// Adds the faults of the table of an end in a file for both ends.
fn in_named(
    alloc: Global,
    side: Side,
    file: &Value,
    list: &mut Vec<Finding>,
) -> Result<(), AllocError>
    ensures { OnOk result (map finding_seen list.new.items ≡ map finding_seen list.old.items ++ required_table_findings side (view file.now)) }
{
    let found = match side {
        Side::Interlocking => file.get("il"),
        Side::FieldElement => file.get("fe"),
    };
    match found {
        Some(table) => in_end(alloc, side, Some(side), table, list),
        None => add(SettingsFault::NoTable(side), list),
    }
}

/// Adds the faults of the keys of an end.
fn in_end(
    alloc: Global,
    side: Side,
    named: Option<Side>,
    value: &Value,
    list: &mut Vec<Finding>,
) -> Result<(), AllocError>
    ensures { OnOk result (map finding_seen list.new.items ≡ map finding_seen list.old.items ++ end_findings side named (view value.now)) }
{
    let Some(table) = value.as_table() else {
        return add(SettingsFault::NoTable(side), list);
    };
    find_unknown(alloc, named, table, list)?;
    find_plain(alloc, side, named, value, &PLAIN_KEYS, list)?;
    find_addresses(alloc, named, value, list)?;
    find_puts(alloc, named, value, list)
}

/// Adds a fault without entry or text.
fn add(fault: SettingsFault, list: &mut Vec<Finding>) -> Result<(), AllocError>
    ensures { OnOk result (list.new.items ≡ list.old.items ++ record { fault = fault; entry = None; text = None } ∷ []) }
{
    list.push(Finding {
        fault,
        entry: None,
        text: None,
    })?;
    Ok(())
}

/// Adds the keys that no end has.
fn find_unknown(
    alloc: Global,
    named: Option<Side>,
    table: &Table,
    list: &mut Vec<Finding>,
) -> Result<(), AllocError>
    ensures { OnOk result (map finding_seen list.new.items ≡ map finding_seen list.old.items ++ unknown_in is_known named (table_view table.now)) }
{
    for (key, _value) in table {
        if !knows(key.as_str()) {
            add_unknown(alloc, named, key.as_str(), list)?;
        }
    }
    Ok(())
}

/// Adds the keys of a file for both ends that are not tables of ends.
fn find_strange(alloc: Global, table: &Table, list: &mut Vec<Finding>) -> Result<(), AllocError>
    ensures { OnOk result (map finding_seen list.new.items ≡ map finding_seen list.old.items ++ unknown_in is_end None (table_view table.now)) }
{
    for (key, _value) in table {
        if !names_end(key.as_str()) {
            add_unknown(alloc, None, key.as_str(), list)?;
        }
    }
    Ok(())
}

/// Adds an unknown key.
fn add_unknown(
    alloc: Global,
    named: Option<Side>,
    key: &str,
    list: &mut Vec<Finding>,
) -> Result<(), AllocError>
    ensures { OnOk result (map finding_seen list.new.items ≡ map finding_seen list.old.items ++ plain_finding (unknown named key.now) ∷ []) }
{
    match unknown_fault(alloc, named, key) {
        SettingsFault::Memory(refused) => Err(refused),
        fault => add(fault, list),
    }
}

/// Adds the faults at keys that are not lists.
fn find_plain(
    alloc: Global,
    side: Side,
    named: Option<Side>,
    table: &Value,
    keys: &[Key],
    list: &mut Vec<Finding>,
) -> Result<(), AllocError>
    ensures { OnOk result (map finding_seen list.new.items ≡ map finding_seen list.old.items ++ faults_at side named (view table.now) keys.now) }
{
    let [key, others @ ..] = keys else {
        return Ok(());
    };
    find_at(alloc, side, named, table, *key, list)?;
    find_plain(alloc, side, named, table, others, list)
}

/// Adds the fault at one key, if it has one.
fn find_at(
    alloc: Global,
    side: Side,
    named: Option<Side>,
    table: &Value,
    key: Key,
    list: &mut Vec<Finding>,
) -> Result<(), AllocError>
    ensures { OnOk result (map finding_seen list.new.items
        ≡ map finding_seen list.old.items ++ if_any (at_its_key named (view table.now)) (fault_at side (view table.now) key)) }
{
    match fault_of(side, table, key) {
        Some(fault) => add_at(alloc, named, table, fault, list),
        None => Ok(()),
    }
}

/// Returns the fault at a key that is not a list.
fn fault_of(side: Side, table: &Value, key: Key) -> Option<KeyFault>
    ensures { result ≡ fault_at side (view table.now) key }
{
    match key {
        Key::Id => identifier(table, key).err(),
        Key::PeerId => peer_fault(table),
        Key::Name | Key::PeerName => name(table, key).err(),
        Key::Protocol => octet(table, key, 1).err(),
        Key::Versions => versions(side, table).err(),
        Key::Code => code(table).err(),
        Key::Checksum => checksum(table).err(),
        Key::InitialValue => initial_value(table).err(),
        Key::FirstSn => first_number(table).err(),
        Key::THeartbeat => heartbeat_fault(table),
        _ => limit(table, 0, key).err(),
    }
}

/// Returns the fault at `peer_id`.
fn peer_fault(table: &Value) -> Option<KeyFault>
    ensures { result ≡ fault_at side_of.Interlocking (view table.now) key_of.PeerId }
{
    match (identifier(table, Key::Id), identifier(table, Key::PeerId)) {
        (_, Err(fault)) => Some(fault),
        (Ok(id), Ok(peer)) if peer == id => {
            Some(wrong(table, Key::PeerId, ExpectedValue::AnotherId))
        }
        _ => None,
    }
}

/// Returns the fault at `t_h`.
fn heartbeat_fault(table: &Value) -> Option<KeyFault>
    ensures { result ≡ heartbeat_fault (view table.now) (limit_at (view table.now) 0 key_of.TMax) }
{
    match limit(table, 0, Key::TMax) {
        Ok(t_max) => limit(table, t_max, Key::THeartbeat).err(),
        Err(_) => None,
    }
}

/// Adds a fault at a key, with the text that the file has there.
fn add_at(
    alloc: Global,
    named: Option<Side>,
    table: &Value,
    fault: KeyFault,
    list: &mut Vec<Finding>,
) -> Result<(), AllocError>
    ensures { OnOk result (map finding_seen list.new.items ≡ map finding_seen list.old.items ++ at_its_key named (view table.now) fault ∷ []) }
{
    let text = match table.get(fault.key.text()) {
        Some(value) => short_text(alloc, value)?,
        None => None,
    };
    list.push(Finding {
        fault: SettingsFault::Key(named, fault),
        entry: None,
        text,
    })?;
    Ok(())
}

/// Copies a value that is a text and not too long to be quoted.
fn short_text(alloc: Global, value: &Value) -> Result<Option<String>, AllocError>
    ensures { IfOk result (λ t. option_map string_bytes t ≡ text_in (view value.now)) }
{
    match value.as_str() {
        Some(text) if text.len() <= TEXT_MOST => Ok(Some(String::from_str(alloc, text)?)),
        _ => Ok(None),
    }
}

/// Adds the faults at the lists of addresses.
fn find_addresses(
    alloc: Global,
    named: Option<Side>,
    table: &Value,
    list: &mut Vec<Finding>,
) -> Result<(), AllocError>
    ensures { OnOk result (map finding_seen list.new.items ≡ map finding_seen list.old.items ++ address_faults named (view table.now)) }
{
    let local = match addresses(alloc, table, Key::Local) {
        Ok(local) => Some(local.len()),
        Err(ReadFault::Memory(refused)) => return Err(refused),
        Err(ReadFault::Key(fault)) => {
            add_at(alloc, named, table, fault, list)?;
            None
        }
    };
    match addresses(alloc, table, Key::Remote) {
        Ok(remote) if local.is_none() || local == Some(remote.len()) => Ok(()),
        Ok(_) => add_at(alloc, named, table, UNEQUAL, list),
        Err(ReadFault::Memory(refused)) => Err(refused),
        Err(ReadFault::Key(fault)) => add_at(alloc, named, table, fault, list),
    }
}

/// Adds the faults at the telegrams to be put.
fn find_puts(
    alloc: Global,
    named: Option<Side>,
    table: &Value,
    list: &mut Vec<Finding>,
) -> Result<(), AllocError>
    ensures { OnOk result (map finding_seen list.new.items ≡ map finding_seen list.old.items ++ put_faults named (view table.now)) }
{
    let Some(value) = table.get(Key::Puts.text()) else {
        return Ok(());
    };
    match value.as_array() {
        Some(items) => find_entries(alloc, named, items.as_slice(), list),
        None => add_at(
            alloc,
            named,
            table,
            wrong(table, Key::Puts, ExpectedValue::Puts),
            list,
        ),
    }
}

/// Adds the entries that are not telegrams. A loop, since there may be as many as a file has room for.
fn find_entries(
    alloc: Global,
    named: Option<Side>,
    items: &[Value],
    list: &mut Vec<Finding>,
) -> Result<(), AllocError>
    ensures { OnOk result (map finding_seen list.new.items ≡ map finding_seen list.old.items ++ entry_faults named 1 (items_view items.now)) }
{
    let mut place = 1;
    for item in items {
        find_entry(alloc, named, place, item, list)?;
        place += 1;
    }
    Ok(())
}

/// Adds an entry if it is not a telegram.
fn find_entry(
    alloc: Global,
    named: Option<Side>,
    place: usize,
    item: &Value,
    list: &mut Vec<Finding>,
) -> Result<(), AllocError>
    ensures { OnOk result (map finding_seen list.new.items
        ≡ map finding_seen list.old.items ++ (if is_put (view item.now) then [] else at_entry named place (view item.now) ∷ [])) }
{
    if is_telegram(alloc, item)? {
        return Ok(());
    }
    let text = short_text(alloc, item)?;
    list.push(Finding {
        fault: SettingsFault::Key(named, NO_TELEGRAM),
        entry: Some(place),
        text,
    })?;
    Ok(())
}

/// The fault of an entry that is not a telegram.
const NO_TELEGRAM: KeyFault = KeyFault {
    key: Key::Puts,
    expected: ExpectedValue::Put,
    found: PresentValue::Other,
};

/// Returns whether an item is a telegram.
fn is_telegram(alloc: Global, item: &Value) -> Result<bool, AllocError>
    ensures { IfOk result (λ is. is ≡ is_put (view item.now)) }
{
    match item.as_str() {
        Some(text) => Ok(put(alloc, text.as_bytes())?.is_some()),
        None => Ok(false),
    }
}

impl fmt::Display for Finding {
    /// Prints the fault with its entry, and with the quoted text in place of "another value".
    fn fmt<W: fmt::Write>(&self, f: &mut fmt::Formatter<W>) -> fmt::Result {
        let SettingsFault::Key(named, fault) = &self.fault else {
            return write!(f, "{}", self.fault);
        };
        if fault.expected == ExpectedValue::Absent {
            return write!(f, "{}", self.fault);
        }
        write!(f, "{}{}: ", prefix(*named), fault.key.text())?;
        if let Some(entry) = self.entry {
            write!(f, "entry {entry}: ")?;
        }
        write!(f, "expected {}, ", fault.expected)?;
        match &self.text {
            Some(text) => write!(f, "found \"{}\"", text.as_str().escape_debug()),
            None => write!(f, "found {}", fault.found),
        }
    }
}
