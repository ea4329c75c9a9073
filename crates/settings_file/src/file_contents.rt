//! A whole settings file.

ghost use Rattle.std.specs.Prelude.{◌≡◌, Ok, IfOk, IfErr};
ghost use Rattle.std.specs.Option.{option_copied};
ghost use Rattle.toml.specs.View.{view, table_view};
ghost use Rattle.settings_file.specs.Readers.{IsFaultOf};
ghost use Rattle.end_settings.specs.ConfigValue.{settings_of};
ghost use Rattle.settings_file.specs.Groups.{identity_seen, beginning_seen};
ghost use Rattle.settings_file.specs.FileContents.{end_of, config_of, settings_seen, is_known, is_end, first_unknown, first_strange, end_settings, file_settings, pair_settings, il_settings, fe_settings, IsWrong, IsNoDocument, MakesUnknown, MemoryInEnd, MemoryInTable, line_at, as_many, names_identity, names_beginning, names_limit, names_list, word_in, word_of_members};
ghost use Rattle.settings_file.specs.Readers.{read_as};
ghost use Rattle.toml.specs.Errors.{IsMemory, span_start};
ghost use Rattle.toml.specs.Parse.{parse_document};
ghost use Rattle.settings_file.specs.declared.keys.SettingsFault.TheVariants as settings_fault;
ghost use Rattle.std.specs.Prelude.{◌==◌, ◌≤◌, Some, alloc_error, count_by, length, map, option_map, string_bytes};

use crate::Subcommand;
use crate::groups::{read_beginning, read_identity, read_limits};
use crate::keys::{ExpectedValue, Key, KeyFault, PresentValue, ReadFault, SettingsFault};
use crate::lists::{addresses, puts};
use crate::values::{Beginning, Identity, Limits, Settings};
use end_settings::{EndConfig, Side};
use std::alloc::{AllocError, Global};
use toml::{Table, Value};

/// Returns the remote addresses, if there are as many as local ones.
#[tactic(auto, using(crate::proofs::Lengths::length_texts))]
fn match_addresses(local: &[String], remote: Vec<String>) -> Result<Vec<String>, KeyFault>
    ensures { read_as (λ v. map string_bytes v.items) result
        ≡ as_many (map string_bytes local.now) (map string_bytes remote.items) }
{
    if local.len() == remote.as_slice().len() {
        Ok(remote)
    } else {
        Err(KeyFault {
            key: Key::Remote,
            expected: ExpectedValue::Addresses,
            found: PresentValue::Other,
        })
    }
}

/// Reads the settings in a table whose keys are known.
fn read(alloc: Global, side: Side, table: &Value) -> Result<Settings, ReadFault>
    // If `read` succeeds, its result is the settings of this side in the table.
    ensures ok { IfOk result (λ s. end_of side (view table.now) ≡ Ok (settings_seen s)) }
    // If `read` fails with `Key`, it is the first fault of the table.
    ensures err { IfErr result (IsFaultOf (end_of side (view table.now))) }
    // `read` fails with `Memory` only if identity, beginning and limits are valid: they are read before anything
    // is allocated.
    ensures memory { IfErr result (MemoryInEnd side (view table.now)) }
{
    let identity = read_identity(table)?;
    let beginning = read_beginning(side, table)?;
    let limits = read_limits(table)?;
    let local = addresses(alloc, table, Key::Local)?;
    let others = addresses(alloc, table, Key::Remote)?;
    let remote = match_addresses(local.as_slice(), others)?;
    let puts = puts(alloc, table)?;
    Ok(Settings {
        config: configure(&identity, &beginning, &limits, local.len()),
        first_sn: beginning.first_sn,
        local,
        remote,
        puts,
    })
}

/// Returns the settings with which an end is opened.
fn configure(
    identity: &Identity,
    beginning: &Beginning,
    limits: &Limits,
    channels: usize,
) -> EndConfig
    ensures { settings_of result
        ≡ config_of (identity_seen identity.now) (beginning_seen beginning.now) limits.now channels }
{
    EndConfig {
        id: identity.id,
        peer_id: identity.peer_id,
        name: identity.name,
        peer_name: identity.peer_name,
        protocol: identity.protocol,
        versions: beginning.versions,
        checksum: beginning.checksum,
        code: beginning.code,
        initial_value: beginning.initial_value,
        channels: channels as u64,
        n_sendmax: limits.n_sendmax,
        n_maxpacket: limits.n_maxpacket,
        q: limits.deferral,
        t_max: limits.t_max,
        t_h: limits.t_heartbeat,
        t_seq: limits.t_seq,
        mwa: limits.mwa,
        pdu_limit: limits.pdu_limit,
    }
}

/// Returns whether a key belongs to the identity of an end.
fn is_identity(key: &str) -> bool
    ensures { result ≡ names_identity key.now }
{
    key == "id" || key == "peer_id" || key == "name" || key == "peer_name" || key == "protocol"
}

/// Returns whether a key belongs to the values that an end uses to connect.
fn is_beginning(key: &str) -> bool
    ensures { result ≡ names_beginning key.now }
{
    key == "version"
        || key == "versions"
        || key == "code"
        || key == "checksum"
        || key == "iv"
        || key == "first_sn"
}

/// Returns whether a key is a limit.
fn is_limit(key: &str) -> bool
    ensures { result ≡ names_limit key.now }
{
    key == "n_sendmax"
        || key == "n_maxpacket"
        || key == "q"
        || key == "t_max"
        || key == "t_h"
        || key == "t_seq"
        || key == "mwa"
        || key == "pdu_limit"
}

/// Returns whether a key is a list.
fn is_list(key: &str) -> bool
    ensures { result ≡ names_list key.now }
{
    key == "local" || key == "remote" || key == "puts"
}

/// Returns whether an end has this key.
pub fn knows(key: &str) -> bool
    // `knows` is true for the keys of identity, connecting, limits and lists, and for no other key.
    ensures { result ≡ is_known key.now }
{
    is_identity(key) || is_beginning(key) || is_limit(key) || is_list(key)
}

/// Returns whether a key is the table of an end.
pub fn names_end(key: &str) -> bool
    // `names_end` is true for `il` and `fe`, and for no other key.
    ensures { result ≡ is_end key.now }
{
    key == "il" || key == "fe"
}

/// Returns the first key that no end has.
fn unknown_key(table: &Table) -> Option<&str>
    ensures { option_copied result ≡ first_unknown (table_view table.now) }
{
    for (key, _value) in table {
        if !knows(key.as_str()) {
            return Some(key.as_str());
        }
    }
    None
}

/// Returns the first key that is not the table of an end.
fn strange_key(table: &Table) -> Option<&str>
    ensures { option_copied result ≡ first_strange (table_view table.now) }
{
    for (key, _value) in table {
        if !names_end(key.as_str()) {
            return Some(key.as_str());
        }
    }
    None
}

/// Returns the fault of an unknown key, with its text.
pub fn unknown_fault(alloc: Global, table: Option<Side>, key: &str) -> SettingsFault
    // `unknown` returns that this key is unknown in this table, or `Memory` if its text cannot be copied.
    ensures { MakesUnknown result table key.now }
{
    match String::from_str(alloc, key) {
        Ok(key) => SettingsFault::Unknown(table, key),
        Err(refused) => SettingsFault::Memory(refused),
    }
}

/// Reads the settings of an end from its table, which a file for both ends names.
fn of_end(
    alloc: Global,
    side: Side,
    named: Option<Side>,
    value: &Value,
) -> Result<Settings, SettingsFault>
    // If `of_end` succeeds, its result is the settings of this side in the value.
    ensures ok { IfOk result (λ s. end_settings side named (view value.now) ≡ Ok (settings_seen s)) }
    // If `of_end` fails, its fault is the first of the value: it is not a table, has an unknown key, or a key is
    // wrong. Of `Memory` nothing is claimed.
    ensures err { IfErr result (IsWrong (end_settings side named (view value.now))) }
    // `of_end` fails with `Memory` only if the table has an unknown key, or its identity, beginning and limits are
    // valid.
    ensures memory { IfErr result (MemoryInTable side (view value.now)) }
{
    let Some(table) = value.as_table() else {
        return Err(SettingsFault::NoTable(side));
    };
    if let Some(key) = unknown_key(table) {
        return Err(unknown_fault(alloc, named, key));
    }
    match read(alloc, side, value) {
        Ok(settings) => Ok(settings),
        Err(ReadFault::Key(fault)) => Err(SettingsFault::Key(named, fault)),
        Err(ReadFault::Memory(refused)) => Err(SettingsFault::Memory(refused)),
    }
}

/// Parses the text of a file as TOML.
pub fn document(alloc: Global, text: &str) -> Result<Table, SettingsFault>
    // If `document` succeeds, its result is the table that the text spells as TOML.
    ensures ok { IfOk result (λ t. parse_document text.now ≡ Some (table_view t)) }
    // `document` fails only if the text is not TOML, with `Document`, or with `Memory`.
    ensures err { IfErr result (IsNoDocument text.now) }
{
    match toml::table_from_str(alloc, text) {
        Ok(table) => Ok(table),
        Err(fault) => Err(document_fault(text, &fault)),
    }
}

/// Returns the fault of a text that was not parsed, with the line in which it begins.
fn document_fault(text: &str, fault: &toml::de::Error) -> SettingsFault
    // If the parser had no memory, `document_fault` returns `Memory`.
    ensures memory { IsMemory fault.now → result ≡ settings_fault.Memory alloc_error }
    // If the parser found a fault, `document_fault` returns `Document` with the line of its first byte.
    ensures line { ¬ IsMemory fault.now → result ≡ settings_fault.Document (line_at (span_start fault.now) text.now) }
{
    match fault.span() {
        None => SettingsFault::Memory(AllocError),
        Some(range) => SettingsFault::Document(line_of(text, range.start)),
    }
}

/// Returns the line, from 1, of a byte of the text.
#[tactic(auto, using(std::proofs::lemmas::List::take_all))]
fn line_of(text: &str, place: usize) -> usize
    ensures { result ≡ line_at place text.now }
{
    match text.as_bytes().split_at_checked(place) {
        Some((before, _)) => line_feeds(before) + 1,
        None => line_feeds(text.as_bytes()) + 1,
    }
}

/// Returns the number of line feeds.
fn line_feeds(octets: &[u8]) -> usize
    // `line_feeds` returns how often the byte 10 occurs.
    ensures feeds { result ≡ count_by (λ o. o == 10) octets.now }
    // The result of `line_feeds` is at most the number of bytes.
    ensures few { result ≤ length octets.now }
{
    octets.iter().filter(|octet| **octet == b'\n').count()
}

/// Returns the word that a settings file is for, by the keys at its top: both ends if it has the table of one, a
/// field element if it has `versions` or `checksum`, and else an interlocking. A file that is for an interlocking
/// has the same settings for a field element.
///
/// # Errors
///
/// - `Document` if the text is not a TOML document;
/// - `Memory` if an allocation fails.
pub fn word_of(alloc: Global, text: &str) -> Result<Subcommand, SettingsFault>
    // If `word_of` succeeds, its result is the word that the keys of the text's table show.
    ensures ok { IfOk result (λ w. option_map word_of_members (parse_document text.now) ≡ Some w) }
    // `word_of` fails only if the text is not TOML, with `Document`, or with `Memory`.
    ensures err { IfErr result (IsNoDocument text.now) }
{
    let table = document(alloc, text)?;
    Ok(word_shown(&Value::Table(table)))
}

/// Returns the word that the keys of a table show.
fn word_shown(file: &Value) -> Subcommand
    ensures { result ≡ word_in (view file.now) }
{
    if file.get("il").is_some() || file.get("fe").is_some() {
        Subcommand::Pair
    } else if file.get("versions").is_some() || file.get("checksum").is_some() {
        Subcommand::Fe
    } else {
        Subcommand::Il
    }
}

/// Reads the text of a settings file for one end, as `settings` does for the word of its side.
///
/// # Errors
///
/// - As `settings`: the first of `Document`, `NoTable`, `Unknown` and `Key`, or `Memory`.
pub fn single(alloc: Global, side: Side, text: &str) -> Result<Settings, SettingsFault>
    // If `single` succeeds, its result is exactly the settings of this side in the text.
    ensures ok { IfOk result (λ s. file_settings side text.now ≡ Ok (settings_seen s)) }
    // If `single` fails, its fault is the first that the text has for this side. Of `Memory` nothing is claimed.
    ensures err { IfErr result (IsWrong (file_settings side text.now)) }
{
    let table = document(alloc, text)?;
    of_end(alloc, side, None, &Value::Table(table))
}

/// Reads the table of the interlocking in a file for both ends.
fn il_of(alloc: Global, value: &Value) -> Result<Settings, SettingsFault>
    // If `il_of` succeeds, its result is the settings of the interlocking in table `il`.
    ensures ok { IfOk result (λ s. il_settings (view value.now) ≡ Ok (settings_seen s)) }
    // If `il_of` fails, its fault is the first of table `il`, or that it is missing.
    ensures err { IfErr result (IsWrong (il_settings (view value.now))) }
{
    match value.get("il") {
        Some(table) => of_end(alloc, Side::Interlocking, Some(Side::Interlocking), table),
        None => Err(SettingsFault::NoTable(Side::Interlocking)),
    }
}

/// Reads the table of the field element in a file for both ends.
fn fe_of(alloc: Global, value: &Value) -> Result<Settings, SettingsFault>
    // If `fe_of` succeeds, its result is the settings of the field element in table `fe`.
    ensures ok { IfOk result (λ s. fe_settings (view value.now) ≡ Ok (settings_seen s)) }
    // If `fe_of` fails, its fault is the first of table `fe`, or that it is missing.
    ensures err { IfErr result (IsWrong (fe_settings (view value.now))) }
{
    match value.get("fe") {
        Some(table) => of_end(alloc, Side::FieldElement, Some(Side::FieldElement), table),
        None => Err(SettingsFault::NoTable(Side::FieldElement)),
    }
}

/// Reads the settings of both ends, the interlocking's first.
pub fn pair(alloc: Global, text: &str) -> Result<(Settings, Settings), SettingsFault>
    // If `pair` succeeds, its result is the settings of both ends in the text.
    ensures ok { IfOk result (λ s. pair_settings text.now ≡ Ok (settings_seen s.0, settings_seen s.1)) }
    // If `pair` fails, its fault is the first of the text: a key other than `il` and `fe`, then those of `il`,
    // then those of `fe`.
    ensures err { IfErr result (IsWrong (pair_settings text.now)) }
{
    let table = document(alloc, text)?;
    if let Some(key) = strange_key(&table) {
        return Err(unknown_fault(alloc, None, key));
    }
    let value = Value::Table(table);
    let il = il_of(alloc, &value)?;
    let fe = fe_of(alloc, &value)?;
    Ok((il, fe))
}
