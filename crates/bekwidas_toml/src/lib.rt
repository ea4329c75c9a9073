//! A settings file for C. `capi/bekwidas_toml.h` states what a caller must do. The text of a file goes in; the
//! settings of an end, as `bek_open` takes them, and its addresses come out.
//!
//! The rules of a settings file are in `settings_file`, those of the settings of C in `end_for_callers`.
#![tactic(auto)]

ghost use Rattle.std.specs.Prelude.{◌≡◌, ◌≢◌, IfErr, IfOk, None, Ok, Some, drop, option_map, take, map, string_bytes};
ghost use Rattle.settings_file.specs.FileContents.{file_settings, settings_seen};
ghost use Rattle.bekwidas_toml.specs.declared.Unread.TheVariants as unread;
ghost use Rattle.end_for_callers.specs.Plain.{side_in};
ghost use Rattle.bekwidas_toml.specs.FileContent.{HasAddress, IsUnread, NoFile, ReadsSettings, address_of, addresses_in};
ghost use Rattle.bekwidas_toml.specs.declared.TheConstants.{NO_MEMORY, NO_SETTINGS, NOTHING, OK, TOO_SMALL};

use end_for_callers::{PlainSettings, Rooms};
use end_settings::Side;
use settings_file::{Settings, SettingsFault, single};
use std::alloc::Global;

/// Done.
pub const OK: i32 = 0;
/// There is no such channel.
pub const NOTHING: i32 = 1;
/// The side is neither 1 nor 2.
pub const BAD_SIDE: i32 = -6;
/// An allocation failed.
pub const NO_MEMORY: i32 = -8;
/// The buffer is too small.
pub const TOO_SMALL: i32 = -13;
/// The text is not a valid settings file for this side.
pub const NO_SETTINGS: i32 = -19;

/// Reads the text of a settings file for one end into `settings`. Their two rooms stay. Their first sequence
/// number also stays if the file wants a random one.
///
/// If the text is not a valid settings file, its fault is written to `said`, cut to its length, and the length of
/// the complete fault text to `length`.
#[unsafe(no_mangle)]
pub extern "C" fn bekr_toml_settings(
    alloc: Global,
    side: u32,
    text: &[u8],
    settings: &mut PlainSettings,
    said: &mut [u8],
    length: &mut usize,
) -> i32
    // If the result is OK, the new settings open an end with exactly the content of the file for this side, with
    // the old rooms (`ReadsSettings`). Without a first sequence number in the file they keep the old one.
    ensures read { result ≡ OK → ReadsSettings side text.now settings.old settings.new }
    // If the result is `NO_SETTINGS`, the text is not a valid settings file for this side.
    ensures wrong { result ≡ NO_SETTINGS → NoFile side text.now }
    // With any result except OK the settings are unchanged.
    ensures refused { result ≢ OK → settings.new ≡ settings.old }
{
    let Some(end) = side_of(side) else {
        return BAD_SIDE;
    };
    match read(alloc, end, text) {
        Ok(file) => {
            let rooms = Rooms {
                telegrams: settings.telegram_room,
                datagrams: settings.datagram_room,
            };
            let first_sn = file.first_sn.unwrap_or(settings.first_sn);
            match PlainSettings::of(end, &file.config, first_sn, rooms) {
                Some(plain) => {
                    *settings = plain;
                    OK
                }
                // Never happens: the ranges of a settings file are below 2^32.
                None => BAD_SIDE,
            }
        }
        Err(fault) => report(alloc, &fault, said, length),
    }
}

/// Reads the address of a channel, numbered from 1, from the text of a settings file: the own one if `is_remote`
/// is 0, otherwise the peer's. It is written to the start of `address`, and its size to `length`.
#[unsafe(no_mangle)]
pub extern "C" fn bekr_toml_address(
    alloc: Global,
    side: u32,
    is_remote: u32,
    channel: u32,
    text: &[u8],
    address: &mut [u8],
    length: &mut usize,
) -> i32
    // If the result is OK, the bytes written are the address that the file has for this channel (`HasAddress`).
    ensures read { result ≡ OK → HasAddress side is_remote channel text.now (Some (take length.new address.new)) }
    // If the result is `NOTHING`, the file has no such channel.
    ensures nothing { result ≡ NOTHING → HasAddress side is_remote channel text.now None }
    // `bekr_toml_address` returns `NO_SETTINGS` only for a text that is not a valid settings file for this side.
    ensures wrong { result ≡ NO_SETTINGS → NoFile side text.now }
    // The buffer after the address is unchanged.
    ensures rest { result ≡ OK → drop length.new address.new ≡ drop length.new address.old }
    // Unless the address is written, the buffer is unchanged.
    ensures refused { result ≢ OK → address.new ≡ address.old }
{
    let Some(end) = side_of(side) else {
        return BAD_SIDE;
    };
    let file = match read(alloc, end, text) {
        Ok(file) => file,
        Err(Unread::Memory) => return NO_MEMORY,
        Err(_) => return NO_SETTINGS,
    };
    let Some(found) = address_of(&file, is_remote, channel) else {
        return NOTHING;
    };
    let octets = found.as_bytes();
    *length = octets.len();
    if octets.len() > address.len() {
        return TOO_SMALL;
    }
    address[..octets.len()].copy_from_slice(octets);
    OK
}

/// Why a text was not read.
#[derive(Drop)]
enum Unread {
    /// An allocation failed.
    Memory,
    /// The text is not UTF-8.
    NotText,
    /// The text is not a valid settings file for this side.
    Settings(SettingsFault),
}

/// Returns the side with this number.
fn side_of(side: u32) -> Option<Side>
    ensures { result ≡ side_in side }
{
    match side {
        1 => Some(Side::Interlocking),
        2 => Some(Side::FieldElement),
        _ => None,
    }
}

/// Returns the address of a channel, numbered from 1.
fn address_of(file: &Settings, is_remote: u32, channel: u32) -> Option<&str>
    ensures { option_map (λ a. a.now) result ≡ address_of is_remote channel (settings_seen file.now) }
{
    if channel == 0 {
        return None;
    }
    let found = addresses(file, is_remote).get(channel as usize - 1)?;
    Some(found.as_str())
}

/// Returns the own addresses, or the peer's.
fn addresses(file: &Settings, is_remote: u32) -> &[String]
    ensures { map string_bytes result.now ≡ addresses_in is_remote (settings_seen file.now) }
{
    if is_remote == 0 {
        file.local.as_slice()
    } else {
        file.remote.as_slice()
    }
}

/// Reads a settings file for one side.
fn read(alloc: Global, side: Side, text: &[u8]) -> Result<Settings, Unread>
    // A file that is returned has exactly the content that `file_settings` reads from the text.
    ensures ok { IfOk result (λ file. file_settings side text.now ≡ Ok (settings_seen file)) }
    // An error other than Memory means that the text is not UTF-8, or that `file_settings` refuses it.
    ensures err { IfErr result (IsUnread side text.now) }
{
    let Ok(text) = str::from_utf8(text) else {
        return Err(Unread::NotText);
    };
    match single(alloc, side, text) {
        Ok(file) => Ok(file),
        Err(SettingsFault::Memory(_)) => Err(Unread::Memory),
        Err(fault) => Err(Unread::Settings(fault)),
    }
}

/// Writes the fault to `row`, cut to its length, and returns the code.
fn report(alloc: Global, fault: &Unread, row: &mut [u8], length: &mut usize) -> i32
    // The code `NO_SETTINGS` is returned only if the fault is one of the text, not a failed allocation.
    ensures named { result ≡ NO_SETTINGS → fault.now ≢ unread.Memory }
    // The code of a fault is never OK.
    ensures refused { result ≢ OK }
{
    match fault {
        Unread::Memory => NO_MEMORY,
        Unread::NotText => write_told("not valid UTF-8", row, length),
        Unread::Settings(fault) => match format!(in alloc; "{fault}") {
            Ok(text) => write_told(text.as_str(), row, length),
            Err(_) => NO_MEMORY,
        },
    }
}

/// Writes a text to `row`, cut to its length, and the size of the complete text to `length`.
fn write_told(text: &str, row: &mut [u8], length: &mut usize) -> i32
    ensures { result ≡ NO_SETTINGS }
{
    let octets = text.as_bytes();
    let size = std::cmp::min(row.len(), octets.len());
    row[..size].copy_from_slice(&octets[..size]);
    *length = octets.len();
    NO_SETTINGS
}
