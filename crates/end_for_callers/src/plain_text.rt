//! Writing settings as plain settings.

ghost use Rattle.std.specs.Prelude.{◌≡◌, ◌≤◌, ◌++◌, drop, is_some, length, Some, IfSome};
ghost use Rattle.end_settings.specs.ConfigValue.{settings_of};
ghost use Rattle.pdi_session.specs.telegram.Tele.{owned_characters};
ghost use Rattle.end_for_callers.specs.Plain.{are_plain, name_in, opening_of, side_in, words_of};

use crate::plain::{PLAIN_SETTINGS_SIZE, PlainSettings};
use crate::station::Rooms;
use byteorder::{ByteOrder, LittleEndian};
use end_settings::{EndConfig, Side};
use pdi_session::telegram::OwnedName;

/// The size of a name in plain settings, in bytes, with the zeros after it.
const NAME_ROW: usize = 24;

/// The greatest number that fits a field.
const NUMBER_MAX: u64 = 4_294_967_295;

impl PlainSettings {
    /// Returns the plain settings with this content, or `None` if a number is above 2^32 - 1.
    pub fn of(side: Side, config: &EndConfig, first_sn: u32, rooms: Rooms) -> Option<Self>
        // Plain settings are returned if and only if each number fits a field (`are_plain`).
        ensures some { is_some result ≡ are_plain config.now }
        // Reading the plain settings returned gives exactly this side, configuration, first sequence number and
        // rooms.
        ensures says { IfSome result (λ s. opening_of s
            ≡ Some (record { config = settings_of config.now; side = side; first_sn = first_sn; rooms = rooms })) }
        // Plain settings that are written contain their own size.
        ensures size { IfSome result (λ s. s.size ≡ PLAIN_SETTINGS_SIZE) }
    {
        if !are_plain(config) {
            return None;
        }
        let mut versions = [0; 4];
        fill(&mut versions, config.versions.as_slice());
        let mut checksum = [0; 16];
        fill(&mut checksum, config.checksum.as_slice());
        Some(PlainSettings {
            size: PLAIN_SETTINGS_SIZE,
            side: number_of(side),
            id: config.id,
            peer_id: config.peer_id,
            first_sn,
            protocol: widen(config.protocol),
            code: config.code as u32,
            channels: config.channels as u32,
            n_sendmax: config.n_sendmax as u32,
            n_maxpacket: config.n_maxpacket as u32,
            q: config.q as u32,
            t_max: config.t_max as u32,
            t_h: config.t_h as u32,
            t_seq: config.t_seq as u32,
            mwa: config.mwa as u32,
            pdu_limit: config.pdu_limit as u32,
            telegram_room: rooms.telegrams,
            datagram_room: rooms.datagrams,
            version_count: config.versions.as_slice().len() as u32,
            checksum_length: config.checksum.as_slice().len() as u32,
            versions,
            checksum,
            initial_value: octets_of(&config.initial_value),
            name: spell_name(&config.name),
            peer_name: spell_name(&config.peer_name),
        })
    }
}

/// Returns true if each number fits a field.
fn are_plain(config: &EndConfig) -> bool
    ensures { result ≡ are_plain config.now }
{
    config.code <= NUMBER_MAX
        && config.channels <= NUMBER_MAX
        && config.n_sendmax <= NUMBER_MAX
        && config.n_maxpacket <= NUMBER_MAX
        && config.q <= NUMBER_MAX
        && config.t_max <= NUMBER_MAX
        && config.t_h <= NUMBER_MAX
        && config.t_seq <= NUMBER_MAX
        && config.mwa <= NUMBER_MAX
        && config.pdu_limit <= NUMBER_MAX
}

/// Returns the number of a side.
fn number_of(side: Side) -> u32
    ensures { side_in result ≡ Some side }
{
    match side {
        Side::Interlocking => 1,
        Side::FieldElement => 2,
    }
}

/// Returns a byte as a number.
fn widen(octet: u8) -> u32
    // The value of the byte stays.
    ensures value { result ≡ octet }
    // The value of a byte is at most 255.
    ensures small { result ≤ 255 }
{
    u32::from(octet)
}

/// Writes bytes at the start of a row.
fn fill(row: &mut [u8], octets: &[u8])
    requires { length octets.now ≤ length row.old }
    ensures { row.new ≡ octets.now ++ drop (length octets.now) row.old }
{
    row[..octets.len()].copy_from_slice(octets);
}

/// Returns the bytes of four words, least significant byte first.
fn octets_of(words: &[u32; 4]) -> [u8; 16]
    ensures { words_of result ≡ words.now }
{
    let mut octets = [0; 16];
    LittleEndian::write_u32_into(words, &mut octets);
    octets
}

/// Returns a name followed by zeros.
fn spell_name(name: &OwnedName) -> [u8; NAME_ROW]
    ensures { name_in result ≡ Some (owned_characters name.now) }
{
    let mut row = [0; NAME_ROW];
    let name = name.name();
    fill(&mut row, name.as_str().as_bytes());
    row
}
