//! Settings as plain numbers and byte rows, as a caller in C fills them in.

ghost use Rattle.std.specs.Prelude.{◌≡◌, ◌≤◌, is_some, option_map};
ghost use Rattle.end_settings.specs.ConfigValue.{settings_of};
ghost use Rattle.end_settings.specs.Lists.{checksum_in, versions_in};
ghost use Rattle.pdi_session.specs.telegram.Tele.{owned_characters};
ghost use Rattle.end_for_callers.specs.Numbers.{NumbersAre};
ghost use Rattle.end_for_callers.specs.Plain.{config_with, front_of, lists_in, lists_seen, name_in, opening_of, opening_seen, side_in, text_size};

use crate::station::Rooms;
use end_settings::{Checksum, EndConfig, Side, Versions};
use octets::Milliseconds;
use octets::places::u32_at;
use pdi_session::telegram::{Name, OwnedName};
use safe_pdu::Identifier;

/// The size of plain settings in this version, in bytes.
pub const PLAIN_SETTINGS_SIZE: u32 = 164;

/// The settings of an end as numbers and byte rows, in the order of `capi/bekwidas.h`, which states the ranges.
#[repr(C)]
#[derive(Drop)]
pub struct PlainSettings {
    /// The size of these settings in bytes, this field included.
    pub size: u32,
    /// The side: 1 for an interlocking, 2 for a field element.
    pub side: u32,
    /// The own identifier.
    pub id: Identifier,
    /// The peer's identifier.
    pub peer_id: Identifier,
    /// The first sequence number.
    pub first_sn: u32,
    /// The protocol type of the session.
    pub protocol: u32,
    /// The size of the safety code, in bytes.
    pub code: u32,
    /// The number of channels.
    pub channels: u32,
    /// How many units the peer may leave unconfirmed.
    pub n_sendmax: u32,
    /// The most messages in one unit.
    pub n_maxpacket: u32,
    /// How many parts may be deferred.
    pub q: u32,
    /// T_max, the greatest age of the last confirmation, in milliseconds.
    pub t_max: u32,
    /// T_h, the time between heartbeats, in milliseconds.
    pub t_h: u32,
    /// T_seq, the longest time that a part is deferred, in milliseconds.
    pub t_seq: u32,
    /// How many units are taken without sending before a heartbeat confirms them.
    pub mwa: u32,
    /// The most PDUs of one connection.
    pub pdu_limit: u32,
    /// How many telegrams can wait.
    pub telegram_room: u32,
    /// How many datagrams can wait.
    pub datagram_room: u32,
    /// The number of versions.
    pub version_count: u32,
    /// The size of the checksum, in bytes.
    pub checksum_length: u32,
    /// The versions.
    pub versions: [u8; 4],
    /// The checksum.
    pub checksum: [u8; 16],
    /// The initial value, 16 bytes.
    pub initial_value: [u8; 16],
    /// The own name, followed by at least one zero.
    pub name: [u8; 24],
    /// The peer's name, followed by at least one zero.
    pub peer_name: [u8; 24],
}

/// The arguments for opening an end.
#[derive(Clone, Copy, Debug)]
pub struct EndOpening {
    /// The settings; they may still be invalid for the side.
    pub config: EndConfig,
    /// The side.
    pub side: Side,
    /// The first sequence number.
    pub first_sn: u32,
    /// The room of the two queues.
    pub rooms: Rooms,
}

/// The names and lists of an end.
#[derive(Clone, Copy)]
struct Lists {
    /// The own name.
    own: OwnedName,
    /// The peer's name.
    peer: OwnedName,
    /// The versions.
    versions: Versions,
    /// The checksum.
    checksum: Checksum,
}

impl PlainSettings {
    /// Reads plain settings. Returns `None` if the side is neither 1 nor 2, the protocol type is above 255, a name
    /// is invalid or has no zero after it, or a list is longer than its row.
    pub fn opening(&self) -> Option<EndOpening>
        // `opening` returns exactly the settings, side, first sequence number and rooms of these fields; `None` if
        // side, protocol type, a name or a list cannot be read.
        ensures { option_map opening_seen result ≡ opening_of self.now }
    {
        let side = side(self.side)?;
        if self.protocol > 255 {
            return None;
        }
        let lists = self.lists()?;
        Some(EndOpening {
            config: self.config(&lists),
            side,
            first_sn: self.first_sn,
            rooms: Rooms {
                telegrams: self.telegram_room,
                datagrams: self.datagram_room,
            },
        })
    }

    /// Reads names and lists from their rows.
    fn lists(&self) -> Option<Lists>
        ensures { option_map lists_seen result ≡ lists_in self.now }
    {
        let own = name(&self.name)?;
        let peer = name(&self.peer_name)?;
        let versions = Versions::new(front(&self.versions, self.version_count)?)?;
        let checksum = Checksum::new(front(&self.checksum, self.checksum_length)?)?;
        Some(Lists {
            own,
            peer,
            versions,
            checksum,
        })
    }

    /// Returns the settings with these names and lists.
    fn config(&self, lists: &Lists) -> EndConfig
        requires { self.now.protocol ≤ 255 }
        ensures { settings_of result ≡ config_with self.now (lists_seen lists.now) }
    {
        let iv = &self.initial_value;
        EndConfig {
            id: self.id,
            peer_id: self.peer_id,
            name: lists.own,
            peer_name: lists.peer,
            protocol: self.protocol as u8,
            versions: lists.versions,
            checksum: lists.checksum,
            code: u64::from(self.code),
            initial_value: [u32_at(iv, 0), u32_at(iv, 4), u32_at(iv, 8), u32_at(iv, 12)],
            channels: u64::from(self.channels),
            n_sendmax: u64::from(self.n_sendmax),
            n_maxpacket: u64::from(self.n_maxpacket),
            q: u64::from(self.q),
            t_max: Milliseconds::from(self.t_max),
            t_h: Milliseconds::from(self.t_h),
            t_seq: Milliseconds::from(self.t_seq),
            mwa: u64::from(self.mwa),
            pdu_limit: u64::from(self.pdu_limit),
        }
    }
}

/// Returns the side with this number.
fn side(number: u32) -> Option<Side>
    ensures { result ≡ side_in number }
{
    match number {
        1 => Some(Side::Interlocking),
        2 => Some(Side::FieldElement),
        _ => None,
    }
}

/// Returns the first `count` bytes of a row, or `None` if it is shorter.
fn front(row: &[u8], count: u32) -> Option<&[u8]>
    ensures { option_map (λ s. s.now) result ≡ front_of count row.now }
{
    if count as usize > row.len() {
        return None;
    }
    Some(&row[..count as usize])
}

/// Reads the name before the first zero.
fn name(row: &[u8]) -> Option<OwnedName>
    ensures { option_map owned_characters result ≡ name_in row.now }
{
    let size = text_size(row);
    if size == row.len() {
        return None;
    }
    let Ok(text) = str::from_utf8(&row[..size]) else {
        return None;
    };
    Some(OwnedName::new(Name::new(text).ok()?))
}

/// Returns true if a row has a valid name and a zero after it.
pub fn is_name(row: &[u8]) -> bool
    // The result is true if and only if a name can be read from the row (`name_in`).
    ensures { result ≡ is_some (name_in row.now) }
{
    name(row).is_some()
}

/// Returns the number of bytes before the first zero.
pub fn text_size(row: &[u8]) -> usize
    // The result is the place of the first zero, or the size of the row if it has none.
    ensures { result ≡ text_size row.now }
{
    row.iter().take_while(|octet| **octet != 0).count()
}

/// The values of the constants. The function does nothing when it is called.
pub fn numbers_law()
    // A call delivers at most 27 telegrams, a part causes at most 5 PDUs, and plain settings have 164 bytes.
    ensures { NumbersAre }
{}
