//! The setting that is wrong, with its range, and the rooms that are always enough.

ghost use Rattle.std.specs.Prelude.{◌≡◌, ◌≢◌, true, false};
ghost use Rattle.end_for_callers.specs.Calls.{or_else};
ghost use Rattle.bekwidas.specs.Codes.{code_to_open};
ghost use Rattle.bekwidas.specs.Faults.{ample_room, are_channels, code_of_warning, most_deferred, first_fault, have_versions, in_front, in_lists, in_numbers, in_rooms, most_versions, outside, unless, first_warning, written_for};
ghost use Rattle.bekwidas.specs.declared.codes.TheConstants.{BAD_SETTINGS, OK};
ghost use Rattle.end_for_callers.specs.declared.TheConstants.{CALL_TELEGRAMS};

use crate::codes::{BAD_SETTINGS, OK, SETTINGS_SIZE, UNWISE, of_opening};
use end_for_callers::{
    CALL_DATAGRAMS, CALL_TELEGRAMS, PART_PDUS, PLAIN_SETTINGS_SIZE, PlainSettings, is_name,
    refusal_to_open, text_size,
};
use octets::limits::WINDOW_MAX;
use pdi_session::are_versions;

/// A setting that is wrong. All numbers are 0 if none is.
#[repr(C)]
#[derive(Clone, Copy, Debug, PartialEq, Eq)]
pub struct SettingFault {
    /// The place of the member in the settings, from 1 on.
    pub field: u32,
    /// Its value; of a name, its length.
    pub value: u32,
    /// The least value that fits; of a name, the least length.
    pub least: u32,
    /// The greatest value that fits.
    pub most: u32,
}

/// Tests settings before an end is opened with them: returns the code with which `bekr_open` would refuse them, and
/// writes which of them is wrong, its value and its range.
#[unsafe(no_mangle)]
pub extern "C" fn bekr_settings_fault(settings: &PlainSettings, fault: &mut SettingFault) -> i32
    // Settings with which no end opens at time 0 have the code of that refusal.
    ensures refused { code_to_open settings.now 0 ≢ OK → result ≡ code_to_open settings.now 0 }
    // Settings that can be opened have the code OK, or `UNWISE` if an end works badly with them (`first_warning`).
    ensures opened { code_to_open settings.now 0 ≡ OK → result ≡ code_of_warning (first_warning settings.now) }
    // The first member that is wrong is written; if none is, the first with which an end works badly, or zeros.
    ensures named { fault.new ≡ written_for (or_else (first_fault settings.now) (first_warning settings.now)) }
{
    let warning = first_warning(settings);
    *fault = written_for(first(first_fault(settings), warning));
    let code = code_to_open(settings);
    if code != OK {
        return code;
    }
    code_of_warning(warning)
}

/// Returns rooms with which no call of this number of channels is refused or loses a datagram, if the caller takes all
/// that waits after each call.
#[unsafe(no_mangle)]
pub extern "C" fn bekr_rooms(
    settings: &PlainSettings,
    telegrams: &mut u32,
    datagrams: &mut u32,
) -> i32
    // With 1 to 4 channels the result is OK, and the rooms are those for whatever one call takes and sends: 27 telegrams, and
    // 333 datagrams for each channel.
    ensures known { are_channels settings.now.channels ≡ true → (result ≡ OK) × (telegrams.new ≡ CALL_TELEGRAMS)
        × (datagrams.new ≡ ample_room settings.now.channels) }
    // With any other number of channels the result of `bekr_rooms` is `BAD_SETTINGS`, and nothing is written.
    ensures refused { are_channels settings.now.channels ≡ false → (result ≡ BAD_SETTINGS) × (telegrams.new ≡ telegrams.old)
        × (datagrams.new ≡ datagrams.old) }
{
    let channels = settings.channels;
    if !(1 <= channels && channels <= 4) {
        return BAD_SETTINGS;
    }
    *telegrams = CALL_TELEGRAMS as u32;
    *datagrams = channels * CALL_DATAGRAMS as u32;
    OK
}

/// Returns the code with which an opening at time 0 is refused, or OK.
fn code_to_open(settings: &PlainSettings) -> i32
    ensures { result ≡ code_to_open settings.now 0 }
{
    if settings.size != PLAIN_SETTINGS_SIZE {
        return SETTINGS_SIZE;
    }
    let Some(opening) = settings.opening() else {
        return BAD_SETTINGS;
    };
    match refusal_to_open(&opening.config, opening.side, opening.rooms, 0) {
        Some(fault) => of_opening(fault),
        None => OK,
    }
}

/// Returns the code of settings that can be opened.
fn code_of_warning(warning: Option<SettingFault>) -> i32
    ensures { result ≡ code_of_warning warning }
{
    match warning {
        Some(_) => UNWISE,
        None => OK,
    }
}

/// Returns what is written for a fault.
fn written_for(fault: Option<SettingFault>) -> SettingFault
    ensures { result ≡ written_for fault }
{
    match fault {
        Some(fault) => fault,
        None => SettingFault {
            field: 0,
            value: 0,
            least: 0,
            most: 0,
        },
    }
}

/// Returns the first of two faults.
fn first(fault: Option<SettingFault>, other: Option<SettingFault>) -> Option<SettingFault>
    ensures { result ≡ or_else fault other }
{
    match fault {
        Some(fault) => Some(fault),
        None => other,
    }
}

/// Returns the fault of a member, unless a test holds.
fn unless(fits: bool, field: u32, value: u32, least: u32, most: u32) -> Option<SettingFault>
    ensures { result ≡ unless fits field value least most }
{
    if fits {
        return None;
    }
    Some(SettingFault {
        field,
        value,
        least,
        most,
    })
}

/// Returns the fault of a member that is outside its range.
fn outside(field: u32, value: u32, least: u32, most: u32) -> Option<SettingFault>
    ensures { result ≡ outside field value least most }
{
    unless(least <= value && value <= most, field, value, least, most)
}

/// Returns the first member that is wrong.
fn first_fault(settings: &PlainSettings) -> Option<SettingFault>
    ensures { result ≡ first_fault settings.now }
{
    let numbers = in_numbers(settings);
    let lists = first(in_lists(settings), in_rooms(settings));
    first(in_front(settings), first(numbers, lists))
}

/// Returns the first fault of size, side, identifiers, protocol type and safety code.
fn in_front(s: &PlainSettings) -> Option<SettingFault>
    ensures { result ≡ in_front s.now }
{
    let code = unless(s.code == 8 || s.code == 16, 7, s.code, 8, 16);
    let protocol = first(outside(6, s.protocol, 0, 255), code);
    let differ = unless(s.peer_id != s.id, 4, s.peer_id, 0, u32::MAX);
    let side = first(outside(2, s.side, 1, 2), first(differ, protocol));
    first(
        outside(1, s.size, PLAIN_SETTINGS_SIZE, PLAIN_SETTINGS_SIZE),
        side,
    )
}

/// Returns the first fault of the numbers of the layers.
fn in_numbers(s: &PlainSettings) -> Option<SettingFault>
    ensures { result ≡ in_numbers s.now }
{
    let limit = outside(16, s.pdu_limit, 100, 4_294_901_760);
    let mwa = first(outside(15, s.mwa, 1, 16), limit);
    let t_seq = first(outside(14, s.t_seq, 10, 1_000), mwa);
    let t_h = first(outside(13, s.t_h, 10, s.t_max.saturating_sub(1)), t_seq);
    let t_max = first(outside(12, s.t_max, 100, 60_000), t_h);
    let q = first(outside(11, s.q, 1, 8), t_max);
    let packet = first(outside(10, s.n_maxpacket, 1, 3), q);
    first(
        outside(8, s.channels, 1, 4),
        first(outside(9, s.n_sendmax, 1, 32), packet),
    )
}

/// Returns the first fault of lists and names.
fn in_lists(s: &PlainSettings) -> Option<SettingFault>
    ensures { result ≡ in_lists s.now }
{
    let most = most_versions(s.side);
    let peer = unless(
        is_name(&s.peer_name),
        25,
        text_size(&s.peer_name) as u32,
        1,
        20,
    );
    let own = unless(is_name(&s.name), 24, text_size(&s.name) as u32, 1, 20);
    let versions = unless(have_versions(s), 21, s.version_count, 1, most);
    let checksum = first(
        outside(20, s.checksum_length, 0, 16),
        first(versions, first(own, peer)),
    );
    first(outside(19, s.version_count, 1, most), checksum)
}

/// Returns the greatest number of versions of a side.
fn most_versions(side: u32) -> u32
    ensures { result ≡ most_versions side }
{
    if side == 1 { 1 } else { 4 }
}

/// Returns false if two versions are equal, or if the list is empty.
fn have_versions(s: &PlainSettings) -> bool
    ensures { result ≡ have_versions s.now }
{
    if s.version_count > 4 {
        return true;
    }
    are_versions(&s.versions[..s.version_count as usize])
}

/// Returns the first fault of the rooms.
fn in_rooms(s: &PlainSettings) -> Option<SettingFault>
    ensures { result ≡ in_rooms s.now }
{
    let least = s.channels.saturating_mul((WINDOW_MAX + PART_PDUS) as u32);
    first(
        outside(17, s.telegram_room, CALL_TELEGRAMS as u32, u32::MAX),
        outside(18, s.datagram_room, least, u32::MAX),
    )
}

/// Returns the first member with which an end opens and works badly.
fn first_warning(s: &PlainSettings) -> Option<SettingFault>
    ensures { result ≡ first_warning s.now }
{
    let random = unless(s.first_sn != 1, 5, s.first_sn, 0, u32::MAX);
    let deferred = unless(
        most_deferred(s.n_sendmax, s.mwa) <= s.q,
        9,
        s.n_sendmax,
        1,
        s.q.saturating_sub(2),
    );
    let t_seq = unless(
        s.t_seq < s.t_max,
        14,
        s.t_seq,
        10,
        s.t_max.saturating_sub(1),
    );
    let mwa = unless(
        s.mwa < s.n_sendmax,
        15,
        s.mwa,
        1,
        s.n_sendmax.saturating_sub(1),
    );
    first(mwa, first(t_seq, first(deferred, random)))
}

/// Returns how many parts can be deferred after one datagram lost in a retransmission.
fn most_deferred(window: u32, mwa: u32) -> u32
    ensures { result ≡ most_deferred window mwa }
{
    if mwa == 0 {
        return 0;
    }
    window.saturating_add(window / mwa).saturating_add(2)
}
