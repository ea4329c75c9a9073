//! Warnings: valid settings with which an end works badly or not at all.
//!
//! They are not faults, so that a file which was accepted once is accepted again.

ghost use Rattle.std.specs.Prelude.{◌≡◌, ◌+◌, ◌^◌, ◌<◌, ◌++◌, length, map, string_bytes, IfOk, OnOk};
ghost use Rattle.pdi_session.specs.telegram.Tele.{owned_characters};
ghost use Rattle.end_settings.specs.Lists.{checksum_in};
ghost use Rattle.settings_file.specs.Groups.{put_seen};
ghost use Rattle.settings_file.specs.FileContents.{settings_seen};
ghost use Rattle.settings_file.specs.Warnings.{address_warnings, are_two_kinds, channel_warnings, is_t_max_short, heartbeats_of, identity_warnings, if_so, is_unsent, is_v6, limit_warnings, long_payloads, names_no_port, number_warnings, exceeds_q, port_warnings, repeat_warnings, contains_text, warnings_of};

use crate::keys::Key;
use crate::values::{PutEntry, Settings};
use end_settings::{EndConfig, Side};
use octets::Milliseconds;
use octets::limits::PAYLOAD_MAX;
use std::alloc::{AllocError, Global};
use std::fmt;

/// A setting that is likely to be a mistake.
#[derive(Clone, Copy, Debug, PartialEq, Eq)]
pub enum Warning {
    /// T_seq is not below T_max (both in milliseconds): a part that is deferred for T_seq is then too old.
    LongWait(u64, u64),
    /// `mwa` is not below the peer's window `n_sendmax`: with a full window the peer waits for the next heartbeat.
    RareConfirmation(u64, u64),
    /// This entry of a list of addresses, from 1, has the port 0, to which nothing can be sent.
    NoPort(Key, u64),
    /// This entry of a list of addresses, from 1, is there again.
    Repeated(Key, u64),
    /// Both addresses of this channel, from 1, are the same: it receives what it sends.
    ToItself(u64),
    /// Of the two addresses of this channel, from 1, one is of IPv4 and one of IPv6: that of the peer, if the flag is
    /// true.
    TwoKinds(u64, bool),
    /// More parts can come after one lost datagram than the deferral queue holds: the other units of the window, and
    /// the heartbeats that confirm its units.
    WideWindow {
        /// The window, `n_sendmax`.
        window: u64,
        /// After how many units taken a heartbeat is sent.
        mwa: u64,
        /// How many parts may be deferred.
        q: u64,
    },
    /// T_max is below three T_h and T_seq: a single loss can end the connection.
    ShortAge {
        /// The greatest age of the last confirmation.
        t_max: Milliseconds,
        /// The time between heartbeats.
        t_h: Milliseconds,
        /// The time for which a part is deferred.
        t_seq: Milliseconds,
    },
    /// The end and its peer have the same name.
    SameName,
    /// An interlocking has a checksum, which only a field element sends.
    UnsentChecksum,
    /// The first sequence number is fixed, and an end that is reopened draws another one.
    FixedNumber(u32),
    /// The payload of a telegram to be put is too long, so the end refuses it.
    LongPayload {
        /// The entry of `puts`, from 1.
        entry: usize,
        /// The size of its payload in bytes.
        size: usize,
    },
}

/// Returns what is likely to be a mistake in the settings of an end of this side, which is opened again after a loss
/// if `keep` is true. Addresses are compared as texts.
///
/// # Errors
///
/// - Returns the error if an allocation fails.
pub fn warnings(
    alloc: Global,
    side: Side,
    keep: bool,
    settings: &Settings,
) -> Result<Vec<Warning>, AllocError>
    // `warnings` returns exactly the mistakes of these settings: of limits, of names, checksum and first sequence
    // number, of addresses, and of telegrams to be put, in this order.
    ensures { IfOk result (λ all. all.items ≡ warnings_of side keep (settings_seen settings.now)) }
{
    let mut list = Vec::new(alloc);
    find_limits(&settings.config, &mut list)?;
    find_identity(side, keep, settings, &mut list)?;
    find_addresses(
        settings.local.as_slice(),
        settings.remote.as_slice(),
        &mut list,
    )?;
    find_long(settings.puts.as_slice(), &mut list)?;
    Ok(list)
}

/// Adds the warnings of limits.
fn find_limits(config: &EndConfig, list: &mut Vec<Warning>) -> Result<(), AllocError>
    ensures { OnOk result (list.new.items ≡ list.old.items
        ++ limit_warnings config.now.t_seq config.now.t_max config.now.t_h config.now.mwa config.now.n_sendmax config.now.q) }
{
    let (window, mwa, q) = (config.n_sendmax, config.mwa, config.q);
    let (t_max, t_h, t_seq) = (config.t_max, config.t_h, config.t_seq);
    add_if(t_max <= t_seq, Warning::LongWait(t_seq, t_max), list)?;
    add_if(
        config.n_sendmax <= config.mwa,
        Warning::RareConfirmation(mwa, window),
        list,
    )?;
    add_if(
        overruns(window, mwa, q),
        Warning::WideWindow { window, mwa, q },
        list,
    )?;
    add_if(
        ends_early(t_max, t_h, t_seq),
        Warning::ShortAge { t_max, t_h, t_seq },
        list,
    )
}

/// Returns whether what can come after one lost datagram is more than the deferral queue holds.
fn overruns(window: u64, mwa: u64, q: u64) -> bool
    ensures { result ≡ exceeds_q window mwa q }
{
    let others = window.saturating_sub(1);
    match others.checked_add(heartbeats(window, mwa)) {
        Some(parts) => q < parts,
        None => true,
    }
}

/// Returns how many heartbeats confirm the units of a full window.
fn heartbeats(window: u64, mwa: u64) -> u64
    ensures { result ≡ heartbeats_of window mwa }
{
    if mwa == 0 { 0 } else { window / mwa }
}

/// Returns whether a single loss can end the connection.
fn ends_early(t_max: Milliseconds, t_h: Milliseconds, t_seq: Milliseconds) -> bool
    ensures { result ≡ is_t_max_short t_max t_h t_seq }
{
    let Some(beats) = t_h.checked_mul(3) else {
        return true;
    };
    match beats.checked_add(t_seq) {
        Some(least) => t_max < least,
        None => true,
    }
}

/// Adds the warnings of names, checksum and first sequence number.
fn find_identity(
    side: Side,
    keep: bool,
    settings: &Settings,
    list: &mut Vec<Warning>,
) -> Result<(), AllocError>
    ensures { OnOk result (list.new.items ≡ list.old.items ++ identity_warnings side keep (owned_characters settings.now.config.name)
        (owned_characters settings.now.config.peer_name) (checksum_in settings.now.config.checksum) settings.now.first_sn) }
{
    let config = &settings.config;
    add_if(
        config.name.name().as_str() == config.peer_name.name().as_str(),
        Warning::SameName,
        list,
    )?;
    add_if(
        is_unsent(side, config.checksum.as_slice()),
        Warning::UnsentChecksum,
        list,
    )?;
    find_number(keep, settings.first_sn, list)
}

/// Returns whether a checksum is never sent.
fn is_unsent(side: Side, checksum: &[u8]) -> bool
    ensures { result ≡ is_unsent side checksum.now }
{
    match side {
        Side::Interlocking => 0 < checksum.len(),
        Side::FieldElement => false,
    }
}

/// Adds the warning of a fixed first sequence number.
fn find_number(keep: bool, first_sn: Option<u32>, list: &mut Vec<Warning>) -> Result<(), AllocError>
    ensures { OnOk result (list.new.items ≡ list.old.items ++ number_warnings keep first_sn) }
{
    match first_sn {
        Some(number) => add_if(keep, Warning::FixedNumber(number), list),
        None => Ok(()),
    }
}

/// Adds the warnings of addresses.
fn find_addresses(
    local: &[String],
    remote: &[String],
    list: &mut Vec<Warning>,
) -> Result<(), AllocError>
    requires { (1 + length local.now < 2 ^ 64) × (1 + length remote.now < 2 ^ 64) }
    ensures { OnOk result (list.new.items ≡ list.old.items
        ++ address_warnings (map string_bytes local.now) (map string_bytes remote.now)) }
{
    find_ports(Key::Local, 1, local, list)?;
    find_ports(Key::Remote, 1, remote, list)?;
    find_repeats(Key::Local, 1, local, list)?;
    find_repeats(Key::Remote, 1, remote, list)?;
    find_channels(1, local, remote, list)
}

/// Adds a warning for each telegram with a payload that is too long. A loop, since there may be as many as a file has
/// room for.
fn find_long(puts: &[PutEntry], list: &mut Vec<Warning>) -> Result<(), AllocError>
    ensures { OnOk result (list.new.items ≡ list.old.items ++ long_payloads 1 (map put_seen puts.now)) }
{
    let mut entry = 1;
    for put in puts {
        let size = put.payload.len();
        add_if(
            PAYLOAD_MAX < size,
            Warning::LongPayload { entry, size },
            list,
        )?;
        entry += 1;
    }
    Ok(())
}

/// Adds a warning to a list, if the condition holds.
fn add_if(is_so: bool, warning: Warning, list: &mut Vec<Warning>) -> Result<(), AllocError>
    ensures { OnOk result (list.new.items ≡ list.old.items ++ if_so is_so warning) }
{
    if is_so {
        list.push(warning)?;
    }
    Ok(())
}

/// Adds a warning for each address with the port 0.
fn find_ports(
    key: Key,
    place: u64,
    texts: &[String],
    list: &mut Vec<Warning>,
) -> Result<(), AllocError>
    requires { place + length texts.now < 2 ^ 64 }
    ensures { OnOk result (list.new.items ≡ list.old.items ++ port_warnings key place (map string_bytes texts.now)) }
{
    let [text, others @ ..] = texts else {
        return Ok(());
    };
    add_if(
        has_no_port(text.as_bytes()),
        Warning::NoPort(key, place),
        list,
    )?;
    find_ports(key, place + 1, others, list)
}

/// Returns whether an address has the port 0.
fn has_no_port(text: &[u8]) -> bool
    ensures { result ≡ names_no_port text.now }
{
    let size = text.len();
    2 <= size && text[size - 2] == b':' && text[size - 1] == b'0'
}

/// Adds a warning for each address that is in the list again.
fn find_repeats(
    key: Key,
    place: u64,
    texts: &[String],
    list: &mut Vec<Warning>,
) -> Result<(), AllocError>
    requires { place + length texts.now < 2 ^ 64 }
    ensures { OnOk result (list.new.items ≡ list.old.items ++ repeat_warnings key place (map string_bytes texts.now)) }
{
    let [text, others @ ..] = texts else {
        return Ok(());
    };
    add_if(
        is_listed(text.as_str(), others),
        Warning::Repeated(key, place),
        list,
    )?;
    find_repeats(key, place + 1, others, list)
}

/// Returns whether a text is in a list.
fn is_listed(text: &str, others: &[String]) -> bool
    ensures { result ≡ contains_text text.now (map string_bytes others.now) }
{
    match others {
        [] => false,
        [first, rest @ ..] => text == first.as_str() || is_listed(text, rest),
    }
}

/// Adds the warnings of channels whose two addresses do not fit.
fn find_channels(
    channel: u64,
    local: &[String],
    remote: &[String],
    list: &mut Vec<Warning>,
) -> Result<(), AllocError>
    requires { channel + length local.now < 2 ^ 64 }
    ensures { OnOk result (list.new.items ≡ list.old.items
        ++ channel_warnings channel (map string_bytes local.now) (map string_bytes remote.now)) }
{
    let [own, local @ ..] = local else {
        return Ok(());
    };
    let [peer, remote @ ..] = remote else {
        return Ok(());
    };
    add_if(
        own.as_str() == peer.as_str(),
        Warning::ToItself(channel),
        list,
    )?;
    add_if(
        are_two_kinds(own.as_bytes(), peer.as_bytes()),
        Warning::TwoKinds(channel, is_in_brackets(peer.as_bytes())),
        list,
    )?;
    find_channels(channel + 1, local, remote, list)
}

/// Returns whether one address is of IPv4 and one of IPv6.
fn are_two_kinds(own: &[u8], peer: &[u8]) -> bool
    ensures { result ≡ are_two_kinds own.now peer.now }
{
    if is_in_brackets(own) {
        !is_in_brackets(peer)
    } else {
        is_in_brackets(peer)
    }
}

/// Returns whether an address is in brackets, as addresses of IPv6 are.
fn is_in_brackets(text: &[u8]) -> bool
    ensures { result ≡ is_v6 text.now }
{
    0 < text.len() && text[0] == b'['
}

impl fmt::Display for Warning {
    fn fmt<W: fmt::Write>(&self, f: &mut fmt::Formatter<W>) -> fmt::Result {
        match self {
            Warning::LongWait(t_seq, t_max) => write!(
                f,
                "t_seq: {t_seq} is not below t_max {t_max}: a part that is deferred that long is too old when it is delivered"
            ),
            Warning::RareConfirmation(mwa, n_sendmax) => write!(
                f,
                "mwa: {mwa} is not below n_sendmax {n_sendmax}: with a full window the peer waits for the next heartbeat"
            ),
            Warning::NoPort(key, place) => write!(
                f,
                "{}: entry {place}: nothing can be sent to port 0",
                key.text()
            ),
            Warning::Repeated(key, place) => write!(
                f,
                "{}: entry {place}: this address is in the list again",
                key.text()
            ),
            Warning::ToItself(channel) => write!(
                f,
                "remote: entry {channel}: same address as local entry {channel}"
            ),
            Warning::TwoKinds(channel, true) => write!(
                f,
                "remote: entry {channel}: IPv6 address, but local entry {channel} is IPv4"
            ),
            Warning::TwoKinds(channel, false) => write!(
                f,
                "remote: entry {channel}: IPv4 address, but local entry {channel} is IPv6"
            ),
            Warning::WideWindow { window, mwa, q } => write!(
                f,
                "q: {q} is too small for n_sendmax {window} and mwa {mwa}: what comes after one lost datagram overruns it, and the connection may end"
            ),
            Warning::ShortAge { t_max, t_h, t_seq } => write!(
                f,
                "t_max: {t_max} is below three t_h {t_h} and t_seq {t_seq}: a single loss can end the connection"
            ),
            Warning::SameName => {
                f.write_str("name: equal to peer_name: telegrams do not show which end sent them")
            }
            Warning::UnsentChecksum => {
                f.write_str("checksum: not used: only a field element sends one")
            }
            Warning::FixedNumber(number) => write!(
                f,
                "first_sn: {number} holds for the first opening only: with --keep each reopening draws a number"
            ),
            Warning::LongPayload { entry, size } => write!(
                f,
                "puts: entry {entry}: payload of {size} bytes is longer than {PAYLOAD_MAX}: the end refuses it as TooLong"
            ),
        }
    }
}
