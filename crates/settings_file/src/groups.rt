//! The keys of one end, in groups.

ghost use Rattle.std.specs.Prelude.{◌≡◌};
ghost use Rattle.toml.specs.View.{view};
ghost use Rattle.settings_file.specs.Groups.{limit_at, limits_of, identity_of, identity_seen, beginning_of, beginning_seen};
ghost use Rattle.settings_file.specs.Readers.{read_as};

use crate::keys::{ExpectedValue, Key, KeyFault};
use crate::readers::{
    checksum, code, first_number, identifier, initial_value, name, number, octet, versions, wrong,
};
use crate::values::{Beginning, Identity, Limits};
use end_settings::Side;
use octets::Milliseconds;
use octets::limits::{
    MWA_MAX, PDU_LIMIT_HIGHEST, PDU_LIMIT_LOWEST, Q_MAX, T_H_LOWEST, T_MAX_HIGHEST, T_MAX_LOWEST,
    T_SEQ_LOWEST, T_SEQ_MAX, UNIT_MESSAGES, WINDOW_MAX,
};
use toml::Value;

/// Reads the identifiers, names and protocol type of the end and its peer.
///
/// # Errors
///
/// - `KeyFault` of the first key that is wrong; `peer_id` must differ from `id`.
pub fn read_identity(table: &Value) -> Result<Identity, KeyFault>
    // `read_identity` reads `id`, `peer_id`, `name`, `peer_name` and `protocol` in this order, with both
    // identifiers different, and returns their values or the first fault.
    ensures { read_as identity_seen result ≡ identity_of (view table.now) }
{
    let id = identifier(table, Key::Id)?;
    let peer_id = identifier(table, Key::PeerId)?;
    if peer_id == id {
        return Err(wrong(table, Key::PeerId, ExpectedValue::AnotherId));
    }
    let own_name = name(table, Key::Name)?;
    let peer_name = name(table, Key::PeerName)?;
    let protocol = octet(table, Key::Protocol, 1)?;
    Ok(Identity {
        id,
        peer_id,
        name: own_name,
        peer_name,
        protocol,
    })
}

/// Reads the values that the end uses to connect.
///
/// # Errors
///
/// - `KeyFault` of the first key that is wrong.
pub fn read_beginning(side: Side, table: &Value) -> Result<Beginning, KeyFault>
    // `read_beginning` reads the versions of this side, `code`, `checksum`, the initial value and `first_sn` in
    // this order, and returns their values or the first fault.
    ensures { read_as beginning_seen result ≡ beginning_of side (view table.now) }
{
    let versions = versions(side, table)?;
    let code = code(table)?;
    let checksum = checksum(table)?;
    let initial_value = initial_value(table)?;
    let first_sn = first_number(table)?;
    Ok(Beginning {
        versions,
        code,
        checksum,
        initial_value,
        first_sn,
    })
}

/// Reads the limits of the end.
///
/// # Errors
///
/// - `KeyFault` of the first key that is wrong; `t_h` must be below `t_max`.
pub fn read_limits(table: &Value) -> Result<Limits, KeyFault>
    // `read_limits` reads the eight limits in their order, with `t_h` below the `t_max` read, and returns their
    // values or the first fault.
    ensures { result ≡ limits_of (view table.now) }
{
    let n_sendmax = limit(table, 0, Key::NSendmax)?;
    let n_maxpacket = limit(table, 0, Key::NMaxpacket)?;
    let deferral = limit(table, 0, Key::Deferral)?;
    let t_max = limit(table, 0, Key::TMax)?;
    let t_heartbeat = limit(table, t_max, Key::THeartbeat)?;
    let t_seq = limit(table, t_max, Key::TSeq)?;
    let mwa = limit(table, t_max, Key::Mwa)?;
    let pdu_limit = limit(table, t_max, Key::PduLimit)?;
    Ok(Limits {
        n_sendmax,
        n_maxpacket,
        deferral,
        t_max,
        t_heartbeat,
        t_seq,
        mwa,
        pdu_limit,
    })
}

/// Reads one limit. Only `t_h` depends on T_max.
///
/// # Errors
///
/// - `KeyFault` if the number is missing and has no default, or is outside its range.
pub fn limit(table: &Value, t_max: Milliseconds, key: Key) -> Result<u64, KeyFault>
    // `limit` returns the number at the key, or its default, within the key's range; that of `t_h` ends below
    // `t_max`.
    ensures { result ≡ limit_at (view table.now) t_max key }
{
    match key {
        Key::NSendmax => number(table, key, 1, WINDOW_MAX as u64, Some(20)),
        Key::NMaxpacket => number(table, key, 1, UNIT_MESSAGES as u64, Some(3)),
        Key::Deferral => number(table, key, 1, Q_MAX as u64, Some(4)),
        Key::TMax => number(table, key, T_MAX_LOWEST, T_MAX_HIGHEST, Some(1_800)),
        Key::THeartbeat => number(table, key, T_H_LOWEST, t_max.saturating_sub(1), Some(300)),
        Key::TSeq => number(table, key, T_SEQ_LOWEST, T_SEQ_MAX, Some(50)),
        Key::Mwa => number(table, key, 1, MWA_MAX as u64, Some(10)),
        _ => number(
            table,
            key,
            PDU_LIMIT_LOWEST,
            PDU_LIMIT_HIGHEST,
            Some(PDU_LIMIT_HIGHEST),
        ),
    }
}
