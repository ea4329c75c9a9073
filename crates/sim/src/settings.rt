//! The settings of a script; each opening uses them as they are at that time.

use crate::sides::Sides;
use end_settings::{Checksum, EndConfig, Side, Versions};
use pdi_session::telegram::{Name, OwnedName};
use safe_pdu::Identifier;

/// The keys of `set`.
#[derive(Clone, Copy, Debug, PartialEq, Eq)]
pub enum Key {
    /// N_sendmax of both ends.
    NSendmax,
    /// The most messages that both ends pack into one unit.
    NMaxpacket,
    /// The most parts that both ends defer.
    Q,
    /// T_max of both ends, in milliseconds.
    TMax,
    /// T_h of both ends, in milliseconds.
    TH,
    /// T_seq of both ends, in milliseconds.
    TSeq,
    /// MWA of both ends.
    Mwa,
    /// The most PDUs of a connection.
    PduLimit,
    /// The number of channels.
    Channels,
    /// The length of the safety code in bytes.
    Code,
    /// The first sequence number of an end.
    FirstSn(Side),
    /// The only PDI version of an end.
    Version(Side),
}

impl Key {
    /// Returns the key with this name.
    pub fn of(word: &str) -> Option<Self> {
        match word {
            "n_sendmax" => Some(Key::NSendmax),
            "n_maxpacket" => Some(Key::NMaxpacket),
            "q" => Some(Key::Q),
            "t_max" => Some(Key::TMax),
            "t_h" => Some(Key::TH),
            "t_seq" => Some(Key::TSeq),
            "mwa" => Some(Key::Mwa),
            "pdu_limit" => Some(Key::PduLimit),
            "channels" => Some(Key::Channels),
            "code" => Some(Key::Code),
            "sn_il" => Some(Key::FirstSn(Side::Interlocking)),
            "sn_fe" => Some(Key::FirstSn(Side::FieldElement)),
            "version_il" => Some(Key::Version(Side::Interlocking)),
            "version_fe" => Some(Key::Version(Side::FieldElement)),
            _ => None,
        }
    }

    /// Returns the largest number that a script may set; an end may still refuse to open with it.
    pub fn greatest(self) -> u32 {
        match self {
            Key::Version(_) => 255,
            _ => u32::MAX,
        }
    }
}

/// A key with its value.
#[derive(Clone, Copy, Debug, PartialEq, Eq)]
pub struct Setting {
    /// The key.
    pub key: Key,
    /// The new value.
    pub value: u32,
}

/// The settings of both ends.
#[derive(Clone, Copy, Debug)]
pub struct ScriptSettings {
    /// The settings that each end is opened with.
    ends: Sides<EndConfig>,
    /// The first sequence number of each end.
    first_sn: Sides<u32>,
}

impl ScriptSettings {
    /// Returns the settings at the start of a script; `None` would be a defect of this program.
    pub fn new() -> Option<Self> {
        let il = OwnedName::new(Name::new("IL1").ok()?);
        let fe = OwnedName::new(Name::new("FE1").ok()?);
        Some(ScriptSettings {
            ends: Sides {
                il: begin_config(1, il, 2, fe)?,
                fe: begin_config(2, fe, 1, il)?,
            },
            first_sn: Sides { il: 100, fe: 500 },
        })
    }

    /// Changes a setting.
    pub fn set(&mut self, setting: Setting) {
        let value = setting.value;
        match setting.key {
            Key::FirstSn(side) => *self.first_sn.of_mut(side) = value,
            Key::Version(side) => {
                if let Some(versions) = Versions::new(&[(value & 0xff) as u8]) {
                    self.ends.of_mut(side).versions = versions;
                }
            }
            key => {
                change(&mut self.ends.il, key, u64::from(value));
                change(&mut self.ends.fe, key, u64::from(value));
            }
        }
    }

    /// Sets the PDI versions of the field element.
    pub fn set_versions(&mut self, versions: Versions) {
        self.ends.fe.versions = versions;
    }

    /// Returns the settings that an end is opened with.
    pub fn config(&self, side: Side) -> EndConfig {
        *self.ends.of(side)
    }

    /// Returns the first sequence number that an end is opened with.
    pub fn first_sn(&self, side: Side) -> u32 {
        *self.first_sn.of(side)
    }

    /// Returns the number of channels.
    pub fn channels(&self) -> u64 {
        self.ends.il.channels
    }
}

/// Returns the settings of an end at the start of a script.
fn begin_config(
    id: Identifier,
    name: OwnedName,
    peer_id: Identifier,
    peer_name: OwnedName,
) -> Option<EndConfig> {
    Some(EndConfig {
        id,
        peer_id,
        name,
        peer_name,
        protocol: 1,
        versions: Versions::new(&[3])?,
        checksum: Checksum::new(&[])?,
        code: 8,
        initial_value: md4::INITIAL_VALUE,
        channels: 2,
        n_sendmax: 20,
        n_maxpacket: 3,
        q: 4,
        t_max: 1800,
        t_h: 300,
        t_seq: 50,
        mwa: 10,
        pdu_limit: 4_294_901_760,
    })
}

/// Changes a setting that both ends share.
fn change(end: &mut EndConfig, key: Key, value: u64) {
    match key {
        Key::NSendmax => end.n_sendmax = value,
        Key::NMaxpacket => end.n_maxpacket = value,
        Key::Q => end.q = value,
        Key::TMax => end.t_max = value,
        Key::TH => end.t_h = value,
        Key::TSeq => end.t_seq = value,
        Key::Mwa => end.mwa = value,
        Key::PduLimit => end.pdu_limit = value,
        Key::Channels => end.channels = value,
        Key::Code => end.code = value,
        Key::FirstSn(_) | Key::Version(_) => {}
    }
}
