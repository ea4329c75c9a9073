//! The settings that an end is opened with: those of all its layers in one value, and the test that rejects
//! unusable ones.
#![tactic(auto)]

ghost use Rattle.std.specs.Prelude.{◌≡◌, ◌≤◌};
ghost use Rattle.octets.specs.declared.limits.TheConstants.{WINDOW_MAX};
ghost use Rattle.safe_machine.specs.Settings.{is_legal};
ghost use Rattle.end_settings.specs.EndSettings.{are_fit, connection_of, has_versions, in_limits};
ghost use Rattle.end_settings.specs.ConfigValue.{code_of, role_of, settings_of, side_of};
ghost use Rattle.safe_machine.specs.View.{settings_of as machine_settings};

mod lists;

pub use lists::{Checksum, Versions};
use octets::Milliseconds;
use octets::limits::{CHANNELS_MAX, Q_MAX, T_SEQ_LOWEST, T_SEQ_MAX, UNIT_MESSAGES, WINDOW_MAX};
use pdi_session::are_versions;
use pdi_session::telegram::OwnedName;
use safe_machine::{MachineConfig, Role};
use safe_pdu::{CodeLength, CodeRule, Identifier};

/// The two ends of a connection.
#[derive(Clone, Copy, Debug, PartialEq, Eq)]
pub enum Side {
    /// The interlocking, the client: it requests the connection and the session.
    Interlocking,
    /// The field element, the server: it accepts them.
    FieldElement,
}

impl Side {
    /// Returns the role of this end's safety machine.
    pub fn role(self) -> Role
        // The interlocking is the client, the field element the server.
        ensures { result ≡ role_of self }
    {
        match self {
            Side::Interlocking => Role::Client,
            Side::FieldElement => Role::Server,
        }
    }
}

/// The settings that an end is opened with. The numbers can have any value, so that a script or a file is
/// rejected for a number only when an end is opened; `is_fit` tests them. Names, versions and checksum have
/// types that hold no more than the profile allows.
#[derive(Clone, Copy, Debug, PartialEq, Eq)]
pub struct EndConfig {
    /// This end's identifier.
    pub id: Identifier,
    /// The peer's identifier, a different one.
    pub peer_id: Identifier,
    /// This end's name.
    pub name: OwnedName,
    /// The peer's name.
    pub peer_name: OwnedName,
    /// The protocol type of the session.
    pub protocol: u8,
    /// The PDI versions: one at an interlocking, one to four different ones at a field element.
    pub versions: Versions,
    /// The checksum that a field element sends when it is asked for its version. Nothing compares it.
    pub checksum: Checksum,
    /// The length of the safety code in bytes, 8 or 16.
    pub code: u64,
    /// The initial value of the digest of which the safety code is a prefix.
    pub initial_value: [u32; 4],
    /// The number of channels, 1 to 4.
    pub channels: u64,
    /// How many units the peer may have unconfirmed (N_sendmax), 1 to 32.
    pub n_sendmax: u64,
    /// How many messages are packed into one unit, 1 to 3.
    pub n_maxpacket: u64,
    /// How many early parts the redundancy layer defers, 1 to 8.
    pub q: u64,
    /// The greatest age of the last confirmation (T_max), 100 to 60,000 milliseconds.
    pub t_max: Milliseconds,
    /// The time after the last sending at which a connected end sends a heartbeat (T_h), 10 to t_max minus
    /// 1 milliseconds.
    pub t_h: Milliseconds,
    /// How long early parts are deferred (T_seq), 10 to 1,000 milliseconds.
    pub t_seq: Milliseconds,
    /// The number of units taken without sending after which a heartbeat is sent (MWA), 1 to 16.
    pub mwa: u64,
    /// The number of PDUs that one connection may have, 100 to 4,294,901,760.
    pub pdu_limit: u64,
}

impl EndConfig {
    /// Returns whether an end can be opened on this side with these settings. Opening refuses all others as
    /// BadConfig.
    pub fn is_fit(&self, side: Side) -> bool
        // The result is true if and only if all numbers are in their ranges, the identifiers differ, names
        // and checksum are well formed, and the versions are as the side needs them.
        ensures { result ≡ are_fit (side_of side) (settings_of self.now) }
    {
        // The types make names and checksum fit. So does the type of the protocol type, whose range is
        // known after it is read.
        let _protocol = self.protocol;
        if !self.is_connection() {
            return false;
        }
        if !self.in_limits() {
            return false;
        }
        self.has_versions(side)
    }

    /// Returns the length of the safety code if it is 8 or 16, else `Zero`, which the safety machine
    /// rejects.
    pub fn code_length(&self) -> CodeLength
        // The result is `Eight` for 8, `Sixteen` for 16, and `Zero` for any other number.
        ensures { result ≡ code_of self.now.code }
    {
        match self.code {
            8 => CodeLength::Eight,
            16 => CodeLength::Sixteen,
            _ => CodeLength::Zero,
        }
    }

    /// Returns the settings of the safety machine. The caller must have checked that `n_sendmax` is at most 32.
    pub fn machine(&self) -> MachineConfig
        requires { self.now.n_sendmax ≤ WINDOW_MAX }
        // For either `side`, the result in the role of that side is the end's connection settings in that
        // role.
        ensures { (side : Side) → machine_settings (role_of side) result
            ≡ connection_of (side_of side) (settings_of self.now) }
    {
        MachineConfig {
            own: self.id,
            peer: self.peer_id,
            n_sendmax: self.n_sendmax as u16,
            t_max: self.t_max,
            t_h: self.t_h,
            mwa: self.mwa,
            pdu_limit: self.pdu_limit,
            rule: CodeRule {
                length: self.code_length(),
                initial_value: self.initial_value,
            },
        }
    }

    /// Returns whether the settings of the safety machine are in their ranges.
    fn is_connection(&self) -> bool
        ensures { result ≡ is_legal (settings_of self.now).connection }
    {
        if self.n_sendmax > WINDOW_MAX as u64 {
            return false;
        }
        self.machine().is_legal(Role::Client)
    }

    /// Returns whether the settings of the other layers are in their ranges.
    fn in_limits(&self) -> bool
        ensures { result ≡ in_limits (settings_of self.now) }
    {
        1 <= self.channels
            && self.channels <= CHANNELS_MAX as u64
            && 1 <= self.n_maxpacket
            && self.n_maxpacket <= UNIT_MESSAGES as u64
            && 1 <= self.q
            && self.q <= Q_MAX as u64
            && T_SEQ_LOWEST <= self.t_seq
            && self.t_seq <= T_SEQ_MAX
    }

    /// Returns whether the versions are as the side needs them.
    fn has_versions(&self, side: Side) -> bool
        ensures { result ≡ has_versions (side_of side) (settings_of self.now) }
    {
        match side {
            Side::Interlocking => self.versions.as_slice().len() == 1,
            Side::FieldElement => are_versions(self.versions.as_slice()),
        }
    }
}
