//! The keys of a settings file, and the faults of a file.

ghost use Rattle.std.specs.Prelude.{◌≡◌};
ghost use Rattle.settings_file.specs.Keys.{text_of};
ghost use Rattle.settings_file.specs.declared.keys.ReadFault.TheVariants as read_fault;

use end_settings::Side;
use std::alloc::AllocError;
use std::fmt;

/// A key of a settings file.
#[derive(Clone, Copy, Debug, PartialEq, Eq)]
pub enum Key {
    /// `id`: the end's own identifier.
    Id,
    /// `peer_id`: the identifier of the peer.
    PeerId,
    /// `name`: the end's own name.
    Name,
    /// `peer_name`: the name of the peer.
    PeerName,
    /// `protocol`: the protocol type of the session.
    Protocol,
    /// `version`: the only PDI version.
    Version,
    /// `versions`: the PDI versions of a field element.
    Versions,
    /// `code`: the length of the safety code in bytes.
    Code,
    /// `checksum`: the checksum that a field element sends in the version check.
    Checksum,
    /// `iv`: the initial value of the safety code.
    InitialValue,
    /// `first_sn`: the first sequence number.
    FirstSn,
    /// `local`: the end's own addresses, one for each channel.
    Local,
    /// `remote`: the addresses of the peer.
    Remote,
    /// `n_sendmax`: the number of units that the peer may leave unconfirmed.
    NSendmax,
    /// `n_maxpacket`: the number of messages that are packed into one unit.
    NMaxpacket,
    /// `q`: the number of parts that may be deferred.
    Deferral,
    /// `t_max`: the greatest age of the last confirmation, in milliseconds.
    TMax,
    /// `t_h`: the time between heartbeats, in milliseconds.
    THeartbeat,
    /// `t_seq`: the time for which a part is deferred, in milliseconds.
    TSeq,
    /// `mwa`: the number of units taken after which a heartbeat is sent.
    Mwa,
    /// `pdu_limit`: the number of PDUs that one connection may have.
    PduLimit,
    /// `puts`: the telegrams to be put.
    Puts,
}

/// The value that a key expects.
#[derive(Clone, Copy, Debug, PartialEq, Eq)]
pub enum ExpectedValue {
    /// A whole number in this range.
    Whole {
        /// The least number.
        low: u64,
        /// The greatest number.
        high: u64,
    },
    /// A number of four bytes, or the text `random`.
    FirstNumber,
    /// A name.
    Name,
    /// The number 8 or 16.
    CodeLength,
    /// 32 hex digits.
    SixteenOctets,
    /// At most 32 hex digits, an even number.
    UpToSixteenOctets,
    /// One to four different numbers from 0 to 255.
    DifferentVersions,
    /// One to four texts, as many as in the other list of addresses.
    Addresses,
    /// A list of texts of four hex digits, a colon, and hex digits.
    Puts,
    /// Such a text, as an entry of `puts`.
    Put,
    /// A number other than the end's own identifier.
    AnotherId,
    /// Nothing: this end has no such key, or not beside its sibling.
    Absent,
}

/// The value that a key has.
#[derive(Clone, Copy, Debug, PartialEq, Eq)]
pub enum PresentValue {
    /// None, and the default is missing or not valid.
    Nothing,
    /// This whole number.
    Number(i64),
    /// Anything else.
    Other,
}

/// A key whose value is not the one it expects.
#[derive(Clone, Copy, Debug, PartialEq, Eq)]
pub struct KeyFault {
    /// The key.
    pub key: Key,
    /// The value that it expects.
    pub expected: ExpectedValue,
    /// The value that it has.
    pub found: PresentValue,
}

/// Why a file is not a settings file. In a file for both ends a key is named with its table.
#[derive(Debug, Drop)]
pub enum SettingsFault {
    /// It is not a TOML document; the line, from 1, in which the fault begins.
    Document(usize),
    /// The table of this end is missing.
    NoTable(Side),
    /// No end has this key, or, in a file for both ends, it is outside the tables.
    Unknown(Option<Side>, String),
    /// The value of a key is not the one it expects.
    Key(Option<Side>, KeyFault),
    /// An allocation failed.
    Memory(AllocError),
}

/// Why a key was not read.
#[derive(Clone, Copy, Debug)]
pub enum ReadFault {
    /// Its value is not the one it expects.
    Key(KeyFault),
    /// An allocation failed.
    Memory(AllocError),
}

impl From<KeyFault> for ReadFault {
    ghost from_gives = { λ fault r. r ≡ read_fault.Key fault };

    fn from(fault: KeyFault) -> ReadFault {
        ReadFault::Key(fault)
    }
}

impl From<AllocError> for ReadFault {
    ghost from_gives = { λ refused r. r ≡ read_fault.Memory refused };

    fn from(refused: AllocError) -> ReadFault {
        ReadFault::Memory(refused)
    }
}

impl Key {
    /// Returns the key as it is written in a file.
    pub fn text(self) -> &'static str
        // `text` returns the name of each key in a file, for example `peer_id` for `PeerId`.
        ensures { result.now ≡ text_of self }
    {
        match self {
            Key::Id => "id",
            Key::PeerId => "peer_id",
            Key::Name => "name",
            Key::PeerName => "peer_name",
            Key::Protocol => "protocol",
            Key::Version => "version",
            Key::Versions => "versions",
            Key::Code => "code",
            Key::Checksum => "checksum",
            Key::InitialValue => "iv",
            Key::FirstSn => "first_sn",
            Key::Local => "local",
            Key::Remote => "remote",
            Key::NSendmax => "n_sendmax",
            Key::NMaxpacket => "n_maxpacket",
            Key::Deferral => "q",
            Key::TMax => "t_max",
            Key::THeartbeat => "t_h",
            Key::TSeq => "t_seq",
            Key::Mwa => "mwa",
            Key::PduLimit => "pdu_limit",
            Key::Puts => "puts",
        }
    }
}

impl fmt::Display for ExpectedValue {
    fn fmt<W: fmt::Write>(&self, f: &mut fmt::Formatter<W>) -> fmt::Result {
        let text = match self {
            ExpectedValue::Whole { low, high } => return write!(f, "{low} to {high}"),
            ExpectedValue::FirstNumber => "0 to 4294967295 or \"random\"",
            ExpectedValue::Name => "1 to 20 printable ASCII characters, no space or underscore",
            ExpectedValue::CodeLength => "8 or 16",
            ExpectedValue::SixteenOctets => "32 hex digits",
            ExpectedValue::UpToSixteenOctets => "0 to 16 bytes as hex digits",
            ExpectedValue::DifferentVersions => "1 to 4 different numbers from 0 to 255",
            ExpectedValue::Addresses => "1 to 4 texts, as many in local as in remote",
            ExpectedValue::Puts => "a list of texts TYPE:HEX",
            ExpectedValue::Put => "a text TYPE:HEX",
            ExpectedValue::AnotherId => "a number other than id",
            ExpectedValue::Absent => "not allowed here",
        };
        f.write_str(text)
    }
}

impl fmt::Display for PresentValue {
    fn fmt<W: fmt::Write>(&self, f: &mut fmt::Formatter<W>) -> fmt::Result {
        match self {
            PresentValue::Nothing => f.write_str("nothing"),
            PresentValue::Number(number) => write!(f, "{number}"),
            PresentValue::Other => f.write_str("another value"),
        }
    }
}

impl fmt::Display for KeyFault {
    fn fmt<W: fmt::Write>(&self, f: &mut fmt::Formatter<W>) -> fmt::Result {
        let key = self.key.text();
        if self.expected == ExpectedValue::Absent {
            return write!(f, "{key}: {}", self.expected);
        }
        write!(f, "{key}: expected {}, found {}", self.expected, self.found)
    }
}

/// Returns the prefix of a key's name: `il.`, `fe.`, or nothing at the top of a file.
pub(crate) fn prefix(table: Option<Side>) -> &'static str {
    match table {
        None => "",
        Some(Side::Interlocking) => "il.",
        Some(Side::FieldElement) => "fe.",
    }
}

impl fmt::Display for SettingsFault {
    fn fmt<W: fmt::Write>(&self, f: &mut fmt::Formatter<W>) -> fmt::Result {
        match self {
            SettingsFault::Document(line) => write!(f, "line {line}: not valid TOML"),
            SettingsFault::NoTable(Side::Interlocking) => f.write_str("table il is missing"),
            SettingsFault::NoTable(Side::FieldElement) => f.write_str("table fe is missing"),
            SettingsFault::Unknown(table, key) => write!(f, "{}{key}: unknown key", prefix(*table)),
            SettingsFault::Key(table, fault) => write!(f, "{}{fault}", prefix(*table)),
            SettingsFault::Memory(_) => f.write_str("out of memory"),
        }
    }
}
