//! The content of a settings file.

use end_settings::{Checksum, EndConfig, Versions};
use octets::Milliseconds;
use pdi_session::MessageType;
use pdi_session::telegram::OwnedName;
use safe_pdu::Identifier;

/// An end and its peer.
#[derive(Clone, Copy, Debug, PartialEq, Eq)]
pub struct Identity {
    /// The end's own identifier.
    pub id: Identifier,
    /// The identifier of the peer.
    pub peer_id: Identifier,
    /// The end's own name.
    pub name: OwnedName,
    /// The name of the peer.
    pub peer_name: OwnedName,
    /// The protocol type.
    pub protocol: u8,
}

/// The values that an end uses to connect.
#[derive(Clone, Copy, Debug, PartialEq, Eq)]
pub struct Beginning {
    /// The PDI versions.
    pub versions: Versions,
    /// The length of the safety code in bytes.
    pub code: u64,
    /// The checksum of a field element.
    pub checksum: Checksum,
    /// The initial value of the safety code.
    pub initial_value: [u32; 4],
    /// The first sequence number; `None` if it is drawn at random.
    pub first_sn: Option<u32>,
}

/// The limits of an end.
#[derive(Clone, Copy, Debug, PartialEq, Eq)]
pub struct Limits {
    /// The number of units that the peer may leave unconfirmed.
    pub n_sendmax: u64,
    /// The greatest number of messages in a unit.
    pub n_maxpacket: u64,
    /// The number of parts that may be deferred.
    pub deferral: u64,
    /// The greatest age of the last confirmation, in milliseconds.
    pub t_max: Milliseconds,
    /// The time between heartbeats, in milliseconds.
    pub t_heartbeat: Milliseconds,
    /// The time for which a part is deferred, in milliseconds.
    pub t_seq: Milliseconds,
    /// The number of units taken after which a heartbeat is sent.
    pub mwa: u64,
    /// The number of PDUs that one connection may have.
    pub pdu_limit: u64,
}

/// A telegram to be put.
#[derive(Debug, Drop)]
pub struct PutEntry {
    /// Its message type.
    pub kind: MessageType,
    /// Its payload, of any length: an end refuses one that is too long.
    pub payload: Vec<u8>,
}

/// The settings of one end.
#[derive(Debug, Drop)]
pub struct Settings {
    /// The settings with which the end is opened.
    pub config: EndConfig,
    /// Its first sequence number; `None` if one is drawn at random for each opening.
    pub first_sn: Option<u32>,
    /// Its own addresses as texts, one for each channel. They are parsed only when channels are opened.
    pub local: Vec<String>,
    /// The addresses of the peer, as many as its own.
    pub remote: Vec<String>,
    /// The telegrams that the end is to put, in order.
    pub puts: Vec<PutEntry>,
}

/// The settings of the ends that a word runs.
#[derive(Debug, Drop)]
pub enum Ends {
    /// Of an interlocking.
    Il(Settings),
    /// Of a field element.
    Fe(Settings),
    /// Of an interlocking and a field element.
    Pair(Settings, Settings),
}
