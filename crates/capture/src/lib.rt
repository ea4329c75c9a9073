//! Reading of recorded connections: datagrams from a text or a pcap or pcapng file, and what is remarkable in them.
//!
//! A line of a text is what `tshark -T fields -e frame.time_epoch -e ip.src -e udp.srcport -e ip.dst -e udp.dstport
//! -e udp.payload` prints for a datagram. Only `Follower::new` and `Connections::take_spare` allocate, and
//! no call waits.
//!
//! The laws hold for fewer than 2^64 numbers and datagrams. Two datagrams with one fingerprint count as equal; that
//! is not proved, since a fingerprint has only 64 bits.
#![tactic(auto)]

mod connections;
mod continuation;
mod datagram;
mod direction;
mod distribution;
mod encapsulation;
mod file;
mod follower;
mod frame;
mod instants;
mod interfaces;
mod law;
mod line;
mod measures;
mod packets;
mod places;
mod ports;
mod sessions;
mod window;
mod words;

pub use connections::{
    CONNECTIONS, Connection, Connections, Entry, Route, follow, has_identifiers, is_same,
};
pub use datagram::{DecodedDatagram, Header, decode, spell};
pub use direction::{
    CHANNELS, Confirmation, DAMAGES, Damage, Direction, Peer, Place, Remarks, SessionOpening,
    Tally, follow_pdu, is_first_copy, silence,
};
pub use distribution::{CLASSES, Distribution, class};
pub use file::{
    BLOCK_MAX, BlockContent, BlockFrame, FileFault, FileForm, FilePart, INTERFACES, Recording,
    SKIPPED_AT_ONCE,
};
pub use follower::{Follower, Remark, Totals, sum_up};
pub use frame::{FoundDatagram, Link, NoDatagramCause, find_datagram};
pub use instants::{Instant, Span, is_between, read_instant};
pub use interfaces::{Interface, TimeOffset};
pub use law::sums_law;
pub use line::{Address, Buffer, Host, LineFault, PAYLOAD_ROOM, Record, read_line};
pub use measures::{MOMENTS, Measurements, Measures};
pub use ports::{PortRange, Ports, RANGES, is_followed, read_ports};
pub use sessions::{
    Disconnection, SESSIONS, Session, SessionRequest, SessionTotals, Sessions, Side,
    add_up_sessions, alone, is_unanswered, lost_alone, lost_everywhere,
};
pub use window::{KEPT, LATE_MAX, NumberOrder, PASSED_MAX, SeenNumber, Window, judge, note};
