//! Why, when and by whom a connection was ended.

ghost use Rattle.std.specs.Prelude.{◌≡◌, ◌≤◌, ◌&&◌, not, None, Some, if◌then◌else◌};
ghost use Rattle.safe_pdu.specs.declared.reasons.Reason.TheVariants.{ClosedByUser};
ghost use Rattle.safe_pdu.specs.declared.reasons.Detail.TheVariants.{Unspecified};
ghost use Rattle.safe_machine.specs.Connections.{is_closed};
ghost use Rattle.stack_end.specs.Departures.{asked_leaving, number_at, own_departure, own_leaving, part_departure, peer_leaving, version_in};

use octets::Milliseconds;
use octets::limits::{MESSAGE_LENGTH, MESSAGE_MIN, SAFE_HEADER};
use octets::places::u16_at;
use safe_machine::{ConnectionState, Detail, Reason, Step};

/// Who ended a connection.
#[derive(Clone, Copy, Debug, PartialEq, Eq)]
pub enum Leaver {
    /// This end.
    Own,
    /// The peer, by a DiscReq.
    Peer,
}

/// How an end came to be closed.
#[derive(Clone, Copy, Debug, PartialEq, Eq)]
pub struct Departure {
    /// Who ended the connection.
    pub by: Leaver,
    /// The number of the reason, as in a DiscReq. A peer may send a number that is not assigned.
    pub reason: u16,
    /// The number of the detail, as in a DiscReq.
    pub detail: u16,
    /// The own time at which the end was closed, in milliseconds.
    pub time: Milliseconds,
    /// The peer's PDI version, if the session of this end was ended because the versions differ.
    pub version: Option<u8>,
}

/// The place of the version in a part whose unit begins with the reply to a version check: after the PDU's header,
/// the message's length and header, and the result.
const VERSION: usize = SAFE_HEADER + MESSAGE_LENGTH + MESSAGE_MIN + 1;

/// Returns the departure of an end that disconnects by itself, or `None` if it does not.
pub(crate) fn own_departure(why: Option<(Reason, Detail)>, now: Milliseconds) -> Option<Departure>
    ensures { result ≡ own_departure why now }
{
    match why {
        Some((reason, detail)) => Some(own_leaving(reason, detail, now)),
        None => None,
    }
}

/// Returns the departure of an end that disconnects by itself for a reason.
fn own_leaving(reason: Reason, detail: Detail, now: Milliseconds) -> Departure
    ensures { result ≡ own_leaving (reason, detail) now }
{
    Departure {
        by: Leaver::Own,
        reason: reason.number(),
        detail: detail.number(),
        time: now,
        version: None,
    }
}

/// Returns the departure of an end that disconnects since its session has ended, or a message could not be read.
fn asked_leaving(reason: Reason, detail: Detail, octets: &[u8], now: Milliseconds) -> Departure
    ensures { result ≡ asked_leaving (reason, detail) octets.now now }
{
    let mut departure = own_leaving(reason, detail, now);
    departure.version = match detail {
        Detail::VersionDiffers => version_in(octets),
        _ => None,
    };
    departure
}

/// Returns the version in a part whose unit begins with the reply to a version check.
fn version_in(octets: &[u8]) -> Option<u8>
    ensures { result ≡ version_in octets.now }
{
    if octets.len() <= VERSION {
        None
    } else {
        Some(octets[VERSION])
    }
}

/// Returns the departure of an end whose peer has disconnected, from the bytes of the peer's DiscReq.
fn peer_leaving(octets: &[u8], now: Milliseconds) -> Departure
    ensures { result ≡ peer_leaving octets.now now }
{
    Departure {
        by: Leaver::Peer,
        reason: number_at(octets, SAFE_HEADER + 2),
        detail: number_at(octets, SAFE_HEADER),
        time: now,
        version: None,
    }
}

/// Returns the little-endian number in the two bytes from a place on.
pub(crate) fn number_at(octets: &[u8], place: usize) -> u16
    requires { place ≤ 1000 }
    ensures { result ≡ number_at place octets.now }
{
    if octets.len() < place + 2 {
        0
    } else {
        u16_at(octets, place)
    }
}

/// Returns why an end disconnects that its user closes, or `None` if it is closed already.
pub(crate) fn user_leaves(state: ConnectionState) -> Option<(Reason, Detail)>
    ensures { result ≡ (if is_closed state then None else Some (ClosedByUser, Unspecified)) }
{
    match state {
        ConnectionState::Closed => None,
        _ => Some((Reason::ClosedByUser, Detail::Unspecified)),
    }
}

/// Returns true if a connection has been closed between two states.
pub(crate) fn closes(before: ConnectionState, after: ConnectionState) -> bool
    ensures { result ≡ (not (is_closed before) && is_closed after) }
{
    match (before, after) {
        (ConnectionState::Closed, _) => false,
        (_, ConnectionState::Closed) => true,
        (_, _) => false,
    }
}

/// Returns how a part closes an end, or `None` if it does not. `step` is the machine's result for the part, `asked`
/// why the session has to disconnect, and `shut` whether the part closed the machine.
pub(crate) fn part_departure(
    step: Step,
    asked: Option<(Reason, Detail)>,
    shut: bool,
    octets: &[u8],
    now: Milliseconds,
) -> Option<Departure>
    ensures { result ≡ part_departure step asked shut octets.now now }
{
    match (step, asked) {
        (Step::Left(reason, detail), _) => Some(own_leaving(reason, detail, now)),
        (_, Some((reason, detail))) => Some(asked_leaving(reason, detail, octets, now)),
        (_, None) => {
            if shut {
                Some(peer_leaving(octets, now))
            } else {
                None
            }
        }
    }
}
