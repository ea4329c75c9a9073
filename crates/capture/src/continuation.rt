//! Which connection a PDU belongs to that comes between addresses that no connection of its identifiers has.
//!
//! The first PDUs on a further channel come between such addresses, and so do those of another system with the same
//! identifiers. Sequence numbers begin anywhere among 2^32, so they tell both apart.

ghost use Rattle.std.specs.Prelude.{◌≡◌};
ghost use Rattle.capture.specs.Continuation.{is_continuation as goes_on_with, is_near, is_opening_at};

use crate::datagram::Header;
use crate::direction::{Direction, SessionOpening};
use crate::window::PASSED_MAX;
use safe_pdu::Kind;

/// Returns `true` if a PDU goes on with what its own end and the other end have sent.
pub(crate) fn goes_on(own: &Direction, other: &Direction, header: &Header) -> bool
    ensures { result ≡ goes_on_with own.now other.now header.now }
{
    match header.kind {
        Kind::ConnReq | Kind::ConnResp => {
            is_opening_with(own.opening, header.sn, header.ts)
                || is_opening_with(other.opening, header.cs, header.cts)
        }
        Kind::RetrReq
        | Kind::RetrResp
        | Kind::DiscReq
        | Kind::Heartbeat
        | Kind::Data
        | Kind::RetrData => {
            is_close(own.sequence.newest, header.sn) || is_close(other.sequence.newest, header.cs)
        }
    }
}

/// Returns `true` if an opening has this sequence number and timestamp.
fn is_opening_with(opening: Option<SessionOpening>, sn: u32, ts: u32) -> bool
    ensures { result ≡ is_opening_at opening sn ts }
{
    match opening {
        None => false,
        Some(opening) => opening.sn == sn && opening.ts == ts,
    }
}

/// Returns `true` if a number is near the newest one.
fn is_close(newest: Option<u32>, number: u32) -> bool
    ensures { result ≡ is_near newest number }
{
    match newest {
        None => false,
        Some(newest) => {
            number.wrapping_sub(newest) <= PASSED_MAX + 1
                || newest.wrapping_sub(number) <= PASSED_MAX + 1
        }
    }
}
