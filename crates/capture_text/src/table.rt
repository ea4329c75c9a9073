//! The table of a connection's sessions: one line for each.

ghost use Rattle.std.specs.Prelude.{◌≡◌, OnOk, None, Some};
ghost use Rattle.std.specs.Io.KnownBytes.{Appends};
ghost use Rattle.capture_text.specs.TableText.{again_text, maybe_request_text, maybe_at_text, at_text, asker_of, request_text, start_text, up_text, down_text, end_text, session_events_text, is_kept, no_disconnect_text, departure_text, manner_text, maybe_disconnect_text, session_losses_text, number_text, outcome_text, own_text, past_text, repeats_in, resent_in, session_text, sessions_text, waits_text};

use crate::pieces::{Clock, write_address, write_since};
use crate::reasons::write_reasons;
use capture::{
    Disconnection, Route, Session, SessionRequest, Sessions, is_unanswered, lost_alone,
    lost_everywhere,
};
use pdu_text::write_text;
use safe_pdu::Leaving;
use std::io;
use std::io::Write;

/// Writes a line for each session of a connection, the oldest kept one first. `ends` are its identifiers, and `at` its
/// addresses if other connections have the same identifiers.
#[tactic(auto, unfolding(crate::specs::TableText::sessions_text))]
pub(crate) fn write_sessions<W: Write>(
    writer: &mut W,
    clock: Clock,
    ends: (u32, u32),
    at: Option<Route>,
    sessions: &Sessions,
) -> io::Result<()>
    ensures { OnOk result (Appends (W.contents writer.old) (W.contents writer.new)
        (sessions_text clock ends.0 ends.1 at sessions.now)) }
{
    let (older, newer) = sessions.past.as_slices();
    write_past(writer, clock, ends, at, older)?;
    write_past(writer, clock, ends, at, newer)?;
    write_session(writer, clock, ends, at, &sessions.current)?;
    Ok(())
}

/// Writes the lines of sessions that have ended.
fn write_past<W: Write>(
    writer: &mut W,
    clock: Clock,
    ends: (u32, u32),
    at: Option<Route>,
    past: &[Session],
) -> io::Result<()>
    ensures { OnOk result (Appends (W.contents writer.old) (W.contents writer.new)
        (past_text clock ends.0 ends.1 at past.now)) }
{
    for session in past {
        write_session(writer, clock, ends, at, session)?;
    }
    Ok(())
}

/// Writes the line of a session.
#[tactic(auto, unfolding(crate::specs::TableText::session_text))]
fn write_session<W: Write>(
    writer: &mut W,
    clock: Clock,
    ends: (u32, u32),
    at: Option<Route>,
    session: &Session,
) -> io::Result<()>
    ensures { OnOk result (Appends (W.contents writer.old) (W.contents writer.new)
        (session_text clock ends.0 ends.1 at session.now)) }
{
    write_beginning(writer, clock, ends, at, session)?;
    write_ended(writer, clock, ends, session)?;
    write_happened(writer, ends, session)?;
    Ok(())
}

/// Writes how a session began.
#[tactic(auto, unfolding(crate::specs::TableText::start_text))]
fn write_beginning<W: Write>(
    writer: &mut W,
    clock: Clock,
    ends: (u32, u32),
    at: Option<Route>,
    session: &Session,
) -> io::Result<()>
    ensures { OnOk result (Appends (W.contents writer.old) (W.contents writer.new)
        (start_text clock ends.0 ends.1 at session.now)) }
{
    let unanswered = is_unanswered(session);
    write_number(writer, session.number, ends)?;
    write_any_place(writer, at)?;
    write_asked(writer, clock, ends, session.asked)?;
    write_outcome(writer, clock, session.up, unanswered)?;
    Ok(())
}

/// Writes the number of a session, and its connection.
#[tactic(auto, unfolding(crate::specs::TableText::number_text))]
fn write_number<W: Write>(writer: &mut W, number: u64, ends: (u32, u32)) -> io::Result<()>
    ensures { OnOk result (Appends (W.contents writer.old) (W.contents writer.new)
        (number_text number ends.0 ends.1)) }
{
    let (low, high) = ends;
    write!(writer, "session {number} of {low}-{high}")
}

/// Writes the addresses of a connection, if it needs them.
fn write_any_place<W: Write>(writer: &mut W, at: Option<Route>) -> io::Result<()>
    ensures { OnOk result (Appends (W.contents writer.old) (W.contents writer.new) (maybe_at_text at)) }
{
    match at {
        None => Ok(()),
        Some(route) => write_place(writer, route),
    }
}

/// Writes the addresses of a connection.
#[tactic(auto, unfolding(crate::specs::TableText::at_text))]
fn write_place<W: Write>(writer: &mut W, route: Route) -> io::Result<()>
    ensures { OnOk result (Appends (W.contents writer.old) (W.contents writer.new) (at_text route)) }
{
    write_text(writer, " at ")?;
    write_address(writer, route.low)?;
    write_text(writer, "-")?;
    write_address(writer, route.high)
}

/// Writes the ConnReq of a session.
fn write_asked<W: Write>(
    writer: &mut W,
    clock: Clock,
    ends: (u32, u32),
    asked: SessionRequest,
) -> io::Result<()>
    ensures { OnOk result (Appends (W.contents writer.old) (W.contents writer.new)
        (maybe_request_text clock ends.0 ends.1 asked)) }
{
    match asked {
        SessionRequest::NotRecorded => write_text(writer, ", its ConnReq was not recorded"),
        SessionRequest::Recorded { by_low, time } => {
            write_asking(writer, clock, asker(ends, by_low), time)
        }
    }
}

/// Returns the end that asked for a session.
pub(crate) fn asker(ends: (u32, u32), by_low: bool) -> u32
    ensures { result ≡ asker_of ends.0 ends.1 by_low }
{
    if by_low { ends.0 } else { ends.1 }
}

/// Writes which end asked for a session, and when.
#[tactic(auto, unfolding(crate::specs::TableText::request_text))]
fn write_asking<W: Write>(writer: &mut W, clock: Clock, end: u32, time: u64) -> io::Result<()>
    ensures { OnOk result (Appends (W.contents writer.old) (W.contents writer.new)
        (request_text clock end time)) }
{
    write!(writer, ", {end} asked at ")?;
    write_since(writer, clock, time)
}

/// Writes if and when a session came up.
fn write_outcome<W: Write>(
    writer: &mut W,
    clock: Clock,
    up: Option<u64>,
    unanswered: bool,
) -> io::Result<()>
    ensures { OnOk result (Appends (W.contents writer.old) (W.contents writer.new)
        (outcome_text clock up unanswered)) }
{
    match up {
        None => write_text(writer, name_down(unanswered)),
        Some(time) => write_came_up(writer, clock, time),
    }
}

/// Returns the words for a session that was not seen to come up.
fn name_down(unanswered: bool) -> &'static str
    ensures { result.now ≡ down_text unanswered }
{
    if unanswered {
        ", nobody answered"
    } else {
        ", was not seen to come up"
    }
}

/// Writes when a session came up.
#[tactic(auto, unfolding(crate::specs::TableText::up_text))]
fn write_came_up<W: Write>(writer: &mut W, clock: Clock, time: u64) -> io::Result<()>
    ensures { OnOk result (Appends (W.contents writer.old) (W.contents writer.new) (up_text clock time)) }
{
    write!(writer, ", came up at ")?;
    write_since(writer, clock, time)
}

/// Writes how a session ended.
#[tactic(auto, unfolding(crate::specs::TableText::end_text))]
fn write_ended<W: Write>(
    writer: &mut W,
    clock: Clock,
    ends: (u32, u32),
    session: &Session,
) -> io::Result<()>
    ensures { OnOk result (Appends (W.contents writer.old) (W.contents writer.new)
        (end_text clock ends.0 ends.1 session.now)) }
{
    let (low, high) = ends;
    write_left(writer, clock, low, session.low.left)?;
    write_left(writer, clock, high, session.high.left)?;
    write_text(writer, name_kept(keeps(session)))?;
    Ok(())
}

/// Returns `true` if neither end left a session.
fn keeps(session: &Session) -> bool
    ensures { result ≡ is_kept session.now }
{
    !session.low.left.is_sent() && !session.high.left.is_sent()
}

/// Returns the words for a session that nobody left.
fn name_kept(kept: bool) -> &'static str
    ensures { result.now ≡ no_disconnect_text kept }
{
    if kept { ", nobody left" } else { "" }
}

/// Writes the DiscReq of an end, if it sent one.
fn write_left<W: Write>(
    writer: &mut W,
    clock: Clock,
    end: u32,
    left: Disconnection,
) -> io::Result<()>
    ensures { OnOk result (Appends (W.contents writer.old) (W.contents writer.new) (maybe_disconnect_text clock end left)) }
{
    match left {
        Disconnection::NotSent => Ok(()),
        Disconnection::Sent {
            follows,
            leaving,
            time,
        } => {
            write_departure(writer, clock, end, time)?;
            write_manner(writer, follows, leaving)
        }
    }
}

/// Writes which end left, and when.
#[tactic(auto, unfolding(crate::specs::TableText::departure_text))]
fn write_departure<W: Write>(writer: &mut W, clock: Clock, end: u32, time: u64) -> io::Result<()>
    ensures { OnOk result (Appends (W.contents writer.old) (W.contents writer.new)
        (departure_text clock end time)) }
{
    write!(writer, ", {end} left at ")?;
    write_since(writer, clock, time)
}

/// Writes how an end left.
#[tactic(auto, unfolding(crate::specs::TableText::manner_text))]
fn write_manner<W: Write>(writer: &mut W, follows: bool, leaving: Leaving) -> io::Result<()>
    ensures { OnOk result (Appends (W.contents writer.old) (W.contents writer.new)
        (manner_text follows leaving)) }
{
    write_text(writer, name_own(follows))?;
    write_reasons(writer, leaving)
}

/// Returns the words for the first leaving of a session, or for one after it.
fn name_own(follows: bool) -> &'static str
    ensures { result.now ≡ own_text follows }
{
    if follows {
        " after the other"
    } else {
        " by itself"
    }
}

/// Writes what happened in a session, and ends its line.
#[tactic(auto, unfolding(crate::specs::TableText::session_events_text))]
fn write_happened<W: Write>(writer: &mut W, ends: (u32, u32), session: &Session) -> io::Result<()>
    ensures { OnOk result (Appends (W.contents writer.old) (W.contents writer.new)
        (session_events_text ends.0 ends.1 session.now)) }
{
    let resent = resent_count(session);
    let repeats = repeat_count(session);
    write_waited(writer, ends, session.low.longest, session.high.longest)?;
    write_lost(writer, lost_everywhere(session), lost_alone(session))?;
    write_again(writer, resent, repeats)?;
    Ok(())
}

/// Writes the longest wait of each end.
#[tactic(auto, unfolding(crate::specs::TableText::waits_text))]
fn write_waited<W: Write>(writer: &mut W, ends: (u32, u32), one: u32, other: u32) -> io::Result<()>
    ensures { OnOk result (Appends (W.contents writer.old) (W.contents writer.new)
        (waits_text ends.0 ends.1 one other)) }
{
    let (low, high) = ends;
    write!(writer, ", {low} waited {one} ms, {high} waited {other} ms")
}

/// Writes how many PDUs were lost on every channel, and how many datagrams on one channel whose PDU came on another.
#[tactic(auto, unfolding(crate::specs::TableText::session_losses_text))]
pub(crate) fn write_lost<W: Write>(writer: &mut W, everywhere: u64, alone: u64) -> io::Result<()>
    ensures { OnOk result (Appends (W.contents writer.old) (W.contents writer.new) (session_losses_text everywhere alone)) }
{
    write!(
        writer,
        ", PDUs lost on every channel {everywhere}, datagrams lost on one channel whose PDU came on another {alone}"
    )
}

/// Returns how many units both ends sent again.
fn resent_count(session: &Session) -> u64
    ensures { result ≡ resent_in session.now }
{
    (session.low.resent as u64).saturating_add(session.high.resent as u64)
}

/// Returns how many PDUs of both ends came twice on one channel.
fn repeat_count(session: &Session) -> u64
    ensures { result ≡ repeats_in session.now }
{
    (session.low.repeats as u64).saturating_add(session.high.repeats as u64)
}

/// Writes what was sent again and what came twice on one channel, and ends the line.
#[tactic(auto, unfolding(crate::specs::TableText::again_text))]
fn write_again<W: Write>(writer: &mut W, resent: u64, repeats: u64) -> io::Result<()>
    ensures { OnOk result (Appends (W.contents writer.old) (W.contents writer.new) (again_text resent repeats)) }
{
    writeln!(
        writer,
        ", sent again {resent}, repeats on one channel {repeats}"
    )
}
