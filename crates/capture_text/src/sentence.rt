//! The sentence about each connection after its sums.

ghost use Rattle.std.specs.Prelude.{◌≡◌, OnOk, None, Some};
ghost use Rattle.std.specs.Io.KnownBytes.{Appends};
ghost use Rattle.capture_text.specs.Sentence.{session_counts_text, course_text, disconnect_counts_text, has_answered, has_asked, is_answered, last_pdu_text, longest_in, losses_text, losses_on_all, name_text, near_text, nearness_text, oldest_in, sentence_text, up_of};

use crate::pieces::{Clock, remark_on_limit, write_since};
use crate::summary::Scale;
use crate::table::write_lost;
use capture::{Connection, Direction, SessionOpening, SessionTotals, add_up_sessions};
use pdu_text::write_text;
use safe_pdu::Kind;
use std::io;
use std::io::Write;

/// Writes how many sessions a connection had and how they ended, when its last PDU came, what was lost on every
/// channel and on one channel only, and how close it came to T_max.
#[tactic(auto, unfolding(crate::specs::Sentence::sentence_text))]
pub(crate) fn write_sentence<W: Write>(
    writer: &mut W,
    scale: Scale,
    connection: &Connection,
) -> io::Result<()>
    ensures { OnOk result (Appends (W.contents writer.old) (W.contents writer.new)
        (sentence_text scale connection.now)) }
{
    write_name(writer, connection.low, connection.high)?;
    write_course(writer, connection)?;
    write_last_heard(writer, scale.clock, connection.last)?;
    write_losses(writer, connection)?;
    write_nearness(writer, scale.t_max, connection)?;
    Ok(())
}

/// Writes the sums over all sessions of a connection.
#[tactic(auto, unfolding(crate::specs::Sentence::course_text))]
fn write_course<W: Write>(writer: &mut W, connection: &Connection) -> io::Result<()>
    ensures { OnOk result (Appends (W.contents writer.old) (W.contents writer.new)
        (course_text connection.now)) }
{
    let totals = add_up_sessions(&connection.sessions);
    write_came(writer, connection.sessions.current.number, totals)?;
    write_gone(writer, totals)?;
    Ok(())
}

/// Writes how many sessions a connection had, how many came up, and how many nobody answered.
#[tactic(auto, unfolding(crate::specs::Sentence::session_counts_text))]
fn write_came<W: Write>(writer: &mut W, number: u64, totals: SessionTotals) -> io::Result<()>
    ensures { OnOk result (Appends (W.contents writer.old) (W.contents writer.new) (session_counts_text number totals)) }
{
    let up = totals.up;
    let unanswered = totals.unanswered;
    write!(
        writer,
        " sessions {number}, came up {up}, nobody answered {unanswered}"
    )
}

/// Writes how many sessions an end left, and how many by a timeout.
#[tactic(auto, unfolding(crate::specs::Sentence::disconnect_counts_text))]
fn write_gone<W: Write>(writer: &mut W, totals: SessionTotals) -> io::Result<()>
    ensures { OnOk result (Appends (W.contents writer.old) (W.contents writer.new) (disconnect_counts_text totals)) }
{
    let left = totals.left;
    let timeouts = totals.timeouts;
    write!(writer, ", ended by a DiscReq {left}, by timeout {timeouts}")
}

/// Writes both losses of a connection.
fn write_losses<W: Write>(writer: &mut W, connection: &Connection) -> io::Result<()>
    ensures { OnOk result (Appends (W.contents writer.old) (W.contents writer.new)
        (losses_text connection.now)) }
{
    let totals = add_up_sessions(&connection.sessions);
    write_lost(writer, on_all(connection), totals.alone)
}

/// Writes the longest wait beside T_max.
fn write_nearness<W: Write>(writer: &mut W, t_max: u32, connection: &Connection) -> io::Result<()>
    ensures { OnOk result (Appends (W.contents writer.old) (W.contents writer.new)
        (nearness_text t_max connection.now)) }
{
    write_near(writer, t_max, longest(connection))
}

/// Writes the name of a connection: its two identifiers.
#[tactic(auto, unfolding(crate::specs::Sentence::name_text))]
fn write_name<W: Write>(writer: &mut W, low: u32, high: u32) -> io::Result<()>
    ensures { OnOk result (Appends (W.contents writer.old) (W.contents writer.new) (name_text low high)) }
{
    write!(writer, "connection {low}-{high}")
}

/// Returns when a connection came up, in microseconds: the time of the ConnResp to its last ConnReq; `None` if that
/// was not recorded.
pub(crate) fn up(one: &Direction, other: &Direction) -> Option<u64>
    ensures { result ≡ up_of one.now other.now }
{
    if is_answered(one, other) {
        Some(other.tally.opened)
    } else if is_answered(other, one) {
        Some(one.tally.opened)
    } else {
        None
    }
}

/// Returns `true` if one end's last opening is a ConnReq, and the other's is a later ConnResp.
fn is_answered(one: &Direction, other: &Direction) -> bool
    ensures { result ≡ is_answered one.now other.now }
{
    is_request(one.opening) && is_response(other.opening) && one.tally.opened <= other.tally.opened
}

/// Returns `true` if an end's last opening is a ConnReq.
fn is_request(opening: Option<SessionOpening>) -> bool
    ensures { result ≡ has_asked opening }
{
    match opening {
        None => false,
        Some(opening) => matches!(opening.kind, Kind::ConnReq),
    }
}

/// Returns `true` if an end's last opening is a ConnResp.
fn is_response(opening: Option<SessionOpening>) -> bool
    ensures { result ≡ has_answered opening }
{
    match opening {
        None => false,
        Some(opening) => matches!(opening.kind, Kind::ConnResp),
    }
}

/// Writes the time of the last PDU of a connection.
#[tactic(auto, unfolding(crate::specs::Sentence::last_pdu_text))]
fn write_last_heard<W: Write>(writer: &mut W, clock: Clock, last: u64) -> io::Result<()>
    ensures { OnOk result (Appends (W.contents writer.old) (W.contents writer.new) (last_pdu_text clock last)) }
{
    write_text(writer, ", last PDU at ")?;
    write_since(writer, clock, last)?;
    Ok(())
}

/// Returns how many numbers were lost on all channels.
pub(crate) fn on_all(connection: &Connection) -> u64
    ensures { result ≡ losses_on_all connection.now }
{
    let low = connection.from_low.together.missing;
    low.saturating_add(connection.from_high.together.missing)
}

/// Returns the greatest age of a confirmed timestamp of either end, in milliseconds.
pub(crate) fn oldest(connection: &Connection) -> u32
    ensures { result ≡ oldest_in connection.now }
{
    let low = connection.from_low.tally.oldest;
    low.max(connection.from_high.tally.oldest)
}

/// Returns the longest wait for a confirmation of either end, in milliseconds.
pub(crate) fn longest(connection: &Connection) -> u32
    ensures { result ≡ longest_in connection.now }
{
    let low = connection.from_low.tally.longest;
    low.max(connection.from_high.tally.longest)
}

/// Writes the longest wait beside T_max, and ends the line.
#[tactic(auto, unfolding(crate::specs::Sentence::near_text))]
fn write_near<W: Write>(writer: &mut W, t_max: u32, longest: u32) -> io::Result<()>
    ensures { OnOk result (Appends (W.contents writer.old) (W.contents writer.new) (near_text t_max longest)) }
{
    let reached = remark_on_limit(t_max, longest);
    writeln!(writer, ", waits {longest} of {t_max}{reached}")
}
