//! The table of a connection's sessions as JSON.

ghost use Rattle.std.specs.Prelude.{◌≡◌, OnOk, None, Some};
ghost use Rattle.std.specs.Io.KnownBytes.{Appends};
ghost use Rattle.capture_text.specs.TableJson.{again_json, maybe_request_json, request_json, start_json, session_counts_json, disconnect_counts_json, maybe_disconnect_json, losses_json, maybe_time_json, number_json, outcome_json, disconnect_json, session_json, sessions_json, side_json, sides_json, item_json, past_json, table_json, truth_json};

use crate::table::asker;
use capture::{
    Disconnection, Session, SessionRequest, SessionTotals, Sessions, Side, add_up_sessions, alone,
    is_unanswered,
};
use pdu_text::write_text;
use safe_pdu::Leaving;
use std::io;
use std::io::Write;

/// Writes the sums over all sessions of a connection, and the table of the last ones. `ends` are its identifiers.
#[tactic(auto, unfolding(crate::specs::TableJson::sessions_json))]
pub(crate) fn write_sessions_json<W: Write>(
    writer: &mut W,
    ends: (u32, u32),
    sessions: &Sessions,
) -> io::Result<()>
    ensures { OnOk result (Appends (W.contents writer.old) (W.contents writer.new)
        (sessions_json ends.0 ends.1 sessions.now)) }
{
    let totals = add_up_sessions(sessions);
    write_came(writer, sessions.current.number, totals)?;
    write_gone(writer, totals)?;
    write_table(writer, ends, sessions)?;
    Ok(())
}

/// Writes how many sessions there were, how many came up, and how many nobody answered.
#[tactic(auto, unfolding(crate::specs::TableJson::session_counts_json))]
fn write_came<W: Write>(writer: &mut W, number: u64, totals: SessionTotals) -> io::Result<()>
    ensures { OnOk result (Appends (W.contents writer.old) (W.contents writer.new) (session_counts_json number totals)) }
{
    let up = totals.up;
    let unanswered = totals.unanswered;
    write!(
        writer,
        ",\"sessions\":{{\"number\":{number},\"up\":{up},\"unanswered\":{unanswered}"
    )
}

/// Writes how many sessions an end left, how many by a timeout, and the start of the table.
#[tactic(auto, unfolding(crate::specs::TableJson::disconnect_counts_json))]
fn write_gone<W: Write>(writer: &mut W, totals: SessionTotals) -> io::Result<()>
    ensures { OnOk result (Appends (W.contents writer.old) (W.contents writer.new) (disconnect_counts_json totals)) }
{
    let left = totals.left;
    let timeouts = totals.timeouts;
    write!(
        writer,
        ",\"left\":{left},\"timeouts\":{timeouts},\"table\":["
    )
}

/// Writes the table of the last sessions.
#[tactic(auto, unfolding(crate::specs::TableJson::table_json))]
fn write_table<W: Write>(writer: &mut W, ends: (u32, u32), sessions: &Sessions) -> io::Result<()>
    ensures { OnOk result (Appends (W.contents writer.old) (W.contents writer.new)
        (table_json ends.0 ends.1 sessions.now)) }
{
    let (older, newer) = sessions.past.as_slices();
    write_past(writer, ends, older)?;
    write_past(writer, ends, newer)?;
    write_session(writer, ends, &sessions.current)?;
    write_text(writer, "]}")?;
    Ok(())
}

/// Writes sessions that have ended, each before a comma.
fn write_past<W: Write>(writer: &mut W, ends: (u32, u32), past: &[Session]) -> io::Result<()>
    ensures { OnOk result (Appends (W.contents writer.old) (W.contents writer.new)
        (past_json ends.0 ends.1 past.now)) }
{
    for session in past {
        write_item(writer, ends, session)?;
    }
    Ok(())
}

/// Writes a session before a comma.
fn write_item<W: Write>(writer: &mut W, ends: (u32, u32), session: &Session) -> io::Result<()>
    ensures { OnOk result (Appends (W.contents writer.old) (W.contents writer.new)
        (item_json ends.0 ends.1 session.now)) }
{
    write_session(writer, ends, session)?;
    write_text(writer, ",")
}

/// Writes the object of a session.
#[tactic(auto, unfolding(crate::specs::TableJson::session_json))]
fn write_session<W: Write>(writer: &mut W, ends: (u32, u32), session: &Session) -> io::Result<()>
    ensures { OnOk result (Appends (W.contents writer.old) (W.contents writer.new)
        (session_json ends.0 ends.1 session.now)) }
{
    write_beginning(writer, ends, session)?;
    write_sides(writer, session)?;
    Ok(())
}

/// Writes how a session began.
#[tactic(auto, unfolding(crate::specs::TableJson::start_json))]
fn write_beginning<W: Write>(writer: &mut W, ends: (u32, u32), session: &Session) -> io::Result<()>
    ensures { OnOk result (Appends (W.contents writer.old) (W.contents writer.new)
        (start_json ends.0 ends.1 session.now)) }
{
    let unanswered = is_unanswered(session);
    write_number(writer, session.number)?;
    write_asked(writer, ends, session.asked)?;
    write_outcome(writer, session.up, unanswered)?;
    Ok(())
}

/// Writes the number of a session.
#[tactic(auto, unfolding(crate::specs::TableJson::number_json))]
fn write_number<W: Write>(writer: &mut W, number: u64) -> io::Result<()>
    ensures { OnOk result (Appends (W.contents writer.old) (W.contents writer.new) (number_json number)) }
{
    write!(writer, "{{\"session\":{number}")
}

/// Writes the ConnReq of a session.
fn write_asked<W: Write>(writer: &mut W, ends: (u32, u32), asked: SessionRequest) -> io::Result<()>
    ensures { OnOk result (Appends (W.contents writer.old) (W.contents writer.new)
        (maybe_request_json ends.0 ends.1 asked)) }
{
    match asked {
        SessionRequest::NotRecorded => write_text(writer, ",\"asked\":null,\"asked_by\":null"),
        SessionRequest::Recorded { by_low, time } => {
            write_asking(writer, asker(ends, by_low), time)
        }
    }
}

/// Writes the time and the end of a ConnReq.
#[tactic(auto, unfolding(crate::specs::TableJson::request_json))]
fn write_asking<W: Write>(writer: &mut W, end: u32, time: u64) -> io::Result<()>
    ensures { OnOk result (Appends (W.contents writer.old) (W.contents writer.new) (request_json end time)) }
{
    write!(writer, ",\"asked\":{time},\"asked_by\":{end}")
}

/// Writes if and when a session came up.
#[tactic(auto, unfolding(crate::specs::TableJson::outcome_json))]
fn write_outcome<W: Write>(writer: &mut W, up: Option<u64>, unanswered: bool) -> io::Result<()>
    ensures { OnOk result (Appends (W.contents writer.old) (W.contents writer.new)
        (outcome_json up unanswered)) }
{
    write_text(writer, ",\"up\":")?;
    write_maybe_time(writer, up)?;
    write_text(writer, ",\"unanswered\":")?;
    write_text(writer, name_truth(unanswered))?;
    Ok(())
}

/// Writes a time, or null.
fn write_maybe_time<W: Write>(writer: &mut W, time: Option<u64>) -> io::Result<()>
    ensures { OnOk result (Appends (W.contents writer.old) (W.contents writer.new) (maybe_time_json time)) }
{
    match time {
        None => write_text(writer, "null"),
        Some(time) => write!(writer, "{time}"),
    }
}

/// Returns the word for a truth.
pub(crate) fn name_truth(holds: bool) -> &'static str
    ensures { result.now ≡ truth_json holds }
{
    if holds { "true" } else { "false" }
}

/// Writes what both ends did in a session.
#[tactic(auto, unfolding(crate::specs::TableJson::sides_json))]
fn write_sides<W: Write>(writer: &mut W, session: &Session) -> io::Result<()>
    ensures { OnOk result (Appends (W.contents writer.old) (W.contents writer.new) (sides_json session.now)) }
{
    write_text(writer, ",\"low\":")?;
    write_side(writer, &session.low)?;
    write_text(writer, ",\"high\":")?;
    write_side(writer, &session.high)?;
    write_text(writer, "}")?;
    Ok(())
}

/// Writes what an end did in a session.
#[tactic(auto, unfolding(crate::specs::TableJson::side_json))]
fn write_side<W: Write>(writer: &mut W, side: &Side) -> io::Result<()>
    ensures { OnOk result (Appends (W.contents writer.old) (W.contents writer.new) (side_json side.now)) }
{
    let alone = alone(side);
    write_text(writer, "{\"left\":")?;
    write_left(writer, side.left)?;
    write_losses(writer, side.longest, side.lost, alone)?;
    write_again(writer, side.resent, side.repeats)?;
    Ok(())
}

/// Writes the DiscReq of an end, or null.
fn write_left<W: Write>(writer: &mut W, left: Disconnection) -> io::Result<()>
    ensures { OnOk result (Appends (W.contents writer.old) (W.contents writer.new) (maybe_disconnect_json left)) }
{
    match left {
        Disconnection::NotSent => write_text(writer, "null"),
        Disconnection::Sent {
            follows,
            leaving,
            time,
        } => write_parting(writer, follows, leaving, time),
    }
}

/// Writes the object of a DiscReq.
#[tactic(auto, unfolding(crate::specs::TableJson::disconnect_json))]
fn write_parting<W: Write>(
    writer: &mut W,
    follows: bool,
    leaving: Leaving,
    time: u64,
) -> io::Result<()>
    ensures { OnOk result (Appends (W.contents writer.old) (W.contents writer.new) (disconnect_json follows leaving time)) }
{
    let reason = leaving.reason;
    let detail = leaving.detail;
    let follows = name_truth(follows);
    write!(
        writer,
        "{{\"time\":{time},\"reason\":{reason},\"detail\":{detail},\"follows\":{follows}}}"
    )
}

/// Writes the longest wait and the losses of an end.
#[tactic(auto, unfolding(crate::specs::TableJson::losses_json))]
fn write_losses<W: Write>(writer: &mut W, waits: u32, lost: u32, alone: u64) -> io::Result<()>
    ensures { OnOk result (Appends (W.contents writer.old) (W.contents writer.new)
        (losses_json waits lost alone)) }
{
    write!(
        writer,
        ",\"waits\":{waits},\"lost_on_every_channel\":{lost},\"lost_on_one_channel\":{alone}"
    )
}

/// Writes what an end sent again, and what came twice on one channel.
#[tactic(auto, unfolding(crate::specs::TableJson::again_json))]
fn write_again<W: Write>(writer: &mut W, resent: u32, repeats: u32) -> io::Result<()>
    ensures { OnOk result (Appends (W.contents writer.old) (W.contents writer.new) (again_json resent repeats)) }
{
    write!(writer, ",\"resent\":{resent},\"repeats\":{repeats}}}")
}
