//! The text of what is remarkable in a PDU.

ghost use Rattle.std.specs.Prelude.{◌≡◌, OnOk, codes};
ghost use Rattle.std.specs.Io.KnownBytes.{Appends};
ghost use Rattle.capture_text.specs.RemarkText.{again_text, age_text, requested_line_text, maybe_requested_line_text, damage_text, number_order_text, leaving_text, maybe_text, opening_word, order_text, other_text, remarks_text, resent_text, wait_text, long_wait_text};

use crate::choice::is_half_of;
use crate::reasons::write_reasons;
use capture::{NumberOrder, Remarks};
use safe_pdu::Leaving;
use std::io;
use std::io::Write;

/// Writes what is remarkable in a PDU, each word after a space, and nothing if nothing is.
///
/// A wait for a confirmation is written from half of `t_max` milliseconds on.
///
/// `channel` is before a remark on the redundancy numbers of its channel, `all` before one on those of all channels,
/// `sn` before one on sequence numbers.
///
/// # Errors
///
/// The error of the writer. What was written before it stays.
#[tactic(auto, unfolding(crate::specs::RemarkText::remarks_text))]
pub fn write_remarks<W: Write>(writer: &mut W, t_max: u32, remarks: &Remarks) -> io::Result<()>
    // On success the opening, the numbers on the channel, on all channels and the sequence numbers, the
    // retransmission, the age, the wait and the reason are appended. Each is left out if it is not remarkable
    // (`remarks_text`).
    ensures { OnOk result (Appends (W.contents writer.old) (W.contents writer.new) (remarks_text t_max remarks.now)) }
{
    write_order(writer, remarks)?;
    write_again(writer, remarks)?;
    write_others(writer, t_max, remarks)
}

/// Writes an opening, and how the numbers followed.
#[tactic(auto, unfolding(crate::specs::RemarkText::order_text))]
fn write_order<W: Write>(writer: &mut W, remarks: &Remarks) -> io::Result<()>
    ensures { OnOk result (Appends (W.contents writer.old) (W.contents writer.new) (order_text remarks.now)) }
{
    write_opens(writer, remarks.opens)?;
    write_maybe(writer, "channel", remarks.channel)?;
    write_judged(writer, "all", remarks.together)?;
    write_maybe(writer, "sn", remarks.sequence)
}

/// Writes a retransmission, damage before the PDU, and the line that it asks for.
#[tactic(auto, unfolding(crate::specs::RemarkText::again_text))]
fn write_again<W: Write>(writer: &mut W, remarks: &Remarks) -> io::Result<()>
    ensures { OnOk result (Appends (W.contents writer.old) (W.contents writer.new) (again_text remarks.now)) }
{
    write_resent(writer, remarks.resent)?;
    write_damage(writer, remarks.damaged)?;
    write_asks(writer, remarks.asks)
}

/// Writes the age, the wait and the reason.
#[tactic(auto, unfolding(crate::specs::RemarkText::other_text))]
fn write_others<W: Write>(writer: &mut W, t_max: u32, remarks: &Remarks) -> io::Result<()>
    ensures { OnOk result (Appends (W.contents writer.old) (W.contents writer.new) (other_text t_max remarks.now)) }
{
    write_age(writer, remarks.age)?;
    write_waits(writer, t_max, remarks.waits)?;
    write_leaving(writer, remarks.leaving)
}

/// Writes how a number followed, if it was judged.
fn write_maybe<W: Write>(writer: &mut W, name: &str, judged: Option<NumberOrder>) -> io::Result<()>
    ensures { OnOk result (Appends (W.contents writer.old) (W.contents writer.new) (maybe_text name.now judged)) }
{
    match judged {
        Some(judged) => write_judged(writer, name, judged),
        None => Ok(()),
    }
}

/// Writes how a number followed; nothing if it was the first or the next.
fn write_judged<W: Write>(writer: &mut W, name: &str, judged: NumberOrder) -> io::Result<()>
    ensures { OnOk result (Appends (W.contents writer.old) (W.contents writer.new) (number_order_text name.now judged)) }
{
    match judged {
        NumberOrder::First | NumberOrder::Next => Ok(()),
        NumberOrder::Ahead(passed) => write!(writer, " {name} ahead {passed}"),
        NumberOrder::Late => write!(writer, " {name} late"),
        NumberOrder::Repeat(line) => write!(writer, " {name} repeat of line {line}"),
        NumberOrder::Differs(line) => write!(writer, " {name} differs from line {line}"),
        NumberOrder::Stale => write!(writer, " {name} stale"),
        NumberOrder::Anew => write!(writer, " {name} anew"),
    }
}

/// Writes the word of an opening.
fn write_opens<W: Write>(writer: &mut W, opens: bool) -> io::Result<()>
    ensures { OnOk result (Appends (W.contents writer.old) (W.contents writer.new) (opening_word opens)) }
{
    if opens {
        return writer.write_all(b" opens");
    }
    Ok(())
}

/// Writes the word of a retransmission.
fn write_resent<W: Write>(writer: &mut W, resent: bool) -> io::Result<()>
    ensures { OnOk result (Appends (W.contents writer.old) (W.contents writer.new) (resent_text resent)) }
{
    if resent {
        return writer.write_all(b" resent");
    }
    Ok(())
}

/// Writes the line of a damaged datagram with the number of a PDU.
fn write_damage<W: Write>(writer: &mut W, damaged: Option<u64>) -> io::Result<()>
    ensures { OnOk result (Appends (W.contents writer.old) (W.contents writer.new) (damage_text damaged)) }
{
    match damaged {
        Some(line) => write!(writer, " after damage in line {line}"),
        None => Ok(()),
    }
}

/// Writes the line that a RetrReq asks for.
fn write_asks<W: Write>(writer: &mut W, asks: Option<u64>) -> io::Result<()>
    ensures { OnOk result (Appends (W.contents writer.old) (W.contents writer.new) (maybe_requested_line_text asks)) }
{
    match asks {
        Some(line) => write_asked(writer, line),
        None => Ok(()),
    }
}

/// Writes a line that a RetrReq asks for.
#[tactic(auto, unfolding(crate::specs::RemarkText::requested_line_text))]
fn write_asked<W: Write>(writer: &mut W, line: u64) -> io::Result<()>
    ensures { OnOk result (Appends (W.contents writer.old) (W.contents writer.new) (requested_line_text line)) }
{
    write!(writer, " asks for line {line}")
}

/// Writes an age in milliseconds.
fn write_age<W: Write>(writer: &mut W, age: Option<u32>) -> io::Result<()>
    ensures { OnOk result (Appends (W.contents writer.old) (W.contents writer.new) (age_text age)) }
{
    match age {
        Some(age) => write!(writer, " age {age} ms"),
        None => Ok(()),
    }
}

/// Writes how long an end has waited, if that is remarkable.
fn write_waits<W: Write>(writer: &mut W, t_max: u32, waits: Option<u32>) -> io::Result<()>
    ensures { OnOk result (Appends (W.contents writer.old) (W.contents writer.new) (long_wait_text t_max waits)) }
{
    match waits {
        Some(waits) if is_half_of(t_max, waits) => write_wait(writer, waits),
        _ => Ok(()),
    }
}

/// Writes a wait in milliseconds.
#[tactic(auto, unfolding(crate::specs::RemarkText::wait_text))]
fn write_wait<W: Write>(writer: &mut W, waits: u32) -> io::Result<()>
    ensures { OnOk result (Appends (W.contents writer.old) (W.contents writer.new) (wait_text waits)) }
{
    write!(writer, " waits {waits} ms")
}

/// Writes the reason of a DiscReq.
fn write_leaving<W: Write>(writer: &mut W, leaving: Option<Leaving>) -> io::Result<()>
    ensures { OnOk result (Appends (W.contents writer.old) (W.contents writer.new) (leaving_text leaving)) }
{
    match leaving {
        Some(leaving) => write_reasons(writer, leaving),
        None => Ok(()),
    }
}
