//! The lines of a run: telegrams taken, events refused, and the state of an end.

ghost use Rattle.std.specs.Prelude.{◌≡◌, OnOk};
ghost use Rattle.std.specs.Io.KnownBytes.{Appends};
ghost use Rattle.pdu_text.specs.Reports as lines;

use crate::names::{phase_name, side_name, state_name};
use crate::{write_hex, write_octets, write_text};
use end_settings::Side;
use pdi_session::{MessageType, Phase};
use safe_machine::ConnectionState;
use std::io;
use std::io::Write;

/// The state of an end in its present incarnation.
#[derive(Clone, Copy, Debug, PartialEq, Eq)]
pub struct EndReport {
    /// The state of its connection.
    pub state: ConnectionState,
    /// The phase of its session.
    pub phase: Phase,
    /// How many telegrams were put.
    pub put: u64,
    /// How many telegrams its application took.
    pub taken: u64,
}

/// Writes the line of a telegram that an application takes: its message type, and its payload in hex
/// digits.
pub fn write_take<W: Write>(
    writer: &mut W,
    side: Side,
    kind: MessageType,
    payload: &[u8],
) -> io::Result<()>
    // If it succeeds, `write_take` has appended the line: the end, "takes", the message type and the
    // payload in hex digits (a dash if empty).
    ensures { OnOk result (Appends (W.contents writer.old) (W.contents writer.new)
        (lines.take_line side kind payload.now)) }
{
    write_text(writer, side_name(side))?;
    write_text(writer, " takes ")?;
    write_hex(writer, &kind.to_be_bytes())?;
    write_text(writer, " ")?;
    write_octets(writer, payload)?;
    write_text(writer, "\n")
}

/// Writes the line of an event that was refused.
pub fn write_refusal<W: Write>(writer: &mut W, name: &str) -> io::Result<()>
    // If it succeeds, `write_refusal` has appended the line "refused" with the `name`.
    ensures { OnOk result (Appends (W.contents writer.old) (W.contents writer.new) (lines.refusal_line name.now)) }
{
    writeln!(writer, "refused {name}")
}

/// Writes the line of the state of an end, or that it was never opened.
pub fn write_report<W: Write>(
    writer: &mut W,
    side: Side,
    standing: Option<EndReport>,
) -> io::Result<()>
    // If it succeeds, `write_report` has appended the line: the end with state, phase and both counts of
    // telegrams, or "none" if it was never opened.
    ensures { OnOk result (Appends (W.contents writer.old) (W.contents writer.new) (lines.report_line side standing)) }
{
    match standing {
        Some(standing) => write_standing(writer, side_name(side), &standing),
        None => write_none(writer, side_name(side)),
    }
}

/// Writes the line of the state of an end.
fn write_standing<W: Write>(writer: &mut W, side: &str, standing: &EndReport) -> io::Result<()>
    ensures { OnOk result (Appends (W.contents writer.old) (W.contents writer.new)
        (lines.state_line side.now standing.now)) }
{
    let state = state_name(standing.state);
    let phase = phase_name(standing.phase);
    let put = standing.put;
    let taken = standing.taken;
    writeln!(writer, "{side} {state} {phase} put {put} taken {taken}")
}

/// Writes the line of an end that was never opened.
fn write_none<W: Write>(writer: &mut W, side: &str) -> io::Result<()>
    ensures { OnOk result (Appends (W.contents writer.old) (W.contents writer.new) (lines.none_line side.now)) }
{
    writeln!(writer, "{side} none")
}
