//! The last line of an end: its state at the end of a run, and why.

ghost use Rattle.std.specs.Prelude.{◌≡◌, OnOk};
ghost use Rattle.std.specs.Io.KnownBytes.{Appends};
ghost use Rattle.pdu_text.specs.LastLines as endings;
ghost use Rattle.pdu_text.specs.Pieces.{log_line};

use crate::causes::{Cause, write_cause};
use crate::disconnect_reasons::write_leaving;
use crate::names::{phase_name, state_name};
use crate::pieces::write_front;
use crate::write_text;
use end_settings::Side;
use octets::Milliseconds;
use pdi_session::Phase;
use safe_machine::ConnectionState;
use safe_pdu::Leaving;
use std::io;
use std::io::Write;

/// Who disconnected, with the reason and detail of the DiscReq.
#[derive(Clone, Copy, Debug, PartialEq, Eq)]
pub enum Departure {
    /// This end.
    Own(Leaving),
    /// Its peer.
    Peer(Leaving),
}

/// The state of an end at the end of a run, and what may explain it.
#[derive(Clone, Copy, Debug, PartialEq, Eq)]
pub struct FinalState {
    /// The state of its connection.
    pub state: ConnectionState,
    /// The phase of its session.
    pub phase: Phase,
    /// Who disconnected, if anyone did.
    pub departure: Option<Departure>,
    /// How many datagrams came.
    pub came: u64,
    /// How many PDUs its safety machine did not drop.
    pub taken: u64,
    /// Why the last dropped datagram was dropped.
    pub last: Option<Cause>,
}

/// Writes the last line of an end: its state, who disconnected and why, and, if no PDU of the peer was
/// taken, what came instead.
///
/// # Errors
///
/// The writer's error; what came before it remains written.
#[tactic(auto, unfolding(crate::specs::Pieces::log_line, crate::specs::LastLines::final_state_text))]
pub fn write_ending<W: Write>(
    writer: &mut W,
    at: Milliseconds,
    side: Side,
    ending: &FinalState,
) -> io::Result<()>
    // If it succeeds, `write_ending` has appended a line: time, end, state and phase, who disconnected and
    // why, and, if no PDU was taken, what came.
    ensures { OnOk result (Appends (W.contents writer.old) (W.contents writer.new)
        (log_line at side (endings.final_state_text ending.now))) }
{
    write_front(writer, at, side)?;
    write_standing(writer, ending)?;
    write_departure(writer, ending.departure)?;
    write_heard(writer, ending.came, ending.taken, ending.last)?;
    write_text(writer, "\n")
}

/// Writes the state and the phase.
#[tactic(auto, unfolding(crate::specs::LastLines::state_and_phase_text))]
fn write_standing<W: Write>(writer: &mut W, ending: &FinalState) -> io::Result<()>
    ensures { OnOk result (Appends (W.contents writer.old) (W.contents writer.new)
        (endings.state_and_phase_text ending.now)) }
{
    let state = state_name(ending.state);
    let phase = phase_name(ending.phase);
    write!(writer, "ends {state} {phase}")
}

/// Writes who disconnected and why.
fn write_departure<W: Write>(writer: &mut W, departure: Option<Departure>) -> io::Result<()>
    ensures { OnOk result (Appends (W.contents writer.old) (W.contents writer.new)
        (endings.departure_text departure)) }
{
    match departure {
        None => write_text(writer, ""),
        Some(Departure::Own(leaving)) => write_leaving(writer, "; it disconnected with ", leaving),
        Some(Departure::Peer(leaving)) => {
            write_leaving(writer, "; its peer disconnected with ", leaving)
        }
    }
}

/// Writes what came, if no PDU of the peer was taken.
fn write_heard<W: Write>(
    writer: &mut W,
    came: u64,
    taken: u64,
    last: Option<Cause>,
) -> io::Result<()>
    ensures { OnOk result (Appends (W.contents writer.old) (W.contents writer.new)
        (endings.strangers_text came taken last)) }
{
    match (came, taken) {
        (0, _) => {
            write_text(
                writer,
                "; nothing received on any channel: is the peer running, and do local and remote match its settings?",
            )
        }
        (_, 0) => write_untaken(writer, came, last),
        _ => write_text(writer, ""),
    }
}

/// Writes how many datagrams came and why the last one was dropped.
#[tactic(auto, unfolding(crate::specs::LastLines::untaken_text))]
fn write_untaken<W: Write>(writer: &mut W, came: u64, last: Option<Cause>) -> io::Result<()>
    ensures { OnOk result (Appends (W.contents writer.old) (W.contents writer.new)
        (endings.untaken_text came last)) }
{
    write_came(writer, came)?;
    write_last(writer, last)?;
    Ok(())
}

/// Writes how many datagrams came.
#[tactic(auto, unfolding(crate::specs::LastLines::datagram_count_text))]
fn write_came<W: Write>(writer: &mut W, came: u64) -> io::Result<()>
    ensures { OnOk result (Appends (W.contents writer.old) (W.contents writer.new) (endings.datagram_count_text came)) }
{
    write!(
        writer,
        "; none of {came} datagrams was the peer's, the last one: "
    )
}

/// Writes why the last dropped datagram was dropped.
fn write_last<W: Write>(writer: &mut W, last: Option<Cause>) -> io::Result<()>
    ensures { OnOk result (Appends (W.contents writer.old) (W.contents writer.new) (endings.last_text last)) }
{
    match last {
        None => write_text(writer, ""),
        Some(cause) => write_cause(writer, cause),
    }
}
