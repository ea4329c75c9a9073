//! The log of an end: one line for each thing that happened to it.

ghost use Rattle.std.specs.Prelude.{◌≡◌, OnOk};
ghost use Rattle.std.specs.Io.KnownBytes.{Appends};
ghost use Rattle.pdu_text.specs.LogLines as lines;
ghost use Rattle.pdu_text.specs.Pieces.{log_line};

use crate::causes::{Cause, write_cause};
use crate::disconnect_reasons::write_leaving;
use crate::names::{phase_name, state_name};
use crate::pieces::write_front;
use crate::write_text;
use end_settings::Side;
use octets::Milliseconds;
use pdi_session::{InitFault, Phase, PutFault};
use safe_machine::ConnectionState;
use safe_pdu::Leaving;
use std::io;
use std::io::Write;

/// An event in the log of an end.
#[derive(Clone, Copy, Debug, PartialEq, Eq)]
pub enum EndEvent {
    /// The connection has entered this state.
    State(ConnectionState),
    /// The session has entered this phase.
    Phase(Phase),
    /// The end was opened again, and its first sequence number is this.
    Anew(u32),
    /// The end disconnected.
    Left(Leaving),
    /// Its peer disconnected.
    PeerLeft(Leaving),
    /// The end requested a retransmission.
    Asked,
    /// The end carried out a retransmission.
    Resent,
    /// A telegram was not accepted from the application.
    PutRefused(PutFault),
    /// The end of the initialisation was not accepted.
    InitRefused(InitFault),
    /// Nothing came on this channel, counted from 1, for longer than T_max.
    Silent(usize),
    /// Something came on this channel again.
    Heard(usize),
    /// A datagram of this channel was dropped; 0 if it was deferred, because its channel is then unknown.
    Dropped(usize, Cause),
}

/// Writes the line of an event at a time of the end's clock, in milliseconds.
///
/// # Errors
///
/// The writer's error; what came before it remains written.
#[tactic(auto, unfolding(crate::specs::Pieces::log_line))]
pub fn write_happening<W: Write>(
    writer: &mut W,
    at: Milliseconds,
    side: Side,
    happening: EndEvent,
) -> io::Result<()>
    // If it succeeds, `write_happening` has appended a line: the time in seconds with three decimals, the
    // name of the end, and the text of the event.
    ensures { OnOk result (Appends (W.contents writer.old) (W.contents writer.new)
        (log_line at side (lines.end_event_text happening))) }
{
    write_front(writer, at, side)?;
    write_what(writer, happening)?;
    write_text(writer, "\n")
}

/// Writes the text of an event.
fn write_what<W: Write>(writer: &mut W, happening: EndEvent) -> io::Result<()>
    ensures { OnOk result (Appends (W.contents writer.old) (W.contents writer.new)
        (lines.end_event_text happening)) }
{
    match happening {
        EndEvent::State(state) => write_state(writer, state_name(state)),
        EndEvent::Phase(phase) => write_phase(writer, phase_name(phase)),
        EndEvent::Anew(number) => write_anew(writer, number),
        EndEvent::Left(leaving) => write_leaving(writer, "disconnects with ", leaving),
        EndEvent::PeerLeft(leaving) => { write_leaving(writer, "peer disconnected with ", leaving) }
        EndEvent::Asked => {
            write_text(
                writer,
                "requests a retransmission: a PDU was lost on all channels",
            )
        }
        EndEvent::Resent => write_text(writer, "resends what the peer has missed"),
        EndEvent::PutRefused(fault) => write_refused(writer, fault.name()),
        EndEvent::InitRefused(fault) => write_not_ended(writer, fault.name()),
        EndEvent::Silent(channel) => write_silent(writer, channel),
        EndEvent::Heard(channel) => write_heard(writer, channel),
        EndEvent::Dropped(channel, cause) => write_dropped(writer, channel, cause),
    }
}

/// Writes that the connection has entered a state.
#[tactic(auto, unfolding(crate::specs::LogLines::state_text))]
fn write_state<W: Write>(writer: &mut W, name: &str) -> io::Result<()>
    ensures { OnOk result (Appends (W.contents writer.old) (W.contents writer.new) (lines.state_text name.now)) }
{
    write!(writer, "connection {name}")
}

/// Writes that the session has entered a phase.
#[tactic(auto, unfolding(crate::specs::LogLines::phase_text))]
fn write_phase<W: Write>(writer: &mut W, name: &str) -> io::Result<()>
    ensures { OnOk result (Appends (W.contents writer.old) (W.contents writer.new) (lines.phase_text name.now)) }
{
    write!(writer, "session {name}")
}

/// Writes that an end was opened again.
#[tactic(auto, unfolding(crate::specs::LogLines::reopened_text))]
fn write_anew<W: Write>(writer: &mut W, number: u32) -> io::Result<()>
    ensures { OnOk result (Appends (W.contents writer.old) (W.contents writer.new) (lines.reopened_text number)) }
{
    write!(writer, "reopened, first sequence number {number}")
}

/// Writes that a telegram was not accepted.
#[tactic(auto, unfolding(crate::specs::LogLines::refusal_text))]
fn write_refused<W: Write>(writer: &mut W, name: &str) -> io::Result<()>
    ensures { OnOk result (Appends (W.contents writer.old) (W.contents writer.new) (lines.refusal_text name.now)) }
{
    write!(writer, "telegram not accepted: {name}")
}

/// Writes that the end of the initialisation was not accepted.
#[tactic(auto, unfolding(crate::specs::LogLines::not_ended_text))]
fn write_not_ended<W: Write>(writer: &mut W, name: &str) -> io::Result<()>
    ensures { OnOk result (Appends (W.contents writer.old) (W.contents writer.new)
        (lines.not_ended_text name.now)) }
{
    write!(writer, "end of initialisation not accepted: {name}")
}

/// Writes that nothing came on a channel for longer than T_max.
#[tactic(auto, unfolding(crate::specs::LogLines::silent_text))]
fn write_silent<W: Write>(writer: &mut W, channel: usize) -> io::Result<()>
    ensures { OnOk result (Appends (W.contents writer.old) (W.contents writer.new) (lines.silent_text channel)) }
{
    write!(
        writer,
        "channel {channel} is silent: nothing received for longer than T_max"
    )
}

/// Writes that something came on a channel again.
#[tactic(auto, unfolding(crate::specs::LogLines::recovered_text))]
fn write_heard<W: Write>(writer: &mut W, channel: usize) -> io::Result<()>
    ensures { OnOk result (Appends (W.contents writer.old) (W.contents writer.new) (lines.recovered_text channel)) }
{
    write!(writer, "channel {channel} receives again")
}

/// Writes that a datagram was dropped, and why.
#[tactic(auto, unfolding(crate::specs::LogLines::drop_text))]
fn write_dropped<W: Write>(writer: &mut W, channel: usize, cause: Cause) -> io::Result<()>
    ensures { OnOk result (Appends (W.contents writer.old) (W.contents writer.new)
        (lines.drop_text channel cause)) }
{
    write_drop_front(writer, channel)?;
    write_cause(writer, cause)?;
    Ok(())
}

/// Writes which datagram was dropped.
#[tactic(auto, unfolding(crate::specs::LogLines::drop_front))]
fn write_drop_front<W: Write>(writer: &mut W, channel: usize) -> io::Result<()>
    ensures { OnOk result (Appends (W.contents writer.old) (W.contents writer.new) (lines.drop_front channel)) }
{
    match channel {
        0 => write_text(writer, "dropped a deferred datagram: "),
        channel => write_channel_front(writer, channel),
    }
}

/// Writes that a datagram of a channel was dropped.
#[tactic(auto, unfolding(crate::specs::LogLines::channel_front))]
fn write_channel_front<W: Write>(writer: &mut W, channel: usize) -> io::Result<()>
    ensures { OnOk result (Appends (W.contents writer.old) (W.contents writer.new)
        (lines.channel_front channel)) }
{
    write!(writer, "dropped a datagram of channel {channel}: ")
}

/// Writes the line of a channel that an end is opened with, counted from 1: its own address and the peer's.
///
/// # Errors
///
/// The writer's error; what came before it remains written.
#[tactic(auto, unfolding(crate::specs::Pieces::log_line))]
pub fn write_channel<W: Write>(
    writer: &mut W,
    at: Milliseconds,
    side: Side,
    channel: usize,
    local: &str,
    remote: &str,
) -> io::Result<()>
    // If it succeeds, `write_channel` has appended a line: the time in seconds, the name of the end, the
    // channel's number, its own address and the peer's.
    ensures { OnOk result (Appends (W.contents writer.old) (W.contents writer.new)
        (log_line at side (lines.channel_text channel local.now remote.now))) }
{
    write_front(writer, at, side)?;
    write_opened(writer, channel, local, remote)?;
    write_text(writer, "\n")
}

/// Writes that a channel is opened, with both addresses.
#[tactic(auto, unfolding(crate::specs::LogLines::channel_text))]
fn write_opened<W: Write>(
    writer: &mut W,
    channel: usize,
    local: &str,
    remote: &str,
) -> io::Result<()>
    ensures { OnOk result (Appends (W.contents writer.old) (W.contents writer.new)
        (lines.channel_text channel local.now remote.now)) }
{
    write!(
        writer,
        "opens channel {channel}: own {local}, peer {remote}"
    )
}

/// Writes how many lines were left out of the log, because more happened in a turn than it keeps.
///
/// # Errors
///
/// The writer's error; what came before it remains written.
#[tactic(auto, unfolding(crate::specs::Pieces::log_line))]
pub fn write_missed<W: Write>(
    writer: &mut W,
    at: Milliseconds,
    side: Side,
    count: u64,
) -> io::Result<()>
    // If it succeeds, `write_missed` has appended a line: the time in seconds, the name of the end, and how
    // many lines were left out.
    ensures { OnOk result (Appends (W.contents writer.old) (W.contents writer.new)
        (log_line at side (lines.missing_lines_text count))) }
{
    write_front(writer, at, side)?;
    write_count(writer, count)?;
    write_text(writer, "\n")
}

/// Writes how many lines were left out.
#[tactic(auto, unfolding(crate::specs::LogLines::missing_lines_text))]
fn write_count<W: Write>(writer: &mut W, count: u64) -> io::Result<()>
    ensures { OnOk result (Appends (W.contents writer.old) (W.contents writer.new) (lines.missing_lines_text count)) }
{
    write!(
        writer,
        "log: {count} lines left out, too many events in one turn"
    )
}
