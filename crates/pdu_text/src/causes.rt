//! Why a datagram was dropped, in words.

ghost use Rattle.std.specs.Prelude.{◌≡◌, OnOk};
ghost use Rattle.std.specs.Io.KnownBytes.{Appends};
ghost use Rattle.pdu_text.specs.Causes as causes;

use crate::write_text;
use red_layer::RedEvent;
use safe_machine::DropCause;
use safe_pdu::{Identifier, SafeFault};
use std::io;
use std::io::Write;

/// Why a datagram was dropped.
#[derive(Clone, Copy, Debug, PartialEq, Eq)]
pub enum Cause {
    /// The redundancy layer dropped or deferred it.
    Early(RedEvent),
    /// The safety machine dropped it.
    Part(DropCause),
    /// Its sender and receiver are not the two ends of this connection.
    Stranger {
        /// The identifier of its sender.
        sender: Identifier,
        /// The identifier of the end that it is for.
        receiver: Identifier,
        /// The identifier of the peer.
        peer_id: Identifier,
        /// The identifier of this end.
        id: Identifier,
    },
    /// It has the length of a PDU with another safety code.
    OtherCode {
        /// The length of that safety code, in bytes.
        found: u64,
        /// The length of the safety code of this end, in bytes.
        own: u64,
    },
}

/// Writes why a datagram was dropped.
pub(crate) fn write_cause<W: Write>(writer: &mut W, cause: Cause) -> io::Result<()>
    ensures { OnOk result (Appends (W.contents writer.old) (W.contents writer.new) (causes.cause_text cause)) }
{
    match cause {
        Cause::Early(event) => write_text(writer, event_words(event)),
        Cause::Part(why) => write_text(writer, part_words(why)),
        Cause::Stranger {
            sender,
            receiver,
            peer_id,
            id,
        } => write_stranger(writer, sender, receiver, peer_id, id),
        Cause::OtherCode { found, own } => write_other_code(writer, found, own),
    }
}

/// Writes that a datagram is a stranger's, with its identifiers and those expected.
#[tactic(auto, unfolding(crate::specs::Causes::stranger_text))]
fn write_stranger<W: Write>(
    writer: &mut W,
    sender: Identifier,
    receiver: Identifier,
    peer_id: Identifier,
    id: Identifier,
) -> io::Result<()>
    ensures { OnOk result (Appends (W.contents writer.old) (W.contents writer.new)
        (causes.stranger_text sender receiver peer_id id)) }
{
    write!(
        writer,
        "a stranger's: from id {sender} for id {receiver}, not from {peer_id} (peer_id) for {id} (id)"
    )
}

/// Writes that a datagram has another safety code, with its length and that expected.
#[tactic(auto, unfolding(crate::specs::Causes::other_code_text))]
fn write_other_code<W: Write>(writer: &mut W, found: u64, own: u64) -> io::Result<()>
    ensures { OnOk result (Appends (W.contents writer.old) (W.contents writer.new)
        (causes.other_code_text found own)) }
{
    write!(
        writer,
        "its length is that of a PDU with a safety code of {found} bytes, not {own} (code): another code, or damage"
    )
}

/// Returns the words for an event of the redundancy layer.
fn event_words(event: RedEvent) -> &'static str
    ensures { result.now ≡ causes.event_text event }
{
    match event {
        RedEvent::Passed => "passed on",
        RedEvent::Wait => "waits",
        RedEvent::Old => "its number was already received, on this or another channel",
        RedEvent::Far => "its number is too far ahead",
        RedEvent::Full => "it came early, and every place is taken",
        RedEvent::Again => "its number is already deferred",
        RedEvent::Fault(_) => "it is not a redundancy PDU: damage, or not RaSTA",
    }
}

/// Returns the words for a cause of the safety machine.
fn part_words(why: DropCause) -> &'static str
    ensures { result.now ≡ causes.part_text why }
{
    match why {
        DropCause::Fault(fault) => fault_words(fault),
        DropCause::Stranger => "a stranger's: another id or peer_id",
        DropCause::NotOpened => "it is not a connection request, and there is no connection",
        DropCause::Number => "its sequence number is too far ahead",
        DropCause::Request => "it is not the requested retransmission",
        DropCause::Answered => "a retransmission request that was already answered",
        DropCause::Below => "a retransmission request that confirms less than an earlier PDU",
    }
}

/// Returns the words for a fault of a safety PDU, with what may have caused it.
fn fault_words(fault: SafeFault) -> &'static str
    ensures { result.now ≡ causes.fault_text fault }
{
    match fault {
        SafeFault::Short => "it is too short for a safety PDU: another length of code, or damage",
        SafeFault::Length =>
            "its length differs from its length field: another length of code, or damage",
        SafeFault::Code =>
            "its safety code is not that of these settings: another code or initial value (iv), or damage",
        SafeFault::BadType => "its type is unknown",
        SafeFault::Body => "its body does not fit its type",
    }
}
