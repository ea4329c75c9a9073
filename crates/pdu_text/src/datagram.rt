//! The text of a datagram, line by line. Each piece of a line is written at once. A fault hides no line
//! above it, and a message that is not a telegram hides no other.

ghost use Rattle.std.specs.Prelude.{◌≡◌, [], ◌∷◌, codes, OnOk, IfOk};
ghost use Rattle.std.specs.Fmt.{decimal};
ghost use Rattle.std.specs.Io.KnownBytes.{Appends};
ghost use Rattle.safe_pdu.specs.Bodies.{IsBody};
ghost use Rattle.safe_pdu.specs.Pdu.{pdu_of};
ghost use Rattle.safe_pdu.specs.Places.{safe_seen};
ghost use Rattle.pdu_text.specs.Lines.{join_pieces};
ghost use Rattle.pdu_text.specs.ShowText.{body_text, fields_text, is_clean, is_clean_upper, red_line, safe_line, show_text, upper_text};

use crate::messages::show_body;
use crate::texts::{write_fault, write_text};
use safe_pdu::{CodeRule, Kind, Leaving, Opening, SafePdu, read_leaving, read_opening};
use std::io;
use std::io::Write;

/// Writes the text of a datagram, which may contain any bytes, with the given safety code settings. Returns
/// whether no line names a fault.
///
/// # Errors
///
/// The writer's error; what came before it remains written.
pub fn show<W: Write>(octets: &[u8], rule: &CodeRule, writer: &mut W) -> io::Result<bool>
    // If it succeeds, `show` has appended the text of the datagram: the lines of the redundancy PDU, safety
    // PDU and messages, up to the first layer with a fault.
    ensures written { OnOk result (Appends (W.contents writer.old) (W.contents writer.new)
        (show_text rule.now octets.now)) }
    // The result of `show` is true if and only if no line of the text names a fault.
    ensures clean { IfOk result (λ clean. clean ≡ is_clean rule.now octets.now) }
{
    match red_layer::pdu::decode(octets) {
        Ok(pdu) => {
            write_red(writer, octets.len(), pdu.seq)?;
            let clean = show_upper(pdu.upper, rule, writer)?;
            Ok(clean)
        }
        Err(fault) => {
            write_fault(writer, "red", fault.number(), fault.name())?;
            Ok(false)
        }
    }
}

/// Writes the lines of the payload of a redundancy PDU.
fn show_upper<W: Write>(upper: &[u8], rule: &CodeRule, writer: &mut W) -> io::Result<bool>
    // If it succeeds, `show_upper` has appended the line of the safety PDU and those of its messages, or
    // the line of the safety PDU's fault.
    ensures written { OnOk result (Appends (W.contents writer.old) (W.contents writer.new)
        (upper_text (safe_seen rule.now upper.now))) }
    // The result of `show_upper` is true if and only if none of these lines names a fault.
    ensures clean { IfOk result (λ clean. clean ≡ is_clean_upper (safe_seen rule.now upper.now)) }
{
    match safe_pdu::decode(upper, rule) {
        Ok(pdu) => {
            write_safe(writer, &pdu)?;
            let clean = show_body(writer, pdu.kind, pdu.body)?;
            Ok(clean)
        }
        Err(fault) => {
            write_fault(writer, "safe", fault.number(), fault.name())?;
            Ok(false)
        }
    }
}

/// Writes the line of a redundancy PDU.
fn write_red<W: Write>(writer: &mut W, size: usize, seq: u32) -> io::Result<()>
    ensures { OnOk result (Appends (W.contents writer.old) (W.contents writer.new) (red_line size seq)) }
{
    writeln!(writer, "red length {size} seq {seq}")
}

/// Writes the line of a safety PDU.
fn write_safe<W: Write>(writer: &mut W, pdu: &SafePdu<'_>) -> io::Result<()>
    requires { IsBody pdu.now.kind pdu.now.body.now }
    ensures { OnOk result (Appends (W.contents writer.old) (W.contents writer.new) (safe_line (pdu_of pdu.now))) }
{
    write_fields(writer, pdu)?;
    write_body(writer, pdu.kind, pdu.body)?;
    write_text(writer, "\n")
}

/// Writes the PDU type and the header fields.
fn write_fields<W: Write>(writer: &mut W, pdu: &SafePdu<'_>) -> io::Result<()>
    ensures { OnOk result (Appends (W.contents writer.old) (W.contents writer.new) (fields_text (pdu_of pdu.now))) }
{
    let SafePdu {
        kind,
        receiver,
        sender,
        sn,
        cs,
        ts,
        cts,
        body: _,
    } = *pdu;
    let name = kind.name();
    write!(
        writer,
        "{name} receiver {receiver} sender {sender} sn {sn} cs {cs} ts {ts} cts {cts}"
    )
}

/// Writes the content of a body on the line of its PDU.
fn write_body<W: Write>(writer: &mut W, kind: Kind, body: &[u8]) -> io::Result<()>
    requires { IsBody kind body.now }
    ensures { OnOk result (Appends (W.contents writer.old) (W.contents writer.new) (body_text kind body.now)) }
{
    match kind {
        Kind::ConnReq | Kind::ConnResp => write_opening(writer, &read_opening(body)),
        Kind::DiscReq => {
            let Leaving { detail, reason } = read_leaving(body);
            write!(writer, " detail {detail} reason {reason}")
        }
        Kind::RetrReq | Kind::RetrResp | Kind::Heartbeat | Kind::Data | Kind::RetrData => Ok(()),
    }
}

/// Writes the version and N_sendmax.
fn write_opening<W: Write>(writer: &mut W, opening: &Opening<'_>) -> io::Result<()>
    ensures { OnOk result (Appends (W.contents writer.old) (W.contents writer.new)
        (join_pieces (codes " version " ∷ opening.now.version.now
        ∷ codes " nsendmax " ∷ decimal opening.now.n_sendmax ∷ []))) }
{
    write_text(writer, " version ")?;
    writer.write_all(opening.version)?;
    let n_sendmax = opening.n_sendmax;
    write!(writer, " nsendmax {n_sendmax}")
}
