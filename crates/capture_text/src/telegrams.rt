//! The telegrams of a datagram.

ghost use Rattle.std.specs.Prelude.{◌≡◌, OnOk};
ghost use Rattle.std.specs.Io.KnownBytes.{Appends};
ghost use Rattle.capture_text.specs.Telegrams.{body_lines, telegram_lines};
ghost use Rattle.safe_pdu.specs.Places.{safe_seen};

use pdu_text::show_body;
use safe_pdu::CodeRule;
use std::io;
use std::io::Write;

/// Writes the lines of a datagram's telegrams, as `rasta show` prints them; nothing if it is not a PDU with
/// telegrams.
///
/// # Errors
///
/// The error of the writer. What was written before it stays.
pub fn write_telegrams<W: Write>(writer: &mut W, rule: &CodeRule, datagram: &[u8]) -> io::Result<()>
    // On success the lines of the telegrams in the PDU of `datagram` are appended; nothing if either layer rejects it
    // (`telegram_lines`).
    ensures { OnOk result (Appends (W.contents writer.old) (W.contents writer.new)
        (telegram_lines rule.now datagram.now)) }
{
    match red_layer::pdu::decode(datagram) {
        Ok(pdu) => write_body(writer, rule, pdu.upper),
        Err(_) => Ok(()),
    }
}

/// Writes the lines of the telegrams in the part of a redundancy PDU.
fn write_body<W: Write>(writer: &mut W, rule: &CodeRule, upper: &[u8]) -> io::Result<()>
    ensures { OnOk result (Appends (W.contents writer.old) (W.contents writer.new)
        (body_lines (safe_seen rule.now upper.now))) }
{
    match safe_pdu::decode(upper, rule) {
        Ok(pdu) => {
            let _clean = show_body(writer, pdu.kind, pdu.body)?;
            Ok(())
        }
        Err(_) => Ok(()),
    }
}
