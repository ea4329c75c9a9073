//! The lines of the messages of a unit.

ghost use Rattle.std.specs.Prelude.{◌≡◌, ◌+◌, ◌≤◌, ◌<◌, ◌^◌, [], ◌∷◌, codes, length, map, OnOk, IfOk};
ghost use Rattle.std.specs.Io.KnownBytes.{Appends};
ghost use Rattle.pdi_session.specs.telegram.Places.{tele_seen};
ghost use Rattle.pdi_session.specs.telegram.Tele.{tele_of};
ghost use Rattle.pdu_text.specs.Lines.{fault_line};
ghost use Rattle.pdu_text.specs.MessageText.{are_telegrams, hex_field, telegram_head, is_clean_body, is_telegram, message_label, message_line, message_lines, names_text, telegram_line, unit_lines, unit_text, is_clean_unit};
ghost use Rattle.pdi_session.specs.packing.Places.{unit_seen};

use crate::texts::{write_fault, write_hex, write_octets, write_text};
use pdi_session::telegram::Telegram;
use safe_pdu::Kind;
use std::io;
use std::io::Write;

/// Writes the lines of a body: those of the unit in a Data or RetrData. Returns whether none of them names
/// a fault.
pub fn show_body<W: Write>(writer: &mut W, kind: Kind, body: &[u8]) -> io::Result<bool>
    // If it succeeds, `show_body` has appended the lines of the messages in the unit of a Data or RetrData,
    // and nothing for other PDU types.
    ensures written { OnOk result (Appends (W.contents writer.old) (W.contents writer.new) (unit_lines kind body.now)) }
    // The result of `show_body` is true if and only if none of the lines names a fault.
    ensures clean { IfOk result (λ clean. clean ≡ is_clean_body kind body.now) }
{
    match kind {
        Kind::Data | Kind::RetrData => {
            let clean = show_unit(writer, body)?;
            Ok(clean)
        }
        _ => Ok(true),
    }
}

/// Writes the lines of a unit.
fn show_unit<W: Write>(writer: &mut W, unit: &[u8]) -> io::Result<bool>
    // If it succeeds, `show_unit` has appended a line for each message of the unit, or the line of the
    // unit's fault.
    ensures written { OnOk result (Appends (W.contents writer.old) (W.contents writer.new)
        (unit_text (unit_seen unit.now))) }
    // The result of `show_unit` is true if and only if the unit unpacks and each of its messages is a
    // telegram.
    ensures clean { IfOk result (λ clean. clean ≡ is_clean_unit (unit_seen unit.now)) }
{
    match pdi_session::packing::unpack(unit) {
        Ok(messages) => {
            let clean = write_messages(writer, messages.as_slice())?;
            Ok(clean)
        }
        Err(fault) => {
            write_fault(writer, "unit", fault.number(), fault.name())?;
            Ok(false)
        }
    }
}

/// Writes the lines of messages, numbered from 1.
fn write_messages<W: Write>(writer: &mut W, messages: &[&[u8]]) -> io::Result<bool>
    // If it succeeds, `write_messages` has appended a line for each message, in order, numbered from 1.
    ensures written { OnOk result (Appends (W.contents writer.old) (W.contents writer.new)
        (message_lines 1 (map (λ m. m.now) messages.now))) }
    // The result of `write_messages` is true if and only if each message is a telegram.
    ensures clean { IfOk result (λ clean. clean ≡ are_telegrams (map (λ m. m.now) messages.now)) }
{
    let mut clean = true;
    for (i, message) in messages.iter().enumerate() {
        let whole = write_message(writer, i + 1, message)?;
        clean = clean && whole;
    }
    Ok(clean)
}

/// Writes the line of a message, and returns whether it is a telegram.
fn write_message<W: Write>(writer: &mut W, number: usize, message: &[u8]) -> io::Result<bool>
    // If it succeeds, `write_message` has appended the line of the telegram, or that of the message's
    // fault.
    ensures written { OnOk result (Appends (W.contents writer.old) (W.contents writer.new)
        (message_line number (tele_seen message.now))) }
    // The result of `write_message` is true if and only if the message is a telegram.
    ensures clean { IfOk result (λ clean. clean ≡ is_telegram (tele_seen message.now)) }
{
    match pdi_session::telegram::decode(message) {
        Ok(telegram) => {
            write_telegram(writer, number, &telegram)?;
            Ok(true)
        }
        Err(fault) => {
            write_message_fault(writer, number, fault.number(), fault.name())?;
            Ok(false)
        }
    }
}

/// Writes the line of a message that is not a telegram.
fn write_message_fault<W: Write>(
    writer: &mut W,
    number: usize,
    fault: u8,
    name: &str,
) -> io::Result<()>
    ensures { OnOk result (Appends (W.contents writer.old) (W.contents writer.new)
        (fault_line (message_label number) fault name.now)) }
{
    writeln!(writer, "message {number} fault {fault} {name}")
}

/// Writes the line of a telegram.
fn write_telegram<W: Write>(
    writer: &mut W,
    number: usize,
    telegram: &Telegram<'_>,
) -> io::Result<()>
    ensures { OnOk result (Appends (W.contents writer.old) (W.contents writer.new)
        (telegram_line number (tele_of telegram.now))) }
{
    write_head(writer, number, telegram)?;
    write_names(writer, telegram.sender.as_str(), telegram.receiver.as_str())?;
    write_octets(writer, telegram.payload)?;
    write_text(writer, "\n")
}

/// Writes the number, protocol type and message type of a telegram.
fn write_head<W: Write>(writer: &mut W, number: usize, telegram: &Telegram<'_>) -> io::Result<()>
    ensures { OnOk result (Appends (W.contents writer.old) (W.contents writer.new)
        (telegram_head number (tele_of telegram.now))) }
{
    write_label(writer, number)?;
    write_hex_field(writer, " protocol ", &[telegram.protocol])?;
    write_hex_field(writer, " type ", &telegram.kind.to_be_bytes())
}

/// Writes a label, and bytes in hex digits.
fn write_hex_field<W: Write>(writer: &mut W, label: &str, octets: &[u8]) -> io::Result<()>
    ensures { OnOk result (Appends (W.contents writer.old) (W.contents writer.new) (hex_field label.now octets.now)) }
{
    write_text(writer, label)?;
    write_hex(writer, octets)
}

/// Writes the number of a message.
fn write_label<W: Write>(writer: &mut W, number: usize) -> io::Result<()>
    ensures { OnOk result (Appends (W.contents writer.old) (W.contents writer.new) (message_label number)) }
{
    write!(writer, "message {number}")
}

/// Writes the names of a telegram.
fn write_names<W: Write>(writer: &mut W, sender: &str, receiver: &str) -> io::Result<()>
    ensures { OnOk result (Appends (W.contents writer.old) (W.contents writer.new)
        (names_text sender.now receiver.now)) }
{
    write!(writer, " from {sender} to {receiver} payload ")
}
