//! The line of a datagram.

ghost use Rattle.std.specs.Prelude.{◌≡◌, OnOk};
ghost use Rattle.std.specs.Io.KnownBytes.{Appends};
ghost use Rattle.capture_text.specs.RecordText.{fault_text, fields_text, head_text, no_red_text, no_safe_text, number_text, pdu_text, record_text, red_fault_text, remark_text, safe_fault_text, way_text};

use crate::pieces::{Clock, channel_name, write_address, write_ends, write_since};
use crate::remarks::write_remarks;
use crate::summary::Scale;
use capture::{Header, Record, Remark, Remarks};
use pdu_text::write_text;
use red_layer::pdu::RedFault;
use safe_pdu::SafeFault;
use std::io;
use std::io::Write;

/// Writes the line of a datagram: its time, its line in the capture, and its header
/// fields with remarks by this T_max, or its fault.
///
/// # Errors
///
/// The error of the writer. What was written before it stays.
#[tactic(auto, unfolding(crate::specs::RecordText::record_text))]
pub fn write_record<W: Write>(
    writer: &mut W,
    scale: Scale,
    line: u64,
    record: &Record,
    remark: &Remark,
) -> io::Result<()>
    // On success one line is appended. For a PDU: time, line, ends, channel, redundancy number, type, header fields,
    // remarks. For any other datagram: time, line, addresses, the redundancy number if there is one, and the fault
    // (`record_text`).
    ensures { OnOk result (Appends (W.contents writer.old) (W.contents writer.new)
        (record_text scale line «record».now remark.now)) }
{
    write_head(writer, scale.clock, line, record)?;
    write_remark(writer, scale.t_max, record, remark)?;
    write_text(writer, "\n")?;
    Ok(())
}

/// Writes the head of a line: time and number.
#[tactic(auto, unfolding(crate::specs::RecordText::head_text))]
fn write_head<W: Write>(writer: &mut W, clock: Clock, line: u64, record: &Record) -> io::Result<()>
    ensures { OnOk result (Appends (W.contents writer.old) (W.contents writer.new)
        (head_text clock line «record».now)) }
{
    write_since(writer, clock, record.time)?;
    write!(writer, " line {line} ")
}

/// Writes the part of a line that depends on what was decoded.
fn write_remark<W: Write>(
    writer: &mut W,
    t_max: u32,
    record: &Record,
    remark: &Remark,
) -> io::Result<()>
    ensures { OnOk result (Appends (W.contents writer.old) (W.contents writer.new)
        (remark_text t_max «record».now remark.now)) }
{
    match *remark {
        Remark::Pdu(seq, header, remarks) => write_pdu(writer, t_max, seq, &header, &remarks),
        Remark::NoSafe(seq, fault) => write_no_safe(writer, record, seq, fault),
        Remark::NoRed(fault) => write_no_red(writer, record, fault),
    }
}

/// Writes a datagram whose part is not a safety PDU.
#[tactic(auto, unfolding(crate::specs::RecordText::no_safe_text))]
fn write_no_safe<W: Write>(
    writer: &mut W,
    record: &Record,
    seq: u32,
    fault: SafeFault,
) -> io::Result<()>
    ensures { OnOk result (Appends (W.contents writer.old) (W.contents writer.new)
        (no_safe_text «record».now seq fault)) }
{
    write_way(writer, record)?;
    write_number(writer, seq)?;
    write_safe_fault(writer, fault)?;
    Ok(())
}

/// Writes a redundancy number.
#[tactic(auto, unfolding(crate::specs::RecordText::number_text))]
fn write_number<W: Write>(writer: &mut W, seq: u32) -> io::Result<()>
    ensures { OnOk result (Appends (W.contents writer.old) (W.contents writer.new) (number_text seq)) }
{
    write!(writer, " red {seq}")
}

/// Writes a datagram that is not a redundancy PDU.
#[tactic(auto, unfolding(crate::specs::RecordText::no_red_text))]
fn write_no_red<W: Write>(writer: &mut W, record: &Record, fault: RedFault) -> io::Result<()>
    ensures { OnOk result (Appends (W.contents writer.old) (W.contents writer.new) (no_red_text «record».now fault)) }
{
    write_way(writer, record)?;
    write_red_fault(writer, fault)?;
    Ok(())
}

/// Writes a PDU.
#[tactic(auto, unfolding(crate::specs::RecordText::pdu_text))]
fn write_pdu<W: Write>(
    writer: &mut W,
    t_max: u32,
    seq: u32,
    header: &Header,
    remarks: &Remarks,
) -> io::Result<()>
    ensures { OnOk result (Appends (W.contents writer.old) (W.contents writer.new)
        (pdu_text t_max seq header.now remarks.now)) }
{
    write_ends(writer, header.sender, header.receiver)?;
    write_text(writer, channel_name(remarks.route))?;
    write_fields(writer, seq, header)?;
    write_remarks(writer, t_max, remarks)
}

/// Writes the redundancy number, type, numbers and timestamps of a PDU.
#[tactic(auto, unfolding(crate::specs::RecordText::fields_text))]
fn write_fields<W: Write>(writer: &mut W, seq: u32, header: &Header) -> io::Result<()>
    ensures { OnOk result (Appends (W.contents writer.old) (W.contents writer.new) (fields_text seq header.now)) }
{
    let name = header.kind.name();
    let Header {
        kind: _,
        receiver: _,
        sender: _,
        sn,
        cs,
        ts,
        cts,
        fingerprint: _,
        leaving: _,
    } = *header;
    write!(
        writer,
        " red {seq} {name} sn {sn} cs {cs} ts {ts} cts {cts}"
    )
}

/// Writes the addresses of a datagram that is not a PDU.
#[tactic(auto, unfolding(crate::specs::RecordText::way_text))]
fn write_way<W: Write>(writer: &mut W, record: &Record) -> io::Result<()>
    ensures { OnOk result (Appends (W.contents writer.old) (W.contents writer.new) (way_text «record».now)) }
{
    write_address(writer, record.source)?;
    write_text(writer, "->")?;
    write_address(writer, record.destination)
}

/// Writes the fault of a safety PDU.
fn write_safe_fault<W: Write>(writer: &mut W, fault: SafeFault) -> io::Result<()>
    ensures { OnOk result (Appends (W.contents writer.old) (W.contents writer.new) (safe_fault_text fault)) }
{
    let number = fault.number();
    let name = fault.name();
    write_fault(writer, "safe", number, name)
}

/// Writes the fault of a redundancy PDU.
fn write_red_fault<W: Write>(writer: &mut W, fault: RedFault) -> io::Result<()>
    ensures { OnOk result (Appends (W.contents writer.old) (W.contents writer.new) (red_fault_text fault)) }
{
    let number = fault.number();
    let name = fault.name();
    write_fault(writer, "red", number, name)
}

/// Writes the fault of a layer.
#[tactic(auto, unfolding(crate::specs::RecordText::fault_text))]
fn write_fault<W: Write>(writer: &mut W, layer: &str, number: u8, name: &str) -> io::Result<()>
    ensures { OnOk result (Appends (W.contents writer.old) (W.contents writer.new)
        (fault_text layer.now number name.now)) }
{
    write!(writer, " {layer} fault {number} {name}")
}
