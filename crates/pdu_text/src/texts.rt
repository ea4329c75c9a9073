//! Writes texts, bytes in hex digits, and the line of a layer's fault.

ghost use Rattle.std.specs.Prelude.{OnOk};
ghost use Rattle.std.specs.Io.KnownBytes.{Appends};
ghost use Rattle.hex.specs.Hex.{encode_lower};
ghost use Rattle.pdu_text.specs.Lines.{fault_line, octet_text, octets_text};

use std::io;
use std::io::Write;

/// Writes the line of a layer's fault.
pub(crate) fn write_fault<W: Write>(
    writer: &mut W,
    layer: &str,
    number: u8,
    name: &str,
) -> io::Result<()>
    ensures { OnOk result (Appends (W.contents writer.old) (W.contents writer.new)
        (fault_line layer.now number name.now)) }
{
    writeln!(writer, "{layer} fault {number} {name}")
}

/// Writes bytes in hex digits, and a dash if there are none.
pub fn write_octets<W: Write>(writer: &mut W, octets: &[u8]) -> io::Result<()>
    // If it succeeds, `write_octets` has appended the bytes in two lowercase hex digits each, or a dash if
    // there are none.
    ensures { OnOk result (Appends (W.contents writer.old) (W.contents writer.new) (octets_text octets.now)) }
{
    match octets {
        [] => write_text(writer, "-"),
        octets => write_hex(writer, octets),
    }
}

/// Writes bytes in lowercase hex digits, two for each.
pub fn write_hex<W: Write>(writer: &mut W, octets: &[u8]) -> io::Result<()>
    // If it succeeds, `write_hex` has appended the bytes in two lowercase hex digits each, and nothing if
    // there are none.
    ensures { OnOk result (Appends (W.contents writer.old) (W.contents writer.new) (encode_lower octets.now)) }
{
    for octet in octets {
        write_octet(writer, *octet)?;
    }
    Ok(())
}

/// Writes a byte in two hex digits.
fn write_octet<W: Write>(writer: &mut W, octet: u8) -> io::Result<()>
    ensures { OnOk result (Appends (W.contents writer.old) (W.contents writer.new) (octet_text octet)) }
{
    let mut digits = [0u8; 2];
    let _ = hex::encode_to_slice([octet], &mut digits);
    writer.write_all(&digits)
}

/// Writes a text.
pub fn write_text<W: Write>(writer: &mut W, text: &str) -> io::Result<()>
    // If it succeeds, `write_text` has appended the text as it is.
    ensures { OnOk result (Appends (W.contents writer.old) (W.contents writer.new) text.now) }
{
    writer.write_all(text.as_bytes())
}
