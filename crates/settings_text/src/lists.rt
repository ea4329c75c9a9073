//! The lines of lists.

ghost use Rattle.std.specs.Prelude.{◌≡◌, OnOk, map, string_bytes};
ghost use Rattle.std.specs.Io.KnownBytes.{Appends};
ghost use Rattle.settings_file.specs.Groups.{put_seen};
ghost use Rattle.settings_file.specs.declared.keys.Key.TheVariants as key_of;
ghost use Rattle.settings_text.specs.InForce.{addresses_text, all_texts, later_address, later_number, later_put, list_line, numbers_text, put_text, puts_text, versions_line};

use crate::pieces::{write_key, write_number};
use end_settings::Side;
use pdu_text::{write_hex, write_text};
use settings_file::{Key, PutEntry};
use std::io;
use std::io::Write;

/// Writes the line of PDI versions.
#[tactic(auto, unfolding(crate::specs::InForce::list_line))]
pub fn write_versions<W: Write>(
    writer: &mut W,
    named: Option<Side>,
    versions: &[u8],
) -> io::Result<()>
    // If it succeeds, `write_versions` has appended the line of `version` for one version, and else that of
    // `versions`.
    ensures { OnOk result (Appends (W.contents writer.old) (W.contents writer.new) (versions_line named versions.now)) }
{
    if versions.len() == 1 {
        return write_number(writer, named, Key::Version, u64::from(versions[0]));
    }
    write_key(writer, named, Key::Versions)?;
    write_text(writer, "[")?;
    write_numbers(writer, versions)?;
    write_text(writer, "]\n")
}

/// Writes numbers with commas between them.
fn write_numbers<W: Write>(writer: &mut W, numbers: &[u8]) -> io::Result<()>
    ensures { OnOk result (Appends (W.contents writer.old) (W.contents writer.new) (numbers_text numbers.now)) }
{
    let [first, others @ ..] = numbers else {
        return write_text(writer, "");
    };
    write!(writer, "{first}")?;
    write_later_numbers(writer, others)
}

/// Writes numbers, each after a comma.
fn write_later_numbers<W: Write>(writer: &mut W, numbers: &[u8]) -> io::Result<()>
    ensures { OnOk result (Appends (W.contents writer.old) (W.contents writer.new) (all_texts later_number numbers.now)) }
{
    for number in numbers {
        write_later_number(writer, *number)?;
    }
    Ok(())
}

/// Writes a number after a comma.
fn write_later_number<W: Write>(writer: &mut W, number: u8) -> io::Result<()>
    ensures { OnOk result (Appends (W.contents writer.old) (W.contents writer.new) (later_number number)) }
{
    write!(writer, ", {number}")
}

/// Writes the line of addresses.
#[tactic(auto, unfolding(crate::specs::InForce::list_line))]
pub fn write_addresses<W: Write>(
    writer: &mut W,
    named: Option<Side>,
    key: Key,
    texts: &[String],
) -> io::Result<()>
    // If it succeeds, `write_addresses` has appended the line with the key and the addresses in quotes.
    ensures { OnOk result (Appends (W.contents writer.old) (W.contents writer.new)
        (list_line named key (addresses_text (map string_bytes texts.now)))) }
{
    write_key(writer, named, key)?;
    write_text(writer, "[")?;
    write_texts(writer, texts)?;
    write_text(writer, "]\n")
}

/// Writes texts in quotes, with commas between them.
fn write_texts<W: Write>(writer: &mut W, texts: &[String]) -> io::Result<()>
    ensures { OnOk result (Appends (W.contents writer.old) (W.contents writer.new) (addresses_text (map string_bytes texts.now))) }
{
    let [first, others @ ..] = texts else {
        return write_text(writer, "");
    };
    let first = first.as_str();
    write!(writer, "\"{first}\"")?;
    write_later_texts(writer, others)
}

/// Writes texts in quotes, each after a comma.
fn write_later_texts<W: Write>(writer: &mut W, texts: &[String]) -> io::Result<()>
    ensures { OnOk result (Appends (W.contents writer.old) (W.contents writer.new)
        (all_texts later_address (map string_bytes texts.now))) }
{
    for text in texts {
        write_later_text(writer, text)?;
    }
    Ok(())
}

/// Writes a text in quotes, after a comma.
fn write_later_text<W: Write>(writer: &mut W, text: &String) -> io::Result<()>
    ensures { OnOk result (Appends (W.contents writer.old) (W.contents writer.new) (later_address (string_bytes text.now))) }
{
    let text = text.as_str();
    write!(writer, ", \"{text}\"")
}

/// Writes the line of telegrams to be put.
#[tactic(auto, unfolding(crate::specs::InForce::list_line))]
pub fn write_puts<W: Write>(
    writer: &mut W,
    named: Option<Side>,
    puts: &[PutEntry],
) -> io::Result<()>
    // If it succeeds, `write_puts` has appended the line with the telegrams.
    ensures { OnOk result (Appends (W.contents writer.old) (W.contents writer.new)
        (list_line named key_of.Puts (puts_text (map put_seen puts.now)))) }
{
    write_key(writer, named, Key::Puts)?;
    write_text(writer, "[")?;
    write_telegrams(writer, puts)?;
    write_text(writer, "]\n")
}

/// Writes telegrams with commas between them.
fn write_telegrams<W: Write>(writer: &mut W, puts: &[PutEntry]) -> io::Result<()>
    ensures { OnOk result (Appends (W.contents writer.old) (W.contents writer.new) (puts_text (map put_seen puts.now))) }
{
    let [first, others @ ..] = puts else {
        return write_text(writer, "");
    };
    write_put(writer, first)?;
    write_later_puts(writer, others)
}

/// Writes telegrams, each after a comma. A loop, since there may be as many as a file has room for.
fn write_later_puts<W: Write>(writer: &mut W, puts: &[PutEntry]) -> io::Result<()>
    ensures { OnOk result (Appends (W.contents writer.old) (W.contents writer.new)
        (all_texts later_put (map put_seen puts.now))) }
{
    for put in puts {
        write_later_put(writer, put)?;
    }
    Ok(())
}

/// Writes a telegram after a comma.
fn write_later_put<W: Write>(writer: &mut W, put: &PutEntry) -> io::Result<()>
    ensures { OnOk result (Appends (W.contents writer.old) (W.contents writer.new) (later_put (put_seen put.now))) }
{
    write_text(writer, ", ")?;
    write_put(writer, put)
}

/// Writes a telegram in quotes.
#[tactic(auto, unfolding(crate::specs::InForce::put_text))]
fn write_put<W: Write>(writer: &mut W, put: &PutEntry) -> io::Result<()>
    ensures { OnOk result (Appends (W.contents writer.old) (W.contents writer.new) (put_text (put_seen put.now))) }
{
    write_text(writer, "\"")?;
    write_hex(writer, &put.kind.to_be_bytes())?;
    write_text(writer, ":")?;
    write_hex(writer, put.payload.as_slice())?;
    write_text(writer, "\"")
}
