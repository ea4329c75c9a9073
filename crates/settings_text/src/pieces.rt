//! The lines of single values.

ghost use Rattle.std.specs.Prelude.{◌≡◌, OnOk};
ghost use Rattle.std.specs.Io.KnownBytes.{Appends};
ghost use Rattle.hex.specs.Hex.{encode_lower};
ghost use Rattle.settings_text.specs.InForce.{all_texts, first_line, key_text, number_line, table_text, text_line, word_text};
ghost use Rattle.settings_file.specs.declared.keys.Key.TheVariants as key_of;

use end_settings::Side;
use pdu_text::{write_hex, write_text};
use settings_file::Key;
use std::io;
use std::io::Write;

/// Returns what is before a key of this table.
fn table_name(named: Option<Side>) -> &'static str
    ensures { result.now ≡ table_text named }
{
    match named {
        None => "",
        Some(Side::Interlocking) => "il.",
        Some(Side::FieldElement) => "fe.",
    }
}

/// Writes a key and the sign after it.
#[tactic(auto, unfolding(crate::specs::InForce::key_text))]
pub fn write_key<W: Write>(writer: &mut W, named: Option<Side>, key: Key) -> io::Result<()>
    // If it succeeds, `write_key` has appended the table, the key and an equals sign.
    ensures { OnOk result (Appends (W.contents writer.old) (W.contents writer.new) (key_text named key)) }
{
    let table = table_name(named);
    let name = key.text();
    write!(writer, "{table}{name} = ")
}

/// Writes the line of a number.
#[tactic(auto, unfolding(crate::specs::InForce::number_line))]
pub fn write_number<W: Write>(
    writer: &mut W,
    named: Option<Side>,
    key: Key,
    number: u64,
) -> io::Result<()>
    // If it succeeds, `write_number` has appended the line with the key and the number in decimal.
    ensures { OnOk result (Appends (W.contents writer.old) (W.contents writer.new) (number_line named key number)) }
{
    write_key(writer, named, key)?;
    writeln!(writer, "{number}")
}

/// Writes the line of a text.
#[tactic(auto, unfolding(crate::specs::InForce::text_line))]
pub fn write_quoted<W: Write>(
    writer: &mut W,
    named: Option<Side>,
    key: Key,
    text: &str,
) -> io::Result<()>
    // If it succeeds, `write_quoted` has appended the line with the key and the text in quotes.
    ensures { OnOk result (Appends (W.contents writer.old) (W.contents writer.new) (text_line named key text.now)) }
{
    write_key(writer, named, key)?;
    writeln!(writer, "\"{text}\"")
}

/// Writes the line of bytes.
#[tactic(auto, unfolding(crate::specs::InForce::text_line))]
pub fn write_bytes<W: Write>(
    writer: &mut W,
    named: Option<Side>,
    key: Key,
    octets: &[u8],
) -> io::Result<()>
    // If it succeeds, `write_bytes` has appended the line with the key and the bytes in hex digits, in quotes.
    ensures { OnOk result (Appends (W.contents writer.old) (W.contents writer.new) (text_line named key (encode_lower octets.now))) }
{
    write_key(writer, named, key)?;
    write_text(writer, "\"")?;
    write_hex(writer, octets)?;
    write_text(writer, "\"\n")
}

/// Writes the line of an initial value.
#[tactic(auto, unfolding(crate::specs::InForce::text_line))]
pub fn write_initial_value<W: Write>(
    writer: &mut W,
    named: Option<Side>,
    words: &[u32],
) -> io::Result<()>
    // If it succeeds, `write_initial_value` has appended the line with the words in hex digits, in quotes, the
    // least significant byte of each first.
    ensures { OnOk result (Appends (W.contents writer.old) (W.contents writer.new)
        (text_line named key_of.InitialValue (all_texts word_text words.now))) }
{
    write_key(writer, named, Key::InitialValue)?;
    write_text(writer, "\"")?;
    write_words(writer, words)?;
    write_text(writer, "\"\n")
}

/// Writes words in hex digits.
fn write_words<W: Write>(writer: &mut W, words: &[u32]) -> io::Result<()>
    ensures { OnOk result (Appends (W.contents writer.old) (W.contents writer.new) (all_texts word_text words.now)) }
{
    for word in words {
        write_word(writer, *word)?;
    }
    Ok(())
}

/// Writes a word in hex digits.
fn write_word<W: Write>(writer: &mut W, word: u32) -> io::Result<()>
    ensures { OnOk result (Appends (W.contents writer.old) (W.contents writer.new) (word_text word)) }
{
    write_hex(writer, &word.to_le_bytes())
}

/// Writes the line of the first sequence number.
pub fn write_first<W: Write>(
    writer: &mut W,
    named: Option<Side>,
    first_sn: Option<u32>,
) -> io::Result<()>
    // If it succeeds, `write_first` has appended the line with the number, or with `random` if it is drawn.
    ensures { OnOk result (Appends (W.contents writer.old) (W.contents writer.new) (first_line named first_sn)) }
{
    match first_sn {
        Some(number) => write_number(writer, named, Key::FirstSn, u64::from(number)),
        None => write_quoted(writer, named, Key::FirstSn, "random"),
    }
}
