//! The start of a line: the time of the end, and its name.

ghost use Rattle.std.specs.Prelude.{◌≡◌, OnOk};
ghost use Rattle.std.specs.Io.KnownBytes.{Appends};
ghost use Rattle.pdu_text.specs.Pieces.{front_text, three_digits, time_text};

use crate::names::side_name;
use end_settings::Side;
use octets::Milliseconds;
use std::io;
use std::io::Write;

/// Writes the time and the end at the start of a line.
#[tactic(auto, unfolding(crate::specs::Pieces::front_text))]
pub(crate) fn write_front<W: Write>(writer: &mut W, at: Milliseconds, side: Side) -> io::Result<()>
    ensures { OnOk result (Appends (W.contents writer.old) (W.contents writer.new) (front_text at side)) }
{
    write_time(writer, at)?;
    let name = side_name(side);
    write!(writer, " {name} ")
}

/// Writes milliseconds as seconds with three decimals.
#[tactic(auto, unfolding(crate::specs::Pieces::time_text))]
pub(crate) fn write_time<W: Write>(writer: &mut W, ms: Milliseconds) -> io::Result<()>
    ensures { OnOk result (Appends (W.contents writer.old) (W.contents writer.new) (time_text ms)) }
{
    let seconds = ms / 1_000;
    write!(writer, "{seconds}.")?;
    let digits = spell(ms % 1_000);
    writer.write_all(&digits)
}

/// Returns the last three digits of a number.
fn spell(number: u64) -> [u8; 3]
    ensures { result ≡ three_digits number }
{
    [
        (48 + number / 100 % 10) as u8,
        (48 + number / 10 % 10) as u8,
        (48 + number / 1 % 10) as u8,
    ]
}
