//! The place of a fault in a file.

ghost use Rattle.std.specs.Prelude.{◌≡◌, OnOk};
ghost use Rattle.std.specs.Io.KnownBytes.{Appends};
ghost use Rattle.settings_text.specs.Places.{place_text};

use std::io;
use std::io::Write;

/// Writes where a fault is, as `FILE: ` or `FILE:LINE: `. Lines are numbered from 1.
///
/// # Errors
///
/// - The error of the writer.
#[tactic(auto, unfolding(crate::specs::Places::place_text))]
pub fn write_place<W: Write>(writer: &mut W, file: &str, line: Option<usize>) -> io::Result<()>
    // If it succeeds, `write_place` has appended the file, and the line if there is one, each with a colon.
    ensures { OnOk result (Appends (W.contents writer.old) (W.contents writer.new) (place_text file.now line)) }
{
    match line {
        Some(line) => write!(writer, "{file}:{line}: "),
        None => write!(writer, "{file}: "),
    }
}
