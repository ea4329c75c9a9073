//! Lines taken from a reader one by one, in memory of a fixed size.

ghost use Rattle.std.specs.Prelude.{◌≡◌, ◌≢◌, ◌≤◌, ◌<◌, ◌+◌, ◌-◌, ◌++◌, All, List, ℕ, length, take, true, IfOk, IfSome, OnOk, OnSome, vec_len};
ghost use Rattle.std.specs.Io.{IsEmptyOrEndsWith, StopsAt};
ghost use Rattle.std.specs.Io.BufRead.{DropsThrough, take_through};
ghost use Rattle.std.specs.Io.KnownBytes.{Consumes, IsAtEnd};
ghost use Rattle.capture_text.specs.Lines.{cut_line};

use std::alloc::{AllocError, Allocator};
use std::io;
use std::io::{BufRead, ErrorKind};

/// Longest line in bytes, with its line feed: more than any datagram needs.
pub(crate) const LINE_MAX: usize = 8192;

/// Takes the next line from a reader, up to its line feed or the end, and keeps its prefix.
///
/// Of a line that is too long, one byte more than the limit is kept, so that callers see it. At the end of the reader
/// nothing is kept.
pub(crate) fn take_line<R: BufRead, A: Allocator>(
    reader: &mut R,
    line: &mut Vec<u8, A>,
) -> io::Result<()>
    // The kept `line` is the text up to and with the next line feed, cut to 8,193 bytes.
    ensures kept { OnOk result (IfSome (R.remaining reader.old)
        (λ octets. line.new.items ≡ cut_line (take_through 10 octets))) }
    // The reader has lost exactly the text up to and with that line feed, or all if there is none.
    ensures rest { OnOk result (DropsThrough (R.remaining reader.old) (R.remaining reader.new) 10) }
    // At most `LINE_MAX` + 1 bytes of a line are kept.
    ensures fits { OnOk result (vec_len line.new ≤ LINE_MAX + 1) }
{
    line.clear();
    for _ in 0..u64::MAX {
        let is_done = take_part(reader, line)?;
        if is_done {
            return Ok(());
        }
    }
    Err(io::Error::from(ErrorKind::Other))
}

/// Takes what the reader has buffered of a line, and returns `true` at the end of the line or of the reader.
fn take_part<R: BufRead, A: Allocator>(reader: &mut R, line: &mut Vec<u8, A>) -> io::Result<bool>
    requires { vec_len line.old ≤ LINE_MAX + 1 }
    // The reader loses a part that stops at its first line feed, and the part is added to the kept line. The result
    // is true if it ends with a line feed, or nothing is left.
    ensures taken { IfOk result (λ is_done. (part : List ℕ) × (line.new.items ≡ cut_line (line.old.items ++ part))
        × StopsAt part 10 × Consumes (R.remaining reader.old) (R.remaining reader.new) part
        × (is_done ≢ true → All (λ x. x ≢ 10) part)
        × (is_done ≡ true → IsEmptyOrEndsWith part 10)
        × (is_done ≡ true → length part ≡ 0
        → OnSome (R.remaining reader.old) (IsAtEnd (R.remaining reader.new)))) }
    // After each part, at most `LINE_MAX` + 1 bytes are kept.
    ensures fits { OnOk result (vec_len line.new ≤ LINE_MAX + 1) }
{
    let available = match reader.fill_buf() {
        Ok(available) => available,
        Err(error) => {
            return if is_interrupted(&error) {
                Ok(false)
            } else {
                Err(error)
            };
        }
    };
    let end = length_through(available);
    keep(line, &available[..end])?;
    let is_done = end == 0 || available[end - 1] == b'\n';
    reader.consume(end);
    Ok(is_done)
}

/// Appends bytes to a line, up to the limit.
fn keep<A: Allocator>(line: &mut Vec<u8, A>, part: &[u8]) -> Result<(), AllocError>
    requires { vec_len line.old ≤ LINE_MAX + 1 }
    // The line is the old one with the `part` appended, cut to 8,193 bytes.
    ensures kept { OnOk result (line.new.items ≡ cut_line (line.old.items ++ part.now)) }
    // The line has at most `LINE_MAX` + 1 bytes after the `part`, too.
    ensures fits { OnOk result (vec_len line.new ≤ LINE_MAX + 1) }
{
    let room = LINE_MAX + 1 - line.len();
    let size = part.len().min(room);
    line.extend_from_slice(&part[..size])?;
    Ok(())
}

/// Returns `true` for an interrupted call, which is tried again.
fn is_interrupted(error: &io::Error) -> bool {
    matches!(error.kind(), ErrorKind::Interrupted)
}

/// Returns the number of bytes up to and with the first line feed; all if there is none.
fn length_through(octets: &[u8]) -> usize
    // The number is at most the length of the bytes.
    ensures bound { result ≤ length octets.now }
    // At least one byte is taken if there is one.
    ensures some { 0 < length octets.now → 0 < result }
    // All taken bytes before the last one are not line feeds.
    ensures before { All (λ x. x ≢ 10) (take (result - 1) octets.now) }
{
    let mut size = 0;
    while size < octets.len() {
        if octets[size] == b'\n' {
            return size + 1;
        }
        size += 1;
    }
    size
}
