//! The time at the start of a line of the log: that of the run, or UTC.

ghost use Rattle.std.specs.Prelude.{◌≡◌, ◌<◌, ◌++◌, ◌==◌, List, ℕ, length, IfSome, OnOk};
ghost use Rattle.std.specs.List.{position};
ghost use Rattle.std.specs.Io.KnownBytes.{Appends};
ghost use Rattle.pdu_text.specs.Pieces.{three_digits};
ghost use Rattle.rasta_run.specs.Calendar.{years_most};
ghost use Rattle.rasta_run.specs.LineTimes.{StampsLine, StampsTake, StampsUtc, after_time, clock_text, date_text, four_digits, from_place, pair_text, run_text, two_digits, utc_text};

use crate::calendar::{Date, date_of};
use arrayvec::ArrayVec;
use octets::Milliseconds;
use pdu_text::write_text;
use rasta_words::LogTime;
use std::io;
use std::io::Write;
use std::time::{Clock, SystemTime, UNIX_EPOCH};

/// The milliseconds of a day.
const DAY: u64 = 86_400_000;

/// The byte after the time of a line.
const BLANK: u8 = 32;

/// The room for a line of a telegram with a time before it, in bytes: 729 of the line, and at most 25 of the time.
type TimedLine = ArrayVec<u8, 768>;

/// The time for the lines of telegrams.
#[derive(Clone, Copy, Debug, PartialEq, Eq)]
pub struct Stamp {
    /// Which time the lines have.
    pub time: LogTime,
    /// That time in UTC, in milliseconds since 1970.
    pub at: Milliseconds,
    /// That time of the run, in milliseconds.
    pub now: Milliseconds,
}

/// Writes a line with a time before it, if there is one.
///
/// # Errors
///
/// - The error of the writer; what it wrote before stays written.
pub fn write_with_time<W: Write>(
    writer: &mut W,
    stamp: Option<Stamp>,
    line: &[u8],
) -> io::Result<()>
    // If `write_with_time` succeeds, it has appended the line as it is, or after the time that a line of the log has.
    ensures { OnOk result ((written : List ℕ) × StampsTake stamp line.now written
        × Appends (W.contents writer.old) (W.contents writer.new) written) }
{
    match stamp {
        None => writer.write_all(line),
        Some(stamp) => {
            let mut timed = TimedLine::new();
            write_after_time(&mut timed, stamp.now, line)?;
            write_stamped(writer, stamp.time, stamp.at, timed.as_slice())
        }
    }
}

/// Writes a line after a time of the run.
fn write_after_time<W: Write>(writer: &mut W, now: Milliseconds, line: &[u8]) -> io::Result<()>
    ensures { OnOk result (Appends (W.contents writer.old) (W.contents writer.new) (run_text now ++ line.now)) }
{
    write_run_time(writer, now)?;
    writer.write_all(line)
}

/// Writes a time of the run, and a blank.
#[tactic(auto, unfolding(crate::specs::LineTimes::run_text))]
fn write_run_time<W: Write>(writer: &mut W, now: Milliseconds) -> io::Result<()>
    ensures { OnOk result (Appends (W.contents writer.old) (W.contents writer.new) (run_text now)) }
{
    let seconds = now / 1_000;
    write!(writer, "{seconds}.")?;
    let digits = spell(now % 1_000);
    writer.write_all(&digits)?;
    write_text(writer, " ")
}

/// Writes a line that begins with the time of the run, with the time that the log has: `at` is that time in UTC, in
/// milliseconds since 1970.
///
/// # Errors
///
/// - The error of the writer; what it wrote before stays written.
pub fn write_stamped<W: Write>(
    writer: &mut W,
    time: LogTime,
    at: Milliseconds,
    line: &[u8],
) -> io::Result<()>
    // If `write_stamped` succeeds, it has appended the line as it is, or with the time in UTC in place of its own.
    ensures { OnOk result ((written : List ℕ) × StampsLine time at line.now written
        × Appends (W.contents writer.old) (W.contents writer.new) written) }
{
    match time {
        LogTime::Run => writer.write_all(line),
        LogTime::Utc => write_in_utc(writer, at, line),
    }
}

/// Writes a line with a time in UTC in place of its own, if the year has four digits.
fn write_in_utc<W: Write>(writer: &mut W, at: Milliseconds, line: &[u8]) -> io::Result<()>
    ensures { OnOk result ((written : List ℕ) × StampsUtc at line.now written
        × Appends (W.contents writer.old) (W.contents writer.new) written) }
{
    match date_of(at / DAY) {
        None => writer.write_all(line),
        Some(date) => {
            write_dated(writer, date, at % DAY, line)?;
            Ok(())
        }
    }
}

/// Writes a line with a date and a time of day in UTC in place of its own time.
fn write_dated<W: Write>(
    writer: &mut W,
    date: Date,
    ms: Milliseconds,
    line: &[u8],
) -> io::Result<()>
    requires { (date.years < years_most) × (date.months < 12) × (date.days < 31) }
    ensures { OnOk result (Appends (W.contents writer.old) (W.contents writer.new)
        (utc_text date ms ++ after_time line.now)) }
{
    write_utc(writer, date, ms)?;
    writer.write_all(after_time(line))
}

/// Writes a date and a time of day in UTC.
#[tactic(auto, unfolding(crate::specs::LineTimes::utc_text))]
fn write_utc<W: Write>(writer: &mut W, date: Date, ms: Milliseconds) -> io::Result<()>
    requires { (date.years < years_most) × (date.months < 12) × (date.days < 31) }
    ensures { OnOk result (Appends (W.contents writer.old) (W.contents writer.new) (utc_text date ms)) }
{
    write_date(writer, date)?;
    write_text(writer, "T")?;
    write_clock(writer, ms)?;
    write_text(writer, "Z")
}

/// Writes a date.
#[tactic(auto, unfolding(crate::specs::LineTimes::date_text))]
fn write_date<W: Write>(writer: &mut W, date: Date) -> io::Result<()>
    requires { (date.years < years_most) × (date.months < 12) × (date.days < 31) }
    ensures { OnOk result (Appends (W.contents writer.old) (W.contents writer.new) (date_text date)) }
{
    writer.write_all(&four_digits(1970 + date.years))?;
    write_text(writer, "-")?;
    writer.write_all(&two_digits(date.months + 1))?;
    write_text(writer, "-")?;
    writer.write_all(&two_digits(date.days + 1))
}

/// Writes a time of day.
#[tactic(auto, unfolding(crate::specs::LineTimes::clock_text))]
fn write_clock<W: Write>(writer: &mut W, ms: Milliseconds) -> io::Result<()>
    ensures { OnOk result (Appends (W.contents writer.old) (W.contents writer.new) (clock_text ms)) }
{
    write_pair(writer, ms / 3_600_000, ":")?;
    write_pair(writer, ms / 60_000 % 60, ":")?;
    write_pair(writer, ms / 1_000 % 60, ".")?;
    writer.write_all(&spell(ms % 1_000))
}

/// Writes the last two digits of a number, and a text after them.
#[tactic(auto, unfolding(crate::specs::LineTimes::pair_text))]
fn write_pair<W: Write>(writer: &mut W, number: u64, text: &str) -> io::Result<()>
    ensures { OnOk result (Appends (W.contents writer.old) (W.contents writer.new) (pair_text number text.now)) }
{
    writer.write_all(&two_digits(number))?;
    write_text(writer, text)
}

/// Returns the last two digits of a number.
fn two_digits(number: u64) -> [u8; 2]
    ensures { result ≡ two_digits number }
{
    [(48 + number / 10 % 10) as u8, (48 + number / 1 % 10) as u8]
}

/// Returns the last three digits of a number.
pub fn spell(number: u64) -> [u8; 3]
    // `spell` returns the last three decimal digits, with leading zeros.
    ensures { result ≡ three_digits number }
{
    [
        (48 + number / 100 % 10) as u8,
        (48 + number / 10 % 10) as u8,
        (48 + number / 1 % 10) as u8,
    ]
}

/// Returns the last four digits of a number.
fn four_digits(number: u64) -> [u8; 4]
    ensures { result ≡ four_digits number }
{
    [
        (48 + number / 1_000 % 10) as u8,
        (48 + number / 100 % 10) as u8,
        (48 + number / 10 % 10) as u8,
        (48 + number / 1 % 10) as u8,
    ]
}

/// Returns a line after the time at its start.
fn after_time(line: &[u8]) -> &[u8]
    ensures { result.now ≡ after_time line.now }
{
    from_place(line, blank_in(line))
}

/// Returns the place of the first blank.
fn blank_in(line: &[u8]) -> Option<usize>
    // `blank_in` returns the first place with the byte 32, and `None` if there is none.
    ensures value { result ≡ position (λ octet. octet == 32) line.now }
    // The place that `blank_in` returns is below the number of bytes.
    ensures bound { IfSome result (λ place. place < length line.now) }
{
    line.iter().position(|octet| *octet == BLANK)
}

/// Returns a line from a place on, or all of it.
fn from_place(line: &[u8], place: Option<usize>) -> &[u8]
    requires { IfSome place (λ place. place < length line.now) }
    ensures { result.now ≡ from_place place line.now }
{
    match place {
        Some(place) => &line[place..],
        None => line,
    }
}

/// Returns the time in UTC at which the clock of a run was 0, in milliseconds since 1970. Returns `None` if the
/// system gives no time.
pub fn zero_of<K: Clock>(system: &K, now: Milliseconds) -> Option<Milliseconds> {
    let Ok(time) = SystemTime::now(system) else {
        return None;
    };
    let Ok(since) = time.duration_since(UNIX_EPOCH) else {
        return None;
    };
    match u64::try_from(since.as_millis()) {
        Ok(milliseconds) => Some(milliseconds.saturating_sub(now)),
        Err(_) => None,
    }
}
