//! Instants that a user names, and the time between two of them.

ghost use Rattle.std.specs.Prelude.{◌≡◌, ◌≤◌, ◌<◌, ◌^◌, IfSome};
ghost use Rattle.capture.specs.Instants.{clock_of, common_days, date_of, date_time_of, days_before, days_in, days_to, digits_of, fraction_of, instant_of, is_leap, is_passed_by, is_reached, is_within, leaps, moment_of, seconds_of, short_seconds, stamp_of, without_zone};

use crate::interfaces::ten_to_the;
use crate::words::{SECONDS_MAX, are_parted_by, number, part};

/// An instant of a recording.
#[derive(Clone, Copy, Debug, PartialEq, Eq)]
pub enum Instant {
    /// This many microseconds after the first datagram.
    Since(u64),
    /// This many microseconds after the start of 1970 (UTC).
    At(u64),
}

/// The time between two instants, both included. An absent one is no limit.
#[derive(Clone, Copy, Debug, PartialEq, Eq)]
pub struct Span {
    /// The first instant.
    pub from: Option<Instant>,
    /// The last instant.
    pub to: Option<Instant>,
}

/// The byte before seconds since 1970.
const SIGN: u8 = 64;

/// The byte between a date and a time of day.
const DIVIDER: u8 = 84;

/// The byte of the time zone UTC.
const ZONE: u8 = 90;

/// The byte between the numbers of a date.
const HYPHEN: u8 = 45;

/// The byte between the numbers of a time of day.
const COLON: u8 = 58;

/// The byte before a fraction.
const POINT: u8 = 46;

/// Returns `true` if a datagram with this time is within a span; `first` is the time of the first datagram, both in
/// microseconds since 1970.
pub fn is_between(span: &Span, first: u64, time: u64) -> bool
    // The time must not be before the first instant of the `span` nor after its last one, as far as it has them.
    ensures { result ≡ is_within span.now first time }
{
    is_after(span.from, first, time) && is_before(span.to, first, time)
}

/// Returns `true` if a time is not before an instant.
fn is_after(from: Option<Instant>, first: u64, time: u64) -> bool
    ensures { result ≡ is_reached from first time }
{
    match from {
        None => true,
        Some(instant) => moment(instant, first) <= time,
    }
}

/// Returns `true` if a time is not after an instant.
fn is_before(to: Option<Instant>, first: u64, time: u64) -> bool
    ensures { result ≡ is_passed_by to first time }
{
    match to {
        None => true,
        Some(instant) => time <= moment(instant, first),
    }
}

/// Returns the time of an instant, in microseconds since 1970.
fn moment(instant: Instant, first: u64) -> u64
    ensures { result ≡ moment_of instant first }
{
    match instant {
        Instant::Since(micros) => first.saturating_add(micros),
        Instant::At(micros) => micros,
    }
}

/// Reads an instant: seconds since the first datagram, as `90.5`; with an `@`, seconds since 1970; or a date and time of
/// day in UTC, as `2026-11-27T03:12:00.5Z`, from 1970 to 9999. A fraction has one to nine digits, of which six count. A
/// date needs neither a fraction nor the `Z`.
///
/// Returns `None` for any other text.
pub fn read_instant(text: &[u8]) -> Option<Instant>
    // The result is the instant that the text spells (`instant_of`).
    ensures { result ≡ instant_of text.now }
{
    if are_parted_by(text, SIGN, 1) {
        return read_stamp(text);
    }
    if are_parted_by(text, DIVIDER, 1) {
        let micros = read_date_time(text)?;
        return Some(Instant::At(micros));
    }
    let micros = read_seconds(text, SECONDS_MAX)?;
    Some(Instant::Since(micros))
}

/// Reads seconds since 1970 after an `@`.
fn read_stamp(text: &[u8]) -> Option<Instant>
    ensures { result ≡ stamp_of text.now }
{
    let (front, back) = part(text, SIGN);
    if !front.is_empty() {
        return None;
    }
    let micros = read_seconds(back, SECONDS_MAX)?;
    Some(Instant::At(micros))
}

/// Reads seconds with or without a fraction, as microseconds.
fn read_seconds(text: &[u8], most: u64) -> Option<u64>
    requires { most ≤ 10 ^ 12 }
    // The seconds are at most `most`; after a point the text must be a fraction (`seconds_of`).
    ensures value { result ≡ seconds_of most text.now }
    // The seconds are less than 2^61 microseconds.
    ensures bound { IfSome result (λ n. n < 2 ^ 61) }
{
    if are_parted_by(text, POINT, 0) {
        let seconds = number(text, most)?;
        return Some(seconds * 1_000_000);
    }
    if !are_parted_by(text, POINT, 1) {
        return None;
    }
    let (whole, digits) = part(text, POINT);
    let seconds = number(whole, most)?;
    let micros = read_fraction(digits)?;
    Some(seconds * 1_000_000 + micros)
}

/// Reads a fraction of one to nine digits as whole microseconds.
fn read_fraction(digits: &[u8]) -> Option<u64>
    // The digits are a number, divided by as many tens, in whole microseconds; the rest is cut off (`fraction_of`).
    ensures value { result ≡ fraction_of digits.now }
    // A fraction of nine digits has at most 10^15 millionths of its last digit.
    ensures bound { IfSome result (λ n. n ≤ 10 ^ 15) }
{
    if digits.len() > 9 {
        return None;
    }
    let value = number(digits, 999_999_999)?;
    Some(value * 1_000_000 / ten_to_the(digits.len() as u8))
}

/// Reads a date and a time of day in UTC, as microseconds since 1970.
fn read_date_time(text: &[u8]) -> Option<u64>
    ensures { result ≡ date_time_of text.now }
{
    let (date, clock) = part(text, DIVIDER);
    let days = read_date(date)?;
    let micros = read_clock(clock)?;
    Some(days * 86_400_000_000 + micros)
}

/// Reads a date, as days since 1970.
fn read_date(text: &[u8]) -> Option<u64>
    // There must be a year of four digits, a month of two and a day of two, separated by hyphens, and they must be a
    // date (`date_of`).
    ensures value { result ≡ date_of text.now }
    // The last date is that of the year 9999.
    ensures bound { IfSome result (λ n. n < 2 ^ 23) }
{
    if !are_parted_by(text, HYPHEN, 2) {
        return None;
    }
    let (first, rest) = part(text, HYPHEN);
    let (second, third) = part(rest, HYPHEN);
    let year = read_digits(first, 4, 9999)?;
    let month = read_digits(second, 2, 12)?;
    let day = read_digits(third, 2, 31)?;
    days_until(year, month, day)
}

/// Reads a number of exactly so many digits.
fn read_digits(text: &[u8], size: usize, most: u64) -> Option<u64>
    requires { most ≤ 10 ^ 12 }
    // The text must have `size` digits, and the number be at most `most` (`digits_of`).
    ensures value { result ≡ digits_of size most text.now }
    // A number that is read is at most `most`.
    ensures bound { IfSome result (λ n. n ≤ most) }
{
    if text.len() != size {
        return None;
    }
    number(text, most)
}

/// Returns the number of days from the start of 1970 to a date; `None` if there is no such date.
fn days_until(year: u64, month: u64, day: u64) -> Option<u64>
    requires year { year ≤ 9999 }
    requires month { month ≤ 12 }
    requires day { day ≤ 31 }
    // There are dates from 1970 on, with the days that the month has (`days_to`).
    ensures value { result ≡ days_to year month day }
    // The last date of the year 9999 is less than 2^23 days after 1970.
    ensures bound { IfSome result (λ n. n < 2 ^ 23) }
{
    if year < 1970 || month < 1 || day < 1 || days_of(year, month) < day {
        return None;
    }
    let leaps = leap_years(year - 1) - 477;
    Some((year - 1970) * 365 + leaps + days_before_month(year, month) + day - 1)
}

/// Returns how many leap years there are up to a year, from the year 1 on.
fn leap_years(year: u64) -> u64
    requires { year ≤ 9999 }
    ensures { result ≡ leaps year }
{
    year / 4 - year / 100 + year / 400
}

/// Returns `true` for a leap year.
fn is_leap_year(year: u64) -> bool
    ensures { result ≡ is_leap year }
{
    year % 4 == 0 && (year % 100 != 0 || year % 400 == 0)
}

/// Returns how many days a month has.
fn days_of(year: u64, month: u64) -> u64
    // The result is the number of days of the month (`days_in`).
    ensures value { result ≡ days_in year month }
    // A month has at most 31 days.
    ensures bound { result ≤ 31 }
{
    match month {
        2 => { if is_leap_year(year) { 29 } else { 28 } }
        4 | 6 | 9 | 11 => 30,
        _ => 31,
    }
}

/// Returns how many days of a year are before a month.
fn days_before_month(year: u64, month: u64) -> u64
    // The result is the sum of the days of all months before it (`days_before`).
    ensures value { result ≡ days_before year month }
    // There are at most 335 days before a month.
    ensures bound { result ≤ 335 }
{
    let before = days_in_common_year(month);
    if 2 < month && is_leap_year(year) {
        before + 1
    } else {
        before
    }
}

/// Returns how many days of a year that is no leap year are before a month.
fn days_in_common_year(month: u64) -> u64
    // The result is 0 for January, and 334 for December (`common_days`).
    ensures value { result ≡ common_days month }
    // In such a year there are at most 334 days before a month.
    ensures bound { result ≤ 334 }
{
    match month {
        2 => 31,
        3 => 59,
        4 => 90,
        5 => 120,
        6 => 151,
        7 => 181,
        8 => 212,
        9 => 243,
        10 => 273,
        11 => 304,
        12 => 334,
        _ => 0,
    }
}

/// Reads a time of day in UTC, as microseconds; it may end with a `Z`.
fn read_clock(text: &[u8]) -> Option<u64>
    // There must be hours and minutes of two digits, and seconds of two digits with or without a fraction, separated
    // by colons (`clock_of`).
    ensures value { result ≡ clock_of text.now }
    // A time of day is less than 2^62 microseconds.
    ensures bound { IfSome result (λ n. n < 2 ^ 62) }
{
    let text = drop_zone(text);
    if !are_parted_by(text, COLON, 2) {
        return None;
    }
    let (first, rest) = part(text, COLON);
    let (second, third) = part(rest, COLON);
    let hour = read_digits(first, 2, 23)?;
    let minute = read_digits(second, 2, 59)?;
    let seconds = read_two_digits(third)?;
    Some((hour * 60 + minute) * 60_000_000 + seconds)
}

/// Reads seconds of two digits with or without a fraction, as microseconds.
fn read_two_digits(text: &[u8]) -> Option<u64>
    // Before the point, if there is one, the text must have two digits (`short_seconds`).
    ensures value { result ≡ short_seconds text.now }
    // Such seconds are less than 2^61 microseconds.
    ensures bound { IfSome result (λ n. n < 2 ^ 61) }
{
    let (whole, _) = part(text, POINT);
    if whole.len() != 2 {
        return None;
    }
    read_seconds(text, 59)
}

/// Returns a text without the `Z` at its end, if it has one.
fn drop_zone(text: &[u8]) -> &[u8]
    ensures { result.now ≡ without_zone text.now }
{
    match text {
        [front @ .., ZONE] => front,
        _ => text,
    }
}
