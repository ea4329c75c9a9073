//! Readers of the fields of a line: times, hosts and numbers.

ghost use Rattle.std.specs.Prelude.{◌≡◌, ◌≤◌, ◌^◌, ◌==◌, ◌<◌, length, IfSome, nat_eq, count_by};
ghost use Rattle.std.specs.List.{list_all};
ghost use Rattle.std.specs.Char.{is_ascii_digit};
ghost use Rattle.capture.specs.Words.{before, behind, four_of, host_of, is_numeral, marks, micros_of, number_of, place_of, sixteen_of, time_of};

use crate::line::Host;
use std::net::Ipv6Addr;

/// The byte between the numbers of an IPv4 address, and before a fraction.
const POINT: u8 = 46;

/// The byte by which an IPv6 address is recognised.
const COLON: u8 = 58;

/// The latest second that a line may name: in the year 33658.
pub(crate) const SECONDS_MAX: u64 = 999_999_999_999;

/// Splits a text at the first mark: the text before it and the text after it.
pub(crate) fn part(octets: &[u8], mark: u8) -> (&[u8], &[u8])
    // The first half is the text before the first mark, or all if there is no mark.
    ensures front { result.0.now ≡ before mark octets.now }
    // The second half is the text after the first mark, or nothing if there is no mark.
    ensures back { result.1.now ≡ behind mark octets.now }
{
    match place(octets, mark) {
        Some(place) => {
            let (front, rest) = octets.split_at(place);
            let (_, back) = rest.split_at(1);
            (front, back)
        }
        None => octets.split_at(octets.len()),
    }
}

/// Returns the place of the first mark.
fn place(octets: &[u8], mark: u8) -> Option<usize>
    // The place is that of the first byte equal to `mark`, or `None` if no byte is.
    ensures value { result ≡ place_of mark octets.now }
    // The place is within the text, so that the text can be split there.
    ensures bound { IfSome result (λ place. place < length octets.now) }
{
    octets.iter().position(|octet| *octet == mark)
}

/// Returns `true` if a mark occurs exactly `times` times.
pub(crate) fn are_parted_by(octets: &[u8], mark: u8, times: usize) -> bool
    ensures { result ≡ nat_eq (count_by (λ o. o == mark) octets.now) times }
{
    count_marks(octets, mark) == times
}

/// Counts a mark.
pub(crate) fn count_marks(octets: &[u8], mark: u8) -> usize
    ensures { result ≡ marks mark octets.now }
{
    octets.iter().filter(|octet| **octet == mark).count()
}

/// Reads a time: seconds, a point, and six to nine digits. Returns whole microseconds; the rest is cut off.
pub(crate) fn time(text: &[u8]) -> Option<u64>
    ensures { result ≡ time_of text.now }
{
    if !are_parted_by(text, POINT, 1) {
        return None;
    }
    let (whole, fraction) = part(text, POINT);
    let seconds = number(whole, SECONDS_MAX)?;
    let micros = micros(fraction)?;
    Some(seconds * 1_000_000 + micros)
}

/// Reads a fraction of six to nine digits as whole microseconds.
fn micros(fraction: &[u8]) -> Option<u64>
    // The microseconds are the number of the first six digits; `None` unless there are six to nine digits.
    ensures value { result ≡ micros_of fraction.now }
    // A fraction is less than a second.
    ensures bound { IfSome result (λ n. n ≤ 999999) }
{
    if fraction.len() < 6 || fraction.len() > 9 || !is_decimal(fraction) {
        return None;
    }
    let (front, _) = fraction.split_at(6);
    number(front, 999_999)
}

/// Reads a host: an IPv6 address if the text has a colon, otherwise an IPv4 address.
pub(crate) fn host(text: &[u8]) -> Option<Host>
    ensures { result ≡ host_of text.now }
{
    if are_parted_by(text, COLON, 0) {
        let octets = four(text)?;
        return Some(Host::V4(octets));
    }
    let octets = sixteen(text)?;
    Some(Host::V6(octets))
}

/// Reads an IPv6 address in a text form of RFC 4291 (2.2).
fn sixteen(text: &[u8]) -> Option<[u8; 16]>
    ensures { result ≡ sixteen_of text.now }
{
    match Ipv6Addr::parse_ascii(text) {
        Ok(address) => Some(address.octets()),
        Err(_) => None,
    }
}

/// Reads an IPv4 address: four numbers of at most 255 separated by points.
fn four(text: &[u8]) -> Option<[u8; 4]>
    ensures { result ≡ four_of text.now }
{
    if !are_parted_by(text, POINT, 3) {
        return None;
    }
    let (first, behind_first) = part(text, POINT);
    let (second, behind_second) = part(behind_first, POINT);
    let (third, fourth) = part(behind_second, POINT);
    let a = octet(first)?;
    let b = octet(second)?;
    let c = octet(third)?;
    let d = octet(fourth)?;
    Some([a, b, c, d])
}

/// Reads one number of an IPv4 address.
fn octet(text: &[u8]) -> Option<u8>
    ensures { result ≡ number_of 255 text.now }
{
    let number = number(text, 255)?;
    Some(number as u8)
}

/// Reads a decimal number of at most `most`.
pub(crate) fn number(word: &[u8], most: u64) -> Option<u64>
    requires { most ≤ 10 ^ 18 }
    // The result is the value of the digits (`number_of`). It is `None` if a byte is not a digit, there are no
    // digits, or the value is above `most`.
    ensures value { result ≡ number_of most word.now }
    // A number that is returned is at most `most`, so callers may narrow it.
    ensures bound { IfSome result (λ n. n ≤ most) }
{
    if !is_decimal(word) {
        return None;
    }
    let mut number = 0u64;
    for digit in word {
        number = number * 10 + (*digit - 48) as u64;
        if number > most {
            return None;
        }
    }
    Some(number)
}

/// Returns `true` for one or more decimal digits.
fn is_decimal(word: &[u8]) -> bool
    ensures { result ≡ is_numeral word.now }
{
    if word.is_empty() {
        return false;
    }
    are_digits(word)
}

/// Returns `true` if every byte is a decimal digit.
fn are_digits(word: &[u8]) -> bool
    ensures { result ≡ list_all is_ascii_digit word.now }
{
    word.iter().all(|octet| octet.is_ascii_digit())
}
