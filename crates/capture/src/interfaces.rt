//! The interfaces of a pcapng file, and the unit and offset of their times.

ghost use Rattle.std.specs.Prelude.{◌≡◌};
ghost use Rattle.capture.specs.Times.{binary_micros, decimal_micros, walk_place, is_unit, add_offset, offset_from, offset_of, offset_with, option_of, option_seen, option_step, resolution_of, ten_to, tick_micros};

use crate::frame::Link;
use crate::places::{long, octet, short};

/// An interface that a pcapng file describes.
#[derive(Clone, Copy, Debug, PartialEq, Eq)]
pub struct Interface {
    /// The link header of its frames, if it is known here.
    pub link: Option<Link>,
    /// The unit of its times (`if_tsresol`): below 128 a power of ten, from 128 on a power of two; 6 (microseconds)
    /// if no option names it.
    pub resolution: u8,
    /// What is added to its times (`if_tsoffset`).
    pub offset: TimeOffset,
    /// The largest number of bytes that are kept of a frame; 0 if there is no limit.
    pub limit: u32,
}

/// What is added to the times of an interface, in seconds.
#[derive(Clone, Copy, Debug, PartialEq, Eq)]
pub enum TimeOffset {
    /// The times are later by this number of seconds.
    Later(u64),
    /// The times are earlier by this number of seconds.
    Earlier(u64),
}

/// How far the options of an interface were read.
#[derive(Clone, Copy, Debug, PartialEq, Eq)]
pub(crate) enum Walk {
    /// The next option is at this place.
    At(usize),
    /// The value of the wanted option is at this place.
    Found(usize),
    /// There are no more options.
    Ended,
}

/// The code and the size of a wanted option.
#[derive(Clone, Copy, Debug, PartialEq, Eq)]
pub(crate) struct WantedOption {
    /// Its code.
    pub code: u16,
    /// The size of its value in bytes.
    pub size: u16,
}

/// The option `if_tsresol`.
const RESOLUTION: WantedOption = WantedOption { code: 9, size: 1 };

/// The option `if_tsoffset`.
const OFFSET: WantedOption = WantedOption { code: 14, size: 8 };

/// Returns the unit of times from the options after the first eight bytes of a description; 6 if no option has it.
pub(crate) fn resolution(big: bool, inner: &[u8]) -> u8
    ensures { result ≡ resolution_of big inner.now }
{
    match find_option(big, inner, RESOLUTION) {
        None => 6,
        Some(place) => match octet(inner, place) {
            None => 6,
            Some(resolution) => resolution,
        },
    }
}

/// Returns the offset of times from the options after the first eight bytes of a description; 0 if no option has it.
pub(crate) fn offset(big: bool, inner: &[u8]) -> TimeOffset
    ensures { result ≡ offset_of big inner.now }
{
    match find_option(big, inner, OFFSET) {
        None => TimeOffset::Later(0),
        Some(place) => offset_at(big, inner, place),
    }
}

/// Returns the offset in the eight bytes at a place.
fn offset_at(big: bool, inner: &[u8], place: usize) -> TimeOffset
    ensures { result ≡ offset_from big inner.now place }
{
    let Some(front) = long(big, inner, place) else {
        return TimeOffset::Later(0);
    };
    let Some(back) = long(big, inner, place.saturating_add(4)) else {
        return TimeOffset::Later(0);
    };
    if big {
        offset_between(front, back)
    } else {
        offset_between(back, front)
    }
}

/// Returns the offset of a signed number of 64 bits in two halves.
fn offset_between(high: u32, low: u32) -> TimeOffset
    ensures { result ≡ offset_with high low }
{
    let number = high as u64 * 4_294_967_296 + low as u64;
    if high < 2_147_483_648 {
        TimeOffset::Later(number)
    } else {
        TimeOffset::Earlier(u64::MAX - number + 1)
    }
}

/// Returns the time of a frame with the offset of its interface, in microseconds.
pub(crate) fn shift(offset: TimeOffset, micros: u64) -> u64
    ensures { result ≡ add_offset offset micros }
{
    match offset {
        TimeOffset::Later(seconds) => micros.saturating_add(seconds.saturating_mul(1_000_000)),
        TimeOffset::Earlier(seconds) => micros.saturating_sub(seconds.saturating_mul(1_000_000)),
    }
}

/// Returns the place of the value of the first wanted option, from the eighth byte on.
fn find_option(big: bool, inner: &[u8], wanted: WantedOption) -> Option<usize>
    ensures { result ≡ option_of big wanted.code wanted.size inner.now }
{
    // Each option has at least four bytes, so there are no more options than bytes.
    let walk = inner
        .iter()
        .fold(Walk::At(8), |walk, _| option(big, inner, wanted, walk));
    place_found(walk)
}

/// Returns the place of the option that was found.
fn place_found(walk: Walk) -> Option<usize>
    ensures { result ≡ walk_place walk }
{
    match walk {
        Walk::Found(place) => Some(place),
        Walk::At(_) | Walk::Ended => None,
    }
}

/// Reads one more option: code, length, and a value padded to a multiple of four bytes.
fn option(big: bool, inner: &[u8], wanted: WantedOption, walk: Walk) -> Walk
    ensures { result ≡ option_step big wanted.code wanted.size inner.now walk }
{
    match walk {
        Walk::At(place) => option_at(big, inner, wanted, place),
        Walk::Found(_) | Walk::Ended => walk,
    }
}

/// Reads the option at a place.
fn option_at(big: bool, inner: &[u8], wanted: WantedOption, place: usize) -> Walk
    ensures { result ≡ option_seen big wanted.code wanted.size inner.now place }
{
    let Some(code) = short(big, inner, place) else {
        return Walk::Ended;
    };
    let Some(size) = short(big, inner, place.saturating_add(2)) else {
        return Walk::Ended;
    };
    if code == 0 {
        return Walk::Ended;
    }
    if code == wanted.code && size == wanted.size {
        return Walk::Found(place.saturating_add(4));
    }
    let filled = (size as usize + 3) / 4 * 4;
    Walk::At(place.saturating_add(4 + filled))
}

/// Converts a time in units of an interface to whole microseconds, limited to 2^64 - 1.
pub(crate) fn micros(resolution: u8, high: u32, low: u32) -> u64
    ensures { result ≡ tick_micros resolution high low }
{
    let ticks = high as u64 * 4_294_967_296 + low as u64;
    if resolution < 128 {
        decimal(resolution, ticks)
    } else {
        binary(resolution - 128, ticks)
    }
}

/// Converts from units of a negative power of ten of a second.
fn decimal(power: u8, ticks: u64) -> u64
    ensures { result ≡ decimal_micros power ticks }
{
    if power <= 6 {
        ticks.saturating_mul(ten_to_the(6 - power))
    } else {
        ticks / ten_to_the(power - 6)
    }
}

/// Returns a power of ten, up to the 13th.
pub(crate) fn ten_to_the(power: u8) -> u64
    ensures { result ≡ ten_to power }
{
    match power {
        0 => 1,
        1 => 10,
        2 => 100,
        3 => 1_000,
        4 => 10_000,
        5 => 100_000,
        6 => 1_000_000,
        7 => 10_000_000,
        8 => 100_000_000,
        9 => 1_000_000_000,
        10 => 10_000_000_000,
        11 => 100_000_000_000,
        12 => 1_000_000_000_000,
        _ => 10_000_000_000_000,
    }
}

/// Converts from units of a negative power of two of a second, at most the 40th.
fn binary(power: u8, ticks: u64) -> u64
    ensures { result ≡ binary_micros power ticks }
{
    let unit = 1u64 << power.min(40);
    let whole = (ticks / unit).saturating_mul(1_000_000);
    whole.saturating_add((ticks % unit).saturating_mul(1_000_000) / unit)
}

/// Returns `true` if times in this unit can be read: 10^0 to 10^-19 seconds, and 2^0 to 2^-40.
pub(crate) fn is_readable(resolution: u8) -> bool
    ensures { result ≡ is_unit resolution }
{
    resolution <= 19 || resolution >= 128 && resolution <= 168
}
