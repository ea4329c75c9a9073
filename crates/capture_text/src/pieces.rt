//! The times, addresses and channels in lines.

ghost use Rattle.std.specs.Prelude.{◌≡◌, ◌<◌, OnOk};
ghost use Rattle.std.specs.Io.KnownBytes.{Appends};
ghost use Rattle.capture_text.specs.Pieces.{address_text, channel_text, difference_text, duration_text, ends_text, moment_digits, moment_text, t_max_remark, since_text, six_digits, utc_text, v4_text, v6_text};

use crate::dates::{Date, date_of_day};
use capture::{Address, Host};
use safe_pdu::Identifier;
use std::io;
use std::io::Write;
use std::net::Ipv6Addr;

/// The form of a time in a line.
#[derive(Clone, Copy, Debug, PartialEq, Eq)]
pub enum TimeForm {
    /// Seconds since the first datagram.
    Since,
    /// Seconds since 1970.
    Epoch,
    /// Date and time of day in UTC.
    Utc,
}

/// How times are printed.
#[derive(Clone, Copy, Debug, PartialEq, Eq)]
pub struct Clock {
    /// The time of the first datagram, in microseconds since 1970; 0 if it is unknown.
    pub first: u64,
    /// The form of a time.
    pub form: TimeForm,
}

/// Writes a time.
pub(crate) fn write_since<W: Write>(writer: &mut W, clock: Clock, time: u64) -> io::Result<()>
    ensures { OnOk result (Appends (W.contents writer.old) (W.contents writer.new) (since_text clock time)) }
{
    match clock.form {
        TimeForm::Since => write_difference(writer, clock.first, time),
        TimeForm::Epoch => write_duration(writer, time),
        TimeForm::Utc => write_utc(writer, time),
    }
}

/// Writes a time as seconds since the first one.
#[tactic(auto, unfolding(crate::specs::Pieces::difference_text))]
fn write_difference<W: Write>(writer: &mut W, first: u64, time: u64) -> io::Result<()>
    ensures { OnOk result (Appends (W.contents writer.old) (W.contents writer.new) (difference_text first time)) }
{
    if time < first {
        writer.write_all(b"-")?;
        return write_duration(writer, first - time);
    }
    write_duration(writer, time - first)
}

/// Writes microseconds as seconds with six digits after the point.
#[tactic(auto, unfolding(crate::specs::Pieces::duration_text))]
pub fn write_duration<W: Write>(writer: &mut W, micros: u64) -> io::Result<()>
    // On success the whole seconds, a point, and six digits are appended.
    ensures { OnOk result (Appends (W.contents writer.old) (W.contents writer.new) (duration_text micros)) }
{
    let seconds = micros / 1_000_000;
    write!(writer, "{seconds}.")?;
    let digits = spell(micros % 1_000_000);
    writer.write_all(&digits)
}

/// Writes a time as date and time of day in UTC.
#[tactic(auto, unfolding(crate::specs::Pieces::utc_text))]
pub(crate) fn write_utc<W: Write>(writer: &mut W, micros: u64) -> io::Result<()>
    ensures { OnOk result (Appends (W.contents writer.old) (W.contents writer.new) (utc_text micros)) }
{
    write_moment(
        writer,
        date_of_day(micros / 86_400_000_000),
        micros % 86_400_000_000,
    )
}

/// Writes a date and a time of day, in microseconds since midnight.
#[tactic(auto, unfolding(crate::specs::Pieces::moment_text))]
fn write_moment<W: Write>(writer: &mut W, date: Date, micros: u64) -> io::Result<()>
    requires { micros < 86400000000 }
    ensures { OnOk result (Appends (W.contents writer.old) (W.contents writer.new) (moment_text date micros)) }
{
    let year = date.year;
    write!(writer, "{year}")?;
    let digits = spell_moment(date, micros);
    writer.write_all(&digits)
}

/// Returns month, day and time of day with their marks, after a year.
fn spell_moment(date: Date, micros: u64) -> [u8; 23]
    requires { micros < 86400000000 }
    ensures { result ≡ moment_digits date micros }
{
    let seconds = micros / 1_000_000;
    let rest = micros % 1_000_000;
    [
        45,
        (48 + date.month / 10 % 10) as u8,
        (48 + date.month / 1 % 10) as u8,
        45,
        (48 + date.day / 10 % 10) as u8,
        (48 + date.day / 1 % 10) as u8,
        84,
        (48 + seconds / 3_600 / 10 % 10) as u8,
        (48 + seconds / 3_600 / 1 % 10) as u8,
        58,
        (48 + seconds / 60 % 60 / 10 % 10) as u8,
        (48 + seconds / 60 % 60 / 1 % 10) as u8,
        58,
        (48 + seconds % 60 / 10 % 10) as u8,
        (48 + seconds % 60 / 1 % 10) as u8,
        46,
        (48 + rest / 100_000 % 10) as u8,
        (48 + rest / 10_000 % 10) as u8,
        (48 + rest / 1_000 % 10) as u8,
        (48 + rest / 100 % 10) as u8,
        (48 + rest / 10 % 10) as u8,
        (48 + rest / 1 % 10) as u8,
        90,
    ]
}

/// Returns the last six decimal digits of a number.
fn spell(number: u64) -> [u8; 6]
    ensures { result ≡ six_digits number }
{
    [
        (48 + number / 100_000 % 10) as u8,
        (48 + number / 10_000 % 10) as u8,
        (48 + number / 1_000 % 10) as u8,
        (48 + number / 100 % 10) as u8,
        (48 + number / 10 % 10) as u8,
        (48 + number / 1 % 10) as u8,
    ]
}

/// Writes an address.
pub fn write_address<W: Write>(writer: &mut W, address: Address) -> io::Result<()>
    // On success the host of `address`, IPv4 or IPv6, and its port are appended.
    ensures { OnOk result (Appends (W.contents writer.old) (W.contents writer.new) (address_text address)) }
{
    match address.host {
        Host::V4(host) => write_v4(writer, host, address.port),
        Host::V6(host) => write_v6(writer, host, address.port),
    }
}

/// Writes an IPv4 address.
#[tactic(auto, unfolding(crate::specs::Pieces::v4_text))]
fn write_v4<W: Write>(writer: &mut W, host: [u8; 4], port: u16) -> io::Result<()>
    ensures { OnOk result (Appends (W.contents writer.old) (W.contents writer.new) (v4_text host port)) }
{
    let a = host[0];
    let b = host[1];
    let c = host[2];
    let d = host[3];
    write!(writer, "{a}.{b}.{c}.{d}:{port}")
}

/// Writes an IPv6 address in brackets (RFC 5952).
#[tactic(auto, unfolding(crate::specs::Pieces::v6_text))]
fn write_v6<W: Write>(writer: &mut W, host: [u8; 16], port: u16) -> io::Result<()>
    ensures { OnOk result (Appends (W.contents writer.old) (W.contents writer.new) (v6_text host port)) }
{
    let address = Ipv6Addr::from_octets(host);
    write!(writer, "[{address}]:{port}")
}

/// Writes which end sends to which.
#[tactic(auto, unfolding(crate::specs::Pieces::ends_text))]
pub(crate) fn write_ends<W: Write>(
    writer: &mut W,
    sender: Identifier,
    receiver: Identifier,
) -> io::Result<()>
    ensures { OnOk result (Appends (W.contents writer.old) (W.contents writer.new) (ends_text sender receiver)) }
{
    write!(writer, "{sender}->{receiver}")
}

/// Returns the words of a channel, counted from 1; further channels have no number.
pub(crate) fn channel_name(route: usize) -> &'static str
    ensures { result.now ≡ channel_text route }
{
    match route {
        0 => " ch 1",
        1 => " ch 2",
        2 => " ch 3",
        3 => " ch 4",
        _ => " ch other",
    }
}

/// Returns a remark if an age or a wait reached T_max; all in milliseconds.
pub(crate) fn remark_on_limit(t_max: u32, most: u32) -> &'static str
    ensures { result.now ≡ t_max_remark t_max most }
{
    if t_max <= most { " reached" } else { "" }
}
