//! The frames and lines of which no datagram is followed, counted by kind.

ghost use Rattle.std.specs.Prelude.{◌≡◌, OnOk};
ghost use Rattle.std.specs.Io.KnownBytes.{Appends};
ghost use Rattle.capture_text.specs.Skips.{count_frame_fault, is_all_zero, no_skips, count_line_skip, skips_json, skips_lines, skips_text, count_frame_skip, rest_json, rest_text, count_skip_reason, unread_json, unread_text};

use crate::frames::{FrameContent, FrameFault, SkipReason};
use pdu_text::write_text;
use std::io;
use std::io::Write;

/// How many frames and lines were passed over, by kind.
#[derive(Clone, Copy, Debug, PartialEq, Eq)]
pub struct SkipCounts {
    /// Datagrams without a chosen port.
    pub ports: u64,
    /// Datagrams whose time is not asked for.
    pub times: u64,
    /// Frames without an IP packet.
    pub no_ip: u64,
    /// IP packets without UDP.
    pub no_udp: u64,
    /// Packets within another one that is not read.
    pub tunnels: u64,
    /// Fragments.
    pub fragments: u64,
    /// Frames that end before their headers or datagrams do.
    pub truncated: u64,
    /// Frames with a length that does not fit.
    pub lengths: u64,
    /// Frames with an unknown link header.
    pub links: u64,
}

impl SkipCounts {
    /// Returns the counts before the first frame.
    pub(crate) fn new() -> Self
        ensures { result ≡ no_skips }
    {
        SkipCounts {
            ports: 0,
            times: 0,
            no_ip: 0,
            no_udp: 0,
            tunnels: 0,
            fragments: 0,
            truncated: 0,
            lengths: 0,
            links: 0,
        }
    }

    /// Counts a frame.
    pub(crate) fn count_frame(&mut self, seen: &FrameContent)
        ensures { self.new ≡ count_frame_skip self.old seen.now }
    {
        match *seen {
            FrameContent::Datagram(_, _, _) => {}
            FrameContent::Other(why) => self.count_skipped(why),
            FrameContent::Unread(fault) => self.count_fault(fault),
        }
    }

    /// Counts a frame or line that is passed over without a fault.
    pub(crate) fn count_skipped(&mut self, why: SkipReason)
        ensures { self.new ≡ count_skip_reason self.old why }
    {
        match why {
            SkipReason::Port => self.ports = self.ports.saturating_add(1),
            SkipReason::Time(_) => self.times = self.times.saturating_add(1),
            SkipReason::NoIp => self.no_ip = self.no_ip.saturating_add(1),
            SkipReason::NoUdp => self.no_udp = self.no_udp.saturating_add(1),
            SkipReason::Tunnel => self.tunnels = self.tunnels.saturating_add(1),
        }
    }

    /// Counts a frame that is not read.
    fn count_fault(&mut self, fault: FrameFault)
        ensures { self.new ≡ count_frame_fault self.old fault }
    {
        match fault {
            FrameFault::Link => self.links = self.links.saturating_add(1),
            FrameFault::Truncated => self.truncated = self.truncated.saturating_add(1),
            FrameFault::Fragment => self.fragments = self.fragments.saturating_add(1),
            FrameFault::Length => self.lengths = self.lengths.saturating_add(1),
        }
    }
}

/// Writes the line of the frames and lines that were passed over, if there are any.
pub(crate) fn write_passed<W: Write>(writer: &mut W, passed: &SkipCounts) -> io::Result<()>
    ensures { OnOk result (Appends (W.contents writer.old) (W.contents writer.new) (skips_lines passed.now)) }
{
    if is_nothing(passed) {
        return Ok(());
    }
    write_kinds(writer, passed)
}

/// Returns `true` if all counts are 0.
fn is_nothing(passed: &SkipCounts) -> bool
    ensures { result ≡ is_all_zero passed.now }
{
    passed.ports == 0
        && passed.times == 0
        && passed.no_ip == 0
        && passed.no_udp == 0
        && passed.tunnels == 0
        && passed.fragments == 0
        && passed.truncated == 0
        && passed.lengths == 0
        && passed.links == 0
}

/// Writes the line of all counts.
#[tactic(auto, unfolding(crate::specs::Skips::skips_text))]
fn write_kinds<W: Write>(writer: &mut W, passed: &SkipCounts) -> io::Result<()>
    ensures { OnOk result (Appends (W.contents writer.old) (W.contents writer.new) (skips_text passed.now)) }
{
    write_rest(writer, passed)?;
    write_unread(writer, passed)
}

/// Writes the counts of what has no fault.
#[tactic(auto, unfolding(crate::specs::Skips::rest_text))]
fn write_rest<W: Write>(writer: &mut W, passed: &SkipCounts) -> io::Result<()>
    ensures { OnOk result (Appends (W.contents writer.old) (W.contents writer.new) (rest_text passed.now)) }
{
    let ports = passed.ports;
    let times = passed.times;
    let no_ip = passed.no_ip;
    let no_udp = passed.no_udp;
    let tunnels = passed.tunnels;
    write!(
        writer,
        "sum passed over: other ports {ports} other times {times} no IP {no_ip} no UDP {no_udp} tunnels {tunnels}"
    )
}

/// Writes the counts of what is not read, and ends the line.
#[tactic(auto, unfolding(crate::specs::Skips::unread_text))]
fn write_unread<W: Write>(writer: &mut W, passed: &SkipCounts) -> io::Result<()>
    ensures { OnOk result (Appends (W.contents writer.old) (W.contents writer.new) (unread_text passed.now)) }
{
    let fragments = passed.fragments;
    let truncated = passed.truncated;
    let lengths = passed.lengths;
    let links = passed.links;
    writeln!(
        writer,
        " fragments {fragments} truncated {truncated} lengths {lengths} links {links}"
    )
}

/// Writes the counts as a member of a JSON object.
#[tactic(auto, unfolding(crate::specs::Skips::skips_json))]
pub(crate) fn write_passed_json<W: Write>(writer: &mut W, passed: &SkipCounts) -> io::Result<()>
    ensures { OnOk result (Appends (W.contents writer.old) (W.contents writer.new) (skips_json passed.now)) }
{
    write_text(writer, ",\"passed\":")?;
    write_rest_json(writer, passed)?;
    write_unread_json(writer, passed)
}

/// Writes the counts of what has no fault as members, and opens their object.
#[tactic(auto, unfolding(crate::specs::Skips::rest_json))]
fn write_rest_json<W: Write>(writer: &mut W, passed: &SkipCounts) -> io::Result<()>
    ensures { OnOk result (Appends (W.contents writer.old) (W.contents writer.new) (rest_json passed.now)) }
{
    let ports = passed.ports;
    let times = passed.times;
    let no_ip = passed.no_ip;
    let no_udp = passed.no_udp;
    let tunnels = passed.tunnels;
    write!(
        writer,
        "{{\"ports\":{ports},\"times\":{times},\"no_ip\":{no_ip},\"no_udp\":{no_udp},\"tunnels\":{tunnels}"
    )
}

/// Writes the counts of what is not read as members, and closes their object.
#[tactic(auto, unfolding(crate::specs::Skips::unread_json))]
fn write_unread_json<W: Write>(writer: &mut W, passed: &SkipCounts) -> io::Result<()>
    ensures { OnOk result (Appends (W.contents writer.old) (W.contents writer.new) (unread_json passed.now)) }
{
    let fragments = passed.fragments;
    let truncated = passed.truncated;
    let lengths = passed.lengths;
    let links = passed.links;
    write!(
        writer,
        ",\"fragments\":{fragments},\"truncated\":{truncated},\"lengths\":{lengths},\"links\":{links}}}"
    )
}
