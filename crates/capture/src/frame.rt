//! The UDP datagram in a recorded frame: Ethernet (IEEE 802.3), the cooked headers of Linux, raw IP and loopback; what
//! may come before an IP packet (`wrapping`); IPv4 (RFC 791), IPv6 (RFC 8200) and UDP (RFC 768).
//!
//! Fragments are not joined. Up to five headers before an IP packet, one IPv4 packet around it, and up to five IPv6
//! headers before UDP are skipped.

ghost use Rattle.std.specs.Prelude.{◌≡◌, ◌≤◌, ◌<◌, ◌^◌, ◌+◌, length, IfOk, IfSome};
ghost use Rattle.capture.specs.Frames.{family_kind, datagram_in_frame, in_packet, is_family, link_of, loopback_at, no_packet, packet_of, raw_at, version_kind};
ghost use Rattle.capture.specs.Packets.{behind_fragment, behind_header, behind_options, behind_ipv4, in_behind, in_ipv4, in_ipv6, in_udp, is_fragment, is_passed, is_piece, is_tunnel, ipv4_of, no_datagram, size_of, udp_between, udp_of, upper_of};

use crate::encapsulation::{IPV4, IPV6, NOTHING, Packet, has_frame, kind, unwrap_packet};
use crate::places::{big, four, octet, sixteen};
use crate::{Address, Host};

/// The link header of a frame.
#[derive(Clone, Copy, Debug, PartialEq, Eq)]
pub enum Link {
    /// Ethernet, LINKTYPE 1.
    Ethernet,
    /// The cooked header of Linux (SLL), LINKTYPE 113.
    Cooked,
    /// The second cooked header of Linux (SLL2), LINKTYPE 276.
    Cooked2,
    /// No link header, only an IP packet: LINKTYPE 12, 14, 101 and 228.
    Raw,
    /// An address family in four bytes, LINKTYPE 0 and 108.
    Loopback,
}

impl Link {
    /// Returns the link header of a LINKTYPE number, if it is known here.
    pub fn of_number(number: u32) -> Option<Link>
        // Known are exactly 0, 1, 12, 14, 101, 108, 113, 228 and 276, with the link headers of `link_of`.
        ensures { result ≡ link_of number }
    {
        match number {
            0 | 108 => Some(Link::Loopback),
            1 => Some(Link::Ethernet),
            12 | 14 | 101 | 228 => Some(Link::Raw),
            113 => Some(Link::Cooked),
            276 => Some(Link::Cooked2),
            _ => None,
        }
    }
}

/// A UDP datagram in a frame.
#[derive(Clone, Copy, Debug, PartialEq, Eq)]
pub struct FoundDatagram {
    /// The host and port that sent it.
    pub source: Address,
    /// The host and port that it was sent to.
    pub destination: Address,
    /// The place in the frame of the first byte of its payload.
    pub start: usize,
    /// The place after its last byte.
    pub end: usize,
}

/// Why a frame has no UDP datagram that can be read.
#[derive(Clone, Copy, Debug, PartialEq, Eq)]
pub enum NoDatagramCause {
    /// The frame ends before its headers do.
    Truncated,
    /// It carries no IP packet.
    NoIp,
    /// It carries an IP packet without UDP, or with more than five IPv6 headers before it.
    NoUdp,
    /// It carries a packet within another one that is not read, or more than five headers before it.
    Tunnel,
    /// It is a fragment of a datagram.
    Fragment,
    /// A length in its headers does not fit the others.
    Length,
}

/// Finds the UDP datagram in a frame. `octets` may contain any bytes.
/// ///
/// /// # Errors
/// ///
/// /// Returns the first that applies, layer by layer from the front:
/// ///
/// /// - `Truncated` if a header is not complete, or the datagram ends after the frame;
/// /// - `NoIp` if there is no IPv4 or IPv6 packet;
/// /// - `NoUdp` if the packet carries something other than UDP;
/// /// - `Tunnel` if it carries a packet that is not read;
/// /// - `Fragment` if the packet is a fragment;
/// /// - `Length` if the version or a length in a header does not fit.
pub fn find_datagram(link: Link, octets: &[u8]) -> Result<FoundDatagram, NoDatagramCause>
    requires { length octets.now < 2 ^ 32 }
    // The result is the places of `datagram_in_frame`, or the first reason why there is no datagram. Those are the places of a
    // UDP payload in IPv4 or in IPv6, after up to five further headers; IPv4 may also carry one more IP packet.
    ensures found { result ≡ datagram_in_frame link octets.now }
    // The payload ends within the frame, so the caller may cut it out.
    ensures fits { IfOk result (λ found. found.end ≤ length octets.now) }
    // The payload does not start after its end.
    ensures order { IfOk result (λ found. found.start ≤ found.end) }
{
    match find_packet(link, octets) {
        None => Err(NoDatagramCause::Truncated),
        Some(packet) => read_packet(octets, packet),
    }
}

/// Reads the packet by its EtherType.
fn read_packet(octets: &[u8], packet: Packet) -> Result<FoundDatagram, NoDatagramCause>
    requires near { packet.place < 2 ^ 33 }
    // IPv4 and IPv6 packets are read by their own definitions; for any other EtherType the result is `Tunnel` or
    // `NoIp` (`in_packet`).
    ensures found { result ≡ in_packet octets.now packet }
    // If a datagram is found in the `packet`, it ends within the `octets`.
    ensures fits { IfOk result (λ found. found.end ≤ length octets.now) }
    // If a datagram is found in the `packet`, its start is not after its end.
    ensures order { IfOk result (λ found. found.start ≤ found.end) }
{
    match packet.kind {
        IPV4 => read_ipv4(octets, packet.place),
        IPV6 => read_ipv6(octets, packet.place),
        kind => Err(pass_packet(kind)),
    }
}

/// Returns why a packet with this EtherType is passed over.
fn pass_packet(kind: u16) -> NoDatagramCause
    ensures { result ≡ no_packet kind }
{
    if has_frame(kind) {
        NoDatagramCause::Tunnel
    } else {
        NoDatagramCause::NoIp
    }
}

/// Returns the packet of a frame; `None` if the link header is not complete.
fn find_packet(link: Link, octets: &[u8]) -> Option<Packet>
    requires { length octets.now < 2 ^ 32 }
    // The packet is that of `packet_of`: after the header of this `link`, and after up to five further headers for
    // Ethernet and the cooked headers.
    ensures packet { result ≡ packet_of link octets.now }
    // The place of a packet is small, so that sums of places do not overflow.
    ensures near { IfSome result (λ packet. packet.place < 2 ^ 33) }
{
    match link {
        Link::Ethernet => unwrap_packet(octets, kind(octets, 12, 14)?),
        Link::Cooked => unwrap_packet(octets, kind(octets, 14, 16)?),
        Link::Cooked2 => unwrap_packet(octets, kind(octets, 0, 20)?),
        Link::Raw => raw(octets),
        Link::Loopback => loopback(octets),
    }
}

/// Returns the packet of a frame without a link header, by its IP version.
fn raw(octets: &[u8]) -> Option<Packet>
    // The packet starts at the first byte; its EtherType is that of the version in the upper four bits (`raw_at`).
    ensures packet { result ≡ raw_at octets.now }
    // The place of a raw packet is at most 20.
    ensures near { IfSome result (λ packet. packet.place ≤ 20) }
{
    let first = octet(octets, 0)?;
    let kind = of_version(first / 16);
    Some(Packet { kind, place: 0 })
}

/// Returns the EtherType of an IP version.
fn of_version(version: u8) -> u16
    ensures { result ≡ version_kind version }
{
    match version {
        4 => IPV4,
        6 => IPV6,
        _ => NOTHING,
    }
}

/// Returns the packet after an address family, which is in the byte order of the recording machine.
fn loopback(octets: &[u8]) -> Option<Packet>
    // The packet starts after four bytes; its EtherType is that of the family in them (`loopback_at`).
    ensures packet { result ≡ loopback_at octets.now }
    // The place of a loopback packet is at most 20.
    ensures near { IfSome result (λ packet. packet.place ≤ 20) }
{
    let high = big(octets, 0)?;
    let low = big(octets, 2)?;
    let kind = of_family(high, low);
    Some(Packet { kind, place: 4 })
}

/// Returns the EtherType of an address family.
fn of_family(high: u16, low: u16) -> u16
    ensures { result ≡ family_kind high low }
{
    if is_of_family(high, low, 2) {
        IPV4
    } else if is_of_family(high, low, 24)
        || is_of_family(high, low, 28)
        || is_of_family(high, low, 30)
    {
        IPV6
    } else {
        NOTHING
    }
}

/// Returns `true` if four bytes are this family, in either byte order.
fn is_of_family(high: u16, low: u16, family: u16) -> bool
    requires { family < 256 }
    ensures { result ≡ is_family high low family }
{
    high == 0 && low == family || high == family * 256 && low == 0
}

/// The header of an IPv4 packet.
#[derive(Clone, Copy, Debug, PartialEq, Eq)]
pub(crate) struct V4Header {
    /// The number of the protocol that it carries.
    pub protocol: u8,
    /// It is one of several fragments.
    pub is_part: bool,
    /// The address of its sender.
    pub source: [u8; 4],
    /// The address that it was sent to.
    pub destination: [u8; 4],
    /// The place in the frame of the first byte after the header.
    pub start: usize,
    /// The place after the last byte of the packet.
    pub end: usize,
}

/// Reads the IPv4 packet at a place.
fn read_ipv4(octets: &[u8], place: usize) -> Result<FoundDatagram, NoDatagramCause>
    requires near { place < 2 ^ 33 }
    // The header is read; then UDP, or the packet of IPv4 or IPv6 that it carries (`in_ipv4`).
    ensures found { result ≡ in_ipv4 octets.now place }
    // A datagram in an IPv4 packet ends within the `octets`.
    ensures fits { IfOk result (λ found. found.end ≤ length octets.now) }
    // A datagram in an IPv4 packet has its start not after its end.
    ensures order { IfOk result (λ found. found.start ≤ found.end) }
{
    let header = read_v4_header(octets, place)?;
    match header.protocol {
        WITHIN_V4 => {
            let start = pass_v4_header(&header)?;
            read_inner_ipv4(octets, start)
        }
        WITHIN_V6 => {
            let start = pass_v4_header(&header)?;
            read_ipv6(octets, start)
        }
        _ => read_udp_after(octets, &header),
    }
}

/// The protocol number of IPv4 within another packet.
const WITHIN_V4: u8 = 4;

/// The protocol number of IPv6 within another packet.
const WITHIN_V6: u8 = 41;

/// Reads the IPv4 packet at a place within another IPv4 packet.
fn read_inner_ipv4(octets: &[u8], place: usize) -> Result<FoundDatagram, NoDatagramCause>
    requires near { place < 2 ^ 33 + 2 ^ 7 }
    // The header is read, then UDP; one more packet within it is not read (`in_behind`).
    ensures found { result ≡ in_behind octets.now (ipv4_of octets.now place) }
    // A datagram in an inner packet ends within the `octets`.
    ensures fits { IfOk result (λ found. found.end ≤ length octets.now) }
    // A datagram in an inner packet has its start not after its end.
    ensures order { IfOk result (λ found. found.start ≤ found.end) }
{
    let header = read_v4_header(octets, place)?;
    read_udp_after(octets, &header)
}

/// Reads the header of the IPv4 packet at a place.
fn read_v4_header(octets: &[u8], place: usize) -> Result<V4Header, NoDatagramCause>
    requires near { place < 2 ^ 33 + 2 ^ 7 }
    // A header that is not complete is `Truncated`; another version, or a length that does not fit, is `Length`
    // (`ipv4_of`).
    ensures header { result ≡ ipv4_of octets.now place }
    // The header has at most 60 bytes.
    ensures near { IfOk result (λ header. header.start ≤ place + 60) }
{
    let Some(first) = octet(octets, place) else {
        return Err(NoDatagramCause::Truncated);
    };
    let Some(total) = big(octets, place + 2) else {
        return Err(NoDatagramCause::Truncated);
    };
    let Some(flags) = big(octets, place + 6) else {
        return Err(NoDatagramCause::Truncated);
    };
    let Some(protocol) = octet(octets, place + 9) else {
        return Err(NoDatagramCause::Truncated);
    };
    let Some(source) = four(octets, place + 12) else {
        return Err(NoDatagramCause::Truncated);
    };
    let Some(destination) = four(octets, place + 16) else {
        return Err(NoDatagramCause::Truncated);
    };
    let size = first as usize % 16 * 4;
    let total = whole_size(total);
    if first / 16 != 4 || size < 20 || (total as usize) < size {
        return Err(NoDatagramCause::Length);
    }
    Ok(V4Header {
        protocol,
        is_part: has_parts(flags),
        source,
        destination,
        start: place + size,
        end: place + total as usize,
    })
}

/// Returns the size of an IPv4 packet by its total length.
fn whole_size(total: u16) -> u16
    ensures { result ≡ size_of total }
{
    if total == 0 { 65_535 } else { total }
}

/// Returns the place of the packet that an IPv4 packet carries.
fn pass_v4_header(header: &V4Header) -> Result<usize, NoDatagramCause>
    ensures { result ≡ behind_ipv4 header.now }
{
    if header.is_part {
        return Err(NoDatagramCause::Fragment);
    }
    Ok(header.start)
}

/// Reads the UDP datagram after the header of an IPv4 packet.
fn read_udp_after(octets: &[u8], header: &V4Header) -> Result<FoundDatagram, NoDatagramCause>
    requires near { header.now.start < 2 ^ 34 }
    // The protocol must be UDP, then the packet must not be a fragment; then UDP is read (`udp_of`).
    ensures found { result ≡ udp_of octets.now header.now }
    // A datagram after the `header` ends within the `octets`.
    ensures fits { IfOk result (λ found. found.end ≤ length octets.now) }
    // A datagram after the `header` has its start not after its end.
    ensures order { IfOk result (λ found. found.start ≤ found.end) }
{
    if header.protocol != UDP {
        return Err(pass_protocol(header.protocol));
    }
    let start = pass_v4_header(header)?;
    let (source, destination) = (Host::V4(header.source), Host::V4(header.destination));
    read_udp(octets, source, destination, start, header.end)
}

/// Returns why a packet with this protocol is passed over.
fn pass_protocol(protocol: u8) -> NoDatagramCause
    ensures { result ≡ no_datagram protocol }
{
    if carries_packet(protocol) {
        NoDatagramCause::Tunnel
    } else {
        NoDatagramCause::NoUdp
    }
}

/// Returns `true` for the protocols that carry a further packet.
fn carries_packet(protocol: u8) -> bool
    ensures { result ≡ is_tunnel protocol }
{
    match protocol {
        4 | 41 | 47 | 50 | 51 | 97 | 115 | 137 | 143 => true,
        _ => false,
    }
}

/// Returns `true` if a packet is a fragment: more follow, or its offset is not 0.
fn has_parts(flags: u16) -> bool
    ensures { result ≡ is_fragment flags }
{
    flags % 0x4000 != 0
}

/// Reads the IPv6 packet at a place.
fn read_ipv6(octets: &[u8], place: usize) -> Result<FoundDatagram, NoDatagramCause>
    requires near { place < 2 ^ 33 + 2 ^ 7 }
    // The version is checked, up to five headers are skipped, and UDP is read; any other header is `NoUdp` or
    // `Tunnel` (`in_ipv6`).
    ensures found { result ≡ in_ipv6 octets.now place }
    // A datagram in an IPv6 packet ends within the `octets`.
    ensures fits { IfOk result (λ found. found.end ≤ length octets.now) }
    // A datagram in an IPv6 packet has its start not after its end.
    ensures order { IfOk result (λ found. found.start ≤ found.end) }
{
    let Some(first) = octet(octets, place) else {
        return Err(NoDatagramCause::Truncated);
    };
    let Some(size) = big(octets, place + 4) else {
        return Err(NoDatagramCause::Truncated);
    };
    let Some(kind) = octet(octets, place + 6) else {
        return Err(NoDatagramCause::Truncated);
    };
    let Some(source) = sixteen(octets, place + 8) else {
        return Err(NoDatagramCause::Truncated);
    };
    let Some(destination) = sixteen(octets, place + 24) else {
        return Err(NoDatagramCause::Truncated);
    };
    if first / 16 != 6 {
        return Err(NoDatagramCause::Length);
    }
    let start = place + 40;
    let upper = find_upper(octets, UpperHeader { kind, place: start })?;
    if upper.kind != UDP {
        return Err(pass_protocol(upper.kind));
    }
    let (source, destination) = (Host::V6(source), Host::V6(destination));
    read_udp(
        octets,
        source,
        destination,
        upper.place,
        start + size as usize,
    )
}

/// A header of an IPv6 packet, or what follows its headers.
#[derive(Clone, Copy, Debug, PartialEq, Eq)]
pub(crate) struct UpperHeader {
    /// Its number, as in the field *next header*.
    pub kind: u8,
    /// The place in the frame of its first byte.
    pub place: usize,
}

/// The protocol number of UDP.
const UDP: u8 = 17;

/// Skips up to five headers; a packet should have no more of them (RFC 8200, 4.1).
fn find_upper(octets: &[u8], first: UpperHeader) -> Result<UpperHeader, NoDatagramCause>
    requires near { first.place < 2 ^ 33 + 2 ^ 12 }
    // The result is what follows after five steps over headers, or the first reason why one cannot be skipped
    // (`upper_of`).
    ensures upper { result ≡ upper_of octets.now first }
    // Five headers move the place by less than 2^14 bytes.
    ensures near { IfOk result (λ upper. upper.place < 2 ^ 33 + 2 ^ 14) }
{
    let second = pass_header(octets, first)?;
    let third = pass_header(octets, second)?;
    let fourth = pass_header(octets, third)?;
    let fifth = pass_header(octets, fourth)?;
    pass_header(octets, fifth)
}

/// Skips a header; anything that is not skipped is returned as it is.
fn pass_header(octets: &[u8], upper: UpperHeader) -> Result<UpperHeader, NoDatagramCause>
    requires near { upper.place < 2 ^ 34 }
    // Options and routes are skipped by their length, a fragment header that is a whole packet by 8 bytes; anything
    // else stays (`behind_header`).
    ensures upper { result ≡ behind_header octets.now upper }
    // One header moves the place by at most 2,048 bytes.
    ensures near { IfOk result (λ next. next.place ≤ upper.place + 2048) }
{
    if is_option(upper.kind) {
        pass_options(octets, upper.place)
    } else if upper.kind == FRAGMENT {
        pass_fragment(octets, upper.place)
    } else {
        Ok(upper)
    }
}

/// The number of the IPv6 fragment header.
const FRAGMENT: u8 = 44;

/// Returns `true` for headers that are skipped: hop-by-hop options, routing, destination options.
fn is_option(kind: u8) -> bool
    ensures { result ≡ is_passed kind }
{
    kind == 0 || kind == 43 || kind == 60
}

/// Skips options. Their length is in units of 8 bytes, without the first 8.
fn pass_options(octets: &[u8], place: usize) -> Result<UpperHeader, NoDatagramCause>
    requires near { place < 2 ^ 34 }
    // The next header's number is in the first byte, the length in the second (`behind_options`); too few bytes are
    // `Truncated`.
    ensures upper { result ≡ behind_options octets.now place }
    // Options move the place by at most 2,048 bytes.
    ensures near { IfOk result (λ next. next.place ≤ place + 2048) }
{
    let Some(kind) = octet(octets, place) else {
        return Err(NoDatagramCause::Truncated);
    };
    let Some(eights) = octet(octets, place + 1) else {
        return Err(NoDatagramCause::Truncated);
    };
    Ok(UpperHeader {
        kind,
        place: place + 8 + eights as usize * 8,
    })
}

/// Skips the header of a fragment that is a whole packet (RFC 6946).
fn pass_fragment(octets: &[u8], place: usize) -> Result<UpperHeader, NoDatagramCause>
    requires near { place < 2 ^ 34 }
    // A real fragment is `Fragment` if UDP or a skipped header follows, otherwise `NoUdp` or `Tunnel`. A whole packet
    // goes on 8 bytes later (`behind_fragment`).
    ensures upper { result ≡ behind_fragment octets.now place }
    // A fragment header moves the place by at most 2,048 bytes.
    ensures near { IfOk result (λ next. next.place ≤ place + 2048) }
{
    let Some(kind) = octet(octets, place) else {
        return Err(NoDatagramCause::Truncated);
    };
    let Some(part) = big(octets, place + 2) else {
        return Err(NoDatagramCause::Truncated);
    };
    if !is_part(part) {
        return Ok(UpperHeader {
            kind,
            place: place + 8,
        });
    }
    if kind == UDP || is_option(kind) {
        return Err(NoDatagramCause::Fragment);
    }
    Err(pass_protocol(kind))
}

/// Returns `true` if a fragment is one of several: more follow, or its offset is not 0.
fn is_part(part: u16) -> bool
    ensures { result ≡ is_piece part }
{
    part / 8 != 0 || part % 2 == 1
}

/// Reads the UDP datagram at `place` in a packet that ends at `end`.
fn read_udp(
    octets: &[u8],
    source: Host,
    destination: Host,
    place: usize,
    end: usize,
) -> Result<FoundDatagram, NoDatagramCause>
    requires near { place < 2 ^ 34 }
    // The ports and the size are read from the UDP header (`in_udp`); if it is not complete, the result is
    // `Truncated`.
    ensures found { result ≡ in_udp octets.now source destination place end }
    // The datagram that is read ends within the `octets`.
    ensures fits { IfOk result (λ found. found.end ≤ length octets.now) }
    // The datagram that is read has its start not after its end.
    ensures order { IfOk result (λ found. found.start ≤ found.end) }
{
    let Some(from) = big(octets, place) else {
        return Err(NoDatagramCause::Truncated);
    };
    let Some(to) = big(octets, place + 2) else {
        return Err(NoDatagramCause::Truncated);
    };
    let Some(size) = big(octets, place + 4) else {
        return Err(NoDatagramCause::Truncated);
    };
    let source = Address {
        host: source,
        port: from,
    };
    let destination = Address {
        host: destination,
        port: to,
    };
    measure(octets.len(), source, destination, place, size as usize, end)
}

/// Checks the size of a datagram against its packet and the frame.
fn measure(
    octets: usize,
    source: Address,
    destination: Address,
    place: usize,
    size: usize,
    end: usize,
) -> Result<FoundDatagram, NoDatagramCause>
    requires near { place < 2 ^ 34 }
    requires small { size < 2 ^ 16 }
    // The size must be at least 8 and within the packet (`Length`), then within the frame (`Truncated`). The payload
    // follows the 8 bytes of the header.
    ensures found { result ≡ udp_between octets source destination place size end }
    // The datagram ends within the frame of `octets` bytes.
    ensures fits { IfOk result (λ found. found.end ≤ octets) }
    // A size of at least 8 keeps the start not after the end.
    ensures order { IfOk result (λ found. found.start ≤ found.end) }
{
    if size < 8 || place + size > end {
        return Err(NoDatagramCause::Length);
    }
    if place + size > octets {
        return Err(NoDatagramCause::Truncated);
    }
    Ok(FoundDatagram {
        source,
        destination,
        start: place + 8,
        end: place + size,
    })
}
