//! What may come before an IP packet in a frame: VLAN tags (IEEE 802.1Q), LLC/SNAP (IEEE 802.2), MPLS labels (RFC 3032)
//! and PPPoE (RFC 2516).

ghost use Rattle.std.specs.Prelude.{◌≡◌, ◌≤◌, ◌<◌, ◌^◌, ◌+◌, IfSome};
ghost use Rattle.capture.specs.Encapsulations.{behind_label, behind_llc, behind_session, behind_wrapping, is_bridged, is_label, is_length, is_tag, kind_at, label_kind, session_kind, snap_kind, innermost_packet};

use crate::places::{big, octet};

/// The EtherType of IPv4.
pub(crate) const IPV4: u16 = 0x0800;

/// The EtherType of IPv6.
pub(crate) const IPV6: u16 = 0x86dd;

/// The EtherType of a PPPoE session.
const SESSION: u16 = 0x8864;

/// The EtherType of an Ethernet frame within another packet.
const BRIDGED: u16 = 0x6558;

/// Stands for what is not a packet.
pub(crate) const NOTHING: u16 = 0;

/// The packet after a link header.
#[derive(Clone, Copy, Debug, PartialEq, Eq)]
pub(crate) struct Packet {
    /// Its EtherType, or the length of its frame if that is below 1,501.
    pub kind: u16,
    /// The place in the frame of its first byte.
    pub place: usize,
}

/// Returns the packet at `place`, whose EtherType is at `at`.
pub(crate) fn kind(octets: &[u8], at: usize, place: usize) -> Option<Packet>
    ensures { result ≡ kind_at at place octets.now }
{
    let kind = big(octets, at)?;
    Some(Packet { kind, place })
}

/// Skips up to five tags, labels and other headers before a packet.
pub(crate) fn unwrap_packet(octets: &[u8], packet: Packet) -> Option<Packet>
    requires near { packet.place ≤ 20 }
    // The result is the packet after five steps, each over one header if there is one (`innermost_packet`).
    ensures packet { result ≡ innermost_packet octets.now packet }
    // The place after all headers stays below 2^33.
    ensures near { IfSome result (λ packet. packet.place < 2 ^ 33) }
{
    let second = unwrap_once(octets, packet)?;
    let third = unwrap_once(octets, second)?;
    let fourth = unwrap_once(octets, third)?;
    let fifth = unwrap_once(octets, fourth)?;
    unwrap_once(octets, fifth)
}

/// Skips a header before a packet; a packet without one is returned as it is.
fn unwrap_once(octets: &[u8], packet: Packet) -> Option<Packet>
    requires near { packet.place ≤ 100 }
    // A VLAN tag, an MPLS label, the header of a PPPoE session, or LLC/SNAP is skipped (`behind_wrapping`).
    ensures packet { result ≡ behind_wrapping octets.now packet }
    // A header moves the place by at most 8 bytes.
    ensures near { IfSome result (λ inner. inner.place ≤ packet.place + 8) }
{
    if has_tag(packet.kind) {
        return kind(octets, packet.place + 2, packet.place + 4);
    }
    if has_label(packet.kind) {
        return pass_label(octets, packet);
    }
    if packet.kind == SESSION {
        return pass_session(octets, packet.place);
    }
    if has_length(packet.kind) {
        return pass_llc(octets, packet.place);
    }
    Some(packet)
}

/// Returns `true` for the EtherTypes of VLAN tags (802.1Q, 802.1ad, and the older 0x9100).
fn has_tag(kind: u16) -> bool
    ensures { result ≡ is_tag kind }
{
    kind == 0x8100 || kind == 0x88a8 || kind == 0x9100
}

/// Returns `true` for the EtherTypes of MPLS.
fn has_label(kind: u16) -> bool
    ensures { result ≡ is_label kind }
{
    kind == 0x8847 || kind == 0x8848
}

/// Returns `true` if the field of the EtherType has the length of the frame.
fn has_length(kind: u16) -> bool
    ensures { result ≡ is_length kind }
{
    1 <= kind && kind <= 1500
}

/// Skips an MPLS label.
fn pass_label(octets: &[u8], packet: Packet) -> Option<Packet>
    requires near { packet.place ≤ 100 }
    // The packet after the last label has the kind of its first four bits; after any other, a label comes
    // (`behind_label`).
    ensures packet { result ≡ behind_label octets.now packet }
    // A label moves the place by at most 8 bytes.
    ensures near { IfSome result (λ inner. inner.place ≤ packet.place + 8) }
{
    let third = octet(octets, packet.place + 2)?;
    let next = octet(octets, packet.place + 4)?;
    let kind = if third % 2 == 0 {
        packet.kind
    } else {
        kind_after_label(next / 16)
    };
    Some(Packet {
        kind,
        place: packet.place + 4,
    })
}

/// Returns the EtherType of a packet after the last label, by its first four bits.
fn kind_after_label(version: u8) -> u16
    ensures { result ≡ label_kind version }
{
    match version {
        4 => IPV4,
        6 => IPV6,
        _ => BRIDGED,
    }
}

/// Skips the header of a PPPoE session and the protocol of PPP.
fn pass_session(octets: &[u8], place: usize) -> Option<Packet>
    requires near { place ≤ 100 }
    // The packet comes after eight bytes, with the EtherType of its protocol (`behind_session`).
    ensures packet { result ≡ behind_session octets.now place }
    // The header of a session moves the place by at most 8 bytes.
    ensures near { IfSome result (λ inner. inner.place ≤ place + 8) }
{
    let head = big(octets, place)?;
    let protocol = big(octets, place + 6)?;
    let kind = kind_in_session(head, protocol);
    Some(Packet {
        kind,
        place: place + 8,
    })
}

/// Returns the EtherType of the protocol of PPP in a session.
fn kind_in_session(head: u16, protocol: u16) -> u16
    ensures { result ≡ session_kind head protocol }
{
    if head != 0x1100 {
        NOTHING
    } else if protocol == 0x0021 {
        IPV4
    } else if protocol == 0x0057 {
        IPV6
    } else {
        NOTHING
    }
}

/// Skips LLC and SNAP.
fn pass_llc(octets: &[u8], place: usize) -> Option<Packet>
    requires near { place ≤ 100 }
    // The packet comes after eight bytes, with the EtherType of SNAP (`behind_llc`).
    ensures packet { result ≡ behind_llc octets.now place }
    // LLC moves the place by at most 8 bytes.
    ensures near { IfSome result (λ inner. inner.place ≤ place + 8) }
{
    let access = big(octets, place)?;
    let control = big(octets, place + 2)?;
    let maker = big(octets, place + 4)?;
    let kind = big(octets, place + 6)?;
    let kind = kind_in_snap(access, control, maker, kind);
    Some(Packet {
        kind,
        place: place + 8,
    })
}

/// Returns the EtherType of SNAP.
fn kind_in_snap(access: u16, control: u16, maker: u16, kind: u16) -> u16
    ensures { result ≡ snap_kind access control maker kind }
{
    if access == 0xaaaa && control == 0x0300 && maker == 0 {
        kind
    } else {
        NOTHING
    }
}

/// Returns `true` for the EtherTypes of packets within which a further frame may be that is not read.
pub(crate) fn has_frame(kind: u16) -> bool
    ensures { result ≡ is_bridged kind }
{
    has_tag(kind)
        || has_label(kind)
        || kind == SESSION
        || kind == BRIDGED
        || kind == 0x88e5
        || kind == 0x88e7
}
