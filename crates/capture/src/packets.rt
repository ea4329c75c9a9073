//! The packets of a pcapng file: enhanced, simple, and the obsolete block.

ghost use Rattle.std.specs.Prelude.{◌≡◌, ◌≤◌, ◌+◌, ◌^◌, length, IfOk};
ghost use Rattle.capture.specs.Recordings.{IsWithinBlock, IsWithin, interface_at, frame_for, obsolete_step, packet_step, simple_size, simple_step};

use crate::file::{BlockContent, BlockFrame, Change, FileFault, FilePart, INTERFACES, Step};
use crate::interfaces::{Interface, micros, shift};
use crate::places::{long, short};

/// Reads an enhanced packet block: the frame of an interface, with its time.
pub(crate) fn read_enhanced(
    interfaces: &[Option<Interface>; INTERFACES],
    big: bool,
    inner: &[u8],
) -> Result<Step, FileFault>
    requires { length inner.now ≤ 2 ^ 32 }
    // Too few bytes, or a frame beyond the block, are a fault, and an interface that is not described. Otherwise the
    // frame starts at byte 20 (`packet_step`).
    ensures step { result ≡ packet_step interfaces.now big inner.now }
    // The frame of an enhanced packet is within the `inner` bytes.
    ensures within { IfOk result (λ step. IsWithinBlock inner.now step.event) }
{
    let Some(number) = long(big, inner, 0) else {
        return Err(FileFault::Length);
    };
    let Some(high) = long(big, inner, 4) else {
        return Err(FileFault::Length);
    };
    let Some(low) = long(big, inner, 8) else {
        return Err(FileFault::Length);
    };
    let Some(size) = long(big, inner, 12) else {
        return Err(FileFault::Length);
    };
    let Some(original) = long(big, inner, 16) else {
        return Err(FileFault::Length);
    };
    frame_of(
        described_at(interfaces, number),
        big,
        Stamp { high, low },
        size,
        original,
        inner.len() - 20,
    )
}

/// A time in units of an interface, in two halves.
#[derive(Clone, Copy, Debug, PartialEq, Eq)]
pub(crate) struct Stamp {
    /// The upper half.
    pub high: u32,
    /// The lower half.
    pub low: u32,
}

/// Returns the frame of a packet with these fields, of which the block has `room` bytes from byte 20 on.
fn frame_of(
    interface: Option<Interface>,
    big: bool,
    stamp: Stamp,
    size: u32,
    original: u32,
    room: usize,
) -> Result<Step, FileFault>
    requires { room ≤ 2 ^ 32 }
    // A frame beyond its block is `Length`. Without an `interface` the fault is `Interface`. Otherwise the frame
    // starts at byte 20, at its time with the offset of the interface (`frame_for`).
    ensures step { result ≡ frame_for interface big stamp.high stamp.low size original room }
    // The frame is within the first 20 bytes and the `room`.
    ensures within { IfOk result (λ step. IsWithin (room + 20) step.event) }
{
    if size as usize > room {
        return Err(FileFault::Length);
    }
    match interface {
        None => Err(FileFault::Interface),
        Some(interface) => Ok(Step {
            part: FilePart::Block(big),
            event: BlockContent::Frame(BlockFrame {
                link: interface.link,
                time: shift(
                    interface.offset,
                    micros(interface.resolution, stamp.high, stamp.low),
                ),
                start: 20,
                end: 20 + size as usize,
                whole: original <= size,
            }),
            change: Change::Keep,
        }),
    }
}

/// Reads an obsolete packet block: the frame of an interface, with its time, and how many were lost before it.
pub(crate) fn obsolete(
    interfaces: &[Option<Interface>; INTERFACES],
    big: bool,
    inner: &[u8],
) -> Result<Step, FileFault>
    requires { length inner.now ≤ 2 ^ 32 }
    // Too few bytes, or a frame beyond the block, are a fault, and an interface that is not described. Otherwise the
    // frame starts at byte 20, as in an enhanced packet (`obsolete_step`).
    ensures step { result ≡ obsolete_step interfaces.now big inner.now }
    // The frame of an obsolete packet is within the `inner` bytes.
    ensures within { IfOk result (λ step. IsWithinBlock inner.now step.event) }
{
    let Some(number) = short(big, inner, 0) else {
        return Err(FileFault::Length);
    };
    let Some(high) = long(big, inner, 4) else {
        return Err(FileFault::Length);
    };
    let Some(low) = long(big, inner, 8) else {
        return Err(FileFault::Length);
    };
    let Some(size) = long(big, inner, 12) else {
        return Err(FileFault::Length);
    };
    let Some(original) = long(big, inner, 16) else {
        return Err(FileFault::Length);
    };
    frame_of(
        described_at(interfaces, number as u32),
        big,
        Stamp { high, low },
        size,
        original,
        inner.len() - 20,
    )
}

/// Reads a simple packet block: a frame of the first interface, without a time.
pub(crate) fn simple(
    interfaces: &[Option<Interface>; INTERFACES],
    last: u64,
    big: bool,
    inner: &[u8],
) -> Result<Step, FileFault>
    requires { length inner.now ≤ 2 ^ 32 }
    // Too few bytes for the size are `Length`; without an interface the fault is `Interface`. Otherwise the frame
    // starts at byte 4 and has the time `last` (`simple_step`).
    ensures step { result ≡ simple_step interfaces.now last big inner.now }
    // The frame of a simple packet is within the `inner` bytes.
    ensures within { IfOk result (λ step. IsWithinBlock inner.now step.event) }
{
    let Some(original) = long(big, inner, 0) else {
        return Err(FileFault::Length);
    };
    match described_at(interfaces, 0) {
        None => Err(FileFault::Interface),
        Some(interface) => {
            let size = size_kept(interface.limit, original, inner.len() - 4);
            Ok(Step {
                part: FilePart::Block(big),
                event: BlockContent::Frame(BlockFrame {
                    link: interface.link,
                    time: last,
                    start: 4,
                    end: 4 + size,
                    whole: original as usize <= size,
                }),
                change: Change::Keep,
            })
        }
    }
}

/// Returns how many bytes of a simple packet are in its block.
fn size_kept(limit: u32, original: u32, room: usize) -> usize
    // The size is the least of the original size, the `limit` if it is not 0, and the `room` of the block.
    ensures size { result ≡ simple_size limit original room }
    // The size is at most the `room`.
    ensures bound { result ≤ room }
{
    if limit == 0 {
        room.min(original as usize)
    } else {
        room.min((original as usize).min(limit as usize))
    }
}

/// Returns the interface with this number.
fn described_at(interfaces: &[Option<Interface>; INTERFACES], number: u32) -> Option<Interface>
    ensures { result ≡ interface_at interfaces.now number }
{
    let place = number as usize;
    if place < INTERFACES {
        return interfaces[place];
    }
    None
}
