//! The blocks of a recording: classic pcap, and pcapng (draft-ietf-opsawg-pcap, draft-ietf-opsawg-pcapng).
//!
//! The caller reads as many bytes as `wants` returns, and hands them to `take`. After a fault a recording cannot go
//! on, since the place of the next block is unknown.
//!
//! pcap files may have either byte order and either unit of time. Of pcapng, section headers, interfaces and packets
//! (enhanced, simple, and the obsolete block) are read; other blocks are skipped, however long they are. A simple
//! packet has no time: it gets that of the frame before it.

ghost use Rattle.std.specs.Prelude.{◌≡◌, ◌<◌, ◌≤◌, ◌+◌, ◌^◌, length, IfOk, IfSome};
ghost use Rattle.capture.specs.Recordings.{IsWithinBlock, at_first_free, block_step, body_step, cut_step, event_of, recording_after, head_of_section, head_step, interface_step, interfaces_after, is_read, last_after, long_block, micros_of, new_recording, order_step, part_after, record_step, section_step, size_step, sized_block, skip_step, start_step, step_of, text_step, next_size};

use crate::frame::Link;
use crate::interfaces::{Interface, is_readable, offset, resolution};
use crate::packets::{obsolete, read_enhanced, simple};
use crate::places::{big, four, long, short};

/// Largest block that is read, in bytes. Recorders cut frames at 262,144.
pub const BLOCK_MAX: u32 = 524_288;

/// How many bytes of a block that is not read are skipped at once.
pub const SKIPPED_AT_ONCE: u32 = 65_536;

/// Largest number of interfaces in a section of a pcapng file.
pub const INTERFACES: usize = 64;

/// The form of a pcap file, the same for all its records.
#[derive(Clone, Copy, Debug, PartialEq, Eq)]
pub struct FileForm {
    /// The most significant byte of a number comes first.
    pub big: bool,
    /// Times are in nanoseconds, not microseconds.
    pub nanos: bool,
}

/// What comes next in a recording.
#[derive(Clone, Copy, Debug, PartialEq, Eq)]
pub enum FilePart {
    /// The first four bytes.
    Start,
    /// The rest of the header of a pcap file.
    Head(FileForm),
    /// The header of a pcap record.
    Record(FileForm, Option<Link>),
    /// The frame of a pcap record, with its time and size, and `true` if it is complete.
    Body(FileForm, Option<Link>, u64, u32, bool),
    /// The length of a pcapng section header.
    Section,
    /// The byte order mark of a section, after its length.
    Order([u8; 4]),
    /// The rest of a section header, with its byte order (`true`: big-endian) and its length.
    Opening(bool, u32),
    /// The type and length of a pcapng block, with the byte order.
    Block(bool),
    /// The rest of a block, with the byte order, its type and its length.
    Rest(bool, u32, u32),
    /// More of a block that is not read, with the byte order, how many bytes of its content are left, and its length.
    Skipped(bool, u32, u32),
}

/// A frame in the bytes of its block.
#[derive(Clone, Copy, Debug, PartialEq, Eq)]
pub struct BlockFrame {
    /// Its link header, if it is known here.
    pub link: Option<Link>,
    /// When it was recorded, in whole microseconds since 1970; of a frame without a time, that of the one before it.
    pub time: u64,
    /// The place of its first byte in the block.
    pub start: usize,
    /// The place after its last byte.
    pub end: usize,
    /// Nothing of it was cut off.
    pub whole: bool,
}

/// The content of a block.
#[derive(Clone, Copy, Debug, PartialEq, Eq)]
pub enum BlockContent {
    /// No frame.
    Nothing,
    /// The file is not a recording; it may be a text.
    Text,
    /// A frame.
    Frame(BlockFrame),
}

/// Why a file is not a recording, or cannot go on as one.
#[derive(Clone, Copy, Debug, PartialEq, Eq)]
pub enum FileFault {
    /// Its version is not known here.
    Version,
    /// A length is too small for its block or frame, not a multiple of four, or above `BLOCK_MAX`.
    Length,
    /// A section has neither byte order mark.
    Order,
    /// The length after a block differs from the one before it.
    Trailer,
    /// A frame is of an interface that is not described.
    Interface,
    /// The unit of an interface's times is not one of 10^0 to 10^-19 and 2^0 to 2^-40 seconds.
    Resolution,
    /// There are more than `INTERFACES` interfaces.
    Interfaces,
}

/// What a block changes in the known interfaces.
#[derive(Clone, Copy, Debug, PartialEq, Eq)]
pub(crate) enum Change {
    /// Nothing.
    Keep,
    /// A section starts: no interface is known.
    Clear,
    /// One more is known.
    Add(Interface),
}

/// The step that a block makes.
#[derive(Clone, Copy, Debug, PartialEq, Eq)]
pub(crate) struct Step {
    /// What comes next.
    pub part: FilePart,
    /// The content of the block.
    pub event: BlockContent,
    /// The change of the interfaces.
    pub change: Change,
}

/// The state of a recording that is read block by block.
#[derive(Clone, Copy, Debug, PartialEq, Eq)]
pub struct Recording {
    /// What comes next.
    pub part: FilePart,
    /// The interfaces of the section, in order.
    pub interfaces: [Option<Interface>; INTERFACES],
    /// The time of the last frame, in microseconds; 0 before the first.
    pub last: u64,
}

impl Recording {
    /// Returns the state before the first block.
    pub fn new() -> Self
        // The new recording starts with the first four bytes, and knows no interface.
        ensures { result ≡ new_recording }
    {
        Recording {
            part: FilePart::Start,
            interfaces: [None; INTERFACES],
            last: 0,
        }
    }

    /// Returns how many bytes the next block has.
    pub fn wants(&self) -> u32
        // The size is that of the part that comes next (`next_size`): fixed, or from a length that was read before.
        ensures { result ≡ next_size self.now.part }
    {
        match self.part {
            FilePart::Start | FilePart::Section | FilePart::Order(_) => 4,
            FilePart::Head(_) => 20,
            FilePart::Record(_, _) => 16,
            FilePart::Body(_, _, _, size, _) => size,
            FilePart::Opening(_, size) => size.saturating_sub(12),
            FilePart::Block(_) => 8,
            FilePart::Rest(_, _, size) => size.saturating_sub(8),
            FilePart::Skipped(_, left, _) => {
                if left == 0 {
                    4
                } else {
                    left.min(SKIPPED_AT_ONCE)
                }
            }
        }
    }

    /// Takes the next block and returns its content. `octets` may contain any bytes.
    /// ///
    /// /// # Errors
    /// ///
    /// /// Returns the first fault of the block; the recording is then unchanged. Which of them are possible depends
    /// on the block:
    /// ///
    /// /// - `Length` if there are too few bytes, or a length does not fit;
    /// /// - `Version` if the version of the file or section is not known;
    /// /// - `Order` if a section has neither byte order mark;
    /// /// - `Trailer` if the length after a block differs;
    /// /// - `Resolution` or `Interfaces` if an interface cannot be read, or there are too many;
    /// /// - `Interface` if a frame is of an interface that is not described.
    pub fn take(&mut self, octets: &[u8]) -> Result<BlockContent, FileFault>
        requires { length octets.now ≤ 2 ^ 32 }
        // The content is that of the step (`step_of`) that the next part makes with these bytes, or its first fault.
        ensures event { result ≡ event_of (step_of self.old octets.now) }
        // After a block, the next part, the interfaces and the last time are those of the step; after a fault nothing
        // has changed (`recording_after`).
        ensures next { self.new ≡ recording_after self.old (step_of self.old octets.now) }
        // A frame is within the bytes of its block, and its start is not after its end.
        ensures within { IfOk result (IsWithinBlock octets.now) }
    {
        match take_step(self, octets) {
            Ok(step) => {
                self.part = step.part;
                apply(&mut self.interfaces, step.change);
                self.last = time_after(self.last, &step.event);
                Ok(step.event)
            }
            Err(fault) => Err(fault),
        }
    }
}

/// Reads the next block.
fn take_step(recording: &Recording, octets: &[u8]) -> Result<Step, FileFault>
    requires { length octets.now ≤ 2 ^ 32 }
    // The step is that of the part that comes next, read with its own definition (`step_at`).
    ensures step { result ≡ step_of recording.now octets.now }
    // A frame of this step is within its block.
    ensures within { IfOk result (λ step. IsWithinBlock octets.now step.event) }
{
    match recording.part {
        FilePart::Start => Ok(start(octets)),
        FilePart::Head(form) => head(form, octets),
        FilePart::Record(form, link) => record_head(form, link, octets),
        FilePart::Body(form, link, time, size, whole) => Ok(body(
            form, link, time, size, whole, octets,
        )),
        FilePart::Section => section(octets),
        FilePart::Order(size) => order(&size, octets),
        FilePart::Opening(big, size) => opening(big, size, octets),
        FilePart::Block(big) => block(big, octets),
        FilePart::Rest(big, kind, size) => rest(recording, big, kind, size, octets),
        FilePart::Skipped(big, left, size) => skip(big, left, size, octets),
    }
}

/// Returns the time of the last frame after a block.
fn time_after(last: u64, event: &BlockContent) -> u64
    ensures { result ≡ last_after last event.now }
{
    match event {
        BlockContent::Frame(framed) => framed.time,
        BlockContent::Nothing | BlockContent::Text => last,
    }
}

/// Returns a step to another part, without content.
fn on_to(part: FilePart) -> Step
    ensures { result ≡ part_after part }
{
    Step {
        part,
        event: BlockContent::Nothing,
        change: Change::Keep,
    }
}

/// Reads the first four bytes: the form of a pcap file, a pcapng section, or a text.
fn start(octets: &[u8]) -> Step
    // Four magic numbers name byte order and unit of a pcap file, one starts a section; anything else is a text
    // (`start_with`).
    ensures step { result ≡ start_step octets.now }
    // The first four bytes contain no frame.
    ensures within { IsWithinBlock octets.now result.event }
{
    let Some(first) = long(true, octets, 0) else {
        return text();
    };
    match first {
        0xa1b2_c3d4 => on_to(FilePart::Head(FileForm {
            big: true,
            nanos: false,
        })),
        0xa1b2_3c4d => on_to(FilePart::Head(FileForm {
            big: true,
            nanos: true,
        })),
        0xd4c3_b2a1 => on_to(FilePart::Head(FileForm {
            big: false,
            nanos: false,
        })),
        0x4d3c_b2a1 => on_to(FilePart::Head(FileForm {
            big: false,
            nanos: true,
        })),
        SECTION => on_to(FilePart::Section),
        _ => text(),
    }
}

/// The type of the block that starts a pcapng section, the same in either byte order.
const SECTION: u32 = 0x0a0d_0d0a;

/// Returns the step of a file that is not a recording.
fn text() -> Step
    ensures { result ≡ text_step }
{
    Step {
        part: FilePart::Start,
        event: BlockContent::Text,
        change: Change::Keep,
    }
}

/// Reads the rest of a pcap header: version 2, and the link header of all frames.
fn head(form: FileForm, octets: &[u8]) -> Result<Step, FileFault>
    // Too few bytes are `Length`, another version than 2 is `Version`. Otherwise records follow, with the link of the
    // number's lower 16 bits (`head_with`).
    ensures step { result ≡ head_step form octets.now }
    // The header of a pcap file contains no frame.
    ensures within { IfOk result (λ step. IsWithinBlock octets.now step.event) }
{
    let Some(version) = short(form.big, octets, 0) else {
        return Err(FileFault::Length);
    };
    let Some(network) = long(form.big, octets, 16) else {
        return Err(FileFault::Length);
    };
    if version != 2 {
        return Err(FileFault::Version);
    }
    Ok(on_to(FilePart::Record(form, Link::of_number(network % 0x1_0000))))
}

/// Reads the header of a pcap record: its time, the recorded size of the frame, and its original size.
fn record_head(form: FileForm, link: Option<Link>, octets: &[u8]) -> Result<Step, FileFault>
    // Too few bytes, or a size above `BLOCK_MAX`, are `Length`. Otherwise the frame follows; it is complete if its
    // original size is not larger (`record_with`).
    ensures step { result ≡ record_step form link octets.now }
    // The header of a record contains no frame.
    ensures within { IfOk result (λ step. IsWithinBlock octets.now step.event) }
{
    let Some(seconds) = long(form.big, octets, 0) else {
        return Err(FileFault::Length);
    };
    let Some(part) = long(form.big, octets, 4) else {
        return Err(FileFault::Length);
    };
    let Some(size) = long(form.big, octets, 8) else {
        return Err(FileFault::Length);
    };
    let Some(original) = long(form.big, octets, 12) else {
        return Err(FileFault::Length);
    };
    if size > BLOCK_MAX {
        return Err(FileFault::Length);
    }
    let time = moment(form.nanos, seconds, part);
    Ok(on_to(FilePart::Body(form, link, time, size, original <= size)))
}

/// Returns whole microseconds from seconds and a fraction.
fn moment(nanos: bool, seconds: u32, part: u32) -> u64
    ensures { result ≡ micros_of nanos seconds part }
{
    let part = if nanos { part / 1000 } else { part };
    seconds as u64 * 1_000_000 + part as u64
}

/// Returns the frame of a pcap record.
fn body(
    form: FileForm,
    link: Option<Link>,
    time: u64,
    size: u32,
    whole: bool,
    octets: &[u8],
) -> Step
    // The frame is all of the bytes, at most `size`, with the time and link that were read before; another record
    // follows.
    ensures step { result ≡ body_step form link time size whole octets.now }
    // The frame of a record ends within the bytes that were handed over.
    ensures within { IsWithinBlock octets.now result.event }
{
    let end = octets.len().min(size as usize);
    Step {
        part: FilePart::Record(form, link),
        event: BlockContent::Frame(BlockFrame {
            link,
            time,
            start: 0,
            end,
            whole,
        }),
        change: Change::Keep,
    }
}

/// Reads the length of a section header; the byte order is not known yet.
fn section(octets: &[u8]) -> Result<Step, FileFault>
    // The four bytes are kept as they are for the byte order mark that follows; fewer are `Length`.
    ensures step { result ≡ section_step octets.now }
    // The length of a section contains no frame.
    ensures within { IfOk result (λ step. IsWithinBlock octets.now step.event) }
{
    match four(octets, 0) {
        Some(size) => Ok(on_to(FilePart::Order(size))),
        None => Err(FileFault::Length),
    }
}

/// Reads the byte order mark of a section, then the length in that order.
fn order(size: &[u8; 4], octets: &[u8]) -> Result<Step, FileFault>
    // The mark must be 0x1a2b3c4d in one of the two orders, otherwise the fault is `Order`.
    ensures step { result ≡ order_step size.now octets.now }
    // The byte order mark contains no frame.
    ensures within { IfOk result (λ step. IsWithinBlock octets.now step.event) }
{
    match long(true, octets, 0) {
        Some(0x1a2b_3c4d) => read_section_size(true, size),
        Some(0x4d3c_2b1a) => read_section_size(false, size),
        _ => Err(FileFault::Order),
    }
}

/// Checks the length of a section header.
fn read_section_size(big: bool, size: &[u8; 4]) -> Result<Step, FileFault>
    // The length must be that of a block of at least 28 bytes, otherwise the fault is `Length`; the rest of the
    // header follows.
    ensures step { result ≡ size_step big size.now }
    // A step to the rest of a section has no content.
    ensures within { IfOk result (λ step. step.event ≡ BlockContent.Nothing) }
{
    match long(big, size, 0) {
        Some(size) => {
            if is_sized(28, size) {
                Ok(on_to(FilePart::Opening(big, size)))
            } else {
                Err(FileFault::Length)
            }
        }
        None => Err(FileFault::Length),
    }
}

/// Returns `true` if a block may have this length.
fn is_sized(least: u32, size: u32) -> bool
    ensures { result ≡ sized_block least size }
{
    least <= size && size <= BLOCK_MAX && size % 4 == 0
}

/// Reads the rest of a section header: version 1, options, and the length again.
fn opening(big: bool, size: u32, octets: &[u8]) -> Result<Step, FileFault>
    // The length at the end is checked first (`Trailer`), then the version (`Version`); blocks follow, and no
    // interface is known.
    ensures step { result ≡ head_of_section big size octets.now }
    // The header of a section contains no frame.
    ensures within { IfOk result (λ step. IsWithinBlock octets.now step.event) }
{
    if long(big, octets, size.saturating_sub(16) as usize) != Some(size) {
        return Err(FileFault::Trailer);
    }
    if short(big, octets, 0) != Some(1) {
        return Err(FileFault::Version);
    }
    Ok(Step {
        part: FilePart::Block(big),
        event: BlockContent::Nothing,
        change: Change::Clear,
    })
}

/// Reads the type and length of a block. The length of a section header is kept as bytes, since the section has its
/// own byte order.
fn block(big: bool, octets: &[u8]) -> Result<Step, FileFault>
    // A section's type leads to its byte order mark. A block that is read must have a length from 12 to `BLOCK_MAX`,
    // any other only one of at least 12 (`Length`); its rest follows (`block_with`).
    ensures step { result ≡ block_step big octets.now }
    // The head of a block contains no frame.
    ensures within { IfOk result (λ step. IsWithinBlock octets.now step.event) }
{
    let Some(kind) = long(big, octets, 0) else {
        return Err(FileFault::Length);
    };
    let Some(raw) = four(octets, 4) else {
        return Err(FileFault::Length);
    };
    let Some(size) = long(big, octets, 4) else {
        return Err(FileFault::Length);
    };
    if kind == SECTION {
        return Ok(on_to(FilePart::Order(raw)));
    }
    if !has_content(kind) {
        if !is_long_enough(size) {
            return Err(FileFault::Length);
        }
        return Ok(on_to(FilePart::Skipped(big, size.saturating_sub(12), size)));
    }
    if !is_sized(12, size) {
        return Err(FileFault::Length);
    }
    Ok(on_to(FilePart::Rest(big, kind, size)))
}

/// Returns `true` for the types of blocks that are read.
fn has_content(kind: u32) -> bool
    ensures { result ≡ is_read kind }
{
    kind == 1 || kind == 2 || kind == 3 || kind == 6
}

/// Returns `true` if a block that is not read may have this length.
fn is_long_enough(size: u32) -> bool
    ensures { result ≡ long_block size }
{
    12 <= size && size % 4 == 0
}

/// Skips more of a block that is not read, or checks the length after it.
fn skip(big: bool, left: u32, size: u32, octets: &[u8]) -> Result<Step, FileFault>
    // As long as bytes are left, fewer are left afterwards. Then the length at the end must be the same (`Trailer`),
    // and the next block follows (`skip_step`).
    ensures step { result ≡ skip_step big left size octets.now }
    // A block that is not read contains no frame.
    ensures within { IfOk result (λ step. IsWithinBlock octets.now step.event) }
{
    if left != 0 {
        let left = left.saturating_sub(SKIPPED_AT_ONCE);
        return Ok(on_to(FilePart::Skipped(big, left, size)));
    }
    if long(big, octets, 0) != Some(size) {
        return Err(FileFault::Trailer);
    }
    Ok(on_to(FilePart::Block(big)))
}

/// Reads the rest of a block: its content, and the length again.
fn rest(
    recording: &Recording,
    big: bool,
    kind: u32,
    size: u32,
    octets: &[u8],
) -> Result<Step, FileFault>
    requires { length octets.now ≤ 2 ^ 32 }
    // The length at the end must be the same (`Trailer`). An interface and the packets are read by their own
    // definitions (`inner_step`).
    ensures step { result ≡ cut_step recording.now big kind size octets.now }
    // A frame in the rest of a block is within it.
    ensures within { IfOk result (λ step. IsWithinBlock octets.now step.event) }
{
    let end = size.saturating_sub(12) as usize;
    if long(big, octets, end) != Some(size) || end > octets.len() {
        return Err(FileFault::Trailer);
    }
    let (inner, _) = octets.split_at(end);
    match kind {
        1 => describe(&recording.interfaces, big, inner),
        2 => obsolete(&recording.interfaces, big, inner),
        3 => simple(&recording.interfaces, recording.last, big, inner),
        6 => read_enhanced(&recording.interfaces, big, inner),
        _ => Ok(on_to(FilePart::Block(big))),
    }
}

/// Reads the description of an interface: its link header, its limit, and the unit and offset of its times.
fn describe(
    interfaces: &[Option<Interface>; INTERFACES],
    big: bool,
    inner: &[u8],
) -> Result<Step, FileFault>
    // Fewer than 8 bytes are `Length`, an unreadable unit is `Resolution`, a 65th interface is `Interfaces`; otherwise
    // it is added (`interface_with`).
    ensures step { result ≡ interface_step interfaces.now big inner.now }
    // The description of an interface has no content.
    ensures within { IfOk result (λ step. step.event ≡ BlockContent.Nothing) }
{
    let Some(link) = short(big, inner, 0) else {
        return Err(FileFault::Length);
    };
    let Some(limit) = long(big, inner, 4) else {
        return Err(FileFault::Length);
    };
    let unit = resolution(big, inner);
    if !is_readable(unit) {
        return Err(FileFault::Resolution);
    }
    if first_free(interfaces).is_none() {
        return Err(FileFault::Interfaces);
    }
    Ok(Step {
        part: FilePart::Block(big),
        event: BlockContent::Nothing,
        change: Change::Add(Interface {
            link: Link::of_number(link as u32),
            resolution: unit,
            offset: offset(big, inner),
            limit,
        }),
    })
}

/// Returns the first place without an interface.
fn first_free(interfaces: &[Option<Interface>; INTERFACES]) -> Option<usize>
    // The result is the first empty place, or `None` if all are in use.
    ensures value { result ≡ at_first_free interfaces.now }
    // The place is within the list, so that the interface can be added there.
    ensures bound { IfSome result (λ place. place < INTERFACES) }
{
    interfaces.iter().position(|interface| interface.is_none())
}

/// Applies a change to the interfaces.
fn apply(interfaces: &mut [Option<Interface>; INTERFACES], change: Change)
    ensures { interfaces.new ≡ interfaces_after interfaces.old change }
{
    match change {
        Change::Keep => {}
        Change::Clear => *interfaces = [None; INTERFACES],
        Change::Add(interface) => {
            if let Some(place) = first_free(interfaces) {
                interfaces[place] = Some(interface);
            }
        }
    }
}
