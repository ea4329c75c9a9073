//! A recording that is read datagram by datagram.

ghost use Rattle.std.specs.Prelude.{◌<◌, ◌≤◌, ◌^◌, length};

use crate::counts::{Content, Counts};
use crate::pairing::Arrival;
use crate::sites::{Extent, extend};
use capture::{
    BlockContent, BlockFrame, NoDatagramCause, Ports, Record, Recording, find_datagram,
    is_followed, spell,
};
use capture_text::{FrameFault, Stop, is_whole, name_of_file_fault, read_whole, write_frame_fault};
use std::alloc::Global;
use std::io::{BufReader, Read, Write};

/// A recording that is read.
#[derive(Drop)]
pub(crate) struct OpenRecording<'a> {
    /// The name of its file.
    pub name: &'a str,
    /// What is known of its blocks.
    pub recording: Recording,
    /// What was read.
    pub counts: Counts,
    /// When the frames so far were recorded.
    pub extent: Option<Extent>,
    /// The next datagram; `None` after the last one.
    pub next: Option<Arrival>,
    /// It has ended, or cannot go on.
    pub is_over: bool,
}

/// A recording with its reader.
#[derive(Drop)]
pub(crate) struct Source<'a, R: Read + Drop> {
    /// The reader of its bytes.
    pub reader: BufReader<R, Global>,
    /// What was read.
    pub reading: OpenRecording<'a>,
}

impl<'a> OpenRecording<'a> {
    /// Returns a recording of which nothing was read.
    pub fn new(name: &'a str) -> Self {
        OpenRecording {
            name,
            recording: Recording::new(),
            counts: Counts::new(),
            extent: None,
            next: None,
            is_over: false,
        }
    }
}

/// Reads a recording up to its next datagram that is paired. `block` is the room for its blocks.
pub(crate) fn read_next<R: Read + Drop, E: Write>(
    source: &mut Source<'_, R>,
    block: &mut Vec<u8>,
    ports: &Option<Ports>,
    err: &mut E,
) -> Result<(), Stop> {
    let reading = &mut source.reading;
    reading.next = None;
    for _ in 0..u64::MAX {
        if reading.is_over {
            return Ok(());
        }
        let wanted = reading.recording.wants() as usize;
        block.resize(wanted, 0).map_err(|_| Stop::Memory)?;
        let size = read_whole(&mut source.reader, block.as_mut_slice())?;
        if size < wanted {
            return end(reading, size, err);
        }
        let goes_on = take_block(reading, block.as_slice(), ports, err)?;
        if !goes_on {
            return Ok(());
        }
    }
    Ok(())
}

/// Takes a block, and returns whether the reading goes on: there is no fault, and no datagram is next.
fn take_block<E: Write>(
    reading: &mut OpenRecording<'_>,
    block: &[u8],
    ports: &Option<Ports>,
    err: &mut E,
) -> Result<bool, Stop>
    requires { length block.now < 2 ^ 32 }
{
    match reading.recording.take(block) {
        Ok(BlockContent::Frame(framed)) => {
            take_frame(reading, &framed, block, ports, err)?;
            Ok(reading.next.is_none())
        }
        Ok(BlockContent::Nothing | BlockContent::Text) => Ok(true),
        Err(fault) => {
            break_off(reading, name_of_file_fault(fault), err)?;
            Ok(false)
        }
    }
}

/// Ends a recording when too few bytes came for the next block. Within a block that is reported.
fn end<E: Write>(reading: &mut OpenRecording<'_>, size: usize, err: &mut E) -> Result<(), Stop> {
    reading.is_over = true;
    if is_whole(reading.recording.part, size) {
        return Ok(());
    }
    break_off(reading, "it ends within a block", err)
}

/// Reports why a recording cannot go on. What was read of it stays.
pub(crate) fn break_off<E: Write>(
    reading: &mut OpenRecording<'_>,
    why: &str,
    err: &mut E,
) -> Result<(), Stop> {
    reading.is_over = true;
    reading.counts.unreadable = reading.counts.unreadable.saturating_add(1);
    let name = reading.name.escape_debug();
    let frames = reading.counts.frames;
    match writeln!(
        err,
        "{name}: recording: unreadable behind frame {frames}: {why}"
    ) {
        Ok(()) => Ok(()),
        Err(_) => Err(Stop::Output),
    }
}

/// Counts a frame, and keeps its datagram as the next one if it is paired.
fn take_frame<E: Write>(
    reading: &mut OpenRecording<'_>,
    framed: &BlockFrame,
    block: &[u8],
    ports: &Option<Ports>,
    err: &mut E,
) -> Result<(), Stop>
    requires order { framed.now.start ≤ framed.now.end }
    requires within { framed.now.end ≤ length block.now }
    requires size { length block.now < 2 ^ 32 }
{
    reading.extent = Some(extend(reading.extent, framed.time));
    let content = look(framed, &block[framed.start..framed.end], ports);
    reading.next = datagram_in(content);
    reading.counts.add(&content);
    match content {
        Content::Unread(fault) => report_frame(reading.name, reading.counts.frames, fault, err),
        Content::Datagram(_) | Content::Strange | Content::Other => Ok(()),
    }
}

/// Returns the datagram of a frame that is paired.
fn datagram_in(content: Content) -> Option<Arrival> {
    match content {
        Content::Datagram(arrival) => Some(arrival),
        Content::Strange | Content::Other | Content::Unread(_) => None,
    }
}

/// Writes the fault of a frame, with the name of its file.
fn report_frame<E: Write>(
    name: &str,
    number: u64,
    fault: FrameFault,
    err: &mut E,
) -> Result<(), Stop> {
    let name = name.escape_debug();
    if write!(err, "{name}: ").is_err() {
        return Err(Stop::Output);
    }
    match write_frame_fault(err, number, fault) {
        Ok(()) => Ok(()),
        Err(_) => Err(Stop::Output),
    }
}

/// Finds the datagram of a frame.
fn look(framed: &BlockFrame, octets: &[u8], ports: &Option<Ports>) -> Content
    requires { length octets.now < 2 ^ 32 }
{
    let Some(link) = framed.link else {
        return Content::Unread(FrameFault::Link);
    };
    match find_datagram(link, octets) {
        Ok(found) => {
            let record = Record {
                time: framed.time,
                source: found.source,
                destination: found.destination,
                size: found.end - found.start,
            };
            choose(&record, &octets[found.start..found.end], ports)
        }
        Err(NoDatagramCause::NoIp | NoDatagramCause::NoUdp | NoDatagramCause::Tunnel) =>
            Content::Other,
        Err(NoDatagramCause::Truncated) => Content::Unread(FrameFault::Truncated),
        Err(NoDatagramCause::Fragment) => Content::Unread(FrameFault::Fragment),
        Err(NoDatagramCause::Length) => Content::Unread(FrameFault::Length),
    }
}

/// Returns a datagram if it is paired: if a port is chosen and it is a redundancy PDU.
fn choose(record: &Record, payload: &[u8], ports: &Option<Ports>) -> Content {
    if !is_followed(ports, record) {
        return Content::Other;
    }
    match red_layer::pdu::decode(payload) {
        Ok(_) => Content::Datagram(Arrival {
            source: record.source,
            destination: record.destination,
            fingerprint: spell(payload),
            time: record.time,
        }),
        Err(_) => Content::Strange,
    }
}
