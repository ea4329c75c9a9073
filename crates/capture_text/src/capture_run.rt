//! A run over a capture, from a reader to its end.
//!
//! The lines of a text are followed to their end by contract; a whole run is only tested, since std does not say what
//! the reader under a `Take` holds afterwards. No clause says when a run stops with a fault. `tests/compare/compare_follow`
//! has a capture of 200,000 lines.

ghost use Rattle.std.specs.Prelude.{◌≡◌, ◌≤◌, ◌<◌, ◌^◌, [], length, is_ok, OnOk, IfErr, IfOk, IfSome, vec_len};
ghost use Rattle.std.specs.Io.Buffered.{reader_remaining};
ghost use Rattle.std.specs.Io.BufRead.{DropsThrough, take_through};
ghost use Rattle.std.specs.Io.KnownBytes.{Appends};
ghost use Rattle.std.specs.IoError.{error_kind};
ghost use Rattle.capture.specs.Numbers.{limited_sum};
ghost use Rattle.capture.specs.Recordings.{event_of, recording_after, step_of};
ghost use Rattle.capture_text.specs.Capture.{block_printed, block_fault, break_off, end_fault, end_at, frame_printed, frame_fault, is_whole_at, line_printed, line_fault, lines_printed, lines_faults, state_of, readable_line_printed, frame_and_sums_printed, sums_printed, text_printed, text_fault, with_block, with_frame, with_line, with_lines, with_long, with_read, with_sums, with_text};
ghost use Rattle.capture_text.specs.FaultText.{all_miscoded, fault_text, faults_in, file_fault_word, foreign_of, foreign_word, forgotten_line, frame_text, has_front, miscoded_text, miscoded_line, recording_text};
ghost use Rattle.capture_text.specs.FrameSteps.{payload_at};
ghost use Rattle.capture_text.specs.Lines.{cut_line, lines_of};
ghost use Rattle.capture_text.specs.Steps.{without_end};
ghost use Rattle.capture_text.specs.Stops.{output_stop, status_of};

use crate::course::{CaptureReading, FollowOptions, write_fault};
use crate::frames::{FrameFault, write_frame_fault};
use crate::line_reader::{LINE_MAX, take_line};
use capture::{
    BlockContent, BlockFrame, Buffer, Entry, FileFault, FilePart, LineFault, PAYLOAD_ROOM,
    Recording,
};
use std::alloc::{Allocator, Global};
use std::io;
use std::io::{BufRead, BufReader, BufWriter, ErrorKind, Read, Write};

/// How a run ended.
#[derive(Clone, Copy, Debug, PartialEq, Eq)]
pub enum FollowStatus {
    /// Every line was a datagram.
    Done,
    /// A line was not a datagram, a recording could not go on, a connection was forgotten, or all datagrams have
    /// another safety code; each was reported.
    Unreadable,
    /// An allocation failed.
    Memory,
    /// The reader failed.
    File,
    /// Nobody reads standard output any more: its reader has closed it.
    Unread,
    /// An output failed.
    Output,
}

/// The form of a file that is not followed.
#[derive(Clone, Copy, Debug, PartialEq, Eq)]
pub enum ForeignForm {
    /// Compressed by gzip.
    Gzip,
    /// Compressed by zstd.
    Zstd,
    /// A recording of snoop.
    Snoop,
    /// A modified pcap, whose records have more fields.
    ModifiedPcap,
}

/// Why a run stops early.
#[derive(Clone, Copy, Debug, PartialEq, Eq)]
pub enum Stop {
    /// An allocation failed.
    Memory,
    /// The reader failed.
    File,
    /// Nobody reads standard output any more.
    Unread,
    /// An output failed.
    Output,
}

/// Follows the capture in a reader: a recording (pcap or pcapng) if its first bytes are those of one, otherwise lines
/// of text.
///
/// The lines of datagrams and the sums go to `out`, faults of lines and frames to `err`. Everything is written before
/// the reader waits for more. If the run stops early, the caller reports why.
pub fn run<R: Read + Drop, O: Write, E: Write>(
    alloc: Global,
    reader: R,
    asked: &FollowOptions,
    out: &mut O,
    err: &mut E,
) -> FollowStatus {
    status_after(follow_input(alloc, reader, asked, out, err))
}

/// Returns how a run ended that had this number of faults, or stopped early.
pub fn status_after(ended: Result<u64, Stop>) -> FollowStatus
    // A run without a fault is `Done`, one with faults `Unreadable`; one that stopped has the status of its stop
    // (`status_of`).
    ensures { result ≡ status_of ended }
{
    match ended {
        Ok(0) => FollowStatus::Done,
        Ok(_) => FollowStatus::Unreadable,
        Err(Stop::Memory) => FollowStatus::Memory,
        Err(Stop::File) => FollowStatus::File,
        Err(Stop::Unread) => FollowStatus::Unread,
        Err(Stop::Output) => FollowStatus::Output,
    }
}

/// Follows the capture and returns how many faults it had (`faults_of`).
fn follow_input<R: Read + Drop, O: Write, E: Write>(
    alloc: Global,
    reader: R,
    asked: &FollowOptions,
    out: &mut O,
    err: &mut E,
) -> Result<u64, Stop> {
    let mut reader = reader;
    let mut front = [0u8; 4];
    let size = read_whole(&mut reader, &mut front)?;
    let mut writer = BufWriter::new(alloc, out).map_err(|_| Stop::Memory)?;
    let mut course = CaptureReading::new(alloc).map_err(|_| Stop::Memory)?;
    let mut recording = Recording::new();
    match recording.take(&front[..size]) {
        Ok(BlockContent::Nothing) => {
            let mut rest = BufReader::new(alloc, reader).map_err(|_| Stop::Memory)?;
            follow_frames(
                alloc,
                &mut rest,
                &mut recording,
                asked,
                &mut course,
                &mut writer,
                err,
            )?;
        }
        _ => match foreign(front) {
            Some(form) => give_up(&mut course, name_of_foreign(form), err)?,
            None => {
                let all = Read::chain(&front[..size], reader);
                let mut rest = BufReader::new(alloc, all).map_err(|_| Stop::Memory)?;
                follow_lines(alloc, &mut rest, asked, &mut course, &mut writer, err)?;
            }
        },
    }
    match course.sum(asked, &mut writer) {
        Ok(()) => {}
        Err(error) => return Err(stop_at_output(&error)),
    }
    flush(&mut writer)?;
    report_forgotten(&course, err)?;
    report_miscoded(&course, err)?;
    Ok(faults_of(&course))
}

/// Returns how many lines were not a datagram, connections were forgotten, and datagrams have another safety code if
/// none has the right one.
fn faults_of(course: &CaptureReading) -> u64
    ensures { result ≡ faults_in course.now.unreadable course.now.following.forgotten course.now.following.miscoded }
{
    let faults = course.unreadable.saturating_add(course.following.forgotten);
    faults.saturating_add(miscoded_count(course))
}

/// Returns how many datagrams have another safety code, if none has the right one.
fn miscoded_count(course: &CaptureReading) -> u64
    ensures { result ≡ all_miscoded course.now.following.miscoded }
{
    match course.following.miscoded {
        None => 0,
        Some(miscoded) => miscoded,
    }
}

/// Reports that all datagrams have another safety code.
fn report_miscoded<E: Write>(course: &CaptureReading, err: &mut E) -> Result<(), Stop>
    ensures { OnOk result (Appends (E.contents err.old) (E.contents err.new)
        (miscoded_line (all_miscoded course.now.following.miscoded))) }
{
    let miscoded = miscoded_count(course);
    if miscoded == 0 {
        return Ok(());
    }
    write_miscoded(miscoded, err)
}

/// Writes the line about datagrams that all have another safety code.
#[tactic(auto, unfolding(crate::specs::FaultText::miscoded_text))]
fn write_miscoded<E: Write>(miscoded: u64, err: &mut E) -> Result<(), Stop>
    ensures { OnOk result (Appends (E.contents err.old) (E.contents err.new) (miscoded_text miscoded)) }
{
    match writeln!(
        err,
        "datagrams: all {miscoded} of RaSTA have another safety code; choose it by --code or --iv"
    ) {
        Ok(()) => Ok(()),
        Err(_) => Err(Stop::Output),
    }
}

/// Returns the form of a file that is not followed, by its first four bytes.
pub fn foreign(front: [u8; 4]) -> Option<ForeignForm>
    // Only a file of gzip, zstd, snoop, or modified pcap has a form; each begins with its own bytes (`foreign_of`).
    ensures { result ≡ foreign_of front }
{
    if is_front(front, [0x1f, 0x8b, front[2], front[3]]) {
        Some(ForeignForm::Gzip)
    } else if is_front(front, [0x28, 0xb5, 0x2f, 0xfd]) {
        Some(ForeignForm::Zstd)
    } else if is_front(front, [0x73, 0x6e, 0x6f, 0x6f]) {
        Some(ForeignForm::Snoop)
    } else if is_front(front, [0xa1, 0xb2, 0xcd, 0x34])
        || is_front(front, [0x34, 0xcd, 0xb2, 0xa1])
    {
        Some(ForeignForm::ModifiedPcap)
    } else {
        None
    }
}

/// Returns `true` if a file begins with these bytes.
fn is_front(front: [u8; 4], wanted: [u8; 4]) -> bool
    ensures { result ≡ has_front front wanted }
{
    front[0] == wanted[0] && front[1] == wanted[1] && front[2] == wanted[2] && front[3] == wanted[3]
}

/// Returns why a file is not followed, and what to do with it.
pub fn name_of_foreign(form: ForeignForm) -> &'static str
    // Each `form` has its words, with a command that makes it readable (`foreign_word`).
    ensures { result.now ≡ foreign_word form }
{
    match form {
        ForeignForm::Gzip => "it is compressed by gzip; use gzip -dc FILE | rasta follow -",
        ForeignForm::Zstd => "it is compressed by zstd; use zstd -dc FILE | rasta follow -",
        ForeignForm::Snoop => "it is a snoop file; use editcap -F pcapng FILE NEW",
        ForeignForm::ModifiedPcap => "it is a modified pcap file; use editcap -F pcapng FILE NEW",
    }
}

/// Reports connections that were forgotten.
#[tactic(auto, unfolding(crate::specs::FaultText::forgotten_text))]
fn report_forgotten<E: Write>(course: &CaptureReading, err: &mut E) -> Result<(), Stop>
    ensures { OnOk result (Appends (E.contents err.old) (E.contents err.new)
        (forgotten_line course.now.following.forgotten)) }
{
    let forgotten = course.following.forgotten;
    if forgotten == 0 {
        return Ok(());
    }
    match writeln!(
        err,
        "connections: {forgotten} were forgotten, since more than 256 were recorded at once; choose some by --ports"
    ) {
        Ok(()) => Ok(()),
        Err(_) => Err(Stop::Output),
    }
}

/// Follows the lines of a text to their end.
fn follow_lines<R: Read + Drop, W: Write, E: Write, A: Allocator + Copy>(
    alloc: A,
    reader: &mut BufReader<R, A>,
    asked: &FollowOptions,
    course: &mut CaptureReading,
    writer: &mut W,
    err: &mut E,
) -> Result<(), Stop>
    ensures { OnOk result (IfSome (reader_remaining R.remaining reader.old) (λ octets.
        (state_of course.new ≡ with_lines asked.now (state_of course.old) (lines_of octets))
        × Appends (W.contents writer.old) (W.contents writer.new)
        (lines_printed asked.now (state_of course.old) (lines_of octets))
        × Appends (E.contents err.old) (E.contents err.new)
        (lines_faults asked.now (state_of course.old) (lines_of octets)))) }
{
    let mut line = Vec::new(alloc);
    let mut buffer: Buffer = [0; PAYLOAD_ROOM];
    for _ in 0..u64::MAX {
        show(reader, writer)?;
        next_line(reader, &mut line)?;
        if line.is_empty() {
            return Ok(());
        }
        follow_line(course, asked, line.as_slice(), &mut buffer, writer, err)?;
    }
    Err(Stop::File)
}

/// Flushes the output if the reader has nothing more buffered.
fn show<R: Read, W: Write, A: Allocator>(
    reader: &BufReader<R, A>,
    writer: &mut W,
) -> Result<(), Stop>
    ensures { OnOk result (Appends (W.contents writer.old) (W.contents writer.new) []) }
{
    if reader.buffer().is_empty() {
        return flush(writer);
    }
    Ok(())
}

/// Takes the next line from a reader.
fn next_line<R: BufRead, A: Allocator>(reader: &mut R, line: &mut Vec<u8, A>) -> Result<(), Stop>
    // The kept `line` is the text up to and with the next line feed, cut to its limit.
    ensures kept { OnOk result (IfSome (R.remaining reader.old)
        (λ octets. line.new.items ≡ cut_line (take_through 10 octets))) }
    // The reader has lost that line and nothing else.
    ensures rest { OnOk result (DropsThrough (R.remaining reader.old) (R.remaining reader.new) 10) }
{
    match take_line(reader, line) {
        Ok(()) => Ok(()),
        Err(error) => Err(stop_of(error)),
    }
}

/// Adds a line, or the prefix of one that is too long, and prints the sums if they are due.
fn follow_line<W: Write, E: Write>(
    course: &mut CaptureReading,
    asked: &FollowOptions,
    line: &[u8],
    buffer: &mut Buffer,
    writer: &mut W,
    err: &mut E,
) -> Result<(), Stop>
    // On success the state is that after this line, with the next time of sums (`with_line`).
    ensures read { OnOk result (state_of course.new ≡ with_line asked.now (state_of course.old) line.now) }
    // On success the text of the line and the sums, if they are due, are appended to `writer`.
    ensures printed { OnOk result (Appends (W.contents writer.old) (W.contents writer.new)
        (line_printed asked.now (state_of course.old) line.now)) }
    // On success the fault of the line, if any, is appended to `err`; a long line has one.
    ensures told { OnOk result (Appends (E.contents err.old) (E.contents err.new)
        (line_fault asked.now (state_of course.old) line.now)) }
{
    let spare = take_spare(course)?;
    take_any(course, asked, line, buffer, spare, writer, err)?;
    write_due(course, asked, writer)?;
    Ok(())
}

/// Takes an entry for a connection that the next line or frame may begin.
fn take_spare(course: &mut CaptureReading) -> Result<Entry, Stop>
    // Nothing is read: every count and connection stays, also if there is too little memory.
    ensures state { state_of course.new ≡ state_of course.old }
    // Too little memory stops the run with `Memory`.
    ensures refused { IfErr result (λ why. why ≡ Stop.Memory) }
{
    match course.take_spare() {
        Ok(spare) => Ok(spare),
        Err(_) => Err(Stop::Memory),
    }
}

/// Prints the sums if they are due.
fn write_due<W: Write>(
    course: &mut CaptureReading,
    asked: &FollowOptions,
    writer: &mut W,
) -> Result<(), Stop>
    // The state has the next time of sums; nothing else changes (`with_sums`).
    ensures read { state_of course.new ≡ with_sums asked.now (state_of course.old) }
    // On success the sums are appended to `writer` if they are due.
    ensures printed { OnOk result (Appends (W.contents writer.old) (W.contents writer.new)
        (sums_printed asked.now (state_of course.old))) }
{
    match course.sum_if_due(asked, writer) {
        Ok(()) => Ok(()),
        Err(error) => Err(stop_at_output(&error)),
    }
}

/// Adds a line, or the prefix of one that is too long. Its text goes to `writer`, its fault to `err`.
fn take_any<W: Write, E: Write>(
    course: &mut CaptureReading,
    asked: &FollowOptions,
    line: &[u8],
    buffer: &mut Buffer,
    spare: Entry,
    writer: &mut W,
    err: &mut E,
) -> Result<(), Stop>
    // The state is that after this line: a long one counts as unreadable, any other is added without its line end
    // (`with_read`).
    ensures read { state_of course.new ≡ with_read asked.now (state_of course.old) line.now }
    // On success the text of the line is appended to `writer`; for a long one, nothing is.
    ensures printed { OnOk result (Appends (W.contents writer.old) (W.contents writer.new)
        (readable_line_printed asked.now (state_of course.old) line.now)) }
    // On success the fault of the line is appended to `err`, and for a long one that it is too long.
    ensures told { OnOk result (Appends (E.contents err.old) (E.contents err.new)
        (line_fault asked.now (state_of course.old) line.now)) }
{
    if line.len() > LINE_MAX {
        return take_long(course, spare, err);
    }
    take_text(
        course,
        asked,
        without_feed(line),
        buffer,
        spare,
        writer,
        err,
    )
}

/// Follows the blocks of a recording to its end or its first fault.
fn follow_frames<R: Read + Drop, W: Write, E: Write, A: Allocator + Copy>(
    alloc: A,
    reader: &mut BufReader<R, A>,
    recording: &mut Recording,
    asked: &FollowOptions,
    course: &mut CaptureReading,
    writer: &mut W,
    err: &mut E,
) -> Result<(), Stop> {
    let mut block = Vec::new(alloc);
    for _ in 0..u64::MAX {
        if reader.buffer().is_empty() {
            flush(writer)?;
        }
        let wanted = recording.wants() as usize;
        make_room(&mut block, wanted)?;
        let part = &mut block.as_mut_slice()[..wanted];
        let size = read_whole(reader, part)?;
        if size < wanted {
            return end(course, recording.part, size, err);
        }
        let goes_on = take_block(course, recording, asked, part, writer, err)?;
        if !goes_on {
            return Ok(());
        }
    }
    Ok(())
}

/// Makes room for this number of bytes. It never takes room away, since each byte of new room is written.
fn make_room<A: Allocator>(block: &mut Vec<u8, A>, wanted: usize) -> Result<(), Stop>
    ensures { OnOk result (wanted ≤ vec_len block.new) }
{
    if wanted <= block.len() {
        return Ok(());
    }
    match block.resize(wanted, 0) {
        Ok(()) => Ok(()),
        Err(_) => Err(Stop::Memory),
    }
}

/// Adds a block of a recording, prints the sums if they are due, and returns whether the recording goes on. A block
/// with a fault is reported, and ends it.
fn take_block<W: Write, E: Write>(
    course: &mut CaptureReading,
    recording: &mut Recording,
    asked: &FollowOptions,
    block: &[u8],
    writer: &mut W,
    err: &mut E,
) -> Result<bool, Stop>
    requires { length block.now < 2 ^ 32 }
    // After the block, the recording is that of its step; after a fault it has not changed (`recording_after`).
    ensures next { recording.new ≡ recording_after recording.old (step_of recording.old block.now) }
    // On success the state is that after the frame of the block and the sums; after a fault of the block the recording
    // counts as unreadable (`with_block`).
    ensures read { OnOk result (state_of course.new
        ≡ with_block asked.now (state_of course.old) block.now (event_of (step_of recording.old block.now))) }
    // On success the text of the frame's datagram and the sums, if they are due, are appended to `writer`.
    ensures printed { OnOk result (Appends (W.contents writer.old) (W.contents writer.new)
        (block_printed asked.now (state_of course.old) block.now (event_of (step_of recording.old block.now)))) }
    // On success the fault of the frame or the block, if any, is appended to `err` (`block_fault`).
    ensures told { OnOk result (Appends (E.contents err.old) (E.contents err.new)
        (block_fault asked.now (state_of course.old) block.now (event_of (step_of recording.old block.now)))) }
    // The recording goes on exactly if the block has no fault.
    ensures goes_on { IfOk result (λ goes_on. goes_on ≡ is_ok (event_of (step_of recording.old block.now))) }
{
    match recording.take(block) {
        Ok(BlockContent::Frame(framed)) => {
            take_shown(course, asked, &framed, block, writer, err)?;
            Ok(true)
        }
        Ok(BlockContent::Nothing | BlockContent::Text) => Ok(true),
        Err(fault) => {
            give_up(course, name_of_file_fault(fault), err)?;
            Ok(false)
        }
    }
}

/// Adds a line without its line feed. Its text goes to `writer`, its fault to `err`.
fn take_text<W: Write, E: Write>(
    course: &mut CaptureReading,
    asked: &FollowOptions,
    line: &[u8],
    buffer: &mut Buffer,
    spare: Entry,
    writer: &mut W,
    err: &mut E,
) -> Result<(), Stop>
    // The state is that after this line, with every count of `with_text`.
    ensures read { state_of course.new ≡ with_text asked.now (state_of course.old) line.now }
    // On success the text of this line's datagram is appended to `writer`.
    ensures printed { OnOk result (Appends (W.contents writer.old) (W.contents writer.new)
        (text_printed asked.now (state_of course.old) line.now)) }
    // On success the fault of this line, if it is not a datagram, is appended to `err`.
    ensures told { OnOk result (Appends (E.contents err.old) (E.contents err.new)
        (text_fault asked.now (state_of course.old) line.now)) }
{
    match course.take_line(asked, line, buffer, spare, writer) {
        Ok(None) => Ok(()),
        Ok(Some(fault)) => report_line(err, course.lines, fault),
        Err(error) => Err(stop_at_output(&error)),
    }
}

/// Adds a line that is too long to be kept.
fn take_long<E: Write>(course: &mut CaptureReading, spare: Entry, err: &mut E) -> Result<(), Stop>
    // Both the lines and the unreadable lines grow by 1; nothing else changes (`with_long`).
    ensures read { state_of course.new ≡ with_long (state_of course.old) }
    // On success the fault for a long line is appended to `err`, with the number of the line.
    ensures told { OnOk result (Appends (E.contents err.old) (E.contents err.new)
        (fault_text (limited_sum course.old.lines 1) LineFault.Long)) }
{
    course.following.connections.keep_spare(spare);
    course.pass_long();
    report_line(err, course.lines, LineFault::Long)
}

/// Returns why a failed output stops a run.
pub fn stop_at_output(error: &io::Error) -> Stop
    // An output that its reader has closed is `Unread`; any other failure is `Output` (`output_stop`).
    ensures { result ≡ output_stop (error_kind error.now) }
{
    match error.kind() {
        ErrorKind::BrokenPipe => Stop::Unread,
        _ => Stop::Output,
    }
}

/// Returns why a failed reading stops a run.
fn stop_of(error: io::Error) -> Stop {
    match error.kind() {
        ErrorKind::OutOfMemory => Stop::Memory,
        _ => Stop::File,
    }
}

/// Removes the line feed of a line, and a carriage return before it.
fn without_feed(line: &[u8]) -> &[u8]
    ensures { result.now ≡ without_end line.now }
{
    match line {
        [text @ .., b'\r', b'\n'] => text,
        [text @ .., b'\n'] => text,
        text => text,
    }
}

/// Writes the fault of a line.
fn report_line<E: Write>(err: &mut E, number: u64, fault: LineFault) -> Result<(), Stop>
    ensures { OnOk result (Appends (E.contents err.old) (E.contents err.new) (fault_text number fault)) }
{
    match write_fault(err, number, fault) {
        Ok(()) => Ok(()),
        Err(_) => Err(Stop::Output),
    }
}

/// Reads until the buffer is full or the reader ends, and returns how many bytes came.
pub fn read_whole<R: Read>(reader: &mut R, buffer: &mut [u8]) -> Result<usize, Stop>
    // The number of bytes is at most the length of the `buffer`.
    ensures { IfOk result (λ size. size ≤ length buffer.new) }
{
    let mut size = 0;
    for _ in 0..u64::MAX {
        if size == buffer.len() {
            return Ok(size);
        }
        match reader.read(&mut buffer[size..]) {
            Ok(0) => return Ok(size),
            Ok(more) => size += more,
            Err(error) => go_on(error)?,
        }
    }
    Ok(size)
}

/// Returns `Ok` for an interrupted reading, which is tried again; any other error stops the run.
fn go_on(error: io::Error) -> Result<(), Stop> {
    match error.kind() {
        ErrorKind::Interrupted => Ok(()),
        _ => Err(stop_of(error)),
    }
}

/// Flushes an output.
fn flush<W: Write>(writer: &mut W) -> Result<(), Stop>
    ensures { OnOk result (Appends (W.contents writer.old) (W.contents writer.new) []) }
{
    match writer.flush() {
        Ok(()) => Ok(()),
        Err(error) => Err(stop_at_output(&error)),
    }
}

/// Adds the frame of a block, and prints the sums if they are due.
fn take_shown<W: Write, E: Write>(
    course: &mut CaptureReading,
    asked: &FollowOptions,
    framed: &BlockFrame,
    block: &[u8],
    writer: &mut W,
    err: &mut E,
) -> Result<(), Stop>
    requires order { framed.now.start ≤ framed.now.end }
    requires within { framed.now.end ≤ length block.now }
    requires size { length block.now < 2 ^ 32 }
    // On success the state is that after this frame, with the next time of sums.
    ensures read { OnOk result (state_of course.new
        ≡ with_sums asked.now (with_frame asked.now (state_of course.old) framed.now.link framed.now.time
        (payload_at framed.now.start framed.now.end block.now))) }
    // On success `take_shown` has appended the text of the datagram and the sums, if they are due, to `writer`.
    ensures printed { OnOk result (Appends (W.contents writer.old) (W.contents writer.new)
        (frame_and_sums_printed asked.now (state_of course.old) framed.now.link framed.now.time
        (payload_at framed.now.start framed.now.end block.now))) }
    // On success the fault of the frame, if it has one, is appended to `err`.
    ensures told { OnOk result (Appends (E.contents err.old) (E.contents err.new)
        (frame_fault asked.now (state_of course.old) framed.now.link framed.now.time
        (payload_at framed.now.start framed.now.end block.now))) }
{
    let spare = take_spare(course)?;
    take_framed(course, asked, framed, block, spare, writer, err)?;
    write_due(course, asked, writer)?;
    Ok(())
}

/// Adds the frame of a block, and reports why its datagram is not read.
fn take_framed<W: Write, E: Write>(
    course: &mut CaptureReading,
    asked: &FollowOptions,
    framed: &BlockFrame,
    block: &[u8],
    spare: Entry,
    writer: &mut W,
    err: &mut E,
) -> Result<(), Stop>
    requires order { framed.now.start ≤ framed.now.end }
    requires within { framed.now.end ≤ length block.now }
    requires size { length block.now < 2 ^ 32 }
    // The state is that after this frame, with every count of `with_frame`.
    ensures read { state_of course.new
        ≡ with_frame asked.now (state_of course.old) framed.now.link framed.now.time
        (payload_at framed.now.start framed.now.end block.now) }
    // On success the text of the frame's datagram is appended to `writer`.
    ensures printed { OnOk result (Appends (W.contents writer.old) (W.contents writer.new)
        (frame_printed asked.now (state_of course.old) framed.now.link framed.now.time
        (payload_at framed.now.start framed.now.end block.now))) }
    // On success the fault of the frame, if its datagram is not read, is appended to `err`.
    ensures told { OnOk result (Appends (E.contents err.old) (E.contents err.new)
        (frame_fault asked.now (state_of course.old) framed.now.link framed.now.time
        (payload_at framed.now.start framed.now.end block.now))) }
{
    let octets = &block[framed.start..framed.end];
    match course.take_frame(asked, framed.link, framed.time, octets, spare, writer) {
        Ok(None) => Ok(()),
        Ok(Some(fault)) => report_frame(err, course.lines, fault),
        Err(error) => Err(stop_at_output(&error)),
    }
}

/// Writes the fault of a frame.
fn report_frame<E: Write>(err: &mut E, number: u64, fault: FrameFault) -> Result<(), Stop>
    ensures { OnOk result (Appends (E.contents err.old) (E.contents err.new) (frame_text number fault)) }
{
    match write_frame_fault(err, number, fault) {
        Ok(()) => Ok(()),
        Err(_) => Err(Stop::Output),
    }
}

/// Ends a recording when too few bytes came for the next block. Within a block that is reported.
fn end<E: Write>(
    course: &mut CaptureReading,
    part: FilePart,
    size: usize,
    err: &mut E,
) -> Result<(), Stop>
    // Before a record or block of which no byte came nothing changes; anywhere else the recording counts as
    // unreadable (`end_at`).
    ensures read { state_of course.new ≡ end_at part size (state_of course.old) }
    // On success the line of a recording that ends within a block is appended to `err`; for a whole one, nothing is.
    ensures told { OnOk result (Appends (E.contents err.old) (E.contents err.new)
        (end_fault part size (state_of course.old))) }
{
    if is_whole(part, size) {
        return Ok(());
    }
    give_up(course, "it ends within a block", err)
}

/// Returns `true` if a recording is whole that ends after so many bytes of this part.
pub fn is_whole(part: FilePart, size: usize) -> bool
    // Only before a record or a block, of which no byte came, a recording is whole (`is_whole_at`).
    ensures { result ≡ is_whole_at part size }
{
    match part {
        FilePart::Record(_, _) | FilePart::Block(_) => size == 0,
        FilePart::Start
        | FilePart::Head(_)
        | FilePart::Body(_, _, _, _, _)
        | FilePart::Section
        | FilePart::Order(_)
        | FilePart::Opening(_, _)
        | FilePart::Rest(_, _, _)
        | FilePart::Skipped(_, _, _) => false,
    }
}

/// Reports why a recording cannot go on. What was read of it stays.
#[tactic(auto, unfolding(crate::specs::FaultText::recording_text))]
fn give_up<E: Write>(course: &mut CaptureReading, why: &str, err: &mut E) -> Result<(), Stop>
    // The recording counts as unreadable; what was read of it stays (`break_off`).
    ensures read { state_of course.new ≡ break_off (state_of course.old) }
    // On success one line is appended to `err`, with the number of the last frame and the reason `why`.
    ensures told { OnOk result (Appends (E.contents err.old) (E.contents err.new)
        (recording_text course.old.lines why.now)) }
{
    course.unreadable = course.unreadable.saturating_add(1);
    let frames = course.lines;
    match writeln!(err, "recording: unreadable behind frame {frames}: {why}") {
        Ok(()) => Ok(()),
        Err(_) => Err(Stop::Output),
    }
}

/// Returns the words of a recording's fault.
pub fn name_of_file_fault(fault: FileFault) -> &'static str
    // Each `fault` has its words (`file_fault_word`).
    ensures { result.now ≡ file_fault_word fault }
{
    match fault {
        FileFault::Version => "version",
        FileFault::Length => "length",
        FileFault::Order => "order of octets",
        FileFault::Trailer => "second length",
        FileFault::Interface => "unknown interface",
        FileFault::Resolution => "unit of times",
        FileFault::Interfaces => "too many interfaces",
    }
}
