//! The lines that wait until a standard stream takes them, so that a reader that stops does not stop an end.

ghost use Rattle.std.specs.Prelude.{◌≡◌, ◌≢◌, ◌≤◌, ◌<◌, ◌+◌, ◌-◌, ◌^◌, ◌++◌, ◌⊎◌, ◌==◌, ℕ, Bool, false, true, not, List, [], Err, Ok, None, drop, length, min, nat_lt, reverse, take, vec_capacity, is_ok, IfOk, OnErr, OnOk};
ghost use Rattle.std.specs.Io.{WritesAtMost};
ghost use Rattle.std.specs.Io.KnownBytes.{Appends, Keeps, WriteAppends, append_known};
ghost use Rattle.rasta_run.specs.InputLines.{feed_place, lines_left};
ghost use Rattle.rasta_run.specs.Backlogs.{PassesAll, PassesOnce, cut_size, front_size, is_refused, left_out_text, one_more};

use crate::input::{is_open, is_passing, lines_left};
use crate::readiness::{Gate, Stream};
use arrayvec::ArrayVec;
use std::alloc::{AllocError, Global};
use std::io;
use std::io::{ErrorKind, Write};
use udp_channels::CallFault;

/// The greatest number of bytes of one write. A pipe that can be written takes them without waiting (PIPE_BUF).
const WRITE_MAX: usize = 4_096;

/// The number of writes that pass on the longest buffer, if each takes a byte.
const WRITES_MAX: u64 = 1 << 22;

/// The byte that ends a line.
const LINE_FEED: u8 = 10;

/// The longest line of how many lines were left out, in bytes.
const NOTE_MAX: usize = 64;

/// What came of a write.
#[derive(Clone, Copy, Debug, PartialEq, Eq)]
pub enum WriteOutcome {
    /// The stream took bytes.
    On,
    /// Nothing waits, or the stream takes nothing now.
    Over,
    /// The stream cannot be written.
    Failed,
}

/// The lines that wait until a stream takes them.
#[derive(Drop)]
pub struct Backlog<W> {
    /// The stream.
    pub stream: Stream,
    /// Where it is written.
    pub writer: W,
    /// The bytes that wait.
    pub octets: Vec<u8>,
    /// The number of bytes from which on no line may begin.
    pub room: usize,
    /// The number of lines that were left out since that was last noted.
    pub left_out: u64,
    /// Why the stream cannot be written, if a write has failed.
    pub failure: Option<CallFault>,
    /// The number of bytes that the stream took, modulo 2^64.
    pub gone: u64,
}

impl<W: Write + Drop> Backlog<W> {
    /// Opens an empty buffer over a stream.
    ///
    /// # Errors
    ///
    /// - `AllocError` if an allocation fails.
    pub fn open(alloc: Global, stream: Stream, room: usize, writer: W) -> Result<Self, AllocError>
        // In a buffer that `open` returns nothing waits, and nothing was left out.
        ensures empty { IfOk result (λ p. (p.octets.items ≡ []) × (p.left_out ≡ 0)) }
        // A buffer that `open` returns is for this stream, with this writer and this `room`.
        ensures over { IfOk result (λ p. (p.stream ≡ stream) × (p.writer ≡ writer) × (p.room ≡ room)) }
    {
        let size = room.saturating_add(WRITE_MAX);
        let octets = Vec::with_capacity(alloc, size)?;
        Ok(Backlog {
            stream,
            writer,
            octets,
            room,
            left_out: 0,
            failure: None,
            gone: 0,
        })
    }
}

impl<W: Write> Backlog<W> {
    /// Appends a piece of a line. A line that finds no room, or an earlier line left out, is left out and counted.
    fn add(&mut self, text: &[u8]) -> io::Result<usize>
        // `add` refuses a text at the start of a line if a line was left out, or if the buffer has reached its
        // `room`. It takes any other for which there is memory.
        ensures refused { is_refused self.old.octets.items self.old.room self.old.left_out ≡ true → is_ok result ≡ false }
        ensures has_room { is_refused self.old.octets.items self.old.room self.old.left_out ≡ false
            → length self.old.octets.items + length text.now ≤ vec_capacity self.old.octets → is_ok result ≡ true }
        // If `add` succeeds, the whole text waits after what waited before, and no line is left out.
        ensures taken { IfOk result (λ size. (size ≡ length text.now)
            × (self.new.octets.items ≡ self.old.octets.items ++ text.now) × (self.new.left_out ≡ self.old.left_out)) }
        // If `add` fails, what waits is as before, and one more line was left out.
        ensures left_out { OnErr result ((self.new.octets.items ≡ self.old.octets.items)
            × (self.new.left_out ≡ one_more self.old.left_out)) }
        // `add` writes nothing.
        ensures kept { (self.new.writer ≡ self.old.writer) × (self.new.stream ≡ self.old.stream) × (self.new.room ≡ self.old.room) }
    {
        let begins = !is_open(self.octets.as_slice().last().copied());
        if begins && (self.left_out > 0 || self.octets.len() >= self.room) {
            self.left_out = self.left_out.saturating_add(1);
            return Err(io::Error::from(ErrorKind::StorageFull));
        }
        if self.octets.extend_from_slice(text).is_err() {
            self.left_out = self.left_out.saturating_add(1);
            return Err(io::Error::from(ErrorKind::OutOfMemory));
        }
        Ok(text.len())
    }

    /// Returns whether a line was left out that is not noted yet.
    pub fn has_left_out(&self) -> bool
        // `has_left_out` is true if and only if the number of lines left out is not 0.
        ensures { result ≡ nat_lt 0 self.now.left_out }
    {
        self.left_out > 0
    }

    /// Returns whether a line waits.
    pub fn has_waiting(&self) -> bool
        // `has_waiting` is true if and only if bytes wait.
        ensures { result ≡ not (length self.now.octets.items == 0) }
    {
        !self.octets.is_empty()
    }

    /// Returns how many lines wait.
    pub fn waiting_count(&self) -> u64
        // `waiting_count` returns the number of lines of the bytes that wait.
        ensures { result ≡ lines_left self.now.octets.items }
    {
        lines_left(self.octets.as_slice()) as u64
    }

    /// Returns how many lines were left out, and lets lines begin again.
    pub fn take_left_out(&mut self) -> u64
        // `take_left_out` returns the number of lines left out.
        ensures count { result ≡ self.old.left_out }
        // After `take_left_out` no line is left out, and nothing else has changed.
        ensures kept { self.new ≡ record self.old { left_out = 0 } }
    {
        let count = self.left_out;
        self.left_out = 0;
        count
    }

    /// Writes nothing, which fails if the stream cannot be written. Returns whether it can.
    pub fn try_once(&mut self) -> bool
        // After `try_once` nothing else waits, and no line was left out.
        ensures kept { (self.new.octets ≡ self.old.octets) × (self.new.left_out ≡ self.old.left_out)
            × (self.new.stream ≡ self.old.stream) × (self.new.room ≡ self.old.room) }
    {
        match self.writer.write(&[]) {
            Ok(_) => true,
            Err(error) if is_passing(error.kind()) => true,
            Err(error) => {
                self.failure = Some(CallFault {
                    error: error.raw_os_error(),
                });
                false
            }
        }
    }

    /// Removes what waits.
    pub fn skip(&mut self)
        // After `skip` nothing waits.
        ensures empty { self.new.octets.items ≡ [] }
        // `skip` changes nothing else.
        ensures kept { (self.new.left_out ≡ self.old.left_out) × (self.new.writer ≡ self.old.writer) × (self.new.stream ≡ self.old.stream) × (self.new.room ≡ self.old.room) }
    {
        self.octets.clear();
    }

    /// Writes what waits as long as the gate says that the stream is ready. Returns false if the stream cannot be
    /// written.
    pub fn pass_on<G: Gate>(&mut self, gate: &mut G) -> bool
        // `pass_on` makes one step after another until one is over or fails. It returns false if the last one failed.
        ensures passed { PassesAll W.contents G.asks self.old.stream
            (record { writer = self.old.writer; octets = self.old.octets.items; gate = gate.old }) result
            (record { writer = self.new.writer; octets = self.new.octets.items; gate = gate.new }) }
        // What the stream holds and what waits are together as before: no byte is lost, and none is written twice or
        // out of order.
        ensures whole { Keeps (append_known (W.contents self.old.writer) self.old.octets.items)
            (append_known (W.contents self.new.writer) self.new.octets.items) }
        // `pass_on` leaves no line out.
        ensures kept { (self.new.left_out ≡ self.old.left_out) × (self.new.stream ≡ self.old.stream) × (self.new.room ≡ self.old.room) }
    {
        let (works, gone) = pass_all(
            self.octets.as_slice(),
            &mut self.writer,
            self.stream,
            gate,
            &mut self.failure,
        );
        remove_front(&mut self.octets, gone);
        self.gone = self.gone.wrapping_add(gone as u64);
        works
    }

    /// Appends a line that says how many lines were left out, if any were and there is room again.
    pub fn note_left_out(&mut self)
        // `note_left_out` appends the line with the number of lines left out, and then none is left out, or it
        // changes nothing.
        ensures noted { ((self.new.octets.items ≡ self.old.octets.items ++ left_out_text self.old.left_out) × (self.new.left_out ≡ 0))
            ⊎ ((self.new.octets.items ≡ self.old.octets.items) × (self.new.left_out ≡ self.old.left_out)) }
        // If no line was left out, or if there is no room, `note_left_out` appends nothing.
        ensures none { (self.old.left_out ≡ 0) ⊎ (self.old.room ≤ length self.old.octets.items) → self.new.octets.items ≡ self.old.octets.items }
        // `note_left_out` writes nothing.
        ensures kept { (self.new.writer ≡ self.old.writer) × (self.new.stream ≡ self.old.stream) × (self.new.room ≡ self.old.room) }
    {
        if self.left_out == 0 || self.octets.len() >= self.room {
            return;
        }
        let mut line = ArrayVec::<u8, NOTE_MAX>::new();
        if write_left_out(&mut line, self.left_out).is_err() {
            return;
        }
        if self.octets.extend_from_slice(line.as_slice()).is_ok() {
            self.left_out = 0;
        }
    }
}

impl<W: Write> Write for Backlog<W> {
    ghost contents = { λ p. append_known (W.contents p.writer) p.octets.items };

    fn write(&mut self, text: &[u8]) -> io::Result<usize> {
        self.add(text)
    }

    /// Does nothing: lines are passed on at the end of a turn.
    fn flush(&mut self) -> io::Result<()> {
        Ok(())
    }
}

/// Writes bytes as long as the gate says that the stream is ready. Returns whether the stream can be written, and how
/// many bytes it took.
fn pass_all<W: Write, G: Gate>(
    octets: &[u8],
    writer: &mut W,
    stream: Stream,
    gate: &mut G,
    failure: &mut Option<CallFault>,
) -> (bool, usize)
    // `pass_all` makes one step after another until one is over or fails.
    ensures passed { PassesAll W.contents G.asks stream
        (record { writer = writer.old; octets = octets.now; gate = gate.old }) result.0
        (record { writer = writer.new; octets = drop result.1 octets.now; gate = gate.new }) }
    // After `pass_all` the stream holds what it held, and then the bytes that are gone.
    ensures whole { Appends (W.contents writer.old) (W.contents writer.new) (take result.1 octets.now) }
    // At most all bytes are gone.
    ensures bound { result.1 ≤ length octets.now }
{
    let mut gone = 0;
    'writes: for _ in 0..WRITES_MAX {
        let (step, size) = pass_once(&octets[gone..], writer, stream, gate, failure);
        gone += size;
        match step {
            WriteOutcome::On => {}
            WriteOutcome::Over => return (true, gone),
            WriteOutcome::Failed => return (false, gone),
        }
    }
    (true, gone)
}

/// Writes the front of bytes once, if there are any and the gate says that the stream is ready. Returns what came of
/// it, and how many bytes were taken.
fn pass_once<W: Write, G: Gate>(
    octets: &[u8],
    writer: &mut W,
    stream: Stream,
    gate: &mut G,
    failure: &mut Option<CallFault>,
) -> (WriteOutcome, usize)
    // `pass_once` asks the gate once, if there are bytes. If the stream is ready, it writes the front of them once.
    ensures passed { PassesOnce W.contents G.asks stream
        (record { writer = writer.old; octets = octets.now; gate = gate.old }) result.0
        (record { writer = writer.new; octets = drop result.1 octets.now; gate = gate.new }) }
    // After `pass_once` the stream holds what it held, and then the bytes of this step.
    ensures whole { Appends (W.contents writer.old) (W.contents writer.new) (take result.1 octets.now) }
    // The step takes at most all bytes.
    ensures bound { result.1 ≤ length octets.now }
{
    if octets.is_empty() {
        return (WriteOutcome::Over, 0);
    }
    if !gate.is_ready(stream) {
        return (WriteOutcome::Over, 0);
    }
    write_front(octets, writer, failure)
}

/// Writes the front of bytes once. Returns what came of it, and how many bytes were taken.
fn write_front<W: Write>(
    octets: &[u8],
    writer: &mut W,
    failure: &mut Option<CallFault>,
) -> (WriteOutcome, usize)
    // `write_front` writes at most the front.
    ensures bound { result.1 ≤ front_size octets.now }
    // After `write_front` the stream holds what it held, and then the bytes that it took.
    ensures whole { Appends (W.contents writer.old) (W.contents writer.new) (take result.1 octets.now) }
    // If more may be written, the stream took something.
    ensures on { result.0 ≡ WriteOutcome.On → 0 < result.1 }
    // If no more may be written, the stream took nothing.
    ensures none { result.0 ≢ WriteOutcome.On → result.1 ≡ 0 }
{
    let size = front_size(octets);
    match writer.write(&octets[..size]) {
        Ok(taken) if taken > 0 => (WriteOutcome::On, taken),
        Ok(_) => (WriteOutcome::Over, 0),
        Err(error) if is_passing(error.kind()) => (WriteOutcome::Over, 0),
        Err(error) => {
            *failure = Some(CallFault {
                error: error.raw_os_error(),
            });
            (WriteOutcome::Failed, 0)
        }
    }
}

/// Writes how many lines were left out.
#[tactic(auto, unfolding(crate::specs::Backlogs::left_out_text))]
fn write_left_out<W: Write>(writer: &mut W, count: u64) -> io::Result<()>
    ensures { OnOk result (Appends (W.contents writer.old) (W.contents writer.new) (left_out_text count)) }
{
    write!(writer, "log: {count} lines left out\n")
}

/// Returns how many bytes the next write has: whole lines, if the first one fits into a write.
fn front_size(octets: &[u8]) -> usize
    // `front_size` returns the bytes up to the last line feed of the first 4,096, or all of these if they have none.
    ensures value { result ≡ front_size octets.now }
    // The size that `front_size` returns is at most the number of bytes.
    ensures bound { result ≤ length octets.now }
{
    let most = octets.len().min(WRITE_MAX);
    let after = feed_from_end(&octets[..most]);
    cut_size(most, after)
}

/// Returns how many bytes come after the last line feed.
fn feed_from_end(octets: &[u8]) -> Option<usize>
    ensures { result ≡ feed_place (reverse octets.now) }
{
    octets.iter().rev().position(|octet| *octet == LINE_FEED)
}

/// Returns how many of the first bytes are up to the last line feed, if this many come after it.
fn cut_size(most: usize, after: Option<usize>) -> usize
    // `cut_size` returns `most` less the bytes `after`, and `most` if there is no line feed.
    ensures value { result ≡ cut_size most after }
    // The size that `cut_size` returns is at most `most`.
    ensures bound { result ≤ most }
{
    match after {
        Some(after) => most.saturating_sub(after),
        None => most,
    }
}

/// Removes bytes at the front.
fn remove_front(octets: &mut Vec<u8>, count: usize)
    requires { count ≤ length octets.old.items }
    ensures { octets.new.items ≡ drop count octets.old.items }
{
    let size = octets.len();
    octets.as_mut_slice().copy_within(count..size, 0);
    octets.truncate(size - count);
}
