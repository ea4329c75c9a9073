//! A capture, read line by line or frame by frame.

ghost use Rattle.std.specs.Prelude.{◌≡◌, ◌≤◌, [], None, Some, take, OnOk, IfOk};
ghost use Rattle.std.specs.Io.KnownBytes.{Appends};
ghost use Rattle.capture.specs.Datagrams.{datagram_of};
ghost use Rattle.capture.specs.Lines.{line_of};
ghost use Rattle.capture.specs.Numbers.{limited_sum};
ghost use Rattle.capture.specs.WholeCapture.{connections_after, damaged_count_after, forgotten_count_after, forgotten_totals_after, no_totals, remark_of};
ghost use Rattle.capture_text.specs.FaultText.{fault_text, fault_word};
ghost use Rattle.capture_text.specs.Skips.{no_skips, count_line_skip};
ghost use Rattle.capture_text.specs.Steps.{asked_telegrams, connections_after_line, counts_of, course_text, damaged_count_after_line, due_next, due_text, datagrams_after_line, fault_in, first_time_after_line, first_of, forgotten_count_after_line, line_remark, line_text, forgotten_totals_after_line, followed_datagram, line_datagram, is_due, latest_time_after_line, miscoded_count_after_line, next_period, payload_in, scale_from, form_text, chosen_text, unreadable_count_after_line};

use crate::advice::write_advice;
use crate::choice::{Remarkable, is_wanted};
use crate::events::write_events;
use crate::frames::{SkipReason, first_with, skip};
use crate::json::write_json;
use crate::pieces::{Clock, TimeForm};
use crate::record::write_record;
use crate::skips::SkipCounts;
use crate::summary::{CaptureCounts, Scale, write_summary};
use crate::telegrams::write_telegrams;
use capture::{
    Buffer, DecodedDatagram, Entry, Follower, LineFault, PAYLOAD_ROOM, Ports, Record, Remark, Span,
    decode, read_line,
};
use safe_pdu::CodeRule;
use std::alloc::{AllocError, Global};
use std::io;
use std::io::Write;

/// The form of the output.
#[derive(Clone, Copy, Debug, PartialEq, Eq)]
pub enum OutputForm {
    /// A line for each datagram, then the sums in lines.
    Lines,
    /// Only the sums, as one JSON object, so that all of standard output is one object.
    Json,
    /// A JSON object in a line for each event, then the sums as with `Json`.
    Events,
}

/// The options of a run.
#[derive(Clone, Copy, Debug, PartialEq, Eq)]
pub struct FollowOptions {
    /// The rule of the safety code.
    pub rule: CodeRule,
    /// Only lines with this remark are printed; `None` prints all.
    pub only: Option<Remarkable>,
    /// T_max in milliseconds, with which ages and waits are compared.
    pub t_max: u32,
    /// Prints the telegrams of a datagram after its line.
    pub messages: bool,
    /// Only datagrams with one of these ports are followed and counted; `None` follows all.
    pub ports: Option<Ports>,
    /// The form of the output.
    pub form: OutputForm,
    /// The form of times in lines.
    pub time: TimeForm,
    /// Only datagrams in this time are followed and counted.
    pub span: Span,
    /// The sums so far are also printed each time that these seconds have passed in the recording; at least 1.
    pub every: Option<u32>,
    /// Also prints the distributions of each connection, and the settings that fit it, with the sums.
    pub choose: bool,
}

/// Why no datagram of a line is followed.
#[derive(Clone, Copy, Debug, PartialEq, Eq)]
pub(crate) enum SkipCause {
    /// The line is not a datagram.
    Fault(LineFault),
    /// Its datagram is passed over.
    Chosen(SkipReason),
}

/// The state of a capture that is being read.
#[derive(Drop)]
pub struct CaptureReading {
    /// What is kept of its datagrams.
    pub following: Follower,
    /// The time of the first datagram, in microseconds; `None` before it.
    pub first: Option<u64>,
    /// How many lines or frames were read.
    pub lines: u64,
    /// How many of them were not a datagram.
    pub unreadable: u64,
    /// How many of them were passed over, by kind.
    pub passed: SkipCounts,
    /// The time of the last datagram that was followed, in microseconds; 0 before it.
    pub latest: u64,
    /// The time from which on sums are due, in microseconds; `None` before the first datagram.
    pub due: Option<u64>,
}

impl CaptureReading {
    /// Returns the state before the first line.
    ///
    /// # Errors
    ///
    /// `AllocError` if there is too little memory.
    pub fn new(alloc: Global) -> Result<Self, AllocError>
        // A new `CaptureReading` has no connection.
        ensures connections { IfOk result (λ course. course.following.connections ≡ []) }
        // A new `CaptureReading` has counted no datagram.
        ensures datagrams { IfOk result (λ course. course.following.datagrams ≡ 0) }
        // A new `CaptureReading` has counted no damaged datagram.
        ensures damaged { IfOk result (λ course. course.following.damaged ≡ 0) }
        // A new `CaptureReading` has counted no datagram with another safety code, and none with the right one.
        ensures miscoded { IfOk result (λ course. course.following.miscoded ≡ Some 0) }
        // A new `CaptureReading` has no sums of forgotten connections.
        ensures gone { IfOk result (λ course. course.following.gone ≡ no_totals) }
        // A new `CaptureReading` has forgotten no connection.
        ensures forgotten { IfOk result (λ course. course.following.forgotten ≡ 0) }
        // A new `CaptureReading` has no time of a first datagram.
        ensures first { IfOk result (λ course. course.first ≡ None) }
        // A new `CaptureReading` has read no line.
        ensures lines { IfOk result (λ course. course.lines ≡ 0) }
        // A new `CaptureReading` has no unreadable line.
        ensures unreadable { IfOk result (λ course. course.unreadable ≡ 0) }
        // A new `CaptureReading` has passed over nothing.
        ensures passed { IfOk result (λ course. course.passed ≡ no_skips) }
        // A new `CaptureReading` has no time of a last datagram.
        ensures latest { IfOk result (λ course. course.latest ≡ 0) }
        // A new `CaptureReading` has no time at which sums are due.
        ensures due { IfOk result (λ course. course.due ≡ None) }
    {
        Ok(CaptureReading {
            following: Follower::new(alloc)?,
            first: None,
            lines: 0,
            unreadable: 0,
            passed: SkipCounts::new(),
            latest: 0,
            due: None,
        })
    }

    /// Adds a line without its line feed, and writes what is printed of it. Returns the fault of a line that is not a
    /// datagram.
    ///
    /// A datagram that is passed over counts only as a line and by its kind. `buffer` is for the payload, and `spare` for
    /// a connection that begins (`take_spare`).
    ///
    /// # Errors
    ///
    /// The error of the writer. What was written before it stays, and the line has been added.
    pub fn take_line<W: Write>(
        &mut self,
        asked: &FollowOptions,
        line: &[u8],
        buffer: &mut Buffer,
        spare: Entry,
        writer: &mut W,
    ) -> io::Result<Option<LineFault>>
        // The count of lines grows by 1 for every line.
        ensures lines { self.new.lines ≡ limited_sum self.old.lines 1 }
        // The first datagram of a chosen port sets the time; no other line changes it (`first_time_after_line`).
        ensures first { self.new.first ≡ first_time_after_line self.old.first
            (line_remark self.old.following.connections (limited_sum self.old.lines 1)
            (line_datagram asked.now self.old.first (line_of line.now))) }
        // The count of unreadable lines grows by 1 exactly if the line is not a datagram; one without a chosen port
        // is not counted here (`line_datagram`).
        ensures unreadable { self.new.unreadable ≡ unreadable_count_after_line self.old.unreadable
            (line_remark self.old.following.connections (limited_sum self.old.lines 1)
            (line_datagram asked.now self.old.first (line_of line.now))) }
        // A followed datagram changes the connections as `connections_after` says; any other line changes none.
        ensures connections { self.new.following.connections
            ≡ connections_after_line self.old.following.connections (limited_sum self.old.lines 1)
            (line_datagram asked.now self.old.first (line_of line.now)) }
        // The count of datagrams grows by 1 exactly if the datagram of the line is followed (`datagrams_after_line`).
        ensures datagrams { self.new.following.datagrams
            ≡ datagrams_after_line self.old.following.datagrams (line_datagram asked.now self.old.first (line_of line.now)) }
        // If a connection is forgotten for the datagram, its sums are added to those of the forgotten ones
        // (`forgotten_totals_after_line`).
        ensures gone { self.new.following.gone
            ≡ forgotten_totals_after_line self.old.following.gone self.old.following.connections
            (line_datagram asked.now self.old.first (line_of line.now)) }
        // The count of damaged datagrams grows by 1 exactly if a followed datagram is not a PDU.
        ensures damaged { self.new.following.damaged
            ≡ damaged_count_after_line self.old.following.damaged (line_datagram asked.now self.old.first (line_of line.now)) }
        // The count of datagrams with another safety code grows by 1 exactly if a followed datagram has another, as
        // long as none has the right one (`miscoded_count_after_line`).
        ensures miscoded { self.new.following.miscoded
            ≡ miscoded_count_after_line self.old.following.miscoded (line_datagram asked.now self.old.first (line_of line.now)) }
        // If a connection is forgotten for the datagram, the count of forgotten ones grows by 1 (`forgotten_count_after_line`).
        ensures forgotten { self.new.following.forgotten
            ≡ forgotten_count_after_line self.old.following.forgotten self.old.following.connections
            (line_datagram asked.now self.old.first (line_of line.now)) }
        // A datagram without a chosen port, or at another time than is asked for, is counted as passed over; any other
        // line is not.
        ensures passed { self.new.passed ≡ count_line_skip self.old.passed (line_datagram asked.now self.old.first (line_of line.now)) }
        // A datagram that is followed sets the time of the last one; no other line changes it (`latest_time_after_line`).
        ensures latest { self.new.latest ≡ latest_time_after_line self.old.latest
            (line_remark self.old.following.connections (limited_sum self.old.lines 1)
            (line_datagram asked.now self.old.first (line_of line.now))) }
        // The time at which sums are due stays.
        ensures due { self.new.due ≡ self.old.due }
        // The result is the fault of a line that is not a datagram, and `None` for any other line.
        ensures fault { IfOk result (λ fault. fault ≡ fault_in
            (line_remark self.old.following.connections (limited_sum self.old.lines 1)
            (line_datagram asked.now self.old.first (line_of line.now)))) }
        // On success the line of a followed datagram is appended, if its remark is chosen and the form is lines; then
        // its telegrams, if they are asked for. For any other line nothing is appended.
        ensures written { OnOk result (Appends (W.contents writer.old) (W.contents writer.new)
            (line_text asked.now self.old.first (limited_sum self.old.lines 1) (payload_in (line_of line.now))
            (line_remark self.old.following.connections (limited_sum self.old.lines 1)
            (line_datagram asked.now self.old.first (line_of line.now))))) }
    {
        self.lines = self.lines.saturating_add(1);
        let (size, heard) = decode_line(asked, self.first, line, buffer);
        pass_line(&mut self.passed, &heard);
        let found = follow(&mut self.following, self.lines, heard, spare);
        self.write_found(asked, found, &buffer[..size], writer)
    }

    /// Returns an entry for a connection that the next line or frame may begin.
    ///
    /// # Errors
    ///
    /// `AllocError` if there is too little memory.
    pub fn take_spare(&mut self) -> Result<Entry, AllocError>
        // Nothing is counted, and no connection changes, also if there is too little memory.
        ensures { self.new ≡ self.old }
    {
        self.following.connections.take_spare()
    }

    /// Adds a line that was too long to be kept.
    pub fn pass_long(&mut self)
        // A line that is too long changes nothing in the connections and their counts.
        ensures following { self.new.following ≡ self.old.following }
        // A line that is too long does not set the time of the last datagram.
        ensures latest { self.new.latest ≡ self.old.latest }
        // A line that is too long does not change when sums are due.
        ensures due { self.new.due ≡ self.old.due }
        // A line that is too long is not counted as passed over.
        ensures passed { self.new.passed ≡ self.old.passed }
        // A line that is too long does not set the time of the first datagram.
        ensures first { self.new.first ≡ self.old.first }
        // A line that is too long is counted as a line.
        ensures lines { self.new.lines ≡ limited_sum self.old.lines 1 }
        // A line that is too long is counted as unreadable.
        ensures unreadable { self.new.unreadable ≡ limited_sum self.old.unreadable 1 }
    {
        let unreadable = self.unreadable;
        self.lines = self.lines.saturating_add(1);
        self.unreadable = unreadable.saturating_add(1);
    }

    /// Writes what is printed of a line.
    fn write_found<W: Write>(
        &mut self,
        asked: &FollowOptions,
        found: Result<(Record, Remark), SkipCause>,
        datagram: &[u8],
        writer: &mut W,
    ) -> io::Result<Option<LineFault>>
        // Printing changes nothing in the connections and their counts.
        ensures following { self.new.following ≡ self.old.following }
        // A datagram that was `found` sets the time of the last one.
        ensures latest { self.new.latest ≡ latest_time_after_line self.old.latest found }
        // Printing does not change when sums are due.
        ensures due { self.new.due ≡ self.old.due }
        // Printing does not count what is passed over.
        ensures passed { self.new.passed ≡ self.old.passed }
        // Printing does not count a line.
        ensures lines { self.new.lines ≡ self.old.lines }
        // A datagram that was `found` sets the time of the first one, if that is not set.
        ensures first { self.new.first ≡ first_time_after_line self.old.first found }
        // A fault that was `found` is counted as unreadable.
        ensures unreadable { self.new.unreadable ≡ unreadable_count_after_line self.old.unreadable found }
        // The result is the fault that was `found`, if any.
        ensures fault { IfOk result (λ fault. fault ≡ fault_in found) }
        // On success the text of the `datagram` that was found is appended; for a fault or a datagram that is not
        // followed, nothing is.
        ensures written { OnOk result (Appends (W.contents writer.old) (W.contents writer.new)
            (line_text asked.now self.old.first self.old.lines datagram.now found)) }
    {
        match found {
            Ok((record, remark)) => {
                let first = start(self.first, record.time);
                self.first = Some(first);
                self.latest = record.time;
                write_wanted(writer, asked, first, self.lines, &record, &remark, datagram)?;
                Ok(None)
            }
            Err(SkipCause::Chosen(why)) => {
                self.first = first_with(self.first, why);
                Ok(None)
            }
            Err(SkipCause::Fault(fault)) => {
                self.unreadable = self.unreadable.saturating_add(1);
                Ok(Some(fault))
            }
        }
    }

    /// Writes the sums so far, if they are due, and sets when they are due next.
    ///
    /// # Errors
    ///
    /// The error of the writer. What was written before it stays, and the next time is set.
    pub fn sum_if_due<W: Write>(&mut self, asked: &FollowOptions, writer: &mut W) -> io::Result<()>
        // The sums are due next after whole periods since the first datagram, if they were due (`due_next`).
        ensures due { self.new.due ≡ due_next asked.now.every self.old.due self.old.first self.old.latest }
        // The sums change nothing in the connections and their counts.
        ensures following { self.new.following ≡ self.old.following }
        // The sums do not change the time of the first datagram.
        ensures first { self.new.first ≡ self.old.first }
        // The sums do not change the time of the last datagram.
        ensures latest { self.new.latest ≡ self.old.latest }
        // The sums are not counted as a line.
        ensures lines { self.new.lines ≡ self.old.lines }
        // The sums are not counted as unreadable.
        ensures unreadable { self.new.unreadable ≡ self.old.unreadable }
        // The sums are not counted as passed over.
        ensures passed { self.new.passed ≡ self.old.passed }
        // On success all sums so far are appended if they are due; otherwise nothing is (`due_text`).
        ensures written { OnOk result (Appends (W.contents writer.old) (W.contents writer.new)
            (due_text (is_due self.old.due self.old.latest)
            (course_text asked.now self.old.first self.old.following.gone self.old.following.connections
            (counts_of self.old.following.datagrams self.old.following.damaged self.old.following.forgotten
            self.old.unreadable self.old.lines self.old.passed)))) }
    {
        let is_due = has_passed(self.due, self.latest);
        self.due = next_due(asked.every, self.due, self.first, self.latest);
        if is_due {
            return self.sum(asked, writer);
        }
        Ok(())
    }

    /// Writes the sums over all lines so far, as lines or as one JSON object.
    ///
    /// # Errors
    ///
    /// The error of the writer. What was written before it stays.
    pub fn sum<W: Write>(&self, asked: &FollowOptions, writer: &mut W) -> io::Result<()>
        // On success the sums over all kept and forgotten connections are appended, with the counts of the course, in
        // the form that was `asked` for (`course_text`).
        ensures { OnOk result (Appends (W.contents writer.old) (W.contents writer.new)
            (course_text asked.now self.now.first self.now.following.gone self.now.following.connections
            (counts_of self.now.following.datagrams self.now.following.damaged self.now.following.forgotten
            self.now.unreadable self.now.lines self.now.passed))) }
    {
        let scale = scale(asked, start(self.first, 0));
        let counts = CaptureCounts {
            datagrams: self.following.datagrams,
            damaged: self.following.damaged,
            forgotten: self.following.forgotten,
            unreadable: self.unreadable,
            frames: self.lines,
            passed: self.passed,
        };
        let connections = self.following.connections.as_slice();
        let gone = self.following.gone;
        match asked.form {
            OutputForm::Lines => {
                write_summary(writer, scale, gone, connections, counts)?;
                write_advice(writer, asked.choose, connections)?;
                Ok(())
            }
            OutputForm::Json | OutputForm::Events => {
                write_json(writer, scale, gone, connections, counts, asked.choose)
            }
        }
    }
}

/// Returns `true` if sums are due at a time.
fn has_passed(due: Option<u64>, time: u64) -> bool
    ensures { result ≡ is_due due time }
{
    match due {
        None => false,
        Some(due) => due <= time,
    }
}

/// Returns when sums are due next, after a datagram at a time.
fn next_due(every: Option<u32>, due: Option<u64>, first: Option<u64>, time: u64) -> Option<u64>
    ensures { result ≡ due_next every due first time }
{
    let seconds = every?;
    let first = first?;
    if has_passed(due, time) || due.is_none() {
        return Some(after_periods(seconds, first, time));
    }
    due
}

/// Returns the next time after whole periods of `seconds` since the first datagram.
fn after_periods(seconds: u32, first: u64, time: u64) -> u64
    ensures { result ≡ next_period seconds first time }
{
    let period = seconds.max(1) as u64 * 1_000_000;
    let periods = time.saturating_sub(first) / period + 1;
    first.saturating_add(periods.saturating_mul(period))
}

/// Returns the time of the first datagram, or this time.
pub(crate) fn start(first: Option<u64>, time: u64) -> u64
    ensures { result ≡ first_of first time }
{
    match first {
        None => time,
        Some(first) => first,
    }
}

/// Reads a line, and returns the size of its payload and its decoded datagram.
fn decode_line(
    asked: &FollowOptions,
    first: Option<u64>,
    line: &[u8],
    buffer: &mut Buffer,
) -> (usize, Result<(Record, DecodedDatagram), SkipCause>)
    // The second result is the decoded datagram of the line, or the reason why none is followed (`line_datagram`).
    ensures heard { result.1 ≡ line_datagram asked.now first (line_of line.now) }
    // The first bytes of the `buffer`, as many as the first result, are the payload of the line.
    ensures payload { take result.0 buffer.new ≡ payload_in (line_of line.now) }
    // The size of the payload is at most `PAYLOAD_ROOM`.
    ensures fits { result.0 ≤ PAYLOAD_ROOM }
{
    match read_line(line, buffer) {
        Ok(record) => {
            let heard = decode_followed(asked, first, &record, &buffer[..record.size]);
            (record.size, heard)
        }
        Err(fault) => (0, Err(SkipCause::Fault(fault))),
    }
}

/// Counts a line whose datagram is passed over.
fn pass_line(passed: &mut SkipCounts, heard: &Result<(Record, DecodedDatagram), SkipCause>)
    ensures { passed.new ≡ count_line_skip passed.old heard.now }
{
    match heard {
        Ok(_) | Err(SkipCause::Fault(_)) => {}
        Err(SkipCause::Chosen(why)) => passed.count_skipped(*why),
    }
}

/// Decodes a datagram if it is followed.
fn decode_followed(
    asked: &FollowOptions,
    first: Option<u64>,
    record: &Record,
    octets: &[u8],
) -> Result<(Record, DecodedDatagram), SkipCause>
    ensures { result ≡ followed_datagram asked.now first «record».now octets.now }
{
    match skip(asked, first, record) {
        None => Ok((*record, decode(octets, &asked.rule))),
        Some(why) => Err(SkipCause::Chosen(why)),
    }
}

/// Adds the datagram of a line to the connections.
fn follow(
    following: &mut Follower,
    number: u64,
    heard: Result<(Record, DecodedDatagram), SkipCause>,
    spare: Entry,
) -> Result<(Record, Remark), SkipCause>
    // The result is the remark on a datagram that is followed; the reason for any other stays (`line_remark`).
    ensures found { result ≡ line_remark following.old.connections number heard }
    // Only a datagram that is followed changes the connections.
    ensures connections { following.new.connections
        ≡ connections_after_line following.old.connections number heard }
    // Only a datagram that is followed adds to the count of datagrams.
    ensures datagrams { following.new.datagrams ≡ datagrams_after_line following.old.datagrams heard }
    // Only a followed datagram that is not a PDU adds to the count of damaged ones.
    ensures damaged { following.new.damaged ≡ damaged_count_after_line following.old.damaged heard }
    // Only a followed datagram changes the count of those with another safety code.
    ensures miscoded { following.new.miscoded ≡ miscoded_count_after_line following.old.miscoded heard }
    // If the datagram makes a connection forgotten, its sums are kept.
    ensures gone { following.new.gone
        ≡ forgotten_totals_after_line following.old.gone following.old.connections heard }
    // If the datagram makes a connection forgotten, that is counted.
    ensures forgotten { following.new.forgotten
        ≡ forgotten_count_after_line following.old.forgotten following.old.connections heard }
{
    match heard {
        Ok((record, heard)) => {
            let remark = following.add(number, &record, &heard, spare);
            Ok((record, remark))
        }
        Err(why) => {
            following.connections.keep_spare(spare);
            Err(why)
        }
    }
}

/// Writes what is asked for of a datagram, if its remark is chosen.
pub(crate) fn write_wanted<W: Write>(
    writer: &mut W,
    asked: &FollowOptions,
    first: u64,
    number: u64,
    record: &Record,
    remark: &Remark,
    datagram: &[u8],
) -> io::Result<()>
    ensures { OnOk result (Appends (W.contents writer.old) (W.contents writer.new)
        (chosen_text asked.now first number «record».now remark.now datagram.now)) }
{
    if !is_wanted(asked.only, asked.t_max, remark) {
        return Ok(());
    }
    write_told(writer, asked, first, number, record, remark, datagram)
}

/// Writes a datagram in the form that is asked for.
fn write_told<W: Write>(
    writer: &mut W,
    asked: &FollowOptions,
    first: u64,
    number: u64,
    record: &Record,
    remark: &Remark,
    datagram: &[u8],
) -> io::Result<()>
    ensures { OnOk result (Appends (W.contents writer.old) (W.contents writer.new)
        (form_text asked.now.form asked.now first number «record».now remark.now datagram.now)) }
{
    match asked.form {
        OutputForm::Lines => {
            write_record(writer, scale(asked, first), number, record, remark)?;
            write_asked(writer, asked, datagram)
        }
        OutputForm::Json => Ok(()),
        OutputForm::Events => write_events(writer, scale(asked, first), number, record, remark),
    }
}

/// Returns how times, ages and waits are printed.
fn scale(asked: &FollowOptions, first: u64) -> Scale
    ensures { result ≡ scale_from asked.now first }
{
    Scale {
        clock: Clock {
            first,
            form: asked.time,
        },
        t_max: asked.t_max,
    }
}

/// Writes the telegrams of a datagram, if they are asked for.
fn write_asked<W: Write>(writer: &mut W, asked: &FollowOptions, datagram: &[u8]) -> io::Result<()>
    ensures { OnOk result (Appends (W.contents writer.old) (W.contents writer.new)
        (asked_telegrams asked.now datagram.now)) }
{
    if asked.messages {
        return write_telegrams(writer, &asked.rule, datagram);
    }
    Ok(())
}

/// Writes why a line is not a datagram.
///
/// # Errors
///
/// The error of the writer. What was written before it stays.
#[tactic(auto, unfolding(crate::specs::FaultText::fault_text))]
pub fn write_fault<W: Write>(writer: &mut W, number: u64, fault: LineFault) -> io::Result<()>
    // On success the `number` of the line and the words of its `fault` are appended, with a line feed.
    ensures { OnOk result (Appends (W.contents writer.old) (W.contents writer.new) (fault_text number fault)) }
{
    let word = name_of_fault(fault);
    writeln!(writer, "line {number}: unreadable: {word}")
}

/// Returns the words of a fault.
fn name_of_fault(fault: LineFault) -> &'static str
    ensures { result.now ≡ fault_word fault }
{
    match fault {
        LineFault::Fields => "not six fields",
        LineFault::Time => "time",
        LineFault::Source => "source",
        LineFault::Destination => "destination",
        LineFault::Long => "too long",
        LineFault::Payload => "payload",
    }
}
