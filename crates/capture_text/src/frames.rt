//! A recording, frame by frame.

ghost use Rattle.std.specs.Prelude.{◌≡◌, Some, ◌≤◌, ◌^◌, ◌<◌, length, OnOk, IfOk};
ghost use Rattle.std.specs.Io.KnownBytes.{Appends};
ghost use Rattle.capture.specs.Datagrams.{datagram_of};
ghost use Rattle.capture.specs.Numbers.{limited_sum};
ghost use Rattle.capture.specs.WholeCapture.{connections_after, damaged_count_after, forgotten_count_after, forgotten_totals_after, miscoded_count_after, remark_of};
ghost use Rattle.capture.specs.Frames.{datagram_in_frame};
ghost use Rattle.capture_text.specs.FaultText.{frame_text, frame_word};
ghost use Rattle.capture_text.specs.FrameSteps.{connections_after_frame, damaged_count_after_frame, datagrams_after_frame, fault_of_frame, first_time_after_frame, forgotten_count_after_frame, frame_content, forgotten_totals_after_frame, latest_time_after_frame, miscoded_count_after_frame, payload_at, record_of_frame, chosen_content, found_content, content_without_datagram, content_text, unreadable_count_after_frame, IsWithin};
ghost use Rattle.capture_text.specs.Skips.{count_frame_skip};
ghost use Rattle.capture_text.specs.Steps.{first_of, first_skipped, skip_reason, chosen_text};

use crate::course::{CaptureReading, FollowOptions, start, write_wanted};
use capture::{
    Entry, FoundDatagram, Link, NoDatagramCause, Record, decode, find_datagram, is_between,
    is_followed,
};
use std::io;
use std::io::Write;

/// Why the datagram of a frame is not read.
#[derive(Clone, Copy, Debug, PartialEq, Eq)]
pub enum FrameFault {
    /// Its link header is not known here.
    Link,
    /// The frame ends before its headers do: the recorder cut it off.
    Truncated,
    /// It is a fragment of a datagram. Fragments are not joined.
    Fragment,
    /// A length in its headers does not fit the others.
    Length,
}

/// Why a frame or a line is passed over without a fault.
#[derive(Clone, Copy, Debug, PartialEq, Eq)]
pub(crate) enum SkipReason {
    /// Its datagram has no chosen port.
    Port,
    /// Its datagram came at this time, in microseconds, which is not asked for.
    Time(u64),
    /// It carries no IP packet.
    NoIp,
    /// Its packet carries something other than UDP.
    NoUdp,
    /// Its packet carries another one that is not read.
    Tunnel,
}

/// The datagram of a frame.
#[derive(Clone, Copy, Debug, PartialEq, Eq)]
pub(crate) enum FrameContent {
    /// A datagram, with the places of its payload in the frame.
    Datagram(Record, usize, usize),
    /// Something that is not followed.
    Other(SkipReason),
    /// A datagram that is not read.
    Unread(FrameFault),
}

impl CaptureReading {
    /// Adds a frame of a recording, and writes what is printed of its datagram. Returns why a datagram is not read.
    ///
    /// Each frame counts as a line, even if it carries something else. `spare` is for a connection that begins.
    ///
    /// # Errors
    ///
    /// The error of the writer. What was written before it stays, and the frame has been added.
    pub fn take_frame<W: Write>(
        &mut self,
        asked: &FollowOptions,
        link: Option<Link>,
        time: u64,
        octets: &[u8],
        spare: Entry,
        writer: &mut W,
    ) -> io::Result<Option<FrameFault>>
        requires { length octets.now < 2 ^ 32 }
        // The count of lines grows by 1 for every frame.
        ensures lines { self.new.lines ≡ limited_sum self.old.lines 1 }
        // The first frame with a datagram of a chosen port sets the time; no other frame changes it (`frame_content`).
        ensures first { self.new.first ≡ first_time_after_frame self.old.first (frame_content asked.now self.old.first link time octets.now) }
        // The count of unreadable frames grows by 1 exactly if the datagram is not read; one without a chosen port is
        // not counted here.
        ensures unreadable { self.new.unreadable
            ≡ unreadable_count_after_frame self.old.unreadable (frame_content asked.now self.old.first link time octets.now) }
        // A followed datagram changes the connections as `connections_after` says; any other frame changes none.
        ensures connections { self.new.following.connections
            ≡ connections_after_frame asked.now.rule self.old.following.connections (limited_sum self.old.lines 1) octets.now
            (frame_content asked.now self.old.first link time octets.now) }
        // The count of datagrams grows by 1 exactly if the datagram of the frame is followed.
        ensures datagrams { self.new.following.datagrams
            ≡ datagrams_after_frame self.old.following.datagrams (frame_content asked.now self.old.first link time octets.now) }
        // The count of damaged datagrams grows by 1 exactly if the frame has a followed datagram that is not a PDU.
        ensures damaged { self.new.following.damaged
            ≡ damaged_count_after_frame asked.now.rule self.old.following.damaged octets.now
            (frame_content asked.now self.old.first link time octets.now) }
        // The count of datagrams with another safety code grows by 1 exactly if the frame has a followed one, as long
        // as none has the right code (`miscoded_count_after_frame`).
        ensures miscoded { self.new.following.miscoded
            ≡ miscoded_count_after_frame asked.now.rule self.old.following.miscoded octets.now
            (frame_content asked.now self.old.first link time octets.now) }
        // If a connection is forgotten for the datagram, its sums are added to those of the forgotten ones.
        ensures gone { self.new.following.gone
            ≡ forgotten_totals_after_frame asked.now.rule self.old.following.gone self.old.following.connections octets.now
            (frame_content asked.now self.old.first link time octets.now) }
        // If a connection is forgotten for the datagram, the count of forgotten ones grows by 1.
        ensures forgotten { self.new.following.forgotten
            ≡ forgotten_count_after_frame asked.now.rule self.old.following.forgotten self.old.following.connections octets.now
            (frame_content asked.now self.old.first link time octets.now) }
        // A frame without a followed datagram adds 1 to the count of its kind; any other changes none (`count_frame_skip`).
        ensures passed { self.new.passed ≡ count_frame_skip self.old.passed (frame_content asked.now self.old.first link time octets.now) }
        // A datagram that is followed sets the time of the last one; no other frame changes it (`latest_time_after_frame`).
        ensures latest { self.new.latest
            ≡ latest_time_after_frame self.old.latest (frame_content asked.now self.old.first link time octets.now) }
        // A frame does not change when sums are due.
        ensures due { self.new.due ≡ self.old.due }
        // The result is the fault of a frame that is not read, and `None` for any other frame.
        ensures fault { IfOk result (λ fault. fault ≡ fault_of_frame (frame_content asked.now self.old.first link time octets.now)) }
        // On success the line and telegrams of a followed datagram are appended, as far as they are asked for; for
        // any other frame, nothing is (`content_text`).
        ensures written { OnOk result (Appends (W.contents writer.old) (W.contents writer.new)
            (content_text asked.now self.old.first self.old.following.connections (limited_sum self.old.lines 1) octets.now
            (frame_content asked.now self.old.first link time octets.now))) }
    {
        self.lines = self.lines.saturating_add(1);
        let seen = look(asked, self.first, link, time, octets);
        self.passed.count_frame(&seen);
        match seen {
            FrameContent::Other(why) => {
                self.following.connections.keep_spare(spare);
                self.first = first_with(self.first, why);
                Ok(None)
            }
            FrameContent::Unread(fault) => {
                self.following.connections.keep_spare(spare);
                self.unreadable = self.unreadable.saturating_add(1);
                Ok(Some(fault))
            }
            FrameContent::Datagram(record, start, end) => {
                self.take_datagram(asked, &record, &octets[start..end], spare, writer)?;
                Ok(None)
            }
        }
    }

    /// Adds the datagram of a frame that was counted.
    fn take_datagram<W: Write>(
        &mut self,
        asked: &FollowOptions,
        record: &Record,
        payload: &[u8],
        spare: Entry,
        writer: &mut W,
    ) -> io::Result<()>
        // The datagram itself is not counted as a line.
        ensures lines { self.new.lines ≡ self.old.lines }
        // The time of the last datagram is that of this one.
        ensures latest { self.new.latest ≡ «record».now.time }
        // The datagram does not change when sums are due.
        ensures due { self.new.due ≡ self.old.due }
        // The datagram is not counted as passed over.
        ensures passed { self.new.passed ≡ self.old.passed }
        // The datagram is not counted as unreadable.
        ensures unreadable { self.new.unreadable ≡ self.old.unreadable }
        // The time of the first datagram is set if there was none.
        ensures first { self.new.first ≡ Some (first_of self.old.first «record».now.time) }
        // The connections are those after this datagram, decoded with the rule that was `asked`.
        ensures connections { self.new.following.connections
            ≡ connections_after self.old.following.connections self.old.lines «record».now
            (datagram_of asked.now.rule payload.now) }
        // The datagram is counted.
        ensures datagrams { self.new.following.datagrams ≡ limited_sum self.old.following.datagrams 1 }
        // The datagram is counted as damaged exactly if it is not a PDU.
        ensures damaged { self.new.following.damaged
            ≡ damaged_count_after self.old.following.damaged (datagram_of asked.now.rule payload.now) }
        // The datagram is counted as one with another safety code, or shows that the code is right.
        ensures miscoded { self.new.following.miscoded
            ≡ miscoded_count_after self.old.following.miscoded (datagram_of asked.now.rule payload.now) }
        // The sums of a connection that is forgotten for the datagram are kept.
        ensures gone { self.new.following.gone
            ≡ forgotten_totals_after self.old.following.gone self.old.following.connections «record».now
            (datagram_of asked.now.rule payload.now) }
        // A connection that is forgotten for the datagram is counted.
        ensures forgotten { self.new.following.forgotten
            ≡ forgotten_count_after self.old.following.forgotten self.old.following.connections «record».now
            (datagram_of asked.now.rule payload.now) }
        // On success the line and the telegrams of the datagram are appended, as far as they are asked for.
        ensures written { OnOk result (Appends (W.contents writer.old) (W.contents writer.new)
            (chosen_text asked.now (first_of self.old.first «record».now.time) self.old.lines «record».now
            (remark_of self.old.following.connections self.old.lines «record».now
            (datagram_of asked.now.rule payload.now)) payload.now)) }
    {
        let number = self.lines;
        let heard = decode(payload, &asked.rule);
        let remark = self.following.add(number, record, &heard, spare);
        let first = start(self.first, record.time);
        self.first = Some(first);
        self.latest = record.time;
        write_wanted(writer, asked, first, number, record, &remark, payload)
    }
}

/// Finds the datagram of a frame.
fn look(
    asked: &FollowOptions,
    first: Option<u64>,
    link: Option<Link>,
    time: u64,
    octets: &[u8],
) -> FrameContent
    requires { length octets.now < 2 ^ 32 }
    // An unknown link header is a fault. A datagram that is found is kept if one of its ports is chosen and its time
    // is asked for, and is otherwise passed over (`frame_content`).
    ensures seen { result ≡ frame_content asked.now first link time octets.now }
    // The places of a payload are within the frame.
    ensures within { IsWithin (length octets.now) result }
{
    match link {
        None => FrameContent::Unread(FrameFault::Link),
        Some(link) => match find_datagram(link, octets) {
            Ok(found) => choose(
                asked,
                first,
                record_of(time, &found),
                found.start,
                found.end,
            ),
            Err(why) => pass(why),
        },
    }
}

/// Returns a datagram that was found if it is followed, or why it is passed over.
fn choose(
    asked: &FollowOptions,
    first: Option<u64>,
    record: Record,
    start: usize,
    end: usize,
) -> FrameContent
    requires { start ≤ end }
    // A datagram is followed if one of its ports is chosen and its time is asked for (`chosen_content`).
    ensures seen { result ≡ chosen_content asked.now first «record» start end }
    // The places of a chosen payload are those that were found.
    ensures within { IsWithin end result }
{
    match skip(asked, first, &record) {
        None => FrameContent::Datagram(record, start, end),
        Some(why) => FrameContent::Other(why),
    }
}

/// Returns why a datagram is passed over; `None` if it is followed.
pub(crate) fn skip(asked: &FollowOptions, first: Option<u64>, record: &Record) -> Option<SkipReason>
    ensures { result ≡ skip_reason asked.now first «record».now }
{
    if !is_followed(&asked.ports, record) {
        return Some(SkipReason::Port);
    }
    let time = record.time;
    if is_between(&asked.span, start(first, time), time) {
        return None;
    }
    Some(SkipReason::Time(time))
}

/// Returns the time of the first datagram after something that is passed over.
pub(crate) fn first_with(first: Option<u64>, why: SkipReason) -> Option<u64>
    ensures { result ≡ first_skipped first why }
{
    match why {
        SkipReason::Time(time) => Some(start(first, time)),
        SkipReason::Port | SkipReason::NoIp | SkipReason::NoUdp | SkipReason::Tunnel => first,
    }
}

/// Returns the record of a datagram that was found.
fn record_of(time: u64, found: &FoundDatagram) -> Record
    requires { found.now.start ≤ found.now.end }
    ensures { result ≡ record_of_frame time found.now }
{
    Record {
        time,
        source: found.source,
        destination: found.destination,
        size: found.end - found.start,
    }
}

/// Returns what a frame without a readable datagram is.
fn pass(why: NoDatagramCause) -> FrameContent
    // What is not UDP over IP is passed over; any other reason is a fault (`content_without_datagram`).
    ensures seen { result ≡ content_without_datagram why }
    // A frame that is passed over has no payload outside of it.
    ensures within { IsWithin 0 result }
{
    match why {
        NoDatagramCause::NoIp => FrameContent::Other(SkipReason::NoIp),
        NoDatagramCause::NoUdp => FrameContent::Other(SkipReason::NoUdp),
        NoDatagramCause::Tunnel => FrameContent::Other(SkipReason::Tunnel),
        NoDatagramCause::Truncated => FrameContent::Unread(FrameFault::Truncated),
        NoDatagramCause::Fragment => FrameContent::Unread(FrameFault::Fragment),
        NoDatagramCause::Length => FrameContent::Unread(FrameFault::Length),
    }
}

/// Writes why the datagram of a frame is not read.
///
/// # Errors
///
/// The error of the writer. What was written before it stays.
#[tactic(auto, unfolding(crate::specs::FaultText::frame_text))]
pub fn write_frame_fault<W: Write>(writer: &mut W, number: u64, fault: FrameFault) -> io::Result<()>
    // On success the `number` of the frame and the word of its `fault` are appended, with a line feed.
    ensures { OnOk result (Appends (W.contents writer.old) (W.contents writer.new) (frame_text number fault)) }
{
    let word = word_of(fault);
    writeln!(writer, "frame {number}: unreadable: {word}")
}

/// Returns the word of a frame's fault.
fn word_of(fault: FrameFault) -> &'static str
    ensures { result.now ≡ frame_word fault }
{
    match fault {
        FrameFault::Link => "link",
        FrameFault::Truncated => "truncated",
        FrameFault::Fragment => "fragment",
        FrameFault::Length => "length",
    }
}
