//! The log of an end on standard error: its events, line by line, and its silent channels.
//!
//! The events of a turn are kept in a ring of 256 and logged after the reception; the log says how many were left
//! out.

ghost use Rattle.std.specs.Prelude.{◌≡◌, ◌+◌, ◌<◌, ◌&&◌, ◌||◌, not, Bool, None, Some, false, nat_le, slice_index_or, slice_set, true, OnOk, if◌then◌else◌};
ghost use Rattle.octets.specs.declared.limits.TheConstants.{CHANNELS_MAX};
ghost use Rattle.std.specs.Io.KnownBytes.{Appends};
ghost use Rattle.rasta_run.specs.Silence.{silence_now, all_silences, silence_change_of, silences_at, new_silence};
ghost use Rattle.rasta_run.specs.LineTimes.{LogsLine, LogsChange, LogsEvent, LogsNotice, stamp_of};
ghost use Rattle.pdu_text.specs.LastLines.{final_state_text};
ghost use Rattle.pdu_text.specs.LogLines.{channel_text, missing_lines_text};
ghost use Rattle.pdu_text.specs.Pieces.{log_line};
ghost use Rattle.rasta_run.specs.Notices.{notice_line};
ghost use Rattle.rasta_run.specs.ChannelFailures.{all_calls, notice_at, calls_at};
ghost use Rattle.rasta_run.specs.declared.channel_failures.Call.TheVariants as Call;
ghost use Rattle.rasta_run.specs.LogEvents as telling;
ghost use Rattle.rasta_run.specs.Pauses as pausing;
ghost use Rattle.end_settings.specs.ConfigValue.{settings_of};
ghost use Rattle.stack_end.specs.EndValue.{inside};

use crate::channel_failures::{Call, CallFailures};
use crate::events::{
    dropped_cause, drops_after, explanation_of, is_of_opening, is_repeat, is_session_fault,
    logged_departure_of,
};
use crate::header::body_of;
use crate::line_times::{Stamp, write_stamped, zero_of};
use crate::notices::{
    Notice, are_drops_due, asked_by, drops_notice, is_wrong_request, request_notice,
    version_notice, write_notice, wrong_request_notice,
};
use crate::pauses::{PeerPauses, is_timeout, pause_notice, pauses_after};
use crate::silence::{ChannelSilence, SilenceChange};
use crate::{Recorder, RunCounts};
use arrayvec::ArrayVec;
use channels::Channels;
use end_settings::{EndConfig, Side};
use octets::Milliseconds;
use octets::limits::CHANNELS_MAX;
use pdu_text::{
    Cause, Departure, EndEvent, FinalState, show_body, write_channel, write_ending,
    write_happening, write_missed, write_text,
};
use rasta_words::{LogLevel, LogTime};
use safe_machine::ConnectionState;
use safe_pdu::Kind;
use settings_file::Settings;
use settings_text::write_expected;
use stack_end::{End, Statistics};
use std::alloc::Allocator;
use std::io;
use std::io::Write;
use std::time::Clock;

/// The room for a line of the log, in bytes. The longest one names both addresses of a channel.
type LogLine = ArrayVec<u8, 1_024>;

/// The greatest number of causes for dropping that are logged once at the level of states.
const CAUSES_MAX: usize = 16;

/// The log of an end. A failing output is ignored: the run goes on.
#[derive(Clone, Copy, Debug)]
pub struct Log {
    /// The end.
    side: Side,
    /// The level of the log.
    level: LogLevel,
    /// The time at the start of its lines.
    time: LogTime,
    /// Whether the lines of telegrams have that time, too.
    stamps: bool,
    /// The time in UTC at which the clock of the run was 0, in milliseconds since 1970; 0 if the system gives none.
    zero: Milliseconds,
    /// T_max of the end, in milliseconds.
    t_max: Milliseconds,
    /// The number of events that were logged.
    told: u64,
    /// When each channel last received something.
    channels: [ChannelSilence; CHANNELS_MAX],
    /// The number of channels.
    count: usize,
    /// The causes for which a datagram was dropped so far, as many as have room.
    causes: [Option<Cause>; CAUSES_MAX],
    /// The number of these causes.
    cause_count: usize,
    /// Whether openings are only counted, because several in a row got no session that lasted.
    is_quiet: bool,
    /// The number of datagrams dropped for these causes since that was last logged.
    drops: u64,
    /// When that was, in milliseconds.
    drops_at: Milliseconds,
    /// Whether the sends of each channel fail.
    sends: [CallFailures; CHANNELS_MAX],
    /// Whether the receptions of each channel fail.
    receptions: [CallFailures; CHANNELS_MAX],
    /// Since when a retransmission is awaited, in milliseconds, if one is.
    asked: Option<u64>,
    /// When PDUs of the peer came, if the end is connected.
    pauses: Option<PeerPauses>,
    /// Whether it was logged that a connection request came at an interlocking.
    has_request: bool,
    /// The version of RaSTA of the peer that was last logged.
    version: Option<u32>,
    /// The length of the safety code, in bytes.
    code: usize,
}

impl Log {
    /// Returns the log of an end that is opened now.
    pub fn new(
        side: Side,
        level: LogLevel,
        time: LogTime,
        stamps: bool,
        settings: &Settings,
        now: Milliseconds,
    ) -> Self
        // A new log is of this end, with this level, this time in its lines and the T_max of the settings.
        ensures { (result.side ≡ side) × (result.level ≡ level) × (result.time ≡ time) × (result.stamps ≡ stamps)
            × (result.t_max ≡ settings.now.config.t_max) × (result.told ≡ 0) × (result.is_quiet ≡ false)
            × (result.drops ≡ 0) × (result.drops_at ≡ now) × (result.asked ≡ None)
            × (result.has_request ≡ false) × (result.version ≡ None) × (result.code ≡ settings.now.config.code) }
    {
        let unheard = ChannelSilence {
            came: 0,
            at: now,
            silent: false,
        };
        Log {
            side,
            level,
            time,
            stamps,
            zero: 0,
            t_max: settings.config.t_max,
            told: 0,
            channels: [unheard; CHANNELS_MAX],
            count: settings.local.len(),
            causes: [None; CAUSES_MAX],
            cause_count: 0,
            is_quiet: false,
            drops: 0,
            drops_at: now,
            sends: [CallFailures::none(now); CHANNELS_MAX],
            receptions: [CallFailures::none(now); CHANNELS_MAX],
            asked: None,
            pauses: None,
            has_request: false,
            version: None,
            code: settings.config.code as usize,
        }
    }

    /// Logs the channels with which the end is opened.
    pub fn open<E: Write>(&self, settings: &Settings, now: Milliseconds, err: &mut E) {
        if self.level == LogLevel::Off {
            return;
        }
        let pairs = settings.local.iter().zip(settings.remote.iter());
        for (place, (local, remote)) in pairs.enumerate() {
            let channel = place.saturating_add(1);
            let _ = self.write_channel(channel, local.as_str(), remote.as_str(), now, err);
        }
    }

    /// Writes the line of a channel, numbered from 1, with both addresses.
    #[inline(never)]
    fn write_channel<E: Write>(
        &self,
        channel: usize,
        local: &str,
        remote: &str,
        now: Milliseconds,
        err: &mut E,
    ) -> io::Result<()>
        ensures { OnOk result (LogsLine self.now now (log_line now self.now.side (channel_text channel local.now remote.now))
            (E.contents err.old) (E.contents err.new)) }
    {
        let mut line = LogLine::new();
        write_channel(&mut line, now, self.side, channel, local, remote)?;
        self.pass(line.as_slice(), now, err)
    }

    /// Logs the events since the last call, of an end that came to be closed by this departure, if it is.
    pub fn catch_up<E: Write>(
        &mut self,
        recorder: &Recorder,
        departure: Option<Departure>,
        config: &EndConfig,
        now: Milliseconds,
        err: &mut E,
    )
        // After `catch_up` every event so far is logged, or was left out.
        ensures told { telling.is_off self.old.level ≡ false → self.new.told ≡ recorder.now.happened }
        // A log that is off stays as it is.
        ensures off { telling.is_off self.old.level ≡ true → self.new ≡ self.old }
        // `catch_up` changes neither the level nor the channels.
        ensures kept { (self.new.side ≡ self.old.side) × (self.new.level ≡ self.old.level) × (self.new.channels ≡ self.old.channels)
            × (self.new.count ≡ self.old.count) × (self.new.t_max ≡ self.old.t_max) }
    {
        if self.is_off() {
            return;
        }
        let mut missed = 0u64;
        'events: for number in self.told..recorder.happened {
            match recorder.event(number) {
                Some(happening) => {
                    self.log_explained(
                        happening,
                        departure,
                        recorder.last_data.as_slice(),
                        config,
                        now,
                        err,
                    );
                }
                None => missed = missed.wrapping_add(1),
            }
        }
        self.told = recorder.happened;
        if missed > 0 {
            let _ = self.write_missed(missed, now, err);
        }
    }

    /// Writes how many events were left out.
    #[inline(never)]
    fn write_missed<E: Write>(&self, missed: u64, now: Milliseconds, err: &mut E) -> io::Result<()>
        ensures { OnOk result (LogsLine self.now now (log_line now self.now.side (missing_lines_text missed))
            (E.contents err.old) (E.contents err.new)) }
    {
        let mut line = LogLine::new();
        write_missed(&mut line, now, self.side, missed)?;
        self.pass(line.as_slice(), now, err)
    }

    /// Logs one event, after the one that explains it. If that is a fault of the session, the messages of the last Data
    /// follow, and what these settings expect in them.
    fn log_explained<E: Write>(
        &mut self,
        happening: EndEvent,
        departure: Option<Departure>,
        last: &[u8],
        config: &EndConfig,
        now: Milliseconds,
        err: &mut E,
    )
        ensures { self.new ≡ record self.old {
          causes = self.new.causes;
          cause_count = self.new.cause_count;
          drops = self.new.drops;
        } }
    {
        if let Some(explanation) = explanation_of(happening, departure) {
            let _ = self.log_event(explanation, now, err);
            let _ = self.show_data(explanation, last, config, err);
        }
        let _ = self.log_event(happening, now, err);
    }

    /// Writes the messages of a Data, as `rasta show` does, and what these settings expect in them, if the event is that
    /// the end disconnects for a fault of the session, and is logged.
    ///
    /// # Errors
    ///
    /// - The error of the writer; what it wrote before stays written.
    fn show_data<E: Write>(
        &self,
        event: EndEvent,
        last: &[u8],
        config: &EndConfig,
        err: &mut E,
    ) -> io::Result<()>
        ensures { OnOk result (Appends (E.contents err.old) (E.contents err.new)
            (telling.data_lines (telling.is_session_fault event && (not self.now.is_quiet && not (telling.is_off self.now.level)))
            last.now self.now.code self.now.side (settings_of config.now))) }
    {
        if self.is_quiet || self.is_off() || !is_session_fault(event) {
            return write_text(err, "");
        }
        write_mismatch(err, body_of(last, self.code), self.side, config)
    }

    /// Logs one event, if the level includes it. At the level of states each cause for dropping is logged once, and
    /// openings may be only counted.
    ///
    /// # Errors
    ///
    /// - The error of the writer; what it wrote before stays written.
    pub fn log_event<E: Write>(
        &mut self,
        happening: EndEvent,
        now: Milliseconds,
        err: &mut E,
    ) -> io::Result<()>
        // If `log_event` succeeds, it has appended the line of the event if the level includes it. At the level of states
        // a drop counts only if its cause is `new`.
        ensures told { OnOk result ((new : Bool) × LogsEvent (telling.is_logged self.old.level self.new.is_quiet new happening)
            self.new now happening (E.contents err.old) (E.contents err.new)) }
        // `log_event` changes only which causes are known, and how often they came.
        ensures kept { self.new ≡ record self.old {
          causes = self.new.causes;
          cause_count = self.new.cause_count;
          drops = self.new.drops;
        } }
    {
        if !self.note_event(happening) {
            return write_text(err, "");
        }
        self.write(happening, now, err)
    }

    /// Writes the line of an event.
    #[inline(never)]
    fn write<E: Write>(&self, happening: EndEvent, now: Milliseconds, err: &mut E) -> io::Result<()>
        ensures { OnOk result (LogsEvent true self.now now happening (E.contents err.old) (E.contents err.new)) }
    {
        let mut line = LogLine::new();
        write_happening(&mut line, now, self.side, happening)?;
        self.pass(line.as_slice(), now, err)
    }

    /// Writes a line that begins with the time of the run, with the time that the log has.
    fn pass<E: Write>(&self, line: &[u8], now: Milliseconds, err: &mut E) -> io::Result<()>
        ensures { OnOk result (LogsLine self.now now line.now (E.contents err.old) (E.contents err.new)) }
    {
        let at = self.zero.saturating_add(now);
        write_stamped(err, self.time, at, line)
    }

    /// Returns the time for the lines of telegrams that are taken now, if they have one.
    pub fn stamp(&self, now: Milliseconds) -> Option<Stamp>
        // `stamp` returns the time that lines of the log have now if lines of telegrams have it, too, and else `None`.
        ensures { result ≡ stamp_of self.now now }
    {
        match self.stamps {
            true => Some(Stamp {
                time: self.time,
                at: self.zero.saturating_add(now),
                now,
            }),
            false => None,
        }
    }

    /// Reads the system's clock, if lines have the time in UTC.
    pub fn look_at_clock<K: Clock>(&mut self, system: &K, now: Milliseconds)
        // `look_at_clock` changes nothing but the time in UTC at which the clock of the run was 0.
        ensures { self.new ≡ record self.old { zero = self.new.zero } }
    {
        if self.time == LogTime::Run {
            return;
        }
        if let Some(zero) = zero_of(system, now) {
            self.zero = zero;
        }
    }

    /// Returns whether an event is logged, and records its cause.
    fn note_event(&mut self, happening: EndEvent) -> bool
        // `note_event` returns whether the level includes the event; at the level of states a drop is included only if its
        // cause is `new`, and else it is counted, unless it is a copy.
        ensures told { (new : Bool) × (result ≡ telling.is_logged self.old.level self.new.is_quiet new happening)
            × (self.new.drops ≡ telling.drops_by self.old.level new happening self.old.drops) }
        // `note_event` changes only which causes are known, and how often they came.
        ensures kept { self.new ≡ record self.old {
          causes = self.new.causes;
          cause_count = self.new.cause_count;
          drops = self.new.drops;
        } }
    {
        match (self.level, dropped_cause(happening)) {
            (LogLevel::Off, _) => false,
            (LogLevel::All, _) => true,
            (LogLevel::State, Some(cause)) => self.is_first(cause),
            (LogLevel::State, None) => !(self.is_quiet && is_of_opening(happening)),
        }
    }

    /// Logs a notice of the run, if there is one.
    ///
    /// # Errors
    ///
    /// - The error of the writer; what it wrote before stays written.
    pub fn notice<E: Write>(
        &self,
        notice: Option<Notice>,
        now: Milliseconds,
        err: &mut E,
    ) -> io::Result<()>
        // If `notice` succeeds, it has appended the line of the notice, or nothing if there is none or the log is off.
        ensures { OnOk result (LogsNotice notice self.now now (E.contents err.old) (E.contents err.new)) }
    {
        match notice {
            Some(notice) if !self.is_off() => self.write_notice(notice, now, err),
            _ => write_text(err, ""),
        }
    }

    /// Writes the line of a notice.
    #[inline(never)]
    fn write_notice<E: Write>(
        &self,
        notice: Notice,
        now: Milliseconds,
        err: &mut E,
    ) -> io::Result<()>
        ensures { OnOk result (LogsLine self.now now (notice_line now self.now.side notice) (E.contents err.old) (E.contents err.new)) }
    {
        let mut line = LogLine::new();
        write_notice(&mut line, now, self.side, notice)?;
        self.pass(line.as_slice(), now, err)
    }

    /// Only counts openings from now on, or logs them again.
    pub fn set_quiet(&mut self, is_quiet: bool)
        // After `set_quiet` openings are only counted if and only if `is_quiet` is true.
        ensures { self.new ≡ record self.old { is_quiet = is_quiet } }
    {
        self.is_quiet = is_quiet;
    }

    /// Logs each cause for dropping once more.
    pub fn repeat_causes(&mut self)
        // After `repeat_causes` no cause is known.
        ensures { self.new ≡ record self.old { causes = self.new.causes; cause_count = 0 } }
    {
        self.causes = [None; CAUSES_MAX];
        self.cause_count = 0;
    }

    /// Records a cause for dropping, and returns whether it is new. One that is known is counted, unless it is a copy.
    fn is_first(&mut self, cause: Cause) -> bool
        // `is_first` counts a cause that is not new, unless it is that of a copy.
        ensures drops { self.new.drops ≡ telling.drops_after result cause self.old.drops }
        // `is_first` changes nothing else but which causes are known.
        ensures kept { self.new ≡ record self.old {
          causes = self.new.causes;
          cause_count = self.new.cause_count;
          drops = self.new.drops;
        } }
    {
        let is_new = self.is_new(cause);
        self.drops = drops_after(is_new, cause, self.drops);
        is_new
    }

    /// Records a cause for dropping, and returns whether it is new. A copy of an earlier datagram is none.
    fn is_new(&mut self, cause: Cause) -> bool
        // `is_new` returns false for a datagram that repeats an earlier one.
        ensures repeat { telling.is_repeat cause ≡ true → result ≡ false }
        // If `is_new` returns true, it has recorded the cause at the next place, and else it has changed nothing.
        ensures kept { self.new ≡ (if result
            then record self.old {
              causes = slice_set self.old.causes self.old.cause_count (Some cause);
              cause_count = self.old.cause_count + 1;
            }
            else self.old) }
    {
        if is_repeat(cause) || self.cause_count >= CAUSES_MAX {
            return false;
        }
        'causes: for known in &self.causes {
            if *known == Some(cause) {
                return false;
            }
        }
        self.causes[self.cause_count] = Some(cause);
        self.cause_count += 1;
        true
    }

    /// Logs the channels that became silent, and those that receive again.
    pub fn look<E: Write>(&mut self, sums: &Statistics, now: Milliseconds, err: &mut E)
        // `look` compares the count of each channel of the end with the one before.
        ensures channels { self.new.channels ≡ all_silences sums.now.channels self.old.count now self.old.t_max self.old.channels }
        // `look` changes neither the level, nor the events that are logged, nor the number of channels.
        ensures kept { (self.new.side ≡ self.old.side) × (self.new.level ≡ self.old.level) × (self.new.told ≡ self.old.told)
            × (self.new.count ≡ self.old.count) × (self.new.t_max ≡ self.old.t_max) }
    {
        let _ = self.look_at(sums, now, 0, err);
        let _ = self.look_at(sums, now, 1, err);
        let _ = self.look_at(sums, now, 2, err);
        let _ = self.look_at(sums, now, 3, err);
    }

    /// Logs whether the channel at a place, from 0, became silent or receives again, if the end has it.
    fn look_at<E: Write>(
        &mut self,
        sums: &Statistics,
        now: Milliseconds,
        place: usize,
        err: &mut E,
    ) -> io::Result<()>
        requires { place < CHANNELS_MAX }
        // `look_at` compares the count of this channel with the one before, and of no other.
        ensures channels { self.new.channels ≡ silences_at sums.now.channels self.old.count now self.old.t_max place self.old.channels }
        // If `look_at` succeeds, it has appended the line of the channel's change, or nothing.
        ensures told { OnOk result (LogsChange (if nat_le self.old.count place then SilenceChange.Nothing
            else silence_change_of (slice_index_or self.old.channels place (new_silence 0)) (silence_now self.old.channels sums.now.channels place now self.old.t_max))
            (place + 1) self.new now (E.contents err.old) (E.contents err.new)) }
        // `look_at` changes neither the level, nor the events that are logged, nor the number of channels.
        ensures kept { (self.new.side ≡ self.old.side) × (self.new.level ≡ self.old.level) × (self.new.told ≡ self.old.told)
            × (self.new.count ≡ self.old.count) × (self.new.t_max ≡ self.old.t_max) }
    {
        if place >= self.count {
            return write_text(err, "");
        }
        let came = sums.channels[place].received;
        let said = self.channels[place].look(came, now, self.t_max);
        self.log_change(said, place + 1, now, err)
    }

    /// Logs the change of a channel, numbered from 1.
    fn log_change<E: Write>(
        &self,
        said: SilenceChange,
        channel: usize,
        now: Milliseconds,
        err: &mut E,
    ) -> io::Result<()>
        ensures { OnOk result (LogsChange said channel self.now now (E.contents err.old) (E.contents err.new)) }
    {
        if self.is_off() {
            return write_text(err, "");
        }
        match said {
            SilenceChange::Nothing => write_text(err, ""),
            SilenceChange::Silent => self.write(EndEvent::Silent(channel), now, err),
            SilenceChange::Heard => self.write(EndEvent::Heard(channel), now, err),
        }
    }

    /// Logs the channels on which sends or receptions begin to fail, and those on which they succeed again.
    pub fn look_at_calls<E: Write>(&mut self, counted: &RunCounts, now: Milliseconds, err: &mut E)
        // `look_at_calls` compares the calls of each channel of the end with those before; it changes nothing else.
        ensures { self.new ≡ record self.old {
          sends = all_calls Call.Send counted.now self.old.count now self.old.t_max self.old.sends;
          receptions = all_calls Call.Receive counted.now self.old.count now self.old.t_max self.old.receptions;
        } }
    {
        let _ = self.look_at_sends(counted, now, 0, err);
        let _ = self.look_at_sends(counted, now, 1, err);
        let _ = self.look_at_sends(counted, now, 2, err);
        let _ = self.look_at_sends(counted, now, 3, err);
        let _ = self.look_at_receptions(counted, now, 0, err);
        let _ = self.look_at_receptions(counted, now, 1, err);
        let _ = self.look_at_receptions(counted, now, 2, err);
        let _ = self.look_at_receptions(counted, now, 3, err);
    }

    /// Logs whether sends on the channel at a place, from 0, begin to fail or succeed again, if the end has it.
    ///
    /// # Errors
    ///
    /// - The error of the writer; what it wrote before stays written.
    fn look_at_sends<E: Write>(
        &mut self,
        counted: &RunCounts,
        now: Milliseconds,
        place: usize,
        err: &mut E,
    ) -> io::Result<()>
        requires { place < CHANNELS_MAX }
        // `look_at_sends` compares the sends of this channel with those before, and of no other; it changes nothing
        // else.
        ensures kept { self.new ≡ record self.old {
          sends = calls_at Call.Send counted.now self.old.count now self.old.t_max place self.old.sends;
        } }
        // If `look_at_sends` succeeds, it has appended the line of the channel's change, or nothing.
        ensures told { OnOk result (LogsNotice (notice_at Call.Send self.old.sends counted.now self.old.count now self.old.t_max place)
            self.new now (E.contents err.old) (E.contents err.new)) }
    {
        if place >= self.count {
            return write_text(err, "");
        }
        let done = Some(counted.channels[place].sent);
        let failed = counted.failures[place].sends;
        let notice = self.sends[place].look(Call::Send, done, failed, place + 1, now, self.t_max);
        self.notice(notice, now, err)
    }

    /// Logs whether receptions on the channel at a place, from 0, begin to fail or succeed again, if the end has it.
    ///
    /// # Errors
    ///
    /// - The error of the writer; what it wrote before stays written.
    fn look_at_receptions<E: Write>(
        &mut self,
        counted: &RunCounts,
        now: Milliseconds,
        place: usize,
        err: &mut E,
    ) -> io::Result<()>
        requires { place < CHANNELS_MAX }
        // `look_at_receptions` compares the receptions of this channel with those before, and of no other; it changes
        // nothing else.
        ensures kept { self.new ≡ record self.old {
          receptions = calls_at Call.Receive counted.now self.old.count now self.old.t_max place self.old.receptions;
        } }
        // If `look_at_receptions` succeeds, it has appended the line of the channel's change, or nothing.
        ensures told { OnOk result (LogsNotice (notice_at Call.Receive self.old.receptions counted.now self.old.count now self.old.t_max place)
            self.new now (E.contents err.old) (E.contents err.new)) }
    {
        if place >= self.count {
            return write_text(err, "");
        }
        let failed = counted.failures[place].receives;
        let receptions = &mut self.receptions[place];
        let notice = receptions.look(Call::Receive, None, failed, place + 1, now, self.t_max);
        self.notice(notice, now, err)
    }

    /// Logs a requested retransmission that has not come, if the end is now closed.
    ///
    /// # Errors
    ///
    /// - The error of the writer; what it wrote before stays written.
    pub fn look_at_request<E: Write>(
        &mut self,
        state: ConnectionState,
        now: Milliseconds,
        err: &mut E,
    ) -> io::Result<()>
        // `look_at_request` records since when a retransmission is awaited; it changes nothing else.
        ensures kept { self.new ≡ record self.old { asked = telling.request_since self.old.asked state now } }
        // If `look_at_request` succeeds, it has appended the line of a retransmission that was awaited when the
        // connection ended, or nothing.
        ensures told { OnOk result (LogsNotice (telling.request_notice self.old.asked state now) self.new now
            (E.contents err.old) (E.contents err.new)) }
    {
        let notice = request_notice(self.asked, state, now);
        self.asked = asked_by(self.asked, state, now);
        self.notice(notice, now, err)
    }

    /// Logs when PDUs of the peer came, if the end has now disconnected because nothing recent was confirmed and openings
    /// are not only counted.
    ///
    /// # Errors
    ///
    /// - The error of the writer; what it wrote before stays written.
    pub fn look_at_peer<E: Write>(
        &mut self,
        state: ConnectionState,
        departure: Option<Departure>,
        came: u64,
        now: Milliseconds,
        err: &mut E,
    ) -> io::Result<()>
        // `look_at_peer` records when PDUs of the peer came; it changes nothing else.
        ensures kept { self.new ≡ record self.old { pauses = pausing.pauses_after self.old.pauses state came now } }
        // If `look_at_peer` succeeds, it has appended the line of the pauses, if that is due, or nothing.
        ensures told { OnOk result (LogsNotice (pausing.pause_notice (pausing.is_timeout departure && not self.old.is_quiet)
            self.old.pauses state self.old.t_max now) self.new now (E.contents err.old) (E.contents err.new)) }
    {
        let wanted = is_timeout(departure) && !self.is_quiet;
        let notice = pause_notice(wanted, self.pauses, state, self.t_max, now);
        self.pauses = pauses_after(self.pauses, state, came, now);
        self.notice(notice, now, err)
    }

    /// Logs once that a connection request came at an interlocking, which its peer must not make.
    ///
    /// # Errors
    ///
    /// - The error of the writer; what it wrote before stays written.
    pub fn look_for_request<E: Write>(
        &mut self,
        came: bool,
        now: Milliseconds,
        err: &mut E,
    ) -> io::Result<()>
        // `look_for_request` records that a request came at an interlocking; it changes nothing else.
        ensures kept { self.new ≡ record self.old { has_request = self.old.has_request || telling.is_wrong_request self.old.side came } }
        // If `look_for_request` succeeds, it has appended the line of such a request, if it is the first one.
        ensures told { OnOk result (LogsNotice (telling.wrong_request_notice (not self.old.has_request && telling.is_wrong_request self.old.side came))
            self.new now (E.contents err.old) (E.contents err.new)) }
    {
        let is_wrong = is_wrong_request(self.side, came);
        let notice = wrong_request_notice(!self.has_request && is_wrong);
        self.has_request = self.has_request || is_wrong;
        self.notice(notice, now, err)
    }

    /// Logs a version of the peer for which the end disconnected, once for each version in a row.
    ///
    /// # Errors
    ///
    /// - The error of the writer; what it wrote before stays written.
    pub fn look_for_version<E: Write>(
        &mut self,
        found: Option<u32>,
        now: Milliseconds,
        err: &mut E,
    ) -> io::Result<()>
        // `look_for_version` records the version found; it changes nothing else.
        ensures kept { self.new ≡ record self.old { version = found } }
        // If `look_for_version` succeeds, it has appended the line of the version, if it is not the one recorded before, or
        // nothing.
        ensures told { OnOk result (LogsNotice (telling.version_notice self.old.version found) self.new now
            (E.contents err.old) (E.contents err.new)) }
    {
        let notice = version_notice(self.version, found);
        self.version = found;
        self.notice(notice, now, err)
    }

    /// Logs how many datagrams were dropped for causes that are logged, at most once a minute.
    ///
    /// # Errors
    ///
    /// - The error of the writer; what it wrote before stays written.
    pub fn log_drops<E: Write>(&mut self, now: Milliseconds, err: &mut E) -> io::Result<()>
        // If there are some and the last count is a minute ago, `log_drops` begins to count again; else it changes
        // nothing.
        ensures kept { self.new ≡ (if telling.are_drops_due self.old.drops self.old.drops_at now
            then record self.old { drops = 0; drops_at = now } else self.old) }
        // If `log_drops` succeeds, it has appended the line with their number, if that is due, or nothing.
        ensures told { OnOk result (LogsNotice (telling.drops_notice (telling.are_drops_due self.old.drops self.old.drops_at now)
            self.old.drops) self.new now (E.contents err.old) (E.contents err.new)) }
    {
        let is_due = are_drops_due(self.drops, self.drops_at, now);
        let notice = drops_notice(is_due, self.drops);
        if is_due {
            self.drops = 0;
            self.drops_at = now;
        }
        self.notice(notice, now, err)
    }

    /// Returns how an end disconnected, if it had a connection: a field element has none before it accepts a ConnReq.
    pub fn departure<C: Channels, A: Allocator>(&self, end: &End<C, A>) -> Option<Departure>
        // `departure` returns how the end came to be closed, and `None` for a field element that accepted no ConnReq.
        ensures { result ≡ telling.departure_of self.now.side (inside end.now).upper.request
            (inside end.now).upper.departed }
    {
        match self.side {
            Side::Interlocking => logged_departure_of(end.departure()),
            Side::FieldElement => match end.request() {
                None => None,
                Some(_) => logged_departure_of(end.departure()),
            },
        }
    }

    /// Logs why the end is in its state.
    ///
    /// # Errors
    ///
    /// - The error of the writer; what it wrote before stays written.
    #[inline(never)]
    pub fn end<E: Write>(
        &self,
        ending: &FinalState,
        now: Milliseconds,
        err: &mut E,
    ) -> io::Result<()>
        // If `end` succeeds, it has appended the line of the ending, with the time that the log has.
        ensures { OnOk result (LogsLine self.now now (log_line now self.now.side (final_state_text ending.now)) (E.contents err.old) (E.contents err.new)) }
    {
        let mut line = LogLine::new();
        write_ending(&mut line, now, self.side, ending)?;
        self.pass(line.as_slice(), now, err)
    }

    /// Returns whether nothing is logged.
    pub fn is_off(&self) -> bool
        // `is_off` is true if and only if the level is `Off`.
        ensures { result ≡ telling.is_off self.now.level }
    {
        match self.level {
            LogLevel::Off => true,
            LogLevel::State | LogLevel::All => false,
        }
    }
}

/// Writes the messages in the body of a Data, and what an end with these settings expects in them.
#[tactic(auto, unfolding(crate::specs::LogEvents::mismatch_lines))]
fn write_mismatch<W: Write>(
    writer: &mut W,
    body: &[u8],
    side: Side,
    config: &EndConfig,
) -> io::Result<()>
    ensures { OnOk result (Appends (W.contents writer.old) (W.contents writer.new)
        (telling.mismatch_lines body.now side (settings_of config.now))) }
{
    let _clean = show_body(writer, Kind::Data, body)?;
    write_expected(writer, side, config)
}
