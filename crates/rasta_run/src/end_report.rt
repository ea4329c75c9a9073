//! What an end reports: its state, its deadlines, its counts, and what it leaves undone.

ghost use Rattle.std.specs.Prelude.{◌≡◌, ℕ, ◌+◌, ◌-◌, ◌≤◌, ◌^◌, min, length, None, Option, Some, true, OnOk};
ghost use Rattle.pdu_text.specs.LastLines.{final_state_text};
ghost use Rattle.pdu_text.specs.Pieces.{log_line};
ghost use Rattle.pdu_text.specs.Reports.{report_line};
ghost use Rattle.rasta_run.specs.LastLine.{ending_of};
ghost use Rattle.rasta_run.specs.Counters.{run_counts_of};
ghost use Rattle.rasta_run.specs.Counts as counts;
ghost use Rattle.rasta_run.specs.LineTimes.{LogsLine, LogsNotice};
ghost use Rattle.rasta_run.specs.ExpectedStates.{is_expected};
ghost use Rattle.pdi_session.specs.TelegramCounts.{items_in};
ghost use Rattle.rasta_run.specs.Leftovers as undone;
ghost use Rattle.rasta_run.specs.Waits.{IsDeadlineOf, again_at};
ghost use Rattle.stack_end.specs.Certain.{confirmed_in};
ghost use Rattle.stack_end.specs.Deadlines.{earliest};
ghost use Rattle.stack_end.specs.EndValue.{EndTakesTurnAlone, channels_of, inside, statistics_of};
ghost use Rattle.stack_end.specs.Turns.{upper_turn, close_turn, is_settled};
ghost use Rattle.std.specs.Io.KnownBytes.{Appends};
ghost use Rattle.octets.specs.declared.limits.TheConstants.{TIME_MAX};

use crate::expected_state::is_met;
use crate::leftovers::Leftovers;
use crate::metrics::Sample;
use crate::notices::Notice;
use crate::totals::received_on;
use crate::turns::Actor;
use crate::waits::{again_at, earlier};
use channels::Channels;
use octets::Milliseconds;
use pdu_text::{EndReport, FinalState, write_report};
use rasta_words::{ExpectedState, Fault};
use std::alloc::Allocator;
use std::io;
use std::io::Write;
use udp_channels::UdpChannels;

impl<C: Channels, A: Allocator + Copy> Actor<'_, C, A> {
    /// Returns whether the end is in the expected state, if it leaves this undone.
    pub fn stands_as(&self, expected: Option<ExpectedState>, left: Leftovers) -> bool
        // `stands_as` is true if no state is expected; for `Up` if the session is established; for `Settled` if also
        // everything put is confirmed and nothing is left undone.
        ensures meets { result ≡ is_expected expected (inside self.now.end).upper.session.phase (is_settled (inside self.now.end))
            (undone.is_nothing left) }
        // If no state is expected, `stands_as` returns true.
        ensures none { expected ≡ None → result ≡ true }
    {
        is_met(
            expected,
            self.end.phase(),
            self.end.settled(),
            left.is_nothing(),
        )
    }

    /// Returns what is left undone, if this many lines of input were not offered to the end.
    pub fn undone(&self, lines: u64) -> Leftovers
        // `undone` adds the lines that were refused to those not offered, the entries that were refused to those
        // left, and the telegrams not confirmed to those of lost connections. Of these it tells apart those that were
        // not sent.
        ensures { result ≡ record {
          lines = min (lines + self.now.refused_lines) (2 ^ 64 - 1);
          entries = min (length self.now.left.now + self.now.refused_entries) (2 ^ 64 - 1);
          doubt = min (self.now.lost + undone.doubt_of self.now.put self.now.before (confirmed_in (inside self.now.end).upper)) (2 ^ 64 - 1)
              - min (self.now.lost_unsent + items_in (inside self.now.end).upper.waiting) (2 ^ 64 - 1);
          unsent = min (self.now.lost_unsent + items_in (inside self.now.end).upper.waiting) (2 ^ 64 - 1);
        } }
    {
        let left = self.left.len() as u64;
        let unsent = self.lost_unsent.saturating_add(self.end.unsent());
        Leftovers {
            lines: lines.saturating_add(self.refused_lines),
            entries: left.saturating_add(self.refused_entries),
            doubt: self
                .lost
                .saturating_add(self.doubt())
                .saturating_sub(unsent),
            unsent,
        }
    }

    /// Logs a notice.
    ///
    /// # Errors
    ///
    /// - The error of the writer; what it wrote before stays written.
    pub fn tell<E: Write>(&self, notice: Notice, now: Milliseconds, err: &mut E) -> io::Result<()>
        // If `tell` succeeds, it has appended the line of the notice, if the log is not off.
        ensures { OnOk result (LogsNotice (Some notice) self.now.log now (E.contents err.old) (E.contents err.new)) }
    {
        self.log.notice(Some(notice), now, err)
    }

    /// Logs the last events, and prints the counts. Then it logs why the end is in its state, if the log is on or
    /// the end is not in the expected state.
    pub fn conclude<E: Write>(&mut self, now: Milliseconds, met: bool, err: &mut E)
        // `conclude` changes nothing but the log.
        ensures { self.new ≡ record self.old { log = self.new.log } }
    {
        self.log_events(now, err);
        let _ = self.log_counts(now, err);
        if !met || !self.log.is_off() {
            let _ = self.log_ending(now, err);
        }
    }

    /// Logs why the end is in its state.
    ///
    /// # Errors
    ///
    /// - The error of the writer; what it wrote before stays written.
    fn log_ending<E: Write>(&self, now: Milliseconds, err: &mut E) -> io::Result<()>
        ensures { OnOk result (LogsLine self.now.log now (log_line now self.now.log.side (final_state_text (ending_of self.now.log.side self.now.end
            (run_counts_of self.now.earlier.sums (statistics_of self.now.end) (channels_of self.now.end).recorder.value self.now.failures self.now.put self.now.taken)
            (channels_of self.now.end).recorder.value.last_cause))) (E.contents err.old) (E.contents err.new)) }
    {
        let counted = self.run_counts();
        let ending = FinalState {
            state: self.end.state(),
            phase: self.end.phase(),
            departure: self.log.departure(&self.end),
            came: received_on(&counted.sums),
            taken: counted.accepted_count(),
            last: self.end.channels_seen().recorder.last_cause,
        };
        self.log.end(&ending, now, err)
    }

    /// Prints what the end leaves undone, if it is anything.
    ///
    /// # Errors
    ///
    /// - The error of the writer; what it wrote before stays written.
    pub fn report_undone<E: Write>(&self, left: Leftovers, err: &mut E) -> io::Result<()>
        // If `report_undone` succeeds, it has appended the line of what is left undone, or nothing if nothing is.
        ensures { OnOk result (Appends (E.contents err.old) (E.contents err.new) (undone.printed_line self.now.side left)) }
    {
        left.write_if(err, self.side)
    }

    /// Writes the state of the end.
    ///
    /// # Errors
    ///
    /// - `Output` if the line cannot be written.
    pub fn report<W: Write>(&self, writer: &mut W) -> Result<(), Fault>
        // If `report` succeeds, it has appended the line of the end with its state, its phase, and the telegrams put
        // and taken.
        ensures { OnOk result (Appends (W.contents writer.old) (W.contents writer.new)
            (report_line self.now.side (Some (record {
              state = (inside self.now.end).upper.machine.connection;
              phase = (inside self.now.end).upper.session.phase;
              put = self.now.put;
              taken = self.now.taken;
            })))) }
    {
        let standing = EndReport {
            state: self.end.state(),
            phase: self.end.phase(),
            put: self.put,
            taken: self.taken,
        };
        match write_report(writer, self.side, Some(standing)) {
            Ok(()) => Ok(()),
            Err(_) => Err(Fault::Output),
        }
    }

    /// Disconnects, and logs the events.
    pub fn close<E: Write>(&mut self, now: Milliseconds, err: &mut E)
        requires now { now ≤ TIME_MAX }
        requires later { self.old.end.time ≤ now }
        // `close` disconnects the end, which sends a DiscReq if it has a connection.
        ensures closed { EndTakesTurnAlone (λ o. C.told o.inner) (upper_turn (close_turn now)) self.old.end self.new.end }
        // `close` changes nothing else but the log.
        ensures kept { self.new ≡ record self.old { end = self.new.end; log = self.new.log } }
        // After `close` the end's time is at most `now`.
        ensures time { self.new.end.time ≤ now }
    {
        self.end.close(now);
        self.log_events(now, err);
    }

    /// Returns what is counted of the end at a time of the run.
    pub fn sample(&self, now: Milliseconds) -> Sample
        // `sample` returns what the end counted in all its openings, and what is counted beside.
        ensures { result ≡ record {
          side = self.now.teller.side;
          count = self.now.teller.count;
          t_max = self.now.teller.t_max;
          at = now;
          counted = run_counts_of self.now.earlier.sums (statistics_of self.now.end) (channels_of self.now.end).recorder.value self.now.failures self.now.put self.now.taken;
        } }
    {
        self.teller.sample(&self.run_counts(), now)
    }

    /// Prints the lines of counts, if they are due. Returns whether counts are due.
    pub fn report_due<E: Write>(&mut self, now: Milliseconds, err: &mut E) -> bool
        // `report_due` returns true if and only if counts are printed and their time is reached.
        ensures due { result ≡ counts.is_printing_due self.old.teller now }
        // `report_due` records which channels received something, if counts are printed, and when they are printed
        // next; it changes nothing else.
        ensures kept { self.new ≡ record self.old {
          teller = counts.look self.old.teller (run_counts_of self.old.earlier.sums
              (statistics_of self.old.end) (channels_of self.old.end).recorder.value self.old.failures self.old.put self.old.taken) now;
        } }
    {
        if self.teller.is_off() {
            return false;
        }
        let counted = self.run_counts();
        if !self.teller.look(&counted, now) {
            return false;
        }
        let _ = self.log_counts(now, err);
        true
    }
}

impl Actor<'_, UdpChannels> {
    /// Returns when the end has something to do without a datagram, in milliseconds. After a reception that failed
    /// it soon tries again, since another channel may have a datagram.
    pub fn next_deadline(&self) -> Option<Milliseconds>
        // `next_deadline` returns the earliest of four times: the deadline of the end, when it is to be opened again,
        // 10 ms after a turn in which a reception failed, and the next counts.
        ensures { (own : Option ℕ) × IsDeadlineOf (inside self.now.end) own × (result ≡ earliest (earliest (earliest own self.now.anew_at)
            (again_at self.now.deaf_turns self.now.last_turn)) self.now.teller.next) }
    {
        let own = earlier(self.end.next_deadline(), self.anew_at);
        let again = again_at(self.deaf_turns, self.last_turn);
        earlier(earlier(own, again), self.teller.next)
    }

    /// Returns how many datagrams its sockets received, modulo 2^64.
    pub fn received_count(&self) -> u64
        // `received_count` returns the count of the channels.
        ensures { result ≡ (channels_of self.now.end).inner.received }
    {
        self.end.channels_seen().inner.received_count()
    }
}
