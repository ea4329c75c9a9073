//! An end that is opened again after its connection is lost.

ghost use Rattle.std.specs.Prelude.{◌≡◌, ℕ, ◌+◌, ◌-◌, ◌≤◌, ◌^◌, ◌%◌, min, None, true, false, IfOk, OnOk};
ghost use Rattle.channels.specs.ChannelHistory.{SendsOne};
ghost use Rattle.rasta_run.specs.Keepers as keeping;
ghost use Rattle.rasta_run.specs.ExpectedStates.{is_up};
ghost use Rattle.rasta_run.specs.Totals as totals;
ghost use Rattle.pdi_session.specs.TelegramCounts.{items_in};
ghost use Rattle.rasta_run.specs.Leftovers.{doubt_of};
ghost use Rattle.stack_end.specs.Certain.{confirmed_in};
ghost use Rattle.stack_end.specs.Datagrams.{sent_at_opening};
ghost use Rattle.stack_end.specs.EndValue.{EndRepresents, channels_of, inside, statistics_of};
ghost use Rattle.stack_end.specs.Ends.{opened_end};
ghost use Rattle.stack_end.specs.Stale.{is_stale};
ghost use Rattle.std.specs.List.{FoldsTo};
ghost use Rattle.octets.specs.declared.limits.TheConstants.{TIME_MAX};
ghost use Rattle.udp_channels.specs.Sockets.{history_of};

use crate::RecordedChannels;
use crate::expected_state::is_up;
use crate::keeper::{end_of_wait, is_wait_over};
use crate::notices::Notice;
use crate::number_source::{NumberSource, first_number};
use crate::opening_faults::fault_of_end;
use crate::recorder::ExpectedHeader;
use crate::turns::Actor;
use channels::Channels;
use end_settings::EndConfig;
use octets::Milliseconds;
use pdu_text::EndEvent;
use rasta_words::Fault;
use stack_end::End;
use std::alloc::{Allocator, Global};
use std::io::Write;
use std::mem;
use udp_channels::{SocketChannels, UdpChannels};

impl<C: Channels + Drop, A: Allocator + Copy> Actor<'_, C, A> {
    /// Looks whether the end is to be opened again: it is kept, has lost its connection, and its wait is over. Logs
    /// that a session lasts after openings without one.
    pub fn is_due<E: Write>(&mut self, now: Milliseconds, err: &mut E) -> bool
        // `is_due` returns true if and only if the end is kept, it is stale and its wait is over.
        ensures due { result ≡ keeping.is_reopening_due self.old.is_kept self.old.side (is_stale (inside self.old.end))
            (is_up (inside self.old.end).upper.session.phase) self.old.keeper now }
        // `is_due` records what it saw of an end that is kept, and when it is to be opened again; it changes nothing
        // else but the log.
        ensures kept { self.new ≡ record self.old {
          log = self.new.log;
          keeper = keeping.look_at_end self.old.is_kept (is_stale (inside self.old.end)) (is_up (inside self.old.end).upper.session.phase) now self.old.keeper;
          anew_at = keeping.reopening_time_after self.old.is_kept self.old.side self.old.anew_at
              (keeping.look_at_end self.old.is_kept (is_stale (inside self.old.end)) (is_up (inside self.old.end).upper.session.phase) now self.old.keeper) now;
        } }
    {
        if !self.is_kept {
            return false;
        }
        let (was_counted, count) = (self.keeper.is_counted(), self.keeper.fruitless);
        let is_up = is_up(self.end.phase());
        let until = self.keeper.look(self.side, self.end.is_stale(), is_up, now);
        self.anew_at = end_of_wait(until, now);
        if was_counted && !self.keeper.is_counted() {
            self.log_session(count, now, err);
        }
        is_wait_over(until)
    }

    /// Logs openings again, and that a session lasts after this many without one.
    fn log_session<E: Write>(&mut self, count: u64, now: Milliseconds, err: &mut E)
        ensures { self.new ≡ record self.old { log = self.new.log } }
    {
        self.log.set_quiet(false);
        let _ = self.log.notice(Some(Notice::Session(count)), now, err);
    }

    /// Records that the end is to be opened again now: what was in doubt of the lost connection is lost.
    fn note_opening(&mut self, now: Milliseconds)
        ensures { self.new ≡ record self.old {
          keeper = keeping.reopen_keeper now self.old.keeper;
          anew_at = None;
          lost = min (self.old.lost + doubt_of self.old.put self.old.before (confirmed_in (inside self.old.end).upper)) (2 ^ 64 - 1);
          lost_unsent = min (self.old.lost_unsent + items_in (inside self.old.end).upper.waiting) (2 ^ 64 - 1);
          before = self.old.put;
          openings = (self.old.openings + 1) % 2 ^ 64;
        } }
    {
        self.lost = self.lost.saturating_add(self.doubt());
        self.lost_unsent = self.lost_unsent.saturating_add(self.end.unsent());
        self.before = self.put;
        self.openings = self.openings.wrapping_add(1);
        self.keeper.note(now);
        self.anew_at = None;
    }

    /// Opens the end again on its channels, in place of the old one. Telegrams that were put into that one are not
    /// put again.
    ///
    /// # Errors
    ///
    /// - `Memory` if an allocation fails; the channels are lost then.
    fn open_anew(
        &mut self,
        alloc: A,
        spare: RecordedChannels<C>,
        config: EndConfig,
        first_sn: u32,
        now: Milliseconds,
    ) -> Result<(), Fault>
        requires later { self.old.end.time ≤ now }
        // If `open_anew` succeeds, the end is newly opened with these settings, this first number and this time.
        ensures stands { OnOk result (EndRepresents (λ o. C.told o.inner) self.new.end
            (opened_end self.old.side config first_sn now)) }
        // If `open_anew` succeeds, the datagrams of the opening were sent on the channels of the old end, which
        // are now those of the new one.
        ensures sent { OnOk result (FoldsTo SendsOne (C.told (channels_of self.old.end).inner)
            (sent_at_opening (opened_end self.old.side config first_sn now)) (C.told (channels_of self.new.end).inner)) }
        // If `open_anew` succeeds, the counts of the old end are added to those of earlier openings.
        ensures earlier { OnOk result (self.new.earlier.sums
            ≡ totals.plus self.old.earlier.sums (statistics_of self.old.end)) }
        // `open_anew` changes nothing but the end and the counts of earlier openings.
        ensures kept { self.new ≡ record self.old { end = self.new.end; earlier = self.new.earlier } }
        // After `open_anew` the end's time is at most `now`.
        ensures time { self.new.end.time ≤ now }
    {
        let earlier = self.earlier.plus(&self.end.statistics());
        let channels = mem::replace(self.end.channels(), spare);
        match End::open(alloc, channels, config, self.side, first_sn, now) {
            Ok(end) => {
                self.end = end;
                self.earlier = earlier;
                Ok(())
            }
            Err((fault, _channels)) => Err(fault_of_end(fault)),
        }
    }

    /// Logs how many openings in a row got no session that lasted, and causes once more.
    fn log_count<E: Write>(&mut self, count: u64, now: Milliseconds, err: &mut E)
        ensures { self.new ≡ record self.old { log = self.new.log } }
    {
        self.log.repeat_causes();
        let _ = self.log.notice(Some(Notice::Fruitless(count)), now, err);
    }

    /// Logs an opening, and how many in a row got no session that lasted if that is due: then this opening is logged with its
    /// causes, and others are only counted.
    fn log_opening<E: Write>(&mut self, first_sn: u32, now: Milliseconds, err: &mut E)
        ensures { self.new ≡ record self.old {
          keeper = keeping.keeper_after_count (keeping.is_count_due self.old.keeper now) now self.old.keeper;
          log = self.new.log;
        } }
    {
        let counted = self.keeper.count(now);
        self.log
            .set_quiet(self.keeper.is_counted() && counted.is_none());
        if let Some(count) = counted {
            self.log_count(count, now, err);
        }
        let _ = self.log.log_event(EndEvent::Anew(first_sn), now, err);
        self.log_events(now, err);
    }
}

impl Actor<'_, UdpChannels> {
    /// Opens the end again on its sockets, if it is kept, has lost its connection and its wait is over, with a
    /// first sequence number that it draws. Returns whether it did.
    ///
    /// # Errors
    ///
    /// - `File` if the source gives no number;
    /// - `Memory` if an allocation fails.
    pub fn keep<D: NumberSource, E: Write>(
        &mut self,
        source: &mut D,
        alloc: Global,
        now: Milliseconds,
        err: &mut E,
    ) -> Result<bool, Fault>
        requires now { now ≤ TIME_MAX }
        requires later { self.old.end.time ≤ now }
        // `keep` opens the end again if and only if it is kept, it is stale and its wait is over.
        ensures anew { IfOk result (λ anew. anew ≡ keeping.is_reopening_due self.old.is_kept self.old.side (is_stale (inside self.old.end))
            (is_up (inside self.old.end).upper.session.phase) self.old.keeper now) }
        // If `keep` returns false, it has recorded what it saw of an end that is kept, and when it is to be opened
        // again; nothing else has changed but the log, and no number was drawn.
        ensures same { IfOk result (λ anew. anew ≡ false → (source.new ≡ source.old) × (self.new ≡ record self.old {
          log = self.new.log;
          keeper = keeping.look_at_end self.old.is_kept (is_stale (inside self.old.end)) (is_up (inside self.old.end).upper.session.phase) now self.old.keeper;
          anew_at = keeping.reopening_time_after self.old.is_kept self.old.side self.old.anew_at
              (keeping.look_at_end self.old.is_kept (is_stale (inside self.old.end)) (is_up (inside self.old.end).upper.session.phase) now self.old.keeper) now;
        })) }
        // If `keep` returns true, the end is newly opened with the settings of its keeper and the number that was
        // drawn.
        ensures opened { IfOk result (λ anew. anew ≡ true → (number : ℕ) × D.draws source.old number source.new
            × EndRepresents (λ o. history_of o.inner) self.new.end (opened_end self.old.side self.old.keeper.config number now)) }
        // If `keep` returns true, the telegrams in doubt of the old connection are lost, and those put so far are
        // before the opening, which is counted.
        ensures counted { IfOk result (λ anew. anew ≡ true → self.new ≡ record self.old {
          end = self.new.end;
          log = self.new.log;
          earlier = self.new.earlier;
          keeper = self.new.keeper;
          anew_at = None;
          lost = min (self.old.lost + doubt_of self.old.put self.old.before (confirmed_in (inside self.old.end).upper)) (2 ^ 64 - 1);
          lost_unsent = min (self.old.lost_unsent + items_in (inside self.old.end).upper.waiting) (2 ^ 64 - 1);
          before = self.old.put;
          openings = (self.old.openings + 1) % 2 ^ 64;
        }) }
        // If `keep` returns true, the counts of the old end are added to those of earlier openings.
        ensures earlier { IfOk result (λ anew. anew ≡ true → self.new.earlier.sums
            ≡ totals.plus self.old.earlier.sums (statistics_of self.old.end)) }
        // If `keep` returns true, its keeper has the time of the opening, and counts the old one if that had no session.
        ensures keeper { IfOk result (λ anew. anew ≡ true → self.new.keeper ≡ keeping.keeper_after_reopening (is_stale (inside self.old.end))
            (is_up (inside self.old.end).upper.session.phase) now self.old.keeper) }
        // `keep` leaves the printer of counts as it is.
        ensures teller { self.new.teller ≡ self.old.teller }
        // After `keep` the end's time is at most `now`.
        ensures time { self.new.end.time ≤ now }
    {
        let config = self.keeper.config;
        if !self.is_due(now, err) {
            return Ok(false);
        }
        let first_sn = first_number(source, None)?;
        let wanted = ExpectedHeader::of(&config);
        let none = SocketChannels::over(Vec::new(alloc));
        let Ok(spare) = RecordedChannels::over(alloc, none, false, wanted) else {
            return Err(Fault::Memory);
        };
        self.note_opening(now);
        self.open_anew(alloc, spare, config, first_sn, now)?;
        self.log_opening(first_sn, now, err);
        Ok(true)
    }
}
