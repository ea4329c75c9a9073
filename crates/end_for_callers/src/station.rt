//! An end with the queues of datagrams and telegrams that its caller fetches.

ghost use Rattle.std.specs.Prelude.{◌≡◌, ◌==◌, ◌≤◌, ◌<◌, ◌^◌, ◌*◌, ◌-◌, ◌⊎◌, ℕ, min, length, if◌then◌else◌, true, false, Some, None, Ok, Err, IfOk, OnOk, OnErr, IsErrAnd, MatchResult};
ghost use Rattle.std.specs.List.{FoldsTo};
ghost use Rattle.end_settings.specs.EndSettings.{are_fit};
ghost use Rattle.end_settings.specs.ConfigValue.{settings_of, side_of};
ghost use Rattle.stack_end.specs.Datagrams.{sent_at_opening};
ghost use Rattle.stack_end.specs.Ends.{Call, Close, Deliver, InitDone, Put, opened_end};
ghost use Rattle.stack_end.specs.Bounds.{IsBounded};
ghost use Rattle.stack_end.specs.EndValue.{EndRepresents, channels_of, inside};
ghost use Rattle.end_for_callers.specs.Boxes.{Posted, new_outgoing, shares_of, told_of};
ghost use Rattle.end_for_callers.specs.Notes.{heard_anew, next_of, rest_of};
ghost use Rattle.end_for_callers.specs.Loads.{each_aside};
ghost use Rattle.octets.specs.declared.limits.TheConstants.{CHANNELS_MAX, PAYLOAD_MAX, RED_PDU_MAX, WINDOW_MAX, TIME_MAX};
ghost use Rattle.end_for_callers.specs.declared.Outcome.TheVariants as ended;
ghost use Rattle.end_for_callers.specs.Calls.{Does, LosesNone, Reopens, SameButDatagrams, SameButNotes, SameButTelegrams, is_blocked, is_expired, is_time, outbox_of, outcome_of, refusal, refusal_to_init, refusal_to_open, refusal_to_reopen, refusal_to_put, refusal_to_send, has_room, reserve_of, seen_end, timeout_of};
ghost use Rattle.end_for_callers.specs.Openings.{first_opening};
ghost use Rattle.end_for_callers.specs.Queues.{PopsInto, new_queue};
ghost use Rattle.stack_end.specs.Deadlines.{earliest};
ghost use Rattle.end_for_callers.specs.declared.StationFault.TheVariants as fault;
ghost use Rattle.end_for_callers.specs.declared.CallFault.TheVariants as refused;

use crate::inbox::Inbox;
use crate::notes::StationNote;
use crate::openings::{Openings, closed_at, last_departure};
use crate::outbox::Outbox;
use crate::queue::{Queue, TooSmall};
use crate::totals::add_counts;
use crate::{CALL_TELEGRAMS, CallFault, Outcome, PART_PDUS, StationFault};
use end_settings::{EndConfig, Side};
use octets::Milliseconds;
use octets::limits::{PAYLOAD_MAX, RED_PDU_MAX, TIME_MAX, WINDOW_MAX};
use pdi_session::{Agreed, MessageType, Phase};
use safe_machine::ConnectionState;
use stack_end::{Departure, End, OpenFault, Statistics};
use std::alloc::Global;
use std::cmp::min;
use std::marker::Model;

/// The room of the two queues.
#[derive(Clone, Copy, Debug, PartialEq, Eq)]
pub struct Rooms {
    /// The number of telegrams of the greatest size, at least 27.
    pub telegrams: u32,
    /// The number of datagrams of the greatest size, at least 37 for each channel.
    pub datagrams: u32,
}

/// An end with the datagrams sent and the telegrams taken that its caller has not fetched yet.
///
/// `open` allocates all its memory. If the caller empties both queues after each call, no call is refused for want
/// of room.
#[derive(Drop)]
pub struct Station {
    /// The end. Its channels are the queue of datagrams.
    end: End<Outbox>,
    /// The telegrams that wait.
    inbox: Inbox,
    /// The time of the last accepted call, in milliseconds.
    time: Milliseconds,
    /// How many datagrams must have room before a call.
    reserve: usize,
    /// What is kept over the openings of the end.
    openings: Openings,
}

impl Model for Station {
    ghost use Rattle.std.specs.Prelude.{◌<◌, ◌≤◌, ◌^◌};
    ghost use Rattle.octets.specs.declared.limits.TheConstants.{TIME_MAX};
    ghost use Rattle.end_for_callers.specs.Calls.{StationValue, seen_end};
    ghost use Rattle.end_for_callers.specs.Loads.{IsReady};
    ghost use Rattle.stack_end.specs.EndValue.{inside};

    ghost Value = { StationValue };

    ghost view = { λ s. record { end = seen_end s.end; inbox = s.inbox; time = s.time; reserve = s.reserve; openings = s.openings } };

    ghost invariant = { λ s. (s.end.time ≤ s.time) × (s.time ≤ TIME_MAX) × (s.reserve < 2 ^ 32) × IsReady s.reserve (inside s.end) };
}

impl Station {
    /// Opens an end on one side of a connection, as `End::open` does. It is the only call that allocates.
    ///
    /// # Errors
    ///
    /// Returns the first that applies:
    ///
    /// - `Time` if the time is above 2^62;
    /// - `BadConfig` if the settings are invalid for this side;
    /// - `Rooms` if there is room for fewer than 27 telegrams, or fewer than 37 datagrams for each channel;
    /// - `Memory` if an allocation fails.
    pub fn open(
        alloc: Global,
        config: &EndConfig,
        side: Side,
        first_sn: u32,
        rooms: Rooms,
        now: Milliseconds,
    ) -> Result<Station, StationFault>
        // `open` fails with the first of Time, BadConfig and Rooms that applies (`refusal_to_open`). If none
        // applies, it succeeds or fails with `Memory`.
        ensures answer { MatchResult result (λ _. refusal_to_open side (settings_of config.now) rooms now ≡ None)
            (λ f. (refusal_to_open side (settings_of config.now) rooms now ≡ Some f)
            ⊎ ((refusal_to_open side (settings_of config.now) rooms now ≡ None) × (f ≡ fault.Memory))) }
        // The end of a new station is in the initial state for its settings, side, first sequence number and time.
        ensures stands { IfOk result (λ s. EndRepresents told_of s.end (opened_end side config.now first_sn now)) }
        // The datagrams that the end sends at its opening wait in order; one without room would be counted as
        // unsent.
        ensures sent { IfOk result (λ s. Posted (new_outgoing rooms.datagrams)
            (sent_at_opening (opened_end side config.now first_sn now)) (outbox_of s)) }
        // A new station has no telegram waiting, none lost, and room for the given number of telegrams of the
        // greatest size.
        ensures inbox { IfOk result (λ s. s.inbox
            ≡ record { queue = new_queue rooms.telegrams (rooms.telegrams * PAYLOAD_MAX); lost = false }) }
        // The time of a new station is that of its opening.
        ensures time { IfOk result (λ s. s.time ≡ now) }
        // A new station reserves room for 37 datagrams for each channel before each call (`reserve_of`).
        ensures reserve { IfOk result (λ s. s.reserve ≡ reserve_of (settings_of config.now)) }
        // A new station counts one opening, and nothing before it.
        ensures openings { IfOk result (λ s. s.openings ≡ first_opening side (settings_of config.now).connection.t_max now) }
    {
        if now > TIME_MAX {
            return Err(StationFault::Time);
        }
        if !config.is_fit(side) {
            return Err(StationFault::BadConfig);
        }
        let reserve = reserve_of(config);
        if (rooms.telegrams as usize) < CALL_TELEGRAMS || (rooms.datagrams as u64) < reserve {
            return Err(StationFault::Rooms);
        }
        let (Ok(outbox), Ok(inbox)) = (
            Outbox::new(alloc, rooms.datagrams),
            Inbox::new(alloc, rooms.telegrams),
        ) else {
            return Err(StationFault::Memory);
        };
        match End::open(alloc, outbox, *config, side, first_sn, now) {
            Ok(end) => Ok(Station {
                end,
                inbox,
                time: now,
                reserve: reserve as usize,
                openings: Openings::new(side, config.t_max, now),
            }),
            Err((OpenFault::BadConfig, _)) => Err(StationFault::BadConfig),
            Err((OpenFault::Memory, _)) => Err(StationFault::Memory),
        }
    }

    /// Processes a received datagram, which may contain any bytes.
    ///
    /// # Errors
    ///
    /// Returns the first that applies, and changes nothing:
    ///
    /// - `Time` if the time is before that of the last accepted call, or above 2^62;
    /// - `Lost` if a telegram was lost before;
    /// - `TakeFirst` if there is room for fewer than 27 telegrams;
    /// - `SendFirst` if there is room for fewer datagrams than the reserve.
    pub fn arrive(
        &mut self,
        channel: usize,
        octets: &[u8],
        now: Milliseconds,
    ) -> Result<Outcome, CallFault>
        // An accepted `arrive` leaves the end as receiving this datagram does. Datagrams sent are appended in
        // order, or counted as unsent. Of the telegrams taken a prefix is appended, and all unless one is lost
        // (`Does`).
        ensures does { OnOk result (Does (Deliver channel octets.now now) self.old self.new) }
        // `arrive` is refused if and only if `refusal` gives a reason; it returns that one and changes nothing.
        // Otherwise the outcome says if a telegram, or else a datagram, found no room (`outcome_of`).
        ensures answer { MatchResult result (λ o. (refusal now self.old ≡ None) × (o ≡ outcome_of self.old self.new))
            (λ f. (refusal now self.old ≡ Some f) × (self.new ≡ self.old)) }
        // If the queue has room for what any call sends (`has_room_for_any`), an accepted `arrive` counts no datagram as
        // unsent.
        ensures room { OnOk result (LosesNone self.old self.new) }
        // An accepted `arrive` sets the station's time to `now`.
        ensures time { OnOk result (self.new.time ≡ now) }
    {
        self.may_receive(now)?;
        let before = self.unsent();
        let channels = self.channels();
        set_aside(&mut self.end, channels);
        self.end.arrive(channel, octets, now, &mut self.inbox);
        self.time = now;
        Ok(self.outcome(before))
    }

    /// Lets time pass, as `End::tick` does.
    ///
    /// # Errors
    ///
    /// Returns the first that applies, and changes nothing. The last two apply only before T_max has passed: after it, a
    /// tick closes the connection and needs no room.
    ///
    /// - `Time` if the time is before that of the last accepted call, or above 2^62;
    /// - `Lost` if a telegram was lost before;
    /// - `TakeFirst` if there is room for fewer than 27 telegrams;
    /// - `SendFirst` if there is room for fewer datagrams than the reserve.
    pub fn tick(&mut self, now: Milliseconds) -> Result<Outcome, CallFault>
        // An accepted `tick` leaves the end as the passing of time does. Datagrams sent and telegrams of released
        // parts are appended to the queues, as far as there is room (`Does`).
        ensures does { OnOk result (Does (Call.Tick now) self.old self.new) }
        // `tick` is refused if and only if `refusal` gives a reason, and changes nothing then. The outcome of an
        // accepted tick says what found no room (`outcome_of`).
        ensures answer { MatchResult result (λ o. (refusal now self.old ≡ None) × (o ≡ outcome_of self.old self.new))
            (λ f. (refusal now self.old ≡ Some f) × (self.new ≡ self.old)) }
        // If the queue has room for what any call sends (`has_room_for_any`), an accepted `tick` counts no datagram as
        // unsent.
        ensures room { OnOk result (LosesNone self.old self.new) }
        // An accepted `tick` sets the station's time to `now`.
        ensures time { OnOk result (self.new.time ≡ now) }
    {
        self.may_receive(now)?;
        let before = self.unsent();
        let channels = self.channels();
        set_aside(&mut self.end, channels);
        self.end.tick(now, &mut self.inbox);
        self.time = now;
        Ok(self.outcome(before))
    }

    /// Puts a command or status with a payload of 0 to 357 bytes, as `End::put` does. It is sent after everything
    /// that waits to be sent.
    ///
    /// # Errors
    ///
    /// Returns the first that applies, and changes nothing:
    ///
    /// - `Time` if the time is before that of the last accepted call, or above 2^62;
    /// - `Lost` if a telegram was lost before;
    /// - `SendFirst` if there is room for fewer datagrams than the reserve;
    /// - `Put` if the session refuses the telegram, with its reason.
    pub fn put(
        &mut self,
        kind: MessageType,
        payload: &[u8],
        now: Milliseconds,
    ) -> Result<Outcome, CallFault>
        // An accepted `put` leaves the end as putting this telegram does. Datagrams sent in the call are appended,
        // or counted as unsent (`Does`).
        ensures does { OnOk result (Does (Put kind payload.now now) self.old self.new) }
        // The outcome of an accepted `put` says if a telegram or a datagram found no room (`outcome_of`).
        ensures outcome { IfOk result (λ o. o ≡ outcome_of self.old self.new) }
        // `put` is refused if and only if `refusal_to_put` gives a reason: the station's first, then the
        // session's.
        ensures answer { MatchResult result (λ _. refusal_to_put now kind payload.now self.old ≡ None)
            (λ f. refusal_to_put now kind payload.now self.old ≡ Some f) }
        // A refused `put` leaves the station unchanged.
        ensures refused { OnErr result (self.new ≡ self.old) }
        // If the queue has room for what any call sends (`has_room_for_any`), an accepted `put` counts no datagram as
        // unsent.
        ensures room { OnOk result (LosesNone self.old self.new) }
        // An accepted `put` sets the station's time to `now`.
        ensures time { OnOk result (self.new.time ≡ now) }
    {
        self.may_send(now)?;
        let before = self.unsent();
        let channels = self.channels();
        set_aside(&mut self.end, channels);
        match self.end.put(kind, payload, now) {
            Ok(()) => {
                self.time = now;
                Ok(self.outcome(before))
            }
            Err(fault) => Err(CallFault::Put(fault)),
        }
    }

    /// Completes the initialisation of a field element, as `End::init_done` does: its end is sent after the
    /// initial status.
    ///
    /// # Errors
    ///
    /// Returns the first that applies, and changes nothing:
    ///
    /// - `Time` if the time is before that of the last accepted call, or above 2^62;
    /// - `Lost` if a telegram was lost before;
    /// - `SendFirst` if there is room for fewer datagrams than the reserve;
    /// - `Init` if the session refuses, with its reason.
    pub fn init_done(&mut self, now: Milliseconds) -> Result<Outcome, CallFault>
        // An accepted `init_done` leaves the end as the end of its initialisation does, and the datagrams sent in
        // the call are appended or counted (`Does`).
        ensures does { OnOk result (Does (InitDone now) self.old self.new) }
        // The outcome of an accepted `init_done` says if a telegram or a datagram found no room (`outcome_of`).
        ensures outcome { IfOk result (λ o. o ≡ outcome_of self.old self.new) }
        // `init_done` is refused if and only if `refusal_to_init` gives a reason: the station's first, then the
        // session's.
        ensures answer { MatchResult result (λ _. refusal_to_init now self.old ≡ None)
            (λ f. refusal_to_init now self.old ≡ Some f) }
        // A refused `init_done` leaves the station unchanged.
        ensures refused { OnErr result (self.new ≡ self.old) }
        // If the queue has room for what any call sends (`has_room_for_any`), an accepted `init_done` counts no datagram as
        // unsent.
        ensures room { OnOk result (LosesNone self.old self.new) }
        // An accepted `init_done` sets the station's time to `now`.
        ensures time { OnOk result (self.new.time ≡ now) }
    {
        self.may_send(now)?;
        let before = self.unsent();
        let channels = self.channels();
        set_aside(&mut self.end, channels);
        match self.end.init_done(now) {
            Ok(()) => {
                self.time = now;
                Ok(self.outcome(before))
            }
            Err(fault) => Err(CallFault::Init(fault)),
        }
    }

    /// Closes the connection, if there is one, with reason 0 (closed by the user). It needs no free room.
    ///
    /// # Errors
    ///
    /// - `Time` if the time is before that of the last accepted call, or above 2^62; nothing changes then.
    pub fn close(&mut self, now: Milliseconds) -> Result<Outcome, CallFault>
        // An accepted `close` leaves the end closed, and the DiscReq sent is appended or counted as unsent
        // (`Does`).
        ensures does { OnOk result (Does (Close now) self.old self.new) }
        // `close` is refused if and only if its time is not in range, with `Time` and without a change. Otherwise
        // the outcome says if a telegram or a datagram found no room.
        ensures answer { MatchResult result (λ o. (is_time now self.old ≡ true) × (o ≡ outcome_of self.old self.new))
            (λ f. (is_time now self.old ≡ false) × (f ≡ refused.Time) × (self.new ≡ self.old)) }
        // If the queue has room for what any call sends (`has_room_for_any`), an accepted `close` counts no datagram as
        // unsent.
        ensures room { OnOk result (LosesNone self.old self.new) }
        // An accepted `close` sets the station's time to `now`.
        ensures time { OnOk result (self.new.time ≡ now) }
    {
        if !self.is_time(now) {
            return Err(CallFault::Time);
        }
        let before = self.unsent();
        let channels = self.channels();
        set_aside(&mut self.end, channels);
        self.end.close(now);
        self.time = now;
        Ok(self.outcome(before))
    }

    /// Opens the end again after its connection is lost, with the settings, side and rooms that it has, as `open` does.
    /// It does not allocate. Datagrams of the old connection that wait are dropped, so that no call sends them.
    ///
    /// # Errors
    ///
    /// Returns the first that applies, and changes nothing:
    ///
    /// - `Time` if the time is before that of the last accepted call, or above 2^62;
    /// - `TakeFirst` if a telegram of the old connection waits, so that none is lost.
    pub fn reopen(&mut self, first_sn: u32, now: Milliseconds) -> Result<(), CallFault>
        // `reopen` is refused if and only if `refusal_to_reopen` gives a reason; it returns that one and changes
        // nothing.
        ensures answer { MatchResult result (λ _. refusal_to_reopen now self.old ≡ None)
            (λ f. (refusal_to_reopen now self.old ≡ Some f) × (self.new ≡ self.old)) }
        // An accepted `reopen` leaves every layer as newly opened with the settings that it has, and both queues empty
        // but for the ConnReq of an interlocking. No loss is left, and time and reserve are as `open` leaves them. What the
        // end counted is added to the sums, and its departure is kept (`Reopens`).
        ensures does { OnOk result (Reopens first_sn now self.old self.new) }
    {
        if !self.is_time(now) {
            return Err(CallFault::Time);
        }
        if !self.inbox.queue().is_empty() {
            return Err(CallFault::TakeFirst);
        }
        let openings = self
            .openings
            .next(&self.end.statistics(), self.end.departure(), now);
        self.end.channels().clear();
        self.end.reopen(first_sn, now);
        self.inbox.forget_loss();
        self.time = now;
        self.openings = openings;
        Ok(())
    }

    /// Removes the oldest waiting telegram, copies its payload to the start of the buffer, and returns its message
    /// type and size. Returns `None` if no telegram waits.
    ///
    /// # Errors
    ///
    /// - `TooSmall` if the buffer is shorter than the payload; the telegram then stays.
    pub fn take(&mut self, buffer: &mut [u8]) -> Result<Option<(MessageType, usize)>, TooSmall>
        // `take` removes the oldest telegram and copies its payload to the buffer. If none waits, or the buffer is
        // too short, nothing changes (`PopsInto`).
        ensures popped { PopsInto result self.old.inbox.queue buffer.old self.new.inbox.queue buffer.new }
        // `take` changes only the queue of telegrams: the end, its datagrams, the loss flag, the time and the
        // reserve stay.
        ensures same { SameButTelegrams self.old self.new }
    {
        self.inbox.pop(buffer)
    }

    /// Removes the oldest waiting datagram, copies it to the start of the buffer, and returns its channel and
    /// size. Returns `None` if no datagram waits.
    ///
    /// # Errors
    ///
    /// - `TooSmall` if the buffer is shorter than the datagram, which then stays.
    pub fn next_datagram(&mut self, buffer: &mut [u8]) -> Result<Option<(usize, usize)>, TooSmall>
        // `next_datagram` removes the oldest datagram and copies it to the buffer. If none waits, or the buffer is
        // too short, nothing changes (`PopsInto`).
        ensures popped { PopsInto result (outbox_of self.old).queue buffer.old (outbox_of self.new).queue buffer.new }
        // `next_datagram` changes only the queue of datagrams: the end's state, the count of unsent ones, the
        // telegrams, the time and the reserve stay.
        ensures same { SameButDatagrams self.old self.new }
    {
        self.end.channels().pop(buffer)
    }

    /// Keeps notes of what the end does from now on, or no longer. Those that wait are dropped. As long as none is kept,
    /// this costs one test for each datagram.
    pub fn hear_notes(&mut self, hears: bool)
        // Notes are kept if and only if `hears` is true, and none waits.
        ensures notes { (outbox_of self.new).notes ≡ heard_anew hears }
        // `hear_notes` changes nothing but the notes.
        ensures same { SameButNotes self.old self.new }
    {
        self.end.channels().hear_notes(hears);
    }

    /// Removes the oldest note. Up to 128 wait; later ones have no room, and after the last one that waits `next_note`
    /// returns once how many these are. If you fetch all notes after each call, they are those of the call.
    pub fn next_note(&mut self) -> Option<StationNote>
        // `next_note` returns the oldest note, or after the last one how many had no room, or `None`.
        ensures next { result ≡ next_of (outbox_of self.old).notes }
        // The returned note is gone.
        ensures rest { (outbox_of self.new).notes ≡ rest_of (outbox_of self.old).notes }
        // `next_note` changes nothing but the notes.
        ensures same { SameButNotes self.old self.new }
    {
        self.end.channels().next_note()
    }
}

impl Station {
    ghost use Rattle.std.specs.Prelude.{IfSome, Option, option_map};
    ghost use Rattle.pdi_session.specs.SessionStep.{agreement_of};
    ghost use Rattle.pdi_session.specs.declared.TheConstants.{CHECKSUM_MAX};
    ghost use Rattle.pdi_session.specs.declared.Phase.{Phase};
    ghost use Rattle.end_for_callers.specs.Calls.{IsNextTick, is_due, reopening_time, reopening_wait};
    ghost use Rattle.end_for_callers.specs.Openings.{last_departure};
    ghost use Rattle.end_for_callers.specs.Totals.{plus};
    ghost use Rattle.stack_end.specs.EndValue.{inside, statistics_of};
    ghost use Rattle.stack_end.specs.Certain.{confirmed_in};
    ghost use Rattle.stack_end.specs.Turns.{is_settled};

    /// Returns the earliest time at which `tick` has something to do if nothing arrives, nothing is put, and nothing that
    /// waits is fetched; for a stale end that is not due yet, also the time at which it is. With too little room for a tick
    /// this is the time at which T_max ends the connection. A closed end that is due has none.
    pub fn next_deadline(&self) -> Option<Milliseconds>
        // With room for a tick: a tick of an open end before the deadline does nothing, and one from it on, up to 2^62 ms,
        // does something; a stale end also has the time at which it is due to be opened again, until then. Without: the
        // deadline is T_max after the time last confirmed. After a lost telegram there is none.
        ensures { IsNextTick result self.now }
    {
        if self.lost() {
            return None;
        }
        if self.is_blocked() {
            return self.timeout();
        }
        earliest(self.end.next_deadline(), self.reopening_time())
    }

    /// Returns the state of the connection.
    pub fn state(&self) -> ConnectionState
        // `state` returns the connection state of the station's end.
        ensures { result ≡ (inside self.now.end).upper.machine.connection }
    {
        self.end.state()
    }

    /// Returns the phase of the session.
    pub fn phase(&self) -> Phase
        // `phase` returns the session phase of the station's end.
        ensures { result ≡ (inside self.now.end).upper.session.phase }
    {
        self.end.phase()
    }

    /// Returns true if the end is not closed, no message waits, and no unit is unconfirmed.
    pub fn settled(&self) -> bool
        // `settled` is true if and only if the end is settled (`is_settled`).
        ensures { result ≡ is_settled (inside self.now.end) }
    {
        self.end.settled()
    }

    /// Returns true if the end is due to be opened again: it cannot take part in a new connection, and it has waited long
    /// enough (`Openings::wait`), up to the time of the last accepted call.
    pub fn is_due(&self) -> bool
        // `is_due` is true if and only if the station's end is closed, or waits in Down and can miss the next request, and
        // its wait is over.
        ensures { result ≡ is_due self.now }
    {
        self.end.is_stale() && self.reopening_wait() == 0
    }

    /// Returns how many of the telegrams put since the opening the peer has certainly taken: the first ones of them. The
    /// number stays readable after the end has closed.
    pub fn confirmed(&self) -> u64
        // `confirmed` is the number of telegrams put into the station's end, less those that wait and those in
        // unconfirmed units.
        ensures { result ≡ confirmed_in (inside self.now.end).upper }
    {
        self.end.confirmed()
    }

    /// Returns the own time that the peer last confirmed, in milliseconds.
    pub fn confirmed_time(&self) -> Milliseconds
        // `confirmed_time` is the confirmed timestamp that the station's end keeps.
        ensures { result ≡ (inside self.now.end).upper.machine.confirmed_at }
    {
        self.end.confirmed_time()
    }

    /// Returns who ended the latest connection, why and when: the present one, or else one before the last opening.
    pub fn departure(&self) -> Option<Departure>
        // `departure` is the one that the calls of the station's end have recorded since its opening, or else the latest
        // that was kept.
        ensures { result ≡ last_departure (inside self.now.end).upper.departed self.now.openings.departed }
    {
        last_departure(self.end.departure(), self.openings.departed)
    }

    /// Returns what the two ends agreed on in the version check, or `None` before that: the PDI version, and the checksum
    /// of the field element's reply. It stays until the end is opened again.
    pub fn agreed(&self) -> Option<Agreed<'_>>
        // `agreed` is what the session of the station's end keeps of the version check.
        ensures agreed { option_map agreement_of result ≡ (inside self.now.end).upper.session.agreed }
        // The checksum of a station has at most 16 bytes.
        ensures short { IfSome result (λ a. length a.checksum.now ≤ CHECKSUM_MAX) }
    {
        self.end.agreed()
    }

    /// Returns all that the end has counted since its opening.
    pub fn statistics(&self) -> Statistics
        // `statistics` are those of the station's end.
        ensures { result ≡ statistics_of self.now.end }
    {
        self.end.statistics()
    }

    /// Returns the sums of what the end has counted in all its openings, modulo 2^64. An age or a wait is the greatest, a
    /// time of reception the last.
    pub fn totals(&self) -> Statistics
        // `totals` adds the counts of the present opening to the sums of those before.
        ensures { result ≡ plus self.now.openings.earlier (statistics_of self.now.end) }
    {
        add_counts(&self.openings.earlier, &self.end.statistics())
    }

    /// Returns how often the end was opened, modulo 2^64.
    pub fn openings(&self) -> u64
        // `openings` is the station's count of openings.
        ensures { result ≡ self.now.openings.count }
    {
        self.openings.count
    }

    /// Returns how many datagrams found no room since the opening, modulo 2^64.
    pub fn unsent(&self) -> u64
        // `unsent` is the station's count of datagrams without room.
        ensures { result ≡ (outbox_of self.now).unsent }
    {
        self.end.channels_seen().unsent()
    }

    /// Returns true if a telegram found no room.
    pub fn lost(&self) -> bool
        // `lost` is true if and only if a telegram of this station was lost.
        ensures { result ≡ self.now.inbox.lost }
    {
        self.inbox.lost()
    }

    /// Returns how many telegrams wait.
    pub fn telegrams(&self) -> usize
        // `telegrams` is the number of telegrams that the caller has not fetched.
        ensures { result ≡ length self.now.inbox.queue.waiting }
    {
        self.inbox.queue().len()
    }

    /// Returns how many datagrams wait.
    pub fn datagrams(&self) -> usize
        // `datagrams` is the number of datagrams that the caller has not fetched.
        ensures { result ≡ length (outbox_of self.now).queue.waiting }
    {
        self.end.channels_seen().queue().len()
    }

    /// Returns the number of channels.
    fn channels(&self) -> usize
        ensures { result ≡ (inside self.now.end).upper.count }
    {
        self.reserve / (WINDOW_MAX + PART_PDUS)
    }

    /// Returns true if there is too little room for a call that may deliver telegrams.
    fn is_blocked(&self) -> bool
        ensures { result ≡ is_blocked self.now }
    {
        !has_room(self.inbox.queue(), CALL_TELEGRAMS, PAYLOAD_MAX)
            || !has_room(self.end.channels_seen().queue(), self.reserve, RED_PDU_MAX)
    }

    /// Returns true if T_max has passed since the peer last confirmed anything.
    fn is_expired(&self, now: Milliseconds) -> bool
        ensures { result ≡ is_expired now (inside self.now.end).upper }
    {
        match self.end.margin(now) {
            Some(margin) => margin == 0,
            None => false,
        }
    }

    /// Returns the time at which T_max ends the connection if the peer confirms nothing more.
    fn timeout(&self) -> Option<Milliseconds>
        ensures { result ≡ timeout_of (inside self.now.end).upper }
    {
        let confirmed = self.end.confirmed_time();
        match self.end.margin(confirmed) {
            Some(margin) => Some(confirmed.saturating_add(margin)),
            None => None,
        }
    }

    /// Returns how long it is, from the last accepted call on, until the end is opened again if it is stale.
    fn reopening_wait(&self) -> Milliseconds
        ensures { result ≡ reopening_wait self.now }
    {
        let closed = closed_at(self.end.departure(), self.openings.opened);
        self.openings.wait(closed, self.time)
    }

    /// Returns the time at which a stale end is due to be opened again, if that is still to come.
    fn reopening_time(&self) -> Option<Milliseconds>
        ensures { result ≡ reopening_time self.now }
    {
        let wait = self.reopening_wait();
        if self.end.is_stale() && wait != 0 {
            Some(self.time.saturating_add(wait))
        } else {
            None
        }
    }

    /// Returns true if a call may have this time.
    fn is_time(&self, now: Milliseconds) -> bool
        ensures { result ≡ is_time now self.now }
    {
        self.time <= now && now <= TIME_MAX
    }

    /// Checks the conditions of a call that only sends.
    fn may_send(&self, now: Milliseconds) -> Result<(), CallFault>
        // The result is the first of Time, Lost and SendFirst that applies, if any (`refusal_to_send`).
        ensures answer { MatchResult result (λ _. refusal_to_send now self.now ≡ None) (λ f. refusal_to_send now self.now ≡ Some f) }
        // If a sending call may go on, its time is in range.
        ensures time { OnOk result (is_time now self.now ≡ true) }
    {
        if !self.is_time(now) {
            return Err(CallFault::Time);
        }
        if self.lost() {
            return Err(CallFault::Lost);
        }
        if !has_room(self.end.channels_seen().queue(), self.reserve, RED_PDU_MAX) {
            return Err(CallFault::SendFirst);
        }
        Ok(())
    }

    /// Checks the conditions of a call that may deliver telegrams, too.
    fn may_receive(&self, now: Milliseconds) -> Result<(), CallFault>
        // The result is the first of Time, Lost, TakeFirst and SendFirst that applies, if any (`refusal`).
        ensures answer { MatchResult result (λ _. refusal now self.now ≡ None) (λ f. refusal now self.now ≡ Some f) }
        // If a delivering call may go on, its time is in range.
        ensures time { OnOk result (is_time now self.now ≡ true) }
    {
        if !self.is_time(now) {
            return Err(CallFault::Time);
        }
        if self.lost() {
            return Err(CallFault::Lost);
        }
        if self.is_expired(now) {
            return Ok(());
        }
        if !has_room(self.inbox.queue(), CALL_TELEGRAMS, PAYLOAD_MAX) {
            return Err(CallFault::TakeFirst);
        }
        if !has_room(self.end.channels_seen().queue(), self.reserve, RED_PDU_MAX) {
            return Err(CallFault::SendFirst);
        }
        Ok(())
    }

    /// Returns the outcome of a call; `unsent` is the count before it.
    fn outcome(&self, unsent: u64) -> Outcome
        ensures { result ≡ (if self.now.inbox.lost then ended.Lost else if (outbox_of self.now).unsent == unsent then ended.Whole else ended.Unsent) }
    {
        if self.lost() {
            Outcome::Lost
        } else if self.unsent() == unsent {
            Outcome::Whole
        } else {
            Outcome::Unsent
        }
    }
}

/// Returns the earlier of two times.
fn earliest(one: Option<Milliseconds>, other: Option<Milliseconds>) -> Option<Milliseconds>
    ensures { result ≡ earliest one other }
{
    match (one, other) {
        (None, deadline) | (deadline, None) => deadline,
        (Some(first), Some(second)) => Some(min(first, second)),
    }
}

/// Returns the first reason to refuse an opening, if there is one. A failed allocation is not tested.
pub fn refusal_to_open(
    config: &EndConfig,
    side: Side,
    rooms: Rooms,
    now: Milliseconds,
) -> Option<StationFault>
    // The result is `Time` for a time above 2^62, then `BadConfig` for settings that do not fit the side, then `Rooms`
    // for too little room; `None` if no reason applies.
    ensures { result ≡ refusal_to_open side (settings_of config.now) rooms now }
{
    if now > TIME_MAX {
        return Some(StationFault::Time);
    }
    if !config.is_fit(side) {
        return Some(StationFault::BadConfig);
    }
    let has_rooms = CALL_TELEGRAMS <= rooms.telegrams as usize
        && reserve_of(config) <= rooms.datagrams as u64;
    if !has_rooms {
        return Some(StationFault::Rooms);
    }
    None
}

/// Sets places aside for what a call sends on each of the channels, if there is room.
fn set_aside(end: &mut End<Outbox>, channels: usize)
    requires few { channels ≤ CHANNELS_MAX }
    // For a caller of the station nothing changes.
    ensures same { seen_end end.new ≡ seen_end end.old }
    // Each channel of the end has the places of one call aside if there is room for them on all, and otherwise none.
    ensures shares { (channels_of end.new).shares ≡ shares_of channels (each_aside channels (channels_of end.old).out) }
    // The end is within its bounds.
    ensures bounded { IsBounded (inside end.new) }
    // It defers no more parts than it may.
    ensures deferred { length (inside end.new).red.waiting ≤ (inside end.new).red.q }
{
    end.channels().set_aside(channels);
    end.bounds();
}

/// Returns true if the queue has room for this number of pieces of this size.
fn has_room<T: Copy>(queue: &Queue<T>, count: usize, size: usize) -> bool
    requires size { size < 2 ^ 31 }
    requires count { count < 2 ^ 32 }
    ensures { result ≡ has_room count size queue.now }
{
    queue.places() >= count && queue.room() >= count * size
}

/// Returns how many datagrams must have room before a call: on each channel the PDUs of one part, and a
/// retransmission of the greatest window that a peer may have.
fn reserve_of(config: &EndConfig) -> u64
    ensures { result ≡ min (reserve_of (settings_of config.now)) (2 ^ 64 - 1) }
{
    config
        .channels
        .saturating_mul((WINDOW_MAX + PART_PDUS) as u64)
}
