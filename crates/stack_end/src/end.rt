//! One end of a connection: the type that an application opens.

ghost use Rattle.std.specs.Prelude.{◌≡◌, ◌≤◌, ◌^◌, ◌↔◌, ℕ, replicate, true, false, length, Option, option_map, Some, None, Ok, Err, IfOk, IfSome};
ghost use Rattle.std.specs.Prelude.{OnOk, OnErr, IfErr, IsErrAnd, MatchResult, if◌then◌else◌};
ghost use Rattle.std.specs.List.{FoldsTo};
ghost use Rattle.std.specs.Borrow.{sem};
ghost use Rattle.channels.specs.ChannelHistory.{SendsOne};
ghost use Rattle.end_settings.specs.EndSettings.{are_fit};
ghost use Rattle.end_settings.specs.ConfigValue.{settings_of, side_of};
ghost use Rattle.stack_end.specs.Ends.{opened_end};
ghost use Rattle.stack_end.specs.Datagrams.{sent_at_opening};
ghost use Rattle.stack_end.specs.EndValue.{EndRepresents, EndTakesTurn, EndTakesTurnAlone, channels_of, inside, statistics_of};
ghost use Rattle.stack_end.specs.Turns.{upper_turn, arrival_turn, can_pack, close_turn, init_done_turn, init_answer, is_over, event_of, is_settled, tick_expires_deferral, time_turn, put_answer, put_turn};
ghost use Rattle.stack_end.specs.Outstanding.{PutOut};
ghost use Rattle.stack_end.specs.Reception.{HasProcessed, TakesPart};
ghost use Rattle.stack_end.specs.Recent.{DatagramRecent, TickRecent};
ghost use Rattle.red_layer.specs.Redundancy.{is_due};
ghost use Rattle.stack_end.specs.Bounds.{IsBounded};
ghost use Rattle.stack_end.specs.Certain.{confirmed_in};
ghost use Rattle.pdi_session.specs.TelegramCounts.{items_in};
ghost use Rattle.stack_end.specs.Stale.{is_stale};
ghost use Rattle.stack_end.specs.Timely.{margin_of};
ghost use Rattle.stack_end.specs.Reopening.{reopening_turn};
ghost use Rattle.stack_end.specs.Statistics.{no_datagram_counts, count_datagram, count_expired};
ghost use Rattle.octets.specs.declared.limits.TheConstants.{CHANNELS_MAX, TIME_MAX};
ghost use Rattle.pdi_session.specs.SessionStep.{agreement_of};
ghost use Rattle.pdi_session.specs.declared.TheConstants.{CHECKSUM_MAX};
ghost use Rattle.safe_machine.specs.Deadlines.{IsBefore, IsReachedAt};
ghost use Rattle.stack_end.specs.Deadlines.{HasFallen, IsQuiet, earliest};
ghost use Rattle.stack_end.specs.Poll.{RequestsDatagram, RequestsOnce, ProcessesAll, ProcessesNext, ProcessesUntilFault, IsPoll, buffer_size, most_datagrams};
ghost use Rattle.stack_end.specs.declared.OpenFault.TheVariants.{BadConfig};

use crate::departure::Departure;
use crate::layers::Layers;
use crate::statistics::{DatagramCounts, Statistics};
use crate::{OpenFault, POLL_BUFFER, POLL_DATAGRAMS, PollFault, opening};
use channels::{ChannelFault, Channels};
use end_settings::{EndConfig, Side};
use octets::Milliseconds;
use pdi_session::{Agreed, InitFault, MessageType, Phase, PutFault, Taker};
use safe_machine::ConnectionState;
use std::alloc::{Allocator, Global};
use std::cmp::min;
use std::marker::Model;

/// One end of a connection over the channels `C`.
///
/// Datagrams, times and the application's telegrams go in; datagrams and telegrams in order come out. An end
/// allocates only in `open`.
///
/// The caller must pass times from one clock, in whole milliseconds, that never decreases and stays at or below
/// 2^62. Nothing else is required of it.
#[derive(Drop)]
pub struct End<C, A: Allocator = Global> {
    /// The protocol layers, from the redundancy layer up.
    pub(crate) layers: Layers<C, A>,
    /// The time of the last call, in milliseconds.
    pub(crate) time: Milliseconds,
    /// The counts of what came.
    pub(crate) receptions: DatagramCounts,
}

impl<C, A: Allocator> Model for End<C, A> {
    ghost use Rattle.stack_end.specs.EndValue.{EndValue};
    ghost use Rattle.stack_end.specs.LayerBounds.{KeepsLayerBounds};

    ghost Value = { EndValue C A };

    ghost view = { λ e. record { layers = e.layers; time = e.time; receptions = e.receptions } };

    ghost invariant = { λ e. KeepsLayerBounds e.layers };
}

impl<C: Channels, A: Allocator + Copy> End<C, A> {
    /// Opens one side of a connection.
    ///
    /// An interlocking sends its ConnReq at once, numbered `first_sn`. A field element sends nothing and waits
    /// for a ConnReq. No other call allocates. If the settings name more channels than `channels` has, every
    /// send on the missing ones fails, and a failed send is a lost datagram.
    ///
    /// # Errors
    ///
    /// Returns the first that applies, together with the unchanged `channels`:
    ///
    /// - `BadConfig` if the settings are invalid for this side;
    /// - `Memory` if an allocation fails.
    pub fn open(
        alloc: A,
        channels: C,
        config: EndConfig,
        side: Side,
        first_sn: u32,
        now: Milliseconds,
    ) -> Result<Self, (OpenFault, C)>
        // `open` fails with `BadConfig` if and only if the settings are invalid for this side.
        ensures bad_config { IsErrAnd result (λ e. e.0 ≡ BadConfig)
            ↔ (are_fit (side_of side) (settings_of config) ≡ false) }
        // If `open` fails, it returns the channels unchanged.
        ensures back { IfErr result (λ e. e.1 ≡ channels) }
        // The new end is in the initial state for its settings, side, first sequence number and time: an
        // interlocking in Start, a field element in Down.
        ensures stands { IfOk result (λ end. EndRepresents C.told end (opened_end side config first_sn now)) }
        // The ConnReq of an interlocking is sent with redundancy number 0 on every channel in order; a send
        // that fails is counted. A field element sends nothing.
        ensures sent { IfOk result (λ end. FoldsTo SendsOne (C.told channels)
            (sent_at_opening (opened_end side config first_sn now)) (C.told (channels_of end))) }
        // Nothing has come on any channel.
        ensures received { IfOk result (λ end. end.receptions ≡ no_datagram_counts) }
    {
        match opening::open(alloc, channels, config, side, first_sn, now) {
            Ok(layers) => Ok(End {
                layers,
                time: now,
                receptions: DatagramCounts::none(),
            }),
            Err(refused) => Err(refused),
        }
    }
}

impl<C: Channels, A: Allocator> End<C, A> {
    ghost use Rattle.stack_end.specs.LentChannels.{lends_channels};

    /// Processes a received datagram, which may contain any bytes.
    ///
    /// Telegrams for the application go to `taker` in order. Messages that wait are then sent while the peer's
    /// window is open. A closed end ignores the datagram.
    pub fn arrive<T: Taker>(
        &mut self,
        channel: usize,
        octets: &[u8],
        now: Milliseconds,
        taker: &mut T,
    )
        requires now { now ≤ TIME_MAX }
        requires later { self.old.time ≤ now }
        // `arrive` checks T_max and the PDU limit, then passes the datagram up: redundancy layer, safety
        // machine and session. It then sends waiting messages. Each PDU goes out on every channel in order, and
        // a send that fails is counted. The new state, the datagrams sent and the telegrams delivered are
        // exactly those of `arrival_turn`.
        ensures turns { EndTakesTurn C.told T.takes (arrival_turn now octets.now) self.old taker.old self.new taker.new }
        // After `arrive`, no message waits that the safety machine could send.
        ensures packs { can_pack (inside self.new).upper ≡ false }
        // The parts that the datagram releases go up one at a time, and the taker receives what the session
        // accepts from each. If that is anything, the confirmed timestamp of the part's PDU, as this end reads
        // it, is less than T_max old.
        ensures recent { DatagramRecent T.takes now octets.now (inside self.old) taker.old taker.new }
        // If the end is open, and neither T_max nor the PDU limit closes it first, the redundancy layer
        // processes the datagram, whatever its channel.
        ensures hears { HasProcessed now octets.now (inside self.old) (inside self.new) }
        // If the datagram releases exactly one part, the taker receives everything that the session accepts
        // from that part's unit, and nothing else.
        ensures passes { TakesPart T.takes now octets.now (inside self.old) taker.old taker.new }
        // The datagram is counted at its channel, by what the redundancy layer did with it. If T_seq had passed for
        // parts deferred before it, that is counted too.
        ensures received { self.new.receptions ≡ count_datagram channel (event_of now octets.now (inside self.old)) (is_due now (inside self.old).red) now self.old.receptions }
        // `arrive` sets the end's time to `now`.
        ensures time { self.new.time ≡ now }
    {
        let due = self.layers.is_due(now);
        let event = self.layers.arrive(octets, now, taker);
        self.receptions.count_datagram(channel, event, due, now);
        self.time = now;
    }

    /// Lets time pass: closes the end if T_max or the PDU limit is reached, sends a heartbeat if T_h has
    /// passed, and releases deferred parts if T_seq has passed.
    ///
    /// Telegrams for the application go to `taker` in order. A closed end ignores the call.
    pub fn tick<T: Taker>(&mut self, now: Milliseconds, taker: &mut T)
        requires now { now ≤ TIME_MAX }
        requires later { self.old.time ≤ now }
        // `tick` runs the timers of the safety machine, and unless that closes the end, the timer of the
        // redundancy layer. It then sends waiting messages. The new state, the datagrams sent (or counted as
        // failed) and the telegrams delivered are exactly those of `time_turn`.
        ensures turns { EndTakesTurn C.told T.takes (time_turn now) self.old taker.old self.new taker.new }
        // After `tick`, no message waits that the safety machine could send.
        ensures packs { can_pack (inside self.new).upper ≡ false }
        // Deferred parts that `tick` releases go up one at a time, and the taker receives what the session
        // accepts from each. If that is anything, the confirmed timestamp of the part's PDU, as this end reads
        // it, is less than T_max old.
        ensures recent { TickRecent T.takes now (inside self.old) taker.old taker.new }
        // `tick` sets the end's time to `now`.
        ensures time { self.new.time ≡ now }
        // `tick` counts no datagram. If T_seq has passed for deferred parts, and the machine's timers leave the end open,
        // that is counted.
        ensures received { self.new.receptions ≡ count_expired (tick_expires_deferral now (inside self.old)) self.old.receptions }
    {
        let expired = self.layers.tick(now, taker);
        self.receptions.count_expired(expired);
        self.time = now;
    }

    /// Queues a command or status with message type `kind` and a payload of 0 to 357 bytes, after all messages
    /// that wait, and sends what the peer's window allows.
    ///
    /// # Errors
    ///
    /// Returns the first that applies, and changes nothing:
    ///
    /// - `NotEstablished` if this end may not put in the present phase of the session;
    /// - `Full` if 64 messages wait;
    /// - `ReservedType` if `kind` is one of the five message types that set up the session;
    /// - `TooLong` if the payload is longer than 357 bytes.
    pub fn put(
        &mut self,
        kind: MessageType,
        payload: &[u8],
        now: Milliseconds,
    ) -> Result<(), PutFault>
        requires now { now ≤ TIME_MAX }
        requires later { self.old.time ≤ now }
        // An accepted put queues the telegram last and sends waiting messages while the safety machine may
        // send. The new state and the datagrams sent (or counted as failed) are exactly those of `put_turn`;
        // nothing is delivered to the application.
        ensures turns { OnOk result (EndTakesTurnAlone C.told (upper_turn (put_turn kind payload.now now)) self.old self.new) }
        // After an accepted put, no message waits that the safety machine could send.
        ensures packs { OnOk result (can_pack (inside self.new).upper ≡ false) }
        // An accepted put loses no message: those that waited, followed by the new telegram, are now in newly
        // unconfirmed units or still wait, in this order.
        ensures kept { OnOk result (PutOut kind payload.now (inside self.old).upper (inside self.new).upper) }
        // An accepted put sets the end's time to `now`.
        ensures time { OnOk result (self.new.time ≡ now) }
        // A refused put changes nothing.
        ensures refused { OnErr result (self.new ≡ self.old) }
        // A put is accepted if and only if none of the four refusals applies; otherwise the first that applies
        // is returned.
        ensures answer { MatchResult result
            (λ _. put_answer kind payload.now (inside self.old).upper ≡ None)
            (λ fault. put_answer kind payload.now (inside self.old).upper ≡ Some fault) }
        // `put` counts no datagram.
        ensures received { self.new.receptions ≡ self.old.receptions }
    {
        self.layers.put(kind, payload, now)?;
        self.time = now;
        Ok(())
    }

    /// Ends the initialisation: the application of a field element has put its initial status. The end sends
    /// the closing telegram after it.
    ///
    /// # Errors
    ///
    /// Returns the first that applies, and changes nothing:
    ///
    /// - `NotInitialising` if this is not a field element in phase Initialising;
    /// - `Full` if 64 messages wait.
    pub fn init_done(&mut self, now: Milliseconds) -> Result<(), InitFault>
        requires now { now ≤ TIME_MAX }
        requires later { self.old.time ≤ now }
        // An accepted end of the initialisation queues its telegram last and sends waiting messages while the
        // safety machine may send. The new state and the datagrams sent (or counted as failed) are exactly
        // those of `init_done_turn`; nothing is delivered to the application.
        ensures turns { OnOk result (EndTakesTurnAlone C.told (upper_turn (init_done_turn now)) self.old self.new) }
        // After an accepted end of the initialisation, no message waits that the safety machine could send.
        ensures packs { OnOk result (can_pack (inside self.new).upper ≡ false) }
        // An accepted end of the initialisation sets the end's time to `now`.
        ensures time { OnOk result (self.new.time ≡ now) }
        // A refused end of the initialisation changes nothing.
        ensures refused { OnErr result (self.new ≡ self.old) }
        // The end of the initialisation is accepted if and only if neither refusal applies; otherwise the first
        // that applies is returned.
        ensures answer { MatchResult result
            (λ _. init_answer (inside self.old).upper ≡ None)
            (λ fault. init_answer (inside self.old).upper ≡ Some fault) }
        // `init_done` counts no datagram.
        ensures received { self.new.receptions ≡ self.old.receptions }
    {
        self.layers.init_done(now)?;
        self.time = now;
        Ok(())
    }

    /// Disconnects with reason 0 (closed by the user) if there is a connection, and ends the session.
    pub fn close(&mut self, now: Milliseconds)
        requires now { now ≤ TIME_MAX }
        requires later { self.old.time ≤ now }
        // If there is a connection, the end sends a DiscReq with reason 0. Connection and session are then
        // over. The new state and the datagrams sent (or counted as failed) are exactly those of `close_turn`;
        // nothing is delivered to the application.
        ensures turns { EndTakesTurnAlone C.told (upper_turn (close_turn now)) self.old self.new }
        // `close` sets the end's time to `now`.
        ensures time { self.new.time ≡ now }
        // `close` counts no datagram.
        ensures received { self.new.receptions ≡ self.old.receptions }
    {
        self.layers.close(now);
        self.time = now;
    }

    /// Opens this end again with the settings, side and channels that it has, as `open` does, without allocating. An
    /// interlocking sends its ConnReq at once, numbered `first_sn`; a field element waits for one. Nothing is sent on
    /// the connection that there was: to inform the peer, close the end first. All counts begin anew.
    pub fn reopen(&mut self, first_sn: u32, now: Milliseconds)
        requires now { now ≤ TIME_MAX }
        requires later { self.old.time ≤ now }
        // Every layer is as newly opened with the settings that it has. The new state, and the ConnReq sent (or
        // counted as failed), are exactly those of `reopening_turn`; nothing is delivered to the application.
        ensures turns { EndTakesTurnAlone C.told (reopening_turn first_sn now) self.old self.new }
        // `reopen` sets the end's time to `now`.
        ensures time { self.new.time ≡ now }
        // Nothing has come on any channel since.
        ensures received { self.new.receptions ≡ no_datagram_counts }
    {
        self.layers.reopen(first_sn, now);
        self.receptions = DatagramCounts::none();
        self.time = now;
    }

    /// Processes the datagrams that the channels have received, at most 64 of up to 2,048 bytes, then lets time
    /// pass as `tick` does.
    ///
    /// # Errors
    ///
    /// - `Channel` if a reception fails. Datagrams received before it have been processed; time has not passed,
    ///   so the caller must still call `tick`.
    pub fn poll<T: Taker>(&mut self, now: Milliseconds, taker: &mut T) -> Result<(), PollFault>
        requires now { now ≤ TIME_MAX }
        requires later { self.old.time ≤ now }
        // A successful poll processes up to 64 datagrams in the order received, each as a delivery and before it
        // requests the next, then ticks once; everything that it delivers is recent. It stops before 64 only if
        // nothing more has come. Each request offers a buffer of 2,048 bytes, more than the longest datagram
        // (1,258).
        ensures done { OnOk result
            (IsPoll C.told T.takes most_datagrams now (self.old, taker.old) (self.new, taker.new)) }
        // A failed poll has processed fewer than 64 datagrams in order, each as a delivery, until a reception
        // failed. It has not ticked.
        ensures failed { OnErr result
            (ProcessesUntilFault C.told T.takes most_datagrams now (self.old, taker.old) (self.new, taker.new)) }
        // After a successful poll, no message waits that the safety machine could send.
        ensures packs { OnOk result (can_pack (inside self.new).upper ≡ false) }
        // A poll never sets the end's time later than `now`, even if it fails.
        ensures time { self.new.time ≤ now }
    {
        let mut buffer = [0; POLL_BUFFER];
        match self.receive_all(&mut buffer, now, taker) {
            Ok(()) => {
                self.tick(now, taker);
                Ok(())
            }
            Err(_) => Err(PollFault::Channel),
        }
    }

    /// Processes received datagrams, up to the limit of one poll.
    fn receive_all<T: Taker>(
        &mut self,
        buffer: &mut [u8],
        now: Milliseconds,
        taker: &mut T,
    ) -> Result<(), ChannelFault>
        requires now { now ≤ TIME_MAX }
        requires room { length buffer.old ≡ buffer_size }
        requires later { self.old.time ≤ now }
        // Up to 64 datagrams have been processed in order, and fewer only if nothing more has come.
        ensures done { OnOk result
            (ProcessesAll C.told T.takes most_datagrams now (self.old, taker.old) (self.new, taker.new)) }
        // Fewer than 64 datagrams have been processed, in order, before a reception failed.
        ensures failed { OnErr result
            (ProcessesUntilFault C.told T.takes most_datagrams now (self.old, taker.old) (self.new, taker.new)) }
        // The end's time is not later than `now`.
        ensures time { self.new.time ≤ now }
    {
        for _ in 0..POLL_DATAGRAMS {
            match self.receive_next(buffer, now, taker) {
                Ok(true) => {}
                Ok(false) => return Ok(()),
                Err(fault) => return Err(fault),
            }
        }
        Ok(())
    }

    /// Processes the next received datagram. Returns `false` if none has come.
    fn receive_next<T: Taker>(
        &mut self,
        buffer: &mut [u8],
        now: Milliseconds,
        taker: &mut T,
    ) -> Result<bool, ChannelFault>
        requires now { now ≤ TIME_MAX }
        requires room { length buffer.old ≡ buffer_size }
        requires later { self.old.time ≤ now }
        // Either one datagram was received and processed, or nothing had come, or the reception failed and
        // nothing else has changed.
        ensures heard { MatchResult result
            (λ came. ProcessesNext C.told T.takes now came (self.old, taker.old) (self.new, taker.new))
            (λ fault. RequestsOnce C.told (Err fault) (self.old, taker.old) (self.new, taker.new)) }
        // The end's time is at most `now`, whether or not a datagram came.
        ensures time { self.new.time ≤ now }
    {
        match self.request_datagram(buffer) {
            Ok(Some((channel, size))) => {
                self.arrive(channel, &buffer[..size], now, taker);
                Ok(true)
            }
            Ok(None) => Ok(false),
            Err(fault) => Err(fault),
        }
    }

    /// Requests a datagram from the channels.
    fn request_datagram(
        &mut self,
        buffer: &mut [u8],
    ) -> Result<Option<(usize, usize)>, ChannelFault>
        requires { length buffer.old ≡ buffer_size }
        // The channels were asked once with the whole buffer; nothing else of the end has changed.
        ensures asked { RequestsDatagram C.told result buffer.new self.old self.new }
        // A received datagram fits the buffer.
        ensures fits { IfOk result (λ came. IfSome came (λ p. p.1 ≤ length buffer.new)) }
    {
        self.layers.upper.channels.receive(buffer)
    }

    /// Returns the earliest time at which `tick` has something to do if no datagram arrives and nothing is put:
    /// T_max, T_h or the PDU limit of the safety machine, or T_seq of the redundancy layer.
    ///
    /// The time may be in the past. Returns `None` if no timer runs, as in a closed end.
    pub fn next_deadline(&self) -> Option<Milliseconds>
        // Before the returned time, a tick of an open end changes neither the safety machine nor the redundancy
        // layer, and no part goes up.
        ensures before { is_over (inside self.now) ≡ false → (now : ℕ) → IsBefore now result
            → IsQuiet now (inside self.now) }
        // At or after the returned time (up to 2^62 ms), a tick changes the safety machine, or T_seq of the
        // redundancy layer has passed.
        ensures after { (now : ℕ) → now ≤ TIME_MAX → IsReachedAt now result → HasFallen now (inside self.now) }
        // A closed end has no deadline.
        ensures closed { is_over (inside self.now) ≡ true → result ≡ None }
    {
        let deferral = self.layers.red.deadline();
        match self.state() {
            ConnectionState::Closed => None,
            _ => earliest(self.layers.upper.machine.deadline(), deferral),
        }
    }

    /// Borrows the channels, so that their owner can inspect or change them.
    pub fn channels(&mut self) -> &mut C
        // When the borrow ends, the end has the channels as their owner left them; nothing else of the end has
        // changed.
        ensures* writes_back { sem 𝓛 (lends_channels C.row A.row A.Allocator self.entry result) }
        // `channels` lends the end's own channels as they are at the call.
        ensures now { result.now ≡ channels_of self.old }
    {
        let layers = &mut self.layers;
        let upper = &mut layers.upper;
        &mut upper.channels
    }

    /// Returns the channels for inspection.
    pub fn channels_seen(&self) -> &C
        // `channels_seen` returns the end's own channels.
        ensures { result.now ≡ channels_of self.now }
    {
        &self.layers.upper.channels
    }

    /// Returns the state of the connection.
    pub fn state(&self) -> ConnectionState
        // `state` is the connection state of the safety machine.
        ensures { result ≡ (inside self.now).upper.machine.connection }
    {
        self.layers.upper.machine.state()
    }

    /// Returns the phase of the session.
    pub fn phase(&self) -> Phase
        // `phase` is the present phase of the session.
        ensures { result ≡ (inside self.now).upper.session.phase }
    {
        self.layers.upper.session.phase()
    }

    /// Returns true if everything put has been confirmed: the end is not closed, no message waits, and no unit
    /// is unconfirmed.
    pub fn settled(&self) -> bool
        // `settled` is true if and only if the end is not closed, no message waits and no unit is unconfirmed.
        ensures { result ≡ is_settled (inside self.now) }
    {
        let unconfirmed = self.layers.upper.machine.unconfirmed();
        self.state() != ConnectionState::Closed
            && self.layers.upper.waiting.len() == 0
            && unconfirmed == 0
    }

    /// States the bounds that hold of an end at any time. It does nothing.
    pub fn bounds(&self)
        // The redundancy layer defers at most q parts.
        ensures deferred { length (inside self.now).red.waiting ≤ (inside self.now).red.q }
        // At most 64 messages wait. At most as many units are unconfirmed as the peer's window allows, and that
        // is at most 32.
        ensures bounded { IsBounded (inside self.now) }
    {
        self.layers.red.bounds();
        self.layers.upper.machine.bounds();
        let _waiting = self.layers.upper.waiting.len();
    }

    /// Returns how many of the telegrams put since the opening are confirmed: neither waiting nor in an unconfirmed
    /// unit.
    ///
    /// The peer has certainly taken the first ones, as many as this; the others are in doubt. The number stays
    /// readable after the end has closed, until the next opening. It does not count beyond 2^64 - 1.
    pub fn confirmed(&self) -> u64
        // The result is the number of telegrams put, less those that wait and those in unconfirmed units.
        ensures { result ≡ confirmed_in (inside self.now).upper }
    {
        self.layers.upper.confirmed()
    }

    /// Returns how many of the telegrams put since the opening wait: no PDU was made of them, so the peer cannot have
    /// them.
    ///
    /// They are counted among those that are not confirmed. The number stays readable after the end has closed, until
    /// the next opening.
    pub fn unsent(&self) -> u64
        // The result is the number of telegrams that wait.
        ensures { result ≡ items_in (inside self.now).upper.waiting }
    {
        self.layers.upper.waiting.items() as u64
    }

    /// Returns the own time last confirmed by the peer, in milliseconds. After a call at which a telegram was taken it is
    /// less than T_max old (`timely_law`).
    pub fn confirmed_time(&self) -> Milliseconds
        // The result is the confirmed timestamp that the safety machine keeps.
        ensures { result ≡ (inside self.now).upper.machine.confirmed_at }
    {
        self.layers.upper.machine.confirmed_time()
    }

    /// Returns the margin to T_max: how long it is until T_max ends the connection, in milliseconds, if the peer confirms
    /// nothing more. Returns 0 if it is reached, and `None` without a connection.
    pub fn margin(&self, now: Milliseconds) -> Option<Milliseconds>
        // In Down and Closed the result is `None`; otherwise it is T_max less the time since the peer last confirmed, and
        // at least 0.
        ensures { result ≡ margin_of now (inside self.now).upper }
    {
        self.layers.upper.margin(now)
    }

    /// Returns who ended the connection, why and when, or `None` while the end is open. It stays until the end is
    /// opened again.
    pub fn departure(&self) -> Option<Departure>
        // The result is the departure that the turns of this end's calls have recorded.
        ensures { result ≡ (inside self.now).upper.departed }
    {
        self.layers.upper.departed
    }

    /// Returns what the two ends agreed on in the version check: the PDI version, and the checksum that the field element
    /// replied with. It is `None` before that, is known from Requesting (interlocking) or AwaitRequest (field element) on,
    /// and stays until the end is opened again.
    pub fn agreed(&self) -> Option<Agreed<'_>>
        // The result is the agreement that the session keeps.
        ensures agreed { option_map agreement_of result ≡ (inside self.now).upper.session.agreed }
        // The checksum that an end returns has at most 16 bytes.
        ensures short { IfSome result (λ a. length a.checksum.now ≤ CHECKSUM_MAX) }
    {
        self.layers.upper.session.agreed()
    }

    /// Returns what the end has counted of its own work since its opening.
    pub fn statistics(&self) -> Statistics
        // The counts are those that the calls of this end have added to. Confirmed are the units made that are not
        // unconfirmed now.
        ensures { result ≡ statistics_of self.now }
    {
        let upper = &self.layers.upper;
        let unconfirmed = upper.machine.unconfirmed();
        Statistics {
            channels: self.receptions.channels,
            expired_deferrals: self.receptions.expired_deferrals,
            parts: upper.parts,
            made: upper.made,
            confirmed: upper.made.units.saturating_sub(unconfirmed as u64),
        }
    }

    /// Returns true if the end must be opened again before it can take part in a new connection: it is closed, or it
    /// is a field element in Down that can miss the next ConnReq, since its redundancy layer has accepted something.
    pub fn is_stale(&self) -> bool
        // `is_stale` is true if and only if the end is closed, or it is in Down and either number 0 is no longer
        // expected or a part is deferred.
        ensures { result ≡ is_stale (inside self.now) }
    {
        match self.state() {
            ConnectionState::Closed => true,
            ConnectionState::Down => self.layers.red.has_begun(),
            _ => false,
        }
    }

    /// Returns the bytes of the ConnReq that this field element accepted, or `None` if it has accepted none.
    pub fn request(&self) -> Option<&[u8]>
        // `request` is exactly the ConnReq that this end accepted, if it accepted one.
        ensures { option_map (λ octets. octets.now) result ≡ (inside self.now).upper.request }
    {
        match &self.layers.upper.request {
            Some(octets) => Some(octets.as_slice()),
            None => None,
        }
    }
}

/// Returns the earlier of two deadlines.
fn earliest(one: Option<Milliseconds>, other: Option<Milliseconds>) -> Option<Milliseconds>
    ensures { result ≡ earliest one other }
{
    match (one, other) {
        (None, deadline) | (deadline, None) => deadline,
        (Some(first), Some(second)) => Some(min(first, second)),
    }
}
