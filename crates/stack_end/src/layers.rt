//! The layers of an end together: datagrams go up through them, and waiting messages go out.

ghost use Rattle.std.specs.Prelude.{◌≡◌, ◌≤◌, ◌^◌, length, Some, None, MatchResult, OnOk, OnErr};
ghost use Rattle.octets.specs.declared.limits.TheConstants.{TIME_MAX};
ghost use Rattle.pdi_session.specs.SessionStep.{init_refusal, put_refusal};
ghost use Rattle.red_layer.specs.Redundancy.{Datagram, Tick as RedTick, is_due};
ghost use Rattle.stack_end.specs.Fields.{LayersTakeTurn, LayersTakeTurnAlone, inside_of};
ghost use Rattle.stack_end.specs.LayerBounds.{KeepsLayerBounds};
ghost use Rattle.stack_end.specs.Reopening.{reopening_turn};
ghost use Rattle.stack_end.specs.Turns.{upper_turn, arrival_turn, close_turn, init_done_turn, event_of, expires_deferral, input_and_send_turn, tick_expires_deferral, time_turn, put_turn, red_event};

use crate::notes::{report_change, report_opened};
use crate::upper::UpperLayers;
use channels::Channels;
use octets::Milliseconds;
use pdi_session::{InitFault, MessageType, PutFault, Taker};
use red_layer::{RedEvent, RedLayer};
use safe_machine::ConnectionState;
use std::alloc::{Allocator, Global};

/// All layers of an end.
#[derive(Drop)]
pub(crate) struct Layers<C, A: Allocator = Global> {
    /// The receiving half of the redundancy layer.
    pub(crate) red: RedLayer<A>,
    /// All layers above it, and the sending half.
    pub(crate) upper: UpperLayers<C, A>,
}

impl<C: Channels, A: Allocator> Layers<C, A> {
    /// Processes a datagram: the timeout check, and if that leaves the end open, the layers.
    pub(crate) fn arrive<T: Taker>(
        &mut self,
        octets: &[u8],
        now: Milliseconds,
        taker: &mut T,
    ) -> Option<RedEvent>
        requires now { now ≤ TIME_MAX }
        requires kept { KeepsLayerBounds self.old }
        // The result is what the redundancy layer did with the datagram, or `None` if the end is closed, or the timeout
        // check closes it.
        ensures event { result ≡ event_of now octets.now (inside_of self.old) }
        // The timeout check comes first, then the datagram goes up, then waiting messages are sent, exactly as in
        // `arrival_turn`. The channel has no effect.
        ensures does { LayersTakeTurn C.told T.takes (arrival_turn now octets.now) self.old taker.old self.new taker.new }
        // The bounds between the layers hold after a datagram.
        ensures kept { KeepsLayerBounds self.new }
    {
        match self.upper.machine.state() {
            ConnectionState::Closed => None,
            _ => {
                let seen = self.upper.moment();
                self.upper.guard(now);
                let after = self.upper.moment();
                report_change(&mut self.upper.channels, seen, after);
                self.deliver(octets, now, taker)
            }
        }
    }

    /// Passes a datagram to the layers after the timeout check, then sends waiting messages. Does nothing if the end
    /// is closed.
    fn deliver<T: Taker>(
        &mut self,
        octets: &[u8],
        now: Milliseconds,
        taker: &mut T,
    ) -> Option<RedEvent>
        requires now { now ≤ TIME_MAX }
        requires kept { KeepsLayerBounds self.old }
        // The result is what the redundancy layer did with the datagram, or `None` if the end is closed.
        ensures event { result ≡ red_event now octets.now (inside_of self.old) }
        // If the end is open, the redundancy layer takes the datagram, each part that goes up passes the machine and
        // the session, and waiting messages are sent.
        ensures does { LayersTakeTurn C.told T.takes (input_and_send_turn now (Datagram octets.now now)) self.old taker.old self.new taker.new }
        // The bounds between the layers hold after the delivery.
        ensures kept { KeepsLayerBounds self.new }
    {
        match self.upper.machine.state() {
            ConnectionState::Closed => None,
            _ => {
                let event = self.upper.receive(&mut self.red, octets, now, taker);
                self.upper.send_waiting(now);
                Some(event)
            }
        }
    }

    /// Returns whether parts are deferred and T_seq has passed for them.
    pub(crate) fn is_due(&self, now: Milliseconds) -> bool
        ensures { result ≡ is_due now self.now.red }
    {
        match self.red.deadline() {
            Some(deadline) => deadline <= now,
            None => false,
        }
    }

    /// Lets time pass: the timers of the machine, and if they leave the end open, that of the redundancy layer. Returns
    /// whether T_seq had passed for deferred parts.
    pub(crate) fn tick<T: Taker>(&mut self, now: Milliseconds, taker: &mut T) -> bool
        requires now { now ≤ TIME_MAX }
        requires kept { KeepsLayerBounds self.old }
        // The result is true if and only if the machine's timers leave the end open and T_seq has passed for deferred parts.
        ensures expired { result ≡ tick_expires_deferral now (inside_of self.old) }
        // The machine's timers come first. If the end is open then, the T_seq timer follows, with the parts that it
        // releases, and then waiting messages are sent.
        ensures does { LayersTakeTurn C.told T.takes (time_turn now) self.old taker.old self.new taker.new }
        // The bounds between the layers hold after a tick.
        ensures kept { KeepsLayerBounds self.new }
    {
        match self.upper.machine.state() {
            ConnectionState::Closed => false,
            _ => {
                let seen = self.upper.moment();
                self.upper.tick(now);
                let after = self.upper.moment();
                report_change(&mut self.upper.channels, seen, after);
                self.wait(now, taker)
            }
        }
    }

    /// Tries the timer of the redundancy layer after those of the machine, then sends waiting messages. Does nothing
    /// if the end is closed. Returns whether T_seq had passed for deferred parts.
    fn wait<T: Taker>(&mut self, now: Milliseconds, taker: &mut T) -> bool
        requires now { now ≤ TIME_MAX }
        requires kept { KeepsLayerBounds self.old }
        // The result is true if and only if the end is open and T_seq has passed for deferred parts.
        ensures expired { result ≡ expires_deferral now (inside_of self.old) }
        // If the end is open, the redundancy layer tries its timer, each part that it releases goes up, and waiting
        // messages are sent.
        ensures does { LayersTakeTurn C.told T.takes (input_and_send_turn now (RedTick now)) self.old taker.old self.new taker.new }
        // The bounds between the layers hold after the redundancy layer's timer.
        ensures kept { KeepsLayerBounds self.new }
    {
        match self.upper.machine.state() {
            ConnectionState::Closed => false,
            _ => {
                let expired = self.is_due(now);
                self.upper.pass_time(&mut self.red, now, taker);
                self.upper.send_waiting(now);
                expired
            }
        }
    }

    /// Opens all layers again with the settings that they have.
    pub(crate) fn reopen(&mut self, first_sn: u32, now: Milliseconds)
        requires kept { KeepsLayerBounds self.old }
        // Each layer is as newly opened with the settings that it has, and an interlocking sends its ConnReq (`reopening_turn`).
        // Nothing is taken.
        ensures does { LayersTakeTurnAlone C.told (reopening_turn first_sn now) self.old self.new }
        // The bounds between the layers hold of layers that were just opened.
        ensures kept { KeepsLayerBounds self.new }
    {
        self.red.reopen();
        self.upper.reopen(first_sn, now);
        let state = self.upper.machine.state();
        report_opened(&mut self.upper.channels, state);
    }

    /// Queues a command or status, and sends what the peer's window allows.
    pub(crate) fn put(
        &mut self,
        kind: MessageType,
        payload: &[u8],
        now: Milliseconds,
    ) -> Result<(), PutFault>
        requires kept { KeepsLayerBounds self.old }
        // An accepted telegram is queued last and sent while the machine may send, exactly as in `put_turn`; nothing is
        // taken.
        ensures does { OnOk result (LayersTakeTurnAlone C.told (upper_turn (put_turn kind payload.now now)) self.old self.new) }
        // A refused telegram leaves all layers as they were.
        ensures refused { OnErr result (self.new ≡ self.old) }
        // The telegram is accepted if and only if the session, with this many messages waiting, has no refusal for
        // it; otherwise that refusal is returned.
        ensures answer { MatchResult result
            (λ _. put_refusal self.old.upper.session kind payload.now (length self.old.upper.waiting) ≡ None)
            (λ fault. put_refusal self.old.upper.session kind payload.now (length self.old.upper.waiting)
            ≡ Some fault) }
        // The bounds between the layers hold after a put, accepted or not.
        ensures kept { KeepsLayerBounds self.new }
    {
        self.upper.put(kind, payload, now)
    }

    /// Queues the end of the initialisation after the status that was put, and sends what the peer's window allows.
    pub(crate) fn init_done(&mut self, now: Milliseconds) -> Result<(), InitFault>
        requires kept { KeepsLayerBounds self.old }
        // The closing telegram of the initialisation is queued last and sent while the machine may send, exactly as
        // in `init_done_turn`; nothing is taken.
        ensures does { OnOk result (LayersTakeTurnAlone C.told (upper_turn (init_done_turn now)) self.old self.new) }
        // A refused end of the initialisation leaves all layers as they were.
        ensures refused { OnErr result (self.new ≡ self.old) }
        // It is accepted if and only if the session, with this many messages waiting, has no refusal for it;
        // otherwise that refusal is returned.
        ensures answer { MatchResult result
            (λ _. init_refusal self.old.upper.session (length self.old.upper.waiting) ≡ None)
            (λ fault. init_refusal self.old.upper.session (length self.old.upper.waiting) ≡ Some fault) }
        // The bounds between the layers hold after the end of the initialisation, accepted or not.
        ensures kept { KeepsLayerBounds self.new }
    {
        self.upper.init_done(now)
    }

    /// Disconnects for the user, and ends the session.
    pub(crate) fn close(&mut self, now: Milliseconds)
        requires kept { KeepsLayerBounds self.old }
        // An open end sends its DiscReq with reason 0; the session is over; and the departure is recorded, exactly as
        // in `close_turn`. Nothing is taken.
        ensures does { LayersTakeTurnAlone C.told (upper_turn (close_turn now)) self.old self.new }
        // The bounds between the layers hold after a close.
        ensures kept { KeepsLayerBounds self.new }
    {
        let seen = self.upper.moment();
        self.upper.close(now);
        let after = self.upper.moment();
        report_change(&mut self.upper.channels, seen, after);
    }
}
