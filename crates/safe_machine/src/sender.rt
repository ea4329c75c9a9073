//! Sending: units, and what depends on time only: the timeout check, the heartbeat and the deadline.

ghost use Rattle.std.specs.Prelude.{◌≡◌, ◌+◌, ◌<◌, ◌≤◌, ◌^◌, [], ◌∷◌, ◌++◌, length, true};
ghost use Rattle.octets.specs.declared.limits.TheConstants.{UNIT_MAX};
ghost use Rattle.safe_pdu.specs.Bodies.{IsBody};
ghost use Rattle.safe_machine.specs.Moves.{IsUnitSized};
ghost use Rattle.safe_machine.specs.Invariant.{IsReached};
ghost use Rattle.safe_machine.specs.Turns.{Out, heartbeat_turn, guard_turn, has_room, send_turn, send_unit_turn, tick_turn};
ghost use Rattle.safe_machine.specs.inner.Sound.{AllBelow};
ghost use Rattle.safe_machine.specs.Deadlines.{deadline_of, timeout_of, beat_due, overdue};

use super::endpoint::MachineState;
use super::{Detail, PduOut, Reason};
use octets::Milliseconds;
use octets::limits::UNIT_MAX;
use safe_pdu::Kind;
use std::alloc::Allocator;
use std::cmp::min;

impl<A: Allocator> MachineState<A> {
    /// Returns whether a unit may be sent.
    pub(crate) fn may_send(&self) -> bool
        ensures { result ≡ has_room self.now }
    {
        self.connection.in_turn() && (self.ring.len() as u64) < self.window
    }

    /// Sends a unit. The caller must check first that one may be sent.
    pub(crate) fn send<O: PduOut>(&mut self, unit: &[u8], now: Milliseconds, out: &mut O)
        requires reached { IsReached self.old }
        requires size { IsUnitSized unit.now }
        requires open { has_room self.old ≡ true }
        // `send` counts one PDU and appends the unit to the ring, under its index (`send_turn`).
        ensures left { self.new ≡ (send_turn unit.now now self.old).left }
        // `send` hands out one Data with the unit (`send_turn`).
        ensures made { Out O.makes self.old.settings.rule out.old (send_turn unit.now now self.old) out.new }
        // After `send`, the invariant of a machine holds again.
        ensures reached { IsReached self.new }
        // `send` does not change the expected index.
        ensures near { self.new.expected ≡ self.old.expected }
        // The ring grows at its end by the unit sent, under the index of its PDU; the units before it stay.
        ensures kept { self.new.ring ≡ self.old.ring ++ record { number = self.old.made; octets = unit.now } ∷ [] }
    {
        self.send_unit(unit, now, out);
    }

    /// Sends a unit if the ring has a place for it.
    pub(crate) fn send_unit<O: PduOut>(&mut self, unit: &[u8], now: Milliseconds, out: &mut O)
        requires body { IsBody Kind.Data unit.now }
        requires few { self.old.made < 2 ^ 40 }
        requires room { length self.old.ring < self.old.room }
        requires above { AllBelow self.old.made self.old.ring }
        // `send_unit` counts one PDU and appends the unit to the ring, under its index (`send_unit_turn`).
        ensures left { self.new ≡ (send_unit_turn unit.now now self.old).left }
        // `send_unit` hands out one Data with the unit (`send_unit_turn`).
        ensures made { Out O.makes self.old.settings.rule out.old (send_unit_turn unit.now now self.old) out.new }
    {
        let number = self.made;
        self.make(Kind::Data, unit, now, out);
        self.keep(number, unit);
    }

    /// Appends a copy of a unit to the ring.
    fn keep(&mut self, number: u64, unit: &[u8])
        requires size { length unit.now ≤ UNIT_MAX }
        requires room { length self.old.ring < self.old.room }
        requires above { AllBelow number self.old.ring }
        ensures { self.new
            ≡ record self.old { ring = self.old.ring ++ record { number = number; octets = unit.now } ∷ [] } }
    {
        self.ring.keep(number, unit);
    }

    /// Checks the timeouts, and then makes a heartbeat if one is due.
    pub(crate) fn tick<O: PduOut>(
        &mut self,
        now: Milliseconds,
        out: &mut O,
    ) -> Option<(Reason, Detail)>
        requires few { self.old.made < 2 ^ 39 }
        // `tick` returns why its timeout check disconnects, or `None` (`overdue`).
        ensures why { result ≡ overdue now self.old }
        // After `tick`, the end is closed if the timeout check failed; otherwise a heartbeat that is due is counted
        // (`tick_turn`).
        ensures left { self.new ≡ (tick_turn now self.old).left }
        // `tick` hands out a DiscReq if the timeout check fails, otherwise a heartbeat if one is due (`tick_turn`).
        ensures made { Out O.makes self.old.settings.rule out.old (tick_turn now self.old) out.new }
    {
        let why = self.guard(now, out);
        self.beat_by_time(now, out);
        why
    }

    /// Checks the timeouts, and disconnects if the check fails.
    pub(crate) fn guard<O: PduOut>(
        &mut self,
        now: Milliseconds,
        out: &mut O,
    ) -> Option<(Reason, Detail)>
        requires few { self.old.made < 2 ^ 40 }
        // `guard` returns why it disconnects, or `None` (`overdue`).
        ensures why { result ≡ overdue now self.old }
        // `guard` closes the end if the timeout check fails, and otherwise changes nothing (`guard_turn`).
        ensures left { self.new ≡ (guard_turn now self.old).left }
        // `guard` hands out a DiscReq if the timeout check fails, otherwise nothing (`guard_turn`).
        ensures made { Out O.makes self.old.settings.rule out.old (guard_turn now self.old) out.new }
    {
        let why = self.overdue(now);
        if let Some((reason, detail)) = why {
            self.leave(reason, detail, now, out);
        }
        why
    }

    /// Returns why the timeout check disconnects, or `None`.
    pub(crate) fn overdue(&self, now: Milliseconds) -> Option<(Reason, Detail)>
        ensures { result ≡ overdue now self.now }
    {
        if !self.connection.is_live() {
            return None;
        }
        if now >= self.confirmed_at && now - self.confirmed_at >= self.config.t_max {
            return Some((Reason::Timeout, Detail::Unspecified));
        }
        if self.made >= self.config.pdu_limit {
            return Some((Reason::ProtocolError, Detail::Limit));
        }
        None
    }

    /// Makes a heartbeat if one is due.
    fn beat_by_time<O: PduOut>(&mut self, now: Milliseconds, out: &mut O)
        requires few { self.old.made < 2 ^ 40 }
        // `beat_by_time` counts a heartbeat if one is due, and otherwise changes nothing (`heartbeat_turn`).
        ensures left { self.new ≡ (heartbeat_turn now self.old).left }
        // `beat_by_time` hands out a heartbeat if one is due, otherwise nothing (`heartbeat_turn`).
        ensures made { Out O.makes self.old.settings.rule out.old (heartbeat_turn now self.old) out.new }
    {
        if self.beat_due(now) {
            self.beat(now, out);
        }
    }

    /// Returns whether a heartbeat is due.
    fn beat_due(&self, now: Milliseconds) -> bool
        ensures { result ≡ beat_due now self.now }
    {
        self.connection.is_connected()
            && now >= self.last_made
            && now - self.last_made >= self.config.t_h
    }

    /// Returns the earliest deadline.
    pub(crate) fn deadline(&self) -> Option<Milliseconds>
        ensures { result ≡ deadline_of self.now }
    {
        if !self.connection.is_live() {
            return None;
        }
        if self.connection.is_connected() {
            let beat = self.last_made.saturating_add(self.config.t_h);
            return Some(min(self.timeout(), beat));
        }
        Some(self.timeout())
    }

    /// Returns the time at which the timeout check disconnects.
    fn timeout(&self) -> Milliseconds
        ensures { result ≡ timeout_of self.now }
    {
        if self.made >= self.config.pdu_limit {
            return 0;
        }
        self.confirmed_at.saturating_add(self.config.t_max)
    }
}
