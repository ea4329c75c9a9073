//! One end of a connection.

ghost use Rattle.std.specs.Prelude.{◌≡◌, ◌≢◌, ◌+◌, ◌<◌, ◌≤◌, ◌^◌, ◌↔◌, ℕ, List, [], true, false, length, Err, ◌++◌, ◌∷◌, IfOk, IsOk, OnOk, OnErr, if◌then◌else◌, option_map, slice_get};
ghost use Rattle.std.specs.List.{FoldsTo};
ghost use Rattle.octets.specs.declared.limits.TheConstants.{WINDOW_MAX, TIME_MAX};
ghost use Rattle.safe_machine.specs.Settings.{is_legal};
ghost use Rattle.safe_machine.specs.Turns.{guard_turn, has_room, leave_turn, opening_turn, send_turn, still, tick_turn};
ghost use Rattle.safe_machine.specs.Octets.{decoded_answer, octets_turn, octets_units};
ghost use Rattle.safe_machine.specs.Moves.{IsUnitSized};
ghost use Rattle.safe_machine.specs.declared.SendFault.TheVariants.{NotUp, Window};
ghost use Rattle.safe_machine.specs.declared.MachineFault.TheVariants.{BadConfig};
ghost use Rattle.safe_pdu.specs.Places.{safe_seen};
ghost use Rattle.safe_machine.specs.Properties.{HandsIf, IsNextData, IsRecent, OnlyConfirms, index_step};
ghost use Rattle.safe_pdu.specs.Pdu.{Pdu};
ghost use Rattle.safe_machine.specs.declared.ConnectionState.TheVariants.{Up};
ghost use Rattle.safe_machine.specs.Deadlines.{IsBefore, IsReachedAt, overdue};
ghost use Rattle.safe_machine.specs.View.{settings_of, texts};
ghost use Rattle.safe_machine.specs.Connections.{in_turn};
ghost use Rattle.safe_machine.specs.retrans.Units.{octets_of};

use super::endpoint::MachineState;
use super::opening::begin;
use super::{
    ConnectionState, Detail, MachineConfig, MachineFault, Reason, Role, SendFault, Step, Unit,
};
use crate::retrans::Unconfirmed;
use octets::Milliseconds;
use octets::limits::{SAFE_PDU_MAX, WINDOW_MAX};
use std::alloc::{Allocator, Global};
use std::marker::Model;

/// The receiver of the PDUs that a machine makes, in the order of making. One call makes at most 36.
pub trait PduOut {
    /// What one call of `made` does to the value.
    ghost makes: { Self → List ℕ → Self → Type 0 };

    /// Takes the bytes of a PDU, at most 1,250.
    fn made(&mut self, pdu: &[u8])
        requires sized { length pdu.now ≤ SAFE_PDU_MAX }
        // Each PDU made changes the value by `makes`.
        ensures { makes self.old pdu.now self.new };
}

/// The receiver of the units that a machine delivers.
pub trait UnitIn {
    /// What one call of `unit` does to the value.
    ghost takes: { Self → List ℕ → Self → Type 0 };

    /// The condition for a call of `unit`.
    ghost ready: { Self → Type 0 };

    /// Takes the bytes of a unit.
    fn unit(&mut self, unit: &[u8])
        requires { ready self.old }
        // Each unit delivered changes the value by `takes`.
        ensures taken { takes self.old unit.now self.new }
        // After a unit, `ready` holds again, so that another may follow.
        ensures ready { ready self.new };
}

/// One end of a connection: the state machine of the safety and retransmission layer.
///
/// Times are whole milliseconds of one clock.
#[derive(Drop)]
pub struct Machine<A: Allocator = Global> {
    /// The counters and the unconfirmed units.
    end: MachineState<A>,
}

impl<A: Allocator> Model for Machine<A> {
    ghost use Rattle.safe_machine.specs.View.{View};
    ghost use Rattle.safe_machine.specs.Invariant.{IsReached};

    ghost Value = { View };

    ghost view = { λ m. m.end };

    ghost invariant = { λ m. IsReached m.end };
}

impl<A: Allocator> Machine<A> {
    /// Opens an end. A client requests the connection at once; a server waits. No later call allocates.
    ///
    /// # Errors
    ///
    /// Returns the first that applies:
    ///
    /// - `BadConfig` if the settings are invalid;
    /// - `Memory` if the allocation fails.
    pub fn open<O: PduOut>(
        alloc: A,
        config: MachineConfig,
        role: Role,
        first_sn: u32,
        now: Milliseconds,
        out: &mut O,
    ) -> Result<Self, MachineFault>
        // `open` returns `BadConfig` if and only if the settings are not legal for this role (`is_legal`).
        ensures bad_config { (result ≡ Err BadConfig) ↔ (is_legal (settings_of role config) ≡ false) }
        // A client that was opened is in Start and has made its ConnReq; a server is in Down and has made nothing.
        // Everything else has its initial value (`opening_turn`).
        ensures left { IfOk result (λ machine. machine ≡ (opening_turn (settings_of role config) first_sn now).left) }
        // After `open`, the index of the peer's next PDU is 0.
        ensures near { IfOk result (λ machine. machine.expected ≡ 0) }
        // A successful `open` hands out the ConnReq of a client, and nothing for a server (`opening_turn`).
        ensures made { OnOk result
            (FoldsTo O.makes out.old (texts config.rule (opening_turn (settings_of role config) first_sn now).made) out.new) }
        // A failed `open` makes no PDU.
        ensures nothing_made { OnErr result (out.new ≡ out.old) }
    {
        if !config.is_legal(role) {
            return Err(MachineFault::BadConfig);
        }
        match Unconfirmed::new(alloc, WINDOW_MAX) {
            Ok(ring) => {
                let end = begin(config, role, first_sn, now, ring, out);
                Ok(Machine { end })
            }
            Err(_) => Err(MachineFault::Memory),
        }
    }

    /// Begins again with the same settings, as an end that is opened. A client requests the connection at once; a
    /// server waits. Nothing is sent on the connection that ends with it.
    pub fn reopen<O: PduOut>(&mut self, first_sn: u32, now: Milliseconds, out: &mut O)
        // After `reopen`, a client is in Start and has made its ConnReq, and a server is in Down. The settings are the
        // same, and all else has its first value again (`opening_turn`).
        ensures left { self.new ≡ (opening_turn self.old.settings first_sn now).left }
        // After `reopen`, the index of the peer's next PDU is 0.
        ensures near { self.new.expected ≡ 0 }
        // `reopen` hands out the ConnReq of a client, and nothing for a server (`opening_turn`).
        ensures made { FoldsTo O.makes out.old
            (texts self.old.settings.rule (opening_turn self.old.settings first_sn now).made) out.new }
    {
        self.end.reopen(first_sn, now, out);
    }

    /// Checks the timeouts only: disconnects if the last confirmation is `t_max` old, or if the end has made as
    /// many PDUs as a connection may have. Returns reason and detail if it disconnects.
    pub fn guard<O: PduOut>(&mut self, now: Milliseconds, out: &mut O) -> Option<(Reason, Detail)>
        // `guard` returns the reason and detail with which the timeout check disconnects, or `None` (`overdue`):
        // T_max first, then the limit of PDUs.
        ensures why { result ≡ overdue now self.old }
        // If the timeout check fails, `guard` closes the end; otherwise nothing changes (`guard_turn`).
        ensures left { self.new ≡ (guard_turn now self.old).left }
        // `guard` does not change the index of the peer's next PDU.
        ensures near { self.new.expected ≡ self.old.expected }
        // `guard` hands out a DiscReq if it disconnects, otherwise nothing (`guard_turn`).
        ensures made { FoldsTo O.makes out.old (texts self.old.settings.rule (guard_turn now self.old).made) out.new }
    {
        self.end.guard(now, out)
    }

    /// Checks the timeouts, and then makes a heartbeat if one is due. Returns reason and detail if it disconnects.
    pub fn tick<O: PduOut>(&mut self, now: Milliseconds, out: &mut O) -> Option<(Reason, Detail)>
        // `tick` returns the reason and detail with which its timeout check disconnects, or `None` (`overdue`).
        ensures why { result ≡ overdue now self.old }
        // After `tick`, the end is closed if the timeout check failed. Otherwise a heartbeat that is due is counted
        // as made (`tick_turn`).
        ensures left { self.new ≡ (tick_turn now self.old).left }
        // `tick` does not change the index of the peer's next PDU.
        ensures near { self.new.expected ≡ self.old.expected }
        // `tick` hands out a DiscReq if it disconnects, and otherwise a heartbeat if one is due (`tick_turn`).
        ensures made { FoldsTo O.makes out.old (texts self.old.settings.rule (tick_turn now self.old).made) out.new }
    {
        self.end.tick(now, out)
    }

    /// Closes the end, and sends a DiscReq if there is a connection.
    pub fn close<O: PduOut>(
        &mut self,
        reason: Reason,
        detail: Detail,
        now: Milliseconds,
        out: &mut O,
    )
        // `close` leaves the end in Closed from any state; in Start, Up, RetrReq and RetrRun it also counts a
        // DiscReq (`leave_turn`).
        ensures left { self.new ≡ (leave_turn reason detail now self.old).left }
        // `close` does not change the index of the peer's next PDU.
        ensures near { self.new.expected ≡ self.old.expected }
        // `close` hands out a DiscReq with this reason and detail in Start, Up, RetrReq and RetrRun, otherwise
        // nothing (`leave_turn`).
        ensures made { FoldsTo O.makes out.old
            (texts self.old.settings.rule (leave_turn reason detail now self.old).made) out.new }
    {
        self.end.leave(reason, detail, now, out);
    }

    /// Returns the earliest time at which `tick` does something if nothing arrives and nothing is sent, or `None`
    /// if there is no such time.
    pub fn deadline(&self) -> Option<Milliseconds>
        // Before the `deadline`, a tick changes nothing and makes no PDU.
        ensures before { (now : ℕ) → IsBefore now result → tick_turn now self.now ≡ still self.now }
        // From the `deadline` on, up to 2^62 ms, a tick changes the machine.
        ensures after { (now : ℕ) → now ≤ TIME_MAX → IsReachedAt now result → (tick_turn now self.now).left ≢ self.now }
    {
        self.end.deadline()
    }

    /// Returns the state of the connection.
    pub fn state(&self) -> ConnectionState
        // `state` returns the state that the machine keeps.
        ensures state { result ≡ self.now.connection }
    {
        self.end.connection
    }

    /// States the bounds that hold of a machine at any time. It does nothing.
    pub fn bounds(&self)
        // In Up and RetrRun, the PDU last confirmed is one that this end has made.
        ensures confirmed { in_turn self.now.connection ≡ true → self.now.confirmed < self.now.made }
        // At most as many units are unconfirmed as the peer's window allows.
        ensures window { length self.now.ring ≤ self.now.window }
        // The peer's window is at most 32.
        ensures room { self.now.window ≤ WINDOW_MAX }
    {
        let _end = &self.end;
    }

    /// Returns how many units are unconfirmed.
    pub fn unconfirmed(&self) -> usize
        // `unconfirmed` returns how many units the ring holds for a retransmission.
        ensures counts { result ≡ length self.now.ring }
    {
        self.end.ring.len()
    }

    /// Returns the bytes of the unconfirmed unit at a place, counted from 0 for the one sent first.
    pub fn unit(&self, place: usize) -> Option<&[u8]>
        // `unit` returns the bytes of the unit at this place of the ring, or `None` if there are fewer units.
        ensures { option_map (λ octets. octets.now) result ≡ slice_get (octets_of self.now.ring) place }
    {
        match self.end.ring.get(place) {
            Some((_, unit)) => Some(unit.as_slice()),
            None => None,
        }
    }

    /// Returns the own time last confirmed, in milliseconds. A PDU is taken only if the time it confirms is less
    /// than T_max ago.
    pub fn confirmed_time(&self) -> Milliseconds
        // `confirmed_time` returns the own time that the peer has confirmed last.
        ensures { result ≡ self.now.confirmed_at }
    {
        self.end.confirmed_at
    }

    /// Returns whether a unit may be sent.
    pub fn may_send(&self) -> bool
        // `may_send` returns `true` if and only if the state is Up or RetrRun and fewer units are unconfirmed than
        // the peer's window (`has_room`).
        ensures { result ≡ has_room self.now }
    {
        self.end.may_send()
    }

    /// Checks the timeouts and processes a received PDU. `octets` may contain any bytes. PDUs that are made go to
    /// `out`, a unit that is delivered goes to `units`.
    ///
    /// The caller must keep the index of the peer's next PDU below 2^62. A call raises it by at most 321.
    pub fn arrive<O: PduOut, U: UnitIn>(
        &mut self,
        octets: &[u8],
        now: Milliseconds,
        out: &mut O,
        units: &mut U,
    ) -> Step
        requires reach { self.old.expected < 2 ^ 62 }
        requires ready { U.ready units.old }
        // After `arrive`, the end keeps what the timeout check and the PDU lead to; bytes that are not a safety PDU
        // cause only the check (`octets_turn`).
        ensures left { self.new ≡ (octets_turn octets.now now self.old).left }
        // An arrival raises the index of the peer's next PDU by at most 321 (`index_step`).
        ensures near { self.new.expected ≤ self.old.expected + index_step }
        // `arrive` hands out the PDUs that the timeout check and the received PDU cause, in order (`octets_turn`).
        ensures made { FoldsTo O.makes out.old
            (texts self.old.settings.rule (octets_turn octets.now now self.old).made) out.new }
        // `arrive` delivers the unit of a Data or RetrData that it takes, and no other unit (`octets_units`).
        ensures taken { FoldsTo U.takes units.old (octets_units octets.now now self.old) units.new }
        // `arrive` returns `Left` if the timeout check disconnects, `Nothing` for a closed end or for a DiscReq
        // that closes it, and otherwise the drop cause or what was done with the PDU (`decoded_answer`).
        ensures answer { result ≡ decoded_answer (safe_seen self.old.settings.rule octets.now) now self.old }
        // Only units up to the index that the PDU's confirmed number means stop being unconfirmed, and the others
        // stay in order. Bytes that are not a PDU confirm no unit (`OnlyConfirms`).
        ensures confirms { OnlyConfirms (safe_seen self.old.settings.rule octets.now) self.old self.new }
        // An end in Up takes the peer's next Data if the timeout check and both confirmation tests pass
        // (`IsNextData`): it delivers exactly this unit, and stays in Up.
        ensures passes { (p : Pdu) → IsNextData (safe_seen self.old.settings.rule octets.now) p now self.old
            → FoldsTo U.takes units.old (p.body ∷ []) units.new × (self.new.connection ≡ Up) }
        // If an arrival delivers anything, the confirmed timestamp of its PDU, as this end reads it, is less than
        // T_max old (`IsRecent`).
        ensures recent { HandsIf U.takes units.old units.new
            (IsRecent (safe_seen self.old.settings.rule octets.now) now self.old) }
        // After `arrive`, the layer above can take another unit.
        ensures ready { U.ready units.new }
    {
        self.end.arrive_octets(octets, now, out, units)
    }

    /// Sends a unit of 45 to 1,206 bytes as a Data, and keeps it for a retransmission.
    ///
    /// # Errors
    ///
    /// Returns the first that applies, and changes nothing:
    ///
    /// - `NotUp` if the state is neither Up nor RetrRun;
    /// - `Window` if as many units are unconfirmed as the peer's window allows.
    pub fn send<O: PduOut>(
        &mut self,
        unit: &Unit,
        now: Milliseconds,
        out: &mut O,
    ) -> Result<(), SendFault>
        requires size { IsUnitSized unit.now.items }
        // If the end may send, `send` counts one PDU more and adds the unit to the ring under its index; otherwise
        // nothing changes (`send_turn`).
        ensures left { self.new ≡ (send_turn unit.now.items now self.old).left }
        // `send` does not change the index of the peer's next PDU.
        ensures near { self.new.expected ≡ self.old.expected }
        // If the end may send, `send` hands out one Data with the unit; otherwise it hands out nothing (`send_turn`).
        ensures made { FoldsTo O.makes out.old
            (texts self.old.settings.rule (send_turn unit.now.items now self.old).made) out.new }
        // `send` succeeds if and only if the state is Up or RetrRun and the peer's window is not full (`has_room`).
        ensures sent { IsOk result ↔ (has_room self.old ≡ true) }
        // `send` returns `NotUp` if and only if the state is neither Up nor RetrRun.
        ensures not_up { (result ≡ Err NotUp) ↔ (in_turn self.old.connection ≡ false) }
        // `send` returns `Window` if and only if the state is Up or RetrRun and the peer's window is full.
        ensures window { (result ≡ Err Window)
            ↔ ((in_turn self.old.connection ≡ true) × (has_room self.old ≡ false)) }
        // A successful `send` confirms no unit, and appends its own unit to the unconfirmed ones.
        ensures kept { OnOk result
            (self.new.ring ≡ self.old.ring ++ record { number = self.old.made; octets = unit.now.items } ∷ []) }
        // A refused `send` leaves the machine unchanged.
        ensures unchanged { OnErr result (self.new ≡ self.old) }
        // A refused `send` makes no PDU.
        ensures nothing_made { OnErr result (out.new ≡ out.old) }
    {
        if !self.state().in_turn() {
            return Err(SendFault::NotUp);
        }
        if !self.end.may_send() {
            return Err(SendFault::Window);
        }
        self.end.send(unit.as_slice(), now, out);
        Ok(())
    }
}
