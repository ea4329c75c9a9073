//! What an end does by its decision, one function for each decision.

ghost use Rattle.std.specs.Prelude.{◌≡◌, ◌+◌, ◌-◌, ◌<◌, ◌≤◌, ◌^◌, [], length, slice_get, IfSome};
ghost use Rattle.octets.specs.declared.limits.TheConstants.{WINDOW_MAX};
ghost use Rattle.safe_machine.specs.retrans.Units.{octets_of};
ghost use Rattle.std.specs.List.{FoldsTo};
ghost use Rattle.safe_pdu.specs.Pdu.{pdu_of};
ghost use Rattle.safe_pdu.specs.Bodies.{IsBody, window_of};
ghost use Rattle.safe_machine.specs.Made.{is_carrier_kind, opening_body};
ghost use Rattle.safe_machine.specs.Decision.{cs_step, cts_step, distance};
ghost use Rattle.safe_machine.specs.Turns.{Out, acceptance_turn, answer_ahead_turn, answer_early_turn, answer_next_turn, request_turn, connection_turn, rejection_turn, reply_turn, resend_turn, take_next_turn, take_unit_turn};
ghost use Rattle.safe_machine.specs.Turns.{both_confirmed, carried_unit, count_pdu, next_made, move_past, mark_answered, resume, units_confirmed, with_window};
ghost use Rattle.safe_machine.specs.View.{text_of};
ghost use Rattle.safe_machine.specs.inner.Sound.{AllUnits};

use super::endpoint::MachineState;
use super::{ConnectionState, Detail, PduOut, Reason, UnitIn};
use octets::Milliseconds;
use safe_pdu::{Kind, SafePdu, read_opening};
use std::alloc::Allocator;

impl<A: Allocator> MachineState<A> {
    /// Rejects a ConnReq with another version.
    #[cold]
    #[inline(never)]
    pub(crate) fn reject<O: PduOut>(&mut self, pdu: &SafePdu<'_>, now: Milliseconds, out: &mut O)
        requires few { self.old.made < 2 ^ 39 }
        requires reach { self.old.expected < 2 ^ 62 }
        // `reject` passes the ConnReq, counts a DiscReq and closes the end (`rejection_turn`).
        ensures left { self.new ≡ (rejection_turn (pdu_of pdu.now) now self.old).left }
        // `reject` hands out a DiscReq with the reason WrongVersion (`rejection_turn`).
        ensures made { Out O.makes self.old.settings.rule out.old (rejection_turn (pdu_of pdu.now) now self.old) out.new }
    {
        self.pass(pdu, 0);
        self.goodbye(Reason::WrongVersion, Detail::Unspecified, now, out);
        self.move_to(ConnectionState::Closed);
    }

    /// Accepts a ConnReq.
    #[cold]
    #[inline(never)]
    pub(crate) fn accept<O: PduOut>(&mut self, pdu: &SafePdu<'_>, now: Milliseconds, out: &mut O)
        requires few { self.old.made < 2 ^ 38 }
        requires reach { self.old.expected < 2 ^ 62 }
        requires body { IsBody Kind.ConnReq pdu.now.body.now }
        requires opening { IsBody Kind.ConnResp (opening_body self.old.settings.n_sendmax) }
        requires empty { self.old.ring ≡ [] }
        // `accept` takes over the peer's window, counts a ConnResp that is confirmed at once, and goes to Start
        // (`acceptance_turn`).
        ensures left { self.new ≡ (acceptance_turn (pdu_of pdu.now) now self.old).left }
        // `accept` hands out a ConnResp with the own window (`acceptance_turn`).
        ensures made { Out O.makes self.old.settings.rule out.old (acceptance_turn (pdu_of pdu.now) now self.old) out.new }
    {
        let index = self.made;
        self.pass(pdu, 0);
        self.set_window(pdu);
        self.say_opening(Kind::ConnResp, now, out);
        self.confirmed = index;
        self.confirmed_at = now;
        self.move_to(ConnectionState::Start);
    }

    /// Handles the ConnResp that a client waits for.
    #[cold]
    #[inline(never)]
    pub(crate) fn connect<O: PduOut>(&mut self, pdu: &SafePdu<'_>, now: Milliseconds, out: &mut O)
        requires body { IsBody Kind.ConnReq pdu.now.body.now }
        requires few { self.old.made < 2 ^ 39 }
        requires reach { self.old.expected < 2 ^ 62 }
        requires number { cs_step self.old (pdu_of pdu.now) < self.old.made - self.old.confirmed }
        requires time { cts_step self.old (pdu_of pdu.now) ≤ now - self.old.confirmed_at }
        // `connect` moves both confirmations on, takes over the peer's window, counts a heartbeat and goes to Up
        // (`connection_turn`).
        ensures left { self.new ≡ (connection_turn (pdu_of pdu.now) now self.old).left }
        // `connect` hands out a heartbeat (`connection_turn`).
        ensures made { Out O.makes self.old.settings.rule out.old (connection_turn (pdu_of pdu.now) now self.old) out.new }
    {
        self.confirm_both(pdu, now);
        self.pass(pdu, 0);
        self.set_window(pdu);
        self.beat(now, out);
        self.move_to(ConnectionState::Up);
    }

    /// Takes the next PDU, and goes to the given state.
    pub(crate) fn take<O: PduOut, U: UnitIn>(
        &mut self,
        pdu: &SafePdu<'_>,
        now: Milliseconds,
        connection: ConnectionState,
        out: &mut O,
        units: &mut U,
    )
        requires few { self.old.made < 2 ^ 39 }
        requires since { self.old.since < 2 ^ 40 }
        requires reach { self.old.expected < 2 ^ 62 }
        requires number { cs_step self.old (pdu_of pdu.now) < self.old.made - self.old.confirmed }
        requires time { cts_step self.old (pdu_of pdu.now) ≤ now - self.old.confirmed_at }
        requires ready { U.ready units.old }
        // `take` moves both confirmations and the expected index on, and counts the unit, if the PDU carries one,
        // and a heartbeat at the mwa-th (`take_next_turn`).
        ensures left { self.new ≡ (take_next_turn connection (pdu_of pdu.now) now self.old).left }
        // `take` hands out a heartbeat if the PDU carries the mwa-th unit since the last sending, otherwise nothing
        // (`take_next_turn`).
        ensures made { Out O.makes self.old.settings.rule out.old
            (take_next_turn connection (pdu_of pdu.now) now self.old) out.new }
        // `take` delivers the unit of a Data or RetrData, and nothing for another type (`carried_unit`).
        ensures taken { FoldsTo U.takes units.old (carried_unit (pdu_of pdu.now)) units.new }
        // After `take`, another unit can be delivered.
        ensures ready { U.ready units.new }
    {
        self.confirm_both(pdu, now);
        self.pass(pdu, 0);
        self.move_to(connection);
        self.take_unit(pdu, now, out, units);
    }

    /// Requests a retransmission.
    #[cold]
    #[inline(never)]
    pub(crate) fn ask<O: PduOut>(&mut self, now: Milliseconds, out: &mut O)
        requires few { self.old.made < 2 ^ 40 }
        // `ask` counts a RetrReq and goes to RetrReq (`request_turn`).
        ensures left { self.new ≡ (request_turn now self.old).left }
        // `ask` hands out a RetrReq (`request_turn`).
        ensures made { Out O.makes self.old.settings.rule out.old (request_turn now self.old) out.new }
    {
        self.make(Kind::RetrReq, &[], now, out);
        self.move_to(ConnectionState::RetrReq);
    }

    /// Handles the RetrResp to the own request.
    #[cold]
    #[inline(never)]
    pub(crate) fn resume(&mut self, pdu: &SafePdu<'_>, now: Milliseconds)
        requires few { self.old.made < 2 ^ 39 }
        requires reach { self.old.expected < 2 ^ 62 }
        requires number { cs_step self.old (pdu_of pdu.now) < self.old.made - self.old.confirmed }
        requires time { cts_step self.old (pdu_of pdu.now) ≤ now - self.old.confirmed_at }
        ensures { self.new ≡ resume (pdu_of pdu.now) self.old }
    {
        let distance = self.distance(pdu);
        self.confirm_both(pdu, now);
        self.pass(pdu, distance);
        self.move_to(ConnectionState::RetrRun);
    }

    /// Answers a RetrReq that is the next PDU.
    #[cold]
    #[inline(never)]
    pub(crate) fn answer_next<O: PduOut>(
        &mut self,
        pdu: &SafePdu<'_>,
        now: Milliseconds,
        out: &mut O,
    )
        requires few { self.old.made < 2 ^ 38 }
        requires reach { self.old.expected < 2 ^ 62 }
        requires short { length self.old.ring ≤ WINDOW_MAX }
        requires sized { AllUnits self.old.ring }
        requires number { cs_step self.old (pdu_of pdu.now) < self.old.made - self.old.confirmed }
        requires time { cts_step self.old (pdu_of pdu.now) ≤ now - self.old.confirmed_at }
        // `answer_next` moves both confirmations on, passes the RetrReq, and counts the PDUs of the reply
        // (`answer_next_turn`).
        ensures left { self.new ≡ (answer_next_turn (pdu_of pdu.now) now self.old).left }
        // `answer_next` hands out a RetrResp, the units that are then unconfirmed, and a heartbeat
        // (`answer_next_turn`).
        ensures made { Out O.makes self.old.settings.rule out.old (answer_next_turn (pdu_of pdu.now) now self.old) out.new }
    {
        self.confirm_both(pdu, now);
        self.note_request(0);
        self.pass(pdu, 0);
        self.reply(now, out);
    }

    /// Answers any other RetrReq. In Up or RetrRun the end misses PDUs itself, and then requests a retransmission.
    #[cold]
    #[inline(never)]
    pub(crate) fn answer_early<O: PduOut>(
        &mut self,
        pdu: &SafePdu<'_>,
        now: Milliseconds,
        out: &mut O,
    )
        requires few { self.old.made < 2 ^ 38 }
        requires reach { self.old.expected < 2 ^ 62 }
        requires short { length self.old.ring ≤ WINDOW_MAX }
        requires sized { AllUnits self.old.ring }
        requires number { cs_step self.old (pdu_of pdu.now) < self.old.made - self.old.confirmed }
        // `answer_early` confirms units, counts the reply, and in Up or RetrRun also counts a RetrReq and goes to
        // RetrReq (`answer_early_turn`).
        ensures left { self.new ≡ (answer_early_turn (pdu_of pdu.now) now self.old).left }
        // `answer_early` hands out the reply, and in Up or RetrRun a RetrReq after it (`answer_early_turn`).
        ensures made { Out O.makes self.old.settings.rule out.old (answer_early_turn (pdu_of pdu.now) now self.old) out.new }
    {
        let misses = self.connection.in_turn();
        self.answer_ahead(pdu, now, out);
        if misses {
            self.ask(now, out);
        }
    }

    /// Confirms units by a RetrReq that is not the next PDU, and answers it. The RetrReq itself is not passed.
    fn answer_ahead<O: PduOut>(&mut self, pdu: &SafePdu<'_>, now: Milliseconds, out: &mut O)
        requires few { self.old.made < 2 ^ 38 }
        requires reach { self.old.expected < 2 ^ 62 }
        requires short { length self.old.ring ≤ WINDOW_MAX }
        requires sized { AllUnits self.old.ring }
        requires number { cs_step self.old (pdu_of pdu.now) < self.old.made - self.old.confirmed }
        // `answer_ahead` confirms units, records the index of the RetrReq as handled, and counts the reply
        // (`answer_ahead_turn`).
        ensures left { self.new ≡ (answer_ahead_turn (pdu_of pdu.now) now self.old).left }
        // `answer_ahead` hands out a RetrResp, the units that are then unconfirmed, and a heartbeat
        // (`answer_ahead_turn`).
        ensures made { Out O.makes self.old.settings.rule out.old (answer_ahead_turn (pdu_of pdu.now) now self.old) out.new }
        // After `answer_ahead`, fewer than 2^40 PDUs are made.
        ensures few { self.new.made < 2 ^ 40 }
    {
        let distance = self.distance(pdu);
        self.confirm_units(pdu);
        self.note_request(distance);
        self.reply(now, out);
    }

    /// Answers a RetrReq: a RetrResp, each unconfirmed unit as RetrData, and a heartbeat.
    fn reply<O: PduOut>(&mut self, now: Milliseconds, out: &mut O)
        requires few { self.old.made < 2 ^ 38 }
        requires short { length self.old.ring ≤ WINDOW_MAX }
        requires sized { AllUnits self.old.ring }
        requires made { self.old.confirmed < self.old.made }
        // `reply` counts its PDUs, and gives the units of the ring the indices of their RetrData (`reply_turn`).
        ensures left { self.new ≡ (reply_turn now self.old).left }
        // `reply` hands out a RetrResp, each unconfirmed unit as RetrData, in order, and a heartbeat (`reply_turn`).
        ensures made { Out O.makes self.old.settings.rule out.old (reply_turn now self.old) out.new }
        // After `reply`, fewer than 2^40 PDUs are made.
        ensures few { self.new.made < 2 ^ 40 }
    {
        self.make(Kind::RetrResp, &[], now, out);
        let first = self.made;
        self.resend_all(now, out);
        self.ring.renumber(first);
        self.beat(now, out);
    }

    /// Makes a RetrData of each unconfirmed unit, in order.
    fn resend_all<O: PduOut>(&mut self, now: Milliseconds, out: &mut O)
        requires few { self.old.made < 2 ^ 39 }
        requires short { length self.old.ring ≤ WINDOW_MAX }
        requires sized { AllUnits self.old.ring }
        // `resend_all` counts one PDU for each unit of the ring (`resend_turn`).
        ensures left { self.new ≡ (resend_turn (octets_of self.old.ring) now self.old).left }
        // `resend_all` hands out a RetrData for each unit of the ring, in order (`resend_turn`).
        ensures made { Out O.makes self.old.settings.rule out.old
            (resend_turn (octets_of self.old.ring) now self.old) out.new }
        // `resend_all` makes at most 32 PDUs (`WINDOW_MAX`).
        ensures few { self.new.made ≤ self.old.made + WINDOW_MAX }
        // `resend_all` does not change the ring.
        ensures ring { self.new.ring ≡ self.old.ring }
    {
        for place in 0..self.ring.len() {
            self.resend_at(place, now, out);
        }
    }

    /// Makes a RetrData of the unit at a place.
    fn resend_at<O: PduOut>(&mut self, place: usize, now: Milliseconds, out: &mut O)
        requires few { self.old.made < 2 ^ 40 }
        requires inside { place < length self.old.ring }
        requires sized { IfSome (slice_get self.old.ring place) (λ u. IsBody Kind.RetrData u.octets) }
        // `resend_at` counts one PDU (`count_pdu`).
        ensures left { self.new ≡ count_pdu now self.old }
        // `resend_at` hands out a RetrData with the unit at this place of the ring.
        ensures made { IfSome (slice_get self.old.ring place) (λ u. O.makes out.old
            (text_of self.old.settings.rule (next_made self.old Kind.RetrData u.octets now)) out.new) }
    {
        let unit = self.unit_at(place);
        self.hand_out(Kind::RetrData, unit, now, out);
        self.count(now);
    }

    /// Returns the bytes of the unit at a place.
    fn unit_at(&self, place: usize) -> &[u8]
        requires { place < length self.now.ring }
        ensures { IfSome (slice_get self.now.ring place) (λ u. result.now ≡ u.octets) }
    {
        self.ring.get(place).unwrap().1.as_slice()
    }

    /// Records that a RetrReq at a distance was handled.
    fn note_request(&mut self, distance: u32)
        requires { self.old.expected < 2 ^ 62 }
        ensures { self.new ≡ mark_answered distance self.old }
    {
        self.answered = self.expected + u64::from(distance);
    }

    /// Marks everything up to a PDU at a distance as passed.
    fn pass(&mut self, pdu: &SafePdu<'_>, distance: u32)
        requires { self.old.expected < 2 ^ 62 }
        ensures { self.new ≡ move_past (pdu_of pdu.now) distance self.old }
    {
        self.expected += u64::from(distance) + 1;
        self.last_sn = pdu.sn;
        self.last_ts = pdu.ts;
    }

    /// Keeps the window in the body of a ConnReq or ConnResp.
    fn set_window(&mut self, pdu: &SafePdu<'_>)
        requires { IsBody Kind.ConnReq pdu.now.body.now }
        ensures { self.new ≡ with_window (window_of pdu.now.body.now) self.old }
    {
        self.window = u64::from(read_opening(pdu.body).n_sendmax);
    }

    /// Confirms units and time by a PDU that passed both tests.
    fn confirm_both(&mut self, pdu: &SafePdu<'_>, now: Milliseconds)
        requires few { self.old.made < 2 ^ 40 }
        requires number { cs_step self.old (pdu_of pdu.now) < self.old.made - self.old.confirmed }
        requires time { cts_step self.old (pdu_of pdu.now) ≤ now - self.old.confirmed_at }
        ensures { self.new ≡ both_confirmed (pdu_of pdu.now) self.old }
    {
        self.confirm_units(pdu);
        self.confirmed_at += u64::from(self.cts_step(pdu));
    }

    /// Confirms units by the confirmed number of a PDU.
    fn confirm_units(&mut self, pdu: &SafePdu<'_>)
        requires few { self.old.made < 2 ^ 40 }
        requires fits { cs_step self.old (pdu_of pdu.now) < self.old.made - self.old.confirmed }
        ensures { self.new ≡ units_confirmed (pdu_of pdu.now) self.old }
    {
        let step = self.cs_step(pdu);
        self.confirmed += u64::from(step);
        self.ring.confirm(self.confirmed);
    }

    /// Delivers the unit of a PDU, if it carries one, and makes a heartbeat if it is the mwa-th since the last
    /// sending.
    fn take_unit<O: PduOut, U: UnitIn>(
        &mut self,
        pdu: &SafePdu<'_>,
        now: Milliseconds,
        out: &mut O,
        units: &mut U,
    )
        requires few { self.old.made < 2 ^ 40 }
        requires since { self.old.since < 2 ^ 40 }
        requires ready { U.ready units.old }
        // `take_unit` counts the unit, if there is one, and a heartbeat at the mwa-th (`take_unit_turn`).
        ensures left { self.new ≡ (take_unit_turn (pdu_of pdu.now) now self.old).left }
        // `take_unit` hands out a heartbeat if this is the mwa-th unit since the last sending, otherwise nothing
        // (`take_unit_turn`).
        ensures made { Out O.makes self.old.settings.rule out.old (take_unit_turn (pdu_of pdu.now) now self.old) out.new }
        // `take_unit` delivers the body of a Data or RetrData, and nothing for another type (`carried_unit`).
        ensures taken { FoldsTo U.takes units.old (carried_unit (pdu_of pdu.now)) units.new }
        // After `take_unit`, another unit can be delivered.
        ensures ready { U.ready units.new }
    {
        if carries(pdu.kind) {
            units.unit(pdu.body);
            self.since += 1;
            if self.since >= self.config.mwa {
                self.beat(now, out);
            }
        }
    }
}

/// Returns whether a PDU of this type carries a unit.
fn carries(kind: Kind) -> bool
    ensures { result ≡ is_carrier_kind kind }
{
    matches!(kind, Kind::Data | Kind::RetrData)
}
