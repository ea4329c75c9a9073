//! All layers of an end above the redundancy layer's receiving half, with the channels.

ghost use Rattle.std.specs.Prelude.{◌≡◌, ◌+◌, ◌*◌, ◌<◌, ◌≤◌, ◌^◌, length, if◌then◌else◌, OnOk, OnErr, MatchResult, Some, None};
ghost use Rattle.octets.specs.declared.limits.TheConstants.{SAFE_PDU_MAX, UNIT_MESSAGES, WINDOW_MAX, TIME_MAX};
ghost use Rattle.pdi_session.specs.SessionStep.{FewWait, init_refusal, put_refusal};
ghost use Rattle.safe_machine.specs.Properties.{index_step};
ghost use Rattle.safe_machine.specs.retrans.Units.{octets_of};
ghost use Rattle.stack_end.specs.Certain.{confirmed_in, items_in_units};
ghost use Rattle.red_layer.specs.Redundancy.{Datagram, Tick as RedTick, after, judge, parts_passed};
ghost use Rattle.stack_end.specs.Fields.{UpperTakeTurn, UpperTakeTurnAlone, KeepsBounds, fields_of};
ghost use Rattle.safe_pdu.specs.Places.{safe_seen};
ghost use Rattle.safe_machine.specs.Octets.{decoded_answer};
ghost use Rattle.stack_end.specs.Turns.{can_pack, close_turn, init_done_turn, count_turn, departure_turn, up_turn, guard_turn, judge_turn, judge_part, leave_turn, note_request_turn, pack_once_turn, part_turn, parts_turn, put_turn, send_turn};
ghost use Rattle.stack_end.specs.Turns.{end_session_turn, tick_turn, waiting_time};
ghost use Rattle.stack_end.specs.Timely.{margin_of};
ghost use Rattle.stack_end.specs.Reopening.{empty_fields, machine_reopening_turn};

use crate::departure::{Departure, closes, own_departure, part_departure, user_leaves};
use crate::judge::{JudgedMessages, ToSession};
use crate::notes::{EndMoment, report_change, report_event, report_step};
use crate::sender::ToChannels;
use crate::statistics::{MadeCounts, PartCounts};
use arrayvec::ArrayVec;
use channels::Channels;
use octets::limits::{SAFE_PDU_MAX, UNIT_MESSAGES};
use octets::{Milliseconds, copy_of};
use pdi_session::packing::{Unit, Waiting, pack_into};
use pdi_session::{InitFault, MessageType, PutFault, Session, Taker, items_in_unit};
use red_layer::{Numbers, RedEvent, RedLayer, Upward};
use safe_machine::{ConnectionState, Detail, Machine, Reason, Step};
use std::alloc::{Allocator, Global};

/// All of an end except the receiving half of its redundancy layer.
#[derive(Drop)]
pub(crate) struct UpperLayers<C, A: Allocator = Global> {
    /// The channels of the end.
    pub(crate) channels: C,
    /// The redundancy numbers of this incarnation.
    pub(crate) numbers: Numbers,
    /// The safety machine.
    pub(crate) machine: Machine<A>,
    /// The session.
    pub(crate) session: Session,
    /// The messages that wait to be sent.
    pub(crate) waiting: Waiting<A>,
    /// The unit that was packed last. Its storage is kept, so that no call clears and moves one.
    pub(crate) unit: Unit,
    /// The bytes of the ConnReq that a field element accepted. They identify the incarnation that it is joined to.
    pub(crate) request: Option<Part>,
    /// The number of channels.
    pub(crate) count: usize,
    /// The most messages packed into one unit.
    pub(crate) max: usize,
    /// T_max.
    pub(crate) t_max: Milliseconds,
    /// The number of commands or status put, up to 2^64 - 1.
    pub(crate) accepted: u64,
    /// How the end came to be closed, if it is.
    pub(crate) departed: Option<Departure>,
    /// The counts of the PDUs made.
    pub(crate) made: MadeCounts,
    /// The counts of the parts that went up.
    pub(crate) parts: PartCounts,
    /// The length of the safety code in bytes.
    pub(crate) code: usize,
}

/// The bytes of a part.
type Part = ArrayVec<u8, SAFE_PDU_MAX>;

/// What the machine did with a part, and the session with its unit.
#[derive(Drop)]
struct PartOutcome {
    /// The result of the machine.
    step: Step,
    /// Why the end has to disconnect, or `None`.
    asked: Option<(Reason, Detail)>,
    /// The messages of its unit that the session judged.
    judged: JudgedMessages,
}

impl<C: Channels, A: Allocator> UpperLayers<C, A> {
    /// Passes a part to the machine, and the unit that it delivers to the session.
    fn process_part<T: Taker>(
        &mut self,
        octets: &[u8],
        now: Milliseconds,
        taker: &mut T,
    ) -> PartOutcome
        requires reach { self.old.machine.expected < 2 ^ 62 }
        requires few { FewWait self.old.session self.old.waiting }
        // The machine processes the part and sends the PDUs that it makes; then the session judges the units
        // delivered, and the taker gets what the session takes.
        ensures does { UpperTakeTurn C.told T.takes (judge_turn now octets.now) self.old taker.old self.new taker.new }
        // The result says why the end has to disconnect because of the unit, if it has to.
        ensures asks { result.asked ≡ (judge_part now octets.now (fields_of self.old)).leaving }
        // The step is the machine's result for the part: closed, timeout check, fault of the PDU or what it did, the
        // first that applies.
        ensures answer { result.step ≡ decoded_answer (safe_seen self.old.machine.settings.rule octets.now) now self.old.machine }
        // Processing a part moves the index of the peer's next PDU by at most 321; the unit size is unchanged, and
        // there is still room for the session's next message.
        ensures keeps { KeepsBounds index_step self.old self.new }
    {
        let mut out = ToChannels {
            channels: &mut self.channels,
            numbers: &mut self.numbers,
            made: &mut self.made,
            count: self.count,
        };
        let mut units = ToSession {
            session: &mut self.session,
            waiting: &mut self.waiting,
            taker,
            asked: None,
            judged: JudgedMessages::new(),
        };
        let step = self.machine.arrive(octets, now, &mut out, &mut units);
        PartOutcome {
            step,
            asked: units.asked,
            judged: units.judged,
        }
    }

    /// Establishes the session when the connection comes up.
    #[inline(always)]
    fn rise(&mut self, before: ConnectionState)
        requires few { FewWait self.old.session self.old.waiting }
        // If the state has changed from Start to Up, the session goes up too, and an interlocking queues its first
        // message; if not, nothing happens.
        ensures does { UpperTakeTurnAlone C.told (up_turn before) self.old self.new }
        // Going up changes neither unit size nor the peer's next index, and there is still room for the session's
        // next message.
        ensures keeps { KeepsBounds 0 self.old self.new }
    {
        match (before, self.machine.state()) {
            (ConnectionState::Start, ConnectionState::Up) => self.session.up(&mut self.waiting),
            _ => {}
        }
    }

    /// Disconnects if it is asked to.
    #[inline(always)]
    fn leave(&mut self, asked: Option<(Reason, Detail)>, now: Milliseconds)
        // With a reason, the machine sends a DiscReq, if there is a connection, and closes; without one, nothing
        // happens.
        ensures does { UpperTakeTurnAlone C.told (leave_turn now asked) self.old self.new }
        // Disconnecting changes neither unit size nor the peer's next index, and there is still room for the
        // session's next message.
        ensures keeps { KeepsBounds 0 self.old self.new }
    {
        if let Some((reason, detail)) = asked {
            let mut out = ToChannels {
                channels: &mut self.channels,
                numbers: &mut self.numbers,
                made: &mut self.made,
                count: self.count,
            };
            self.machine.close(reason, detail, now, &mut out);
        }
    }

    /// Ends the session if the machine is closed.
    fn settle(&mut self)
        // If the machine is closed, the session is over; if not, nothing happens.
        ensures does { UpperTakeTurnAlone C.told end_session_turn self.old self.new }
        // Ending the session changes neither unit size nor the peer's next index, and there is still room for the
        // session's next message.
        ensures keeps { KeepsBounds 0 self.old self.new }
    {
        if self.machine.state() == ConnectionState::Closed {
            self.session.end();
        }
    }

    /// Records how the end came to be closed, if that is known.
    fn depart(&mut self, cause: Option<Departure>)
        // A known cause replaces the recorded departure; without a cause, the record stays.
        ensures does { UpperTakeTurnAlone C.told (departure_turn cause) self.old self.new }
        // Recording a departure changes neither unit size nor the peer's next index, and there is still room for the
        // session's next message.
        ensures keeps { KeepsBounds 0 self.old self.new }
    {
        if cause.is_some() {
            self.departed = cause;
        }
    }

    /// Returns for how long nothing was confirmed, in milliseconds, or 0 without a connection.
    fn waiting_time(&self, now: Milliseconds) -> Milliseconds
        ensures { result ≡ waiting_time now (fields_of self.now) }
    {
        match self.machine.state() {
            ConnectionState::Down | ConnectionState::Closed => 0,
            _ => now.saturating_sub(self.machine.confirmed_time()),
        }
    }

    /// Returns the margin to T_max: how long it is until it ends the connection, in milliseconds.
    pub(crate) fn margin(&self, now: Milliseconds) -> Option<Milliseconds>
        ensures { result ≡ margin_of now (fields_of self.now) }
    {
        match self.machine.state() {
            ConnectionState::Down | ConnectionState::Closed => None,
            _ => Some(self.t_max.saturating_sub(self.waiting_time(now))),
        }
    }

    /// Counts a part that went up.
    fn count(&mut self, step: Step, waited: Milliseconds, now: Milliseconds)
        // The part is counted by the machine's step, with the time waited before it and the age of the last confirmed
        // timestamp after it.
        ensures does { UpperTakeTurnAlone C.told (count_turn step waited now) self.old self.new }
        // Counting changes neither unit size nor the peer's next index, and there is still room for the session's next
        // message.
        ensures keeps { KeepsBounds 0 self.old self.new }
    {
        let age = now.saturating_sub(self.machine.confirmed_time());
        self.parts.count_step(step, waited, age);
    }

    /// Processes a part that goes up: machine and session, then the session goes up with the connection, and the end
    /// disconnects if it is asked to.
    pub(crate) fn part<T: Taker>(
        &mut self,
        number: u32,
        octets: &[u8],
        now: Milliseconds,
        taker: &mut T,
    )
        requires reach { self.old.machine.expected < 2 ^ 62 }
        requires sized { length octets.now ≤ SAFE_PDU_MAX }
        requires few { FewWait self.old.session self.old.waiting }
        // In this order: the machine processes the part and the session its units; an accepted ConnReq is kept; the
        // session goes up with the connection; the end disconnects if asked. A closed machine ends the session, the
        // departure is recorded, and the part is counted.
        ensures does { UpperTakeTurn C.told T.takes (part_turn now octets.now) self.old taker.old self.new taker.new }
        // One part moves the index of the peer's next PDU by at most 321. The unit size is unchanged, and there is
        // still room for the session's next message.
        ensures keeps { KeepsBounds index_step self.old self.new }
    {
        let before = self.machine.state();
        let waited = self.waiting_time(now);
        let (step, asked) = self.process_and_report(number, octets, now, taker);
        let seen = self.moment();
        let after = self.machine.state();
        let shut = closes(before, after);
        self.note_request(before, octets);
        self.rise(before);
        self.leave(asked, now);
        self.settle();
        self.depart(part_departure(step, asked, shut, octets, now));
        self.count(step, waited, now);
        let after = self.moment();
        report_change(&mut self.channels, seen, after);
    }

    /// Passes a part to machine and session, and makes the notes of it. Returns the machine's result, and why the end
    /// has to disconnect.
    fn process_and_report<T: Taker>(
        &mut self,
        number: u32,
        octets: &[u8],
        now: Milliseconds,
        taker: &mut T,
    ) -> (Step, Option<(Reason, Detail)>)
        requires reach { self.old.machine.expected < 2 ^ 62 }
        requires few { FewWait self.old.session self.old.waiting }
        // The machine processes the part and the session its units. The notes of it change nothing.
        ensures does { UpperTakeTurn C.told T.takes (judge_turn now octets.now) self.old taker.old self.new taker.new }
        // The second result says why the end has to disconnect because of the part's unit, if it has to.
        ensures asks { result.1 ≡ (judge_part now octets.now (fields_of self.old)).leaving }
        // The first result is what the machine did with the part.
        ensures answer { result.0 ≡ decoded_answer (safe_seen self.old.machine.settings.rule octets.now) now self.old.machine }
        // A part that is noted moves the peer's next index by at most 321; the unit size is unchanged, and there is
        // still room for the session's next message.
        ensures keeps { KeepsBounds index_step self.old self.new }
    {
        let before = self.moment();
        let heard = self.process_part(octets, now, taker);
        let phase = self.session.phase();
        report_step(
            &mut self.channels,
            number,
            heard.step,
            octets,
            self.code,
            before.phase,
            &heard.judged,
        );
        let seen = EndMoment {
            state: before.state,
            phase,
        };
        let after = self.moment();
        report_change(&mut self.channels, seen, after);
        (heard.step, heard.asked)
    }

    /// Returns state and phase, for notes.
    pub(crate) fn moment(&self) -> EndMoment {
        EndMoment {
            state: self.machine.state(),
            phase: self.session.phase(),
        }
    }

    /// Keeps the bytes of a ConnReq if the connection has started with it.
    #[inline(always)]
    fn note_request(&mut self, before: ConnectionState, octets: &[u8])
        requires sized { length octets.now ≤ SAFE_PDU_MAX }
        // If the state has changed from Down to Start, these bytes become the `request` of the end; if not, nothing
        // happens.
        ensures does { UpperTakeTurnAlone C.told (note_request_turn before octets.now) self.old self.new }
        // Keeping a ConnReq changes neither unit size nor the peer's next index, and there is still room for the
        // session's next message.
        ensures keeps { KeepsBounds 0 self.old self.new }
    {
        match (before, self.machine.state()) {
            (ConnectionState::Down, ConnectionState::Start) => self.request = Some(copy_of(octets)),
            _ => {}
        }
    }

    /// Opens these layers again with the settings that they have.
    pub(crate) fn reopen(&mut self, first_sn: u32, now: Milliseconds)
        // Everything is forgotten except the settings, and then the machine opens: an interlocking sends its ConnReq.
        ensures does { UpperTakeTurnAlone C.told (λ v. machine_reopening_turn first_sn now (empty_fields v)) self.old self.new }
        // A machine that was just opened expects the peer's first PDU.
        ensures near { self.new.machine.expected ≡ 0 }
        // No message waits, so there is room for the session's first one.
        ensures few { FewWait self.new.session self.new.waiting }
        // The unit size is a setting, and stays.
        ensures same { self.new.max ≡ self.old.max }
    {
        self.forget();
        self.open_machine(first_sn, now);
    }

    /// Forgets everything except the settings, the machine and the channels.
    fn forget(&mut self)
        // Only the settings and the machine are left (`empty_fields`).
        ensures left { fields_of self.new ≡ empty_fields (fields_of self.old) }
        // Nothing is sent.
        ensures channels { self.new.channels ≡ self.old.channels }
    {
        self.numbers = Numbers::new();
        self.session.reopen();
        self.waiting.clear();
        self.request = None;
        self.accepted = 0;
        self.departed = None;
        self.made = MadeCounts::none();
        self.parts = PartCounts::none();
    }

    /// Opens the machine again, and sends the PDU that it makes, if any.
    fn open_machine(&mut self, first_sn: u32, now: Milliseconds)
        // The machine opens with its settings, and the ConnReq of an interlocking is sent.
        ensures does { UpperTakeTurnAlone C.told (machine_reopening_turn first_sn now) self.old self.new }
        // The machine expects the peer's first PDU.
        ensures near { self.new.machine.expected ≡ 0 }
    {
        let mut out = ToChannels {
            channels: &mut self.channels,
            numbers: &mut self.numbers,
            made: &mut self.made,
            count: self.count,
        };
        self.machine.reopen(first_sn, now, &mut out);
    }

    /// Runs the timeout check: T_max and the PDU limit.
    pub(crate) fn guard(&mut self, now: Milliseconds)
        // If T_max or the PDU limit is reached, the end sends a DiscReq, the session is over, and the departure is
        // recorded. If not, nothing happens.
        ensures does { UpperTakeTurnAlone C.told (guard_turn now) self.old self.new }
        // The timeout check changes neither unit size nor the peer's next index, and there is still room for the
        // session's next message.
        ensures keeps { KeepsBounds 0 self.old self.new }
    {
        let mut out = ToChannels {
            channels: &mut self.channels,
            numbers: &mut self.numbers,
            made: &mut self.made,
            count: self.count,
        };
        let why = self.machine.guard(now, &mut out);
        self.settle();
        self.depart(own_departure(why, now));
    }

    /// Runs the timeout check, and sends a heartbeat if one is due.
    pub(crate) fn tick(&mut self, now: Milliseconds)
        // The machine's timers run: the timeout check, and if that leaves the end open, the heartbeat. A closed
        // machine ends the session, and the departure is recorded.
        ensures does { UpperTakeTurnAlone C.told (tick_turn now) self.old self.new }
        // The machine's timers change neither unit size nor the peer's next index, and there is still room for the
        // session's next message.
        ensures keeps { KeepsBounds 0 self.old self.new }
    {
        let mut out = ToChannels {
            channels: &mut self.channels,
            numbers: &mut self.numbers,
            made: &mut self.made,
            count: self.count,
        };
        let why = self.machine.tick(now, &mut out);
        self.settle();
        self.depart(own_departure(why, now));
    }

    /// Disconnects for the user, with reason 0.
    pub(crate) fn close(&mut self, now: Milliseconds)
        // The end sends a DiscReq with reason 0, if there is a connection, and the session is over. The departure is
        // recorded, unless the end was closed before.
        ensures does { UpperTakeTurnAlone C.told (close_turn now) self.old self.new }
        // Closing changes neither unit size nor the peer's next index, and there is still room for the session's next
        // message.
        ensures keeps { KeepsBounds 0 self.old self.new }
    {
        let why = user_leaves(self.machine.state());
        self.leave(Some((Reason::ClosedByUser, Detail::Unspecified)), now);
        self.settle();
        self.depart(own_departure(why, now));
    }

    /// Queues a command or status, and sends what the peer's window allows.
    pub(crate) fn put(
        &mut self,
        kind: MessageType,
        payload: &[u8],
        now: Milliseconds,
    ) -> Result<(), PutFault>
        requires some { 1 ≤ self.old.max }
        requires most { self.old.max ≤ UNIT_MESSAGES }
        // An accepted telegram is queued last and counted. Waiting messages are then packed and sent while the
        // machine may send.
        ensures does { OnOk result (UpperTakeTurnAlone C.told (put_turn kind payload.now now) self.old self.new) }
        // A refused telegram changes nothing above the redundancy layer.
        ensures refused { OnErr result (self.new ≡ self.old) }
        // The session decides: the telegram is accepted, or the first refusal that applies is returned.
        ensures answer { MatchResult result
            (λ _. put_refusal self.old.session kind payload.now (length self.old.waiting) ≡ None)
            (λ fault. put_refusal self.old.session kind payload.now (length self.old.waiting) ≡ Some fault) }
        // A put changes neither unit size nor the peer's next index, and there is still room for the session's next
        // message.
        ensures keeps { KeepsBounds 0 self.old self.new }
    {
        match self.session.put(kind, payload, &mut self.waiting) {
            Ok(()) => {
                self.accepted = self.accepted.saturating_add(1);
                self.send_waiting(now);
                Ok(())
            }
            Err(fault) => Err(fault),
        }
    }

    /// Returns how many commands or status are in unconfirmed units.
    fn items_unconfirmed(&self) -> usize
        // The result is the number of commands and status in all unconfirmed units together.
        ensures count { result ≡ items_in_units (octets_of self.now.machine.ring) }
        // The number is at most 96: 3 messages in each of 32 units.
        ensures few { result ≤ UNIT_MESSAGES * WINDOW_MAX }
    {
        self.machine.bounds();
        let mut items = 0;
        for place in 0..self.machine.unconfirmed() {
            if let Some(unit) = self.machine.unit(place) {
                items += items_in_unit(unit);
            }
        }
        items
    }

    /// Returns how many of the telegrams put are confirmed: neither waiting nor in an unconfirmed unit.
    pub(crate) fn confirmed(&self) -> u64
        ensures { result ≡ confirmed_in (fields_of self.now) }
    {
        let outstanding = self.waiting.items() + self.items_unconfirmed();
        self.accepted.saturating_sub(outstanding as u64)
    }

    /// Queues the end of the initialisation after the initial status of a field element, and sends what the peer's
    /// window allows.
    pub(crate) fn init_done(&mut self, now: Milliseconds) -> Result<(), InitFault>
        requires some { 1 ≤ self.old.max }
        requires most { self.old.max ≤ UNIT_MESSAGES }
        // The session completes the initialisation and queues its closing telegram. Waiting messages are then packed
        // and sent while the machine may send.
        ensures does { OnOk result (UpperTakeTurnAlone C.told (init_done_turn now) self.old self.new) }
        // A refused end of the initialisation changes nothing above the redundancy layer.
        ensures refused { OnErr result (self.new ≡ self.old) }
        // The session decides: the end of the initialisation is accepted, or the first refusal that applies is
        // returned.
        ensures answer { MatchResult result (λ _. init_refusal self.old.session (length self.old.waiting) ≡ None)
            (λ fault. init_refusal self.old.session (length self.old.waiting) ≡ Some fault) }
        // The end of the initialisation changes neither unit size nor the peer's next index, and there is still room
        // for the session's next message.
        ensures keeps { KeepsBounds 0 self.old self.new }
    {
        let seen = self.moment();
        match self.session.init_done(&mut self.waiting) {
            Ok(()) => {
                let after = self.moment();
                report_change(&mut self.channels, seen, after);
                self.send_waiting(now);
                Ok(())
            }
            Err(fault) => Err(fault),
        }
    }

    /// Packs a unit and sends it, if messages wait and the machine may send. Returns true if it did.
    #[inline(never)]
    fn pack_one(&mut self, now: Milliseconds) -> bool
        requires some { 1 ≤ self.old.max }
        requires most { self.old.max ≤ UNIT_MESSAGES }
        // If messages wait and the machine may send, one unit of the first of them is sent, and these no longer wait.
        // If not, nothing happens.
        ensures does { UpperTakeTurnAlone C.told (pack_once_turn now) self.old self.new }
        // The result is true if and only if a message waited and the machine could send before.
        ensures packs { result ≡ can_pack (fields_of self.old) }
        // After a unit was sent, at least one message less waits; no call makes more wait.
        ensures fewer { length self.new.waiting + (if result then 1 else 0) ≤ length self.old.waiting }
        // Sending a unit changes neither unit size nor the peer's next index, and there is still room for the
        // session's next message.
        ensures keeps { KeepsBounds 0 self.old self.new }
    {
        if !self.machine.may_send() {
            return false;
        }
        if !pack_into(&mut self.waiting, self.max, &mut self.unit) {
            return false;
        }
        let mut out = ToChannels {
            channels: &mut self.channels,
            numbers: &mut self.numbers,
            made: &mut self.made,
            count: self.count,
        };
        let _sent = self.machine.send(&self.unit, now, &mut out);
        true
    }

    /// Packs and sends units while messages wait and the machine may send.
    #[inline(always)]
    pub(crate) fn send_waiting(&mut self, now: Milliseconds)
        requires some { 1 ≤ self.old.max }
        requires most { self.old.max ≤ UNIT_MESSAGES }
        // Units of the first waiting messages are sent, each as large as the settings allow, until none waits or the
        // machine may not send.
        ensures does { UpperTakeTurnAlone C.told (send_turn now) self.old self.new }
        // Sending all units changes neither unit size nor the peer's next index, and there is still room for the
        // session's next message.
        ensures keeps { KeepsBounds 0 self.old self.new }
    {
        let mut packs = true;
        while packs {
            packs = self.pack_one(now);
        }
    }
}

/// Receives the parts that the redundancy layer lets up, and passes them to the layers above.
#[derive(Drop)]
struct ToUpper<'a, 'b, C, A: Allocator, T> {
    /// The layers above the redundancy layer.
    upper: &'a mut UpperLayers<C, A>,
    /// The application.
    taker: &'b mut T,
    /// The own time, in milliseconds.
    now: Milliseconds,
}

impl<'a, 'b, C: Channels, A: Allocator, T: Taker> Upward for ToUpper<'a, 'b, C, A, T> {
    ghost use Rattle.std.specs.Prelude.{◌≡◌, ◌*◌, ◌≤◌};
    ghost use Rattle.stack_end.specs.Later.{later_reach};

    ghost passes = { λ s p t.
        (t.upper.ghost_name ≡ s.upper.ghost_name) × (t.taker.ghost_name ≡ s.taker.ghost_name) × (t.now ≡ s.now)
        × (t.upper.now.max ≡ s.upper.now.max)
        × UpperTakeTurn C.told T.takes (part_turn s.now p.1) s.upper.now s.taker.now t.upper.now t.taker.now };

    // Each part moves the index by at most 321, and may make the session queue a message, for which there must be
    // room.
    ghost ready = { λ s n. (s.upper.now.machine.expected ≤ index_step * n) × FewWait s.upper.now.session s.upper.now.waiting };

    fn up(&mut self, seq: u32, upper: &[u8]) {
        self.upper.part(seq, upper, self.now, self.taker);
    }

    ghost later = { λ s n m le h. (later_reach s.upper.now.machine.expected n m le h.0, h.1) };
}

impl<C: Channels, A: Allocator> UpperLayers<C, A> {
    /// Passes a datagram to the redundancy layer, and each part that goes up to the layers above.
    pub(crate) fn receive<B: Allocator, T: Taker>(
        &mut self,
        red: &mut RedLayer<B>,
        octets: &[u8],
        now: Milliseconds,
        taker: &mut T,
    ) -> RedEvent
        requires now { now ≤ TIME_MAX }
        requires reach { self.old.machine.expected ≤ index_step * red.old.expected }
        requires few { FewWait self.old.session self.old.waiting }
        // The result is what the redundancy layer did with the datagram.
        ensures event { result ≡ (judge now octets.now red.old).event }
        // The redundancy layer first tries its timer, then judges the datagram: its part is dropped, is deferred, or
        // goes up with the parts that waited for it.
        ensures layer { red.new ≡ after (Datagram octets.now now) red.old }
        // The parts that go up at the datagram, those that the timer releases first, pass machine and session in
        // order, each one wholly before the next.
        ensures does { UpperTakeTurn C.told T.takes (parts_turn now (parts_passed (Datagram octets.now now) red.old)) self.old taker.old self.new taker.new }
        // After the datagram, the index of the peer's next PDU is still at most 321 times the number that the
        // redundancy layer expects.
        ensures reach { self.new.machine.expected ≤ index_step * red.new.expected }
        // A datagram does not change the unit size.
        ensures same { self.new.max ≡ self.old.max }
        // After the datagram, there is still room among the waiting messages for the session's next one.
        ensures few { FewWait self.new.session self.new.waiting }
    {
        let mut up = ToUpper {
            upper: self,
            taker,
            now,
        };
        let event = red.arrive(octets, now, &mut up);
        report_event(&mut self.channels, octets, event);
        event
    }

    /// Tries the timer of the redundancy layer, and passes each part that goes up to the layers above.
    pub(crate) fn pass_time<B: Allocator, T: Taker>(
        &mut self,
        red: &mut RedLayer<B>,
        now: Milliseconds,
        taker: &mut T,
    )
        requires now { now ≤ TIME_MAX }
        requires reach { self.old.machine.expected ≤ index_step * red.old.expected }
        requires few { FewWait self.old.session self.old.waiting }
        // If T_seq has passed for a deferred part, the redundancy layer lets parts up over the gap; if not, it stays
        // as it is.
        ensures layer { red.new ≡ after (RedTick now) red.old }
        // The parts that the timer lets up pass machine and session in order, each one wholly before the next.
        ensures does { UpperTakeTurn C.told T.takes (parts_turn now (parts_passed (RedTick now) red.old)) self.old taker.old self.new taker.new }
        // After the timer, the index of the peer's next PDU is still at most 321 times the number that the redundancy
        // layer expects.
        ensures reach { self.new.machine.expected ≤ index_step * red.new.expected }
        // The timer does not change the unit size.
        ensures same { self.new.max ≡ self.old.max }
        // After the timer, there is still room among the waiting messages for the session's next one.
        ensures few { FewWait self.new.session self.new.waiting }
    {
        let mut up = ToUpper {
            upper: self,
            taker,
            now,
        };
        red.tick(now, &mut up);
    }
}
