//! Arrivals: after the timeout check, an end decides on a PDU, and then carries the decision out.

ghost use Rattle.std.specs.Prelude.{◌≡◌, ◌+◌, ◌<◌, ◌≤◌, ◌^◌, [], ◌∷◌, Err};
ghost use Rattle.std.specs.List.{FoldsTo};
ghost use Rattle.safe_pdu.specs.Pdu.{Pdu, pdu_of};
ghost use Rattle.safe_pdu.specs.Bodies.{IsBody};
ghost use Rattle.safe_machine.specs.Decision.{answer_of, decide, cs_step, cts_step, distance, decide_request, as_client, by_cell, by_connection, by_table, in_down};
ghost use Rattle.safe_machine.specs.Decision.{is_ours, is_foreign, decide_by_tests, cs_fits, cts_fits, decide_unconfirming_request};
ghost use Rattle.safe_machine.specs.Table.{cell, request_row, run_row, start_row, up_row};
ghost use Rattle.safe_machine.specs.Numbers.{ahead};
ghost use Rattle.safe_machine.specs.Octets.{decoded_answer, octets_turn, octets_units};
ghost use Rattle.safe_machine.specs.Properties.{HandsIf, IsNextData, IsRecent, OnlyConfirms, index_step};
ghost use Rattle.safe_machine.specs.Invariant.{IsReached};
ghost use Rattle.safe_machine.specs.inner.Sound.{Sound};
ghost use Rattle.safe_machine.specs.declared.ConnectionState.TheVariants.{Up};
ghost use Rattle.safe_pdu.specs.Places.{safe_seen};
ghost use Rattle.safe_machine.specs.Turns.{Out, arrive_answer, arrival_turn, decision_turn, guard_turn, handed_by, handed_units, response_turn};
ghost use Rattle.safe_machine.specs.inner.Allows.{Allows};

use super::endpoint::{MachineState, VERSION, low};
use super::{ConnectionState, Detail, DropCause, PduOut, Reason, Role, Step, UnitIn};
use octets::Milliseconds;
use octets::limits::REACH;
use safe_pdu::{Kind, SafeFault, SafePdu, decode, read_opening};
use std::alloc::Allocator;

impl<A: Allocator> MachineState<A> {
    /// Checks the timeouts and processes received bytes. `octets` may contain any bytes.
    pub(crate) fn arrive_octets<O: PduOut, U: UnitIn>(
        &mut self,
        octets: &[u8],
        now: Milliseconds,
        out: &mut O,
        units: &mut U,
    ) -> Step
        requires reached { IsReached self.old }
        requires reach { self.old.expected < 2 ^ 62 }
        requires ready { U.ready units.old }
        // The timeout check comes first. Then a PDU has the effect of the decision on it, and bytes that are not a
        // PDU have none (`octets_turn`).
        ensures left { self.new ≡ (octets_turn octets.now now self.old).left }
        // `arrive_octets` hands out the PDUs that the timeout check and the received PDU cause, in order (`octets_turn`).
        ensures made { Out O.makes self.old.settings.rule out.old (octets_turn octets.now now self.old) out.new }
        // `arrive_octets` delivers the unit of a Data or RetrData that it takes, and no other unit (`octets_units`).
        ensures taken { FoldsTo U.takes units.old (octets_units octets.now now self.old) units.new }
        // `arrive_octets` returns `Left` if the timeout check disconnects, otherwise the fault of the bytes or what
        // the decision on the PDU is reported as (`decoded_answer`).
        ensures answer { result ≡ decoded_answer (safe_seen self.old.settings.rule octets.now) now self.old }
        // After an arrival, the invariant of a machine holds again.
        ensures reached { IsReached self.new }
        // The expected index rises by at most 321 (`index_step`).
        ensures near { self.new.expected ≤ self.old.expected + index_step }
        // Units stop being unconfirmed only up to the index that the confirmed number of a PDU means
        // (`OnlyConfirms`).
        ensures confirms { OnlyConfirms (safe_seen self.old.settings.rule octets.now) self.old self.new }
        // If the bytes are the peer's next Data at an end in Up, and the timeout check and both tests pass, exactly
        // its unit is delivered and the state stays Up.
        ensures passes { (p : Pdu) → IsNextData (safe_seen self.old.settings.rule octets.now) p now self.old
            → FoldsTo U.takes units.old (p.body ∷ []) units.new × (self.new.connection ≡ Up) }
        // If a unit is delivered, the bytes are a PDU whose confirmed timestamp is less than T_max old
        // (`IsRecent`).
        ensures recent { HandsIf U.takes units.old units.new
            (IsRecent (safe_seen self.old.settings.rule octets.now) now self.old) }
        // After `arrive_octets`, another unit can be delivered.
        ensures ready { U.ready units.new }
    {
        match decode(octets, &self.config.rule) {
            Ok(pdu) => self.arrive(&pdu, now, out, units),
            Err(fault) => self.arrive_fault(fault, now, out),
        }
    }

    /// Checks the timeouts and processes a PDU.
    fn arrive<O: PduOut, U: UnitIn>(
        &mut self,
        pdu: &SafePdu<'_>,
        now: Milliseconds,
        out: &mut O,
        units: &mut U,
    ) -> Step
        requires sound { Sound self.old }
        requires body { IsBody pdu.now.kind pdu.now.body.now }
        requires reach { self.old.expected < 2 ^ 62 }
        requires ready { U.ready units.old }
        // `arrive` closes the end if the timeout check fails; otherwise the decision on the PDU is carried out
        // (`arrival_turn`).
        ensures left { self.new ≡ (arrival_turn (pdu_of pdu.now) now self.old).left }
        // `arrive` hands out the DiscReq of the timeout check, or the PDUs of the decision (`arrival_turn`).
        ensures made { Out O.makes self.old.settings.rule out.old (arrival_turn (pdu_of pdu.now) now self.old) out.new }
        // `arrive` delivers the unit of a Data or RetrData that it takes, unless the timeout check disconnects
        // (`handed_units`).
        ensures taken { FoldsTo U.takes units.old (handed_units (pdu_of pdu.now) now self.old) units.new }
        // `arrive` returns `Left` if the timeout check disconnects, otherwise what the decision is reported as
        // (`arrive_answer`).
        ensures answer { result ≡ arrive_answer (pdu_of pdu.now) now self.old }
        // After `arrive`, another unit can be delivered.
        ensures ready { U.ready units.new }
    {
        if let Some((reason, detail)) = self.overdue(now) {
            self.leave(reason, detail, now, out);
            return Step::Left(reason, detail);
        }
        self.respond(pdu, now, out, units)
    }

    /// Decides on a PDU, and carries the decision out. The timeout check has passed.
    fn respond<O: PduOut, U: UnitIn>(
        &mut self,
        pdu: &SafePdu<'_>,
        now: Milliseconds,
        out: &mut O,
        units: &mut U,
    ) -> Step
        requires sound { Sound self.old }
        requires body { IsBody pdu.now.kind pdu.now.body.now }
        requires reach { self.old.expected < 2 ^ 62 }
        requires ready { U.ready units.old }
        // After `respond`, the end keeps what the decision on the PDU leads to (`response_turn`).
        ensures left { self.new ≡ (response_turn (pdu_of pdu.now) now self.old).left }
        // `respond` hands out the PDUs of the decision, in order (`response_turn`).
        ensures made { Out O.makes self.old.settings.rule out.old (response_turn (pdu_of pdu.now) now self.old) out.new }
        // `respond` delivers the unit of the PDU if the decision is to take it (`handed_by`).
        ensures taken { FoldsTo U.takes units.old
            (handed_by (decide self.old (pdu_of pdu.now) now) (pdu_of pdu.now)) units.new }
        // `respond` returns what the decision is reported as (`answer_of`).
        ensures answer { result ≡ answer_of (decide self.old (pdu_of pdu.now) now) }
        // After `respond`, another unit can be delivered.
        ensures ready { U.ready units.new }
    {
        let decision = self.decide(pdu, now);
        self.carry_out(decision, pdu, now, out, units);
        decision.answer()
    }

    /// Decides on a PDU.
    #[inline(always)]
    fn decide(&self, pdu: &SafePdu<'_>, now: Milliseconds) -> Decision
        requires body { IsBody pdu.now.kind pdu.now.body.now }
        requires reach { self.now.expected < 2 ^ 62 }
        ensures { result ≡ decide self.now (pdu_of pdu.now) now }
    {
        // Most PDUs are the next Data or heartbeat at an end in Up: the decision that the table has for these comes first.
        let is_plain = matches!(pdu.kind, Kind::Data | Kind::Heartbeat);
        if self.connection == ConnectionState::Up
            && is_plain
            && self.distance(pdu) == 0
            && !self.is_foreign(pdu)
            && self.cs_fits(pdu)
            && self.cts_fits(pdu, now)
        {
            return Decision::Takes(ConnectionState::Up);
        }
        if self.connection == ConnectionState::Closed {
            return Decision::Nothing;
        }
        if self.is_foreign(pdu) {
            return Decision::Drops(DropCause::Stranger);
        }
        self.by_connection(pdu, now)
    }

    /// Returns whether a PDU is a stranger's.
    fn is_foreign(&self, pdu: &SafePdu<'_>) -> bool
        ensures { result ≡ is_foreign self.now.settings (pdu_of pdu.now) }
    {
        pdu.receiver != self.config.own || pdu.sender != self.config.peer
    }

    /// Decides by the state of the connection.
    #[inline(always)]
    fn by_connection(&self, pdu: &SafePdu<'_>, now: Milliseconds) -> Decision
        requires body { IsBody pdu.now.kind pdu.now.body.now }
        requires reach { self.now.expected < 2 ^ 62 }
        ensures { result ≡ by_connection self.now (pdu_of pdu.now) now self.now.connection }
    {
        let is_goodbye = matches!(pdu.kind, Kind::DiscReq);
        match self.connection {
            ConnectionState::Closed => Decision::Nothing,
            ConnectionState::Down => in_down(pdu),
            _ if is_goodbye => Decision::Shuts,
            ConnectionState::Start if self.role == Role::Client => self.as_client(pdu, now),
            _ => self.by_table(pdu, now),
        }
    }

    /// Decides as a client in Start.
    #[cold]
    #[inline(never)]
    fn as_client(&self, pdu: &SafePdu<'_>, now: Milliseconds) -> Decision
        requires { IsBody pdu.now.kind pdu.now.body.now }
        ensures { result ≡ as_client self.now (pdu_of pdu.now) now pdu.now.kind }
    {
        match pdu.kind {
            Kind::ConnResp => {
                if is_ours(pdu.body) {
                    self.apply_tests(pdu, now, Decision::Connects)
                } else {
                    Decision::Leaves(Reason::WrongVersion, Detail::Unspecified)
                }
            }
            _ => Decision::Leaves(Reason::UnexpectedPdu, Detail::Unspecified),
        }
    }

    /// Decides by the table, if the PDU is within reach.
    #[inline(always)]
    fn by_table(&self, pdu: &SafePdu<'_>, now: Milliseconds) -> Decision
        requires { self.now.expected < 2 ^ 62 }
        ensures { result ≡ by_table self.now (pdu_of pdu.now) now (distance self.now (pdu_of pdu.now)) }
    {
        let distance = self.distance(pdu);
        if u64::from(distance) > REACH * u64::from(self.config.n_sendmax) {
            return Decision::Drops(DropCause::Number);
        }
        let cell = cell_of(self.connection, distance == 0, pdu.kind);
        self.by_cell(pdu, now, distance, cell)
    }

    /// Decides by a cell of the table.
    #[inline(always)]
    fn by_cell(&self, pdu: &SafePdu<'_>, now: Milliseconds, distance: u32, cell: Cell) -> Decision
        requires { self.now.expected < 2 ^ 62 }
        ensures { result ≡ by_cell self.now (pdu_of pdu.now) now distance cell }
    {
        match cell {
            Cell::Take(connection) => self.apply_tests(pdu, now, Decision::Takes(connection)),
            Cell::Ask => Decision::Asks,
            Cell::Answer => self.decide_request(pdu, now, distance),
            Cell::Resume => self.apply_tests(pdu, now, Decision::Resumes),
            Cell::Refuse(reason) => Decision::Leaves(reason, Detail::Unspecified),
            Cell::Skip => Decision::Drops(DropCause::Request),
        }
    }

    /// Decides on a RetrReq.
    #[cold]
    #[inline(never)]
    fn decide_request(&self, pdu: &SafePdu<'_>, now: Milliseconds, distance: u32) -> Decision
        requires { self.now.expected < 2 ^ 62 }
        ensures { result ≡ decide_request self.now (pdu_of pdu.now) now distance }
    {
        if self.expected + u64::from(distance) <= self.answered {
            return Decision::Drops(DropCause::Answered);
        }
        if !self.cs_fits(pdu) {
            return self.decide_failed_number(pdu);
        }
        if distance != 0 || !self.connection.in_turn() {
            return Decision::AnswersEarly;
        }
        if !self.cts_fits(pdu, now) {
            return Decision::Leaves(Reason::ProtocolError, Detail::ConfirmedTimestamp);
        }
        Decision::AnswersNext
    }

    /// Decides on a RetrReq whose confirmed number fails the test.
    fn decide_failed_number(&self, pdu: &SafePdu<'_>) -> Decision
        ensures { result ≡ decide_unconfirming_request self.now (pdu_of pdu.now) }
    {
        if self.cs_step(pdu) >= 0x8000_0000 {
            Decision::Drops(DropCause::Below)
        } else {
            Decision::Leaves(Reason::RetransmissionImpossible, Detail::Unspecified)
        }
    }

    /// Applies both confirmation tests to a decision.
    fn apply_tests(&self, pdu: &SafePdu<'_>, now: Milliseconds, decision: Decision) -> Decision
        ensures { result ≡ decide_by_tests self.now (pdu_of pdu.now) now decision }
    {
        if !self.cs_fits(pdu) {
            return Decision::Leaves(Reason::ProtocolError, Detail::ConfirmedNumber);
        }
        if !self.cts_fits(pdu, now) {
            return Decision::Leaves(Reason::ProtocolError, Detail::ConfirmedTimestamp);
        }
        decision
    }

    /// Returns how far a PDU is ahead of the expected one.
    #[tactic(auto, unfolding(crate::specs::Numbers::ahead, crate::specs::Numbers::sn_of))]
    pub(crate) fn distance(&self, pdu: &SafePdu<'_>) -> u32
        ensures { result ≡ distance self.now (pdu_of pdu.now) }
    {
        steps_ahead(self.last_sn.wrapping_add(1), pdu.sn)
    }

    /// Returns whether the PDU passes the number test.
    fn cs_fits(&self, pdu: &SafePdu<'_>) -> bool
        ensures { result ≡ cs_fits self.now (pdu_of pdu.now) }
    {
        u64::from(self.cs_step(pdu)) < self.made.saturating_sub(self.confirmed)
    }

    /// Returns how many PDUs a PDU confirms after the last one confirmed.
    #[tactic(auto, unfolding(crate::specs::Numbers::ahead, crate::specs::Numbers::sn_of))]
    pub(crate) fn cs_step(&self, pdu: &SafePdu<'_>) -> u32
        ensures { result ≡ cs_step self.now (pdu_of pdu.now) }
    {
        let confirmed = self.first.wrapping_add(low(self.confirmed));
        steps_ahead(confirmed, pdu.cs)
    }

    /// Returns whether the PDU passes the timestamp test.
    fn cts_fits(&self, pdu: &SafePdu<'_>, now: Milliseconds) -> bool
        ensures { result ≡ cts_fits self.now (pdu_of pdu.now) now }
    {
        u64::from(self.cts_step(pdu)) <= now.saturating_sub(self.confirmed_at)
    }

    /// Returns by how many milliseconds a PDU confirms a later time than the one last confirmed.
    #[tactic(auto, unfolding(crate::specs::Numbers::ahead, crate::specs::Numbers::sn_of))]
    pub(crate) fn cts_step(&self, pdu: &SafePdu<'_>) -> u32
        ensures { result ≡ cts_step self.now (pdu_of pdu.now) }
    {
        steps_ahead(low(self.confirmed_at), pdu.cts)
    }

    /// Carries out a decision.
    #[inline(always)]
    fn carry_out<O: PduOut, U: UnitIn>(
        &mut self,
        decision: Decision,
        pdu: &SafePdu<'_>,
        now: Milliseconds,
        out: &mut O,
        units: &mut U,
    )
        requires sound { Sound self.old }
        requires reach { self.old.expected < 2 ^ 62 }
        requires allows { Allows self.old (pdu_of pdu.now) now decision }
        requires ready { U.ready units.old }
        // After `carry_out`, the end keeps what the decision leads to (`decision_turn`).
        ensures left { self.new ≡ (decision_turn (pdu_of pdu.now) now decision self.old).left }
        // `carry_out` hands out the PDUs that the decision makes, in order (`decision_turn`).
        ensures made { Out O.makes self.old.settings.rule out.old
            (decision_turn (pdu_of pdu.now) now decision self.old) out.new }
        // `carry_out` delivers the unit of the PDU if the decision is to take it, otherwise nothing (`handed_by`).
        ensures taken { FoldsTo U.takes units.old (handed_by decision (pdu_of pdu.now)) units.new }
        // After `carry_out`, another unit can be delivered.
        ensures ready { U.ready units.new }
    {
        match decision {
            Decision::Nothing | Decision::Drops(_) => {}
            Decision::Shuts => self.move_to(ConnectionState::Closed),
            Decision::Leaves(reason, detail) => self.leave(reason, detail, now, out),
            Decision::Rejects => self.reject(pdu, now, out),
            Decision::Accepts => self.accept(pdu, now, out),
            Decision::Connects => self.connect(pdu, now, out),
            Decision::Takes(connection) => self.take(pdu, now, connection, out, units),
            Decision::Asks => self.ask(now, out),
            Decision::Resumes => self.resume(pdu, now),
            Decision::AnswersNext => self.answer_next(pdu, now, out),
            Decision::AnswersEarly => self.answer_early(pdu, now, out),
        }
    }

    /// Checks the timeouts, and drops bytes that are not a PDU.
    #[cold]
    #[inline(never)]
    fn arrive_fault<O: PduOut>(&mut self, fault: SafeFault, now: Milliseconds, out: &mut O) -> Step
        requires few { self.old.made < 2 ^ 40 }
        // `arrive_fault` closes the end if the timeout check fails, and otherwise changes nothing (`guard_turn`).
        ensures left { self.new ≡ (guard_turn now self.old).left }
        // `arrive_fault` hands out a DiscReq if the timeout check fails, otherwise nothing (`guard_turn`).
        ensures made { Out O.makes self.old.settings.rule out.old (guard_turn now self.old) out.new }
        // `arrive_fault` returns `Left` if the timeout check disconnects, `Nothing` for a closed end, otherwise the
        // fault as the drop cause (`decoded_answer`).
        ensures answer { result ≡ decoded_answer (Err fault) now self.old }
    {
        match self.overdue(now) {
            Some((reason, detail)) => {
                self.leave(reason, detail, now, out);
                Step::Left(reason, detail)
            }
            None if self.connection == ConnectionState::Closed => Step::Nothing,
            None => Step::Dropped(DropCause::Fault(fault)),
        }
    }
}

/// The decision of an end on an arrival.
#[derive(Clone, Copy, Debug, PartialEq, Eq)]
pub(crate) enum Decision {
    /// The end is closed and does nothing.
    Nothing,
    /// The PDU is dropped.
    Drops(DropCause),
    /// A DiscReq closes the end.
    Shuts,
    /// The end disconnects.
    Leaves(Reason, Detail),
    /// The end disconnects because of the version of a ConnReq.
    Rejects,
    /// The server accepts a ConnReq.
    Accepts,
    /// The client accepts its ConnResp.
    Connects,
    /// The PDU is taken, and the connection goes to this state.
    Takes(ConnectionState),
    /// The end requests a retransmission.
    Asks,
    /// The end accepts the RetrResp to its request.
    Resumes,
    /// The end answers a RetrReq that is the next PDU.
    AnswersNext,
    /// The end answers any other RetrReq.
    AnswersEarly,
}

impl Decision {
    /// Returns what the decision is reported as.
    fn answer(self) -> Step
        ensures { result ≡ answer_of self }
    {
        match self {
            Decision::Nothing | Decision::Shuts => Step::Nothing,
            Decision::Drops(cause) => Step::Dropped(cause),
            Decision::Leaves(reason, detail) => Step::Left(reason, detail),
            Decision::Rejects => Step::Left(Reason::WrongVersion, Detail::Unspecified),
            Decision::Asks => Step::Gap,
            _ => Step::Taken,
        }
    }
}

/// Decides as a server that waits for a ConnReq.
fn in_down(pdu: &SafePdu<'_>) -> Decision
    requires { IsBody pdu.now.kind pdu.now.body.now }
    ensures { result ≡ in_down (pdu_of pdu.now) pdu.now.kind }
{
    match pdu.kind {
        Kind::ConnReq => {
            if is_ours(pdu.body) {
                Decision::Accepts
            } else {
                Decision::Rejects
            }
        }
        _ => Decision::Drops(DropCause::NotOpened),
    }
}

/// Returns whether the body of a ConnReq or ConnResp has this profile's version.
fn is_ours(body: &[u8]) -> bool
    requires { IsBody Kind.ConnReq body.now }
    ensures { result ≡ is_ours body.now }
{
    read_opening(body).version == VERSION.as_slice()
}

/// A cell of the table.
#[derive(Clone, Copy, Debug, PartialEq, Eq)]
pub(crate) enum Cell {
    /// Take the PDU, and go to this state.
    Take(ConnectionState),
    /// Request a retransmission.
    Ask,
    /// Answer a RetrReq.
    Answer,
    /// Accept the RetrResp, and resume.
    Resume,
    /// Disconnect with this reason.
    Refuse(Reason),
    /// Drop the PDU.
    Skip,
}

/// Returns the cell for a state, whether the PDU is the next one, and its PDU type.
fn cell_of(connection: ConnectionState, next: bool, kind: Kind) -> Cell
    ensures { result ≡ cell connection next kind }
{
    match connection {
        ConnectionState::Start => start_row(next, kind),
        ConnectionState::Up => up_row(next, kind),
        ConnectionState::RetrRun => run_row(next, kind),
        ConnectionState::RetrReq => request_row(kind),
        _ => Cell::Skip,
    }
}

/// Returns the cell of a server in Start.
fn start_row(next: bool, kind: Kind) -> Cell
    ensures { result ≡ start_row next kind }
{
    match kind {
        Kind::Heartbeat if next => Cell::Take(ConnectionState::Up),
        Kind::Heartbeat => Cell::Refuse(Reason::SequenceError),
        Kind::Data if !next => Cell::Refuse(Reason::SequenceError),
        _ => Cell::Refuse(Reason::UnexpectedPdu),
    }
}

/// Returns the cell of Up.
fn up_row(next: bool, kind: Kind) -> Cell
    ensures { result ≡ up_row next kind }
{
    match kind {
        Kind::Heartbeat | Kind::Data if next => Cell::Take(ConnectionState::Up),
        Kind::Heartbeat | Kind::Data => Cell::Ask,
        Kind::RetrReq => Cell::Answer,
        _ => Cell::Refuse(Reason::UnexpectedPdu),
    }
}

/// Returns the cell of RetrRun.
fn run_row(next: bool, kind: Kind) -> Cell
    ensures { result ≡ run_row next kind }
{
    match kind {
        Kind::Heartbeat | Kind::Data if next => Cell::Take(ConnectionState::Up),
        Kind::RetrData if next => Cell::Take(ConnectionState::RetrRun),
        Kind::Heartbeat | Kind::Data | Kind::RetrData => Cell::Ask,
        Kind::RetrReq => Cell::Answer,
        _ => Cell::Refuse(Reason::UnexpectedPdu),
    }
}

/// Returns the cell of RetrReq, where the distance does not matter.
fn request_row(kind: Kind) -> Cell
    ensures { result ≡ request_row kind }
{
    match kind {
        Kind::Heartbeat | Kind::Data | Kind::RetrData => Cell::Skip,
        Kind::RetrReq => Cell::Answer,
        Kind::RetrResp => Cell::Resume,
        _ => Cell::Refuse(Reason::UnexpectedPdu),
    }
}

/// Returns how far a 32-bit number is ahead of another.
#[tactic(auto, unfolding(crate::specs::Numbers::ahead))]
fn steps_ahead(from: u32, to: u32) -> u32
    ensures { result ≡ ahead from to }
{
    to.wrapping_sub(from)
}
