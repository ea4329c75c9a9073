//! One incarnation of an end: from one opening to the next.

ghost use Rattle.std.specs.Prelude.{◌≡◌, ◌≤◌, ◌^◌, ◌↔◌, ℕ, true, false, length, None, Some, MatchResult, OnOk, OnErr, IfOk, IsErrAnd, drop, not, ◌&&◌, option_map};
ghost use Rattle.octets.specs.declared.limits.TheConstants.{TIME_MAX};
ghost use Rattle.end_settings.specs.EndSettings.{are_fit};
ghost use Rattle.end_settings.specs.ConfigValue.{settings_of, side_of};
ghost use Rattle.stack_end.specs.Ends.{EndState, opened_end};
ghost use Rattle.stack_end.specs.Ends.Call.{Close, Deliver, InitDone, Put, Tick};
ghost use Rattle.stack_end.specs.declared.OpenFault.TheVariants.{BadConfig};
ghost use Rattle.stack_engine.specs.Bounds.{FewFirst};
ghost use Rattle.end_settings.specs.EndSettings.{rule_of};
ghost use Rattle.stack_end.specs.Ends.{is_shut};
ghost use Rattle.safe_pdu.specs.SafeText.{code_octets};
ghost use Rattle.stack_engine.specs.Events.{call_of};
ghost use Rattle.stack_end.specs.EndValue.{inside};
ghost use Rattle.stack_end.specs.Turns.{init_answer, put_answer};
ghost use Rattle.stack_engine.specs.Pairs.{has_made, session_refusal};
ghost use Rattle.stack_engine.specs.Premise.{is_asked_of};

use crate::ApplyFault;
use crate::event::Call;
use crate::keeper::Keeper;
use crate::notes::Notes;
use crate::premise::is_asked_about;
use crate::report::{Entry, report_on};
use crate::telegrams::{Telegrams, reserve_telegrams};
use end_settings::{EndConfig, Side};
use octets::Milliseconds;
use pdi_session::{InitFault, MessageType, PutFault};
use safe_machine::ConnectionState;
use safe_pdu::CodeRule;
use stack_end::{End, OpenFault, end_law};
use std::alloc::{AllocError, Allocator, Global};

/// The most PDUs that one event makes: 36 by the timeout check or tick, 37 by each of nine parts, and 32 units.
const EVENT_PDUS: usize = 401;

/// The most telegrams taken in one event: three of each of nine parts.
const EVENT_TAKEN: usize = 27;

/// An end with all PDUs that it made, and all telegrams that were put and taken.
#[derive(Drop)]
pub(crate) struct Incarnation<A: Allocator = Global> {
    /// The end, over channels that keep what it sends.
    pub(crate) end: End<Keeper<A>, A>,
    /// The telegrams put, in order.
    pub(crate) put: Telegrams<A>,
    /// The telegrams taken, in order.
    pub(crate) taken: Telegrams<A>,
    /// The settings it was opened with.
    pub(crate) config: EndConfig,
    /// The time of the last accepted call, in milliseconds.
    pub(crate) time: Milliseconds,
    /// For a field element the number, from 1, of the interlocking incarnation whose ConnReq it accepted.
    pub(crate) joined: Option<usize>,
    /// How many of the first notes of its keeper are of earlier events.
    pub(crate) told: usize,
    ghost timed: { end.time ≡ time },
}

impl<A: Allocator + Copy> Incarnation<A> {
    ghost use Rattle.stack_engine.specs.Incarnations.{HasRoom, HasRoomFor, IncarnationTakesCall, IncarnationStays, IncarnationRepresents, IncarnationTakesTurn, inc_refusal};
    ghost use Rattle.stack_engine.specs.NoteValues.{AreOf};
    ghost use Rattle.stack_engine.specs.Openings.{NamesRefusal};
    ghost use Rattle.stack_engine.specs.Reports.{joined_entry, past_of, seen_entry};

    /// Opens the end. Tests the settings before it allocates.
    ///
    /// # Errors
    ///
    /// - `BadConfig` if the settings are invalid for this side;
    /// - `Memory` if an allocation fails.
    pub(crate) fn open(
        alloc: A,
        config: EndConfig,
        side: Side,
        first_sn: u32,
        now: Milliseconds,
    ) -> Result<Self, OpenFault>
        requires now { now ≤ TIME_MAX }
        requires few { are_fit (side_of side) (settings_of config) ≡ true
            → FewFirst (opened_end side config first_sn now) }
        // `BadConfig` is returned if and only if the settings do not fit this side.
        ensures bad_config { IsErrAnd result (λ fault. fault ≡ BadConfig)
            ↔ (are_fit (side_of side) (settings_of config) ≡ false) }
        // A new incarnation is joined to no other.
        ensures joined { IfOk result (λ i. i.joined ≡ None) }
        // A new incarnation represents the opened end: its state, its settings, its first PDU if it sends one, and
        // empty lists of telegrams.
        ensures stands { IfOk result (λ i. IncarnationRepresents i (opened_end side config first_sn now)) }
    {
        if !config.is_fit(side) {
            return Err(OpenFault::BadConfig);
        }
        let mut keeper = Keeper::new(alloc);
        let Ok(()) = keeper.reserve(EVENT_PDUS) else {
            return Err(OpenFault::Memory);
        };
        match End::open(alloc, keeper, config, side, first_sn, now) {
            Ok(end) => Ok(Incarnation {
                end,
                put: Telegrams::<A>::new(alloc),
                taken: Telegrams::<A>::new(alloc),
                config,
                time: now,
                joined: None,
                told: 0,
            }),
            Err((fault, _)) => Err(fault),
        }
    }

    /// Makes room for all that one event makes and takes, and drops the notes of earlier events. Fails if an
    /// allocation fails.
    fn reserve(&mut self) -> Result<(), AllocError>
        // After a success there is room for the PDUs and the taken telegrams of any call.
        ensures room { OnOk result (HasRoom self.new) }
        // Making room for an event leaves the represented state as it is.
        ensures stands { (x : EndState) → IncarnationRepresents self.old x → IncarnationRepresents self.new x }
        // Making room for an event leaves the time as it is.
        ensures time { self.new.time ≡ self.old.time }
        // Making room for an event changes no join.
        ensures joined { self.new.joined ≡ self.old.joined }
        // Making room for an event leaves the telegrams put, and the room for more, as they are.
        ensures put { self.new.put ≡ self.old.put }
    {
        let told = self.told;
        let keeper = self.end.channels();
        keeper.forget(told);
        self.told = 0;
        keeper.reserve(EVENT_PDUS)?;
        reserve_telegrams(&mut self.taken, EVENT_TAKEN)
    }

    /// Makes room for a call, and for the payload that it puts.
    ///
    /// # Errors
    ///
    /// Fails if an allocation fails.
    pub(crate) fn reserve_for(&mut self, call: &Call<'_>) -> Result<(), AllocError>
        // After a success there is room for the call: for its PDUs, for what is taken, and for the telegram that it
        // puts.
        ensures room { OnOk result (HasRoomFor call.now self.new) }
        // Making room for a call leaves the represented state as it is.
        ensures stands { (x : EndState) → IncarnationRepresents self.old x → IncarnationRepresents self.new x }
        // Making room for a call leaves the time as it is.
        ensures time { self.new.time ≡ self.old.time }
        // Making room for a call changes no join.
        ensures joined { self.new.joined ≡ self.old.joined }
    {
        self.put.reserve(1, call.put_size())?;
        self.reserve()
    }

    /// Calls the end. The caller has made room.
    ///
    /// # Errors
    ///
    /// - `Put` if the session refuses the telegram, with its fault;
    /// - `Init` if the session refuses the end of the initialisation, with its fault.
    ///
    /// Nothing has changed then.
    pub(crate) fn call(&mut self, call: &Call<'_>, now: Milliseconds) -> Result<(), ApplyFault>
        requires now { now ≤ TIME_MAX }
        requires later { self.old.time ≤ now }
        requires room { HasRoomFor call.now self.old }
        // After an accepted call the incarnation represents the state after the call's step, if that step stays
        // within the bounds (`FewMore`).
        ensures does { OnOk result (IncarnationTakesCall (call_of call.now now) self.old self.new) }
        // After a refused call the incarnation represents the same states as before.
        ensures refused { OnErr result ((x : EndState) → IncarnationRepresents self.old x → IncarnationRepresents self.new x) }
        // A call by itself joins nothing.
        ensures joined { self.new.joined ≡ self.old.joined }
        // The call is accepted only if the session of the state has no refusal for it; an error names that refusal
        // (`NamesRefusal`).
        ensures refusal { (x : EndState) → IncarnationRepresents self.old x
            → MatchResult result (λ _. session_refusal (call_of call.now now) x ≡ None)
            (λ fault. NamesRefusal fault (session_refusal (call_of call.now now) x)) }
    {
        end_law();
        let told = self.end.channels_seen().remarks();
        self.step(call, now)?;
        self.told = told;
        Ok(())
    }

    /// Calls the end, and keeps the notes of earlier events.
    fn step(&mut self, call: &Call<'_>, now: Milliseconds) -> Result<(), ApplyFault>
        requires now { now ≤ TIME_MAX }
        requires later { self.old.time ≤ now }
        requires room { HasRoomFor call.now self.old }
        // An accepted call takes its turn at the end: what is taken is kept, and a telegram that is put is added to
        // those put.
        ensures turns { OnOk result (IncarnationTakesTurn (call_of call.now now) self.old self.new) }
        // A refused call leaves end, telegrams and settings as they were.
        ensures refused { OnErr result (IncarnationStays self.old self.new) }
        // The step of a call joins nothing.
        ensures joined { self.new.joined ≡ self.old.joined }
        // The call is accepted only if the end's session has no refusal for it; an error names that refusal
        // (`NamesRefusal`).
        ensures refusal { MatchResult result (λ _. inc_refusal (call_of call.now now) self.old ≡ None)
            (λ fault. NamesRefusal fault (inc_refusal (call_of call.now now) self.old)) }
    {
        match *call {
            Call::Close => self.close(now),
            Call::Put { kind, payload } => {
                return self.put(kind, payload, now).map_err(ApplyFault::Put);
            }
            Call::InitDone => return self.init_done(now).map_err(ApplyFault::Init),
            Call::Tick => self.tick(now),
            Call::Deliver { channel, octets } => self.deliver(channel, octets, now),
        }
        Ok(())
    }

    /// Delivers a datagram.
    fn deliver(&mut self, channel: usize, octets: &[u8], now: Milliseconds)
        requires now { now ≤ TIME_MAX }
        requires later { self.old.time ≤ now }
        requires room { HasRoom self.old }
        // The end takes the turn of a delivery on this channel; the telegrams taken are kept.
        ensures turns { IncarnationTakesTurn (Deliver channel octets.now now) self.old self.new }
        // A delivery by itself joins nothing.
        ensures joined { self.new.joined ≡ self.old.joined }
    {
        self.end.arrive(channel, octets, now, &mut self.taken);
        self.time = now;
    }

    /// Lets time pass.
    fn tick(&mut self, now: Milliseconds)
        requires now { now ≤ TIME_MAX }
        requires later { self.old.time ≤ now }
        requires room { HasRoom self.old }
        // The end takes the turn of a tick; the telegrams taken are kept.
        ensures turns { IncarnationTakesTurn (Tick now) self.old self.new }
        // A tick joins nothing.
        ensures joined { self.new.joined ≡ self.old.joined }
    {
        self.end.tick(now, &mut self.taken);
        self.time = now;
    }

    /// Puts a telegram. The caller has made room for it.
    fn put(&mut self, kind: MessageType, payload: &[u8], now: Milliseconds) -> Result<(), PutFault>
        requires now { now ≤ TIME_MAX }
        requires later { self.old.time ≤ now }
        requires room { HasRoom self.old }
        requires place { 1 ≤ self.old.put.places }
        requires octets { length payload.now ≤ self.old.put.octets }
        // An accepted put takes its turn at the end, and the telegram is added to those put.
        ensures turns { OnOk result (IncarnationTakesTurn (Put kind payload.now now) self.old self.new) }
        // A put joins nothing.
        ensures joined { self.new.joined ≡ self.old.joined }
        // A refused put leaves end, telegrams and settings as they were.
        ensures refused { OnErr result (IncarnationStays self.old self.new) }
        // The put is accepted if and only if the end has no refusal for this telegram; otherwise the error is that
        // refusal.
        ensures answer { MatchResult result
            (λ _. put_answer kind payload.now (inside self.old.end).upper ≡ None)
            (λ fault. put_answer kind payload.now (inside self.old.end).upper ≡ Some fault) }
    {
        match self.end.put(kind, payload, now) {
            Ok(()) => {
                self.put.add(kind, payload);
                self.time = now;
                Ok(())
            }
            Err(fault) => Err(fault),
        }
    }

    /// Ends the initialisation: the application of a field element has put its initial status.
    fn init_done(&mut self, now: Milliseconds) -> Result<(), InitFault>
        requires now { now ≤ TIME_MAX }
        requires later { self.old.time ≤ now }
        requires room { HasRoom self.old }
        // An accepted end of the initialisation takes its turn at the end.
        ensures turns { OnOk result (IncarnationTakesTurn (InitDone now) self.old self.new) }
        // The end of the initialisation joins nothing.
        ensures joined { self.new.joined ≡ self.old.joined }
        // A refused end of the initialisation leaves end, telegrams and settings as they were.
        ensures refused { OnErr result (IncarnationStays self.old self.new) }
        // It is accepted if and only if the end has no refusal for the end of the initialisation; otherwise the error
        // is that refusal.
        ensures answer { MatchResult result (λ _. init_answer (inside self.old.end).upper ≡ None)
            (λ fault. init_answer (inside self.old.end).upper ≡ Some fault) }
    {
        match self.end.init_done(now) {
            Ok(()) => {
                self.time = now;
                Ok(())
            }
            Err(fault) => Err(fault),
        }
    }

    /// Closes the end.
    fn close(&mut self, now: Milliseconds)
        requires now { now ≤ TIME_MAX }
        requires later { self.old.time ≤ now }
        requires room { HasRoom self.old }
        // The end takes the turn of a close.
        ensures turns { IncarnationTakesTurn (Close now) self.old self.new }
        // A close joins nothing.
        ensures joined { self.new.joined ≡ self.old.joined }
    {
        self.end.close(now);
        self.time = now;
    }

    /// Returns its report entry.
    pub(crate) fn entry(&self) -> Entry<'_, A>
        ensures { seen_entry result ≡ joined_entry (past_of self.now) }
    {
        report_on(&self.put, &self.taken, self.joined)
    }

    /// Returns the notes of the last accepted event.
    pub(crate) fn notes(&self) -> Notes<'_, A>
        ensures { (x : EndState) → IncarnationRepresents self.now x → AreOf result x }
    {
        self.end.channels_seen().notes(self.told, &self.taken)
    }

    /// Returns the bytes of the ConnReq that it accepted.
    pub(crate) fn request(&self) -> Option<&[u8]>
        ensures { (x : EndState) → IncarnationRepresents self.now x → option_map (λ octets. octets.now) result ≡ x.request }
    {
        self.end.request()
    }

    /// Returns the number of PDUs that it made.
    pub(crate) fn made_count(&self) -> usize
        ensures { (x : EndState) → IncarnationRepresents self.now x → result ≡ length x.machine.made }
    {
        self.end.channels_seen().len()
    }

    /// Returns true if it made a PDU of these bytes, not counting its first `dead` ones.
    pub(crate) fn has_made(&self, dead: usize, part: &[u8]) -> bool
        ensures { (x : EndState) → IncarnationRepresents self.now x
            → result ≡ has_made (rule_of x.settings) part.now (drop dead x.machine.made) }
    {
        self.end.channels_seen().has_part(dead, part)
    }

    /// Returns true if it is open and the premise speaks of this part.
    pub(crate) fn is_asked(&self, part: &[u8]) -> bool
        ensures { (x : EndState) → IncarnationRepresents self.now x → result ≡ not (is_shut x) && is_asked_of x part.now }
    {
        let rule = CodeRule {
            length: self.config.code_length(),
            initial_value: self.config.initial_value,
        };
        self.end.state() != ConnectionState::Closed
            && is_asked_about(&rule, self.config.id, self.config.peer_id, part)
    }

    /// Returns the length of its safety code in bytes.
    pub(crate) fn code_octets(&self) -> usize
        ensures { (x : EndState) → IncarnationRepresents self.now x → result ≡ code_octets (rule_of x.settings).length }
    {
        self.config.code_length().octets()
    }
}
