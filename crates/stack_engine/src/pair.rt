//! Two ends in memory, with their whole history.

ghost use Rattle.std.specs.Prelude.{◌≡◌, ◌+◌, [], ◌∷◌, ◌++◌, length, None, MatchResult, OnOk, OnErr, IfOk, option_map, slice_get};
ghost use Rattle.stack_engine.specs.Openings.{IsEnd, KeepsMade, NamesRefusal};
ghost use Rattle.stack_engine.specs.Pairs.{present, refusal, run, start};
ghost use Rattle.end_settings.specs.ConfigValue.{side_of};
ghost use Rattle.stack_engine.specs.Premise.{breaks_premise};
ghost use Rattle.stack_engine.specs.Promises.{Promises};
ghost use Rattle.stack_engine.specs.Reports.{report_of, seen_entry};

use crate::ApplyFault;
use crate::event::Event;
use crate::history::History;
use crate::keeper::Keeper;
use crate::law::pair_law;
use crate::notes::Notes;
use crate::report::Entry;
use crate::sides::Sides;
use end_settings::Side;
use stack_end::End;
use std::alloc::{Allocator, Global};
use std::marker::Model;

/// An allocation for an event failed.
#[derive(Clone, Copy, Debug, PartialEq, Eq)]
pub struct Memory;

/// Two ends in memory. Its value is its history: the list of events that it has accepted.
///
/// A pair sends nothing by itself: a datagram that is never delivered is a datagram lost.
#[derive(Drop)]
pub struct Pair<A: Allocator = Global> {
    /// Where memory comes from.
    alloc: A,
    /// All accepted events.
    history: History<A>,
    /// Both ends in the state that the history leads to.
    sides: Sides<A>,
    /// The side of the last accepted event.
    last: Option<Side>,
}

impl<A: Allocator> Model for Pair<A> {
    ghost use Rattle.std.specs.Prelude.{List};
    ghost use Rattle.stack_engine.specs.Pairs.{Event};

    ghost Value = { List Event };

    ghost use Rattle.stack_engine.specs.PairValue.{history_of, IsPair};

    ghost view = { history_of };

    ghost invariant = { IsPair };
}

impl<A: Allocator + Copy> Pair<A> {
    ghost use Rattle.stack_engine.specs.Events.{event_of};
    ghost use Rattle.stack_engine.specs.PairValue.{events_of, last_side, NotesOfLast, RunsTo, RunsToFault};

    /// Creates a pair in which neither end has been opened. It does not allocate.
    pub fn new(alloc: A) -> Self
        // A new pair has an empty history.
        ensures { result ≡ [] }
    {
        Pair {
            alloc,
            history: History::new(alloc),
            sides: Sides::new(alloc),
            last: None,
        }
    }

    /// Applies one event: an opening, a close, a put, an end of the initialisation, a tick, or the delivery of
    /// a datagram.
    ///
    /// # Errors
    ///
    /// Returns the first that applies, and changes nothing:
    ///
    /// - `EndNotOpen` if the end of this side was never opened;
    /// - `BadConfig` if the settings are invalid for this side;
    /// - `Clock` if the time is less than that of the end's last accepted event, or greater than 2^62 ms;
    /// - `Memory` if an allocation fails;
    /// - `Put` or `Init` if the session refuses the telegram or the end of the initialisation, with its reason.
    pub fn apply(&mut self, event: &Event<'_>) -> Result<(), ApplyFault>
        // An event that `apply` accepts is appended to the history.
        ensures ok { OnOk result (self.new ≡ self.old ++ event_of event.now ∷ []) }
        // An event that `apply` refuses leaves the history unchanged.
        ensures err { OnErr result (self.new ≡ self.old) }
        // `apply` accepts an event only if no `refusal` applies to it. It returns the first that applies, or
        // `Memory` if none applies, or only a refusal by the session (`NamesRefusal`).
        ensures refusal { MatchResult result (λ _. refusal (event_of event.now) (run self.old start) ≡ None)
            (λ fault. NamesRefusal fault (refusal (event_of event.now) (run self.old start))) }
        // After `apply`, a genuine history has the promises headline, fresh, confirmed, settled and certain;
        // a faithful history also has nothing_lost (`Promises`).
        ensures promises { Promises self.new }
    {
        let result = self.happen(event);
        self.promises();
        result
    }

    /// Applies one event, without the clause on the promises.
    fn happen(&mut self, event: &Event<'_>) -> Result<(), ApplyFault>
        // An accepted event becomes the last of the history.
        ensures ok { OnOk result (self.new ≡ self.old ++ event_of event.now ∷ []) }
        // A refused event is not recorded.
        ensures err { OnErr result (self.new ≡ self.old) }
        // The result is that of the definition: accepted without a `refusal`, otherwise its name, or `Memory`
        // (`NamesRefusal`).
        ensures refusal { MatchResult result (λ _. refusal (event_of event.now) (run self.old start) ≡ None)
            (λ fault. NamesRefusal fault (refusal (event_of event.now) (run self.old start))) }
    {
        pair_law();
        event.is_typed();
        self.sides.admits(event)?;
        let Ok(()) = self.history.reserve(event) else {
            return Err(ApplyFault::Memory);
        };
        match self.sides.step(self.alloc, event) {
            Ok(()) => {
                self.history.add(event);
                self.last = Some(event.side);
                Ok(())
            }
            Err(fault) => Err(fault),
        }
    }

    /// Applies events in order and returns how many were accepted. A refused event changes nothing, and the
    /// next one follows.
    ///
    /// # Errors
    ///
    /// - `Memory` if an allocation fails. The events before the one that failed have been applied; none after
    ///   it has.
    pub fn run(&mut self, events: &[Event<'_>]) -> Result<usize, Memory>
        // If every allocation succeeds, the history grows by exactly the events that the definition of a pair
        // accepts, in order (`RunsTo`).
        ensures ok { OnOk result (RunsTo self.old (events_of events.now) self.new) }
        // The returned count is the number of events by which the history grew.
        ensures count { IfOk result (λ count. length self.new ≡ length self.old + count) }
        // If an allocation fails, the history has grown by the accepted events before the one that failed. That
        // event was not refused for anything that is checked before memory (`RunsToFault`).
        ensures memory { OnErr result (RunsToFault self.old (events_of events.now) self.new) }
        // After `run`, even if it failed, a genuine history has the promises headline, fresh, confirmed, settled
        // and certain; a faithful history also has nothing_lost (`Promises`).
        ensures promises { Promises self.new }
    {
        let mut count = 0;
        for event in events {
            match self.happen(event) {
                Ok(()) => count += 1,
                Err(fault) => {
                    if fault.is_memory() {
                        self.promises();
                        return Err(Memory);
                    }
                }
            }
        }
        self.promises();
        Ok(count)
    }

    /// Returns the accepted events in order.
    pub fn history(&self) -> &History<A>
        // `history` returns exactly the accepted events, in order.
        ensures events { result.now.events ≡ self.now }
    {
        &self.history
    }

    /// States what holds of a pair at any time. It does nothing.
    pub fn promises(&self)
        // At any time, a genuine history has the promises headline, fresh, confirmed, settled and certain;
        // a faithful history also has nothing_lost (`Promises`).
        ensures promises { Promises self.now }
    {
        let _events = &self.history;
        pair_law();
    }

    /// Returns how often an end was opened: the number of entries that `report` has for it.
    pub fn incarnations(&self, side: Side) -> usize
        // `incarnations` counts exactly the accepted openings of this side.
        ensures { result ≡ length (report_of (side_of side) (run self.now start)) }
    {
        self.sides.incarnations(side)
    }

    /// Returns what one incarnation of an end put and took, and the interlocking incarnation that it is joined
    /// to. The first opening has place 0. Returns `None` if there is no such incarnation.
    pub fn report(&self, side: Side, place: usize) -> Option<Entry<'_, A>>
        // The entry has the two lists that the promises speak of, telegrams put and telegrams taken, and the
        // place of the interlocking incarnation that this one is joined to, if any.
        ensures { option_map seen_entry result ≡ slice_get (report_of (side_of side) (run self.now start)) place }
    {
        self.sides.entry(side, place)
    }

    /// Returns true if delivering this datagram to the end now would break the premise of the promises: the end
    /// is open, the part bears both identifiers and a valid safety code, and it is not a live PDU of the peer.
    pub fn breaks_premise(&self, side: Side, datagram: &[u8]) -> bool
        // `breaks_premise` is true if and only if the end is open and the datagram's part, though it has both
        // identifiers and a valid safety code, is not a live PDU of the peer. Live means: made since both ends
        // were last opened.
        ensures { result ≡ breaks_premise (side_of side) datagram.now (run self.now start) }
    {
        self.sides.breaks_premise(side, datagram)
    }

    /// Returns the present incarnation of an end, or `None` if it was never opened.
    pub fn end_of(&self, side: Side) -> Option<&End<Keeper<A>, A>>
        // `end_of` returns an end in exactly the state that the history leads to, and `None` if and only if
        // this side was never opened.
        ensures stands { IsEnd result (present (side_of side) (run self.now start)) }
        // The channels of the end keep exactly the datagrams of all PDUs that it made, in order, each under its
        // index as redundancy number.
        ensures made { KeepsMade result (present (side_of side) (run self.now start)) }
    {
        self.sides.end_of(side)
    }

    /// Returns what the last accepted event did, step by step, or `None` if no event was accepted yet. No
    /// promise speaks of these notes.
    pub fn notes(&self) -> Option<Notes<'_, A>>
        // The notes are of the end of the last accepted event: their datagrams are those of all PDUs that it made,
        // their telegrams are all that it took, in order. `None` is returned only if no event was accepted.
        ensures { NotesOfLast (last_side self.now) (run self.now start) result }
    {
        self.sides.notes(self.last?)
    }
}
