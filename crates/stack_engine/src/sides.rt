//! Both ends with all their incarnations.

ghost use Rattle.std.specs.Prelude.{◌≡◌, None, List, length, slice_get, option_map, MatchResult, OnOk, OnErr, IfErr, false};
ghost use Rattle.end_settings.specs.ConfigValue.{settings_of, side_of};
ghost use Rattle.stack_end.specs.Ends.{Call};
ghost use Rattle.stack_engine.specs.Bounds.{FewFirstLaw};
ghost use Rattle.stack_engine.specs.Events.{call_of, event_of};
ghost use Rattle.stack_engine.specs.NoteValues.{AreNotes};
ghost use Rattle.stack_engine.specs.Openings.{IsEnd, IsOfSession, KeepsMade, NamesRefusal, is_memory};
ghost use Rattle.stack_engine.specs.Pairs.{World, present, refusal, start};
ghost use Rattle.stack_engine.specs.Premise.{breaks_premise};
ghost use Rattle.stack_engine.specs.Pairs.Event.{Calls, Open};
ghost use Rattle.stack_engine.specs.Reports.{report_of, seen_entry};
ghost use Rattle.safe_machine.specs.World.Side.{Fe};

use crate::ApplyFault;
use crate::event::{self, Action, Event};
use crate::keeper::Keeper;
use crate::notes::Notes;
use crate::openings::Openings;
use crate::report::Entry;
use end_settings::{EndConfig, Side};
use octets::Milliseconds;
use stack_end::End;
use std::alloc::{Allocator, Global};

/// Both ends, and how many PDUs of each one's present incarnation are dead: made before the later of both openings.
#[derive(Drop)]
pub(crate) struct Sides<A: Allocator = Global> {
    /// The incarnations of the interlocking.
    pub(crate) il: Openings<A>,
    /// The incarnations of the field element.
    pub(crate) fe: Openings<A>,
    /// How many PDUs of the present interlocking are dead.
    pub(crate) dead_il: usize,
    /// How many PDUs of the present field element are dead.
    pub(crate) dead_fe: usize,
}

impl<A: Allocator + Copy> Sides<A> {
    ghost use Rattle.stack_engine.specs.Openings.{SideRepresents};
    ghost use Rattle.stack_engine.specs.Sides.{SidesTakeEvent, SidesRepresent, ends_at};

    /// Creates both ends, neither of which has been opened.
    pub(crate) fn new(alloc: A) -> Self
        ensures { SidesRepresent result start }
    {
        Sides {
            il: Openings::new(alloc),
            fe: Openings::new(alloc),
            dead_il: 0,
            dead_fe: 0,
        }
    }

    /// Tests an event for what is refused before memory is allocated.
    ///
    /// # Errors
    ///
    /// - `EndNotOpen` if a call is for an end that was never opened;
    /// - `BadConfig` if the settings of an opening are invalid for the side;
    /// - `Clock` if the time is before the end's last, or too great.
    pub(crate) fn admits(&self, event: &Event<'_>) -> Result<(), ApplyFault>
        // An event is admitted only if at most a refusal by the session is left; an error names the refusal
        // (`NamesRefusal`).
        ensures refusal { (w : World) → SidesRepresent self.now w
            → MatchResult result (λ _. IsOfSession (refusal (event_of event.now) w))
            (λ fault. NamesRefusal fault (refusal (event_of event.now) w)) }
        // The error is never `Memory`.
        ensures no_memory { IfErr result (λ fault. is_memory fault ≡ false) }
    {
        let openings = self.openings(event.side);
        match &event.doing {
            Action::Open { config, .. } => openings.admits_opening(event.side, config, event.time),
            Action::Call(_) => openings.admits_call(event.time),
        }
    }

    /// Returns an end with all its incarnations.
    fn openings(&self, side: Side) -> &Openings<A>
        ensures { (w : World) → SidesRepresent self.now w → SideRepresents result.now (ends_at (side_of side) w) }
    {
        match side {
            Side::Interlocking => &self.il,
            Side::FieldElement => &self.fe,
        }
    }

    /// Applies an event.
    ///
    /// # Errors
    ///
    /// The first refusal that applies; the event then has changed nothing.
    ///
    /// - `EndNotOpen` if a call is for an end that was never opened;
    /// - `BadConfig` if the settings of an opening are invalid for the side;
    /// - `Clock` if the time is before the end's last, or too great;
    /// - `Memory` if an allocation fails;
    /// - `Put` or `Init` if the session refuses the call.
    pub(crate) fn step(&mut self, alloc: A, event: &Event<'_>) -> Result<(), ApplyFault>
        requires first { FewFirstLaw }
        // An accepted event that stays within the bounds (`FewAt`) changes both ends as the world changes by it: the
        // incarnations, the joins, and the dead PDUs.
        ensures does { OnOk result (SidesTakeEvent (event_of event.now) self.old self.new) }
        // After a refused event both ends still represent every world that they did before.
        ensures unchanged { OnErr result ((w : World) → SidesRepresent self.old w → SidesRepresent self.new w) }
        // An event is accepted only if the definition has no `refusal` for it; an error is that refusal, or `Memory`.
        ensures refusal { (w : World) → SidesRepresent self.old w
            → MatchResult result (λ _. refusal (event_of event.now) w ≡ None)
            (λ fault. NamesRefusal fault (refusal (event_of event.now) w)) }
    {
        let now = event.time;
        match &event.doing {
            Action::Open { config, first_sn } => {
                self.open(alloc, event.side, *config, *first_sn, now)
            }
            Action::Call(call) => self.call(event.side, call, now),
        }
    }

    /// Calls one of the ends.
    fn call(
        &mut self,
        side: Side,
        call: &event::Call<'_>,
        now: Milliseconds,
    ) -> Result<(), ApplyFault>
        // An accepted call that stays within the bounds (`FewAt`) changes both ends as the world changes by it.
        ensures does { OnOk result (SidesTakeEvent (Calls (side_of side) (call_of call.now now)) self.old self.new) }
        // A refused call leaves both ends as they were, in every world.
        ensures unchanged { OnErr result ((w : World) → SidesRepresent self.old w → SidesRepresent self.new w) }
        // A call of a side is accepted only if there is no `refusal` for it; an error is that refusal, or `Memory`.
        ensures refusal { (w : World) → SidesRepresent self.old w
            → MatchResult result (λ _. refusal (Calls (side_of side) (call_of call.now now)) w ≡ None)
            (λ fault. NamesRefusal fault (refusal (Calls (side_of side) (call_of call.now now)) w)) }
    {
        match side {
            Side::Interlocking => self.il.call(call, now),
            Side::FieldElement => self.call_fe(call, now),
        }
    }

    /// Calls the field element. If it accepts a ConnReq in the call, it is joined to the latest interlocking that
    /// made it.
    fn call_fe(&mut self, call: &event::Call<'_>, now: Milliseconds) -> Result<(), ApplyFault>
        // An accepted call of the field element, within the bounds (`FewAt`), changes both ends as the world changes
        // by it, with the join at its first accepted ConnReq.
        ensures does { OnOk result (SidesTakeEvent (Calls Fe (call_of call.now now)) self.old self.new) }
        // A refused call of the field element changes nothing, in every world.
        ensures unchanged { OnErr result ((w : World) → SidesRepresent self.old w → SidesRepresent self.new w) }
        // A call of the field element is accepted only if there is no `refusal` for it; an error is that refusal, or
        // `Memory`.
        ensures refusal { (w : World) → SidesRepresent self.old w
            → MatchResult result (λ _. refusal (Calls Fe (call_of call.now now)) w ≡ None)
            (λ fault. NamesRefusal fault (refusal (Calls Fe (call_of call.now now)) w)) }
    {
        let had = self.fe.request().is_some();
        self.fe.call(call, now)?;
        if had {
            return Ok(());
        }
        let joined = match self.fe.request() {
            Some(octets) => self.il.latest_maker(octets),
            None => return Ok(()),
        };
        self.fe.join(joined);
        Ok(())
    }

    /// Opens an end, or opens it again. All PDUs of its peer so far become dead; of its own, none is.
    fn open(
        &mut self,
        alloc: A,
        side: Side,
        config: EndConfig,
        first_sn: u32,
        now: Milliseconds,
    ) -> Result<(), ApplyFault>
        requires first { FewFirstLaw }
        // An accepted opening adds a new incarnation, joined to no other, and marks all PDUs of the present peer as
        // dead.
        ensures does { OnOk result (SidesTakeEvent (Open (side_of side) (settings_of config) first_sn now) self.old self.new) }
        // A refused opening leaves both ends as they were, in every world.
        ensures unchanged { OnErr result ((w : World) → SidesRepresent self.old w → SidesRepresent self.new w) }
        // An opening is accepted only if there is no `refusal` for it; an error is that refusal, or `Memory`.
        ensures refusal { (w : World) → SidesRepresent self.old w
            → MatchResult result (λ _. refusal (Open (side_of side) (settings_of config) first_sn now) w ≡ None)
            (λ fault. NamesRefusal fault (refusal (Open (side_of side) (settings_of config) first_sn now) w)) }
    {
        match side {
            Side::Interlocking => {
                self.il.open(alloc, side, config, first_sn, now)?;
                self.dead_il = 0;
                self.dead_fe = self.fe.made_count();
            }
            Side::FieldElement => {
                self.fe.open(alloc, side, config, first_sn, now)?;
                self.dead_il = self.il.made_count();
                self.dead_fe = 0;
            }
        }
        Ok(())
    }

    /// Returns true if delivering a datagram to an end would break the premise at once.
    pub(crate) fn breaks_premise(&self, side: Side, datagram: &[u8]) -> bool
        ensures { (w : World) → SidesRepresent self.now w → result ≡ breaks_premise (side_of side) datagram.now w }
    {
        match side {
            Side::Interlocking => self.il.breaks(&self.fe, self.dead_fe, datagram),
            Side::FieldElement => self.fe.breaks(&self.il, self.dead_il, datagram),
        }
    }

    /// Returns the end of the present incarnation, or `None` if there is none.
    pub(crate) fn end_of(&self, side: Side) -> Option<&End<Keeper<A>, A>>
        // The end is in the state of this side's present incarnation; `None` is returned only if the side was never
        // opened.
        ensures stands { (w : World) → SidesRepresent self.now w → IsEnd result (present (side_of side) w) }
        // Its channels keep the datagrams of all PDUs of that incarnation, in order.
        ensures made { (w : World) → SidesRepresent self.now w → KeepsMade result (present (side_of side) w) }
    {
        match side {
            Side::Interlocking => self.il.end(),
            Side::FieldElement => self.fe.end(),
        }
    }

    /// Returns the number of incarnations of an end.
    pub(crate) fn incarnations(&self, side: Side) -> usize
        ensures { (w : World) → SidesRepresent self.now w → result ≡ length (report_of (side_of side) w) }
    {
        match side {
            Side::Interlocking => self.il.len(),
            Side::FieldElement => self.fe.len(),
        }
    }

    /// Returns the entry at a place, from 0, in the report of an end.
    pub(crate) fn entry(&self, side: Side, place: usize) -> Option<Entry<'_, A>>
        ensures { (w : World) → SidesRepresent self.now w
            → option_map seen_entry result ≡ slice_get (report_of (side_of side) w) place }
    {
        match side {
            Side::Interlocking => self.il.entry(place),
            Side::FieldElement => self.fe.joined_entry(place),
        }
    }

    /// Returns the notes of the last accepted event of an end's present incarnation.
    pub(crate) fn notes(&self, side: Side) -> Option<Notes<'_, A>>
        ensures { (w : World) → SidesRepresent self.now w → AreNotes result (present (side_of side) w) }
    {
        match side {
            Side::Interlocking => self.il.notes(),
            Side::FieldElement => self.fe.notes(),
        }
    }
}
