//! One end with all its incarnations.

ghost use Rattle.std.specs.Prelude.{◌≡◌, ◌≤◌, ◌^◌, true, false, List, [], ◌∷◌, length, reverse, slice_get, option_map, None, MatchResult, OnOk, OnErr, IfErr};
ghost use Rattle.octets.specs.declared.limits.TheConstants.{TIME_MAX};
ghost use Rattle.end_settings.specs.EndSettings.{are_fit};
ghost use Rattle.end_settings.specs.ConfigValue.{settings_of, side_of};
ghost use Rattle.stack_end.specs.Ends.{Call, EndState, opened_end, time_of};
ghost use Rattle.stack_engine.specs.Bounds.{FewFirst};
ghost use Rattle.stack_engine.specs.Premise.{breaks_at};
ghost use Rattle.stack_engine.specs.Events.{call_of};
ghost use Rattle.stack_engine.specs.Joins.{joins_of, join_latest, request_in};
ghost use Rattle.stack_engine.specs.Openings.{EarlierRepresent, IsOfSession, is_memory};
ghost use Rattle.stack_engine.specs.Pairs.{call_refusal, latest, latest_maker, made_of, open_refusal};
ghost use Rattle.stack_engine.specs.Reports.{entry_of, incarnations_of, joined_entry, past_of, seen_entry};

use crate::incarnation::Incarnation;
use crate::keeper::Keeper;
use crate::notes::Notes;
use crate::past::Past;
use crate::report::Entry;
use crate::{ApplyFault, event};
use end_settings::{EndConfig, Side};
use octets::Milliseconds;
use octets::limits::TIME_MAX;
use stack_end::End;
use std::alloc::{Allocator, Global};

/// The incarnations of one end: the present one, and what is kept of the earlier ones in the order of their opening.
#[derive(Drop)]
pub(crate) struct Openings<A: Allocator = Global> {
    /// The present incarnation, if the end was ever opened.
    pub(crate) present: Option<Incarnation<A>>,
    /// The earlier ones, the first one first.
    pub(crate) before: Vec<Past<A>, A>,
}

impl<A: Allocator + Copy> Openings<A> {
    ghost use Rattle.stack_engine.specs.Openings.{IsOpenAt, NamesRefusal, SideTakesCall, SideRepresents, IsEnd, KeepsMade, breaks_with, live_in};
    ghost use Rattle.stack_engine.specs.NoteValues.{AreNotes};

    /// Creates an end that was never opened.
    pub(crate) fn new(alloc: A) -> Self
        // A new end has no incarnations.
        ensures stands { SideRepresents result [] }
        // So none is joined to any other: the list of joins is empty.
        ensures joins { joins_of result ≡ [] }
    {
        Openings {
            present: None,
            before: Vec::new(alloc),
        }
    }

    /// Tests a call at this time for what is refused before the session decides.
    ///
    /// # Errors
    ///
    /// - `EndNotOpen` if the end was never opened;
    /// - `Clock` if the time is before its last, or after 2^62 ms.
    pub(crate) fn admits_call(&self, now: Milliseconds) -> Result<(), ApplyFault>
        // A call at this time is admitted only if at most a refusal by the session is left; an error names the
        // refusal (`NamesRefusal`).
        ensures refusal { (xs : List EndState) (c : Call) → SideRepresents self.now xs → time_of c ≡ now
            → MatchResult result (λ _. IsOfSession (call_refusal c (latest xs)))
            (λ fault. NamesRefusal fault (call_refusal c (latest xs))) }
        // If a call is admitted, the end was opened, and the time is neither before its last nor after 2^62 ms.
        ensures open { OnOk result (IsOpenAt now self.now) }
        // Testing a call never returns `Memory`.
        ensures no_memory { IfErr result (λ fault. is_memory fault ≡ false) }
    {
        match &self.present {
            None => Err(ApplyFault::EndNotOpen),
            Some(present) if now < present.time || now > TIME_MAX => Err(ApplyFault::Clock),
            Some(_) => Ok(()),
        }
    }

    /// Calls the present incarnation.
    ///
    /// # Errors
    ///
    /// - `EndNotOpen` if the end was never opened;
    /// - `Clock` if the time is before its last, or after 2^62 ms;
    /// - `Memory` if an allocation fails;
    /// - `Put` or `Init` if the session refuses the call, with its fault.
    pub(crate) fn call(
        &mut self,
        call: &event::Call<'_>,
        now: Milliseconds,
    ) -> Result<(), ApplyFault>
        // After an accepted call within the bounds (`FewMore`), the present incarnation represents the state after
        // the call's step; the earlier ones are as before.
        ensures does { OnOk result (SideTakesCall (call_of call.now now) self.old self.new) }
        // After a refused call all incarnations represent the same states as before.
        ensures unchanged { OnErr result ((xs : List EndState) → SideRepresents self.old xs → SideRepresents self.new xs) }
        // A call changes no join.
        ensures joins { joins_of self.new ≡ joins_of self.old }
        // A call is accepted only if the present state has no refusal for it; an error is that refusal, or `Memory`.
        ensures refusal { (xs : List EndState) → SideRepresents self.old xs
            → MatchResult result (λ _. call_refusal (call_of call.now now) (latest xs) ≡ None)
            (λ fault. NamesRefusal fault (call_refusal (call_of call.now now) (latest xs))) }
    {
        self.admits_call(now)?;
        let Some(present) = &mut self.present else {
            return Err(ApplyFault::EndNotOpen);
        };
        let Ok(()) = present.reserve_for(call) else {
            return Err(ApplyFault::Memory);
        };
        present.call(call, now)
    }

    /// Tests an opening with these settings at this time.
    ///
    /// # Errors
    ///
    /// - `BadConfig` if the settings are invalid for this side;
    /// - `Clock` if the time is before that of the end's last event, or after 2^62 ms.
    pub(crate) fn admits_opening(
        &self,
        side: Side,
        config: &EndConfig,
        now: Milliseconds,
    ) -> Result<(), ApplyFault>
        // An opening is admitted only if there is no refusal for it; an error names that refusal (`NamesRefusal`).
        ensures refusal { (xs : List EndState) → SideRepresents self.now xs
            → MatchResult result (λ _. open_refusal (side_of side) (settings_of config.now) now (latest xs) ≡ None)
            (λ fault. NamesRefusal fault (open_refusal (side_of side) (settings_of config.now) now (latest xs))) }
        // If an opening is admitted, its settings fit the side.
        ensures fit { OnOk result (are_fit (side_of side) (settings_of config.now) ≡ true) }
        // If an opening is admitted, its time is at most 2^62 ms.
        ensures now { OnOk result (now ≤ TIME_MAX) }
        // Testing an opening never returns `Memory`.
        ensures no_memory { IfErr result (λ fault. is_memory fault ≡ false) }
    {
        if !config.is_fit(side) {
            return Err(ApplyFault::BadConfig);
        }
        let last = match &self.present {
            Some(present) => present.time,
            None => 0,
        };
        if now < last || now > TIME_MAX {
            return Err(ApplyFault::Clock);
        }
        Ok(())
    }

    /// Opens the end, or opens it again.
    ///
    /// # Errors
    ///
    /// - `BadConfig` if the settings are invalid for this side;
    /// - `Clock` if the time is before that of the end's last event, or after 2^62 ms;
    /// - `Memory` if an allocation fails.
    pub(crate) fn open(
        &mut self,
        alloc: A,
        side: Side,
        config: EndConfig,
        first_sn: u32,
        now: Milliseconds,
    ) -> Result<(), ApplyFault>
        requires few { are_fit (side_of side) (settings_of config) ≡ true
            → FewFirst (opened_end side config first_sn now) }
        // An accepted opening adds an incarnation that represents the opened end; what was present becomes the latest
        // of the earlier ones.
        ensures does { OnOk result ((xs : List EndState) → SideRepresents self.old xs
            → SideRepresents self.new (opened_end side config first_sn now ∷ xs)) }
        // After a refused opening all incarnations represent the same states as before.
        ensures unchanged { OnErr result ((xs : List EndState) → SideRepresents self.old xs → SideRepresents self.new xs) }
        // The new incarnation is joined to no other; the earlier ones are joined as before.
        ensures joins { OnOk result ((xs : List EndState) → SideRepresents self.old xs
            → joins_of self.new ≡ None ∷ joins_of self.old) }
        // A refused opening changes no join.
        ensures same_joins { OnErr result (joins_of self.new ≡ joins_of self.old) }
        // An opening is accepted only if there is no refusal for it; an error is that refusal, or `Memory`.
        ensures refusal { (xs : List EndState) → SideRepresents self.old xs
            → MatchResult result (λ _. open_refusal (side_of side) (settings_of config) now (latest xs) ≡ None)
            (λ fault. NamesRefusal fault (open_refusal (side_of side) (settings_of config) now (latest xs))) }
    {
        self.admits_opening(side, &config, now)?;
        let Ok(()) = self.before.try_reserve(1) else {
            return Err(ApplyFault::Memory);
        };
        let Ok(opened) = Incarnation::open(alloc, config, side, first_sn, now) else {
            return Err(ApplyFault::Memory);
        };
        if let Some(earlier) = self.present.replace(opened) {
            self.before.push_reserved(Past::of(earlier, alloc));
        }
        Ok(())
    }

    /// Returns the bytes of the ConnReq that the present incarnation accepted.
    pub(crate) fn request(&self) -> Option<&[u8]>
        ensures { (xs : List EndState) → SideRepresents self.now xs
            → option_map (λ octets. octets.now) result ≡ request_in (latest xs) }
    {
        match &self.present {
            Some(present) => present.request(),
            None => None,
        }
    }

    /// Joins the present incarnation to that of the peer with this number.
    pub(crate) fn join(&mut self, number: Option<usize>)
        // Joining changes no state.
        ensures stands { (xs : List EndState) → SideRepresents self.old xs → SideRepresents self.new xs }
        // The present incarnation is now joined to `number`; the earlier ones are joined as before.
        ensures joins { joins_of self.new ≡ join_latest number (joins_of self.old) }
    {
        if let Some(present) = &mut self.present {
            present.joined = number;
        }
    }

    /// Returns the number, from 1, of the latest incarnation that made a PDU of these bytes.
    pub(crate) fn latest_maker(&self, octets: &[u8]) -> Option<usize>
        ensures { (xs : List EndState) → SideRepresents self.now xs → result ≡ latest_maker octets.now xs }
    {
        match &self.present {
            Some(present) if present.has_made(0, octets) => Some(self.before.len() + 1),
            Some(_) => latest_maker_of(&self.before, octets),
            None => None,
        }
    }

    /// Returns the report entry of the incarnation at a place, from 0, as one that is joined to no other.
    pub(crate) fn entry(&self, place: usize) -> Option<Entry<'_, A>>
        ensures { option_map seen_entry result
            ≡ option_map (entry_of None) (slice_get (incarnations_of self.now) place) }
    {
        match self.joined_entry(place) {
            Some(entry) => Some(Entry {
                put: entry.put,
                taken: entry.taken,
                joined: None,
            }),
            None => None,
        }
    }

    /// Returns the report entry of the incarnation at a place, from 0, with the place of the one that it is joined
    /// to.
    pub(crate) fn joined_entry(&self, place: usize) -> Option<Entry<'_, A>>
        ensures { option_map seen_entry result ≡ option_map joined_entry (slice_get (incarnations_of self.now) place) }
    {
        if place == self.before.len() {
            return self.present_entry();
        }
        self.earlier_entry(place)
    }

    /// Returns the report entry of the incarnation at a place among the earlier ones.
    fn earlier_entry(&self, place: usize) -> Option<Entry<'_, A>>
        ensures { option_map seen_entry result ≡ option_map joined_entry (slice_get self.now.before.items place) }
    {
        match self.earlier(place) {
            Some(past) => Some(past.entry()),
            None => None,
        }
    }

    /// Returns the report entry of the present incarnation.
    fn present_entry(&self) -> Option<Entry<'_, A>>
        ensures { option_map seen_entry result ≡ option_map joined_entry (option_map past_of self.now.present) }
    {
        match &self.present {
            Some(present) => Some(present.entry()),
            None => None,
        }
    }

    /// Returns the incarnation at a place among the earlier ones.
    fn earlier(&self, place: usize) -> Option<&Past<A>>
        ensures { option_map (λ i. i.now) result ≡ slice_get self.now.before.items place }
    {
        if place < self.before.len() {
            return Some(&self.before[place]);
        }
        None
    }

    /// Returns the number of incarnations.
    pub(crate) fn len(&self) -> usize
        ensures { result ≡ length (incarnations_of self.now) }
    {
        match &self.present {
            Some(_) => self.before.len() + 1,
            None => self.before.len(),
        }
    }

    /// Returns the notes of the last accepted event of the present incarnation.
    pub(crate) fn notes(&self) -> Option<Notes<'_, A>>
        ensures { (xs : List EndState) → SideRepresents self.now xs → AreNotes result (latest xs) }
    {
        match &self.present {
            Some(present) => Some(present.notes()),
            None => None,
        }
    }

    /// Returns the number of PDUs that the present incarnation made.
    pub(crate) fn made_count(&self) -> usize
        ensures { (xs : List EndState) → SideRepresents self.now xs → result ≡ length (made_of (latest xs)) }
    {
        match &self.present {
            Some(present) => present.made_count(),
            None => 0,
        }
    }

    /// Returns true if the present incarnation made this part under a code of `code` bytes, not counting its first
    /// `dead` PDUs.
    fn has_live(&self, code: usize, dead: usize, part: &[u8]) -> bool
        ensures { (xs : List EndState) → SideRepresents self.now xs → result ≡ live_in code (latest xs) dead part.now }
    {
        match &self.present {
            Some(present) => present.code_octets() == code && present.has_made(dead, part),
            None => false,
        }
    }

    /// Returns true if this part would break the premise: the present incarnation is asked about it, and it is not a
    /// live PDU of the peer.
    fn breaks_by(&self, peer: &Openings<A>, dead: usize, part: &[u8]) -> bool
        ensures { (xs ys : List EndState) → SideRepresents self.now xs → SideRepresents peer.now ys
            → result ≡ breaks_with (latest xs) (latest ys) dead part.now }
    {
        match &self.present {
            Some(present) => {
                present.is_asked(part) && !peer.has_live(present.code_octets(), dead, part)
            }
            None => false,
        }
    }

    /// Returns true if delivering a datagram would break the premise at once. The peer's first `dead` PDUs are dead.
    pub(crate) fn breaks(&self, peer: &Openings<A>, dead: usize, datagram: &[u8]) -> bool
        ensures { (xs ys : List EndState) → SideRepresents self.now xs → SideRepresents peer.now ys
            → result ≡ breaks_at (latest xs) (latest ys) dead datagram.now }
    {
        match red_layer::pdu::decode(datagram) {
            Ok(pdu) => self.breaks_by(peer, dead, pdu.upper),
            Err(_) => false,
        }
    }

    /// Returns the end of the present incarnation, or `None` if there is none.
    pub(crate) fn end(&self) -> Option<&End<Keeper<A>, A>>
        // The end is in the present state; `None` is returned only if the end was never opened.
        ensures stands { (xs : List EndState) → SideRepresents self.now xs → IsEnd result (latest xs) }
        // Its channels keep the datagrams of all PDUs of the present state, in order.
        ensures made { (xs : List EndState) → SideRepresents self.now xs → KeepsMade result (latest xs) }
    {
        match &self.present {
            Some(present) => Some(&present.end),
            None => None,
        }
    }
}

/// Returns the number, from 1, of the latest of these incarnations that made a PDU of these bytes. The first opened
/// one comes first.
fn latest_maker_of<A: Allocator + Copy>(incarnations: &[Past<A>], octets: &[u8]) -> Option<usize>
    ensures { (xs : List EndState) → EarlierRepresent (reverse incarnations.now) xs → result ≡ latest_maker octets.now xs }
{
    let mut number = incarnations.len();
    while number > 0 {
        if incarnations[number - 1].has_made(octets) {
            return Some(number);
        }
        number -= 1;
    }
    None
}
