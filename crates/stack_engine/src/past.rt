//! What is kept of an earlier incarnation of an end.

ghost use Rattle.std.specs.Prelude.{◌≡◌};
ghost use Rattle.end_settings.specs.EndSettings.{rule_of};
ghost use Rattle.stack_end.specs.Ends.{EndState};
ghost use Rattle.stack_engine.specs.Incarnations.{IncarnationRepresents, PastRepresents};
ghost use Rattle.stack_engine.specs.Pairs.{has_made};
ghost use Rattle.stack_engine.specs.Reports.{joined_entry, seen_entry};

use crate::incarnation::Incarnation;
use crate::keeper::Keeper;
use crate::report::{Entry, report_on};
use crate::telegrams::Telegrams;
use std::alloc::{Allocator, Global};
use std::mem;

/// An incarnation without its end: all PDUs that it made, and all telegrams that were put and taken.
#[derive(Drop)]
pub(crate) struct Past<A: Allocator = Global> {
    /// The channels of the end that there was, with what it sent.
    pub(crate) keeper: Keeper<A>,
    /// The telegrams put, in order.
    pub(crate) put: Telegrams<A>,
    /// The telegrams taken, in order.
    pub(crate) taken: Telegrams<A>,
    /// For a field element the number, from 1, of the interlocking incarnation whose ConnReq it accepted.
    pub(crate) joined: Option<usize>,
}

impl<A: Allocator + Copy> Past<A> {
    /// Drops the end of an incarnation, and all room for more.
    pub(crate) fn of(incarnation: Incarnation<A>, alloc: A) -> Self
        // All that the incarnation made, put and took is kept.
        ensures stands { (x : EndState) → IncarnationRepresents incarnation x → PastRepresents result x }
        // It is joined as the incarnation was.
        ensures joined { result.joined ≡ incarnation.joined }
    {
        let mut last = incarnation;
        let keeper = mem::replace(last.end.channels(), Keeper::new(alloc));
        let put = mem::replace(&mut last.put, Telegrams::<A>::new(alloc));
        let taken = mem::replace(&mut last.taken, Telegrams::<A>::new(alloc));
        let mut past = Past {
            keeper,
            put,
            taken,
            joined: last.joined,
        };
        past.keeper.shrink();
        past.put.shrink();
        past.taken.shrink();
        past
    }

    /// Returns true if it made a PDU of these bytes.
    pub(crate) fn has_made(&self, part: &[u8]) -> bool
        ensures { (x : EndState) → PastRepresents self.now x → result ≡ has_made (rule_of x.settings) part.now x.machine.made }
    {
        self.keeper.has_part(0, part)
    }

    /// Returns its report entry.
    pub(crate) fn entry(&self) -> Entry<'_, A>
        ensures { seen_entry result ≡ joined_entry self.now }
    {
        report_on(&self.put, &self.taken, self.joined)
    }
}
