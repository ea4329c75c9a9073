//! What each incarnation of an end put and took.

ghost use Rattle.std.specs.Prelude.{◌≡◌};
ghost use Rattle.stack_engine.specs.Reports.{place_of, seen_entry};

use crate::telegrams::Telegrams;
use std::alloc::{Allocator, Global};

/// One incarnation of an end, in the report of a pair.
#[derive(Clone, Copy)]
pub struct Entry<'a, A: Allocator = Global> {
    /// The telegrams that its application put and that were accepted, in order.
    pub put: &'a Telegrams<A>,
    /// The telegrams that its application took, in order.
    pub taken: &'a Telegrams<A>,
    /// For a field element the place, from 0, of the interlocking incarnation whose ConnReq it accepted; for an
    /// interlocking `None`.
    pub joined: Option<usize>,
}

/// Returns the entry of an incarnation that put and took these telegrams, and is joined to the one of a number. The
/// definitions number incarnations from 1.
pub(crate) fn report_on<'a, A: Allocator>(
    put: &'a Telegrams<A>,
    taken: &'a Telegrams<A>,
    joined: Option<usize>,
) -> Entry<'a, A>
    ensures { seen_entry result ≡ record { put = put.now.texts; taken = taken.now.texts; joined = place_of joined } }
{
    Entry {
        put,
        taken,
        joined: match joined {
            Some(number) => Some(number.saturating_sub(1)),
            None => None,
        },
    }
}
