//! The law of a capture: what holds for every list of numbers and of datagrams.

ghost use Rattle.capture.specs.Laws.{EachCounted, EachOnce, LimitsAre, SumsAddUp};

/// States the laws of a capture. Calling it does nothing.
pub fn sums_law()
    // In a window, each number up to the newest came in order, came late, or is missing, for lists that reach fewer
    // than 2^64 numbers.
    ensures once { EachOnce }

    // In a window, each number that came is counted once: in order, late, a repeat, differing or stale.
    ensures counted { EachCounted }

    // For every capture of fewer than 2^64 - 1 datagrams, the sums over all connections and the damaged datagrams add
    // up to the number of datagrams.
    ensures adds_up { SumsAddUp }

    // The limits of this crate have the values in `LimitsAre`.
    ensures limits { LimitsAre }
{}
