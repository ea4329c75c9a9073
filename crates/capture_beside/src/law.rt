//! The law of a way: what holds of the counts after every datagram.

ghost use Rattle.capture_beside.specs.Laws.{ArrivalsAddUp, ClosingAddsUp, LimitsAre};

/// States the law of a way. Calling it does nothing.
pub fn counting_law()
    // If each recorded datagram is counted once or waits, so it is after one more, for fewer than 2^64 - 1 of them.
    ensures arrivals { ArrivalsAddUp }

    // If all that wait are given up, each recorded datagram is counted once.
    ensures closing { ClosingAddsUp }

    // The constants of pairing have the values in `LimitsAre`.
    ensures limits { LimitsAre }
{}
