//! The promises of a pair, for two programs.

ghost use Rattle.end_for_callers.specs.Calls.{StationValue};
ghost use Rattle.station_pair.specs.Instances.{Instances};
ghost use Rattle.station_pair.specs.Law.{FollowsLaw, PromisesLaw, SessionLaw};
ghost use Rattle.station_pair.specs.Network.{NetworkLaw};

use red_layer::order_law;
use stack_end::end_law;
use stack_engine::pair_law;

/// The laws of two programs. A call does nothing.
pub fn station_law()
    // For every list of calls of two programs, the stations represent the ends of a pair to which the calls happened
    // as events, and none of these is refused (`Follows`). A side must be opened again no earlier than its last call.
    ensures follows { FollowsLaw }
    // If also the datagrams that arrive are genuine: the telegrams that `take` returned at a station, then those that
    // wait for it, are a prefix of those put at the joined station, in both directions (`GivesBeginnings`). At a
    // station that is settled, everything put was returned or waits at the other, unless a telegram was lost. What is
    // taken is fresh.
    ensures promises { PromisesLaw }
    // Each side is opened once, the field element first, both with one code length. If all datagrams that arrive were
    // returned before by `next_datagram` of the other side, whole, in any order and any number of times, they are
    // genuine.
    ensures network { NetworkLaw }
    // Of two such programs, the telegrams that `take` returned at a side, then those that wait for it, are a prefix
    // of those put at the other. If a side is settled, everything put there was returned or waits at the other,
    // unless a telegram was lost (`Agree`).
    ensures session { SessionLaw }
    // A telegram that was made up, skipped or returned twice makes the session promise false, in either direction; so
    // does one that is missing although the side is settled.
    ensures instances { (s : StationValue) → Instances s }
{
    order_law();
    end_law();
    pair_law();
}
