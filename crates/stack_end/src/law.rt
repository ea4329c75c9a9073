//! Laws that link what an end keeps to the whole history of the end.

ghost use Rattle.stack_end.specs.Reopening.{AgainLaw};
ghost use Rattle.stack_end.specs.Stale.{FreshLaw, TakesRequestLaw};
ghost use Rattle.stack_end.specs.StatisticsLaw.{DatagramLaw, ExpiryLaw, PartLaw};
ghost use Rattle.stack_end.specs.Timely.{TimelyLaw};
ghost use Rattle.stack_end.specs.TurnLaws.{AnyChannelLaw, LastLaw, DeterminesLaw, TurnsLaw};

/// The laws of an end. They hold of anything that an end can keep, and of every state (with the whole history) that
/// it represents. A call does nothing.
pub fn end_law()
    // If the contents of an end represent a state, the turn of a call leaves contents that represent the state after
    // that call's step. That state has made exactly the PDUs that the turn sends, each under its index on every
    // channel in order. Its application has taken the telegrams that the turn delivers.
    ensures turns { TurnsLaw }
    // On which channel a datagram comes has no effect: the turn is that of the same datagram on any other channel.
    ensures any_channel { AnyChannelLaw }
    // From what an end keeps follows whether the state is settled, how many units are unconfirmed, how many telegrams
    // are confirmed, and whether a tick changes the machine.
    ensures tells { DeterminesLaw }
    // An accepted telegram is the last of all that were put.
    ensures last { LastLaw }
{}

/// The laws of stale ends: when an end that waits for a connection need not be opened again. A call does nothing.
pub fn stale_law()
    // An end that is not stale and is in Down takes the ConnReq of a peer that was just opened, at any time and on any
    // channel: it is then in Start, and keeps the bytes of that request.
    ensures takes { TakesRequestLaw }
    // A newly opened end is not stale.
    ensures fresh { FreshLaw }
{}

/// The law of an end that is opened again. A call does nothing.
pub fn reopening_law()
    // Whatever calls an end has made since it was opened: if it is opened again, it keeps what an end newly opened with
    // the same settings on the same side keeps, and sends the same datagrams.
    ensures again { AgainLaw }
{}

/// The law of the time last confirmed. A call does nothing.
pub fn timely_law()
    // If anything is taken at a call's time, the own time last confirmed is less than T_max old after the call. It stays so
    // in further calls at that time, so this holds of a poll, too.
    ensures timely { TimelyLaw }
{}

/// The laws of the counts of an end. A call does nothing.
pub fn statistics_law()
    // Each count of a channel is the number of its datagrams since the opening with that event, modulo 2^64, whatever
    // came on the other channels.
    ensures datagrams { DatagramLaw }
    // The count of expired deferrals is the number of deferral deadlines that passed, at datagrams and at ticks, modulo
    // 2^64.
    ensures deadlines { ExpiryLaw }
    // Each count of parts is the number of those since the opening with that step of the machine, modulo 2^64. The
    // greatest age and the longest wait are those of the parts that were taken.
    ensures parts { PartLaw }
{}
