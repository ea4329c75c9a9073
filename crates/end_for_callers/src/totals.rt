//! Sums of the counts of several openings.

ghost use Rattle.std.specs.Prelude.{◌≡◌};
ghost use Rattle.end_for_callers.specs.Totals as totals;

use octets::limits::CHANNELS_MAX;
use stack_end::{
    MadeCounts, PartCounts, ReceptionCounts, RedFaultCounts, SafeFaultCounts, Statistics,
};

/// Returns the counts of no opening.
pub fn no_counts() -> Statistics
    ensures { result ≡ totals.none }
{
    Statistics {
        channels: [ReceptionCounts::none(); CHANNELS_MAX],
        expired_deferrals: 0,
        parts: PartCounts::none(),
        made: MadeCounts::none(),
        confirmed: 0,
    }
}

/// Returns the sums of two counts, modulo 2^64. An age or a wait is the greater one, a time of reception the last.
pub fn add_counts(first: &Statistics, second: &Statistics) -> Statistics
    ensures { result ≡ totals.plus first.now second.now }
{
    let [a, b, c, d] = first.channels;
    let [w, x, y, z] = second.channels;
    Statistics {
        channels: [
            receptions(a, w),
            receptions(b, x),
            receptions(c, y),
            receptions(d, z),
        ],
        expired_deferrals: first
            .expired_deferrals
            .wrapping_add(second.expired_deferrals),
        parts: parts(first.parts, second.parts),
        made: add_made_counts(first.made, second.made),
        confirmed: first.confirmed.wrapping_add(second.confirmed),
    }
}

/// Adds the counts of a channel.
fn receptions(first: ReceptionCounts, second: ReceptionCounts) -> ReceptionCounts
    ensures { result ≡ totals.add_receptions first second }
{
    ReceptionCounts {
        received: first.received.wrapping_add(second.received),
        passed: first.passed.wrapping_add(second.passed),
        deferred: first.deferred.wrapping_add(second.deferred),
        old: first.old.wrapping_add(second.old),
        repeated: first.repeated.wrapping_add(second.repeated),
        far: first.far.wrapping_add(second.far),
        full: first.full.wrapping_add(second.full),
        damaged: red_faults(first.damaged, second.damaged),
        last: second.last.or(first.last),
    }
}

/// Adds the counts of damaged datagrams, by fault.
fn red_faults(first: RedFaultCounts, second: RedFaultCounts) -> RedFaultCounts
    ensures { result ≡ totals.add_red_faults first second }
{
    RedFaultCounts {
        short: first.short.wrapping_add(second.short),
        length: first.length.wrapping_add(second.length),
        reserve: first.reserve.wrapping_add(second.reserve),
    }
}

/// Adds the counts of damaged parts, by fault.
fn safe_faults(first: SafeFaultCounts, second: SafeFaultCounts) -> SafeFaultCounts
    ensures { result ≡ totals.add_safe_faults first second }
{
    SafeFaultCounts {
        short: first.short.wrapping_add(second.short),
        length: first.length.wrapping_add(second.length),
        code: first.code.wrapping_add(second.code),
        bad_type: first.bad_type.wrapping_add(second.bad_type),
        body: first.body.wrapping_add(second.body),
    }
}

/// Adds the counts of parts.
fn parts(first: PartCounts, second: PartCounts) -> PartCounts
    ensures { result ≡ totals.add_parts first second }
{
    PartCounts {
        taken: first.taken.wrapping_add(second.taken),
        gaps: first.gaps.wrapping_add(second.gaps),
        damaged: safe_faults(first.damaged, second.damaged),
        strangers: first.strangers.wrapping_add(second.strangers),
        unopened: first.unopened.wrapping_add(second.unopened),
        far: first.far.wrapping_add(second.far),
        unrequested: first.unrequested.wrapping_add(second.unrequested),
        answered: first.answered.wrapping_add(second.answered),
        below: first.below.wrapping_add(second.below),
        oldest: first.oldest.max(second.oldest),
        longest_wait: first.longest_wait.max(second.longest_wait),
    }
}

/// Adds the counts of PDUs made.
fn add_made_counts(first: MadeCounts, second: MadeCounts) -> MadeCounts
    ensures { result ≡ totals.add_made first second }
{
    MadeCounts {
        units: first.units.wrapping_add(second.units),
        resent: first.resent.wrapping_add(second.resent),
        heartbeats: first.heartbeats.wrapping_add(second.heartbeats),
        requests: first.requests.wrapping_add(second.requests),
        answers: first.answers.wrapping_add(second.answers),
    }
}
