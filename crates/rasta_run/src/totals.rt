//! The sums of what an end counted in its openings: an end that opens again counts from 0.

ghost use Rattle.std.specs.Prelude.{◌≡◌};
ghost use Rattle.rasta_run.specs.Totals as totals;

use octets::limits::CHANNELS_MAX;
use stack_end::{
    MadeCounts, PartCounts, ReceptionCounts, RedFaultCounts, SafeFaultCounts, Statistics,
};

/// The sums of an end's counts over openings, modulo 2^64. An age or a wait is the greatest, a time of reception the
/// last.
#[derive(Clone, Copy, Debug, PartialEq, Eq)]
pub struct Totals {
    /// The sums.
    pub sums: Statistics,
}

impl Totals {
    /// Returns the sums over no opening.
    pub fn none() -> Self
        // Every sum is 0.
        ensures { result.sums ≡ totals.none }
    {
        Totals {
            sums: Statistics {
                channels: [ReceptionCounts::none(); CHANNELS_MAX],
                expired_deferrals: 0,
                parts: PartCounts::none(),
                made: MadeCounts::none(),
                confirmed: 0,
            },
        }
    }

    /// Adds the counts of one opening more.
    pub fn plus(&self, counts: &Statistics) -> Self
        // Each count is added to its sum, and those of each channel to its own; ages and waits are the greater ones.
        ensures { result.sums ≡ totals.plus self.now.sums counts.now }
    {
        let [first, second, third, fourth] = self.sums.channels;
        let [one, two, three, four] = counts.channels;
        Totals {
            sums: Statistics {
                channels: [
                    receptions(first, one),
                    receptions(second, two),
                    receptions(third, three),
                    receptions(fourth, four),
                ],
                expired_deferrals: self
                    .sums
                    .expired_deferrals
                    .wrapping_add(counts.expired_deferrals),
                parts: parts(self.sums.parts, counts.parts),
                made: add_made_counts(self.sums.made, counts.made),
                confirmed: self.sums.confirmed.wrapping_add(counts.confirmed),
            },
        }
    }
}

/// Returns how many datagrams were received on all channels, modulo 2^64.
pub fn received_on(sums: &Statistics) -> u64
    // `received_on` returns the sum of the datagrams received over the four channels.
    ensures { result ≡ totals.received_count sums.now.channels }
{
    let [first, second, third, fourth] = sums.channels;
    first
        .received
        .wrapping_add(second.received)
        .wrapping_add(third.received)
        .wrapping_add(fourth.received)
}

/// Adds the counts of a channel.
fn receptions(first: ReceptionCounts, second: ReceptionCounts) -> ReceptionCounts
    ensures { result ≡ totals.add_receptions first second }
{
    ReceptionCounts {
        received: first.received.wrapping_add(second.received),
        passed: first.passed.wrapping_add(second.passed),
        deferred: first.deferred.wrapping_add(second.deferred),
        old: first.old.wrapping_add(second.old),
        repeated: first.repeated.wrapping_add(second.repeated),
        far: first.far.wrapping_add(second.far),
        full: first.full.wrapping_add(second.full),
        damaged: red_faults(first.damaged, second.damaged),
        last: second.last.or(first.last),
    }
}

/// Adds the counts of damaged datagrams, by fault.
fn red_faults(first: RedFaultCounts, second: RedFaultCounts) -> RedFaultCounts
    ensures { result ≡ totals.add_red_faults first second }
{
    RedFaultCounts {
        short: first.short.wrapping_add(second.short),
        length: first.length.wrapping_add(second.length),
        reserve: first.reserve.wrapping_add(second.reserve),
    }
}

/// Adds the counts of damaged parts, by fault.
fn safe_faults(first: SafeFaultCounts, second: SafeFaultCounts) -> SafeFaultCounts
    ensures { result ≡ totals.add_safe_faults first second }
{
    SafeFaultCounts {
        short: first.short.wrapping_add(second.short),
        length: first.length.wrapping_add(second.length),
        code: first.code.wrapping_add(second.code),
        bad_type: first.bad_type.wrapping_add(second.bad_type),
        body: first.body.wrapping_add(second.body),
    }
}

/// Adds the counts of parts.
fn parts(first: PartCounts, second: PartCounts) -> PartCounts
    ensures { result ≡ totals.add_parts first second }
{
    PartCounts {
        taken: first.taken.wrapping_add(second.taken),
        gaps: first.gaps.wrapping_add(second.gaps),
        damaged: safe_faults(first.damaged, second.damaged),
        strangers: first.strangers.wrapping_add(second.strangers),
        unopened: first.unopened.wrapping_add(second.unopened),
        far: first.far.wrapping_add(second.far),
        unrequested: first.unrequested.wrapping_add(second.unrequested),
        answered: first.answered.wrapping_add(second.answered),
        below: first.below.wrapping_add(second.below),
        oldest: first.oldest.max(second.oldest),
        longest_wait: first.longest_wait.max(second.longest_wait),
    }
}

/// Adds the counts of PDUs made.
fn add_made_counts(first: MadeCounts, second: MadeCounts) -> MadeCounts
    ensures { result ≡ totals.add_made first second }
{
    MadeCounts {
        units: first.units.wrapping_add(second.units),
        resent: first.resent.wrapping_add(second.resent),
        heartbeats: first.heartbeats.wrapping_add(second.heartbeats),
        requests: first.requests.wrapping_add(second.requests),
        answers: first.answers.wrapping_add(second.answers),
    }
}
