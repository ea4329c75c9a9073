//! The counts of an end, as C sees them.

ghost use Rattle.std.specs.Prelude.{◌≡◌};
ghost use Rattle.bekwidas.specs.Statistics as plain;

use octets::limits::CHANNELS_MAX;
use stack_end::{ReceptionCounts, RedFaultCounts, SafeFaultCounts, Statistics};

/// The datagrams that came on one channel since the opening.
#[repr(C)]
#[derive(Drop)]
pub struct PlainReceptions {
    /// All that came, those to a closed end among them.
    pub received: u64,
    /// Those with the expected number.
    pub passed: u64,
    /// Those that came early and were deferred.
    pub deferred: u64,
    /// Those whose number is below the expected one.
    pub old: u64,
    /// Those that came early, with a number that was deferred already.
    pub repeated: u64,
    /// Those whose number is too far ahead.
    pub far: u64,
    /// Those that came early while every place was taken.
    pub full: u64,
    /// Those without a redundancy PDU.
    pub damaged: u64,
    /// The own time of the last redundancy PDU that was not too far ahead, in milliseconds, or 2^64 - 1 if none came.
    pub last: u64,
}

/// The datagrams of one channel without a redundancy PDU, by fault.
#[repr(C)]
#[derive(Drop)]
pub struct PlainRedFaults {
    /// Those with fewer bytes than a header.
    pub short: u64,
    /// Those whose length field differs from the number of bytes, or that are too long.
    pub length: u64,
    /// Those whose reserve is not zero.
    pub reserve: u64,
}

/// The parts without a safety PDU that has a valid safety code, by fault.
#[repr(C)]
#[derive(Drop)]
pub struct PlainSafeFaults {
    /// Those with fewer bytes than a header and the safety code need.
    pub short: u64,
    /// Those whose length field differs from the number of bytes, or that are too long.
    pub length: u64,
    /// Those whose safety code is not that of their bytes.
    pub code: u64,
    /// Those whose PDU type is not one of the eight.
    pub bad_type: u64,
    /// Those whose body does not fit the PDU type.
    pub body: u64,
}

/// All that an end has counted since its opening.
#[repr(C)]
#[derive(Drop)]
pub struct PlainStatistics {
    /// The datagrams that came, by channel, that of number 1 first.
    pub channels: [PlainReceptions; CHANNELS_MAX],
    /// PDUs that the safety machine took.
    pub taken: u64,
    /// PDUs that revealed a gap.
    pub gaps: u64,
    /// Dropped: no safety PDU with a valid safety code.
    pub damaged: u64,
    /// Dropped: of another receiver or sender.
    pub strangers: u64,
    /// Dropped: no ConnReq, while the end waits for one.
    pub unopened: u64,
    /// Dropped: the sequence number is too far ahead.
    pub far: u64,
    /// Dropped: not the RetrResp that the end waits for.
    pub unrequested: u64,
    /// Dropped: a RetrReq that was answered before.
    pub answered: u64,
    /// Dropped: a RetrReq that confirms less than was confirmed before.
    pub below: u64,
    /// The greatest age of a timestamp that a PDU confirmed when it was taken, in milliseconds.
    pub oldest: u64,
    /// The longest time without a confirmation before a PDU was taken, in milliseconds.
    pub longest_wait: u64,
    /// Units sent for the first time.
    pub units: u64,
    /// Units sent again.
    pub resent: u64,
    /// Heartbeats sent.
    pub heartbeats: u64,
    /// Retransmissions requested.
    pub requests: u64,
    /// Retransmissions granted.
    pub answers: u64,
    /// Units that the peer has confirmed.
    pub confirmed: u64,
    /// How often T_seq passed while parts were deferred.
    pub expired_deferrals: u64,
    /// The damaged datagrams by channel, that of number 1 first.
    pub channel_faults: [PlainRedFaults; CHANNELS_MAX],
    /// The damaged parts.
    pub part_faults: PlainSafeFaults,
}

/// Returns the counts of a channel in numbers.
fn plain_receptions(counts: ReceptionCounts) -> PlainReceptions
    ensures { result ≡ plain.receptions_of counts }
{
    let last = match counts.last {
        Some(time) => time,
        None => u64::MAX,
    };
    PlainReceptions {
        received: counts.received,
        passed: counts.passed,
        deferred: counts.deferred,
        old: counts.old,
        repeated: counts.repeated,
        far: counts.far,
        full: counts.full,
        damaged: counts.damaged.total(),
        last,
    }
}

/// Returns the counts of a channel's damaged datagrams in numbers.
fn plain_red_faults(counts: RedFaultCounts) -> PlainRedFaults
    ensures { result ≡ plain.red_faults_of counts }
{
    PlainRedFaults {
        short: counts.short,
        length: counts.length,
        reserve: counts.reserve,
    }
}

/// Returns the counts of damaged parts in numbers.
fn plain_safe_faults(counts: SafeFaultCounts) -> PlainSafeFaults
    ensures { result ≡ plain.safe_faults_of counts }
{
    PlainSafeFaults {
        short: counts.short,
        length: counts.length,
        code: counts.code,
        bad_type: counts.bad_type,
        body: counts.body,
    }
}

/// Returns all counts of an end in numbers.
pub(crate) fn plain_statistics(counts: Statistics) -> PlainStatistics
    ensures { result ≡ plain.statistics_in counts }
{
    let [first, second, third, fourth] = counts.channels;
    let parts = counts.parts;
    let made = counts.made;
    PlainStatistics {
        channels: [
            plain_receptions(first),
            plain_receptions(second),
            plain_receptions(third),
            plain_receptions(fourth),
        ],
        taken: parts.taken,
        gaps: parts.gaps,
        damaged: parts.damaged.total(),
        strangers: parts.strangers,
        unopened: parts.unopened,
        far: parts.far,
        unrequested: parts.unrequested,
        answered: parts.answered,
        below: parts.below,
        oldest: parts.oldest,
        longest_wait: parts.longest_wait,
        units: made.units,
        resent: made.resent,
        heartbeats: made.heartbeats,
        requests: made.requests,
        answers: made.answers,
        confirmed: counts.confirmed,
        expired_deferrals: counts.expired_deferrals,
        channel_faults: [
            plain_red_faults(first.damaged),
            plain_red_faults(second.damaged),
            plain_red_faults(third.damaged),
            plain_red_faults(fourth.damaged),
        ],
        part_faults: plain_safe_faults(parts.damaged),
    }
}
