//! What is counted of an end in a run, modulo 2^64: by itself, and beside it.

ghost use Rattle.std.specs.Prelude.{◌≡◌};
ghost use Rattle.rasta_run.specs.Counters as counting;

use octets::limits::CHANNELS_MAX;
use safe_machine::DropCause;
use stack_end::Statistics;
use udp_channels::Failures;

/// The counts of a channel that its end does not keep.
#[derive(Clone, Copy, Debug, PartialEq, Eq)]
pub struct ChannelCounts {
    /// Datagrams sent.
    pub sent: u64,
    /// Datagrams that could not be sent.
    pub failed: u64,
    /// Datagrams whose part the safety machine dropped as damaged.
    pub damaged: u64,
    /// Datagrams whose part it dropped as that of another end.
    pub strangers: u64,
}

/// All that is counted of an end since the start of a run.
#[derive(Clone, Copy, Debug, PartialEq, Eq)]
pub struct RunCounts {
    /// What the end itself counted, summed over its openings.
    pub sums: Statistics,
    /// What is counted of each channel beside, the first one first.
    pub channels: [ChannelCounts; CHANNELS_MAX],
    /// The calls that the system refused on each channel.
    pub failures: [Failures; CHANNELS_MAX],
    /// The number of parts that ended a connection or came after its end.
    pub closing: u64,
    /// The number of telegrams put.
    pub put: u64,
    /// The number of telegrams taken.
    pub taken: u64,
}

impl RunCounts {
    /// Returns how many PDUs the safety machine did not drop.
    pub fn accepted_count(&self) -> u64
        // `accepted_count` returns the sum of the PDUs taken, those that revealed a gap, and those that ended a
        // connection or came after its end.
        ensures { result ≡ counting.accepted_count self.now }
    {
        let parts = &self.sums.parts;
        parts
            .taken
            .wrapping_add(parts.gaps)
            .wrapping_add(self.closing)
    }

    /// Returns how many PDUs the safety machine dropped.
    pub fn dropped_count(&self) -> u64
        // `dropped_count` returns the sum over the seven causes.
        ensures { result ≡ counting.dropped_count self.now }
    {
        let parts = &self.sums.parts;
        parts
            .damaged
            .total()
            .wrapping_add(parts.strangers)
            .wrapping_add(parts.unopened)
            .wrapping_add(parts.far)
            .wrapping_add(parts.unrequested)
            .wrapping_add(parts.answered)
            .wrapping_add(parts.below)
    }

    /// Returns the greatest age of a confirmed timestamp, in milliseconds; `None` if no PDU was taken.
    pub fn oldest(&self) -> Option<u64>
        // `oldest` returns the greatest age if a PDU was taken, and else `None`.
        ensures { result ≡ counting.oldest self.now }
    {
        match self.sums.parts.taken {
            0 => None,
            _ => Some(self.sums.parts.oldest),
        }
    }
}

impl ChannelCounts {
    /// Returns counts of zero.
    pub fn none() -> Self
        // In new `ChannelCounts` every count is 0.
        ensures { result ≡ counting.no_datagrams }
    {
        ChannelCounts {
            sent: 0,
            failed: 0,
            damaged: 0,
            strangers: 0,
        }
    }

    /// Counts a datagram that was to be sent, and whether it was.
    pub fn with_sent(mut self, went: bool) -> Self
        // `with_sent` adds 1 to the datagrams sent, or to those that failed, as `went` says.
        ensures { result ≡ counting.with_sent went self }
    {
        if went {
            self.sent = self.sent.wrapping_add(1);
        } else {
            self.failed = self.failed.wrapping_add(1);
        }
        self
    }

    /// Counts a part that the safety machine dropped.
    pub fn with_dropped(mut self, cause: DropCause) -> Self
        // `with_dropped` adds 1 to the damaged datagrams for a `Fault`, and to those of strangers for a
        // `Stranger`. Other causes count nothing.
        ensures { result ≡ counting.with_dropped cause self }
    {
        match cause {
            DropCause::Fault(_) => self.damaged = self.damaged.wrapping_add(1),
            DropCause::Stranger => self.strangers = self.strangers.wrapping_add(1),
            _ => {}
        }
        self
    }
}

/// Counts a datagram that was to be sent on a channel, numbered from 1.
pub fn count_sent(channels: &mut [ChannelCounts; CHANNELS_MAX], channel: usize, went: bool)
    // `count_sent` counts the datagram at its channel; a channel that no end has counts nothing.
    ensures { channels.new ≡ counting.count_sent_on channel went channels.old }
{
    if channel == 0 || channel > CHANNELS_MAX {
        return;
    }
    channels[channel - 1] = channels[channel - 1].with_sent(went);
}

/// Counts a dropped part of a channel, numbered from 1.
pub fn count_dropped(channels: &mut [ChannelCounts; CHANNELS_MAX], channel: usize, cause: DropCause)
    // `count_dropped` counts the part at its channel; a channel that no end has counts nothing.
    ensures { channels.new ≡ counting.count_dropped_on channel cause channels.old }
{
    if channel == 0 || channel > CHANNELS_MAX {
        return;
    }
    channels[channel - 1] = channels[channel - 1].with_dropped(cause);
}
