//! Channels whose calls the system refuses.

ghost use Rattle.std.specs.Prelude.{◌≡◌};
ghost use Rattle.rasta_run.specs.ChannelFailures as failing;
ghost use Rattle.stack_end.specs.EndValue.{channels_of};

use crate::notices::Notice;
use crate::turns::Actor;
use octets::Milliseconds;
use udp_channels::{CallFault, FailedCalls, Failures, UdpChannels};

/// A kind of call of a channel.
#[derive(Clone, Copy, Debug, PartialEq, Eq)]
pub enum Call {
    /// A datagram is sent.
    Send,
    /// A datagram is asked for.
    Receive,
}

/// Whether the calls of one kind fail on a channel.
#[derive(Clone, Copy, Debug, PartialEq, Eq)]
pub struct CallFailures {
    /// How many calls had succeeded when one was last found failed; `None` if each turn makes one.
    pub done: Option<u64>,
    /// How many calls had failed then.
    pub failed: u64,
    /// When that was, in milliseconds.
    pub at: Milliseconds,
    /// How many had failed before they began to fail.
    pub before: u64,
    /// Whether it was logged that they fail.
    pub is_failing: bool,
}

impl CallFailures {
    /// Returns that no call was made and none has failed.
    pub fn none(now: Milliseconds) -> Self
        // In `none` no call has succeeded or failed.
        ensures { result ≡ failing.new_failures now }
    {
        CallFailures {
            done: None,
            failed: 0,
            at: now,
            before: 0,
            is_failing: false,
        }
    }

    /// Compares how many calls succeeded, if not every turn makes one, and how many failed, and returns the change to
    /// be logged of a channel, numbered from 1.
    pub fn look(
        &mut self,
        call: Call,
        done: Option<u64>,
        failed: FailedCalls,
        channel: usize,
        now: Milliseconds,
        t_max: Milliseconds,
    ) -> Option<Notice>
        // After `look` the calls are failing if one more has failed. They no longer are once one was tried and none
        // has failed for longer than T_max.
        ensures seen { self.new ≡ failing.look_at_calls self.old done failed.count now t_max }
        // `look` returns the notice of calls that begin to fail, with the system's number for the last failure, or
        // that succeed again, with the number of those that failed.
        ensures notice { result ≡ failing.notice_of self.old self.new call channel failed.last }
    {
        let was_failing = self.is_failing;
        if failed.count != self.failed {
            *self = CallFailures {
                done,
                failed: failed.count,
                at: now,
                before: self.failed_before(),
                is_failing: true,
            };
        } else if self.has_recovered(done, now, t_max) {
            self.is_failing = false;
        }
        match (was_failing, self.is_failing) {
            (false, true) => Some(Notice::CallsFail(call, channel, number_of(failed.last))),
            (true, false) => {
                let count = self.failed.saturating_sub(self.before);
                Some(Notice::CallsSucceed(call, channel, count))
            }
            _ => None,
        }
    }

    /// Returns how many calls had failed before these began to fail.
    fn failed_before(&self) -> u64
        ensures { result ≡ failing.failed_count_before self.now }
    {
        match self.is_failing {
            true => self.before,
            false => self.failed,
        }
    }

    /// Returns whether calls no longer fail.
    fn has_recovered(&self, done: Option<u64>, now: Milliseconds, t_max: Milliseconds) -> bool
        ensures { result ≡ failing.has_recovered self.now done now t_max }
    {
        self.is_failing && is_tried(done, self.done) && now.saturating_sub(self.at) > t_max
    }
}

/// Returns whether a call was made since this many had succeeded.
fn is_tried(done: Option<u64>, before: Option<u64>) -> bool
    ensures { result ≡ failing.is_tried done before }
{
    match (done, before) {
        (Some(done), Some(before)) => done != before,
        _ => true,
    }
}

/// Returns the system's number for a failure, if it gave one.
fn number_of(fault: Option<CallFault>) -> Option<i32>
    ensures { result ≡ failing.number_of fault }
{
    match fault {
        Some(fault) => fault.error,
        None => None,
    }
}

impl Actor<'_, UdpChannels> {
    /// Records which calls of its sockets failed so far.
    pub fn note_failures(&mut self)
        // `note_failures` records the failures of each channel, and changes nothing else.
        ensures { self.new ≡ record self.old { failures = failing.all_failures (channels_of self.old.end).inner.channels } }
    {
        let channels = &self.end.channels_seen().inner;
        self.failures = [
            failures_of(channels, 1),
            failures_of(channels, 2),
            failures_of(channels, 3),
            failures_of(channels, 4),
        ];
    }
}

/// Returns the failures of a channel, numbered from 1: none, if there is no such channel.
fn failures_of(channels: &UdpChannels, channel: usize) -> Failures
    ensures { result ≡ failing.failures_at channels.now.channels channel }
{
    match channels.failures(channel) {
        Some(failures) => failures,
        None => Failures::none(),
    }
}
