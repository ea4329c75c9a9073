//! What an end counts of its own work.

ghost use Rattle.std.specs.Prelude.{◌≡◌, ◌≤◌, length};
ghost use Rattle.stack_end.specs.Statistics as statistics;

use crate::departure::number_at;
use octets::Milliseconds;
use octets::limits::CHANNELS_MAX;
use red_layer::RedEvent;
use red_layer::pdu::RedFault;
use safe_machine::{DropCause, Step};
use safe_pdu::{Kind, SafeFault};

/// The place of the type in a safety PDU: after its length.
const KIND: usize = 2;

/// The PDUs that an end has made since its opening, by type; each count is modulo 2^64.
#[derive(Clone, Copy, Debug, PartialEq, Eq)]
pub struct MadeCounts {
    /// Units sent for the first time (Data).
    pub units: u64,
    /// Units sent again (RetrData).
    pub resent: u64,
    /// Heartbeats.
    pub heartbeats: u64,
    /// Retransmissions requested (RetrReq).
    pub requests: u64,
    /// Retransmissions granted (RetrResp).
    pub answers: u64,
}

impl MadeCounts {
    /// Returns the counts of an end that has made nothing.
    pub fn none() -> Self
        // Every count is 0.
        ensures { result ≡ statistics.no_made_counts }
    {
        MadeCounts {
            units: 0,
            resent: 0,
            heartbeats: 0,
            requests: 0,
            answers: 0,
        }
    }

    /// Counts one PDU more. Those that open or end a connection are not counted.
    pub fn with_kind(mut self, kind: Kind) -> Self
        // The count of this type grows by 1, modulo 2^64; the others stay.
        ensures { result ≡ statistics.with_kind kind self }
    {
        self.count_kind(kind);
        self
    }

    /// Counts one PDU more in place. Those that open or end a connection are not counted.
    fn count_kind(&mut self, kind: Kind)
        ensures { self.new ≡ statistics.with_kind kind self.old }
    {
        match kind {
            Kind::Data => self.units = self.units.wrapping_add(1),
            Kind::RetrData => self.resent = self.resent.wrapping_add(1),
            Kind::Heartbeat => self.heartbeats = self.heartbeats.wrapping_add(1),
            Kind::RetrReq => self.requests = self.requests.wrapping_add(1),
            Kind::RetrResp => self.answers = self.answers.wrapping_add(1),
            Kind::ConnReq | Kind::ConnResp | Kind::DiscReq => {}
        }
    }

    /// Counts the PDU of these bytes by the type in its header.
    pub(crate) fn count_pdu(&mut self, octets: &[u8])
        ensures { self.new ≡ statistics.with_pdu octets.now self.old }
    {
        if let Some(kind) = Kind::of(number_at(octets, KIND)) {
            self.count_kind(kind);
        }
    }
}

/// The parts that went up and are no safety PDU with a valid safety code, by fault; each count is modulo 2^64.
#[derive(Clone, Copy, Debug, PartialEq, Eq)]
pub struct SafeFaultCounts {
    /// Those with fewer bytes than a header and the safety code need.
    pub short: u64,
    /// Those whose length field differs from the number of bytes, or that are too long.
    pub length: u64,
    /// Those whose safety code is not that of their bytes.
    pub code: u64,
    /// Those whose PDU type is not one of the eight.
    pub bad_type: u64,
    /// Those whose body does not fit the PDU type.
    pub body: u64,
}

impl SafeFaultCounts {
    /// Returns the counts of an end to which no such part has gone up.
    pub fn none() -> Self
        // There is no part of any fault.
        ensures { result ≡ statistics.no_safe_faults }
    {
        SafeFaultCounts {
            short: 0,
            length: 0,
            code: 0,
            bad_type: 0,
            body: 0,
        }
    }

    /// Returns how many there are of all faults, modulo 2^64.
    pub fn total(self) -> u64
        // The result is the sum of the five counts, modulo 2^64.
        ensures { result ≡ statistics.all_safe_faults self }
    {
        self.short
            .wrapping_add(self.length)
            .wrapping_add(self.code)
            .wrapping_add(self.bad_type)
            .wrapping_add(self.body)
    }

    /// Counts a fault.
    fn count_fault(&mut self, fault: SafeFault)
        ensures { self.new ≡ statistics.with_safe_fault fault self.old }
    {
        match fault {
            SafeFault::Short => self.short = self.short.wrapping_add(1),
            SafeFault::Length => self.length = self.length.wrapping_add(1),
            SafeFault::Code => self.code = self.code.wrapping_add(1),
            SafeFault::BadType => self.bad_type = self.bad_type.wrapping_add(1),
            SafeFault::Body => self.body = self.body.wrapping_add(1),
        }
    }
}

/// The parts that have gone up to the safety machine since the opening, by what it did with them; each count is modulo
/// 2^64. A part that ends the connection, or comes to a closed end, is not counted.
#[derive(Clone, Copy, Debug, PartialEq, Eq)]
pub struct PartCounts {
    /// PDUs that it took.
    pub taken: u64,
    /// PDUs that revealed a gap, so that a retransmission was requested.
    pub gaps: u64,
    /// Dropped: no safety PDU with a valid safety code, by fault.
    pub damaged: SafeFaultCounts,
    /// Dropped: of another receiver or sender.
    pub strangers: u64,
    /// Dropped: no ConnReq, while the end waits for one.
    pub unopened: u64,
    /// Dropped: the sequence number is too far ahead.
    pub far: u64,
    /// Dropped: not the RetrResp that the end waits for.
    pub unrequested: u64,
    /// Dropped: a RetrReq that was answered before.
    pub answered: u64,
    /// Dropped: a RetrReq that confirms less than was confirmed before.
    pub below: u64,
    /// The greatest age of a timestamp that a PDU confirmed when it was taken, in milliseconds.
    pub oldest: Milliseconds,
    /// The longest time without a confirmation before a PDU was taken, in milliseconds. What T_max exceeds it by is
    /// the least margin so far.
    pub longest_wait: Milliseconds,
}

impl PartCounts {
    /// Returns the counts of an end to which nothing has gone up.
    pub fn none() -> Self
        // Every count and both times are 0.
        ensures { result ≡ statistics.no_part_counts }
    {
        PartCounts {
            taken: 0,
            gaps: 0,
            damaged: SafeFaultCounts::none(),
            strangers: 0,
            unopened: 0,
            far: 0,
            unrequested: 0,
            answered: 0,
            below: 0,
            oldest: 0,
            longest_wait: 0,
        }
    }

    /// Counts a part by the machine's step. `waited` is how long before it nothing was confirmed, and `age` how old
    /// the last confirmed timestamp is after it, both in milliseconds.
    pub fn with_step(mut self, step: Step, waited: Milliseconds, age: Milliseconds) -> Self
        // The count of this step grows by 1, modulo 2^64. If the PDU was taken, both times become those of this part
        // if these are greater. All else stays.
        ensures { result ≡ statistics.with_step step waited age self }
    {
        self.count_step(step, waited, age);
        self
    }

    /// Counts a part in place by the machine's step. `waited` is how long before it nothing was confirmed, and `age` how
    /// old the last confirmed timestamp is after it, both in milliseconds.
    pub(crate) fn count_step(&mut self, step: Step, waited: Milliseconds, age: Milliseconds)
        ensures { self.new ≡ statistics.with_step step waited age self.old }
    {
        match step {
            Step::Taken => {
                self.taken = self.taken.wrapping_add(1);
                self.longest_wait = self.longest_wait.max(waited);
                self.oldest = self.oldest.max(age);
            }
            Step::Gap => self.gaps = self.gaps.wrapping_add(1),
            Step::Dropped(cause) => self.count_dropped(cause),
            Step::Left(_, _) | Step::Nothing => {}
        }
    }

    /// Counts a dropped part.
    fn count_dropped(&mut self, cause: DropCause)
        ensures { self.new ≡ statistics.with_dropped cause self.old }
    {
        match cause {
            DropCause::Fault(fault) => self.damaged.count_fault(fault),
            DropCause::Stranger => self.strangers = self.strangers.wrapping_add(1),
            DropCause::NotOpened => self.unopened = self.unopened.wrapping_add(1),
            DropCause::Number => self.far = self.far.wrapping_add(1),
            DropCause::Request => self.unrequested = self.unrequested.wrapping_add(1),
            DropCause::Answered => self.answered = self.answered.wrapping_add(1),
            DropCause::Below => self.below = self.below.wrapping_add(1),
        }
    }
}

/// The datagrams of a channel that are no redundancy PDU, by fault; each count is modulo 2^64.
#[derive(Clone, Copy, Debug, PartialEq, Eq)]
pub struct RedFaultCounts {
    /// Those with fewer bytes than a header.
    pub short: u64,
    /// Those whose length field differs from the number of bytes, or that are too long.
    pub length: u64,
    /// Those whose reserve is not zero.
    pub reserve: u64,
}

impl RedFaultCounts {
    /// Returns the counts of a channel on which no such datagram has come.
    pub fn none() -> Self
        // There is no datagram of any fault.
        ensures { result ≡ statistics.no_red_faults }
    {
        RedFaultCounts {
            short: 0,
            length: 0,
            reserve: 0,
        }
    }

    /// Returns how many there are of all faults, modulo 2^64.
    pub fn total(self) -> u64
        // The result is the sum of the three counts, modulo 2^64.
        ensures { result ≡ statistics.all_red_faults self }
    {
        self.short
            .wrapping_add(self.length)
            .wrapping_add(self.reserve)
    }

    /// Counts a fault.
    fn count_fault(&mut self, fault: RedFault)
        ensures { self.new ≡ statistics.with_red_fault fault self.old }
    {
        match fault {
            RedFault::Short => self.short = self.short.wrapping_add(1),
            RedFault::Length => self.length = self.length.wrapping_add(1),
            RedFault::Reserve => self.reserve = self.reserve.wrapping_add(1),
        }
    }
}

/// The datagrams that came on one channel since the opening, by what the redundancy layer did with them; each count is
/// modulo 2^64.
#[derive(Clone, Copy, Debug, PartialEq, Eq)]
pub struct ReceptionCounts {
    /// All that came, those to a closed end among them: nothing else counts these.
    pub received: u64,
    /// Those with the expected number.
    pub passed: u64,
    /// Those that came early and were deferred.
    pub deferred: u64,
    /// Those whose number is below the expected one: received before on any channel, or given up.
    pub old: u64,
    /// Those that came early, with a number that was deferred already.
    pub repeated: u64,
    /// Those whose number is too far ahead.
    pub far: u64,
    /// Those that came early while every place was taken.
    pub full: u64,
    /// Those that are no redundancy PDU, by fault.
    pub damaged: RedFaultCounts,
    /// The own time of the last redundancy PDU that was not too far ahead, in milliseconds, or `None` if none came.
    pub last: Option<Milliseconds>,
}

impl ReceptionCounts {
    /// Returns the counts of a channel on which nothing has come.
    pub fn none() -> Self
        // Every count is 0, and there is no time.
        ensures { result ≡ statistics.no_reception_counts }
    {
        ReceptionCounts {
            received: 0,
            passed: 0,
            deferred: 0,
            old: 0,
            repeated: 0,
            far: 0,
            full: 0,
            damaged: RedFaultCounts::none(),
            last: None,
        }
    }

    /// Counts a datagram that came at `now`, by the redundancy layer's event, which is `None` at a closed end.
    pub fn with_event(mut self, event: Option<RedEvent>, now: Milliseconds) -> Self
        // `received` and the count of this event grow by 1, modulo 2^64. The time becomes `now` if the datagram is a
        // redundancy PDU that is not too far ahead. All else stays.
        ensures { result ≡ statistics.with_event event now self }
    {
        self.count_event(event, now);
        self
    }

    /// Counts in place a datagram that came at `now`, by the redundancy layer's event, which is `None` at a closed end.
    fn count_event(&mut self, event: Option<RedEvent>, now: Milliseconds)
        ensures { self.exit.now ≡ statistics.with_event event now self.entry.now }
    {
        self.received = self.received.wrapping_add(1);
        if let Some(event) = event {
            self.keep_time(event, now);
            self.count_answer(event);
        }
    }

    /// Keeps the time of a redundancy PDU that is not too far ahead.
    fn keep_time(&mut self, event: RedEvent, now: Milliseconds)
        ensures { self.exit.now ≡ statistics.with_time event now self.entry.now }
    {
        match event {
            RedEvent::Far | RedEvent::Fault(_) => {}
            RedEvent::Passed | RedEvent::Wait | RedEvent::Old | RedEvent::Again | RedEvent::Full =>
                self.last = Some(now),
        }
    }

    /// Counts an event of the redundancy layer.
    fn count_answer(&mut self, event: RedEvent)
        ensures { self.exit.now ≡ statistics.with_answer event self.entry.now }
    {
        match event {
            RedEvent::Passed => self.passed = self.passed.wrapping_add(1),
            RedEvent::Wait => self.deferred = self.deferred.wrapping_add(1),
            RedEvent::Old => self.old = self.old.wrapping_add(1),
            RedEvent::Again => self.repeated = self.repeated.wrapping_add(1),
            RedEvent::Far => self.far = self.far.wrapping_add(1),
            RedEvent::Full => self.full = self.full.wrapping_add(1),
            RedEvent::Fault(fault) => self.damaged.count_fault(fault),
        }
    }
}

/// Counts a datagram of a channel, numbered from 1. A channel that no end can have counts nothing.
pub(crate) fn count_reception(
    channels: &mut [ReceptionCounts; CHANNELS_MAX],
    channel: usize,
    event: Option<RedEvent>,
    now: Milliseconds,
)
    ensures { channels.new ≡ statistics.count_reception channel event now channels.old }
{
    if channel == 0 || channel > CHANNELS_MAX {
        return;
    }
    channels[channel - 1].count_event(event, now);
}

/// What an end counts of the datagrams that come, since its opening.
#[derive(Clone, Copy, Debug, PartialEq, Eq)]
pub(crate) struct DatagramCounts {
    /// The datagrams by channel, that of number 1 first.
    pub(crate) channels: [ReceptionCounts; CHANNELS_MAX],
    /// How often T_seq passed while parts were deferred, modulo 2^64.
    pub(crate) expired_deferrals: u64,
}

impl DatagramCounts {
    /// Returns the counts of an end to which nothing has come.
    pub(crate) fn none() -> Self
        ensures { result ≡ statistics.no_datagram_counts }
    {
        DatagramCounts {
            channels: [ReceptionCounts::none(); CHANNELS_MAX],
            expired_deferrals: 0,
        }
    }

    /// Counts a datagram of a channel, numbered from 1, that came at `now`, by the redundancy layer's event, which is
    /// `None` at a closed end. `due` says whether T_seq had passed for parts deferred before it.
    pub(crate) fn count_datagram(
        &mut self,
        channel: usize,
        event: Option<RedEvent>,
        due: bool,
        now: Milliseconds,
    )
        ensures { self.new ≡ statistics.count_datagram channel event due now self.old }
    {
        count_reception(&mut self.channels, channel, event, now);
        self.count_expired(event.is_some() && due);
    }

    /// Counts a deferral deadline if it has passed.
    pub(crate) fn count_expired(&mut self, expired: bool)
        ensures { self.new ≡ statistics.count_expired expired self.old }
    {
        if expired {
            self.expired_deferrals = self.expired_deferrals.wrapping_add(1);
        }
    }
}

/// All that an end counts of its own work since its opening.
#[derive(Clone, Copy, Debug, PartialEq, Eq)]
pub struct Statistics {
    /// The datagrams that came, by channel, that of number 1 first.
    pub channels: [ReceptionCounts; CHANNELS_MAX],
    /// How often T_seq passed while parts were deferred, modulo 2^64: what was missing before them was given up.
    pub expired_deferrals: u64,
    /// The parts that went up to the safety machine.
    pub parts: PartCounts,
    /// The PDUs made.
    pub made: MadeCounts,
    /// The units that the peer has confirmed.
    pub confirmed: u64,
}
