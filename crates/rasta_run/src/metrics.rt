//! The counts of one or two ends in the text format of Prometheus, on standard error.
//!
//! A metric has its help and its type once, and then a line for each end and channel, so both ends of a process are in
//! one block. The block ends with a comment, by which a reader knows that it is whole.

ghost use Rattle.std.specs.Prelude.{◌≡◌, ◌<◌, OnOk};
ghost use Rattle.std.specs.Io.KnownBytes.{Appends};
ghost use Rattle.octets.specs.declared.limits.TheConstants.{CHANNELS_MAX};
ghost use Rattle.rasta_run.specs.Metrics as metrics;

use crate::counts_text::margin_of;
use crate::{ChannelCounts, RunCounts};
use end_settings::Side;
use octets::Milliseconds;
use octets::limits::CHANNELS_MAX;
use pdu_text::{side_name, write_text};
use stack_end::ReceptionCounts;
use std::io;
use std::io::Write;
use udp_channels::Failures;

/// What is counted of an end at a time of a run.
#[derive(Clone, Copy, Debug)]
pub struct Sample {
    /// The end.
    pub side: Side,
    /// The number of its channels.
    pub count: usize,
    /// T_max of the end, in milliseconds.
    pub t_max: Milliseconds,
    /// The time of the run, in milliseconds.
    pub at: Milliseconds,
    /// All that is counted.
    pub counted: RunCounts,
}

/// What is counted of one or two ends.
#[derive(Clone, Copy, Debug)]
pub struct Samples {
    /// The one end, or the first of two.
    pub first: Sample,
    /// The second of two.
    pub second: Option<Sample>,
}

/// A count of a channel.
#[derive(Clone, Copy, Debug, PartialEq, Eq)]
pub enum ChannelMetric {
    /// Datagrams that the system took.
    Sent,
    /// Datagrams that the system refused.
    Failed,
    /// Receptions that the system refused.
    Refused,
    /// Datagrams received.
    Received,
    /// Datagrams passed on in turn.
    Passed,
    /// Datagrams deferred.
    Deferred,
    /// Datagrams dropped because their number came before or was given up.
    Old,
    /// Datagrams dropped because one of their number waits already.
    Repeated,
    /// Datagrams dropped because their number is too far ahead.
    Far,
    /// Datagrams dropped for want of a place in the deferral queue.
    Full,
    /// Datagrams dropped because they are not PDUs under these settings.
    Damaged,
    /// Datagrams dropped because they are PDUs of other ends.
    Stranger,
}

impl ChannelMetric {
    /// Returns the count of a channel.
    fn number(
        self,
        receptions: &ReceptionCounts,
        beside: &ChannelCounts,
        failures: &Failures,
    ) -> u64
        ensures { result ≡ metrics.channel_number self receptions.now beside.now failures.now }
    {
        match self {
            ChannelMetric::Sent => beside.sent,
            ChannelMetric::Failed => beside.failed,
            ChannelMetric::Refused => failures.receives.count,
            ChannelMetric::Received => receptions.received,
            ChannelMetric::Passed => receptions.passed,
            ChannelMetric::Deferred => receptions.deferred,
            ChannelMetric::Old => receptions.old,
            ChannelMetric::Repeated => receptions.repeated,
            ChannelMetric::Far => receptions.far,
            ChannelMetric::Full => receptions.full,
            ChannelMetric::Damaged => receptions.damaged.total().wrapping_add(beside.damaged),
            ChannelMetric::Stranger => beside.strangers,
        }
    }

    /// Returns the name of the metric, after the prefix of all.
    fn name(self) -> &'static str
        ensures { result.now ≡ metrics.channel_name self }
    {
        match self {
            ChannelMetric::Sent => "datagrams_sent_total",
            ChannelMetric::Failed => "datagrams_failed_total",
            ChannelMetric::Refused => "receptions_refused_total",
            ChannelMetric::Received => "datagrams_received_total",
            ChannelMetric::Passed => "datagrams_passed_total",
            ChannelMetric::Deferred => "datagrams_deferred_total",
            ChannelMetric::Old
            | ChannelMetric::Repeated
            | ChannelMetric::Far
            | ChannelMetric::Full
            | ChannelMetric::Damaged
            | ChannelMetric::Stranger => "datagrams_dropped_total",
        }
    }

    /// Returns the label of the cause, if the metric has one.
    fn cause(self) -> &'static str
        ensures { result.now ≡ metrics.channel_cause self }
    {
        match self {
            ChannelMetric::Sent
            | ChannelMetric::Failed
            | ChannelMetric::Refused
            | ChannelMetric::Received
            | ChannelMetric::Passed
            | ChannelMetric::Deferred => "",
            ChannelMetric::Old => ",cause=\"old\"",
            ChannelMetric::Repeated => ",cause=\"repeated\"",
            ChannelMetric::Far => ",cause=\"far\"",
            ChannelMetric::Full => ",cause=\"full\"",
            ChannelMetric::Damaged => ",cause=\"damaged\"",
            ChannelMetric::Stranger => ",cause=\"stranger\"",
        }
    }

    /// Returns the help of the metric.
    fn help(self) -> &'static str
        ensures { result.now ≡ metrics.channel_help self }
    {
        match self {
            ChannelMetric::Sent => "Datagrams that the system took.",
            ChannelMetric::Failed => "Datagrams that the system refused.",
            ChannelMetric::Refused => "Receptions that the system refused.",
            ChannelMetric::Received => "Datagrams received, from anyone.",
            ChannelMetric::Passed => "Datagrams passed on in turn.",
            ChannelMetric::Deferred => "Datagrams that came early and were deferred.",
            _ => "Datagrams dropped, by cause.",
        }
    }
}

/// A count of an end.
#[derive(Clone, Copy, Debug, PartialEq, Eq)]
pub enum EndMetric {
    /// The time of the run, in milliseconds.
    Time,
    /// Units sent.
    Units,
    /// Units sent again.
    Resent,
    /// Heartbeats sent.
    Heartbeats,
    /// Retransmissions requested.
    Requested,
    /// Retransmissions carried out.
    Answered,
    /// PDUs that the safety machine did not drop.
    Accepted,
    /// PDUs dropped because of their code or their fields.
    Damaged,
    /// PDUs dropped because of their identifiers.
    Stranger,
    /// PDUs dropped because there was no connection.
    Unopened,
    /// PDUs dropped because of their number.
    Far,
    /// PDUs dropped because nobody had requested them.
    Unrequested,
    /// PDUs dropped because their request was answered before.
    Repeated,
    /// PDUs dropped because they were taken before.
    Below,
    /// Units that the peer confirmed.
    Confirmed,
    /// Deferral deadlines that passed.
    Expired,
    /// Telegrams put.
    Put,
    /// Telegrams taken.
    Taken,
    /// The greatest age of a confirmed timestamp, in milliseconds.
    Oldest,
    /// The least time that was left to T_max, in milliseconds.
    Margin,
}

impl EndMetric {
    /// Returns the count of an end, if there is one.
    fn number(self, sample: &Sample) -> Option<u64>
        ensures { result ≡ metrics.end_number self sample.now }
    {
        let counted = &sample.counted;
        let made = &counted.sums.made;
        let parts = &counted.sums.parts;
        match self {
            EndMetric::Time => Some(sample.at),
            EndMetric::Units => Some(made.units),
            EndMetric::Resent => Some(made.resent),
            EndMetric::Heartbeats => Some(made.heartbeats),
            EndMetric::Requested => Some(made.requests),
            EndMetric::Answered => Some(made.answers),
            EndMetric::Accepted => Some(counted.accepted_count()),
            EndMetric::Damaged => Some(parts.damaged.total()),
            EndMetric::Stranger => Some(parts.strangers),
            EndMetric::Unopened => Some(parts.unopened),
            EndMetric::Far => Some(parts.far),
            EndMetric::Unrequested => Some(parts.unrequested),
            EndMetric::Repeated => Some(parts.answered),
            EndMetric::Below => Some(parts.below),
            EndMetric::Confirmed => Some(counted.sums.confirmed),
            EndMetric::Expired => Some(counted.sums.expired_deferrals),
            EndMetric::Put => Some(counted.put),
            EndMetric::Taken => Some(counted.taken),
            EndMetric::Oldest => counted.oldest(),
            EndMetric::Margin => margin_of(counted.oldest(), sample.t_max),
        }
    }

    /// Returns the name of the metric, after the prefix of all.
    fn name(self) -> &'static str
        ensures { result.now ≡ metrics.end_name self }
    {
        match self {
            EndMetric::Time => "run_milliseconds",
            EndMetric::Units => "units_sent_total",
            EndMetric::Resent => "units_resent_total",
            EndMetric::Heartbeats => "heartbeats_sent_total",
            EndMetric::Requested => "retransmissions_requested_total",
            EndMetric::Answered => "retransmissions_answered_total",
            EndMetric::Accepted => "pdus_accepted_total",
            EndMetric::Confirmed => "units_confirmed_total",
            EndMetric::Expired => "deferrals_expired_total",
            EndMetric::Put => "telegrams_put_total",
            EndMetric::Taken => "telegrams_taken_total",
            EndMetric::Oldest => "confirmation_age_max_milliseconds",
            EndMetric::Margin => "margin_min_milliseconds",
            EndMetric::Damaged
            | EndMetric::Stranger
            | EndMetric::Unopened
            | EndMetric::Far
            | EndMetric::Unrequested
            | EndMetric::Repeated
            | EndMetric::Below => "pdus_dropped_total",
        }
    }

    /// Returns the label of the cause, if the metric has one.
    fn cause(self) -> &'static str
        ensures { result.now ≡ metrics.end_cause self }
    {
        match self {
            EndMetric::Damaged => ",cause=\"damaged\"",
            EndMetric::Stranger => ",cause=\"stranger\"",
            EndMetric::Unopened => ",cause=\"unopened\"",
            EndMetric::Far => ",cause=\"far\"",
            EndMetric::Unrequested => ",cause=\"unrequested\"",
            EndMetric::Repeated => ",cause=\"answered\"",
            EndMetric::Below => ",cause=\"below\"",
            _ => "",
        }
    }

    /// Returns the help of the metric.
    fn help(self) -> &'static str
        ensures { result.now ≡ metrics.end_help self }
    {
        match self {
            EndMetric::Time => "The time since the run began.",
            EndMetric::Units => "Units sent.",
            EndMetric::Resent => "Units sent again.",
            EndMetric::Heartbeats => "Heartbeats sent.",
            EndMetric::Requested => "Retransmissions requested.",
            EndMetric::Answered => "Retransmissions carried out.",
            EndMetric::Accepted => "PDUs that the safety layer accepted.",
            EndMetric::Confirmed => "Units that the peer confirmed.",
            EndMetric::Expired => "How often T_seq passed while datagrams were deferred.",
            EndMetric::Put => "Telegrams put.",
            EndMetric::Taken => "Telegrams taken.",
            EndMetric::Oldest => "The greatest age of a confirmed timestamp.",
            EndMetric::Margin => "The least time that was left to T_max.",
            _ => "PDUs that the safety layer dropped, by cause.",
        }
    }

    /// Returns the type of the metric.
    fn kind(self) -> &'static str
        ensures { result.now ≡ metrics.end_kind self }
    {
        match self {
            EndMetric::Time | EndMetric::Oldest | EndMetric::Margin => "gauge",
            _ => "counter",
        }
    }
}

/// Writes all metrics of one or two ends.
///
/// # Errors
///
/// - The error of the writer; what it wrote before stays written.
#[tactic(auto, unfolding(crate::specs::Metrics::block_text))]
pub fn write_block<W: Write>(writer: &mut W, samples: &Samples) -> io::Result<()>
    // If `write_block` succeeds, it has appended every metric with its numbers, and a comment that ends them.
    ensures { OnOk result (Appends (W.contents writer.old) (W.contents writer.new) (metrics.block_text samples.now)) }
{
    write_traffic(writer, samples)?;
    write_drops(writer, samples)?;
    write_made(writer, samples)?;
    write_parts(writer, samples)?;
    write_telegrams(writer, samples)?;
    write_text(writer, "# EOF\n")
}

/// Writes what became of datagrams on channels.
#[tactic(auto, unfolding(crate::specs::Metrics::traffic_text))]
fn write_traffic<W: Write>(writer: &mut W, samples: &Samples) -> io::Result<()>
    ensures { OnOk result (Appends (W.contents writer.old) (W.contents writer.new) (metrics.traffic_text samples.now)) }
{
    write_channel_counter(writer, ChannelMetric::Sent, samples)?;
    write_channel_counter(writer, ChannelMetric::Failed, samples)?;
    write_channel_counter(writer, ChannelMetric::Refused, samples)?;
    write_channel_counter(writer, ChannelMetric::Received, samples)?;
    write_channel_counter(writer, ChannelMetric::Passed, samples)?;
    write_channel_counter(writer, ChannelMetric::Deferred, samples)
}

/// Writes why datagrams were dropped.
#[tactic(auto, unfolding(crate::specs::Metrics::drops_text))]
fn write_drops<W: Write>(writer: &mut W, samples: &Samples) -> io::Result<()>
    ensures { OnOk result (Appends (W.contents writer.old) (W.contents writer.new) (metrics.drops_text samples.now)) }
{
    write_channel_counter(writer, ChannelMetric::Old, samples)?;
    write_channel_metric(writer, ChannelMetric::Repeated, samples)?;
    write_channel_metric(writer, ChannelMetric::Far, samples)?;
    write_channel_metric(writer, ChannelMetric::Full, samples)?;
    write_channel_metric(writer, ChannelMetric::Damaged, samples)?;
    write_channel_metric(writer, ChannelMetric::Stranger, samples)
}

/// Writes the PDUs that ends made.
#[tactic(auto, unfolding(crate::specs::Metrics::made_pdus_text))]
fn write_made<W: Write>(writer: &mut W, samples: &Samples) -> io::Result<()>
    ensures { OnOk result (Appends (W.contents writer.old) (W.contents writer.new) (metrics.made_pdus_text samples.now)) }
{
    write_end_metric(writer, EndMetric::Units, samples)?;
    write_end_metric(writer, EndMetric::Resent, samples)?;
    write_end_metric(writer, EndMetric::Heartbeats, samples)?;
    write_end_metric(writer, EndMetric::Requested, samples)?;
    write_end_metric(writer, EndMetric::Answered, samples)?;
    write_end_metric(writer, EndMetric::Confirmed, samples)
}

/// Writes the PDUs that ends received.
#[tactic(auto, unfolding(crate::specs::Metrics::parts_text))]
fn write_parts<W: Write>(writer: &mut W, samples: &Samples) -> io::Result<()>
    ensures { OnOk result (Appends (W.contents writer.old) (W.contents writer.new) (metrics.parts_text samples.now)) }
{
    write_end_metric(writer, EndMetric::Expired, samples)?;
    write_end_metric(writer, EndMetric::Accepted, samples)?;
    write_rejected(writer, samples)?;
    write_misplaced(writer, samples)
}

/// Writes the PDUs that ends dropped for their code, their identifiers or their state.
#[tactic(auto, unfolding(crate::specs::Metrics::rejections_text))]
fn write_rejected<W: Write>(writer: &mut W, samples: &Samples) -> io::Result<()>
    ensures { OnOk result (Appends (W.contents writer.old) (W.contents writer.new) (metrics.rejections_text samples.now)) }
{
    write_end_metric(writer, EndMetric::Damaged, samples)?;
    write_ends(writer, EndMetric::Stranger, samples)?;
    write_ends(writer, EndMetric::Unopened, samples)
}

/// Writes the PDUs that ends dropped for their numbers.
#[tactic(auto, unfolding(crate::specs::Metrics::misplacements_text))]
fn write_misplaced<W: Write>(writer: &mut W, samples: &Samples) -> io::Result<()>
    ensures { OnOk result (Appends (W.contents writer.old) (W.contents writer.new) (metrics.misplacements_text samples.now)) }
{
    write_ends(writer, EndMetric::Far, samples)?;
    write_ends(writer, EndMetric::Unrequested, samples)?;
    write_ends(writer, EndMetric::Repeated, samples)?;
    write_ends(writer, EndMetric::Below, samples)
}

/// Writes telegrams and times.
#[tactic(auto, unfolding(crate::specs::Metrics::telegrams_text))]
fn write_telegrams<W: Write>(writer: &mut W, samples: &Samples) -> io::Result<()>
    ensures { OnOk result (Appends (W.contents writer.old) (W.contents writer.new) (metrics.telegrams_text samples.now)) }
{
    write_end_metric(writer, EndMetric::Put, samples)?;
    write_end_metric(writer, EndMetric::Taken, samples)?;
    write_end_metric(writer, EndMetric::Oldest, samples)?;
    write_end_metric(writer, EndMetric::Margin, samples)?;
    write_end_metric(writer, EndMetric::Time, samples)
}

/// Writes a metric of channels that only grows.
#[tactic(auto, unfolding(crate::specs::Metrics::channel_counter))]
fn write_channel_counter<W: Write>(
    writer: &mut W,
    metric: ChannelMetric,
    samples: &Samples,
) -> io::Result<()>
    ensures { OnOk result (Appends (W.contents writer.old) (W.contents writer.new) (metrics.channel_counter metric samples.now)) }
{
    write_head(writer, metric.name(), "counter", metric.help())?;
    write_channel_metric(writer, metric, samples)
}

/// Writes a metric of ends.
#[tactic(auto, unfolding(crate::specs::Metrics::end_metric))]
fn write_end_metric<W: Write>(
    writer: &mut W,
    metric: EndMetric,
    samples: &Samples,
) -> io::Result<()>
    ensures { OnOk result (Appends (W.contents writer.old) (W.contents writer.new) (metrics.end_metric metric samples.now)) }
{
    write_head(writer, metric.name(), metric.kind(), metric.help())?;
    write_ends(writer, metric, samples)
}

/// Writes the help and the type of a metric.
#[tactic(auto, unfolding(crate::specs::Metrics::head_text))]
fn write_head<W: Write>(writer: &mut W, name: &str, kind: &str, help: &str) -> io::Result<()>
    ensures { OnOk result (Appends (W.contents writer.old) (W.contents writer.new) (metrics.head_text name.now kind.now help.now)) }
{
    write!(
        writer,
        "# HELP rasta_{name} {help}\n# TYPE rasta_{name} {kind}\n"
    )
}

/// Writes a metric of the channels of each end.
#[tactic(auto, unfolding(crate::specs::Metrics::channel_text))]
fn write_channel_metric<W: Write>(
    writer: &mut W,
    metric: ChannelMetric,
    samples: &Samples,
) -> io::Result<()>
    ensures { OnOk result (Appends (W.contents writer.old) (W.contents writer.new) (metrics.channel_text metric samples.now)) }
{
    write_channels(writer, metric, &samples.first)?;
    match &samples.second {
        None => write_text(writer, ""),
        Some(second) => write_channels(writer, metric, second),
    }
}

/// Writes a metric of the channels of an end.
#[tactic(auto, unfolding(crate::specs::Metrics::channels_text))]
fn write_channels<W: Write>(
    writer: &mut W,
    metric: ChannelMetric,
    sample: &Sample,
) -> io::Result<()>
    ensures { OnOk result (Appends (W.contents writer.old) (W.contents writer.new) (metrics.channels_text metric sample.now)) }
{
    write_place(writer, metric, sample, 0)?;
    write_place(writer, metric, sample, 1)?;
    write_place(writer, metric, sample, 2)?;
    write_place(writer, metric, sample, 3)
}

/// Writes a metric of the channel at a place, from 0, if the end has it.
#[tactic(auto, unfolding(crate::specs::Metrics::place_text))]
fn write_place<W: Write>(
    writer: &mut W,
    metric: ChannelMetric,
    sample: &Sample,
    place: usize,
) -> io::Result<()>
    requires { place < CHANNELS_MAX }
    ensures { OnOk result (Appends (W.contents writer.old) (W.contents writer.new) (metrics.place_text metric sample.now place)) }
{
    if place >= sample.count {
        return write_text(writer, "");
    }
    let receptions = &sample.counted.sums.channels[place];
    let beside = &sample.counted.channels[place];
    let failures = &sample.counted.failures[place];
    let number = metric.number(receptions, beside, failures);
    write_channel(
        writer,
        metric.name(),
        metric.cause(),
        sample.side,
        place + 1,
        number,
    )
}

/// Writes a number of a channel, numbered from 1.
#[tactic(auto, unfolding(crate::specs::Metrics::channel_line))]
fn write_channel<W: Write>(
    writer: &mut W,
    name: &str,
    cause: &str,
    side: Side,
    channel: usize,
    number: u64,
) -> io::Result<()>
    ensures { OnOk result (Appends (W.contents writer.old) (W.contents writer.new) (metrics.channel_line name.now cause.now side channel number)) }
{
    let end = side_name(side);
    write!(
        writer,
        "rasta_{name}{{side=\"{end}\",channel=\"{channel}\"{cause}}} {number}\n"
    )
}

/// Writes a metric of each end.
#[tactic(auto, unfolding(crate::specs::Metrics::end_text))]
fn write_ends<W: Write>(writer: &mut W, metric: EndMetric, samples: &Samples) -> io::Result<()>
    ensures { OnOk result (Appends (W.contents writer.old) (W.contents writer.new) (metrics.end_text metric samples.now)) }
{
    write_sample(writer, metric, &samples.first)?;
    match &samples.second {
        None => write_text(writer, ""),
        Some(second) => write_sample(writer, metric, second),
    }
}

/// Writes a metric of an end, if it has a number.
fn write_sample<W: Write>(writer: &mut W, metric: EndMetric, sample: &Sample) -> io::Result<()>
    ensures { OnOk result (Appends (W.contents writer.old) (W.contents writer.new) (metrics.sample_text metric sample.now)) }
{
    match metric.number(sample) {
        None => write_text(writer, ""),
        Some(number) => write_end(writer, metric.name(), metric.cause(), sample.side, number),
    }
}

/// Writes a number of an end.
#[tactic(auto, unfolding(crate::specs::Metrics::end_line))]
fn write_end<W: Write>(
    writer: &mut W,
    name: &str,
    cause: &str,
    side: Side,
    number: u64,
) -> io::Result<()>
    ensures { OnOk result (Appends (W.contents writer.old) (W.contents writer.new) (metrics.end_line name.now cause.now side number)) }
{
    let end = side_name(side);
    write!(writer, "rasta_{name}{{side=\"{end}\"{cause}}} {number}\n")
}
