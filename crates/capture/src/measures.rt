//! What is measured of a connection: round trips, skew between channels, silence, and waits.
//!
//! All times are the recorder's. Nothing is measured from one session of an end to its next one.

ghost use Rattle.std.specs.Prelude.{◌≡◌};
ghost use Rattle.capture.specs.Measures.{is_first_answer, forget_moments, measure_skew, measure_new_pdu, is_answer, is_copy_elsewhere, measurements_after, measures_after, millis_between, store_moment, moment_of, no_measurements, no_measures, add_unit, units_in_second, with_some, with_span};

use crate::datagram::Header;
use crate::direction::{Remarks, is_first_copy};
use crate::distribution::Distribution;
use crate::window::NumberOrder;
use safe_pdu::Kind;

/// How many PDUs of an end are kept with their times, by the remainders of their sequence numbers.
pub const MOMENTS: usize = 8;

/// What is measured of both ends of a connection.
#[derive(Clone, Copy, Debug, PartialEq, Eq)]
pub struct Measures {
    /// What is measured of the end with the lower identifier.
    pub low: Measurements,
    /// What is measured of the other end.
    pub high: Measurements,
}

/// What is measured of one end, in 512 bytes.
#[derive(Clone, Copy, Debug, PartialEq, Eq)]
pub struct Measurements {
    /// The times from a PDU of the other end to the first PDU of this end that confirms its timestamp.
    pub round_trips: Distribution,
    /// The times from the first copy of a PDU to its copy on another channel.
    pub skews: Distribution,
    /// The times between two PDUs.
    pub silences: Distribution,
    /// The waits for a confirmation at its PDUs.
    pub waits: Distribution,
    /// For each remainder of a sequence number, the timestamp of the last PDU with it.
    pub stamps: [u32; MOMENTS],
    /// For each remainder, when that PDU was recorded first, in microseconds; 0 if there was none since the opening.
    pub times: [u64; MOMENTS],
    /// When its last PDU was recorded, in microseconds; 0 if there was none since the opening.
    pub last: u64,
    /// The timestamp that it confirmed last; 0 before the first.
    pub confirmed: u32,
    /// The units (Data) in the second of its last PDU, at most 65,535.
    pub units: u16,
    /// The most units in a second.
    pub busiest: u16,
}

impl Measures {
    /// Returns the measures of a connection without PDUs.
    pub fn new() -> Self
        // Nothing is measured of either end.
        ensures { result ≡ no_measures }
    {
        Measures {
            low: new_measured(),
            high: new_measured(),
        }
    }
}

/// Returns the measures of an end without PDUs.
fn new_measured() -> Measurements
    ensures { result ≡ no_measurements }
{
    Measurements {
        round_trips: Distribution::new(),
        skews: Distribution::new(),
        silences: Distribution::new(),
        waits: Distribution::new(),
        stamps: [0; MOMENTS],
        times: [0; MOMENTS],
        last: 0,
        confirmed: 0,
        units: 0,
        busiest: 0,
    }
}

/// Adds a PDU to the measures of its connection.
pub(crate) fn note_measures(
    measures: &mut Measures,
    from_low: bool,
    time: u64,
    header: &Header,
    remarks: &Remarks,
)
    ensures { measures.new ≡ measures_after measures.old from_low time header.now remarks.now }
{
    if from_low {
        let sent = moment(&measures.high, header.cs, header.cts);
        measure(&mut measures.low, sent, time, header, remarks);
    } else {
        let sent = moment(&measures.low, header.cs, header.cts);
        measure(&mut measures.high, sent, time, header, remarks);
    }
}

/// Returns when a PDU was recorded first, if it is kept.
fn moment(measured: &Measurements, sn: u32, ts: u32) -> Option<u64>
    ensures { result ≡ moment_of measured.now sn ts }
{
    let slot = sn as usize % MOMENTS;
    let time = measured.times[slot];
    if 0 < time && measured.stamps[slot] == ts {
        return Some(time);
    }
    None
}

/// Adds a PDU to the measures of its end.
fn measure(
    measured: &mut Measurements,
    sent: Option<u64>,
    time: u64,
    header: &Header,
    remarks: &Remarks,
)
    ensures { measured.new ≡ measurements_after measured.old sent time header.now remarks.now }
{
    if remarks.opens {
        begin(measured);
    }
    if is_first_copy(remarks.together) {
        measure_first(measured, sent, time, header, remarks);
    } else if copies_elsewhere(remarks.together, remarks.channel) {
        measure_copy(measured, time, header);
    }
}

/// Forgets the PDUs of the session before.
fn begin(measured: &mut Measurements)
    ensures { measured.new ≡ forget_moments measured.old }
{
    measured.times = [0; MOMENTS];
    measured.last = 0;
    measured.confirmed = 0;
}

/// Returns `true` for a copy that is the first one on its channel.
fn copies_elsewhere(together: NumberOrder, channel: Option<NumberOrder>) -> bool
    ensures { result ≡ is_copy_elsewhere together channel }
{
    match (together, channel) {
        (NumberOrder::Repeat(_), Some(NumberOrder::Repeat(_))) => false,
        (NumberOrder::Repeat(_), Some(_)) => true,
        _ => false,
    }
}

/// Measures the skew of a copy.
fn measure_copy(measured: &mut Measurements, time: u64, header: &Header)
    ensures { measured.new ≡ measure_skew measured.old time header.now }
{
    let first = moment(measured, header.sn, header.ts);
    add_span(&mut measured.skews, first, time);
}

/// Measures a PDU that is new.
fn measure_first(
    measured: &mut Measurements,
    sent: Option<u64>,
    time: u64,
    header: &Header,
    remarks: &Remarks,
)
    ensures { measured.new ≡ measure_new_pdu measured.old sent time header.now remarks.now }
{
    if answers(measured.confirmed, header, remarks) {
        add_span(&mut measured.round_trips, sent, time);
        measured.confirmed = header.cts;
    }
    let last = measured.last;
    if 0 < last {
        measured.silences.add(milliseconds(last, time));
    }
    add(&mut measured.waits, remarks.waits);
    count_unit(measured, time, header.kind);
    keep_moment(measured, header, time);
}

/// Returns `true` if a PDU is the first that confirms its timestamp.
fn answers(confirmed: u32, header: &Header, remarks: &Remarks) -> bool
    ensures { result ≡ is_first_answer confirmed header.now remarks.now }
{
    is_answer_kind(header.kind)
        && remarks.age.is_some()
        && !matches!(remarks.together, NumberOrder::Late)
        && header.cts != confirmed
}

/// Returns `true` if the confirmation of a type of PDU is measured.
fn is_answer_kind(kind: Kind) -> bool
    ensures { result ≡ is_answer kind }
{
    match kind {
        Kind::RetrReq | Kind::RetrResp | Kind::RetrData => false,
        Kind::ConnReq | Kind::ConnResp | Kind::DiscReq | Kind::Heartbeat | Kind::Data => true,
    }
}

/// Adds the time since a moment to a distribution, if there is one.
fn add_span(distribution: &mut Distribution, from: Option<u64>, to: u64)
    ensures { distribution.new ≡ with_span distribution.old from to }
{
    if let Some(from) = from {
        distribution.add(milliseconds(from, to));
    }
}

/// Adds a value to a distribution, if there is one.
fn add(distribution: &mut Distribution, value: Option<u32>)
    ensures { distribution.new ≡ with_some distribution.old value }
{
    if let Some(value) = value {
        distribution.add(value);
    }
}

/// Returns the whole milliseconds between two times in microseconds.
fn milliseconds(from: u64, to: u64) -> u32
    ensures { result ≡ millis_between from to }
{
    let millis = to.saturating_sub(from) / 1_000;
    millis.min(0xffff_ffff) as u32
}

/// Counts a PDU in the units of its second.
fn count_unit(measured: &mut Measurements, time: u64, kind: Kind)
    ensures { measured.new ≡ add_unit measured.old time kind }
{
    measured.units = units(measured, time, kind);
    measured.busiest = measured.busiest.max(measured.units);
}

/// Returns the units in the second of a PDU, with this one.
fn units(measured: &Measurements, time: u64, kind: Kind) -> u16
    ensures { result ≡ units_in_second measured.now time kind }
{
    let before = if time / 1_000_000 == measured.last / 1_000_000 {
        measured.units
    } else {
        0
    };
    match kind {
        Kind::Data => before.saturating_add(1),
        _ => before,
    }
}

/// Keeps a new PDU with its time.
fn keep_moment(measured: &mut Measurements, header: &Header, time: u64)
    ensures { measured.new ≡ store_moment measured.old header.now time }
{
    let slot = header.sn as usize % MOMENTS;
    measured.stamps[slot] = header.ts;
    measured.times[slot] = time;
    measured.last = time;
}
