//! The settings that fit the network of a recording, by the rule of docs/choosing.md.

ghost use Rattle.std.specs.Prelude.{◌≡◌, ◌<◌, IfSome};
ghost use Rattle.std.specs.List.{position};
ghost use Rattle.capture_text.specs.SettingsRule.{HasRoom, ObeysRule, choose_settings, class_end, delays_of, difference_or, greater_of, greatest_in, half_of, least_class, least_in, loss_of, losses_in, more_lost, network_of, pdus_in, shortest_of, shortest_or, skew_of, units_in, with_margin};

use capture::{CLASSES, Connection, Direction, Distribution, Measures, Window};

/// The redundancy layer's deferral queue (q), in PDUs.
const QUEUE: u32 = 8;

/// The unconfirmed units (n_sendmax).
const WINDOW: u32 = 7;

/// The units that are taken before a heartbeat confirms them (mwa).
const CONFIRM_AFTER: u32 = 3;

/// The shortest time one way that is assumed without round trips, in milliseconds.
const SHORTEST_ASSUMED: u64 = 5;

/// The least margin of T_seq above the difference, in milliseconds: what hosts may add.
const MARGIN: u64 = 5;

/// The least T_seq that an end accepts, in milliseconds.
const T_SEQ_LEAST: u64 = 10;

/// The least T_h that is chosen, in milliseconds.
const T_H_LEAST: u64 = 100;

/// The greatest difference for which T_seq can be above it, in milliseconds.
const DIFFERENCE_MAX: u64 = 800;

/// The greatest time one way for which T_max can be long enough, in milliseconds.
const DELAY_MAX: u64 = 8_000;

/// What a recording tells of the network between two ends. Times are milliseconds.
#[derive(Clone, Copy, Debug, PartialEq, Eq)]
pub struct Network {
    /// The PDUs of both ends.
    pub pdus: u64,
    /// The greatest share of its datagrams that a channel lost one way, in millionths (p).
    pub lost: u64,
    /// Half of the shortest round trips of both ends; `None` if one end has none.
    pub shortest: Option<u64>,
    /// The greatest skew; `None` if no copy came on another channel.
    pub skew: Option<u64>,
    /// The most units one way in a second.
    pub units: u16,
}

/// The times by which settings are chosen, in milliseconds.
#[derive(Clone, Copy, Debug, PartialEq, Eq)]
pub struct Delays {
    /// How much longer one datagram may take than another (D).
    pub difference: u64,
    /// The longest time one way (d).
    pub delay: u64,
}

/// Settings of both ends. Times are milliseconds.
#[derive(Clone, Copy, Debug, PartialEq, Eq)]
pub struct ChosenSettings {
    /// The unconfirmed units (n_sendmax).
    pub window: u32,
    /// The units that are taken before a heartbeat confirms them.
    pub mwa: u32,
    /// The deferral queue.
    pub q: u32,
    /// T_seq.
    pub t_seq: u64,
    /// T_h.
    pub t_h: u64,
    /// T_max.
    pub t_max: u64,
}

/// Returns what a recorded connection tells of its network.
pub(crate) fn observe(connection: &Connection) -> Network
    ensures { result ≡ network_of connection.now }
{
    let measures = &connection.measures;
    Network {
        pdus: pdus(connection),
        lost: greatest_loss(&connection.from_low).max(greatest_loss(&connection.from_high)),
        shortest: shortest(&measures.low.round_trips, &measures.high.round_trips),
        skew: greater(
            greatest(&measures.low.skews),
            greatest(&measures.high.skews),
        ),
        units: units(measures),
    }
}

/// Returns how many PDUs of both ends came in order.
fn pdus(connection: &Connection) -> u64
    ensures { result ≡ pdus_in connection.now }
{
    let low = connection.from_low.together.heard;
    low.saturating_add(connection.from_high.together.heard)
}

/// Returns the most units of either end in a second.
fn units(measures: &Measures) -> u16
    ensures { result ≡ units_in measures.now }
{
    measures.low.busiest.max(measures.high.busiest)
}

/// Returns the greatest share of datagrams that a channel of an end lost, in millionths.
fn greatest_loss(direction: &Direction) -> u64
    ensures { result ≡ losses_in direction.now }
{
    direction
        .channels
        .iter()
        .fold(0, |most, window| greater_loss(most, window))
}

/// Returns the greater of a loss and that of one more channel.
fn greater_loss(most: u64, window: &Window) -> u64
    ensures { result ≡ more_lost most window.now }
{
    most.max(loss(window))
}

/// Returns the share of its datagrams that a channel lost, in millionths.
fn loss(window: &Window) -> u64
    ensures { result ≡ loss_of window.now }
{
    let came = window.heard.saturating_add(window.late);
    let all = came.saturating_add(window.missing);
    window.missing.saturating_mul(1_000_000) / all.max(1)
}

/// Returns half of the shortest round trips of two ends.
fn shortest(one: &Distribution, other: &Distribution) -> Option<u64>
    ensures { result ≡ shortest_of one.now other.now }
{
    match (least(one), least(other)) {
        (Some(one), Some(other)) => Some(half(one, other)),
        _ => None,
    }
}

/// Returns half of the sum of two times, rounded up.
fn half(one: u64, other: u64) -> u64
    ensures { result ≡ half_of one other }
{
    one.saturating_add(other).saturating_add(1) / 2
}

/// Returns the greatest value of the least class that has values.
fn least(distribution: &Distribution) -> Option<u64>
    ensures { result ≡ least_in distribution.now }
{
    match first_class(&distribution.counts) {
        None => None,
        Some(class) => Some(end_of_class(class)),
    }
}

/// Returns the least class that has values.
fn first_class(counts: &[u32; CLASSES]) -> Option<usize>
    // The class is the first place whose count is not 0.
    ensures value { result ≡ least_class counts.now }
    // A class that has values is below `CLASSES`.
    ensures bound { IfSome result (λ class. class < CLASSES) }
{
    counts.iter().position(|count| 0 < *count)
}

/// Returns the greatest value of a class.
fn end_of_class(class: usize) -> u64
    requires { class < CLASSES }
    ensures { result ≡ class_end class }
{
    (1u64 << class) - 1
}

/// Returns the greatest value of a distribution.
fn greatest(distribution: &Distribution) -> Option<u64>
    ensures { result ≡ greatest_in distribution.now }
{
    match first_class(&distribution.counts) {
        None => None,
        Some(_) => Some(distribution.greatest as u64),
    }
}

/// Returns the greater of two times, if there is one.
fn greater(one: Option<u64>, other: Option<u64>) -> Option<u64>
    ensures { result ≡ greater_of one other }
{
    match (one, other) {
        (Some(one), Some(other)) => Some(one.max(other)),
        (Some(time), None) | (None, Some(time)) => Some(time),
        (None, None) => None,
    }
}

/// Returns the times by which settings are chosen.
pub(crate) fn find_delays(network: &Network) -> Delays
    ensures { result ≡ delays_of network.now }
{
    let shortest = shortest_or_assumed(network.shortest);
    let difference = match network.skew {
        None => shortest,
        Some(skew) => skew,
    };
    Delays {
        difference,
        delay: shortest.saturating_add(difference),
    }
}

/// Returns the shortest time one way, or the one that is assumed.
fn shortest_or_assumed(shortest: Option<u64>) -> u64
    ensures { result ≡ shortest_or shortest }
{
    match shortest {
        None => SHORTEST_ASSUMED,
        Some(shortest) => shortest,
    }
}

/// Returns the settings for a network with these times; `None` if an end accepts none that obey the rule.
pub(crate) fn choose(delays: Delays) -> Option<ChosenSettings>
    // The settings are those of `choose_settings`.
    ensures value { result ≡ choose_settings delays }
    // The settings obey the rule: window - 1 + window/mwa is at most q, and mwa is below the window. T_seq is above the
    // difference, T_h at least T_seq, and T_max at least 3 T_h + T_seq + 4 d (`ObeysRule`).
    ensures rule { IfSome result (λ settings. ObeysRule delays settings) }
    // An end accepts the settings: each is in its range (`HasRoom`).
    ensures ranges { IfSome result (λ settings. HasRoom settings) }
{
    if delays.difference > DIFFERENCE_MAX || delays.delay > DELAY_MAX {
        return None;
    }
    let t_seq = above(delays.difference);
    let t_h = (2 * t_seq).max(T_H_LEAST);
    Some(ChosenSettings {
        window: WINDOW,
        mwa: CONFIRM_AFTER,
        q: QUEUE,
        t_seq,
        t_h,
        t_max: 4 * t_h + 2 * t_seq + 6 * delays.delay,
    })
}

/// Returns the T_seq for a difference.
fn above(difference: u64) -> u64
    requires { difference < 2000 }
    ensures { result ≡ with_margin difference }
{
    let margin = (difference / 4).max(MARGIN);
    (difference + margin).max(T_SEQ_LEAST)
}
