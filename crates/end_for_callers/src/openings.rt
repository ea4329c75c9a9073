//! When an end is opened again, and what is kept over its openings.

ghost use Rattle.std.specs.Prelude.{◌≡◌};
ghost use Rattle.end_for_callers.specs.Openings as kept;

use crate::totals::{add_counts, no_counts};
use end_settings::Side;
use octets::Milliseconds;
use stack_end::{Departure, Statistics};

/// What is kept over the openings of an end. It decides when the end is opened again.
///
/// An interlocking is opened T_max/4 after it was closed: by then its last PDUs have arrived at the field element, so
/// that its request finds that one newly opened. Between two openings it also waits T_max/4, after one that did not
/// last T_max/2, and after several T_max. A field element is opened T_max/8 after its last opening, and never later,
/// so that it is ready for the next request.
#[derive(Clone, Copy, Debug, PartialEq, Eq)]
pub struct Openings {
    /// The side of the end.
    pub side: Side,
    /// T_max, in milliseconds.
    pub t_max: Milliseconds,
    /// When the end was last opened, in milliseconds.
    pub opened: Milliseconds,
    /// How many openings in a row before the last one did not last, that is, 2 * T_max.
    pub short: u64,
    /// How often the end was opened, modulo 2^64.
    pub count: u64,
    /// The sums of what it counted in the openings before the last one.
    pub earlier: Statistics,
    /// Who ended the latest connection before the last opening, why and when.
    pub departed: Option<Departure>,
}

impl Openings {
    /// Returns what is kept at the first opening.
    pub fn new(side: Side, t_max: Milliseconds, now: Milliseconds) -> Self
        // One opening is counted, and nothing before it.
        ensures { result ≡ kept.first_opening side t_max now }
    {
        Openings {
            side,
            t_max,
            opened: now,
            short: 0,
            count: 1,
            earlier: no_counts(),
            departed: None,
        }
    }

    /// Returns how long it is until an end that was closed at a time is opened again, in milliseconds.
    pub fn wait(&self, closed: Milliseconds, now: Milliseconds) -> Milliseconds
        // An interlocking waits T_max/4 after it was closed, and the pause after its last opening; a field element
        // waits T_max/8 after its last opening (`wait_of`).
        ensures { result ≡ kept.wait_of self.now closed now }
    {
        let since_opening = now.saturating_sub(self.opened);
        match self.side {
            Side::Interlocking => {
                let after_closing = (self.t_max / 4).saturating_sub(now.saturating_sub(closed));
                let apart = pause_of(self.short, self.t_max).saturating_sub(since_opening);
                after_closing.max(apart)
            }
            Side::FieldElement => (self.t_max / 8).saturating_sub(since_opening),
        }
    }

    /// Returns what is kept when the end is opened again: it has these counts, and this departure if it is closed.
    pub fn next(&self, counts: &Statistics, departed: Option<Departure>, now: Milliseconds) -> Self
        // The opening is counted, and the counts are added. The row of openings that did not last goes on, or is 0 if
        // 2 * T_max passed from the last opening until the end was closed. The latest departure is kept.
        ensures { result ≡ kept.next_opening self.now counts.now departed now }
    {
        let lasted = has_lasted(self, closed_at(departed, now));
        Openings {
            side: self.side,
            t_max: self.t_max,
            opened: now,
            short: if lasted {
                0
            } else {
                self.short.saturating_add(1)
            },
            count: self.count.wrapping_add(1),
            earlier: add_counts(&self.earlier, counts),
            departed: last_departure(departed, self.departed),
        }
    }
}

/// Returns the first of two departures.
pub(crate) fn last_departure(
    departed: Option<Departure>,
    before: Option<Departure>,
) -> Option<Departure>
    ensures { result ≡ kept.last_departure departed before }
{
    match departed {
        Some(left) => Some(left),
        None => before,
    }
}

/// Returns the time at which an end was closed, or another time if it was not.
pub(crate) fn closed_at(departed: Option<Departure>, other: Milliseconds) -> Milliseconds
    ensures { result ≡ kept.closed_at departed other }
{
    match departed {
        Some(left) => left.time,
        None => other,
    }
}

/// Returns true if the last opening lasted until this time.
fn has_lasted(openings: &Openings, until: Milliseconds) -> bool
    ensures { result ≡ kept.has_lasted openings.now until }
{
    openings.t_max <= until.saturating_sub(openings.opened) / 2
}

/// Returns the least time between two openings of an interlocking, in milliseconds.
fn pause_of(short: u64, t_max: Milliseconds) -> Milliseconds
    ensures { result ≡ kept.pause_of short t_max }
{
    match short {
        0 => t_max / 4,
        1 => t_max / 2,
        _ => t_max,
    }
}
