//! When an end that is kept is opened again.
//!
//! A field element opens again T_max/8 after its last opening, an interlocking T_max/4 after it disconnected. So
//! the last PDUs of the old connection are gone before the new request. An interlocking whose openings get no session that
//! lasts waits longer, up to T_max: between them, or after one that had a session.

ghost use Rattle.std.specs.Prelude.{◌≡◌, None, false};
ghost use Rattle.rasta_run.specs.Keepers as keeping;

use end_settings::{EndConfig, Side};
use octets::Milliseconds;

/// The number of openings in a row without a session from which the log only counts them.
const ROW_MAX: u64 = 2;

/// The time between two counts of them in the log, in milliseconds.
const COUNT_WAIT: u64 = 60_000;

/// The times that decide when an end is opened again.
#[derive(Clone, Copy, Debug, PartialEq, Eq)]
pub struct Keeper {
    /// The settings with which it is opened.
    pub config: EndConfig,
    /// When it was last opened, in milliseconds.
    pub opened: u64,
    /// Since when it is stale, in milliseconds; `None` if it is not.
    pub left: Option<Milliseconds>,
    /// Whether this opening got a session.
    pub had_session: bool,
    /// Whether this opening got a session that lasted.
    pub has_lasted: bool,
    /// The number of openings in a row before this one that got no session that lasted; 0 once this one got it.
    pub fruitless: u64,
    /// When the log last had that number, in milliseconds.
    pub counted_at: Milliseconds,
}

impl Keeper {
    /// Returns the keeper of an end that is opened now.
    pub fn new(config: EndConfig, now: Milliseconds) -> Self
        // A new keeper has these settings, was opened `now`, and is neither stale nor after an opening without a session.
        ensures { result ≡ record { config = config; opened = now; left = None; had_session = false; has_lasted = false; fruitless = 0; counted_at = now } }
    {
        Keeper {
            config,
            opened: now,
            left: None,
            had_session: false,
            has_lasted: false,
            fruitless: 0,
            counted_at: now,
        }
    }

    /// Looks at an end, and returns how long it is until it is opened again, in milliseconds. Returns `None` if it
    /// may still connect.
    pub fn look(
        &mut self,
        side: Side,
        is_stale: bool,
        is_up: bool,
        now: Milliseconds,
    ) -> Option<u64>
        // `look` records since when the end is stale, and whether it has got a session. One that has lasted for three T_max
        // since the opening ends a row of openings without one.
        ensures seen { self.new ≡ keeping.see_end is_stale is_up now self.old }
        // `look` returns the wait until the end is opened again, if it is stale.
        ensures until { result ≡ keeping.wait_until_reopening side self.new now }
    {
        self.left = left_by(self.left, is_stale, now);
        self.had_session = self.had_session || is_up;
        let lasts = self.is_lasting(is_up, now);
        self.has_lasted = self.has_lasted || lasts;
        self.fruitless = row_of(lasts, self.fruitless);
        match self.left {
            None => None,
            Some(left) => Some(self.rest_of(side, left, now)),
        }
    }

    /// Returns whether a session lasts: it is established three T_max after the opening.
    fn is_lasting(&self, is_up: bool, now: Milliseconds) -> bool
        ensures { result ≡ keeping.is_lasting is_up now self.now }
    {
        is_up && self.config.t_max <= now.saturating_sub(self.opened) / 3
    }

    /// Returns how long it is until an end that is stale since `left` is opened again, in milliseconds.
    fn rest_of(&self, side: Side, left: Milliseconds, now: Milliseconds) -> Milliseconds
        ensures { result ≡ keeping.rest_of side self.now left now }
    {
        let t_max = self.config.t_max;
        let since_opening = now.saturating_sub(self.opened);
        match side {
            Side::Interlocking => {
                let pause = pause_of(self.fruitless, t_max);
                let least = least_after(self.had_session, pause, t_max);
                let after_leaving = least.saturating_sub(now.saturating_sub(left));
                after_leaving.max(pause.saturating_sub(since_opening))
            }
            Side::FieldElement => (t_max / 8).saturating_sub(since_opening),
        }
    }

    /// Records that the end was opened again.
    pub fn note(&mut self, now: Milliseconds)
        // `note` sets the time of the opening, forgets when the end was found stale, and counts the opening before if
        // that got no session.
        ensures { self.new ≡ keeping.reopen_keeper now self.old }
    {
        self.opened = now;
        self.left = None;
        self.fruitless = row_after(self.has_lasted, self.fruitless);
        self.had_session = false;
        self.has_lasted = false;
    }

    /// Returns whether the log only counts openings, because some in a row got no session.
    pub fn is_counted(&self) -> bool
        // `is_counted` is true if and only if at least two openings in a row got no session.
        ensures { result ≡ keeping.is_counted self.now }
    {
        self.fruitless >= ROW_MAX
    }

    /// Returns how many openings in a row got no session, if the log is to have that now: when they are two, and
    /// then once a minute.
    pub fn count(&mut self, now: Milliseconds) -> Option<u64>
        // `count` returns the number if it is 2, or if it is more and the log last had it a minute ago.
        ensures count { result ≡ keeping.count_by (keeping.is_count_due self.old now) self.old.fruitless }
        // If it returns a number, `count` records the time; it changes nothing else.
        ensures kept { self.new ≡ keeping.keeper_after_count (keeping.is_count_due self.old now) now self.old }
    {
        let is_late = now.saturating_sub(self.counted_at) >= COUNT_WAIT;
        if self.fruitless == ROW_MAX || (self.fruitless > ROW_MAX && is_late) {
            self.counted_at = now;
            return Some(self.fruitless);
        }
        None
    }
}

/// Returns since when an end is stale.
fn left_by(before: Option<Milliseconds>, is_stale: bool, now: Milliseconds) -> Option<Milliseconds>
    ensures { result ≡ keeping.stale_since before is_stale now }
{
    match (is_stale, before) {
        (true, Some(at)) => Some(at),
        (true, None) => Some(now),
        (false, _) => None,
    }
}

/// Returns the number of openings in a row without a session, when an end is seen.
fn row_of(lasts: bool, fruitless: u64) -> u64
    ensures { result ≡ keeping.row_of lasts fruitless }
{
    match lasts {
        true => 0,
        false => fruitless,
    }
}

/// Returns the number of openings in a row without a session, after one more opening.
fn row_after(has_lasted: bool, fruitless: u64) -> u64
    ensures { result ≡ keeping.row_after has_lasted fruitless }
{
    match has_lasted {
        true => 0,
        false => fruitless.saturating_add(1),
    }
}

/// Returns the least time between two openings of an interlocking, in milliseconds.
fn pause_of(fruitless: u64, t_max: Milliseconds) -> Milliseconds
    ensures { result ≡ keeping.pause_of fruitless t_max }
{
    match fruitless {
        0 => t_max / 4,
        1 => t_max / 2,
        _ => t_max,
    }
}

/// Returns the least time between a departure of an interlocking and its next opening, in milliseconds.
fn least_after(had_session: bool, pause: Milliseconds, t_max: Milliseconds) -> Milliseconds
    ensures { result ≡ keeping.least_after had_session pause t_max }
{
    match had_session {
        true => pause,
        false => t_max / 4,
    }
}

/// Returns whether a wait is over.
pub fn is_wait_over(until: Option<Milliseconds>) -> bool
    // `is_wait_over` is true if and only if there is a wait, and nothing of it is left.
    ensures { result ≡ keeping.is_wait_over until }
{
    match until {
        None => false,
        Some(rest) => rest == 0,
    }
}

/// Returns when a wait that begins now is over.
pub fn end_of_wait(until: Option<Milliseconds>, now: Milliseconds) -> Option<Milliseconds>
    // `end_of_wait` returns the end of the wait, at most 2^64 - 1, and `None` without a wait.
    ensures { result ≡ keeping.end_of_wait until now }
{
    match until {
        None => None,
        Some(rest) => Some(now.saturating_add(rest)),
    }
}
