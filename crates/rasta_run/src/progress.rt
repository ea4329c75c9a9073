//! When a run until the end of input gives up: T_max after it last got on, which is a telegram put or confirmed, or an
//! opening.

ghost use Rattle.std.specs.Prelude.{◌≡◌};
ghost use Rattle.rasta_run.specs.Progress as progress;

use octets::Milliseconds;
use safe_machine::ConnectionState;

/// What shows that an end gets on.
#[derive(Clone, Copy, Debug, PartialEq, Eq)]
pub struct ProgressMarks {
    /// The number of telegrams put, modulo 2^64.
    pub put: u64,
    /// The number of telegrams confirmed since the opening.
    pub confirmed: u64,
    /// The number of openings, modulo 2^64.
    pub openings: u64,
}

/// When an end last got on.
#[derive(Clone, Copy, Debug, PartialEq, Eq)]
pub struct Progress {
    /// What it had gained then.
    pub gained: ProgressMarks,
    /// When that was, in milliseconds.
    pub at: Milliseconds,
}

impl Progress {
    /// Returns the progress of an end that is opened at a time, in milliseconds.
    pub fn beginning(at: Milliseconds) -> Self
        // `beginning` returns a progress without any gain at this time.
        ensures { result ≡ progress.new_progress at }
    {
        let gained = ProgressMarks {
            put: 0,
            confirmed: 0,
            openings: 0,
        };
        Progress { gained, at }
    }

    /// Compares what an end has gained by now. While it waits for its peer, the time does not count.
    pub fn look(&mut self, gained: ProgressMarks, waits: bool, now: Milliseconds)
        // After `look` the end last got on `now`, if it has gained anything or waits for its peer, and else when it
        // did before.
        ensures { self.new ≡ progress.progress_after gained waits now self.old }
    {
        let is_same = gained.put == self.gained.put
            && gained.confirmed == self.gained.confirmed
            && gained.openings == self.gained.openings;
        if !is_same || waits {
            *self = Progress { gained, at: now };
        }
    }

    /// Returns when the end gives up, in milliseconds.
    pub fn limit(&self, t_max: Milliseconds) -> Milliseconds
        // `limit` returns T_max after the end last got on, at most 2^64 - 1.
        ensures { result ≡ progress.limit_of self.now.at t_max }
    {
        self.at.saturating_add(t_max)
    }
}

/// Returns whether an end waits for its peer, and so does not give up.
pub fn waits_for_peer(state: ConnectionState, is_kept: bool) -> bool
    // `waits_for_peer` is true if and only if the end is kept, and the state is Closed or Down.
    ensures { result ≡ progress.waits_for_peer state is_kept }
{
    match state {
        ConnectionState::Closed | ConnectionState::Down => is_kept,
        _ => false,
    }
}

/// Returns whether an end has nothing left to do once input is done.
pub fn is_finished(state: ConnectionState, is_kept: bool, is_empty: bool, settled: bool) -> bool
    // `is_finished` is true if nothing is left to put and the end is settled, or if its connection is closed: for
    // good, or with nothing left to put.
    ensures { result ≡ progress.is_finished state is_kept is_empty settled }
{
    match state {
        ConnectionState::Closed => !is_kept || is_empty,
        _ => settled && is_empty,
    }
}

/// Returns whether an end is over, once input has ended.
pub fn is_over(input_done: bool, is_finished: bool, limit: Milliseconds, now: Milliseconds) -> bool
    // `is_over` is true if and only if all input is done and the end is finished, or the time to give up is
    // reached.
    ensures { result ≡ progress.is_over input_done is_finished limit now }
{
    (input_done && is_finished) || limit <= now
}
