//! How old the oldest line is that waits for the reader of standard output.
//!
//! The bytes that wait are cut at a boundary: those before it came after `since`, and those behind it after `at`. So
//! the age that is computed is never below the true one.

ghost use Rattle.std.specs.Prelude.{◌≡◌};
ghost use Rattle.rasta_run.specs.Lateness as late;

use octets::Milliseconds;

/// For how long lines wait until that is logged, in milliseconds.
const TOLD_AFTER: u64 = 100;

/// How the reader of standard output gets on.
#[derive(Clone, Copy, Debug, PartialEq, Eq)]
pub enum ReaderState {
    /// It reads, or it is known that it does not.
    Known,
    /// It is found behind.
    Behind,
    /// The oldest line that it has not read is too old.
    Stale,
}

/// The bytes that wait for the reader of standard output, of an age.
#[derive(Clone, Copy, Debug, PartialEq, Eq)]
pub struct Boundary {
    /// When the oldest byte that waits came at the earliest, in milliseconds.
    pub since: Milliseconds,
    /// When the boundary was set, in milliseconds.
    pub at: Milliseconds,
    /// The number of bytes of the whole output up to the boundary, modulo 2^64.
    pub place: u64,
}

/// How far the reader of standard output is behind.
#[derive(Clone, Copy, Debug, PartialEq, Eq)]
pub struct Lateness {
    /// The bytes that wait, if any do.
    pub boundary: Option<Boundary>,
    /// Whether it was logged that they wait.
    pub is_told: bool,
}

impl Lateness {
    /// Returns that nothing waits.
    pub fn none() -> Self
        // In `none` nothing waits.
        ensures { result ≡ late.none }
    {
        Lateness {
            boundary: None,
            is_told: false,
        }
    }

    /// Looks at the number of bytes that the stream took so far, and at that of the bytes that wait. A line is too old
    /// from this `patience` on, in milliseconds.
    pub fn look(
        &mut self,
        gone: u64,
        waiting: usize,
        patience: Milliseconds,
        now: Milliseconds,
    ) -> ReaderState
        // After `look` the boundary is that of the bytes that wait.
        ensures moved { self.new.boundary ≡ late.boundary_after gone waiting now self.old.boundary }
        // `look` returns `Stale` if and only if bytes wait that may be as old as the `patience`.
        ensures stale { result ≡ late.state_of self.old.is_told self.new.boundary patience now }
    {
        self.boundary = boundary_after(gone, waiting, now, self.boundary);
        let state = state_of(self.is_told, self.boundary, patience, now);
        self.is_told = match (self.boundary, state) {
            (None, _) => false,
            (Some(_), ReaderState::Known) => self.is_told,
            (Some(_), _) => true,
        };
        state
    }
}

/// Returns the boundary of the bytes that wait.
fn boundary_after(
    gone: u64,
    waiting: usize,
    now: Milliseconds,
    before: Option<Boundary>,
) -> Option<Boundary>
    ensures { result ≡ late.boundary_after gone waiting now before }
{
    let place = gone.wrapping_add(waiting as u64);
    match (waiting, before) {
        (0, _) => None,
        (_, None) => Some(Boundary {
            since: now,
            at: now,
            place,
        }),
        (_, Some(boundary)) => Some(moved(boundary, gone, place, now)),
    }
}

/// Returns a boundary, or the next one if no byte before it waits.
fn moved(boundary: Boundary, gone: u64, place: u64, now: Milliseconds) -> Boundary
    ensures { result ≡ late.moved boundary gone place now }
{
    let behind = place.wrapping_sub(boundary.place);
    let waiting = place.wrapping_sub(gone);
    if behind < waiting {
        return boundary;
    }
    Boundary {
        since: boundary.at,
        at: now,
        place,
    }
}

/// Returns how the reader gets on.
fn state_of(
    is_told: bool,
    boundary: Option<Boundary>,
    patience: Milliseconds,
    now: Milliseconds,
) -> ReaderState
    ensures { result ≡ late.state_of is_told boundary patience now }
{
    let Some(boundary) = boundary else {
        return ReaderState::Known;
    };
    let age = now.saturating_sub(boundary.since);
    if patience <= age {
        return ReaderState::Stale;
    }
    if !is_told && TOLD_AFTER <= age {
        return ReaderState::Behind;
    }
    ReaderState::Known
}
