//! The wait after a turn.

ghost use Rattle.std.specs.Prelude.{◌≡◌, ℕ};
ghost use Rattle.stack_end.specs.Deadlines.{earliest};
ghost use Rattle.rasta_run.specs.Waits.{TakesRest, again_at, longest_rest, rest_of};

use octets::Milliseconds;
use rasta_words::RunLength;
use std::cmp::min;
use std::time::Duration;
use udp_channels::Watch;

/// The longest wait after a turn that found nothing, if turns are counted, in milliseconds. The system may wait
/// one longer.
const WAIT_MAX: u64 = 4;

/// The longest wait if a run lasts until input ends, in milliseconds. Input ends a wait as a datagram does.
const INPUT_WAIT_MAX: u64 = 1_000;

/// The wait after a turn in which a reception failed, in milliseconds.
const DEAF_WAIT: u64 = 10;

/// Something that waits until a datagram or a line of input comes.
pub trait Waiter {
    // How a wait of this many milliseconds changes it.
    ghost waits: { Self → ℕ → Self → Type 0 };

    /// Waits until a datagram comes, or this many milliseconds have passed.
    fn wait(&mut self, milliseconds: u64)
        // `wait` changes `self` as `waits` says for this time.
        ensures { waits self.old milliseconds self.new };
}

impl Waiter for Watch {
    ghost waits = { λ _ _ _. Unit {0} };

    fn wait(&mut self, milliseconds: u64) {
        Watch::wait(self, Duration::from_millis(milliseconds));
    }
}

/// Waits after a turn.
pub fn take_rest<T: Waiter>(
    waiter: &mut T,
    length: RunLength,
    found: bool,
    now: Milliseconds,
    deadline: Option<Milliseconds>,
)
    // `take_rest` waits once, for the time of `rest_of`, or not at all if there is none. Over sockets nothing is
    // claimed of a wait.
    ensures { TakesRest T.waits (rest_of length found now deadline) waiter.old waiter.new }
{
    if let Some(pause) = rest(length, found, now, deadline) {
        waiter.wait(pause);
    }
}

/// Returns how long to wait after a turn, in milliseconds: not at all if it found something; else until the
/// deadline, but no longer than the longest wait.
fn rest(
    length: RunLength,
    found: bool,
    now: Milliseconds,
    deadline: Option<Milliseconds>,
) -> Option<u64>
    ensures { result ≡ rest_of length found now deadline }
{
    let most = longest(length);
    match (found, deadline) {
        (true, _) => None,
        (false, Some(deadline)) => Some(deadline.saturating_sub(now).min(most)),
        (false, None) => Some(most),
    }
}

/// Returns the longest wait, in milliseconds.
fn longest(length: RunLength) -> Milliseconds
    ensures { result ≡ longest_rest length }
{
    match length {
        RunLength::Turns(_) => WAIT_MAX,
        RunLength::UntilEnd => INPUT_WAIT_MAX,
    }
}

/// Returns the earlier of two deadlines that may be absent.
pub fn earlier(first: Option<Milliseconds>, second: Option<Milliseconds>) -> Option<Milliseconds>
    // `earlier` returns the earlier deadline if both are there, and else the one that is there.
    ensures { result ≡ earliest first second }
{
    match (first, second) {
        (None, deadline) | (deadline, None) => deadline,
        (Some(first), Some(second)) => Some(min(first, second)),
    }
}

/// Returns when an end tries again after turns in which a reception failed, in milliseconds.
pub fn again_at(deaf_turns: u64, last_turn: Milliseconds) -> Option<Milliseconds>
    // `again_at` returns 10 ms after the last turn if a reception failed in it, and else `None`.
    ensures { result ≡ again_at deaf_turns last_turn }
{
    match deaf_turns {
        0 => None,
        _ => Some(last_turn.saturating_add(DEAF_WAIT)),
    }
}
