//! The window of recent numbers: which were seen, and how the next one follows them.

ghost use Rattle.std.specs.Prelude.{◌≡◌, ◌<◌, ◌%◌};
ghost use Rattle.capture.specs.Numbers.{line_seen, number_order, order_again, order_ahead, order_from, keep_entry, move_window, note_number, open_window, restart_window, seen_of};

/// How many numbers are kept: one for each remainder modulo 32. 32 divides 2^32, so the ring wraps within it.
pub const KEPT: usize = 32;

/// How many numbers before the newest may still come late: one less than are kept, so that a late number never takes
/// the slot of the newest.
pub const LATE_MAX: u32 = 31;

/// Largest gap that counts as missing numbers; a number further ahead starts the window again.
pub const PASSED_MAX: u32 = 65_535;

/// A number that was seen.
#[derive(Clone, Copy, Debug, PartialEq, Eq)]
pub struct SeenNumber {
    /// The number.
    pub number: u32,
    /// The line on which it was seen first.
    pub line: u64,
    /// The fingerprint of the bytes that it had there.
    pub fingerprint: u64,
}

/// The recent numbers of a channel or a direction, and their counts.
#[derive(Clone, Copy, Debug, PartialEq, Eq)]
pub struct Window {
    /// The furthest number so far; `None` if the next number starts the window.
    pub newest: Option<u32>,
    /// How many of the numbers directly before it were seen or skipped since the window started, at most `LATE_MAX`.
    pub behind: u32,
    /// For each remainder, the last number that was seen since the window started, if its line is not 0.
    pub numbers: [u32; KEPT],
    /// For each remainder, the line of that number; 0 if there was none. Lines count from 1.
    pub lines: [u64; KEPT],
    /// For each remainder, the fingerprint of that number.
    pub fingerprints: [u64; KEPT],
    /// How many different numbers came in order.
    pub heard: u64,
    /// How many were skipped and have not come.
    pub missing: u64,
    /// How many were skipped and came later.
    pub late: u64,
    /// How many came again with the same bytes.
    pub repeats: u64,
    /// How many came again with other bytes.
    pub differing: u64,
    /// How many came so late that it is unknown if they came before.
    pub stale: u64,
}

/// How a number follows the ones seen before it.
#[derive(Clone, Copy, Debug, PartialEq, Eq)]
pub enum NumberOrder {
    /// It is the first one.
    First,
    /// It is the next one.
    Next,
    /// It is further ahead; so many numbers are missing in between.
    Ahead(u32),
    /// It was skipped, and comes after a later number.
    Late,
    /// It came on this line before, with the same bytes.
    Repeat(u64),
    /// It came on this line before, with other bytes.
    Differs(u64),
    /// It is further back than the window: it came before, is still missing, or is older than the first one.
    Stale,
    /// It is further ahead than a gap may be: the window starts again.
    Anew,
}

impl Window {
    /// Returns a window without numbers.
    pub fn new() -> Self
        // The new window has no newest number, no entry, and all counts 0.
        ensures { result ≡ open_window }
    {
        Window {
            newest: None,
            behind: 0,
            numbers: [0; KEPT],
            lines: [0; KEPT],
            fingerprints: [0; KEPT],
            heard: 0,
            missing: 0,
            late: 0,
            repeats: 0,
            differing: 0,
            stale: 0,
        }
    }
}

/// Returns how a number follows the ones seen, by the number and the fingerprint of its bytes.
pub fn judge(window: &Window, number: u32, fingerprint: u64) -> NumberOrder
    // A kept number is a repeat if its fingerprint is the same, otherwise it differs. Any other is judged by its
    // distance from the newest. Up to 2^31 steps back it is stale, unless it is one of the 31 before the newest that
    // was skipped.
    ensures { result ≡ number_order window.now number fingerprint }
{
    match find(window, number) {
        Some(seen) => judge_again(seen, fingerprint),
        None => judge_new(window, number),
    }
}

/// Returns the line on which a number was seen first, if it is kept.
pub(crate) fn line_of(window: &Window, number: u32) -> Option<u64>
    ensures { result ≡ line_seen window.now number }
{
    let seen = find(window, number)?;
    Some(seen.line)
}

/// Returns the entry of a number, if it is kept.
fn find(window: &Window, number: u32) -> Option<SeenNumber>
    ensures { result ≡ seen_of window.now number }
{
    let slot = number as usize % KEPT;
    let line = window.lines[slot];
    if line == 0 || window.numbers[slot] != number {
        return None;
    }
    Some(SeenNumber {
        number,
        line,
        fingerprint: window.fingerprints[slot],
    })
}

/// Compares a number that came again with its first arrival.
fn judge_again(seen: SeenNumber, fingerprint: u64) -> NumberOrder
    ensures { result ≡ order_again seen fingerprint }
{
    if seen.fingerprint == fingerprint {
        NumberOrder::Repeat(seen.line)
    } else {
        NumberOrder::Differs(seen.line)
    }
}

/// Judges a number that is not kept.
fn judge_new(window: &Window, number: u32) -> NumberOrder
    ensures { result ≡ order_from window.now window.now.newest number }
{
    match window.newest {
        None => NumberOrder::First,
        Some(newest) => judge_ahead(window, number.wrapping_sub(newest)),
    }
}

/// Judges a number that is not kept by its distance ahead of the newest on the ring of 2^32.
fn judge_ahead(window: &Window, steps: u32) -> NumberOrder
    ensures { result ≡ order_ahead window.now steps }
{
    if steps <= 1 {
        NumberOrder::Next
    } else if steps <= PASSED_MAX + 1 {
        NumberOrder::Ahead(steps - 1)
    } else if 0xffff_ffff - steps < window.behind && window.missing > 0 {
        NumberOrder::Late
    } else if steps >= 0x8000_0000 {
        NumberOrder::Stale
    } else {
        NumberOrder::Anew
    }
}

/// Adds a number to the window and returns how it followed.
pub fn note(window: &mut Window, number: u32, line: u64, fingerprint: u64) -> NumberOrder
    // The result is how the number followed the window before the call.
    ensures judged { result ≡ number_order window.old number fingerprint }
    // The window is changed by that: a gap adds missing numbers, a late one takes one of them away. A repeat, a
    // differing and a stale number change only their counts (`note_number`).
    ensures noted { window.new ≡ note_number window.old number line fingerprint }
{
    let judged = judge(window, number, fingerprint);
    let seen = SeenNumber {
        number,
        line,
        fingerprint,
    };
    match judged {
        NumberOrder::Repeat(_) => window.repeats = window.repeats.saturating_add(1),
        NumberOrder::Differs(_) => window.differing = window.differing.saturating_add(1),
        NumberOrder::Stale => window.stale = window.stale.saturating_add(1),
        NumberOrder::Late => {
            window.missing = window.missing.saturating_sub(1);
            window.late = window.late.saturating_add(1);
            keep(window, seen);
        }
        NumberOrder::Ahead(passed) => {
            window.missing = window.missing.saturating_add(passed as u64);
            move_on(window, passed.saturating_add(1), seen);
        }
        NumberOrder::Next => move_on(window, 1, seen),
        NumberOrder::First | NumberOrder::Anew => {
            reopen(window);
            move_on(window, 0, seen);
        }
    }
    judged
}

/// Starts the window again with the next number; its counts stay.
pub(crate) fn reopen(window: &mut Window)
    ensures { window.new ≡ restart_window window.old }
{
    window.newest = None;
    window.behind = 0;
    window.lines = [0; KEPT];
}

/// Makes a number the newest, `steps` ahead of the one before.
fn move_on(window: &mut Window, steps: u32, seen: SeenNumber)
    ensures { window.new ≡ move_window window.old steps seen }
{
    window.newest = Some(seen.number);
    window.behind = window.behind.saturating_add(steps).min(LATE_MAX);
    window.heard = window.heard.saturating_add(1);
    keep(window, seen);
}

/// Keeps a number in the slot of its remainder.
fn keep(window: &mut Window, seen: SeenNumber)
    ensures { window.new ≡ keep_entry window.old seen }
{
    let slot = seen.number as usize % KEPT;
    window.numbers[slot] = seen.number;
    window.lines[slot] = seen.line;
    window.fingerprints[slot] = seen.fingerprint;
}
