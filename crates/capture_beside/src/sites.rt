//! The two places where recordings are taken, and when their frames were recorded.

ghost use Rattle.std.specs.Prelude.{◌≡◌};
ghost use Rattle.capture_beside.specs.Sites.{difference_of, extent_with, is_outside_of};

/// Where a recording was taken.
#[derive(Clone, Copy, Debug, PartialEq, Eq)]
pub enum Site {
    /// The place of the first recording.
    Here,
    /// The place of the recording beside it.
    There,
}

/// When the frames of a recording were recorded.
#[derive(Clone, Copy, Debug, PartialEq, Eq)]
pub struct Extent {
    /// The least time of its frames, in microseconds since 1970.
    pub first: u64,
    /// The greatest time of its frames.
    pub last: u64,
}

/// The difference of two equal times. A smaller one says that the time there is earlier.
pub const EVEN: u64 = 0x8000_0000_0000_0000;

/// Returns the time there less the time here, in microseconds, with `EVEN` for equal times.
pub fn difference(here: u64, there: u64) -> u64
    // The result is the difference above or below `EVEN`, limited to 2^64 - 1 and 0.
    ensures { result ≡ difference_of here there }
{
    if here <= there {
        EVEN.saturating_add(there - here)
    } else {
        EVEN.saturating_sub(here - there)
    }
}

/// Returns the extent of a recording with one more frame.
pub fn extend(extent: Option<Extent>, time: u64) -> Extent
    // The extent of the first frame is its `time`; any further one widens it as far as its time (`extent_with`).
    ensures { result ≡ extent_with extent time }
{
    match extent {
        None => Extent {
            first: time,
            last: time,
        },
        Some(extent) => Extent {
            first: extent.first.min(time),
            last: extent.last.max(time),
        },
    }
}

/// Returns `true` if a datagram of this site was recorded before the other recording begins or after it ends.
/// `shift` is the difference of the clocks.
pub fn is_outside(site: Site, time: u64, shift: u64, other: Option<Extent>) -> bool
    // Its `time` in the clock of the other recording is before the first or after the last frame there. Every
    // datagram is outside of a recording without frames (`is_outside_of`).
    ensures { result ≡ is_outside_of site time shift other }
{
    match other {
        None => true,
        Some(other) => match site {
            Site::Here => {
                shift < difference(time, other.first) || difference(time, other.last) < shift
            }
            Site::There => {
                difference(other.first, time) < shift || shift < difference(other.last, time)
            }
        },
    }
}
