//! Assertions as functions: the check proves each `assert_eq!` by itself, and a call takes a tenth of that time.

ghost use Rattle.std.specs.Prelude.{◌≡◌, true};

use std::fmt::Debug;
use std::process::Abort;

/// Aborts with both values if they differ.
pub(crate) fn assert_equal<T: Copy + Debug + PartialEq>(rt: &impl Abort, found: T, wanted: T) {
    assert_eq!(rt; found, wanted);
}

/// Aborts with both values and their place if they differ.
pub(crate) fn assert_equal_at<P: Copy + Debug, T: Copy + Debug + PartialEq>(
    rt: &impl Abort,
    place: P,
    found: T,
    wanted: T,
) {
    assert_eq!(rt; found, wanted, "at {place:?}");
}

/// Aborts if the condition is false.
pub(crate) fn assert_true(rt: &impl Abort, is_so: bool)
    ensures { is_so ≡ true }
{
    assert!(rt; is_so);
}

/// Aborts with its place if the condition is false.
pub(crate) fn assert_true_at<P: Copy + Debug>(rt: &impl Abort, place: P, is_so: bool) {
    assert!(rt; is_so, "at {place:?}");
}
