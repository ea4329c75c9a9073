//! Bytes in storage of their own.

ghost use Rattle.std.specs.Prelude.{◌≡◌, ◌≤◌, length};

use crate::limits::UNIT_MAX;
use arrayvec::ArrayVec;

/// The bytes of a unit, in storage for the longest one (1,206 bytes).
pub type Unit = ArrayVec<u8, UNIT_MAX>;

/// Returns a copy of at most `MAX` bytes, in storage for `MAX`.
pub fn copy_of<const MAX: usize>(octets: &[u8]) -> ArrayVec<u8, MAX>
    requires { length octets.now ≤ MAX }
    // The copy has exactly the copied bytes.
    ensures { result.items ≡ octets.now }
{
    let mut copy = ArrayVec::new();
    let _fits = copy.try_extend_from_slice(octets);
    copy
}
