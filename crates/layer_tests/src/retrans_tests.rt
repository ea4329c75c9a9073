ghost use Rattle.std.specs.Prelude.{◌≡◌, ◌<◌, ◌≤◌, All};

use crate::assertions::{assert_equal, assert_true};
use linked_list_allocator::LocalHeap;
use safe_machine::retrans::{Unconfirmed, Unit};
use std::alloc::{AllocError, Allocator};
use std::process::Abort;
use std::test::Fail;

// A unit of `size` octets, each of one value.
fn unit_of(value: u8, size: usize) -> Unit {
    let mut unit = Unit::new();
    for _ in 0..size {
        let _ = unit.try_push(value);
    }
    unit
}

// Whether a unit with this number, value and size stands at a place.
fn stands_at<A: Allocator>(
    kept: &Unconfirmed<A>,
    place: usize,
    number: u64,
    value: u8,
    size: usize,
) -> bool {
    match kept.get(place) {
        Some((found, unit)) => {
            *found == number && unit.len() == size && unit.iter().all(|octet| *octet == value)
        }
        None => false,
    }
}

// Keeps longest units under the numbers from `first` on, up to the one before `end`.
fn fill<A: Allocator>(rt: &impl Abort, kept: &mut Unconfirmed<A>, first: u64, end: u64, value: u8)
    requires below { All (λ u. u.number < first) kept.old.units }
    requires some { first ≤ end }
    ensures below { All (λ u. u.number < end) kept.new.units }
    ensures room { kept.new.room ≡ kept.old.room }
{
    for number in first..end {
        assert_true(rt, kept.sent(number, unit_of(value, 1206)).is_ok());
    }
}

// Makes a ring on the heap, fills it, confirms all but one, and fills it again. No call after the
// first takes memory.
fn fills_twice(rt: &impl Abort, heap: &LocalHeap) -> Result<(), AllocError> {
    let mut kept = Unconfirmed::new(heap, 32)?;
    let used = heap.used();
    fill(rt, &mut kept, 1, 33, 7);
    assert_true(rt, kept.len() == 32);
    kept.confirm(31);
    assert_true(rt, kept.len() == 1);
    fill(rt, &mut kept, 33, 64, 9);
    assert_true(rt, kept.sent(64, unit_of(8, 45)).is_err());
    assert_true(rt, kept.len() == 32);
    kept.renumber(100);
    assert_true(rt, stands_at(&kept, 0, 100, 7, 1206));
    assert_true(rt, stands_at(&kept, 31, 131, 9, 1206));
    assert_equal(rt, heap.used(), used);
    Ok(())
}

// On heaps of growing sizes `new` is refused at first; on the first heap that has room for the ring
// all goes on without more.
#[test]
fn takes_memory_when_it_is_made_alone(rt: HostRuntime) -> Result<(), Fail> {
    let mut refused = 0_u32;
    for k in 0..4_000_usize {
        let heap = LocalHeap::new(rt.alloc(), 16 * k)?;
        if fills_twice(&rt, &heap).is_ok() {
            assert_true(&rt, refused > 0);
            return Ok(());
        }
        assert_equal(&rt, heap.used(), 0);
        refused = refused.wrapping_add(1);
    }
    Err(Fail::from("no heap was large enough"))
}
