use crate::assertions::{assert_equal, assert_true};
use linked_list_allocator::LocalHeap;
use pdi_session::packing::{Full, WAITING_MAX, Waiting, pack};
use std::alloc::AllocError;
use std::process::Abort;
use std::test::Fail;

// Makes a queue on the heap, fills it, empties it by packing, and fills it again. No call after the
// first takes memory.
fn fills_twice(rt: &impl Abort, heap: &LocalHeap) -> Result<(), AllocError> {
    let mut waiting = Waiting::new(heap)?;
    let used = heap.used();
    for _ in 0..2 {
        for k in 0..64 {
            assert_true(rt, !waiting.is_full());
            assert_true(rt, waiting.add(&[k; 400]).is_ok());
        }
        assert_true(rt, waiting.is_full() && waiting.len() == WAITING_MAX);
        assert_equal(rt, waiting.add(&[65; 43]), Err(Full));
        assert_equal(rt, waiting.len(), WAITING_MAX);
        for _ in 0..21 {
            assert_true(rt, pack(&mut waiting, 3).is_some());
        }
        assert_equal(rt, waiting.len(), 1);
        assert_true(rt, pack(&mut waiting, 3).is_some());
        assert_true(rt, pack(&mut waiting, 3).is_none());
        assert_equal(rt, heap.used(), used);
    }
    Ok(())
}

// On heaps of growing sizes each growth of `new` is refused at some size; on the first that has room
// for it all goes on without more.
#[test]
fn takes_memory_when_it_is_made_alone(rt: HostRuntime) -> Result<(), Fail> {
    let mut refused = 0_u32;
    for k in 0..2_000_usize {
        let heap = LocalHeap::new(rt.alloc(), 16 * k)?;
        if fills_twice(&rt, &heap).is_ok() {
            assert_true(&rt, refused > 0);
            return Ok(());
        }
        assert_equal(&rt, heap.used(), 0);
        refused = refused.wrapping_add(1);
    }
    Err(Fail::from("no heap was large enough"))
}
