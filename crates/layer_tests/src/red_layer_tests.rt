use crate::assertions::{assert_equal, assert_equal_at, assert_true};
use arrayvec::ArrayVec;
use linked_list_allocator::LocalHeap;
use red_layer::pdu::RedFault;
use red_layer::{RedConfig, RedEvent, RedLayer, RedOpenFault, Upward};
use std::test::Fail;

/// Keeps the numbers that are passed up.
#[derive(Drop)]
struct Seen {
    numbers: ArrayVec<u32, 64>,
}

impl Upward for Seen {
    ghost passes = { λ _ _ _. Unit {0} };

    ghost ready = { λ _ _. Unit {0} };

    fn up(&mut self, seq: u32, _upper: &[u8]) {
        let _ = self.numbers.try_push(seq);
    }

    ghost later = { λ _ _ _ _ h. h };
}

impl Seen {
    fn new() -> Seen {
        Seen {
            numbers: ArrayVec::new(),
        }
    }
}

/// A call of the layer, with the expected result.
#[derive(Clone, Copy)]
enum Call {
    Arrive(u32, u32, RedEvent),
    Tick(u32),
    Deadline(Option<u64>),
}

/// Returns a redundancy PDU with a payload of one byte.
fn datagram(seq: u32) -> [u8; 9] {
    let [a, b, c, d] = seq.to_le_bytes();
    [9, 0, 0, 0, a, b, c, d, 7]
}

// A datagram of this number comes at a time in milliseconds.
fn arrive(layer: &mut RedLayer, seq: u32, now: u32, seen: &mut Seen) -> RedEvent {
    layer.arrive(&datagram(seq), u64::from(now), seen)
}

const CONFIG: RedConfig = RedConfig { q: 4, t_seq: 50 };

// One receiving half with four places and 50 ms over a whole life: each call, its result and the numbers
// passed up.
#[test]
fn brings_datagrams_into_order(rt: HostRuntime) -> Result<(), Fail> {
    let mut layer = RedLayer::open(rt.alloc(), CONFIG)?;
    for (call, passed) in [
        (Call::Arrive(1, 0, RedEvent::Wait), [].as_slice()),
        (Call::Arrive(1, 1, RedEvent::Again), [].as_slice()),
        (Call::Arrive(3, 2, RedEvent::Wait), [].as_slice()),
        (Call::Arrive(41, 3, RedEvent::Far), [].as_slice()),
        (Call::Arrive(40, 3, RedEvent::Wait), [].as_slice()),
        (Call::Arrive(2, 4, RedEvent::Wait), [].as_slice()),
        (Call::Arrive(4, 5, RedEvent::Full), [].as_slice()),
        (
            Call::Arrive(0, 49, RedEvent::Passed),
            [0, 1, 2, 3].as_slice(),
        ),
        (Call::Deadline(Some(99)), [].as_slice()),
        (Call::Arrive(0, 50, RedEvent::Old), [].as_slice()),
        (Call::Tick(98), [].as_slice()),
        (Call::Tick(99), [40].as_slice()),
        (Call::Deadline(None), [].as_slice()),
        (Call::Arrive(40, 99, RedEvent::Old), [].as_slice()),
        (Call::Arrive(41, 99, RedEvent::Passed), [41].as_slice()),
    ] {
        let mut seen = Seen::new();
        match call {
            Call::Arrive(seq, now, event) => {
                let answer = arrive(&mut layer, seq, now, &mut seen);
                assert_equal_at(&rt, (seq, now), answer, event);
            }
            Call::Tick(now) => layer.tick(u64::from(now), &mut seen),
            Call::Deadline(moment) => assert_equal(&rt, layer.deadline(), moment),
        }
        assert_equal(&rt, seen.numbers.as_slice(), passed);
    }
    Ok(())
}

// If every place is taken, a number already deferred is `Again` and another one is `Full`. A datagram that
// is not a PDU still triggers the deadline, once, and the whole run is passed up.
#[test]
fn any_datagram_tries_the_deadline(rt: HostRuntime) -> Result<(), Fail> {
    let mut layer = RedLayer::open(rt.alloc(), RedConfig { q: 3, t_seq: 50 })?;
    let mut seen = Seen::new();
    for (seq, event) in [
        (2, RedEvent::Wait),
        (5, RedEvent::Wait),
        (3, RedEvent::Wait),
        (5, RedEvent::Again),
        (4, RedEvent::Full),
    ] {
        assert_equal(&rt, arrive(&mut layer, seq, 7, &mut seen), event);
    }
    let event = layer.arrive(&[1, 2, 3], 57, &mut seen);
    assert_equal(&rt, event, RedEvent::Fault(RedFault::Short));
    assert_equal(&rt, seen.numbers.as_slice(), [2, 3].as_slice());
    assert_equal(&rt, layer.deadline(), Some(107));
    let event = arrive(&mut layer, 4, 107, &mut seen);
    assert_equal(&rt, event, RedEvent::Old);
    assert_equal(&rt, seen.numbers.as_slice(), [2, 3, 5].as_slice());
    Ok(())
}

// Opening fails on each smaller heap, until a heap just holds the places. On that full heap the layer works
// and allocates nothing.
#[test]
fn opening_takes_the_only_memory(rt: HostRuntime) -> Result<(), Fail> {
    let mut refused = false;
    for step in 0..512usize {
        let heap = LocalHeap::new(rt.alloc(), 16 * step)?;
        match RedLayer::open(&heap, CONFIG) {
            Ok(mut layer) => {
                let used = heap.used();
                let mut seen = Seen::new();
                for seq in [1, 3, 40, 2, 4, 0] {
                    layer.arrive(&datagram(seq), 0, &mut seen);
                }
                layer.tick(50, &mut seen);
                assert_equal(&rt, seen.numbers.as_slice(), [0, 1, 2, 3, 40].as_slice());
                assert_equal(&rt, heap.used(), used);
                assert_true(&rt, refused);
                return Ok(());
            }
            Err(RedOpenFault::Memory) => refused = true,
        }
    }
    Err("no heap was great enough".into())
}
