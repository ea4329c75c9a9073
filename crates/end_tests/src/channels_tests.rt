use crate::assertions::assert_equal;
use channels::{ChannelFault, Channels, MemChannels, MemoryFault};
use linked_list_allocator::LocalHeap;
use std::process::Abort;
use std::test::Fail;
use std::time::Duration;
use udp_channels::{Place, Refusal, UdpFault, Watch, open_udp};

// Heaps of rising size: at some the channels are refused, and at some the room or the datagram; sending and receiving take no memory.
#[test]
fn takes_memory_where_it_says(rt: HostRuntime) -> Result<(), Fail> {
    let mut found = [false; 4];
    for step in 0..256 {
        let heap = LocalHeap::new(rt.alloc(), step * 64)?;
        if let Some(place) = found.get_mut(place_of_refusal(&rt, &heap)) {
            *place = true;
        }
    }
    assert_equal(&rt, found, [true; 4]);
    Ok(())
}

/// What finds no room in a heap: 0 the channels, 1 more room, 2 a datagram, 3 nothing.
fn place_of_refusal(rt: &impl Abort, heap: &LocalHeap) -> usize {
    match MemChannels::new(heap, 2) {
        Ok(mut channels) => fills(rt, heap, &mut channels),
        Err(_) => 0,
    }
}

fn fills(rt: &impl Abort, heap: &LocalHeap, channels: &mut MemChannels<&LocalHeap>) -> usize {
    if channels.reserve(1) == Err(MemoryFault::Memory) {
        return 1;
    }
    if channels.add(1, &[4; 4000]) == Err(MemoryFault::Memory) {
        assert_equal(rt, channels.receive(&mut [0; 9]), Ok(None));
        return 2;
    }
    let used = heap.used();
    for _ in 0..3 {
        assert_equal(rt, channels.send(1, &[7; 1258]), Ok(()));
    }
    assert_equal(rt, channels.receive(&mut [0; 9]), Ok(Some((1, 9))));
    assert_equal(rt, heap.used(), used);
    3
}

// Two ends over the loopback: what is sent on a channel comes on it, without a wait where it is there already; channels are asked in order;
// a datagram that is longer than the buffer is cut. The sender of a datagram plays no part.
#[test]
fn carries_datagrams_over_sockets(rt: HostRuntime) -> Result<(), Fail> {
    let near = ["127.0.0.1:47311", "127.0.0.1:47312"];
    let far = ["127.0.0.1:47321", "127.0.0.1:47322"];
    let mut left = open_udp(rt.alloc(), &rt, &near, &far)?;
    let mut right = open_udp(rt.alloc(), &rt, &far, &near)?;
    let mut stranger = open_udp(rt.alloc(), &rt, &["127.0.0.1:47331"], &["127.0.0.1:47322"])?;
    let mut watch = Watch::open(rt.alloc(), &rt)?;
    watch.add(&mut left)?;
    watch.add(&mut right)?;
    let mut buffer = [0; 8];
    assert_equal(&rt, right.receive(&mut buffer), Ok(None));
    assert_equal(&rt, stranger.send(1, &[9]), Ok(()));
    assert_equal(&rt, left.send(2, &[1, 2, 3]), Ok(()));
    assert_equal(&rt, left.send(1, &[5; 20]), Ok(()));
    assert_equal(&rt, left.send(3, &[6]), Err(ChannelFault::Room));
    assert_equal(&rt, left.send(0, &[6]), Err(ChannelFault::Room));
    watch.wait(Duration::from_millis(500));
    assert_equal(&rt, right.receive(&mut buffer), Ok(Some((1, 8))));
    assert_equal(&rt, buffer, [5; 8]);
    assert_equal(&rt, right.receive(&mut buffer), Ok(Some((2, 1))));
    assert_equal(&rt, right.receive(&mut buffer), Ok(Some((2, 3))));
    assert_equal(&rt, buffer[2], 3);
    assert_equal(&rt, right.receive(&mut buffer), Ok(None));
    assert_equal(&rt, left.receive(&mut buffer), Ok(None));
    assert_equal(&rt, right.received_count(), 3);
    assert_equal(&rt, left.received_count(), 0);
    Ok(())
}

fn text(channel: usize, is_own: bool) -> Option<UdpFault> {
    Some(UdpFault::Address(Place { channel, is_own }))
}

fn refused(channel: usize, error: i32) -> Option<UdpFault> {
    Some(UdpFault::Bind(Refusal {
        channel,
        error: Some(error),
    }))
}

// Lists of unequal or wrong length and texts that are no address are refused before a socket is bound, each by its place; then a port in use
// and an address of another machine, by the system's number (EADDRINUSE 98, EADDRNOTAVAIL 99).
#[test]
fn refuses_other_addresses(rt: HostRuntime) -> Result<(), Fail> {
    let free = "127.0.0.1:47341";
    let taken = "127.0.0.1:47342";
    let _held = open_udp(rt.alloc(), &rt, &[taken], &[free])?;
    let lists = Some(UdpFault::Lists);
    assert_equal(&rt, fault_of(&rt, &[], &[]), lists);
    assert_equal(&rt, fault_of(&rt, &[free], &[]), lists);
    assert_equal(&rt, fault_of(&rt, &[free; 5], &[free; 5]), lists);
    let found = fault_of(&rt, &["localhost:47341"], &[free]);
    assert_equal(&rt, found, text(1, true));
    let found = fault_of(&rt, &[taken], &["127.0.0.1"]);
    assert_equal(&rt, found, text(1, false));
    let found = fault_of(&rt, &[free, "127.0.0.1:65536"], &[free; 2]);
    assert_equal(&rt, found, text(2, true));
    let found = fault_of(&rt, &[taken], &[free]);
    assert_equal(&rt, found, refused(1, 98));
    let found = fault_of(&rt, &[free, "192.0.2.1:47341"], &[free; 2]);
    assert_equal(&rt, found, refused(2, 99));
    // What was bound before a refusal is free again.
    let _opened = open_udp(rt.alloc(), &rt, &[free], &[taken])?;
    Ok(())
}

/// The fault of channels over these addresses, if they are refused.
fn fault_of(rt: &HostRuntime, local: &[&str], remote: &[&str]) -> Option<UdpFault> {
    open_udp(rt.alloc(), rt, local, remote).err()
}
