//! An end for C: two ends joined by channels that only count, and one end that receives datagrams made before.

ghost use Rattle.std.specs.Prelude.{◌≡◌, ◌≤◌, ◌^◌, None, length};

use crate::append;
use arrayvec::ArrayVec;
use channels::{ChannelFault, Channels};
use end_settings::{Checksum, EndConfig, Side, Versions};
use linked_list_allocator::LocalHeap;
use octets::limits::RED_PDU_MAX;
use pdi_session::telegram::{Name, OwnedName};
use pdi_session::{Phase, Taker};
use stack_end::End;
use std::alloc::{Allocator, Global};

/// How many datagrams one end keeps at most for its peer.
const KEPT_MAX: usize = 8;

/// The message type of each telegram.
const KIND: u16 = 0x0100;

/// A datagram in place.
type Datagram = ArrayVec<u8, RED_PDU_MAX>;

/// The counts of one end.
#[repr(C)]
pub struct EndTally {
    /// How many datagrams it sent.
    pub sent: u32,
    /// How many telegrams its application took.
    pub taken: u32,
    /// Whether its session is established.
    pub is_established: bool,
}

/// The memory of one end, in bytes.
#[repr(C)]
pub struct EndHeld {
    /// The size of the value itself.
    pub own: u64,
    /// What its opening allocates.
    pub taken: u64,
}

/// Channels that count what is sent, and keep copies of the datagrams on channel 1 while `keeps` is set.
#[derive(Drop)]
struct Wire {
    kept: ArrayVec<Datagram, KEPT_MAX>,
    keeps: bool,
    sent: u32,
}

impl Channels for Wire {
    ghost told = { λ _. record {
      sent = None;
      answers = None;
      asked = None;
      failed_sends = 0;
      failed_receives = 0;
      room = λ _. 0;
    } };

    fn send(&mut self, channel: usize, datagram: &[u8]) -> Result<(), ChannelFault> {
        self.sent = self.sent.wrapping_add(1);
        if self.keeps && channel == 1 {
            let mut copy = Datagram::new();
            let _ = copy.try_extend_from_slice(datagram);
            let _ = self.kept.try_push(copy);
        }
        Ok(())
    }

    fn receive(&mut self, buffer: &mut [u8]) -> Result<Option<(usize, usize)>, ChannelFault> {
        let _none = buffer;
        Ok(None)
    }
}

/// Counts telegrams.
#[derive(Drop)]
struct Telegrams {
    taken: u32,
}

impl Taker for Telegrams {
    ghost takes = { λ _ _ _. Unit {0} };

    fn take(&mut self, _kind: u16, _payload: &[u8]) {
        self.taken = self.taken.wrapping_add(1);
    }
}

/// An end whose clock is always 0, and the count of telegrams that its application took.
#[derive(Drop)]
struct Station<A: Allocator = Global> {
    end: End<Wire, A>,
    telegrams: Telegrams,
    ghost timely: { end.time ≡ 0 },
}

impl<A: Allocator + Copy> Station<A> {
    /// Opens an end with the greatest window, the longest times, two channels, and a heartbeat after `mwa` units.
    fn open(alloc: A, side: Side, mwa: u32, q: u32) -> Option<Self> {
        let wire = Wire {
            kept: ArrayVec::new(),
            keeps: true,
            sent: 0,
        };
        let end = End::open(alloc, wire, config(side, mwa, q)?, side, 100, 0).ok()?;
        Some(Station {
            end,
            telegrams: Telegrams { taken: 0 },
        })
    }

    /// Delivers a datagram to the end.
    fn receive(&mut self, channel: usize, datagram: &[u8]) {
        self.end.arrive(channel, datagram, 0, &mut self.telegrams);
    }

    /// Puts a telegram, and returns whether it was accepted.
    fn put(&mut self, payload: &[u8]) -> bool {
        self.end.put(KIND, payload, 0).is_ok()
    }

    /// Reports the end of the initialisation.
    fn done(&mut self) -> Option<()> {
        self.end.init_done(0).ok()
    }

    /// Returns the datagrams sent on channel 1 since the last call.
    fn said(&mut self) -> ArrayVec<Datagram, KEPT_MAX> {
        let wire = self.end.channels();
        std::mem::replace(&mut wire.kept, ArrayVec::new())
    }

    /// Stops keeping datagrams, and counts from 0 again.
    fn forget(&mut self) {
        let wire = self.end.channels();
        wire.keeps = false;
        wire.sent = 0;
    }

    /// Returns the counts of the end.
    fn tally(&self) -> EndTally {
        EndTally {
            sent: self.end.channels_seen().sent,
            taken: self.telegrams.taken,
            is_established: self.end.phase() == Phase::Established,
        }
    }
}

/// Returns the settings of an end.
fn config(side: Side, mwa: u32, q: u32) -> Option<EndConfig> {
    let (id, name, peer_id, peer_name) = match side {
        Side::Interlocking => (1, "IL1", 2, "FE1"),
        Side::FieldElement => (2, "FE1", 1, "IL1"),
    };
    Some(EndConfig {
        id,
        peer_id,
        name: OwnedName::new(Name::new(name).ok()?),
        peer_name: OwnedName::new(Name::new(peer_name).ok()?),
        protocol: 1,
        versions: Versions::new(&[3])?,
        checksum: Checksum::new(&[])?,
        code: 8,
        initial_value: [1, 2, 3, 4],
        channels: 2,
        n_sendmax: 32,
        n_maxpacket: 3,
        q: q as u64,
        t_max: 60_000,
        t_h: 59_999,
        t_seq: 50,
        mwa: mwa as u64,
        pdu_limit: 4_294_901_760,
    })
}

/// An interlocking and a field element.
#[derive(Drop)]
struct Joined {
    il: Station,
    fe: Station,
}

/// Delivers to one end everything that the other has sent.
fn pass(from: &mut Station, to: &mut Station) {
    for datagram in from.said().iter() {
        to.receive(1, datagram.as_slice());
    }
}

impl Joined {
    /// Opens two ends with an established session.
    fn open(alloc: Global, mwa: u32) -> Option<Joined> {
        let mut fe = Station::open(alloc, Side::FieldElement, mwa, 4)?;
        let mut il = Station::open(alloc, Side::Interlocking, mwa, 4)?;
        for _ in 0..4 {
            pass(&mut il, &mut fe);
            pass(&mut fe, &mut il);
        }
        fe.done()?;
        for _ in 0..4 {
            pass(&mut fe, &mut il);
            pass(&mut il, &mut fe);
        }
        Some(Joined { il, fe })
    }
}

/// Fills two buffers: one with the datagrams of a telegram that the interlocking puts `times` times, the other with
/// those of the heartbeats by which the field element confirms them. What does not fit is left out. Returns how
/// many telegrams were taken.
///
/// C: `bench_end_rows(const uint8_t *, size_t, uint32_t, uint32_t, uint8_t *, size_t, uint8_t *, size_t)`.
#[unsafe(no_mangle)]
pub extern "C" fn bench_end_rows(
    alloc: Global,
    payload: &[u8],
    mwa: u32,
    times: u32,
    data_row: &mut [u8],
    heartbeat_row: &mut [u8],
) -> u32 {
    let Some(mut joined) = Joined::open(alloc, mwa) else {
        return 0;
    };
    let mut sent = 0;
    let mut confirmed = 0;
    for _ in 0..times {
        let _ = joined.il.put(payload);
        let data = joined.il.said();
        sent = keep(&data, data_row, sent);
        for datagram in data.iter() {
            joined.fe.receive(1, datagram.as_slice());
        }
        let heartbeats = joined.fe.said();
        confirmed = keep(&heartbeats, heartbeat_row, confirmed);
        for datagram in heartbeats.iter() {
            joined.il.receive(1, datagram.as_slice());
        }
    }
    joined.fe.telegrams.taken
}

/// Writes datagrams after the filled part of a buffer, as far as there is room. Returns how many bytes are filled.
fn keep(datagrams: &ArrayVec<Datagram, KEPT_MAX>, row: &mut [u8], filled: usize) -> usize
    requires { filled ≤ length row.old }
    ensures { result ≤ length row.new }
{
    let mut filled = filled;
    for datagram in datagrams.iter() {
        filled = append(row, filled, datagram.as_slice());
    }
    filled
}

/// Delivers up to `times` datagrams of one size from a buffer to a field element with a new session, each on
/// `copies` channels.
///
/// C: `bench_end_arrives(const uint8_t *, size_t, size_t, uint32_t, uint32_t, uint32_t)`.
#[unsafe(no_mangle)]
pub extern "C" fn bench_end_arrives(
    alloc: Global,
    data_row: &[u8],
    size: usize,
    mwa: u32,
    times: u32,
    copies: u32,
) -> EndTally {
    let Some(mut joined) = Joined::open(alloc, mwa) else {
        return no_end();
    };
    joined.fe.forget();
    let mut row = data_row;
    for _ in 0..times {
        if row.len() < size {
            break;
        }
        let (datagram, behind) = row.split_at(size);
        for channel in 0..copies {
            joined.fe.receive(channel as usize + 1, datagram);
        }
        row = behind;
    }
    joined.fe.tally()
}

/// Repeats `times` times: an interlocking with a new session puts a telegram `mwa` times, and receives the next
/// heartbeat of one size from a buffer.
///
/// C: `bench_end_puts(const uint8_t *, size_t, uint32_t, uint32_t, const uint8_t *, size_t, size_t)`.
#[unsafe(no_mangle)]
pub extern "C" fn bench_end_puts(
    alloc: Global,
    payload: &[u8],
    mwa: u32,
    times: u32,
    heartbeat_row: &[u8],
    size: usize,
) -> EndTally {
    let Some(mut joined) = Joined::open(alloc, mwa) else {
        return no_end();
    };
    joined.il.forget();
    let mut row = heartbeat_row;
    for _ in 0..times {
        for _ in 0..mwa {
            let _ = joined.il.put(payload);
        }
        if row.len() < size {
            break;
        }
        let (heartbeat, behind) = row.split_at(size);
        joined.il.receive(1, heartbeat);
        row = behind;
    }
    joined.il.tally()
}

/// Returns the counts that are reported if no session could be established.
fn no_end() -> EndTally {
    EndTally {
        sent: 0,
        taken: 0,
        is_established: false,
    }
}

/// Returns the memory that one end uses with a deferral queue of `q` places.
///
/// C: `bench_end_octets(uint32_t)`.
#[unsafe(no_mangle)]
pub extern "C" fn bench_end_octets(alloc: Global, q: u32) -> EndHeld {
    EndHeld {
        own: (size_of::<End<Wire>>() - size_of::<Wire>()) as u64,
        taken: taken_from_heap(alloc, q).unwrap_or(0) as u64,
    }
}

/// Returns how many bytes of a heap are in use after an end is opened over it.
fn taken_from_heap(alloc: Global, q: u32) -> Option<usize> {
    let heap = LocalHeap::new(alloc, 1 << 18).ok()?;
    let _end = Station::open(&heap, Side::FieldElement, 16, q)?;
    Some(heap.used())
}
