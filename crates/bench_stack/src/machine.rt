//! The safety machine for C: two ends joined in memory, and one end that receives PDUs made before.

ghost use Rattle.std.specs.Prelude.{◌≡◌, ◌+◌, ◌≤◌, ◌<◌, ◌^◌, length, IfSome};
ghost use Rattle.octets.specs.declared.limits.TheConstants.{UNIT_MAX};
ghost use Rattle.safe_machine.specs.Moves.{IsUnitSized};

use crate::{append, rule_of};
use arrayvec::ArrayVec;
use linked_list_allocator::LocalHeap;
use octets::copy_of;
use octets::limits::SAFE_PDU_MAX;
use safe_machine::{ConnectionState, Machine, MachineConfig, PduOut, Role, Unit, UnitIn};
use safe_pdu::Identifier;
use std::alloc::Global;

/// The counts of one end.
#[repr(C)]
pub struct Tally {
    /// How many PDUs it made.
    pub made: u32,
    /// The sum of their last bytes, modulo 2^32.
    pub last_octets: u32,
    /// How many units it took.
    pub taken: u32,
    /// Whether it is in Up.
    pub is_up: bool,
}

/// The memory of one machine, in bytes.
#[repr(C)]
pub struct Held {
    /// The size of the value itself.
    pub own: u64,
    /// What its opening allocates.
    pub taken: u64,
}

/// Counts PDUs and adds up their last bytes, so that the compiler cannot omit the computation of a safety code.
#[derive(Drop)]
struct Counted {
    pdus: u32,
    last_octets: u32,
}

impl Counted {
    fn new() -> Counted {
        Counted {
            pdus: 0,
            last_octets: 0,
        }
    }
}

impl PduOut for Counted {
    ghost makes = { λ _ _ _. Unit {0} };

    fn made(&mut self, pdu: &[u8]) {
        self.pdus = self.pdus.wrapping_add(1);
        let last = pdu.last().copied().unwrap_or(0);
        self.last_octets = self.last_octets.wrapping_add(u32::from(last));
    }
}

/// Keeps the PDU that was made last.
#[derive(Drop)]
struct Latest {
    pdu: ArrayVec<u8, SAFE_PDU_MAX>,
}

impl Latest {
    fn new() -> Latest {
        Latest {
            pdu: ArrayVec::new(),
        }
    }
}

impl PduOut for Latest {
    ghost makes = { λ _ _ _. Unit {0} };

    fn made(&mut self, pdu: &[u8]) {
        self.pdu.clear();
        let _ = self.pdu.try_extend_from_slice(pdu);
    }
}

/// Counts units.
#[derive(Drop)]
struct Units {
    taken: u32,
}

impl UnitIn for Units {
    ghost takes = { λ _ _ _. Unit {0} };

    ghost ready = { λ _. Unit {0} };

    fn unit(&mut self, _unit: &[u8]) {
        self.taken = self.taken.wrapping_add(1);
    }
}

/// Returns the counts of one end.
fn tally_of(made: &Counted, units: &Units, state: ConnectionState) -> Tally {
    Tally {
        made: made.pdus,
        last_octets: made.last_octets,
        taken: units.taken,
        is_up: state == ConnectionState::Up,
    }
}

/// Returns the settings of an end: the greatest window, the longest times, and a heartbeat after `mwa` units.
fn settings(own: Identifier, peer: Identifier, code: u32, mwa: u32) -> MachineConfig {
    MachineConfig {
        own,
        peer,
        n_sendmax: 32,
        t_max: 60_000,
        t_h: 59_999,
        mwa: u64::from(mwa),
        pdu_limit: 4_294_901_760,
        rule: rule_of(code),
    }
}

/// A client and a server.
#[derive(Drop)]
struct Ends {
    client: Machine,
    server: Machine,
}

/// Opens two ends and a connection between them. Both are then in Up.
fn open_connection(alloc: Global, code: u32, mwa: u32) -> Option<Ends>
    ensures { IfSome result (λ ends. (ends.client.expected ≤ 321) × (ends.server.expected ≤ 642)) }
{
    let mut asked = Latest::new();
    let mut answered = Latest::new();
    let mut units = Units { taken: 0 };
    let config = settings(1, 2, code, mwa);
    let Ok(mut client) = Machine::open(alloc, config, Role::Client, 100, 0, &mut asked) else {
        return None;
    };
    let config = settings(2, 1, code, mwa);
    let Ok(mut server) = Machine::open(alloc, config, Role::Server, 500, 0, &mut answered) else {
        return None;
    };
    server.arrive(asked.pdu.as_slice(), 0, &mut answered, &mut units);
    client.arrive(answered.pdu.as_slice(), 0, &mut asked, &mut units);
    server.arrive(asked.pdu.as_slice(), 0, &mut answered, &mut units);
    Some(Ends { client, server })
}

impl Ends {
    /// Sends a unit from the client to the server, and delivers the heartbeat that the server makes, if any.
    fn pass(&mut self, unit: &Unit, data: &mut Latest, heartbeat: &mut Latest, units: &mut Units)
        requires unit { IsUnitSized unit.now.items }
        requires client { self.old.client.expected < 2 ^ 61 }
        requires server { self.old.server.expected < 2 ^ 61 }
        // In `pass`, the client receives at most one PDU, which raises its expected index by at most 321.
        ensures client { self.new.client.expected ≤ self.old.client.expected + 321 }
        // In `pass`, the server receives one PDU, which raises its expected index by at most 321.
        ensures server { self.new.server.expected ≤ self.old.server.expected + 321 }
    {
        heartbeat.pdu.clear();
        let _ = self.client.send(unit, 0, data);
        self.server.arrive(data.pdu.as_slice(), 0, heartbeat, units);
        if !heartbeat.pdu.is_empty() {
            self.client.arrive(heartbeat.pdu.as_slice(), 0, data, units);
        }
    }
}

/// Fills two buffers: one with the Data of a client that sends one unit `times` times, the other with the
/// heartbeats by which the server confirms them, one after each `mwa` units. What does not fit is left out. Returns
/// how many units the server took.
///
/// C: `bench_machine_rows(const uint8_t *, size_t, uint32_t, uint32_t, uint32_t, uint8_t *, size_t, uint8_t *,
/// size_t)`.
#[unsafe(no_mangle)]
pub extern "C" fn bench_machine_rows(
    alloc: Global,
    unit: &[u8],
    code: u32,
    mwa: u32,
    times: u32,
    data_row: &mut [u8],
    heartbeat_row: &mut [u8],
) -> u32
    requires { IsUnitSized unit.now }
{
    let Some(mut ends) = open_connection(alloc, code, mwa) else {
        return 0;
    };
    let unit: Unit = copy_of(unit);
    let mut data = Latest::new();
    let mut heartbeat = Latest::new();
    let mut units = Units { taken: 0 };
    let mut sent = 0;
    let mut confirmed = 0;
    for _ in 0..times {
        ends.pass(&unit, &mut data, &mut heartbeat, &mut units);
        sent = append(data_row, sent, data.pdu.as_slice());
        confirmed = append(heartbeat_row, confirmed, heartbeat.pdu.as_slice());
    }
    units.taken
}

/// Delivers up to `times` Data of one size from a buffer to a server with a new connection.
///
/// C: `bench_machine_arrives(const uint8_t *, size_t, size_t, uint32_t, uint32_t, uint32_t)`.
#[unsafe(no_mangle)]
pub extern "C" fn bench_machine_arrives(
    alloc: Global,
    data_row: &[u8],
    size: usize,
    code: u32,
    mwa: u32,
    times: u32,
) -> Tally {
    let mut made = Counted::new();
    let mut units = Units { taken: 0 };
    let Some(mut ends) = open_connection(alloc, code, mwa) else {
        return tally_of(&made, &units, ConnectionState::Closed);
    };
    let mut row = data_row;
    for _ in 0..times {
        if row.len() < size {
            break;
        }
        let (data, behind) = row.split_at(size);
        ends.server.arrive(data, 0, &mut made, &mut units);
        row = behind;
    }
    tally_of(&made, &units, ends.server.state())
}

/// Repeats `times` times: a client with a new connection sends a unit `mwa` times, and receives the next heartbeat
/// of one size from a buffer.
///
/// C: `bench_machine_sends(const uint8_t *, size_t, uint32_t, uint32_t, uint32_t, const uint8_t *, size_t,
/// size_t)`.
#[unsafe(no_mangle)]
pub extern "C" fn bench_machine_sends(
    alloc: Global,
    unit: &[u8],
    code: u32,
    mwa: u32,
    times: u32,
    heartbeat_row: &[u8],
    size: usize,
) -> Tally
    requires { IsUnitSized unit.now }
{
    let unit: Unit = copy_of(unit);
    let mut made = Counted::new();
    let mut units = Units { taken: 0 };
    let Some(mut ends) = open_connection(alloc, code, mwa) else {
        return tally_of(&made, &units, ConnectionState::Closed);
    };
    let mut row = heartbeat_row;
    for _ in 0..times {
        send_times(&mut ends.client, &unit, mwa, &mut made);
        if row.len() < size {
            break;
        }
        let (heartbeat, behind) = row.split_at(size);
        ends.client.arrive(heartbeat, 0, &mut made, &mut units);
        row = behind;
    }
    tally_of(&made, &units, ends.client.state())
}

/// Sends a unit `times` times, or until the window is full.
fn send_times(client: &mut Machine, unit: &Unit, times: u32, made: &mut Counted)
    requires { IsUnitSized unit.now.items }
    ensures { client.new.expected ≡ client.old.expected }
{
    for _ in 0..times {
        if client.send(unit, 0, made).is_err() {
            return;
        }
    }
}

/// Returns the memory that one machine uses.
///
/// C: `bench_machine_octets(void)`.
#[unsafe(no_mangle)]
pub extern "C" fn bench_machine_octets(alloc: Global) -> Held {
    let own = size_of::<Machine>() as u64;
    Held {
        own,
        taken: taken_from_heap(alloc).unwrap_or(0) as u64,
    }
}

/// Returns how many bytes of a heap are in use after a machine is opened over it.
fn taken_from_heap(alloc: Global) -> Option<usize> {
    let heap = LocalHeap::new(alloc, 1 << 16).ok()?;
    let config = settings(2, 1, 16, 16);
    let _machine = Machine::open(&heap, config, Role::Server, 500, 0, &mut Counted::new()).ok()?;
    Some(heap.used())
}
