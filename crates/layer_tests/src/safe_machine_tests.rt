//! One arrival, and requests for retransmission, at a server that is up, with numbers and times from outside.

ghost use Rattle.std.specs.Prelude.{◌≤◌, ◌*◌};

use crate::assertions::{assert_equal, assert_true};
use arrayvec::ArrayVec;
use linked_list_allocator::LocalHeap;
use octets::limits::SAFE_PDU_MAX;
use safe_machine::{
    Detail, DropCause, Machine, MachineConfig, MachineFault, PduOut, Reason, Role, SendFault, Step,
    Unit, UnitIn,
};
use safe_pdu::{CodeLength, CodeRule, Kind, SafePdu, decode, encode};
use std::alloc::Allocator;
use std::process::Abort;
use std::test::Fail;

const RULE: CodeRule = CodeRule {
    length: CodeLength::Eight,
    initial_value: [1, 2, 3, 4],
};

const SERVER: MachineConfig = MachineConfig {
    own: 2,
    peer: 1,
    n_sendmax: 20,
    t_max: 1_800,
    t_h: 300,
    mwa: 10,
    pdu_limit: 4_294_901_760,
    rule: RULE,
};

/// A PDU as it is noted: its type, sequence number and confirmed sequence number.
type Told = (u16, u32, u32);

/// Keeps notes of the PDUs made.
#[derive(Drop)]
struct Wire {
    told: ArrayVec<Told, 40>,
}

impl PduOut for Wire {
    ghost makes = { λ _ _ _. Unit {0} };

    fn made(&mut self, pdu: &[u8]) {
        if let Ok(pdu) = decode(pdu, &RULE) {
            let _kept = self.told.try_push((pdu.kind.number(), pdu.sn, pdu.cs));
        }
    }
}

/// Takes units, and keeps nothing of them.
#[derive(Drop)]
struct Nobody;

impl UnitIn for Nobody {
    ghost takes = { λ _ _ _. Unit {0} };

    ghost ready = { λ _. Unit {0} };

    fn unit(&mut self, _unit: &[u8]) {}
}

/// A machine and the PDUs that it made.
#[derive(Drop)]
struct Seat<A: Allocator> {
    machine: Machine<A>,
    made: Wire,
    /// How many PDUs came: each raises the index of the next by 321 at most.
    heard: u32,
    ghost near: { machine.expected ≤ 321 * heard },
}

impl<A: Allocator> Seat<A> {
    /// Opens a server.
    fn open(alloc: A) -> Result<Self, MachineFault> {
        let mut made = Wire {
            told: ArrayVec::new(),
        };
        let machine = Machine::open(alloc, SERVER, Role::Server, 500, 0, &mut made)?;
        Ok(Seat {
            machine,
            made,
            heard: 0,
        })
    }

    /// A PDU comes.
    fn receive(&mut self, pdu: &[u8], now: u64) -> Step {
        let Some(heard) = self.heard.checked_add(1) else {
            return Step::Nothing;
        };
        self.heard = heard;
        self.machine.arrive(pdu, now, &mut self.made, &mut Nobody)
    }

    /// Sends a unit of 45 octets that ends in this one.
    fn send(&mut self, last: u8) -> Result<(), SendFault> {
        let mut octets = [0; 45];
        octets[44] = last;
        let mut unit = Unit::new();
        match unit.try_extend_from_slice(&octets) {
            Ok(()) => self.machine.send(&unit, 0, &mut self.made),
            Err(_) => Err(SendFault::Window),
        }
    }

    /// These are the PDUs made from a place on.
    fn made(&self, rt: &impl Abort, place: usize, wanted: &[Told]) {
        let told = self.made.told.as_slice().get(place..).unwrap_or(&[]);
        assert_equal(rt, told, wanted);
    }
}

/// A PDU from identifier 1 at the field element: type, number, confirmed number and timestamp, its own timestamp 0.
#[derive(Clone, Copy, Drop)]
struct Heard {
    kind: Kind,
    sender: u32,
    sn: u32,
    cs: u32,
    cts: u32,
}

/// Hands it to a machine with identifier 2.
fn receive<A: Allocator>(seat: &mut Seat<A>, heard: Heard, now: u64) -> Step {
    let opening = [0x30, 0x33, 0x30, 0x33, 20, 0, 0, 0, 0, 0, 0, 0, 0, 0];
    let unit = [7; 45];
    let body = match heard.kind {
        Kind::ConnReq | Kind::ConnResp => opening.as_slice(),
        Kind::Data | Kind::RetrData => unit.as_slice(),
        Kind::DiscReq => [0, 0, 0, 0].as_slice(),
        _ => [].as_slice(),
    };
    let pdu = SafePdu {
        kind: heard.kind,
        receiver: 2,
        sender: heard.sender,
        sn: heard.sn,
        cs: heard.cs,
        ts: 0,
        cts: heard.cts,
        body,
    };
    let mut buffer = [0; SAFE_PDU_MAX];
    let size = encode(&pdu, &RULE, &mut buffer);
    seat.receive(&buffer[..size], now)
}

/// A PDU of the peer.
fn from_peer(kind: Kind, sn: u32, cs: u32) -> Heard {
    Heard {
        kind,
        sender: 1,
        sn,
        cs,
        cts: 0,
    }
}

/// A server with first number 500 that took ConnReq 100 and HB 101.
fn server<A: Allocator>(alloc: A) -> Result<Seat<A>, MachineFault> {
    let mut seat = Seat::open(alloc)?;
    receive(&mut seat, from_peer(Kind::ConnReq, 100, 0), 0);
    receive(&mut seat, from_peer(Kind::Heartbeat, 101, 500), 0);
    Ok(seat)
}

/// One arrival at a server that is up is answered so, and these PDUs are made.
fn arrives<A: Allocator>(
    rt: &impl Abort,
    seat: &mut Seat<A>,
    heard: Heard,
    now: u64,
    step: Step,
    pdus: &[Told],
) {
    assert_equal(rt, receive(seat, heard, now), step);
    seat.made(rt, 1, pdus);
}

#[test]
fn server_up_one_arrival(rt: HostRuntime) -> Result<(), Fail> {
    let beat = from_peer(Kind::Heartbeat, 102, 500);
    for (heard, now, step, pdus) in [
        (
            from_peer(Kind::Data, 302, 500),
            0,
            Step::Gap,
            [(Kind::RetrReq.number(), 501, 101)].as_slice(),
        ),
        (
            from_peer(Kind::Data, 303, 500),
            0,
            Step::Dropped(DropCause::Number),
            [].as_slice(),
        ),
        (
            from_peer(Kind::RetrData, 102, 500),
            0,
            Step::Left(Reason::UnexpectedPdu, Detail::Unspecified),
            [(Kind::DiscReq.number(), 501, 101)].as_slice(),
        ),
        (
            from_peer(Kind::Heartbeat, 102, 501),
            0,
            Step::Left(Reason::ProtocolError, Detail::ConfirmedNumber),
            [(Kind::DiscReq.number(), 501, 101)].as_slice(),
        ),
        (
            Heard { cts: 1, ..beat },
            0,
            Step::Left(Reason::ProtocolError, Detail::ConfirmedTimestamp),
            [(Kind::DiscReq.number(), 501, 101)].as_slice(),
        ),
        (
            Heard { sender: 9, ..beat },
            0,
            Step::Dropped(DropCause::Stranger),
            [].as_slice(),
        ),
        (
            beat,
            1_800,
            Step::Left(Reason::Timeout, Detail::Unspecified),
            [(Kind::DiscReq.number(), 501, 101)].as_slice(),
        ),
        (beat, 1_799, Step::Taken, [].as_slice()),
        (
            from_peer(Kind::DiscReq, 900, 1),
            0,
            Step::Nothing,
            [].as_slice(),
        ),
    ] {
        arrives(&rt, &mut server(rt.alloc())?, heard, now, step, pdus);
    }
    Ok(())
}

/// A request for retransmission at a server that is up and sends two units, and the same once more, are answered so, and these PDUs
/// are made.
fn answers<A: Allocator>(
    rt: &impl Abort,
    seat: &mut Seat<A>,
    request: Heard,
    steps: (Step, Step),
    pdus: &[Told],
) {
    let _ = seat.send(1);
    let _ = seat.send(2);
    assert_equal(rt, receive(seat, request, 0), steps.0);
    assert_equal(rt, receive(seat, request, 0), steps.1);
    seat.made(rt, 3, pdus);
}

/// How a request for all that was sent is answered, and how it is once more.
const ANSWERED: (Step, Step) = (Step::Taken, Step::Dropped(DropCause::Number));

/// RetrResp, both units as RetrData, and a heartbeat.
const ANSWER: [Told; 4] = [
    (6213, 503, 102),
    (6241, 504, 102),
    (6241, 505, 102),
    (6220, 506, 102),
];

#[test]
fn server_answers_requests(rt: HostRuntime) -> Result<(), Fail> {
    let below = Step::Dropped(DropCause::Below);
    for (sn, cs, steps, pdus) in [
        (102, 500, ANSWERED, ANSWER.as_slice()),
        (102, 499, (below, below), [].as_slice()),
        (
            102,
            503,
            (
                Step::Left(Reason::RetransmissionImpossible, Detail::Unspecified),
                Step::Nothing,
            ),
            [(Kind::DiscReq.number(), 503, 101)].as_slice(),
        ),
        (
            105,
            501,
            (Step::Taken, Step::Dropped(DropCause::Answered)),
            [
                (Kind::RetrResp.number(), 503, 101),
                (Kind::RetrData.number(), 504, 101),
                (Kind::Heartbeat.number(), 505, 101),
                (Kind::RetrReq.number(), 506, 101),
            ]
            .as_slice(),
        ),
    ] {
        let request = from_peer(Kind::RetrReq, sn, cs);
        answers(&rt, &mut server(rt.alloc())?, request, steps, pdus);
    }
    Ok(())
}

// Opening answers Memory until there is room; after it nothing more is taken, through a retransmission.
#[test]
fn opening_takes_the_only_memory(rt: HostRuntime) -> Result<(), Fail> {
    let mut refused = false;
    for step in 0..128usize {
        let heap = LocalHeap::new(rt.alloc(), 1024 * step)?;
        match server(&heap) {
            Ok(mut seat) => {
                let used = heap.used();
                let request = from_peer(Kind::RetrReq, 102, 500);
                answers(&rt, &mut seat, request, ANSWERED, &ANSWER);
                assert_equal(&rt, heap.used(), used);
                assert_true(&rt, refused);
                return Ok(());
            }
            Err(MachineFault::Memory) => refused = true,
            Err(MachineFault::BadConfig) => return Err("these settings are legal".into()),
        }
    }
    Err("no heap was great enough".into())
}
