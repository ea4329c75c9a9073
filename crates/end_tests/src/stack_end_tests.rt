//! Two ends that poll channels in memory, and what goes wrong between them.

ghost use Rattle.std.specs.Prelude.{◌≡◌, ◌≤◌, ◌^◌, None};
ghost use Rattle.channels.specs.Memory.{told_of};

use crate::assertions::{assert_equal, assert_equal_at, assert_true};
use arrayvec::ArrayVec;
use channels::{ChannelFault, Channels, MemChannels, Note};
use end_settings::{Checksum, EndConfig, Side, Versions};
use linked_list_allocator::LocalHeap;
use pdi_session::Taker;
use pdi_session::telegram::{Name, OwnedName};
use stack_end::{End, PollFault};
use std::alloc::{Allocator, Global};
use std::io::Write;
use std::process::Abort;
use std::test::Fail;

fn name(text: &str) -> Option<OwnedName> {
    Some(OwnedName::new(Name::new(text).ok()?))
}

/// Returns the settings of an end with two channels, as scripts begin with.
pub(crate) fn config(side: Side) -> Option<EndConfig> {
    let (id, own, peer_id, peer) = match side {
        Side::Interlocking => (1, "IL1", 2, "FE1"),
        Side::FieldElement => (2, "FE1", 1, "IL1"),
    };
    Some(EndConfig {
        id,
        peer_id,
        name: name(own)?,
        peer_name: name(peer)?,
        protocol: 1,
        versions: Versions::new(&[3])?,
        checksum: Checksum::new(&[])?,
        code: 8,
        initial_value: [1, 2, 3, 4],
        channels: 2,
        n_sendmax: 20,
        n_maxpacket: 3,
        q: 4,
        t_max: 1_800,
        t_h: 300,
        t_seq: 50,
        mwa: 10,
        pdu_limit: 4_294_901_760,
    })
}

/// Channels in memory that keep the notes of their end as lines of text. One send and one reception fail, counted from 0.
#[derive(Drop)]
struct Faulty {
    inner: MemChannels,
    lines: Vec<u8>,
    sends: usize,
    receives: usize,
    failing_send: usize,
    failing_receive: usize,
    failed_sends: u64,
    failed_receives: u64,
}

impl Channels for Faulty {
    ghost told = { λ f. record {
      sent = (told_of f.inner).sent;
      answers = (told_of f.inner).answers;
      asked = None;
      failed_sends = f.failed_sends;
      failed_receives = f.failed_receives;
      room = λ _. 0;
    } };

    fn send(&mut self, channel: usize, datagram: &[u8]) -> Result<(), ChannelFault> {
        let this = self.sends;
        self.sends = this.wrapping_add(1);
        if this == self.failing_send {
            self.failed_sends = self.failed_sends.wrapping_add(1);
            return Err(ChannelFault::System);
        }
        match self.inner.send(channel, datagram) {
            Ok(()) => Ok(()),
            Err(fault) => {
                self.failed_sends = self.failed_sends.wrapping_add(1);
                Err(fault)
            }
        }
    }

    fn receive(&mut self, buffer: &mut [u8]) -> Result<Option<(usize, usize)>, ChannelFault> {
        let this = self.receives;
        self.receives = this.wrapping_add(1);
        if this == self.failing_receive {
            self.failed_receives = self.failed_receives.wrapping_add(1);
            return Err(ChannelFault::System);
        }
        match self.inner.receive(buffer) {
            Ok(came) => Ok(came),
            Err(fault) => {
                self.failed_receives = self.failed_receives.wrapping_add(1);
                Err(fault)
            }
        }
    }

    fn hears_notes(&self) -> bool {
        true
    }

    fn note(&mut self, note: &Note<'_>) {
        let _written = writeln!(self.lines, "{note:?}");
    }
}

/// What goes wrong: at one end a send fails, or what it sends is lost, or a reception fails; places count from 0. The two
/// copies of a unit of the interlocking may be lost beside that.
#[derive(Clone, Copy)]
struct Mishap {
    side: Side,
    send: usize,
    lost: usize,
    receive: usize,
    unit: usize,
}

const NONE: usize = 1_000_000;

/// The place of the first copy of the first command.
const COMMAND: usize = 8;

const GOOD: Mishap = Mishap {
    side: Side::Interlocking,
    send: NONE,
    lost: NONE,
    receive: NONE,
    unit: NONE,
};

impl Mishap {
    /// Whether what an end sent at a place is lost.
    fn loses(&self, side: Side, place: usize) -> bool {
        let is_of_unit = place == self.unit || place == self.unit.wrapping_add(1);
        side == self.side && place == self.lost || side == Side::Interlocking && is_of_unit
    }
}

/// The kinds and the first octets of what an application took.
#[derive(Drop)]
struct Taken {
    list: ArrayVec<(u16, u8), 16>,
}

impl Taker for Taken {
    ghost takes = { λ _ _ _. Unit {0} };

    fn take(&mut self, kind: u16, payload: &[u8]) {
        let first = payload.first().copied().unwrap_or(0);
        let _kept = self.list.try_push((kind, first));
    }
}

/// An end with its clock in milliseconds, what its application took, how much of what its peer sent came or was lost, and how
/// many polls failed.
#[derive(Drop)]
struct Station<A: Allocator> {
    end: End<Faulty, A>,
    side: Side,
    clock: u64,
    taken: Taken,
    heard: usize,
    faults: u32,
    ghost timely: { end.time ≤ clock },
    ghost small: { clock ≤ 2 ^ 62 },
}

impl<A: Allocator + Copy> Station<A> {
    fn open(
        rt: &impl AllocGlobal,
        alloc: A,
        side: Side,
        first_sn: u32,
        mishap: &Mishap,
    ) -> Option<Self> {
        let is_here = side == mishap.side;
        let channels = Faulty {
            inner: MemChannels::new(rt.alloc(), 160).ok()?,
            lines: Vec::new(rt.alloc()),
            sends: 0,
            receives: 0,
            failing_send: if is_here { mishap.send } else { NONE },
            failing_receive: if is_here { mishap.receive } else { NONE },
            failed_sends: 0,
            failed_receives: 0,
        };
        let end = End::open(alloc, channels, config(side)?, side, first_sn, 0).ok()?;
        Some(Station {
            end,
            side,
            clock: 0,
            taken: Taken {
                list: ArrayVec::new(),
            },
            heard: 0,
            faults: 0,
        })
    }
}

impl<A: Allocator> Station<A> {
    /// 10 milliseconds pass. What the peer has sent comes to the channels, but for what is lost; then the end polls.
    fn turn(&mut self, peer: &Station<A>, mishap: &Mishap) -> Result<(), Fail> {
        for _ in 0..160 {
            let Some((channel, octets)) = peer.end.channels_seen().inner.sent(self.heard) else {
                break;
            };
            if !mishap.loses(peer.side, peer.place_of(self.heard)) {
                self.end.channels().inner.add(channel, octets)?;
            }
            self.heard = self.heard.wrapping_add(1);
        }
        self.clock = u64::min(self.clock.saturating_add(10), 1 << 62);
        if self.end.poll(self.clock, &mut self.taken) == Err(PollFault::Channel) {
            self.faults = self.faults.wrapping_add(1);
        }
        Ok(())
    }

    fn put(&mut self, octet: u8) {
        let _answer = self.end.put(0x100, &[octet], self.clock);
    }

    fn done(&mut self) {
        let _answer = self.end.init_done(self.clock);
    }

    /// The place among all sends of one that went out.
    fn place_of(&self, number: usize) -> usize {
        let channels = self.end.channels_seen();
        if channels.failed_sends > 0 && channels.failing_send <= number {
            number.wrapping_add(1)
        } else {
            number
        }
    }
}

/// Both ends and the line between them.
#[derive(Drop)]
struct Line<A: Allocator> {
    il: Station<A>,
    fe: Station<A>,
}

impl<A: Allocator + Copy> Line<A> {
    /// Two ends, of which the field element was opened first.
    fn open(rt: &impl AllocGlobal, alloc: A, mishap: &Mishap) -> Option<Self> {
        let fe = Station::open(rt, alloc, Side::FieldElement, 500, mishap)?;
        let il = Station::open(rt, alloc, Side::Interlocking, 100, mishap)?;
        Some(Line { il, fe })
    }
}

impl<A: Allocator> Line<A> {
    /// Two commands are put into a session, and then all is still.
    fn play(&mut self, mishap: &Mishap) -> Result<(), Fail> {
        for turn in 0..28 {
            self.fe.turn(&self.il, mishap)?;
            self.il.turn(&self.fe, mishap)?;
            if turn == 6 {
                self.fe.done();
            }
            if turn == 10 {
                self.il.put(1);
                self.il.put(2);
            }
        }
        Ok(())
    }

    fn course(&self, rt: &impl AllocGlobal) -> Result<Course, Fail> {
        let mut taken = ArrayVec::new();
        taken
            .try_extend_from_slice(self.fe.taken.list.as_slice())
            .map_err(|_| Fail::from("too many"))?;
        let (il, fe) = (self.il.end.channels_seen(), self.fe.end.channels_seen());
        Ok(Course {
            il: String::from_str(rt.alloc(), str::from_utf8(il.lines.as_slice())?)?,
            fe: String::from_str(rt.alloc(), str::from_utf8(fe.lines.as_slice())?)?,
            taken,
            failed_sends: il.failed_sends.wrapping_add(fe.failed_sends),
            faults: self.il.faults.wrapping_add(self.fe.faults),
        })
    }
}

/// How a session went: the notes of each end, what was taken, how many sends and how many polls failed.
#[derive(Drop)]
struct Course {
    il: String,
    fe: String,
    taken: ArrayVec<(u16, u8), 16>,
    failed_sends: u64,
    faults: u32,
}

fn run(rt: &impl AllocGlobal, mishap: Mishap) -> Result<Course, Fail> {
    let mut line = Line::open(rt, rt.alloc(), &mishap).ok_or("not opened")?;
    line.play(&mishap)?;
    line.course(rt)
}

/// Both commands were taken, and each end's notes are those of another course.
fn is_as(rt: &impl Abort, place: usize, course: &Course, other: &Course) {
    let both = [(0x100, 1), (0x100, 2)];
    assert_equal_at(rt, place, course.taken.as_slice(), both.as_slice());
    assert_equal_at(rt, place, course.il.as_str(), other.il.as_str());
    assert_equal_at(rt, place, course.fe.as_str(), other.fe.as_str());
}

const SIDES: [Side; 2] = [Side::Interlocking, Side::FieldElement];

// Each send of either end fails in turn, without a loss and where a command is lost: all goes as in the run in which that copy
// is lost on its way.
#[test]
fn a_failed_send_is_a_lost_copy(rt: HostRuntime) -> Result<(), Fail> {
    for unit in [NONE, COMMAND] {
        for side in SIDES {
            let calm = Mishap { side, unit, ..GOOD };
            let mut failed_sends = 0u32;
            for place in 0..100 {
                let send = place;
                let failed = run(&rt, Mishap { send, ..calm })?;
                if failed.failed_sends == 0 {
                    break;
                }
                failed_sends = failed_sends.wrapping_add(1);
                let lost = place;
                is_as(&rt, place, &failed, &run(&rt, Mishap { lost, ..calm })?);
            }
            assert_true(&rt, (8..100).contains(&failed_sends));
        }
    }
    Ok(())
}

// Each reception of either end fails in turn: one poll answers that, and all that an end takes and does is as without it.
#[test]
fn a_failed_receive_loses_nothing(rt: HostRuntime) -> Result<(), Fail> {
    for unit in [NONE, COMMAND] {
        for side in SIDES {
            let calm = Mishap { side, unit, ..GOOD };
            let whole = run(&rt, calm)?;
            let mut faults = 0u32;
            for place in 0..100 {
                let receive = place;
                let course = run(&rt, Mishap { receive, ..calm })?;
                if course.faults == 0 {
                    break;
                }
                faults = faults.wrapping_add(course.faults);
                is_as(&rt, place, &course, &whole);
                assert_equal_at(&rt, place, faults as usize, place + 1);
            }
            assert_true(&rt, (36..100).contains(&faults));
        }
    }
    Ok(())
}

/// Takes all that is left in a heap.
fn take_all<'a>(
    rt: &(impl AllocGlobal + Abort),
    heap: &'a LocalHeap,
) -> Result<Vec<Vec<u8, &'a LocalHeap>>, Fail> {
    let mut taken = Vec::new(rt.alloc());
    for size in [4096, 64, 1] {
        for _ in 0..1000 {
            match Vec::with_capacity(heap, size) {
                Ok(octets) => taken.push(octets)?,
                Err(_) => break,
            }
        }
    }
    assert_true(rt, Vec::<u8, &LocalHeap>::with_capacity(heap, 1).is_err());
    Ok(taken)
}

// In heaps of rising size the opening is refused, until one has room for both ends. That heap then refuses all, and a lost unit is
// asked for, sent again and taken as in any other.
#[test]
fn goes_on_in_a_full_heap(rt: HostRuntime) -> Result<(), Fail> {
    let mishap = Mishap {
        unit: COMMAND,
        ..GOOD
    };
    let whole = run(&rt, mishap)?;
    for step in 0..200 {
        let heap = LocalHeap::new(rt.alloc(), step * 1024)?;
        if let Some(course) = run_in(&rt, &heap, &mishap)? {
            assert_true(&rt, step > 0);
            is_as(&rt, step, &course, &whole);
            return Ok(());
        }
    }
    Err(Fail::from("no heap is large enough"))
}

/// How a session goes in a heap that refuses all after the opening; None if the opening is refused.
fn run_in(
    rt: &(impl AllocGlobal + Abort),
    heap: &LocalHeap,
    mishap: &Mishap,
) -> Result<Option<Course>, Fail> {
    match Line::open(rt, heap, mishap) {
        Some(mut line) => {
            let _all = take_all(rt, heap)?;
            Ok(Some(play_in(rt, heap, &mut line, mishap)?))
        }
        None => Ok(None),
    }
}

/// Nothing is taken from the heap, and nothing is given back.
fn play_in(
    rt: &(impl AllocGlobal + Abort),
    heap: &LocalHeap,
    line: &mut Line<&LocalHeap>,
    mishap: &Mishap,
) -> Result<Course, Fail> {
    let used = heap.used();
    line.play(mishap)?;
    assert_equal(rt, heap.used(), used);
    line.course(rt)
}
