//! The set-up of a session and telegrams in it, with every octet that is sent, and the tables of both ends.

use crate::assertions::{assert_equal, assert_equal_at, assert_true};
use arrayvec::ArrayVec;
use pdi_session::packing::{WAITING_MAX, Waiting, pack, unpack};
use pdi_session::telegram::{Name, NameFault, OwnedName, Telegram, decode};
use pdi_session::{
    FieldConfig, InterlockingConfig, Parties, Phase, PutFault, Session, SessionDetail, Taker,
    are_versions,
};
use std::process::Abort;
use std::test::Fail;

// What an application took: the kinds, and the octets of the payloads one after the other.
#[derive(Drop)]
struct Log {
    kinds: ArrayVec<u16, 100>,
    octets: ArrayVec<u8, 1000>,
}

impl Taker for Log {
    ghost use Rattle.std.specs.Prelude.{⊤};

    ghost takes = { λ _ _ _. ⊤ };

    fn take(&mut self, kind: u16, payload: &[u8]) {
        let _kept = self.kinds.try_push(kind);
        let _kept = self.octets.try_extend_from_slice(payload);
    }
}

// One end in memory: its session, the messages that wait, and what its application took.
#[derive(Drop)]
struct Seat {
    session: Session,
    waiting: Waiting,
    log: Log,
}

fn parties(own: &str, peer: &str) -> Result<Parties, NameFault> {
    Ok(Parties {
        protocol: 1,
        own: OwnedName::new(Name::new(own)?),
        peer: OwnedName::new(Name::new(peer)?),
    })
}

fn of_session(rt: &HostRuntime, session: Session) -> Result<Seat, Fail> {
    Ok(Seat {
        session,
        waiting: Waiting::new(rt.alloc())?,
        log: Log {
            kinds: ArrayVec::new(),
            octets: ArrayVec::new(),
        },
    })
}

// A field element of the versions 4 and 3.
fn field(rt: &HostRuntime) -> Result<Seat, Fail> {
    let mut versions = ArrayVec::new();
    versions
        .try_extend_from_slice(&[4, 3])
        .map_err(|_| Fail::from("versions"))?;
    let mut checksum = ArrayVec::new();
    checksum
        .try_extend_from_slice(&[0xc0, 0xde])
        .map_err(|_| Fail::from("checksum"))?;
    if !are_versions(&versions) {
        return Err(Fail::from("a list of versions"));
    }
    let parties = parties("FE1", "IL1")?;
    let config = FieldConfig {
        parties,
        versions,
        checksum,
    };
    of_session(rt, Session::field(config))
}

// What a session is asked and told, without its long contracts, which no test needs.
impl Seat {
    // The connection is up at this end. None where there is no room for what it says.
    fn up(&mut self) -> Option<Phase> {
        if self.waiting.len() >= WAITING_MAX {
            return None;
        }
        self.session.up(&mut self.waiting);
        Some(self.session.phase())
    }

    // Hands a message over. None where it ends the session, is no telegram, or has no room for an answer.
    fn read(&mut self, message: &[u8]) -> Option<Phase> {
        let telegram = decode(message).ok()?;
        if self.waiting.len() >= WAITING_MAX {
            return None;
        }
        let read = self
            .session
            .arrive(&telegram, &mut self.waiting, &mut self.log);
        read.ok()?;
        Some(self.session.phase())
    }

    fn put(&mut self, kind: u16, payload: &[u8]) -> Result<(), PutFault> {
        self.session.put(kind, payload, &mut self.waiting)
    }

    fn done(&mut self) -> Option<Phase> {
        self.session.init_done(&mut self.waiting).ok()?;
        Some(self.session.phase())
    }

    // The first message that waits, and the phase of the other end when it has come there.
    fn carry(&mut self, to: &mut Seat) -> Option<(ArrayVec<u8, 400>, Phase)> {
        let unit = pack(&mut self.waiting, 1)?;
        let messages = unpack(&unit).ok()?;
        let mut message = ArrayVec::new();
        message.try_extend_from_slice(messages.get(0)?).ok()?;
        let phase = to.read(message.as_slice())?;
        Some((message, phase))
    }
}

// The first message from one end to the other has these octets, and leaves that in a phase.
fn carries(
    rt: &impl Abort,
    from: &mut Seat,
    to: &mut Seat,
    octets: &[u8],
    phase: Phase,
) -> Result<(), Fail> {
    let (message, found) = from.carry(to).ok_or("no message was carried")?;
    assert_equal(rt, message.as_slice(), octets);
    assert_equal(rt, found, phase);
    Ok(())
}

// An interlocking of version 3.
fn interlocking(rt: &HostRuntime) -> Result<Seat, Fail> {
    let parties = parties("IL1", "FE1")?;
    let config = InterlockingConfig {
        parties,
        version: 3,
    };
    of_session(rt, Session::interlocking(config))
}

// The opening of two sessions, with the phases of each step and every octet that is sent. The field
// element takes version 3 although its list begins with 4.
#[test]
fn opens_two_sessions(rt: HostRuntime) -> Result<(), Fail> {
    let mut il = interlocking(&rt)?;
    let mut fe = field(&rt)?;
    sets_up(&rt, &mut il, &mut fe)?;
    takes_telegrams(&rt, &mut il, &mut fe)
}

const CHECK: &[u8] = b"\x01\x24\x00IL1_________________FE1_________________\x03";

const ANSWER: &[u8] = b"\x01\x25\x00FE1_________________IL1_________________\x02\x03\x02\xc0\xde";

const REQUEST: &[u8] = b"\x01\x21\x00IL1_________________FE1_________________";

const START: &[u8] = b"\x01\x22\x00FE1_________________IL1_________________";

const DONE: &[u8] = b"\x01\x23\x00FE1_________________IL1_________________";

const FIRST: &[u8] = b"\x01\x01\x02FE1_________________IL1_________________\x01\x02";

const SECOND: &[u8] = b"\x01\x02\x02FE1_________________IL1_________________";

const COMMAND: &[u8] = b"\x01\x00\x01IL1_________________FE1_________________\x0a";

// The telegrams of the set-up, up to the initialisation.
fn sets_up(rt: &impl Abort, il: &mut Seat, fe: &mut Seat) -> Result<(), Fail> {
    assert_equal(rt, il.up(), Some(Phase::Checking));
    assert_equal(rt, fe.up(), Some(Phase::AwaitCheck));
    carries(rt, il, fe, CHECK, Phase::AwaitRequest)?;
    carries(rt, fe, il, ANSWER, Phase::Requesting)?;
    carries(rt, il, fe, REQUEST, Phase::Initialising)?;
    carries(rt, fe, il, START, Phase::Initialising)
}

// Initial status waits in front of the end of the initialisation, and is taken before it; then a command and a status are taken.
fn takes_telegrams(rt: &impl Abort, il: &mut Seat, fe: &mut Seat) -> Result<(), Fail> {
    fe.put(0x0201, &[1, 2])?;
    assert_equal(rt, fe.done(), Some(Phase::Established));
    fe.put(0x0202, &[])?;
    carries(rt, fe, il, FIRST, Phase::Initialising)?;
    carries(rt, fe, il, DONE, Phase::Established)?;
    carries(rt, fe, il, SECOND, Phase::Established)?;
    il.put(0x0100, &[0x0a])?;
    carries(rt, il, fe, COMMAND, Phase::Established)?;
    assert_true(rt, il.log.kinds.as_slice() == [0x0201, 0x0202].as_slice());
    assert_true(rt, il.log.octets.as_slice() == [1, 2].as_slice());
    assert_true(rt, fe.log.kinds.as_slice() == [0x0100].as_slice());
    assert_true(rt, fe.log.octets.as_slice() == [0x0a].as_slice());
    Ok(())
}

// Telegrams of each form, and telegrams that nearly have it: the type and the payload in hex digits.
const TELEGRAMS: &str =
    "24:03 24:05 24: 24:0300 25:020300 25:02030109 25:020400 25:010300 25:030300 25:0203 25:020301 25:02030009 \
21: 21:00 22: 22:00 23: 23:00 0100:0a 2400:";

// The ways to each phase of an interlocking, and of a field element.
const INTERLOCKING_WAYS: &str = "\
idle
up
up 25:020300
up 25:020300 22:
up 25:020300 22: 23:
up end
";

const FIELD_WAYS: &str = "\
idle
up
up 24:03
up 24:05
up 24:03 21:
up 24:03 21: done
up end
";

// The tables of docs/protocol.md: a phase, a telegram, the next phase, what the session answers, how many messages it sends and how many
// telegrams it takes.
const INTERLOCKING_TABLE: &str = "\
Checking 25:020300 Requesting None 1 0
Checking 25:02030109 Requesting None 1 0
Checking 25:010300 Ended Some(VersionDiffers) 0 0
Requesting 22: Initialising None 0 0
Initialising 0100:0a Initialising None 0 1
Initialising 2400: Initialising None 0 1
Initialising 23: Established None 0 0
Established 0100:0a Established None 0 1
Established 2400: Established None 0 1
";

const FIELD_TABLE: &str = "\
AwaitCheck 24:03 AwaitRequest None 1 0
AwaitCheck 24:05 Refused None 1 0
AwaitRequest 21: Initialising None 1 0
Established 0100:0a Established None 0 1
Established 2400: Established None 0 1
";

impl Seat {
    // A telegram of the peer comes: its type and its payload.
    fn receive(
        &mut self,
        rt: &HostRuntime,
        names: [&str; 2],
        telegram: &str,
    ) -> Result<Option<SessionDetail>, Fail> {
        let (kind, payload) = telegram.split_once(':').ok_or("no type")?;
        let payload = hex::decode(rt.alloc(), payload)?;
        let telegram = Telegram {
            protocol: 1,
            kind: u16::from_str_radix(kind, 16)?,
            sender: Name::new(names[0])?,
            receiver: Name::new(names[1])?,
            payload: payload.as_slice(),
        };
        if self.waiting.len() >= WAITING_MAX {
            return Err(Fail::from("no room"));
        }
        let answer = self
            .session
            .arrive(&telegram, &mut self.waiting, &mut self.log);
        Ok(answer.err().map(|end| end.detail))
    }

    // Goes a way to a phase.
    fn go(&mut self, rt: &HostRuntime, names: [&str; 2], way: &str) -> Result<(), Fail> {
        for word in way.split(' ') {
            match word {
                "idle" => {}
                "up" => {
                    self.up().ok_or("no room")?;
                }
                "done" => {
                    self.done().ok_or("not initialising")?;
                }
                "end" => self.session.end(),
                telegram => {
                    self.receive(rt, names, telegram)?;
                }
            }
        }
        Ok(())
    }

    // What a telegram does is what its row says; without a row it ends the session.
    fn does(
        &mut self,
        rt: &HostRuntime,
        names: [&str; 2],
        telegram: &str,
        table: &str,
    ) -> Result<(String, String), Fail> {
        let (phase, before) = (self.session.phase(), self.waiting.len());
        let front = format!(in rt.alloc(); "{phase:?} {telegram} ")?;
        let answer = self.receive(rt, names, telegram)?;
        let after = self.session.phase();
        let sent = self.waiting.len().wrapping_sub(before);
        let taken = self.log.kinds.len();
        let found = format!(in rt.alloc(); "{front}{after:?} {answer:?} {sent} {taken}")?;
        for row in table.lines() {
            if row.starts_with(front.as_str()) {
                return Ok((found, String::from_str(rt.alloc(), row)?));
            }
        }
        let wanted = format!(in rt.alloc(); "{front}Ended Some(OutOfOrder) 0 0")?;
        Ok((found, wanted))
    }
}

// Each telegram in each phase of either end.
#[test]
fn makes_the_tables(rt: HostRuntime) -> Result<(), Fail> {
    for telegram in TELEGRAMS.split(' ') {
        for way in INTERLOCKING_WAYS.lines() {
            let mut il = interlocking(&rt)?;
            il.go(&rt, ["FE1", "IL1"], way)?;
            let (found, wanted) = il.does(&rt, ["FE1", "IL1"], telegram, INTERLOCKING_TABLE)?;
            assert_equal_at(&rt, way, found.as_str(), wanted.as_str());
        }
        for way in FIELD_WAYS.lines() {
            let mut fe = field(&rt)?;
            fe.go(&rt, ["IL1", "FE1"], way)?;
            let (found, wanted) = fe.does(&rt, ["IL1", "FE1"], telegram, FIELD_TABLE)?;
            assert_equal_at(&rt, way, found.as_str(), wanted.as_str());
        }
    }
    Ok(())
}
