//! What a machine keeps, and single changes of it.

ghost use Rattle.std.specs.Prelude.{◌≡◌, ◌+◌, ◌<◌, ◌≤◌, ◌^◌, List, [], length, true, ◌%◌};
ghost use Rattle.safe_pdu.specs.SafeText.{code_octets};
ghost use Rattle.safe_pdu.specs.Bodies.{IsBody};
ghost use Rattle.safe_machine.specs.Made.{opening_body, leaving_body};
ghost use Rattle.safe_machine.specs.Turns.{Out, count_pdu, leave_turn, next_made};
ghost use Rattle.safe_machine.specs.View.{settings_of, text_of};
ghost use Rattle.safe_machine.specs.Numbers.{sn_of};
ghost use Rattle.safe_machine.specs.Connections.{is_live, in_turn, is_connected};

use super::{ConnectionState, Detail, MachineConfig, PduOut, Reason, Role};
use crate::retrans::Unconfirmed;
use octets::Milliseconds;
use octets::limits::{SAFE_HEADER, SAFE_PDU_MAX};
use octets::places::put_u16;
use safe_pdu::{Kind, SafePdu, encode};
use std::alloc::{Allocator, Global};
use std::marker::Model;

/// The version of this profile, 0303 in ASCII.
pub(crate) const VERSION: [u8; 4] = [0x30, 0x33, 0x30, 0x33];

/// The size of the small buffer, in bytes. A buffer is cleared before it is written, so a PDU that fits this one
/// costs less. A telegram with up to 20 bytes of payload makes such a PDU.
const SHORT_PDU: usize = 128;

/// The counters of one end, and its unconfirmed units.
#[derive(Drop)]
pub(crate) struct MachineState<A: Allocator = Global> {
    /// The settings it was opened with.
    pub(crate) config: MachineConfig,
    /// Client or server.
    pub(crate) role: Role,
    /// The sequence number of its first PDU.
    pub(crate) first: u32,
    /// The state of the connection.
    pub(crate) connection: ConnectionState,
    /// How many PDUs it has made, without wrap. SN_T is `first` plus this count, modulo 2^32.
    pub(crate) made: u64,
    /// The own time of the last PDU made, in milliseconds.
    pub(crate) last_made: Milliseconds,
    /// How many units it has taken since its last sending; at mwa, a heartbeat is made.
    pub(crate) since: u64,
    /// The index of the peer's next PDU: SN_R without its wrap.
    pub(crate) expected: u64,
    /// CS_T: the sequence number of the PDU that last moved `expected`, 0 before any.
    pub(crate) last_sn: u32,
    /// TS_R: the timestamp of that PDU, modulo 2^32, 0 before any. The next PDU made confirms it.
    pub(crate) last_ts: u32,
    /// The index of the last own PDU confirmed: CS_R without its wrap.
    pub(crate) confirmed: u64,
    /// The own time last confirmed, in milliseconds: CTS_R without its wrap.
    pub(crate) confirmed_at: Milliseconds,
    /// The index of the last RetrReq handled, 0 before any.
    pub(crate) answered: u64,
    /// How many units may be unconfirmed: the peer's N_sendmax.
    pub(crate) window: u64,
    /// The unconfirmed units, kept for a retransmission.
    pub(crate) ring: Unconfirmed<A>,
}

impl<A: Allocator> Model for MachineState<A> {
    ghost use Rattle.safe_machine.specs.View.{View, settings_of};

    ghost Value = { View };

    ghost view = { λ e. record {
      settings = settings_of e.role e.config;
      first = e.first;
      connection = e.connection;
      made = e.made;
      last_made = e.last_made;
      since = e.since;
      expected = e.expected;
      last_sn = e.last_sn;
      last_ts = e.last_ts;
      confirmed = e.confirmed;
      confirmed_at = e.confirmed_at;
      answered = e.answered;
      window = e.window;
      ring = e.ring.units;
      room = e.ring.room;
    } };
}

impl<A: Allocator> MachineState<A> {
    /// Closes the end from any state, with a DiscReq if there is a connection.
    #[cold]
    #[inline(never)]
    pub(crate) fn leave<O: PduOut>(
        &mut self,
        reason: Reason,
        detail: Detail,
        now: Milliseconds,
        out: &mut O,
    )
        requires few { self.old.made < 2 ^ 40 }
        // `leave` leaves the end in Closed; in Start, Up, RetrReq and RetrRun a DiscReq is counted (`leave_turn`).
        ensures left { self.new ≡ (leave_turn reason detail now self.old).left }
        // `leave` hands out a DiscReq with this reason and detail in Start, Up, RetrReq and RetrRun, otherwise
        // nothing (`leave_turn`).
        ensures made { Out O.makes self.old.settings.rule out.old (leave_turn reason detail now self.old) out.new }
    {
        if self.connection.is_live() {
            self.goodbye(reason, detail, now, out);
        }
        self.move_to(ConnectionState::Closed);
    }

    /// Makes a DiscReq.
    pub(crate) fn goodbye<O: PduOut>(
        &mut self,
        reason: Reason,
        detail: Detail,
        now: Milliseconds,
        out: &mut O,
    )
        requires few { self.old.made < 2 ^ 40 }
        // `goodbye` counts one PDU.
        ensures left { self.new ≡ count_pdu now self.old }
        // The PDU handed out is a DiscReq with this detail and reason (`leaving_body`).
        ensures made { O.makes out.old (text_of self.old.settings.rule
            (next_made self.old Kind.DiscReq (leaving_body reason detail) now)) out.new }
    {
        let body = leaving_octets(reason, detail);
        self.make(Kind::DiscReq, &body, now, out);
    }

    /// Makes a ConnReq or ConnResp.
    pub(crate) fn say_opening<O: PduOut>(&mut self, kind: Kind, now: Milliseconds, out: &mut O)
        requires few { self.old.made < 2 ^ 40 }
        requires body { IsBody kind (opening_body self.old.settings.n_sendmax) }
        // `say_opening` counts one PDU.
        ensures left { self.new ≡ count_pdu now self.old }
        // The PDU handed out is of this type, with the profile's version and the own window (`opening_body`).
        ensures made { O.makes out.old (text_of self.old.settings.rule
            (next_made self.old kind (opening_body self.old.settings.n_sendmax) now)) out.new }
    {
        let body = opening_octets(self.config.n_sendmax);
        self.make(kind, &body, now, out);
    }

    /// Makes a heartbeat.
    pub(crate) fn beat<O: PduOut>(&mut self, now: Milliseconds, out: &mut O)
        requires few { self.old.made < 2 ^ 40 }
        // `beat` counts one PDU.
        ensures left { self.new ≡ count_pdu now self.old }
        // The PDU handed out is a heartbeat, with an empty body.
        ensures made { O.makes out.old
            (text_of self.old.settings.rule (next_made self.old Kind.Heartbeat [] now)) out.new }
    {
        self.make(Kind::Heartbeat, &[], now, out);
    }

    /// Makes a PDU: hands it out and counts it.
    pub(crate) fn make<O: PduOut>(
        &mut self,
        kind: Kind,
        body: &[u8],
        now: Milliseconds,
        out: &mut O,
    )
        requires body { IsBody kind body.now }
        requires few { self.old.made < 2 ^ 40 }
        // `make` counts one PDU: its time becomes that of the last one made, and no unit is taken since
        // (`count_pdu`).
        ensures left { self.new ≡ count_pdu now self.old }
        // The PDU handed out is the next one, with this type and body (`next_made`).
        ensures made { O.makes out.old
            (text_of self.old.settings.rule (next_made self.old kind body.now now)) out.new }
    {
        self.hand_out(kind, body, now, out);
        self.count(now);
    }

    /// Hands out a PDU without counting it.
    pub(crate) fn hand_out<O: PduOut>(
        &self,
        kind: Kind,
        body: &[u8],
        now: Milliseconds,
        out: &mut O,
    )
        requires body { IsBody kind body.now }
        ensures { O.makes out.old (text_of self.now.settings.rule (next_made self.now kind body.now now)) out.new }
    {
        if SAFE_HEADER + body.len() + self.config.rule.length.octets() <= SHORT_PDU {
            let mut buffer = [0; SHORT_PDU];
            self.write_out(kind, body, now, &mut buffer, out);
        } else {
            let mut buffer = [0; SAFE_PDU_MAX];
            self.write_out(kind, body, now, &mut buffer, out);
        }
    }

    /// Writes a PDU into a buffer, and hands it out.
    #[tactic(auto, unfolding(crate::specs::View::text_of))]
    fn write_out<O: PduOut>(
        &self,
        kind: Kind,
        body: &[u8],
        now: Milliseconds,
        buffer: &mut [u8],
        out: &mut O,
    )
        requires body { IsBody kind body.now }
        requires room { SAFE_HEADER + length body.now + code_octets self.now.settings.rule.length ≤ length buffer.old }
        ensures { O.makes out.old (text_of self.now.settings.rule (next_made self.now kind body.now now)) out.new }
    {
        let pdu = SafePdu {
            kind,
            receiver: self.config.peer,
            sender: self.config.own,
            sn: self.next_sn(),
            cs: self.last_sn,
            ts: low(now),
            cts: self.last_ts,
            body,
        };
        let size = encode(&pdu, &self.config.rule, buffer);
        out.made(&buffer[..size]);
    }

    /// Returns the sequence number of the next PDU.
    #[tactic(auto, unfolding(crate::specs::Numbers::sn_of))]
    fn next_sn(&self) -> u32
        ensures { result ≡ sn_of self.now.first self.now.made }
    {
        self.first.wrapping_add(low(self.made))
    }

    /// Counts a PDU that was handed out.
    pub(crate) fn count(&mut self, now: Milliseconds)
        requires few { self.old.made < 2 ^ 40 }
        ensures { self.new ≡ count_pdu now self.old }
    {
        self.made += 1;
        self.last_made = now;
        self.since = 0;
    }

    /// Changes the state of the connection.
    pub(crate) fn move_to(&mut self, connection: ConnectionState)
        ensures { self.new ≡ record self.old { connection = connection } }
    {
        self.connection = connection;
    }
}

impl ConnectionState {
    /// Returns whether the timeout check applies in this state.
    pub(crate) fn is_live(self) -> bool
        ensures { result ≡ is_live self }
    {
        !matches!(self, ConnectionState::Closed | ConnectionState::Down)
    }

    /// Returns whether heartbeats are due in this state.
    pub(crate) fn is_connected(self) -> bool
        ensures { result ≡ is_connected self }
    {
        matches!(
            self,
            ConnectionState::Up | ConnectionState::RetrReq | ConnectionState::RetrRun
        )
    }

    /// Returns whether units are sent and taken in this state.
    pub(crate) fn in_turn(self) -> bool
        ensures { result ≡ in_turn self }
    {
        matches!(self, ConnectionState::Up | ConnectionState::RetrRun)
    }
}

/// Returns the low 32 bits of a count.
pub(crate) fn low(count: u64) -> u32
    ensures { result ≡ count % 2 ^ 32 }
{
    (count % (1 << 32)) as u32
}

/// Returns the body of a DiscReq.
fn leaving_octets(reason: Reason, detail: Detail) -> [u8; 4]
    ensures { result ≡ leaving_body reason detail }
{
    let mut body = [0; 4];
    put_u16(&mut body, 0, detail.number());
    put_u16(&mut body, 2, reason.number());
    body
}

/// Returns the body of a ConnReq or ConnResp.
pub(crate) fn opening_octets(n_sendmax: u16) -> [u8; 14]
    ensures { result ≡ opening_body n_sendmax }
{
    let [a, b, c, d] = VERSION;
    let mut body = [a, b, c, d, 0, 0, 0, 0, 0, 0, 0, 0, 0, 0];
    put_u16(&mut body, 4, n_sendmax);
    body
}
