//! Opens an end, and checks its settings.

ghost use Rattle.std.specs.Prelude.{◌≡◌, []};
ghost use Rattle.octets.specs.declared.limits.TheConstants.{WINDOW_MAX};
ghost use Rattle.safe_pdu.specs.Bodies.{IsBody};
ghost use Rattle.safe_machine.specs.Made.{opening_body};
ghost use Rattle.safe_machine.specs.Turns.{Out, opening_turn, new_view};
ghost use Rattle.safe_machine.specs.View.{settings_of};
ghost use Rattle.safe_machine.specs.Settings.{are_two, in_range, is_coded, is_legal};
ghost use Rattle.safe_machine.specs.declared.Role.TheVariants.{Client};

use super::endpoint::MachineState;
use super::{ConnectionState, MachineConfig, PduOut, Role};
use crate::retrans::Unconfirmed;
use octets::Milliseconds;
use octets::limits::{
    MWA_MAX, PDU_LIMIT_HIGHEST, PDU_LIMIT_LOWEST, T_H_LOWEST, T_MAX_HIGHEST, T_MAX_LOWEST,
    WINDOW_MAX,
};
use safe_pdu::{CodeLength, Kind};
use std::alloc::Allocator;

/// Returns an end as it is opened. A client makes its ConnReq.
pub(crate) fn begin<A: Allocator, O: PduOut>(
    config: MachineConfig,
    role: Role,
    first: u32,
    now: Milliseconds,
    ring: Unconfirmed<A>,
    out: &mut O,
) -> MachineState<A>
    requires room { ring ≡ record { room = WINDOW_MAX; units = [] } }
    requires body { IsBody Kind.ConnReq (opening_body config.n_sendmax) }
    // A client starts in Start with its ConnReq counted; a server starts in Down (`opening_turn`).
    ensures left { result ≡ (opening_turn (settings_of role config) first now).left }
    // The ConnReq of a client is handed out; a server hands out nothing (`opening_turn`).
    ensures made { Out O.makes config.rule out.old (opening_turn (settings_of role config) first now) out.new }
{
    match role {
        Role::Client => {
            let mut end = blank(config, role, first, now, ConnectionState::Start, ring);
            end.say_opening(Kind::ConnReq, now, out);
            end
        }
        Role::Server => blank(config, role, first, now, ConnectionState::Down, ring),
    }
}

/// Returns an end that has made no PDU.
fn blank<A: Allocator>(
    config: MachineConfig,
    role: Role,
    first: u32,
    now: Milliseconds,
    connection: ConnectionState,
    ring: Unconfirmed<A>,
) -> MachineState<A>
    requires room { ring ≡ record { room = WINDOW_MAX; units = [] } }
    ensures { result ≡ new_view (settings_of role config) first now connection }
{
    MachineState {
        config,
        role,
        first,
        connection,
        made: 0,
        last_made: 0,
        since: 0,
        expected: 0,
        last_sn: 0,
        last_ts: 0,
        confirmed: 0,
        confirmed_at: now,
        answered: 0,
        window: 0,
        ring,
    }
}

impl<A: Allocator> MachineState<A> {
    /// Begins again with the same settings, as an end that is opened. A client makes its ConnReq.
    pub(crate) fn reopen<O: PduOut>(&mut self, first: u32, now: Milliseconds, out: &mut O)
        requires room { self.old.room ≡ WINDOW_MAX }
        requires body { IsBody Kind.ConnReq (opening_body self.old.settings.n_sendmax) }
        // A client is in Start with its ConnReq counted; a server is in Down. All else has its first value (`opening_turn`).
        ensures left { self.new ≡ (opening_turn self.old.settings first now).left }
        // The ConnReq of a client is handed out again; a server hands out nothing (`opening_turn`).
        ensures made { Out O.makes self.old.settings.rule out.old (opening_turn self.old.settings first now) out.new }
    {
        match self.role {
            Role::Client => {
                self.forget(first, now, ConnectionState::Start);
                self.say_opening(Kind::ConnReq, now, out);
            }
            Role::Server => self.forget(first, now, ConnectionState::Down),
        }
    }

    /// Forgets all that happened since the opening, except the settings.
    fn forget(&mut self, first: u32, now: Milliseconds, connection: ConnectionState)
        requires room { self.old.room ≡ WINDOW_MAX }
        ensures { self.new ≡ new_view self.old.settings first now connection }
    {
        self.first = first;
        self.connection = connection;
        self.made = 0;
        self.last_made = 0;
        self.since = 0;
        self.expected = 0;
        self.last_sn = 0;
        self.last_ts = 0;
        self.confirmed = 0;
        self.confirmed_at = now;
        self.answered = 0;
        self.window = 0;
        self.ring.clear();
    }
}

impl MachineConfig {
    /// Returns whether an end may be opened with these settings.
    pub fn is_legal(&self, role: Role) -> bool
        // `MachineConfig::is_legal` accepts settings if and only if every number is within its range, the two
        // identifiers differ, and the safety code has 8 or 16 bytes.
        ensures { result ≡ is_legal (settings_of role self.now) }
    {
        let _role = role;
        self.in_range() && self.are_two() && is_coded(self.rule.length)
    }

    /// Returns whether the two identifiers differ.
    fn are_two(&self) -> bool
        ensures { result ≡ are_two (settings_of Client self.now) }
    {
        self.own != self.peer
    }

    /// Returns whether each number is within its range.
    fn in_range(&self) -> bool
        ensures { result ≡ in_range (settings_of Client self.now) }
    {
        1 <= self.n_sendmax
            && usize::from(self.n_sendmax) <= WINDOW_MAX
            && T_MAX_LOWEST <= self.t_max
            && self.t_max <= T_MAX_HIGHEST
            && T_H_LOWEST <= self.t_h
            && self.t_h < self.t_max
            && 1 <= self.mwa
            && self.mwa <= u64::from(MWA_MAX)
            && PDU_LIMIT_LOWEST <= self.pdu_limit
            && self.pdu_limit <= PDU_LIMIT_HIGHEST
    }
}

/// Returns whether an end may use a safety code of this length.
fn is_coded(length: CodeLength) -> bool
    ensures { result ≡ is_coded length }
{
    !matches!(length, CodeLength::Zero)
}
