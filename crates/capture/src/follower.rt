//! A whole capture: its connections, the datagrams that are not PDUs, and the sums over all.
//!
//! 256 connections are kept; for a further one, one is forgotten, of those that an end has left first. A number further
//! back than the window is stale and changes only its count, so a copy on a slow channel is not a restart.

ghost use Rattle.std.specs.Prelude.{◌≡◌, [], IfOk, Some, fold};
ghost use Rattle.capture.specs.WholeCapture.{connections_after, add_connection_counts, damaged_count_after, forgotten_count_after, forgotten_count_with, forgotten_totals_after, forgotten_totals_with, miscoded_count_after, miscoded_count_with, no_totals, remark_of, totals_of, add_window_counts};
ghost use Rattle.capture.specs.Numbers.{limited_sum};

use crate::connections::{
    Connection, Connections, Entry, follow, has_no_room, note_damage, place_to_forget,
};
use crate::datagram::{DecodedDatagram, Header};
use crate::direction::{Damage, Remarks};
use crate::line::Record;
use crate::window::Window;
use red_layer::pdu::RedFault;
use safe_pdu::SafeFault;
use std::alloc::{AllocError, Global};

/// The state of a capture. Only a connection that begins takes more memory.
#[derive(Drop)]
pub struct Follower {
    /// The connections; the last one is the one with the latest PDU.
    pub connections: Connections,
    /// How many datagrams came.
    pub datagrams: u64,
    /// How many of them were not a PDU.
    pub damaged: u64,
    /// How many of those have another safety code, or are too short for it; `None` once a datagram has the right one.
    pub miscoded: Option<u64>,
    /// The sums over the connections that were forgotten.
    pub gone: Totals,
    /// How many connections were forgotten for lack of room.
    pub forgotten: u64,
}

/// What is remarkable in a datagram.
#[derive(Clone, Copy, Debug, PartialEq, Eq)]
pub enum Remark {
    /// It is not a redundancy PDU.
    NoRed(RedFault),
    /// It is a redundancy PDU with this number, whose part is not a safety PDU.
    NoSafe(u32, SafeFault),
    /// It is a redundancy PDU with this number around a safety PDU, with these remarks.
    Pdu(u32, Header, Remarks),
}

/// Sums over directions, by redundancy numbers. Each PDU is counted in exactly one of them, but never in `missing`.
#[derive(Clone, Copy, Debug, PartialEq, Eq)]
pub struct Totals {
    /// Numbers that came in order.
    pub heard: u64,
    /// Numbers that were skipped and came on no channel.
    pub missing: u64,
    /// Numbers that were skipped and came later.
    pub late: u64,
    /// PDUs whose number came before on any channel, with the same bytes.
    pub repeats: u64,
    /// PDUs whose number came before, with other bytes.
    pub differing: u64,
    /// PDUs that came so late that it is unknown if they came before.
    pub stale: u64,
}

impl Follower {
    /// Returns the state before the first datagram.
    ///
    /// # Errors
    ///
    /// `AllocError` if there is too little memory.
    pub fn new(alloc: Global) -> Result<Self, AllocError>
        // A new `Follower` has no connection.
        ensures connections { IfOk result (λ following. following.connections ≡ []) }
        // No datagram is counted in a new `Follower`.
        ensures datagrams { IfOk result (λ following. following.datagrams ≡ 0) }
        // No damaged datagram is counted in a new `Follower`.
        ensures damaged { IfOk result (λ following. following.damaged ≡ 0) }
        // No datagram has another safety code in a new `Follower`, and none has the right one.
        ensures miscoded { IfOk result (λ following. following.miscoded ≡ Some 0) }
        // A new `Follower` has no sums of forgotten connections.
        ensures gone { IfOk result (λ following. following.gone ≡ no_totals) }
        // A new `Follower` has forgotten no connection.
        ensures forgotten { IfOk result (λ following. following.forgotten ≡ 0) }
    {
        Ok(Follower {
            connections: Connections::new(alloc)?,
            datagrams: 0,
            damaged: 0,
            miscoded: Some(0),
            gone: new_totals(),
            forgotten: 0,
        })
    }

    /// Adds a datagram on this line to the capture and returns what is remarkable in it. A connection that it begins is
    /// kept in the entry `spare`.
    pub fn add(
        &mut self,
        line: u64,
        record: &Record,
        heard: &DecodedDatagram,
        spare: Entry,
    ) -> Remark
        // For a PDU the remark has its number, its header and its remarks; for any other datagram, the fault of the
        // layer that rejects it.
        ensures remark { result ≡ remark_of self.old.connections line record.now heard.now }
        // A PDU changes its own connection. Any other datagram changes only the count of damage in the last
        // connection with its channel, which also keeps its redundancy number, if it has one (`connections_after`).
        ensures connections { self.new.connections
            ≡ connections_after self.old.connections line record.now heard.now }
        // The count of datagrams grows by 1.
        ensures datagrams { self.new.datagrams ≡ limited_sum self.old.datagrams 1 }
        // The count of damaged datagrams grows by 1 exactly if the datagram is not a PDU.
        ensures damaged { self.new.damaged ≡ damaged_count_after self.old.damaged heard.now }
        // The count of datagrams with another safety code grows by 1 exactly if this one has another or is too short
        // for one, as long as none has the right one (`miscoded_count_with`).
        ensures miscoded { self.new.miscoded ≡ miscoded_count_after self.old.miscoded heard.now }
        // If a connection is forgotten, its sums are added to those of the forgotten ones.
        ensures gone { self.new.gone ≡ forgotten_totals_after self.old.gone self.old.connections record.now heard.now }
        // If a connection is forgotten, the count of forgotten ones grows by 1.
        ensures forgotten { self.new.forgotten
            ≡ forgotten_count_after self.old.forgotten self.old.connections record.now heard.now }
    {
        self.datagrams = self.datagrams.saturating_add(1);
        match *heard {
            DecodedDatagram::Pdu(seq, header) => {
                self.forgotten = count_forgotten(
                    self.forgotten,
                    &self.connections,
                    record,
                    &header,
                );
                self.gone = sum_forgotten(self.gone, &self.connections, record, &header);
                self.miscoded = None;
                let remarks = follow(&mut self.connections, line, record, seq, &header, spare);
                Remark::Pdu(seq, header, remarks)
            }
            DecodedDatagram::NoSafe(seq, fault) => {
                self.connections.keep_spare(spare);
                self.damaged = self.damaged.saturating_add(1);
                self.miscoded = count_miscoded(self.miscoded, fault);
                let damage = Damage { number: seq, line };
                note_damage(&mut self.connections, record, Some(damage));
                Remark::NoSafe(seq, fault)
            }
            DecodedDatagram::NoRed(fault) => {
                self.connections.keep_spare(spare);
                self.damaged = self.damaged.saturating_add(1);
                note_damage(&mut self.connections, record, None);
                Remark::NoRed(fault)
            }
        }
    }
}

/// Returns the count of datagrams with another safety code after one that is not a safety PDU.
fn count_miscoded(miscoded: Option<u64>, fault: SafeFault) -> Option<u64>
    ensures { result ≡ miscoded_count_with miscoded fault }
{
    let count = miscoded?;
    match fault {
        SafeFault::Code | SafeFault::Short => Some(count.saturating_add(1)),
        SafeFault::Length => Some(count),
        SafeFault::BadType | SafeFault::Body => None,
    }
}

/// Returns the count of forgotten connections after a PDU.
fn count_forgotten(
    forgotten: u64,
    connections: &Connections,
    record: &Record,
    header: &Header,
) -> u64
    ensures { result ≡ forgotten_count_with forgotten connections.now record.now header.now }
{
    if has_no_room(connections, record, header) {
        return forgotten.saturating_add(1);
    }
    forgotten
}

/// Returns the sums of forgotten connections after a PDU.
fn sum_forgotten(
    gone: Totals,
    connections: &Connections,
    record: &Record,
    header: &Header,
) -> Totals
    ensures { result ≡ forgotten_totals_with gone connections.now record.now header.now }
{
    if has_no_room(connections, record, header) {
        let place = place_to_forget(connections.as_slice());
        let forgotten = &connections.as_slice()[place];
        return add_connection(gone, &forgotten.connection);
    }
    gone
}

/// Returns the sums over all connections; `gone` has those of the forgotten ones.
pub fn sum_up(gone: Totals, connections: &[Entry]) -> Totals
    // The sums of both directions of each connection are added to `gone`, each limited to 2^64 - 1.
    ensures { result ≡ totals_of gone connections.now }
{
    connections.iter().fold(
        gone,
        |totals, entry| add_connection(totals, &entry.connection),
    )
}

/// Returns sums of nothing.
fn new_totals() -> Totals
    ensures { result ≡ no_totals }
{
    Totals {
        heard: 0,
        missing: 0,
        late: 0,
        repeats: 0,
        differing: 0,
        stale: 0,
    }
}

/// Adds a connection to the sums.
fn add_connection(totals: Totals, connection: &Connection) -> Totals
    ensures { result ≡ add_connection_counts totals connection.now }
{
    let low = count_window(totals, &connection.from_low.together);
    count_window(low, &connection.from_high.together)
}

/// Adds a window to the sums.
fn count_window(totals: Totals, window: &Window) -> Totals
    ensures { result ≡ add_window_counts totals window.now }
{
    Totals {
        heard: totals.heard.saturating_add(window.heard),
        missing: totals.missing.saturating_add(window.missing),
        late: totals.late.saturating_add(window.late),
        repeats: totals.repeats.saturating_add(window.repeats),
        differing: totals.differing.saturating_add(window.differing),
        stale: totals.stale.saturating_add(window.stale),
    }
}
