//! The connections of a capture; the one with the latest PDU is the last.
//!
//! A connection is found by the identifiers of its ends and the addresses of a channel. Between other addresses a PDU
//! belongs to the last connection of its identifiers that it goes on with (`goes_on`), on a further channel; if it goes
//! on with none, it begins a connection. A damaged datagram is counted by its addresses only, since its identifiers
//! cannot be trusted.

ghost use Rattle.std.specs.Prelude.{◌≡◌, ◌+◌, ◌<◌, ◌≤◌, ◌==◌, ◌&&◌, ◌++◌, ◌∷◌, [], length, IfOk, IfSome, reverse, slice_index_or, vec_capacity, vec_len};
ghost use Rattle.std.specs.List.{position, remove};
ghost use Rattle.std.specs.Str.{bytes_eq};
ghost use Rattle.capture.specs.WholeCapture.{forgets_connection};
ghost use Rattle.capture.specs.Connections.{place_from_end, behind_of, channel_of, connection_after, count_connection_damage, connection_remarks, count_damaged_datagram, count_damage_at, ends_of, forgotten_place, connection_place, has_channel, has_ends, has_identifiers, is_between, is_closed, is_continued, is_from_low, is_held, is_known, is_same_address, is_same_host, is_source_low, known_place_of, other_connections, new_connection, with_room, route_from, route_place_of, routes_after, step, step_remarks, connection_of, follow_way_pdu, way_remarks};

use crate::continuation::goes_on;
use crate::datagram::Header;
use crate::direction::{
    CHANNELS, Damage, Direction, Place, Remarks, follow_pdu, keep_damage, see_peer,
};
use crate::line::{Address, Host, Record};
use crate::measures::{Measures, note_measures};
use crate::sessions::{Sessions, note_session};
use safe_pdu::Identifier;
use std::alloc::{AllocError, Global};
use std::marker::Model;

/// How many connections are kept, each in 16 KiB, and 14 KiB for sessions that have ended.
pub const CONNECTIONS: usize = 256;

/// The two addresses of a channel, as in the first PDU on it.
#[derive(Clone, Copy, Debug, PartialEq, Eq)]
pub struct Route {
    /// The address of the end with the lower identifier.
    pub low: Address,
    /// The address of the other end.
    pub high: Address,
}

/// A connection, as far as its PDUs were recorded.
#[derive(Drop)]
pub struct Connection {
    /// The lower identifier of its ends.
    pub low: u32,
    /// The higher identifier.
    pub high: u32,
    /// The time of its latest PDU, in microseconds.
    pub last: u64,
    /// Its channels, in the order of their first PDUs.
    pub routes: [Option<Route>; CHANNELS],
    /// What the end with the lower identifier sent.
    pub from_low: Direction,
    /// What the other end sent.
    pub from_high: Direction,
    /// Its sessions.
    pub sessions: Sessions,
    /// What is measured of it.
    pub measures: Measures,
}

/// A connection on the heap, so that a list of entries changes its order without a copy of connections. Contracts see
/// the connection.
#[derive(Drop)]
pub struct Entry {
    /// The connection.
    pub connection: Box<Connection>,
}

impl Model for Entry {
    ghost use Rattle.capture.specs.declared.connections.Connection.{Connection as Inner};

    ghost Value = { Inner };

    ghost view = { λ entry. entry.connection.value };
}

impl Entry {
    /// Makes it a connection between two ends without PDUs.
    fn reopen(&mut self, low: u32, high: u32)
        ensures { self.new ≡ new_connection low high }
    {
        self.connection.reopen(low, high);
    }
}

/// The connections that are kept; the last one has the latest PDU. Contracts see the list of them.
///
/// At most `CONNECTIONS` are kept, and one spare entry beside them. A PDU that begins a connection brings the entry for
/// it (`take_spare`); the entry of a forgotten connection becomes the spare one.
#[derive(Drop)]
pub struct Connections {
    list: Vec<Entry>,
    spare: Option<Entry>,
    alloc: Global,
}

impl Model for Connections {
    ghost use Rattle.std.specs.Prelude.{◌≤◌, List, vec_capacity, vec_len};
    ghost use Rattle.capture.specs.declared.connections.Connection.{Connection as Inner};
    ghost use Rattle.capture.specs.declared.connections.TheConstants.{CONNECTIONS as MOST};

    ghost Value = { List Inner };

    ghost view = { λ all. all.list.items };

    ghost invariant = { λ all. (vec_len all.list ≤ MOST) × (MOST ≤ vec_capacity all.list) };
}

impl Connections {
    /// Returns a list without connections. It takes no memory for a connection yet.
    ///
    /// # Errors
    ///
    /// `AllocError` if there is too little memory.
    pub fn new(alloc: Global) -> Result<Self, AllocError>
        // A new list has no connection.
        ensures { IfOk result (λ connections. connections ≡ []) }
    {
        Ok(Connections {
            list: Vec::with_capacity(alloc, CONNECTIONS)?,
            spare: None,
            alloc,
        })
    }

    /// Returns an entry for a connection that the next datagram may begin: the spare one, or one in new memory.
    ///
    /// # Errors
    ///
    /// `AllocError` if there is too little memory.
    pub fn take_spare(&mut self) -> Result<Entry, AllocError>
        // No connection is added, changed or forgotten, also if there is too little memory.
        ensures { self.new ≡ self.old }
    {
        match self.spare.take() {
            Some(entry) => Ok(entry),
            None => new_entry(self.alloc),
        }
    }

    /// Keeps an entry that no connection needed, for the next datagram.
    pub fn keep_spare(&mut self, spare: Entry)
        // The entry is not one of the connections: none is added, changed or forgotten.
        ensures { self.new ≡ self.old }
    {
        self.spare = Some(spare);
    }

    /// Returns the connections in order.
    pub fn as_slice(&self) -> &[Entry]
        // The slice has exactly the connections of the list.
        ensures { result.now ≡ self.now }
    {
        self.list.as_slice()
    }
}

/// Returns an entry in new memory.
fn new_entry(alloc: Global) -> Result<Entry, AllocError>
    ensures { IfOk result (λ entry. entry ≡ new_connection 0 0) }
{
    let sessions = Sessions::new(alloc)?;
    let connection = Box::new(alloc, open(sessions))?;
    Ok(Entry { connection })
}

/// Adds a PDU on this line to its connection and returns what is remarkable in it.
///
/// If it needs a further connection and there is no room, one is forgotten: of those that an end has left, the one
/// silent longest; if there is none, the one silent longest of all. A further connection is kept in the entry `spare`.
pub fn follow(
    connections: &mut Connections,
    line: u64,
    record: &Record,
    seq: u32,
    header: &Header,
    spare: Entry,
) -> Remarks
    // The remarks are those in the PDU's own connection, a new one if none has its identifiers and addresses and it
    // goes on with none (`step_remarks`, `connection_place`).
    ensures remarks { result ≡ step_remarks connections.old line record.now seq header.now }
    // The PDU's connection changes and is then the last; no other one that stays changes. If there are
    // `CONNECTIONS` and it is a further one, the first that an end has left is forgotten, or else the first
    // (`with_room`). A channel is a pair of addresses in either direction. A fifth channel of a connection is not distinguished (`routes_after`, `channel_of`).
    ensures step { connections.new ≡ step connections.old line record.now seq header.now }
{
    bring_to_end(connections, record, header, spare);
    let last = connections.list.len() - 1;
    follow_entry(
        &mut connections.list.as_mut_slice()[last],
        line,
        record,
        seq,
        header,
    )
}

/// Adds a PDU to the connection of an entry.
fn follow_entry(entry: &mut Entry, line: u64, record: &Record, seq: u32, header: &Header) -> Remarks
    // The remarks are those in the connection (`connection_remarks`).
    ensures remarks { result ≡ connection_remarks entry.old line record.now seq header.now }
    // The connection changes as `connection_after` says.
    ensures after { entry.new ≡ connection_after entry.old line record.now seq header.now }
{
    follow_in(&mut entry.connection, line, record, seq, header)
}

/// Returns `true` if a PDU needs a further connection and one must be forgotten.
pub(crate) fn has_no_room(connections: &Connections, record: &Record, header: &Header) -> bool
    ensures { result ≡ forgets_connection connections.now record.now header.now }
{
    if connections.list.len() < CONNECTIONS {
        return false;
    }
    place(connections.list.as_slice(), record, header).is_none()
}

/// Moves the connection of a PDU to the end of the list, or adds a new one in the entry `spare`.
fn bring_to_end(connections: &mut Connections, record: &Record, header: &Header, spare: Entry)
    ensures { connections.new ≡ other_connections header.now record.now connections.old ++ connection_of header.now record.now connections.old ∷ [] }
{
    match place(connections.list.as_slice(), record, header) {
        Some(place) => {
            move_to_end(&mut connections.list, place);
            connections.spare = Some(spare);
        }
        None => {
            let (low, high) = ends(header.sender, header.receiver);
            make_room(&mut connections.list, &mut connections.spare);
            push(&mut connections.list, start_connection(spare, low, high));
        }
    }
}

/// Moves the connection at a place to the end of the list.
fn move_to_end(list: &mut Vec<Entry>, place: usize)
    requires { place < vec_len list.old }
    // The list is the others in order, then the connection at `place`.
    ensures items { list.new.items ≡ remove list.old.items place ++ slice_index_or list.old.items place (new_connection 0 0) ∷ [] }
    // The list has as many connections as before.
    ensures len { vec_len list.new ≡ vec_len list.old }
    // The room of the list does not become less.
    ensures capacity { vec_capacity list.old ≤ vec_capacity list.new }
{
    let last = list.len() - 1;
    if place < last {
        let entry = list.remove(place);
        push(list, entry);
    }
}

/// Adds an entry at the end of a list that has room.
fn push(list: &mut Vec<Entry>, entry: Entry)
    requires { vec_len list.old < vec_capacity list.old }
    // The connection of the entry is the last one.
    ensures items { list.new.items ≡ list.old.items ++ entry ∷ [] }
    // The list has one connection more.
    ensures len { vec_len list.new ≡ vec_len list.old + 1 }
    // No room of the list is lost.
    ensures capacity { vec_capacity list.old ≤ vec_capacity list.new }
{
    let _pushed = list.push(entry);
}

/// Returns the identifiers of two ends, the lower one first.
fn ends(sender: Identifier, receiver: Identifier) -> (Identifier, Identifier)
    ensures { result ≡ ends_of sender receiver }
{
    if sender <= receiver {
        (sender, receiver)
    } else {
        (receiver, sender)
    }
}

/// Returns the place of the connection of a PDU.
fn place(list: &[Entry], record: &Record, header: &Header) -> Option<usize>
    // The place is that of the last connection between the PDU's ends with its channel, or else of the last one that it
    // goes on with (`connection_place`).
    ensures value { result ≡ connection_place header.now record.now list.now }
    // The place of a connection is within the list.
    ensures bound { IfSome result (λ place. place < length list.now) }
{
    match behind_pdu(list, record, header) {
        None => None,
        Some(behind) => Some(list.len() - 1 - behind),
    }
}

/// Returns how many connections come after the one of a PDU.
fn behind_pdu(list: &[Entry], record: &Record, header: &Header) -> Option<usize>
    // The number counts from the end of the list; `None` if the PDU begins a connection (`place_from_end`).
    ensures value { result ≡ place_from_end header.now record.now list.now }
    // The number is below the length of the list, so that it names a connection.
    ensures bound { IfSome result (λ behind. behind < length list.now) }
{
    match behind_between(list, record, header) {
        Some(behind) => Some(behind),
        None => behind_continued(list, header),
    }
}

/// Returns how many connections come after the last one between a PDU's ends and its addresses.
fn behind_between(list: &[Entry], record: &Record, header: &Header) -> Option<usize>
    // The connection has both identifiers and a channel between the addresses of the `record`.
    ensures value { result ≡ position (λ (c : Connection). has_ends c header.now && has_channel c record.now) (reverse list.now) }
    // The number of those after it is below the length of the list.
    ensures bound { IfSome result (λ behind. behind < length list.now) }
{
    list.iter()
        .rev()
        .position(|entry| is_between(&entry.connection, record, header))
}

/// Returns how many connections come after the last one between a PDU's ends that it goes on with.
fn behind_continued(list: &[Entry], header: &Header) -> Option<usize>
    // The connection has both identifiers, and the PDU goes on with what its ends have sent (`is_continued`).
    ensures value { result ≡ position (λ (c : Connection). has_ends c header.now && is_continued c header.now) (reverse list.now) }
    // The number of those after it is below the length of the list, too.
    ensures bound { IfSome result (λ behind. behind < length list.now) }
{
    list.iter()
        .rev()
        .position(|entry| is_before(&entry.connection, header))
}

/// Returns `true` if a connection is between a PDU's ends and its addresses.
fn is_between(connection: &Connection, record: &Record, header: &Header) -> bool
    ensures { result ≡ (has_ends connection.now header.now && has_channel connection.now record.now) }
{
    joins_ends(connection, header) && is_way(connection, record)
}

/// Returns `true` if a connection is between a PDU's ends and the PDU goes on with it.
fn is_before(connection: &Connection, header: &Header) -> bool
    ensures { result ≡ (has_ends connection.now header.now && is_continued connection.now header.now) }
{
    joins_ends(connection, header) && continues(connection, header)
}

/// Returns `true` if a connection is between the ends of a PDU.
fn joins_ends(connection: &Connection, header: &Header) -> bool
    ensures { result ≡ has_ends connection.now header.now }
{
    let (low, high) = ends(header.sender, header.receiver);
    has_identifiers(connection, low, high)
}

/// Returns `true` if a connection has these identifiers.
pub fn has_identifiers(connection: &Connection, low: u32, high: u32) -> bool
    // The result is true exactly if `low` and `high` are the identifiers of the `connection`, in this order.
    ensures { result ≡ has_identifiers low high connection.now }
{
    connection.low == low && connection.high == high
}

/// Returns `true` if a PDU goes on with what the ends of a connection have sent.
fn continues(connection: &Connection, header: &Header) -> bool
    ensures { result ≡ is_continued connection.now header.now }
{
    if comes_from_low(connection, header) {
        return goes_on(&connection.from_low, &connection.from_high, header);
    }
    goes_on(&connection.from_high, &connection.from_low, header)
}

/// Returns the place of the connection that is forgotten for a further one.
pub(crate) fn place_to_forget(list: &[Entry]) -> usize
    // The place is that of the first connection that an end has left, or else the first place (`forgotten_place`).
    ensures value { result ≡ forgotten_place list.now }
    // The place is within a list that is not empty.
    ensures bound { 0 < length list.now → result < length list.now }
{
    match closed_place(list) {
        Some(place) => place,
        None => 0,
    }
}

/// Returns the place of the first connection that an end has left.
fn closed_place(list: &[Entry]) -> Option<usize>
    // The place is the first whose connection is closed (`is_closed`).
    ensures value { result ≡ position (λ (c : Connection). is_closed c) list.now }
    // The place of a connection is in the list.
    ensures bound { IfSome result (λ place. place < length list.now) }
{
    list.iter().position(|entry| is_left(&entry.connection))
}

/// Returns `true` if an end has left the current session of a connection.
fn is_left(connection: &Connection) -> bool
    ensures { result ≡ is_closed connection.now }
{
    connection.sessions.current.low.left.is_sent()
        || connection.sessions.current.high.left.is_sent()
}

/// Makes room for a further connection. The entry of the one that is forgotten, if any, becomes the spare one.
fn make_room(list: &mut Vec<Entry>, spare: &mut Option<Entry>)
    requires { vec_len list.old ≤ CONNECTIONS }
    // A full list loses the connection that is forgotten; any other list does not change.
    ensures left { list.new.items ≡ with_room list.old.items }
    // There is room for a connection.
    ensures room { vec_len list.new < CONNECTIONS }
    // The list keeps its capacity.
    ensures capacity { vec_capacity list.new ≡ vec_capacity list.old }
{
    if list.len() == CONNECTIONS {
        let place = place_to_forget(list.as_slice());
        *spare = Some(list.remove(place));
    }
}

/// Returns an entry with a connection between two ends without PDUs.
fn start_connection(spare: Entry, low: u32, high: u32) -> Entry
    ensures { result ≡ new_connection low high }
{
    let mut entry = spare;
    entry.reopen(low, high);
    entry
}

/// Returns a connection without identifiers and PDUs.
fn open(sessions: Sessions) -> Connection
    ensures { result ≡ record (new_connection 0 0) { sessions = sessions } }
{
    Connection {
        low: 0,
        high: 0,
        last: 0,
        routes: [None; CHANNELS],
        from_low: Direction::new(),
        from_high: Direction::new(),
        sessions,
        measures: Measures::new(),
    }
}

impl Connection {
    /// Makes it a connection between two ends without PDUs. It keeps its memory.
    fn reopen(&mut self, low: u32, high: u32)
        ensures { self.new ≡ new_connection low high }
    {
        self.low = low;
        self.high = high;
        self.last = 0;
        self.routes = [None; CHANNELS];
        self.from_low = Direction::new();
        self.from_high = Direction::new();
        self.sessions.clear();
        self.measures = Measures::new();
    }
}

/// Adds a PDU to its connection.
fn follow_in(
    connection: &mut Connection,
    line: u64,
    record: &Record,
    seq: u32,
    header: &Header,
) -> Remarks
    // The remarks are those in the direction of the end that made the PDU, by what the other end said
    // (`connection_remarks`).
    ensures remarks { result ≡ connection_remarks connection.old line record.now seq header.now }
    // The time, the channels, the direction of the PDU's end, the sessions and the measures change; the other direction
    // does not (`connection_after`).
    ensures after { connection.new ≡ connection_after connection.old line record.now seq header.now }
{
    connection.last = record.time;
    let from_low = comes_from_low(connection, header);
    let channel = note_route(&mut connection.routes, from_low, record);
    let time = record.time;
    let place = Place {
        time,
        line,
        channel,
    };
    let remarks = follow_way(connection, from_low, place, seq, header);
    note_session(
        &mut connection.sessions,
        from_low,
        time,
        header.kind,
        &remarks,
    );
    note_measures(&mut connection.measures, from_low, time, header, &remarks);
    remarks
}

/// Adds a PDU to the direction of its end.
fn follow_way(
    connection: &mut Connection,
    from_low: bool,
    place: Place,
    seq: u32,
    header: &Header,
) -> Remarks
    // The remarks are those in the direction of the end, by what the other end said (`way_remarks`).
    ensures remarks { result ≡ way_remarks from_low connection.old place seq header.now }
    // Only the direction of the end changes (`follow_way_pdu`).
    ensures followed { connection.new ≡ follow_way_pdu from_low connection.old place seq header.now }
{
    if from_low {
        let peer = see_peer(&connection.from_high, header);
        follow_pdu(&mut connection.from_low, peer, place, seq, header)
    } else {
        let peer = see_peer(&connection.from_low, header);
        follow_pdu(&mut connection.from_high, peer, place, seq, header)
    }
}

/// Returns `true` if the end with the lower identifier made a PDU.
fn comes_from_low(connection: &Connection, header: &Header) -> bool
    ensures { result ≡ is_from_low connection.now header.now }
{
    header.sender == connection.low
}

/// Returns the number of a datagram's channel, and adds a new channel if there is room.
fn note_route(routes: &mut [Option<Route>; CHANNELS], from_low: bool, record: &Record) -> usize
    // The number is the place of the channel or of the first free one, and `CHANNELS` if there is neither
    // (`channel_of`).
    ensures channel { result ≡ channel_of routes.old record.now }
    // A new channel is added at the first free place; known ones do not change (`routes_after`).
    ensures noted { routes.new ≡ routes_after routes.old from_low record.now }
{
    match route_place(routes, record) {
        Some(place) => {
            if routes[place].is_none() {
                routes[place] = Some(addresses(from_low, record));
            }
            place
        }
        None => CHANNELS,
    }
}

/// Returns the addresses of both ends.
fn addresses(from_low: bool, record: &Record) -> Route
    ensures { result ≡ route_from from_low record.now }
{
    if from_low {
        return Route {
            low: record.source,
            high: record.destination,
        };
    }
    Route {
        low: record.destination,
        high: record.source,
    }
}

/// Returns the first place that has a datagram's channel or is free.
fn route_place(routes: &[Option<Route>; CHANNELS], record: &Record) -> Option<usize>
    // The place is the first one that `is_held`: free, or of the channel between these addresses.
    ensures value { result ≡ route_place_of routes.now record.now }
    // The place of a channel is below `CHANNELS`.
    ensures bound { IfSome result (λ place. place < CHANNELS) }
{
    routes.iter().position(|route| holds(route, record))
}

/// Returns `true` if a place is free, or has the channel between a datagram's addresses.
fn holds(route: &Option<Route>, record: &Record) -> bool
    ensures { result ≡ is_held route.now record.now }
{
    match route {
        None => true,
        Some(route) => joins(route, record),
    }
}

/// Returns `true` if a channel is between a datagram's addresses, in either direction.
fn joins(route: &Route, record: &Record) -> bool
    ensures { result ≡ is_between route.now record.now }
{
    is_same(route.low, record.source) && is_same(route.high, record.destination)
        || is_same(route.low, record.destination) && is_same(route.high, record.source)
}

/// Counts a datagram that is not a PDU on the channel between its addresses, if a connection has that channel; of
/// several, in the one with the latest PDU.
///
/// `damage` is its redundancy number and line, if it has such a number.
pub(crate) fn note_damage(connections: &mut Connections, record: &Record, damage: Option<Damage>)
    ensures { connections.new ≡ count_damaged_datagram connections.old record.now damage }
{
    if let Some(behind) = behind(connections.list.as_slice(), record) {
        let place = connections.list.len() - 1 - behind;
        damage_entry(&mut connections.list.as_mut_slice()[place], record, damage);
    }
}

/// Counts a datagram that is not a PDU in the connection of an entry.
fn damage_entry(entry: &mut Entry, record: &Record, damage: Option<Damage>)
    ensures { entry.new ≡ count_connection_damage entry.old record.now damage }
{
    damage_connection(&mut entry.connection, record, damage);
}

/// Returns how many connections come after the last one that has a datagram's channel.
fn behind(list: &[Entry], record: &Record) -> Option<usize>
    // The number counts from the end of the list; `None` if no connection has the channel (`behind_of`).
    ensures value { result ≡ behind_of list.now record.now }
    // The number is below the length of the list, so it names a connection.
    ensures bound { IfSome result (λ behind. behind < length list.now) }
{
    list.iter()
        .rev()
        .position(|entry| is_way(&entry.connection, record))
}

/// Returns `true` if a connection has a datagram's channel.
fn is_way(connection: &Connection, record: &Record) -> bool
    ensures { result ≡ has_channel connection.now record.now }
{
    known_place(&connection.routes, record).is_some()
}

/// Returns the place of a datagram's channel, if it is one of these.
fn known_place(routes: &[Option<Route>; CHANNELS], record: &Record) -> Option<usize>
    // The place is the first one with the channel between these addresses; free places do not count (`is_known`).
    ensures value { result ≡ known_place_of routes.now record.now }
    // The place of a known channel is below `CHANNELS`.
    ensures bound { IfSome result (λ place. place < CHANNELS) }
{
    routes.iter().position(|route| knows(route, record))
}

/// Returns `true` if a place has a datagram's channel.
fn knows(route: &Option<Route>, record: &Record) -> bool
    ensures { result ≡ is_known route.now record.now }
{
    match route {
        None => false,
        Some(route) => joins(route, record),
    }
}

/// Counts a datagram that is not a PDU on its channel, for the end whose address sent it.
fn damage_connection(connection: &mut Connection, record: &Record, damage: Option<Damage>)
    ensures { connection.new ≡ count_connection_damage connection.old record.now damage }
{
    if let Some(place) = known_place(&connection.routes, record) {
        if is_low(&connection.routes[place], record) {
            count_damage(&mut connection.from_low, place, damage);
        } else {
            count_damage(&mut connection.from_high, place, damage);
        }
    }
}

/// Returns `true` if the address of the end with the lower identifier sent a datagram.
fn is_low(route: &Option<Route>, record: &Record) -> bool
    ensures { result ≡ is_source_low route.now record.now }
{
    match route {
        None => false,
        Some(route) => is_same(route.low, record.source),
    }
}

/// Counts one more damaged datagram on a channel, and keeps its redundancy number.
fn count_damage(direction: &mut Direction, place: usize, damage: Option<Damage>)
    requires { place < CHANNELS }
    ensures { direction.new ≡ count_damage_at direction.old place damage }
{
    direction.damaged[place] = direction.damaged[place].saturating_add(1);
    keep_damage(&mut direction.damages, damage);
}

/// Compares two addresses.
pub fn is_same(one: Address, other: Address) -> bool
    // The addresses are the same if port and host are.
    ensures { result ≡ is_same_address one other }
{
    one.port == other.port && is_host(one.host, other.host)
}

/// Compares two hosts.
fn is_host(one: Host, other: Host) -> bool
    ensures { result ≡ is_same_host one other }
{
    match (one, other) {
        (Host::V4(one), Host::V4(other)) => is_four(one, other),
        (Host::V6(one), Host::V6(other)) => one.as_slice() == other.as_slice(),
        _ => false,
    }
}

/// Compares four bytes with four others.
fn is_four(one: [u8; 4], other: [u8; 4]) -> bool
    ensures { result ≡ bytes_eq one other }
{
    one[0] == other[0] && one[1] == other[1] && one[2] == other[2] && one[3] == other[3]
}
