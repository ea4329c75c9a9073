//! One direction of a connection: what is remarkable in a PDU, by what the same end sent before it.
//!
//! A ConnReq or ConnResp opens a session, whatever its numbers, unless it is a copy of one that is still kept and
//! nothing else of its end has come on its channel since.
//!
//! The age of a confirmed timestamp is by the clock of the end that made it: its newest timestamp minus the confirmed
//! one. A ConnReq confirms nothing, nor does a DiscReq directly after it.
//!
//! An end waits for a confirmation: its own timestamp minus the last one that was confirmed to it is what its timeout
//! check compares with T_max. What was confirmed to it is in the PDU that it took last, and its CS and CTS name that
//! PDU: so a PDU that passed the recorder, but that the end did not take, does not count.

ghost use Rattle.std.specs.Prelude.{◌≡◌, ◌<◌, length, map, true};
ghost use Rattle.capture.specs.Directions.{requested_line, damage_with, damages_after, line_if, age_at, age_in, age_of, age_within, channel_order, channels_after, confirmation_of, confirmation_timestamp, confirmed_timestamp, confirmations_after, confirms_nothing, direction_after, direction_in, greatest_of, has_gone_on, is_before, is_behind_request, is_copy, is_furthest, is_new, is_opened, is_other, is_repeat, is_request, is_resent, tally_with_kind, newer, no_confirmations, open_direction, reopen_direction, opening_timestamp, direction_after_opening, opening_of, peer_of, remarks_in, remarks_of, sequence_order, sequence_after, silence_of, since_after, count_pdu, tally_after, tally_after_opening, waits_at, waits_of};
ghost use Rattle.capture.specs.Numbers.{ahead, restart_window, slot};

use crate::datagram::Header;
use crate::window::{KEPT, NumberOrder, Window, judge, line_of, note, reopen};
use safe_pdu::{Kind, Leaving};

/// How many channels of a connection are distinguished. RaSTA has two; four leave room.
pub const CHANNELS: usize = 4;

/// How many damaged datagrams of an end are kept, by the remainder of their redundancy numbers.
pub const DAMAGES: usize = 8;

/// What one end of a connection has sent.
#[derive(Clone, Copy, Debug, PartialEq, Eq)]
pub struct Direction {
    /// The redundancy numbers on each channel.
    pub channels: [Window; CHANNELS],
    /// The redundancy numbers on all channels together.
    pub together: Window,
    /// The sequence numbers of the safety PDUs.
    pub sequence: Window,
    /// The timestamp of the newest PDU.
    pub stamp: Option<u32>,
    /// The last ConnReq or ConnResp.
    pub opening: Option<SessionOpening>,
    /// For each remainder of a sequence number, what the last PDU with it confirms.
    pub confirmations: [Option<Confirmation>; KEPT],
    /// The own timestamp that was last confirmed to the end, as far as its PDUs show; that of its opening until then.
    pub since: Option<u32>,
    /// How many of its datagrams on each channel were not a PDU.
    pub damaged: [u64; CHANNELS],
    /// For each remainder of a redundancy number, the last damaged datagram with it since the last opening.
    pub damages: [Option<Damage>; DAMAGES],
    /// The counts of its PDUs.
    pub tally: Tally,
}

/// A ConnReq or ConnResp that opened a session.
#[derive(Clone, Copy, Debug, PartialEq, Eq)]
pub struct SessionOpening {
    /// Which of the two it is.
    pub kind: Kind,
    /// The sequence number (SN).
    pub sn: u32,
    /// The timestamp (TS) in milliseconds.
    pub ts: u32,
}

/// A datagram with a redundancy number whose safety PDU is damaged.
#[derive(Clone, Copy, Debug, PartialEq, Eq)]
pub struct Damage {
    /// Its redundancy number.
    pub number: u32,
    /// The number of its line, from 1.
    pub line: u64,
}

/// What a PDU confirms.
#[derive(Clone, Copy, Debug, PartialEq, Eq)]
pub struct Confirmation {
    /// Its sequence number (SN).
    pub sn: u32,
    /// Its timestamp (TS) in milliseconds.
    pub ts: u32,
    /// The timestamp of the other end that it confirms (CTS), in milliseconds.
    pub cts: u32,
}

/// What the other end said, as far as it concerns a PDU.
#[derive(Clone, Copy, Debug, PartialEq, Eq)]
pub struct Peer {
    /// The timestamp of its last opening.
    pub opened: Option<u32>,
    /// The timestamp of its newest PDU.
    pub stamp: Option<u32>,
    /// The timestamp that its PDU confirms which this PDU confirms.
    pub confirmed: Option<u32>,
    /// The line of its PDU for which this PDU asks, if it is a RetrReq and that PDU was recorded.
    pub asked: Option<u64>,
}

/// The counts of a direction's PDUs; copies count once.
#[derive(Clone, Copy, Debug, PartialEq, Eq)]
pub struct Tally {
    /// Openings: each ConnReq or ConnResp that is not a copy.
    pub openings: u64,
    /// Heartbeats.
    pub heartbeats: u64,
    /// Retransmission requests (RetrReq).
    pub requests: u64,
    /// Units that were sent again (RetrData).
    pub resent: u64,
    /// Disconnects (DiscReq), over all openings.
    pub disconnects: u64,
    /// The greatest age of a confirmed timestamp, in milliseconds.
    pub oldest: u32,
    /// The longest wait for a confirmation, in milliseconds.
    pub longest: u32,
    /// The time of the last PDU, in microseconds; 0 before the first.
    pub last: u64,
    /// The longest time between two PDUs, in microseconds.
    pub silence: u64,
    /// Reason and detail of the last DiscReq since an opening.
    pub leaving: Option<Leaving>,
    /// The time of the last opening, in microseconds; 0 before the first.
    pub opened: u64,
    /// The time of that DiscReq, in microseconds; it has no meaning without one.
    pub left: u64,
}

/// What is remarkable in a PDU.
#[derive(Clone, Copy, Debug, PartialEq, Eq)]
pub struct Remarks {
    /// It opens a session and is not a copy: the numbers of its end start again.
    pub opens: bool,
    /// The number of its channel, from 0; `CHANNELS` for any further channel.
    pub route: usize,
    /// How its redundancy number follows on its channel; `None` on a further channel.
    pub channel: Option<NumberOrder>,
    /// How its redundancy number follows on all channels together.
    pub together: NumberOrder,
    /// How its sequence number follows; `None` if the PDU came before, or that is unknown.
    pub sequence: Option<NumberOrder>,
    /// It carries a unit that was sent before (RetrData).
    pub resent: bool,
    /// The line of a damaged datagram with its redundancy number, if it is new. The receiver took that number as
    /// received, and so drops this PDU as old.
    pub damaged: Option<u64>,
    /// The line of the PDU for which it asks, if it is new: that PDU was not lost before the recorder.
    pub asks: Option<u64>,
    /// The age of the confirmed timestamp at the end that made it, in milliseconds.
    ///
    /// `None` for a ConnReq or a DiscReq directly after it; if the timestamp is from before the last opening of that
    /// end; and if no PDU of that end is as late.
    pub age: Option<u32>,
    /// How long its end had waited for a confirmation when it made it, in milliseconds.
    ///
    /// `None` for a copy, and if neither the opening of its end nor a confirmation to it was recorded.
    pub waits: Option<u32>,
    /// Reason and detail, if it is a DiscReq.
    pub leaving: Option<Leaving>,
}

/// The time, line and channel of a PDU.
#[derive(Clone, Copy, Debug, PartialEq, Eq)]
pub struct Place {
    /// When it was recorded, in microseconds.
    pub time: u64,
    /// The number of its line, from 1.
    pub line: u64,
    /// The number of its channel, from 0; `CHANNELS` for any further channel.
    pub channel: usize,
}

impl Direction {
    /// Returns a direction without PDUs.
    pub fn new() -> Self
        // The new direction has empty windows, no timestamp and no opening, and all counts 0.
        ensures { result ≡ open_direction }
    {
        Direction {
            channels: [Window::new(); CHANNELS],
            together: Window::new(),
            sequence: Window::new(),
            stamp: None,
            opening: None,
            confirmations: [None; KEPT],
            since: None,
            damaged: [0; CHANNELS],
            damages: [None; DAMAGES],
            tally: Tally {
                openings: 0,
                heartbeats: 0,
                requests: 0,
                resent: 0,
                disconnects: 0,
                oldest: 0,
                longest: 0,
                last: 0,
                silence: 0,
                leaving: None,
                opened: 0,
                left: 0,
            },
        }
    }
}

/// Adds a PDU to its direction and returns what is remarkable in it. `peer` is what the other end said before.
pub fn follow_pdu(
    direction: &mut Direction,
    peer: Peer,
    place: Place,
    seq: u32,
    header: &Header,
) -> Remarks
    // The remarks judge the redundancy number on its channel and on all channels, then the sequence number
    // (`channel_order`, `number_order`, `sequence_order`). They also have the opening, the retransmission, the age, the
    // wait and the reason (`is_opened`, `is_resent`, `age_of`, `waits_of`). Of a new PDU they have the line of a damaged
    // datagram with its number, and the line of the PDU that it asks for. An opening is a copy only if the first one is
    // kept with the same bytes, and nothing else has come on its channel since (`is_copy`). The age is the
    // peer's newest timestamp minus the confirmed one (`age_at`); a ConnReq and a DiscReq directly after it have none
    // (`confirms_nothing`), nor has a timestamp from before the peer's opening (`is_before`). The wait of a new PDU
    // is its timestamp minus the one that was last confirmed to its end (`since_after`).
    ensures remarks { result ≡ remarks_of direction.old peer place seq header.now }
    // A PDU whose redundancy number came before changes only the windows of redundancy numbers (`is_new`). An opening
    // that is not a copy first restarts all numbers of its end (`direction_after_opening`).
    ensures followed { direction.new ≡ direction_after direction.old peer place seq header.now }
{
    let opening = opening_in(header);
    let opens = opens_session(direction, opening, place.channel, seq, header.fingerprint);
    if opens {
        open(direction, opening, place.time);
    }
    follow_opened(direction, opens, peer, place, seq, header)
}

/// Adds a PDU after its opening was handled.
fn follow_opened(
    direction: &mut Direction,
    opens: bool,
    peer: Peer,
    place: Place,
    seq: u32,
    header: &Header,
) -> Remarks
    // The remarks are those of `remarks_in`, with `opens` as it was decided before.
    ensures remarks { result ≡ remarks_in direction.old opens peer place seq header.now }
    // The windows, the timestamp and the counts take the PDU in; a repeat, a differing or a stale one does not reach
    // sequence numbers and counts (`direction_in`).
    ensures followed { direction.new ≡ direction_in direction.old peer place seq header.now }
{
    let octets = header.fingerprint;
    let channel = note_channel(&mut direction.channels, place, seq, octets);
    let together = note(&mut direction.together, seq, place.line, octets);
    let is_new = is_first_copy(together);
    let sequence = note_sequence(&mut direction.sequence, is_new, place.line, header);
    let age = age(direction.opening, peer, header);
    if is_newest(together) {
        direction.stamp = Some(header.ts);
    }
    let confirmed = peer.confirmed;
    let since = confirm(
        is_new,
        direction.opening,
        direction.since,
        confirmed,
        header,
    );
    let waits = wait(is_new, since, header.ts);
    let damaged = if_new(is_new, damaged_before(&direction.damages, seq));
    direction.since = since;
    keep_confirmation(&mut direction.confirmations, is_new, header);
    if is_new {
        count(&mut direction.tally, place.time, age, waits, header);
    }
    Remarks {
        opens,
        route: place.channel,
        channel,
        together,
        sequence,
        resent: carries_again(header.kind),
        damaged,
        asks: if_new(is_new, peer.asked),
        age,
        waits,
        leaving: header.leaving,
    }
}

/// Returns what an end said, as far as it concerns a PDU of the other end.
pub(crate) fn see_peer(direction: &Direction, header: &Header) -> Peer
    ensures { result ≡ peer_of direction.now header.now }
{
    Peer {
        opened: timestamp_of_opening(direction.opening),
        stamp: direction.stamp,
        confirmed: find_confirmed(&direction.confirmations, header),
        asked: asked_line(&direction.sequence, header),
    }
}

/// Returns the line of the PDU for which a RetrReq asks.
fn asked_line(sequence: &Window, header: &Header) -> Option<u64>
    ensures { result ≡ requested_line sequence.now header.now }
{
    if matches!(header.kind, Kind::RetrReq) {
        return line_of(sequence, header.cs.wrapping_add(1));
    }
    None
}

/// Returns the line of a damaged datagram with a redundancy number.
fn damaged_before(damages: &[Option<Damage>; DAMAGES], number: u32) -> Option<u64>
    ensures { result ≡ damage_with damages.now number }
{
    let damage = damages[number as usize % DAMAGES]?;
    if damage.number == number {
        return Some(damage.line);
    }
    None
}

/// Keeps a damaged datagram, if it has a redundancy number.
pub(crate) fn keep_damage(damages: &mut [Option<Damage>; DAMAGES], damage: Option<Damage>)
    ensures { damages.new ≡ damages_after damages.old damage }
{
    if let Some(damage) = damage {
        damages[damage.number as usize % DAMAGES] = Some(damage);
    }
}

/// Returns a line if a PDU is new.
fn if_new(is_new: bool, line: Option<u64>) -> Option<u64>
    ensures { result ≡ line_if is_new line }
{
    if is_new { line } else { None }
}

/// Returns the timestamp of an opening.
fn timestamp_of_opening(opening: Option<SessionOpening>) -> Option<u32>
    ensures { result ≡ opening_timestamp opening }
{
    let opening = opening?;
    Some(opening.ts)
}

/// Returns the timestamp that the PDU confirms which a PDU confirms.
fn find_confirmed(confirmations: &[Option<Confirmation>; KEPT], header: &Header) -> Option<u32>
    ensures { result ≡ confirmed_timestamp confirmations.now header.now }
{
    let confirmation = confirmations[header.cs as usize % KEPT]?;
    if confirmation.sn == header.cs && confirmation.ts == header.cts {
        return Some(confirmation.cts);
    }
    None
}

/// Keeps what a new PDU confirms.
fn keep_confirmation(
    confirmations: &mut [Option<Confirmation>; KEPT],
    is_new: bool,
    header: &Header,
)
    ensures { confirmations.new ≡ confirmations_after is_new confirmations.old header.now }
{
    if is_new {
        confirmations[header.sn as usize % KEPT] = read_confirmation(header);
    }
}

/// Returns what a PDU confirms.
fn read_confirmation(header: &Header) -> Option<Confirmation>
    ensures { result ≡ confirmation_of header.now }
{
    if matches!(header.kind, Kind::ConnReq) {
        return None;
    }
    Some(Confirmation {
        sn: header.sn,
        ts: header.ts,
        cts: header.cts,
    })
}

/// Returns the own timestamp that was last confirmed to an end, after one of its PDUs.
fn confirm(
    is_new: bool,
    opening: Option<SessionOpening>,
    since: Option<u32>,
    confirmed: Option<u32>,
    header: &Header,
) -> Option<u32>
    ensures { result ≡ since_after is_new opening since confirmed header.now }
{
    if !is_new || confirms_none(opening, header.kind, header.sn) {
        return since;
    }
    match confirmed {
        Some(confirmed) => Some(confirmed),
        None => since,
    }
}

/// Returns how long an end has waited at this timestamp, in milliseconds.
fn wait(is_new: bool, since: Option<u32>, ts: u32) -> Option<u32>
    ensures { result ≡ waits_at is_new since ts }
{
    if !is_new {
        return None;
    }
    let since = since?;
    distance(since, ts)
}

/// Returns how far a timestamp is after another one.
fn distance(from: u32, to: u32) -> Option<u32>
    ensures { result ≡ age_within (ahead from to) }
{
    let steps = to.wrapping_sub(from);
    if steps < 0x8000_0000 {
        Some(steps)
    } else {
        None
    }
}

/// Returns the opening in a PDU.
fn opening_in(header: &Header) -> Option<SessionOpening>
    ensures { result ≡ opening_of header.now }
{
    match header.kind {
        Kind::ConnReq | Kind::ConnResp => Some(SessionOpening {
            kind: header.kind,
            sn: header.sn,
            ts: header.ts,
        }),
        Kind::RetrReq
        | Kind::RetrResp
        | Kind::DiscReq
        | Kind::Heartbeat
        | Kind::Data
        | Kind::RetrData => None,
    }
}

/// Returns `true` if a PDU opens a session and is not a copy.
fn opens_session(
    direction: &Direction,
    opening: Option<SessionOpening>,
    channel: usize,
    seq: u32,
    octets: u64,
) -> bool
    ensures { result ≡ is_opened direction.now opening channel seq octets }
{
    match opening {
        None => false,
        Some(_) => !copies(direction, channel, seq, octets),
    }
}

/// Returns `true` if an opening is a copy: it is kept with the same bytes, and on this channel nothing else of its
/// end has come since.
fn copies(direction: &Direction, channel: usize, seq: u32, octets: u64) -> bool
    ensures { result ≡ is_copy direction.now channel seq octets }
{
    repeats(judge(&direction.together, seq, octets)) && !goes_on(&direction.channels, channel, seq)
}

/// Returns `true` for a repeat.
fn repeats(judged: NumberOrder) -> bool
    ensures { result ≡ is_repeat judged }
{
    matches!(judged, NumberOrder::Repeat(_))
}

/// Returns `true` if another number is the newest of this channel.
fn goes_on(channels: &[Window; CHANNELS], channel: usize, seq: u32) -> bool
    ensures { result ≡ has_gone_on channels.now channel seq }
{
    if channel < CHANNELS {
        return differs(channels[channel].newest, seq);
    }
    false
}

/// Returns `true` if there is a newest number and it is another one.
fn differs(newest: Option<u32>, seq: u32) -> bool
    ensures { result ≡ is_other newest seq }
{
    match newest {
        None => false,
        Some(newest) => newest != seq,
    }
}

/// Starts a session: all numbers start again.
fn open(direction: &mut Direction, opening: Option<SessionOpening>, time: u64)
    ensures { direction.new ≡ reopen_direction true direction.old opening time }
{
    reopen_all(&mut direction.channels);
    reopen(&mut direction.together);
    reopen(&mut direction.sequence);
    direction.opening = opening;
    direction.confirmations = [None; KEPT];
    direction.damages = [None; DAMAGES];
    direction.since = timestamp_of_opening(opening);
    direction.tally.openings = direction.tally.openings.saturating_add(1);
    direction.tally.leaving = None;
    direction.tally.opened = time;
}

/// Starts the windows of all channels again.
fn reopen_all(channels: &mut [Window; CHANNELS])
    ensures { channels.new ≡ map restart_window channels.old }
{
    reopen(&mut channels[0]);
    reopen(&mut channels[1]);
    reopen(&mut channels[2]);
    reopen(&mut channels[3]);
}

/// Adds a redundancy number to the window of its channel.
fn note_channel(
    channels: &mut [Window; CHANNELS],
    place: Place,
    seq: u32,
    octets: u64,
) -> Option<NumberOrder>
    // The result is how the number follows on its channel; `None` on a further channel (`channel_order`).
    ensures judged { result ≡ channel_order channels.old place.channel seq octets }
    // Only the window of this channel changes; on a further channel none does.
    ensures noted { channels.new ≡ channels_after channels.old place seq octets }
{
    if place.channel < CHANNELS {
        return Some(note(&mut channels[place.channel], seq, place.line, octets));
    }
    None
}

/// Returns `true` if a PDU has not come before on any channel. For a stale one that is unknown, and the result is
/// `false`.
pub fn is_first_copy(together: NumberOrder) -> bool
    // The result is false exactly for a repeat, a differing and a stale number (`is_new`).
    ensures { result ≡ is_new together }
{
    match together {
        NumberOrder::Repeat(_) | NumberOrder::Differs(_) | NumberOrder::Stale => false,
        NumberOrder::First
        | NumberOrder::Next
        | NumberOrder::Ahead(_)
        | NumberOrder::Late
        | NumberOrder::Anew => true,
    }
}

/// Returns `true` if a PDU is the newest: new, and not late.
fn is_newest(together: NumberOrder) -> bool
    ensures { result ≡ is_furthest together }
{
    match together {
        NumberOrder::Repeat(_) | NumberOrder::Differs(_) | NumberOrder::Late | NumberOrder::Stale =>
            false,
        NumberOrder::First | NumberOrder::Next | NumberOrder::Ahead(_) | NumberOrder::Anew => true,
    }
}

/// Adds the sequence number of a new PDU to its window.
fn note_sequence(
    window: &mut Window,
    is_new: bool,
    line: u64,
    header: &Header,
) -> Option<NumberOrder>
    // A new PDU is judged by its sequence number and fingerprint; for any other the result is `None`.
    ensures judged { result ≡ sequence_order is_new window.old header.now }
    // Only a new PDU changes the `window`.
    ensures noted { window.new ≡ sequence_after is_new window.old line header.now }
{
    if is_new {
        return Some(note(window, header.sn, line, header.fingerprint));
    }
    None
}

/// Returns `true` for a unit that is sent again.
fn carries_again(kind: Kind) -> bool
    ensures { result ≡ is_resent kind }
{
    match kind {
        Kind::RetrData => true,
        Kind::ConnReq
        | Kind::ConnResp
        | Kind::RetrReq
        | Kind::RetrResp
        | Kind::DiscReq
        | Kind::Heartbeat
        | Kind::Data => false,
    }
}

/// Returns the age of the confirmed timestamp at the end that made it, in milliseconds.
fn age(opening: Option<SessionOpening>, peer: Peer, header: &Header) -> Option<u32>
    ensures { result ≡ age_of opening peer header.now }
{
    if confirms_none(opening, header.kind, header.sn) || precedes(peer.opened, header.cts) {
        return None;
    }
    age_behind(peer.stamp, header.cts)
}

/// Returns `true` if a timestamp is from before the opening of its end.
fn precedes(opened: Option<u32>, stamp: u32) -> bool
    ensures { result ≡ is_before opened stamp }
{
    match opened {
        None => false,
        Some(opened) => stamp.wrapping_sub(opened) >= 0x8000_0000,
    }
}

/// Returns `true` if a PDU confirms nothing: a ConnReq, or a DiscReq directly after one.
fn confirms_none(opening: Option<SessionOpening>, kind: Kind, sn: u32) -> bool
    ensures { result ≡ confirms_nothing opening kind sn }
{
    match kind {
        Kind::ConnReq => true,
        Kind::DiscReq => follows_request(opening, sn),
        Kind::ConnResp
        | Kind::RetrReq
        | Kind::RetrResp
        | Kind::Heartbeat
        | Kind::Data
        | Kind::RetrData => false,
    }
}

/// Returns `true` if a sequence number is the next one after the last opening, and that was a ConnReq.
fn follows_request(opening: Option<SessionOpening>, sn: u32) -> bool
    ensures { result ≡ is_behind_request opening sn }
{
    match opening {
        None => false,
        Some(opening) => matches!(opening.kind, Kind::ConnReq) && sn.wrapping_sub(opening.sn) == 1,
    }
}

/// Returns how far a confirmed timestamp is before the newest one.
fn age_behind(stamp: Option<u32>, confirmed: u32) -> Option<u32>
    ensures { result ≡ age_at stamp confirmed }
{
    let stamp = stamp?;
    distance(confirmed, stamp)
}

/// Counts a PDU that has not come before.
fn count(tally: &mut Tally, time: u64, age: Option<u32>, waits: Option<u32>, header: &Header)
    ensures { tally.new ≡ count_pdu tally.old time age waits header.now }
{
    count_kind(tally, header.kind);
    tally.oldest = greatest(age, tally.oldest);
    tally.longest = greatest(waits, tally.longest);
    tally.silence = silence(tally, time);
    tally.last = time;
    if header.leaving.is_some() {
        tally.leaving = header.leaving;
        tally.left = time;
    }
}

/// Returns the longest time without a PDU up to this time, both in microseconds.
pub fn silence(tally: &Tally, time: u64) -> u64
    // The result is the longest time between two PDUs, or that from the last PDU to `time` if it is longer; before the
    // first PDU nothing counts (`silence_of`).
    ensures { result ≡ silence_of tally.now time }
{
    if tally.last > 0 {
        return tally.silence.max(time.saturating_sub(tally.last));
    }
    tally.silence
}

/// Returns the greater of a value, if there is one, and the greatest so far.
pub(crate) fn greatest(more: Option<u32>, so_far: u32) -> u32
    ensures { result ≡ greatest_of more so_far }
{
    match more {
        None => so_far,
        Some(more) => so_far.max(more),
    }
}

/// Counts the type of a PDU.
fn count_kind(tally: &mut Tally, kind: Kind)
    ensures { tally.new ≡ tally_with_kind kind tally.old }
{
    match kind {
        Kind::Heartbeat => tally.heartbeats = tally.heartbeats.saturating_add(1),
        Kind::RetrReq => tally.requests = tally.requests.saturating_add(1),
        Kind::RetrData => tally.resent = tally.resent.saturating_add(1),
        Kind::DiscReq => tally.disconnects = tally.disconnects.saturating_add(1),
        Kind::ConnReq | Kind::ConnResp | Kind::RetrResp | Kind::Data => {}
    }
}
