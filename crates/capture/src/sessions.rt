//! The sessions of a connection: when each was asked for and came up, which end left, and what was lost in it.
//!
//! A ConnReq starts a session, and so does a ConnResp to which no ConnReq was recorded. The session lasts up to the
//! next one, so each PDU belongs to exactly one session.

ghost use Rattle.circular_buffer.specs.Buffer.{keep_last};
ghost use Rattle.std.specs.Prelude.{◌≡◌, ◌<◌, ◌++◌, ◌∷◌, [], IfOk};
ghost use Rattle.capture.specs.Sessions.{has_left, alone_in, alone_of, start_session, end_current, is_asked_by_other, is_awaited_in, is_doubled, is_other_silent, is_timeout, is_unanswered_by, is_unanswered_in, lost_in_session, missing_after, missing_on, no_session_totals, one_if, open_session, open_sessions, open_side, first_disconnection, disconnection_if, disconnection_in, session_after, count_session, session_sums, sessions_after, begin_sessions, sessions_after_opening, side_after, with_alone};

use crate::direction::{CHANNELS, Remarks, greatest, is_first_copy};
use crate::window::NumberOrder;
use circular_buffer::HeapCircularBuffer;
use safe_pdu::{Kind, Leaving};
use std::alloc::{AllocError, Global};
use std::marker::Model;

/// How many sessions that have ended are kept of a connection. The current one is kept beside them.
pub const SESSIONS: usize = 64;

/// The reason in the DiscReq of an end to which nothing recent was confirmed in time.
const TIMEOUT: u16 = 3;

/// The sessions of a connection.
#[derive(Drop)]
pub struct Sessions {
    /// The last sessions that have ended.
    pub past: PastSessions,
    /// The sums over all sessions that have ended.
    pub ended: SessionTotals,
    /// The current session; its number is 0 before the first PDU.
    pub current: Session,
}

/// The last sessions that have ended, the oldest first, at most `SESSIONS`. Contracts see the list of them.
///
/// It has room for all of them from the start, 9 KiB; the system gives this memory as it is written.
#[derive(Drop)]
pub struct PastSessions {
    kept: HeapCircularBuffer<Session, Global>,
}

impl Model for PastSessions {
    ghost use Rattle.std.specs.Prelude.{◌≡◌, List};
    ghost use Rattle.capture.specs.declared.sessions.Session.{Session as Kept};
    ghost use Rattle.capture.specs.declared.sessions.TheConstants.{SESSIONS as MOST};

    ghost Value = { List Kept };

    ghost view = { λ past. past.kept.items };

    ghost invariant = { λ past. past.kept.capacity ≡ MOST };
}

impl PastSessions {
    /// Makes room for 64 sessions.
    ///
    /// # Errors
    ///
    /// `AllocError` if there is too little memory.
    pub(crate) fn new(alloc: Global) -> Result<Self, AllocError>
        ensures { IfOk result (λ past. past ≡ []) }
    {
        let kept = HeapCircularBuffer::with_capacity(alloc, SESSIONS)?;
        Ok(PastSessions { kept })
    }

    /// Keeps a session that has ended.
    fn keep(&mut self, session: Session)
        ensures { self.new ≡ keep_last SESSIONS (self.old ++ session ∷ []) }
    {
        self.kept.push_back(session);
    }

    /// Forgets all sessions.
    fn clear(&mut self)
        ensures { self.new ≡ [] }
    {
        self.kept.clear();
    }

    /// Returns the sessions in two parts, of which the first has the older ones.
    pub fn as_slices(&self) -> (&[Session], &[Session])
        // Both parts together have exactly the kept sessions, the oldest first.
        ensures { result.0.now ++ result.1.now ≡ self.now }
    {
        self.kept.as_slices()
    }
}

/// A session, as far as its PDUs were recorded.
#[derive(Clone, Copy, Debug, PartialEq, Eq)]
pub struct Session {
    /// Its number in its connection, from 1.
    pub number: u64,
    /// Its ConnReq.
    pub asked: SessionRequest,
    /// The time of its ConnResp, in microseconds.
    pub up: Option<u64>,
    /// What the end with the lower identifier did.
    pub low: Side,
    /// What the other end did.
    pub high: Side,
}

/// The ConnReq of a session, in 16 bytes.
#[derive(Clone, Copy, Debug, PartialEq, Eq)]
pub enum SessionRequest {
    /// It was not recorded.
    NotRecorded,
    /// It was recorded.
    Recorded {
        /// The end with the lower identifier sent it.
        by_low: bool,
        /// When it was recorded, in microseconds.
        time: u64,
    },
}

/// What one end did in a session; copies count once. A count stops at 2^32 - 1.
#[derive(Clone, Copy, Debug, PartialEq, Eq)]
pub struct Side {
    /// Its first DiscReq.
    pub left: Disconnection,
    /// Its longest wait for a confirmation, in milliseconds.
    pub longest: u32,
    /// The numbers that are missing on each channel.
    pub missing: [u32; CHANNELS],
    /// The numbers that are missing on all channels.
    pub lost: u32,
    /// Units that it sent again (RetrData).
    pub resent: u32,
    /// Its PDUs that came twice on one channel.
    pub repeats: u32,
}

/// The DiscReq of an end, in 16 bytes.
#[derive(Clone, Copy, Debug, PartialEq, Eq)]
pub enum Disconnection {
    /// The end sent none.
    NotSent,
    /// The end sent it.
    Sent {
        /// The other end had left the session before.
        follows: bool,
        /// Its reason and detail.
        leaving: Leaving,
        /// When it was recorded, in microseconds.
        time: u64,
    },
}

impl Disconnection {
    /// Returns `true` if the end sent a DiscReq.
    pub fn is_sent(self) -> bool
        // Time, reason and order do not matter (`has_left`).
        ensures { result ≡ has_left self }
    {
        matches!(self, Disconnection::Sent { .. })
    }
}

/// Sums over sessions.
#[derive(Clone, Copy, Debug, PartialEq, Eq)]
pub struct SessionTotals {
    /// Sessions that came up.
    pub up: u64,
    /// Sessions whose opening nobody answered.
    pub unanswered: u64,
    /// Sessions in which an end sent a DiscReq.
    pub left: u64,
    /// Sessions in which an end left by a timeout.
    pub timeouts: u64,
    /// Datagrams that one channel lost whose PDU came on another.
    pub alone: u64,
}

impl Sessions {
    /// Returns the sessions of a connection without PDUs.
    ///
    /// # Errors
    ///
    /// `AllocError` if there is too little memory.
    pub fn new(alloc: Global) -> Result<Self, AllocError>
        // No session is kept, all sums are 0, and the current session has the number 0.
        ensures { IfOk result (λ sessions. sessions ≡ open_sessions) }
    {
        Ok(Sessions {
            past: PastSessions::new(alloc)?,
            ended: new_totals(),
            current: new_session(0, SessionRequest::NotRecorded, None),
        })
    }

    /// Makes them those of a connection without PDUs.
    pub(crate) fn clear(&mut self)
        ensures { self.new ≡ open_sessions }
    {
        self.past.clear();
        self.ended = new_totals();
        self.current = new_session(0, SessionRequest::NotRecorded, None);
    }
}

/// Returns sums over no session.
fn new_totals() -> SessionTotals
    ensures { result ≡ no_session_totals }
{
    SessionTotals {
        up: 0,
        unanswered: 0,
        left: 0,
        timeouts: 0,
        alone: 0,
    }
}

/// Returns a session before its first PDU.
fn new_session(number: u64, asked: SessionRequest, up: Option<u64>) -> Session
    ensures { result ≡ open_session number asked up }
{
    Session {
        number,
        asked,
        up,
        low: new_side(),
        high: new_side(),
    }
}

/// Returns what an end did before its first PDU.
fn new_side() -> Side
    ensures { result ≡ open_side }
{
    Side {
        left: Disconnection::NotSent,
        longest: 0,
        missing: [0; CHANNELS],
        lost: 0,
        resent: 0,
        repeats: 0,
    }
}

/// Adds a PDU to the sessions of its connection.
pub(crate) fn note_session(
    sessions: &mut Sessions,
    from_low: bool,
    time: u64,
    kind: Kind,
    remarks: &Remarks,
)
    ensures { sessions.new ≡ sessions_after sessions.old from_low time kind remarks.now }
{
    begin_by(sessions, remarks.opens, from_low, time, kind);
    note_in(&mut sessions.current, from_low, time, remarks);
}

/// Starts a session if a PDU opens one, or is the first of its connection.
fn begin_by(sessions: &mut Sessions, opens: bool, from_low: bool, time: u64, kind: Kind)
    ensures { sessions.new ≡ begin_sessions opens sessions.old from_low time kind }
{
    if opens {
        open_by(sessions, from_low, time, kind);
    } else if sessions.current.number == 0 {
        begin(sessions, SessionRequest::NotRecorded, None);
    }
}

/// Takes in a ConnReq or a ConnResp.
fn open_by(sessions: &mut Sessions, from_low: bool, time: u64, kind: Kind)
    ensures { sessions.new ≡ sessions_after_opening sessions.old from_low time kind }
{
    if matches!(kind, Kind::ConnReq) {
        let asked = SessionRequest::Recorded {
            by_low: from_low,
            time,
        };
        begin(sessions, asked, None);
    } else if awaits(&sessions.current, from_low) {
        sessions.current.up = Some(time);
    } else {
        begin(sessions, SessionRequest::NotRecorded, Some(time));
    }
}

/// Returns `true` if a session awaits the ConnResp of an end.
fn awaits(session: &Session, from_low: bool) -> bool
    ensures { result ≡ is_awaited_in session.now from_low }
{
    session.up.is_none() && asks_other(session.asked, from_low)
}

/// Returns `true` if the other end than this one sent the ConnReq.
fn asks_other(asked: SessionRequest, from_low: bool) -> bool
    ensures { result ≡ is_asked_by_other asked from_low }
{
    match asked {
        SessionRequest::NotRecorded => false,
        SessionRequest::Recorded { by_low, .. } => by_low != from_low,
    }
}

/// Starts the next session.
fn begin(sessions: &mut Sessions, asked: SessionRequest, up: Option<u64>)
    ensures { sessions.new ≡ start_session sessions.old asked up }
{
    end(sessions);
    let number = sessions.current.number.saturating_add(1);
    sessions.current = new_session(number, asked, up);
}

/// Keeps the current session among those that have ended, if there is one.
fn end(sessions: &mut Sessions)
    ensures { sessions.new ≡ end_current sessions.old }
{
    let last = sessions.current;
    if last.number > 0 {
        sessions.past.keep(last);
        sessions.ended = add_session(sessions.ended, &last);
    }
}

/// Adds a PDU of an end to a session.
fn note_in(session: &mut Session, from_low: bool, time: u64, remarks: &Remarks)
    ensures { session.new ≡ session_after from_low session.old time remarks.now }
{
    if from_low {
        let follows = session.high.left.is_sent();
        note_side(&mut session.low, time, follows, remarks);
    } else {
        let follows = session.low.left.is_sent();
        note_side(&mut session.high, time, follows, remarks);
    }
}

/// Adds a PDU to what its end did.
fn note_side(side: &mut Side, time: u64, follows: bool, remarks: &Remarks)
    ensures { side.new ≡ side_after side.old time follows remarks.now }
{
    let is_new = is_first_copy(remarks.together);
    side.left = part(side.left, time, follows, remarks);
    side.longest = greatest(remarks.waits, side.longest);
    miss_on(&mut side.missing, remarks.route, remarks.channel);
    side.lost = miss(side.lost, remarks.together);
    side.resent = side
        .resent
        .saturating_add(count_if(is_new && remarks.resent));
    side.repeats = side
        .repeats
        .saturating_add(count_if(doubles(remarks.channel)));
}

/// Returns 1 if something holds.
fn count_if(holds: bool) -> u32
    ensures { result ≡ one_if holds }
{
    if holds { 1 } else { 0 }
}

/// Returns the first DiscReq of an end in a session, after one of its PDUs.
fn part(left: Disconnection, time: u64, follows: bool, remarks: &Remarks) -> Disconnection
    ensures { result ≡ first_disconnection left time follows remarks.now }
{
    match left {
        Disconnection::Sent { .. } => left,
        Disconnection::NotSent => part_if(
            is_first_copy(remarks.together),
            time,
            follows,
            remarks.leaving,
        ),
    }
}

/// Returns the DiscReq of a PDU, if it is new.
fn part_if(is_new: bool, time: u64, follows: bool, leaving: Option<Leaving>) -> Disconnection
    ensures { result ≡ disconnection_if is_new time follows leaving }
{
    if is_new {
        return part_in(time, follows, leaving);
    }
    Disconnection::NotSent
}

/// Returns the DiscReq of a PDU.
fn part_in(time: u64, follows: bool, leaving: Option<Leaving>) -> Disconnection
    ensures { result ≡ disconnection_in time follows leaving }
{
    match leaving {
        None => Disconnection::NotSent,
        Some(leaving) => Disconnection::Sent {
            follows,
            leaving,
            time,
        },
    }
}

/// Counts missing numbers on the channel of a PDU.
fn miss_on(counts: &mut [u32; CHANNELS], route: usize, channel: Option<NumberOrder>)
    ensures { counts.new ≡ missing_on counts.old route channel }
{
    if let Some(judged) = channel {
        if route < CHANNELS {
            counts[route] = miss(counts[route], judged);
        }
    }
}

/// Returns how many numbers are missing after a number.
fn miss(missing: u32, judged: NumberOrder) -> u32
    ensures { result ≡ missing_after missing judged }
{
    match judged {
        NumberOrder::Ahead(passed) => missing.saturating_add(passed),
        NumberOrder::Late => missing.saturating_sub(1),
        NumberOrder::First
        | NumberOrder::Next
        | NumberOrder::Repeat(_)
        | NumberOrder::Differs(_)
        | NumberOrder::Stale
        | NumberOrder::Anew => missing,
    }
}

/// Returns `true` if a PDU came on its channel before.
fn doubles(channel: Option<NumberOrder>) -> bool
    ensures { result ≡ is_doubled channel }
{
    matches!(channel, Some(NumberOrder::Repeat(_)))
}

/// Returns how many datagrams one channel lost in a session whose PDU came on another channel.
pub fn lost_alone(session: &Session) -> u64
    // For each end and channel, these are the numbers missing on that channel, less those missing on all (`alone_of`).
    ensures { result ≡ alone_in session.now }
{
    alone(&session.low).saturating_add(alone(&session.high))
}

/// Returns how many datagrams of an end one channel lost whose PDU came on another channel.
pub fn alone(side: &Side) -> u64
    // The numbers missing on each channel are added, each less those that are missing on all channels.
    ensures { result ≡ alone_of side.now }
{
    let lost = side.lost;
    side.missing
        .iter()
        .fold(0, |sum, missing| add_alone(lost, sum, *missing))
}

/// Adds the datagrams that one channel lost, apart from the numbers that all channels lost.
fn add_alone(lost: u32, sum: u64, missing: u32) -> u64
    ensures { result ≡ with_alone lost sum missing }
{
    sum.saturating_add(missing.saturating_sub(lost) as u64)
}

/// Returns how many PDUs came on no channel in a session.
pub fn lost_everywhere(session: &Session) -> u64
    // The numbers missing on all channels are added for both ends.
    ensures { result ≡ lost_in_session session.now }
{
    (session.low.lost as u64).saturating_add(session.high.lost as u64)
}

/// Returns `true` if nobody answered the opening of a session.
pub fn is_unanswered(session: &Session) -> bool
    // The result is true exactly if a ConnReq was recorded, no ConnResp after it, and no DiscReq of the other end
    // (`is_unanswered_in`).
    ensures { result ≡ is_unanswered_in session.now }
{
    match session.asked {
        SessionRequest::NotRecorded => false,
        SessionRequest::Recorded { by_low, .. } => {
            session.up.is_none() && is_silent(by_low, session)
        }
    }
}

/// Returns `true` if the end that did not ask for a session has not left it.
fn is_silent(by_low: bool, session: &Session) -> bool
    ensures { result ≡ is_other_silent by_low session.now }
{
    if by_low {
        !session.high.left.is_sent()
    } else {
        !session.low.left.is_sent()
    }
}

/// Returns `true` if an end left by a timeout.
fn times_out(left: Disconnection) -> bool
    ensures { result ≡ is_timeout left }
{
    match left {
        Disconnection::NotSent => false,
        Disconnection::Sent { leaving, .. } => leaving.reason == TIMEOUT,
    }
}

/// Adds a session to the sums.
fn add_session(totals: SessionTotals, session: &Session) -> SessionTotals
    ensures { result ≡ count_session totals session.now }
{
    let up = session.up.is_some();
    let left = session.low.left.is_sent() || session.high.left.is_sent();
    let timeout = times_out(session.low.left) || times_out(session.high.left);
    SessionTotals {
        up: totals.up.saturating_add(count_if(up) as u64),
        unanswered: totals
            .unanswered
            .saturating_add(count_if(is_unanswered(session)) as u64),
        left: totals.left.saturating_add(count_if(left) as u64),
        timeouts: totals.timeouts.saturating_add(count_if(timeout) as u64),
        alone: totals.alone.saturating_add(lost_alone(session)),
    }
}

/// Returns the sums over all sessions of a connection.
pub fn add_up_sessions(sessions: &Sessions) -> SessionTotals
    // The current session, if there is one, is added to the sums over those that have ended (`session_sums`).
    ensures { result ≡ session_sums sessions.now }
{
    if sessions.current.number == 0 {
        return sessions.ended;
    }
    add_session(sessions.ended, &sessions.current)
}
