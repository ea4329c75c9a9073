//! Judging units: the session processes the messages of each unit that the safety machine delivers, in order.

ghost use Rattle.std.specs.Prelude.{◌≡◌, false, Some};
ghost use Rattle.pdi_session.specs.packing.Places.{unit_seen};
ghost use Rattle.pdi_session.specs.telegram.Places.{tele_seen};
ghost use Rattle.pdi_session.specs.SessionStep.{FewWait};
ghost use Rattle.stack_end.specs.Dialogue.{for_session, is_taken, judge_messages, judge_read, judge_unpacked};
ghost use Rattle.stack_end.specs.Talk.{JudgesDialogue, judge_next, talk, texts_of};

use octets::limits::UNIT_MESSAGES;
use pdi_session::packing::{Waiting, unpack};
use pdi_session::telegram::decode;
use pdi_session::{Phase, Session, SessionDetail, Taker};
use safe_machine::{Detail, Reason, UnitIn};
use std::alloc::Allocator;

/// What judging a message led to.
#[derive(Clone, Copy)]
pub(crate) struct Judgement {
    /// Why the end has to disconnect, or `None`.
    pub(crate) asked: Option<(Reason, Detail)>,
    /// Whether the application took the message.
    pub(crate) is_taken: bool,
}

impl Judgement {
    /// Returns the judgement of a message at which the end has to disconnect, and which is not taken.
    fn leaves(why: (Reason, Detail)) -> Self
        // The end has to disconnect with this reason and detail.
        ensures asked { result.asked ≡ Some why }
        // The message is not taken.
        ensures taken { result.is_taken ≡ false }
    {
        Judgement {
            asked: Some(why),
            is_taken: false,
        }
    }
}

/// A message of a unit that was judged.
#[derive(Clone, Copy)]
pub(crate) struct JudgedMessage {
    /// The phase of the session after it.
    pub(crate) phase: Phase,
    /// Whether the application took it.
    pub(crate) is_taken: bool,
}

/// The messages of a unit that were judged, in order. Used for notes only.
#[derive(Clone, Copy)]
pub(crate) struct JudgedMessages {
    /// The messages, the first one first.
    list: [JudgedMessage; UNIT_MESSAGES],
    /// The number of messages that are set.
    count: usize,
}

impl JudgedMessages {
    /// Returns an empty list: no message has been judged.
    pub(crate) fn new() -> Self {
        let none = JudgedMessage {
            phase: Phase::Idle,
            is_taken: false,
        };
        JudgedMessages {
            list: [none; UNIT_MESSAGES],
            count: 0,
        }
    }

    /// Adds another message. A unit has no more messages than there is room for.
    fn push(&mut self, message: JudgedMessage) {
        if let Some(place) = self.list.get_mut(self.count) {
            *place = message;
            self.count += 1;
        }
    }

    /// Returns the messages added so far.
    pub(crate) fn as_slice(&self) -> &[JudgedMessage] {
        self.list.get(..self.count).unwrap_or(&self.list)
    }
}

/// Receives the units that a machine delivers, and passes them to the session.
#[derive(Drop)]
pub(crate) struct ToSession<'a, 'b, 'c, A: Allocator, T> {
    /// The session of the end.
    pub(crate) session: &'a mut Session,
    /// The messages that wait to be sent.
    pub(crate) waiting: &'b mut Waiting<A>,
    /// The application.
    pub(crate) taker: &'c mut T,
    /// Why the end has to disconnect, or `None`.
    pub(crate) asked: Option<(Reason, Detail)>,
    /// The messages that were judged, for notes.
    pub(crate) judged: JudgedMessages,
}

impl<'a, 'b, 'c, A: Allocator, T: Taker> UnitIn for ToSession<'a, 'b, 'c, A, T> {
    ghost takes = { λ s unit t.
        (t.session.ghost_name ≡ s.session.ghost_name) × (t.waiting.ghost_name ≡ s.waiting.ghost_name)
        × (t.taker.ghost_name ≡ s.taker.ghost_name)
        × JudgesDialogue T.takes (judge_next s.asked unit) (talk s.session.now s.waiting.now s.taker.now)
        (talk t.session.now t.waiting.now t.taker.now) t.asked };

    // A unit may make the session queue a message, so there must be room for one.
    ghost ready = { λ s. FewWait s.session.now s.waiting.now };

    fn unit(&mut self, unit: &[u8]) {
        if self.asked.is_none() {
            self.asked = judge_unit(
                self.session,
                self.waiting,
                self.taker,
                unit,
                &mut self.judged,
            );
        }
    }
}

/// Judges the messages of a unit. Returns why the end has to disconnect, or `None`.
fn judge_unit<A: Allocator, T: Taker>(
    session: &mut Session,
    waiting: &mut Waiting<A>,
    taker: &mut T,
    unit: &[u8],
    judged: &mut JudgedMessages,
) -> Option<(Reason, Detail)>
    requires few { FewWait session.old waiting.old }
    // A unit that unpacks has its messages judged in order; one that does not changes nothing and disconnects with
    // reason 7, detail 2. The application gets what the session takes.
    ensures judged { JudgesDialogue T.takes (judge_unpacked (unit_seen unit.now)) (talk session.old waiting.old taker.old)
        (talk session.new waiting.new taker.new) result }
    // After the unit, there is still room among the waiting messages for the session's next one.
    ensures few { FewWait session.new waiting.new }
{
    match unpack(unit) {
        Ok(messages) => judge_messages(session, waiting, taker, &messages, judged),
        Err(_) => Some((Reason::ProtocolError, Detail::BadUnit)),
    }
}

/// Judges messages in order, up to the first that makes the end disconnect.
fn judge_messages<A: Allocator, T: Taker>(
    session: &mut Session,
    waiting: &mut Waiting<A>,
    taker: &mut T,
    messages: &[&[u8]],
    judged: &mut JudgedMessages,
) -> Option<(Reason, Detail)>
    requires few { FewWait session.old waiting.old }
    // The messages are judged in order. At the first one for which the end has to disconnect, its reason is returned
    // and the rest is not judged.
    ensures judged { JudgesDialogue T.takes (judge_messages (texts_of messages.now)) (talk session.old waiting.old taker.old)
        (talk session.new waiting.new taker.new) result }
    // After these messages, there is still room among the waiting ones for the session's next message.
    ensures few { FewWait session.new waiting.new }
{
    for message in messages {
        let judgement = judge_message(session, waiting, taker, message);
        judged.push(JudgedMessage {
            phase: session.phase(),
            is_taken: judgement.is_taken,
        });
        if let Some(leaving) = judgement.asked {
            return Some(leaving);
        }
    }
    None
}

/// Judges one message. A row of the session's table that does not end the session takes the telegram if and only if it
/// leaves the phase as it was.
fn judge_message<A: Allocator, T: Taker>(
    session: &mut Session,
    waiting: &mut Waiting<A>,
    taker: &mut T,
    message: &[u8],
) -> Judgement
    requires few { FewWait session.old waiting.old }
    // The session processes a message that is a telegram, and the result says whether that ended it. Any other
    // message changes nothing and disconnects with reason 4, detail 3.
    ensures judged { JudgesDialogue T.takes (judge_read (tele_seen message.now)) (talk session.old waiting.old taker.old)
        (talk session.new waiting.new taker.new) result.asked }
    // The result says whether the application took the message: it is a telegram that the session's table takes.
    ensures taken { result.is_taken ≡ is_taken (tele_seen message.now) session.old }
    // After one message, there is room among the waiting messages for the session's next.
    ensures few { FewWait session.new waiting.new }
{
    let before = session.phase();
    if let Some(telegram) = session.decode_known(message) {
        return match session.arrive_known(&telegram, waiting, taker) {
            Ok(()) => Judgement {
                asked: None,
                is_taken: session.phase() == before,
            },
            Err(end) => Judgement::leaves(for_session(end.detail)),
        };
    }
    judge_other(session, waiting, taker, message)
}

/// Judges a message that is not a telegram from the peer to this end. Such messages are rare, so they are judged in a
/// function of their own.
#[cold]
#[inline(never)]
fn judge_other<A: Allocator, T: Taker>(
    session: &mut Session,
    waiting: &mut Waiting<A>,
    taker: &mut T,
    message: &[u8],
) -> Judgement
    requires few { FewWait session.old waiting.old }
    // A message that is not a telegram changes nothing and disconnects with reason 4, detail 3; a telegram goes to
    // the session, and the result says whether that ended it.
    ensures judged { JudgesDialogue T.takes (judge_read (tele_seen message.now)) (talk session.old waiting.old taker.old)
        (talk session.new waiting.new taker.new) result.asked }
    // The result says whether the application took the message, as the session's table decides.
    ensures taken { result.is_taken ≡ is_taken (tele_seen message.now) session.old }
    // After such a message, there is room among the waiting messages for the session's next.
    ensures few { FewWait session.new waiting.new }
{
    let earlier = session.phase();
    match decode(message) {
        Ok(telegram) => match session.arrive(&telegram, waiting, taker) {
            Ok(()) => Judgement {
                asked: None,
                is_taken: session.phase() == earlier,
            },
            Err(over) => Judgement::leaves(for_session(over.detail)),
        },
        Err(_) => Judgement::leaves((Reason::ServiceNotAllowed, Detail::NotWellFormed)),
    }
}

/// Returns the reason and detail with which an end disconnects when its session ends.
fn for_session(detail: SessionDetail) -> (Reason, Detail)
    ensures { result ≡ for_session detail }
{
    match detail {
        SessionDetail::VersionDiffers => (Reason::ServiceNotAllowed, Detail::VersionDiffers),
        SessionDetail::OutOfOrder => (Reason::ServiceNotAllowed, Detail::OutOfOrder),
        SessionDetail::NotOfThisPair => (Reason::ServiceNotAllowed, Detail::NotWellFormed),
    }
}
