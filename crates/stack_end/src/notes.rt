//! Making notes of an end's work and passing them to its channels.

ghost use Rattle.std.specs.Prelude.{◌≡◌};

use crate::judge::JudgedMessages;
use channels::{Channels, Note};
use octets::limits::SAFE_HEADER;
use pdi_session::Phase;
use pdi_session::packing::unpack;
use red_layer::RedEvent;
use safe_machine::{ConnectionState, Step};

/// State and phase of an end at one moment.
#[derive(Clone, Copy)]
pub(crate) struct EndMoment {
    /// The state of its connection.
    pub(crate) state: ConnectionState,
    /// The phase of its session.
    pub(crate) phase: Phase,
}

/// Notes the state of an end that was opened.
pub(crate) fn report_opened<C: Channels>(channels: &mut C, state: ConnectionState)
    ensures { C.told channels.new ≡ C.told channels.old }
{
    channels.note(&Note::State(state));
}

/// Notes what the redundancy layer did with a datagram.
pub(crate) fn report_event<C: Channels>(channels: &mut C, octets: &[u8], event: RedEvent)
    ensures { C.told channels.new ≡ C.told channels.old }
{
    if !channels.hears_notes() {
        return;
    }
    let number = match red_layer::pdu::decode(octets) {
        Ok(pdu) => Some(pdu.seq),
        Err(_) => None,
    };
    channels.note(&Note::Redundancy(number, event));
}

/// Notes the machine's result for a part, then for each message of its unit that it was taken, or the phase that the
/// session changed to.
pub(crate) fn report_step<C: Channels>(
    channels: &mut C,
    number: u32,
    step: Step,
    part: &[u8],
    code: usize,
    phase: Phase,
    judged: &JudgedMessages,
)
    ensures { C.told channels.new ≡ C.told channels.old }
{
    if !channels.hears_notes() {
        return;
    }
    channels.note(&Note::Step(number, step));
    let judged = judged.as_slice();
    if judged.is_empty() {
        return;
    }
    let end = part.len().saturating_sub(code);
    let Some(unit) = part.get(SAFE_HEADER..end) else {
        return;
    };
    let Ok(messages) = unpack(unit) else {
        return;
    };
    let mut before = phase;
    for (message, judged) in messages.iter().zip(judged) {
        if judged.is_taken {
            report_take(channels, message);
        } else if judged.phase != before {
            channels.note(&Note::Phase(judged.phase));
        }
        before = judged.phase;
    }
}

/// Notes a telegram that was taken.
fn report_take<C: Channels>(channels: &mut C, message: &[u8])
    ensures { C.told channels.new ≡ C.told channels.old }
{
    if let Ok(telegram) = pdi_session::telegram::decode(message) {
        channels.note(&Note::Take(telegram.kind, telegram.payload));
    }
}

/// Notes state and phase, each if it has changed.
pub(crate) fn report_change<C: Channels>(channels: &mut C, before: EndMoment, after: EndMoment)
    ensures { C.told channels.new ≡ C.told channels.old }
{
    if !channels.hears_notes() {
        return;
    }
    if after.state != before.state {
        channels.note(&Note::State(after.state));
    }
    if after.phase != before.phase {
        channels.note(&Note::Phase(after.phase));
    }
}
