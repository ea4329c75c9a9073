//! The words for ends, states, phases and causes in scripts, traces and reports.

ghost use Rattle.std.specs.Prelude.{◌≡◌};
ghost use Rattle.std.specs.Option.{option_copied};
ghost use Rattle.pdu_text.specs.Names as names;

use end_settings::Side;
use pdi_session::Phase;
use red_layer::RedEvent;
use red_layer::pdu::RedFault;
use safe_machine::{ConnectionState, DropCause, Step};

/// Returns the word for an end: `il` or `fe`.
pub fn side_name(side: Side) -> &'static str
    // The result of `side_name` is "il" for the interlocking and "fe" for the field element.
    ensures { result.now ≡ names.side_name side }
{
    match side {
        Side::Interlocking => "il",
        Side::FieldElement => "fe",
    }
}

/// Returns the first letter of the labels of an end's PDUs.
pub fn side_letter(side: Side) -> &'static str
    // The result of `side_letter` is "i" for the interlocking and "f" for the field element.
    ensures { result.now ≡ names.side_letter side }
{
    match side {
        Side::Interlocking => "i",
        Side::FieldElement => "f",
    }
}

/// Returns the name of a connection's state.
pub fn state_name(state: ConnectionState) -> &'static str
    // The result of `state_name` is the name of the state: Closed, Down, Start, Up, RetrReq or RetrRun.
    ensures { result.now ≡ names.state_name state }
{
    match state {
        ConnectionState::Closed => "Closed",
        ConnectionState::Down => "Down",
        ConnectionState::Start => "Start",
        ConnectionState::Up => "Up",
        ConnectionState::RetrReq => "RetrReq",
        ConnectionState::RetrRun => "RetrRun",
    }
}

/// Returns the name of a session's phase.
pub fn phase_name(phase: Phase) -> &'static str
    // The result of `phase_name` is the name of the phase, such as Idle, Established or Ended.
    ensures { result.now ≡ names.phase_name phase }
{
    match phase {
        Phase::Idle => "Idle",
        Phase::Checking => "Checking",
        Phase::Requesting => "Requesting",
        Phase::AwaitCheck => "AwaitCheck",
        Phase::AwaitRequest => "AwaitRequest",
        Phase::Refused => "Refused",
        Phase::Initialising => "Initialising",
        Phase::Established => "Established",
        Phase::Ended => "Ended",
    }
}

/// Returns the word for why the redundancy layer dropped a datagram, or `None` if it passed it up or
/// deferred it.
pub fn red_cause(event: RedEvent) -> Option<&'static str>
    // The result of `red_cause` is the word for the cause, such as "old" or "red-Short", and `None` for a
    // datagram passed up or deferred.
    ensures { option_copied result ≡ names.red_cause event }
{
    match event {
        RedEvent::Passed | RedEvent::Wait => None,
        RedEvent::Old => Some("old"),
        RedEvent::Far => Some("far"),
        RedEvent::Full => Some("full"),
        RedEvent::Again => Some("again"),
        RedEvent::Fault(RedFault::Short) => Some("red-Short"),
        RedEvent::Fault(RedFault::Length) => Some("red-Length"),
        RedEvent::Fault(RedFault::Reserve) => Some("red-Reserve"),
    }
}

/// Returns the word for why the safety machine dropped a part, or `None` if it did not.
pub fn step_cause(step: Step) -> Option<&'static str>
    // The result of `step_cause` is the word for the cause of the drop, "gap" for a gap, and `None` for a
    // part that was not dropped.
    ensures { option_copied result ≡ names.step_cause step }
{
    match step {
        Step::Dropped(cause) => Some(drop_cause(cause)),
        Step::Gap => Some("gap"),
        Step::Taken | Step::Left(_, _) | Step::Nothing => None,
    }
}

/// Returns the word for a cause of the safety machine.
fn drop_cause(cause: DropCause) -> &'static str
    ensures { result.now ≡ names.drop_cause cause }
{
    match cause {
        DropCause::Fault(fault) => fault.name(),
        DropCause::Stranger => "stranger",
        DropCause::NotOpened => "down",
        DropCause::Number => "number",
        DropCause::Request => "request",
        DropCause::Answered => "answered",
        DropCause::Below => "below",
    }
}
