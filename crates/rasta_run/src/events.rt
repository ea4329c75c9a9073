//! Which events of an end its log has, and what explains them.

ghost use Rattle.std.specs.Prelude.{◌≡◌};
ghost use Rattle.rasta_run.specs.LogEvents as telling;

use pdi_session::Phase;
use pdu_text::{Cause, Departure, EndEvent};
use red_layer::RedEvent;
use safe_machine::ConnectionState;
use safe_pdu::Leaving;
use stack_end::Leaver;

/// Returns the cause of a drop, if the event is one.
pub fn dropped_cause(happening: EndEvent) -> Option<Cause>
    // `dropped_cause` returns the cause of a dropped datagram, and `None` for any other event.
    ensures { result ≡ telling.cause_of_drop happening }
{
    match happening {
        EndEvent::Dropped(_, cause) => Some(cause),
        _ => None,
    }
}

/// Returns whether an event is one of an opening that is only counted.
pub fn is_of_opening(happening: EndEvent) -> bool
    // `is_of_opening` is true for a state, a phase other than `Established`, an opening and a departure.
    ensures { result ≡ telling.is_of_opening happening }
{
    match happening {
        EndEvent::Phase(phase) => phase != Phase::Established,
        EndEvent::State(_) | EndEvent::Anew(_) | EndEvent::Left(_) | EndEvent::PeerLeft(_) => true,
        _ => false,
    }
}

/// Returns whether an event is that the end disconnects for a fault of the session.
pub fn is_session_fault(event: EndEvent) -> bool
    // `is_session_fault` is true for a departure of the end itself with reason 4, and false for any other event.
    ensures { result ≡ telling.is_session_fault event }
{
    match event {
        EndEvent::Left(leaving) => leaving.reason == 4,
        _ => false,
    }
}

/// Returns whether a cause is that of a datagram that repeats an earlier one.
pub fn is_repeat(cause: Cause) -> bool
    // `is_repeat` is true for datagrams that are old or came before.
    ensures { result ≡ telling.is_repeat cause }
{
    match cause {
        Cause::Early(RedEvent::Old | RedEvent::Again) => true,
        _ => false,
    }
}

/// Returns the number of datagrams dropped for known causes after one more was dropped.
pub fn drops_after(is_new: bool, cause: Cause, drops: u64) -> u64
    // `drops_after` returns one more for a cause that is not new, unless it is that of a copy.
    ensures { result ≡ telling.drops_after is_new cause drops }
{
    if is_new || is_repeat(cause) {
        return drops;
    }
    drops.saturating_add(1)
}

/// Returns the event that explains another one: that of a closed connection, by how the end came to be closed.
pub fn explanation_of(happening: EndEvent, departure: Option<Departure>) -> Option<EndEvent>
    // `explanation_of` returns who disconnects for a connection that is closed, and `None` for any other event.
    ensures { result ≡ telling.explain happening departure }
{
    match (happening, departure) {
        (EndEvent::State(ConnectionState::Closed), Some(Departure::Own(leaving))) => {
            Some(EndEvent::Left(leaving))
        }
        (EndEvent::State(ConnectionState::Closed), Some(Departure::Peer(leaving))) => {
            Some(EndEvent::PeerLeft(leaving))
        }
        _ => None,
    }
}

/// Returns a departure as the log states it.
pub fn logged_departure_of(departure: Option<stack_end::Departure>) -> Option<Departure>
    // `logged_departure_of` returns who disconnected with its reason and detail, and `None` if nobody did.
    ensures { result ≡ telling.logged_departure departure }
{
    match departure {
        None => None,
        Some(departure) => {
            let leaving = Leaving {
                detail: departure.detail,
                reason: departure.reason,
            };
            match departure.by {
                Leaver::Own => Some(Departure::Own(leaving)),
                Leaver::Peer => Some(Departure::Peer(leaving)),
            }
        }
    }
}
