//! The calls of a station, each with the one clause that the laws use. Each follows from the clauses of `Station`.

ghost use Rattle.std.specs.Prelude.{IfOk, MatchResult};
ghost use Rattle.stack_engine.specs.Events.{call_of};
ghost use Rattle.end_for_callers.specs.CallResults.{IsAnswered, IsOpened, IsPulled, IsTaken};

use end_for_callers::{CallFault, Outcome, Rooms, Station, StationFault, TooSmall};
use end_settings::{EndConfig, Side};
use octets::Milliseconds;
use pdi_session::MessageType;
use stack_engine::Call;
use std::alloc::Global;

/// Opens a station, as `Station::open` does.
///
/// # Errors
///
/// As `Station::open`.
pub fn open(
    alloc: Global,
    config: &EndConfig,
    side: Side,
    first_sn: u32,
    rooms: Rooms,
    now: Milliseconds,
) -> Result<Station, StationFault>
    // If the opening succeeds, it is one that the laws allow as a step: the station is new, its first datagrams wait
    // or are counted as not sent, and no telegram waits.
    ensures { IfOk result (λ s. IsOpened side config.now first_sn rooms now s) }
{
    Station::open(alloc, config, side, first_sn, rooms, now)
}

/// Calls a station: `arrive`, `tick`, `put`, `init_done` or `close`.
///
/// # Errors
///
/// As the method of `Station` that is called; nothing has changed then.
pub fn call(station: &mut Station, call: &Call<'_>, now: Milliseconds) -> Result<Outcome, CallFault>
    // The call is a step that the laws allow: accepted with the end's turn, or refused with the first reason that
    // applies and nothing changed.
    ensures { IsAnswered (call_of call.now now) result station.old station.new }
{
    match *call {
        Call::Close => station.close(now),
        Call::Put { kind, payload } => station.put(kind, payload, now),
        Call::InitDone => station.init_done(now),
        Call::Tick => station.tick(now),
        Call::Deliver { channel, octets } => station.arrive(channel, octets, now),
    }
}

/// Takes the oldest telegram that waits, as `Station::take` does.
///
/// # Errors
///
/// - `TooSmall` if the buffer is shorter than the telegram's payload.
pub fn take(
    station: &mut Station,
    buffer: &mut [u8],
) -> Result<Option<(MessageType, usize)>, TooSmall>
    // `take` is a step that the laws allow: it removes at most the oldest telegram, and changes nothing else of the
    // station.
    ensures { IsTaken buffer.old result buffer.new station.old station.new }
{
    station.take(buffer)
}

/// Takes the oldest datagram that waits to be sent, as `Station::next_datagram` does.
///
/// # Errors
///
/// - `TooSmall` if the buffer is shorter than the datagram.
pub fn next_datagram(
    station: &mut Station,
    buffer: &mut [u8],
) -> Result<Option<(usize, usize)>, TooSmall>
    // `next_datagram` is a step that the laws allow: it removes at most the oldest datagram, and changes nothing else
    // of the station.
    ensures { IsPulled buffer.old result buffer.new station.old station.new }
{
    station.next_datagram(buffer)
}
