//! The functions that C calls.

ghost use Rattle.std.specs.Prelude.{◌≡◌, ◌≢◌, ◌⊎◌, ◌++◌, IfErr, IfOk, MatchResult, Some, drop, take, length, min};
ghost use Rattle.bekwidas.specs.Answers.{AnswersAgreed, AnswersArrive, AnswersTick, AnswersPut, AnswersInitDone, AnswersClose, AnswersReopen, AnswersTake, AnswersNextDatagram, AnswersNextDeadline, AnswersState, AnswersPhase, AnswersSettled, AnswersCounts, AnswersConfirmed, AnswersConfirmedTime, AnswersDeparture, AnswersHearNotes, AnswersNextNote, AnswersStale, AnswersStatistics, AnswersTotals, StaysOpen};
ghost use Rattle.bekwidas.specs.Texts.{text_of};
ghost use Rattle.bekwidas.specs.Codes.{code_to_open};
ghost use Rattle.bekwidas.specs.Held.{IsOpened};
ghost use Rattle.bekwidas.specs.declared.exports.TheConstants.{VERSION};
ghost use Rattle.bekwidas.specs.declared.codes.TheConstants.{ALREADY_OPEN, NO_MEMORY, NOTHING, NOT_OPEN, OK, TOO_SMALL};

use crate::agreement::{PlainAgreement, plain_agreement};
use crate::codes::{
    ALREADY_OPEN, BAD_SETTINGS, NO_MEMORY, NOT_OPEN, NOTHING, OK, SETTINGS_SIZE, TOO_SMALL,
    of_call, of_fault, of_leaver, of_opening, of_phase, of_state, of_version, text_of,
};
use crate::handle::Slot;
use crate::notes::{PlainNote, plain_note};
use crate::statistics::{PlainStatistics, plain_statistics};
use end_for_callers::{PLAIN_SETTINGS_SIZE, PlainSettings, Station, TooSmall};
use std::alloc::Global;

/// The version: major, minor and patch, as 0xMMmmpp.
const VERSION: u32 = 0x0003_00;

/// How much waits for the caller, how much was lost, and how often the end was opened.
#[repr(C)]
#[derive(Drop)]
pub struct Counts {
    /// The number of telegrams that wait.
    pub telegrams: u64,
    /// The number of datagrams that wait.
    pub datagrams: u64,
    /// The number of datagrams that found no room since the opening.
    pub unsent: u64,
    /// How often the end was opened.
    pub openings: u64,
}

/// Who ended a connection, why and when.
#[repr(C)]
#[derive(Drop)]
pub struct PlainDeparture {
    /// The own time at which the end was closed, in milliseconds.
    pub time: u64,
    /// Who ended the connection: 1 for this end, 2 for the peer.
    pub by: u32,
    /// The number of the reason, as in a DiscReq.
    pub reason: u32,
    /// The number of the detail, as in a DiscReq.
    pub detail: u32,
    /// The peer's PDI version, if the session was ended because the versions differ; otherwise 256.
    pub version: u32,
}

/// Returns the version of this library.
#[unsafe(no_mangle)]
pub extern "C" fn bekr_version() -> u32
    // `bekr_version` returns the constant 0.3.0 as 0xMMmmpp.
    ensures { result ≡ VERSION }
{
    let version = VERSION;
    version
}

/// Opens an end in an empty slot, as `Station::open` does. No other function allocates.
#[unsafe(no_mangle)]
pub extern "C" fn bekr_open(
    alloc: Global,
    slot: &mut Slot,
    settings: &PlainSettings,
    now: u64,
) -> i32
    // If the slot already holds an end, `bekr_open` returns `ALREADY_OPEN`.
    ensures full { slot.old.is_open ≡ 1 → result ≡ ALREADY_OPEN }
    // For an empty slot the result is the code of the first reason against settings and time, or OK
    // (`code_to_open`). Instead of OK it can be `NO_MEMORY`.
    ensures answer { slot.old.is_open ≢ 1 → (result ≡ code_to_open settings.now now)
        ⊎ ((code_to_open settings.now now ≡ OK) × (result ≡ NO_MEMORY)) }
    // If the result is OK, the slot holds a new end, opened with exactly the content of `settings` (`IsOpened`).
    ensures opened { result ≡ OK → (slot.new.is_open ≡ 1) × IsOpened settings.now now slot.new.handle.held }
    // With any result except OK the slot is unchanged.
    ensures refused { result ≢ OK → slot.new ≡ slot.old }
{
    if slot.is_open() {
        return ALREADY_OPEN;
    }
    match open_station(alloc, settings, now) {
        Ok(station) => {
            slot.put(station);
            OK
        }
        Err(code) => code,
    }
}

/// Opens a station with these settings, or returns the code of the refusal.
fn open_station(alloc: Global, settings: &PlainSettings, now: u64) -> Result<Box<Station>, i32>
    // A station is returned only if `code_to_open` is OK. Otherwise the result is that code, or `NO_MEMORY` if the
    // code is OK.
    ensures answer { MatchResult result (λ _. code_to_open settings.now now ≡ OK) (λ code. (code ≡ code_to_open settings.now now)
        ⊎ ((code_to_open settings.now now ≡ OK) × (code ≡ NO_MEMORY))) }
    // The station returned is new, and opened with exactly the content of `settings`.
    ensures stands { IfOk result (λ station. IsOpened settings.now now (Some station.value)) }
    // An error is never the code OK.
    ensures refused { IfErr result (λ code. code ≢ OK) }
{
    if settings.size != PLAIN_SETTINGS_SIZE {
        return Err(SETTINGS_SIZE);
    }
    let Some(opening) = settings.opening() else {
        return Err(BAD_SETTINGS);
    };
    match Station::open(
        alloc,
        &opening.config,
        opening.side,
        opening.first_sn,
        opening.rooms,
        now,
    ) {
        Ok(station) => match Box::new(alloc, station) {
            Ok(station) => Ok(station),
            Err(_) => Err(NO_MEMORY),
        },
        Err(fault) => Err(of_opening(fault)),
    }
}

/// Frees the memory of the end. It sends nothing.
#[unsafe(no_mangle)]
pub extern "C" fn bekr_free(alloc: Global, slot: &mut Slot)
    // After `bekr_free` the slot holds no end.
    ensures { slot.new.is_open ≡ 0 }
{
    let _station = slot.take(alloc);
}

/// Processes a received datagram, as `Station::arrive` does.
#[unsafe(no_mangle)]
pub extern "C" fn bekr_arrive(
    alloc: Global,
    slot: &mut Slot,
    channel: u32,
    octets: &[u8],
    now: u64,
) -> i32
    // A slot that holds an end keeps it. The end receives the datagram, and the code says if something found no
    // room. If `refusal` gives a reason, its code is returned and nothing changes.
    ensures open { slot.old.is_open ≡ 1 → StaysOpen (AnswersArrive channel octets.now now result) slot.old slot.new }
    // If the slot holds no end, `bekr_arrive` returns `NOT_OPEN`, and the slot still holds none.
    ensures none { slot.old.is_open ≢ 1 → (result ≡ NOT_OPEN) × (slot.new.is_open ≡ 0) }
{
    let Some(mut station) = slot.take(alloc) else {
        return NOT_OPEN;
    };
    let code = of_call(station.arrive(channel as usize, octets, now));
    slot.put(station);
    code
}

/// Lets time pass, as `Station::tick` does.
#[unsafe(no_mangle)]
pub extern "C" fn bekr_tick(alloc: Global, slot: &mut Slot, now: u64) -> i32
    // A slot that holds an end keeps it. Time passes for it, and the code says if something found no room. A tick
    // with a reason in `refusal` returns its code and changes nothing.
    ensures open { slot.old.is_open ≡ 1 → StaysOpen (AnswersTick now result) slot.old slot.new }
    // If the slot holds no end, `bekr_tick` returns `NOT_OPEN`, and the slot still holds none.
    ensures none { slot.old.is_open ≢ 1 → (result ≡ NOT_OPEN) × (slot.new.is_open ≡ 0) }
{
    let Some(mut station) = slot.take(alloc) else {
        return NOT_OPEN;
    };
    let code = of_call(station.tick(now));
    slot.put(station);
    code
}

/// Puts a telegram, as `Station::put` does.
#[unsafe(no_mangle)]
pub extern "C" fn bekr_put(
    alloc: Global,
    slot: &mut Slot,
    kind: u16,
    payload: &[u8],
    now: u64,
) -> i32
    // A slot that holds an end keeps it. The telegram is put, and the code says if something found no room. If
    // `refusal_to_put` gives a reason, its code is returned and nothing changes.
    ensures open { slot.old.is_open ≡ 1 → StaysOpen (AnswersPut kind payload.now now result) slot.old slot.new }
    // If the slot holds no end, `bekr_put` returns `NOT_OPEN`, and the slot still holds none.
    ensures none { slot.old.is_open ≢ 1 → (result ≡ NOT_OPEN) × (slot.new.is_open ≡ 0) }
{
    let Some(mut station) = slot.take(alloc) else {
        return NOT_OPEN;
    };
    let code = of_call(station.put(kind, payload, now));
    slot.put(station);
    code
}

/// Completes the initialisation, as `Station::init_done` does.
#[unsafe(no_mangle)]
pub extern "C" fn bekr_init_done(alloc: Global, slot: &mut Slot, now: u64) -> i32
    // A slot that holds an end keeps it. Its initialisation is completed, and the code says if something found no
    // room. If `refusal_to_init` gives a reason, its code is returned and nothing changes.
    ensures open { slot.old.is_open ≡ 1 → StaysOpen (AnswersInitDone now result) slot.old slot.new }
    // If the slot holds no end, `bekr_init_done` returns `NOT_OPEN`, and the slot still holds none.
    ensures none { slot.old.is_open ≢ 1 → (result ≡ NOT_OPEN) × (slot.new.is_open ≡ 0) }
{
    let Some(mut station) = slot.take(alloc) else {
        return NOT_OPEN;
    };
    let code = of_call(station.init_done(now));
    slot.put(station);
    code
}

/// Closes the connection, as `Station::close` does.
#[unsafe(no_mangle)]
pub extern "C" fn bekr_close(alloc: Global, slot: &mut Slot, now: u64) -> i32
    // A slot that holds an end keeps it. Its connection is closed, and the code says if something found no room. A
    // time that is not in range returns its code and changes nothing (`refusal_to_close`).
    ensures open { slot.old.is_open ≡ 1 → StaysOpen (AnswersClose now result) slot.old slot.new }
    // If the slot holds no end, `bekr_close` returns `NOT_OPEN`, and the slot still holds none.
    ensures none { slot.old.is_open ≢ 1 → (result ≡ NOT_OPEN) × (slot.new.is_open ≡ 0) }
{
    let Some(mut station) = slot.take(alloc) else {
        return NOT_OPEN;
    };
    let code = of_call(station.close(now));
    slot.put(station);
    code
}

/// Opens the end again with the settings that it has, as `Station::reopen` does.
#[unsafe(no_mangle)]
pub extern "C" fn bekr_reopen(alloc: Global, slot: &mut Slot, first_sn: u32, now: u64) -> i32
    // A slot that holds an end keeps it. The end opens again, with nothing of the old connection, and the code is OK. If
    // `refusal_to_reopen` gives a reason, its code is returned and nothing changes.
    ensures open { slot.old.is_open ≡ 1 → StaysOpen (AnswersReopen first_sn now result) slot.old slot.new }
    // If the slot holds no end, `bekr_reopen` returns `NOT_OPEN`, and the slot still holds none.
    ensures none { slot.old.is_open ≢ 1 → (result ≡ NOT_OPEN) × (slot.new.is_open ≡ 0) }
{
    let Some(mut station) = slot.take(alloc) else {
        return NOT_OPEN;
    };
    let reopened = station.reopen(first_sn, now);
    slot.put(station);
    match reopened {
        Ok(()) => OK,
        Err(fault) => of_fault(fault),
    }
}

/// Fetches the oldest telegram, as `Station::take` does.
#[unsafe(no_mangle)]
pub extern "C" fn bekr_take(
    alloc: Global,
    slot: &mut Slot,
    kind: &mut u16,
    payload: &mut [u8],
    length: &mut usize,
) -> i32
    // A slot that holds an end keeps it. OK means that the oldest telegram was fetched. `TOO_SMALL` writes its
    // size to `length`, and `NOTHING` means that none waits; both leave the station unchanged.
    ensures open { slot.old.is_open ≡ 1 → StaysOpen (AnswersTake kind.old kind.new length.old length.new payload.old payload.new result) slot.old slot.new }
    // If the slot holds no end, `bekr_take` returns `NOT_OPEN` and writes nothing, and the slot still holds none.
    ensures none { slot.old.is_open ≢ 1 → (result ≡ NOT_OPEN) × (slot.new.is_open ≡ 0) × (kind.new ≡ kind.old)
        × (length.new ≡ length.old) × (payload.new ≡ payload.old) }
{
    let Some(mut station) = slot.take(alloc) else {
        return NOT_OPEN;
    };
    let taken = station.take(payload);
    slot.put(station);
    match taken {
        Ok(None) => NOTHING,
        Ok(Some((tag, size))) => {
            *kind = tag;
            *length = size;
            OK
        }
        Err(TooSmall { needed }) => {
            *length = needed;
            TOO_SMALL
        }
    }
}

/// Fetches the oldest datagram, as `Station::next_datagram` does.
#[unsafe(no_mangle)]
pub extern "C" fn bekr_next_datagram(
    alloc: Global,
    slot: &mut Slot,
    channel: &mut u64,
    octets: &mut [u8],
    length: &mut usize,
) -> i32
    // A slot that holds an end keeps it. OK means that the oldest datagram was fetched. `TOO_SMALL` writes its
    // size to `length`, and `NOTHING` means that none waits; both leave the queue of datagrams unchanged.
    ensures open { slot.old.is_open ≡ 1 → StaysOpen (AnswersNextDatagram channel.old channel.new length.old length.new octets.old octets.new result) slot.old slot.new }
    // If the slot holds no end, `bekr_next_datagram` returns `NOT_OPEN` and writes nothing, and the slot still
    // holds none.
    ensures none { slot.old.is_open ≢ 1 → (result ≡ NOT_OPEN) × (slot.new.is_open ≡ 0) × (channel.new ≡ channel.old)
        × (length.new ≡ length.old) × (octets.new ≡ octets.old) }
{
    let Some(mut station) = slot.take(alloc) else {
        return NOT_OPEN;
    };
    let taken = station.next_datagram(octets);
    slot.put(station);
    match taken {
        Ok(None) => NOTHING,
        Ok(Some((tag, size))) => {
            *channel = tag as u64;
            *length = size;
            OK
        }
        Err(TooSmall { needed }) => {
            *length = needed;
            TOO_SMALL
        }
    }
}

/// Returns the next time at which `bekr_tick` has something to do.
#[unsafe(no_mangle)]
pub extern "C" fn bekr_next_deadline(alloc: Global, slot: &mut Slot, deadline: &mut u64) -> i32
    // A slot that holds an end keeps it. OK writes its deadline, and `NOTHING` means that it has none
    // (`IsNextTick`). The end does not change.
    ensures open { slot.old.is_open ≡ 1 → StaysOpen (AnswersNextDeadline deadline.old deadline.new result) slot.old slot.new }
    // If the slot holds no end, `bekr_next_deadline` returns `NOT_OPEN` and writes nothing, and the slot still
    // holds none.
    ensures none { slot.old.is_open ≢ 1 → (result ≡ NOT_OPEN) × (slot.new.is_open ≡ 0) × (deadline.new ≡ deadline.old) }
{
    let Some(station) = slot.take(alloc) else {
        return NOT_OPEN;
    };
    let next = station.next_deadline();
    slot.put(station);
    match next {
        Some(time) => {
            *deadline = time;
            OK
        }
        None => NOTHING,
    }
}

/// Returns the state of the connection.
#[unsafe(no_mangle)]
pub extern "C" fn bekr_state(alloc: Global, slot: &mut Slot) -> i32
    // A slot that holds an end keeps it. The result is the number of its connection state, and the end does not
    // change.
    ensures open { slot.old.is_open ≡ 1 → StaysOpen (AnswersState result) slot.old slot.new }
    // If the slot holds no end, `bekr_state` returns `NOT_OPEN`, and the slot still holds none.
    ensures none { slot.old.is_open ≢ 1 → (result ≡ NOT_OPEN) × (slot.new.is_open ≡ 0) }
{
    let Some(station) = slot.take(alloc) else {
        return NOT_OPEN;
    };
    let state = of_state(station.state());
    slot.put(station);
    state
}

/// Returns the phase of the session.
#[unsafe(no_mangle)]
pub extern "C" fn bekr_phase(alloc: Global, slot: &mut Slot) -> i32
    // A slot that holds an end keeps it. The result is the number of its session phase, and the end does not
    // change.
    ensures open { slot.old.is_open ≡ 1 → StaysOpen (AnswersPhase result) slot.old slot.new }
    // If the slot holds no end, `bekr_phase` returns `NOT_OPEN`, and the slot still holds none.
    ensures none { slot.old.is_open ≢ 1 → (result ≡ NOT_OPEN) × (slot.new.is_open ≡ 0) }
{
    let Some(station) = slot.take(alloc) else {
        return NOT_OPEN;
    };
    let phase = of_phase(station.phase());
    slot.put(station);
    phase
}

/// Returns 1 if the end is not closed, no message waits, and no unit is unconfirmed, otherwise 0.
#[unsafe(no_mangle)]
pub extern "C" fn bekr_settled(alloc: Global, slot: &mut Slot) -> i32
    // A slot that holds an end keeps it. The result is 1 if it is settled and 0 if not, and the end does not
    // change.
    ensures open { slot.old.is_open ≡ 1 → StaysOpen (AnswersSettled result) slot.old slot.new }
    // If the slot holds no end, `bekr_settled` returns `NOT_OPEN`, and the slot still holds none.
    ensures none { slot.old.is_open ≢ 1 → (result ≡ NOT_OPEN) × (slot.new.is_open ≡ 0) }
{
    let Some(station) = slot.take(alloc) else {
        return NOT_OPEN;
    };
    let settled = station.settled();
    slot.put(station);
    if settled { 1 } else { 0 }
}

/// Returns how much waits for the caller, how much was lost, and how often the end was opened.
#[unsafe(no_mangle)]
pub extern "C" fn bekr_counts(alloc: Global, slot: &mut Slot, counts: &mut Counts) -> i32
    // A slot that holds an end keeps it. The four numbers are its waiting telegrams, waiting datagrams, unsent datagrams
    // and openings, and the end does not change.
    ensures open { slot.old.is_open ≡ 1 → StaysOpen (AnswersCounts counts.new result) slot.old slot.new }
    // If the slot holds no end, `bekr_counts` returns `NOT_OPEN` and writes nothing, and the slot still holds
    // none.
    ensures none { slot.old.is_open ≢ 1 → (result ≡ NOT_OPEN) × (slot.new.is_open ≡ 0) × (counts.new ≡ counts.old) }
{
    let Some(station) = slot.take(alloc) else {
        return NOT_OPEN;
    };
    *counts = Counts {
        telegrams: station.telegrams() as u64,
        datagrams: station.datagrams() as u64,
        unsent: station.unsent(),
        openings: station.openings(),
    };
    slot.put(station);
    OK
}

/// Returns 1 if the end is due to be opened again, otherwise 0.
#[unsafe(no_mangle)]
pub extern "C" fn bekr_is_stale(alloc: Global, slot: &mut Slot) -> i32
    // A slot that holds an end keeps it. The result is 1 if its end is closed or can miss the next request, and has waited
    // long enough, and 0 if not, and the end does not change.
    ensures open { slot.old.is_open ≡ 1 → StaysOpen (AnswersStale result) slot.old slot.new }
    // If the slot holds no end, `bekr_is_stale` returns `NOT_OPEN`, and the slot still holds none.
    ensures none { slot.old.is_open ≢ 1 → (result ≡ NOT_OPEN) × (slot.new.is_open ≡ 0) }
{
    let Some(station) = slot.take(alloc) else {
        return NOT_OPEN;
    };
    let stale = station.is_due();
    slot.put(station);
    if stale { 1 } else { 0 }
}

/// Returns how many of the telegrams put since the opening the peer has certainly taken.
#[unsafe(no_mangle)]
pub extern "C" fn bekr_confirmed(alloc: Global, slot: &mut Slot, count: &mut u64) -> i32
    // A slot that holds an end keeps it. The result is OK, the number of its telegrams that are certain is written,
    // and the end does not change.
    ensures open { slot.old.is_open ≡ 1 → StaysOpen (AnswersConfirmed count.new result) slot.old slot.new }
    // If the slot holds no end, `bekr_confirmed` returns `NOT_OPEN` and writes nothing, and the slot still holds
    // none.
    ensures none { slot.old.is_open ≢ 1 → (result ≡ NOT_OPEN) × (slot.new.is_open ≡ 0) × (count.new ≡ count.old) }
{
    let Some(station) = slot.take(alloc) else {
        return NOT_OPEN;
    };
    *count = station.confirmed();
    slot.put(station);
    OK
}

/// Returns the own time that the peer last confirmed.
#[unsafe(no_mangle)]
pub extern "C" fn bekr_confirmed_time(alloc: Global, slot: &mut Slot, time: &mut u64) -> i32
    // A slot that holds an end keeps it. The result is OK, the confirmed timestamp of its connection is written, and
    // the end does not change.
    ensures open { slot.old.is_open ≡ 1 → StaysOpen (AnswersConfirmedTime time.new result) slot.old slot.new }
    // If the slot holds no end, `bekr_confirmed_time` returns `NOT_OPEN` and writes nothing, and the slot still
    // holds none.
    ensures none { slot.old.is_open ≢ 1 → (result ≡ NOT_OPEN) × (slot.new.is_open ≡ 0) × (time.new ≡ time.old) }
{
    let Some(station) = slot.take(alloc) else {
        return NOT_OPEN;
    };
    *time = station.confirmed_time();
    slot.put(station);
    OK
}

/// Returns who ended the connection, why and when.
#[unsafe(no_mangle)]
pub extern "C" fn bekr_departure(
    alloc: Global,
    slot: &mut Slot,
    departure: &mut PlainDeparture,
) -> i32
    // A slot that holds an end keeps it. OK writes the departure that the end has recorded, or else the latest one before
    // its last opening; `NOTHING` means that there is none, and writes nothing. The end does not change.
    ensures open { slot.old.is_open ≡ 1 → StaysOpen (AnswersDeparture departure.old departure.new result) slot.old slot.new }
    // If the slot holds no end, `bekr_departure` returns `NOT_OPEN` and writes nothing, and the slot still holds
    // none.
    ensures none { slot.old.is_open ≢ 1 → (result ≡ NOT_OPEN) × (slot.new.is_open ≡ 0) × (departure.new ≡ departure.old) }
{
    let Some(station) = slot.take(alloc) else {
        return NOT_OPEN;
    };
    let left = station.departure();
    slot.put(station);
    match left {
        Some(left) => {
            *departure = PlainDeparture {
                time: left.time,
                by: of_leaver(left.by),
                reason: u32::from(left.reason),
                detail: u32::from(left.detail),
                version: of_version(left.version),
            };
            OK
        }
        None => NOTHING,
    }
}

/// Returns what the two ends agreed on in the version check.
#[unsafe(no_mangle)]
pub extern "C" fn bekr_agreed(alloc: Global, slot: &mut Slot, agreement: &mut PlainAgreement) -> i32
    // A slot that holds an end keeps it. OK writes the version and the checksum that its session has agreed on; `NOTHING`
    // means that it has agreed on none yet, and writes nothing. The end does not change.
    ensures open { slot.old.is_open ≡ 1 → StaysOpen (AnswersAgreed agreement.old agreement.new result) slot.old slot.new }
    // If the slot holds no end, `bekr_agreed` returns `NOT_OPEN` and writes nothing, and the slot still holds none.
    ensures none { slot.old.is_open ≢ 1 → (result ≡ NOT_OPEN) × (slot.new.is_open ≡ 0) × (agreement.new ≡ agreement.old) }
{
    let Some(station) = slot.take(alloc) else {
        return NOT_OPEN;
    };
    let code = match station.agreed() {
        Some(agreed) => {
            *agreement = plain_agreement(&agreed);
            OK
        }
        None => NOTHING,
    };
    slot.put(station);
    code
}

/// Returns all that the end has counted since its opening.
#[unsafe(no_mangle)]
pub extern "C" fn bekr_statistics(
    alloc: Global,
    slot: &mut Slot,
    statistics: &mut PlainStatistics,
) -> i32
    // A slot that holds an end keeps it. The numbers are the counts of the end, and the end does not change.
    ensures open { slot.old.is_open ≡ 1 → StaysOpen (AnswersStatistics statistics.new result) slot.old slot.new }
    // If the slot holds no end, `bekr_statistics` returns `NOT_OPEN` and writes nothing, and the slot still holds
    // none.
    ensures none { slot.old.is_open ≢ 1 → (result ≡ NOT_OPEN) × (slot.new.is_open ≡ 0) × (statistics.new ≡ statistics.old) }
{
    let Some(station) = slot.take(alloc) else {
        return NOT_OPEN;
    };
    *statistics = plain_statistics(station.statistics());
    slot.put(station);
    OK
}

/// Returns the sums of what the end has counted in all its openings.
#[unsafe(no_mangle)]
pub extern "C" fn bekr_totals(alloc: Global, slot: &mut Slot, totals: &mut PlainStatistics) -> i32
    // A slot that holds an end keeps it. The numbers are the sums of its counts over all openings, and the end does not
    // change.
    ensures open { slot.old.is_open ≡ 1 → StaysOpen (AnswersTotals totals.new result) slot.old slot.new }
    // If the slot holds no end, `bekr_totals` returns `NOT_OPEN` and writes nothing, and the slot still holds none.
    ensures none { slot.old.is_open ≢ 1 → (result ≡ NOT_OPEN) × (slot.new.is_open ≡ 0) × (totals.new ≡ totals.old) }
{
    let Some(station) = slot.take(alloc) else {
        return NOT_OPEN;
    };
    *totals = plain_statistics(station.totals());
    slot.put(station);
    OK
}

/// Keeps notes from now on, or no longer, as `Station::hear_notes` does.
#[unsafe(no_mangle)]
pub extern "C" fn bekr_hear_notes(alloc: Global, slot: &mut Slot, hears: u32) -> i32
    // A slot that holds an end keeps it. The result is OK. Notes are kept if and only if `hears` is not 0, and none
    // waits; nothing else changes.
    ensures open { slot.old.is_open ≡ 1 → StaysOpen (AnswersHearNotes hears result) slot.old slot.new }
    // If the slot holds no end, `bekr_hear_notes` returns `NOT_OPEN`, and the slot still holds none.
    ensures none { slot.old.is_open ≢ 1 → (result ≡ NOT_OPEN) × (slot.new.is_open ≡ 0) }
{
    let Some(mut station) = slot.take(alloc) else {
        return NOT_OPEN;
    };
    station.hear_notes(hears != 0);
    slot.put(station);
    OK
}

/// Fetches the oldest note, as `Station::next_note` does.
#[unsafe(no_mangle)]
pub extern "C" fn bekr_next_note(alloc: Global, slot: &mut Slot, note: &mut PlainNote) -> i32
    // A slot that holds an end keeps it. OK writes the note that is next and removes it; `NOTHING` means that there is
    // none, and writes nothing. Nothing else changes.
    ensures open { slot.old.is_open ≡ 1 → StaysOpen (AnswersNextNote note.old note.new result) slot.old slot.new }
    // If the slot holds no end, `bekr_next_note` returns `NOT_OPEN` and writes nothing, and the slot still holds none.
    ensures none { slot.old.is_open ≢ 1 → (result ≡ NOT_OPEN) × (slot.new.is_open ≡ 0) × (note.new ≡ note.old) }
{
    let Some(mut station) = slot.take(alloc) else {
        return NOT_OPEN;
    };
    let next = station.next_note();
    slot.put(station);
    match next {
        Some(next) => {
            *note = plain_note(next);
            OK
        }
        None => NOTHING,
    }
}

/// Writes the meaning of a code, cut to the buffer, and returns the length of the complete text.
#[unsafe(no_mangle)]
pub extern "C" fn bekr_fault_text(code: i32, text: &mut [u8]) -> usize
    // `bekr_fault_text` returns the length of the text of the code, even if it does not fit.
    ensures length { result ≡ length (text_of code) }
    // The buffer starts with the text, cut to the buffer's length, and is unchanged after it.
    ensures written { let size = min (length (text_of code)) (length text.old)
        in text.new ≡ take size (text_of code) ++ drop size text.old }
{
    let said = text_of(code).as_bytes();
    let size = std::cmp::min(said.len(), text.len());
    text[..size].copy_from_slice(&said[..size]);
    said.len()
}
