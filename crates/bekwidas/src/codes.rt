//! The codes that the exported functions return.

ghost use Rattle.std.specs.Prelude.{◌≡◌, ◌≢◌, ◌<ℤ◌, pos, is_ok, false, Ok};
ghost use Rattle.end_for_callers.specs.declared.Outcome.TheVariants.{Whole, Unsent};
ghost use Rattle.bekwidas.specs.declared.codes.TheConstants.{LOST, OK, UNSENT};
ghost use Rattle.bekwidas.specs.Numbers.{DoneAre, RefusalsAre};
ghost use Rattle.bekwidas.specs.Texts.{text_of};
ghost use Rattle.bekwidas.specs.Codes.{code_of_answer, code_of_fault, code_of_leaver, code_of_opening, code_of_outcome, code_of_phase, code_of_state, code_of_version};

use end_for_callers::{CallFault, Outcome, StationFault};
use pdi_session::{InitFault, Phase, PutFault};
use safe_machine::ConnectionState;
use stack_end::Leaver;

/// Done.
pub const OK: i32 = 0;
/// Nothing waits, or there is no deadline.
pub const NOTHING: i32 = 1;
/// Done, but a datagram found no room.
pub const UNSENT: i32 = 2;
/// An end opens with these settings, but works badly.
pub const UNWISE: i32 = 3;
/// The slot holds no end.
pub const NOT_OPEN: i32 = -3;
/// The slot already holds an end.
pub const ALREADY_OPEN: i32 = -4;
/// The settings do not have this version's size.
pub const SETTINGS_SIZE: i32 = -5;
/// The settings are invalid.
pub const BAD_SETTINGS: i32 = -6;
/// There is room for too few telegrams or datagrams.
pub const ROOMS: i32 = -7;
/// An allocation failed.
pub const NO_MEMORY: i32 = -8;
/// The time is before that of the last accepted call, or above 2^62.
pub const TIME: i32 = -9;
/// There is too little room for telegrams.
pub const TAKE_FIRST: i32 = -10;
/// There is too little room for datagrams.
pub const SEND_FIRST: i32 = -11;
/// A telegram found no room.
pub const LOST: i32 = -12;
/// The buffer is too small.
pub const TOO_SMALL: i32 = -13;
/// The phase is not one in which this end may put.
pub const NOT_ESTABLISHED: i32 = -14;
/// 64 messages wait already.
pub const FULL: i32 = -15;
/// The message type is one of the five of the establishment.
pub const RESERVED_KIND: i32 = -16;
/// The payload has more than 357 bytes.
pub const TOO_LONG: i32 = -17;
/// This is not a field element in Initialising.
pub const NOT_INITIALISING: i32 = -18;

/// Returns the code of a call's result.
pub fn of_call(answer: Result<Outcome, CallFault>) -> i32
    // The result is the code of the outcome or of the fault (`code_of_answer`).
    ensures code { result ≡ code_of_answer answer }
    // The code `OK` means that the call was accepted and everything found room.
    ensures whole { result ≡ OK → answer ≡ Ok Whole }
    // The code `UNSENT` means that the call was accepted and a datagram found no room.
    ensures unsent { result ≡ UNSENT → answer ≡ Ok Unsent }
    // A code below 0 other than `LOST` means that the call was refused.
    ensures refused { result <ℤ pos 0 → result ≢ LOST → is_ok answer ≡ false }
{
    match answer {
        Ok(outcome) => of_outcome(outcome),
        Err(fault) => of_fault(fault),
    }
}

/// Returns the code of an outcome.
fn of_outcome(outcome: Outcome) -> i32
    ensures { result ≡ code_of_outcome outcome }
{
    match outcome {
        Outcome::Whole => OK,
        Outcome::Unsent => UNSENT,
        Outcome::Lost => LOST,
    }
}

/// Returns the code of a refused call.
pub fn of_fault(fault: CallFault) -> i32
    // Each fault has a code of its own, except that both faults for 64 waiting messages are `FULL`.
    ensures { result ≡ code_of_fault fault }
{
    match fault {
        CallFault::Time => TIME,
        CallFault::Lost => LOST,
        CallFault::TakeFirst => TAKE_FIRST,
        CallFault::SendFirst => SEND_FIRST,
        CallFault::Put(PutFault::NotEstablished) => NOT_ESTABLISHED,
        CallFault::Put(PutFault::Full) => FULL,
        CallFault::Put(PutFault::ReservedType) => RESERVED_KIND,
        CallFault::Put(PutFault::TooLong) => TOO_LONG,
        CallFault::Init(InitFault::NotInitialising) => NOT_INITIALISING,
        CallFault::Init(InitFault::Full) => FULL,
    }
}

/// Returns the code of a refused opening.
pub fn of_opening(fault: StationFault) -> i32
    // Time, BadConfig, Rooms and Memory are `TIME`, `BAD_SETTINGS`, `ROOMS` and `NO_MEMORY`.
    ensures { result ≡ code_of_opening fault }
{
    match fault {
        StationFault::Time => TIME,
        StationFault::BadConfig => BAD_SETTINGS,
        StationFault::Rooms => ROOMS,
        StationFault::Memory => NO_MEMORY,
    }
}

/// Returns the number of a connection state.
pub fn of_state(state: ConnectionState) -> i32
    // Closed, Down, Start, Up, RetrReq and RetrRun are 0 to 5, in this order.
    ensures { result ≡ code_of_state state }
{
    match state {
        ConnectionState::Closed => 0,
        ConnectionState::Down => 1,
        ConnectionState::Start => 2,
        ConnectionState::Up => 3,
        ConnectionState::RetrReq => 4,
        ConnectionState::RetrRun => 5,
    }
}

/// Returns the number of a session phase.
pub fn of_phase(phase: Phase) -> i32
    // Idle is 0, and the other phases have the numbers 1 to 8 in their order, Ended last.
    ensures { result ≡ code_of_phase phase }
{
    match phase {
        Phase::Idle => 0,
        Phase::Checking => 1,
        Phase::Requesting => 2,
        Phase::AwaitCheck => 3,
        Phase::AwaitRequest => 4,
        Phase::Refused => 5,
        Phase::Initialising => 6,
        Phase::Established => 7,
        Phase::Ended => 8,
    }
}

/// Returns the number of the side that ended a connection.
pub fn of_leaver(leaver: Leaver) -> u32
    // This end is 1 and the peer 2.
    ensures { result ≡ code_of_leaver leaver }
{
    match leaver {
        Leaver::Own => 1,
        Leaver::Peer => 2,
    }
}

/// Returns the number of a version.
pub fn of_version(version: Option<u8>) -> u32
    // A version is its number, and no version is 256.
    ensures { result ≡ code_of_version version }
{
    match version {
        Some(version) => u32::from(version),
        None => 256,
    }
}

/// Returns the meaning of a code. Only the functions in C return those of null pointers and lengths.
pub fn text_of(code: i32) -> &'static str
    // Each code from -21 to 3 has its own text; any other is "no such code".
    ensures { result.now ≡ text_of code }
{
    match code {
        0 => "done",
        1 => "nothing waits, or there is no deadline",
        2 => "done, but a datagram had no room: it is lost as on the network, and counted",
        3 =>
            "an end opens with these settings, but works badly: bek_settings_fault names the reason",
        -1 => "a pointer is null",
        -2 => "a length is above PTRDIFF_MAX",
        -3 => "the bek_end is not open: bek_open was not called, or failed, or bek_free was called",
        -4 => "the bek_end is open already",
        -5 => "the size of the settings is not one of this library's: call bek_settings_init first",
        -6 => "the settings are invalid: bek_settings_fault names the wrong one",
        -7 => "telegram_room or datagram_room is too small",
        -8 => "out of memory",
        -9 => "the time is before that of the last accepted call, or above 2^62",
        -10 => "too many telegrams wait: take them first",
        -11 => "too many datagrams wait: take and send them first",
        -12 => "a telegram had no room: take those that wait, then call bek_reopen",
        -13 => "the buffer is too small",
        -14 => "the session is not in a phase in which this end may put",
        -15 => "64 messages wait: put again later",
        -16 => "the kind is one of the five of the session's establishment, 0x0021 to 0x0025",
        -17 => "the payload has more than 357 octets",
        -18 => "this end is not a field element in BEK_INITIALISING",
        -19 => "the text is not a settings file of this side",
        -20 => "this processor lacks instructions that the library needs",
        -21 => "this bek_end is a copy: use the one that bek_open was given",
        _ => "no such code",
    }
}

/// The values of the codes. The function does nothing when it is called.
pub fn numbers_law()
    // OK, NOTHING, UNSENT and UNWISE are 0, 1, 2 and 3.
    ensures done { DoneAre }
    // The codes of refusals are -3 to -18, in the order of the header for C.
    ensures refusals { RefusalsAre }
{}
