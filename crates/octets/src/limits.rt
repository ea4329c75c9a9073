//! The sizes and counts that the profile fixes, in bytes unless a comment says otherwise. Code and
//! definitions use these constants; `limits_law` states each of them as a number.

ghost use Rattle.octets.specs.Profile.{CountsAre, HeadersAre, RangesAre, TelegramsAre};

/// The header of a redundancy PDU: length (2), reserve (2), sequence number (4).
pub const RED_HEADER: usize = 8;

/// The header of a safety PDU: length (2), PDU type (2), then receiver, sender, sequence number, confirmed
/// sequence number, timestamp and confirmed timestamp (4 each).
pub const SAFE_HEADER: usize = 28;

/// The longest safety code: a whole MD4 digest.
pub const CODE_MAX: usize = 16;

/// The shortest message, a telegram with an empty payload: protocol type (1), message type (2) and two
/// names (20 each).
pub const MESSAGE_MIN: usize = 43;

/// The size of a name in a telegram, with its filling.
pub const NAME_LENGTH: usize = 20;

/// The byte that fills names up, an underscore. No name contains it.
pub const FILLING: u8 = 0x5f;

/// The longest payload of a telegram.
pub const PAYLOAD_MAX: usize = 357;

/// The longest message: a telegram with the longest payload.
pub const MESSAGE_MAX: usize = MESSAGE_MIN + PAYLOAD_MAX;

/// The size of the length field before each message of a unit.
pub const MESSAGE_LENGTH: usize = 2;

/// The greatest number of messages in a unit.
pub const UNIT_MESSAGES: usize = 3;

/// The shortest unit: one shortest message with its length field.
pub const UNIT_MIN: usize = MESSAGE_LENGTH + MESSAGE_MIN;

/// The longest unit: three longest messages with their length fields.
pub const UNIT_MAX: usize = UNIT_MESSAGES * (MESSAGE_LENGTH + MESSAGE_MAX);

/// The body of a ConnReq or ConnResp: version (4), N_sendmax (2), reserve (8).
pub const OPENING_BODY: usize = 14;

/// The body of a DiscReq: detail (2), reason (2).
pub const LEAVING_BODY: usize = 4;

/// The greatest N_sendmax: the greatest number of unconfirmed units.
pub const WINDOW_MAX: usize = 32;

/// How far ahead of the expected number a number is still judged, as a multiple of the window or of q.
pub const REACH: u64 = 10;

/// The least T_max, in milliseconds. T_max is the greatest age of the last confirmation.
pub const T_MAX_LOWEST: u64 = 100;
/// The greatest T_max, in milliseconds.
pub const T_MAX_HIGHEST: u64 = 60_000;

/// The least T_h, the time after which a heartbeat is due, in milliseconds. T_h is less than T_max.
pub const T_H_LOWEST: u64 = 10;

/// The greatest mwa: the number of units that an end takes without sending before it makes a heartbeat.
pub const MWA_MAX: u32 = 16;

/// The least PDU limit of a connection.
pub const PDU_LIMIT_LOWEST: u64 = 100;
/// The greatest PDU limit of a connection. It leaves room below 2^32 for the PDUs that a step begun below
/// the limit, an open window and a DiscReq can still make.
pub const PDU_LIMIT_HIGHEST: u64 = 4_294_901_760;

/// The greatest number of messages that wait to be sent.
pub const WAITING_MAX: usize = 64;

/// The greatest number of channels of an end.
pub const CHANNELS_MAX: usize = 4;

/// The greatest q: the number of parts in a deferral queue.
pub const Q_MAX: usize = 8;

/// The least T_seq, the time for which an early part waits, in milliseconds.
pub const T_SEQ_LOWEST: u64 = 10;
/// The greatest T_seq, in milliseconds.
pub const T_SEQ_MAX: u64 = 1_000;

/// The greatest time of a clock, in milliseconds.
pub const TIME_MAX: u64 = 1 << 62;

/// The longest safety PDU without its safety code: the header and a longest unit.
pub const SAFE_FRONT_MAX: usize = SAFE_HEADER + UNIT_MAX;

/// The longest safety PDU, with the longest safety code. It is the longest part of a redundancy PDU.
pub const SAFE_PDU_MAX: usize = SAFE_FRONT_MAX + CODE_MAX;

/// The longest redundancy PDU.
pub const RED_PDU_MAX: usize = RED_HEADER + SAFE_PDU_MAX;

const _: () = prove!(TIME_MAX == 4_611_686_018_427_387_904);

const _: () = prove!(MESSAGE_MAX == 400);

const _: () = prove!(UNIT_MAX == 1_206);

const _: () = prove!(SAFE_PDU_MAX == 1_250);

const _: () = prove!(RED_PDU_MAX == 1_258);

/// States the limits as numbers. The function does nothing when it is called.
pub fn limits_law()
    // The headers have 8 (redundancy) and 28 (safety) bytes, the bodies of ConnReq and DiscReq 14 and 4,
    // and the longest safety code 16.
    ensures headers { HeadersAre }
    // A name has 20 bytes, filled up with 95, a payload up to 357, a message 43 to 400, and a unit 45 to
    // 1,206: up to three messages with lengths of 2. A safety PDU has up to 1,234 bytes before its safety
    // code and 1,250 in all, a redundancy PDU up to 1,258.
    ensures telegrams { TelegramsAre }
    // At most 32 units are unconfirmed, 16 taken without sending, 64 messages waiting, 4 channels open and
    // 8 parts deferred; the reach is 10 times the window or q.
    ensures counts { CountsAre }
    // T_max is 100 to 60,000 ms, T_h at least 10 ms, T_seq 10 to 1,000 ms, a time at most 2^62 ms, and the PDU
    // limit 100 to 4,294,901,760.
    ensures ranges { RangesAre }
{}
