//! Lines and instants with values from outside.

use crate::assertions::{assert_equal, assert_true};
use capture::{
    Address, DecodedDatagram, Host, Instant, PAYLOAD_ROOM, Record, decode, read_instant, read_line,
};
use safe_pdu::{CodeLength, CodeRule, Kind};

const HEARTBEAT: &[u8] =
    b"1700000000.123456789\t10.0.0.1\t8001\t192.168.7.255\t65535\t24000000000000001c004c18020000000100000065000000f40100000a00000005000000";

// A heartbeat as tshark prints it: time in microseconds, both addresses, the octets, and what they say.
#[test]
fn reads_a_heartbeat(rt: HostRuntime) {
    let mut buffer = [0; PAYLOAD_ROOM];
    let wanted = Record {
        time: 1_700_000_000_123_456,
        source: Address {
            host: Host::V4([10, 0, 0, 1]),
            port: 8001,
        },
        destination: Address {
            host: Host::V4([192, 168, 7, 255]),
            port: 65535,
        },
        size: 36,
    };
    assert_equal(&rt, read_line(HEARTBEAT, &mut buffer), Ok(wanted));
    let rule = CodeRule {
        length: CodeLength::Zero,
        initial_value: [0; 4],
    };
    match decode(buffer.get(..36).unwrap_or(&[]), &rule) {
        DecodedDatagram::Pdu(seq, header) => {
            assert_equal(&rt, seq, 0);
            assert_equal(&rt, header.kind, Kind::Heartbeat);
            assert_equal(&rt, (header.receiver, header.sender), (2, 1));
            assert_equal(&rt, (header.sn, header.cs), (101, 500));
            assert_equal(&rt, (header.ts, header.cts), (10, 5));
        }
        _ => assert_true(&rt, false),
    }
}

// Instants in each form, with the seconds that `date -u +%s` prints, and texts that are none.
#[test]
fn reads_instants(rt: HostRuntime) {
    let cases: [(&[u8], Option<Instant>); 14] = [
        (b"0", Some(Instant::Since(0))),
        (b"90.5", Some(Instant::Since(90_500_000))),
        (b"0.1234567", Some(Instant::Since(123_456))),
        (b"@1795749120", Some(Instant::At(1_795_749_120_000_000))),
        (
            b"2026-11-27T03:12:00.000001Z",
            Some(Instant::At(1_795_749_120_000_001)),
        ),
        (
            b"2024-02-29T23:59:59",
            Some(Instant::At(1_709_251_199_000_000)),
        ),
        (b"2100-02-29T00:00:00", None),
        (b"2026-13-01T00:00:00", None),
        (b"1969-12-31T23:59:59", None),
        (b"2026-11-27T24:00:00", None),
        (b"2026-11-27 03:12:00", None),
        (b"-1", None),
        (b"1@2", None),
        (b"", None),
    ];
    for (text, instant) in cases {
        assert_equal(&rt, read_instant(text), instant);
    }
}
