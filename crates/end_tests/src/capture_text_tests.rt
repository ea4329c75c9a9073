//! Whole captures, and the text that is to be printed of each, worked out by hand.

use crate::assertions::{assert_equal, assert_true};
use capture::Span;
use capture_text::{FollowOptions, FollowStatus, OutputForm, Remarkable, TimeForm, run};
use md4::INITIAL_VALUE;
use safe_pdu::{CodeLength, CodeRule, Kind};
use std::alloc::{Allocator, Global};
use std::io::Write;
use std::process::Abort;
use std::test::Fail;

/// The numbers of a PDU without a code.
#[derive(Clone, Copy)]
struct Pdu {
    /// The redundancy number.
    seq: u32,
    /// The type.
    kind: Kind,
    /// SN and CS.
    numbers: (u32, u32),
    /// TS and CTS.
    stamps: (u32, u32),
    /// The body in hex digits.
    body: &'static str,
}

fn plain(kind: Kind, seq: u32, numbers: (u32, u32), stamps: (u32, u32), body: &'static str) -> Pdu {
    Pdu {
        seq,
        kind,
        numbers,
        stamps,
        body,
    }
}

/// A ConnReq or a ConnResp, the first datagram of its end.
fn opening(kind: Kind, numbers: (u32, u32), stamps: (u32, u32)) -> Pdu {
    plain(kind, 0, numbers, stamps, "3033303320000000000000000000")
}

fn heartbeat(seq: u32, numbers: (u32, u32), stamps: (u32, u32)) -> Pdu {
    plain(Kind::Heartbeat, seq, numbers, stamps, "")
}

/// Puts the front of a line: the time in microseconds, and the addresses of the first or the second channel, from the first end or back.
fn put_front<A: Allocator>(
    lines: &mut Vec<u8, A>,
    time: u32,
    channel: u8,
    back: bool,
) -> Result<(), Fail> {
    let way = match (channel, back) {
        (0, false) => "10.0.0.1\t8001\t10.0.0.2\t8002",
        (0, true) => "10.0.0.2\t8002\t10.0.0.1\t8001",
        (_, false) => "10.0.1.1\t8001\t10.0.1.2\t8002",
        (_, true) => "10.0.1.2\t8002\t10.0.1.1\t8001",
    };
    let seconds = time / 1_000_000;
    let micros = time % 1_000_000;
    write!(lines, "170000000{seconds}.{micros:06}000\t{way}\t")?;
    Ok(())
}

/// Puts the line of a PDU from end 1 to end 2, or back.
fn put<A: Allocator>(
    lines: &mut Vec<u8, A>,
    time: u32,
    channel: u8,
    back: bool,
    pdu: Pdu,
) -> Result<(), Fail> {
    put_front(lines, time, channel, back)?;
    let size = 28 + (pdu.body.len() / 2 % 2000) as u16;
    let whole = (size + 8).swap_bytes();
    let size = size.swap_bytes();
    let seq = pdu.seq.swap_bytes();
    write!(lines, "{whole:04x}0000{seq:08x}{size:04x}")?;
    let kind = pdu.kind.number().swap_bytes();
    let (sender, receiver) = if back { (2u32, 1u32) } else { (1u32, 2u32) };
    let sender = sender.swap_bytes();
    let receiver = receiver.swap_bytes();
    write!(lines, "{kind:04x}{receiver:08x}{sender:08x}")?;
    let (sn, cs) = pdu.numbers;
    let (ts, cts) = pdu.stamps;
    let sn = sn.swap_bytes();
    let cs = cs.swap_bytes();
    let ts = ts.swap_bytes();
    let cts = cts.swap_bytes();
    let body = pdu.body;
    writeln!(lines, "{sn:08x}{cs:08x}{ts:08x}{cts:08x}{body}")?;
    Ok(())
}

/// A line: the time in microseconds, the channel, whether it goes back, and its PDU.
type Line = (u32, u8, bool, Pdu);

/// Returns the text of lines of PDUs without codes.
fn text_of(alloc: Global, lines: &[Line]) -> Result<Vec<u8>, Fail> {
    let mut text = Vec::new(alloc);
    for (time, channel, back, pdu) in lines {
        put(&mut text, *time, *channel, *back, *pdu)?;
    }
    Ok(text)
}

/// Follows the lines of PDUs without codes, and compares what is printed.
fn follows(
    rt: &(impl AllocGlobal + Abort),
    lines: &[Line],
    asked: &FollowOptions,
    wanted: &str,
) -> Result<(), Fail> {
    let text = text_of(rt.alloc(), lines)?;
    prints(rt, text.as_slice(), asked, FollowStatus::Done, wanted, "")
}

/// Follows a text, and compares how that ends and what is printed on both outputs.
fn prints(
    rt: &(impl AllocGlobal + Abort),
    text: &[u8],
    asked: &FollowOptions,
    status: FollowStatus,
    wanted: &str,
    faults: &str,
) -> Result<(), Fail> {
    let mut out = Vec::new(rt.alloc());
    let mut err = Vec::new(rt.alloc());
    assert_equal(rt, run(rt.alloc(), text, asked, &mut out, &mut err), status);
    assert_true(rt, out.as_slice() == wanted.as_bytes());
    assert_true(rt, err.as_slice() == faults.as_bytes());
    Ok(())
}

fn asked(length: CodeLength, only: Option<Remarkable>) -> FollowOptions {
    FollowOptions {
        rule: CodeRule {
            length,
            initial_value: INITIAL_VALUE,
        },
        only,
        t_max: 1800,
        messages: false,
        ports: None,
        form: OutputForm::Lines,
        time: TimeForm::Since,
        span: Span {
            from: None,
            to: None,
        },
        every: None,
        choose: false,
    }
}

/// Follows a text to its end, and compares the first lines of the output.
fn begins(rt: &(impl AllocGlobal + Abort), text: &[u8], asked: &FollowOptions, wanted: &str) {
    let mut out = Vec::new(rt.alloc());
    let mut err = Vec::new(rt.alloc());
    let ended = run(rt.alloc(), text, asked, &mut out, &mut err);
    assert_equal(rt, ended, FollowStatus::Done);
    assert_true(rt, out.as_slice().starts_with(wanted.as_bytes()));
    assert_true(rt, err.as_slice().is_empty());
}

const DAMAGE: &str = "\
{\"event\":\"damaged\",\"time\":1.900000,\"line\":7,\"source\":\"10.0.0.2:8002\",\"destination\":\"10.0.0.1:8001\",\
\"layer\":\"red\",\"fault\":1,\"name\":\"Short\"}
{\"first\":1700000000000000,\"t_max\":1800,";

const EVENTS: &str = "\
{\"event\":\"opens\",\"time\":0.000000,\"line\":1,\"from\":1,\"to\":2,\"channel\":1}
{\"event\":\"up\",\"time\":0.010000,\"line\":3,\"from\":2,\"to\":1,\"channel\":1}
{\"event\":\"lost\",\"time\":1.200000,\"line\":4,\"from\":1,\"to\":2,\"channel\":2,\"on_every_channel\":false,\"missing\":1}
{\"event\":\"lost\",\"time\":1.200000,\"line\":4,\"from\":1,\"to\":2,\"channel\":2,\"on_every_channel\":true,\"missing\":1}
{\"event\":\"waits\",\"time\":1.200000,\"line\":4,\"from\":1,\"to\":2,\"channel\":2,\"waits\":1200}
{\"event\":\"lost\",\"time\":1.800000,\"line\":5,\"from\":1,\"to\":2,\"channel\":1,\"on_every_channel\":false,\"missing\":2}
{\"event\":\"waits\",\"time\":1.800000,\"line\":5,\"from\":1,\"to\":2,\"channel\":1,\"waits\":1800}
{\"event\":\"left\",\"time\":1.800000,\"line\":5,\"from\":1,\"to\":2,\"channel\":1,\"reason\":3,\"detail\":0}
{\"event\":\"damaged\",\"time\":1.900000,\"line\":7,\"source\":\"10.0.0.2:8002\",\"destination\":\"10.0.0.1:8001\",\
\"layer\":\"red\",\"fault\":1,\"name\":\"Short\"}
{\"first\":1700000000000000,\"t_max\":1800,";

// The events of an opening, a loss on one channel, a long wait, a copy, a leaving, and a datagram that is cut off.
#[test]
fn tells_events(rt: HostRuntime) -> Result<(), Fail> {
    let opens = opening(Kind::ConnReq, (100, 0), (1000, 0));
    let granted = opening(Kind::ConnResp, (500, 100), (7000, 1000));
    let late = heartbeat(2, (102, 500), (2200, 7000));
    let leaves = plain(Kind::DiscReq, 3, (103, 500), (2800, 7000), "00000300");
    let lines = [
        (0, 0, false, opens),
        (50, 1, false, opens),
        (10_000, 0, true, granted),
        (1_200_000, 1, false, late),
        (1_800_000, 0, false, leaves),
        (1_800_040, 1, false, leaves),
    ];
    let mut text = text_of(rt.alloc(), &lines)?;
    put_front(&mut text, 1_900_000, 0, true)?;
    text.extend_from_slice(b"00\n")?;
    for (only, wanted) in [(Some(Remarkable::Fault), DAMAGE), (None, EVENTS)] {
        let choice = FollowOptions {
            form: OutputForm::Events,
            ..asked(CodeLength::Zero, only)
        };
        begins(&rt, text.as_slice(), &choice, wanted);
    }
    Ok(())
}

// Two channels, of which the second loses a heartbeat.
#[test]
fn loses_on_one_channel(rt: HostRuntime) -> Result<(), Fail> {
    let opens = opening(Kind::ConnReq, (100, 0), (1000, 0));
    let granted = opening(Kind::ConnResp, (500, 100), (7000, 1000));
    let first = heartbeat(1, (101, 500), (1020, 7000));
    let second = heartbeat(2, (102, 500), (1030, 7000));
    let lines = [
        (0, 0, false, opens),
        (50, 1, false, opens),
        (10_000, 0, true, granted),
        (10_060, 1, true, granted),
        (20_000, 0, false, first),
        (30_000, 0, false, second),
        (30_040, 1, false, second),
    ];
    let wanted = "\
0.000000 line 1 1->2 ch 1 red 0 ConnReq sn 100 cs 0 ts 1000 cts 0 opens
0.000050 line 2 1->2 ch 2 red 0 ConnReq sn 100 cs 0 ts 1000 cts 0 all repeat of line 1
0.010000 line 3 2->1 ch 1 red 0 ConnResp sn 500 cs 100 ts 7000 cts 1000 opens age 0 ms
0.010060 line 4 2->1 ch 2 red 0 ConnResp sn 500 cs 100 ts 7000 cts 1000 all repeat of line 3 age 0 ms
0.020000 line 5 1->2 ch 1 red 1 HB sn 101 cs 500 ts 1020 cts 7000 age 0 ms
0.030000 line 6 1->2 ch 1 red 2 HB sn 102 cs 500 ts 1030 cts 7000 age 0 ms
0.030040 line 7 1->2 ch 2 red 2 HB sn 102 cs 500 ts 1030 cts 7000 channel ahead 1 all repeat of line 6 age 0 ms
sum first datagram at 2023-11-14T22:13:20.000000Z
sum 1->2 opened by ConnReq times 1 PDUs 3 missing 0 repeats 2 late 0 differs 0 stale 0 heartbeats 2 requests 0 resent 0 disconnects 0 \
silence 0.020000 age 0 of 1800 waits 30 of 1800 last 0.030000 no DiscReq
sum 1->2 ch 1 10.0.0.1:8001-10.0.0.2:8002 datagrams 3 PDUs 3 missing 0 repeats 0 late 0 differs 0 stale 0 damaged 0
sum 1->2 ch 2 10.0.1.1:8001-10.0.1.2:8002 datagrams 2 PDUs 2 missing 1 repeats 0 late 0 differs 0 stale 0 damaged 0
sum 2->1 opened by ConnResp times 1 PDUs 1 missing 0 repeats 1 late 0 differs 0 stale 0 heartbeats 0 requests 0 resent 0 disconnects 0 \
silence 0.020040 age 0 of 1800 waits 0 of 1800 last 0.010000 no DiscReq
sum 2->1 ch 1 10.0.0.1:8001-10.0.0.2:8002 datagrams 1 PDUs 1 missing 0 repeats 0 late 0 differs 0 stale 0 damaged 0
sum 2->1 ch 2 10.0.1.1:8001-10.0.1.2:8002 datagrams 1 PDUs 1 missing 0 repeats 0 late 0 differs 0 stale 0 damaged 0
session 1 of 1-2, 1 asked at 0.000000, came up at 0.010000, nobody left, 1 waited 30 ms, 2 waited 0 ms, \
PDUs lost on every channel 0, datagrams lost on one channel whose PDU came on another 1, sent again 0, repeats on one channel 0
connection 1-2 sessions 1, came up 1, nobody answered 0, ended by a DiscReq 0, by timeout 0, last PDU at 0.030040, \
PDUs lost on every channel 0, datagrams lost on one channel whose PDU came on another 1, waits 30 of 1800
sum all datagrams 7 PDUs 4 missing 0 repeats 3 late 0 differs 0 stale 0 damaged 0 forgotten 0 unreadable 0
";
    follows(&rt, &lines, &asked(CodeLength::Zero, None), wanted)
}

// Nothing recent is confirmed in time, so an end leaves, and the other opens again; ages of T_max and more alone are printed.
#[test]
fn leaves_and_opens_again(rt: HostRuntime) -> Result<(), Fail> {
    let beat = heartbeat(5, (300, 700), (5000, 9000));
    let back = heartbeat(8, (701, 300), (9100, 5000));
    let slow = heartbeat(6, (301, 701), (6801, 9100));
    let leaves = plain(Kind::DiscReq, 9, (702, 300), (10_950, 5000), "00000300");
    let opens = opening(Kind::ConnReq, (42, 0), (8000, 0));
    let lines = [
        (0, 0, false, beat),
        (100_000, 0, true, back),
        (1_801_000, 0, false, slow),
        (1_850_000, 0, true, leaves),
        (3_000_000, 0, false, opens),
    ];
    let wanted = "\
1.850000 line 4 2->1 ch 1 red 9 DiscReq sn 702 cs 300 ts 10950 cts 5000 age 1801 ms waits 1950 ms reason 3 timeout detail 0
sum first datagram at 2023-11-14T22:13:20.000000Z
sum 1->2 opened by ConnReq times 1 PDUs 3 missing 0 repeats 0 late 0 differs 0 stale 0 heartbeats 2 requests 0 resent 0 disconnects 0 \
silence 1.801000 age 0 of 1801 waits 1801 of 1801 reached last 3.000000 no DiscReq
sum 1->2 ch 1 10.0.0.1:8001-10.0.0.2:8002 datagrams 3 PDUs 3 missing 0 repeats 0 late 0 differs 0 stale 0 damaged 0
sum 2->1 opening not seen PDUs 2 missing 0 repeats 0 late 0 differs 0 stale 0 heartbeats 1 requests 0 resent 0 disconnects 1 \
silence 1.750000 age 1801 of 1801 reached waits 1950 of 1801 reached last 1.850000 DiscReq reason 3 timeout detail 0
sum 2->1 ch 1 10.0.0.1:8001-10.0.0.2:8002 datagrams 2 PDUs 2 missing 0 repeats 0 late 0 differs 0 stale 0 damaged 0
session 1 of 1-2, its ConnReq was not recorded, was not seen to come up, 2 left at 1.850000 by itself reason 3 timeout detail 0, \
1 waited 1801 ms, 2 waited 1950 ms, \
PDUs lost on every channel 0, datagrams lost on one channel whose PDU came on another 0, sent again 0, repeats on one channel 0
session 2 of 1-2, 1 asked at 3.000000, nobody answered, nobody left, 1 waited 0 ms, 2 waited 0 ms, \
PDUs lost on every channel 0, datagrams lost on one channel whose PDU came on another 0, sent again 0, repeats on one channel 0
connection 1-2 sessions 2, came up 0, nobody answered 1, ended by a DiscReq 1, by timeout 1, last PDU at 3.000000, \
PDUs lost on every channel 0, datagrams lost on one channel whose PDU came on another 0, \
waits 1950 of 1801 reached
sum all datagrams 5 PDUs 5 missing 0 repeats 0 late 0 differs 0 stale 0 damaged 0 forgotten 0 unreadable 0
";
    let mut asked = asked(CodeLength::Zero, Some(Remarkable::Age));
    asked.t_max = 1801;
    follows(&rt, &lines, &asked, wanted)
}

const FORGED: &str = "\
1700000000.000000000\t10.0.0.1\t8001\t10.0.0.2\t8002\t\
2c0000000700000024004c18020000000100000065000000f40100000a000000050000000ded786fc4bf93f2
1700000000.000500000\t10.0.0.1\t8001\t10.0.0.2\t8002\t\
2c0000000800000024004c18020000000100000066000000f40100000a000000050000000ded786fc4bf93f2
what
";

// A datagram under the code of another one is damaged, and a line that is none is named.
#[test]
fn names_what_is_forged(rt: HostRuntime) -> Result<(), Fail> {
    let wanted = "\
0.000000 line 1 1->2 ch 1 red 7 HB sn 101 cs 500 ts 10 cts 5
0.000500 line 2 10.0.0.1:8001->10.0.0.2:8002 red 8 safe fault 3 Code
sum first datagram at 2023-11-14T22:13:20.000000Z
sum 1->2 opening not seen PDUs 1 missing 0 repeats 0 late 0 differs 0 stale 0 heartbeats 1 requests 0 resent 0 disconnects 0 \
silence 0.000000 age 0 of 1800 waits 0 of 1800 last 0.000000 no DiscReq
sum 1->2 ch 1 10.0.0.1:8001-10.0.0.2:8002 datagrams 2 PDUs 1 missing 0 repeats 0 late 0 differs 0 stale 0 damaged 1
sum 2->1 opening not seen PDUs 0 missing 0 repeats 0 late 0 differs 0 stale 0 heartbeats 0 requests 0 resent 0 disconnects 0 \
silence 0.000000 age 0 of 1800 waits 0 of 1800 not heard no DiscReq
sum 2->1 ch 1 10.0.0.1:8001-10.0.0.2:8002 datagrams 0 PDUs 0 missing 0 repeats 0 late 0 differs 0 stale 0 damaged 0
session 1 of 1-2, its ConnReq was not recorded, was not seen to come up, nobody left, 1 waited 0 ms, 2 waited 0 ms, \
PDUs lost on every channel 0, datagrams lost on one channel whose PDU came on another 0, sent again 0, repeats on one channel 0
connection 1-2 sessions 1, came up 0, nobody answered 0, ended by a DiscReq 0, by timeout 0, last PDU at 0.000000, \
PDUs lost on every channel 0, datagrams lost on one channel whose PDU came on another 0, waits 0 of 1800
sum all datagrams 2 PDUs 1 missing 0 repeats 0 late 0 differs 0 stale 0 damaged 1 forgotten 0 unreadable 1
";
    let fault = "line 3: unreadable: not six fields\n";
    let asked = asked(CodeLength::Eight, None);
    let text = FORGED.as_bytes();
    prints(&rt, text, &asked, FollowStatus::Unreadable, wanted, fault)
}
