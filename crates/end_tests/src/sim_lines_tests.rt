use crate::assertions::{assert_equal, assert_equal_at, assert_true_at};
use end_settings::{EndConfig, Side};
use linked_list_allocator::LocalHeap;
use sim::{Command, Key, Label, ScriptLineFault, ScriptSettings, Setting, read_line};
use std::alloc::{AllocError, Global};
use std::test::Fail;

const IL: Side = Side::Interlocking;

const FE: Side = Side::FieldElement;

/// A line of each form, and an empty one; in numbers leading zeros and in hex digits both cases are allowed, and a list may name one twice.
const LINES: &str = "\
done
est
trace
trace off
open fe
close il
 clock  il 18446744073709551615
tick il
putlen fe 00Ff 1000
puts il 256 0100
give f12 2
hit f12 1 7 aF
lose f12
put il 1A2b 00fF
put il 0000 -
flow 1 2 1
versions fe 1 1 255 0
set q 1

";

/// Whether a command is that of the line at a place in LINES.
fn is_of_line(place: usize, command: &Command) -> bool {
    let is_twelfth = |label: &Label| label.side == FE && label.place == 11;
    match command {
        Command::Nothing => place == 18,
        Command::InitDone => place == 0,
        Command::Establish => place == 1,
        Command::Trace(is_on) => place == if *is_on { 2 } else { 3 },
        Command::Open(side) => place == 4 && *side == FE,
        Command::Close(side) => place == 5 && *side == IL,
        Command::Clock(side, time) => place == 6 && *side == IL && *time == u64::MAX,
        Command::Tick(side) => place == 7 && *side == IL,
        Command::PutZeros(side, kind, count) => {
            place == 8 && *side == FE && *kind == 255 && *count == 1000
        }
        Command::PutCounted(side, count, kind) => {
            place == 9 && *side == IL && *count == 256 && *kind == 256
        }
        Command::Give(label, channel) => place == 10 && is_twelfth(label) && *channel == 2,
        Command::Hit(label, channel, at, octet) => {
            place == 11 && is_twelfth(label) && (*channel, *at, *octet) == (1, 7, 0xaf)
        }
        Command::Lose(label) => place == 12 && is_twelfth(label),
        Command::Put(side, kind, payload) => {
            let payload = payload.as_slice();
            let is_first = place == 13 && *kind == 0x1a2b && payload == [0, 255].as_slice();
            *side == IL && (is_first || place == 14 && *kind == 0 && payload.is_empty())
        }
        Command::Flow(channels) => place == 15 && channels.as_slice() == [1, 2, 1].as_slice(),
        Command::Versions(versions) => {
            place == 16 && versions.as_slice() == [1, 1, 255, 0].as_slice()
        }
        Command::Set(setting) => place == 17 && setting.value == 1,
    }
}

#[test]
fn reads_lines(rt: HostRuntime) -> Result<(), Fail> {
    for (place, line) in LINES.lines().enumerate() {
        let command = read_line(rt.alloc(), line)?;
        assert_true_at(&rt, line, is_of_line(place, &command));
    }
    Ok(())
}

/// Returns the numbers among the settings of an end.
fn numbers_of(end: &EndConfig) -> [u64; 10] {
    [
        end.channels,
        end.n_sendmax,
        end.n_maxpacket,
        end.q,
        end.t_max,
        end.t_h,
        end.t_seq,
        end.mwa,
        end.pdu_limit,
        end.code,
    ]
}

const KEYS: [&str; 14] = [
    "channels",
    "n_sendmax",
    "n_maxpacket",
    "q",
    "t_max",
    "t_h",
    "t_seq",
    "mwa",
    "pdu_limit",
    "code",
    "sn_il",
    "sn_fe",
    "version_il",
    "version_fe",
];

// The settings at the start of a script, and what each key changes.
#[test]
fn sets(rt: HostRuntime) -> Result<(), Fail> {
    let mut settings = ScriptSettings::new().ok_or("settings")?;
    let first = [2, 20, 3, 4, 1800, 300, 50, 10, 4_294_901_760, 8];
    for (side, first_sn) in [(IL, 100), (FE, 500)] {
        let end = settings.config(side);
        assert_equal(&rt, numbers_of(&end), first);
        assert_equal(&rt, end.versions.as_slice(), [3].as_slice());
        assert_equal(&rt, settings.first_sn(side), first_sn);
    }
    let mut value = 200u32;
    for word in KEYS {
        value = value.wrapping_add(1);
        let key = Key::of(word).ok_or("key")?;
        settings.set(Setting { key, value });
    }
    let wanted = [201, 202, 203, 204, 205, 206, 207, 208, 209, 210];
    for (side, first_sn, version) in [(IL, 211, 213), (FE, 212, 214)] {
        let end = settings.config(side);
        assert_equal(&rt, numbers_of(&end), wanted);
        assert_equal(&rt, settings.first_sn(side), first_sn);
        assert_equal(&rt, end.versions.as_slice(), [version].as_slice());
    }
    Ok(())
}

/// Returns `front`, and then `again` a number of times.
fn repeats(alloc: Global, front: &str, again: &str, times: u32) -> Result<String, Fail> {
    let mut text = String::new(alloc);
    text.push_str(front)?;
    for _ in 0..times {
        text.push_str(again)?;
    }
    Ok(text)
}

// A line is not unreadable if there is no memory for its octets, its numbers or the label of what it makes.
#[test]
fn tells_want_of_memory_for_a_line(rt: HostRuntime) -> Result<(), Fail> {
    let heap = LocalHeap::new(rt.alloc(), 0)?;
    for (front, again) in [("put il 0100 ", "0"), ("flow", " 1")] {
        let line = repeats(rt.alloc(), front, again, 512)?;
        let found = matches!(
            read_line(&heap, line.as_str()),
            Err(ScriptLineFault::Memory)
        );
        assert_true_at(&rt, front, found);
    }
    let fault = ScriptLineFault::from(AllocError);
    assert_equal(&rt, fault, ScriptLineFault::Memory);
    Ok(())
}
