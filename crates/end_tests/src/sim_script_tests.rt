use crate::assertions::{assert_equal, assert_equal_at, assert_true_at};
use linked_list_allocator::LocalHeap;
use sim::{SimStatus, run};
use std::io;
use std::io::{ErrorKind, Write};
use std::process::Abort;
use std::test::Fail;

/// Runs a script that stops at a line: what it prints on either output.
fn stops(
    rt: &(impl Abort + AllocGlobal),
    script: &str,
    lines: &str,
    fault: &str,
) -> Result<(), Fail> {
    let (mut out, mut err) = (Vec::new(rt.alloc()), Vec::new(rt.alloc()));
    let ended = run(rt.alloc(), script.as_bytes(), &mut out, &mut err);
    assert_equal_at(rt, script, out.as_slice(), lines.as_bytes());
    assert_equal_at(rt, script, err.as_slice(), fault.as_bytes());
    assert_equal_at(rt, script, ended, SimStatus::Refused);
    Ok(())
}

/// Lines of another form, and with a number too large for its place.
const UNREADABLE: &str = "\
opens il
open
open li
open il il
tick i1
clock il
clock il 18446744073709551616
clock il +1
clock il -1
clock il 1x
put il 010 00
put il 01000 00
put il 010g 00
put il 0100 0
put il 0100 0g
put il 0100
put il 0100 --
putlen il 0100 1001
puts il 257 0100
set q
set Q 1
set q 4294967296
set version_il 256
set version_fe 256
versions il 3
versions fe
versions fe 1 2 3 4 5
versions fe 256
done il
est 1
trace on
trace off off
give i1
give 1 1
give i 1
give I1 1
give ix 1
give i1 0
give i1 3
give i1 x
give i9 3
hit i1 1 58 01
hit i1 1 0 1
hit i1 1 0 100
hit i1 1 18446744073709551616 01
hit i9 3 0 01
lose
lose i1 1
flow
flow 0
flow 3
flow 1 3
flow 1 x
open\til
open il\r
Open il
";

/// Lines with a label that does not exist yet.
const WITHOUT_LABEL: &str = "\
give i2 1
give f1 1
give i0 1
give i01 2
lose i2
hit f1 1 99 01
give i99999999999999999999999999 1
";

// A line of another form, a number too large for its place, a channel beyond the setting, a place beyond the datagram, a
// label that is not made yet: in this order where several hold. What was printed before stays.
#[test]
fn stops_at_a_line(rt: HostRuntime) -> Result<(), Fail> {
    for line in UNREADABLE.split_terminator('\n') {
        let script = format!(in rt.alloc(); "open il\n\n  tick   fe \n{line}\ntick fe\n")?;
        stops(
            &rt,
            script.as_str(),
            "refused EndNotOpen\n",
            "line 4: unreadable\n",
        )?;
    }
    for line in WITHOUT_LABEL.split_terminator('\n') {
        let script = format!(in rt.alloc(); "open il\n{line}\n")?;
        stops(&rt, script.as_str(), "", "line 2: no such label\n")?;
    }
    Ok(())
}

/// A writer that takes the octets that are left, and fails at the next.
#[derive(Drop)]
struct Short {
    left: usize,
}

impl Write for Short {
    fn write(&mut self, octets: &[u8]) -> io::Result<usize> {
        if self.left < octets.len() {
            return Err(io::Error::from(ErrorKind::Other));
        }
        self.left -= octets.len();
        Ok(octets.len())
    }

    fn flush(&mut self) -> io::Result<()> {
        Ok(())
    }
}

// An output that fails is told, and the program has failed.
#[test]
fn tells_a_failed_output(rt: HostRuntime) -> Result<(), Fail> {
    let mut err = Vec::new(rt.alloc());
    let mut out = Short { left: 10 };
    let ended = run(rt.alloc(), b"est\n".as_slice(), &mut out, &mut err);
    assert_equal(&rt, ended, SimStatus::Failed);
    assert_equal(&rt, err.as_slice(), b"fault: output\n".as_slice());
    Ok(())
}

/// How a script ends in a heap of `octets` octets.
fn plays_within(
    rt: &(impl Abort + AllocGlobal),
    octets: usize,
    script: &[u8],
    whole: &str,
) -> Result<Within, Fail> {
    let heap = LocalHeap::new(rt.alloc(), octets)?;
    let (mut out, mut err) = (Vec::new(rt.alloc()), Vec::new(rt.alloc()));
    let ended = run(&heap, script, &mut out, &mut err);
    let lines = str::from_utf8(out.as_slice())?;
    if ended == SimStatus::Done {
        assert_equal(rt, err.as_slice(), b"".as_slice());
        if lines == whole {
            return Ok(Within::Whole);
        }
        assert_true_at(rt, octets, lines.contains("refused Memory\n"));
        return Ok(Within::Events);
    }
    assert_equal(rt, ended, SimStatus::Refused);
    assert_equal(rt, err.as_slice(), b"fault: memory\n".as_slice());
    Ok(Within::Tables)
}

/// What found no room: a table of the program, or events alone, or nothing.
#[derive(Clone, Copy, PartialEq, Eq, Debug)]
enum Within {
    Tables,
    Events,
    Whole,
}

// In heaps of rising size the program's own tables find no room at first, which is a fault; then events are refused; then all goes well.
#[test]
fn tells_want_of_memory(rt: HostRuntime) -> Result<(), Fail> {
    let script = b"trace\nest\nputs il 2 0100\nflow 1\n".as_slice();
    let mut whole = Vec::new(rt.alloc());
    let mut none = Vec::new(rt.alloc());
    let ended = run(rt.alloc(), script, &mut whole, &mut none);
    assert_equal(&rt, ended, SimStatus::Done);
    let whole = str::from_utf8(whole.as_slice())?;
    for (octets, want) in [
        (0, Within::Tables),
        (4_000, Within::Tables),
        (40_000, Within::Events),
        (400_000, Within::Events),
        (4_000_000, Within::Whole),
    ] {
        assert_equal_at(&rt, octets, plays_within(&rt, octets, script, whole)?, want);
    }
    Ok(())
}
