use crate::assertions::{assert_equal_at, assert_true_at};
use pdu_text::show;
use safe_pdu::{CodeLength, CodeRule};
use std::io;
use std::io::{ErrorKind, Write};
use std::test::Fail;

/// No code, which every datagram of the protocol without one has.
const RULE: CodeRule = CodeRule {
    length: CodeLength::Zero,
    initial_value: md4::INITIAL_VALUE,
};

/// A heartbeat, a ConnReq, a unit whose second message is no telegram, and a datagram that is cut off.
const DATAGRAMS: &str = "\
24000000000000001c004c18020000000100000065000000f40100000a00000005000000
32000000000000002a0038180200000001000000640000000000000000000000000000003033303314000000000000000000
ad00000003000000a5006118020000000100000066000000f401000000000000000000002c00012400494c315f5f5f5f5f5f5f5f5f5f5f5f5f5f5f5f5f5731325f5f5f5f5f5f5f5f5f5f5f5f5f5f5f5f5f032b00012400000000000000000000000000000000000000000000000000000000000000000000000000000000002c00010001494c315f5f5f5f5f5f5f5f5f5f5f5f5f5f5f5f5f5731325f5f5f5f5f5f5f5f5f5f5f5f5f5f5f5f5f0a
24000000000000
";

// Takes a number of writes, keeps what they wrote, and fails from then on.
#[derive(Drop)]
struct Failing {
    writes: u32,
    kept: Vec<u8>,
}

impl Write for Failing {
    fn write(&mut self, octets: &[u8]) -> io::Result<usize> {
        if self.writes == 0 {
            return Err(io::Error::from(ErrorKind::Other));
        }
        self.writes -= 1;
        self.kept.extend_from_slice(octets)?;
        Ok(octets.len())
    }

    fn flush(&mut self) -> io::Result<()> {
        Ok(())
    }
}

// A writer that fails at some write makes `show` answer that, and what came is a beginning of the text.
#[test]
fn answers_each_failed_write(rt: HostRuntime) -> Result<(), Fail> {
    for hex in DATAGRAMS.lines() {
        let octets = hex::decode(rt.alloc(), hex)?;
        let mut whole = Vec::new(rt.alloc());
        let _clean = show(octets.as_slice(), &RULE, &mut whole)?;
        let mut last_failed = true;
        for writes in 0..128 {
            let mut writer = Failing {
                writes,
                kept: Vec::new(rt.alloc()),
            };
            let ended = show(octets.as_slice(), &RULE, &mut writer);
            assert_true_at(
                &rt,
                writes,
                whole.as_slice().starts_with(writer.kept.as_slice()),
            );
            assert_equal_at(&rt, writes, ended.is_err(), writer.kept.len() < whole.len());
            last_failed = ended.is_err();
        }
        assert_true_at(&rt, hex, !last_failed);
    }
    Ok(())
}
