use crate::assertions::{assert_equal_at, assert_true, assert_true_at};
use safe_pdu::{CodeLength, CodeRule, Kind, SafeFault, decode, encode};
use std::test::Fail;

const OWN_VALUE: [u32; 4] = [1, 2, 3, 4];

fn rule(length: CodeLength, initial_value: [u32; 4]) -> CodeRule {
    CodeRule {
        length,
        initial_value,
    }
}

// PDUs whose octets, codes included, were made by another program.
#[test]
fn reads_and_writes_the_same_octets(rt: HostRuntime) -> Result<(), Fail> {
    let plain = md4::INITIAL_VALUE;
    let cases = [
        (
            rule(CodeLength::Eight, plain),
            Kind::ConnReq,
            100,
            0,
            "3200381802000000010000006400000000000000000000000000000030333033140000000000000000001673955aabe061a9",
        ),
        (
            rule(CodeLength::Sixteen, plain),
            Kind::ConnResp,
            500,
            100,
            "3a0039180200000001000000f40100006400000000000000000000003033303314000000000000000000663cfb659d36e68704f657c02a8a6d98",
        ),
        (
            rule(CodeLength::Eight, OWN_VALUE),
            Kind::Heartbeat,
            100,
            0,
            "24004c180200000001000000640000000000000000000000000000001fce7b94c43aaf48",
        ),
        (
            rule(CodeLength::Sixteen, plain),
            Kind::DiscReq,
            100,
            0,
            "3000481802000000010000006400000000000000000000000000000002000400dcc6761485ad9dc69b4b32a09ac3a61a",
        ),
        (
            rule(CodeLength::Eight, plain),
            Kind::Data,
            100,
            0,
            "510060180200000001000000640000000000000000000000000000002b0000000000000000000000000000000000000000000000000000000000000000000000000000000000000000730fde76dbf64256",
        ),
        (
            rule(CodeLength::Zero, plain),
            Kind::RetrData,
            100,
            0,
            "490061180200000001000000640000000000000000000000000000002b0000000000000000000000000000000000000000000000000000000000000000000000000000000000000000",
        ),
    ];
    for (rule, kind, sn, cs, text) in cases {
        let octets = hex::decode(rt.alloc(), text)?;
        let Ok(pdu) = decode(octets.as_slice(), &rule) else {
            return Err("refused".into());
        };
        assert_equal_at(&rt, text, pdu.kind, kind);
        assert_equal_at(&rt, text, (pdu.receiver, pdu.sender), (2, 1));
        assert_equal_at(&rt, text, (pdu.sn, pdu.cs, pdu.ts, pdu.cts), (sn, cs, 0, 0));
        let mut buffer = [0xaau8; 100];
        assert_true(&rt, pdu.body.len() <= 50);
        let size = encode(&pdu, &rule, &mut buffer);
        let (front, rest) = buffer.split_at(size);
        assert_equal_at(&rt, text, front, octets.as_slice());
        assert_true_at(&rt, text, rest.iter().all(|octet| *octet == 0xaa));
    }
    Ok(())
}

// Octets that are none, and the first fault of each.
#[test]
fn names_the_first_fault(rt: HostRuntime) -> Result<(), Fail> {
    let plain = md4::INITIAL_VALUE;
    let cases = [
        (
            CodeLength::Zero,
            "1c004c180200000001000000650000000000000000000000000000",
            SafeFault::Short,
        ),
        (
            CodeLength::Eight,
            "1c004c18020000000100000065000000f40100000a00000005000000",
            SafeFault::Short,
        ),
        (
            CodeLength::Zero,
            "1d004c18020000000100000065000000f40100000a00000005000000",
            SafeFault::Length,
        ),
        // A right length, a changed first octet of code; then a changed type, which the code finds first.
        (
            CodeLength::Eight,
            "24004c18020000000100000064000000000000000000000000000000ffce7b94c43aaf48",
            SafeFault::Code,
        ),
        (
            CodeLength::Sixteen,
            "2c004d18020000000100000065000000f40100000a0000000500000069e0070520664a84a3525f03fc360cc4",
            SafeFault::Code,
        ),
        // The second half of a code of 16 octets counts.
        (
            CodeLength::Sixteen,
            "2c004c18020000000100000065000000f40100000a0000000500000069e0070520664a84a3525f03fc360cc5",
            SafeFault::Code,
        ),
        (
            CodeLength::Zero,
            "1c004d18020000000100000065000000f40100000a00000005000000",
            SafeFault::BadType,
        ),
        (
            CodeLength::Zero,
            "1d004c18020000000100000065000000f40100000a0000000500000000",
            SafeFault::Body,
        ),
        // A ConnReq whose version has a letter, whose N_sendmax is 0, 33, whose reserve is set.
        (
            CodeLength::Zero,
            "2a0038180200000001000000640000000000000000000000000000003033306114000000000000000000",
            SafeFault::Body,
        ),
        (
            CodeLength::Zero,
            "2a0038180200000001000000640000000000000000000000000000003033303300000000000000000000",
            SafeFault::Body,
        ),
        (
            CodeLength::Zero,
            "2a0038180200000001000000640000000000000000000000000000003033303321000000000000000000",
            SafeFault::Body,
        ),
        (
            CodeLength::Zero,
            "2a0038180200000001000000640000000000000000000000000000003033303314000000000000000001",
            SafeFault::Body,
        ),
        // A DiscReq and a Data that are too short.
        (
            CodeLength::Zero,
            "1f004818020000000100000065000000f40100000a00000005000000000000",
            SafeFault::Body,
        ),
        (
            CodeLength::Zero,
            "1d006018020000000100000065000000f40100000a0000000500000000",
            SafeFault::Body,
        ),
    ];
    for (length, text, fault) in cases {
        let octets = hex::decode(rt.alloc(), text)?;
        assert_equal_at(
            &rt,
            text,
            decode(octets.as_slice(), &rule(length, plain)),
            Err(fault),
        );
    }
    Ok(())
}
