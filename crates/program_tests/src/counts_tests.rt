use crate::assertions::assert_equal;
use channels::{Channels, MemChannels, Note};
use rasta_run::{ChannelCounts, ExpectedHeader, RecordedChannels};
use safe_machine::{Detail, DropCause, Reason, Step};
use safe_pdu::Kind;
use std::process::Abort;
use std::test::Fail;

/// Returns a datagram with this redundancy number and PDU type.
fn datagram(number: u32, kind: Kind) -> [u8; 36] {
    let mut octets = [0; 36];
    octets[4..8].copy_from_slice(&number.to_le_bytes());
    octets[10..12].copy_from_slice(&kind.number().to_le_bytes());
    octets
}

// No clause says that channels record what they send, receive and are told: each datagram counts on its channel; a request is an event on the
// first one only; a stranger counts at the channel of the last datagram, if it is of that; and what ends a connection is counted.
#[test]
fn records_what_an_end_does(rt: HostRuntime) -> Result<(), Fail> {
    let wanted = ExpectedHeader {
        peer_id: 1,
        id: 2,
        code: 8,
    };
    let inner = MemChannels::new(rt.alloc(), 8)?;
    records(
        &rt,
        &mut RecordedChannels::over(rt.alloc(), inner, true, wanted)?,
    )
}

fn records(rt: &impl Abort, channels: &mut RecordedChannels<MemChannels>) -> Result<(), Fail> {
    let request = datagram(0, Kind::RetrReq);
    for (channel, datagram) in [
        (1, request),
        (2, request),
        (1, datagram(1, Kind::Heartbeat)),
    ] {
        let _sent = channels.send(channel, &datagram);
    }
    channels.inner.add(2, &datagram(5, Kind::Data))?;
    let _came = channels.receive(&mut [0; 64]);
    for (number, step) in [
        (5, Step::Dropped(DropCause::Stranger)),
        (4, Step::Dropped(DropCause::Stranger)),
        (5, Step::Dropped(DropCause::Number)),
        (0, Step::Taken),
        (2, Step::Left(Reason::Timeout, Detail::Unspecified)),
        (3, Step::Nothing),
    ] {
        channels.note(&Note::Step(number, step));
    }
    let recorder = &channels.recorder;
    let [first, second, third, _] = recorder.channels;
    assert_equal(rt, (first.sent, second.sent), (2, 1));
    assert_equal(rt, (second.strangers, second.damaged), (1, 0));
    assert_equal(rt, third, ChannelCounts::none());
    assert_equal(rt, recorder.closing, 2);
    Ok(())
}
