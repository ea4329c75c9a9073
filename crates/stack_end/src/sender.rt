//! Sending PDUs: each gets the next redundancy number and goes out on every channel.

ghost use Rattle.std.specs.Prelude.{◌≡◌, ◌+◌, ◌≤◌, ◌%◌, ◌^◌, length};
ghost use Rattle.octets.specs.declared.limits.TheConstants.{SAFE_PDU_MAX};
ghost use Rattle.std.specs.List.{FoldsTo};
ghost use Rattle.red_layer.specs.pdu.RedText.{red_text};
ghost use Rattle.channels.specs.ChannelHistory.{SendsOne};
ghost use Rattle.stack_end.specs.Datagrams.{on_channels};
ghost use Rattle.stack_end.specs.Statistics.{with_pdu};

use crate::statistics::MadeCounts;
use channels::Channels;
use octets::limits::{RED_HEADER, RED_PDU_MAX};
use red_layer::Numbers;
use safe_machine::PduOut;

/// The size of the short buffer. A buffer is cleared before each use, and most datagrams fit this one.
const SHORT_DATAGRAM: usize = 136;

/// Receives the PDUs that a machine makes, numbers them, and sends each on every channel.
#[derive(Drop)]
pub(crate) struct ToChannels<'a, 'b, 'c, C> {
    /// The channels of the end.
    pub(crate) channels: &'a mut C,
    /// The redundancy numbers of this incarnation.
    pub(crate) numbers: &'b mut Numbers,
    /// The counts of what was made.
    pub(crate) made: &'c mut MadeCounts,
    /// The number of channels.
    pub(crate) count: usize,
}

impl<'a, 'b, 'c, C: Channels> PduOut for ToChannels<'a, 'b, 'c, C> {
    ghost makes = { λ s pdu t.
        (t.channels.ghost_name ≡ s.channels.ghost_name) × (t.numbers.ghost_name ≡ s.numbers.ghost_name)
        × (t.made.ghost_name ≡ s.made.ghost_name)
        × (t.count ≡ s.count)
        × (t.made.now ≡ with_pdu pdu s.made.now)
        × (t.numbers.now ≡ (s.numbers.now + 1) % 2 ^ 32)
        × FoldsTo SendsOne (C.told s.channels.now) (on_channels s.count (red_text s.numbers.now pdu))
        (C.told t.channels.now) };

    fn made(&mut self, pdu: &[u8]) {
        let number = self.numbers.next();
        self.made.count_pdu(pdu);
        if RED_HEADER + pdu.len() <= SHORT_DATAGRAM {
            let mut buffer = [0; SHORT_DATAGRAM];
            send_by(self.channels, self.count, number, pdu, &mut buffer);
        } else {
            let mut buffer = [0; RED_PDU_MAX];
            send_by(self.channels, self.count, number, pdu, &mut buffer);
        }
    }
}

/// Encodes a redundancy PDU in a buffer and sends it on every channel.
fn send_by<C: Channels>(channels: &mut C, count: usize, number: u32, pdu: &[u8], buffer: &mut [u8])
    requires fits { length pdu.now ≤ SAFE_PDU_MAX }
    requires room { RED_HEADER + length pdu.now ≤ length buffer.old }
    ensures { FoldsTo SendsOne (C.told channels.old) (on_channels count (red_text number pdu.now)) (C.told channels.new) }
{
    let size = red_layer::pdu::encode(number, pdu, buffer);
    send_on_all(channels, count, &buffer[..size]);
}

/// Sends a datagram on every channel in order. A failed send is a lost copy, and sending goes on.
fn send_on_all<C: Channels>(channels: &mut C, count: usize, datagram: &[u8])
    ensures { FoldsTo SendsOne (C.told channels.old) (on_channels count datagram.now) (C.told channels.new) }
{
    for channel in 0..count {
        let _ = channels.send(channel + 1, datagram);
    }
}
