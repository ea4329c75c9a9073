//! Channels that pass everything on, and record it for the log and the counts.
//!
//! The end makes no note beyond what it did, no promise depends on the log, and an end without a log pays one test
//! a datagram.

ghost use Rattle.std.specs.Prelude.{◌≡◌, ◌≤◌, true, length, is_ok, IfOk, IfSome};
ghost use Rattle.channels.specs.ChannelHistory.{Sends, after_receive};

use crate::recorder::{ExpectedHeader, Recorder};
use channels::{ChannelFault, Channels, Note};
use std::alloc::{AllocError, Global};

/// Channels that record. Everything sent and received goes through unchanged; notes of the end are recorded, too.
#[derive(Drop)]
pub struct RecordedChannels<C> {
    /// The channels themselves.
    pub inner: C,
    /// The recorder. It is on the heap, so that an end stays small enough to be moved.
    pub recorder: Box<Recorder>,
}

impl<C: Drop> RecordedChannels<C> {
    /// Wraps channels with a recorder, or with one that keeps nothing.
    ///
    /// # Errors
    ///
    /// - Returns the error if an allocation fails.
    pub fn over(
        alloc: Global,
        inner: C,
        listens: bool,
        wanted: ExpectedHeader,
    ) -> Result<Self, AllocError>
        // If `over` succeeds, the channels inside are the ones given.
        ensures inner { IfOk result (λ o. o.inner ≡ inner) }
        // If `over` succeeds, the recorder listens if and only if `listens` is true.
        ensures listens { IfOk result (λ o. o.recorder.value.listens ≡ listens) }
        // If `over` succeeds, the recorder knows what its end expects.
        ensures wanted { IfOk result (λ o. o.recorder.value.wanted ≡ wanted) }
    {
        let recorder = Box::new(alloc, Recorder::new(listens, wanted))?;
        Ok(RecordedChannels { inner, recorder })
    }
}

impl<C: Channels> Channels for RecordedChannels<C> {
    // The datagrams, results and failures are those of the channels inside.
    ghost told = { λ o. C.told o.inner };

    fn send(&mut self, channel: usize, datagram: &[u8]) -> Result<(), ChannelFault> {
        let result = self.inner.send(channel, datagram);
        self.recorder.record_sent(channel, datagram, result.is_ok());
        result
    }

    fn receive(&mut self, buffer: &mut [u8]) -> Result<Option<(usize, usize)>, ChannelFault> {
        let result = self.inner.receive(buffer);
        if let Ok(Some((channel, size))) = result {
            self.recorder.record_received(channel, &buffer[..size]);
        }
        result
    }

    /// Returns whether notes of the end are recorded.
    fn hears_notes(&self) -> bool
        // `hears_notes` is true if and only if the recorder listens.
        ensures { result ≡ self.now.recorder.value.listens }
    {
        self.recorder.listens
    }

    fn note(&mut self, note: &Note<'_>) {
        self.recorder.record_note(note);
    }
}
