//! The channels of an end: the transport that datagrams are sent on and received from. Channels see only bytes; they
//! can receive notes of the end's work.
//!
//! Channels are not trusted: they may lose, repeat, delay, reorder and damage datagrams (EN 50159).
#![tactic(auto)]

ghost use Rattle.std.specs.Prelude.{◌≡◌, ◌≤◌, length, is_ok, IfOk, IfSome};
ghost use Rattle.channels.specs.ChannelHistory.{ChannelHistory, Sends, after_receive};

mod memory;
mod note;

pub use memory::{MemChannels, MemoryFault};
pub use note::Note;

/// Why a datagram was not sent, or nothing could be received.
#[derive(Clone, Copy, Debug, PartialEq, Eq)]
pub enum ChannelFault {
    /// There is no room for the datagram, or there is no such channel.
    Room,
    /// The operating system refused the call.
    System,
}

/// The channels of an end, numbered from 1.
///
/// A send either succeeds or fails at once; a reception never waits. An implementation that keeps its datagrams
/// states their lists in `told`; one over sockets does not. Both count failures, modulo 2^64, and return a
/// fault if and only if they have counted it.
pub trait Channels {
    /// What contracts know of the channels: the datagrams sent, the results of `receive`, and how often each of
    /// the two calls failed.
    ghost told: { Self → ChannelHistory };

    /// Sends a datagram of at most 1,258 bytes on a channel.
    ///
    /// # Errors
    ///
    /// - `Room` if there is no room for the datagram, or no such channel;
    /// - `System` if the operating system refuses it.
    ///
    /// In both cases the datagram was not sent, and only the count of failed sends has changed.
    fn send(&mut self, channel: usize, datagram: &[u8]) -> Result<(), ChannelFault>
        // A successful send appends the datagram and its channel to those sent; a failed one only adds 1 to the
        // failed sends. A send on a channel with room for it succeeds, and uses one place of that channel only.
        // Receptions are not affected.
        ensures { Sends (is_ok result) (told self.old) (channel, datagram.now) (told self.new) };

    /// Copies the next received datagram to the start of the buffer, cut to the buffer's length, and returns
    /// its channel and its size in bytes. Returns `None` if nothing has come. It never waits.
    ///
    /// # Errors
    ///
    /// - `Room` or `System` if the reception failed; it is counted.
    fn receive(&mut self, buffer: &mut [u8]) -> Result<Option<(usize, usize)>, ChannelFault>
        // The returned size is at most the length of the buffer.
        ensures fits { IfOk result (λ came. IfSome came (λ p. p.1 ≤ length buffer.new)) }
        // A successful reception appends its result to those received, `None` included; a failed one adds 1 to
        // the failed receptions. Nothing sent is affected.
        ensures told { told self.new ≡ after_receive result buffer.new (told self.old) };

    /// Returns true if it wants notes; if not, an end makes none. The provided body returns false.
    fn hears_notes(&self) -> bool {
        false
    }

    /// Receives a note. It comes after the part that it is about, since the sender of PDUs holds the channels until
    /// then. The provided body ignores it.
    fn note(&mut self, note: &Note<'_>)
        // A note changes nothing that `told` shows: neither datagrams nor counts.
        ensures { told self.new ≡ told self.old }
    {
        let _note = note;
    }
}
