//! Channels over one socket each. A socket is a trait of two calls, one call of the system each, so that a
//! test can replace it. The calls themselves are trusted.

ghost use Rattle.std.specs.Prelude.{◌≡◌, ◌+◌, ◌^◌, ◌<◌, ◌≤◌, ℕ, Result, false, List, Err, length, is_ok, IfErr, IfOk, IfSome};
ghost use Rattle.channels.specs.ChannelHistory.{Sends, after_receive, answers_of};
ghost use Rattle.udp_channels.specs.Sockets.{AsksChannels, AsksAround, FitsBuffer, IsAsked, IsSent, SendsOn, failures_of, fault_on, last_after, new_channel, new_sockets_state, no_failures, octets_of, one_more, received_count_after, history_of, unless_failed};
ghost use Rattle.channels.specs.declared.ChannelFault.TheVariants as channel_fault;
ghost use Rattle.udp_channels.specs.declared.sockets.CallFault.{CallFault};
ghost use Rattle.udp_channels.specs.declared.sockets.Reception.{Reception};

use channels::{ChannelFault, Channels};
use std::alloc::{Allocator, Global};
use std::marker::Model;

/// Why the system refused a call.
#[derive(Clone, Copy, Debug, PartialEq, Eq)]
pub struct CallFault {
    /// The system's number for the reason (`errno`), if it gave one.
    pub error: Option<i32>,
}

/// The result of asking a socket for a datagram.
#[derive(Clone, Copy, Debug, PartialEq, Eq)]
pub enum Reception {
    /// A datagram came. Its size is the number of bytes at the start of the buffer.
    Came(usize),
    /// None has come.
    Nothing,
    /// The operating system refused the call.
    Refused(CallFault),
}

/// The connection of one channel to its peer. Over UDP, each call is one call of the system and nothing
/// else.
pub trait Socket {
    /// What a send does: the datagram, whether the socket accepted it or why not, and the socket afterwards.
    ghost sends: { Self → List ℕ → Result (Unit {0}) CallFault → Self → Type 0 };

    /// What a reception does: the length of the buffer, the result, the bytes received, and the socket
    /// afterwards.
    ghost receives: { Self → ℕ → Reception → List ℕ → Self → Type 0 };

    /// Sends a datagram.
    ///
    /// # Errors
    ///
    /// Why the socket did not accept it.
    fn send(&mut self, datagram: &[u8]) -> Result<(), CallFault>
        // One call of `send` does to the socket what its `sends` says for this datagram and result.
        ensures { sends self.old datagram.now result self.new };

    /// Copies the next received datagram to the start of the buffer, cut to the buffer's length. It never
    /// waits.
    fn receive(&mut self, buffer: &mut [u8]) -> Reception
        // One call of `receive` does to the socket what its `receives` says for this buffer length, result
        // and the bytes received.
        ensures gives { receives self.old (length buffer.old) result (octets_of result buffer.new) self.new }
        // A datagram received has at most the length of the buffer.
        ensures fits { FitsBuffer result (length buffer.old) };
}

/// The calls of one kind that failed on one channel.
#[derive(Clone, Copy, Debug, PartialEq, Eq)]
pub struct FailedCalls {
    /// How many there were, modulo 2^64.
    pub count: u64,
    /// Why the last one failed, if there was one.
    pub last: Option<CallFault>,
}

impl FailedCalls {
    /// Counts a call that failed, and records why.
    fn add(&mut self, why: CallFault)
        ensures { self.new ≡ one_more why self.old }
    {
        *self = FailedCalls {
            count: self.count.wrapping_add(1),
            last: Some(why),
        };
    }
}

/// The calls that failed on one channel.
#[derive(Clone, Copy, Debug, PartialEq, Eq)]
pub struct Failures {
    /// The sends that its socket did not accept.
    pub sends: FailedCalls,
    /// The receptions that its socket refused.
    pub receives: FailedCalls,
}

impl Failures {
    /// Returns the failures of a channel that was not used.
    pub fn none() -> Self
        // In `none` no call has failed.
        ensures { result ≡ no_failures }
    {
        let none = FailedCalls {
            count: 0,
            last: None,
        };
        Failures {
            sends: none,
            receives: none,
        }
    }
}

/// One channel: its socket, and the calls that failed.
#[derive(Drop)]
pub struct SocketChannel<S> {
    /// The socket.
    pub(crate) socket: S,
    /// The calls that failed.
    failures: Failures,
}

impl<S> Model for SocketChannel<S> {
    ghost use Rattle.udp_channels.specs.Sockets.{ChannelState};

    ghost Value = { ChannelState S };

    ghost view = { λ c. record { socket = c.socket; failures = c.failures } };
}

impl<S> SocketChannel<S> {
    /// Returns a channel over this socket.
    pub fn over(socket: S) -> Self
        // A new channel has the given socket, and no call has failed.
        ensures { result ≡ new_channel socket }
    {
        SocketChannel {
            socket,
            failures: Failures::none(),
        }
    }
}

impl<S: Socket> SocketChannel<S> {
    /// Sends a datagram once, and counts a failure with its cause.
    fn send(&mut self, datagram: &[u8]) -> Result<(), CallFault>
        ensures { IsSent S.sends datagram.now result self.old self.new }
    {
        let sent = self.socket.send(datagram);
        if let Err(why) = sent {
            self.failures.sends.add(why);
        }
        sent
    }

    /// Asks the socket once for a datagram, and counts a refusal with its cause.
    fn receive(&mut self, buffer: &mut [u8]) -> Reception
        // The socket makes one reception, and this channel counts a refusal with its cause.
        ensures asked { IsAsked S.receives (length buffer.old) result (octets_of result buffer.new) self.old self.new }
        // What the socket gives has at most the length of the buffer.
        ensures fits { FitsBuffer result (length buffer.old) }
    {
        let reception = self.socket.receive(buffer);
        if let Reception::Refused(why) = reception {
            self.failures.receives.add(why);
        }
        reception
    }
}

/// Channels over sockets, numbered from 1. No receive buffer is requested: the system's buffer holds the
/// datagrams.
#[derive(Drop)]
pub struct SocketChannels<S, A: Allocator = Global> {
    /// The channels, that of number 1 first.
    pub(crate) list: Vec<SocketChannel<S>, A>,
    /// The number of the channel that gave the last datagram, 0 before the first.
    last: usize,
    /// How many sends have failed, modulo 2^64.
    failed_sends: u64,
    /// How many receptions have failed, modulo 2^64.
    failed_receives: u64,
    /// How many datagrams were received, modulo 2^64.
    received: u64,
}

impl<S, A: Allocator> Model for SocketChannels<S, A> {
    ghost use Rattle.std.specs.Prelude.{◌≤◌, length};
    ghost use Rattle.udp_channels.specs.Sockets.{SocketsState};

    ghost Value = { SocketsState S };

    ghost view = { λ c. record {
      channels = c.list.items;
      last = c.last;
      failed_sends = c.failed_sends;
      failed_receives = c.failed_receives;
      received = c.received;
    } };

    ghost invariant = { λ c. c.last ≤ length c.list.items };
}

impl<S, A: Allocator> SocketChannels<S, A> {
    /// Combines channels, that of number 1 first, with all counts 0.
    pub fn over(channels: Vec<SocketChannel<S>, A>) -> Self
        // The channels are the ones given, in order; none has given a datagram, and all counts are 0.
        ensures { result ≡ new_sockets_state channels.items }
    {
        SocketChannels {
            list: channels,
            last: 0,
            failed_sends: 0,
            failed_receives: 0,
            received: 0,
        }
    }

    /// Returns how many datagrams were received, modulo 2^64. If none came in a turn, it is time to wait.
    pub fn received_count(&self) -> u64
        // The result is the count of datagrams received.
        ensures { result ≡ self.now.received }
    {
        self.received
    }

    /// Returns how often the calls of a channel failed and why they last did, or `None` if there is no channel of
    /// this number. A channel that fails keeps no other from being asked, so look here for it.
    pub fn failures(&self, channel: usize) -> Option<Failures>
        // The result is the failures of this very channel; `None` if and only if there is none of this number.
        ensures { result ≡ failures_of channel self.now.channels }
    {
        if channel == 0 {
            return None;
        }
        match self.list.get(channel - 1) {
            Some(found) => Some(found.failures),
            None => None,
        }
    }
}

impl<S: Socket, A: Allocator> Channels for SocketChannels<S, A> {
    ghost told = { history_of };

    /// Sends the datagram once on the channel's own socket.
    ///
    /// # Errors
    ///
    /// - `Room` if there is no such channel;
    /// - `System` if the socket does not accept the datagram.
    fn send(&mut self, channel: usize, datagram: &[u8]) -> Result<(), ChannelFault>
        // As seen by the contract of `Channels`, `send` counts a failure and changes nothing else.
        ensures told { Sends (is_ok result) (history_of self.old) (channel, datagram.now) (history_of self.new) }
        // The channel's own socket gets the datagram once, and this channel counts a failure with its cause. No
        // other channel changes. `send` succeeds if and only if the socket accepts it; without such a channel
        // nothing is sent.
        ensures sent { SendsOn S.sends channel datagram.now (is_ok result) self.old.channels self.new.channels }
        // `send` does not change which channel gave the last datagram.
        ensures last { self.new.last ≡ self.old.last }
        // `send` does not change the count of datagrams received.
        ensures received { self.new.received ≡ self.old.received }
        // The fault is `Room` if there is no such channel, else `System`.
        ensures fault { IfErr result (λ why. why ≡ fault_on channel self.old.channels) }
    {
        let result = send_on(self.list.as_mut_slice(), channel, datagram);
        if result.is_err() {
            self.failed_sends = self.failed_sends.wrapping_add(1);
        }
        result
    }

    /// Asks the channels in a circle, from the one after the channel that gave the last datagram on, until one
    /// gives a datagram. A channel whose socket refuses counts that, and the next one is asked.
    ///
    /// So a channel that has a datagram gives it after at most one of each other channel.
    ///
    /// # Errors
    ///
    /// - `System` if every socket refuses.
    fn receive(&mut self, buffer: &mut [u8]) -> Result<Option<(usize, usize)>, ChannelFault>
        // The size of a datagram that a socket gave is at most the length of the buffer.
        ensures fits { IfOk result (λ came. IfSome came (λ p. p.1 ≤ length buffer.new)) }
        // As seen by the contract of `Channels`, `receive` counts a failure and changes nothing else.
        ensures told { history_of self.new ≡ after_receive result buffer.new (history_of self.old) }
        // The channels are asked in a circle, from the one after the channel that gave the last datagram on, until
        // one gives a datagram, which is returned with its number. One that refuses counts it and stops nothing.
        // `receive` fails if and only if all refuse.
        ensures asked { AsksAround S.receives (length buffer.old) self.old.last (answers_of result buffer.new) self.old.channels self.new.channels }
        // A channel that gave a datagram is the last one that did; otherwise that does not change.
        ensures last { self.new.last ≡ last_after result self.old.last }
        // The count of datagrams received grows by 1, modulo 2^64, if and only if a datagram is returned.
        ensures received { self.new.received ≡ received_count_after result self.old.received }
        // The only fault of `receive` is `System`.
        ensures fault { IfErr result (λ why. why ≡ channel_fault.System) }
    {
        let result = receive_from_any(self.list.as_mut_slice(), self.last, buffer);
        if let Ok(Some((channel, _))) = result {
            self.last = channel;
            self.received = self.received.wrapping_add(1);
        }
        if result.is_err() {
            self.failed_receives = self.failed_receives.wrapping_add(1);
        }
        result
    }

    /// Returns false: nothing listens for notes here.
    fn hears_notes(&self) -> bool
        // Channels over sockets receive no notes.
        ensures { result ≡ false }
    {
        false
    }
}

/// Sends a datagram on a channel.
fn send_on<S: Socket>(
    list: &mut [SocketChannel<S>],
    channel: usize,
    datagram: &[u8],
) -> Result<(), ChannelFault>
    // The channel makes one send, and no other channel changes; `send_on` succeeds if and only if its socket
    // accepts the datagram.
    ensures sent { SendsOn S.sends channel datagram.now (is_ok result) list.old list.new }
    // The fault of `send_on` is `Room` if there is no such channel, else `System`.
    ensures fault { IfErr result (λ why. why ≡ fault_on channel list.old) }
{
    if channel == 0 || channel > list.len() {
        return Err(ChannelFault::Room);
    }
    match list[channel - 1].send(datagram) {
        Ok(()) => Ok(()),
        Err(_) => Err(ChannelFault::System),
    }
}

/// Asks the channels after the one of number `last`, then those up to it, until one gives a datagram.
fn receive_from_any<S: Socket>(
    list: &mut [SocketChannel<S>],
    last: usize,
    buffer: &mut [u8],
) -> Result<Option<(usize, usize)>, ChannelFault>
    requires last { last ≤ length list.old }
    requires counted { length list.old + 1 < 2 ^ 64 }
    // `receive_from_any` asks the channels in a circle, from the one after `last` on.
    ensures asked { AsksAround S.receives (length buffer.old) last (answers_of result buffer.new) list.old list.new }
    // The size that `receive_from_any` returns is at most the length of the buffer.
    ensures fits { IfOk result (λ came. IfSome came (λ p. p.1 ≤ length buffer.new)) }
    // The channel that `receive_from_any` returns is one of the list.
    ensures within { IfOk result (λ came. IfSome came (λ p. p.0 ≤ length list.new)) }
    // The only fault of `receive_from_any` is `System`.
    ensures fault { IfErr result (λ why. why ≡ channel_fault.System) }
{
    let (earlier, later) = list.split_at_mut(last);
    match receive_in_order(later, last + 1, buffer) {
        Ok(Some(came)) => Ok(Some(came)),
        Ok(None) => or_nothing(receive_in_order(earlier, 1, buffer)),
        Err(_) => receive_in_order(earlier, 1, buffer),
    }
}

/// Asks channels in order until one gives a datagram. `first` is the number of the first channel.
fn receive_in_order<S: Socket>(
    list: &mut [SocketChannel<S>],
    first: usize,
    buffer: &mut [u8],
) -> Result<Option<(usize, usize)>, ChannelFault>
    requires { first + length list.old < 2 ^ 64 }
    // `receive_in_order` asks the channels in order until one gives a datagram, which is returned with its number. One that
    // refuses counts it and stops nothing. `receive_in_order` fails if and only if all refuse.
    ensures asked { AsksChannels S.receives (length buffer.old) first (answers_of result buffer.new) list.old list.new }
    // The size that `receive_in_order` returns is at most the length of the buffer.
    ensures fits { IfOk result (λ came. IfSome came (λ p. p.1 ≤ length buffer.new)) }
    // The channel that `receive_in_order` returns is one of the list.
    ensures within { IfOk result (λ came. IfSome came (λ p. p.0 < first + length list.new)) }
    // The only fault of `receive_in_order` is `System`.
    ensures fault { IfErr result (λ why. why ≡ channel_fault.System) }
{
    let Some((next, others)) = list.split_first_mut() else {
        return Err(ChannelFault::System);
    };
    match next.receive(buffer) {
        Reception::Came(size) => Ok(Some((first, size))),
        Reception::Nothing => or_nothing(receive_in_order(others, first + 1, buffer)),
        Reception::Refused(_) => receive_in_order(others, first + 1, buffer),
    }
}

/// Returns the result of asking several channels, if one more of them had nothing.
fn or_nothing(
    others: Result<Option<(usize, usize)>, ChannelFault>,
) -> Result<Option<(usize, usize)>, ChannelFault>
    ensures { result ≡ unless_failed others }
{
    match others {
        Ok(came) => Ok(came),
        Err(_) => Ok(None),
    }
}
