//! Channels over UDP sockets, which never block, and a wait for all of them at once.

ghost use Rattle.std.specs.Prelude.{◌≡◌, ◌≢◌, ◌+◌, ◌^◌, ◌<◌, ◌++◌, false, true, List, Err, length, map, IfErr, IfOk, MatchOption};
ghost use Rattle.std.specs.Net.Grammar.{IsSocketText};
ghost use Rattle.udp_channels.specs.Sockets.{ChannelState, are_paired, new_sockets_state};
ghost use Rattle.udp_channels.specs.Paths.{AreBound, Path};
ghost use Rattle.udp_channels.specs.declared.paths.Addresses.{Addresses};
ghost use Rattle.udp_channels.specs.Addresses.{AreSpelled, IsRefusal, IsRefusedAt, IsUnbound, IsUnread, IsUnreadAt, SpellsAddresses};

use crate::paths::{Addresses, UdpCalls, UdpPath};
use crate::sockets::{SocketChannel, SocketChannels};
use mio::net::UdpSocket;
use mio::unix::SourceFd;
use mio::{Events, Interest, Poll, Token};
use octets::limits::CHANNELS_MAX;
use std::alloc::{Allocator, Global};
use std::convert::AsStr;
use std::io;
use std::net::{Net, SocketAddr};
use std::time::Duration;

/// The greatest number of events that one wait takes. More than one for each socket of two ends is of no
/// use.
const EVENTS: usize = 2 * CHANNELS_MAX;

/// Channels over UDP: a socket for each channel, numbered from 1. A datagram is received from any sender.
pub type UdpChannels<A = Global> = SocketChannels<UdpPath, A>;

/// Why channels were not opened, in the order in which it is tested.
#[derive(Clone, Copy, Debug, PartialEq, Eq)]
pub enum UdpFault {
    /// The lists do not have the same length from 1 to 4.
    Lists,
    /// There is no memory for them.
    Memory,
    /// A text is not an address with a port.
    Address(Place),
    /// The system refuses a socket at a channel's own address, for example because it is in use or another
    /// machine's.
    Bind(Refusal),
    /// The system has no means to wait.
    Wait,
}

/// The place of an address in the two lists.
#[derive(Clone, Copy, Debug, PartialEq, Eq)]
pub struct Place {
    /// Its channel, from 1.
    pub channel: usize,
    /// Whether it is the channel's own address, and not its peer's.
    pub is_own: bool,
}

/// A socket that the system refused.
#[derive(Clone, Copy, Debug, PartialEq, Eq)]
pub struct Refusal {
    /// Its channel, from 1.
    pub channel: usize,
    /// The system's number for the reason (`errno`), if it gave one.
    pub error: Option<i32>,
}

/// Opens channels: binds a socket for each pair of addresses, such as `127.0.0.1:46101`. Host names are not
/// resolved.
///
/// # Errors
///
/// - `Lists` if the lists do not have the same length from 1 to 4;
/// - `Memory` if there is no memory;
/// - `Address` with the place of the first text that is not an address, before any socket is bound;
/// - `Bind` with the channel and the system's number if the system refuses a socket.
pub fn open_udp<N: Net, S: AsStr, A: Allocator + Copy>(
    alloc: A,
    net: &N,
    local: &[S],
    remote: &[S],
) -> Result<UdpChannels<A>, UdpFault>
    // If `open_udp` succeeds, each channel has a socket, in order, between the addresses of the two texts
    // of its place, bound to the own one. Nothing has failed on it.
    ensures opened { IfOk result (λ c. (all : List Addresses) × AreSpelled (map S.text local.now) (map S.text remote.now) all
        × AreBound ⟦<UdpSocket as UdpCalls>⟧.is_bound all c.channels) }
    // No opened channel has given a datagram, and all counts are 0.
    ensures counts { IfOk result (λ c. c ≡ new_sockets_state c.channels) }
    // If the lists do not have the same length from 1 to 4, the fault is `Lists`.
    ensures lists { are_paired local.now remote.now ≡ false → result ≡ Err UdpFault.Lists }
    // With paired lists, the fault is `Memory`, `Address` with a bad text of the first channel that has
    // one, or, if all texts are addresses, `Bind` with a channel.
    ensures refused { are_paired local.now remote.now ≡ true → IfErr result (IsRefusal (map S.text local.now) (map S.text remote.now)) }
{
    if local.len() != remote.len() || local.is_empty() || local.len() > CHANNELS_MAX {
        return Err(UdpFault::Lists);
    }
    let Ok(mut addresses) = Vec::with_capacity(alloc, local.len()) else {
        return Err(UdpFault::Memory);
    };
    list_addresses(local, remote, 1, &mut addresses)?;
    let Ok(mut channels) = Vec::with_capacity(alloc, local.len()) else {
        return Err(UdpFault::Memory);
    };
    bind_all(net, addresses.as_slice(), 1, &mut channels)?;
    Ok(SocketChannels::over(channels))
}

/// Waits until one of the watched sockets has a datagram. A process needs one for all of its ends.
///
/// It detects only changes: before each wait, receive from the channels until nothing comes, and wait with
/// a limit.
#[derive(Drop)]
pub struct Watch<A: Allocator = Global> {
    /// The system's means to wait for readable sockets.
    poll: Poll,
    /// Room for the events of one wait.
    events: Events<A>,
}

impl<A: Allocator + Copy> Watch<A> {
    /// Opens a wait that watches nothing.
    ///
    /// # Errors
    ///
    /// - `Memory` if there is no memory;
    /// - `Wait` if the system has no means to wait.
    pub fn open<N: Net>(alloc: A, net: &N) -> Result<Self, UdpFault>
        // The fault of `open` is `Memory` or `Wait`.
        ensures { IfErr result (λ why. (why ≢ UdpFault.Memory → why ≡ UdpFault.Wait)) }
    {
        let Ok(events) = Events::with_capacity(alloc, EVENTS) else {
            return Err(UdpFault::Memory);
        };
        match Poll::new(net) {
            Ok(poll) => Ok(Watch { poll, events }),
            Err(_) => Err(UdpFault::Wait),
        }
    }
}

impl<A: Allocator> Watch<A> {
    /// Watches the sockets of these channels in addition.
    ///
    /// # Errors
    ///
    /// The system's error, for example because they are already watched.
    pub fn add<B: Allocator>(&self, channels: &mut UdpChannels<B>) -> io::Result<()>
        // The channels do not change when `add` watches them.
        ensures { channels.new ≡ channels.old }
    {
        self.add_all(channels.list.as_mut_slice())
    }

    /// Watches a descriptor in addition, for example that of standard input: if it becomes readable, a wait
    /// ends.
    ///
    /// # Errors
    ///
    /// The system's error, for example because it is a file, which is always readable.
    pub fn add_descriptor(&self, descriptor: i32) -> io::Result<()> {
        self.poll
            .registry()
            .register(&mut SourceFd(&descriptor), Token(0), Interest::READABLE)
    }

    /// Waits until a datagram comes or the time is up. A fraction of a millisecond counts as one. It can
    /// end early, and does not report what came: ask the channels.
    pub fn wait(&mut self, limit: Duration) {
        let _waited = self.poll.poll(&mut self.events, Some(limit));
    }

    /// Watches the sockets of these channels in addition.
    fn add_all(&self, channels: &mut [SocketChannel<UdpPath>]) -> io::Result<()>
        ensures { channels.new ≡ channels.old }
    {
        let Some((channel, others)) = channels.split_first_mut() else {
            return Ok(());
        };
        self.poll
            .registry()
            .register(&mut channel.socket.socket, Token(0), Interest::READABLE)?;
        self.add_all(others)
    }
}

/// Appends the addresses of each channel to the list. `channel` is the number of the first.
fn list_addresses<S: AsStr, A: Allocator>(
    own: &[S],
    peer: &[S],
    channel: usize,
    list: &mut Vec<Addresses, A>,
) -> Result<(), UdpFault>
    requires pairs { length own.now ≡ length peer.now }
    requires counted { channel + length own.now < 2 ^ 64 }
    // If `list_addresses` succeeds, the addresses that the texts spell, one pair for each channel in order,
    // are appended to the list.
    ensures ok { IfOk result (λ _. (read : List Addresses) × (list.new.items ≡ list.old.items ++ read)
        × AreSpelled (map S.text own.now) (map S.text peer.now) read) }
    // The fault of `list_addresses` is `Memory`, or `Address` with the place of a text that is not an
    // address, in the first channel that has one.
    ensures refused { IfErr result (IsUnread channel (map S.text own.now) (map S.text peer.now)) }
{
    let ([first, own @ ..], [second, peer @ ..]) = (own, peer) else {
        return Ok(());
    };
    let addresses = addresses_of(first, second, channel)?;
    if list.push(addresses).is_err() {
        return Err(UdpFault::Memory);
    }
    list_addresses(own, peer, channel + 1, list)
}

/// Returns the addresses of one channel.
fn addresses_of<S: AsStr>(own: &S, peer: &S, channel: usize) -> Result<Addresses, UdpFault>
    // If `addresses_of` succeeds, both texts spell the returned addresses.
    ensures ok { IfOk result (SpellsAddresses (S.text own.now) (S.text peer.now)) }
    // The fault of `addresses_of` is `Address` with the channel and the side of a text that is not an
    // address.
    ensures refused { IfErr result (IsUnreadAt channel (S.text own.now) (S.text peer.now)) }
{
    let Some(own) = address(own.as_str()) else {
        return Err(UdpFault::Address(Place {
            channel,
            is_own: true,
        }));
    };
    let Some(peer) = address(peer.as_str()) else {
        return Err(UdpFault::Address(Place {
            channel,
            is_own: false,
        }));
    };
    Ok(Addresses { own, peer })
}

/// Returns whether a text is an address with a port, as `open_udp` needs it.
pub fn is_address(text: &str) -> bool
    // If the result is `true`, the text is an address with a port.
    ensures yes { result ≡ true → (a : SocketAddr) × IsSocketText text.now a }
    // If the result is `false`, the text is not an address with a port.
    ensures no { result ≡ false → (a : SocketAddr) → ¬ IsSocketText text.now a }
{
    address(text).is_some()
}

/// Returns the address with a port that a text spells.
fn address(text: &str) -> Option<SocketAddr>
    ensures { MatchOption result ((a : SocketAddr) → ¬ IsSocketText text.now a) (IsSocketText text.now) }
{
    text.parse::<SocketAddr>().ok()
}

/// Appends a channel for each pair of addresses to the list. `channel` is the number of the first.
fn bind_all<T: UdpCalls + Drop, N: Net, A: Allocator>(
    net: &N,
    addresses: &[Addresses],
    channel: usize,
    list: &mut Vec<SocketChannel<UdpPath<T>>, A>,
) -> Result<(), UdpFault>
    requires counted { channel + length addresses.now < 2 ^ 64 }
    // If `bind_all` succeeds, it has appended a channel for each pair, in order, whose socket is bound to the own
    // address.
    ensures ok { IfOk result (λ _. (made : List (ChannelState (Path T))) × (list.new.items ≡ list.old.items ++ made)
        × AreBound T.is_bound addresses.now made) }
    // The fault of `bind_all` is `Memory`, or `Bind` with one of the channels.
    ensures refused { IfErr result (IsUnbound channel addresses.now) }
{
    let Some((first, others)) = addresses.split_first() else {
        return Ok(());
    };
    let path = bind_one(net, *first, channel)?;
    if list.push(SocketChannel::over(path)).is_err() {
        return Err(UdpFault::Memory);
    }
    bind_all(net, others, channel + 1, list)
}

/// Binds the socket of a channel.
fn bind_one<T: UdpCalls, N: Net>(
    net: &N,
    addresses: Addresses,
    channel: usize,
) -> Result<UdpPath<T>, UdpFault>
    // If `bind_one` succeeds, the path has these addresses, and its socket is bound to the own one.
    ensures ok { IfOk result (λ path. (path.addresses ≡ addresses) × T.is_bound path.socket addresses.own) }
    // The fault of `bind_one` is `Bind` with the channel.
    ensures refused { IfErr result (IsRefusedAt channel) }
{
    match UdpPath::bind(net, addresses) {
        Ok(path) => Ok(path),
        Err(error) => Err(UdpFault::Bind(Refusal {
            channel,
            error: error.raw_os_error(),
        })),
    }
}
