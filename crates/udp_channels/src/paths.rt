//! One channel over UDP: a socket bound to the own address, which sends to the peer's address.

ghost use Rattle.std.specs.Prelude.{◌≡◌, ◌≤◌, ℕ, List, Result, length, IfOk};
ghost use Rattle.std.specs.declared.io.Error.{Error};
ghost use Rattle.std.specs.declared.net.socket_addr.SocketAddr.{SocketAddr};
ghost use Rattle.udp_channels.specs.Paths.{IsReception, ReceivesFromAny, SendsToPeer, fault_of, given_octets, whole_send_result};

use crate::sockets::{CallFault, Reception, Socket};
use mio::net::UdpSocket;
use std::io;
use std::io::ErrorKind;
use std::marker::Model;
use std::net::{Net, SocketAddr};

/// The addresses of a channel.
#[derive(Clone, Copy, Debug, PartialEq, Eq)]
pub struct Addresses {
    /// The address that its socket is bound to.
    pub own: SocketAddr,
    /// The address that datagrams are sent to.
    pub peer: SocketAddr,
}

/// A UDP socket. Each call is one call of the system and nothing else, so that a test can replace the socket.
pub trait UdpCalls {
    /// That the socket is bound to this address.
    ghost is_bound: { Self → SocketAddr → Type 0 };

    /// What a send does: the datagram, its target, what the system gave, and the socket afterwards.
    ghost sends_to: { Self → List ℕ → SocketAddr → Result ℕ Error → Self → Type 0 };

    /// What a reception does: the length of the buffer, what the system gave, the bytes received, and the
    /// socket afterwards.
    ghost gives: { Self → ℕ → Result (ℕ × SocketAddr) Error → List ℕ → Self → Type 0 };

    /// Binds a non-blocking socket at an address.
    ///
    /// # Errors
    ///
    /// The system's error.
    fn bind_at<N: Net>(net: &N, own: SocketAddr) -> io::Result<Self>
        // A socket that was made is bound to this address.
        ensures { IfOk result (λ socket. is_bound socket own) };

    /// Sends a datagram to an address, and returns how many bytes the system took.
    ///
    /// # Errors
    ///
    /// The system's error.
    fn send_to(&mut self, datagram: &[u8], target: SocketAddr) -> io::Result<usize>
        // One call does to the socket what its `sends_to` says for this datagram, target and result.
        ensures { sends_to self.old datagram.now target result self.new };

    /// Copies the next received datagram to the start of the buffer, and returns its size and its sender.
    ///
    /// # Errors
    ///
    /// The system's error, `WouldBlock` if nothing has come.
    fn receive_from(&mut self, buffer: &mut [u8]) -> io::Result<(usize, SocketAddr)>
        // One call does to the socket what its `gives` says for this buffer length, result and the bytes
        // received.
        ensures gives { gives self.old (length buffer.old) result (given_octets result buffer.new) self.new }
        // The size returned is at most the length of the buffer.
        ensures fits { IfOk result (λ came. came.0 ≤ length buffer.old) };
}

impl UdpCalls for UdpSocket {
    ghost is_bound = { λ _ _. Unit {0} };

    ghost sends_to = { λ socket _ _ _ left. left ≡ socket };

    ghost gives = { λ socket _ _ _ left. left ≡ socket };

    fn bind_at<N: Net>(net: &N, own: SocketAddr) -> io::Result<Self> {
        UdpSocket::bind(net, own)
    }

    fn send_to(&mut self, datagram: &[u8], target: SocketAddr) -> io::Result<usize> {
        UdpSocket::send_to(self, datagram, target)
    }

    fn receive_from(&mut self, buffer: &mut [u8]) -> io::Result<(usize, SocketAddr)> {
        self.recv_from(buffer)
    }
}

/// One channel over UDP: a socket bound to the own address, and not connected.
#[derive(Drop)]
pub struct UdpPath<T = UdpSocket> {
    /// The socket.
    pub(crate) socket: T,
    /// Its addresses.
    addresses: Addresses,
}

impl<T> Model for UdpPath<T> {
    ghost use Rattle.udp_channels.specs.Paths.{Path};

    ghost Value = { Path T };

    ghost view = { λ path. record { socket = path.socket; addresses = path.addresses } };
}

impl<T: UdpCalls> UdpPath<T> {
    /// Binds a non-blocking socket at the own address.
    ///
    /// # Errors
    ///
    /// The system's error, for example because the address is in use or another machine's.
    pub fn bind<N: Net>(net: &N, addresses: Addresses) -> io::Result<Self>
        // A socket that is bound has the given `addresses`, and is bound to the own one.
        ensures { IfOk result (λ path. (path.addresses ≡ addresses) × T.is_bound path.socket addresses.own) }
    {
        let socket = T::bind_at(net, addresses.own)?;
        Ok(UdpPath { socket, addresses })
    }
}

impl<T: UdpCalls> Socket for UdpPath<T> {
    // One call sends the datagram to the peer's address.
    ghost sends = { SendsToPeer T.sends_to };

    // One call gives a datagram of any sender.
    ghost receives = { ReceivesFromAny T.gives };

    /// Sends it to the peer's address. A datagram that the system accepts only in part is lost.
    fn send(&mut self, datagram: &[u8]) -> Result<(), CallFault> {
        let taken = self.socket.send_to(datagram, self.addresses.peer);
        result_of_send(taken, datagram.len())
    }

    fn receive(&mut self, buffer: &mut [u8]) -> Reception {
        reception(self.socket.receive_from(buffer))
    }
}

/// Returns whether the system took a whole datagram of this size, by what it gave.
fn result_of_send(given: io::Result<usize>, whole: usize) -> Result<(), CallFault>
    ensures { result ≡ whole_send_result given whole }
{
    match given {
        Ok(size) if size == whole => Ok(()),
        Ok(_) => Err(CallFault { error: None }),
        Err(fault) => Err(fault_of(&fault)),
    }
}

/// Returns the fault of a call with this error.
fn fault_of(error: &io::Error) -> CallFault
    ensures { result ≡ fault_of error.now }
{
    CallFault {
        error: error.raw_os_error(),
    }
}

/// Returns what came, by what the system gave.
fn reception(given: io::Result<(usize, SocketAddr)>) -> Reception
    ensures { IsReception given result }
{
    match given {
        Ok((size, _sender)) => Reception::Came(size),
        Err(fault) => {
            if fault.kind() == ErrorKind::WouldBlock {
                Reception::Nothing
            } else {
                Reception::Refused(fault_of(&fault))
            }
        }
    }
}
