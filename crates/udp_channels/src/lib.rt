//! Channels over UDP: one non-blocking socket for each channel, between addresses that are given as texts.
//!
//! The crate is separate from `channels`, so that no proof of an end involves sockets.
#![tactic(auto)]

mod paths;
mod sockets;
mod udp;

pub use paths::{Addresses, UdpCalls, UdpPath};
pub use sockets::{
    CallFault, FailedCalls, Failures, Reception, Socket, SocketChannel, SocketChannels,
};
pub use udp::{Place, Refusal, UdpChannels, UdpFault, Watch, is_address, open_udp};
