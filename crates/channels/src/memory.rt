//! Channels in memory, for tests and simulations: they keep the datagrams sent, and deliver the datagrams
//! that were added.

ghost use Rattle.std.specs.Prelude.{◌≡◌, ◌≤◌, length, option_map, is_ok, if◌then◌else◌, nat_lt, IfErr, IfOk, IfSome, slice_get};
ghost use Rattle.channels.specs.declared.ChannelFault.TheVariants.{Room};
ghost use Rattle.octets.specs.declared.limits.TheConstants.{RED_PDU_MAX};
ghost use Rattle.channels.specs.ChannelHistory.{Sends, after_receive};
ghost use Rattle.channels.specs.Memory.{told_of, new_kept, with_more_room, with_waiting, goes_out, with_sending, with_reception};

use crate::{ChannelFault, Channels};
use arrayvec::ArrayVec;
use octets::copy_of;
use octets::limits::RED_PDU_MAX;
use std::alloc::{AllocError, Allocator, Global};
use std::collections::VecDeque;
use std::marker::Model;

/// A datagram of at most 1,258 bytes, the length of the longest redundancy PDU.
type Datagram = ArrayVec<u8, RED_PDU_MAX>;

/// Why channels were not made, or room or a datagram not added.
#[derive(Clone, Copy, Debug, PartialEq, Eq)]
pub enum MemoryFault {
    /// There is no memory for it.
    Memory,
}

impl From<AllocError> for MemoryFault {
    ghost use Rattle.channels.specs.declared.memory.MemoryFault.TheVariants.{Memory};

    ghost from_gives = { λ _ fault. fault ≡ Memory };

    fn from(_: AllocError) -> MemoryFault {
        MemoryFault::Memory
    }
}

/// Channels in memory, with every channel number. They keep the datagrams sent, and `receive` delivers the
/// datagrams that `add` has queued, in order.
///
/// `new` and `reserve` make room for sends and for results of `receive`. Each call of either uses one
/// place, and `None` as a result uses one too. Without room the call fails. `send` and `receive` do not
/// allocate.
#[derive(Drop)]
pub struct MemChannels<A: Allocator = Global> {
    /// Each datagram sent with its channel, in order.
    sent: Vec<(usize, Datagram), A>,
    /// The datagrams that `receive` delivers next, with their channels.
    waiting: VecDeque<(usize, Vec<u8, A>), A>,
    /// The results of `receive`, in order.
    answers: Vec<Option<(usize, Vec<u8, A>)>, A>,
    /// The buffer length of the last `receive`, 0 before the first.
    asked: usize,
    /// How many more sends there is room for.
    sends_left: usize,
    /// How many more results of `receive` there is room for.
    answers_left: usize,
    /// How many sends have failed, modulo 2^64.
    failed_sends: u64,
    /// How many receptions have failed, modulo 2^64.
    failed_receives: u64,
}

impl<A: Allocator> Model for MemChannels<A> {
    ghost use Rattle.std.specs.Prelude.{◌+◌, ◌≤◌, map, option_map, vec_len, vec_capacity};
    ghost use Rattle.channels.specs.Memory.{MemoryValue};

    ghost Value = { MemoryValue };

    ghost view = { λ m. record {
      sent = map (λ s. (s.0, s.1.items)) m.sent.items;
      waiting = map (λ s. (s.0, s.1.items)) m.waiting.items;
      answers = map (λ a. option_map (λ s. (s.0, s.1.items)) a) m.answers.items;
      asked = m.asked;
      sends_left = m.sends_left;
      answers_left = m.answers_left;
      failed_sends = m.failed_sends;
      failed_receives = m.failed_receives;
    } };

    ghost invariant = { λ m. (vec_len m.sent + m.sends_left ≤ vec_capacity m.sent)
        × (vec_len m.answers + m.answers_left ≤ vec_capacity m.answers) };
}

impl<A: Allocator + Copy> MemChannels<A> {
    /// Makes channels with room for `room` sends and as many results of `receive`.
    ///
    /// # Errors
    ///
    /// - `Memory` if there is no memory for them.
    pub fn new(alloc: A, room: usize) -> Result<Self, MemoryFault>
        // New channels have sent nothing, nothing waits, and there is room for `room` sends and as many
        // results of receptions.
        ensures { IfOk result (λ made. made ≡ new_kept room) }
    {
        Ok(MemChannels {
            sent: Vec::with_capacity(alloc, room)?,
            waiting: VecDeque::new(alloc),
            answers: Vec::with_capacity(alloc, room)?,
            asked: 0,
            sends_left: room,
            answers_left: room,
            failed_sends: 0,
            failed_receives: 0,
        })
    }

    /// Makes room for `more` sends and results of `receive` in addition.
    ///
    /// # Errors
    ///
    /// - `Memory` if there is no memory for them; then nothing has changed.
    pub fn reserve(&mut self, more: usize) -> Result<(), MemoryFault>
        // If `reserve` succeeds, there is room for `more` sends and results in addition; otherwise nothing
        // changes.
        ensures { self.new ≡ (if is_ok result then with_more_room more self.old else self.old) }
    {
        let (Some(sends), Some(answers)) = (
            self.sends_left.checked_add(more),
            self.answers_left.checked_add(more),
        ) else {
            return Err(MemoryFault::Memory);
        };
        self.sent.reserve(sends)?;
        self.answers.reserve(answers)?;
        self.sends_left = sends;
        self.answers_left = answers;
        Ok(())
    }

    /// Queues a datagram for reception on a channel. It may contain any bytes.
    ///
    /// # Errors
    ///
    /// - `Memory` if there is no memory for it; then nothing has changed.
    pub fn add(&mut self, channel: usize, datagram: &[u8]) -> Result<(), MemoryFault>
        // If `add` succeeds, the datagram waits after all others; otherwise nothing changes.
        ensures { self.new ≡ (if is_ok result then with_waiting (channel, datagram.now) self.old else self.old) }
    {
        let octets = Vec::from_slice(*self.sent.allocator(), datagram)?;
        match self.waiting.push_back((channel, octets)) {
            Ok(()) => Ok(()),
            Err(_) => Err(MemoryFault::Memory),
        }
    }
}

impl<A: Allocator> MemChannels<A> {
    /// Returns the channel and the bytes of the datagram sent at a place, from 0, or `None` if fewer were
    /// sent.
    pub fn sent(&self, number: usize) -> Option<(usize, &[u8])>
        // The result is the channel and the bytes of the datagram sent at place `number`, or `None` past
        // the last one.
        ensures { option_map (λ s. (s.0, s.1.now)) result ≡ slice_get self.now.sent number }
    {
        match self.sent.get(number) {
            Some((channel, datagram)) => Some((*channel, datagram.as_slice())),
            None => None,
        }
    }
}

impl<A: Allocator> Channels for MemChannels<A> {
    ghost told = { told_of };

    /// Keeps the datagram.
    ///
    /// # Errors
    ///
    /// - `Room` if there is no room for another send, or the datagram is longer than 1,258 bytes; nothing
    ///   is kept.
    fn send(&mut self, channel: usize, datagram: &[u8]) -> Result<(), ChannelFault>
        // `send` succeeds if and only if there is room for another send and the datagram has at most 1,258
        // bytes.
        ensures ok { is_ok result ≡ goes_out datagram.now self.old }
        // A datagram sent is kept after those sent before and uses one place; a failed send only adds 1 to
        // the failed sends.
        ensures kept { self.new ≡ with_sending (channel, datagram.now) self.old }
        // As seen by the contract of `Channels`, `send` appends to the datagrams sent or counts a failure,
        // and changes nothing else.
        ensures told { Sends (is_ok result) (told_of self.old) (channel, datagram.now) (told_of self.new) }
        // The only fault of `send` is `Room`.
        ensures fault { IfErr result (λ why. why ≡ Room) }
    {
        if self.sends_left == 0 || datagram.len() > RED_PDU_MAX {
            self.failed_sends = self.failed_sends.wrapping_add(1);
            return Err(ChannelFault::Room);
        }
        let _kept = self.sent.push((channel, copy_of(datagram)));
        self.sends_left -= 1;
        Ok(())
    }

    /// Delivers the datagram that was added first of those still waiting, or `None`.
    ///
    /// # Errors
    ///
    /// - `Room` if there is no room for another result.
    fn receive(&mut self, buffer: &mut [u8]) -> Result<Option<(usize, usize)>, ChannelFault>
        // `receive` succeeds if and only if there is room for another result.
        ensures ok { is_ok result ≡ nat_lt 0 self.old.answers_left }
        // `receive` takes out the first waiting datagram and keeps it as a result, cut to the buffer's
        // length, or keeps `None`; a failed reception is counted.
        ensures kept { self.new ≡ with_reception (length buffer.old) self.old }
        // The size that `receive` returns is at most the length of the buffer.
        ensures fits { IfOk result (λ came. IfSome came (λ p. p.1 ≤ length buffer.new)) }
        // As seen by the contract of `Channels`, `receive` appends its result or counts a failure, and
        // changes nothing sent.
        ensures told { told_of self.new ≡ after_receive result buffer.new (told_of self.old) }
        // The only fault of `receive` is `Room`.
        ensures fault { IfErr result (λ why. why ≡ Room) }
    {
        self.asked = buffer.len();
        if self.answers_left == 0 {
            self.failed_receives = self.failed_receives.wrapping_add(1);
            return Err(ChannelFault::Room);
        }
        self.answers_left -= 1;
        let Some((channel, mut octets)) = self.waiting.pop_front() else {
            let _kept = self.answers.push(None);
            return Ok(None);
        };
        octets.truncate(buffer.len());
        let size = octets.len();
        buffer[..size].copy_from_slice(octets.as_slice());
        let _kept = self.answers.push(Some((channel, octets)));
        Ok(Some((channel, size)))
    }
}
