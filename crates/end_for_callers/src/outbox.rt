//! The channels of a station's end: datagrams sent and notes wait until the caller fetches them; the caller passes in
//! the datagrams received.

ghost use Rattle.octets.specs.declared.limits.TheConstants.{CHANNELS_MAX, RED_PDU_MAX};
ghost use Rattle.std.specs.Prelude.{◌≡◌, ◌*◌, ◌<◌, ◌^◌, ◌≤◌, false, is_ok, IfOk, IfSome, length};
ghost use Rattle.channels.specs.ChannelHistory.{Sends, after_receive};
ghost use Rattle.end_for_callers.specs.Boxes.{clear_outgoing, leaves_free, new_outgoing, sum_of_shares, shares_of, spent_on, told_in, with_posting};
ghost use Rattle.end_for_callers.specs.Loads.{each_aside};
ghost use Rattle.end_for_callers.specs.Notes.{heard_anew, next_of, note_of, rest_of, with_note};
ghost use Rattle.end_for_callers.specs.Queues.{PopsInto};

use crate::CALL_DATAGRAMS;
use crate::notes::{Notes, StationNote};
use crate::queue::{Queue, TooSmall};
use channels::{ChannelFault, Channels, Note};
use octets::limits::{CHANNELS_MAX, RED_PDU_MAX};
use std::alloc::{AllocError, Global};
use std::marker::Model;

/// How many places are set aside for each of the up to four channels.
#[derive(Clone, Copy)]
pub(crate) struct Shares {
    /// Those of channel 1.
    first: usize,
    /// Those of channel 2.
    second: usize,
    /// Those of channel 3.
    third: usize,
    /// Those of channel 4.
    fourth: usize,
}

impl Shares {
    /// Returns shares of this number of places for each of this number of channels.
    fn new(channels: usize, each: usize) -> Shares
        ensures { result ≡ shares_of channels each }
    {
        Shares {
            first: if 1 <= channels { each } else { 0 },
            second: if 2 <= channels { each } else { 0 },
            third: if 3 <= channels { each } else { 0 },
            fourth: if 4 <= channels { each } else { 0 },
        }
    }

    /// Returns the places of all channels.
    fn total(&self) -> usize
        requires small { sum_of_shares self.now < 2 ^ 64 }
        ensures { result ≡ sum_of_shares self.now }
    {
        self.first + self.second + self.third + self.fourth
    }

    /// Returns the shares after a datagram on this channel.
    fn spent_on(&self, channel: usize) -> Shares
        ensures { result ≡ spent_on channel self.now }
    {
        Shares {
            first: self.first.saturating_sub(usize::from(channel == 1)),
            second: self.second.saturating_sub(usize::from(channel == 2)),
            third: self.third.saturating_sub(usize::from(channel == 3)),
            fourth: self.fourth.saturating_sub(usize::from(channel == 4)),
        }
    }
}

/// The datagrams that wait for the caller, each with its channel, and the notes.
#[derive(Drop)]
pub struct Outbox {
    /// The datagrams.
    queue: Queue<usize>,
    /// The number of datagrams that found no room, modulo 2^64.
    unsent: u64,
    /// The notes of the end.
    notes: Notes,
    /// The places that are set aside for the call that goes on.
    shares: Shares,
}

impl Model for Outbox {
    ghost use Rattle.std.specs.Prelude.{◌≤◌, ◌*◌};
    ghost use Rattle.octets.specs.declared.limits.TheConstants.{RED_PDU_MAX};
    ghost use Rattle.end_for_callers.specs.Boxes.{OutboxValue, sum_of_shares};

    ghost Value = { OutboxValue };

    ghost view = { λ o. record { out = record { queue = o.queue; unsent = o.unsent; notes = o.notes }; shares = o.shares } };

    ghost invariant = { λ o. (sum_of_shares o.shares ≤ o.queue.places) × (sum_of_shares o.shares * RED_PDU_MAX ≤ o.queue.room) };
}

impl Outbox {
    /// Creates an empty outbox with room for this number of datagrams of 1,258 bytes.
    ///
    /// # Errors
    ///
    /// Returns an error if the allocation fails.
    pub(crate) fn new(alloc: Global, datagrams: u32) -> Result<Outbox, AllocError>
        ensures { IfOk result (λ o. o.out ≡ new_outgoing datagrams) }
    {
        let places = datagrams as usize;
        Ok(Outbox {
            queue: Queue::new(alloc, places, places * RED_PDU_MAX)?,
            unsent: 0,
            notes: Notes::new(alloc)?,
            shares: Shares::new(0, 0),
        })
    }

    /// Removes the oldest datagram, as [`Queue::pop`] does.
    ///
    /// # Errors
    ///
    /// - `TooSmall` if the buffer is shorter than the datagram, which then stays.
    pub(crate) fn pop(&mut self, buffer: &mut [u8]) -> Result<Option<(usize, usize)>, TooSmall>
        // The oldest datagram leaves the queue and is copied to the start of the buffer. If there is none, or the
        // buffer is too short, nothing changes.
        ensures popped { PopsInto result self.old.out.queue buffer.old self.new.out.queue buffer.new }
        // Fetching a datagram does not change the count of unsent ones.
        ensures unsent { self.new.out.unsent ≡ self.old.out.unsent }
        // Fetching a datagram does not change the notes.
        ensures notes { self.new.out.notes ≡ self.old.out.notes }
    {
        self.queue.pop(buffer)
    }

    /// Drops the datagrams that wait, and counts unsent ones from 0 on. The notes stay.
    pub(crate) fn clear(&mut self)
        ensures { self.new.out ≡ clear_outgoing self.old.out }
    {
        self.queue.clear();
        self.unsent = 0;
        self.shares = Shares::new(0, 0);
    }

    /// Sets 333 places aside for each of this number of channels, at most 4, if there is room for them, and none
    /// otherwise.
    pub(crate) fn set_aside(&mut self, channels: usize)
        requires few { channels ≤ CHANNELS_MAX }
        // The datagrams stay as they are.
        ensures out { self.new.out ≡ self.old.out }
        // With room for whatever a call sends so many places are set aside for each channel, otherwise none.
        ensures shares { self.new.shares ≡ shares_of channels (each_aside channels self.old.out) }
    {
        let places = channels * CALL_DATAGRAMS;
        let has_room = self.queue.places() >= places && self.queue.room() >= places * RED_PDU_MAX;
        let each = if has_room { CALL_DATAGRAMS } else { 0 };
        self.shares = Shares::new(channels, each);
    }

    /// Returns the queue of datagrams, to read its length and free room.
    pub(crate) fn queue(&self) -> &Queue<usize>
        ensures { result.now ≡ self.now.out.queue }
    {
        &self.queue
    }

    /// Returns the number of datagrams that found no room, modulo 2^64.
    pub(crate) fn unsent(&self) -> u64
        ensures { result ≡ self.now.out.unsent }
    {
        self.unsent
    }

    /// Keeps notes from now on, or no longer. Those that wait are dropped.
    pub(crate) fn hear_notes(&mut self, hears: bool)
        ensures { self.new ≡ record self.old { out = record self.old.out { notes = heard_anew hears } } }
    {
        self.notes.set_kept(hears);
    }

    /// Removes the oldest note, as [`Notes::next`] does.
    pub(crate) fn next_note(&mut self) -> Option<StationNote>
        // The result is the note that is next.
        ensures next { result ≡ next_of self.old.out.notes }
        // Only this note is gone.
        ensures rest { self.new ≡ record self.old { out = record self.old.out { notes = rest_of self.old.out.notes } } }
    {
        self.notes.next()
    }
}

impl Channels for Outbox {
    ghost told = { told_in };

    /// Appends the datagram to the waiting ones.
    ///
    /// # Errors
    ///
    /// - `Room` if it does not fit; it is counted then.
    fn send(&mut self, channel: usize, datagram: &[u8]) -> Result<(), ChannelFault>
        // A send succeeds if and only if the datagram leaves the places free that are set aside for others.
        ensures ok { is_ok result ≡ leaves_free (sum_of_shares (spent_on channel self.old.shares)) (length datagram.now) self.old.out.queue }
        // A datagram that may go becomes the last one of the queue; any other adds 1 to the unsent ones.
        ensures kept { self.new ≡ with_posting (channel, datagram.now) self.old }
        // To the end's contracts this is a send like that of any channels: sent and recorded last, or failed and
        // counted (`Sends`).
        ensures told { Sends (is_ok result) (told_in self.old) (channel, datagram.now) (told_in self.new) }
    {
        let (places, room) = (self.queue.places(), self.queue.room());
        let shares = self.shares.spent_on(channel);
        let rest = shares.total();
        let leaves = rest < places && datagram.len() <= room - rest * RED_PDU_MAX;
        if leaves && self.queue.push(channel, datagram).is_ok() {
            self.shares = shares;
            return Ok(());
        }
        self.unsent = self.unsent.wrapping_add(1);
        Err(ChannelFault::Room)
    }

    /// Returns `None`: the caller passes received datagrams to the station.
    fn receive(&mut self, buffer: &mut [u8]) -> Result<Option<(usize, usize)>, ChannelFault>
        // A reception changes nothing in the outbox.
        ensures same { self.new ≡ self.old }
        // A size received would fit the buffer; there is none.
        ensures fits { IfOk result (λ came. IfSome came (λ p. p.1 ≤ length buffer.new)) }
        // To the end's contracts this is a reception that finds nothing (`after_receive`).
        ensures told { told_in self.new ≡ after_receive result buffer.new (told_in self.old) }
    {
        let _none = buffer;
        Ok(None)
    }

    /// Returns true if the caller wants notes.
    fn hears_notes(&self) -> bool
        // The end makes notes if and only if they are kept.
        ensures { result ≡ self.now.out.notes.hears }
    {
        self.notes.hears()
    }

    /// Keeps a note, if the caller wants notes and there is room.
    fn note(&mut self, note: &Note<'_>)
        // The note waits behind the others, if notes are kept and there is room; without room it is counted.
        ensures kept { self.new ≡ record self.old { out = record self.old.out { notes = with_note (note_of note.now) self.old.out.notes } } }
        // To the end's contracts nothing has changed.
        ensures told { told_in self.new ≡ told_in self.old }
    {
        self.notes.add(StationNote::of(note));
    }
}
