//! The telegrams that the application has taken, until the caller fetches them.

ghost use Rattle.std.specs.Prelude.{◌≡◌, ◌*◌, IfOk, false};
ghost use Rattle.octets.specs.declared.limits.TheConstants.{PAYLOAD_MAX};
ghost use Rattle.end_for_callers.specs.Boxes.{takes_of};
ghost use Rattle.end_for_callers.specs.Queues.{PopsInto, new_queue};

use crate::queue::{Queue, TooSmall};
use octets::limits::PAYLOAD_MAX;
use pdi_session::{MessageType, Taker};
use std::alloc::{AllocError, Global};
use std::marker::Model;

/// The telegrams that wait for the caller, each with its message type.
#[derive(Drop)]
pub struct Inbox {
    /// The payloads.
    queue: Queue<u16>,
    /// A telegram found no room. None is added after it, so what is fetched stays a prefix of what was taken.
    lost: bool,
}

impl Model for Inbox {
    ghost use Rattle.end_for_callers.specs.Boxes.{TelegramQueue};

    ghost Value = { TelegramQueue };

    ghost view = { λ i. record { queue = i.queue; lost = i.lost } };
}

impl Taker for Inbox {
    ghost takes = { takes_of };

    fn take(&mut self, kind: MessageType, payload: &[u8]) {
        if self.lost || self.queue.push(kind, payload).is_err() {
            self.lost = true;
        }
    }
}

impl Inbox {
    /// Creates an empty inbox with room for this number of telegrams of 357 bytes.
    ///
    /// # Errors
    ///
    /// Returns an error if the allocation fails.
    pub(crate) fn new(alloc: Global, telegrams: u32) -> Result<Inbox, AllocError>
        ensures { IfOk result (λ i. i ≡ record { queue = new_queue telegrams (telegrams * PAYLOAD_MAX); lost = false }) }
    {
        let places = telegrams as usize;
        Ok(Inbox {
            queue: Queue::new(alloc, places, places * PAYLOAD_MAX)?,
            lost: false,
        })
    }

    /// Removes the oldest telegram, as [`Queue::pop`] does.
    ///
    /// # Errors
    ///
    /// - `TooSmall` if the buffer is shorter than the payload; the telegram then stays.
    pub(crate) fn pop(
        &mut self,
        buffer: &mut [u8],
    ) -> Result<Option<(MessageType, usize)>, TooSmall>
        // The oldest telegram leaves the queue and its payload is copied to the start of the buffer. If there is
        // none, or the buffer is too short, nothing changes.
        ensures popped { PopsInto result self.old.queue buffer.old self.new.queue buffer.new }
        // Fetching a telegram does not change whether one was lost.
        ensures lost { self.new.lost ≡ self.old.lost }
    {
        self.queue.pop(buffer)
    }

    /// Begins with a new connection, of which no telegram is lost. The queue stays.
    pub(crate) fn forget_loss(&mut self)
        ensures { self.new ≡ record self.old { lost = false } }
    {
        self.lost = false;
    }

    /// Returns the queue of telegrams, to read its length and free room.
    pub(crate) fn queue(&self) -> &Queue<u16>
        ensures { result.now ≡ self.now.queue }
    {
        &self.queue
    }

    /// Returns true if a telegram found no room.
    pub(crate) fn lost(&self) -> bool
        ensures { result ≡ self.now.lost }
    {
        self.lost
    }
}
