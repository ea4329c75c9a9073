//! The commands or status of one incarnation, in the order in which they were put or taken.

ghost use Rattle.std.specs.Prelude.{◌≡◌, ◌*◌, ◌≤◌, [], OnOk};
ghost use Rattle.octets.specs.declared.limits.TheConstants.{PAYLOAD_MAX};

use crate::texts::Texts;
use octets::limits::PAYLOAD_MAX;
use pdi_session::{MessageType, Taker};
use std::alloc::{AllocError, Allocator};

/// Telegrams: the message type of each, and its payload.
pub type Telegrams<A> = Texts<u16, A>;

/// Keeps what the application takes in room that was made before. Without room a telegram is dropped.
impl<A: Allocator + Copy> Taker for Texts<u16, A> {
    ghost use Rattle.stack_engine.specs.Incarnations.{TakesItem};

    ghost takes = { TakesItem };

    fn take(&mut self, kind: MessageType, payload: &[u8]) {
        if self.places() > 0 && payload.len() <= self.room() {
            self.add(kind, payload);
        }
    }
}

/// Makes room for `count` telegrams of any size.
///
/// # Errors
///
/// Fails if an allocation fails.
pub(crate) fn reserve_telegrams<A: Allocator + Copy>(
    telegrams: &mut Telegrams<A>,
    count: usize,
) -> Result<(), AllocError>
    requires { count ≤ 1000 }
    // Making room changes none of the telegrams.
    ensures same { telegrams.new.texts ≡ telegrams.old.texts }
    // After a success there is a place for each of `count` more telegrams.
    ensures places { OnOk result (count ≤ telegrams.new.places) }
    // After a success there is room for 357 bytes of payload of each of `count` telegrams.
    ensures octets { OnOk result (count * PAYLOAD_MAX ≤ telegrams.new.octets) }
{
    telegrams.reserve(count, count * PAYLOAD_MAX)
}
