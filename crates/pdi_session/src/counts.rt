//! Counting the commands and status in messages and units.

ghost use Rattle.std.specs.Prelude.{◌≡◌, ◌≤◌, ℕ, List, length, map};
ghost use Rattle.std.specs.Borrow.{Bor};
ghost use Rattle.octets.specs.declared.limits.TheConstants.{UNIT_MESSAGES};
ghost use Rattle.pdi_session.specs.TelegramCounts.{is_item, items_in, items_in_unit};
ghost use Rattle.pdi_session.specs.telegram.Places.{tele_seen};

use crate::forms::is_reserved;
use crate::packing::unpack;
use crate::telegram::decode;

/// Returns true if a message is a command or status.
pub(crate) fn is_item(message: &[u8]) -> bool
    ensures { result ≡ is_item (tele_seen message.now) }
{
    match decode(message) {
        Ok(telegram) => !is_reserved(telegram.kind),
        Err(_) => false,
    }
}

/// Returns how many commands or status a unit has. `octets` may contain any bytes.
pub fn items_in_unit(octets: &[u8]) -> usize
    // `items_in_unit` counts the messages of a unit that are telegrams outside the establishment; for bytes that
    // are not a unit it is 0.
    ensures count { result ≡ items_in_unit octets.now }
    // A unit has at most three commands or status.
    ensures few { result ≤ UNIT_MESSAGES }
{
    match unpack(octets) {
        Ok(messages) => items_in(&messages),
        Err(_) => 0,
    }
}

/// Returns how many of these messages are commands or status.
fn items_in(messages: &[&[u8]]) -> usize
    // `items_in` counts the messages for which `is_item` is true.
    ensures count { result ≡ items_in (map (λ (m : Bor (List ℕ)). m.now) messages.now) }
    // The count is at most the number of messages.
    ensures few { result ≤ length messages.now }
{
    let mut count = 0;
    for message in messages {
        if is_item(message) {
            count += 1;
        }
    }
    count
}
