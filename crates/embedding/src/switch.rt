//! The wish of the application, its telegrams, and its turn. Another application replaces this file.

ghost use Rattle.std.specs.Prelude.{◌≡◌, ◌≤◌, ◌^◌, ◌/◌, ◌%◌, ◌==◌};

use channels::Channels;
use octets::Milliseconds;
use pdi_session::{Phase, Taker};
use stack_end::{End, PollFault};

/// The message type of the command. Its payload is one byte: 1 switches on, 0 switches off.
pub const SWITCH: u16 = 0x0100;

/// An output of the field element: the state that is wanted, and the state that was reported.
#[derive(Drop)]
pub struct Switch {
    /// Whether the output should be on.
    pub is_wanted: bool,
    /// Whether the command for that was put.
    pub is_put: bool,
    /// Whether the last status says that it is on; `None` before the first status.
    pub is_on: Option<bool>,
}

impl Taker for Switch {
    ghost takes = { λ _ _ _. Unit {0} };

    fn take(&mut self, _kind: u16, payload: &[u8]) {
        self.is_on = Some(payload.first() == Some(&1));
    }
}

impl Switch {
    /// Decides by the clock, in milliseconds, whether the output should be on.
    pub fn want(&mut self, now: Milliseconds)
        // The output should be on in every second with an even number.
        ensures wanted { self.new.is_wanted ≡ (now / 1_000 % 2 == 0) }
        // The reported state stays the same.
        ensures told { self.new.is_on ≡ self.old.is_on }
    {
        let is_wanted = now / 1_000 % 2 == 0;
        if is_wanted != self.is_wanted {
            self.is_put = false;
        }
        self.is_wanted = is_wanted;
    }
}

/// Takes one turn: processes what has come, and puts the command if that is not done yet. The next turn is due when
/// a datagram comes, or at `end.next_deadline()`.
///
/// # Errors
///
/// Returns the fault of `End::poll` if a channel fails. Everything received before it stays taken; the next turn
/// tries again.
pub fn turn<C: Channels>(
    end: &mut End<C>,
    now: Milliseconds,
    switch: &mut Switch,
) -> Result<(), PollFault>
    requires later { end.old.time ≤ now }
    requires now { now ≤ 2 ^ 62 }
    // After a `turn`, the time of the end is at most the time of this turn.
    ensures time { end.new.time ≤ now }
{
    end.poll(now, switch)?;
    if !switch.is_put && end.phase() == Phase::Established {
        // A refused put has changed nothing: the next turn tries again.
        switch.is_put = end.put(SWITCH, &[u8::from(switch.is_wanted)], now).is_ok();
    }
    Ok(())
}
