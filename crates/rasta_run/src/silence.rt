//! How long a channel has received nothing, and whether that is logged.

ghost use Rattle.std.specs.Prelude.{◌≡◌};
ghost use Rattle.rasta_run.specs.Silence.{look_at_channel, silence_change_of};

use octets::Milliseconds;

/// When a channel last received something.
#[derive(Clone, Copy, Debug, PartialEq, Eq)]
pub struct ChannelSilence {
    /// How many datagrams it had received then.
    pub came: u64,
    /// When it received the last one, in milliseconds.
    pub at: Milliseconds,
    /// Whether it was logged as silent.
    pub silent: bool,
}

/// The change of a channel that is logged.
#[derive(Clone, Copy, Debug, PartialEq, Eq)]
pub enum SilenceChange {
    /// None.
    Nothing,
    /// It became silent.
    Silent,
    /// It receives again.
    Heard,
}

impl ChannelSilence {
    /// Compares the number of datagrams received so far, and returns the change to be logged.
    pub fn look(&mut self, came: u64, now: Milliseconds, t_max: Milliseconds) -> SilenceChange
        // After `look` a channel with a new datagram is not silent, and one without any for longer than T_max is
        // silent.
        ensures left { self.new ≡ look_at_channel self.old came now t_max }
        // `look` returns `Silent` if the channel has become silent, `Heard` if it no longer is, and else
        // `Nothing`.
        ensures said { result ≡ silence_change_of self.old self.new }
    {
        let was_silent = self.silent;
        if came != self.came {
            *self = ChannelSilence {
                came,
                at: now,
                silent: false,
            };
        } else if now.saturating_sub(self.at) > t_max {
            self.silent = true;
        }
        match (was_silent, self.silent) {
            (false, true) => SilenceChange::Silent,
            (true, false) => SilenceChange::Heard,
            _ => SilenceChange::Nothing,
        }
    }
}
