//! What was read of a recording.

ghost use Rattle.std.specs.Prelude.{◌≡◌};
ghost use Rattle.capture_beside.specs.Counts.{count_frame, no_counts};

use crate::pairing::Arrival;
use capture_text::FrameFault;

/// What a frame has.
#[derive(Clone, Copy, Debug, PartialEq, Eq)]
pub(crate) enum Content {
    /// A datagram that is paired.
    Datagram(Arrival),
    /// A datagram of a chosen port that is no redundancy PDU.
    Strange,
    /// Something else.
    Other,
    /// A datagram that cannot be read.
    Unread(FrameFault),
}

/// What was read of a recording.
#[derive(Clone, Copy, Debug, PartialEq, Eq)]
pub struct Counts {
    /// How many frames it has.
    pub frames: u64,
    /// How many frames have a datagram that is paired.
    pub datagrams: u64,
    /// How many have a datagram of a chosen port that is no redundancy PDU.
    pub strange: u64,
    /// How many frames could not be read, and one more if the recording breaks off.
    pub unreadable: u64,
}

impl Counts {
    /// Returns the counts before the first frame.
    pub(crate) fn new() -> Self
        ensures { result ≡ no_counts }
    {
        Counts {
            frames: 0,
            datagrams: 0,
            strange: 0,
            unreadable: 0,
        }
    }

    /// Counts a frame.
    pub(crate) fn add(&mut self, content: &Content)
        ensures { self.new ≡ count_frame content.now self.old }
    {
        self.frames = self.frames.saturating_add(1);
        match content {
            Content::Datagram(_) => self.datagrams = self.datagrams.saturating_add(1),
            Content::Strange => self.strange = self.strange.saturating_add(1),
            Content::Other => {}
            Content::Unread(_) => self.unreadable = self.unreadable.saturating_add(1),
        }
    }
}
