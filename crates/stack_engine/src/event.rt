//! The events of a pair.

ghost use Rattle.std.specs.Prelude.{◌≡◌, ◌<◌, ◌^◌};
ghost use Rattle.std.specs.List.{AllByRecursion};
ghost use Rattle.stack_engine.specs.Events.{event_of, put_size};
ghost use Rattle.stack_engine.specs.Premise.{IsTyped};

use end_settings::{EndConfig, Side};
use octets::Milliseconds;
use pdi_session::MessageType;

/// What happens to one of two ends, at a time of that end's clock. It borrows its bytes.
#[derive(Clone, Copy, Debug)]
pub struct Event<'a> {
    /// The end that it happens to.
    pub side: Side,
    /// When, in milliseconds.
    pub time: Milliseconds,
    /// What happens to it.
    pub doing: Action<'a>,
}

/// What happens to an end: an opening or a call.
#[derive(Clone, Copy, Debug)]
pub enum Action<'a> {
    /// The end is opened, or opened again.
    Open {
        /// The settings.
        config: EndConfig,
        /// The sequence number of its first PDU.
        first_sn: u32,
    },
    /// The end is called.
    Call(Call<'a>),
}

/// A call of an end that was opened.
#[derive(Clone, Copy, Debug)]
pub enum Call<'a> {
    /// The user closes the end.
    Close,
    /// The application puts a telegram.
    Put {
        /// The message type.
        kind: MessageType,
        /// The payload, 0 to 357 bytes.
        payload: &'a [u8],
    },
    /// The application of the field element has put its initial status.
    InitDone,
    /// Time passes.
    Tick,
    /// A datagram of any bytes comes.
    Deliver {
        /// The channel on which it comes.
        channel: usize,
        /// Its bytes.
        octets: &'a [u8],
    },
}

impl<'a> Event<'a> {
    /// Shows from the types that bytes are below 256 and a message type is below 65,536.
    pub(crate) fn is_typed(&self)
        ensures { IsTyped (event_of self.now) }
    {
        match &self.doing {
            Action::Call(Call::Put { kind, .. }) => is_kind(*kind),
            Action::Call(Call::Deliver { octets, .. }) => are_octets(octets),
            _ => {}
        }
    }
}

/// Shows that a message type has two bytes.
fn is_kind(kind: MessageType)
    ensures { kind < 256 ^ 2 }
{}

/// Shows that bytes are below 256.
fn are_octets(octets: &[u8])
    ensures { AllByRecursion (λ o. o < 256) octets.now }
{}

impl<'a> Call<'a> {
    /// Returns the length in bytes of the payload that is put; 0 for any other call.
    pub fn put_size(&self) -> usize
        // `put_size` is the length of a put's payload, and 0 for every other call.
        ensures { result ≡ put_size self.now }
    {
        match self {
            Call::Put { payload, .. } => payload.len(),
            Call::Close | Call::InitDone | Call::Tick | Call::Deliver { .. } => 0,
        }
    }
}
