//! The events of a pair, in order.

ghost use Rattle.std.specs.Prelude.{◌≡◌, ◌+◌, ◌≤◌, [], ◌∷◌, ◌++◌, length, slice_get, option_map, OnOk};
ghost use Rattle.red_layer.specs.Parts.{is_nil};
ghost use Rattle.stack_engine.specs.Events.{event_of};
ghost use Rattle.stack_engine.specs.Histories.{HasPlace, call_octets};
ghost use Rattle.stack_engine.specs.HistoryPlaces.{deed_in};

use crate::event::{Action, Call, Event};
use crate::texts::Texts;
use end_settings::{EndConfig, Side};
use octets::Milliseconds;
use pdi_session::MessageType;
use std::alloc::{AllocError, Allocator, Global};
use std::marker::Model;

/// What is kept of an event apart from the bytes of its telegram or datagram.
#[derive(Clone, Copy)]
struct Entry {
    /// The end that it happened to.
    side: Side,
    /// When, in milliseconds of that end's clock.
    time: Milliseconds,
    /// What happened; its bytes are kept next to it.
    doing: Deed,
}

/// What happened to an end, without bytes.
#[derive(Clone, Copy)]
enum Deed {
    /// An opening, with the place of its settings among those of all openings.
    Open { config: usize, first_sn: u32 },
    /// The end was closed.
    Close,
    /// A telegram with this message type was put.
    Put { kind: MessageType },
    /// The initial status was complete.
    InitDone,
    /// Time passed.
    Tick,
    /// A datagram came on this channel.
    Deliver { channel: usize },
}

/// The accepted events of a pair, in order. It keeps small entries, and the bytes of all events in one buffer.
#[derive(Drop)]
pub struct History<A: Allocator = Global> {
    /// The events in order, each with its bytes.
    entries: Texts<Entry, A>,
    /// The settings of the openings, in order.
    configs: Vec<EndConfig, A>,
}

impl<A: Allocator> Model for History<A> {
    ghost use Rattle.std.specs.Prelude.{◌-◌, length, vec_len, vec_capacity};
    ghost use Rattle.stack_engine.specs.Histories.{HistoryValue};
    ghost use Rattle.stack_engine.specs.HistoryPlaces.{events_in, AreWithin};

    ghost Value = { HistoryValue };

    ghost view = { λ h. record {
      events = events_in h.configs.items h.entries.texts;
      places = h.entries.places;
      octets = h.entries.octets;
      openings = vec_capacity h.configs - vec_len h.configs;
    } };

    ghost invariant = { λ h. AreWithin (length h.configs.items) h.entries.texts };
}

impl<A: Allocator + Copy> History<A> {
    /// Creates an empty history without room.
    pub(crate) fn new(alloc: A) -> Self
        ensures { result.events ≡ [] }
    {
        History {
            entries: Texts::new(alloc),
            configs: Vec::new(alloc),
        }
    }

    /// Makes room for an event. Fails if an allocation fails.
    pub(crate) fn reserve(&mut self, event: &Event<'_>) -> Result<(), AllocError>
        // Making room leaves the list of events as it is.
        ensures same { self.new.events ≡ self.old.events }
        // After a success there is a place for the event, room for its bytes, and one for its settings if it is an
        // opening.
        ensures room { OnOk result (HasPlace event.now self.new) }
    {
        match &event.doing {
            Action::Open { .. } => {
                self.configs.try_reserve(1)?;
                self.entries.reserve(1, 0)
            }
            Action::Call(call) => self.entries.reserve(1, octets_of(call).len()),
        }
    }

    /// Adds an event after the others. The caller has made room for it.
    pub(crate) fn add(&mut self, event: &Event<'_>)
        requires room { HasPlace event.now self.old }
        ensures added { self.new.events ≡ self.old.events ++ event_of event.now ∷ [] }
    {
        let side = event.side;
        let time = event.time;
        match &event.doing {
            Action::Open { config, first_sn } => {
                let doing = Deed::Open {
                    config: self.configs.len(),
                    first_sn: *first_sn,
                };
                self.configs.push_reserved(*config);
                self.entries.add(Entry { side, time, doing }, &[]);
            }
            Action::Call(call) => {
                let doing = deed_of(call);
                self.entries
                    .add(Entry { side, time, doing }, octets_of(call));
            }
        }
    }
}

impl<A: Allocator> History<A> {
    /// Returns the number of events.
    pub fn len(&self) -> usize
        // `len` is the length of the list of `events`.
        ensures { result ≡ length self.now.events }
    {
        self.entries.len()
    }

    /// Returns true if nothing has happened.
    pub fn is_empty(&self) -> bool
        // `is_empty` is true if and only if there are no `events`.
        ensures { result ≡ is_nil self.now.events }
    {
        self.entries.is_empty()
    }

    /// Returns the event at a place, from 0.
    pub fn get(&self, place: usize) -> Option<Event<'_>>
        // `get` returns the event at this `place` exactly as it was added, or `None` after the last one.
        ensures { option_map event_of result ≡ slice_get self.now.events place }
    {
        let (entry, octets) = self.entries.get(place)?;
        let side = entry.side;
        let time = entry.time;
        let doing = match entry.doing {
            Deed::Open { config, first_sn } => match self.configs.get(config) {
                Some(config) => Action::Open {
                    config: *config,
                    first_sn,
                },
                None => Action::Call(Call::Tick),
            },
            Deed::Close => Action::Call(Call::Close),
            Deed::Put { kind } => Action::Call(Call::Put {
                kind,
                payload: octets,
            }),
            Deed::InitDone => Action::Call(Call::InitDone),
            Deed::Tick => Action::Call(Call::Tick),
            Deed::Deliver { channel } => Action::Call(Call::Deliver { channel, octets }),
        };
        Some(Event { side, time, doing })
    }
}

/// Returns the bytes of a call: of the payload that is put, or of the datagram that comes.
fn octets_of<'a>(call: &Call<'a>) -> &'a [u8]
    ensures { result.now ≡ call_octets call.now }
{
    match call {
        Call::Put { payload, .. } => payload,
        Call::Deliver { octets, .. } => octets,
        Call::Close | Call::InitDone | Call::Tick => &[],
    }
}

/// Returns what is kept of a call apart from its bytes.
fn deed_of(call: &Call<'_>) -> Deed
    ensures { result ≡ deed_in call.now }
{
    match call {
        Call::Close => Deed::Close,
        Call::Put { kind, .. } => Deed::Put { kind: *kind },
        Call::InitDone => Deed::InitDone,
        Call::Tick => Deed::Tick,
        Call::Deliver { channel, .. } => Deed::Deliver { channel: *channel },
    }
}
