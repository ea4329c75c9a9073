//! Whether standard input can be read, and standard output and standard error written, without waiting; and whether
//! the run has to end.
//!
//! One watch serves all of them, and is opened before any socket. If a stream was closed, the watch has its
//! descriptor and does not watch itself, so that reads and writes fail at once.

ghost use Rattle.std.specs.Prelude.{◌≡◌, ℕ, Bool};
ghost use Rattle.rasta_run.specs.declared.readiness.Stream.{Stream};
ghost use Rattle.rasta_run.specs.Backlogs.{descriptor_of};

use mio::unix::SourceFd;
use mio::{Events, Interest, Poll, Token};
use octets::Milliseconds;
use rasta_words::Fault;
use std::alloc::Global;
use std::io;
use std::io::ErrorKind;
use std::net::Net;
use std::time::Duration;

/// The number of standard streams, with the descriptor that ends a run.
const STREAMS: usize = 4;

/// The longest of the waits that together are the patience with a reader, in milliseconds. A signal can end one.
const SLICE: u64 = 10;

/// A standard stream, or the descriptor that ends a run.
#[derive(Clone, Copy, Debug, PartialEq, Eq)]
pub enum Stream {
    /// Standard input.
    Input,
    /// Standard output.
    Output,
    /// Standard error.
    Error,
    /// Descriptor 3. If its other end is closed, or if something can be read from it, the run is to end.
    End,
}

impl Stream {
    /// Returns its descriptor, which is also its place in the watch.
    fn descriptor(self) -> u8
        ensures { result ≡ descriptor_of self }
    {
        match self {
            Stream::Input => 0,
            Stream::Output => 1,
            Stream::Error => 2,
            Stream::End => 3,
        }
    }
}

/// Something that knows which streams are ready.
pub trait Gate {
    // What a question does: the stream, the result, and the gate afterwards.
    ghost asks: { Self → Stream → Bool → Self → Type 0 };

    // What a change of how long a question waits does, in milliseconds.
    ghost waits: { Self → ℕ → Self → Type 0 };

    /// Returns whether a stream is ready to be read or written.
    fn is_ready(&mut self, stream: Stream) -> bool
        // One question changes `self` as `asks` says for this stream and result.
        ensures { asks self.old stream result self.new };

    /// Sets how long a question waits for a stream, in milliseconds.
    fn set_patience(&mut self, patience: Milliseconds)
        ensures { waits self.old patience self.new };
}

#[derive(Drop)]
pub struct Readiness {
    poll: Poll,
    events: Events,
    watched: [bool; STREAMS],
    pub patience: Milliseconds,
}

impl Readiness {
    pub fn open<N: Net>(alloc: Global, net: &N) -> Result<Self, Fault> {
        let Ok(events) = Events::with_capacity(alloc, STREAMS) else {
            return Err(Fault::Memory);
        };
        let Ok(poll) = Poll::new(net) else {
            return Err(Fault::Network);
        };
        let output = register(&poll, Stream::Output).is_ok();
        let error = register(&poll, Stream::Error).is_ok();
        Ok(Readiness {
            poll,
            events,
            watched: [false, output, error, false],
            patience: 0,
        })
    }

    pub fn watch_input(&mut self) -> Result<(), Fault> {
        match register(&self.poll, Stream::Input) {
            Ok(()) => {
                self.watched[0] = true;
                Ok(())
            }
            Err(error) if error.kind() == ErrorKind::PermissionDenied => Ok(()),
            Err(_) => Err(Fault::File),
        }
    }

    pub fn is_watched(&self, stream: Stream) -> bool {
        self.watched[usize::from(stream.descriptor())]
    }

    pub fn watch_end(&mut self) -> Result<(), Fault> {
        match register(&self.poll, Stream::End) {
            Ok(()) => {
                self.watched[3] = true;
                Ok(())
            }
            Err(_) => Err(Fault::File),
        }
    }

    pub fn is_told_to_end(&mut self) -> bool {
        self.watched[3] && self.poll_stream(Stream::End, Duration::from_millis(0))
    }

    /// Asks the system once for a stream that is watched, and waits for it no longer than this.
    fn poll_stream(&mut self, stream: Stream, limit: Duration) -> bool {
        let place = stream.descriptor();
        let descriptor = i32::from(place);
        let token = Token(usize::from(place));
        // The system reports changes. After this it reports a stream that is ready.
        let _asked = self
            .poll
            .registry()
            .reregister(&mut SourceFd(&descriptor), token, interest(stream));
        match self.poll.poll(&mut self.events, Some(limit)) {
            Ok(()) => self.events.iter().any(|event| event.token() == token),
            Err(_) => false,
        }
    }
}

impl Gate for Readiness {
    ghost asks = { λ _ _ _ _. Unit {0} };

    ghost waits = { λ g patience h. h ≡ record g { patience = patience } };

    fn is_ready(&mut self, stream: Stream) -> bool {
        if !self.watched[usize::from(stream.descriptor())] {
            return true;
        }
        let limit = Duration::from_millis(self.patience.min(SLICE));
        'slices: for _ in 0..=self.patience / SLICE {
            if self.poll_stream(stream, limit) {
                return true;
            }
        }
        false
    }

    fn set_patience(&mut self, patience: Milliseconds) {
        self.patience = patience;
    }
}

/// Adds a stream to a watch.
fn register(poll: &Poll, stream: Stream) -> io::Result<()> {
    let place = stream.descriptor();
    let descriptor = i32::from(place);
    poll.registry().register(
        &mut SourceFd(&descriptor),
        Token(usize::from(place)),
        interest(stream),
    )
}

/// Returns what a stream is watched for.
fn interest(stream: Stream) -> Interest {
    match stream {
        Stream::Input | Stream::End => Interest::READABLE,
        Stream::Output | Stream::Error => Interest::WRITABLE,
    }
}
