//! The run of a script, line by line.

use crate::trace::{Trace, TracedEvent};
use crate::words::cut;
use crate::{
    Command, Label, Labels, ScriptFault, ScriptLineFault, ScriptSettings, Sides, SimStatus,
    ZEROS_MAX, other, read_line,
};
use end_settings::Side;
use octets::Milliseconds;
use octets::limits::TIME_MAX;
use pdi_session::MessageType;
use pdu_text::EndReport;
use stack_engine::{Action, ApplyFault, Call, Event, Pair};
use std::alloc::Allocator;
use std::io;
use std::io::{ErrorKind, Read, Write};

/// Largest number of datagrams that one `flow` delivers.
const FLOW_MAX: usize = 1000;

/// Runs the script in a reader on two ends that were never opened. Its output goes to `out`, a fault to `err`.
///
/// What was printed before a fault stays. A report follows if the script ran to its end.
pub fn run<R: Read + Drop, O: Write, E: Write, A: Allocator + Copy>(
    alloc: A,
    reader: R,
    out: &mut O,
    err: &mut E,
) -> SimStatus {
    match run_lines(alloc, reader, out) {
        Ok(()) => SimStatus::Done,
        Err(fault) => {
            // If this output fails too, only the status reports the fault.
            let _ = writeln!(err, "{fault}");
            fault.status()
        }
    }
}

/// Runs the script in a reader.
fn run_lines<R: Read + Drop, O: Write, A: Allocator + Copy>(
    alloc: A,
    reader: R,
    out: &mut O,
) -> Result<(), ScriptFault> {
    let text = read(alloc, reader)?;
    let Some(settings) = ScriptSettings::new() else {
        return Err(ScriptFault::Memory);
    };
    let Some(trace) = Trace::new(alloc, out) else {
        return Err(ScriptFault::Memory);
    };
    let mut script = Script {
        alloc,
        pair: Pair::new(alloc),
        settings,
        clocks: Sides { il: 0, fe: 0 },
        trace,
    };
    let ended = script.lines(text.as_str());
    // Pending output is written before a fault is reported.
    match script.trace.flush() {
        Ok(()) => ended,
        Err(_) => Err(ScriptFault::Output),
    }
}

/// Reads the whole text of a script.
fn read<R: Read + Drop, A: Allocator + Copy>(
    alloc: A,
    reader: R,
) -> Result<String<A>, ScriptFault> {
    io::read_to_string(alloc, reader).map_err(fault_of)
}

/// Returns why a text cannot be read.
fn fault_of(error: io::Error) -> ScriptFault {
    match error.kind() {
        ErrorKind::OutOfMemory => ScriptFault::Memory,
        _ => ScriptFault::File,
    }
}

/// A script that is running.
#[derive(Drop)]
struct Script<W: Write + Drop, A: Allocator + Copy> {
    /// The allocator.
    alloc: A,
    /// Both ends with their history.
    pair: Pair<A>,
    /// The settings of the next opening.
    settings: ScriptSettings,
    /// The clock of each end, in milliseconds.
    clocks: Sides<u64>,
    /// The printer, with the PDUs by their labels.
    trace: Trace<W, A>,
}

impl<W: Write + Drop, A: Allocator + Copy> Script<W, A> {
    /// Runs the lines of a text and prints the report.
    fn lines(&mut self, text: &str) -> Result<(), ScriptFault> {
        let mut number = 0u64;
        let mut rest = Some(text);
        // A text has no more lines than this.
        for _ in 0..text.len().saturating_add(1) {
            let Some(left) = rest else {
                break;
            };
            let (line, after) = cut(left, b'\n');
            rest = after;
            number = number.saturating_add(1);
            match self.line(line) {
                Ok(()) => {}
                Err(fault) => return Err(fault.at(number)),
            }
        }
        match self.report() {
            Ok(()) => Ok(()),
            Err(fault) => Err(fault.at(number)),
        }
    }

    /// Prints the state of both ends.
    fn report(&mut self) -> Result<(), ScriptLineFault> {
        for side in [Side::Interlocking, Side::FieldElement] {
            self.trace.report(side, report_of(&self.pair, side))?;
        }
        Ok(())
    }

    /// Runs one line.
    fn line(&mut self, line: &str) -> Result<(), ScriptLineFault> {
        match read_line(self.alloc, line)? {
            Command::Nothing => Ok(()),
            Command::Give(label, channel) => self.give(label, channel),
            Command::Hit(label, channel, place, bits) => self.hit(label, channel, place, bits),
            Command::Lose(label) => {
                self.check_label(label)?;
                self.trace.labels.name(label);
                Ok(())
            }
            Command::Flow(channels) => self.flow(channels.as_slice()),
            Command::Put(side, kind, payload) => self.put(side, kind, payload.as_slice()),
            Command::PutZeros(side, kind, length) => self.put_zeros(side, kind, length),
            Command::PutCounted(side, count, kind) => self.put_counted(side, count, kind),
            Command::Clock(side, now) => self.set_clock(side, now),
            Command::Tick(side) => self.call(side, Call::Tick),
            Command::Open(side) => self.open(side),
            Command::Close(side) => self.call(side, Call::Close),
            Command::InitDone => self.call(Side::FieldElement, Call::InitDone),
            Command::Establish => self.establish(),
            Command::Set(setting) => {
                self.settings.set(setting);
                Ok(())
            }
            Command::Versions(versions) => {
                self.settings.set_versions(versions);
                Ok(())
            }
            Command::Trace(is_on) => {
                self.trace.is_on = is_on;
                Ok(())
            }
        }
    }

    /// Makes a call at an end, at the end's clock.
    fn call(&mut self, side: Side, call: Call<'_>) -> Result<(), ScriptLineFault> {
        let now = *self.clocks.of(side);
        let is_tick = matches!(call, Call::Tick);
        let event = Event {
            side,
            time: now,
            doing: Action::Call(call),
        };
        self.happen(&event, is_tick)
    }

    /// Applies an event that is not a delivery, and prints what it did or why it was refused.
    fn happen(&mut self, event: &Event<'_>, is_tick: bool) -> Result<(), ScriptLineFault> {
        match self.pair.apply(event) {
            Ok(()) => self.print_event(TracedEvent {
                side: event.side,
                came: None,
                is_tick,
            }),
            Err(fault) => self.trace.refuse(fault.name()),
        }
    }

    /// Prints what the last event did.
    fn print_event(&mut self, happening: TracedEvent) -> Result<(), ScriptLineFault> {
        self.trace.begin();
        if let Some(notes) = self.pair.notes() {
            for place in 0..notes.len() {
                if let Some(told) = notes.get(place) {
                    self.trace.add(happening, told)?;
                }
            }
        }
        self.trace.finish()
    }

    /// Opens an end with the current settings.
    fn open(&mut self, side: Side) -> Result<(), ScriptLineFault> {
        let event = Event {
            side,
            time: *self.clocks.of(side),
            doing: Action::Open {
                config: self.settings.config(side),
                first_sn: self.settings.first_sn(side),
            },
        };
        match self.pair.apply(&event) {
            Ok(()) => {
                self.trace.forget_waiting(side);
                self.print_event(TracedEvent {
                    side,
                    came: None,
                    is_tick: false,
                })
            }
            Err(fault) => self.trace.refuse(fault.name()),
        }
    }

    /// Puts a telegram.
    fn put(
        &mut self,
        side: Side,
        kind: MessageType,
        payload: &[u8],
    ) -> Result<(), ScriptLineFault> {
        self.call(side, Call::Put { kind, payload })
    }

    /// Puts a telegram with a payload of zero bytes.
    fn put_zeros(
        &mut self,
        side: Side,
        kind: MessageType,
        length: usize,
    ) -> Result<(), ScriptLineFault> {
        let zeros = [0; ZEROS_MAX];
        match zeros.split_at_checked(length) {
            Some((payload, _)) => self.put(side, kind, payload),
            None => Err(ScriptLineFault::Unreadable),
        }
    }

    /// Puts telegrams whose payloads count up from 0.
    fn put_counted(
        &mut self,
        side: Side,
        count: u64,
        kind: MessageType,
    ) -> Result<(), ScriptLineFault> {
        for place in 0..count {
            self.put(side, kind, &[(place & 0xff) as u8])?;
        }
        Ok(())
    }

    /// Opens both ends and delivers all PDUs until a session is established.
    fn establish(&mut self) -> Result<(), ScriptLineFault> {
        self.open(Side::FieldElement)?;
        self.open(Side::Interlocking)?;
        self.flow(&[1])?;
        self.call(Side::FieldElement, Call::InitDone)?;
        self.flow(&[1])
    }

    /// Sets the clock of an end; it must not decrease.
    fn set_clock(&mut self, side: Side, now: Milliseconds) -> Result<(), ScriptLineFault> {
        let clock = self.clocks.of_mut(side);
        if now < *clock || now > TIME_MAX {
            return self.trace.refuse(ApplyFault::Clock.name());
        }
        *clock = now;
        Ok(())
    }

    /// Delivers a datagram.
    fn give(&mut self, label: Label, channel: u64) -> Result<(), ScriptLineFault> {
        self.check_channel(channel)?;
        self.check_label(label)?;
        self.trace.labels.name(label);
        self.deliver(label, channel)
    }

    /// Delivers a datagram with one damaged byte.
    fn hit(
        &mut self,
        label: Label,
        channel: u64,
        at: Milliseconds,
        bits: u8,
    ) -> Result<(), ScriptLineFault> {
        self.check_channel(channel)?;
        self.check_label(label)?;
        let datagram = datagram(&self.trace.labels, label)?;
        let mut damaged = Vec::from_slice(self.alloc, datagram)?;
        match damaged.get_mut(at as usize) {
            Some(octet) => *octet ^= bits,
            None => return Err(ScriptLineFault::Unreadable),
        }
        self.trace.labels.name(label);
        let side = other(label.side);
        let now = *self.clocks.of(side);
        let is_on = self.trace.is_on;
        let arrival = arrive(
            &mut self.pair,
            side,
            now,
            channel,
            damaged.as_slice(),
            is_on,
        );
        self.print_arrival(label, arrival)
    }

    /// Delivers all datagrams that no line has named.
    fn flow(&mut self, channels: &[u64]) -> Result<(), ScriptLineFault> {
        for channel in channels {
            self.check_channel(*channel)?;
        }
        for _ in 0..FLOW_MAX {
            let Some(label) = self.trace.labels.first_unnamed() else {
                break;
            };
            self.trace.labels.name(label);
            for channel in channels {
                self.deliver(label, *channel)?;
            }
        }
        Ok(())
    }

    /// Checks that there is such a channel.
    fn check_channel(&self, channel: u64) -> Result<(), ScriptLineFault> {
        if channel < 1 || channel > self.settings.channels() {
            return Err(ScriptLineFault::Unreadable);
        }
        Ok(())
    }

    /// Checks that the PDU of a label has been made.
    fn check_label(&self, label: Label) -> Result<(), ScriptLineFault> {
        let _datagram = datagram(&self.trace.labels, label)?;
        Ok(())
    }

    /// Delivers the datagram of a PDU to the other end.
    fn deliver(&mut self, label: Label, channel: u64) -> Result<(), ScriptLineFault> {
        let side = other(label.side);
        let now = *self.clocks.of(side);
        let is_on = self.trace.is_on;
        let datagram = datagram(&self.trace.labels, label)?;
        let arrival = arrive(&mut self.pair, side, now, channel, datagram, is_on);
        self.print_arrival(label, arrival)
    }

    /// Prints what a delivery did.
    fn print_arrival(&mut self, label: Label, arrival: Arrival) -> Result<(), ScriptLineFault> {
        if arrival.is_dead {
            self.trace.warn(label)?;
        }
        match arrival.answer {
            Ok(()) => self.print_event(TracedEvent {
                side: other(label.side),
                came: Some(label),
                is_tick: false,
            }),
            Err(refusal) => self.trace.refuse(refusal.name()),
        }
    }
}

/// Returns the datagram of a PDU, or `NoSuchLabel` if it has not been made yet.
fn datagram<A: Allocator>(labels: &Labels<A>, label: Label) -> Result<&[u8], ScriptLineFault> {
    labels.datagram(label).ok_or(ScriptLineFault::NoSuchLabel)
}

/// The result of a delivery.
#[derive(Clone, Copy, Debug)]
struct Arrival {
    /// It broke the premise that datagrams with a valid safety code carry live PDUs.
    is_dead: bool,
    /// `Ok` if the delivery was accepted.
    answer: Result<(), ApplyFault>,
}

/// Delivers bytes to an end.
fn arrive<A: Allocator + Copy>(
    pair: &mut Pair<A>,
    side: Side,
    now: Milliseconds,
    channel: u64,
    octets: &[u8],
    is_traced: bool,
) -> Arrival {
    // The check is expensive, and only traces need it.
    let is_dead = is_traced && pair.breaks_premise(side, octets);
    let channel = channel as usize;
    let call = Call::Deliver { channel, octets };
    let event = Event {
        side,
        time: now,
        doing: Action::Call(call),
    };
    Arrival {
        is_dead,
        answer: pair.apply(&event),
    }
}

/// Returns the state of an end; `None` if it was never opened.
fn report_of<A: Allocator + Copy>(pair: &Pair<A>, side: Side) -> Option<EndReport> {
    let end = pair.end_of(side)?;
    let last = pair.incarnations(side).checked_sub(1)?;
    let entry = pair.report(side, last)?;
    Some(EndReport {
        state: end.state(),
        phase: end.phase(),
        put: entry.put.len() as u64,
        taken: entry.taken.len() as u64,
    })
}
