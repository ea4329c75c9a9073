//! The printer of what the ends do.

ghost use Rattle.std.specs.Prelude.{◌≡◌, MatchResult, IsOk, IsErr};

use crate::{Label, Labels, ScriptLineFault, Sides, other};
use arrayvec::ArrayVec;
use channels::Note;
use end_settings::Side;
use octets::limits::{Q_MAX, RED_HEADER, SAFE_HEADER};
use octets::places::{u16_at, u32_at};
use pdi_session::MessageType;
use pdu_text::{
    EndReport, phase_name, red_cause, side_name, state_name, step_cause, write_refusal,
    write_report, write_take,
};
use red_layer::RedEvent;
use safe_machine::Step;
use safe_pdu::Kind;
use stack_engine::NoteView;
use std::alloc::{Allocator, Global};
use std::fmt::Display;
use std::io;
use std::io::{BufWriter, Write};

/// The parts in an end's deferral queue: number, and place of the peer's PDU that came first under it.
type Waits = ArrayVec<(u32, usize), Q_MAX>;

/// The event whose notes are printed.
#[derive(Clone, Copy, Debug)]
pub struct TracedEvent {
    /// The end of the event.
    pub side: Side,
    /// The PDU whose datagram was delivered, if the event is a delivery.
    pub came: Option<Label>,
    /// The event is a tick.
    pub is_tick: bool,
}

/// How far the notes of an event are printed.
#[derive(Clone, Copy, Debug)]
struct Progress {
    /// The place of the first PDU that is not printed yet.
    unprinted: usize,
    /// Notes of a machine step's effects in the session may still follow.
    in_step: bool,
    /// A machine step was noted.
    had_step: bool,
}

/// The printer, with the labels that it prints.
#[derive(Drop)]
pub struct Trace<W: Write + Drop, A: Allocator = Global> {
    /// The PDUs by their labels.
    pub labels: Labels<A>,
    /// Steps are printed.
    pub is_on: bool,
    /// The output.
    out: BufWriter<W, A>,
    /// The parts that wait at each end, by their numbers.
    waits: Sides<Waits>,
    /// How far the notes of the last event are printed.
    progress: Progress,
}

impl<W: Write + Drop, A: Allocator + Copy> Trace<W, A> {
    /// Returns a printer that prints no steps yet; `None` if its buffer cannot be allocated.
    pub fn new(alloc: A, out: W) -> Option<Self> {
        Some(Trace {
            labels: Labels::new(alloc),
            is_on: false,
            out: BufWriter::new(alloc, out).ok()?,
            waits: Sides {
                il: ArrayVec::new(),
                fe: ArrayVec::new(),
            },
            progress: Progress {
                unprinted: 0,
                in_step: false,
                had_step: false,
            },
        })
    }

    /// Starts the notes of an event.
    pub fn begin(&mut self) {
        self.progress = Progress {
            unprinted: self.labels.len(),
            in_step: false,
            had_step: false,
        };
    }

    /// Handles the next note of an event.
    ///
    /// A PDU is printed after what its machine step drops and delivers, so it is held back until the step is noted.
    pub fn add(&mut self, event: TracedEvent, told: NoteView<'_>) -> Result<(), ScriptLineFault> {
        match told {
            NoteView::Made(datagram) => {
                if self.progress.in_step {
                    self.catch_up()?;
                }
                self.labels.make(event.side, datagram)?;
                Ok(())
            }
            NoteView::Note(Note::Step(number, step)) => self.step(event, number, step),
            NoteView::Note(Note::Take(kind, payload)) => {
                self.hand_up()?;
                self.take(event.side, kind, payload)
            }
            NoteView::Note(Note::Phase(phase)) => {
                self.hand_up()?;
                let side = side_name(event.side);
                let name = phase_name(phase);
                self.print_step(format_args!("{side} phase {name}"))
            }
            NoteView::Note(Note::State(state)) => {
                self.catch_up()?;
                let side = side_name(event.side);
                let name = state_name(state);
                self.print_step(format_args!("{side} state {name}"))
            }
            NoteView::Note(Note::Redundancy(number, answer)) => self.redundancy(
                event, number, answer,
            ),
        }
    }

    /// Ends the notes of an event.
    pub fn finish(&mut self) -> Result<(), ScriptLineFault> {
        self.catch_up()
    }

    /// Forgets the waiting parts of an end that was opened again.
    pub fn forget_waiting(&mut self, side: Side) {
        self.waits.of_mut(side).clear();
    }

    /// Prints that a delivery breaks the premise of the promises.
    pub fn warn(&mut self, label: Label) -> Result<(), ScriptLineFault> {
        self.print_step(format_args!("note {label} not live"))
    }

    /// Prints a refusal.
    pub fn refuse(&mut self, name: &str) -> Result<(), ScriptLineFault> {
        check_written(write_refusal(&mut self.out, name))
    }

    /// Prints the state of an end at the end of a script.
    pub fn report(
        &mut self,
        side: Side,
        standing: Option<EndReport>,
    ) -> Result<(), ScriptLineFault> {
        check_written(write_report(&mut self.out, side, standing))
    }

    /// Writes out everything that was printed.
    pub fn flush(&mut self) -> Result<(), ScriptLineFault> {
        check_written(self.out.flush())
    }

    /// Prints the machine step of a part: what it drops comes before all that it delivers and makes.
    fn step(&mut self, event: TracedEvent, number: u32, step: Step) -> Result<(), ScriptLineFault> {
        if self.progress.in_step {
            self.catch_up()?;
        }
        let part = self.part(event, number);
        if event.is_tick && !self.progress.had_step {
            self.own_heartbeat(part, step)?;
        }
        self.progress.in_step = true;
        self.progress.had_step = true;
        match (step_cause(step), part) {
            (Some(cause), Some(label)) => self.print_drop(event.side, label, cause),
            _ => Ok(()),
        }
    }

    /// Returns the PDU of the part with this number: the one that waited, or the one that came.
    fn part(&mut self, event: TracedEvent, number: u32) -> Option<Label> {
        let waits = self.waits.of_mut(event.side);
        match waits.iter().position(|(waiting, _)| *waiting == number) {
            Some(at) => {
                let (_, place) = waits.remove(at);
                Some(Label {
                    side: other(event.side),
                    place,
                })
            }
            None => event.came,
        }
    }

    /// Prints the heartbeat that a tick makes on its own, before the first step of a part that a deadline releases.
    ///
    /// This heartbeat confirms what was taken before that part; one that the step makes confirms the part.
    fn own_heartbeat(&mut self, part: Option<Label>, step: Step) -> Result<(), ScriptLineFault> {
        let first = self.progress.unprinted;
        let (Some(label), Some(part)) = (self.labels.label(first), part) else {
            return Ok(());
        };
        let Some(made) = self.header(label) else {
            return Ok(());
        };
        let of_step = step == Step::Taken
            && self.header(part).is_some_and(|came| came.sn == made.cs);
        if made.kind != Kind::Heartbeat || of_step {
            return Ok(());
        }
        self.progress.unprinted = first.saturating_add(1);
        self.print_pdu(label)
    }

    /// Prints what the redundancy layer did with the datagram that came.
    fn redundancy(
        &mut self,
        event: TracedEvent,
        number: Option<u32>,
        answer: RedEvent,
    ) -> Result<(), ScriptLineFault> {
        self.catch_up()?;
        let Some(label) = event.came else {
            return Ok(());
        };
        if let (RedEvent::Wait, Some(number)) = (answer, number) {
            // At most as many parts wait as there is room for.
            let _ = self
                .waits
                .of_mut(event.side)
                .try_push((number, label.place));
            return self.print_wait(event.side, label);
        }
        match red_cause(answer) {
            Some(cause) => self.print_drop(event.side, label, cause),
            None => Ok(()),
        }
    }

    /// Prepares for a note of what a unit did in the session.
    fn hand_up(&mut self) -> Result<(), ScriptLineFault> {
        if self.progress.in_step {
            return Ok(());
        }
        self.catch_up()
    }

    /// Prints the PDUs that were held back.
    fn catch_up(&mut self) -> Result<(), ScriptLineFault> {
        self.progress.in_step = false;
        let first = self.progress.unprinted;
        self.progress.unprinted = self.labels.len();
        if !self.is_on {
            return Ok(());
        }
        for place in first..self.labels.len() {
            if let Some(label) = self.labels.label(place) {
                self.print_pdu(label)?;
            }
        }
        Ok(())
    }

    /// Prints a PDU with its numbers.
    fn print_pdu(&mut self, label: Label) -> Result<(), ScriptLineFault> {
        let Some(header) = self.header(label) else {
            return Ok(());
        };
        let name = header.kind.name();
        let sn = header.sn;
        let cs = header.cs;
        match header.leaving {
            Some((detail, reason)) => self.print_step(format_args!(
                "{label} {name} {sn} {cs} reason {reason} detail {detail}"
            )),
            None => self.print_step(format_args!("{label} {name} {sn} {cs}")),
        }
    }

    /// Prints a telegram that was taken.
    fn take(
        &mut self,
        side: Side,
        kind: MessageType,
        payload: &[u8],
    ) -> Result<(), ScriptLineFault> {
        if self.is_on {
            check_written(write_take(&mut self.out, side, kind, payload))
        } else {
            Ok(())
        }
    }

    /// Prints that a PDU was dropped, and why.
    fn print_drop(&mut self, side: Side, label: Label, cause: &str) -> Result<(), ScriptLineFault> {
        let side = side_name(side);
        self.print_step(format_args!("{side} drop {label} {cause}"))
    }

    /// Prints that a part waits.
    fn print_wait(&mut self, side: Side, label: Label) -> Result<(), ScriptLineFault> {
        let side = side_name(side);
        self.print_step(format_args!("{side} wait {label}"))
    }

    /// Returns the header of a PDU.
    fn header(&self, label: Label) -> Option<Header> {
        Header::of(self.labels.datagram(label)?)
    }

    /// Prints a line if steps are printed.
    fn print_step(&mut self, line: impl Display + Drop) -> Result<(), ScriptLineFault> {
        if self.is_on {
            check_written(writeln!(self.out, "{line}"))
        } else {
            Ok(())
        }
    }
}

/// Returns `Output` if a writer failed.
fn check_written(answer: io::Result<()>) -> Result<(), ScriptLineFault>
    ensures { MatchResult result (λ _. IsOk answer) (λ fault. (fault ≡ ScriptLineFault.Output) × IsErr answer) }
{
    match answer {
        Ok(()) => Ok(()),
        Err(_) => Err(ScriptLineFault::Output),
    }
}

/// The values of a PDU that a line has.
#[derive(Clone, Copy, Debug)]
struct Header {
    /// The PDU type.
    kind: Kind,
    /// The sequence number.
    sn: u32,
    /// The confirmed sequence number.
    cs: u32,
    /// Detail and reason, if it is a DiscReq.
    leaving: Option<(u16, u16)>,
}

impl Header {
    /// Reads the values from the datagram of an end.
    fn of(datagram: &[u8]) -> Option<Self> {
        let (_, pdu) = datagram.split_at_checked(RED_HEADER)?;
        let (header, body) = pdu.split_at_checked(SAFE_HEADER)?;
        let kind = Kind::of(u16_at(header, 2))?;
        Some(Header {
            kind,
            sn: u32_at(header, 12),
            cs: u32_at(header, 16),
            leaving: departure(kind, body),
        })
    }
}

/// Returns detail and reason of a DiscReq; `None` for any other type.
fn departure(kind: Kind, body: &[u8]) -> Option<(u16, u16)> {
    if kind != Kind::DiscReq {
        return None;
    }
    let (front, _) = body.split_at_checked(4)?;
    Some((u16_at(front, 0), u16_at(front, 2)))
}
