//! Standard output and standard error of a run, which are never waited for while it runs.

ghost use Rattle.std.specs.Prelude.{◌≡◌, ◌+◌, ◌==◌, [], Bool, List, ℕ, true, is_ok, min, not, length, IfErr, IfOk, OnOk};
ghost use Rattle.std.specs.Io.KnownBytes.{Appends, Keeps, append_known};
ghost use Rattle.rasta_run.specs.InputLines.{lines_left};
ghost use Rattle.rasta_run.specs.Backlogs.{PassesAll, next_try, unread_lines, unread_text};
ghost use Rattle.rasta_run.specs.Lateness as late;

use crate::backlog::Backlog;
use crate::lateness::{Lateness, ReaderState};
use crate::readiness::{Gate, Readiness, Stream};
use octets::Milliseconds;
use rasta_words::Fault;
use std::alloc::Global;
use std::io;
use std::io::Write;
use std::net::Net;

/// The number of bytes of standard output that wait for its reader.
const OUTPUT_MAX: usize = 1_048_576;

/// The number of bytes of the log that wait for its reader.
const LOG_MAX: usize = 65_536;

/// How long a run waits before it tries again to write lines that wait, in milliseconds.
const TRY_WAIT: u64 = 10;

/// Standard output and standard error of a run.
#[derive(Drop)]
pub struct Streams<O, E, G = Readiness> {
    /// The lines of standard output.
    pub out: Backlog<O>,
    /// The lines of standard error.
    pub err: Backlog<E>,
    /// Which streams are ready.
    pub gate: G,
    /// How long the end of a run waits for a reader that does not go on, and how old a line may be that is not
    /// read, in milliseconds.
    pub patience: Milliseconds,
    /// How far the reader of standard output is behind.
    pub lateness: Lateness,
    /// Whether a line was too old that was not read.
    pub is_stale: bool,
}

impl<O: Write + Drop, E: Write + Drop> Streams<O, E, Readiness> {
    /// Opens the streams of a run.
    ///
    /// # Errors
    ///
    /// - `Memory` if an allocation fails;
    /// - `Network` if the system has no means to wait.
    pub fn open<N: Net>(
        alloc: Global,
        net: &N,
        patience: Milliseconds,
        out: O,
        err: E,
    ) -> Result<Self, Fault>
        // In the streams that `open` returns nothing waits, and nothing was left out.
        ensures empty { IfOk result (λ s. (s.out.octets.items ≡ []) × (s.out.left_out ≡ 0)
            × (s.err.octets.items ≡ []) × (s.err.left_out ≡ 0)) }
        // 1 MiB of standard output wait at most, and 64 KiB of the log; in both a line that was begun is completed.
        ensures rooms { IfOk result (λ s. (s.out.room ≡ 1_048_576) × (s.err.room ≡ 65_536)) }
        // The streams that `open` returns are over these writers.
        ensures over { IfOk result (λ s. (s.out.writer ≡ out) × (s.err.writer ≡ err) × (s.patience ≡ patience)) }
    {
        let gate = Readiness::open(alloc, net)?;
        let Ok(out) = Backlog::open(alloc, Stream::Output, OUTPUT_MAX, out) else {
            return Err(Fault::Memory);
        };
        let Ok(err) = Backlog::open(alloc, Stream::Error, LOG_MAX, err) else {
            return Err(Fault::Memory);
        };
        Ok(Streams {
            out,
            err,
            gate,
            patience,
            lateness: Lateness::none(),
            is_stale: false,
        })
    }

    /// Tests whether standard output can be written. One that is watched is not tested: to a socket that keeps the bounds
    /// of writes an empty write is a message.
    ///
    /// # Errors
    ///
    /// - `Output` if it cannot.
    pub fn try_output(&mut self) -> Result<(), Fault> {
        if self.gate.is_watched(Stream::Output) || self.out.try_once() {
            Ok(())
        } else {
            Err(Fault::Output)
        }
    }
}

impl<O: Write, E: Write, G: Gate> Streams<O, E, G> {
    /// Writes the lines of a turn, as far as the streams take them without waiting. A log that cannot be written is
    /// skipped.
    ///
    /// # Errors
    ///
    /// - `Output` if standard output cannot be written.
    pub fn pass_on(&mut self) -> Result<(), Fault>
        // `pass_on` loses and repeats no byte of standard output.
        ensures whole { Keeps (append_known (O.contents self.old.out.writer) self.old.out.octets.items)
            (append_known (O.contents self.new.out.writer) self.new.out.octets.items) }
        // `pass_on` leaves no line of standard output out.
        ensures kept { self.new.out.left_out ≡ self.old.out.left_out }
        // `pass_on` writes what waits for standard output as long as that is ready. It fails if and only if a write
        // has failed.
        ensures passed { (gate : G) × PassesAll O.contents G.asks self.old.out.stream
            (record { writer = self.old.out.writer; octets = self.old.out.octets.items; gate = self.old.gate }) (is_ok result)
            (record { writer = self.new.out.writer; octets = self.new.out.octets.items; gate = gate }) }
        // `pass_on` fails only with `Output`.
        ensures refused { IfErr result (λ why. why ≡ Fault.Output) }
    {
        let works = self.out.pass_on(&mut self.gate);
        self.pass_log();
        if works { Ok(()) } else { Err(Fault::Output) }
    }

    /// Looks how far the reader of standard output is behind, and returns that if it is not known.
    pub fn look_at_reader(&mut self, now: Milliseconds) -> ReaderState
        // `look_at_reader` changes neither stream.
        ensures kept { (self.new.out ≡ self.old.out) × (self.new.err ≡ self.old.err) × (self.new.gate ≡ self.old.gate)
            × (self.new.patience ≡ self.old.patience) }
        // `look_at_reader` looks at the bytes that wait, and at those that the stream took.
        ensures looked { self.new.lateness.boundary ≡ late.boundary_after self.old.out.gone (length self.old.out.octets.items) now
            self.old.lateness.boundary }
        // `look_at_reader` returns `Stale` if and only if bytes wait that may be as old as the `patience`.
        ensures stale { result ≡ late.state_of self.old.lateness.is_told self.new.lateness.boundary self.old.patience now }
    {
        let state = self
            .lateness
            .look(self.out.gone, self.out.octets.len(), self.patience, now);
        if state == ReaderState::Stale {
            self.is_stale = true;
        }
        state
    }

    /// Returns whether no more is written to standard output: it cannot be written, or nobody reads it.
    pub fn is_given_up(&self) -> bool {
        self.is_stale || self.out.failure.is_some()
    }

    /// Writes the lines of the log, as far as standard error takes them.
    fn pass_log(&mut self)
        // `pass_log` does not change standard output.
        ensures kept { (self.new.out ≡ self.old.out) × (self.new.patience ≡ self.old.patience) }
        // `pass_log` writes what waits for standard error as long as that is ready.
        ensures passed { (works : Bool) × (octets : List ℕ) × PassesAll E.contents G.asks self.old.err.stream
            (record { writer = self.old.err.writer; octets = self.old.err.octets.items; gate = self.old.gate }) works
            (record { writer = self.new.err.writer; octets = octets; gate = self.new.gate }) }
    {
        if !self.err.pass_on(&mut self.gate) {
            self.err.skip();
        }
        self.err.note_left_out();
    }

    /// Returns when lines that wait are tried again, in milliseconds.
    pub fn next_try(&self, now: Milliseconds) -> Option<Milliseconds>
        // `next_try` returns 10 ms later if bytes wait for a stream, and else `None`.
        ensures { result ≡ next_try self.now.out.octets.items self.now.err.octets.items now }
    {
        if self.out.has_waiting() || self.err.has_waiting() {
            return Some(now.saturating_add(TRY_WAIT));
        }
        None
    }

    /// Writes what waits for standard output at the end of a run, as long as its reader goes on. Returns whether
    /// nothing is left.
    ///
    /// # Errors
    ///
    /// - `Output` if standard output cannot be written.
    pub fn print_rest(&mut self) -> Result<bool, Fault>
        // At the end of a run no byte of standard output is lost or repeated.
        ensures whole { Keeps (append_known (O.contents self.old.out.writer) self.old.out.octets.items)
            (append_known (O.contents self.new.out.writer) self.new.out.octets.items) }
        // `print_rest` writes what waits for standard output as long as that is ready, and waits for that as long as its
        // `patience` says. It fails if and only if a write has failed.
        ensures passed { (gate : G) × (before : G) × (after : G) × G.waits gate self.old.patience before × G.waits after 0 self.new.gate
            × PassesAll O.contents G.asks self.old.out.stream
            (record { writer = self.old.out.writer; octets = self.old.out.octets.items; gate = before }) (is_ok result)
            (record { writer = self.new.out.writer; octets = self.new.out.octets.items; gate = after }) }
        // `print_rest` returns true if and only if nothing waits any more.
        ensures rest { IfOk result (λ printed. printed ≡ (length self.new.out.octets.items == 0)) }
        // `print_rest` leaves no line of standard output out.
        ensures kept { self.new.out.left_out ≡ self.old.out.left_out }
        // `print_rest` fails only with `Output`.
        ensures refused { IfErr result (λ why. why ≡ Fault.Output) }
    {
        self.pass_log();
        self.gate.set_patience(self.patience);
        let works = self.out.pass_on(&mut self.gate);
        self.gate.set_patience(0);
        if works {
            Ok(!self.out.has_waiting())
        } else {
            Err(Fault::Output)
        }
    }

    /// Writes what waits for standard output after a fault, and logs how many lines are not printed. An output that
    /// failed gets nothing more.
    pub fn give_up(&mut self, fault: Fault) {
        if fault != Fault::Output && self.print_rest().is_ok() {
            let _ = self.report_unread(0);
        }
    }

    /// Writes what waits for standard error at the end of a run, as long as its reader goes on.
    pub fn log_rest(&mut self)
        // `log_rest` does not change standard output.
        ensures kept { self.new.out ≡ self.old.out }
        // `log_rest` writes what waits for standard error as long as that is ready, and waits for that as long as its
        // `patience` says.
        ensures passed { (before : G) × (works : Bool) × (writer : E) × (octets : List ℕ) × (after : G) × G.waits self.old.gate self.old.patience before
            × PassesAll E.contents G.asks self.old.err.stream
            (record { writer = self.old.err.writer; octets = self.old.err.octets.items; gate = before }) works
            (record { writer = writer; octets = octets; gate = after }) }
    {
        self.gate.set_patience(self.patience);
        self.pass_log();
        self.pass_log();
        self.gate.set_patience(0);
    }

    /// Logs how many lines of standard output were not printed, if any were not. Returns whether all were.
    pub fn report_unread(&mut self, left_out: u64) -> bool
        // `report_unread` returns true if and only if no line was left out and none waits.
        ensures read { result ≡ (unread_lines left_out self.old.out.octets.items == 0) }
        // `report_unread` does not change standard output.
        ensures kept { self.new.out ≡ self.old.out }
    {
        let unread = left_out.saturating_add(self.out.waiting_count());
        if unread == 0 {
            return true;
        }
        let _ = write_unread(&mut self.err, unread);
        false
    }
}

/// Writes how many lines of standard output were not printed.
#[tactic(auto, unfolding(crate::specs::Backlogs::unread_text))]
fn write_unread<W: Write>(writer: &mut W, count: u64) -> io::Result<()>
    ensures { OnOk result (Appends (W.contents writer.old) (W.contents writer.new) (unread_text count)) }
{
    write!(writer, "output: {count} lines not printed\n")
}
