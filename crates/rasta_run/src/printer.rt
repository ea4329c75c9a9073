//! The lines of the telegrams that an application takes, and of those that were refused.

ghost use Rattle.std.specs.Prelude.{◌≡◌, ℕ, Bool, List, false, OnOk};
ghost use Rattle.std.specs.Io.KnownBytes.{Appends};
ghost use Rattle.pdu_text.specs.Reports.{take_line};
ghost use Rattle.rasta_run.specs.Printers.{PrintsTelegram, PrintsRefusal};
ghost use Rattle.rasta_run.specs.LineTimes.{StampsTake};

use crate::line_times::{Stamp, write_with_time};
use arrayvec::ArrayVec;
use end_settings::Side;
use pdi_session::{MessageType, Taker};
use pdu_text::{write_refusal, write_take};
use rasta_words::Fault;
use std::io;
use std::io::Write;

/// The longest line of a telegram in bytes: two letters, " takes ", four digits, a blank, 714 digits and the line feed.
const LINE_MAX: usize = 768;

/// The application of an end that is run by turns.
pub trait Application: Taker {
    // What a refusal does to it: the name of the fault, and the application afterwards.
    ghost refuses: { Self → List ℕ → Self → Type 0 };

    // Whether it has lost a telegram that it took.
    ghost has_lost: { Self → Bool };

    /// Learns that a telegram of its own, or the end of the initialisation, was refused.
    ///
    /// # Errors
    ///
    /// - `Output` if it cannot print that.
    fn refuse(&mut self, name: &str) -> Result<(), Fault>
        // If `refuse` succeeds, it has changed `self` as `refuses` says for this name.
        ensures { OnOk result (refuses self.old name.now self.new) };

    /// Returns whether it has lost a telegram that it took.
    fn has_failed(&self) -> bool
        // `has_failed` is what `has_lost` says of `self`.
        ensures { result ≡ has_lost self.now };
}

/// Prints each telegram that the application takes. An output that has no room counts the lines that it leaves out.
#[derive(Drop)]
pub struct Printer<'a, W> {
    /// The end whose telegrams are printed.
    pub side: Side,
    /// The time at the start of their lines, if they have one.
    pub stamp: Option<Stamp>,
    /// Where they are printed.
    pub writer: &'a mut W,
    /// The number of telegrams taken.
    pub taken: u64,
    /// Whether a line could not be written.
    pub failed: bool,
}

impl<'a, W> Printer<'a, W> {
    /// Returns a printer that has printed nothing.
    pub fn new(side: Side, stamp: Option<Stamp>, writer: &'a mut W) -> Self
        // A new printer is of this end, prints with this time, has counted no telegram and has not failed.
        ensures { (result.side ≡ side) × (result.stamp ≡ stamp) × (result.taken ≡ 0) × (result.failed ≡ false) }
    {
        Printer {
            side,
            stamp,
            writer,
            taken: 0,
            failed: false,
        }
    }
}

impl<W: Write> Taker for Printer<'_, W> {
    ghost takes = { λ p item q. (q.writer.ghost_name ≡ p.writer.ghost_name)
        × PrintsTelegram (record { side = p.side; stamp = p.stamp; taken = p.taken; failed = p.failed; text = W.contents p.writer.now }) item
        (record { side = q.side; stamp = q.stamp; taken = q.taken; failed = q.failed; text = W.contents q.writer.now }) };

    fn take(&mut self, kind: MessageType, payload: &[u8]) {
        self.taken = self.taken.wrapping_add(1);
        if print_take(self.writer, self.stamp, self.side, kind, payload).is_err() {
            self.failed = true;
        }
    }
}

impl<W: Write> Application for Printer<'_, W> {
    ghost refuses = { λ p name q. (q.writer.ghost_name ≡ p.writer.ghost_name)
        × PrintsRefusal (record { side = p.side; stamp = p.stamp; taken = p.taken; failed = p.failed; text = W.contents p.writer.now }) name
        (record { side = q.side; stamp = q.stamp; taken = q.taken; failed = q.failed; text = W.contents q.writer.now }) };

    ghost has_lost = { λ p. p.failed };

    fn refuse(&mut self, name: &str) -> Result<(), Fault> {
        match write_refusal(self.writer, name) {
            Ok(()) => Ok(()),
            Err(_) => Err(Fault::Output),
        }
    }

    fn has_failed(&self) -> bool {
        self.failed
    }
}

/// Prints the line of a telegram, after a time if there is one. Without a time it is one write.
fn print_take<W: Write>(
    writer: &mut W,
    stamp: Option<Stamp>,
    side: Side,
    kind: MessageType,
    payload: &[u8],
) -> io::Result<()>
    ensures { OnOk result ((written : List ℕ) × StampsTake stamp (take_line side kind payload.now) written
        × Appends (W.contents writer.old) (W.contents writer.new) written) }
{
    let mut line = ArrayVec::<u8, LINE_MAX>::new();
    write_take(&mut line, side, kind, payload)?;
    write_with_time(writer, stamp, line.as_slice())
}
