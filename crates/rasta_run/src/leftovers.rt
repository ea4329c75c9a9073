//! What a run until the end of input leaves undone: lines and entries of `puts` that were not put, and telegrams in
//! doubt.

ghost use Rattle.std.specs.Prelude.{◌≡◌, ◌≢◌, false, true, OnOk};
ghost use Rattle.std.specs.Io.KnownBytes.{Appends};
ghost use Rattle.rasta_run.specs.Leftovers as undone;

use end_settings::Side;
use pdi_session::MessageType;
use pdu_text::{side_name, write_hex, write_text};
use rasta_words::Status;
use std::io;
use std::io::Write;

/// Where a telegram that is to be put comes from.
#[derive(Clone, Copy, Debug, PartialEq, Eq)]
pub enum Origin {
    /// The line of input with this number, from 1.
    Line(u64),
    /// The entry of `puts` with this number, from 1.
    Entry(u64),
}

/// What an end leaves undone at the end of a run.
#[derive(Clone, Copy, Debug, PartialEq, Eq)]
pub struct Leftovers {
    /// The number of lines of input that were not put.
    pub lines: u64,
    /// The number of entries of `puts` that were not put.
    pub entries: u64,
    /// The number of telegrams that were sent and not confirmed.
    pub doubt: u64,
    /// The number of telegrams that were put and not sent.
    pub unsent: u64,
}

impl Leftovers {
    /// Returns that nothing is left undone.
    pub fn nothing() -> Self
        // `nothing` returns four numbers of 0.
        ensures { result ≡ record { lines = 0; entries = 0; doubt = 0; unsent = 0 } }
    {
        Leftovers {
            lines: 0,
            entries: 0,
            doubt: 0,
            unsent: 0,
        }
    }

    /// Returns whether everything was put and confirmed.
    pub fn is_nothing(&self) -> bool
        // `is_nothing` is true if and only if all four numbers are 0.
        ensures { result ≡ undone.is_nothing self.now }
    {
        self.lines == 0 && self.entries == 0 && self.doubt == 0 && self.unsent == 0
    }

    /// Writes the line of what an end leaves undone.
    ///
    /// # Errors
    ///
    /// - The error of the writer; what it wrote before stays written.
    pub fn write<W: Write>(&self, writer: &mut W, side: Side) -> io::Result<()>
        // If `write` succeeds, it has appended the line with the end and the four numbers.
        ensures { OnOk result (Appends (W.contents writer.old) (W.contents writer.new)
            (undone.undone_line side self.now)) }
    {
        write_text(writer, side_name(side))?;
        write_lines(writer, self.lines)?;
        write_entries(writer, self.entries)?;
        write_doubt(writer, self.doubt)?;
        write_unsent(writer, self.unsent)
    }

    /// Writes the line of what an end leaves undone, if it is anything.
    ///
    /// # Errors
    ///
    /// - The error of the writer; what it wrote before stays written.
    pub fn write_if<W: Write>(&self, writer: &mut W, side: Side) -> io::Result<()>
        // If `write_if` succeeds, it has appended that line, or nothing if nothing is left undone.
        ensures { OnOk result (Appends (W.contents writer.old) (W.contents writer.new) (undone.printed_line side self.now)) }
    {
        if self.is_nothing() {
            return write_text(writer, "");
        }
        self.write(writer, side)
    }
}

/// Writes how many lines were not put.
#[tactic(auto, unfolding(crate::specs::Leftovers::lines_text))]
fn write_lines<W: Write>(writer: &mut W, lines: u64) -> io::Result<()>
    ensures { OnOk result (Appends (W.contents writer.old) (W.contents writer.new) (undone.lines_text lines)) }
{
    write!(writer, ": not put: {lines} lines of input, ")
}

/// Writes how many entries were not put.
#[tactic(auto, unfolding(crate::specs::Leftovers::entries_text))]
fn write_entries<W: Write>(writer: &mut W, entries: u64) -> io::Result<()>
    ensures { OnOk result (Appends (W.contents writer.old) (W.contents writer.new) (undone.entries_text entries)) }
{
    write!(writer, "{entries} entries of puts; ")
}

/// Writes how many telegrams are in doubt.
#[tactic(auto, unfolding(crate::specs::Leftovers::doubt_text))]
fn write_doubt<W: Write>(writer: &mut W, doubt: u64) -> io::Result<()>
    ensures { OnOk result (Appends (W.contents writer.old) (W.contents writer.new) (undone.doubt_text doubt)) }
{
    write!(
        writer,
        "in doubt: {doubt} telegrams sent and not confirmed; "
    )
}

/// Writes how many telegrams were not sent.
#[tactic(auto, unfolding(crate::specs::Leftovers::unsent_text))]
fn write_unsent<W: Write>(writer: &mut W, unsent: u64) -> io::Result<()>
    ensures { OnOk result (Appends (W.contents writer.old) (W.contents writer.new) (undone.unsent_text unsent)) }
{
    write!(writer, "not sent: {unsent}\n")
}

/// Writes that a telegram was refused: where it comes from, its message type, and the name of the fault.
///
/// # Errors
///
/// - The error of the writer; what it wrote before stays written.
pub fn write_refused<W: Write>(
    writer: &mut W,
    origin: Origin,
    kind: MessageType,
    name: &str,
) -> io::Result<()>
    // If `write_refused` succeeds, it has appended the line with origin, message type and name.
    ensures { OnOk result (Appends (W.contents writer.old) (W.contents writer.new)
        (undone.refused_line origin kind name.now)) }
{
    write_origin(writer, origin)?;
    write_hex(writer, &kind.to_be_bytes())?;
    write_text(writer, " not put: ")?;
    write_text(writer, name)?;
    write_text(writer, "\n")
}

/// Writes where a telegram comes from.
fn write_origin<W: Write>(writer: &mut W, origin: Origin) -> io::Result<()>
    ensures { OnOk result (Appends (W.contents writer.old) (W.contents writer.new) (undone.origin_text origin)) }
{
    match origin {
        Origin::Line(number) => write_line(writer, number),
        Origin::Entry(number) => write_entry(writer, number),
    }
}

/// Writes the number of a line.
#[tactic(auto, unfolding(crate::specs::Leftovers::line_text))]
fn write_line<W: Write>(writer: &mut W, number: u64) -> io::Result<()>
    ensures { OnOk result (Appends (W.contents writer.old) (W.contents writer.new) (undone.line_text number)) }
{
    write!(writer, "line {number}: ")
}

/// Writes the number of an entry.
#[tactic(auto, unfolding(crate::specs::Leftovers::entry_text))]
fn write_entry<W: Write>(writer: &mut W, number: u64) -> io::Result<()>
    ensures { OnOk result (Appends (W.contents writer.old) (W.contents writer.new) (undone.entry_text number)) }
{
    write!(writer, "puts entry {number}: ")
}

/// How a run was at its end.
#[derive(Clone, Copy, Debug, PartialEq, Eq)]
pub struct Outcome {
    /// Whether all lines of standard output were written.
    pub is_read: bool,
    /// Whether nothing is left undone that a run until the end of input was to do.
    pub is_finished: bool,
    /// Whether each end was in the expected state.
    pub is_met: bool,
}

/// Returns how a run ends.
pub fn run_status(outcome: Outcome) -> Status
    // `run_status` returns `Unread` if a line of standard output was not written, else `Unfinished` if something is
    // left undone, else `Unexpected` if an end is not in the expected state, and else `Done`.
    ensures status { result ≡ undone.run_status outcome.is_read outcome.is_finished outcome.is_met }
    // `run_status` never returns `WrongWords`.
    ensures words { result ≢ Status.WrongWords }
    // `run_status` does not return `Unexpected` if each end was in the expected state.
    ensures met { outcome.is_met ≡ true → result ≢ Status.Unexpected }
{
    match (outcome.is_read, outcome.is_finished, outcome.is_met) {
        (false, _, _) => Status::Unread,
        (true, false, _) => Status::Unfinished,
        (true, true, true) => Status::Done,
        (true, true, false) => Status::Unexpected,
    }
}

/// Returns how many telegrams that were put since the opening are in doubt, if `before` were put before it.
pub fn doubt_of(put: u64, before: u64, confirmed: u64) -> u64
    // `doubt_of` returns the telegrams put since the opening, less those that are confirmed.
    ensures { result ≡ undone.doubt_of put before confirmed }
{
    put.wrapping_sub(before).saturating_sub(confirmed)
}
