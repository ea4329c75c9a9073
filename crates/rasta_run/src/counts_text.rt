//! The counts of an end on standard error, in words, as JSON, or in the format of Prometheus.
//!
//! Each channel has one flat line and the connection one, so that `grep` and `jq` can read them.

ghost use Rattle.std.specs.Prelude.{◌≡◌, ◌+◌, ◌-◌, ◌<◌, ◌^◌, ◌∷◌, [], OnOk};
ghost use Rattle.std.specs.Io.KnownBytes.{Appends};
ghost use Rattle.std.specs.List.{flat_map};
ghost use Rattle.octets.specs.declared.limits.TheConstants.{CHANNELS_MAX};
ghost use Rattle.rasta_run.specs.Counters as counting;
ghost use Rattle.rasta_run.specs.Counts as counts;
ghost use Rattle.rasta_run.specs.Silence.{silences_at, new_silence};

use crate::metrics::Sample;
use crate::silence::ChannelSilence;
use crate::{ChannelCounts, RunCounts};
use end_settings::Side;
use octets::Milliseconds;
use octets::limits::CHANNELS_MAX;
use pdu_text::{side_name, write_text};
use rasta_words::{CountsForm, CountsRequest};
use stack_end::ReceptionCounts;
use std::io;
use std::io::Write;

/// The form of a line of counts.
#[derive(Clone, Copy, Debug, PartialEq, Eq)]
pub enum LineForm {
    /// In words.
    Text,
    /// As JSON.
    Json,
}

/// The counts of an end that are printed, and when.
#[derive(Clone, Copy, Debug)]
pub struct CountsPrinter {
    /// The end.
    side: Side,
    /// T_max of the end, in milliseconds.
    t_max: Milliseconds,
    /// The form and the time between two times; `None` if nothing is printed.
    telling: Option<CountsRequest>,
    /// When counts are printed next before the end, in milliseconds.
    pub next: Option<Milliseconds>,
    /// When each channel last received something.
    heard: [ChannelSilence; CHANNELS_MAX],
    /// The number of channels.
    count: usize,
}

impl CountsPrinter {
    /// Returns the printer of counts for an end that is opened now.
    pub fn new(
        side: Side,
        t_max: Milliseconds,
        telling: Option<CountsRequest>,
        count: usize,
        now: Milliseconds,
    ) -> Self
        // A new printer is of this end, has this form and number of channels, and prints next after the seconds of
        // the form. Nothing has come on any channel.
        ensures { result ≡ record {
          side = side;
          t_max = t_max;
          telling = telling;
          next = counts.next_after telling now;
          heard = new_silence 0 ∷ new_silence 0 ∷ new_silence 0 ∷ new_silence 0 ∷ [];
          count = count;
        } }
    {
        let unheard = ChannelSilence {
            came: 0,
            at: 0,
            silent: false,
        };
        CountsPrinter {
            side,
            t_max,
            telling,
            next: next_after(telling, now),
            heard: [unheard; CHANNELS_MAX],
            count,
        }
    }

    /// Returns whether nothing is printed.
    pub fn is_off(&self) -> bool
        // `is_off` is true if and only if there is no form.
        ensures { result ≡ counts.is_off self.now }
    {
        self.telling.is_none()
    }

    /// Records which channels received something, and returns whether the counts are due.
    pub fn look(&mut self, counted: &RunCounts, now: Milliseconds) -> bool
        // `look` returns true if and only if there is a next time and it is reached.
        ensures due { result ≡ counts.is_due self.old.next now }
        // `look` records of each channel whether it received something since the last look. Counts that are due are
        // printed next after the seconds of the form.
        ensures looked { self.new ≡ counts.look_at self.old counted.now now }
    {
        let is_due = is_due(self.next, now);
        self.next = next_by(is_due, self.telling, self.next, now);
        self.look_at(counted, now, 0);
        self.look_at(counted, now, 1);
        self.look_at(counted, now, 2);
        self.look_at(counted, now, 3);
        is_due
    }

    /// Records whether the channel at a place, from 0, received something, if the end has it.
    fn look_at(&mut self, counted: &RunCounts, now: Milliseconds, place: usize)
        requires { place < CHANNELS_MAX }
        ensures { self.new ≡ record self.old {
          heard = silences_at counted.now.sums.channels self.old.count now (2 ^ 64 - 1) place self.old.heard;
        } }
    {
        if place < self.count {
            let came = counted.sums.channels[place].received;
            let _said = self.heard[place].look(came, now, u64::MAX);
        }
    }

    /// Prints the counts, if there is a form for them.
    ///
    /// # Errors
    ///
    /// - The error of the writer; what it wrote before stays written.
    pub fn log_counts<E: Write>(
        &self,
        counted: &RunCounts,
        now: Milliseconds,
        err: &mut E,
    ) -> io::Result<()>
        // If `log_counts` succeeds, it has appended a line for each channel and one for the connection, or nothing without
        // a form that has lines.
        ensures { OnOk result (Appends (E.contents err.old) (E.contents err.new)
            (counts.printed_counts self.now now counted.now)) }
    {
        match self.line_form() {
            None => write_text(err, ""),
            Some(form) => self.write(err, form, counted, now),
        }
    }

    /// Returns the form of the lines, if there are any.
    fn line_form(&self) -> Option<LineForm>
        ensures { result ≡ counts.line_form self.now.telling }
    {
        match self.telling {
            None => None,
            Some(telling) => form_of(telling.form),
        }
    }

    /// Returns whether the counts of all ends are printed in one block, in the format of Prometheus.
    pub fn has_block(&self) -> bool
        // `has_block` is true if and only if the form is that of Prometheus.
        ensures { result ≡ counts.has_block self.now.telling }
    {
        match self.telling {
            None => false,
            Some(telling) => is_block(telling.form),
        }
    }

    /// Returns what is counted of the end at a time of the run, for that block.
    pub fn sample(&self, counted: &RunCounts, at: Milliseconds) -> Sample
        // `sample` returns what is counted, with the end, its number of channels, its T_max and the time.
        ensures { result ≡ record { side = self.now.side; count = self.now.count; t_max = self.now.t_max; at = at; counted = counted.now } }
    {
        Sample {
            side: self.side,
            count: self.count,
            t_max: self.t_max,
            at,
            counted: *counted,
        }
    }

    /// Writes the lines of the channels and of the connection.
    #[tactic(auto, unfolding(crate::specs::Counts::all_text))]
    fn write<W: Write>(
        &self,
        writer: &mut W,
        form: LineForm,
        counted: &RunCounts,
        now: Milliseconds,
    ) -> io::Result<()>
        ensures { OnOk result (Appends (W.contents writer.old) (W.contents writer.new)
            (counts.all_text self.now form now counted.now)) }
    {
        self.write_place(writer, form, counted, now, 0)?;
        self.write_place(writer, form, counted, now, 1)?;
        self.write_place(writer, form, counted, now, 2)?;
        self.write_place(writer, form, counted, now, 3)?;
        write_connection(writer, form, now, self.side, counted, self.t_max)
    }

    /// Writes the line of the channel at a place, from 0, if the end has it.
    #[tactic(auto, unfolding(crate::specs::Counts::place_text))]
    fn write_place<W: Write>(
        &self,
        writer: &mut W,
        form: LineForm,
        counted: &RunCounts,
        now: Milliseconds,
        place: usize,
    ) -> io::Result<()>
        requires { place < CHANNELS_MAX }
        ensures { OnOk result (Appends (W.contents writer.old) (W.contents writer.new)
            (counts.place_text self.now form now counted.now place)) }
    {
        if place >= self.count {
            return write_text(writer, "");
        }
        let receptions = &counted.sums.channels[place];
        let beside = &counted.channels[place];
        let refused = counted.failures[place].receives.count;
        let heard = self.heard[place].at;
        write_channel(
            writer,
            form,
            now,
            self.side,
            place + 1,
            receptions,
            beside,
            refused,
            heard,
        )
    }
}

/// Returns when counts are printed next, in milliseconds.
fn next_after(telling: Option<CountsRequest>, now: Milliseconds) -> Option<Milliseconds>
    ensures { result ≡ counts.next_after telling now }
{
    match telling {
        None => None,
        Some(telling) => next_every(telling.every, now),
    }
}

/// Returns the time that is some seconds later, in milliseconds.
fn next_every(every: Option<u32>, now: Milliseconds) -> Option<Milliseconds>
    ensures { result ≡ counts.next_every every now }
{
    match every {
        None => None,
        Some(seconds) => Some(now.saturating_add(u64::from(seconds) * 1_000)),
    }
}

/// Returns when counts are printed next, after a look.
fn next_by(
    is_due: bool,
    telling: Option<CountsRequest>,
    next: Option<Milliseconds>,
    now: Milliseconds,
) -> Option<Milliseconds>
    ensures { result ≡ counts.next_by is_due telling next now }
{
    match is_due {
        true => next_after(telling, now),
        false => next,
    }
}

/// Returns the form of lines of counts, if a form has lines.
fn form_of(form: CountsForm) -> Option<LineForm>
    ensures { result ≡ counts.form_of form }
{
    match form {
        CountsForm::Text => Some(LineForm::Text),
        CountsForm::Json => Some(LineForm::Json),
        CountsForm::Prometheus => None,
    }
}

/// Returns whether a form has one block for all ends.
fn is_block(form: CountsForm) -> bool
    ensures { result ≡ counts.is_block form }
{
    match form {
        CountsForm::Prometheus => true,
        CountsForm::Text | CountsForm::Json => false,
    }
}

/// Returns whether counts are due.
fn is_due(next: Option<Milliseconds>, now: Milliseconds) -> bool
    ensures { result ≡ counts.is_due next now }
{
    match next {
        Some(next) => next <= now,
        None => false,
    }
}

/// Writes the line of a channel, numbered from 1, which had this number of receptions refused, and last received
/// something at `heard` milliseconds.
///
/// # Errors
///
/// - The error of the writer; what it wrote before stays written.
#[tactic(auto, unfolding(crate::specs::Counts::channel_text))]
pub fn write_channel<W: Write>(
    writer: &mut W,
    form: LineForm,
    at: Milliseconds,
    side: Side,
    channel: usize,
    receptions: &ReceptionCounts,
    beside: &ChannelCounts,
    refused: u64,
    heard: u64,
) -> io::Result<()>
    // If `write_channel` succeeds, it has appended the line of this channel with its traffic, order and refusals
    // and when it last received something.
    ensures { OnOk result (Appends (W.contents writer.old) (W.contents writer.new)
        (counts.channel_text form at side channel receptions.now beside.now refused heard)) }
{
    let damaged = receptions.damaged.total().wrapping_add(beside.damaged);
    let fields = [
        ("time", at),
        ("channel", channel as u64),
        ("sent", beside.sent),
        ("failed", beside.failed),
        ("refused", refused),
        ("received", receptions.received),
        ("passed", receptions.passed),
        ("deferred", receptions.deferred),
        ("old", receptions.old),
        ("repeats", receptions.repeated),
        ("far", receptions.far),
        ("full", receptions.full),
        ("damaged", damaged),
        ("strangers", beside.strangers),
        ("heard", heard),
    ];
    write_front(writer, form, side)?;
    write_fields(writer, form, &fields)?;
    write_text(writer, end_of(form))
}

/// Writes the line of the connection of an end with this T_max in milliseconds.
///
/// # Errors
///
/// - The error of the writer; what it wrote before stays written.
#[tactic(auto, unfolding(crate::specs::Counts::connection_text))]
pub fn write_connection<W: Write>(
    writer: &mut W,
    form: LineForm,
    at: Milliseconds,
    side: Side,
    counted: &RunCounts,
    t_max: Milliseconds,
) -> io::Result<()>
    // If `write_connection` succeeds, it has appended the line of the connection with its PDUs made and received,
    // its confirmations, its telegrams and the deferrals that expired.
    ensures { OnOk result (Appends (W.contents writer.old) (W.contents writer.new)
        (counts.connection_text form at side counted.now t_max)) }
{
    write_front(writer, form, side)?;
    write_pdus(writer, form, at, counted)?;
    write_some(writer, form, "oldest", counted.oldest())?;
    write_some(writer, form, "margin", margin_of(counted.oldest(), t_max))?;
    write_fields(
        writer,
        form,
        &[
            ("put", counted.put),
            ("taken", counted.taken),
            ("expired", counted.sums.expired_deferrals),
        ],
    )?;
    write_text(writer, end_of(form))
}

/// Writes the time, and the counts of PDUs.
#[tactic(auto, unfolding(crate::specs::Counts::pdus_text))]
fn write_pdus<W: Write>(
    writer: &mut W,
    form: LineForm,
    at: Milliseconds,
    counted: &RunCounts,
) -> io::Result<()>
    ensures { OnOk result (Appends (W.contents writer.old) (W.contents writer.new)
        (counts.pdus_text form at counted.now)) }
{
    let made = &counted.sums.made;
    let fields = [
        ("time", at),
        ("units", made.units),
        ("resent", made.resent),
        ("heartbeats", made.heartbeats),
        ("asked", made.requests),
        ("answered", made.answers),
        ("accepted", counted.accepted_count()),
        ("dropped", counted.dropped_count()),
        ("confirmed", counted.sums.confirmed),
    ];
    write_fields(writer, form, &fields)
}

/// Returns the least time that was left to T_max, in milliseconds.
pub fn margin_of(oldest: Option<Milliseconds>, t_max: Milliseconds) -> Option<Milliseconds>
    // `margin_of` returns T_max minus the greatest age, at least 0, and `None` if there is no age.
    ensures { result ≡ counts.margin_of oldest t_max }
{
    match oldest {
        None => None,
        Some(oldest) => Some(t_max.saturating_sub(oldest)),
    }
}

/// Writes the start of a line.
fn write_front<W: Write>(writer: &mut W, form: LineForm, side: Side) -> io::Result<()>
    ensures { OnOk result (Appends (W.contents writer.old) (W.contents writer.new) (counts.front_of form side)) }
{
    match form {
        LineForm::Text => write_worded_front(writer, side),
        LineForm::Json => write_json_front(writer, side),
    }
}

/// Writes the start of a line in words.
#[tactic(auto, unfolding(crate::specs::Counts::worded_front))]
fn write_worded_front<W: Write>(writer: &mut W, side: Side) -> io::Result<()>
    ensures { OnOk result (Appends (W.contents writer.old) (W.contents writer.new) (counts.worded_front side)) }
{
    let end = side_name(side);
    write!(writer, "{end} counts")
}

/// Writes the start of a line of JSON.
#[tactic(auto, unfolding(crate::specs::Counts::json_front))]
fn write_json_front<W: Write>(writer: &mut W, side: Side) -> io::Result<()>
    ensures { OnOk result (Appends (W.contents writer.old) (W.contents writer.new) (counts.json_front side)) }
{
    let end = side_name(side);
    write!(writer, "{{\"end\":\"{end}\"")
}

/// Writes numbers, each with its name.
fn write_fields<W: Write>(writer: &mut W, form: LineForm, fields: &[(&str, u64)]) -> io::Result<()>
    ensures { OnOk result (Appends (W.contents writer.old) (W.contents writer.new)
        (flat_map (λ f. counts.field_text form f.0.now f.1) fields.now)) }
{
    for (name, number) in fields {
        write_field(writer, form, name, *number)?;
    }
    Ok(())
}

/// Writes a number with its name.
fn write_field<W: Write>(writer: &mut W, form: LineForm, name: &str, number: u64) -> io::Result<()>
    ensures { OnOk result (Appends (W.contents writer.old) (W.contents writer.new)
        (counts.field_text form name.now number)) }
{
    match form {
        LineForm::Text => write_worded(writer, name, number),
        LineForm::Json => write_json(writer, name, number),
    }
}

/// Writes a number with its name, if there is one.
fn write_some<W: Write>(
    writer: &mut W,
    form: LineForm,
    name: &str,
    number: Option<u64>,
) -> io::Result<()>
    ensures { OnOk result (Appends (W.contents writer.old) (W.contents writer.new)
        (counts.some_text form name.now number)) }
{
    match number {
        None => write_none(writer, form, name),
        Some(number) => write_field(writer, form, name, number),
    }
}

/// Writes that there is no number of this name.
fn write_none<W: Write>(writer: &mut W, form: LineForm, name: &str) -> io::Result<()>
    ensures { OnOk result (Appends (W.contents writer.old) (W.contents writer.new)
        (counts.none_text form name.now)) }
{
    match form {
        LineForm::Text => write_worded_none(writer, name),
        LineForm::Json => write_json_none(writer, name),
    }
}

/// Writes in words that there is no number.
#[tactic(auto, unfolding(crate::specs::Counts::worded_none))]
fn write_worded_none<W: Write>(writer: &mut W, name: &str) -> io::Result<()>
    ensures { OnOk result (Appends (W.contents writer.old) (W.contents writer.new) (counts.worded_none name.now)) }
{
    write!(writer, " {name} none")
}

/// Writes in JSON that there is no number.
#[tactic(auto, unfolding(crate::specs::Counts::json_none))]
fn write_json_none<W: Write>(writer: &mut W, name: &str) -> io::Result<()>
    ensures { OnOk result (Appends (W.contents writer.old) (W.contents writer.new) (counts.json_none name.now)) }
{
    write!(writer, ",\"{name}\":null")
}

/// Writes a number in words.
#[tactic(auto, unfolding(crate::specs::Counts::worded_field))]
fn write_worded<W: Write>(writer: &mut W, name: &str, number: u64) -> io::Result<()>
    ensures { OnOk result (Appends (W.contents writer.old) (W.contents writer.new)
        (counts.worded_field name.now number)) }
{
    write!(writer, " {name} {number}")
}

/// Writes a number in JSON.
#[tactic(auto, unfolding(crate::specs::Counts::json_field))]
fn write_json<W: Write>(writer: &mut W, name: &str, number: u64) -> io::Result<()>
    ensures { OnOk result (Appends (W.contents writer.old) (W.contents writer.new)
        (counts.json_field name.now number)) }
{
    write!(writer, ",\"{name}\":{number}")
}

/// Returns the end of a line.
fn end_of(form: LineForm) -> &'static str
    ensures { result.now ≡ counts.end_of form }
{
    match form {
        LineForm::Text => "\n",
        LineForm::Json => "}\n",
    }
}
