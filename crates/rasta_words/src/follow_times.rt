//! The options of `follow` that are about times.

ghost use Rattle.std.specs.Prelude.{◌≡◌, ℕ, Option, Some, Ok, IsErr, IfOk, IfErr};
ghost use Rattle.std.specs.Option.{option_copied};
ghost use Rattle.clap.specs.Words.{found_of, rows_of};
ghost use Rattle.capture.specs.declared.instants.Instant.{Instant as TheInstant};
ghost use Rattle.capture_text.specs.declared.pieces.TimeForm.{TimeForm as TheForm};
ghost use Rattle.rasta_words.specs.Rejections.{AreTimesRejected, NamesGivenOption};
ghost use Rattle.rasta_words.specs.Seconds.{AreSecondsChosen};
ghost use Rattle.rasta_words.specs.Times.{HasNoTimes, HasTimes, IsFormChosen, IsInstantChosen, is_reversed};
ghost use Rattle.rasta_words.specs.declared.rejection.Choice.TheVariants as choice;

use crate::command_line::FollowTimes;
use crate::entries::entry;
use crate::rejection::{Choice, Rejection};
use crate::run_options::seconds;
use capture::{Instant, Span, read_instant};
use capture_text::TimeForm;
use clap::ArgMatches;

/// Returns the times of the entries of `follow`. The options are read in the order `--time`, `--from`, `--to`,
/// `--every`. Then the last instant must not be before the first.
pub fn chosen_times<'a>(entries: &ArgMatches<'a>) -> Result<FollowTimes, Rejection<'a>>
    // The times that `chosen_times` returns have the values of the entries.
    ensures found { IfOk result (HasTimes (rows_of (found_of entries.now))) }
    // If `chosen_times` fails, no times have the values of the entries, or they end before they begin.
    ensures none { IsErr result → HasNoTimes (rows_of (found_of entries.now)) }
    // If `chosen_times` fails, it names the first option in its order that is not valid; if each is valid, the fault is
    // `Reversed`.
    ensures refused { IfErr result (AreTimesRejected (rows_of (found_of entries.now))) }
{
    let form = chosen_form(entry(entries, "time"))?;
    let from = chosen_start(entry(entries, "from"))?;
    let to = chosen_end(entry(entries, "to"))?;
    let every = chosen_period(entry(entries, "every"))?;
    let span = Span { from, to };
    if is_reversed(&span) {
        return Err(Rejection::Reversed);
    }
    Ok(FollowTimes { form, span, every })
}

/// Returns `true` if a span ends before it begins. Instants of two forms are not compared: only a recording has both.
fn is_reversed(span: &Span) -> bool
    ensures { result ≡ is_reversed span.now }
{
    match (span.from, span.to) {
        (Some(Instant::Since(from)), Some(Instant::Since(to)))
        | (Some(Instant::At(from)), Some(Instant::At(to))) => to < from,
        _ => false,
    }
}

/// Returns the form of times that a word names: seconds since the first datagram if there is no word.
fn chosen_form<'a>(word: Option<&'a str>) -> Result<TimeForm, Rejection<'a>>
    // The form that `chosen_form` returns is that of the word, and `Since` if there is no word.
    ensures found { IfOk result (IsFormChosen (option_copied word.entry)) }
    // If the word, or its absence, chooses a form, `chosen_form` returns it.
    ensures only { (form : TheForm) → IsFormChosen (option_copied word.entry) form → result ≡ Ok form }
    // If `chosen_form` fails, the word is the value of `Times` that it rejects.
    ensures refused { IfErr result (NamesGivenOption choice.Times (option_copied word.entry)) }
{
    match word {
        None => Ok(TimeForm::Since),
        Some("since") => Ok(TimeForm::Since),
        Some("epoch") => Ok(TimeForm::Epoch),
        Some("utc") => Ok(TimeForm::Utc),
        Some(word) => Err(Rejection::Value {
            option: Choice::Times,
            value: word,
        }),
    }
}

/// Returns the first instant that a word names; none if there is no word.
fn chosen_start<'a>(word: Option<&'a str>) -> Result<Option<Instant>, Rejection<'a>>
    // The instant that `chosen_start` returns is that of the word, and none if there is no word.
    ensures found { IfOk result (IsInstantChosen (option_copied word.entry)) }
    // If the word, or its absence, chooses an instant, `chosen_start` returns it.
    ensures only { (instant : Option TheInstant) → IsInstantChosen (option_copied word.entry) instant
        → result ≡ Ok instant }
    // If `chosen_start` fails, the word is the value of `From` that it rejects.
    ensures refused { IfErr result (NamesGivenOption choice.From (option_copied word.entry)) }
{
    match word {
        None => Ok(None),
        Some(word) => match read_instant(word.as_bytes()) {
            Some(instant) => Ok(Some(instant)),
            None => Err(Rejection::Value {
                option: Choice::From,
                value: word,
            }),
        },
    }
}

/// Returns the last instant that a word names; none if there is no word.
fn chosen_end<'a>(word: Option<&'a str>) -> Result<Option<Instant>, Rejection<'a>>
    // The instant that `chosen_end` returns is that of the word, and none if there is no word.
    ensures found { IfOk result (IsInstantChosen (option_copied word.entry)) }
    // If the word, or its absence, chooses an instant, `chosen_end` returns it.
    ensures only { (instant : Option TheInstant) → IsInstantChosen (option_copied word.entry) instant
        → result ≡ Ok instant }
    // If `chosen_end` fails, the word is the value of `To` that it rejects.
    ensures refused { IfErr result (NamesGivenOption choice.To (option_copied word.entry)) }
{
    match word {
        None => Ok(None),
        Some(word) => match read_instant(word.as_bytes()) {
            Some(instant) => Ok(Some(instant)),
            None => Err(Rejection::Value {
                option: Choice::To,
                value: word,
            }),
        },
    }
}

/// Returns the seconds between two summaries that a word names; none if there is no word.
fn chosen_period<'a>(word: Option<&'a str>) -> Result<Option<u32>, Rejection<'a>>
    // The seconds that `chosen_period` returns are those of the word, and none if there is no word.
    ensures found { IfOk result (AreSecondsChosen (option_copied word.entry)) }
    // If there is no word, or a number of 1 to 86,400 as word, `chosen_period` returns what it chooses.
    ensures only { (every : Option ℕ) → AreSecondsChosen (option_copied word.entry) every → result ≡ Ok every }
    // If `chosen_period` fails, the word is the value of `Period` that it rejects.
    ensures refused { IfErr result (NamesGivenOption choice.Period (option_copied word.entry)) }
{
    match word {
        None => Ok(None),
        Some(word) => match seconds(word) {
            Some(seconds) => Ok(Some(seconds)),
            None => Err(Rejection::Value {
                option: Choice::Period,
                value: word,
            }),
        },
    }
}
