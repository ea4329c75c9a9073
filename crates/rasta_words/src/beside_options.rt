//! The option `--beside` of `follow`, and the options that do not go with it.

ghost use Rattle.std.specs.Prelude.{◌≡◌, IfErr, IfOk};
ghost use Rattle.std.specs.Option.{option_copied};
ghost use Rattle.clap.specs.Words.{found_of, rows_of};
ghost use Rattle.rasta_words.specs.BesideOptions.{IsBesideChosen, IsBesideRejected, time_of, unpaired_of, value_of};

use crate::entries::{entry, is_chosen};
use crate::rejection::Rejection;
use clap::ArgMatches;

/// Returns the recording that the word of `--beside` names; none if there is no word.
pub fn chosen_recording<'a>(
    entries: &ArgMatches<'a>,
    file: &'a str,
) -> Result<Option<&'a str>, Rejection<'a>>
    // The recording that `chosen_recording` returns is that of the option, and none without it. No other option says
    // nothing of pairs, and not both recordings are standard input.
    ensures found { IfOk result (λ beside. IsBesideChosen (rows_of (found_of entries.now)) file.entry.now (option_copied beside)) }
    // If `chosen_recording` fails, it names the first option that says nothing of pairs, or both recordings are
    // standard input.
    ensures refused { IfErr result (IsBesideRejected (rows_of (found_of entries.now)) file.entry.now) }
{
    let Some(beside) = entry(entries, "beside") else {
        return Ok(None);
    };
    if let Some(option) = first_unpaired(entries) {
        return Err(Rejection::NotBeside { option });
    }
    if file == "-" && beside == "-" {
        return Err(Rejection::OneInput);
    }
    Ok(Some(beside))
}

/// Returns the first option that was given though it says nothing of pairs.
fn first_unpaired(entries: &ArgMatches<'_>) -> Option<&'static str>
    ensures { option_copied result ≡ unpaired_of (rows_of (found_of entries.now)) }
{
    if is_chosen(entry(entries, "messages")) {
        return Some("messages");
    }
    if is_chosen(entry(entries, "events")) {
        return Some("events");
    }
    if is_chosen(entry(entries, "choose")) {
        return Some("choose");
    }
    unpaired_value(entries)
}

/// Returns the first option with a value that was given though it says nothing of pairs.
fn unpaired_value(entries: &ArgMatches<'_>) -> Option<&'static str>
    ensures { option_copied result ≡ value_of (rows_of (found_of entries.now)) }
{
    if entry(entries, "code").is_some() {
        Some("code")
    } else if entry(entries, "iv").is_some() {
        Some("iv")
    } else if entry(entries, "only").is_some() {
        Some("only")
    } else if entry(entries, "t-max").is_some() {
        Some("t-max")
    } else {
        unpaired_time(entries)
    }
}

/// Returns the first option of times that was given.
fn unpaired_time(entries: &ArgMatches<'_>) -> Option<&'static str>
    ensures { option_copied result ≡ time_of (rows_of (found_of entries.now)) }
{
    if entry(entries, "time").is_some() {
        Some("time")
    } else if entry(entries, "from").is_some() {
        Some("from")
    } else if entry(entries, "to").is_some() {
        Some("to")
    } else if entry(entries, "every").is_some() {
        Some("every")
    } else {
        None
    }
}
