//! The options of `follow`.

ghost use Rattle.std.specs.Prelude.{◌≡◌, ℕ, List, Option, Some, Ok, IsErr, IfOk, IfErr, IfSome};
ghost use Rattle.std.specs.Option.{option_copied};
ghost use Rattle.clap.specs.Words.{found_of, rows_of};
ghost use Rattle.rasta_words.specs.Rejections.{IsFollowRejected, NamesGivenOption};
ghost use Rattle.rasta_words.specs.declared.rejection.Choice.TheVariants as choice;
ghost use Rattle.capture.specs.declared.ports.PortRange.{PortRange};
ghost use Rattle.rasta_words.specs.BesideOptions.{HasChoices, HasNoChoices};
ghost use Rattle.rasta_words.specs.Choices.{ArePortsChosen, IsAgeChosen, IsCodeChosen, IsMilliseconds, IsRemarkChosen};

use crate::beside_options::chosen_recording;
use crate::command_line::FollowRequest;
use crate::entries::{code_length, entry, is_chosen};
use crate::follow_times::chosen_times;
use crate::rejection::{Choice, Rejection};
use capture::{Ports, read_ports};
use capture_text::Remarkable;
use clap::ArgMatches;
use safe_pdu::CodeLength;

/// Returns the choices of the entries of `follow`. The options are read in the order `--code`, `--only`, `--t-max`,
/// `--ports`, those of times, then `--beside`.
pub fn choices<'a>(entries: &ArgMatches<'a>) -> Result<FollowRequest<'a>, Rejection<'a>>
    // The choices that `choices` returns have the values of the entries.
    ensures found { IfOk result (HasChoices (rows_of (found_of entries.now))) }
    // If `choices` fails, no choices have the values of the entries.
    ensures none { IsErr result → HasNoChoices (rows_of (found_of entries.now)) }
    // If `choices` fails, it names the first option in its order that is not valid, or the missing file.
    ensures refused { IfErr result (IsFollowRejected (rows_of (found_of entries.now))) }
{
    let code = chosen_code(entry(entries, "code"))?;
    let only = chosen_remark(entry(entries, "only"))?;
    let t_max = chosen_age(entry(entries, "t-max"))?;
    let Some(file) = entry(entries, "file") else {
        return Err(Rejection::Missing);
    };
    let ports = chosen_ports(entry(entries, "ports"))?;
    let times = chosen_times(entries)?;
    let beside = chosen_recording(entries, file)?;
    Ok(FollowRequest {
        code,
        iv: entry(entries, "iv"),
        messages: is_chosen(entry(entries, "messages")),
        only,
        t_max,
        file,
        ports,
        json: is_chosen(entry(entries, "json")),
        events: is_chosen(entry(entries, "events")),
        choose: is_chosen(entry(entries, "choose")),
        times,
        beside,
    })
}

/// Returns the length of code that a word names: 8 bytes if there is no word.
fn chosen_code<'a>(word: Option<&'a str>) -> Result<CodeLength, Rejection<'a>>
    // The length that `chosen_code` returns is that of the word, and 8 bytes without one.
    ensures found { IfOk result (IsCodeChosen (option_copied word.entry)) }
    // If the word, or its absence, chooses a length, `chosen_code` returns it.
    ensures only { (code : CodeLength) → IsCodeChosen (option_copied word.entry) code → result ≡ Ok code }
    // If `chosen_code` fails, the word is the value of `Code` that it rejects.
    ensures refused { IfErr result (NamesGivenOption choice.Code (option_copied word.entry)) }
{
    match word {
        None => Ok(CodeLength::Eight),
        Some(word) => match code_length(word) {
            Some(code) => Ok(code),
            None => Err(Rejection::Value {
                option: Choice::Code,
                value: word,
            }),
        },
    }
}

/// Returns the remark that a word names; none if there is no word.
fn chosen_remark<'a>(word: Option<&'a str>) -> Result<Option<Remarkable>, Rejection<'a>>
    // The remark that `chosen_remark` returns is that of the word, and none without one.
    ensures found { IfOk result (IsRemarkChosen (option_copied word.entry)) }
    // If the word, or its absence, chooses a remark, `chosen_remark` returns it.
    ensures only { (remark : Option Remarkable) → IsRemarkChosen (option_copied word.entry) remark
        → result ≡ Ok remark }
    // If `chosen_remark` fails, the word is the value of `Only` that it rejects.
    ensures refused { IfErr result (NamesGivenOption choice.Only (option_copied word.entry)) }
{
    match word {
        None => Ok(None),
        Some(word) => match Remarkable::of_word(word) {
            Some(remark) => Ok(Some(remark)),
            None => Err(Rejection::Value {
                option: Choice::Only,
                value: word,
            }),
        },
    }
}

/// Returns the ports that a word names; none if there is no word.
fn chosen_ports<'a>(word: Option<&'a str>) -> Result<Option<Ports>, Rejection<'a>>
    // The ports that `chosen_ports` returns are the ranges of the word, and none without one.
    ensures found { IfOk result (ArePortsChosen (option_copied word.entry)) }
    // If the word, or its absence, chooses ports, `chosen_ports` returns them.
    ensures only { (ports : Option (List (Option PortRange))) → ArePortsChosen (option_copied word.entry) ports
        → result ≡ Ok ports }
    // If `chosen_ports` fails, the word is the value of `Ports` that it rejects.
    ensures refused { IfErr result (NamesGivenOption choice.Ports (option_copied word.entry)) }
{
    match word {
        None => Ok(None),
        Some(word) => match read_ports(word.as_bytes()) {
            Some(ports) => Ok(Some(ports)),
            None => Err(Rejection::Value {
                option: Choice::Ports,
                value: word,
            }),
        },
    }
}

/// Returns the age that a word names, in milliseconds; 1,800 if there is no word.
fn chosen_age<'a>(word: Option<&'a str>) -> Result<u32, Rejection<'a>>
    // The age that `chosen_age` returns is that of the word, and 1,800 without one.
    ensures found { IfOk result (IsAgeChosen (option_copied word.entry)) }
    // If the word, or its absence, chooses an age, `chosen_age` returns it.
    ensures only { (age : ℕ) → IsAgeChosen (option_copied word.entry) age → result ≡ Ok age }
    // If `chosen_age` fails, the word is the value of `TMax` that it rejects.
    ensures refused { IfErr result (NamesGivenOption choice.TMax (option_copied word.entry)) }
{
    match word {
        None => Ok(1800),
        Some(word) => match milliseconds(word) {
            Some(age) => Ok(age),
            None => Err(Rejection::Value {
                option: Choice::TMax,
                value: word,
            }),
        },
    }
}

/// Returns the milliseconds that a word names.
fn milliseconds(word: &str) -> Option<u32>
    // The result of `milliseconds` is the decimal number of the word, 1 to 4,294,967,295.
    ensures found { IfSome result (IsMilliseconds word.now) }
    // `milliseconds` returns the number of each word that names 1 to 4,294,967,295.
    ensures only { (age : ℕ) → IsMilliseconds word.now age → result ≡ Some age }
{
    match word.parse::<u32>() {
        Ok(age) if 1 <= age => Some(age),
        _ => None,
    }
}
