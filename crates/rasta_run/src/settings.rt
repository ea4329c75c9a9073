//! The settings of ends: read from a text, with each fault at its place in the file, and with warnings.

ghost use Rattle.std.specs.Prelude.{◌≡◌, ◌<◌, Ok, IfOk, IfErr, IsErr, false, is_ok, length};
ghost use Rattle.settings_file.specs.FileContents.{ends_of, ends_seen};
ghost use Rattle.rasta_run.specs.CheckOutput.{check_result_of, line_of};
ghost use Rattle.rasta_run.specs.FileLimit.{settings_most};

use end_settings::Side;
use pdu_text::side_name;
use rasta_words::{Fault, Status, report};
use settings_file::{
    Ends, Settings, SettingsFault, Subcommand, findings, settings, warnings, word_of,
};
use settings_text::write_place;
use std::alloc::Global;
use std::fmt::Display;
use std::io::Write;
use thiserror::Error;

/// The greatest size of a settings file in bytes. About 60,000 short telegrams to put have room, and any such file
/// is read within 200 MB and a second.
pub const SETTINGS_MAX: usize = 1_048_576;

/// The greatest number of faults of a settings file that are printed.
const PRINTED_MOST: usize = 100;

/// The fault of a settings file that is too long.
#[derive(Clone, Copy, Debug, Error)]
#[error("larger than 1,048,576 bytes")]
struct TooLong;

/// The fault of a text in `local` or `remote` that is not an address.
#[derive(Clone, Copy, Debug, Error)]
#[error("local, remote: not an IP address and a port")]
pub(crate) struct NoAddress;

/// The fault of a text that is not TOML, after its line.
#[derive(Clone, Copy, Debug, Error)]
#[error("not valid TOML")]
struct NoToml;

/// Reads the settings that a file's text has for the ends of a word. If it has none, it prints the fault, followed
/// by each fault of the file at its place.
///
/// # Errors
///
/// - `Refused` if the text is too long or has no settings for the word, or if an allocation fails.
pub(crate) fn read_ends<E: Write>(
    alloc: Global,
    word: Subcommand,
    file: &str,
    text: &str,
    err: &mut E,
) -> Result<Ends, Status>
    // If `read_ends` succeeds, its result is exactly the settings that the text has for the word.
    ensures read { IfOk result (λ ends. ends_of word text.now ≡ Ok (ends_seen ends)) }
    // If `read_ends` fails, it returns `Refused`.
    ensures refused { IfErr result (λ status. status ≡ Status.Refused) }
    // `read_ends` fails for a text of more than 1,048,576 bytes.
    ensures long { settings_most < length text.now → IsErr result }
{
    if text.len() > SETTINGS_MAX {
        return Err(refuse_long(file, err));
    }
    match settings(alloc, word, text) {
        Ok(ends) => Ok(ends),
        Err(SettingsFault::Memory(_)) => Err(report(err, Fault::Memory)),
        Err(fault) => Err(refuse_all(alloc, word, file, text, &fault, err)),
    }
}

/// Reads the settings that a file's text has for the word that its keys show, as `read_ends` does.
///
/// # Errors
///
/// - `Refused` if the text is too long or has no such settings, or if an allocation fails.
pub(crate) fn check_ends<E: Write>(
    alloc: Global,
    file: &str,
    text: &str,
    err: &mut E,
) -> Result<Ends, Status>
    // If `check_ends` succeeds, its result is exactly the settings that the text has for the word of its keys.
    ensures read { IfOk result (λ ends. check_result_of text.now ≡ Ok (ends_seen ends)) }
    // If `check_ends` fails, it returns `Refused`.
    ensures refused { IfErr result (λ status. status ≡ Status.Refused) }
{
    match word_of(alloc, text) {
        Ok(word) => read_ends(alloc, word, file, text, err),
        Err(SettingsFault::Memory(_)) => Err(report(err, Fault::Memory)),
        Err(fault) => Err(refuse_at(file, &fault, &fault, err)),
    }
}

/// Prints that a settings file has more than 1,048,576 bytes.
pub fn refuse_long<E: Write>(file: &str, err: &mut E) -> Status
    // `refuse_long` returns `Refused`.
    ensures { result ≡ Status.Refused }
{
    refuse(file, None, &TooLong, err)
}

/// Prints the fault of settings, followed by all faults of the file, or by the first one if there is no memory for
/// all.
fn refuse_all<E: Write>(
    alloc: Global,
    word: Subcommand,
    file: &str,
    text: &str,
    first: &SettingsFault,
    err: &mut E,
) -> Status
    ensures { result ≡ Status.Refused }
{
    match findings(alloc, word, text) {
        Ok(all) if !all.is_empty() => {
            let status = report(err, Fault::Settings);
            for finding in all.iter().take(PRINTED_MOST) {
                write_fault(file, &finding.fault, finding, err);
            }
            let more = all.len().saturating_sub(PRINTED_MOST);
            if more > 0 {
                let _ = writeln!(err, "{file}: {more} more faults");
            }
            status
        }
        _ => refuse_at(file, first, first, err),
    }
}

/// Prints the fault of settings, followed by one fault of the file.
fn refuse_at<D: Display, E: Write>(
    file: &str,
    fault: &SettingsFault,
    what: &D,
    err: &mut E,
) -> Status
    ensures { result ≡ Status.Refused }
{
    let status = report(err, Fault::Settings);
    write_fault(file, fault, what, err);
    status
}

/// Writes a fault of a file at its place. A failing output is ignored.
fn write_fault<D: Display, E: Write>(file: &str, fault: &SettingsFault, what: &D, err: &mut E) {
    match line_of(fault) {
        Some(line) => write_line(file, Some(line), &NoToml, err),
        None => write_line(file, None, what, err),
    }
}

/// Returns the line of a fault, if it is known.
fn line_of(fault: &SettingsFault) -> Option<usize>
    ensures { result ≡ line_of fault.now }
{
    match fault {
        SettingsFault::Document(line) => Some(*line),
        _ => None,
    }
}

/// Writes a place, followed by what is wrong there. A failing output is ignored.
fn write_line<D: Display, E: Write>(file: &str, line: Option<usize>, what: &D, err: &mut E) {
    if write_place(err, file, line).is_ok() {
        let _ = writeln!(err, "{what}");
    }
}

/// Prints the fault of settings, followed by its place and its reason.
pub(crate) fn refuse<D: Display, E: Write>(
    file: &str,
    line: Option<usize>,
    what: &D,
    err: &mut E,
) -> Status
    ensures { result ≡ Status.Refused }
{
    let status = report(err, Fault::Settings);
    write_line(file, line, what, err);
    status
}

/// Prints what in settings is likely to be a mistake, for ends that are opened again after a loss if `keep` is true.
pub(crate) fn warn<E: Write>(alloc: Global, keep: bool, ends: &Ends, err: &mut E) {
    match ends {
        Ends::Il(il) => warn_of(alloc, Side::Interlocking, keep, il, err),
        Ends::Fe(fe) => warn_of(alloc, Side::FieldElement, keep, fe, err),
        Ends::Pair(il, fe) => {
            warn_of(alloc, Side::Interlocking, keep, il, err);
            warn_of(alloc, Side::FieldElement, keep, fe, err);
        }
    }
}

/// Prints the warnings of one end.
fn warn_of<E: Write>(alloc: Global, side: Side, keep: bool, settings: &Settings, err: &mut E) {
    let Ok(all) = warnings(alloc, side, keep, settings) else {
        return;
    };
    for warning in &all {
        let _ = writeln!(err, "warning: {}: {warning}", side_name(side));
    }
}
