//! The subcommand `check`: a settings file without a socket.

ghost use Rattle.std.specs.Prelude.{◌≡◌, ◌≢◌, Ok, false, is_ok, IfErr, IfOk, OnOk};
ghost use Rattle.end_settings.specs.ConfigValue.{settings_of};
ghost use Rattle.settings_file.specs.FileContents.{ends_of};
ghost use Rattle.rasta_run.specs.Matching.{are_matching};
ghost use Rattle.std.specs.Io.KnownBytes.{Appends};
ghost use Rattle.settings_file.specs.FileContents.{ends_seen};
ghost use Rattle.settings_text.specs.InForce.{settings_text};
ghost use Rattle.rasta_run.specs.CheckOutput.{HasChecked, HasCompared, check_result_of};

use crate::matching::{are_matching, report_misfits, warn_both};
use crate::opening_faults::report_unread;
use crate::settings::{NoAddress, check_ends, read_ends, refuse, warn};
use end_settings::Side;
use rasta_words::{Fault, Status, report};
use settings_file::{Ends, Settings, Subcommand};
use settings_text::write_settings;
use std::alloc::Global;
use std::io;
use std::io::Write;
use udp_channels::is_address;

/// Runs `check` over the text of a settings file: prints what is likely to be a mistake to `err`, and all settings
/// in force to `out`. Its keys show for which word of the program it is. A text that is not a settings file, or has a
/// text that is not an address, or ends that do not fit together, is `fault: settings`, followed by its faults.
pub fn run_check<O: Write, E: Write>(
    alloc: Global,
    file: &str,
    text: &str,
    out: &mut O,
    err: &mut E,
) -> Status
    // `run_check` returns `Done` only if the text has settings for the word that its keys show, and if it has
    // written exactly these.
    ensures done { result ≡ Status.Done → HasChecked text.now (O.contents out.old) (O.contents out.new) }
    // If the text has no settings for the word that its keys show, `run_check` returns `Refused` and writes none.
    ensures refused { is_ok (check_result_of text.now) ≡ false → (result ≡ Status.Refused) × (out.new ≡ out.old) }
    // `run_check` never returns `WrongWords`.
    ensures words { result ≢ Status.WrongWords }
{
    let ends = match check_ends(alloc, file, text, err) {
        Ok(ends) => ends,
        Err(status) => return status,
    };
    if !are_addresses(&ends) {
        let status = refuse(file, None, &NoAddress, err);
        report_addresses(&ends, err);
        return status;
    }
    warn(alloc, false, &ends, err);
    if let Ends::Pair(il, fe) = &ends {
        if !do_fit(il, fe, err) {
            return Status::Refused;
        }
    }
    match write_all(out, &ends) {
        Ok(()) => Status::Done,
        Err(_) => report(err, Fault::Output),
    }
}

/// Runs `check` over the texts of two settings files: that of an interlocking, and that of its field element. It prints what
/// is likely to be a mistake to `err`. If an end cannot be read or they do not fit together, it is `fault: settings`,
/// followed by the faults.
pub fn run_check_both<E: Write>(
    alloc: Global,
    il_file: &str,
    il_text: &str,
    fe_file: &str,
    fe_text: &str,
    err: &mut E,
) -> Status
    // `run_check_both` returns `Done` only if the texts have settings of an interlocking and a field element that fit together.
    ensures done { result ≡ Status.Done → HasCompared il_text.now fe_text.now }
    // `run_check_both` never returns `WrongWords`.
    ensures words { result ≢ Status.WrongWords }
{
    let il = match read_one(alloc, Subcommand::Il, il_file, il_text, err) {
        Ok(ends) => ends,
        Err(status) => return status,
    };
    let fe = match read_one(alloc, Subcommand::Fe, fe_file, fe_text, err) {
        Ok(ends) => ends,
        Err(status) => return status,
    };
    let (Ends::Il(il), Ends::Fe(fe)) = (&il, &fe) else {
        return Status::Refused;
    };
    if do_fit(il, fe, err) {
        return Status::Done;
    }
    Status::Refused
}

/// Reads the settings of one end, and prints what is likely to be a mistake.
fn read_one<E: Write>(
    alloc: Global,
    word: Subcommand,
    file: &str,
    text: &str,
    err: &mut E,
) -> Result<Ends, Status>
    ensures read { IfOk result (λ ends. ends_of word text.now ≡ Ok (ends_seen ends)) }
    ensures refused { IfErr result (λ status. status ≡ Status.Refused) }
{
    let ends = read_ends(alloc, word, file, text, err)?;
    if !are_addresses(&ends) {
        let status = refuse(file, None, &NoAddress, err);
        report_addresses(&ends, err);
        return Err(status);
    }
    warn(alloc, false, &ends, err);
    Ok(ends)
}

/// Returns whether two ends fit together, and prints in what they do not, or are likely to work badly.
fn do_fit<E: Write>(il: &Settings, fe: &Settings, err: &mut E) -> bool
    ensures { result ≡ are_matching (settings_of il.now.config) (settings_of fe.now.config) }
{
    warn_both(il, fe, err);
    let fits = are_matching(&il.config, &fe.config);
    if !fits {
        let _ = report(err, Fault::Settings);
        report_misfits(&il.config, &fe.config, err);
    }
    fits
}

/// Writes the settings in force, and flushes them.
fn write_all<O: Write>(out: &mut O, ends: &Ends) -> io::Result<()>
    ensures { OnOk result (Appends (O.contents out.old) (O.contents out.new) (settings_text (ends_seen ends.now))) }
{
    write_settings(out, ends)?;
    out.flush()
}

/// Returns whether all texts in the addresses of the ends are addresses.
fn are_addresses(ends: &Ends) -> bool {
    match ends {
        Ends::Il(settings) | Ends::Fe(settings) => have_addresses(settings),
        Ends::Pair(il, fe) => have_addresses(il) && have_addresses(fe),
    }
}

/// Returns whether all texts in the addresses of an end are addresses.
fn have_addresses(settings: &Settings) -> bool {
    are_all_addresses(settings.local.as_slice()) && are_all_addresses(settings.remote.as_slice())
}

/// Returns whether all texts are addresses.
fn are_all_addresses(texts: &[String]) -> bool {
    texts.iter().all(|text| is_address(text.as_str()))
}

/// Prints each text that is not an address.
fn report_addresses<E: Write>(ends: &Ends, err: &mut E) {
    match ends {
        Ends::Il(il) => report_unread(il, Side::Interlocking, err),
        Ends::Fe(fe) => report_unread(fe, Side::FieldElement, err),
        Ends::Pair(il, fe) => {
            report_unread(il, Side::Interlocking, err);
            report_unread(fe, Side::FieldElement, err);
        }
    }
}
