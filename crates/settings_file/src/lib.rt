//! Settings files of the ends, in TOML: reads one, or names each key that is wrong with what it expects and what
//! it has.
//!
//! A file has at most 1,048,576 bytes, which is room for a list of 60,000 short telegrams. It is then read or
//! rejected within a second and 200 MB; some files of 10 MB take 1.8 GB.
#![tactic(auto)]

ghost use Rattle.std.specs.Prelude.{◌≡◌, Ok, IfOk, IfErr};
ghost use Rattle.settings_file.specs.FileContents.{IsWrong, ends_of, ends_seen};

mod all_faults;
mod file_contents;
mod groups;
mod keys;
mod lists;
mod mistakes;
mod readers;
mod values;

pub use all_faults::{Finding, findings};
use end_settings::Side;
use file_contents::pair;
pub use file_contents::{single, word_of};
pub use keys::{ExpectedValue, Key, KeyFault, PresentValue, SettingsFault};
pub use lists::put;
pub use mistakes::{Warning, warnings};
use std::alloc::Global;
pub use values::{Ends, PutEntry, Settings};

/// The subcommands of the program that read a settings file, each with the ends that its file is for.
#[derive(Clone, Copy, Debug, PartialEq, Eq)]
pub enum Subcommand {
    /// Only the interlocking: its keys are at the top of the file.
    Il,
    /// Only the field element: its keys are at the top of the file.
    Fe,
    /// Both ends, in one process: their keys are in the tables `il` and `fe`.
    Pair,
}

/// Reads the text of a settings file for the ends that a word runs.
///
/// # Errors
///
/// Returns the first that applies; in a file for both ends all of `il` comes before all of `fe`:
///
/// - `Document` if the text is not a TOML document;
/// - `Unknown` if a file for both ends has another key than `il` and `fe`;
/// - `NoTable` if the table of an end is missing;
/// - `Unknown` if a table has a key that no end has;
/// - `Key` if the value of a key is not what it expects, in the order of the groups;
/// - `Memory` if an allocation fails. That can happen only while the text is parsed, or when an unknown key or the
///   lists of addresses and telegrams are copied.
pub fn settings(alloc: Global, word: Subcommand, text: &str) -> Result<Ends, SettingsFault>
    // If `settings` succeeds, its result is exactly the settings that the file's text has for the word.
    ensures ok { IfOk result (λ s. ends_of word text.now ≡ Ok (ends_seen s)) }
    // If `settings` fails, its fault is the first that the text has for the word. The line in a text that is not
    // TOML is not stated here, and of `Memory` nothing is claimed.
    ensures err { IfErr result (IsWrong (ends_of word text.now)) }
{
    match word {
        Subcommand::Il => Ok(Ends::Il(single(alloc, Side::Interlocking, text)?)),
        Subcommand::Fe => Ok(Ends::Fe(single(alloc, Side::FieldElement, text)?)),
        Subcommand::Pair => {
            let (il, fe) = pair(alloc, text)?;
            Ok(Ends::Pair(il, fe))
        }
    }
}
