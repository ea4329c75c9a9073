//! The values of arguments that were given, and words for several subcommands.

ghost use Rattle.std.specs.Prelude.{◌≡◌, Option, Some, IfSome, false};
ghost use Rattle.std.specs.Option.{option_copied};
ghost use Rattle.clap.specs.Words.{first_of, found_of, rows_of};
ghost use Rattle.rasta_words.specs.Choices.{code_word, is_flagged};

use clap::ArgMatches;
use safe_pdu::CodeLength;

/// Returns the value of an argument that was given once.
pub fn entry<'a>(entries: &ArgMatches<'a>, id: &str) -> Option<&'a str>
    // `entry` returns the first value under this `id`, and `None` if there is none.
    ensures { option_copied result ≡ first_of id.now (rows_of (found_of entries.now)) }
{
    entries.get_str(id)
}

/// Returns whether a flag was given.
pub fn is_chosen(word: Option<&str>) -> bool
    // `is_chosen` is true if and only if the word is `true`, which clap sets for a flag.
    ensures { result ≡ is_flagged (option_copied word.entry) }
{
    match word {
        None => false,
        Some(word) => word == "true",
    }
}

/// Returns the length of code with this word.
pub fn code_length(word: &str) -> Option<CodeLength>
    // The word of the length that `code_length` returns is the one given: `0`, `8` or `16`.
    ensures found { IfSome result (λ code. word.now ≡ code_word code) }
    // `code_length` returns a length for each of its words.
    ensures only { (code : CodeLength) → word.now ≡ code_word code → result ≡ Some code }
{
    match word {
        "0" => Some(CodeLength::Zero),
        "8" => Some(CodeLength::Eight),
        "16" => Some(CodeLength::Sixteen),
        _ => None,
    }
}
