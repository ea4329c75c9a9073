//! The choice of printed lines by a remark (`--only`).

ghost use Rattle.std.specs.Prelude.{◌≡◌, IfSome, Some};
ghost use Rattle.capture_text.specs.Choice.{has_word, is_asked, is_half, is_maybe_named, is_meant, is_named, is_number_named, is_overdue, is_waiting, word_text};

use capture::{NumberOrder, Remark, Remarks};

/// A remark by which lines are chosen.
#[derive(Clone, Copy, Debug, PartialEq, Eq)]
pub enum Remarkable {
    /// `opens`: an opening that is not a copy.
    Opens,
    /// `repeat`: a number that came before, with the same bytes.
    Repeat,
    /// `differs`: a number that came before, with other bytes.
    Differs,
    /// `ahead`: a number with missing ones before it.
    Ahead,
    /// `late`: a number that was missing.
    Late,
    /// `stale`: a number from before all that are kept.
    Stale,
    /// `anew`: a number with which the window starts again.
    Anew,
    /// `resent`: a unit that was sent before.
    Resent,
    /// `age`: a confirmed timestamp of an age of at least T_max.
    Age,
    /// `waits`: an end that has waited for a confirmation for at least half of T_max.
    Waits,
    /// `reason`: a DiscReq.
    Leaving,
    /// `fault`: a datagram that is not a PDU.
    Fault,
}

impl Remarkable {
    /// Returns the remark with this word, or `None` if no remark has it.
    pub fn of_word(text: &str) -> Option<Remarkable>
        // A remark that is returned has exactly this `text` as its word.
        ensures found { IfSome result (λ word. text.now ≡ word_text word) }
        // Every remark is found by its word.
        ensures only { (word : Remarkable) → text.now ≡ word_text word → result ≡ Some word }
    {
        match text {
            "opens" => Some(Remarkable::Opens),
            "repeat" => Some(Remarkable::Repeat),
            "differs" => Some(Remarkable::Differs),
            "ahead" => Some(Remarkable::Ahead),
            "late" => Some(Remarkable::Late),
            "stale" => Some(Remarkable::Stale),
            "anew" => Some(Remarkable::Anew),
            "resent" => Some(Remarkable::Resent),
            "age" => Some(Remarkable::Age),
            "waits" => Some(Remarkable::Waits),
            "reason" => Some(Remarkable::Leaving),
            "fault" => Some(Remarkable::Fault),
            _ => None,
        }
    }
}

/// Returns `true` if a line is printed: it has the remark that is asked for, or no remark is asked for. `t_max` is in
/// milliseconds.
pub fn is_wanted(only: Option<Remarkable>, t_max: u32, remark: &Remark) -> bool
    // Without `only` every line is printed; with it, exactly those that have its remark.
    ensures { result ≡ is_asked only t_max remark.now }
{
    match only {
        None => true,
        Some(word) => is_meant_by(word, t_max, remark),
    }
}

/// Returns `true` if a datagram has this remark.
fn is_meant_by(word: Remarkable, t_max: u32, remark: &Remark) -> bool
    ensures { result ≡ is_meant word t_max remark.now }
{
    match *remark {
        Remark::Pdu(_, _, remarks) => is_remarked(word, t_max, &remarks),
        Remark::NoSafe(_, _) | Remark::NoRed(_) => matches!(word, Remarkable::Fault),
    }
}

/// Returns `true` if a PDU has this remark.
fn is_remarked(word: Remarkable, t_max: u32, remarks: &Remarks) -> bool
    ensures { result ≡ has_word word t_max remarks.now }
{
    match word {
        Remarkable::Opens => remarks.opens,
        Remarkable::Resent => remarks.resent,
        Remarkable::Age => is_over(t_max, remarks.age),
        Remarkable::Waits => is_near(t_max, remarks.waits),
        Remarkable::Leaving => remarks.leaving.is_some(),
        Remarkable::Repeat
        | Remarkable::Differs
        | Remarkable::Ahead
        | Remarkable::Late
        | Remarkable::Stale
        | Remarkable::Anew
        | Remarkable::Fault => is_number(word, remarks),
    }
}

/// Returns `true` if an age is at least T_max.
pub(crate) fn is_over(t_max: u32, age: Option<u32>) -> bool
    ensures { result ≡ is_overdue t_max age }
{
    match age {
        None => false,
        Some(age) => t_max <= age,
    }
}

/// Returns `true` if an end has waited for at least half of T_max.
fn is_near(t_max: u32, waits: Option<u32>) -> bool
    ensures { result ≡ is_waiting t_max waits }
{
    match waits {
        None => false,
        Some(waits) => is_half_of(t_max, waits),
    }
}

/// Returns `true` if a wait is at least half of T_max; both in milliseconds.
pub(crate) fn is_half_of(t_max: u32, waits: u32) -> bool
    ensures { result ≡ is_half t_max waits }
{
    t_max as u64 <= waits as u64 * 2
}

/// Returns `true` if one of a PDU's numbers followed as the word says.
fn is_number(word: Remarkable, remarks: &Remarks) -> bool
    ensures { result ≡ is_number_named word remarks.now }
{
    is_maybe(word, remarks.channel)
        || is_so(word, remarks.together)
        || is_maybe(word, remarks.sequence)
}

/// Returns `true` if a number was judged and followed as the word says.
fn is_maybe(word: Remarkable, judged: Option<NumberOrder>) -> bool
    ensures { result ≡ is_maybe_named word judged }
{
    match judged {
        None => false,
        Some(judged) => is_so(word, judged),
    }
}

/// Returns `true` if a number followed as the word says.
fn is_so(word: Remarkable, judged: NumberOrder) -> bool
    ensures { result ≡ is_named word judged }
{
    match judged {
        NumberOrder::Repeat(_) => matches!(word, Remarkable::Repeat),
        NumberOrder::Differs(_) => matches!(word, Remarkable::Differs),
        NumberOrder::Ahead(_) => matches!(word, Remarkable::Ahead),
        NumberOrder::Late => matches!(word, Remarkable::Late),
        NumberOrder::Stale => matches!(word, Remarkable::Stale),
        NumberOrder::Anew => matches!(word, Remarkable::Anew),
        NumberOrder::First | NumberOrder::Next => false,
    }
}
