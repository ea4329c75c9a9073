//! Why an end disconnected, in words.

ghost use Rattle.std.specs.Prelude.{◌≡◌, OnOk};
ghost use Rattle.std.specs.Io.KnownBytes.{Appends};
ghost use Rattle.pdu_text.specs.DisconnectReasons as leavings;

use safe_pdu::Leaving;
use std::io;
use std::io::Write;

/// Writes the reason and detail of a DiscReq and their meaning, after a front that says who disconnected.
#[tactic(auto, unfolding(crate::specs::DisconnectReasons::leaving_text))]
pub(crate) fn write_leaving<W: Write>(
    writer: &mut W,
    front: &str,
    leaving: Leaving,
) -> io::Result<()>
    ensures { OnOk result (Appends (W.contents writer.old) (W.contents writer.new)
        (leavings.leaving_text front.now leaving)) }
{
    let Leaving { detail, reason } = leaving;
    let words = leaving_words(reason, detail);
    write!(writer, "{front}reason {reason} detail {detail}{words}")
}

/// Returns the words for a reason and a detail.
fn leaving_words(reason: u16, detail: u16) -> &'static str
    ensures { result.now ≡ leavings.leaving_words reason detail }
{
    match reason {
        0 => ": closed by its user",
        1 => ": a PDU that is not allowed in this state",
        2 => ": a sequence error while connecting",
        3 => ": nothing recent was confirmed within T_max",
        4 => session_words(detail),
        5 => ": another version of RaSTA",
        6 => ": the requested PDUs cannot be resent",
        7 => protocol_words(detail),
        _ => "",
    }
}

/// Returns the words for a detail of reason 4.
fn session_words(detail: u16) -> &'static str
    ensures { result.now ≡ leavings.session_words detail }
{
    match detail {
        1 => ": no common PDI version",
        2 => ": a telegram out of order",
        3 => ": a telegram with other names or another protocol type, or not a telegram",
        _ => ": the session is refused",
    }
}

/// Returns the words for a detail of reason 7.
fn protocol_words(detail: u16) -> &'static str
    ensures { result.now ≡ leavings.protocol_words detail }
{
    match detail {
        1 => ": the limit of PDUs in one connection is reached",
        2 => ": a malformed unit",
        3 => ": a confirmed number that no unconfirmed PDU has",
        4 => ": a confirmed timestamp that is not of this time",
        _ => ": a protocol error",
    }
}
