//! The reasons of disconnects, in words.

ghost use Rattle.std.specs.Prelude.{◌≡◌, OnOk};
ghost use Rattle.std.specs.Io.KnownBytes.{Appends};
ghost use Rattle.capture_text.specs.Reasons.{detail_word, leaving_words, reason_word, word_beside};

use safe_pdu::{Detail, Leaving, Reason};
use std::io;
use std::io::Write;

/// Writes reason and detail of a DiscReq, each with its words if it has any.
#[tactic(auto, unfolding(crate::specs::Reasons::leaving_words))]
pub(crate) fn write_reasons<W: Write>(writer: &mut W, leaving: Leaving) -> io::Result<()>
    ensures { OnOk result (Appends (W.contents writer.old) (W.contents writer.new) (leaving_words leaving)) }
{
    let Leaving { detail, reason } = leaving;
    let named = Reason::of(reason);
    let why = name_of_reason(named);
    let more = name_of_detail(named, detail);
    write!(writer, " reason {reason}{why} detail {detail}{more}")
}

/// Returns the words of a reason.
fn name_of_reason(reason: Option<Reason>) -> &'static str
    ensures { result.now ≡ reason_word reason }
{
    match reason {
        Some(Reason::ClosedByUser) => " closed by user",
        Some(Reason::UnexpectedPdu) => " unexpected PDU",
        Some(Reason::SequenceError) => " sequence error",
        Some(Reason::Timeout) => " timeout",
        Some(Reason::ServiceNotAllowed) => " service not allowed",
        Some(Reason::WrongVersion) => " wrong version",
        Some(Reason::RetransmissionImpossible) => " retransmission impossible",
        Some(Reason::ProtocolError) => " protocol error",
        None => "",
    }
}

/// Returns the words of a detail, which depend on its reason.
fn name_of_detail(reason: Option<Reason>, detail: u16) -> &'static str
    ensures { result.now ≡ detail_word reason detail }
{
    match reason {
        Some(reason) => name_beside(Detail::of(reason, detail)),
        None => "",
    }
}

/// Returns the words of a known detail.
fn name_beside(detail: Option<Detail>) -> &'static str
    ensures { result.now ≡ word_beside detail }
{
    match detail {
        Some(Detail::VersionDiffers) => " version differs",
        Some(Detail::OutOfOrder) => " out of order",
        Some(Detail::NotWellFormed) => " not of this pair",
        Some(Detail::Limit) => " limit of PDUs",
        Some(Detail::BadUnit) => " bad unit",
        Some(Detail::ConfirmedNumber) => " confirmed number",
        Some(Detail::ConfirmedTimestamp) => " confirmed timestamp",
        Some(Detail::Unspecified) | None => "",
    }
}
