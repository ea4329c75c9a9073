//! Testing whether the delivery of a datagram would break the premise of the promises.

ghost use Rattle.std.specs.Prelude.{◌≡◌};
ghost use Rattle.safe_pdu.specs.Places.{is_asked};

use octets::limits::SAFE_HEADER;
use octets::places::u32_at;
use safe_pdu::{CodeRule, Identifier};

/// Returns true if the premise speaks of a part at an end with these identifiers: the part is long enough, has both
/// identifiers at their places, and ends in a valid safety code.
pub(crate) fn is_asked_about(
    rule: &CodeRule,
    own: Identifier,
    peer: Identifier,
    part: &[u8],
) -> bool
    ensures { result ≡ is_asked rule.now own peer part.now }
{
    let code_size = rule.length.octets();
    if part.len() < SAFE_HEADER + code_size {
        return false;
    }
    if u32_at(part, 4) != own || u32_at(part, 8) != peer {
        return false;
    }
    let (front, code) = part.split_at(part.len() - code_size);
    rule.confirms(front, code)
}
