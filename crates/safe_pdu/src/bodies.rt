//! The bodies that fit the PDU types. Whether the body of a Data unpacks into messages is not tested here.

ghost use Rattle.std.specs.Prelude.{◌≡◌};
ghost use Rattle.std.specs.List.{list_all};
ghost use Rattle.safe_pdu.specs.Bodies.{IsBody, detail_of, reason_of, version_of, window_of, is_body, is_digit, is_opening, is_zero};

use super::{Kind, Leaving, Opening};
use octets::limits::{LEAVING_BODY, OPENING_BODY, UNIT_MAX, UNIT_MIN, WINDOW_MAX};
use octets::places::u16_at;

/// Returns whether a body fits a PDU type.
pub(crate) fn fits_body(kind: Kind, body: &[u8]) -> bool
    ensures { result ≡ is_body kind body.now }
{
    match kind {
        Kind::ConnReq | Kind::ConnResp => fits_opening(body),
        Kind::RetrReq | Kind::RetrResp | Kind::Heartbeat => body.is_empty(),
        Kind::DiscReq => body.len() == LEAVING_BODY,
        Kind::Data | Kind::RetrData => UNIT_MIN <= body.len() && body.len() <= UNIT_MAX,
    }
}

/// Returns whether a body is a version of four digits, an N_sendmax from 1 to 32, and eight zero bytes.
fn fits_opening(body: &[u8]) -> bool
    ensures { result ≡ is_opening body.now }
{
    if body.len() != OPENING_BODY {
        return false;
    }
    let window = u16_at(body, 4) as usize;
    if window < 1 || window > WINDOW_MAX {
        return false;
    }
    let (version, _) = body.split_at(4);
    let (_, reserve) = body.split_at(6);
    are_digits(version) && are_zeros(reserve)
}

/// Returns whether all bytes are ASCII digits.
fn are_digits(octets: &[u8]) -> bool
    ensures { result ≡ list_all is_digit octets.now }
{
    octets.iter().all(|c| 48 <= *c && *c <= 57)
}

/// Returns whether all bytes are zero.
fn are_zeros(octets: &[u8]) -> bool
    ensures { result ≡ list_all is_zero octets.now }
{
    octets.iter().all(|o| *o == 0)
}

/// Reads the body of a ConnReq or ConnResp. The caller must provide a body that fits, as that of each
/// decoded PDU does.
pub fn read_opening(body: &[u8]) -> Opening<'_>
    requires { IsBody Kind.ConnReq body.now }
    // The `version` is the first four bytes of the body.
    ensures version { result.version.now ≡ version_of body.now }
    // The `n_sendmax` is the number in the two bytes after the version.
    ensures window { result.n_sendmax ≡ window_of body.now }
{
    let (version, _) = body.split_at(4);
    let n_sendmax = u16_at(body, 4);
    Opening { version, n_sendmax }
}

/// Reads the body of a DiscReq. The caller must provide a body that fits, as that of each decoded PDU does.
pub fn read_leaving(body: &[u8]) -> Leaving
    requires { IsBody Kind.DiscReq body.now }
    // The `detail` is the number in the first two bytes of the body.
    ensures detail { result.detail ≡ detail_of body.now }
    // The `reason` is the number in the two bytes after the detail.
    ensures reason { result.reason ≡ reason_of body.now }
{
    let detail = u16_at(body, 0);
    let reason = u16_at(body, 2);
    Leaving { detail, reason }
}
