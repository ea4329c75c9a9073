//! What the two ends agreed on, as C sees it.

ghost use Rattle.std.specs.Prelude.{◌≡◌, ◌≤◌, length};
ghost use Rattle.pdi_session.specs.declared.TheConstants.{CHECKSUM_MAX};
ghost use Rattle.pdi_session.specs.SessionStep.{agreement_of};
ghost use Rattle.bekwidas.specs.Agreements.{agreement_in};

use pdi_session::{Agreed, CHECKSUM_MAX};

/// The PDI version and the checksum that the two ends agreed on.
#[repr(C)]
#[derive(Drop)]
pub struct PlainAgreement {
    /// The PDI version.
    pub version: u32,
    /// The number of bytes of the checksum, 0 to 16.
    pub checksum_length: u32,
    /// The checksum, followed by zeros.
    pub checksum: [u8; CHECKSUM_MAX],
}

/// Returns an agreement in numbers.
pub(crate) fn plain_agreement(agreed: &Agreed<'_>) -> PlainAgreement
    requires { length agreed.now.checksum.now ≤ CHECKSUM_MAX }
    ensures { result ≡ agreement_in (agreement_of agreed.now) }
{
    let mut checksum = [0; CHECKSUM_MAX];
    checksum[..agreed.checksum.len()].copy_from_slice(agreed.checksum);
    PlainAgreement {
        version: u32::from(agreed.version),
        checksum_length: agreed.checksum.len() as u32,
        checksum,
    }
}
