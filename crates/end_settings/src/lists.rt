//! The lists among the settings, which are copied with them.

ghost use Rattle.std.specs.Prelude.{◌≡◌, ◌≤◌, ◌↔◌, length, IsSome, IfSome};
ghost use Rattle.pdi_session.specs.declared.TheConstants.{CHECKSUM_MAX, VERSIONS_MAX};

use pdi_session::{CHECKSUM_MAX, VERSIONS_MAX};

/// The PDI versions of an end, at most four.
#[derive(Clone, Copy, Debug, PartialEq, Eq)]
pub struct Versions {
    /// The versions, followed by zeros.
    octets: [u8; VERSIONS_MAX],
    /// How many of the bytes are versions, 0 to 4.
    count: usize,
    ghost in_range: { count ≤ VERSIONS_MAX },
}

impl Versions {
    ghost use Rattle.end_settings.specs.Lists.{versions_in};

    /// Returns a copy of these versions, or `None` if there are more than four.
    pub fn new(versions: &[u8]) -> Option<Self>
        // The result is `None` if and only if there are more than four versions.
        ensures some { IsSome result ↔ (length versions.now ≤ VERSIONS_MAX) }
        // A copy has the given versions, in order.
        ensures found { IfSome result (λ kept. versions_in kept ≡ versions.now) }
    {
        let mut octets = [0; VERSIONS_MAX];
        if versions.len() > VERSIONS_MAX {
            return None;
        }
        octets[..versions.len()].copy_from_slice(versions);
        Some(Versions {
            octets,
            count: versions.len(),
        })
    }

    /// Returns the versions, in order.
    pub fn as_slice(&self) -> &[u8]
        // The result is the versions in order, without the zeros after them.
        ensures { result.now ≡ versions_in self.now }
    {
        &self.octets[..self.count]
    }
}

/// The checksum that a field element sends, at most 16 bytes.
#[derive(Clone, Copy, Debug, PartialEq, Eq)]
pub struct Checksum {
    /// The checksum, followed by zeros.
    octets: [u8; CHECKSUM_MAX],
    /// How many of the bytes are the checksum, 0 to 16.
    count: usize,
    ghost in_range: { count ≤ CHECKSUM_MAX },
}

impl Checksum {
    ghost use Rattle.end_settings.specs.Lists.{checksum_in};

    /// Returns a copy of this checksum, or `None` if it has more than 16 bytes.
    pub fn new(checksum: &[u8]) -> Option<Self>
        // The result is `None` if and only if the checksum has more than 16 bytes.
        ensures some { IsSome result ↔ (length checksum.now ≤ CHECKSUM_MAX) }
        // A copy has the bytes of the given checksum, in order.
        ensures found { IfSome result (λ kept. checksum_in kept ≡ checksum.now) }
    {
        let mut octets = [0; CHECKSUM_MAX];
        if checksum.len() > CHECKSUM_MAX {
            return None;
        }
        octets[..checksum.len()].copy_from_slice(checksum);
        Some(Checksum {
            octets,
            count: checksum.len(),
        })
    }

    /// Returns the bytes, in order.
    pub fn as_slice(&self) -> &[u8]
        // The result is the bytes of the checksum, without the zeros after them.
        ensures { result.now ≡ checksum_in self.now }
    {
        &self.octets[..self.count]
    }
}
