//! Checksums.

/// A checksum, wide enough for any hash that a table may use.
#[derive(Clone, Copy, Debug, PartialEq, Eq)]
pub struct Checksum(pub u128);
