//! Compression of block payloads.

/// The compression of a block's payload.
#[derive(Clone, Copy, Debug, Default, PartialEq, Eq)]
pub enum CompressionType {
    /// No compression.
    #[default]
    None,
}
