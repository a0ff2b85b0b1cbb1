//! The error type of all calls on tables.
ghost use Rattle.std.specs.Prelude.{◌≡◌};
ghost use Rattle.sst_entries.specs.Words as spec;

use std::alloc::{AllocError, AllocFailed};

/// The kind of tag that [`Error::InvalidTag`] reports.
#[derive(Clone, Copy, Debug, PartialEq, Eq)]
pub enum TagName {
    /// The kind byte of a block header.
    BlockType,
}

/// The error of every fallible call on tables and their parts.
///
/// Each variant has its own error code, see [`Error::number`].
#[derive(Debug, Drop, PartialEq, Eq, thiserror::Error)]
pub enum Error {
    /// An allocation failed.
    #[error("out of memory")]
    OutOfMemory,

    /// A block reaches past the bytes before the trailer.
    #[error("a block reaches past the sections")]
    Truncated,

    /// A block header has an unknown magic number, reserved bytes that are not zero, or lengths
    /// that disagree.
    #[error("invalid block header")]
    InvalidHeader,

    /// A block has another kind than expected; the `u8` is its kind byte.
    #[error("invalid tag {1} for {0:?}")]
    InvalidTag(TagName, u8),

    /// The checksum of a payload does not match its header.
    #[error("checksum mismatch")]
    ChecksumMismatch,

    /// A payload violates the grammar of its block kind.
    #[error("invalid block payload")]
    InvalidBlock,

    /// A key exceeds the format's maximum key length.
    #[error("key too long")]
    KeyTooLong,

    /// A value has 2^32 bytes or more.
    #[error("value too long")]
    ValueTooLong,

    /// The upper bound on a block's length is 2^32 bytes or more.
    #[error("block too large")]
    BlockTooLarge,

    /// A section's length is 2^32 bytes or more; in a writer, its upper bound is.
    #[error("section too large")]
    SectionTooLarge,

    /// The trailer is missing, has another magic number, or describes a section past the body.
    #[error("invalid trailer")]
    InvalidTrailer,

    /// The table has no top-level index or no meta block.
    #[error("missing section")]
    MissingSection,

    /// A required meta item is missing.
    #[error("missing meta item")]
    MetaKeyMissing,

    /// A meta value is too short for its integer.
    #[error("invalid meta value")]
    InvalidMetaValue,

    /// The table version is not supported.
    #[error("unsupported table version")]
    UnsupportedTableVersion,

    /// The filter's hash function is not supported.
    #[error("unsupported hash type")]
    UnsupportedHashType,

    /// The checksum type is not supported.
    #[error("unsupported checksum type")]
    UnsupportedChecksumType,

    /// The index blocks have a restart interval other than 1.
    #[error("unsupported index restart interval")]
    UnsupportedIndexInterval,

    /// A compression type is not supported.
    #[error("unsupported compression")]
    UnsupportedCompression,

    /// The highest stored sequence number plus the global one exceeds `u64::MAX`.
    #[error("global sequence number too large")]
    GlobalSeqNoTooLarge,

    /// An entry's sequence number plus the global one exceeds `u64::MAX`.
    #[error("sequence number overflow")]
    SeqNoOverflow,

    /// A table id is needed, but all ids are used.
    #[error("table ids spent")]
    TableIdsSpent,

    /// The writer has already returned an error.
    #[error("the writer has failed")]
    WriterFailed,

    /// A caller's own iterator or filter failed, with a code of its choice.
    #[error("source error {0}")]
    Source(u64),
}

impl Error {
    /// Returns the error code, from 1 to 24.
    pub fn number(&self) -> u8
        ensures { result ≡ spec.number_of self.now }
    {
        match self {
            Error::OutOfMemory => 1,
            Error::Truncated => 2,
            Error::InvalidHeader => 3,
            Error::InvalidTag(_, _) => 4,
            Error::ChecksumMismatch => 5,
            Error::InvalidBlock => 6,
            Error::KeyTooLong => 7,
            Error::ValueTooLong => 8,
            Error::BlockTooLarge => 9,
            Error::SectionTooLarge => 10,
            Error::InvalidTrailer => 11,
            Error::MissingSection => 12,
            Error::MetaKeyMissing => 13,
            Error::InvalidMetaValue => 14,
            Error::UnsupportedTableVersion => 15,
            Error::UnsupportedHashType => 16,
            Error::UnsupportedChecksumType => 17,
            Error::UnsupportedIndexInterval => 18,
            Error::UnsupportedCompression => 19,
            Error::GlobalSeqNoTooLarge => 20,
            Error::SeqNoOverflow => 21,
            Error::TableIdsSpent => 22,
            Error::WriterFailed => 23,
            Error::Source(_) => 24,
        }
    }
}

impl From<AllocError> for Error {
    ghost use Rattle.std.specs.Prelude.{◌≡◌};
    ghost use Rattle.sst_entries.specs.declared.error.Error.TheVariants.{OutOfMemory};

    ghost from_gives = { λ _ e. e ≡ OutOfMemory };

    fn from(_: AllocError) -> Error {
        Error::OutOfMemory
    }
}

impl<T: Drop> From<AllocFailed<T>> for Error {
    ghost use Rattle.std.specs.Prelude.{◌≡◌};
    ghost use Rattle.sst_entries.specs.declared.error.Error.TheVariants.{OutOfMemory};

    ghost from_gives = { λ _ e. e ≡ OutOfMemory };

    fn from(_: AllocFailed<T>) -> Error {
        Error::OutOfMemory
    }
}
