//! Versions of the table format.
ghost use Rattle.std.specs.Prelude.{◌≡◌, IsTrue, ◌↔◌};
ghost use Rattle.sst_blocks.specs.Words as spec;

/// A version of the table format.
///
/// A block's magic number names the version of its payload's grammar.
#[derive(Clone, Copy, Debug, PartialEq, Eq)]
pub enum TableVersion {
    /// Key lengths take two bytes; read only, never written.
    V3,
    /// Key lengths take four bytes; read and written.
    V4,
}

impl TableVersion {
    /// The version that writers write.
    pub const WRITTEN: TableVersion = TableVersion::V4;

    /// Returns the magic number of blocks of this version.
    pub fn mark(self) -> [u8; 4]
        ensures { result ≡ spec.mark self }
    {
        match self {
            TableVersion::V3 => *b"LBK1",
            TableVersion::V4 => *b"LBK2",
        }
    }

    /// Returns the version of a magic number, or `None` for other bytes.
    pub fn from_mark(bytes: &[u8]) -> Option<TableVersion>
        ensures { result ≡ spec.version_of bytes.now }
    {
        if bytes == b"LBK1".as_slice() {
            Some(TableVersion::V3)
        } else if bytes == b"LBK2".as_slice() {
            Some(TableVersion::V4)
        } else {
            None
        }
    }

    /// Returns the longest key that a writer of this version accepts, in bytes.
    pub fn longest_key(self) -> usize
        ensures { result ≡ spec.longest_key self }
    {
        match self {
            TableVersion::V3 => 65_535,
            TableVersion::V4 => 1_048_576,
        }
    }
}
