//! Kinds of blocks.
ghost use Rattle.std.specs.Prelude.{◌≡◌};
ghost use Rattle.sst_blocks.specs.Words as spec;

/// The kind of a block.
///
/// The discriminants are the kind bytes of block headers.
#[derive(Clone, Copy, Debug, PartialEq, Eq)]
pub enum BlockType {
    /// Entries of the table.
    Data = 0,
    /// Handles of data blocks or of index partitions.
    Index = 1,
    /// The bits of a filter.
    Filter = 2,
    /// Entries that describe the table.
    Meta = 3,
}

impl BlockType {
    /// Returns the kind byte that a header stores.
    pub fn tag(self) -> u8
        ensures { result ≡ spec.kind_tag self }
    {
        self as u8
    }
}
