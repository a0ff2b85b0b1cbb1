//! The options of a table writer.
ghost use Rattle.std.specs.Prelude.{◌≡◌};
ghost use Rattle.sst_blocks.specs.Words as spec;

use crate::BloomConstructionPolicy;

/// The layout of a table's index.
#[derive(Clone, Copy, Debug, PartialEq, Eq)]
pub enum IndexKind {
    /// One block with the handles of all data blocks.
    Full,
    /// Partitions, each cut at this many bytes, and a top level with their handles.
    Partitioned(u32),
}

impl IndexKind {
    /// Returns the kind with partitions of this size; a full index stays full.
    pub fn with_size(self, size: u32) -> IndexKind
        ensures { result ≡ spec.index_with_size size self }
    {
        match self {
            IndexKind::Full => IndexKind::Full,
            IndexKind::Partitioned(_) => IndexKind::Partitioned(size),
        }
    }
}

/// The layout of a table's filter.
#[derive(Clone, Copy, Debug, PartialEq, Eq)]
pub enum FilterKind {
    /// One block for the keys of all data blocks.
    Full,
    /// Partitions, each cut at this many bytes, and a top level with their handles.
    Partitioned(u32),
}

impl FilterKind {
    /// Returns the kind with partitions of this size; a full filter stays full.
    pub fn with_size(self, size: u32) -> FilterKind
        ensures { result ≡ spec.filter_with_size size self }
    {
        match self {
            FilterKind::Full => FilterKind::Full,
            FilterKind::Partitioned(_) => FilterKind::Partitioned(size),
        }
    }
}

/// The options that a table is written with.
#[derive(Clone, Copy, Debug, PartialEq, Eq)]
pub struct Options {
    /// The restart interval of data blocks, at least 1; 16 by default.
    ///
    /// It is stored in the meta block and has no other effect.
    pub data_block_restart_interval: u8,
    /// The restart interval of index blocks; 1 by default.
    ///
    /// It is stored in the meta block and changes no index block. Only tables written with 1 can be
    /// opened.
    pub index_block_restart_interval: u8,
    /// The hash ratio of data blocks; 0 by default.
    ///
    /// It is stored in the meta block and has no other effect.
    pub data_block_hash_ratio: u32,
    /// The number of key and value bytes at which a data block is cut; 4,096 by default.
    pub data_block_size: u32,
    /// The layout of the index; full by default.
    pub index_kind: IndexKind,
    /// The layout of the filter; full by default.
    pub filter_kind: FilterKind,
    /// The number of filter bits per key, 10 by default; with 0 there is no filter.
    pub bloom_policy: BloomConstructionPolicy,
}

impl Default for Options {
    ghost use Rattle.std.specs.Prelude.{◌≡◌};
    ghost use Rattle.sst_blocks.specs.table.Options.{default_options};

    /// Returns data blocks of 4,096 bytes, a full index, and a full filter of 10 bits per key.
    fn default() -> Options
        ensures { result ≡ default_options }
    {
        Options {
            data_block_restart_interval: 16,
            index_block_restart_interval: 1,
            data_block_hash_ratio: 0,
            data_block_size: 4_096,
            index_kind: IndexKind::Full,
            filter_kind: FilterKind::Full,
            bloom_policy: BloomConstructionPolicy::BitsPerKey(100),
        }
    }
}
