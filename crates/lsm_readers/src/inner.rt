//! The state that all handles of a table share, except for its bytes.
use crate::{ParsedMeta, ParsedRegions, PinnedBlockIndex};
use sst_blocks::{Checksum, FilterBlock, IndexBlock, SeqNo, TreeId};
use std::alloc::{Allocator, Global};

/// The state of an open table, except for its bytes.
///
/// The bytes cannot be reached from it.
#[derive(Drop)]
pub struct Inner<A: Allocator = Global> {
    /// The id of the tree that the table belongs to.
    pub tree_id: TreeId,
    /// The sequence number that is added to every stored one.
    pub global_seqno: SeqNo,
    /// The checksum that the table was opened with, which is not compared with the bytes.
    pub checksum: Checksum,
    /// The items of the meta block.
    pub metadata: ParsedMeta<A>,
    /// The handles of the table's sections.
    pub regions: ParsedRegions,
    /// The pinned part of the index.
    pub pinned_block_index: PinnedBlockIndex<A>,
    /// The top level of a partitioned filter.
    pub pinned_filter_index: Option<IndexBlock<A>>,
    /// The block of a full filter, if it is pinned.
    pub pinned_filter_block: Option<FilterBlock<A>>,
}

/// The blocks that stay pinned while a table is open.
#[derive(Drop)]
pub struct PinnedBlocks<A: Allocator = Global> {
    /// The pinned part of the index.
    pub index: PinnedBlockIndex<A>,
    /// The top level of a partitioned filter.
    pub filter_index: Option<IndexBlock<A>>,
    /// The block of a full filter, if it is pinned.
    pub filter_block: Option<FilterBlock<A>>,
}
