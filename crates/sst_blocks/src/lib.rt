//! The blocks, filters, sections and options of a sorted table's bytes.
#![tactic(auto)]

mod block;
mod block_type;
mod checksum;
mod compression;
mod data_block;
mod entry_place;
mod filter;
mod filter_block;
pub mod fnv;
mod handle;
mod index_block;
mod item;
mod loads;
mod marks;
pub mod number;
mod opened;
mod reading;
mod section;
mod source;
mod starts;
mod table;
mod toc;
mod version;

pub use block::{Block, EMPTY_LEN, Header, block_size, written_blocks_load};
pub use block_type::BlockType;
pub use checksum::Checksum;
pub use compression::CompressionType;
pub use data_block::{
    Cursor as DataBlockCursor, DataBlock, ENTRY_HEAD_LEN, Iter as DataBlockIter, check_entry,
    data_block_bound, put_entry,
};
pub use entry_place::EntryPlace;
pub use filter::{BloomConstructionPolicy, Builder, contains_hash, filter_bound};
pub use filter_block::FilterBlock;
pub use fnv::{has_hash, hash, hash_four, have_hashes};
pub use handle::{BlockHandle, BlockOffset, KeyedBlockHandle, are_strict_handles};
pub use index_block::{HANDLE_HEAD_LEN, IndexBlock, Iter as IndexBlockIter, index_block_bound};
pub use loads::{Counted, LoadBlocks};
pub use opened::Opened;
pub use section::{Section, SectionName, SectionWriter, TRAILER_LEN, finished_sections_read};
pub use source::BlockSource;
pub use sst_entries::{
    Direction, EntryRef, Error, InternalKey, InternalValue, IterItem, Lending, SeqNo, Slice,
    TagName, UserKey, UserValue, ValueType, answer_at, answers_at, are_strict, compare_versions,
    from_the_front, source_of,
};
pub use table::{
    FILTER_HASH_TYPE, FilterKind, GlobalTableId, IndexKind, ItemName, Label, Options, TableId,
    Timestamp, TreeId,
};
pub use toc::Toc;
pub use version::TableVersion;
