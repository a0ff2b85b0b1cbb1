//! The items of a meta block.
ghost use Rattle.std.specs.Prelude.{◌≡◌};
ghost use Rattle.sst_blocks.specs.Words as spec;

/// The meta block's code for the hash function of filters.
pub const FILTER_HASH_TYPE: u8 = 1;

/// An item of a meta block.
///
/// Variants are in the byte order of their keys.
#[derive(Clone, Copy, Debug, PartialEq, Eq)]
pub enum ItemName {
    BlockCountData,
    BlockCountFilter,
    BlockCountIndex,
    ChecksumType,
    CompressionData,
    CompressionIndex,
    CrateVersion,
    CreatedAt,
    DataBlockHashRatio,
    FileSize,
    FilterHashType,
    IndexKeysHaveSeqno,
    InitialLevel,
    ItemCount,
    KeyMax,
    KeyMin,
    KeyCount,
    PrefixTruncationData,
    PrefixTruncationIndex,
    RestartIntervalData,
    RestartIntervalIndex,
    SeqnoMax,
    SeqnoMin,
    TableId,
    TableVersion,
    TombstoneCount,
    UserDataSize,
    WeakTombstoneCount,
    WeakTombstoneReclaimable,
}

impl ItemName {
    /// Returns the item's key in the meta block.
    #[tactic(auto, unfolding(crate::specs::table::MetaBlock::name_of))]
    pub fn key(self) -> &'static [u8]
        ensures { result.now ≡ spec.name_of self }
    {
        match self {
            ItemName::BlockCountData => b"block_count#data",
            ItemName::BlockCountFilter => b"block_count#filter",
            ItemName::BlockCountIndex => b"block_count#index",
            ItemName::ChecksumType => b"checksum_type",
            ItemName::CompressionData => b"compression#data",
            ItemName::CompressionIndex => b"compression#index",
            ItemName::CrateVersion => b"crate_version",
            ItemName::CreatedAt => b"created_at",
            ItemName::DataBlockHashRatio => b"data_block_hash_ratio",
            ItemName::FileSize => b"file_size",
            ItemName::FilterHashType => b"filter_hash_type",
            ItemName::IndexKeysHaveSeqno => b"index_keys_have_seqno",
            ItemName::InitialLevel => b"initial_level",
            ItemName::ItemCount => b"item_count",
            ItemName::KeyMax => b"key#max",
            ItemName::KeyMin => b"key#min",
            ItemName::KeyCount => b"key_count",
            ItemName::PrefixTruncationData => b"prefix_truncation#data",
            ItemName::PrefixTruncationIndex => b"prefix_truncation#index",
            ItemName::RestartIntervalData => b"restart_interval#data",
            ItemName::RestartIntervalIndex => b"restart_interval#index",
            ItemName::SeqnoMax => b"seqno#max",
            ItemName::SeqnoMin => b"seqno#min",
            ItemName::TableId => b"table_id",
            ItemName::TableVersion => b"table_version",
            ItemName::TombstoneCount => b"tombstone_count",
            ItemName::UserDataSize => b"user_data_size",
            ItemName::WeakTombstoneCount => b"weak_tombstone_count",
            ItemName::WeakTombstoneReclaimable => b"weak_tombstone_reclaimable",
        }
    }
}
