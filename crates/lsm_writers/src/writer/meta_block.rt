//! The meta block of a table: its counts, keys and options.
ghost use Rattle.std.specs.Prelude.{◌≡◌, [], ◌∷◌, ◌++◌, None, map, unwrap_or, IfOk};
ghost use Rattle.std.specs.Prelude.{IfErr, OnOk};
ghost use Rattle.lsm_writers.specs.Words as spec;

use crate::writer::meta::Metadata;
use sst_blocks::{
    Block, BlockType, CompressionType, DataBlock, Error, FILTER_HASH_TYPE, InternalValue, ItemName,
    Label, Options, SectionName, SectionWriter, Slice, ValueType,
};
use std::alloc::Allocator;

/// Numbers of blocks of the index and the filter.
#[derive(Clone, Copy)]
pub(crate) struct BlockCounts {
    pub(crate) index: usize,
    pub(crate) filter: usize,
}

/// Writes the meta block of these counts. Fails only with [`Error::OutOfMemory`].
pub(crate) fn write_meta<A: Allocator + Clone>(
    file_writer: &mut SectionWriter<A>,
    buffer: &mut Vec<u8, A>,
    label: &Label,
    options: &Options,
    counts: BlockCounts,
    meta: &Metadata<A>,
) -> Result<(), Error>
    requires fresh { spec.HasNoMeta file_writer.old }
    requires short { spec.HasShortKeys meta.now }
    ensures ok { OnOk result (file_writer.new ≡ spec.appended file_writer.old
        (spec.meta_section spec.V4 (spec.counted_items label.now options.now
        (spec.block_counts counts) meta.now))) }
    ensures err { IfErr result (λ e. e ≡ spec.OutOfMemory) }
{
    let items = meta_items(buffer.allocator(), label, options, counts, meta)?;
    write_items(file_writer, buffer, &items)
}

/// Writes a meta block of these items. Fails only with [`Error::OutOfMemory`].
fn write_items<A: Allocator + Clone>(
    file_writer: &mut SectionWriter<A>,
    buffer: &mut Vec<u8, A>,
    items: &[InternalValue<A>],
) -> Result<(), Error>
    requires fresh { spec.HasNoMeta file_writer.old }
    requires strict { spec.IsStrict items.now }
    requires fit { spec.entries_fault items.now ≡ None }
    ensures ok { OnOk result (file_writer.new ≡
        spec.appended file_writer.old (spec.meta_section spec.V4 items.now)) }
    ensures err { IfErr result (λ e. e ≡ spec.OutOfMemory) }
{
    file_writer.start(SectionName::Meta)?;
    buffer.clear();
    DataBlock::encode_into(buffer, items, 1, 0)?;
    Block::write_into(file_writer, buffer, BlockType::Meta, CompressionType::None)?;
    Ok(())
}

/// Returns the items of the meta block in byte order of their names. Fails only with
/// [`Error::OutOfMemory`].
#[tactic(auto, unfolding(crate::specs::Counts::counted_items))]
fn meta_items<A: Allocator + Clone>(
    alloc: &A,
    label: &Label,
    options: &Options,
    counts: BlockCounts,
    meta: &Metadata<A>,
) -> Result<Vec<InternalValue<A>, A>, Error>
    ensures ok { IfOk result
        (λ items. items.items ≡ spec.counted_items label.now options.now
        (record { index = counts.index; filter = counts.filter }) meta.now) }
    ensures err { IfErr result (λ e. e ≡ spec.OutOfMemory) }
{
    let mut items = Vec::new(alloc.clone()?);
    put_block_items(&mut items, label, options, counts, meta)?;
    put_level_and_key_items(&mut items, label, meta)?;
    put_option_items(&mut items, label, options, meta)?;
    put_count_items(&mut items, meta)?;
    Ok(items)
}

/// Appends the counts of blocks, the formats and the creation timestamp.
fn put_block_items<A: Allocator + Clone>(
    items: &mut Vec<InternalValue<A>, A>,
    label: &Label,
    options: &Options,
    counts: BlockCounts,
    meta: &Metadata<A>,
) -> Result<(), Error>
    ensures ok { OnOk result (items.new.items ≡ items.old.items ++ spec.block_items label.now
        options.now (spec.block_counts counts) meta.now.data_block_count meta.now.file_pos.0) }
    ensures err { IfErr result (λ e. e ≡ spec.OutOfMemory) }
{
    put_all(
        items,
        &[
            (
                ItemName::BlockCountData,
                &bytes8(meta.data_block_count as u64),
            ),
            (ItemName::BlockCountFilter, &bytes8(counts.filter as u64)),
            (ItemName::BlockCountIndex, &bytes8(counts.index as u64)),
            (ItemName::ChecksumType, &[1]),
            (ItemName::CompressionData, &[0]),
            (ItemName::CompressionIndex, &[0]),
            (ItemName::CrateVersion, crate_version()),
            (ItemName::CreatedAt, &bytes16(u128::from(label.created_at))),
            (
                ItemName::DataBlockHashRatio,
                &bytes4(options.data_block_hash_ratio),
            ),
            (ItemName::FileSize, &bytes8(meta.file_pos.0)),
        ],
    )
}

/// Appends the filter hash type, the level, the number of items, and the first and last key.
fn put_level_and_key_items<A: Allocator + Clone>(
    items: &mut Vec<InternalValue<A>, A>,
    label: &Label,
    meta: &Metadata<A>,
) -> Result<(), Error>
    ensures ok { OnOk result (items.new.items ≡ items.old.items ++
        spec.level_items label.now (spec.counted_facts meta.now) ++ spec.key_items
        (spec.counted_facts meta.now)) }
    ensures err { IfErr result (λ e. e ≡ spec.OutOfMemory) }
{
    put_all(
        items,
        &[
            (ItemName::FilterHashType, &[FILTER_HASH_TYPE]),
            (ItemName::IndexKeysHaveSeqno, &[1]),
            (ItemName::InitialLevel, &[label.initial_level]),
            (ItemName::ItemCount, &bytes8(meta.item_count as u64)),
            (ItemName::KeyMax, last_key(meta)),
            (ItemName::KeyMin, first_key(meta)),
        ],
    )
}

/// Appends the number of keys, the options, the sequence numbers, the table id and the version.
fn put_option_items<A: Allocator + Clone>(
    items: &mut Vec<InternalValue<A>, A>,
    label: &Label,
    options: &Options,
    meta: &Metadata<A>,
) -> Result<(), Error>
    ensures ok { OnOk result (items.new.items ≡ items.old.items ++
        spec.option_items spec.V4 label.now options.now (spec.counted_facts meta.now)) }
    ensures err { IfErr result (λ e. e ≡ spec.OutOfMemory) }
{
    put_all(
        items,
        &[
            (ItemName::KeyCount, &bytes8(meta.key_count as u64)),
            (ItemName::PrefixTruncationData, &[0]),
            (ItemName::PrefixTruncationIndex, &[0]),
            (
                ItemName::RestartIntervalData,
                &[options.data_block_restart_interval],
            ),
            (
                ItemName::RestartIntervalIndex,
                &[options.index_block_restart_interval],
            ),
            (ItemName::SeqnoMax, &bytes8(meta.highest_seqno)),
            (ItemName::SeqnoMin, &bytes8(meta.lowest_seqno)),
            (ItemName::TableId, &bytes8(label.table_id)),
            (ItemName::TableVersion, table_version()),
        ],
    )
}

/// Appends the counts of tombstones and the size of the payloads.
fn put_count_items<A: Allocator + Clone>(
    items: &mut Vec<InternalValue<A>, A>,
    meta: &Metadata<A>,
) -> Result<(), Error>
    ensures ok { OnOk result (items.new.items ≡ items.old.items ++
        spec.count_items (spec.counted_facts meta.now) meta.now.uncompressed_size) }
    ensures err { IfErr result (λ e. e ≡ spec.OutOfMemory) }
{
    put_all(
        items,
        &[
            (
                ItemName::TombstoneCount,
                &bytes8(meta.tombstone_count as u64),
            ),
            (ItemName::UserDataSize, &bytes8(meta.uncompressed_size)),
            (
                ItemName::WeakTombstoneCount,
                &bytes8(meta.weak_tombstone_count as u64),
            ),
            (
                ItemName::WeakTombstoneReclaimable,
                &bytes8(meta.weak_tombstone_reclaimable_count as u64),
            ),
        ],
    )
}

/// Appends an item for each name and value. Fails only with [`Error::OutOfMemory`].
fn put_all<A: Allocator + Clone>(
    items: &mut Vec<InternalValue<A>, A>,
    named: &[(ItemName, &[u8])],
) -> Result<(), Error>
    ensures ok { OnOk result (items.new.items ≡ items.old.items ++
        map (λ x. spec.meta_entry x.0 x.1.now) named.now) }
    ensures err { IfErr result (λ e. e ≡ spec.OutOfMemory) }
{
    for (name, value) in named {
        put(items, *name, value)?;
    }
    Ok(())
}

/// Returns the little-endian bytes of a number.
#[tactic(auto, unfolding(sst_blocks::specs::Number::le4))]
fn bytes4(number: u32) -> [u8; 4]
    ensures { result ≡ spec.le4 number }
{
    number.to_le_bytes()
}

#[tactic(auto, unfolding(sst_blocks::specs::Number::le8))]
fn bytes8(number: u64) -> [u8; 8]
    ensures { result ≡ spec.le8 number }
{
    number.to_le_bytes()
}

#[tactic(auto, unfolding(sst_blocks::specs::Number::le16))]
fn bytes16(number: u128) -> [u8; 16]
    ensures { result ≡ spec.le16 number }
{
    number.to_le_bytes()
}

/// Returns the version of the upstream crate whose format is written.
fn crate_version() -> &'static [u8]
    ensures { result.now ≡ spec.crate_version }
{
    b"3.1.10"
}

/// Returns the number of the table version.
fn table_version() -> &'static [u8]
    ensures { result.now ≡ spec.version_number spec.V4 ∷ [] }
{
    &[4]
}

/// Returns the first key, or no bytes if there is none.
fn first_key<A: Allocator>(meta: &Metadata<A>) -> &[u8]
    ensures { result.now ≡ unwrap_or meta.now.first_key [] }
{
    match &meta.first_key {
        Some(key) => key.as_slice(),
        None => &[],
    }
}

/// Returns the last key, or no bytes if there is none.
fn last_key<A: Allocator>(meta: &Metadata<A>) -> &[u8]
    ensures { result.now ≡ unwrap_or meta.now.last_key [] }
{
    match &meta.last_key {
        Some(key) => key.as_slice(),
        None => &[],
    }
}

/// Appends an item. Fails only with [`Error::OutOfMemory`].
fn put<A: Allocator + Clone>(
    items: &mut Vec<InternalValue<A>, A>,
    name: ItemName,
    value: &[u8],
) -> Result<(), Error>
    ensures ok { OnOk result (items.new.items ≡ items.old.items ++ spec.meta_entry name value.now
        ∷ []) }
    ensures err { IfErr result (λ e. e ≡ spec.OutOfMemory) }
{
    let name = copied(items.allocator(), name.key())?;
    let value = copied(items.allocator(), value)?;
    items.push(InternalValue::from_components(name, value, 0, ValueType::Value))?;
    Ok(())
}

/// Copies bytes. Fails only with [`Error::OutOfMemory`].
fn copied<A: Allocator + Clone>(alloc: &A, bytes: &[u8]) -> Result<Slice<A>, Error>
    ensures ok { IfOk result (λ s. s ≡ bytes.now) }
    ensures err { IfErr result (λ e. e ≡ spec.OutOfMemory) }
{
    Slice::from(alloc.clone()?, bytes)
}
