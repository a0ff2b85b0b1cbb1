//! Parsing a table's meta block.
ghost use Rattle.std.specs.Prelude.{◌≡◌, ◌-◌, List, ℕ, Result};
ghost use Rattle.lsm_readers.specs.Words as spec;

use byteorder::{ByteOrder, LittleEndian};
use lsm_iters::beside;
use lsm_sorted::KeyRange;
use sst_blocks::{
    BlockHandle, BlockSource, BlockType, CompressionType, Counted, DataBlock, Error,
    FILTER_HASH_TYPE, ItemName, LoadBlocks, Opened, SeqNo, Slice, TableId, Timestamp,
};
use std::alloc::{Allocator, Global};
use std::marker::Model;

/// The items of a table's meta block.
#[derive(Drop)]
#[derive_where(Debug)]
pub struct ParsedMeta<A: Allocator = Global> {
    /// The format version of the table, 3 or 4.
    pub table_version: u8,
    /// The table's id.
    pub id: TableId,
    /// The time at which the table was written.
    pub created_at: Timestamp,
    /// The number of data blocks.
    pub data_block_count: u64,
    /// The number of index blocks.
    pub index_block_count: u64,
    /// The first and the last key.
    pub key_range: KeyRange<A>,
    /// The lowest and the highest stored sequence number, without the global one.
    pub seqnos: (SeqNo, SeqNo),
    /// The total size of the data blocks, in bytes.
    pub file_size: u64,
    /// The number of entries.
    pub item_count: u64,
    /// The number of tombstones of either kind.
    pub tombstone_count: u64,
    /// The number of weak tombstones.
    pub weak_tombstone_count: u64,
    /// The number of values directly after a weak tombstone of their key.
    pub weak_tombstone_reclaimable: u64,
    /// The compression of data blocks.
    pub data_block_compression: CompressionType,
    /// The compression of index blocks.
    pub index_block_compression: CompressionType,
}

/// The value of an item. Fails with [`Error::MetaKeyMissing`] if there is none.
#[tactic(auto, unfolding(crate::specs::point::Meta::item_result))]
fn item<A: Allocator>(block: &DataBlock<A>, name: ItemName) -> Result<Slice<A>, Error>
    ensures { spec.Gives (λ (v : List ℕ). v) result (spec.item_result block.now name) }
{
    match block.point_read(name.key(), SeqNo::MAX)? {
        Some(item) => Ok(item.value),
        None => Err(Error::MetaKeyMissing),
    }
}

#[tactic(auto, unfolding(sst_blocks::specs::Number::num8))]
fn number8(value: &[u8]) -> Result<u64, Error>
    ensures { result ≡ spec.number8_result value.now }
{
    if value.len() < 8 {
        return Err(Error::InvalidMetaValue);
    }
    Ok(LittleEndian::read_u64(value))
}

#[tactic(auto, unfolding(sst_blocks::specs::Number::num16))]
fn number16(value: &[u8]) -> Result<u128, Error>
    ensures { result ≡ spec.number16_result value.now }
{
    if value.len() < 16 {
        return Err(Error::InvalidMetaValue);
    }
    Ok(LittleEndian::read_u128(value))
}

#[tactic(auto, unfolding(crate::specs::point::Meta::u64_result))]
fn u64_item<A: Allocator>(block: &DataBlock<A>, name: ItemName) -> Result<u64, Error>
    ensures { spec.Gives (λ (n : ℕ). n) result (spec.u64_result block.now name) }
{
    let value = item(block, name)?;
    let number = number8(value.as_slice());
    drop(value);
    number
}

fn test_byte(value: &[u8], byte: u8, fault: Error) -> Result<(), Error>
    ensures { result ≡ spec.one_byte_result value.now byte fault }
{
    if value == [byte].as_slice() {
        Ok(())
    } else {
        Err(fault)
    }
}

#[tactic(auto, unfolding(crate::specs::point::Meta::byte_result))]
fn byte_item<A: Allocator>(
    block: &DataBlock<A>,
    name: ItemName,
    byte: u8,
    fault: Error,
) -> Result<(), Error>
    ensures { spec.Gives (λ (_ : _). tt) result (spec.byte_result block.now name byte fault) }
{
    let value = item(block, name)?;
    let tested = test_byte(value.as_slice(), byte, fault);
    drop(value);
    tested
}

fn test_first(value: &[u8], byte: u8, fault: Error) -> Result<(), Error>
    ensures { result ≡ spec.first_byte_result value.now byte fault }
{
    if value.is_empty() {
        return Err(Error::InvalidMetaValue);
    }
    if value[0] == byte { Ok(()) } else { Err(fault) }
}

#[tactic(auto, unfolding(crate::specs::point::Meta::first_result))]
fn first_item<A: Allocator>(
    block: &DataBlock<A>,
    name: ItemName,
    byte: u8,
    fault: Error,
) -> Result<(), Error>
    ensures { spec.Gives (λ (_ : _). tt) result (spec.first_result block.now name byte fault) }
{
    let value = item(block, name)?;
    let tested = test_first(value.as_slice(), byte, fault);
    drop(value);
    tested
}

fn version(value: &[u8]) -> Result<u8, Error>
    ensures { result ≡ spec.version_number_result value.now }
{
    if value == [3].as_slice() || value == [4].as_slice() {
        Ok(value[0])
    } else {
        Err(Error::UnsupportedTableVersion)
    }
}

#[tactic(auto, unfolding(crate::specs::point::Meta::version_result))]
fn version_item<A: Allocator>(block: &DataBlock<A>) -> Result<u8, Error>
    ensures { spec.Gives (λ (n : ℕ). n) result (spec.version_result block.now) }
{
    let value = item(block, ItemName::TableVersion)?;
    let number = version(value.as_slice());
    drop(value);
    number
}

#[tactic(auto, unfolding(crate::specs::point::Meta::kinds_result))]
fn test_kinds<A: Allocator>(block: &DataBlock<A>) -> Result<(), Error>
    ensures { spec.Gives (λ (_ : _). tt) result (spec.kinds_result block.now) }
{
    byte_item(
        block,
        ItemName::FilterHashType,
        FILTER_HASH_TYPE,
        Error::UnsupportedHashType,
    )?;
    byte_item(
        block,
        ItemName::ChecksumType,
        1,
        Error::UnsupportedChecksumType,
    )?;
    first_item(
        block,
        ItemName::RestartIntervalIndex,
        1,
        Error::UnsupportedIndexInterval,
    )
}

#[tactic(auto, unfolding(crate::specs::point::Meta::compressions_result))]
fn test_compressions<A: Allocator>(block: &DataBlock<A>) -> Result<(), Error>
    ensures { spec.Gives (λ (_ : _). tt) result (spec.compressions_result block.now) }
{
    first_item(
        block,
        ItemName::CompressionData,
        0,
        Error::UnsupportedCompression,
    )?;
    first_item(
        block,
        ItemName::CompressionIndex,
        0,
        Error::UnsupportedCompression,
    )
}

#[tactic(auto, unfolding(crate::specs::point::Meta::created_result))]
fn created_item<A: Allocator>(block: &DataBlock<A>) -> Result<u128, Error>
    ensures { spec.Gives (λ (n : ℕ). n) result (spec.created_result block.now) }
{
    let value = item(block, ItemName::CreatedAt)?;
    let number = number16(value.as_slice());
    drop(value);
    number
}

/// The numbers that are read before the creation time, in this order. The filter block count is
/// read after the index block count, to report its fault, and is not stored.
#[derive(Clone, Copy)]
struct Numbers {
    id: TableId,
    item_count: u64,
    tombstone_count: u64,
    data_block_count: u64,
    index_block_count: u64,
    file_size: u64,
    weak_tombstone_count: u64,
    weak_tombstone_reclaimable: u64,
}

#[tactic(auto, unfolding(crate::specs::point::Meta::numbers_result))]
fn number_items<A: Allocator>(block: &DataBlock<A>) -> Result<Numbers, Error>
    ensures { spec.Gives (λ (n : spec.Numbers). n) result (spec.numbers_result block.now) }
{
    let id = u64_item(block, ItemName::TableId)?;
    let item_count = u64_item(block, ItemName::ItemCount)?;
    let tombstone_count = u64_item(block, ItemName::TombstoneCount)?;
    let data_block_count = u64_item(block, ItemName::BlockCountData)?;
    let index_block_count = u64_item(block, ItemName::BlockCountIndex)?;
    u64_item(block, ItemName::BlockCountFilter)?;
    let file_size = u64_item(block, ItemName::FileSize)?;
    let weak_tombstone_count = u64_item(block, ItemName::WeakTombstoneCount)?;
    let weak_tombstone_reclaimable = u64_item(block, ItemName::WeakTombstoneReclaimable)?;
    Ok(Numbers {
        id,
        item_count,
        tombstone_count,
        data_block_count,
        index_block_count,
        file_size,
        weak_tombstone_count,
        weak_tombstone_reclaimable,
    })
}

#[tactic(auto, unfolding(crate::specs::point::Meta::keys_result))]
fn key_items<A: Allocator>(block: &DataBlock<A>) -> Result<KeyRange<A>, Error>
    ensures { spec.Gives (λ (r : spec.Interval). r) result (spec.keys_result block.now) }
{
    let min = item(block, ItemName::KeyMin)?;
    let ends = beside(min, item(block, ItemName::KeyMax))?;
    Ok(KeyRange::new(ends))
}

#[tactic(auto, unfolding(crate::specs::point::Meta::seqnos_result))]
fn seqno_items<A: Allocator>(block: &DataBlock<A>) -> Result<(SeqNo, SeqNo), Error>
    ensures { spec.Gives (λ (n : ℕ × ℕ). n) result (spec.seqnos_result block.now) }
{
    let min = u64_item(block, ItemName::SeqnoMin)?;
    let max = u64_item(block, ItemName::SeqnoMax)?;
    Ok((min, max))
}

/// Reads the items after the version and the numbers.
fn read_rest<A: Allocator>(
    block: &DataBlock<A>,
    table_version: u8,
    numbers: Numbers,
) -> Result<ParsedMeta<A>, Error>
    ensures { spec.Gives spec.facts_of result (spec.rest_result block.now table_version numbers) }
{
    let created_at = created_item(block)?;
    let key_range = key_items(block)?;
    let (key_range, seqnos) = beside(key_range, seqno_items(block))?;
    let meta = ParsedMeta {
        table_version,
        id: numbers.id,
        created_at: Timestamp::from(created_at),
        data_block_count: numbers.data_block_count,
        index_block_count: numbers.index_block_count,
        key_range,
        seqnos,
        file_size: numbers.file_size,
        item_count: numbers.item_count,
        tombstone_count: numbers.tombstone_count,
        weak_tombstone_count: numbers.weak_tombstone_count,
        weak_tombstone_reclaimable: numbers.weak_tombstone_reclaimable,
        data_block_compression: CompressionType::None,
        index_block_compression: CompressionType::None,
    };
    test_compressions(block).and(Ok(meta))
}

fn read_facts<A: Allocator>(block: &DataBlock<A>) -> Result<ParsedMeta<A>, Error>
    ensures { spec.Gives spec.facts_of result (spec.facts_result block.now) }
{
    let table_version = version_item(block)?;
    test_kinds(block)?;
    let numbers = number_items(block)?;
    read_rest(block, table_version, numbers)
}

impl<A: Allocator + Clone> ParsedMeta<A> {
    /// Loads a meta block and parses its items.
    ///
    /// # Errors
    ///
    /// The first fault: those of [`BlockSource::load`], then item after item:
    ///
    /// - [`Error::MetaKeyMissing`] if the item is missing.
    /// - [`Error::InvalidMetaValue`] if the value is too short.
    /// - [`Error::UnsupportedTableVersion`], [`Error::UnsupportedHashType`],
    ///   [`Error::UnsupportedChecksumType`], [`Error::UnsupportedIndexInterval`] or
    ///   [`Error::UnsupportedCompression`] if the value is unknown.
    ///
    /// It can also fail with [`Error::OutOfMemory`].
    pub fn load_with_handle(
        source: &BlockSource<A>,
        handle: &BlockHandle,
    ) -> Result<ParsedMeta<A>, Error>
        ensures returned { spec.Gives spec.facts_of result
            (spec.meta_result (spec.body_of source.now) handle.now) }
        ensures early { let body = spec.body_of source.now in
            spec.FaultsFirst result
            (spec.place_fault body handle.now.offset handle.now.size spec.Meta) }
    {
        load_meta(&mut Counted::new(source), handle)
    }
}

/// Loads the meta block at a handle and parses its items. Fails as [`ParsedMeta::load_with_handle`]
/// does.
pub(crate) fn load_meta<S: LoadBlocks>(
    source: &mut S,
    handle: &BlockHandle,
) -> Result<ParsedMeta<S::Alloc>, Error>
    ensures returned { let facts = spec.meta_result (S.body source.old) handle.now in
        spec.IsKnown S.access → spec.Gives spec.facts_of result facts }
    ensures early { let body = S.body source.old in
        spec.IsInMemory S.access → spec.FaultsFirst result
        (spec.place_fault body handle.now.offset handle.now.size spec.Meta) }
    ensures body { S.body source.new ≡ S.body source.old }
{
    let block = source.load(handle, BlockType::Meta)?;
    let block = DataBlock::new(block);
    let meta = read_facts(&block);
    drop(block);
    meta
}

/// Loads the meta block at `handle`, and returns the value of one of its items.
///
/// # Errors
///
/// Fails as [`BlockSource::load`] does, then with [`Error::MetaKeyMissing`] if the block has no
/// such item. It can also fail with [`Error::OutOfMemory`].
pub fn load_item<A: Allocator + Clone>(
    source: &BlockSource<A>,
    handle: &BlockHandle,
    name: ItemName,
) -> Result<Slice<A>, Error>
    ensures returned { spec.Gives (λ (v : List ℕ). v) result
        (spec.meta_item_result (spec.body_of source.now) handle.now name) }
    ensures early { let body = spec.body_of source.now in
        spec.FaultsFirst result
        (spec.place_fault body handle.now.offset handle.now.size spec.Meta) }
{
    let mut opened = Opened::none();
    let block = source.load(handle, BlockType::Meta, &mut opened)?;
    let block = DataBlock::new(block);
    let value = item(&block, name);
    drop(block);
    value
}
