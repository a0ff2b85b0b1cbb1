//! Tests of single tables, from entries to bytes and back, and the tables that they read.
//!
//! They cover point reads, ranges, scans and seeks under each kind of index and of filter, by value
//! and borrowed. They also cover metadata, pinning, verification, the longest keys, the largest
//! sequence numbers, and allocation failures.
//!
//! The tables are those of an independent program, unchanged or with some of their bytes changed,
//! and tables of a few rows.
ghost use Rattle.test_reads.specs.Words as spec;

mod indexes;
mod lending;
pub mod lists;
mod long;
mod one_answer;
pub mod points;
pub mod queries;
pub mod reads;
pub mod refusals;
mod sections;
mod verified;
mod walks;

use lsm_tables::table::Table;
use lsm_writers::{BloomConstructionPolicy, FilterKind, IndexKind, Options, Timestamp, Writer};
use sst_blocks::{Checksum, EntryRef, Error, InternalValue, SeqNo, Slice, ValueType};
use std::alloc::Allocator;
use test_support::samples::rows::{Row, fill, new_writer};
use test_support::samples::stored::{filter_parts, one_entry, one_entry_filtered, two_levels};
use test_support::samples::tables::overwritten;

/// Three versions of `a` and one of `b`.
pub(crate) const ROWS: &[Row<'static>] = &[
    (b"a", 9, ValueType::Value, b""),
    (b"a", 7, ValueType::Value, b""),
    (b"a", 5, ValueType::Value, b""),
    (b"b", 1, ValueType::Value, b""),
];

// Entries of each kind. With a data block size of 7 they have three blocks: of 2 entries (69
// bytes), 3 (92) and 2.
const OF_EACH_KIND: &[Row<'static>] = &[
    (b"a", 9, ValueType::Value, b"first"),
    (b"a", 7, ValueType::Tombstone, b""),
    (b"a", 5, ValueType::Value, b"x"),
    (b"b", SeqNo::MAX - 5, ValueType::WeakTombstone, b""),
    (b"c", 3, ValueType::Indirection, b"elsewhere"),
    (b"d", 2, ValueType::Value, b"y"),
    (b"e", 1, ValueType::Value, b"z"),
];

/// The partitioned parts of a table, with one handle or key per partition.
#[derive(Clone, Copy)]
pub(crate) enum Parted {
    Nothing,
    Index,
    Filter,
    Both,
}

fn index_kind(parted: Parted) -> IndexKind
    ensures { spec.IsSmallIndex result }
{
    match parted {
        Parted::Index | Parted::Both => IndexKind::Partitioned(1),
        Parted::Nothing | Parted::Filter => IndexKind::Full,
    }
}

fn filter_kind(parted: Parted) -> FilterKind
    ensures { spec.IsSmallFilter result }
{
    match parted {
        Parted::Filter | Parted::Both => FilterKind::Partitioned(1),
        Parted::Nothing | Parted::Index => FilterKind::Full,
    }
}

// A writer with a data block size, of 4,096 at most, and a filter with some tenths of a bit per
// key.
fn writer_of<A: Allocator + Copy>(
    alloc: A,
    parted: Parted,
    bits: u32,
    block_size: u32,
) -> Result<Writer<A>, Error> {
    let options = Options {
        data_block_restart_interval: 16,
        index_block_restart_interval: 1,
        data_block_hash_ratio: 0,
        data_block_size: block_size.min(4_096),
        index_kind: index_kind(parted),
        filter_kind: filter_kind(parted),
        bloom_policy: BloomConstructionPolicy::BitsPerKey(bits),
    };
    Ok(new_writer(alloc)?.use_options(options))
}

/// The bytes of the table of some rows, by its writer.
pub(crate) fn written_by<A: Allocator + Copy>(
    writer: Writer<A>,
    alloc: A,
    rows: &[Row<'_>],
) -> Result<Slice<A>, Error> {
    Ok(fill(writer, alloc, rows)?.bytes)
}

/// The bytes of a table, by the filter's tenths of a bit per key, and the data block size, of 4,096
/// at most.
pub(crate) fn written<A: Allocator + Copy>(
    alloc: A,
    parted: Parted,
    rows: &[Row<'_>],
    bits: u32,
    block_size: u32,
) -> Result<Slice<A>, Error> {
    written_by(writer_of(alloc, parted, bits, block_size)?, alloc, rows)
}

// The bytes of a table of a@1 whose index has an interval of two.
fn written_with_interval<A: Allocator + Copy>(alloc: A) -> Result<Slice<A>, Error> {
    let rows: [Row<'static>; 1] = [(b"a", 1, ValueType::Value, b"x")];
    let writer = new_writer(alloc)?.use_index_block_restart_interval(2);
    written_by(writer, alloc, &rows)
}

// The bytes of a table of a@1 by a writer without options.
fn written_by_default<A: Allocator + Copy>(alloc: A) -> Result<Slice<A>, Error> {
    let rows: [Row<'static>; 1] = [(b"a", 1, ValueType::Value, b"x")];
    written_by(Writer::new(alloc, 1, 0, Timestamp::from(0))?, alloc, &rows)
}

// The bytes of a table of [`ROWS`], each in its own block, without a filter. The partitioned index
// starts with the default partition size: the smaller one set before it is forgotten.
fn written_forgetting_index<A: Allocator + Copy>(alloc: A) -> Result<Slice<A>, Error> {
    let writer = new_writer(alloc)?
        .use_data_block_size(0)
        .use_meta_partition_size(1)
        .use_partitioned_index();
    written_by(writer, alloc, ROWS)
}

// The bytes of a table of [`ROWS`], each in its own block, with a partitioned filter of the default
// policy. The partition size is forgotten.
fn written_forgetting_filter<A: Allocator + Copy>(alloc: A) -> Result<Slice<A>, Error> {
    let writer = Writer::new(alloc, 1, 0, Timestamp::from(0))?
        .use_data_block_size(0)
        .use_meta_partition_size(1)
        .use_partitioned_filter();
    written_by(writer, alloc, ROWS)
}

// The bytes of a table of [`ROWS`], each in its own block. The partition size is forgotten, because
// partitions are set after it.
fn written_forgetting<A: Allocator + Copy>(alloc: A) -> Result<Slice<A>, Error> {
    let writer = new_writer(alloc)?
        .use_data_block_size(0)
        .use_bloom_policy(BloomConstructionPolicy::BitsPerKey(100))
        .use_meta_partition_size(1)
        .use_partitioned_index()
        .use_partitioned_filter();
    written_by(writer, alloc, ROWS)
}

/// A table: a stored one, or one that is written. The stored ones have one entry, without a filter
/// and with one, or four entries, with a two-level index and with a partitioned filter.
#[derive(Clone, Copy)]
pub(crate) enum Of {
    One,
    Filtered,
    Levels,
    FilterParts,
    /// A table of [`ROWS`], each in its own block, without a filter.
    Rows(Parted),
    /// A table of [`ROWS`] with a filter of a partition for each key.
    Keys,
    /// A table of [`ROWS`] with an index and a filter of one partition each. A smaller partition
    /// size was set before they were partitioned.
    Forgetting,
    /// A table of [`ROWS`] without a filter, with an index of one partition.
    ForgettingIndex,
    /// A table of [`ROWS`] with a full index and a filter of one partition.
    ForgettingFilter,
    /// A table of [`ROWS`] in one block, without a filter.
    Block,
    /// A table of `a` with a sequence number and the value `x`.
    Numbered(SeqNo),
    /// A table of a@1 with the value `x`, by a writer without options.
    Default,
    /// A table whose index has an interval of two.
    Interval,
    /// A table of entries of each kind, in three blocks.
    Kinds,
}

// The bytes of a stored table.
fn stored(of: Of) -> &'static [u8] {
    match of {
        Of::One => &one_entry::BYTES,
        Of::Filtered => &one_entry_filtered::BYTES,
        Of::Levels => &two_levels::BYTES,
        Of::FilterParts => &filter_parts::BYTES,
        _ => &[],
    }
}

/// The bytes of a table.
pub(crate) fn bytes_of<A: Allocator + Copy>(alloc: A, of: Of) -> Result<Slice<A>, Error> {
    match of {
        Of::Rows(parted) => written(alloc, parted, ROWS, 0, 0),
        Of::Keys => written(alloc, Parted::Filter, ROWS, 100, 0),
        Of::Forgetting => written_forgetting(alloc),
        Of::ForgettingIndex => written_forgetting_index(alloc),
        Of::ForgettingFilter => written_forgetting_filter(alloc),
        Of::Block => written(alloc, Parted::Nothing, ROWS, 0, 4_096),
        Of::Numbered(number) => {
            let rows: [Row<'_>; 1] = [(b"a", number, ValueType::Value, b"x")];
            written(alloc, Parted::Nothing, &rows, 0, 4_096)
        }
        Of::Default => written_by_default(alloc),
        Of::Interval => written_with_interval(alloc),
        Of::Kinds => written(alloc, Parted::Nothing, OF_EACH_KIND, 0, 7),
        _ => Ok(Slice::from(alloc, stored(of))?),
    }
}

/// The offsets and new bytes of some ranges.
pub(crate) type Changes<'a> = &'a [(usize, &'a [u8])];

/// Whether the filter and the index are pinned.
pub(crate) type Pins = (bool, bool);

/// Each pair of pins.
pub(crate) const ALL_PINS: [Pins; 4] = [(true, true), (true, false), (false, true), (false, false)];

/// A table, the changes of its bytes, the pins, and a global sequence number.
pub(crate) type Changed<'a> = (Of, Changes<'a>, Pins, SeqNo);

/// The table of some bytes.
pub(crate) fn open_with<A: Allocator + Copy>(
    alloc: A,
    bytes: Slice<A>,
    pins: Pins,
    global_seqno: SeqNo,
) -> Result<Table<A>, Error> {
    Table::recover(alloc, bytes, Checksum(0), global_seqno, 0, pins.0, pins.1)
}

/// The bytes of a table, with some of them changed.
pub(crate) fn changed_bytes<A: Allocator + Copy>(
    alloc: A,
    changed: &Changed<'_>,
) -> Result<Slice<A>, Error> {
    let bytes = bytes_of(alloc, changed.0)?;
    overwritten(alloc, bytes.as_slice(), changed.1)
}

/// The table with some of its bytes changed.
pub(crate) fn opened<A: Allocator + Copy>(
    alloc: A,
    changed: &Changed<'_>,
) -> Result<Table<A>, Error> {
    let bytes = changed_bytes(alloc, changed)?;
    open_with(alloc, bytes, changed.2, changed.3)
}

/// The table of the rows, each in its own block. Its index is pinned, loaded by each reader, of two
/// levels, and of two levels as an earlier version stored it.
pub(crate) const KINDS: &[Changed<'static>] = &[LOADED, ON_DEMAND, TWO_LEVELS, OLDER];

/// The table with a pinned index.
pub(crate) const LOADED: Changed<'static> = (Of::Rows(Parted::Nothing), &[], (false, true), 0);

/// The table with an index that each reader loads.
pub(crate) const ON_DEMAND: Changed<'static> = (Of::Rows(Parted::Nothing), &[], (false, false), 0);

/// The table with a two-level index.
pub(crate) const TWO_LEVELS: Changed<'static> = (Of::Rows(Parted::Index), &[], (false, true), 0);

/// The table with a two-level index, as an earlier version stored it.
pub(crate) const OLDER: Changed<'static> = (Of::Levels, &[], (false, true), 0);

/// The table of a@1 whose meta block describes its sequence numbers as 0, opened with the largest
/// global sequence number.
pub(crate) const BELITTLED: Changed<'static> = (
    Of::One,
    &[
        (113, &[95, 193, 214, 191, 185, 119, 42, 72]),
        (871, &[0]),
        (903, &[0]),
    ],
    (true, true),
    SeqNo::MAX,
);

/// The table of a@(`u64::MAX` - 1) whose meta block describes its sequence numbers as 3, opened
/// with the global sequence number 3. The entry's own number overflows.
pub(crate) const UNDERSTATED: Changed<'static> = (
    Of::Numbered(SeqNo::MAX - 1),
    &[
        (117, &[92, 179, 23, 224, 215, 237, 250, 112]),
        (919, &THREE),
        (953, &THREE),
    ],
    (true, true),
    3,
);

// The number 3 as an item of a meta block.
const THREE: [u8; 8] = [3, 0, 0, 0, 0, 0, 0, 0];

/// A key and a snapshot.
pub(crate) type Sought = (&'static [u8], SeqNo);

/// The result of a read, and the numbers of data, index and filter blocks that it loads. These are
/// `u64::MAX` if the borrowing read has another result or other loads.
pub(crate) fn counted_read<A: Allocator + Copy>(
    table: &Table<A>,
    key: &[u8],
    seqno: SeqNo,
) -> (Result<Option<SeqNo>, Error>, [u64; 3]) {
    let key_hash = Table::<A>::key_hash(key);
    let (found, opened) = table.get_counted(key, seqno, key_hash);
    let (lent, lent_opened) = table.get_ref_counted(key, seqno, key_hash);
    let loads = if lends_same(&found, &lent) && opened == lent_opened {
        [opened.data_loads, opened.index_loads, opened.filter_loads]
    } else {
        [u64::MAX; 3]
    };
    (number_of(found), loads)
}

/// Whether a borrowing read has the same result as one by value.
pub(crate) fn lends_same<A: Allocator>(
    found: &Result<Option<InternalValue<A>>, Error>,
    lent: &Result<Option<EntryRef<'_>>, Error>,
) -> bool {
    match (found, lent) {
        (Ok(Some(item)), Ok(Some(entry))) => item.as_entry_ref() == *entry,
        (Ok(None), Ok(None)) => true,
        (Err(fault), Err(error)) => fault == error,
        _ => false,
    }
}

pub(crate) fn cloned(table: &Table) -> Result<Table, Error> {
    Ok(table.clone()?)
}

/// The sequence number of the entry that a read found, if any.
pub(crate) fn number_of<A: Allocator>(
    found: Result<Option<InternalValue<A>>, Error>,
) -> Result<Option<SeqNo>, Error> {
    match found {
        Ok(Some(item)) => Ok(Some(item.key.seqno)),
        Ok(None) => Ok(None),
        Err(error) => Err(error),
    }
}
