//! The tables are the same, however entries are passed and options are set.
ghost use Rattle.std.specs.Prelude.{IfOk};
ghost use Rattle.test_layers.specs.Words as spec;

use crate::given::{By, Given, NO_TABLES, Reported, Seen, returned, seen_of, told_by};
use lsm_writers::{
    BloomConstructionPolicy, FilterKind, IndexKind, MultiWriter, Options, TableId, TableIds,
    Timestamp, Writer, is_writable, write_list,
};
use sst_blocks::{CompressionType, Error, InternalValue, ValueType};
use std::alloc::Global;
use test_support::samples::large::add;
use test_support::samples::rows::{Row, entry};

// Each kind, an empty key and an empty value, versions of a key, and keys that are prefixes of
// others.
static ROWS: [Row<'static>; 9] = [
    (b"", 7, ValueType::Tombstone, b""),
    (b"a", 9, ValueType::WeakTombstone, b""),
    (b"a", 8, ValueType::Value, b"v"),
    (b"a", 1, ValueType::Value, b"an older version of the key"),
    (b"ab", 3, ValueType::Indirection, b"elsewhere"),
    (b"abc", u64::MAX - 1, ValueType::Value, b""),
    (
        b"b",
        0,
        ValueType::Value,
        b"a value that is longer than a block of this test need be",
    ),
    (b"ba", 5, ValueType::Tombstone, b""),
    (b"c", 5, ValueType::Value, b"last"),
];

// Writers of the rows and their numbers of tables. A block for each entry, for some of them, and
// for all; a table for each key, for some, for all.
const WRITTEN: [(By, usize); 15] = [
    (By::Table(false, 0, 100), 1),
    (By::Table(false, 1, 100), 1),
    (By::Table(false, 12, 100), 1),
    (By::Table(false, 40, 100), 1),
    (By::Table(false, 4_096, 100), 1),
    (By::Table(true, 0, 100), 1),
    (By::Table(true, 1, 100), 1),
    (By::Table(true, 12, 100), 1),
    (By::Table(true, 40, 100), 1),
    (By::Table(true, 4_096, 100), 1),
    (By::Tables(1, 0, 0), 7),
    (By::Tables(1, 1, 1), 6),
    (By::Tables(1, 60, 12), 4),
    (By::Tables(1, 150, 40), 2),
    (By::Tables(1, 4_096, 4_096), 1),
];

// The number of tables of the rows, if none fails and they are the same by value and by reference.
fn count_of_same(alloc: Global, by: By) -> Option<usize> {
    let by_value = returned(alloc, by, &ROWS, Given::ByValue);
    if by_value.0 != [0; 5] || by_value != returned(alloc, by, &ROWS, Given::ByReference) {
        return None;
    }
    Some(by_value.3.0)
}

#[test]
fn tables_are_the_same_by_reference(rt: HostRuntime) {
    for &(by, count) in &WRITTEN {
        assert!(rt; count_of_same(rt.alloc(), by) == Some(count));
    }
}

// A value that fills a block and reaches a target of 1,024 bytes.
const LONG: &[u8] = &[b'x'; 8_000];

static VERSIONS: [Row<'static>; 6] = [
    (b"a", 2, ValueType::Value, LONG),
    (b"a", 1, ValueType::Value, LONG),
    (b"a", 0, ValueType::Value, LONG),
    (b"b", 0, ValueType::Value, LONG),
    (b"c", 1, ValueType::Value, LONG),
    (b"c", 0, ValueType::Value, LONG),
];

// The entries of some of the versions.
fn items_of(alloc: Global, from: usize, count: usize) -> Result<Vec<InternalValue>, Error> {
    let mut items = Vec::new(alloc);
    for row in VERSIONS.iter().skip(from).take(count) {
        add(&mut items, entry(alloc, row))?;
    }
    Ok(items)
}

// The table of some of the versions alone. Fails with `Source(0)` if they cannot be written, and
// with `Source(1)` if there are none.
fn alone(alloc: Global, id: TableId, from: usize, count: usize) -> Result<Seen, Error> {
    let items = items_of(alloc, from, count)?;
    if !is_writable(&items) {
        return Err(Error::Source(0));
    }
    match write_list(alloc, id, 0, Timestamp::from(0), items) {
        Ok(Some(table)) => Ok(seen_of(&table)),
        Ok(None) => Err(Error::Source(1)),
        Err(error) => Err(error),
    }
}

// For each of their keys, the id of its table, the index of its first row, and the number of its
// rows.
const ALONE: [(TableId, usize, usize); 3] = [(1, 0, 3), (2, 3, 1), (3, 4, 2)];

#[test]
fn the_versions_of_a_key_stay_in_one_table(rt: HostRuntime) {
    let (refusals, _, _, (count, tables)) = returned(
        rt.alloc(),
        By::Tables(1, 1_024, 4_096),
        &VERSIONS,
        Given::ByValue,
    );
    assert!(rt; (refusals, count) == ([0; 5], 3));
    for (&(id, from, count), table) in ALONE.iter().zip(tables.iter()) {
        assert!(rt; alone(rt.alloc(), id, from, count) == Ok(*table));
    }
}

// Options that all differ from those of a new writer.
const OPTIONS: Options = Options {
    data_block_restart_interval: 8,
    index_block_restart_interval: 2,
    data_block_hash_ratio: 750,
    data_block_size: 1,
    index_kind: IndexKind::Partitioned(1),
    filter_kind: FilterKind::Partitioned(1),
    bloom_policy: BloomConstructionPolicy::BitsPerKey(640),
};

// A writer of several tables without entries.
fn new_tables(alloc: Global) -> Result<MultiWriter, Error>
    ensures { IfOk result (λ w. spec.IsFreshRun w) }
{
    MultiWriter::new(alloc, TableIds::new(1), 1 << 20, 0, Timestamp::from(0))
}

// Sets its options one by one.
fn one_by_one(alloc: Global) -> Result<MultiWriter, Error> {
    Ok(
        new_tables(alloc)?
            .use_data_block_restart_interval(8)
            .use_index_block_restart_interval(2)
            .use_data_block_hash_ratio(750)
            .use_data_block_size(1)
            .use_partitioned_index()
            .use_partitioned_filter()
            .use_meta_partition_size(1)
            .use_bloom_policy(BloomConstructionPolicy::BitsPerKey(640)),
    )
}

// Sets its options at once.
fn at_once(alloc: Global) -> Result<MultiWriter, Error> {
    Ok(new_tables(alloc)?.use_options(OPTIONS))
}

// A writer of one table whose options are set at once.
fn table_at_once(alloc: Global) -> Result<Writer, Error> {
    Ok(Writer::new(alloc, 1, 0, Timestamp::from(0))?.use_options(OPTIONS))
}

// A writer of one table whose options are set one by one.
fn with_options(alloc: Global) -> Result<Writer, Error> {
    Ok(
        Writer::new(alloc, 1, 3, Timestamp::from(5))?
            .use_data_block_restart_interval(8)
            .use_index_block_restart_interval(2)
            .use_data_block_hash_ratio(750)
            .use_data_block_size(4_194_304)
            .use_meta_partition_size(4_194_304)
            .use_data_block_compression(CompressionType::None)
            .use_index_block_compression(CompressionType::None),
    )
}

static TWO_KEYS: [Row<'static>; 2] = [
    (b"a", 1, ValueType::Value, b"x"),
    (b"b", 1, ValueType::Value, b"x"),
];

// The results of a writer of several tables with options set at once, and one by one.
fn by_tables(alloc: Global) -> [Reported; 2] {
    [
        told_by(at_once(alloc), &TWO_KEYS, Given::ByValue),
        told_by(one_by_one(alloc), &TWO_KEYS, Given::ByValue),
    ]
}

// The result of a writer of one table.
fn by_table(alloc: Global) -> Reported {
    told_by(table_at_once(alloc), &TWO_KEYS, Given::ByValue)
}

#[test]
fn options_may_be_set_at_once(rt: HostRuntime) {
    let (refusals, _, is_empty, tables) = by_table(rt.alloc());
    assert!(rt; tables.0 == 1);
    assert!(rt; by_tables(rt.alloc()) == [(refusals, Some(2), is_empty, tables); 2]);
}

#[test]
fn takes_options_and_gives_no_table_of_nothing(rt: HostRuntime) {
    let returned = told_by(with_options(rt.alloc()), &[], Given::ByValue);
    assert!(rt; returned == ([0; 5], None, true, NO_TABLES));
}
