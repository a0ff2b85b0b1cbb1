//! Results of writers: whether an entry may follow, error codes, and the ids of the tables.
use crate::given::{By, Given, MAY_NOT_FOLLOW, Refusals, number, returned};
use lsm_writers::{MultiWriter, TableId, TableIds, Timestamp};
use sst_blocks::{SeqNo, ValueType};
use std::alloc::Global;
use test_support::samples::rows::Row;

const A1: Row<'static> = (b"a", 1, ValueType::Value, b"x");

const B1: Row<'static> = (b"b", 1, ValueType::Value, b"x");

const E3: Row<'static> = (b"e", 3, ValueType::Tombstone, b"");

// A writer of one table without a filter.
const TABLE: By = By::Table(false, 4_096, 0);

// Two entries that may not follow, after which the writer still works.
const NOT_BEHIND: Refusals = [0, MAY_NOT_FOLLOW, MAY_NOT_FOLLOW, 0, 0];

// The ids of the first three tables, 0 where there is none.
type Ids = [TableId; 3];

// A writer, its rows, the error codes, the id of the next table, and the ids of the first tables.
static ANSWERS: [(By, &[Row<'static>], Refusals, Option<TableId>, Ids); 9] = [
    // the ids continue from the second at target 0, and without entries there is no table
    (
        By::Tables(5, 0, 4_096),
        &[A1, B1],
        [0; 5],
        Some(8),
        [6, 7, 0],
    ),
    (
        By::Tables(5, 1, 4_096),
        &[A1, B1],
        [0; 5],
        Some(6),
        [5, 0, 0],
    ),
    (By::Tables(5, 0, 4_096), &[], [0; 5], Some(6), [0; 3]),
    // no table begins without an id, and the writer has failed then
    (
        By::Tables(TableId::MAX, 0, 4_096),
        &[A1],
        [0, 22, 23, 23, 23],
        None,
        [0; 3],
    ),
    // an older key may not follow, nor the same sequence number again, nor the largest one
    (
        TABLE,
        &[E3, (b"d", 1, ValueType::Value, b"")],
        NOT_BEHIND,
        None,
        [1, 0, 0],
    ),
    (
        TABLE,
        &[E3, (b"e", 3, ValueType::Value, b"")],
        NOT_BEHIND,
        None,
        [1, 0, 0],
    ),
    (
        TABLE,
        &[E3, (b"f", SeqNo::MAX, ValueType::Value, b"")],
        NOT_BEHIND,
        None,
        [1, 0, 0],
    ),
    (
        TABLE,
        &[E3, (b"e", 2, ValueType::Value, b"")],
        [0; 5],
        None,
        [1, 0, 0],
    ),
    (
        TABLE,
        &[E3, (b"f", 9, ValueType::Value, b"")],
        [0; 5],
        None,
        [1, 0, 0],
    ),
];

// The results of writing these rows.
fn answers(alloc: Global, by: By, rows: &[Row<'static>]) -> (Refusals, Option<TableId>, Ids) {
    let (refusals, next, _, (_, tables)) = returned(alloc, by, rows, Given::ByValue);
    (refusals, next, [tables[0].0, tables[1].0, tables[2].0])
}

#[test]
fn entries_follow_or_not_and_ids_run_on_from_table_to_table(rt: HostRuntime) {
    for &(by, rows, refusals, next, ids) in &ANSWERS {
        assert!(rt; answers(rt.alloc(), by, rows) == (refusals, next, ids));
    }
}

// The ids left from the last one on, and the error code of a new writer without ids.
fn left(alloc: Global) -> ([Option<TableId>; 2], u8) {
    let mut ids = TableIds::new(TableId::MAX);
    let drawn = [ids.next(), ids.next()];
    (
        drawn,
        number(MultiWriter::new(alloc, ids, 0, 0, Timestamp::from(0))),
    )
}

#[test]
fn no_table_begins_once_the_ids_are_spent(rt: HostRuntime) {
    assert!(rt; left(rt.alloc()) == ([Some(TableId::MAX), None], 22));
}
