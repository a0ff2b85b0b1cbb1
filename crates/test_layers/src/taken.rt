//! Finished tables that are taken from a writer of several tables before it ends, by calls or by a
//! stream.
ghost use Rattle.std.specs.Iterator.{IsFinite};

use crate::given::{Given, MAY_NOT_FOLLOW, NO_TABLES, Seen, Tables, Takes, entry, seen_of, tables};
use lsm_writers::{
    FinishedTable, MultiWriter, TableId, TableIds, TableStream, TableStreamError, Timestamp,
};
use sst_blocks::{Error, IterItem, ValueType};
use std::alloc::{Allocator, Global};
use test_support::samples::rows::Row;
use test_support::{Refusing, each_refused, lent_list};

// The error code of the first call that fails, 0 for none, and the tables, the taken ones first.
type Outcome = (u8, Tables);

fn push(seen: &mut Tables, table: Seen) {
    if let Some(slot) = seen.1.get_mut(seen.0) {
        *slot = table;
    }
    seen.0 = seen.0.saturating_add(1);
}

// Takes up to so many tables.
fn take_some<A: Allocator + Copy>(writer: &mut MultiWriter<A>, most: usize, seen: &mut Tables) {
    for _ in 0..most {
        if let Some(table) = writer.take_finished() {
            push(seen, seen_of(&table));
        }
    }
}

fn end<A: Allocator + Copy>(writer: MultiWriter<A>, mut seen: Tables) -> Outcome {
    match writer.finish() {
        Ok(tables) => {
            for table in tables.iter() {
                push(&mut seen, seen_of(table));
            }
            (0, seen)
        }
        Err(error) => (error.number(), seen),
    }
}

// Writes rows and takes up to so many tables after each. After an error it takes all.
fn outcome_of<A: Allocator + Copy>(
    made: Result<MultiWriter<A>, Error>,
    rows: &[Row<'static>],
    most: usize,
) -> Outcome {
    let mut writer = match made {
        Ok(writer) => writer,
        Err(error) => return (error.number(), NO_TABLES),
    };
    let mut seen = NO_TABLES;
    for row in rows {
        let error = writer.take(row, Given::ByReference);
        if error != 0 {
            take_some(&mut writer, 8, &mut seen);
            return (error, seen);
        }
        take_some(&mut writer, most, &mut seen);
    }
    end(writer, seen)
}

// Two versions of a key, and three further keys.
static ROWS: [Row<'static>; 5] = [
    (b"a", 9, ValueType::Value, b"x"),
    (b"a", 7, ValueType::Value, b""),
    (b"b", 1, ValueType::Value, b""),
    (b"c", 1, ValueType::Value, b""),
    (b"d", 1, ValueType::Value, b""),
];

// The outcome with a table for each key, and the ids from a first one on.
fn outcome<A: Allocator + Copy>(alloc: A, first: TableId, most: usize) -> Outcome {
    outcome_of(tables(alloc, first, 1, 0), &ROWS, most)
}

fn ids(outcome: &Outcome) -> [TableId; 4] {
    let [a, b, c, d, ..] = outcome.1.1;
    [a.0, b.0, c.0, d.0]
}

#[test]
fn taken_tables_are_those_of_finish(rt: HostRuntime) {
    let all = outcome(rt.alloc(), 1, 0);
    assert!(rt; all.0 == 0);
    assert!(rt; all.1.0 == 4);
    assert!(rt; ids(&all) == [1, 2, 3, 4]);
    assert!(rt; outcome(rt.alloc(), 1, 1) == all);
    assert!(rt; outcome(rt.alloc(), 1, 8) == all);
}

// The third table has no id; the second one is not finished.
#[test]
fn tables_may_be_taken_after_an_error(rt: HostRuntime) {
    let last = outcome(rt.alloc(), TableId::MAX - 1, 0);
    assert!(rt; last.0 == Error::TableIdsSpent.number());
    assert!(rt; last.1.0 == 1);
    assert!(rt; ids(&last) == [TableId::MAX - 1, 0, 0, 0]);
    assert!(rt; outcome(rt.alloc(), TableId::MAX - 1, 1) == last);
}

#[test]
fn a_writer_without_entries_has_no_table_to_take(rt: HostRuntime) {
    assert!(rt; outcome_of(tables(rt.alloc(), 1, 1, 0), &[], 1) == (0, NO_TABLES));
    assert!(rt; outcome_of(tables(rt.alloc(), 1, 1, 0), &ROWS[..2], 8).1.0 == 1);
}

// Whether the tables are the first of those with ample memory: all of them, or fewer after a
// failing request.
fn is_front<A: Allocator + Copy>(alloc: A, ample: &Outcome, is_refused: bool) -> bool {
    let (error, seen) = outcome(alloc, 1, 1);
    if error == 0 {
        return seen == ample.1;
    }
    let mut same = seen.1.iter().zip(ample.1.1.iter()).take(seen.0);
    is_refused && error == Error::OutOfMemory.number() && same.all(|(a, b)| a == b)
}

fn is_front_for_each_request(alloc: Global) -> bool {
    let ample = outcome(alloc, 1, 0);
    each_refused(
        alloc,
        |heap: &Refusing, is_refused: bool| is_front(heap, &ample, is_refused),
    )
    .is_ok()
}

#[test]
fn tables_may_be_taken_after_an_allocation_failure(rt: HostRuntime) {
    assert!(rt; is_front_for_each_request(rt.alloc()));
}

// Two keys with a table each, then an entry that sorts before them.
static UNSORTED: [Row<'static>; 5] = [
    (b"a", 9, ValueType::Value, b"x"),
    (b"a", 7, ValueType::Value, b""),
    (b"b", 1, ValueType::Value, b""),
    (b"a", 1, ValueType::Value, b""),
    (b"d", 1, ValueType::Value, b""),
];

// All that a stream yields: the tables, and the code of the error among them.
fn yielded<I: Iterator<Item = Result<FinishedTable<A>, TableStreamError>> + Drop, A: Allocator>(
    stream: I,
) -> Outcome
    requires { I.can_next stream × IsFinite (I.remaining stream) }
{
    let (mut code, mut seen) = (0, NO_TABLES);
    for item in stream {
        match item {
            Ok(table) => push(&mut seen, seen_of(&table)),
            Err(TableStreamError::OutOfOrder) => code = MAY_NOT_FOLLOW,
            Err(TableStreamError::Failed(error)) => code = error.number(),
        }
    }
    (code, seen)
}

fn listed(alloc: Global, rows: &[Row<'static>]) -> Result<Vec<IterItem>, Error> {
    let mut list = Vec::new(alloc);
    for row in rows {
        list.push(Ok(entry(row)))?;
    }
    Ok(list)
}

fn stream_of(alloc: Global, rows: &[Row<'static>]) -> Result<Outcome, Error> {
    let list = listed(alloc, rows)?;
    let writer = MultiWriter::new(alloc, TableIds::new(1), 1, 0, Timestamp::from(0))?;
    let writer = writer.use_data_block_size(0);
    Ok(yielded(TableStream::new(lent_list(list), writer)))
}

// The outcome of a stream of rows, with a table for each key.
fn streamed(alloc: Global, rows: &[Row<'static>]) -> Outcome {
    match stream_of(alloc, rows) {
        Ok(outcome) => outcome,
        Err(error) => (error.number(), NO_TABLES),
    }
}

#[test]
fn streamed_tables_are_those_of_finish(rt: HostRuntime) {
    let all = outcome(rt.alloc(), 1, 0);
    assert!(rt; streamed(rt.alloc(), &ROWS) == all);
    let unsorted = streamed(rt.alloc(), &UNSORTED);
    assert!(rt; unsorted.0 == MAY_NOT_FOLLOW);
    assert!(rt; unsorted.1.0 == 1);
    assert!(rt; unsorted.1.1[0] == all.1.1[0]);
}
