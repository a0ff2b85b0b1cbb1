//! Writes rows with writers of one table and of several, and returns the results as plain numbers.
//! The functions are generic in the writer, so that a proof looks at none of its parts.
use lsm_writers::{
    BloomConstructionPolicy, FinishedTable, MultiWriter, TableId, TableIds, Timestamp, Writer,
};
use sst_blocks::{Error, InternalValue, Slice, ValueType};
use sst_entries::EntryRef;
use std::alloc::Allocator;
use test_support::samples::rows::Row;

/// How entries are passed.
#[derive(Clone, Copy)]
pub(crate) enum Given {
    ByValue,
    ByReference,
}

/// In place of an error code: an entry may not be written next.
pub(crate) const MAY_NOT_FOLLOW: u8 = u8::MAX;

/// A table: its id, the checksum of all its bytes, and their number.
pub(crate) type Seen = (TableId, u128, usize);

/// The number of tables, and the first of them, with zeros after the last one.
pub(crate) type Tables = (usize, [Seen; 8]);

pub(crate) const NO_TABLES: Tables = (0, [(0, 0, 0); 8]);

/// Error codes, 0 for none: of a new writer, of the first entry that fails, of a further entry and
/// another call after it, and of `finish`.
pub(crate) type Refusals = [u8; 5];

/// The error code of `finish`, the id of the next table if any, whether no entry was written
/// before, and the tables.
type Ended = (u8, Option<TableId>, bool, Tables);

/// The result of a writer: its error codes, and the result of `finish`.
pub(crate) type Reported = (Refusals, Option<TableId>, bool, Tables);

/// A writer of rows.
pub(crate) trait Takes {
    /// Writes the entry of a row, and returns its error code, 0 for none.
    fn take(&mut self, row: &Row<'static>, given: Given) -> u8;

    /// The error code of a call other than the one that writes an entry by value.
    fn call(&mut self) -> u8;

    /// Finishes, and drops the tables.
    fn end(self) -> Ended;
}

// The entry of a row, without a request for memory.
pub(crate) fn entry<A: Allocator>(row: &Row<'static>) -> InternalValue<A> {
    let (key, value) = (Slice::from_static(row.0), Slice::from_static(row.3));
    InternalValue::from_components(key, value, row.1, row.2)
}

fn entry_ref<'a>(row: &Row<'a>) -> EntryRef<'a> {
    EntryRef {
        user_key: row.0,
        seqno: row.1,
        value_type: row.2,
        value: row.3,
    }
}

/// The error code of a result, 0 for none. It is generic, so that a proof looks at no part of the
/// value.
pub(crate) fn number<T: Drop>(made: Result<T, Error>) -> u8 {
    match made {
        Ok(_) => 0,
        Err(error) => error.number(),
    }
}

fn seen_in<A: Allocator>(tables: &[FinishedTable<A>]) -> Tables {
    let mut seen = NO_TABLES.1;
    for (slot, table) in seen.iter_mut().zip(tables.iter()) {
        *slot = seen_of(table);
    }
    (tables.len(), seen)
}

/// A table in plain numbers.
pub(crate) fn seen_of<A: Allocator>(table: &FinishedTable<A>) -> Seen {
    (table.id, table.checksum.0, table.bytes.len())
}

impl<A: Allocator + Copy> Takes for Writer<A> {
    fn take(&mut self, row: &Row<'static>, given: Given) -> u8 {
        match given {
            Given::ByValue => {
                let item = entry(row);
                if self.can_follow(&item.key) {
                    number(self.write(item))
                } else {
                    MAY_NOT_FOLLOW
                }
            }
            Given::ByReference => {
                let item = entry_ref(row);
                if self.can_follow_ref(&item) {
                    number(self.write_ref(&item))
                } else {
                    MAY_NOT_FOLLOW
                }
            }
        }
    }

    fn call(&mut self) -> u8 {
        number(self.spill_block())
    }

    fn end(self) -> Ended {
        let is_empty = self.is_empty();
        match self.finish() {
            Ok(None) => (0, None, is_empty, NO_TABLES),
            Ok(Some(table)) => {
                let mut seen = NO_TABLES.1;
                seen[0] = seen_of(&table);
                (0, None, is_empty, (1, seen))
            }
            Err(error) => (error.number(), None, is_empty, NO_TABLES),
        }
    }
}

impl<A: Allocator + Copy> Takes for MultiWriter<A> {
    fn take(&mut self, row: &Row<'static>, given: Given) -> u8 {
        match given {
            Given::ByValue => {
                let item = entry(row);
                if self.can_follow(&item.key) {
                    number(self.write(item))
                } else {
                    MAY_NOT_FOLLOW
                }
            }
            Given::ByReference => {
                let item = entry_ref(row);
                if self.can_follow_ref(&item) {
                    number(self.write_ref(&item))
                } else {
                    MAY_NOT_FOLLOW
                }
            }
        }
    }

    fn call(&mut self) -> u8 {
        self.take(&BEHIND, Given::ByReference)
    }

    fn end(self) -> Ended {
        let (next, is_empty) = (self.table_ids().next(), self.is_empty());
        match self.finish() {
            Ok(tables) => (0, next, is_empty, seen_in(&tables)),
            Err(error) => (error.number(), next, is_empty, NO_TABLES),
        }
    }
}

/// The row that is written after one that fails.
const BEHIND: Row<'static> = (b"d", 1, ValueType::Value, b"");

/// Error codes, 0 for none: of the first row that fails, of a further row after it, and of another
/// call.
pub(crate) fn put_rows<T: Takes>(taking: &mut T, rows: &[Row<'static>], given: Given) -> [u8; 3] {
    for row in rows {
        let first = taking.take(row, given);
        if first != 0 {
            return [first, taking.take(&BEHIND, Given::ByValue), taking.call()];
        }
    }
    [0; 3]
}

/// The result of a writer of some rows, up to the first that fails.
pub(crate) fn told_by<T: Takes>(
    made: Result<T, Error>,
    rows: &[Row<'static>],
    given: Given,
) -> Reported {
    let mut taking = match made {
        Ok(taking) => taking,
        Err(error) => return ([error.number(), 0, 0, 0, 0], None, true, NO_TABLES),
    };
    let [first, again, other] = put_rows(&mut taking, rows, given);
    let (last, next, is_empty, tables) = taking.end();
    ([0, first, again, other, last], next, is_empty, tables)
}

/// A kind of writer.
#[derive(Clone, Copy)]
pub(crate) enum By {
    /// A writer of the table 1: whether it is partitioned, the data block size, and tenths of a bit
    /// per key in the filter.
    Table(bool, u32, u32),
    /// A writer of tables: the first id, the target size, and the data block size.
    Tables(TableId, u64, u32),
}

/// A writer of a table.
pub(crate) fn table<A: Allocator + Copy>(
    alloc: A,
    is_partitioned: bool,
    size: u32,
    tenths: u32,
) -> Result<Writer<A>, Error> {
    let writer = Writer::new(alloc, 1, 0, Timestamp::from(0))?
        .use_data_block_size(size.min(4_096))
        .use_bloom_policy(BloomConstructionPolicy::BitsPerKey(tenths));
    if !is_partitioned {
        return Ok(writer);
    }
    Ok(writer.use_partitioned_index().use_partitioned_filter())
}

/// A writer of tables.
pub(crate) fn tables<A: Allocator + Copy>(
    alloc: A,
    first: TableId,
    target: u64,
    size: u32,
) -> Result<MultiWriter<A>, Error> {
    let writer = MultiWriter::new(alloc, TableIds::new(first), target, 0, Timestamp::from(0))?;
    Ok(writer.use_data_block_size(size.min(4_096)))
}

/// The result of writing rows with a kind of writer.
pub(crate) fn returned<A: Allocator + Copy>(
    alloc: A,
    by: By,
    rows: &[Row<'static>],
    given: Given,
) -> Reported {
    match by {
        By::Table(is_partitioned, size, tenths) => {
            told_by(table(alloc, is_partitioned, size, tenths), rows, given)
        }
        By::Tables(first, target, size) => told_by(tables(alloc, first, target, size), rows, given),
    }
}
