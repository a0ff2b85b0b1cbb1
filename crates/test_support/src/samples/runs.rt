//! Runs of small tables, bounds, and the names of entries.
use crate::samples::large::add;
use crate::samples::rows::{Row, fill, new_writer};
use crate::samples::tables::{open, overwritten};
use lsm_sorted::Run;
use lsm_tables::table::Table;
use sst_blocks::{Error, InternalValue, IterItem, SeqNo, Slice, UserKey};
use std::alloc::Allocator;
use std::ops::Bound;
use std::sync::Arc;

pub type Bounds<'a> = (Bound<&'a [u8]>, Bound<&'a [u8]>);

pub const ALL: Bounds<'static> = (Bound::Unbounded, Bound::Unbounded);

pub type Tables<A> = Arc<Run<Table<A>, A>, A>;

/// A key of one byte, 0 for any other, and a sequence number.
pub type Name = (u8, SeqNo);

/// The tables of a run, by their rows.
pub type Lists = &'static [&'static [Row<'static>]];

// The bytes of the table of some rows, all in one data block.
fn bytes_of<A: Allocator + Copy>(alloc: A, rows: &[Row<'_>]) -> Result<Slice<A>, Error> {
    Ok(fill(new_writer(alloc)?, alloc, rows)?.bytes)
}

// The table of some rows, with some of its bytes changed.
fn table_of<A: Allocator + Copy>(
    alloc: A,
    rows: &[Row<'_>],
    changes: &[(usize, &[u8])],
) -> Result<Table<A>, Error> {
    let written = bytes_of(alloc, rows)?;
    let bytes = overwritten(alloc, written.as_slice(), changes)?;
    open(alloc, bytes, 0)
}

// The first byte of the payload of the data block.
const DAMAGE: [(usize, &[u8]); 1] = [(24, b"?")];

// The table at an index, with its data block damaged if `damaged` is this index.
fn table_at<A: Allocator + Copy>(
    alloc: A,
    rows: &[Row<'_>],
    is_damaged: bool,
) -> Result<Table<A>, Error> {
    if is_damaged {
        table_of(alloc, rows, &DAMAGE)
    } else {
        table_of(alloc, rows, &[])
    }
}

// The tables of some lists, with the one at an index damaged.
fn tables_of<A: Allocator + Copy>(
    alloc: A,
    lists: &[&[Row<'_>]],
    damaged: usize,
) -> Result<Vec<Table<A>, A>, Error> {
    let mut tables = Vec::new(alloc);
    for (place, rows) in lists.iter().enumerate() {
        add(&mut tables, table_at(alloc, rows, place == damaged))?;
    }
    Ok(tables)
}

// The run of some tables. Fails with `Source(2)` if there are none.
fn shared<A: Allocator + Copy>(alloc: A, tables: Vec<Table<A>, A>) -> Result<Tables<A>, Error> {
    match Run::new(tables) {
        Some(run) => Ok(Arc::new(alloc, run)?),
        None => Err(Error::Source(2)),
    }
}

/// A run of the tables of some lists. Fails with `Source(2)` if there are none.
pub fn run_of<A: Allocator + Copy>(alloc: A, lists: &[&[Row<'_>]]) -> Result<Tables<A>, Error> {
    damaged_run_of(alloc, lists, lists.len())
}

/// A run of the tables of some lists, with the data block of the table at an index, if any,
/// damaged.
pub fn damaged_run_of<A: Allocator + Copy>(
    alloc: A,
    lists: &[&[Row<'_>]],
    damaged: usize,
) -> Result<Tables<A>, Error> {
    shared(alloc, tables_of(alloc, lists, damaged)?)
}

/// A run for each of some lists of tables.
pub fn runs_of<A: Allocator + Copy>(alloc: A, lists: &[Lists]) -> Result<Vec<Tables<A>, A>, Error> {
    let mut runs = Vec::new(alloc);
    for tables in lists {
        add(&mut runs, run_of(alloc, tables))?;
    }
    Ok(runs)
}

// A bound with a key of its own.
fn owned<A: Allocator + Copy>(alloc: A, bound: Bound<&[u8]>) -> Result<Bound<UserKey<A>>, Error> {
    match bound {
        Bound::Included(key) => Ok(Bound::Included(Slice::from(alloc, key)?)),
        Bound::Excluded(key) => Ok(Bound::Excluded(Slice::from(alloc, key)?)),
        Bound::Unbounded => Ok(Bound::Unbounded),
    }
}

/// Bounds with keys of their own.
pub fn owned_range<A: Allocator + Copy>(
    alloc: A,
    bounds: Bounds<'_>,
) -> Result<(Bound<UserKey<A>>, Bound<UserKey<A>>), Error> {
    Ok((owned(alloc, bounds.0)?, owned(alloc, bounds.1)?))
}

/// The name of an entry.
pub(crate) fn name_in<A: Allocator>(item: &InternalValue<A>) -> Name {
    match item.key.user_key.as_slice() {
        [byte] => (*byte, item.key.seqno),
        _ => (0, item.key.seqno),
    }
}

/// The name of an item.
pub fn name_of<A: Allocator>(item: Option<IterItem<A>>) -> Result<Option<Name>, Error> {
    match item {
        Some(Ok(item)) => Ok(Some(name_in(&item))),
        Some(Err(error)) => Err(error),
        None => Ok(None),
    }
}

/// Whether a result is right, or is `OutOfMemory` where a request may fail. A reader works without
/// the memory for its verified-block cache, so that failure causes no error.
pub fn is_right(answer: Result<bool, Error>, may_fail: bool) -> bool {
    match answer {
        Ok(right) => right,
        Err(error) => may_fail && error == Error::OutOfMemory,
    }
}
