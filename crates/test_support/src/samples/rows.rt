//! The rows of a table.
ghost use Rattle.std.specs.Prelude.{IfOk};
ghost use Rattle.lsm_writers.specs.Writing.{IsFresh};

use lsm_writers::{BloomConstructionPolicy, FinishedTable, Timestamp, Writer};
use sst_blocks::{Error, InternalValue, SeqNo, Slice, ValueType};
use std::alloc::Allocator;

/// A key, a sequence number, a kind and a value.
pub type Row<'a> = (&'a [u8], SeqNo, ValueType, &'a [u8]);

/// A writer of the table 1 at level 0 and timestamp 0, without a filter.
pub fn new_writer<A: Allocator + Clone>(alloc: A) -> Result<Writer<A>, Error>
    ensures { IfOk result (λ w. IsFresh w) }
{
    let writer = Writer::new(alloc, 1, 0, Timestamp::from(0))?;
    Ok(writer.use_bloom_policy(BloomConstructionPolicy::BitsPerKey(0)))
}

/// The entry of a row.
pub fn entry<A: Allocator + Clone>(alloc: A, row: &Row<'_>) -> Result<InternalValue<A>, Error> {
    let key = Slice::from(alloc.clone()?, row.0)?;
    let value = Slice::from(alloc, row.3)?;
    Ok(InternalValue::from_components(key, value, row.1, row.2))
}

// Writes a row; `false` if it may not follow.
fn put_row<A: Allocator + Clone>(
    alloc: A,
    writer: &mut Writer<A>,
    row: &Row<'_>,
) -> Result<bool, Error> {
    let item = entry(alloc, row)?;
    if !writer.can_follow(&item.key) {
        return Ok(false);
    }
    writer.write(item)?;
    Ok(true)
}

/// Writes some rows, up to one that may not follow; `false` if there is such a row.
pub fn put_rows<A: Allocator + Clone>(
    alloc: A,
    writer: &mut Writer<A>,
    rows: &[Row<'_>],
) -> Result<bool, Error> {
    for row in rows {
        if !put_row(alloc.clone()?, writer, row)? {
            return Ok(false);
        }
    }
    Ok(true)
}

/// Returns a writer, or the error of writing. It is generic in the writer, so that a proof looks at
/// none of its parts.
pub fn written<W: Drop>(writer: W, answer: Result<(), Error>) -> Result<W, Error> {
    answer?;
    Ok(writer)
}

// Fails with `Source(0)` if a row may not follow the one before.
fn all_put(put: Result<bool, Error>) -> Result<(), Error> {
    if put? { Ok(()) } else { Err(Error::Source(0)) }
}

/// The writer, after it has written some rows. Fails with `Source(0)` if a row may not follow the
/// one before.
pub fn filled<A: Allocator + Clone>(
    mut writer: Writer<A>,
    alloc: A,
    rows: &[Row<'_>],
) -> Result<Writer<A>, Error> {
    let answer = all_put(put_rows(alloc, &mut writer, rows));
    written(writer, answer)
}

/// The table of some rows. Fails with `Source(0)` if a row may not follow the one before, and with
/// `Source(1)` if there are none.
pub fn fill<A: Allocator + Clone>(
    writer: Writer<A>,
    alloc: A,
    rows: &[Row<'_>],
) -> Result<FinishedTable<A>, Error> {
    filled(writer, alloc, rows)?
        .finish()?
        .ok_or(Error::Source(1))
}
