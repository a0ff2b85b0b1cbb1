//! Compaction of several tables into new ones.
ghost use Rattle.std.specs.Prelude.{All};
ghost use Rattle.std.specs.Iterator.{IsFinite};
ghost use Rattle.sst_entries.specs.Stream.{CanYield, nowhere};

use crate::builds::{Written, finished, write_next};
use crate::digest::{Digest, code};
use crate::files::{open, scanners_of, tables_of};
use crate::scans::scan;
use lsm_sorted::Merger;
use lsm_sorted::compaction::stream::CompactionStream;
use lsm_tables::table::Table;
use lsm_writers::{FinishedTable, Timestamp, Writer};
use sst_blocks::{Error, IterItem, SeqNo};
use std::alloc::Global;

// Whether a table has reached the size at which the next one begins.
fn is_full(writer: &Writer, target: u64) -> bool {
    writer.metadata().file_pos.0 >= target
}

fn new_writer(alloc: Global, id: u64) -> Result<Writer, Error> {
    Writer::new(alloc, id, 0, Timestamp::from(0))
}

// Finishes a table that has entries, if all was written.
fn finish(
    writer: Writer,
    wrote: Result<(), Error>,
    out: &mut Vec<FinishedTable>,
) -> Result<(), Error> {
    if let Some(table) = finished(writer, wrote)? {
        out.push(table)?;
    }
    Ok(())
}

// Begins the next table if this one has reached its size.
fn next_table(
    alloc: Global,
    writer: &mut Writer,
    target: u64,
    out: &mut Vec<FinishedTable>,
) -> Result<(), Error> {
    if is_full(writer, target) {
        let id = (out.len() as u64).wrapping_add(2);
        let full = std::mem::replace(writer, new_writer(alloc, id)?);
        finish(full, Ok(()), out)?;
    }
    Ok(())
}

// Writes an entry, into the next table if this one has reached its size.
fn write_item(
    alloc: Global,
    writer: &mut Writer,
    item: IterItem<Global>,
    target: u64,
    out: &mut Vec<FinishedTable>,
) -> Result<(), Error> {
    let item = item?;
    next_table(alloc, writer, target, out)?;
    write_next(writer, item)
}

fn write_each<I: Iterator<Item = IterItem<Global>>>(
    alloc: Global,
    writer: &mut Writer,
    stream: &mut I,
    target: u64,
    out: &mut Vec<FinishedTable>,
) -> Result<(), Error>
    requires can { I.can_next stream.old }
    requires finite { IsFinite (I.remaining stream.old) }
{
    while let Some(item) = stream.next() {
        write_item(alloc, writer, item, target, out)?;
    }
    Ok(())
}

fn write_all<I: Iterator<Item = IterItem<Global>>>(
    alloc: Global,
    stream: &mut I,
    target: u64,
) -> Result<Vec<FinishedTable>, Error>
    requires can { I.can_next stream.old }
    requires finite { IsFinite (I.remaining stream.old) }
{
    let mut out = Vec::new(alloc);
    let mut writer = new_writer(alloc, 1)?;
    let wrote = write_each(alloc, &mut writer, stream, target, &mut out);
    finish(writer, wrote, &mut out)?;
    Ok(out)
}

// The newest version of each key of several sources, in tables of about the target size. Generic in
// the sources: a whole concrete stream makes a proof expensive.
fn compact_all<S: Iterator<Item = IterItem<Global>> + Drop>(
    alloc: Global,
    sources: Vec<S>,
    target: u64,
) -> Result<Vec<FinishedTable>, Error>
    requires can { All (CanYield S.next_gives nowhere S.can_next S.can_next) sources.items }
    requires finite { All (λ s. IsFinite (S.remaining s)) sources.items }
{
    let merger = Merger::new(alloc, sources)?;
    let mut stream = CompactionStream::new(merger, SeqNo::MAX);
    write_all(alloc, &mut stream, target)
}

// The newest version of each key of several tables, in tables of about the target size.
fn compacted(alloc: Global, tables: &[Table], target: u64) -> Result<Vec<FinishedTable>, Error> {
    compact_all(alloc, scanners_of(alloc, tables)?, target)
}

pub(crate) fn written_of(tables: &[FinishedTable]) -> Written {
    let mut written = Written::none();
    for table in tables {
        written.add(table);
    }
    written
}

fn compact_passes(
    alloc: Global,
    files: &[u8],
    lens: &[u64],
    target: u64,
    passes: u64,
    written: &mut Written,
) -> Result<(), Error> {
    let tables = tables_of(alloc, files, lens)?;
    for _ in 0..passes {
        let out = compacted(alloc, &tables, target)?;
        *written = written_of(out.as_slice());
    }
    Ok(())
}

/// Copies and opens tables, and writes the newest version of each key into tables of about `target`
/// bytes, in each pass.
///
/// The tables are concatenated in `files`, with their lengths in `lens`. `written` is what the last
/// pass wrote.
#[unsafe(no_mangle)]
pub extern "C" fn tool_bench_compact(
    alloc: Global,
    files: &[u8],
    lens: &[u64],
    target: u64,
    passes: u64,
    written: &mut Written,
) -> u32 {
    code(compact_passes(alloc, files, lens, target, passes, written))
}

fn scan_written(alloc: Global, table: FinishedTable, digest: &mut Digest) -> Result<(), Error> {
    scan(&open(alloc, table.bytes)?, digest)
}

fn scan_all(alloc: Global, tables: Vec<FinishedTable>, digest: &mut Digest) -> Result<(), Error> {
    for table in tables {
        scan_written(alloc, table, digest)?;
    }
    Ok(())
}

fn compact_and_scan(
    alloc: Global,
    files: &[u8],
    lens: &[u64],
    target: u64,
    written: &mut Written,
    digest: &mut Digest,
) -> Result<(), Error> {
    let tables = tables_of(alloc, files, lens)?;
    let out = compacted(alloc, &tables, target)?;
    *written = written_of(out.as_slice());
    *digest = Digest::empty();
    scan_all(alloc, out, digest)
}

/// Compacts as [`tool_bench_compact`] does, once, and scans the new tables.
#[unsafe(no_mangle)]
pub extern "C" fn tool_bench_compact_and_scan(
    alloc: Global,
    files: &[u8],
    lens: &[u64],
    target: u64,
    written: &mut Written,
    digest: &mut Digest,
) -> u32 {
    code(compact_and_scan(alloc, files, lens, target, written, digest))
}
