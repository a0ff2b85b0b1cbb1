//! Opening tables from bytes, one table or several that are concatenated.
use crate::digest::code;
use lsm_tables::table::{Scanner, Table};
use sst_blocks::{Checksum, Error, Slice};
use std::alloc::Global;

pub(crate) fn open(alloc: Global, bytes: Slice) -> Result<Table, Error> {
    Table::recover(alloc, bytes, Checksum(0), 0, 0, true, true)
}

pub(crate) fn open_copy(alloc: Global, file: &[u8]) -> Result<Table, Error> {
    open(alloc, Slice::from(alloc, file)?)
}

// The tables of concatenated files.
pub(crate) fn tables_of(alloc: Global, files: &[u8], lens: &[u64]) -> Result<Vec<Table>, Error> {
    let mut tables = Vec::new(alloc);
    let mut rest = files;
    for len in lens {
        let Some((file, after)) = rest.split_at_checked(*len as usize) else {
            return Err(Error::Source(1));
        };
        rest = after;
        tables.push(open_copy(alloc, file)?)?;
    }
    Ok(tables)
}

pub(crate) fn scanners_of(alloc: Global, tables: &[Table]) -> Result<Vec<Scanner>, Error> {
    let mut scanners = Vec::new(alloc);
    for table in tables {
        scanners.push(table.scan()?)?;
    }
    Ok(scanners)
}

fn open_times(alloc: Global, file: &[u8], times: u64, last_id: &mut u64) -> Result<(), Error> {
    let bytes = Slice::from(alloc, file)?;
    for _ in 0..times {
        let table = open(alloc, bytes.clone()?)?;
        *last_id = table.id();
    }
    Ok(())
}

/// Copies a table's bytes once, and opens it `times` times; `last_id` is the id of the last one.
#[unsafe(no_mangle)]
pub extern "C" fn tool_bench_open(
    alloc: Global,
    file: &[u8],
    times: u64,
    last_id: &mut u64,
) -> u32 {
    code(open_times(alloc, file, times, last_id))
}
