//! All entries of one table: by a scan, and by the iterator from both ends.
use crate::digest::{Digest, code};
use crate::files::open_copy;
use crate::lending::scan_lent;
use crate::ranges::{take_all, take_from};
use lsm_tables::block::Direction;
use lsm_tables::table::Table;
use sst_blocks::Error;
use std::alloc::Global;

// Takes all that a scan yields.
#[inline(always)]
pub(crate) fn scan(table: &Table, digest: &mut Digest) -> Result<(), Error> {
    take_all(table.scan()?, digest)
}

// The kinds of iteration over a table.
#[derive(Clone, Copy)]
pub(crate) enum Walk {
    Scan,
    Lent,
    Front,
    Back,
}

fn walk_once(table: &Table, walk: Walk, digest: &mut Digest) -> Result<(), Error> {
    match walk {
        Walk::Scan => scan(table, digest),
        Walk::Lent => scan_lent(table, digest),
        Walk::Front => iterate(table, Direction::Front, digest),
        Walk::Back => iterate(table, Direction::Back, digest),
    }
}

// Takes all that a table's iterator yields from one end.
fn iterate(table: &Table, end: Direction, digest: &mut Digest) -> Result<(), Error> {
    take_from(end, table.iter()?, digest)
}

// Copies and opens a table, and iterates over it, in each pass.
pub(crate) fn walk_passes(
    alloc: Global,
    file: &[u8],
    walk: Walk,
    passes: u64,
    digest: &mut Digest,
) -> Result<(), Error> {
    let table = open_copy(alloc, file)?;
    for _ in 0..passes {
        *digest = Digest::empty();
        walk_once(&table, walk, digest)?;
    }
    Ok(())
}

/// Copies and opens a table, and scans it, in each pass.
///
/// `digest` is that of the last pass.
#[unsafe(no_mangle)]
pub extern "C" fn tool_bench_scan(
    alloc: Global,
    file: &[u8],
    passes: u64,
    digest: &mut Digest,
) -> u32 {
    code(walk_passes(alloc, file, Walk::Scan, passes, digest))
}

/// Copies and opens a table, and takes all that its iterator yields from the front, in each pass.
///
/// `digest` is that of the last pass.
#[unsafe(no_mangle)]
pub extern "C" fn tool_bench_iter(
    alloc: Global,
    file: &[u8],
    passes: u64,
    digest: &mut Digest,
) -> u32 {
    code(walk_passes(alloc, file, Walk::Front, passes, digest))
}

/// Copies and opens a table, and takes all that its iterator yields from the back, in each pass.
///
/// `digest` is that of the last pass, in that order.
#[unsafe(no_mangle)]
pub extern "C" fn tool_bench_iter_back(
    alloc: Global,
    file: &[u8],
    passes: u64,
    digest: &mut Digest,
) -> u32 {
    code(walk_passes(alloc, file, Walk::Back, passes, digest))
}
