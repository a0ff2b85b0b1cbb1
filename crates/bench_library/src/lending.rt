//! The same workloads with borrowed entries.
ghost use Rattle.std.specs.Prelude.{All, IfOk};
ghost use Rattle.lsm_runs.specs.RunLists.{CanLend};

use crate::digest::{Digest, code};
use crate::files::scanners_of;
use crate::merges::merge_passes;
use crate::ranges::{range_passes, runs_passes};
use crate::scans::{Walk, walk_passes};
use lsm_sorted::{LendingMerger, LendingNewest, Run};
use lsm_tables::run::{LentNewestOf, lend_runs_at};
use lsm_tables::table::Table;
use sst_blocks::{Error, Lending};
use std::alloc::Global;
use std::ops::Bound;
use std::sync::Arc;

// Iterates over all that is lent.
fn drain<L: Lending>(source: &mut L, digest: &mut Digest) -> Result<(), Error>
    requires { CanLend L.advances L.can_advance source.old }
{
    while source.advance()? {
        if let Some(entry) = source.entry() {
            digest.add_lent(&entry);
        }
    }
    Ok(())
}

// Iterates over all that a scan lends.
pub(crate) fn scan_lent(table: &Table, digest: &mut Digest) -> Result<(), Error> {
    let mut scanner = table.scan()?;
    drain(&mut scanner, digest)
}

/// Copies and opens a table, and iterates over all that its scan lends, in each pass.
///
/// `digest` is that of the last pass.
#[unsafe(no_mangle)]
pub extern "C" fn tool_bench_scan_lent(
    alloc: Global,
    file: &[u8],
    passes: u64,
    digest: &mut Digest,
) -> u32 {
    code(walk_passes(alloc, file, Walk::Lent, passes, digest))
}

// The newest version of each key of several sources. Generic, so that a proof does not unfold their
// parts.
fn newest_of<L: Lending + Drop>(
    alloc: Global,
    sources: Vec<L>,
) -> Result<LendingNewest<LendingMerger<L>>, Error>
    requires { All (CanLend L.advances L.can_advance) sources.items }
    ensures { IfOk result (CanLend ⟦<LendingNewest<LendingMerger<L>> as Lending>⟧.advances
        ⟦<LendingNewest<LendingMerger<L>> as Lending>⟧.can_advance) }
{
    let merger = LendingMerger::new(alloc, sources)?;
    Ok(LendingNewest::new(alloc, merger))
}

// Iterates over lent newest versions. Generic in their sources.
fn drain_newest<L: Lending + Drop>(
    newest: &mut LentNewestOf<L, Global>,
    digest: &mut Digest,
) -> Result<(), Error>
    requires { CanLend ⟦<LentNewestOf<L, Global> as Lending>⟧.advances
        ⟦<LentNewestOf<L, Global> as Lending>⟧.can_advance newest.old }
{
    drain(newest, digest)
}

// Iterates over the newest versions of several tables.
pub(crate) fn merge_lent(
    alloc: Global,
    tables: &[Table],
    digest: &mut Digest,
) -> Result<(), Error> {
    let mut newest = newest_of(alloc, scanners_of(alloc, tables)?)?;
    drain_newest(&mut newest, digest)
}

/// Copies and opens tables, and iterates over the lent newest version of each key of all of them,
/// in each pass.
///
/// The tables are concatenated in `files`, with their lengths in `lens`. `digest` is that of the
/// last pass.
#[unsafe(no_mangle)]
pub extern "C" fn tool_bench_merge_lent(
    alloc: Global,
    files: &[u8],
    lens: &[u64],
    passes: u64,
    digest: &mut Digest,
) -> u32 {
    code(merge_passes(alloc, files, lens, true, passes, digest))
}

// Iterates over the first `count` lent entries, or all if there are fewer.
pub(crate) fn drain_front<L: Lending + Drop>(
    mut source: L,
    count: usize,
    digest: &mut Digest,
) -> Result<(), Error>
    requires { CanLend L.advances L.can_advance source }
{
    for _ in 0..count {
        if !source.advance()? {
            break;
        }
        if let Some(entry) = source.entry() {
            digest.add_lent(&entry);
        }
    }
    Ok(())
}

/// Copies and opens a table, and iterates over the first `count` lent entries from each key on, in
/// each pass.
///
/// The keys have one length and are concatenated; an incomplete last one is ignored. `digest` is
/// that of the last pass.
#[unsafe(no_mangle)]
pub extern "C" fn tool_bench_range_lent(
    alloc: Global,
    file: &[u8],
    keys: &[u8],
    key_len: usize,
    count: usize,
    passes: u64,
    digest: &mut Digest,
) -> u32 {
    code(range_passes(alloc, file, keys, key_len, count, true, passes, digest))
}

// Iterates over the newest versions of several runs.
pub(crate) fn read_runs_lent(
    alloc: Global,
    runs: &[Arc<Run<Table>>],
    digest: &mut Digest,
) -> Result<(), Error> {
    let whole = (Bound::Unbounded, Bound::Unbounded);
    let mut newest = lend_runs_at(alloc, runs, whole, u64::MAX)?;
    drain_newest(&mut newest, digest)
}

/// Copies and opens tables, each as a run, and iterates over the lent newest version of each key of
/// all runs, in each pass.
///
/// The tables are concatenated in `files`, with their lengths in `lens`. `digest` is that of the
/// last pass.
#[unsafe(no_mangle)]
pub extern "C" fn tool_bench_range_runs_lent(
    alloc: Global,
    files: &[u8],
    lens: &[u64],
    passes: u64,
    digest: &mut Digest,
) -> u32 {
    code(runs_passes(alloc, files, lens, true, passes, digest))
}
