//! Entries within bounds, of one table and of several runs.
ghost use Rattle.std.specs.Iterator.{IsFinite};

use crate::digest::{Digest, code};
use crate::files::{open_copy, tables_of};
use crate::lending::{drain_front, read_runs_lent};
use lsm_sorted::{NewestOf, Run};
use lsm_tables::block::Direction;
use lsm_tables::run::range_runs;
use lsm_tables::table::Table;
use sst_blocks::{Error, IterItem, Slice};
use std::alloc::Global;
use std::ops::Bound;
use std::sync::Arc;

// Takes all that an iterator yields. Generic in it, so that a caller passes a large one on and does
// not drop its parts.
pub(crate) fn take_all<I: Iterator<Item = IterItem<Global>> + Drop>(
    mut items: I,
    digest: &mut Digest,
) -> Result<(), Error>
    requires can { I.can_next items }
    requires finite { IsFinite (I.remaining items) }
{
    while let Some(item) = items.next() {
        digest.add(&item?);
    }
    Ok(())
}

// Takes all that an iterator yields from one end. Generic in it, so that a proof unfolds its parts
// once for both ends.
pub(crate) fn take_from<I: DoubleEndedIterator<Item = IterItem<Global>> + Drop>(
    end: Direction,
    items: I,
    digest: &mut Digest,
) -> Result<(), Error>
    requires can { I.can_next items }
    requires can_back { I.can_next_back items }
    requires finite { IsFinite (I.remaining items) }
{
    match end {
        Direction::Front => take_all(items, digest),
        Direction::Back => take_all(items.rev(), digest),
    }
}

// Takes the first `count` entries, or all if there are fewer.
fn take_front<I: Iterator<Item = IterItem<Global>> + Drop>(
    items: I,
    count: usize,
    digest: &mut Digest,
) -> Result<(), Error>
    requires can { I.can_next items }
    requires finite { IsFinite (I.remaining items) }
{
    let mut left = count;
    for item in items {
        if left == 0 {
            break;
        }
        left -= 1;
        digest.add(&item?);
    }
    Ok(())
}

// Reads some entries from a key on, lent or owned.
fn range_once(
    table: &Table,
    from: Slice,
    count: usize,
    lent: bool,
    digest: &mut Digest,
) -> Result<(), Error> {
    let items = table.range(Bound::Included(from), Bound::Unbounded)?;
    if lent {
        drain_front(items, count, digest)
    } else {
        take_front(items, count, digest)
    }
}

// Reads some entries from each of the concatenated keys on.
fn range_each(
    alloc: Global,
    table: &Table,
    keys: &[u8],
    key_len: usize,
    count: usize,
    lent: bool,
    digest: &mut Digest,
) -> Result<(), Error> {
    let mut rest = keys;
    for _ in 0..keys.len() {
        let Some((key, after)) = rest.split_at_checked(key_len) else {
            break;
        };
        rest = after;
        range_once(table, Slice::from(alloc, key)?, count, lent, digest)?;
    }
    Ok(())
}

// Copies and opens a table, and reads some entries from each key on, lent or owned, in each pass.
pub(crate) fn range_passes(
    alloc: Global,
    file: &[u8],
    keys: &[u8],
    key_len: usize,
    count: usize,
    lent: bool,
    passes: u64,
    digest: &mut Digest,
) -> Result<(), Error> {
    let table = open_copy(alloc, file)?;
    for _ in 0..passes {
        *digest = Digest::empty();
        range_each(alloc, &table, keys, key_len, count, lent, digest)?;
    }
    Ok(())
}

/// Copies and opens a table, and takes the first `count` entries from each key on, in each pass.
///
/// The keys have one length and are concatenated; an incomplete last one is ignored. `digest` is
/// that of the last pass.
#[unsafe(no_mangle)]
pub extern "C" fn tool_bench_range(
    alloc: Global,
    file: &[u8],
    keys: &[u8],
    key_len: usize,
    count: usize,
    passes: u64,
    digest: &mut Digest,
) -> u32 {
    code(range_passes(alloc, file, keys, key_len, count, false, passes, digest))
}

// A run for each table.
fn runs_of(alloc: Global, tables: Vec<Table>) -> Result<Vec<Arc<Run<Table>>>, Error> {
    let mut runs = Vec::new(alloc);
    for table in tables {
        let mut of_one = Vec::new(alloc);
        of_one.push(table)?;
        if let Some(run) = Run::new(of_one) {
            runs.push(Arc::new(alloc, run)?)?;
        }
    }
    Ok(runs)
}

// Takes all newest versions of some sources. Generic in these: a whole concrete stream makes a
// proof expensive.
pub(crate) fn take_newest<S: Iterator<Item = IterItem<Global>> + Drop>(
    items: NewestOf<S, Global>,
    digest: &mut Digest,
) -> Result<(), Error>
    requires can { ⟦<NewestOf<S, Global> as Iterator>⟧.can_next items }
    requires finite { IsFinite (⟦<NewestOf<S, Global> as Iterator>⟧.remaining items) }
{
    take_all(items, digest)
}

#[tactic(auto, using(sst_entries::proofs::StreamLemmas::can_now))]
fn read_runs(alloc: Global, runs: &[Arc<Run<Table>>], digest: &mut Digest) -> Result<(), Error> {
    take_newest(
        range_runs(alloc, runs, (Bound::Unbounded, Bound::Unbounded))?,
        digest,
    )
}

fn runs_once(
    alloc: Global,
    runs: &[Arc<Run<Table>>],
    lent: bool,
    digest: &mut Digest,
) -> Result<(), Error> {
    if lent {
        read_runs_lent(alloc, runs, digest)
    } else {
        read_runs(alloc, runs, digest)
    }
}

// Copies and opens tables as runs, and iterates over their newest versions, lent or owned, in each
// pass.
pub(crate) fn runs_passes(
    alloc: Global,
    files: &[u8],
    lens: &[u64],
    lent: bool,
    passes: u64,
    digest: &mut Digest,
) -> Result<(), Error> {
    let runs = runs_of(alloc, tables_of(alloc, files, lens)?)?;
    for _ in 0..passes {
        *digest = Digest::empty();
        runs_once(alloc, &runs, lent, digest)?;
    }
    Ok(())
}

/// Copies and opens tables, each as a run, and takes the newest version of each key of all runs, in
/// each pass.
///
/// The tables are concatenated in `files`, with their lengths in `lens`. `digest` is that of the
/// last pass.
#[unsafe(no_mangle)]
pub extern "C" fn tool_bench_range_runs(
    alloc: Global,
    files: &[u8],
    lens: &[u64],
    passes: u64,
    digest: &mut Digest,
) -> u32 {
    code(runs_passes(alloc, files, lens, false, passes, digest))
}
