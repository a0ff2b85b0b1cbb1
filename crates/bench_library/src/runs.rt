//! Compaction of several runs by `compact_runs` and by `compact_each`.
//!
//! It requires runs of tables that were written from lists, which cannot be shown of bytes from
//! outside. So the lists are passed in and written here.
ghost use Rattle.std.specs.Prelude.{◌≡◌, ◌++◌, IfOk, IsPermutation, OnOk, map};
ghost use Rattle.std.specs.Arc.{arc_value};
ghost use Rattle.std.specs.Iterator.{IsFinite};
ghost use Rattle.lsm_writers.specs.Writing.{IsWritable};
ghost use Rattle.lsm_runs.specs.compaction.Compacted.{AreCompactable};
ghost use Rattle.lsm_runs.specs.compaction.ListRuns.{HasList, HaveAll};

use crate::builds::{Written, first_item};
use crate::compactions::written_of;
use crate::digest::code;
use lsm_sorted::Run;
use lsm_tables::compaction::{Rules, compact_each, compact_runs};
use lsm_tables::run::write_run;
use lsm_tables::table::Table;
use lsm_writers::{FinishedTable, MultiWriter, TableIds, TableStreamError, Timestamp, is_writable};
use sst_blocks::{Error, InternalValue, SeqNo};
use std::alloc::Global;
use std::sync::Arc;

// A list of concatenated keys and values, all entries with one seqno.
fn list_of(
    alloc: Global,
    store: &[u8],
    key_len: usize,
    value_len: usize,
    seqno: SeqNo,
) -> Result<Vec<InternalValue>, Error>
    ensures { IfOk result (λ items. IsWritable items.items) }
{
    let mut items = Vec::new(alloc);
    let mut rest = store;
    for _ in 0..store.len() {
        if rest.is_empty() {
            break;
        }
        let (item, after) = first_item(alloc, rest, key_len, value_len, seqno)?;
        rest = after;
        items.push(item)?;
    }
    if is_writable(&items) {
        Ok(items)
    } else {
        Err(Error::Source(3))
    }
}

// An entry that shares another one's key and value.
fn share(item: &InternalValue) -> Result<InternalValue, Error>
    ensures { IfOk result (λ e. e ≡ item.now) }
{
    let (key, value) = (item.key.user_key.clone()?, item.value.clone()?);
    Ok(InternalValue::from_components(key, value, item.key.seqno, item.key.value_type))
}

// Adds entries after others.
fn share_behind(all: &mut Vec<InternalValue>, items: &[InternalValue]) -> Result<(), Error>
    ensures { OnOk result (all.new.items ≡ all.old.items ++ items.now) }
{
    for item in items {
        all.push(share(item)?)?;
    }
    Ok(())
}

// The run of a list, all of it in one table.
fn run_of(alloc: Global, items: Vec<InternalValue>) -> Result<Arc<Run<Table>>, Error>
    requires { IsWritable items.items }
    ensures { IfOk result (λ run. HasList items.items (arc_value run)) }
{
    let (ids, created_at) = (TableIds::new(1), Timestamp::from(0));
    let (run, _) = write_run(alloc, ids, u64::MAX, created_at, items, 0)?;
    match run {
        Some(run) => Ok(Arc::new(alloc, run)?),
        None => Err(Error::Source(2)),
    }
}

// Sorts entries by key ascending and seqno descending.
fn put_in_order(all: &mut Vec<InternalValue>)
    ensures { IsPermutation all.old.items all.new.items }
{
    all.sort_unstable_by(|x: &InternalValue, y: &InternalValue| x.key.cmp(&y.key));
}

// Writes the run of a list, and adds its entries after those of the runs before it.
fn add_run(
    alloc: Global,
    items: Vec<InternalValue>,
    all: &mut Vec<InternalValue>,
    runs: &mut Vec<Arc<Run<Table>>>,
) -> Result<(), Error>
    requires { IsWritable items.items }
    ensures { HaveAll all.old.items (map arc_value runs.old.items) →
        OnOk result (HaveAll all.new.items (map arc_value runs.new.items)) }
{
    share_behind(all, &items)?;
    runs.push(run_of(alloc, items)?)?;
    Ok(())
}

// A run of each of some concatenated lists, whose lengths in bytes are `lens`. The seqno of the
// first is the number of lists, and that of each further one is one less.
fn runs_of(
    alloc: Global,
    lists: &[u8],
    lens: &[u64],
    key_len: usize,
    value_len: usize,
) -> Result<Vec<Arc<Run<Table>>>, Error>
    ensures { IfOk result (λ runs. AreCompactable (map arc_value runs.items)) }
{
    let mut runs = Vec::new(alloc);
    let mut all = Vec::new(alloc);
    let mut rest = lists;
    let mut seqno = lens.len() as u64;
    for len in lens {
        let Some((list, after)) = rest.split_at_checked(*len as usize) else {
            return Err(Error::Source(1));
        };
        rest = after;
        let items = list_of(alloc, list, key_len, value_len, seqno)?;
        seqno = seqno.wrapping_sub(1);
        add_run(alloc, items, &mut all, &mut runs)?;
    }
    put_in_order(&mut all);
    if is_writable(&all) {
        Ok(runs)
    } else {
        Err(Error::Source(3))
    }
}

// The newest version of each key, in tables of about the target size.
fn compacted(
    alloc: Global,
    runs: &[Arc<Run<Table>>],
    target: u64,
) -> Result<Vec<FinishedTable>, Error>
    requires { AreCompactable (map arc_value runs.now) }
{
    let writer = MultiWriter::new(alloc, TableIds::new(1), target, 0, Timestamp::from(0))?;
    let (tables, _) = compact_runs(alloc, runs, SeqNo::MAX, false, false, writer)?;
    Ok(tables)
}

// What a compaction writes. Each table is dropped before the next one is written.
fn written_by<I: Iterator<Item = Result<FinishedTable, TableStreamError>> + Drop>(
    tables: I,
) -> Result<Written, Error>
    requires { I.can_next tables × IsFinite (I.remaining tables) }
{
    let mut written = Written::none();
    for table in tables {
        match table {
            Ok(table) => written.add(&table),
            Err(TableStreamError::Failed(error)) => return Err(error),
            Err(TableStreamError::OutOfOrder) => return Err(Error::Source(3)),
        }
    }
    Ok(written)
}

// Compacts runs into the tables that `compacted` returns, and drops each one before the next.
fn compacted_each(alloc: Global, runs: &[Arc<Run<Table>>], target: u64) -> Result<Written, Error> {
    let writer = MultiWriter::new(alloc, TableIds::new(1), target, 0, Timestamp::from(0))?;
    let rules = Rules {
        watermark: SeqNo::MAX,
        evict: false,
        zeroing: false,
    };
    written_by(compact_each(alloc, runs, rules, writer)?)
}

fn compact_each_passes(
    alloc: Global,
    lists: &[u8],
    lens: &[u64],
    key_len: usize,
    value_len: usize,
    target: u64,
    passes: u64,
    written: &mut Written,
) -> Result<(), Error> {
    let runs = runs_of(alloc, lists, lens, key_len, value_len)?;
    for _ in 0..passes {
        *written = compacted_each(alloc, &runs, target)?;
    }
    Ok(())
}

fn compact_passes(
    alloc: Global,
    lists: &[u8],
    lens: &[u64],
    key_len: usize,
    value_len: usize,
    target: u64,
    passes: u64,
    written: &mut Written,
) -> Result<(), Error> {
    let runs = runs_of(alloc, lists, lens, key_len, value_len)?;
    for _ in 0..passes {
        let tables = compacted(alloc, &runs, target)?;
        *written = written_of(tables.as_slice());
    }
    Ok(())
}

/// Writes each list as a table, opens it as a run, and compacts the runs by [`compact_runs`], in
/// each pass.
///
/// The newest version of each key is written into tables of about `target` bytes. The lists are
/// concatenated in `lists`, with their lengths in bytes in `lens`. Keys have one length, and so
/// have values. The seqno of the first list is the number of lists, and that of each further one is
/// one less. `written` is what the last pass wrote.
#[unsafe(no_mangle)]
pub extern "C" fn tool_bench_compact_runs(
    alloc: Global,
    lists: &[u8],
    lens: &[u64],
    key_len: usize,
    value_len: usize,
    target: u64,
    passes: u64,
    written: &mut Written,
) -> u32 {
    code(compact_passes(
        alloc, lists, lens, key_len, value_len, target, passes, written,
    ))
}

/// Works as [`tool_bench_compact_runs`] does, by [`compact_each`]: each table is dropped before the
/// next one is written.
#[unsafe(no_mangle)]
pub extern "C" fn tool_bench_compact_each(
    alloc: Global,
    lists: &[u8],
    lens: &[u64],
    key_len: usize,
    value_len: usize,
    target: u64,
    passes: u64,
    written: &mut Written,
) -> u32 {
    code(compact_each_passes(
        alloc, lists, lens, key_len, value_len, target, passes, written,
    ))
}
