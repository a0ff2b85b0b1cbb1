//! A list that is written as tables, which are opened and put in a run.
ghost use Rattle.std.specs.Prelude.{◌≡◌, ◌∷◌, ◌+◌, ◌^◌, ◌<◌, [], length, List, IfErr, IfOk, IfSome};
ghost use Rattle.std.specs.Prelude.{MatchOption, OnOk, Some, false};
ghost use Rattle.lsm_runs.specs.compaction.Words as spec;

use crate::compaction::compact::finished;
use lsm_readers::Table;
use lsm_sorted::Run;
use lsm_writers::{FinishedTable, MultiWriter, TableIds, tables_law};
use sst_blocks::{Error, InternalValue, SeqNo, Timestamp};
use std::alloc::Allocator;

// Writes the entries of a list. Fails as the writer does.
fn write_items<A: Allocator + Clone>(
    writer: &mut MultiWriter<A>,
    items: Vec<InternalValue<A>, A>,
) -> Result<(), Error>
    requires fresh { spec.IsFreshRun writer.old }
    requires list { spec.IsWritable items.items }
    ensures took { OnOk result (spec.TookList writer.old items.items writer.new) }
    ensures refused { IfErr result (λ e. spec.is_memory e ≡ false →
        spec.writes_fault writer.old items.items ≡ Some e) }
{
    for item in items {
        writer.write(item)?;
    }
    Ok(())
}

// Writes a list and finishes. Fails as the writer does.
fn write_by<A: Allocator + Clone>(
    mut writer: MultiWriter<A>,
    items: Vec<InternalValue<A>, A>,
) -> Result<(Vec<FinishedTable<A>, A>, TableIds), Error>
    requires fresh { spec.IsFreshRun writer }
    requires next { spec.RunsOn writer }
    requires list { spec.IsWritable items.items }
    ensures written { IfOk result (λ r. spec.AreWrittenBy writer items.items r.0.items r.1) }
    ensures refused { spec.Faults result (spec.writes_fault writer items.items) }
    ensures taken { spec.FitsBy writer items.items → IfErr result (λ e. e ≡ spec.OutOfMemory) }
{
    // A list whose tables fit is written whole.
    tables_law();
    let took = write_items(&mut writer, items);
    if let Err(error) = took {
        drop(writer);
        return Err(error);
    }
    finished(writer)
}

// Writes a list as tables of a target size; none if it has no entry. Fails as `MultiWriter` does.
fn write_tables<A: Allocator + Clone>(
    alloc: A,
    ids: TableIds,
    target_size: u64,
    created_at: Timestamp,
    items: Vec<InternalValue<A>, A>,
) -> Result<(Vec<FinishedTable<A>, A>, TableIds), Error>
    requires { spec.IsWritable items.items }
    ensures written { IfOk result (λ r.
        spec.AreWritten ids target_size created_at items.items r.0.items r.1) }
    ensures refused { spec.Faults result
        (spec.tables_fault ids target_size created_at items.items) }
    ensures taken { spec.FitsAsTables ids target_size items.items →
        IfErr result (λ e. e ≡ spec.OutOfMemory) }
{
    let writer = MultiWriter::new(alloc, ids, target_size, 0, created_at)?;
    write_by(writer, items)
}

// Opens a finished table, with filter and index pinned.
fn open_table<A: Allocator + Clone>(
    alloc: A,
    table: FinishedTable<A>,
    global_seqno: SeqNo,
) -> Result<Table<A>, Error>
    ensures opened { (label : spec.Label) (es : List spec.Entry) →
        spec.IsTableOf label es table.id table.checksum.0 table.bytes →
        IfOk result (λ t. spec.IsOpenedOf label es global_seqno t) }
    ensures refused { (label : spec.Label) (es : List spec.Entry) →
        spec.IsTableOf label es table.id table.checksum.0 table.bytes →
        spec.Faults result (spec.number_fault es global_seqno) }
{
    let (bytes, checksum) = (table.bytes, table.checksum);
    let opened = Table::recover(alloc, bytes, checksum, global_seqno, 0, true, true)?;
    // It is open, and its range is its list's ends.
    opened.tells_its_list();
    Ok(opened)
}

pub(crate) fn open_tables<A: Allocator + Clone>(
    alloc: A,
    tables: Vec<FinishedTable<A>, A>,
    global_seqno: SeqNo,
) -> Result<Vec<Table<A>, A>, Error>
    ensures opened { spec.OnFinished spec.default_options tables.items (λ label lists.
        IfOk result (λ v. spec.AreOpened label lists global_seqno v.items)) }
    ensures refused { spec.OnFinished spec.default_options tables.items (λ _ lists.
        spec.Faults result (spec.number_fault (spec.joined lists) global_seqno)) }
    ensures taken { spec.OnFinished spec.default_options tables.items (λ _ ls.
        spec.AllByRecursion (λ es. spec.highest_seqno es + global_seqno < 2 ^ 64) ls →
        IfErr result (λ e. e ≡ spec.OutOfMemory)) }
{
    let mut opened = Vec::new(alloc.clone()?);
    for table in tables {
        opened.push(open_table(alloc.clone()?, table, global_seqno)?)?;
    }
    Ok(opened)
}

/// Writes a list as tables of level 0, opens them and puts them in a run.
///
/// The list must be writable; see [`is_writable`](lsm_writers::is_writable). It is dropped, also if
/// the call fails, so a store that flushes passes a clone.
///
/// A table ends before the next new key once its finished data blocks, headers included, have at
/// least `target_size` bytes. So it may exceed that. The ids are consecutive. There is no run if
/// the list has no entry. The call also returns the id counter after the last table.
///
/// # Errors
///
/// The errors of [`MultiWriter::new`], [`MultiWriter::write`] and [`MultiWriter::finish`]; then
/// [`Error::GlobalSeqNoTooLarge`] if the highest seqno plus `global_seqno` passes `u64`;
/// [`Error::OutOfMemory`].
///
/// # Examples
///
/// ```
/// let (ids, created_at) = (TableIds::new(1), Timestamp::from(0));
/// let (run, ids) = write_run(alloc.clone()?, ids, target_size, created_at, items, 0)?;
/// let Some(run) = run else {
///     return Ok(None);
/// };
/// ```
pub fn write_run<A: Allocator + Clone>(
    alloc: A,
    ids: TableIds,
    target_size: u64,
    created_at: Timestamp,
    items: Vec<InternalValue<A>, A>,
    global_seqno: SeqNo,
) -> Result<(Option<Run<Table<A>, A>>, TableIds), Error>
    requires { spec.IsWritable items.items }
    // The tables hold the list, one after another, and are in order.
    ensures run { IfOk result (λ r. MatchOption r.0 (items.items ≡ [])
        (λ run. spec.IsRunOfList items.items global_seqno run)) }
    // The list is cut by the target size, and the tables' ids are consecutive.
    ensures cut { IfOk result (λ r. IfSome r.0 (λ run.
        spec.AreCutOf (spec.run_label ids target_size created_at) target_size items.items
        global_seqno run)) }
    ensures ids { IfOk result (λ r.
        r.1 ≡ spec.ids_behind ids target_size (spec.option_map_or length r.0 0)) }
    // If the list, the global seqno applied, can be written, as when each seqno stays below the
    // largest, the run may be compacted.
    ensures able { spec.IsWritable (spec.lift items.items global_seqno) →
        IfOk result (λ r. IfSome r.0 (λ run. spec.AreCompactable (run ∷ []))) }
    // Except for `OutOfMemory`, the error is the first one: of the counter, of the entries in
    // order, of the last table, of the seqnos.
    ensures refused { spec.Faults result
        (spec.chain_fault ids target_size created_at items.items global_seqno) }
    // If the tables fit, enough ids remain and no seqno is too large, the only error is
    // `OutOfMemory`.
    ensures taken { spec.FitsAsTables ids target_size items.items →
        spec.highest_seqno items.items + global_seqno < 2 ^ 64 →
        IfErr result (λ e. e ≡ spec.OutOfMemory) }
{
    let (tables, left) = write_tables(alloc.clone()?, ids, target_size, created_at, items)?;
    let opened = open_tables(alloc, tables, global_seqno)?;
    Ok((Run::new(opened), left))
}
