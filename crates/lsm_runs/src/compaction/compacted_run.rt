//! Compacting several runs into one.
ghost use Rattle.std.specs.Prelude.{◌≡◌, ◌∷◌, ◌+◌, ◌<◌, ◌^◌, [], IfErr, IfOk, IfSome, MatchOption};
ghost use Rattle.std.specs.Prelude.{length};
ghost use Rattle.lsm_runs.specs.compaction.Words as spec;

use crate::compact_runs;
use crate::compaction::written_run::open_tables;
use lsm_readers::Table;
use lsm_sorted::Run;
use lsm_sorted::compaction::Rules;
use lsm_writers::{FinishedTable, MultiWriter, TableIds};
use sst_blocks::{Error, Timestamp};
use std::alloc::Allocator;
use std::sync::Arc;

// Opens finished tables without a global seqno and puts them in a run; none if there is no table.
fn run_of_tables<A: Allocator + Clone>(
    alloc: A,
    tables: Vec<FinishedTable<A>, A>,
) -> Result<Option<Run<Table<A>, A>>, Error>
    ensures run { spec.OnWritten tables.items (λ _ _ _ es _.
        IfOk result (λ r. MatchOption r (es ≡ []) (λ run. spec.IsRunOfList es 0 run))) }
    ensures cut { spec.OnWritten tables.items (λ ids target moment es _.
        IfOk result (λ r. IfSome r (λ run.
        spec.AreCutOf (spec.run_label ids target moment) target es 0 run))) }
    ensures ids { spec.OnWritten tables.items (λ ids target _ _ left.
        IfOk result (λ r. left ≡ spec.ids_behind ids target (spec.option_map_or length r 0))) }
    ensures taken { spec.OnWritten tables.items (λ _ _ _ es _.
        spec.highest_seqno es + 0 < 2 ^ 64 → IfErr result (λ e. e ≡ spec.OutOfMemory)) }
{
    let opened = open_tables(alloc, tables, 0)?;
    Ok(Run::new(opened))
}

/// Compacts several runs and puts what is kept in one run.
///
/// It calls [`compact_runs`] with a writer of tables of level 0, with consecutive ids. A table ends
/// before the next new key once its finished data blocks have at least `target_size` bytes. Then it
/// opens each table without a global seqno. There is no run if nothing is kept. It also returns the
/// id counter after the last table.
///
/// The conditions on the runs are those of [`compact_runs`].
/// [`compact_to_run_with`](crate::compact_to_run_with) has none on them: use it for tables from
/// elsewhere. The given runs are not changed.
///
/// # Errors
///
/// The errors of [`MultiWriter::new`] and [`compact_runs`]; [`Error::OutOfMemory`].
///
/// # Examples
///
/// ```
/// let rules = Rules {
///     watermark,
///     evict: true,
///     zeroing: false,
/// };
/// let made = compact_to_run(alloc, runs, rules, ids, target, Timestamp::from(0))?;
/// Ok(made)
/// ```
pub fn compact_to_run<A: Allocator + Clone>(
    alloc: A,
    runs: &[Arc<Run<Table<A>, A>, A>],
    rules: Rules,
    ids: TableIds,
    target_size: u64,
    created_at: Timestamp,
) -> Result<(Option<Run<Table<A>, A>>, TableIds), Error>
    requires { spec.AreCompactable (spec.each_run runs.now) }
    // The tables hold what is kept of all entries, one after another, and are in order.
    ensures run { (lists : spec.TableLists) → spec.RunsHold runs.now lists →
        let left = spec.kept_in rules lists in
        IfOk result (λ r. MatchOption r.0 (left ≡ []) (λ run. spec.IsRunOfList left 0 run)) }
    // The entries that are kept are cut by the target size, and the tables' ids are consecutive.
    ensures cut { spec.OnKept runs.now rules (λ es. IfOk result (λ r. IfSome r.0 (λ run.
        spec.AreCutOf (spec.run_label ids target_size created_at) target_size es 0 run))) }
    ensures ids { IfOk result (λ r.
        r.1 ≡ spec.ids_behind ids target_size (spec.option_map_or length r.0 0)) }
    // The run may be compacted again.
    ensures able { IfOk result (λ r. IfSome r.0 (λ run. spec.AreCompactable (run ∷ []))) }
    // The entries that are kept can be written again: no key has one seqno twice, and each seqno is
    // below the largest.
    ensures writable { (lists : spec.TableLists) → spec.RunsHold runs.now lists →
        IfOk result (λ _. spec.IsWritable (spec.kept_in rules lists)) }
    // Except for `OutOfMemory`, the error is the first one: of the counter, of the kept entries in
    // order, of the last table.
    ensures refused { (lists : spec.TableLists) → spec.RunsHold runs.now lists → spec.Faults result
        (spec.tables_fault ids target_size created_at (spec.kept_in rules lists)) }
    // If the tables fit and enough ids remain, the only error is `OutOfMemory`.
    ensures taken { (lists : spec.TableLists) → spec.RunsHold runs.now lists →
        spec.FitsAsTables ids target_size (spec.kept_in rules lists) →
        IfErr result (λ e. e ≡ spec.OutOfMemory) }
{
    let own = alloc.clone()?;
    let writer = MultiWriter::new(alloc.clone()?, ids, target_size, 0, created_at)?;
    let (tables, left) = compact_runs(
        own,
        runs,
        rules.watermark,
        rules.evict,
        rules.zeroing,
        writer,
    )?;
    Ok((run_of_tables(alloc, tables)?, left))
}
