//! Compacting and packing the runs of a store.
ghost use Rattle.std.specs.Prelude.{◌≡◌, ◌+◌, ◌≤◌, [], ◌∷◌, ◌++◌, IfErr, IfOk, List, OnErr, OnOk};
ghost use Rattle.std.specs.Prelude.{Some, false, length, map, max, min, sum_by, true, ℕ};
ghost use Rattle.example_store.specs.Words as spec;
ghost use Rattle.lsm_tables.specs.Words.{OutOfMemory};

use crate::store::Store;
use lsm_tables::block::{Error, SeqNo};
use lsm_tables::compaction::{Rules, compact_to_run};
use lsm_tables::run::{Run, pack_runs};
use lsm_tables::table::{Table, TableIds, Timestamp};
use std::alloc::{AllocError, Allocator};
use std::sync::Arc;

/// Runs that a store shares, the newest first.
pub(crate) type Runs<A> = Vec<Arc<Run<Table<A>, A>, A>, A>;

impl<A: Allocator + Clone> Store<A> {
    /// Replaces all runs by one run of what readers at the watermark and at later snapshots see.
    ///
    /// Older snapshots are no longer kept. A watermark above [`Store::snapshot`] counts as that, so
    /// the snapshot of all writes is always kept. The memtable is not changed.
    ///
    /// # Errors
    ///
    /// Those of [`compact_to_run`]. The store is not changed then.
    pub fn compact(&mut self, watermark: SeqNo) -> Result<(), Error>
        ensures story { (ws : List spec.Entry) → spec.IsReported self.old ws →
            spec.IsReported self.new ws }
        ensures oldest { OnOk result
            (self.new.oldest ≡ max self.old.oldest (min watermark self.old.next)) }
        ensures next { self.new.next ≡ self.old.next }
        ensures limit { self.new.limit ≡ self.old.limit }
        ensures target { self.new.target ≡ self.old.target }
        ensures recent { self.new.recent ≡ self.old.recent }
        // The counter of ids is after the new run's tables.
        ensures ids { OnOk result (self.new.ids
            ≡ spec.ids_behind self.old.ids self.old.target (sum_by length self.new.runs)) }
        // At most one run is left.
        ensures few { OnOk result (length self.new.runs ≤ 1) }
        // The runs have what is kept of all that they had, cut by the target.
        ensures made { spec.OnRunLists self.old.runs (λ lists.
            OnOk result (spec.AreMadeOf self.old
            (spec.kept_in (spec.rules_by (min watermark self.old.next) true false) lists)
            self.new.runs)) }
        ensures err { OnErr result (self.new ≡ self.old) }
        // Except for `OutOfMemory`, the error is that of writing what is kept of the runs as
        // tables.
        ensures refused { spec.OnRunLists self.old.runs (λ lists.
            IfErr result (spec.FailsToWrite self.old
            (spec.kept_in (spec.rules_by (min watermark self.old.next) true false) lists))) }
    {
        let watermark = watermark.min(self.next);
        let rules = Rules {
            watermark,
            evict: true,
            zeroing: false,
        };
        let (runs, ids) = compacted(&self.alloc, &self.runs, rules, self.ids, self.target)?;
        self.runs = runs;
        self.ids = ids;
        self.oldest = self.oldest.max(watermark);
        Ok(())
    }

    /// Puts the tables of all runs in as few runs as possible.
    ///
    /// # Errors
    ///
    /// [`Error::OutOfMemory`] only. The store is not changed then.
    pub fn pack(&mut self) -> Result<(), Error>
        ensures story { (ws : List spec.Entry) → spec.IsReported self.old ws →
            spec.IsReported self.new ws }
        ensures oldest { self.new.oldest ≡ self.old.oldest }
        ensures next { self.new.next ≡ self.old.next }
        ensures limit { self.new.limit ≡ self.old.limit }
        ensures target { self.new.target ≡ self.old.target }
        ensures ids { self.new.ids ≡ self.old.ids }
        ensures recent { self.new.recent ≡ self.old.recent }
        // They have the same tables, and hold the same entries.
        ensures tables { OnOk result (spec.SameTables self.old.runs self.new.runs) }
        ensures list { (lists : spec.TableLists) → spec.RunsHoldLists self.old.runs lists →
            OnOk result (spec.HoldUnion self.new.runs (spec.union_in lists)) }
        // No fewer runs are possible.
        ensures least { OnOk result
            (spec.IsLeastSize spec.range_of self.old.runs (length self.new.runs)) }
        ensures err { OnErr result (self.new ≡ self.old) }
        ensures memory { IfErr result (λ e. e ≡ OutOfMemory) }
    {
        let packed = packed(&self.alloc, &self.runs)?;
        self.runs = packed;
        Ok(())
    }
}

// The run of what is kept of some runs, none if nothing is kept; and the counter of ids after its
// tables.
pub(crate) fn compacted<A: Allocator + Clone>(
    alloc: &A,
    runs: &[Arc<Run<Table<A>, A>, A>],
    rules: Rules,
    ids: TableIds,
    target: u64,
) -> Result<(Runs<A>, TableIds), Error>
    requires { spec.AreCompactable (spec.each_run runs.now) }
    ensures kept { (lists : spec.TableLists) → spec.RunsHold runs.now lists →
        IfOk result (λ r. spec.HaveAll (spec.kept_in rules lists) (map spec.arc_value r.0.items)) }
    ensures few { IfOk result (λ r. length r.0.items ≤ 1) }
    ensures cut { (lists : spec.TableLists) → spec.RunsHold runs.now lists →
        IfOk result (λ r. spec.AreAllCut ids target (spec.kept_in rules lists)
        (map spec.arc_value r.0.items)) }
    ensures ids { IfOk result (λ r.
        r.1 ≡ spec.ids_behind ids target (sum_by length (map spec.arc_value r.0.items))) }
    ensures able { IfOk result (λ r. spec.AreCompactable (map spec.arc_value r.0.items)) }
    ensures own { (bound : ℕ) → spec.AreOwnRuns bound (spec.each_run runs.now) →
        IfOk result (λ r. spec.AreOwnRuns bound (map spec.arc_value r.0.items)) }
    ensures refused { (lists : spec.TableLists) → spec.RunsHold runs.now lists →
        IfErr result (λ e. spec.is_memory e ≡ false → spec.tables_fault ids target 0
        (spec.kept_in rules lists) ≡ Some e) }
{
    let created_at = Timestamp::from(0);
    let (run, left) = compact_to_run(alloc.clone()?, runs, rules, ids, target, created_at)?;
    Ok((at_most_one(alloc, run)?, left))
}

// One run, shared, or none. Generic in the type of a run, so that a proof does not unfold its
// parts.
fn at_most_one<T: Drop, A: Allocator + Clone>(
    alloc: &A,
    run: Option<T>,
) -> Result<Vec<Arc<T, A>, A>, Error>
    ensures ok { IfOk result (λ shared. map spec.arc_value shared.items ≡ spec.option_list run) }
    ensures few { IfOk result (λ shared. length shared.items ≤ 1) }
    ensures memory { IfErr result (λ e. e ≡ OutOfMemory) }
{
    let mut shared = Vec::new(alloc.clone()?);
    let Some(run) = run else {
        return Ok(shared);
    };
    push_shared(&mut shared, alloc, run)?;
    Ok(shared)
}

// Adds a run, shared. Generic in the type of a run, as above.
pub(crate) fn push_shared<T: Drop, A: Allocator + Clone>(
    shared: &mut Vec<Arc<T, A>, A>,
    alloc: &A,
    run: T,
) -> Result<(), AllocError>
    ensures pushed { OnOk result (map spec.arc_value shared.new.items
        ≡ map spec.arc_value shared.old.items ++ run ∷ []) }
    ensures one { OnOk result (length shared.new.items ≡ length shared.old.items + 1) }
{
    shared.push(Arc::new(alloc.clone()?, run)?)?;
    Ok(())
}

// The tables of some runs in as few runs as possible.
fn packed<A: Allocator + Clone>(
    alloc: &A,
    runs: &[Arc<Run<Table<A>, A>, A>],
) -> Result<Runs<A>, Error>
    ensures tables { IfOk result (λ packed. spec.SameTables (spec.each_run runs.now)
        (map spec.arc_value packed.items)) }
    ensures list { (lists : spec.TableLists) → spec.RunsHold runs.now lists →
        IfOk result (λ packed. spec.HoldUnion (map spec.arc_value packed.items)
        (spec.union_in lists)) }
    ensures able { spec.AreCompactable (spec.each_run runs.now) →
        IfOk result (λ packed. spec.AreCompactable (map spec.arc_value packed.items)) }
    ensures own { (bound : ℕ) → spec.AreInOrder spec.range_of (spec.each_run runs.now) →
        spec.AreOwnRuns bound (spec.each_run runs.now) →
        IfOk result (λ r. spec.AreOwnRuns bound (spec.each_run r.items)) }
    ensures least { IfOk result (λ packed. spec.AreInOrder spec.range_of (spec.each_run runs.now) →
        spec.IsLeastSize spec.range_of (spec.each_run runs.now)
        (length (map spec.arc_value packed.items))) }
    ensures memory { IfErr result (λ e. e ≡ OutOfMemory) }
{
    let packed = pack_runs(alloc.clone()?, runs)?;
    share_all(alloc, packed)
}

// Runs, shared. Generic in the type of a run, as above.
fn share_all<T: Drop, A: Allocator + Clone>(
    alloc: &A,
    runs: Vec<T, A>,
) -> Result<Vec<Arc<T, A>, A>, Error>
    ensures ok { IfOk result (λ shared. map spec.arc_value shared.items ≡ runs.items) }
    ensures memory { IfErr result (λ e. e ≡ OutOfMemory) }
{
    let mut shared = Vec::new(alloc.clone()?);
    for run in runs {
        push_shared(&mut shared, alloc, run)?;
    }
    Ok(shared)
}
