//! Compacting a part of the runs of a store.
ghost use Rattle.std.specs.Prelude.{◌≡◌, ◌++◌, IfErr, IfOk, List, OnErr, OnOk, Some, drop, false};
ghost use Rattle.std.specs.Prelude.{map, max, min};
ghost use Rattle.example_store.specs.Words as spec;
ghost use Rattle.lsm_tables.specs.Words.{OutOfMemory};

use crate::store::Store;
use crate::store::compact::compacted;
use lsm_tables::block::{Error, SeqNo};
use lsm_tables::compaction::Rules;
use lsm_tables::run::Run;
use lsm_tables::table::{Table, TableIds};
use std::alloc::Allocator;
use std::sync::Arc;

impl<A: Allocator + Clone> Store<A> {
    /// Replaces the runs from index `from` up to `to`, exclusive, by one run of what readers at the
    /// watermark and at later snapshots see.
    ///
    /// The newest run has index 0. An index after the last run counts as the end. If `from` is not
    /// below `to`, no run is compacted. The other runs and the memtable are not changed, so
    /// tombstones are kept.
    ///
    /// Older snapshots are no longer kept. A watermark above [`Store::snapshot`] counts as that.
    ///
    /// # Errors
    ///
    /// Those of [`Store::compact`]. The store is not changed then.
    pub fn compact_part(&mut self, from: usize, to: usize, watermark: SeqNo) -> Result<(), Error>
        ensures story { (ws : List spec.Entry) → spec.IsReported self.old ws →
            spec.IsReported self.new ws }
        ensures oldest { OnOk result
            (self.new.oldest ≡ max self.old.oldest (min watermark self.old.next)) }
        ensures next { self.new.next ≡ self.old.next }
        ensures limit { self.new.limit ≡ self.old.limit }
        ensures target { self.new.target ≡ self.old.target }
        ensures recent { self.new.recent ≡ self.old.recent }
        // The part has what is kept of all that it had, the other runs are unchanged, and the
        // counter of ids is after the new tables.
        ensures made { spec.OnRunLists (spec.part_runs from to self.old.runs) (λ lists.
            OnOk result (spec.IsPartKept from to (min watermark self.old.next) lists self.old
            self.new)) }
        ensures err { OnErr result (self.new ≡ self.old) }
        // Except for `OutOfMemory`, the error is that of writing what is kept of the part as
        // tables.
        ensures refused { spec.OnRunLists (spec.part_runs from to self.old.runs) (λ ls.
            IfErr result (spec.FailsToWrite self.old
            (spec.kept_in (spec.rules_by (min watermark self.old.next) false false) ls))) }
    {
        let watermark = watermark.min(self.next);
        let (front, part, behind) = cut_out(&self.runs, from, to);
        let rules = Rules {
            watermark,
            evict: false,
            zeroing: false,
        };
        let (made, ids) = compacted(&self.alloc, part, rules, self.ids, self.target)?;
        let runs = side_by_side(&self.alloc, front, &made, behind)?;
        self.runs = runs;
        self.ids = ids;
        self.oldest = self.oldest.max(watermark);
        Ok(())
    }
}

// The runs before a part, the part, and the runs after it.
fn cut_out<A: Allocator>(
    runs: &[Arc<Run<Table<A>, A>, A>],
    from: usize,
    to: usize,
) -> (
    &[Arc<Run<Table<A>, A>, A>],
    &[Arc<Run<Table<A>, A>, A>],
    &[Arc<Run<Table<A>, A>, A>],
)
    ensures front { map spec.arc_value result.0.now ≡ spec.front_runs from to
        (spec.each_run runs.now) }
    ensures part { map spec.arc_value result.1.now ≡ spec.part_runs from to (spec.each_run runs.now) }
    ensures behind { map spec.arc_value result.2.now ≡ drop to (spec.each_run runs.now) }
{
    let (upper, behind) = runs.split_at(to.min(runs.len()));
    let (front, part) = upper.split_at(from.min(upper.len()));
    (front, part, behind)
}

// Adds runs, shared, after others. Generic in the type of a run, so that a proof does not unfold
// its parts.
fn share_behind<T: Drop, A: Allocator>(
    shared: &mut Vec<Arc<T, A>, A>,
    runs: &[Arc<T, A>],
) -> Result<(), Error>
    ensures runs { OnOk result (map spec.arc_value shared.new.items
        ≡ map spec.arc_value shared.old.items ++ map spec.arc_value runs.now) }
    ensures memory { IfErr result (λ e. e ≡ OutOfMemory) }
{
    for run in runs {
        shared.push(run.clone()?)?;
    }
    Ok(())
}

// Adjacent runs, shared.
fn side_by_side<T: Drop, A: Allocator + Clone>(
    alloc: &A,
    front: &[Arc<T, A>],
    made: &[Arc<T, A>],
    behind: &[Arc<T, A>],
) -> Result<Vec<Arc<T, A>, A>, Error>
    ensures runs { IfOk result (λ runs. map spec.arc_value runs.items
        ≡ map spec.arc_value front.now
        ++ (map spec.arc_value made.now ++ map spec.arc_value behind.now)) }
    ensures memory { IfErr result (λ e. e ≡ OutOfMemory) }
{
    let mut runs = Vec::new(alloc.clone()?);
    share_three(&mut runs, front, made, behind)?;
    Ok(runs)
}

// Adds three parts, shared, one after another; each may fail.
fn share_three<T: Drop, A: Allocator>(
    shared: &mut Vec<Arc<T, A>, A>,
    front: &[Arc<T, A>],
    made: &[Arc<T, A>],
    behind: &[Arc<T, A>],
) -> Result<(), Error>
    ensures runs { OnOk result (map spec.arc_value shared.new.items
        ≡ map spec.arc_value shared.old.items ++ (map spec.arc_value front.now
        ++ (map spec.arc_value made.now ++ map spec.arc_value behind.now))) }
    ensures memory { IfErr result (λ e. e ≡ OutOfMemory) }
{
    share_behind(shared, front)?;
    share_behind(shared, made)?;
    share_behind(shared, behind)
}
