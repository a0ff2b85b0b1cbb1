//! Packing runs of tables, and the entries that packed runs hold.
ghost use Rattle.std.specs.Prelude.{◌≡◌, ◌≤◌, IfErr, IfOk, filter, length};
ghost use Rattle.lsm_runs.specs.compaction.Words as spec;

use lsm_readers::Table;
use lsm_sorted::{Run, optimize_runs};
use sst_blocks::Error;
use std::alloc::Allocator;
use std::sync::Arc;

/// States that the same tables in other runs, each in order, hold the same entries.
///
/// If runs in order hold a strict list together, any runs in order of their tables hold that list.
/// In a strict list no key has one seqno twice. So a point read and a range yield the same of both.
///
/// A list that is not strict is still held by runs in which each key has its tables in the same
/// order. Each table holds exactly one list, so two clauses about the lists are about the same
/// ones.
///
/// The call does nothing: its contract states the law.
pub fn packing_law()
    ensures reads { spec.PackedLaw }
    ensures kept { spec.KeptLaw }
    ensures held { spec.HeldLaw }
{}

// The tables of a run, shared.
fn share_tables<A: Allocator + Clone>(
    alloc: A,
    run: &Run<Table<A>, A>,
) -> Result<Vec<Table<A>, A>, Error>
    ensures tables { IfOk result (λ tables. tables.items ≡ run.now) }
    ensures err { IfErr result (λ e. e ≡ spec.OutOfMemory) }
{
    let mut tables = Vec::new(alloc);
    for table in run.as_slice() {
        tables.push(table.clone()?)?;
    }
    Ok(tables)
}

// The runs that have a table, their tables shared.
fn share_runs<A: Allocator + Clone>(
    alloc: A,
    runs: &[Arc<Run<Table<A>, A>, A>],
) -> Result<Vec<Run<Table<A>, A>, A>, Error>
    ensures runs { IfOk result (λ shared. shared.items ≡ filter spec.has_table
        (spec.each_run runs.now)) }
    ensures err { IfErr result (λ e. e ≡ spec.OutOfMemory) }
{
    let mut shared = Vec::new(alloc.clone()?);
    for run in runs {
        if let Some(run) = Run::new(share_tables(alloc.clone()?, run)?) {
            shared.push(run)?;
        }
    }
    Ok(shared)
}

/// Packs the tables of some runs in as few runs as possible, as [`optimize_runs`] does.
///
/// Runs without a table are left out. The tables are shared handles: no bytes are copied. The given
/// runs are not changed.
///
/// # Errors
///
/// [`Error::OutOfMemory`] only.
///
/// # Examples
///
/// ```
/// let packed = pack_runs(self.alloc.clone()?, &self.runs)?;
/// self.runs = share_all(self.alloc.clone()?, packed)?;
/// Ok(self.runs.len() as u64)
/// ```
pub fn pack_runs<A: Allocator + Clone>(
    alloc: A,
    runs: &[Arc<Run<Table<A>, A>, A>],
) -> Result<Vec<Run<Table<A>, A>, A>, Error>
    // For tables of lists in runs in order, the packed runs hold the same lists' entries, so each
    // read returns the same.
    ensures list { (lists : spec.TableLists) → spec.RunsHold runs.now lists →
        IfOk result (λ packed. spec.HoldUnion packed.items (spec.union_in lists)) }
    // If the runs may be compacted, so may the packed ones.
    ensures able { spec.AreCompactable (spec.each_run runs.now) →
        IfOk result (λ packed. spec.AreCompactable packed.items) }
    // A single run is returned unchanged, in order or not.
    ensures one { let given = filter spec.has_table (spec.each_run runs.now) in length given ≤ 1 →
        IfOk result (λ packed. packed.items ≡ given) }
    // The tables are the same, each as often.
    ensures tables { IfOk result (λ packed. spec.SameTables (spec.each_run runs.now) packed.items) }
    // For runs in order, each key has the tables whose range has it in the same order.
    ensures holders { IfOk result (λ packed. spec.AreInOrder spec.range_of (spec.each_run runs.now)
        → spec.SameHolders spec.range_of (spec.each_run runs.now) packed.items) }
    // For runs in order, if more than one has a table: a table is one run after the last run with
    // an earlier table that it overlaps. Without such a table it is in the first run.
    ensures placed { IfOk result (λ packed.
        spec.PlacesTables (spec.each_run runs.now) packed.items) }
    // For runs in order, each packed run is in order and has a table.
    ensures ordered { IfOk result (λ packed. spec.AreInOrder spec.range_of (spec.each_run runs.now)
        → spec.ArePacked spec.range_of packed.items) }
    // For runs in order, no fewer runs are possible.
    ensures least { IfOk result (λ packed. spec.AreInOrder spec.range_of (spec.each_run runs.now) →
        spec.IsLeastSize spec.range_of (spec.each_run runs.now) (length packed.items)) }
    ensures err { IfErr result (λ e. e ≡ spec.OutOfMemory) }
{
    let shared = share_runs(alloc.clone()?, runs)?;
    optimize_runs(alloc, shared)
}
