//! Lists of runs.
ghost use Rattle.std.specs.Prelude.{◌≡◌, ◌≢◌, ◌∷◌, ◌⊎◌, ◌++◌, [], IfErr, IfOk, map, true};
ghost use Rattle.sst_c.specs.Words as spec;

use crate::codes::NO_MEMORY;
use lsm_readers::Table;
use lsm_runs::{RunPlace, entry_in_runs, pack_runs};
use lsm_sorted::Run;
use sst_blocks::{EntryRef, Error};
use std::alloc::Global;
use std::marker::Model;
use std::sync::Arc;

/// A list of runs, each in order: its tables' ranges are well-formed, ascend and do not overlap.
///
/// Contracts see the tables of each run.
#[derive(Drop)]
pub struct RunList {
    runs: Vec<Arc<Run<Table>>>,
}

impl Model for RunList {
    ghost use Rattle.std.specs.Prelude.{List, map};
    ghost use Rattle.std.specs.Arc.{arc_value};
    ghost use Rattle.lsm_sorted.specs.version.Packing.{AreInOrder};
    ghost use Rattle.lsm_readers.specs.point.Table.{OpenTable};
    ghost use Rattle.lsm_run_parts.specs.RunParts.{range_of};

    ghost Value = { List (List OpenTable) };

    ghost view = { λ l. map arc_value l.runs.items };

    ghost invariant = { λ l. AreInOrder range_of (map arc_value l.runs.items) };
}

// A run of one table, with a reference to it.
fn run_of(alloc: Global, table: &Table) -> Result<Arc<Run<Table>>, Error>
    ensures run { IfOk result (λ run. spec.arc_value run ≡ table.now ∷ []) }
    ensures err { IfErr result (λ e. e ≡ spec.OutOfMemory) }
{
    let mut tables = Vec::new(alloc);
    tables.push(table.clone()?)?;
    match Run::new(tables) {
        Some(run) => Ok(Arc::new(alloc, run)?),
        None => Err(Error::OutOfMemory),
    }
}

fn share_runs(alloc: Global, runs: Vec<Run<Table>>) -> Result<Vec<Arc<Run<Table>>>, Error>
    ensures ok { IfOk result (λ shared. map spec.arc_value shared.items ≡ runs.items) }
    ensures err { IfErr result (λ e. e ≡ spec.OutOfMemory) }
{
    let mut shared = Vec::new(alloc);
    for run in runs {
        shared.push(Arc::new(alloc, run)?)?;
    }
    Ok(shared)
}

// Packs the tables of runs that are in order into the fewest runs.
fn pack(alloc: Global, runs: &[Arc<Run<Table>>]) -> Result<Vec<Arc<Run<Table>>>, Error>
    ensures packed { IfOk result
        (λ packed. spec.AreInOrder spec.range_of (map spec.arc_value runs.now) →
        spec.ArePackedOf (map spec.arc_value runs.now) (map spec.arc_value packed.items)) }
    ensures err { IfErr result (λ e. e ≡ spec.OutOfMemory) }
{
    let packed = pack_runs(alloc, runs)?;
    share_runs(alloc, packed)
}

impl RunList {
    /// Creates an empty list.
    pub(crate) fn new(alloc: Global) -> RunList
        ensures { result ≡ [] }
    {
        RunList {
            runs: Vec::new(alloc),
        }
    }

    /// Returns the runs.
    pub(crate) fn as_slice(&self) -> &[Arc<Run<Table>>]
        ensures runs { map spec.arc_value result.now ≡ self.now }
        ensures order { spec.AreInOrder spec.range_of self.now }
    {
        self.runs.as_slice()
    }

    /// Borrows the entry at a position in the tables of the runs.
    pub(crate) fn entry_at(&self, place: &RunPlace) -> Option<EntryRef<'_>>
        ensures { spec.option_map spec.entry_of_ref result ≡ spec.placed_in_runs self.now
            place.now }
    {
        entry_in_runs(self.runs.as_slice(), place)
    }

    /// Adds a run of one table at the end.
    ///
    /// Returns 0, or 1 if out of memory.
    #[tactic(auto, using(crate::proofs::Behind::map_behind, crate::proofs::RunOrder::order_behind))]
    pub(crate) fn push(&mut self, alloc: Global, table: &Table) -> u32
        requires { spec.is_well_formed (spec.range_of table.now) ≡ true }
        ensures memory { (result ≡ 0) ⊎ (result ≡ 1) }
        ensures added { result ≡ 0 → self.new ≡ self.old ++ (table.now ∷ []) ∷ [] }
        ensures left { result ≢ 0 → self.new ≡ self.old }
    {
        match run_of(alloc, table) {
            Ok(run) => match self.runs.push(run) {
                Ok(()) => 0,
                Err(refused) => {
                    drop(refused);
                    NO_MEMORY
                }
            },
            Err(error) => u32::from(error.number()),
        }
    }

    /// Packs the tables into the fewest runs, with references to them.
    pub(crate) fn packed(&self, alloc: Global) -> Result<RunList, Error>
        ensures packed { IfOk result (spec.ArePackedOf self.now) }
        ensures err { IfErr result (λ e. e ≡ spec.OutOfMemory) }
    {
        let runs = pack(alloc, self.runs.as_slice())?;
        Ok(RunList { runs })
    }
}
