//! Packing tables that are each a run of their own.
ghost use Rattle.std.specs.Prelude.{◌≡◌, ◌∷◌, [], IfErr, IfOk};
ghost use Rattle.lsm_sorted.specs.Words as spec;

use crate::{KeyRange, Ranged, Run, optimize_runs, overlap_chain};
use sst_entries::Error;
use std::alloc::{AllocError, Allocator, Global};

/// A table and its index among the tables that it is packed with.
#[derive(Drop)]
pub struct Placed<T> {
    /// The index, counted from 0.
    pub place: usize,
    /// The table.
    pub table: T,
}

impl<T: Clone> Clone for Placed<T> {
    ghost is_clone = { λ t copy. T.is_clone t.table copy.table };

    fn clone(&self) -> Result<Placed<T>, AllocError> {
        Ok(Placed {
            place: self.place,
            table: self.table.clone()?,
        })
    }
}

impl<T: Ranged> Ranged for Placed<T> {
    type Alloc = T::Alloc;

    ghost Meaning = { T.Meaning };

    ghost meaning = { λ t. T.meaning t.table };

    ghost range = { λ t. T.range t.table };

    fn key_range(&self) -> &KeyRange<T::Alloc> {
        self.table.key_range()
    }

    ghost steady = { λ x y same. T.steady x.table y.table same };
}

/// The result of packing tables.
#[derive(Drop)]
pub struct Packed<T, A: Allocator = Global> {
    /// The runs: as few as possible if all ranges are well-formed.
    pub runs: Vec<Run<Placed<T>, A>, A>,
    /// A chain of tables, each of which overlaps the next one.
    ///
    /// Each pair is the index of a table and its index in its own run, which is 0. If all ranges
    /// are well-formed, the chain is as long as there are runs, so no fewer runs suffice.
    pub chain: Vec<(usize, usize), A>,
}

fn run_of<T: Ranged + Drop, A: Allocator>(
    alloc: A,
    place: usize,
    table: T,
) -> Result<Run<Placed<T>, A>, Error>
    ensures ok { IfOk result (λ run. run ≡ spec.indexed place table ∷ []) }
    ensures err { IfErr result (λ e. e ≡ spec.OutOfMemory) }
{
    let mut alone = Vec::new(alloc);
    alone.push(Placed { place, table })?;
    // `Run::new` returns a run for a vector with a table.
    Run::new(alone).ok_or(Error::OutOfMemory)
}

// Each table as a run of its own, with its index.
fn runs_of<T: Ranged + Drop, A: Allocator + Copy>(
    alloc: A,
    tables: Vec<T, A>,
) -> Result<Vec<Run<Placed<T>, A>, A>, Error>
    ensures ok { IfOk result (λ runs. runs.items ≡ spec.alone 0 tables.items) }
    ensures err { IfErr result (λ e. e ≡ spec.OutOfMemory) }
{
    let mut runs = Vec::new(alloc);
    for table in tables {
        let run = run_of(alloc, runs.len(), table)?;
        runs.push(run)?;
    }
    Ok(runs)
}

/// Packs tables into as few runs as possible.
///
/// Each table is a run of its own, the newest first. Each key keeps the order of its tables, and
/// the chain shows why no fewer runs suffice. This holds if all ranges are well-formed
/// ([`KeyRange::is_well_formed`]).
///
/// Whatever the ranges, the runs have each table exactly once. In the chain each table overlaps the
/// next one. The chain is empty only if there are no tables.
///
/// # Errors
///
/// [`Error::OutOfMemory`] only. The tables are then dropped.
pub fn pack_each<T: Clone + Ranged + Drop, A: Allocator + Copy>(
    alloc: A,
    tables: Vec<T, A>,
) -> Result<Packed<T, A>, Error>
    ensures same { IfOk result (λ p. spec.SameTables (spec.alone 0 tables.items) p.runs.items) }
    ensures chain { IfOk result (λ p.
        spec.IsChain (λ t. T.range t.table) (spec.alone 0 tables.items) p.chain.items) }
    ensures some { IfOk result (λ p. p.chain.items ≡ [] → tables.items ≡ []) }
    ensures packed { IfOk result (λ p. spec.AreTablesWellFormed T.range tables.items →
        spec.IsPackedOf T.range tables.items p) }
    ensures err { IfErr result (λ e. e ≡ spec.OutOfMemory) }
{
    let runs = runs_of(alloc, tables)?;
    let chain = overlap_chain(alloc, &runs)?;
    let runs = optimize_runs(alloc, runs)?;
    Ok(Packed { runs, chain })
}
