//! Packing runs into as few as possible.
ghost use Rattle.std.specs.Prelude.{◌≡◌, ◌≢◌, ◌<◌, ◌≤◌, ◌∷◌, ⊤, List, [], length};
ghost use Rattle.std.specs.Prelude.{reverse, Contains, IsSome, IfOk, IfErr, IfSome, MatchOption};
ghost use Rattle.std.specs.Prelude.{OnOk, None, Ok, Some};
ghost use Rattle.lsm_sorted.specs.Words as spec;

use crate::{KeyRange, Ranged, Run};
use sst_entries::Error;
use std::alloc::Allocator;

/// Packs the tables of some runs into as few runs as possible, with the tables of each key in the
/// same order.
///
/// At most one run is returned unchanged. Otherwise the tables are moved, in run order, into new
/// runs. Each goes into the run after the last new run that has a table overlapping it. If none
/// has, it goes into the first. No table is cloned.
///
/// The order of each key's tables is kept if all ranges are well-formed. The number of runs is
/// least if also each run has a table and its ranges do not overlap.
///
/// The new runs are searched from the last one down, with two binary searches in each. So n tables
/// in r new runs take at most about n times r times log n comparisons of keys.
///
/// # Errors
///
/// [`Error::OutOfMemory`] only. The runs are then dropped.
pub fn optimize_runs<T: Clone + Ranged + Drop, A: Allocator + Clone>(
    alloc: A,
    runs: Vec<Run<T, A>, A>,
) -> Result<Vec<Run<T, A>, A>, Error>
    ensures one { length runs.items ≤ 1 → result ≡ Ok runs }
    ensures tables { IfOk result (λ packed. spec.SameTables runs.items packed.items) }
    ensures holders { IfOk result (λ packed. spec.AreWellFormed T.range runs.items →
        spec.SameHolders T.range runs.items packed.items) }
    ensures ordered { IfOk result (λ packed. spec.AreWellFormed T.range runs.items →
        1 < length runs.items → spec.ArePacked T.range packed.items) }
    ensures placed { IfOk result (λ packed. spec.AreWellFormed T.range runs.items →
        1 < length runs.items → spec.ArePlaced T.range (spec.tables_in runs.items) packed.items) }
    ensures least { IfOk result (λ packed. spec.AreDisjointRuns T.range runs.items →
        spec.IsLeastSize T.range runs.items (length packed.items)) }
    ensures err { IfErr result (λ e. e ≡ spec.OutOfMemory) }
{
    if runs.len() <= 1 {
        Ok(runs)
    } else {
        pack(&alloc, runs)
    }
}

// Inserts the tables of some runs, one after another.
fn pack<T: Ranged + Drop, A: Allocator + Clone>(
    alloc: &A,
    runs: Vec<Run<T, A>, A>,
) -> Result<Vec<Run<T, A>, A>, Error>
    ensures ok { IfOk result (λ packed. spec.AreWellFormed T.range runs.items →
        packed.items ≡ spec.put_all T.range (spec.tables_in runs.items) []) }
    ensures permutation { IfOk result (λ packed. spec.SameTables runs.items packed.items) }
    ensures err { IfErr result (λ e. e ≡ spec.OutOfMemory) }
{
    let mut packed = Vec::new(alloc.clone()?);
    for run in runs {
        place_all(alloc, &mut packed, run.into_vec())?;
    }
    Ok(packed)
}

// Inserts tables, one after another.
fn place_all<T: Ranged + Drop, A: Allocator + Clone>(
    alloc: &A,
    packed: &mut Vec<Run<T, A>, A>,
    tables: Vec<T, A>,
) -> Result<(), Error>
    ensures ok { OnOk result (spec.AreTablesWellFormed T.range tables.items →
        spec.ArePacked T.range packed.old.items →
        packed.new.items ≡ spec.put_all T.range tables.items packed.old.items) }
    ensures permutation { OnOk result
        (spec.AddsTables packed.old.items tables.items packed.new.items) }
    ensures err { IfErr result (λ e. e ≡ spec.OutOfMemory) }
{
    for table in tables {
        place(alloc, packed, table)?;
    }
    Ok(())
}

/// Returns a chain of tables, each of which overlaps the next one, which is in a later run.
///
/// Each pair is the index of a run and of a table in it. The chain is empty only if there are no
/// tables. Suppose each run has a table and ranges in it do not overlap, and all ranges are
/// well-formed. Then the chain is as long as [`optimize_runs`] returns runs, so no fewer runs
/// suffice.
///
/// # Errors
///
/// [`Error::OutOfMemory`] only.
pub fn overlap_chain<T: Ranged, A: Allocator + Clone, B: Allocator>(
    alloc: A,
    runs: &[Run<T, B>],
) -> Result<Vec<(usize, usize), A>, Error>
    ensures chain { IfOk result (λ chain. spec.IsChain T.range runs.now chain.items) }
    ensures least { IfOk result (λ chain. spec.AreDisjointRuns T.range runs.now →
        spec.IsLeastSize T.range runs.now (length chain.items)) }
    ensures some { IfOk result (λ chain. chain.items ≡ [] → spec.tables_in runs.now ≡ []) }
    ensures err { IfErr result (λ e. e ≡ spec.OutOfMemory) }
{
    let mut packed = Vec::new(alloc.clone()?);
    pack_links(&alloc, &mut packed, runs)?;
    let mut chain = Vec::new(alloc);
    walk_down(&packed, &mut chain)?;
    chain.reverse();
    Ok(chain)
}

// A table and its position in the runs.
#[derive(Drop)]
struct Link<'a, T> {
    table: &'a T,
    run: usize,
    index: usize,
}

impl<'a, T: Ranged> Ranged for Link<'a, T> {
    type Alloc = T::Alloc;

    ghost Meaning = { T.Meaning };

    ghost meaning = { λ link. T.meaning link.table.now };

    ghost range = { λ link. T.range link.table.now };

    fn key_range(&self) -> &KeyRange<T::Alloc> {
        self.table.key_range()
    }

    ghost steady = { λ x y same. T.steady x.table.now y.table.now same };
}

fn pack_links<'a, T: Ranged, A: Allocator + Clone, B: Allocator>(
    alloc: &A,
    packed: &mut Vec<Run<Link<'a, T>, A>, A>,
    runs: &'a [Run<T, B>],
) -> Result<(), Error>
    requires { packed.old.items ≡ [] }
    ensures ok { OnOk result
        (spec.ArePackedLinks T.range (spec.runs_with_places 0 runs.now) packed.new.items) }
    ensures err { IfErr result (λ e. e ≡ spec.OutOfMemory) }
{
    for (run, tables) in runs.iter().enumerate() {
        place_links(alloc, packed, run, tables.as_slice())?;
    }
    Ok(())
}

fn place_links<'a, T: Ranged, A: Allocator + Clone>(
    alloc: &A,
    packed: &mut Vec<Run<Link<'a, T>, A>, A>,
    run: usize,
    tables: &'a [T],
) -> Result<(), Error>
    ensures ok { OnOk result (spec.AddsLinks T.range (spec.run_with_places run 0 tables.now)
        packed.old.items packed.new.items) }
    ensures err { IfErr result (λ e. e ≡ spec.OutOfMemory) }
{
    for (index, table) in tables.iter().enumerate() {
        place(alloc, packed, Link { table, run, index })?;
    }
    Ok(())
}

// Collects one table of each run, from the last run on, each of which overlaps the one before it.
fn walk_down<'a, T: Ranged, A: Allocator>(
    packed: &[Run<Link<'a, T>, A>],
    chain: &mut Vec<(usize, usize), A>,
) -> Result<(), Error>
    requires { chain.old.items ≡ [] }
    ensures chain { OnOk result ((runs : List (List T)) →
        spec.AreAtPlaces runs (spec.tables_in packed.now) →
        spec.IsChain T.range runs (reverse chain.new.items)) }
    ensures whole { OnOk result
        (spec.IsStack (spec.link_range T.range) (λ link. link.run) packed.now →
        length chain.new.items ≡ length packed.now) }
    ensures some { OnOk result (spec.AreNotEmpty packed.now →
        chain.new.items ≡ [] → packed.now ≡ []) }
    ensures err { IfErr result (λ e. e ≡ spec.OutOfMemory) }
{
    let mut above: Option<&Link<'a, T>> = None;
    for level in (0..packed.len()).rev() {
        let Some(link) = link_below(&packed[level], above) else {
            return Ok(());
        };
        chain.push((link.run, link.index))?;
        above = Some(link);
    }
    Ok(())
}

// A table of a run: any, or one that is linked to the table above, if there is one.
fn link_below<'r, 'a, T: Ranged, A: Allocator>(
    run: &'r Run<Link<'a, T>, A>,
    above: Option<&Link<'a, T>>,
) -> Option<&'r Link<'a, T>>
    ensures found { IfSome result (λ link. Contains run.now link.now ×
        MatchOption (spec.option_copied above.entry) ⊤ (λ a. spec.IsBelow T.range link.now a)) }
    ensures first { spec.option_copied above.entry ≡ None → run.now ≢ [] → IsSome result }
    ensures next { (a : spec.Link T) → spec.option_copied above.entry ≡ Some a →
        spec.FindsLinkTo T.range run.now a result }
{
    match above {
        Some(above) => link_to(run, above),
        None => run.as_slice().first(),
    }
}

fn link_to<'r, 'a, T: Ranged, A: Allocator>(
    run: &'r Run<Link<'a, T>, A>,
    above: &Link<'a, T>,
) -> Option<&'r Link<'a, T>>
    ensures found { IfSome result (λ link.
        Contains run.now link.now × spec.IsBelow T.range link.now above.now) }
    ensures next { spec.FindsLinkTo T.range run.now above.now result }
{
    let link = run.get_overlapping(above.key_range()).first()?;
    if link.run < above.run && link.key_range().overlaps_with_key_range(above.key_range()) {
        Some(link)
    } else {
        None
    }
}

// Inserts a table into the run after the last one with an overlapping table, or into the first.
fn place<T: Ranged + Drop, A: Allocator + Clone>(
    alloc: &A,
    packed: &mut Vec<Run<T, A>, A>,
    table: T,
) -> Result<(), Error>
    ensures ok { OnOk result (spec.AreInOrder T.range packed.old.items →
        packed.new.items ≡ spec.put T.range table packed.old.items) }
    ensures permutation { OnOk result
        (spec.AddsTables packed.old.items (table ∷ []) packed.new.items) }
    ensures some { OnOk result (spec.AreNotEmpty packed.old.items →
        spec.AreNotEmpty packed.new.items) }
    ensures err { IfErr result (λ e. e ≡ spec.OutOfMemory) }
{
    let level = count_to_last_touched(packed, table.key_range());
    if level < packed.len() {
        packed[level].insert_in_order(table)?;
    } else {
        let mut tables = Vec::new(alloc.clone()?);
        tables.push(table)?;
        packed.push(Run::of_tables(tables))?;
    }
    Ok(())
}

fn count_to_last_touched<T: Ranged, A: Allocator>(
    packed: &[Run<T, A>],
    range: &KeyRange<T::Alloc>,
) -> usize
    ensures value { spec.AreInOrder T.range packed.now →
        result ≡ spec.count_to_last (spec.touches T.range range.now) packed.now }
    ensures within { result ≤ length packed.now }
{
    for level in (0..packed.len()).rev() {
        if has_overlap(&packed[level], range) {
            return level + 1;
        }
    }
    0
}

fn has_overlap<T: Ranged, A: Allocator>(run: &Run<T, A>, range: &KeyRange<T::Alloc>) -> bool
    ensures { spec.IsInOrder T.range run.now → result ≡ spec.touches T.range range.now run.now }
{
    !run.get_overlapping(range).is_empty()
}
