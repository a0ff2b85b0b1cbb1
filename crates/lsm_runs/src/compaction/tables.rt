//! Compacting several runs into tables that are yielded one by one.
ghost use Rattle.std.specs.Prelude.{◌≡◌, [], IfErr, IfOk, List};
ghost use Rattle.lsm_runs.specs.compaction.Words as spec;

use crate::RunScanner;
use crate::compaction::compact::{Kept, kept_of};
use lsm_readers::Table;
use lsm_sorted::Run;
use lsm_sorted::compaction::Rules;
use lsm_writers::{MultiWriter, TableStream};
use sst_blocks::{Error, Lending};
use std::alloc::{Allocator, Global};
use std::sync::Arc;

/// A compaction of runs that yields each table as soon as it is finished.
pub type Compaction<A = Global> = TableStream<Kept<RunScanner<A>, A>, A>;

// The tables of all that is kept of some sources. Generic, so that a proof does not unfold a
// scanner's parts.
fn stream_of<L: Lending + Drop, A: Allocator + Clone>(
    source: Kept<L, A>,
    writer: MultiWriter<A>,
) -> TableStream<Kept<L, A>, A>
    requires { spec.IsFreshRun writer }
    ensures starts { let next = ⟦<Kept<L, A> as Lending>⟧.advances in
        (rs : List spec.R) → spec.YieldsResults next rs source →
        spec.UpToMemory (λ stops. spec.IsAfter stops next writer rs [] result) }
    ensures can { let can = ⟦<Kept<L, A> as Lending>⟧.can_advance in
        let next = ⟦<Kept<L, A> as Lending>⟧.advances in
        spec.CanLend next can source → spec.CanPoll next can result }
    ensures ids { result.ids ≡ writer.ids }
{
    TableStream::new(source, writer)
}

/// Compacts several runs of any opened tables, and yields each new table as soon as it is finished.
///
/// The first data block of each run is loaded by the call, in the order of the runs. Nothing is
/// written before the first table is taken. Then the compaction has in memory a block or two of each
/// run, the current table, and no table that it yielded. The runs are not changed; if it is dropped
/// early, the current table is lost.
///
/// A run without a table is ignored. Nothing is required of the runs, so a store may compact tables
/// of files that it did not verify. If the runs meet the conditions of
/// [`compact_runs`](crate::compact_runs), the tables, one after another, are those that it returns
/// ([`compaction_tables_law`]). [`TableStream::table_ids`] returns the id counter after them.
///
/// The writer must have written nothing.
///
/// # Errors
///
/// The call fails with the first fault of loading a block, or [`Error::OutOfMemory`].
///
/// The compaction yields one error, after every table that was finished before it. After that it
/// yields only `None`. The error is the first of these:
///
/// - [`TableStreamError::OutOfOrder`](lsm_writers::TableStreamError::OutOfOrder) if an entry does not
///   follow the one before it: a table does not hold what a writer makes, or a run is out of order,
///   or a key has one seqno twice;
/// - the first fault of loading a block;
/// - the errors of [`MultiWriter::write`] and [`MultiWriter::finish`]; [`Error::OutOfMemory`].
///   [`TableStream`] says what the contract leaves open.
pub fn compact_each<A: Allocator + Clone>(
    alloc: A,
    runs: &[Arc<Run<Table<A>, A>, A>],
    rules: Rules,
    writer: MultiWriter<A>,
) -> Result<Compaction<A>, Error>
    requires { spec.IsFreshRun writer }
    // For tables of lists that have entries, it is before the first table of what is kept of all
    // entries.
    ensures starts { spec.OnMergeable runs.now (λ lists. spec.StartsTables
        ⟦<Kept<RunScanner<A>, A> as Lending>⟧.advances writer
        (spec.ok_results (spec.kept_in rules lists)) result) }
    // For any tables whose scans come in order in each run, it is before the first table of what is
    // kept of their merge, each error in its position.
    ensures any { spec.OnKeptScans runs.now rules (λ rs. spec.StartsTables
        ⟦<Kept<RunScanner<A>, A> as Lending>⟧.advances writer rs result) }
    ensures can { IfOk result ⟦<Compaction<A> as Iterator>⟧.can_next }
    ensures ids { IfOk result (λ s. s.ids ≡ writer.ids) }
    ensures err { spec.AreMergeable (spec.each_run runs.now) →
        IfErr result (λ e. e ≡ spec.OutOfMemory) }
    // Except for `OutOfMemory`, the error is that of the first run whose first data block cannot be
    // loaded, if there is one.
    ensures opens { spec.Faults result (spec.first_blocks_fault (spec.each_run runs.now)) }
{
    let kept = kept_of(alloc, runs, rules)?;
    Ok(stream_of(kept, writer))
}

/// States that the tables that a compaction yields until its end are those that
/// [`compact_runs`](crate::compact_runs) returns for the same entries, with the same id counter.
/// The call does nothing: its contract states the law.
pub fn compaction_tables_law<A: Allocator>()
    ensures { spec.StreamedLaw A }
{}
