//! Compacting several runs of any tables, with a filter, a callback and an observer.
ghost use Rattle.std.specs.Prelude.{◌≡◌, ◌≢◌, ◌++◌, ◌∷◌, [], All, false, true, Err, IfErr, IfOk};
ghost use Rattle.std.specs.Prelude.{IsTrue, List, None, Ok, OnErr, OnOk};
ghost use Rattle.lsm_runs.specs.compaction.Words as spec;

use crate::compaction::compact::{Compacted, finished, scanners_of};
use crate::{CompactionObserver, CompactionProgress, RunScanner};
use lsm_readers::Table;
use lsm_sorted::compaction::Rules;
use lsm_sorted::compaction::lending::{LendingCompaction, LentCallback, LentFilter};
use lsm_sorted::{LendingMerger, Run};
use lsm_writers::{FinishedTable, MultiWriter, TableIds, tables_law};
use sst_blocks::{EntryRef, Error, Lending};
use std::alloc::{Allocator, Global};
use std::sync::Arc;

/// The result of a compaction of any tables.
#[derive(Drop)]
#[derive_where(Debug)]
pub enum CompactionOutcome<A: Allocator = Global> {
    /// The finished tables, none if nothing is kept, and the writer's id counter after them.
    Tables(Vec<FinishedTable<A>, A>, TableIds),
    /// An entry does not follow the one before it, or has the seqno `u64::MAX`; no table was kept.
    ///
    /// A table does not hold what a writer makes, or a run is out of order, or a key has one seqno
    /// twice.
    OutOfOrder,
    /// An observer stopped it between two tables. No table was kept.
    Stopped,
}

// How the writing of some entries ended.
#[derive(Clone, Copy)]
enum Ending {
    // All are written.
    AtEnd,
    // An entry may not follow those before it.
    AtDisorder,
    // An observer stopped it.
    AtStop,
}

// Writes an entry and counts it. If that finished a table, it calls the observer, which returns
// whether to go on. Fails as the writer does.
fn write_and_tell<O: CompactionObserver, A: Allocator + Clone>(
    writer: &mut MultiWriter<A>,
    entry: &EntryRef<'_>,
    progress: &mut CompactionProgress,
    observer: &mut O,
) -> Result<bool, Error>
    requires { let e = spec.entry_of_ref entry.now in
        IsTrue (spec.may_be_written (spec.all_written writer.old) e.user_key e.seqno) }
    ensures ok { OnOk result (writer.new ≡ spec.took writer.old (spec.entry_of_ref entry.now)) }
    // After an error the observer was not called.
    ensures still { OnErr result (observer.new ≡ observer.old) }
    ensures listed { OnOk result
        (spec.all_written writer.new ≡ spec.all_written writer.old ++ spec.entry_of_ref entry.now
        ∷ []) }
    ensures refused { spec.Faults result
        (spec.took_fault writer.old (spec.entry_of_ref entry.now)) }
    ensures counts { spec.IsCounted progress.old writer.old → spec.HasBegun writer.old →
        OnOk result (spec.IsCounted progress.new writer.new) }
    ensures returned { spec.IsCounted progress.old writer.old → spec.HasBegun writer.old →
        IfOk result (λ goes.
        spec.NotifiesNext O.says writer.old writer.new observer.old goes observer.new) }
{
    let ids = writer.table_ids();
    writer.write_ref(entry)?;
    let written = progress.entries;
    progress.entries = written.saturating_add(1);
    // The first entry finishes no table.
    if written == 0 {
        return Ok(true);
    }
    // After it, an id is drawn exactly when a table is finished.
    if writer.table_ids() == ids {
        return Ok(true);
    }
    progress.tables = progress.tables.saturating_add(1);
    Ok(observer.goes_on(CompactionProgress {
        tables: progress.tables,
        entries: written,
    }))
}

// Writes what a source lends, as long as each entry may follow the one before it and the observer
// goes on. Fails as the source and the writer do.
fn write_while_observed<L: Lending, O: CompactionObserver, A: Allocator + Clone>(
    source: &mut L,
    writer: &mut MultiWriter<A>,
    observer: &mut O,
) -> Result<Ending, Error>
    requires fresh { spec.IsFreshRun writer.old }
    requires can { spec.CanLend L.advances L.can_advance source.old }
    ensures took { OnOk result (spec.TookList writer.old (spec.all_written writer.new) writer.new) }
    ensures wrote { IfOk result (λ ending. spec.WroteUntil L.advances writer.old source.old O.says
        observer.old (spec.all_written writer.new) ending source.new observer.new) }
    ensures refused { IfErr result (λ e. spec.RefusesWritten L.advances writer.old source.old O.says
        observer.old e observer.new) }
{
    let mut progress = CompactionProgress {
        tables: 0,
        entries: 0,
    };
    while source.advance()? {
        if let Some(entry) = source.entry() {
            if !writer.can_follow_ref(&entry) {
                return Ok(Ending::AtDisorder);
            }
            let goes_on = write_and_tell(writer, &entry, &mut progress, observer)?;
            if !goes_on {
                return Ok(Ending::AtStop);
            }
        }
    }
    Ok(Ending::AtEnd)
}

// The outcome of a compaction, by how its writing ended: only at the end, the tables of all that
// the writer took. Fails as the writing did, and then as the writer does.
fn ended<A: Allocator + Clone>(
    writer: MultiWriter<A>,
    ending: Result<Ending, Error>,
) -> Result<CompactionOutcome<A>, Error>
    ensures tables { ending ≡ Ok spec.AtEnd → (w : spec.TablesWriting) (es : List spec.Entry) →
        spec.IsFreshRun w →
        spec.RunsOn w → spec.TookList w es writer → IfOk result (spec.AreTablesBy w es) }
    ensures refused { ending ≡ Ok spec.AtEnd → (w : spec.TablesWriting) (es : List spec.Entry) →
        spec.TookList w es writer → spec.Faults result (spec.writes_fault w es) }
    ensures disorder { ending ≡ Ok spec.AtDisorder → result ≡ Ok spec.OutOfOrder }
    ensures stop { ending ≡ Ok spec.AtStop → result ≡ Ok spec.Stopped }
    ensures passed { (e : spec.Error) → ending ≡ Err e → result ≡ Err e }
{
    match ending {
        Ok(Ending::AtEnd) => {
            let (tables, left) = finished(writer)?;
            Ok(CompactionOutcome::Tables(tables, left))
        }
        Ok(Ending::AtDisorder) => {
            drop(writer);
            Ok(CompactionOutcome::OutOfOrder)
        }
        Ok(Ending::AtStop) => {
            drop(writer);
            Ok(CompactionOutcome::Stopped)
        }
        Err(error) => {
            drop(writer);
            Err(error)
        }
    }
}

// Writes what a compaction lends, as long as each entry may follow the one before it and the
// observer goes on, and finishes. Fails as the compaction and the writer do.
fn write_observed<
    L: Lending,
    F: LentFilter<A> + Drop,
    C: LentCallback + Drop,
    O: CompactionObserver,
    A: Allocator + Clone,
>(
    source: &mut Compacted<L, F, C, A>,
    mut writer: MultiWriter<A>,
    observer: &mut O,
) -> Result<CompactionOutcome<A>, Error>
    requires fresh { spec.IsFreshRun writer }
    requires next { spec.RunsOn writer }
    requires can { spec.CanLend ⟦<Compacted<L, F, C, A> as Lending>⟧.advances
        ⟦<Compacted<L, F, C, A> as Lending>⟧.can_advance source.old }
    ensures written { let next = ⟦<Compacted<L, F, C, A> as Lending>⟧.advances in
        IfOk result (λ r.
        spec.IsWritten next writer source.old O.says observer.old r source.new observer.new) }
    ensures made { IfOk result (spec.HasMade writer) }
    ensures returned { IfOk result (λ r. spec.WasNotified O.says writer r observer.old observer.new) }
    ensures refused { let next = ⟦<Compacted<L, F, C, A> as Lending>⟧.advances in
        IfErr result (λ e.
        spec.RefusesWritten next writer source.old O.says observer.old e observer.new) }
{
    let ending = write_while_observed(source, &mut writer, observer);
    ended(writer, ending)
}

// The compaction of all entries of some sources, in order. Generic, so that a proof does not unfold
// a scanner's parts.
fn compacted_from<
    L: Lending + Drop,
    F: LentFilter<A> + Drop,
    C: LentCallback + Drop,
    A: Allocator + Clone,
>(
    alloc: A,
    sources: Vec<L, A>,
    rules: Rules,
    filter: F,
    callback: C,
) -> Result<Compacted<L, F, C, A>, Error>
    ensures can { All (spec.CanLend L.advances L.can_advance) sources.items → IfOk result
        (spec.CanLend ⟦<Compacted<L, F, C, A> as Lending>⟧.advances
        ⟦<Compacted<L, F, C, A> as Lending>⟧.can_advance) }
    ensures list { spec.OnYieldedLists L.advances sources.items (λ ls. spec.CompactsAll F.gives
        C.gets rules filter callback (spec.union_results ls)
        ⟦<Compacted<L, F, C, A> as Lending>⟧.advances result) }
    // For any results that come in order from each source, it compacts their merge.
    ensures any { spec.OnYieldedResults L.advances sources.items (λ rs. spec.CompactsAll F.gives
        C.gets rules filter callback rs ⟦<Compacted<L, F, C, A> as Lending>⟧.advances result) }
    ensures err { IfErr result (λ e. e ≡ spec.OutOfMemory) }
{
    let own = alloc.clone()?;
    let merger = LendingMerger::new(own, sources)?;
    LendingCompaction::with(alloc, merger, rules, filter, callback)
}

// The compaction of all entries of the runs, in order if the runs may be merged.
fn compacted_of<F: LentFilter<A> + Drop, C: LentCallback + Drop, A: Allocator + Clone>(
    alloc: A,
    runs: &[Arc<Run<Table<A>, A>, A>],
    rules: Rules,
    filter: F,
    callback: C,
) -> Result<Compacted<RunScanner<A>, F, C, A>, Error>
    ensures can { IfOk result (spec.CanLend
        ⟦<Compacted<RunScanner<A>, F, C, A> as Lending>⟧.advances
        ⟦<Compacted<RunScanner<A>, F, C, A> as Lending>⟧.can_advance) }
    ensures list { spec.OnMergeable runs.now (λ lists. spec.CompactsAll F.gives C.gets rules filter
        callback (spec.union_results lists)
        ⟦<Compacted<RunScanner<A>, F, C, A> as Lending>⟧.advances result) }
    ensures err { spec.AreMergeable (spec.each_run runs.now) →
        IfErr result (λ e. e ≡ spec.OutOfMemory) }
    // For any tables whose scans come in order in each run, it compacts their merge.
    ensures any { spec.OnMergedScans runs.now (λ rs. spec.CompactsAll F.gives C.gets rules filter
        callback rs ⟦<Compacted<RunScanner<A>, F, C, A> as Lending>⟧.advances result) }
    ensures returned { IfErr result (λ e. spec.is_memory e ≡ false → spec.BeginsWith
        (spec.each_run runs.now) e) }
    // The first data block of each run is loaded.
    ensures opens { spec.Faults result (spec.first_blocks_fault (spec.each_run runs.now)) }
{
    let scanners = scanners_of(alloc.clone()?, runs)?;
    compacted_from(alloc, scanners, rules, filter, callback)
}

/// Compacts several runs of any opened tables into new tables, in one pass, with a filter, a
/// callback and an observer.
///
/// `writer` writes what a [`LendingCompaction`] keeps of all their entries, borrowed from their
/// blocks, as long as they come in order. A run without a table is ignored. Nothing is required of
/// the runs, so a store may compact tables of files that it did not verify. Pass
/// [`NoFilter`](lsm_sorted::compaction::stream::NoFilter),
/// [`NoCallback`](lsm_sorted::compaction::stream::NoCallback) and
/// [`NoObserver`](crate::NoObserver) for what is not needed: if the runs meet the conditions of
/// [`compact_runs`](crate::compact_runs), it then returns the same tables and counter, or the same
/// error.
///
/// The filter may change or drop the entries that are kept. The callback gets each entry that is
/// dropped, replaced or hidden when the compaction passes it. The callback is returned. At the end
/// of each table that another one follows, it calls the observer with the number of finished tables
/// and of their entries. If the observer returns `false`, it stops with
/// [`CompactionOutcome::Stopped`], and no table is kept.
///
/// The first data block of each run is loaded before anything is written, in the order of the runs.
/// The runs are not changed, also after an error.
///
/// # Errors
///
/// The first fault of loading a block; any error of the filter; the errors of
/// [`MultiWriter::write`] and [`MultiWriter::finish`]; [`Error::OutOfMemory`].
pub fn compact_any_runs<
    F: LentFilter<A> + Drop,
    C: LentCallback + Drop,
    O: CompactionObserver,
    A: Allocator + Clone,
>(
    alloc: A,
    runs: &[Arc<Run<Table<A>, A>, A>],
    rules: Rules,
    writer: MultiWriter<A>,
    filter: F,
    callback: C,
    observer: &mut O,
) -> Result<(CompactionOutcome<A>, C), Error>
    requires fresh { spec.IsFreshRun writer }
    // For compactable runs, the tables are those of what the filter and the rules keep of all
    // entries, as the writer cuts them. The callback got what is then reported; if it was stopped,
    // what was reported until then.
    ensures kept { spec.OnCompactable runs.now (λ lists. IfOk result (λ r. spec.CameTo F.gives
        C.gets rules filter callback (spec.union_in lists) writer r.0 r.1)) }
    // For tables of lists that have entries, the outcome is the tables of all that is kept. This
    // holds also if a key has one seqno twice. Or it ends at the first kept entry that may not
    // follow, or as soon as the observer returns so. The callback got what is reported until then,
    // and the observer was called for what was written.
    ensures merged { spec.OnFullLists runs.now (λ lists. IfOk result (λ r. spec.CameUpTo F.gives
        C.gets rules filter callback (spec.union_results lists) writer O.says observer.old r.0 r.1
        observer.new)) }
    // For any tables whose scans come in order in each run, it is the outcome of their merge, each
    // error in its position. Or it is the error of the first run whose first data block cannot be
    // loaded.
    ensures any { spec.OnMergedScans runs.now (λ rs. spec.CameFrom F.gives C.gets rules filter
        callback rs writer O.says observer.old (spec.each_run runs.now) result observer.new) }
    // Except for `OutOfMemory`, the error is that of the first run whose first data block cannot be
    // loaded, if there is one. The observer is not called then.
    ensures opens { let first = spec.first_blocks_fault (spec.each_run runs.now) in first ≢ None →
        spec.Faults result first × (observer.new ≡ observer.old) }
    // For any tables, those that are made are of a list that can be written.
    ensures made { IfOk result (λ r. spec.HasMade writer r.0) }
    // The observer was called for each table but the last, in their order. The compaction stops
    // exactly when the observer returns so, at once.
    ensures returned { IfOk result (λ r. spec.WasNotified O.says writer r.0 observer.old
        observer.new) }
    // On an error, it was called for the tables that were finished until then.
    ensures heard { IfErr result (λ _. spec.WasNotifiedUntil O.says writer observer.old
        observer.new) }
    // These are the tables of what was kept until then; after it comes the error, except for
    // `OutOfMemory`.
    ensures until { spec.OnFullLists runs.now (λ lists. IfErr result (λ e. spec.CameUntil F.gives
        C.gets rules filter callback (spec.union_results lists) writer O.says observer.old e
        observer.new)) }
    // Except for `OutOfMemory`, the error is the first one, of the filter or of the writer.
    ensures refused { spec.OnFullLists runs.now (λ lists. IfErr result (λ e.
        spec.is_memory e ≡ false → spec.RefusesBy F.gives C.gets rules filter callback
        (spec.union_results lists) writer e)) }
    // The compaction fails with `OutOfMemory` only, if the filter does and whatever may be kept
    // fits as tables with enough ids left.
    ensures taken { spec.OnCompactable runs.now (λ lists. spec.RefusesForMemory F.gives →
        spec.FitsKept writer rules (spec.union_in lists) →
        IfErr result (λ e. e ≡ spec.OutOfMemory)) }
    // It is enough that what this filter keeps fits, whatever another filter might keep.
    ensures fits { spec.OnCompactable runs.now (λ lists. spec.RefusesForMemory F.gives →
        spec.FitsThroughout F.gives C.gets rules filter callback (spec.union_in lists) writer →
        IfErr result (λ e. e ≡ spec.OutOfMemory)) }
    // If the filter keeps each entry and the observer never stops it, the result is the tables of
    // what the rules keep, or out of order, or the first error.
    ensures plain { spec.KeepsEach F.gives → spec.NeverStops O.says →
        spec.IsUnfiltered (spec.each_run runs.now) rules writer
        (spec.result_map (λ r. r.0) result) }
{
    // A list whose tables fit is written whole.
    tables_law();
    let mut source = compacted_of(alloc, runs, rules, filter, callback)?;
    let written = write_observed(&mut source, writer, observer);
    let callback = source.into_callback();
    let outcome = written?;
    Ok((outcome, callback))
}
