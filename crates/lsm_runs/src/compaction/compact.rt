//! Compacting several runs into new tables.
ghost use Rattle.std.specs.Prelude.{◌≡◌, ◌<◌, All, Err, IfErr, IfOk, List, OnOk, Some, false};
ghost use Rattle.std.specs.Prelude.{length, map};
ghost use Rattle.lsm_runs.specs.compaction.Words as spec;

use crate::RunScanner;
use lsm_readers::Table;
use lsm_sorted::compaction::Rules;
use lsm_sorted::compaction::lending::LendingCompaction;
use lsm_sorted::compaction::stream::{NoCallback, NoFilter, read_law};
use lsm_sorted::{LendingMerger, Run};
use lsm_writers::{FinishedTable, MultiWriter, TableIds, tables_law};
use sst_blocks::{Error, Lending, SeqNo};
use std::alloc::Allocator;
use std::sync::Arc;

// The scanner of a whole run.
fn scanner_of<A: Allocator + Clone>(run: &Arc<Run<Table<A>, A>, A>) -> Result<RunScanner<A>, Error>
    requires { 0 < length (spec.arc_value run.now) }
    // For tables of lists that have entries, it yields these lists, one after another.
    ensures list { spec.OnFullTables (spec.arc_value run.now) (λ lists. IfOk result (spec.YieldsList
        ⟦<RunScanner<A> as Iterator>⟧.next_gives spec.nowhere (spec.joined lists))) }
    ensures refused { spec.OnFullTables (spec.arc_value run.now) (λ _.
        IfErr result (λ e. e ≡ spec.OutOfMemory)) }
    // For any tables, it yields the results of their scans up to the first error, or the call fails
    // with that error.
    ensures any { IfOk result (spec.YieldsResults ⟦<RunScanner<A> as Iterator>⟧.next_gives
        (spec.tables_scan (spec.arc_value run.now))) }
    ensures returned { IfErr result (λ e. spec.is_memory e ≡ false →
        spec.first (spec.tables_scan (spec.arc_value run.now)) ≡ Some (Err e)) }
    // It loads the first data block.
    ensures opens { spec.Faults result (spec.first_block_fault (spec.arc_value run.now)) }
{
    RunScanner::culled(run.clone()?, (None, None))
}

// A scanner of each run that has a table.
pub(crate) fn scanners_of<A: Allocator + Clone>(
    alloc: A,
    runs: &[Arc<Run<Table<A>, A>, A>],
) -> Result<Vec<RunScanner<A>, A>, Error>
    // They yield together the entries of each run.
    ensures list { (able : spec.AreMergeable (spec.each_run runs.now)) → IfOk result (λ v.
        spec.YieldTogether ⟦<RunScanner<A> as Iterator>⟧.next_gives spec.nowhere v.items (map
        spec.joined able.lists)) }
    ensures err { spec.AreMergeable (spec.each_run runs.now) →
        IfErr result (λ e. e ≡ spec.OutOfMemory) }
    // For any tables, each yields the results of its scan. Else, except for `OutOfMemory`, the
    // error is that of the first run whose first data block cannot be loaded.
    ensures any { let gives = ⟦<RunScanner<A> as Iterator>⟧.next_gives in
        IfOk result (λ v. spec.AllZip (λ s rs. spec.YieldsResults gives rs s) v.items
        (spec.scans_of (spec.each_run runs.now))) }
    ensures returned { IfErr result (λ e. spec.is_memory e ≡ false → spec.BeginsWith
        (spec.each_run runs.now) e) }
    // It loads the first data block of each run, in their order.
    ensures opens { spec.Faults result (spec.first_blocks_fault (spec.each_run runs.now)) }
{
    let mut scanners = Vec::new(alloc);
    for run in runs {
        if !run.as_slice().is_empty() {
            scanners.push(scanner_of(run)?)?;
        }
    }
    Ok(scanners)
}

/// A compaction of all entries of some sources, by reference. Functions that take it are generic in
/// the sources: proofs with a concrete stream cost much.
pub(crate) type Compacted<L, F, C, A> = LendingCompaction<LendingMerger<L, A>, F, C, A>;

// A compaction without a filter and a callback.
pub(crate) type Kept<L, A> = Compacted<L, NoFilter, NoCallback, A>;

// The entries that are kept of some sources, in order. Generic, so that a proof does not unfold a
// scanner's parts.
fn kept_from<L: Lending + Drop, A: Allocator + Clone>(
    alloc: A,
    sources: Vec<L, A>,
    rules: Rules,
) -> Result<Kept<L, A>, Error>
    ensures can { All (spec.CanLend L.advances L.can_advance) sources.items → IfOk result
        (spec.CanLend ⟦<Kept<L, A> as Lending>⟧.advances ⟦<Kept<L, A> as Lending>⟧.can_advance) }
    ensures list { spec.OnYieldedLists L.advances sources.items (λ lists. IfOk result
        (spec.YieldsList ⟦<Kept<L, A> as Lending>⟧.advances spec.nowhere
        (spec.kept_in rules lists))) }
    // For any results that come in order from each source, it yields what is kept of their merge,
    // each error in its position.
    ensures any { spec.OnYieldedResults L.advances sources.items (λ rs. IfOk result
        (spec.YieldsResults ⟦<Kept<L, A> as Lending>⟧.advances (spec.lent_outs rules rs))) }
    ensures err { IfErr result (λ e. e ≡ spec.OutOfMemory) }
{
    let own = alloc.clone()?;
    let merger = LendingMerger::new(own, sources)?;
    LendingCompaction::new(alloc, merger, rules)
}

// The entries that are kept of the runs, in order if the runs may be merged.
pub(crate) fn kept_of<A: Allocator + Clone>(
    alloc: A,
    runs: &[Arc<Run<Table<A>, A>, A>],
    rules: Rules,
) -> Result<Kept<RunScanner<A>, A>, Error>
    ensures can { IfOk result (spec.CanLend ⟦<Kept<RunScanner<A>, A> as Lending>⟧.advances
        ⟦<Kept<RunScanner<A>, A> as Lending>⟧.can_advance) }
    ensures list { (able : spec.AreMergeable (spec.each_run runs.now)) → IfOk result
        (spec.YieldsList ⟦<Kept<RunScanner<A>, A> as Lending>⟧.advances spec.nowhere (spec.kept_in
        rules able.lists)) }
    ensures err { spec.AreMergeable (spec.each_run runs.now) →
        IfErr result (λ e. e ≡ spec.OutOfMemory) }
    // For any tables whose scans come in order in each run, it yields what is kept of their merge.
    ensures any { spec.OnKeptScans runs.now rules (λ rs. IfOk result
        (spec.YieldsResults ⟦<Kept<RunScanner<A>, A> as Lending>⟧.advances rs)) }
    // The first data block of each run is loaded.
    ensures opens { spec.Faults result (spec.first_blocks_fault (spec.each_run runs.now)) }
{
    let scanners = scanners_of(alloc.clone()?, runs)?;
    kept_from(alloc, scanners, rules)
}

// Writes all that a source lends. Fails as the writer does.
fn write_each<L: Lending, A: Allocator + Clone>(
    source: &mut L,
    writer: &mut MultiWriter<A>,
) -> Result<(), Error>
    requires fresh { spec.IsFreshRun writer.old }
    requires can { spec.CanLend L.advances L.can_advance source.old }
    requires yields { spec.YieldsWritable L.advances source.old }
    ensures took { (d : spec.YieldsWritable L.advances source.old) →
        OnOk result (spec.TookList writer.old d.list writer.new) }
    // The source fails with `OutOfMemory` only.
    ensures refused { (d : spec.YieldsWritable L.advances source.old) →
        IfErr result (λ e. spec.is_memory e ≡ false →
        spec.writes_fault writer.old d.list ≡ Some e) }
{
    while source.advance()? {
        if let Some(entry) = source.entry() {
            writer.write_ref(&entry)?;
        }
    }
    Ok(())
}

// The tables of all that a writer took since it began, and its id counter after them. Fails as the
// writer does.
pub(crate) fn finished<A: Allocator + Clone>(
    writer: MultiWriter<A>,
) -> Result<(Vec<FinishedTable<A>, A>, TableIds), Error>
    ensures written { (w : spec.TablesWriting) (es : List spec.Entry) → spec.IsFreshRun w →
        spec.RunsOn w →
        spec.TookList w es writer → IfOk result (λ r. spec.AreWrittenBy w es r.0.items r.1) }
    ensures refused { (w : spec.TablesWriting) (es : List spec.Entry) → spec.TookList w es writer →
        spec.Faults result (spec.writes_fault w es) }
{
    let left = writer.table_ids();
    let tables = writer.finish()?;
    Ok((tables, left))
}

// Writes all that is kept, and finishes. Fails as the writer does.
fn write_all<L: Lending + Drop, A: Allocator + Clone>(
    mut source: Kept<L, A>,
    mut writer: MultiWriter<A>,
) -> Result<(Vec<FinishedTable<A>, A>, TableIds), Error>
    requires fresh { spec.IsFreshRun writer }
    requires next { spec.RunsOn writer }
    requires can { spec.CanLend ⟦<Kept<L, A> as Lending>⟧.advances
        ⟦<Kept<L, A> as Lending>⟧.can_advance source }
    requires yields { spec.YieldsWritable ⟦<Kept<L, A> as Lending>⟧.advances source }
    ensures written { (d : spec.YieldsWritable ⟦<Kept<L, A> as Lending>⟧.advances source) →
        IfOk result (λ r. spec.AreWrittenBy writer d.list r.0.items r.1) }
    // The source fails with `OutOfMemory` only.
    ensures refused { (d : spec.YieldsWritable ⟦<Kept<L, A> as Lending>⟧.advances source) →
        spec.Faults result (spec.writes_fault writer d.list) }
{
    let took = write_each(&mut source, &mut writer);
    drop(source);
    if let Err(error) = took {
        drop(writer);
        return Err(error);
    }
    finished(writer)
}

/// Compacts several runs into new tables, in one pass.
///
/// `writer` writes what a [`LendingCompaction`] keeps of all their entries, borrowed from their
/// blocks. It returns the finished tables, none if nothing is kept, and the writer's id counter
/// after them. The runs are not changed. The writer is dropped, also if the call fails.
///
/// `gc_seqno_threshold` is the watermark, the least snapshot that is still read. Set
/// `evict_tombstones` only if no other run has an older version of these keys. Otherwise a deleted
/// key can come back.
///
/// Conditions:
///
/// - `writer` has written nothing;
/// - the runs are in order, each has a table, and each of their tables holds a list that has an
///   entry;
/// - in all lists together, global seqnos applied, no key has one seqno twice, and each seqno is
///   below `u64::MAX`.
///
/// [`compact_any_runs`](crate::compact_any_runs) has only the first condition.
///
/// # Errors
///
/// The errors of [`MultiWriter::write`] and [`MultiWriter::finish`]; [`Error::OutOfMemory`].
///
/// # Examples
///
/// ```
/// let runs = [run(alloc)?];
/// let writer = MultiWriter::new(alloc, TableIds::new(1), 0, 0, Timestamp::from(0))?;
/// let (tables, _) = compact_runs(alloc, &runs, 0, false, false, writer)?;
/// Ok(tables)
/// ```
pub fn compact_runs<A: Allocator + Clone>(
    alloc: A,
    runs: &[Arc<Run<Table<A>, A>, A>],
    gc_seqno_threshold: SeqNo,
    evict_tombstones: bool,
    zero_seqnos: bool,
    writer: MultiWriter<A>,
) -> Result<(Vec<FinishedTable<A>, A>, TableIds), Error>
    requires fresh { spec.IsFreshRun writer }
    requires able { spec.AreCompactable (spec.each_run runs.now) }
    // The tables are those of what is kept of all entries, as the writer cuts them.
    ensures tables { let rules = spec.rules_by gc_seqno_threshold evict_tombstones zero_seqnos in
        spec.OnKept runs.now rules (λ es.
        IfOk result (λ r. spec.AreWrittenBy writer es r.0.items r.1)) }
    // The error is the writer's first one: reading fails with `OutOfMemory` only.
    ensures refused { let rules = spec.rules_by gc_seqno_threshold evict_tombstones zero_seqnos in
        spec.OnKept runs.now rules (λ es. spec.Faults result (spec.writes_fault writer es)) }
    // If the tables fit and enough ids remain, the only error is `OutOfMemory`.
    ensures taken { let rules = spec.rules_by gc_seqno_threshold evict_tombstones zero_seqnos in
        spec.OnKept runs.now rules (λ es.
        spec.FitsBy writer es → IfErr result (λ e. e ≡ spec.OutOfMemory)) }
{
    // A list whose tables fit is written whole.
    tables_law();
    let rules = Rules {
        watermark: gc_seqno_threshold,
        evict: evict_tombstones,
        zeroing: zero_seqnos,
    };
    let kept = kept_of(alloc, runs, rules)?;
    write_all(kept, writer)
}

/// States that readers see the same after a part of several runs is compacted without a filter and
/// the rest stays.
///
/// Conditions:
///
/// - no key had one seqno twice;
/// - nothing is evicted or zeroed and the part has no weak tombstone; or for each key, all entries
///   of the rest are newer.
///
/// A point read whose bound is the watermark or above sees the same of each key before and after.
/// So does a range of the newest versions within any bounds. Again no key has one seqno twice. If
/// each seqno was below the largest, each still is, so the runs may be compacted again.
///
/// This holds wherever the new runs are among the others; the last clause is for adjacent runs. The
/// call does nothing: its contract states the law.
pub fn compaction_law()
    ensures points { spec.PointsStay }
    ensures ranges { spec.RangesStay }
    ensures strict { spec.StayStrict }
    ensures writable { spec.StayWritable }
    ensures side_by_side { spec.SideBySide }
{
    // The law for a part that is compacted.
    read_law();
}
