//! A run of the tables of a compaction, opened with options.
ghost use Rattle.std.specs.Prelude.{◌≡◌, ◌≢◌, ◌∷◌, [], IfErr, IfOk, IfSome, IsOk, List};
ghost use Rattle.std.specs.Prelude.{MatchOption, MatchResult, None, Ok};
ghost use Rattle.lsm_runs.specs.compaction.Words as spec;

use crate::compaction::open_options::open_all;
use crate::{CompactionOutcome, NoObserver, OpenOptions, compact_any_runs};
use lsm_readers::Table;
use lsm_sorted::Run;
use lsm_sorted::compaction::Rules;
use lsm_sorted::compaction::stream::{NoCallback, NoFilter};
use lsm_writers::MultiWriter;
use sst_blocks::Error;
use std::alloc::Allocator;
use std::sync::Arc;

// Opens the tables of a compaction and puts them in a run; none if there is no table.
fn open_outcome<A: Allocator + Clone>(
    alloc: A,
    outcome: &CompactionOutcome<A>,
    how: &OpenOptions,
) -> Result<Option<Run<Table<A>, A>>, Error>
    ensures opened { IfOk result (spec.HasRunBy how.now outcome.now) }
    ensures refused { (w : spec.TablesWriting) (es : List spec.Entry) →
        spec.AreTablesBy w es outcome.now →
        spec.Faults result (spec.opens_fault w.present.options es how.now.global_seqno) }
    ensures disorder { outcome.now ≡ spec.OutOfOrder → IsOk result }
{
    match outcome {
        CompactionOutcome::Tables(tables, _) => Ok(Run::new(open_all(alloc, tables, how)?)),
        CompactionOutcome::OutOfOrder | CompactionOutcome::Stopped => Ok(None),
    }
}

/// Compacts several runs of any opened tables, and opens each new table with the options `how`.
///
/// It compacts as [`compact_any_runs`] does without a filter. It returns the outcome, with the
/// finished tables and the id counter, and the run that has the tables in order. There is no run if
/// nothing is kept, or if entries came out of order. The given runs are not changed.
///
/// # Errors
///
/// The errors of [`compact_any_runs`], then those of [`OpenOptions::open`]; [`Error::OutOfMemory`].
pub fn compact_to_run_with<A: Allocator + Clone>(
    alloc: A,
    runs: &[Arc<Run<Table<A>, A>, A>],
    rules: Rules,
    writer: MultiWriter<A>,
    how: &OpenOptions,
) -> Result<(CompactionOutcome<A>, Option<Run<Table<A>, A>>), Error>
    requires fresh { spec.IsFreshRun writer }
    // For compactable runs, the finished tables are those of what is kept, as the writer cuts it.
    // For any tables, they are those of a list that can be written.
    ensures tables { spec.AreCompactable (spec.each_run runs.now) → (lists : spec.TableLists) →
        spec.RunsHold runs.now lists →
        IfOk result (λ r. spec.AreTablesBy writer (spec.kept_in rules lists) r.0) }
    ensures made { IfOk result (λ r. spec.HasMade writer r.0) }
    // For tables of lists that have entries, also if a key has one seqno twice: they are those of
    // what is kept. It ends out of order at the first kept entry that may not follow.
    ensures merged { (lists : spec.TableLists) → spec.RunsHold runs.now lists →
        spec.AllByRecursion spec.HaveEntries lists →
        IfOk result (λ r. spec.CameInOrder writer (spec.kept_in rules lists) r.0) }
    // For any tables whose scans come in order in each run, it is the outcome of writing what is kept
    // of their merge, or the first fault of that. Or it is the error of the first run whose first
    // data block cannot be loaded, or of opening the new tables.
    ensures any { spec.OnKeptScans runs.now rules (λ rs.
        MatchResult result (λ r. spec.CameOf writer rs (Ok r.0))
        (spec.RefusesRun writer rs how.now.global_seqno (spec.each_run runs.now))) }
    // For any tables, except for `OutOfMemory`, the error is that of the first run whose first data
    // block cannot be loaded, if there is one.
    ensures opens { let first = spec.first_blocks_fault (spec.each_run runs.now) in
        first ≢ None → spec.Faults result first }
    // No observer stops it.
    ensures through { IfOk result (λ r. spec.GoesThrough r.0) }
    // The run has exactly these, opened with the options `how`, in their order.
    ensures opened { IfOk result (λ r. spec.HasRunBy how.now r.0 r.1) }
    // Together they hold what is kept, one after another, and are in order.
    ensures run { spec.OnCompactable runs.now (λ lists. let left = spec.kept_in rules lists in
        IfOk result (λ r. MatchOption r.1 (left ≡ []) (λ run.
        spec.IsRunOfList left how.now.global_seqno run))) }
    // Without a global seqno, the run may be compacted again, whatever the tables held.
    ensures able { how.now.global_seqno ≡ 0 →
        IfOk result (λ r. IfSome r.1 (λ run. spec.AreCompactable (run ∷ []))) }
    // Except for `OutOfMemory`, the error is the writer's first one. Or else it reports an index
    // restart interval other than 1, or else a seqno that is too large.
    ensures refused { spec.AreCompactable (spec.each_run runs.now) → spec.OnLists runs.now (λ lists.
        spec.Faults result (spec.run_with_fault writer (spec.kept_in rules lists)
        how.now.global_seqno)) }
    // With an interval of 1, the only error is `OutOfMemory` if the tables of what is kept fit,
    // enough ids remain and no seqno is too large.
    ensures taken { spec.OnCompactable runs.now (λ lists.
        spec.IfOpens writer (spec.kept_in rules lists) how.now.global_seqno
        (IfErr result (λ e. e ≡ spec.OutOfMemory))) }
{
    let own = alloc.clone()?;
    let mut observer = NoObserver;
    let (outcome, _) = compact_any_runs(
        own,
        runs,
        rules,
        writer,
        NoFilter,
        NoCallback,
        &mut observer,
    )?;
    let opened = open_outcome(alloc, &outcome, how)?;
    Ok((outcome, opened))
}
