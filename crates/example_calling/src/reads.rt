//! A point read and a range together, of several runs and of one.
ghost use Rattle.std.specs.Prelude.{◌≡◌, ◌∷◌, ℕ, [], IfErr, IfOk, List, None, Ok};
ghost use Rattle.example_calling.specs.Reads.{ReadsRun, ReadsSpans, ReadsUnion};
ghost use Rattle.sst_entries.specs.Error.{Fails};
ghost use Rattle.sst_entries.specs.declared.error.Error.TheVariants.{OutOfMemory};
ghost use Rattle.lsm_tables.specs.Words as spec;

use lsm_tables::block::{Error, InternalValue, SeqNo, UserKey};
use lsm_tables::run::{NewestOfRuns, Run, get_runs, range_runs};
use lsm_tables::table::Table;
use std::alloc::Allocator;
use std::ops::Bound;
use std::sync::Arc;

/// The result of a point read, and a range of the newest version of each key within two bounds.
pub type Reads<A> = (Option<InternalValue<A>>, NewestOfRuns<A>);

// A point read and a range of several runs.
pub(crate) fn read_runs<A: Allocator + Clone>(
    alloc: &A,
    runs: &[Arc<Run<Table<A>, A>, A>],
    key: &[u8],
    seqno: SeqNo,
    range: (Bound<UserKey<A>>, Bound<UserKey<A>>),
) -> Result<Reads<A>, Error>
    ensures list { ReadsUnion ⟦<NewestOfRuns<A> as Iterator>⟧.next_gives
        ⟦<NewestOfRuns<A> as DoubleEndedIterator>⟧.next_back_gives key.now seqno range
        runs.now result }
    ensures can { let ends = ⟦<NewestOfRuns<A> as DoubleEndedIterator>⟧ in
        IfOk result (λ read. spec.CanYield ends.next_gives ends.next_back_gives ends.can_next
        ends.can_next_back read.1) }
    ensures taken { (lists : spec.TableLists) → spec.RunsHold runs.now lists →
        IfErr result (λ e. e ≡ OutOfMemory) }
    // For any tables in runs in order, the point read returns the result of reading these. Except
    // for `OutOfMemory`, so is the error.
    ensures returned { spec.AreRunsInOrder runs.now → IfOk result (λ read. spec.runs_result key.now
        seqno None (spec.each_run runs.now) ≡ Ok read.0) }
    ensures fails { spec.AreRunsInOrder runs.now →
        IfErr result (λ e. Fails e (spec.runs_result key.now seqno None (spec.each_run runs.now))) }
    // The range is over the spans within the bounds.
    ensures steps { spec.AreRunsInOrder runs.now →
        ReadsSpans ⟦<NewestOfRuns<A> as Iterator>⟧.next_gives
        ⟦<NewestOfRuns<A> as DoubleEndedIterator>⟧.next_back_gives range
        (spec.each_run runs.now) result }
{
    let found = get_runs(runs, key, seqno)?;
    let stream = range_runs(alloc.clone()?, runs, range)?;
    Ok((found, stream))
}

/// Returns a point read of one run, and a range of the newest version of each key within two
/// bounds.
///
/// These are [`get_runs`] and [`range_runs`] of this run alone.
///
/// # Errors
///
/// Those of [`get_runs`]; [`Error::OutOfMemory`] only, if the run's tables hold a list.
pub fn read_run<A: Allocator + Clone>(
    alloc: A,
    run: Run<Table<A>, A>,
    key: &[u8],
    seqno: SeqNo,
    range: (Bound<UserKey<A>>, Bound<UserKey<A>>),
) -> Result<Reads<A>, Error>
    // For tables of a list, global seqnos applied, they read the list.
    ensures list { ReadsRun ⟦<NewestOfRuns<A> as Iterator>⟧.next_gives
        ⟦<NewestOfRuns<A> as DoubleEndedIterator>⟧.next_back_gives key.now seqno range
        run result }
    // Both ends of the range may be called any number of times.
    ensures can { let ends = ⟦<NewestOfRuns<A> as DoubleEndedIterator>⟧ in
        IfOk result (λ read. spec.CanYield ends.next_gives ends.next_back_gives ends.can_next
        ends.can_next_back read.1) }
    ensures taken { (es : List spec.Entry) (g : ℕ) → spec.IsRunOfList es g run →
        IfErr result (λ e. e ≡ OutOfMemory) }
    // For any tables in a run in order, the point read returns the result of reading these. Except
    // for `OutOfMemory`, so is the error.
    ensures returned { spec.IsInOrder spec.range_of run →
        IfOk result (λ read. spec.runs_result key.now seqno None (run ∷ []) ≡ Ok read.0) }
    ensures fails { spec.IsInOrder spec.range_of run →
        IfErr result (λ e. Fails e (spec.runs_result key.now seqno None (run ∷ []))) }
    // The range is over the span within the bounds.
    ensures steps { spec.IsInOrder spec.range_of run →
        ReadsSpans ⟦<NewestOfRuns<A> as Iterator>⟧.next_gives
        ⟦<NewestOfRuns<A> as DoubleEndedIterator>⟧.next_back_gives range
        (run ∷ []) result }
{
    let runs = [Arc::new(alloc.clone()?, run)?];
    read_runs(&alloc, &runs, key, seqno, range)
}
