//! Reading several runs as one.
ghost use Rattle.std.specs.Prelude.{◌≡◌, ℕ, [], IfErr, IfOk, IsOk, None, Ok, Option, Some, length};
ghost use Rattle.lsm_runs.specs.Words as spec;

use crate::RunReader;
use lsm_readers::Table;
use lsm_run_parts::share;
use lsm_sorted::{
    Below, Merger, MvccStream, NewestOf, Run, each_below, leading, newest_from_both_ends, newest_of,
};
use sst_blocks::{Error, InternalValue, IterItem, Lending, Opened, SeqNo, UserKey};
use std::alloc::Allocator;
use std::ops::Bound;
use std::sync::Arc;

/// The stream that [`range_runs`] returns: the newest version of each key of several runs, from
/// both ends.
pub type NewestOfRuns<A> = NewestOf<RunReader<A>, A>;

/// The stream that [`range_runs_at`] returns: the newest version below a seqno of each key of
/// several runs, from both ends.
pub type NewestOfRunsAt<A> = NewestOf<Below<RunReader<A>>, A>;

// The reader of a run within both bounds, if a table's range reaches past them.
fn reader_of<A: Allocator + Clone>(
    run: &Arc<Run<Table<A>, A>, A>,
    range: &(Bound<UserKey<A>>, Bound<UserKey<A>>),
) -> Result<Option<RunReader<A>>, Error>
    // For tables of lists in a run in order, it yields the part within the bounds; without a reader
    // there is none.
    ensures list { spec.ReaderYieldsList ⟦<RunReader<A> as Iterator>⟧.next_gives
        ⟦<RunReader<A> as DoubleEndedIterator>⟧.next_back_gives (spec.arc_value run.now)
        range.now.0 range.now.1 result }
    ensures lends { spec.ReaderYieldsList ⟦<RunReader<A> as Lending>⟧.advances
        ⟦<RunReader<A> as DoubleEndedIterator>⟧.next_back_gives (spec.arc_value run.now)
        range.now.0 range.now.1 result }
    // For any tables in a run in order, it is the reader of the span of those whose ranges reach
    // past both bounds.
    ensures span { spec.IsReaderWithin (spec.arc_value run.now) range.now.0 range.now.1 result }
    ensures err { IfErr result (λ e. e ≡ spec.OutOfMemory) }
{
    let bounds = (share(&range.0)?, share(&range.1)?);
    RunReader::new(run.clone()?, bounds)
}

// A reader of each run that has a table whose range reaches past both bounds.
fn readers_of<A: Allocator + Clone>(
    alloc: A,
    runs: &[Arc<Run<Table<A>, A>, A>],
    range: &(Bound<UserKey<A>>, Bound<UserKey<A>>),
) -> Result<Vec<RunReader<A>, A>, Error>
    // For tables of lists in runs in order, they yield together the part of each run within the
    // bounds.
    ensures list { spec.ReadersYield ⟦<RunReader<A> as Iterator>⟧.next_gives
        ⟦<RunReader<A> as DoubleEndedIterator>⟧.next_back_gives range.now.0 range.now.1 runs.now
        result }
    ensures lends { spec.ReadersYield ⟦<RunReader<A> as Lending>⟧.advances
        ⟦<RunReader<A> as DoubleEndedIterator>⟧.next_back_gives range.now.0 range.now.1 runs.now
        result }
    // For any tables in runs in order, they are the readers of the spans.
    ensures spans { spec.AreRunsInOrder runs.now → IfOk result (λ v.
        spec.AreReadersWithin range.now.0 range.now.1 (spec.each_run runs.now) v.items) }
    ensures err { IfErr result (λ e. e ≡ spec.OutOfMemory) }
{
    let mut readers = Vec::with_capacity(alloc, runs.len())?;
    for run in runs {
        if let Some(reader) = reader_of(run, range)? {
            readers.push(reader)?;
        }
    }
    Ok(readers)
}

// The readers of several runs within bounds, which the call takes and drops. Each yields the same
// entries by value and borrowed.
pub(crate) fn readers_within<A: Allocator + Clone>(
    alloc: A,
    runs: &[Arc<Run<Table<A>, A>, A>],
    range: (Bound<UserKey<A>>, Bound<UserKey<A>>),
) -> Result<Vec<RunReader<A>, A>, Error>
    ensures list { spec.ReadersYield ⟦<RunReader<A> as Iterator>⟧.next_gives
        ⟦<RunReader<A> as DoubleEndedIterator>⟧.next_back_gives range.0 range.1 runs.now result }
    ensures lends { spec.ReadersYield ⟦<RunReader<A> as Lending>⟧.advances
        ⟦<RunReader<A> as DoubleEndedIterator>⟧.next_back_gives range.0 range.1 runs.now result }
    ensures spans { spec.AreRunsInOrder runs.now → IfOk result (λ v.
        spec.AreReadersWithin range.0 range.1 (spec.each_run runs.now) v.items) }
    ensures err { IfErr result (λ e. e ≡ spec.OutOfMemory) }
{
    readers_of(alloc, runs, &range)
}

// The newest versions of double-ended sources. Generic, so that a proof does not unfold a reader's
// parts.
pub(crate) fn newest_stream<I: DoubleEndedIterator<Item = IterItem<A>>, A: Allocator + Clone>(
    alloc: A,
    sources: Vec<I, A>,
) -> Result<NewestOf<I, A>, Error>
    ensures starts { IfOk result (spec.IsNewestOf sources.items) }
    ensures yields { IfOk result (spec.YieldsNewest I.next_gives I.next_back_gives sources.items
        ⟦<NewestOf<I, A> as Iterator>⟧.next_gives
        ⟦<NewestOf<I, A> as DoubleEndedIterator>⟧.next_back_gives) }
    ensures past { IfOk result (spec.AnswersNewest I.next_gives I.next_back_gives sources.items
        ⟦<NewestOf<I, A> as Iterator>⟧.next_gives
        ⟦<NewestOf<I, A> as DoubleEndedIterator>⟧.next_back_gives) }
    ensures can { let ends = ⟦<NewestOf<I, A> as DoubleEndedIterator>⟧ in
        IfOk result (spec.CanAskNewest I.next_gives I.next_back_gives I.can_next I.can_next_back
        I.remaining sources.items ends.next_gives ends.next_back_gives ends.can_next
        ends.can_next_back) }
    ensures err { IfErr result (λ e. e ≡ spec.OutOfMemory) }
{
    let stream = newest_of(alloc, sources)?;
    newest_from_both_ends(&stream);
    Ok(stream)
}

/// Returns a stream of the newest version of each key within both bounds, of several runs, from
/// both ends.
///
/// A tombstone is yielded as an entry. No table is opened yet. If a table cannot be opened or read,
/// the stream yields that error in place of all remaining entries, also those of other runs.
///
/// # Errors
///
/// The call fails with [`Error::OutOfMemory`] only.
pub fn range_runs<A: Allocator + Clone>(
    alloc: A,
    runs: &[Arc<Run<Table<A>, A>, A>],
    range: (Bound<UserKey<A>>, Bound<UserKey<A>>),
) -> Result<MvccStream<Merger<RunReader<A>, A>>, Error>
    // For tables of lists in runs in order, it yields the newest versions of all lists' entries
    // within the bounds, for every list of ends. Global seqnos are applied.
    ensures list { spec.RunsYieldNewest ⟦<NewestOfRuns<A> as Iterator>⟧.next_gives
        ⟦<NewestOfRuns<A> as DoubleEndedIterator>⟧.next_back_gives range.0 range.1 runs.now result }
    // For any tables in runs in order, it is a stream over the readers of the spans within the
    // bounds. An error of a reader, `OutOfMemory` too, takes the place of all entries that no step
    // has taken yet. After it, only an entry already read at the other end is yielded.
    ensures steps { spec.StepsOverSpans ⟦<NewestOfRuns<A> as Iterator>⟧.next_gives
        ⟦<NewestOfRuns<A> as DoubleEndedIterator>⟧.next_back_gives range.0 range.1 runs.now result }
    // Both ends may be called any number of times, whatever the tables' bytes.
    ensures can { let ends = ⟦<NewestOfRuns<A> as DoubleEndedIterator>⟧ in
        IfOk result (λ s. spec.CanYield ends.next_gives ends.next_back_gives ends.can_next
        ends.can_next_back s) }
    // So a `for` may iterate over it, from the front or from the back.
    ensures next { IfOk result (λ s. ⟦<NewestOfRuns<A> as Iterator>⟧.can_next s) }
    ensures next_back { IfOk result (λ s.
        ⟦<NewestOfRuns<A> as DoubleEndedIterator>⟧.can_next_back s) }
    ensures err { IfErr result (λ e. e ≡ spec.OutOfMemory) }
{
    let readers = readers_within(alloc.clone()?, runs, range)?;
    newest_stream(alloc, readers)
}

/// Returns a stream of the newest version visible at `seqno` of each key within both bounds, of
/// several runs, from both ends.
///
/// These are the versions that [`get_runs`] reads at `seqno`. A tombstone is yielded as an entry.
/// No table is opened yet. If a table cannot be opened or read, the stream yields that error in
/// place of all remaining entries, also those of other runs.
///
/// # Errors
///
/// The call fails with [`Error::OutOfMemory`] only.
///
/// # Examples
///
/// ```
/// let all = (Bound::Unbounded, Bound::Unbounded);
/// count_newest(range_runs_at(alloc, runs, all, seqno)?)
/// // ..
/// for item in items {
///     item?;
///     count = count.saturating_add(1);
/// }
/// ```
pub fn range_runs_at<A: Allocator + Clone>(
    alloc: A,
    runs: &[Arc<Run<Table<A>, A>, A>],
    range: (Bound<UserKey<A>>, Bound<UserKey<A>>),
    seqno: SeqNo,
) -> Result<MvccStream<Merger<Below<RunReader<A>>, A>>, Error>
    // For tables of lists in runs in order, it yields the newest versions below `seqno` of all
    // lists' entries within the bounds. This holds for every list of ends. Global seqnos are
    // applied.
    ensures list { spec.RunsYieldNewestBelow ⟦<NewestOfRunsAt<A> as Iterator>⟧.next_gives
        ⟦<NewestOfRunsAt<A> as DoubleEndedIterator>⟧.next_back_gives seqno range.0 range.1
        runs.now result }
    // If every seqno is below `seqno`, it yields what `range_runs` yields.
    ensures whole { spec.RunsYieldAllBelow ⟦<NewestOfRunsAt<A> as Iterator>⟧.next_gives
        ⟦<NewestOfRunsAt<A> as DoubleEndedIterator>⟧.next_back_gives seqno range.0 range.1
        runs.now result }
    // For any tables in runs in order, it is a stream over the readers of the spans within the
    // bounds, each below `seqno`. An error of a reader, `OutOfMemory` too, takes the place of all
    // entries that no step has taken yet. After it, only an entry already read at the other end is
    // yielded.
    ensures steps { let below = ⟦<Below<RunReader<A>> as DoubleEndedIterator>⟧ in
        let ends = ⟦<NewestOfRunsAt<A> as DoubleEndedIterator>⟧ in
        spec.AreRunsInOrder runs.now → IfOk result (spec.IsOverSpansBelow below.next_gives
        below.next_back_gives ends.next_gives ends.next_back_gives range.0 range.1 seqno
        (spec.each_run runs.now)) }
    // Both ends may be called any number of times, whatever the tables' bytes.
    ensures can { let ends = ⟦<NewestOfRunsAt<A> as DoubleEndedIterator>⟧ in
        IfOk result (λ s. spec.CanYield ends.next_gives ends.next_back_gives ends.can_next
        ends.can_next_back s) }
    // So a `for` may iterate over it, from the front or from the back.
    ensures next { IfOk result (λ s. ⟦<NewestOfRunsAt<A> as Iterator>⟧.can_next s) }
    ensures next_back { IfOk result (λ s.
        ⟦<NewestOfRunsAt<A> as DoubleEndedIterator>⟧.can_next_back s) }
    ensures err { IfErr result (λ e. e ≡ spec.OutOfMemory) }
{
    let within = readers_within(alloc.clone()?, runs, range)?;
    let sources = each_below(alloc.clone()?, within, seqno)?;
    newest_stream(alloc, sources)
}

// The first match in the one table of a run whose range has the key, and the number of blocks
// loaded for it.
fn get_run_counted<A: Allocator + Clone>(
    run: &Run<Table<A>, A>,
    key: &[u8],
    seqno: SeqNo,
    key_hash: u64,
) -> (Result<Option<InternalValue<A>>, Error>, Opened)
    requires { key_hash ≡ spec.hash_of key.now }
    ensures read { spec.IsInOrder spec.range_of run.now →
        spec.DoesRead spec.in_memory result.0 (spec.run_read key.now seqno run.now) spec.none_opened result.1 }
    ensures few { spec.LoadsEach 1 result.1 }
{
    match run.get_for_key(key) {
        Some(table) => table.get_counted(key, seqno, key_hash),
        None => (Ok(None), Opened::none()),
    }
}

/// The sum of two counts of loads.
pub(crate) fn together(first: Opened, second: Opened) -> Opened
    ensures { result ≡ spec.loads_together first second }
{
    Opened {
        data_loads: first.data_loads.saturating_add(second.data_loads),
        index_loads: first.index_loads.saturating_add(second.index_loads),
        filter_loads: first.filter_loads.saturating_add(second.filter_loads),
        meta_loads: first.meta_loads.saturating_add(second.meta_loads),
    }
}

/// Returns what [`get_runs`] returns, and the number of blocks loaded for it.
///
/// # Errors
///
/// Those of [`get_runs`].
pub fn get_runs_counted<A: Allocator + Clone>(
    runs: &[Arc<Run<Table<A>, A>, A>],
    key: &[u8],
    seqno: SeqNo,
) -> (Result<Option<InternalValue<A>>, Error>, Opened)
    // For runs in order, it is the result of reading the runs' tables, whatever their bytes, except
    // for `OutOfMemory`.
    ensures returned { spec.AreRunsInOrder runs.now → spec.Gives (λ (x : Option spec.Entry). x)
        result.0 (spec.runs_result key.now seqno None (spec.each_run runs.now)) }
    // For tables of lists, it is the first match in the sorted entries of all lists, global seqnos
    // applied.
    ensures list { (lists : spec.TableLists) → spec.RunsHold runs.now lists →
        spec.Gives (λ (x : Option spec.Entry). x) result.0 (Ok (spec.point (spec.union_in lists)
        key.now seqno)) }
    // The blocks loaded are those of reading the runs' tables, up to the first error.
    ensures opened { spec.AreRunsInOrder runs.now →
        let read = spec.runs_read key.now seqno None (spec.each_run runs.now) in
        spec.Opens result.0 read.loads spec.none_opened result.1 }
    // An error of the first block loaded that is found before any allocation takes precedence over
    // `OutOfMemory`.
    ensures early { spec.AreRunsInOrder runs.now → spec.FaultsFirst result.0 (spec.runs_read key.now
        seqno None (spec.each_run runs.now)).early }
    // It does not fail if it loads no block, as when there are no runs.
    ensures calm { spec.AreRunsInOrder runs.now →
        (spec.runs_read key.now seqno None (spec.each_run runs.now)).loads ≡ [] → IsOk result.0 }
    // For any runs and any bytes, also on an error: at most one data block, one index block and one
    // filter block a run.
    ensures few { spec.LoadsEach (length runs.now) result.1 }
{
    let mut found = None;
    let mut opened = Opened::none();
    let key_hash = Table::<A>::key_hash(key);
    for run in runs {
        let (returned, loads) = get_run_counted(run, key, seqno, key_hash);
        opened = together(opened, loads);
        match returned {
            Ok(next) => found = leading(found, next),
            Err(error) => return (Err(error), opened),
        }
    }
    (Ok(found), opened)
}

/// Returns the newest version of a key visible at `seqno` in several runs.
///
/// A tombstone is returned as an entry; see [`InternalValue::is_tombstone`]. It reads at most one
/// table a run, the one whose range has the key. For tables of lists, any order of the runs yields
/// the same entry, unless a key has one seqno twice.
///
/// # Errors
///
/// The first error of these reads, in the order of the runs. It does not fail if it loads no block.
///
/// # Examples
///
/// ```
/// let found = get_runs(runs, key, seqno)?;
/// let stream = range_runs(alloc.clone()?, runs, range)?;
/// Ok((found, stream))
/// ```
pub fn get_runs<A: Allocator + Clone>(
    runs: &[Arc<Run<Table<A>, A>, A>],
    key: &[u8],
    seqno: SeqNo,
) -> Result<Option<InternalValue<A>>, Error>
    // For runs in order, it is the result of reading the runs' tables, whatever their bytes, except
    // for `OutOfMemory`.
    ensures returned { spec.AreRunsInOrder runs.now → spec.Gives (λ (x : Option spec.Entry). x)
        result (spec.runs_result key.now seqno None (spec.each_run runs.now)) }
    // For tables of lists, it is the first match in the sorted entries of all lists, global seqnos
    // applied.
    ensures list { (lists : spec.TableLists) → spec.RunsHold runs.now lists →
        spec.Gives (λ (x : Option spec.Entry). x) result (Ok (spec.point (spec.union_in lists)
        key.now seqno)) }
    // An error of the first block loaded that is found before any allocation takes precedence over
    // `OutOfMemory`.
    ensures early { spec.AreRunsInOrder runs.now →
        spec.FaultsFirst result (spec.runs_read key.now seqno None (spec.each_run runs.now)).early }
    // It does not fail if it loads no block, as when there are no runs.
    ensures calm { spec.AreRunsInOrder runs.now →
        (spec.runs_read key.now seqno None (spec.each_run runs.now)).loads ≡ [] → IsOk result }
{
    get_runs_counted(runs, key, seqno).0
}
