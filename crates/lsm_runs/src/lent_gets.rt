//! Point reads of several runs that borrow the entry from its table.
ghost use Rattle.std.specs.Prelude.{◌≡◌, ◌⊎◌, [], IfOk, IfSome, IsOk, List, None, Ok, Option};
ghost use Rattle.std.specs.Prelude.{is_some, length, slice_get, true};
ghost use Rattle.lsm_runs.specs.Words as spec;

use crate::runs::together;
use lsm_readers::Table;
use lsm_sorted::Run;
use sst_blocks::{EntryPlace, EntryRef, Error, Opened, SeqNo};
use std::alloc::Allocator;
use std::ops::Bound;
use std::sync::Arc;

/// The position of an entry in the tables of several runs.
///
/// It borrows nothing, so the owner of the runs can store it beside them.
#[derive(Clone, Copy)]
pub struct RunPlace {
    run: usize,
    table: usize,
    place: EntryPlace,
}

// The index of the one table of a run whose range has the key.
#[tactic(auto, using(crate::proofs::RunPlaces::index_of_key))]
fn index_of_key<A: Allocator + Clone>(run: &Run<Table<A>, A>, key: &[u8]) -> Option<usize>
    ensures { spec.IsInOrder spec.range_of run.now → spec.option_and_then (slice_get run.now) result
        ≡ spec.table_of_key spec.range_of key.now run.now }
{
    let (index, _) = run.range_overlap_indexes(Bound::Included(key), Bound::Included(key))?;
    Some(index)
}

// The result of reading one table, with the table's position.
fn found_in(
    run: usize,
    table: usize,
    found: Result<Option<EntryPlace>, Error>,
) -> Result<Option<RunPlace>, Error>
    ensures { result ≡ spec.result_map (spec.option_map (spec.run_place run table)) found }
{
    match found {
        Ok(Some(place)) => Ok(Some(RunPlace { run, table, place })),
        Ok(None) => Ok(None),
        Err(error) => Err(error),
    }
}

// The position of the first match in the one table of a run whose range has the key. Also the
// number of blocks loaded for it.
fn place_in_run<A: Allocator + Clone>(
    run: &Run<Table<A>, A>,
    number: usize,
    key: &[u8],
    seqno: SeqNo,
    key_hash: u64,
) -> (Result<Option<RunPlace>, Error>, Opened)
    requires { key_hash ≡ spec.hash_of key.now }
    ensures read { spec.IsInOrder spec.range_of run.now →
        spec.ReadsPlace run.now result (spec.run_read key.now seqno run.now) }
    ensures number { IfOk result.0 (λ found. IfSome found (λ p. p.run ≡ number)) }
    ensures there { IfOk result.0 (λ found. IfSome found (λ p.
        is_some (spec.placed_in_run run.now p) ≡ true)) }
    ensures few { spec.LoadsEach 1 result.1 }
{
    let Some(index) = index_of_key(run, key) else {
        return (Ok(None), Opened::none());
    };
    let Some(table) = run.as_slice().get(index) else {
        return (Ok(None), Opened::none());
    };
    let (found, opened) = table.get_place(key, seqno, key_hash);
    (found_in(number, index, found), opened)
}

/// Returns the entry at a position that [`place_in_runs`] returned for these runs, borrowed from
/// its table.
///
/// For other runs it returns some entry, or `None` if the position is outside of them.
pub fn entry_in_runs<'a, A: Allocator + Clone>(
    runs: &'a [Arc<Run<Table<A>, A>, A>],
    place: &RunPlace,
) -> Option<EntryRef<'a>>
    ensures { spec.option_map spec.entry_of_ref result ≡ spec.placed_in_runs
        (spec.each_run runs.now) place.now }
{
    let run = runs.get(place.run)?;
    let table = run.as_slice().get(place.table)?;
    table.entry_at(&place.place)
}

// The entry that was found.
fn found_entry<'a, A: Allocator + Clone>(
    runs: &'a [Arc<Run<Table<A>, A>, A>],
    found: &Option<RunPlace>,
) -> Option<EntryRef<'a>>
    ensures { spec.option_map spec.entry_of_ref result ≡ spec.option_and_then (spec.placed_in_runs
        (spec.each_run runs.now)) found.now }
{
    match found {
        Some(place) => entry_in_runs(runs, place),
        None => None,
    }
}

// The one of two positions whose entry is first: of one key, the one with the higher seqno. The
// first position, if neither entry is before the other.
#[tactic(auto, using(crate::proofs::LentGets::same_order))]
fn leading_place<A: Allocator + Clone>(
    runs: &[Arc<Run<Table<A>, A>, A>],
    first: Option<RunPlace>,
    second: Option<RunPlace>,
) -> Option<RunPlace>
    ensures leads { let entry = spec.option_and_then (spec.placed_in_runs (spec.each_run runs.now))
        in entry result ≡ spec.leading_of (entry first) (entry second) }
    ensures one { (result ≡ first) ⊎ (result ≡ second) }
{
    let Some(before) = found_entry(runs, &first) else {
        return second;
    };
    let Some(entry) = found_entry(runs, &second) else {
        return first;
    };
    if entry.compare_key(&before).is_lt() {
        second
    } else {
        first
    }
}

// Whether every seqno of a table is below that of the entry found.
fn is_older_than<A: Allocator>(table: &Table<A>, found: &Option<RunPlace>) -> bool
    ensures { (runs : List (List spec.OpenTable)) → IfSome found.now (spec.IsThere runs) →
        result ≡ spec.is_older (spec.option_and_then (spec.placed_in_runs runs) found.now)
        table.now }
{
    match found {
        Some(found) => table.get_highest_seqno() < found.place.seqno,
        None => false,
    }
}

// The position of the first match in a run, as in [`place_in_run`]; nothing if the table is older
// than the entry found.
fn place_in_run_behind<A: Allocator + Clone>(
    run: &Run<Table<A>, A>,
    number: usize,
    key: &[u8],
    seqno: SeqNo,
    key_hash: u64,
    found: &Option<RunPlace>,
) -> (Result<Option<RunPlace>, Error>, Opened)
    requires { key_hash ≡ spec.hash_of key.now }
    ensures read { spec.OnEntryStored found.now (λ before. spec.IsInOrder spec.range_of run.now →
        spec.ReadsPlace run.now result (spec.run_read_behind key.now seqno before run.now)) }
    ensures number { IfOk result.0 (λ next. IfSome next (λ p. p.run ≡ number)) }
    ensures there { IfOk result.0 (λ next. IfSome next (λ p.
        is_some (spec.placed_in_run run.now p) ≡ true)) }
    ensures few { spec.LoadsEach 1 result.1 }
{
    let Some(index) = index_of_key(run, key) else {
        return (Ok(None), Opened::none());
    };
    let Some(table) = run.as_slice().get(index) else {
        return (Ok(None), Opened::none());
    };
    if is_older_than(table, found) {
        return (Ok(None), Opened::none());
    }
    let (next, opened) = table.get_place(key, seqno, key_hash);
    (found_in(number, index, next), opened)
}

/// Returns the position of the entry that [`get_runs_ref`] returns, and the number of blocks loaded
/// for it.
///
/// # Errors
///
/// Those of [`place_in_runs`].
pub fn place_in_runs_counted<A: Allocator + Clone>(
    runs: &[Arc<Run<Table<A>, A>, A>],
    key: &[u8],
    seqno: SeqNo,
) -> (Result<Option<RunPlace>, Error>, Opened)
    // For runs in order, it is the result of reading the runs' tables, whatever their bytes, except
    // for `OutOfMemory`.
    ensures returned { spec.AreRunsInOrder runs.now → spec.Gives
        (spec.entry_stored (spec.each_run runs.now)) result.0
        (spec.runs_result key.now seqno None (spec.each_run runs.now)) }
    // For tables of lists, it is the first match in the sorted entries of all lists, global seqnos
    // applied.
    ensures list { spec.OnLists runs.now (λ lists.
        spec.Gives (spec.entry_stored (spec.each_run runs.now)) result.0
        (Ok (spec.point (spec.union_in lists) key.now seqno))) }
    // The blocks loaded are those of reading the runs' tables, up to the first error.
    ensures opened { spec.AreRunsInOrder runs.now →
        let read = spec.runs_read key.now seqno None (spec.each_run runs.now) in
        spec.Opens result.0 read.loads spec.none_opened result.1 }
    // An error of the first block loaded that is found before any allocation takes precedence over
    // `OutOfMemory`.
    ensures early { spec.AreRunsInOrder runs.now → spec.FaultsFirst result.0 (spec.runs_read key.now
        seqno None (spec.each_run runs.now)).early }
    // It does not fail if it loads no block, as when there are no runs.
    ensures calm { spec.AreRunsInOrder runs.now →
        (spec.runs_read key.now seqno None (spec.each_run runs.now)).loads ≡ [] → IsOk result.0 }
    // For any runs and any bytes, also on an error: at most one data block, one index block and one
    // filter block a run.
    ensures few { spec.LoadsEach (length runs.now) result.1 }
    // If a position was found, an entry is stored there.
    ensures there { IfOk result.0 (λ found. IfSome found (spec.IsThere (spec.each_run runs.now))) }
{
    let mut found = None;
    let mut opened = Opened::none();
    let key_hash = Table::<A>::key_hash(key);
    for (number, run) in runs.iter().enumerate() {
        let (returned, loads) = place_in_run(run, number, key, seqno, key_hash);
        opened = together(opened, loads);
        match returned {
            Ok(next) => found = leading_place(runs, found, next),
            Err(error) => return (Err(error), opened),
        }
    }
    (Ok(found), opened)
}

/// Returns the position of the entry that [`get_runs_ref`] returns.
///
/// The position borrows nothing: [`entry_in_runs`] borrows the entry from the runs.
///
/// # Errors
///
/// Those of [`get_runs_ref`].
pub fn place_in_runs<A: Allocator + Clone>(
    runs: &[Arc<Run<Table<A>, A>, A>],
    key: &[u8],
    seqno: SeqNo,
) -> Result<Option<RunPlace>, Error>
    // For runs in order, it is the result of reading the runs' tables, whatever their bytes, except
    // for `OutOfMemory`.
    ensures returned { spec.AreRunsInOrder runs.now →
        spec.Gives (spec.entry_stored (spec.each_run runs.now)) result
        (spec.runs_result key.now seqno None (spec.each_run runs.now)) }
    // For tables of lists, it is the first match in the sorted entries of all lists, global seqnos
    // applied.
    ensures list { spec.OnLists runs.now (λ lists.
        spec.Gives (spec.entry_stored (spec.each_run runs.now)) result
        (Ok (spec.point (spec.union_in lists) key.now seqno))) }
    // An error of the first block loaded that is found before any allocation takes precedence over
    // `OutOfMemory`.
    ensures early { spec.AreRunsInOrder runs.now →
        spec.FaultsFirst result (spec.runs_read key.now seqno None (spec.each_run runs.now)).early }
    // It does not fail if it loads no block, as when there are no runs.
    ensures calm { spec.AreRunsInOrder runs.now →
        (spec.runs_read key.now seqno None (spec.each_run runs.now)).loads ≡ [] → IsOk result }
    // If a position was found, an entry is stored there.
    ensures there { IfOk result (λ found. IfSome found (spec.IsThere (spec.each_run runs.now))) }
{
    place_in_runs_counted(runs, key, seqno).0
}

// Borrows what was found.
fn borrowed<'a, A: Allocator + Clone>(
    runs: &'a [Arc<Run<Table<A>, A>, A>],
    found: Result<Option<RunPlace>, Error>,
) -> Result<Option<EntryRef<'a>>, Error>
    ensures { spec.result_map (spec.option_map spec.entry_of_ref) result ≡ spec.result_map
        (spec.option_and_then (spec.placed_in_runs (spec.each_run runs.now))) found }
{
    match found {
        Ok(found) => Ok(found_entry(runs, &found)),
        Err(error) => Err(error),
    }
}

/// Returns what [`get_runs_ref`] returns, and the number of blocks loaded for it.
///
/// # Errors
///
/// Those of [`get_runs_ref`].
pub fn get_runs_ref_counted<'a, A: Allocator + Clone>(
    runs: &'a [Arc<Run<Table<A>, A>, A>],
    key: &[u8],
    seqno: SeqNo,
) -> (Result<Option<EntryRef<'a>>, Error>, Opened)
    // For runs in order, it is the result of reading the runs' tables, whatever their bytes, except
    // for `OutOfMemory`.
    ensures returned { spec.AreRunsInOrder runs.now → spec.Gives (spec.option_map spec.entry_of_ref)
        result.0 (spec.runs_result key.now seqno None (spec.each_run runs.now)) }
    // For tables of lists, it is the first match in the sorted entries of all lists, global seqnos
    // applied.
    ensures list { (lists : spec.TableLists) → spec.RunsHold runs.now lists →
        spec.Gives (spec.option_map spec.entry_of_ref) result.0
        (Ok (spec.point (spec.union_in lists) key.now seqno)) }
    // The blocks loaded are those of reading the runs' tables, up to the first error.
    ensures opened { spec.AreRunsInOrder runs.now →
        let read = spec.runs_read key.now seqno None (spec.each_run runs.now) in
        spec.Opens result.0 read.loads spec.none_opened result.1 }
    // An error of the first block loaded that is found before any allocation takes precedence over
    // `OutOfMemory`.
    ensures early { spec.AreRunsInOrder runs.now → spec.FaultsFirst result.0 (spec.runs_read key.now
        seqno None (spec.each_run runs.now)).early }
    // It does not fail if it loads no block, as when there are no runs.
    ensures calm { spec.AreRunsInOrder runs.now →
        (spec.runs_read key.now seqno None (spec.each_run runs.now)).loads ≡ [] → IsOk result.0 }
    // For any runs and any bytes, also on an error: at most one data block, one index block and one
    // filter block a run.
    ensures few { spec.LoadsEach (length runs.now) result.1 }
{
    let (found, opened) = place_in_runs_counted(runs, key, seqno);
    (borrowed(runs, found), opened)
}

/// Returns the newest version of a key visible at `seqno` in several runs, borrowed from its table.
///
/// It returns what [`crate::get_runs`] returns, without taking a reference count. A tombstone is
/// returned as an entry. It reads at most one table a run, the one whose range has the key.
///
/// # Errors
///
/// The first error of these reads, in the order of the runs. It does not fail if it loads no block.
pub fn get_runs_ref<'a, A: Allocator + Clone>(
    runs: &'a [Arc<Run<Table<A>, A>, A>],
    key: &[u8],
    seqno: SeqNo,
) -> Result<Option<EntryRef<'a>>, Error>
    // For runs in order, it is the result of reading the runs' tables, whatever their bytes, except
    // for `OutOfMemory`.
    ensures returned { spec.AreRunsInOrder runs.now → spec.Gives (spec.option_map spec.entry_of_ref)
        result (spec.runs_result key.now seqno None (spec.each_run runs.now)) }
    // For tables of lists, it is the first match in the sorted entries of all lists, global seqnos
    // applied.
    ensures list { (lists : spec.TableLists) → spec.RunsHold runs.now lists →
        spec.Gives (spec.option_map spec.entry_of_ref) result (Ok (spec.point (spec.union_in lists)
        key.now seqno)) }
    // An error of the first block loaded that is found before any allocation takes precedence over
    // `OutOfMemory`.
    ensures early { spec.AreRunsInOrder runs.now →
        spec.FaultsFirst result (spec.runs_read key.now seqno None (spec.each_run runs.now)).early }
    // It does not fail if it loads no block, as when there are no runs.
    ensures calm { spec.AreRunsInOrder runs.now →
        (spec.runs_read key.now seqno None (spec.each_run runs.now)).loads ≡ [] → IsOk result }
{
    get_runs_ref_counted(runs, key, seqno).0
}

/// Returns the position of the entry that [`get_runs_ref_by_age`] returns, and the number of blocks
/// loaded for it.
///
/// # Errors
///
/// Those of [`get_runs_ref_by_age`].
pub fn place_in_runs_by_age_counted<A: Allocator + Clone>(
    runs: &[Arc<Run<Table<A>, A>, A>],
    key: &[u8],
    seqno: SeqNo,
) -> (Result<Option<RunPlace>, Error>, Opened)
    // For runs in order, it is the result of reading the tables that are not skipped, whatever
    // their bytes, except for `OutOfMemory`.
    ensures returned { spec.AreRunsInOrder runs.now → spec.Gives
        (spec.entry_stored (spec.each_run runs.now)) result.0
        (spec.runs_read_by_age key.now seqno None (spec.each_run runs.now)).returned }
    // For tables of lists, it is the first match in the sorted entries of all lists, global seqnos
    // applied.
    ensures list { spec.OnLists runs.now (λ lists.
        spec.Gives (spec.entry_stored (spec.each_run runs.now)) result.0
        (Ok (spec.point (spec.union_in lists) key.now seqno))) }
    // The blocks loaded are those of reading the tables that are not skipped, up to the first
    // error.
    ensures opened { spec.AreRunsInOrder runs.now →
        let read = spec.runs_read_by_age key.now seqno None (spec.each_run runs.now) in
        spec.Opens result.0 read.loads spec.none_opened result.1 }
    // An error of the first block loaded that is found before any allocation takes precedence over
    // `OutOfMemory`.
    ensures early { spec.AreRunsInOrder runs.now →
        let read = spec.runs_read_by_age key.now seqno None (spec.each_run runs.now) in
        spec.FaultsFirst result.0 read.early }
    // It does not fail if it loads no block, as when there are no runs.
    ensures calm { spec.AreRunsInOrder runs.now →
        let read = spec.runs_read_by_age key.now seqno None (spec.each_run runs.now) in
        read.loads ≡ [] → IsOk result.0 }
    // For any runs and any bytes, also on an error: at most one data block, one index block and one
    // filter block a run.
    ensures few { spec.LoadsEach (length runs.now) result.1 }
    // If a position was found, an entry is stored there.
    ensures there { IfOk result.0 (λ found. IfSome found (spec.IsThere (spec.each_run runs.now))) }
{
    let mut found = None;
    let mut opened = Opened::none();
    let key_hash = Table::<A>::key_hash(key);
    for (number, run) in runs.iter().enumerate() {
        let (returned, loads) = place_in_run_behind(run, number, key, seqno, key_hash, &found);
        opened = together(opened, loads);
        match returned {
            Ok(next) => found = leading_place(runs, found, next),
            Err(error) => return (Err(error), opened),
        }
    }
    (Ok(found), opened)
}

/// Returns the newest version of a key visible at `seqno` in several runs, borrowed from its table,
/// and skips older tables.
///
/// It reads as [`get_runs_ref`] does, but skips a table whose highest seqno is below that of the
/// version found in earlier runs. It reads the fewest tables if the newest run comes first. For
/// tables of lists, any order yields the same result. A tombstone is returned as an entry.
///
/// # Errors
///
/// The first error of these reads, in the order of the runs. A skipped table causes no error.
///
/// # Examples
///
/// ```
/// if let Some(entry) = memtable.get(key, seqno) {
///     return Ok(Some(entry));
/// }
/// get_runs_ref_by_age(runs, key, seqno)
/// ```
pub fn get_runs_ref_by_age<'a, A: Allocator + Clone>(
    runs: &'a [Arc<Run<Table<A>, A>, A>],
    key: &[u8],
    seqno: SeqNo,
) -> Result<Option<EntryRef<'a>>, Error>
    // For runs in order, it is the result of reading the tables that are not skipped, whatever
    // their bytes, except for `OutOfMemory`.
    ensures returned { spec.AreRunsInOrder runs.now → let read = spec.runs_read_by_age key.now seqno
        None (spec.each_run runs.now) in spec.Gives (spec.option_map spec.entry_of_ref) result
        read.returned }
    // For tables of lists, it is the first match in the sorted entries of all lists, global seqnos
    // applied.
    ensures list { (lists : spec.TableLists) → spec.RunsHold runs.now lists →
        spec.Gives (spec.option_map spec.entry_of_ref) result (Ok (spec.point (spec.union_in lists)
        key.now seqno)) }
    // An error of the first block loaded that is found before any allocation takes precedence over
    // `OutOfMemory`.
    ensures early { spec.AreRunsInOrder runs.now →
        let read = spec.runs_read_by_age key.now seqno None (spec.each_run runs.now) in
        spec.FaultsFirst result read.early }
    // It does not fail if it loads no block, as when there are no runs.
    ensures calm { spec.AreRunsInOrder runs.now →
        let read = spec.runs_read_by_age key.now seqno None (spec.each_run runs.now) in
        read.loads ≡ [] → IsOk result }
{
    let (found, _) = place_in_runs_by_age_counted(runs, key, seqno);
    borrowed(runs, found)
}
