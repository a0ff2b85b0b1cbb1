//! Several tables read as one: a list of runs, the newest first.
ghost use Rattle.std.specs.Prelude.{◌≡◌, ◌≢◌, ◌∷◌, ◌⊎◌, ◌++◌, [], false, IsSomeAnd, None, Some};
ghost use Rattle.std.specs.Prelude.{true};
ghost use Rattle.sst_c.specs.Words as spec;

use crate::codes::{CLOSED, OPEN, OTHER_KIND, OUT_OF_ORDER};
use crate::entries::{EntryReport, tell};
use crate::handle::Handle;
use crate::held::{FoundEntry, Held, What};
use crate::run_list::RunList;
use lsm_readers::Table;
use lsm_runs::{RunPlace, place_in_runs};
use lsm_sorted::Ranged;
use sst_blocks::{Error, SeqNo};
use std::alloc::Global;

/// Opens an empty list of runs.
///
/// `runs` must be closed.
///
/// # Errors
///
/// - 101: `runs` is open.
/// - 1: out of memory.
///
/// On error, `runs` is unchanged.
#[unsafe(no_mangle)]
pub extern "C" fn sst_runs_open(alloc: Global, runs: &mut Handle) -> u32
    ensures opens { spec.OpensHandle runs.old.boxed.value runs.new.boxed.value result }
    ensures memory { runs.old.boxed.value ≡ None → result ≢ 0 → result ≡ 1 }
    ensures new { result ≡ 0 → IsSomeAnd runs.new.boxed.value (λ h. spec.found_by h ≡ None) }
    ensures kind { result ≡ 0 → IsSomeAnd runs.new.boxed.value (λ h. spec.are_runs h.what ≡ true) }
    ensures none { result ≡ 0 → IsSomeAnd runs.new.boxed.value (λ h. spec.runs_held h.what ≡ []) }
{
    if runs.is_open() {
        return OPEN;
    }
    runs.begin(alloc, What::Runs(RunList::new(alloc)))
}

// Adds a run of the table at the end, if its key range is well-formed.
fn add_table_to(alloc: Global, runs: &mut RunList, table: &Table) -> u32
    ensures turned { spec.is_well_formed (spec.range_of table.now) ≡ false → result ≡ 104 }
    ensures memory { spec.is_well_formed (spec.range_of table.now) ≡ true →
        (result ≡ 0) ⊎ (result ≡ 1) }
    ensures added { result ≡ 0 → runs.new ≡ runs.old ++ (table.now ∷ []) ∷ [] }
    ensures left { result ≢ 0 → runs.new ≡ runs.old }
    ensures one { (runs.new ≡ runs.old) ⊎ (runs.new ≡ runs.old ++ (table.now ∷ []) ∷ []) }
{
    if !table.key_range().is_well_formed() {
        return OUT_OF_ORDER;
    }
    runs.push(alloc, table)
}

// Adds a table to the held runs.
fn add_table(alloc: Global, held: &mut Held, table: &Table) -> u32
    ensures other { spec.are_runs held.old.what ≡ false →
        (result ≡ 102) × (held.new.what ≡ held.old.what) }
    ensures turned { spec.are_runs held.old.what ≡ true →
        spec.is_well_formed (spec.range_of table.now) ≡ false → result ≡ 104 }
    ensures memory { spec.are_runs held.old.what ≡ true →
        spec.is_well_formed (spec.range_of table.now) ≡ true → (result ≡ 0) ⊎ (result ≡ 1) }
    ensures kind { spec.are_runs held.new.what ≡ spec.are_runs held.old.what }
    ensures found { spec.found_by held.new ≡ spec.found_by held.old }
    ensures added { result ≡ 0 →
        spec.runs_held held.new.what ≡ spec.runs_held held.old.what ++ (table.now ∷ []) ∷ [] }
    ensures left { result ≢ 0 → spec.runs_held held.new.what ≡ spec.runs_held held.old.what }
{
    match &mut held.what {
        What::Runs(runs) => {
            held.found.settle(runs);
            add_table_to(alloc, runs, table)
        }
        _ => OTHER_KIND,
    }
}

fn add_held(alloc: Global, held: &mut Held, table: &Held) -> u32
    ensures adds { spec.AddsToRuns table.now.what held.old.what result held.new.what }
    ensures kind { spec.are_runs held.new.what ≡ spec.are_runs held.old.what }
    ensures found { spec.found_by held.new ≡ spec.found_by held.old }
    ensures left { result ≢ 0 → spec.runs_held held.new.what ≡ spec.runs_held held.old.what }
{
    match &table.what {
        What::Table(table) => add_table(alloc, held, table),
        _ => OTHER_KIND,
    }
}

fn add_to(alloc: Global, runs: &mut Handle, table: &Held) -> u32
    ensures shut { runs.old.boxed.value ≡ None →
        (result ≡ 100) × (runs.new.boxed.value ≡ None) }
    ensures adds { (h : spec.HeldValue) → runs.old.boxed.value ≡ Some h →
        IsSomeAnd runs.new.boxed.value (λ k. spec.AddsToRuns table.now.what h.what result k.what) }
    ensures kind { (h : spec.HeldValue) → runs.old.boxed.value ≡ Some h →
        IsSomeAnd runs.new.boxed.value (λ k. spec.are_runs k.what ≡ spec.are_runs h.what) }
    ensures found { (h : spec.HeldValue) → runs.old.boxed.value ≡ Some h →
        IsSomeAnd runs.new.boxed.value (λ k. spec.found_by k ≡ spec.found_by h) }
    ensures left { (h : spec.HeldValue) → runs.old.boxed.value ≡ Some h → result ≢ 0 →
        IsSomeAnd runs.new.boxed.value (λ k. spec.runs_held k.what ≡ spec.runs_held h.what) }
{
    let Some(mut held) = runs.take(alloc) else {
        return CLOSED;
    };
    let code = add_held(alloc, &mut held, table);
    runs.put(held);
    code
}

/// Adds a table to the end of a list of runs, as the oldest run.
///
/// The list holds a reference to the table, which may be closed before it.
///
/// # Errors
///
/// - 100: a handle is closed.
/// - 102: `runs` holds no list of runs, or `table` no table.
/// - 104: the table claims a least key above its greatest.
/// - 1: out of memory.
///
/// On error, the list is unchanged.
#[unsafe(no_mangle)]
pub extern "C" fn sst_runs_add(alloc: Global, runs: &mut Handle, table: &mut Handle) -> u32
    ensures kept { table.new.boxed.value ≡ table.old.boxed.value }
    ensures shut { runs.old.boxed.value ≡ None →
        (result ≡ 100) × (runs.new.boxed.value ≡ None) }
    ensures table_shut { table.old.boxed.value ≡ None →
        (result ≡ 100) × (runs.new.boxed.value ≡ runs.old.boxed.value) }
    ensures adds { (h t : spec.HeldValue) → runs.old.boxed.value ≡ Some h →
        table.old.boxed.value ≡ Some t →
        IsSomeAnd runs.new.boxed.value (λ k. spec.AddsToRuns t.what h.what result k.what) }
    // It stays a list of runs. The entry found by its last read is unchanged.
    ensures kind { (h : spec.HeldValue) → runs.old.boxed.value ≡ Some h →
        IsSomeAnd runs.new.boxed.value (λ k. spec.are_runs k.what ≡ spec.are_runs h.what) }
    ensures found { (h : spec.HeldValue) → runs.old.boxed.value ≡ Some h →
        IsSomeAnd runs.new.boxed.value (λ k. spec.found_by k ≡ spec.found_by h) }
    ensures left { (h : spec.HeldValue) → runs.old.boxed.value ≡ Some h → result ≢ 0 →
        IsSomeAnd runs.new.boxed.value (λ k. spec.runs_held k.what ≡ spec.runs_held h.what) }
{
    let Some(held) = table.take(alloc) else {
        return CLOSED;
    };
    let code = add_to(alloc, runs, &held);
    table.put(held);
    code
}

// Keeps the position that a read found, or none if it failed. Returns 0 or the error code.
fn keep_place(found: &mut FoundEntry, outcome: Result<Option<RunPlace>, Error>) -> u32
    ensures code { result ≡ spec.result_code outcome }
    ensures found { found.new ≡ spec.kept_in_runs outcome }
{
    match outcome {
        Ok(Some(place)) => {
            *found = FoundEntry::InRuns(place);
            0
        }
        Ok(None) => {
            found.clear();
            0
        }
        Err(error) => {
            found.clear();
            u32::from(error.number())
        }
    }
}

// Reads a key in a list of runs, and keeps the position of the entry that it finds.
fn get_in(runs: &RunList, key: &[u8], seqno: SeqNo, found: &mut FoundEntry) -> u32
    ensures { spec.GetsFromRuns runs.now key.now seqno result
        (spec.found_at found.new (spec.RunsOf runs.now)) }
{
    keep_place(found, place_in_runs(runs.as_slice(), key, seqno))
}

fn get(held: &mut Held, key: &[u8], seqno: SeqNo) -> u32
    ensures kept { held.new.what ≡ held.old.what }
    ensures other { spec.are_runs held.old.what ≡ false →
        (result ≡ 102) × (spec.found_by held.new ≡ None) }
    ensures gets { spec.are_runs held.old.what ≡ true → spec.GetsFromRuns
        (spec.runs_held held.old.what) key.now seqno result (spec.found_by held.new) }
{
    match &held.what {
        What::Runs(runs) => get_in(runs, key, seqno, &mut held.found),
        _ => {
            held.found.clear();
            OTHER_KIND
        }
    }
}

/// Finds the newest version of a key visible at `seqno` in a list of runs.
///
/// A read at `seqno` sees versions with a smaller sequence number, in all tables together. The
/// handle has then found this entry, and `entry` gets its kind, sequence number and lengths. If
/// there is none, it has found nothing, and `entry` is zero.
///
/// # Errors
///
/// - 100: the handle is closed.
/// - 102: the handle holds no list of runs.
/// - An error code of `get_runs`.
///
/// On error nothing is found, and `entry` is zero.
#[unsafe(no_mangle)]
pub extern "C" fn sst_runs_get(
    alloc: Global,
    runs: &mut Handle,
    key: &[u8],
    seqno: u64,
    entry: &mut EntryReport,
) -> u32
    ensures reads { spec.ReadsThrough spec.are_runs runs.old.boxed.value runs.new.boxed.value result
        entry.new }
    ensures kept { (h : spec.HeldValue) → runs.old.boxed.value ≡ Some h →
        IsSomeAnd runs.new.boxed.value (λ k. k.what ≡ h.what) }
    ensures got { (h : spec.HeldValue) → runs.old.boxed.value ≡ Some h →
        spec.are_runs h.what ≡ true → spec.GetsFromRuns (spec.runs_held h.what) key.now seqno result
        (spec.found_in runs.new.boxed.value) }
{
    *entry = tell(None);
    let Some(mut held) = runs.take(alloc) else {
        return CLOSED;
    };
    let code = get(&mut held, key, seqno);
    *entry = tell(held.found_entry());
    runs.put(held);
    code
}
