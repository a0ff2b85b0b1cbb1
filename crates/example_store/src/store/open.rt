//! Opening a store from the state of a closed one.
ghost use Rattle.std.specs.Prelude.{◌≡◌, ◌-◌, ◌^◌, ◌<◌, ◌≤◌, ◌⊎◌, [], IfErr, IfOk, IsOk, List, Ok};
ghost use Rattle.std.specs.Prelude.{false, length, map, true, ℕ};
ghost use Rattle.example_store.specs.Words as spec;
ghost use Rattle.example_store.specs.declared.store.open.OpenError.TheVariants.{OutOfMemory};

use crate::memtable::Memtable;
use crate::store::compact::{Runs, push_shared};
use crate::store::order::are_strict;
use crate::store::{Closed, Store};
use lsm_tables::block::{Checksum, Error, SeqNo, Slice};
use lsm_tables::run::Run;
use lsm_tables::table::{Finding, Table, VerifyError};
use std::alloc::{AllocError, AllocFailed, Allocator};
use std::sync::Arc;

/// A fault of a file of a store.
#[derive(Debug, Drop)]
pub enum FileFault {
    /// It does not open as a table.
    Unopened(Error),
    /// It opens, but does not store a list.
    Invalid(Finding),
    /// It has no entry.
    Empty,
    /// It has an entry with a seqno not below that of the next write.
    TooHigh,
    /// It has a weak tombstone.
    Weak,
}

/// Why a store does not open.
///
/// A run is named by its index, a file by its index in its run.
#[derive(Debug, Drop)]
pub enum OpenError {
    /// Out of memory, whatever the files hold.
    OutOfMemory,
    /// The next write would have the seqno `u64::MAX`, which no store reaches.
    SeqNoOverflow,
    /// The oldest snapshot is above that of all writes.
    OldestTooHigh,
    /// A file at fault, by the index of its run and its index in it.
    File(usize, usize, FileFault),
    /// A run without files.
    NoFile(usize),
    /// A run whose files are not in the order of their keys.
    OutOfOrder(usize),
    /// Two entries that have one key and one seqno.
    Repeated,
}

impl From<AllocError> for OpenError {
    ghost use Rattle.std.specs.Prelude.{◌≡◌};
    ghost use Rattle.example_store.specs.declared.store.open.OpenError.TheVariants.{OutOfMemory};

    ghost from_gives = { λ _ e. e ≡ OutOfMemory };

    fn from(_: AllocError) -> OpenError {
        OpenError::OutOfMemory
    }
}

impl<T: Drop> From<AllocFailed<T>> for OpenError {
    ghost use Rattle.std.specs.Prelude.{◌≡◌};
    ghost use Rattle.example_store.specs.declared.store.open.OpenError.TheVariants.{OutOfMemory};

    ghost from_gives = { λ _ e. e ≡ OutOfMemory };

    fn from(_: AllocFailed<T>) -> OpenError {
        OpenError::OutOfMemory
    }
}

impl<A: Allocator + Clone> Store<A> {
    /// Opens a store from what [`Store::close`] returned, or from files and counters of any other
    /// origin.
    ///
    /// Each file is opened and verified, and then all are read together. `limit` and `target` are
    /// those of [`Store::new`]. The files' bytes are shared.
    ///
    /// # Errors
    ///
    /// The first fault, in this order:
    ///
    /// - [`OpenError::SeqNoOverflow`] if `next` is `u64::MAX`;
    /// - [`OpenError::OldestTooHigh`] if `oldest` is above `next`;
    /// - run by run, and in a run file by file, [`OpenError::File`] if a file has a [`FileFault`];
    /// - after the files of each run, [`OpenError::NoFile`] if it has none, or
    ///   [`OpenError::OutOfOrder`] if they overlap or descend;
    /// - [`OpenError::Repeated`] if two entries of all have one key and one seqno.
    ///
    /// Each step may fail with [`OpenError::OutOfMemory`].
    pub fn open(
        alloc: A,
        limit: usize,
        target: u64,
        closed: &Closed<A>,
    ) -> Result<Store<A>, OpenError>
        // It has what was closed, and nothing else.
        ensures opened { IfOk result (λ store. spec.IsClosed store closed.now) }
        ensures limit { IfOk result (λ store. store.limit ≡ limit) }
        ensures target { IfOk result (λ store. store.target ≡ target) }
        // Each file stores a list, and its reads rest on these lists alone.
        ensures lists { IfOk result (λ store. (lists : spec.TableLists) × spec.StoreLists
            (spec.files_in closed.now) lists × spec.RunsHoldLists store.runs lists) }
        // The snapshot of all writes is kept.
        ensures kept { IfOk result (λ _. closed.now.oldest ≤ closed.now.next) }
        // It reads as the history that the closed store read as.
        ensures story { (s : spec.Holding) (ws : List spec.Entry) → spec.IsStore s →
            spec.IsClosed s closed.now →
            spec.IsReported s ws → IfOk result (λ store. spec.IsReported store ws) }
        // Opening a closed store fails with `OutOfMemory` only.
        ensures taken { (s : spec.Holding) → spec.IsStore s → spec.IsClosed s closed.now →
            IfErr result (λ e. e ≡ OutOfMemory) }
        // Except for `OutOfMemory`, the error names the first fault.
        ensures refused { IfErr result (spec.IsOpenFault closed.now) }
    {
        test_numbers(closed.next, closed.oldest)?;
        let runs = open_runs(&alloc, &closed.files, closed.next)?;
        test_order(&alloc, &runs)?;
        let memtable = Memtable::new(alloc.clone()?);
        Ok(Store {
            alloc,
            limit,
            target,
            memtable,
            runs,
            ids: closed.ids,
            next: closed.next,
            flushed: closed.next,
            oldest: closed.oldest,
        })
    }
}

// Tests that the next write has a seqno, and that the snapshot of all writes is kept.
fn test_numbers(next: SeqNo, oldest: SeqNo) -> Result<(), OpenError>
    ensures room { IfOk result (λ _. next < 2 ^ 64 - 1) }
    ensures kept { IfOk result (λ _. oldest ≤ next) }
    ensures taken { next < 2 ^ 64 - 1 → oldest ≤ next → IsOk result }
    ensures named { IfErr result (λ e. (e ≡ spec.SeqNoOverflow) × (next ≡ 2 ^ 64 - 1) ⊎
        (e ≡ spec.OldestTooHigh) × (next < oldest)) }
{
    if next == SeqNo::MAX {
        return Err(OpenError::SeqNoOverflow);
    }
    if oldest > next {
        return Err(OpenError::OldestTooHigh);
    }
    Ok(())
}

// The runs of some files, if each may be a store's.
fn open_runs<A: Allocator + Clone>(
    alloc: &A,
    files: &[Vec<Slice<A>, A>],
    next: SeqNo,
) -> Result<Runs<A>, OpenError>
    ensures own { IfOk result (λ runs.
        spec.AllByRecursion (spec.IsOwnRun next) (map spec.arc_value runs.items)) }
    ensures files { IfOk result (λ runs.
        spec.bytes_by_run (map spec.arc_value runs.items) ≡ map (λ run. run.items) files.now) }
    ensures taken { (runs : List (List spec.OpenTable)) →
        spec.AllByRecursion (spec.IsOwnRun next) runs →
        spec.bytes_by_run runs ≡ map (λ run. run.items) files.now →
        IfErr result (λ e. e ≡ OutOfMemory) }
    ensures named { IfErr result (spec.IsFirstFault next (map (λ run. run.items) files.now)) }
{
    let mut runs = Vec::new(alloc.clone()?);
    for run in files {
        let opened = open_run(alloc, run.as_slice(), next, runs.len())?;
        push_shared(&mut runs, alloc, opened)?;
    }
    Ok(runs)
}

// The run of some files, if it may be a store's.
fn open_run<A: Allocator + Clone>(
    alloc: &A,
    files: &[Slice<A>],
    next: SeqNo,
    place: usize,
) -> Result<Run<Table<A>, A>, OpenError>
    ensures own { IfOk result (spec.IsOwnRun next) }
    ensures files { IfOk result (λ run. map (λ (t : spec.OpenTable). t.bytes) run ≡ files.now) }
    ensures taken { (run : List spec.OpenTable) → spec.IsOwnRun next run →
        map (λ (t : spec.OpenTable). t.bytes) run ≡ files.now →
        IfErr result (λ e. e ≡ OutOfMemory) }
    ensures named { IfErr result (spec.NamesInRun next files.now place) }
{
    let mut tables = Vec::new(alloc.clone()?);
    for bytes in files {
        let table = open_file(alloc, bytes, next, (place, tables.len()))?;
        tables.push(table)?;
    }
    run_of_tables(tables, place)
}

// The run of some tables, if there are any and they are in order.
fn run_of_tables<A: Allocator + Clone>(
    tables: Vec<Table<A>, A>,
    place: usize,
) -> Result<Run<Table<A>, A>, OpenError>
    ensures run { IfOk result (λ run. run ≡ tables.items) }
    ensures some { IfOk result (λ _. 0 < length tables.items) }
    ensures order { IfOk result (λ _. spec.IsInOrder spec.range_of tables.items) }
    ensures taken { 0 < length tables.items → spec.IsInOrder spec.range_of tables.items →
        IsOk result }
    ensures named { IfErr result (λ e. (e ≡ spec.NoFile place) × (tables.items ≡ []) ⊎
        (e ≡ spec.OutOfOrder place) × (spec.IsInOrder spec.range_of tables.items → ⊥)) }
{
    let Some(run) = Run::new(tables) else {
        return Err(OpenError::NoFile(place));
    };
    if !run.is_in_order() {
        return Err(OpenError::OutOfOrder(place));
    }
    Ok(run)
}

// The table of a file, if it may be a store's. Errors name its index.
fn open_file<A: Allocator + Clone>(
    alloc: &A,
    bytes: &Slice<A>,
    next: SeqNo,
    place: (usize, usize),
) -> Result<Table<A>, OpenError>
    ensures own { IfOk result (spec.IsOwnTable next) }
    ensures file { IfOk result (λ t. t.bytes ≡ bytes.now) }
    ensures taken { (t : spec.OpenTable) → spec.IsOwnTable next t → t.bytes ≡ bytes.now →
        IfErr result (λ e. e ≡ OutOfMemory) }
    ensures named { IfErr result (spec.NamesFile next bytes.now place.0 place.1) }
{
    let table = open_table(alloc.clone()?, bytes.clone()?, place)?;
    test_table(&table, next, place)?;
    Ok(table)
}

// Opens a table. There is no known checksum to compare with its own.
fn open_table<A: Allocator + Clone>(
    alloc: A,
    bytes: Slice<A>,
    place: (usize, usize),
) -> Result<Table<A>, OpenError>
    ensures bytes { IfOk result (λ t. t.bytes ≡ bytes) }
    ensures unlifted { IfOk result (λ t. t.global_seqno ≡ 0) }
    ensures opens { IfOk result (λ t. spec.recovered_result bytes 0 true true ≡ Ok t.parts) }
    ensures taken { (es : List spec.Entry) → spec.StoresList bytes es →
        IfErr result (λ e. e ≡ OutOfMemory) }
    ensures named { (next : ℕ) → IfErr result (spec.NamesFile next bytes place.0 place.1) }
{
    match Table::recover(alloc, bytes, Checksum(0), 0, 0, true, true) {
        Ok(table) => Ok(table),
        Err(error) => Err(unopened(error, place)),
    }
}

// The error for a table that failed to open.
fn unopened(error: Error, place: (usize, usize)) -> OpenError
    ensures memory { spec.is_memory error ≡ true → result ≡ OutOfMemory }
    ensures named { spec.is_memory error ≡ false →
        result ≡ spec.File place.0 place.1 (spec.Unopened error) }
{
    match error {
        Error::OutOfMemory => OpenError::OutOfMemory,
        error => OpenError::File(place.0, place.1, FileFault::Unopened(error)),
    }
}

// Tests that a table stores a list, and that it may be a store's.
fn test_table<A: Allocator + Clone>(
    table: &Table<A>,
    next: SeqNo,
    place: (usize, usize),
) -> Result<(), OpenError>
    requires unlifted { table.now.global_seqno ≡ 0 }
    requires opens { spec.recovered_result table.now.bytes 0 true true ≡ Ok table.now.parts }
    ensures own { IfOk result (λ _. spec.IsOwnTable next table.now) }
    ensures taken { (es : List spec.Entry) → spec.StoresList table.now.bytes es → 0 < length es →
        spec.AllByRecursion (spec.IsOwn next) es → IfErr result (λ e. e ≡ OutOfMemory) }
    ensures named { IfErr result (spec.NamesFile next table.now.bytes place.0 place.1) }
{
    // Its metadata describes the list that it stores.
    table.tells_its_list();
    test_entries(table, place)?;
    if table.get_highest_seqno() >= next {
        return Err(OpenError::File(place.0, place.1, FileFault::TooHigh));
    }
    if table.weak_tombstone_count() > 0 {
        return Err(OpenError::File(place.0, place.1, FileFault::Weak));
    }
    Ok(())
}

// Tests that a table stores a list that has an entry.
fn test_entries<A: Allocator + Clone>(
    table: &Table<A>,
    place: (usize, usize),
) -> Result<(), OpenError>
    requires opens { spec.recovered_result table.now.bytes 0 true true ≡ Ok table.now.parts }
    ensures sound { IfOk result (λ _. (es : List spec.Entry) × spec.StoresList table.now.bytes es ×
        (0 < length es)) }
    ensures taken { (es : List spec.Entry) → spec.StoresList table.now.bytes es → 0 < length es →
        IfErr result (λ e. e ≡ OutOfMemory) }
    ensures named { (next : ℕ) →
        IfErr result (spec.NamesFile next table.now.bytes place.0 place.1) }
{
    table.tells_its_list();
    match table.verify() {
        Ok(verified) if verified.item_count == 0 => {
            Err(OpenError::File(place.0, place.1, FileFault::Empty))
        }
        Ok(_) => Ok(()),
        Err(VerifyError::OutOfMemory) => Err(OpenError::OutOfMemory),
        Err(VerifyError::Found(finding)) => {
            Err(OpenError::File(place.0, place.1, FileFault::Invalid(finding)))
        }
    }
}

// Tests that no two entries of some runs have one key and one seqno.
fn test_order<A: Allocator + Clone>(
    alloc: &A,
    runs: &[Arc<Run<Table<A>, A>, A>],
) -> Result<(), OpenError>
    requires some { spec.AllByRecursion (λ (run : List spec.OpenTable). 0 < length run)
        (spec.each_run runs.now) }
    ensures strict { (lists : spec.TableLists) → spec.RunsHold runs.now lists →
        spec.AllByRecursion spec.HaveEntries lists →
        IfOk result (λ _. spec.IsStrict (spec.union_in lists)) }
    ensures taken { (lists : spec.TableLists) → spec.RunsHold runs.now lists →
        spec.AllByRecursion spec.HaveEntries lists → spec.IsStrict (spec.union_in lists) →
        IfErr result (λ e. e ≡ OutOfMemory) }
    ensures named { IfErr result (λ e. (e ≡ OutOfMemory) ⊎ (e ≡ spec.Repeated)) }
{
    match are_strict(alloc, runs) {
        Ok(true) => Ok(()),
        Ok(false) => Err(OpenError::Repeated),
        // Reading verified tables fails for nothing else.
        Err(_) => Err(OpenError::OutOfMemory),
    }
}
