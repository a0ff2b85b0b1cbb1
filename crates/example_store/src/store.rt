//! A store: writes with sequence numbers, and reads at snapshots.
ghost use Rattle.std.specs.Prelude.{◌≡◌, ◌+◌, ◌-◌, ◌^◌, ◌<◌, ◌≤◌, [], ◌∷◌, ◌++◌, map, Err, IfErr};
ghost use Rattle.std.specs.Prelude.{IfOk, IfSome, List, MatchOption, None, Ok, OnErr, OnOk};
ghost use Rattle.std.specs.Prelude.{Option, Some, false, length, ℕ};
ghost use Rattle.example_store.specs.Words as spec;
ghost use Rattle.lsm_tables.specs.Words.{OutOfMemory};

mod close;
mod compact;
mod open;
mod order;
mod part;
mod range;

use crate::memtable::Memtable;
pub use close::Closed;
use lsm_tables::block::{EntryRef, Error, InternalValue, SeqNo, Slice, ValueType};
use lsm_tables::run::{Run, get_runs_ref_by_age, write_run};
use lsm_tables::table::{Table, TableIds, Timestamp};
pub use open::{FileFault, OpenError};
pub use range::Range;
use std::alloc::{Allocator, Global};
use std::marker::Model;
use std::sync::Arc;

/// A store of keys and values, over a memtable and runs of tables.
///
/// Each write gets the next sequence number. A snapshot is a sequence number, and sees all writes
/// below it.
///
/// Its model is its state. Contracts state the history of writes that it reads as.
#[derive(Drop)]
pub struct Store<A: Allocator = Global> {
    alloc: A,
    // the number of entries at which the memtable is flushed
    limit: usize,
    // the target size of a table in bytes of data blocks
    target: u64,
    memtable: Memtable<A>,
    // the newest first
    runs: Vec<Arc<Run<Table<A>, A>, A>, A>,
    ids: TableIds,
    next: SeqNo,
    // the lower bound of the seqnos in the memtable
    flushed: SeqNo,
    // the oldest snapshot that is kept
    oldest: SeqNo,
}

impl<A: Allocator> Model for Store<A> {
    ghost use Rattle.std.specs.Prelude.{map};
    ghost use Rattle.std.specs.Arc.{arc_value};
    ghost use Rattle.example_store.specs.Story.{Holding, IsStore, holding};

    ghost Value = { Holding };

    ghost view = { λ s. holding s.memtable (map arc_value s.runs.items) s.ids s.target s.next
        s.flushed s.oldest s.limit };

    ghost invariant = { λ s. IsStore (holding s.memtable (map arc_value s.runs.items) s.ids
        s.target s.next s.flushed s.oldest s.limit) };
}

impl<A: Allocator + Clone> Store<A> {
    /// Returns a store without entries.
    ///
    /// The memtable is flushed before it has more than `limit` entries, or, for a limit of 0, more
    /// than one. Each table of a flush but the last has at least `target` bytes of data blocks.
    ///
    /// # Errors
    ///
    /// [`Error::OutOfMemory`] only.
    pub fn new(alloc: A, limit: usize, target: u64) -> Result<Store<A>, Error>
        ensures story { IfOk result (λ store. spec.IsReported store []) }
        ensures next { IfOk result (λ store. store.next ≡ 0) }
        ensures oldest { IfOk result (λ store. store.oldest ≡ 0) }
        ensures limit { IfOk result (λ store. store.limit ≡ limit) }
        ensures target { IfOk result (λ store. store.target ≡ target) }
        // The first table gets the id 1.
        ensures ids { IfOk result (λ store. store.ids ≡ Some 1) }
        ensures memory { IfErr result (λ e. e ≡ OutOfMemory) }
    {
        let memtable = Memtable::new(alloc.clone()?);
        let runs = Vec::new(alloc.clone()?);
        Ok(Store {
            alloc,
            limit,
            target,
            memtable,
            runs,
            ids: TableIds::new(1),
            next: 0,
            flushed: 0,
            oldest: 0,
        })
    }

    /// Returns the snapshot of all writes so far.
    pub fn snapshot(&self) -> SeqNo
        ensures { result ≡ self.now.next }
    {
        self.next
    }

    /// Returns the oldest snapshot that is kept.
    ///
    /// At this snapshot and later ones, a read returns what the history of writes says.
    pub fn oldest_snapshot(&self) -> SeqNo
        ensures { result ≡ self.now.oldest }
    {
        self.oldest
    }

    /// Writes a value.
    ///
    /// # Errors
    ///
    /// - [`Error::KeyTooLong`] or [`Error::ValueTooLong`] if a table does not take the key or the
    ///   value;
    /// - [`Error::SeqNoOverflow`] if no sequence number is left;
    /// - then, if the memtable is full, those of [`Store::flush`];
    /// - [`Error::OutOfMemory`].
    ///
    /// Nothing is written then, and nothing is lost.
    pub fn put(&mut self, key: &[u8], value: &[u8]) -> Result<(), Error>
        ensures written { (ws : List spec.Entry) → spec.IsReported self.old ws →
            OnOk result (spec.IsReported self.new
            (spec.entry key.now value.now self.old.next spec.Value ∷ ws)) }
        ensures kept { (ws : List spec.Entry) → spec.IsReported self.old ws →
            OnErr result (spec.IsReported self.new ws) }
        ensures next { OnOk result (self.new.next ≡ self.old.next + 1) }
        ensures stays { OnErr result (self.new.next ≡ self.old.next) }
        ensures oldest { self.new.oldest ≡ self.old.oldest }
        ensures limit { self.new.limit ≡ self.old.limit }
        ensures target { self.new.target ≡ self.old.target }
        // The entry is added to those of the memtable; a full memtable is flushed before.
        ensures taken { OnOk result
            (spec.IsTakenIn (spec.entry key.now value.now self.old.next spec.Value) self.old
            self.new) }
        ensures err { OnErr result (spec.StaysOrFlushes self.old self.new) }
        // No table is made if there is room.
        ensures waits { length self.old.recent < self.old.limit → self.new.runs ≡ self.old.runs }
        ensures room { length self.old.recent < self.old.limit →
            OnErr result (self.new ≡ self.old) }
        // An error of the write itself is found before anything is changed.
        ensures fault { (e : Error) → spec.put_fault self.old.next key.now value.now ≡ Some e →
            (result ≡ Err e) × (self.new ≡ self.old) }
        // Otherwise, except for `OutOfMemory`, the error is that of flushing a full memtable.
        ensures refused { spec.put_fault self.old.next key.now value.now ≡ None →
            IfErr result (spec.FailsToFlush self.old) }
    {
        self.write(key, value, ValueType::Value)
    }

    /// Deletes a key, whether it has a value or not.
    ///
    /// # Errors
    ///
    /// Those of [`Store::put`].
    pub fn delete(&mut self, key: &[u8]) -> Result<(), Error>
        ensures written { (ws : List spec.Entry) → spec.IsReported self.old ws →
            OnOk result (spec.IsReported self.new
            (spec.entry key.now [] self.old.next spec.Tombstone ∷ ws)) }
        ensures kept { (ws : List spec.Entry) → spec.IsReported self.old ws →
            OnErr result (spec.IsReported self.new ws) }
        ensures next { OnOk result (self.new.next ≡ self.old.next + 1) }
        ensures stays { OnErr result (self.new.next ≡ self.old.next) }
        ensures oldest { self.new.oldest ≡ self.old.oldest }
        ensures limit { self.new.limit ≡ self.old.limit }
        ensures target { self.new.target ≡ self.old.target }
        ensures taken { OnOk result
            (spec.IsTakenIn (spec.entry key.now [] self.old.next spec.Tombstone) self.old
            self.new) }
        ensures err { OnErr result (spec.StaysOrFlushes self.old self.new) }
        ensures waits { length self.old.recent < self.old.limit → self.new.runs ≡ self.old.runs }
        ensures room { length self.old.recent < self.old.limit →
            OnErr result (self.new ≡ self.old) }
        ensures fault { (e : Error) → spec.put_fault self.old.next key.now [] ≡ Some e →
            (result ≡ Err e) × (self.new ≡ self.old) }
        ensures refused { spec.put_fault self.old.next key.now [] ≡ None →
            IfErr result (spec.FailsToFlush self.old) }
    {
        self.write(key, b"", ValueType::Tombstone)
    }

    fn write(&mut self, key: &[u8], value: &[u8], kind: ValueType) -> Result<(), Error>
        requires kind { spec.is_weak_kind kind ≡ false }
        ensures written { (ws : List spec.Entry) → spec.IsReported self.old ws →
            OnOk result (spec.IsReported self.new
            (spec.entry key.now value.now self.old.next kind ∷ ws)) }
        ensures kept { (ws : List spec.Entry) → spec.IsReported self.old ws →
            OnErr result (spec.IsReported self.new ws) }
        ensures next { OnOk result (self.new.next ≡ self.old.next + 1) }
        ensures stays { OnErr result (self.new.next ≡ self.old.next) }
        ensures oldest { self.new.oldest ≡ self.old.oldest }
        ensures limit { self.new.limit ≡ self.old.limit }
        ensures target { self.new.target ≡ self.old.target }
        ensures taken { OnOk result
            (spec.IsTakenIn (spec.entry key.now value.now self.old.next kind) self.old self.new) }
        ensures err { OnErr result (spec.StaysOrFlushes self.old self.new) }
        ensures waits { length self.old.recent < self.old.limit → self.new.runs ≡ self.old.runs }
        ensures room { length self.old.recent < self.old.limit →
            OnErr result (self.new ≡ self.old) }
        ensures fault { (e : Error) → spec.put_fault self.old.next key.now value.now ≡ Some e →
            (result ≡ Err e) × (self.new ≡ self.old) }
        ensures refused { spec.put_fault self.old.next key.now value.now ≡ None →
            IfErr result (spec.FailsToFlush self.old) }
    {
        check_write(self.next, key, value)?;
        self.make_room()?;
        let item = entry_of(&self.alloc, key, value, self.next, kind)?;
        self.add(item)
    }

    // Flushes a memtable that is full.
    fn make_room(&mut self) -> Result<(), Error>
        ensures story { (ws : List spec.Entry) → spec.IsReported self.old ws →
            spec.IsReported self.new ws }
        ensures next { self.new.next ≡ self.old.next }
        ensures oldest { self.new.oldest ≡ self.old.oldest }
        ensures limit { self.new.limit ≡ self.old.limit }
        ensures target { self.new.target ≡ self.old.target }
        ensures waits { length self.old.recent < self.old.limit → self.new ≡ self.old }
        ensures flushed { self.old.limit ≤ length self.old.recent →
            OnOk result (spec.HasFlushed self.old self.new × (self.new.recent ≡ [])) }
        ensures err { OnErr result (self.new ≡ self.old) }
        ensures refused { IfErr result (spec.FailsToFlush self.old) }
    {
        if self.memtable.len() < self.limit {
            return Ok(());
        }
        self.flush()
    }

    // Adds an entry with the next seqno.
    fn add(&mut self, item: InternalValue<A>) -> Result<(), Error>
        requires number { item.seqno ≡ self.old.next }
        requires kind { spec.is_weak item ≡ false }
        requires room { self.old.next < 2 ^ 64 - 2 }
        ensures written { (ws : List spec.Entry) → spec.IsReported self.old ws →
            OnOk result (spec.IsReported self.new (item ∷ ws)) }
        ensures put { OnOk result (spec.IsPut item self.old.recent self.new.recent) }
        ensures next { OnOk result (self.new.next ≡ self.old.next + 1) }
        ensures oldest { self.new.oldest ≡ self.old.oldest }
        ensures limit { self.new.limit ≡ self.old.limit }
        ensures target { self.new.target ≡ self.old.target }
        ensures runs { self.new.runs ≡ self.old.runs }
        ensures ids { self.new.ids ≡ self.old.ids }
        ensures err { OnErr result (self.new ≡ self.old) }
        ensures memory { IfErr result (λ e. e ≡ OutOfMemory) }
    {
        self.memtable.insert(item)?;
        self.next += 1;
        Ok(())
    }

    /// Writes the memtable's entries as a run of tables, before the others.
    ///
    /// # Errors
    ///
    /// Those of [`write_run`]: no id is left for a table, or a section is too large;
    /// [`Error::OutOfMemory`]. The store is not changed then.
    pub fn flush(&mut self) -> Result<(), Error>
        ensures story { (ws : List spec.Entry) → spec.IsReported self.old ws →
            spec.IsReported self.new ws }
        ensures emptied { OnOk result (self.new.recent ≡ []) }
        ensures next { self.new.next ≡ self.old.next }
        ensures oldest { self.new.oldest ≡ self.old.oldest }
        ensures limit { self.new.limit ≡ self.old.limit }
        ensures target { self.new.target ≡ self.old.target }
        // The tables are cut by the target, and the counter of ids is after them, if there are any.
        ensures flushed { OnOk result (spec.HasFlushed self.old self.new) }
        ensures err { OnErr result (self.new ≡ self.old) }
        // Except for `OutOfMemory`, the error is that of writing the entries as tables.
        ensures refused { IfErr result (spec.FailsToWrite self.old self.old.recent) }
    {
        let items = self.memtable.share(&self.alloc)?;
        let (run, ids) = run_of(&self.alloc, self.ids, self.target, items)?;
        match run {
            Some(run) => self.put_in_front(run, ids),
            None => Ok(()),
        }
    }

    // Replaces the memtable's entries by a run of them, before the other runs. After an error the
    // store is not changed.
    fn put_in_front(&mut self, run: Arc<Run<Table<A>, A>, A>, ids: TableIds) -> Result<(), Error>
        requires list { spec.HasList self.old.recent (spec.arc_value run) }
        requires strict { spec.IsStrict self.old.recent }
        requires own { spec.IsOwnRun self.old.next (spec.arc_value run) }
        requires cut { spec.AreCutOf (spec.run_label self.old.ids self.old.target 0) self.old.target
            self.old.recent 0 (spec.arc_value run) }
        requires ids { ids ≡ spec.ids_behind self.old.ids self.old.target
            (length (spec.arc_value run)) }
        ensures story { (ws : List spec.Entry) → spec.IsReported self.old ws →
            spec.IsReported self.new ws }
        ensures emptied { OnOk result (self.new.recent ≡ []) }
        ensures next { self.new.next ≡ self.old.next }
        ensures oldest { self.new.oldest ≡ self.old.oldest }
        ensures limit { self.new.limit ≡ self.old.limit }
        ensures target { self.new.target ≡ self.old.target }
        ensures flushed { OnOk result (spec.HasFlushed self.old self.new) }
        ensures err { OnErr result (self.new ≡ self.old) }
        ensures memory { IfErr result (λ e. e ≡ OutOfMemory) }
    {
        self.runs.insert(0, run)?;
        self.memtable.clear();
        self.flushed = self.next;
        self.ids = ids;
        Ok(())
    }

    /// Returns the value of a key at a snapshot; `None` if it was deleted last, or never written.
    ///
    /// The value is borrowed from the memtable or from its table.
    ///
    /// Below [`Store::oldest_snapshot`] it is the value of the newest version below the snapshot
    /// that is still stored. If a later version was compacted away, this may be `None`, or an older
    /// value.
    ///
    /// # Errors
    ///
    /// [`Error::OutOfMemory`] only.
    pub fn get(&self, key: &[u8], snapshot: SeqNo) -> Result<Option<&[u8]>, Error>
        // At a snapshot that is kept, it is the value in the history of writes.
        ensures returned { (ws : List spec.Entry) → spec.IsReported self.now ws →
            self.now.oldest ≤ snapshot → IfOk result (λ value.
            spec.option_copied value ≡ spec.value_in ws key.now snapshot) }
        // At any snapshot, it is the value in the entries of the memtable and of the tables' lists.
        ensures read { spec.OnRunLists self.now.runs (λ lists.
            IfOk result (λ value. spec.option_copied value ≡ spec.value_in
            (self.now.recent ++ spec.union_in lists) key.now snapshot)) }
        ensures memory { IfErr result (λ e. e ≡ OutOfMemory) }
    {
        let found = find_in(&self.memtable, &self.runs, key, snapshot)?;
        Ok(value_of(found))
    }
}

// Tests a write with the next seqno. Fails if its key or its value is longer than a table takes, or
// if no seqno is left.
fn check_write(next: SeqNo, key: &[u8], value: &[u8]) -> Result<(), Error>
    ensures { spec.Refuses result (spec.put_fault next key.now value.now) }
{
    if key.len() > 1_048_576 {
        return Err(Error::KeyTooLong);
    }
    if value.len() > 4_294_967_295 {
        return Err(Error::ValueTooLong);
    }
    if next >= SeqNo::MAX - 1 {
        return Err(Error::SeqNoOverflow);
    }
    Ok(())
}

// An entry with copies of a key and a value.
fn entry_of<A: Allocator + Clone>(
    alloc: &A,
    key: &[u8],
    value: &[u8],
    seqno: SeqNo,
    kind: ValueType,
) -> Result<InternalValue<A>, Error>
    ensures ok { IfOk result (λ item. item ≡ spec.entry key.now value.now seqno kind) }
    ensures memory { IfErr result (λ e. e ≡ OutOfMemory) }
{
    let key = slice_of(alloc, key)?;
    let value = slice_of(alloc, value)?;
    Ok(InternalValue::from_components(key, value, seqno, kind))
}

// A copy of some bytes.
fn slice_of<A: Allocator + Clone>(alloc: &A, bytes: &[u8]) -> Result<Slice<A>, Error>
    ensures ok { IfOk result (λ slice. slice ≡ bytes.now) }
    ensures memory { IfErr result (λ e. e ≡ OutOfMemory) }
{
    Slice::from(alloc.clone()?, bytes)
}

// A run of a list that can be written, none if it has no entry, and the counter of ids after its
// tables.
fn run_of<A: Allocator + Clone>(
    alloc: &A,
    ids: TableIds,
    target: u64,
    items: Vec<InternalValue<A>, A>,
) -> Result<(Option<Arc<Run<Table<A>, A>, A>>, TableIds), Error>
    requires { spec.IsWritable items.items }
    ensures run { IfOk result (λ r. MatchOption r.0 (items.items ≡ [])
        (λ run. spec.HasList items.items (spec.arc_value run))) }
    // It has the store's own entries, if the list has.
    ensures own { (from to : ℕ) → spec.AreNumbered from to items.items →
        IfOk result (λ r. IfSome r.0 (λ run. spec.IsOwnRun to (spec.arc_value run))) }
    // It is cut by the target.
    ensures cut { IfOk result (λ r. IfSome r.0 (λ run.
        spec.AreCutOf (spec.run_label ids target 0) target items.items 0 (spec.arc_value run))) }
    // The counter is after its tables.
    ensures ids { IfOk result (λ r. IfSome r.0 (λ run.
        r.1 ≡ spec.ids_behind ids target (length (spec.arc_value run)))) }
    ensures refused { IfErr result (λ e. spec.is_memory e ≡ false →
        spec.tables_fault ids target 0 items.items ≡ Some e) }
{
    let created_at = Timestamp::from(0);
    let (run, left) = write_run(alloc.clone()?, ids, target, created_at, items, 0)?;
    Ok((share_run(alloc, run)?, left))
}

// A run, shared, if there is one. Generic in the type of a run, so that a proof does not unfold its
// parts.
fn share_run<T: Drop, A: Allocator + Clone>(
    alloc: &A,
    run: Option<T>,
) -> Result<Option<Arc<T, A>>, Error>
    ensures ok { IfOk result (λ shared. spec.option_map spec.arc_value shared ≡ run) }
    ensures memory { IfErr result (λ e. e ≡ OutOfMemory) }
{
    match run {
        Some(run) => Ok(Some(Arc::new(alloc.clone()?, run)?)),
        None => Ok(None),
    }
}

// The newest version of a key visible at `seqno`, in a memtable and then in runs, borrowed from
// there.
fn find_in<'a, A: Allocator + Clone>(
    memtable: &'a Memtable<A>,
    runs: &'a [Arc<Run<Table<A>, A>, A>],
    key: &[u8],
    seqno: SeqNo,
) -> Result<Option<EntryRef<'a>>, Error>
    ensures { (lists : spec.TableLists) → spec.RunsHold runs.now lists →
        spec.Gives (spec.option_map spec.entry_of_ref) result
        (Ok (spec.point (memtable.now ++ spec.union_in lists) key.now seqno)) }
{
    if let Some(entry) = memtable.get(key, seqno) {
        return Ok(Some(entry));
    }
    get_runs_ref_by_age(runs, key, seqno)
}

// The value of an entry that is no tombstone.
fn value_of<'a>(found: Option<EntryRef<'a>>) -> Option<&'a [u8]>
    ensures { spec.option_copied result
        ≡ spec.option_map (λ v. v.1) (spec.shown (spec.option_map spec.entry_of_ref found.entry)) }
{
    let Some(entry) = found else {
        return None;
    };
    if entry.is_tombstone() {
        return None;
    }
    Some(entry.value)
}
