//! The writer of several tables, one after another.
ghost use Rattle.std.specs.Prelude.{◌≡◌, ◌↔◌, ◌<◌, ◌≤◌, ◌∷◌, ◌++◌, if◌then◌else◌, [], false, true};
ghost use Rattle.std.specs.Prelude.{IfErr, IfOk, IsTrue, OnErr, OnOk, Some, None, length, take};
ghost use Rattle.lsm_writers.specs.Words as spec;

use crate::{FinishedTable, TableIds, Timestamp, Writer};
use sst_blocks::{
    BloomConstructionPolicy, CompressionType, Error, FilterKind, IndexKind, InternalKey,
    InternalValue, Options, SeqNo,
};
use sst_entries::EntryRef;
use std::alloc::{Allocator, Global};
use std::collections::VecDeque;
use std::marker::Model;
use std::mem;

/// A writer of several tables, one after another, each with its own id.
///
/// The next table begins at the first entry of a key, once the cut data blocks of the current table
/// reach the target size. A table can exceed the target by one block and all versions of one key.
/// [`MultiWriter::take_finished`] returns the finished tables one by one, also after an error.
///
/// The `use_` methods set options; they must be called before the first entry is written. Contracts
/// see the lists of the finished tables that were not taken, the writer of the current one and the
/// id counter.
#[derive(Drop)]
pub struct MultiWriter<A: Allocator = Global> {
    target_size: u64,
    ids: TableIds,
    // the tables before the current one that were not taken
    finished: VecDeque<FinishedTable<A>, A>,
    // the current table; its options, level and timestamp are those of all tables
    writer: Writer<A>,
    // set while a call runs, so it stays set after an error
    failed: bool,
}

impl<A: Allocator> Model for MultiWriter<A> {
    ghost use Rattle.std.specs.Prelude.{◌≡◌, false};
    ghost use Rattle.lsm_writers.specs.Tables.{TablesWriting, AreHeld, GoesOn, lists_in};

    ghost Value = { TablesWriting };

    ghost view = { λ w. record {
      target = w.target_size;
      ids = w.ids;
      tables = lists_in w.finished.items;
      present = w.writer;
      failed = w.failed;
    } };

    ghost invariant = { λ w.
        AreHeld w.writer.options w.writer.label w.finished.items
        × (w.failed ≡ false →
        GoesOn w.target_size w.ids (lists_in w.finished.items) w.writer) };
}

impl<A: Allocator + Clone> MultiWriter<A> {
    /// Creates a writer of tables at level `initial_level` and with the timestamp `created_at`.
    ///
    /// Each table but the last has at least `target_size` bytes of data blocks, headers included.
    /// The call draws the first id. At a target of 0 no table has the first id.
    ///
    /// # Errors
    ///
    /// [`Error::TableIdsSpent`] if no id is left, else only [`Error::OutOfMemory`].
    ///
    /// # Examples
    ///
    /// ```
    /// let writer = MultiWriter::new(alloc, TableIds::new(first), target, 0, Timestamp::from(0))?;
    /// Ok(writer.use_data_block_size(size.min(4_096)))
    /// ```
    pub fn new(
        alloc: A,
        mut ids: TableIds,
        target_size: u64,
        initial_level: u8,
        created_at: Timestamp,
    ) -> Result<MultiWriter<A>, Error>
        ensures ok { IfOk result
            (λ w. w ≡ spec.new_tables ids target_size initial_level created_at) }
        ensures refused { spec.Faults result (spec.ids_fault ids) }
        ensures first { spec.FaultsFirst result (spec.ids_fault ids) }
    {
        let Some(id) = ids.next() else {
            return Err(Error::TableIdsSpent);
        };
        let writer = Writer::new(alloc.clone()?, id, initial_level, created_at)?;
        Ok(MultiWriter {
            target_size,
            ids,
            finished: VecDeque::new(alloc),
            writer,
            failed: false,
        })
    }

    /// Returns whether no entry was written and no call failed.
    pub fn is_empty(&self) -> bool
        ensures { IsTrue result ↔ spec.IsFreshRun self.now }
    {
        !self.failed && self.finished.is_empty() && self.writer.is_empty()
    }

    /// Returns whether an entry with this key can be written next.
    ///
    /// It can if its sequence number is below `u64::MAX` and it sorts strictly after the last
    /// entry. Entries are sorted by key, then by descending sequence number. After an error the
    /// list is empty, so any key can follow.
    pub fn can_follow(&self, key: &InternalKey<A>) -> bool
        ensures { result ≡ spec.may_be_written (spec.all_written self.now) key.now.user_key
            key.now.seqno }
    {
        if self.failed {
            return key.seqno < SeqNo::MAX;
        }
        self.writer.can_follow(key)
    }

    /// Returns whether this entry can be written next; see [`MultiWriter::can_follow`].
    pub fn can_follow_ref(&self, entry: &EntryRef<'_>) -> bool
        ensures { let e = spec.entry_of_ref entry.now in
            result ≡ spec.may_be_written (spec.all_written self.now) e.user_key e.seqno }
    {
        if self.failed {
            return entry.seqno < SeqNo::MAX;
        }
        self.writer.can_follow_ref(entry)
    }

    /// Returns the id counter. Its next id is that of the table after the current one.
    pub fn table_ids(&self) -> TableIds
        ensures { result ≡ self.now.ids }
    {
        self.ids
    }

    // States what holds of an unfailed writer between its calls. The call does nothing.
    pub(crate) fn stays_writing(&self)
        ensures { self.now.failed ≡ false → spec.IsWriting self.now }
    {
        let _writer: &Writer<A> = &self.writer;
    }

    /// Writes an entry, and finishes the current table before it if the next table is due.
    ///
    /// The next table is due at the first entry of a key, once the cut data blocks of the current
    /// table reach the target size. The entry must be able to follow the last one; see
    /// [`MultiWriter::can_follow`].
    ///
    /// # Errors
    ///
    /// The first of these, or [`Error::OutOfMemory`]:
    ///
    /// - [`Error::WriterFailed`] if an earlier call failed;
    /// - if a table is due, [`Error::TableIdsSpent`] if no id is left, then the errors of
    ///   [`Writer::finish`] for the current table;
    /// - the errors of [`Writer::write`].
    ///
    /// After an error the list is lost, but for the finished tables: these can still be taken. If the
    /// call began the next table before it failed, the table before that is one of them. Each later
    /// call fails with [`Error::WriterFailed`] and changes nothing. An id that was drawn stays drawn,
    /// even if the call fails later.
    ///
    /// # Examples
    ///
    /// ```
    /// let item = entry(row);
    /// if self.can_follow(&item.key) {
    ///     number(self.write(item))
    /// } else {
    ///     MAY_NOT_FOLLOW
    /// }
    /// ```
    pub fn write(&mut self, item: InternalValue<A>) -> Result<(), Error>
        requires { IsTrue (spec.may_be_written (spec.all_written self.old) item.user_key
            item.seqno) }
        ensures ok { OnOk result (self.new ≡ spec.took self.old item) }
        ensures listed { OnOk result (spec.all_written self.new ≡ spec.all_written self.old ++ item
            ∷ []) }
        ensures refused { spec.Faults result (spec.took_fault self.old item) }
        // These errors take precedence over `OutOfMemory`.
        ensures first { spec.FaultsFirst result (spec.early_refusal self.old item) }
        ensures memory { spec.took_fault self.old item ≡ None →
            IfErr result (λ e. e ≡ spec.OutOfMemory) }
        // With an id left and an entry that fits, an unfailed writer fails only with `OutOfMemory`.
        ensures taken { spec.HasRoomFor self.old item → IfErr result (λ e. e ≡ spec.OutOfMemory) }
        ensures failed { OnErr result (self.new.failed ≡ true) }
        // Whatever the result, an unfailed writer draws an id exactly if a table is due.
        ensures ids { self.new.ids ≡ spec.ids_after self.old item }
        ensures kept { self.old.failed ≡ true → self.new ≡ self.old }
        ensures left { IfErr result (λ error. spec.IsLeft self.old item error self.new) }
    {
        let outcome = self.write_ref(&item.as_entry_ref());
        drop(item);
        outcome
    }

    /// Writes a borrowed entry; see [`MultiWriter::write`].
    ///
    /// It copies the key and value into a buffer that is reused from block to block.
    pub fn write_ref(&mut self, entry: &EntryRef<'_>) -> Result<(), Error>
        requires { let e = spec.entry_of_ref entry.now in
            IsTrue (spec.may_be_written (spec.all_written self.old) e.user_key e.seqno) }
        ensures ok { OnOk result (self.new ≡ spec.took self.old (spec.entry_of_ref entry.now)) }
        ensures listed { OnOk result
            (spec.all_written self.new ≡ spec.all_written self.old ++ spec.entry_of_ref entry.now
            ∷ []) }
        ensures refused { spec.Faults result
            (spec.took_fault self.old (spec.entry_of_ref entry.now)) }
        // These errors take precedence over `OutOfMemory`.
        ensures first { spec.FaultsFirst result
            (spec.early_refusal self.old (spec.entry_of_ref entry.now)) }
        ensures memory { spec.took_fault self.old (spec.entry_of_ref entry.now) ≡ None →
            IfErr result (λ e. e ≡ spec.OutOfMemory) }
        // With an id left and an entry that fits, an unfailed writer fails only with `OutOfMemory`.
        ensures taken { spec.HasRoomFor self.old (spec.entry_of_ref entry.now) →
            IfErr result (λ e. e ≡ spec.OutOfMemory) }
        ensures failed { OnErr result (self.new.failed ≡ true) }
        // Whatever the result, an unfailed writer draws an id exactly if a table is due.
        ensures ids { self.new.ids ≡ spec.ids_after self.old (spec.entry_of_ref entry.now) }
        ensures kept { self.old.failed ≡ true → self.new ≡ self.old }
        ensures left { IfErr result
            (λ error. spec.IsLeft self.old (spec.entry_of_ref entry.now) error self.new) }
    {
        if self.failed {
            return Err(Error::WriterFailed);
        }
        self.failed = true;
        make_ready(
            self.target_size,
            &mut self.ids,
            &mut self.finished,
            &mut self.writer,
            entry,
        )?;
        self.writer.write_ref(entry)?;
        self.failed = false;
        Ok(())
    }

    /// Returns the oldest finished table that was not taken, or `None` if there is none.
    ///
    /// Tables can be taken between any two calls, also after an error. Taking a table changes no other
    /// one: the taken tables, followed by those that [`MultiWriter::finish`] returns, are exactly the
    /// tables that `finish` returns if none is taken.
    ///
    /// # Examples
    ///
    /// ```
    /// for _ in 0..most {
    ///     if let Some(table) = writer.take_finished() {
    ///         push(seen, seen_of(&table));
    ///     }
    /// }
    /// ```
    pub fn take_finished(&mut self) -> Option<FinishedTable<A>>
        ensures table { spec.AreFinished self.old.present.options (spec.first_label self.old)
            (take 1 self.old.tables) (spec.option_to_list result) }
        ensures left { self.new ≡ spec.taken 1 self.old }
        // Taking a table does not change which entries may be written next.
        ensures last { spec.last_of None (spec.all_written self.new)
            ≡ spec.last_of None (spec.all_written self.old) }
        ensures ids { length self.old.tables ≤ self.old.present.label.table_id }
    {
        self.finished.pop_front()
    }

    /// Finishes the current table and returns all tables that were not taken, in key order, none if
    /// nothing was written.
    ///
    /// The ids of the tables are consecutive from the first id drawn. At a target of 0 they start
    /// at the second id: the first table is finished before it has an entry.
    ///
    /// # Errors
    ///
    /// [`Error::WriterFailed`] if an earlier call failed; else the errors of [`Writer::finish`] for
    /// the current table, or [`Error::OutOfMemory`]. The finished tables are dropped then.
    ///
    /// # Examples
    ///
    /// ```
    /// let tables = writer.finish()?;
    /// Ok((tables, count))
    /// ```
    pub fn finish(self) -> Result<Vec<FinishedTable<A>, A>, Error>
        ensures tables { IfOk result (λ fs.
            spec.AreTables self.present.options.data_block_size self.target
            (spec.all_written self) (spec.tables_of self)) }
        ensures finished { IfOk result (λ fs.
            spec.AreFinished self.present.options (spec.first_label self) (spec.tables_of self)
            fs.items) }
        ensures order { IfOk result (λ fs. spec.AreInKeyOrder (spec.tables_of self)) }
        ensures strict { IfOk result (λ fs. spec.IsStrict (spec.all_written self)) }
        ensures none { IfOk result (λ fs. spec.all_written self ≡ [] → fs.items ≡ []) }
        ensures refused { spec.Faults result (spec.run_fault self) }
        ensures first { spec.FaultsFirst result (spec.failed_fault self.failed) }
        ensures memory { spec.run_fault self ≡ None → IfErr result (λ e. e ≡ spec.OutOfMemory) }
        // If the sections of the last table fit, an unfailed writer fails only with `OutOfMemory`.
        ensures taken { self.failed ≡ false →
            spec.table_fault self.present.options (spec.written self.present) ≡ None →
            IfErr result (λ e. e ≡ spec.OutOfMemory) }
        // If nothing was written, only a failed writer returns an error.
        ensures idle { OnErr result (spec.all_written self ≡ [] → self.failed ≡ true) }
    {
        if self.failed {
            drop(self);
            return Err(Error::WriterFailed);
        }
        let MultiWriter {
            mut finished,
            writer,
            ..
        } = self;
        add_table(&mut finished, writer)?;
        Ok(finished.into_vec())
    }

    // Replaces the options of all tables.
    fn with_options(mut self, options: Options) -> MultiWriter<A>
        requires fresh { spec.IsFreshRun self }
        requires small { spec.IsSmallFilter options.filter_kind }
        ensures { result ≡ spec.with_options self options }
    {
        self.writer = self.writer.with_options(options);
        self
    }

    /// Replaces the options of all tables.
    ///
    /// The data block size and the partition sizes are at most 4,194,304 bytes. The data block
    /// restart interval is at least 1. A table can be opened only if its index block restart
    /// interval is 1.
    pub fn use_options(self, options: Options) -> MultiWriter<A>
        requires fresh { spec.IsFreshRun self }
        requires some { 0 < options.data_block_restart_interval }
        requires small_blocks { options.data_block_size ≤ 4194304 }
        requires small_index { spec.IsSmallIndex options.index_kind }
        requires small_filter { spec.IsSmallFilter options.filter_kind }
        ensures { result ≡ spec.with_options self options }
    {
        self.with_options(options)
    }

    /// Sets the restart interval of data blocks, at least 1.
    ///
    /// It is stored in the meta block and changes nothing else.
    pub fn use_data_block_restart_interval(self, interval: u8) -> MultiWriter<A>
        requires fresh { spec.IsFreshRun self }
        requires some { 0 < interval }
        ensures { spec.SetsOptionOfAll self result
            (λ o. record o { data_block_restart_interval = interval }) }
    {
        let options = Options {
            data_block_restart_interval: interval,
            ..self.writer.options()
        };
        self.with_options(options)
    }

    /// Sets the restart interval of index blocks.
    ///
    /// It is stored in the meta block and changes no index block. A table can be opened only if it
    /// is 1.
    pub fn use_index_block_restart_interval(self, interval: u8) -> MultiWriter<A>
        requires { spec.IsFreshRun self }
        ensures { spec.SetsOptionOfAll self result
            (λ o. record o { index_block_restart_interval = interval }) }
    {
        let options = Options {
            index_block_restart_interval: interval,
            ..self.writer.options()
        };
        self.with_options(options)
    }

    /// Sets the hash ratio of data blocks.
    ///
    /// It is stored in the meta block and changes nothing else.
    pub fn use_data_block_hash_ratio(self, ratio: u32) -> MultiWriter<A>
        requires { spec.IsFreshRun self }
        ensures { spec.SetsOptionOfAll self result
            (λ o. record o { data_block_hash_ratio = ratio }) }
    {
        let options = Options {
            data_block_hash_ratio: ratio,
            ..self.writer.options()
        };
        self.with_options(options)
    }

    /// Sets the data block size in bytes, at most 4,194,304.
    ///
    /// A data block is cut once its keys and values reach this total length.
    pub fn use_data_block_size(self, size: u32) -> MultiWriter<A>
        requires fresh { spec.IsFreshRun self }
        requires small { size ≤ 4194304 }
        ensures { spec.SetsOptionOfAll self result (λ o. record o { data_block_size = size }) }
    {
        let options = Options {
            data_block_size: size,
            ..self.writer.options()
        };
        self.with_options(options)
    }

    /// Selects partitioned filters whose partitions are cut at 4,096 bytes.
    ///
    /// It replaces a partition size set before.
    pub fn use_partitioned_filter(self) -> MultiWriter<A>
        requires { spec.IsFreshRun self }
        ensures { spec.SetsOptionOfAll self result
            (λ o. record o { filter_kind = spec.PartitionedFilter 4096 }) }
    {
        let options = Options {
            filter_kind: FilterKind::Partitioned(4_096),
            ..self.writer.options()
        };
        self.with_options(options)
    }

    /// Selects partitioned indexes whose partitions are cut at 4,096 bytes.
    ///
    /// It replaces a partition size set before.
    pub fn use_partitioned_index(self) -> MultiWriter<A>
        requires { spec.IsFreshRun self }
        ensures { spec.SetsOptionOfAll self result
            (λ o. record o { index_kind = spec.PartitionedIndex 4096 }) }
    {
        let options = Options {
            index_kind: IndexKind::Partitioned(4_096),
            ..self.writer.options()
        };
        self.with_options(options)
    }

    /// Sets the size in bytes, at most 4,194,304, at which index and filter partitions are cut.
    ///
    /// Full indexes and filters are not affected.
    #[tactic(auto, using(crate::proofs::Filtered::sized_small))]
    pub fn use_meta_partition_size(self, size: u32) -> MultiWriter<A>
        requires fresh { spec.IsFreshRun self }
        requires small { size ≤ 4194304 }
        ensures { spec.SetsOptionOfAll self result (λ o. record o {
          index_kind = spec.index_with_size size o.index_kind;
          filter_kind = spec.filter_with_size size o.filter_kind;
        }) }
    {
        let before = self.writer.options();
        let options = Options {
            index_kind: before.index_kind.with_size(size),
            filter_kind: before.filter_kind.with_size(size),
            ..before
        };
        self.with_options(options)
    }

    /// Sets the number of filter bits for each key.
    ///
    /// With 0 bits no filter is written.
    pub fn use_bloom_policy(self, policy: BloomConstructionPolicy) -> MultiWriter<A>
        requires { spec.IsFreshRun self }
        ensures { spec.SetsOptionOfAll self result (λ o. record o { bloom_policy = policy }) }
    {
        let options = Options {
            bloom_policy: policy,
            ..self.writer.options()
        };
        self.with_options(options)
    }

    /// Sets the compression of data blocks.
    ///
    /// `None` is the only variant, so the call changes nothing.
    pub fn use_data_block_compression(self, compression: CompressionType) -> MultiWriter<A>
        requires { spec.IsFreshRun self }
        ensures { result ≡ self }
    {
        match compression {
            CompressionType::None => self,
        }
    }

    /// Sets the compression of index blocks.
    ///
    /// `None` is the only variant, so the call changes nothing.
    pub fn use_index_block_compression(self, compression: CompressionType) -> MultiWriter<A>
        requires { spec.IsFreshRun self }
        ensures { result ≡ self }
    {
        match compression {
            CompressionType::None => self,
        }
    }
}

/// Finishes a table and appends it to the others, unless it has no entry. Its errors are those of
/// [`Writer::finish`].
fn add_table<A: Allocator + Clone>(
    finished: &mut VecDeque<FinishedTable<A>, A>,
    writer: Writer<A>,
) -> Result<(), Error>
    ensures ok { OnOk result (spec.AddsTable writer finished.old.items finished.new.items) }
    ensures left { OnErr result (finished.new.items ≡ finished.old.items) }
    ensures refused { spec.Faults result (spec.finish_fault writer) }
    ensures idle { OnErr result (spec.written writer ≡ [] → writer.failed ≡ true) }
{
    if let Some(table) = writer.finish()? {
        finished.push_back(table)?;
    }
    Ok(())
}

/// Returns whether the next table begins with this entry.
fn is_due<A: Allocator + Clone>(target: u64, writer: &Writer<A>, entry: &EntryRef<'_>) -> bool
    ensures { result ≡ spec.is_due target writer.now (spec.entry_of_ref entry.now) }
{
    // Compare the length first: it costs less than comparing keys.
    writer.metadata().file_pos.0 >= target && writer.starts_key(entry)
}

/// Draws the next id, finishes the current table, and begins the next one.
///
/// # Errors
///
/// [`Error::TableIdsSpent`] if no id is left; else the errors of [`Writer::finish`]. The id stays
/// drawn. The finished tables stay, and so does the table info of the current one.
fn rotate<A: Allocator + Clone>(
    ids: &mut TableIds,
    finished: &mut VecDeque<FinishedTable<A>, A>,
    writer: &mut Writer<A>,
) -> Result<(), Error>
    ensures ids { ids.new ≡ spec.drawn ids.old }
    ensures next { OnOk result (writer.new ≡ spec.next_writing ids.old writer.old) }
    ensures added { OnOk result (spec.AddsTable writer.old finished.old.items finished.new.items) }
    ensures left { OnErr result
        (spec.StayHeld finished.old.items writer.old finished.new.items writer.new) }
    ensures refused { spec.Faults result (spec.rotation_fault ids.old writer.old) }
    ensures first { spec.FaultsFirst result (spec.ids_fault ids.old) }
{
    let Some(id) = ids.next() else {
        return Err(Error::TableIdsSpent);
    };
    let next = writer.successor()?;
    add_table(finished, mem::replace(writer, next))?;
    writer.set_id(id);
    Ok(())
}

/// Begins the next table if one is due. Its errors are those of [`rotate`].
fn make_ready<A: Allocator + Clone>(
    target: u64,
    ids: &mut TableIds,
    finished: &mut VecDeque<FinishedTable<A>, A>,
    writer: &mut Writer<A>,
    entry: &EntryRef<'_>,
) -> Result<(), Error>
    ensures ok { OnOk result
        (spec.IsStanding (spec.is_due target writer.old (spec.entry_of_ref entry.now))
        ids.old finished.old.items writer.old ids.new finished.new.items writer.new) }
    ensures left { OnErr result
        (spec.StayHeld finished.old.items writer.old finished.new.items writer.new) }
    ensures refused { spec.Faults result
        (spec.turn_fault target ids.old writer.old (spec.entry_of_ref entry.now)) }
    ensures first { spec.FaultsFirst result
        (if spec.is_due target writer.old (spec.entry_of_ref entry.now) then spec.ids_fault ids.old
        else None) }
    ensures idle { OnErr result (spec.is_due target writer.old (spec.entry_of_ref entry.now)
        ≡ true) }
    ensures ids { let due = spec.is_due target writer.old (spec.entry_of_ref entry.now) in
        ids.new ≡ (if due then spec.drawn ids.old else ids.old) }
{
    if is_due(target, writer, entry) {
        rotate(ids, finished, writer)?;
    }
    Ok(())
}

/// States laws of cutting a list into tables; the call does nothing.
///
/// - Each list can be cut into tables, and these are unique.
/// - A writable list is written as these tables if each table fits and enough ids remain. The only
///   possible error is [`Error::OutOfMemory`].
/// - At a target of 0 each table of a strict list has all entries of exactly one key.
pub fn tables_law()
    ensures cut { spec.CutLaw }
    ensures one_cut { spec.OneCutLaw }
    ensures takes { spec.TakesLaw }
    ensures one_key { spec.OneKeyLaw }
{}

/// Laws of [`MultiWriter::take_finished`]. The call does nothing.
///
/// They compare a writer from which tables are taken with one from which none is taken.
///
/// - A new writer meets the premises of the other laws.
/// - Tables that are taken one after another are the oldest ones.
/// - The taken tables, followed by those that [`MultiWriter::finish`] returns, are the tables that it
///   returns if none is taken.
/// - Writing an entry is the same, whatever was taken, and the premises hold again after it.
pub fn taking_law<A: Allocator>()
    ensures begun { spec.BegunLaw A }
    ensures taken { spec.TakenLaw A }
    ensures finished { spec.FinishedLaw A }
    ensures written { spec.WrittenLaw A }
{}
