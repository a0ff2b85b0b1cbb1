//! The writer of one table.
ghost use Rattle.std.specs.Prelude.{◌≡◌, ◌↔◌, ◌<◌, ◌≤◌, ◌+◌, ◌*◌, ◌^◌, ℕ, [], ◌∷◌, ◌++◌};
ghost use Rattle.std.specs.Prelude.{None, Some, false, true, length, IsTrue, IfOk, IfErr, OnOk};
ghost use Rattle.std.specs.Prelude.{OnErr, MatchResult, MatchOption};
ghost use Rattle.lsm_writers.specs.Words as spec;

mod block_buffer;
mod data_blocks;
mod filter;
pub mod meta;
mod meta_block;

use crate::{BlockIndexWriter, FilterWriterImpl, IndexWriterImpl, TableId, Timestamp};
use block_buffer::BlockBuffer;
use data_blocks::DataBlocks;
use filter::{finish_filter, register_key};
use meta::{Metadata, Tally, starts_key};
use meta_block::{BlockCounts, write_meta};
use sst_blocks::{
    BloomConstructionPolicy, Checksum, CompressionType, EMPTY_LEN, ENTRY_HEAD_LEN, Error,
    FilterKind, IndexKind, InternalKey, InternalValue, Label, Options, SectionName, SectionWriter,
    SeqNo, Slice, check_entry,
};
use sst_entries::{EntryRef, compare_versions};
use std::alloc::{Allocator, Global};
use std::fmt;
use std::marker::Model;

/// A writer of one table: it encodes entries into blocks, and blocks into the bytes of the table.
///
/// The `use_` methods set options; they must be called before the first entry is written. Contracts
/// see the list written: the chunks of the cut blocks, then the pending entries.
#[derive(Drop)]
pub struct Writer<A: Allocator = Global> {
    label: Label,
    options: Options,
    blocks: DataBlocks<A>,
    // the pending entries, and the length of their keys and values in bytes
    chunk: BlockBuffer<A>,
    chunk_size: usize,
    meta: Metadata<A>,
    // each distinct key once; `None` until the first key is registered
    filter_writer: Option<FilterWriterImpl<A>>,
    // set while a call runs, so it stays set after an error
    failed: bool,
}

impl<A: Allocator> Model for Writer<A> {
    ghost use Rattle.lsm_writers.specs.Writing.{Writing};
    ghost use Rattle.sst_blocks.specs.table.Fits.{LabelFits};
    ghost use Rattle.std.specs.Prelude.{◌++◌};
    ghost use Rattle.sst_blocks.specs.table.Chunks.{joined};
    ghost use Rattle.lsm_writers.specs.Filtering.{IsFiltered};
    ghost use Rattle.lsm_writers.specs.Held.{IsHeld, CanGoOn};

    ghost Value = { Writing };

    ghost view = { λ w. record {
      label = w.label;
      options = w.options;
      cut = w.blocks.chunks;
      pending = w.chunk;
      failed = w.failed;
    } };

    ghost invariant = { λ w.
        IsHeld w.options.data_block_size w.blocks.chunks w.chunk w.chunk_size w.meta
        × CanGoOn w.failed w.options.data_block_size w.blocks w.chunk
        × LabelFits w.label
        × IsFiltered w.failed w.options.filter_kind w.options.bloom_policy w.filter_writer
        (joined w.blocks.chunks ++ w.chunk) };
}

impl<A: Allocator + Clone> Writer<A> {
    /// Creates a writer of the table `id`, at level `initial_level` and with the timestamp
    /// `created_at`. Level and timestamp are stored in the meta block, and nothing else uses them.
    ///
    /// # Errors
    ///
    /// Only [`Error::OutOfMemory`].
    ///
    /// # Examples
    ///
    /// ```
    /// let mut writer = Writer::new(alloc, 1, 0, Timestamp::from(0))?;
    /// let entries = ENTRIES;
    /// for entry in entries {
    ///     write_entry(alloc, &mut writer, entry)?;
    /// }
    /// writer.finish()
    /// ```
    pub fn new(
        alloc: A,
        id: TableId,
        initial_level: u8,
        created_at: Timestamp,
    ) -> Result<Writer<A>, Error>
        ensures ok { IfOk result
            (λ w. w ≡ spec.new_writing (spec.label_of id initial_level created_at)) }
        ensures err { IfErr result (λ e. e ≡ spec.OutOfMemory) }
    {
        let label = Label {
            table_id: id,
            initial_level,
            created_at,
        };
        Writer::fresh(alloc, label, Options::default())
    }

    /// Creates a writer with the table info and options of this one. Fails only with
    /// [`Error::OutOfMemory`].
    pub(crate) fn successor(&self) -> Result<Writer<A>, Error>
        ensures ok { IfOk result (λ w. w ≡ spec.fresh_writing self.now.label self.now.options) }
        ensures err { IfErr result (λ e. e ≡ spec.OutOfMemory) }
    {
        Writer::fresh(self.chunk.allocator().clone()?, self.label, self.options)
    }

    /// Sets the id of the table.
    pub(crate) fn set_id(&mut self, id: TableId)
        ensures { self.new ≡ record self.old {
          label = record self.old.label { table_id = id };
        } }
    {
        self.label.table_id = id;
    }

    /// Creates a writer without entries. Fails only with [`Error::OutOfMemory`].
    fn fresh(alloc: A, label: Label, options: Options) -> Result<Writer<A>, Error>
        requires label { spec.LabelFits label }
        requires small { spec.IsSmallFilter options.filter_kind }
        ensures ok { IfOk result (λ w. w ≡ spec.fresh_writing label options) }
        ensures err { IfErr result (λ e. e ≡ spec.OutOfMemory) }
    {
        let blocks = DataBlocks::new(alloc.clone()?)?;
        Ok(Writer {
            label,
            options,
            blocks,
            chunk: BlockBuffer::new(alloc)?,
            chunk_size: 0,
            meta: Metadata::default(),
            filter_writer: None,
            failed: false,
        })
    }

    /// Returns whether an entry is the first of its key if it is written next.
    pub(crate) fn starts_key(&self, entry: &EntryRef<'_>) -> bool
        ensures { result ≡
            spec.starts_key (spec.last_of None (spec.written self.now))
            (spec.entry_of_ref entry.now) }
    {
        starts_key(last_written(&self.chunk, &self.blocks), entry)
    }

    /// Returns whether no entry was written and no call failed.
    pub fn is_empty(&self) -> bool
        ensures { IsTrue result ↔ spec.IsFresh self.now }
    {
        !self.failed && self.chunk.is_empty() && self.meta.data_block_count == 0
    }

    /// Returns whether an entry with this key can be written next.
    ///
    /// It can if its sequence number is below `u64::MAX` and it sorts strictly after the last
    /// entry. Entries are sorted by key, then by descending sequence number.
    pub fn can_follow(&self, key: &InternalKey<A>) -> bool
        ensures { result ≡ spec.may_be_written (spec.written self.now) key.now.user_key
            key.now.seqno }
    {
        self.follows(key.user_key.as_slice(), key.seqno)
    }

    /// Returns whether this entry can be written next; see [`Writer::can_follow`].
    pub fn can_follow_ref(&self, entry: &EntryRef<'_>) -> bool
        ensures { let e = spec.entry_of_ref entry.now in
            result ≡ spec.may_be_written (spec.written self.now) e.user_key e.seqno }
    {
        self.follows(entry.user_key, entry.seqno)
    }

    /// Returns whether an entry with this key and sequence number can be written next.
    #[inline]
    fn follows(&self, key: &[u8], seqno: SeqNo) -> bool
        ensures { result ≡ spec.may_be_written (spec.written self.now) key.now seqno }
    {
        seqno < SeqNo::MAX
            && match last_written(&self.chunk, &self.blocks) {
                None => true,
                Some(last) => compare_versions(last.user_key, last.seqno, key, seqno).is_lt(),
            }
    }

    /// Returns the counts of the entries and blocks written so far.
    pub fn metadata(&self) -> &Metadata<A>
        ensures { result.now ≡ spec.metadata_of spec.V4 self.now.cut self.now.pending }
    {
        &self.meta
    }

    /// Returns the total length of the pending keys and values in bytes.
    pub fn chunk_size(&self) -> usize
        ensures { result ≡ spec.entries_size self.now.pending }
    {
        self.chunk_size
    }

    /// Writes an entry.
    ///
    /// The entry must be able to follow the last one; see [`Writer::can_follow`]. A data block is
    /// cut once its keys and values reach the data block size.
    ///
    /// # Errors
    ///
    /// The first of these, or [`Error::OutOfMemory`]:
    ///
    /// - [`Error::WriterFailed`] if an earlier call failed;
    /// - [`Error::KeyTooLong`] if the key is longer than 1,048,576 bytes;
    /// - [`Error::ValueTooLong`] if the value has 2^32 bytes or more;
    /// - [`Error::BlockTooLarge`] if the size bound of the current block reaches 2^32.
    ///
    /// After an error each later call fails with [`Error::WriterFailed`].
    ///
    /// # Examples
    ///
    /// ```
    /// let key = Slice::from(alloc, key)?;
    /// let value = Slice::from(alloc, value)?;
    /// let item = InternalValue::from_components(key, value, seqno, ValueType::Value);
    /// if !writer.can_follow(&item.key) {
    ///     return Ok(());
    /// }
    /// writer.write(item)
    /// ```
    pub fn write(&mut self, item: InternalValue<A>) -> Result<(), Error>
        requires { IsTrue (spec.may_be_written (spec.written self.old) item.user_key item.seqno) }
        ensures ok { OnOk result (self.new ≡ spec.gained self.old item) }
        ensures refused { spec.Faults result (spec.write_fault self.old item) }
        // Errors of the writer or the entry take precedence over `OutOfMemory`.
        ensures first { spec.FaultsFirst result (spec.write_fault self.old item) }
        // After an error the entry is dropped; the list and its counts stay.
        ensures failed { OnErr result (self.new ≡ record self.old { failed = true }) }
    {
        let outcome = self.write_ref(&item.as_entry_ref());
        drop(item);
        outcome
    }

    /// Writes a borrowed entry; see [`Writer::write`].
    ///
    /// It copies the key and value into a buffer that is reused from block to block.
    pub fn write_ref(&mut self, entry: &EntryRef<'_>) -> Result<(), Error>
        requires { let e = spec.entry_of_ref entry.now in
            IsTrue (spec.may_be_written (spec.written self.old) e.user_key e.seqno) }
        ensures ok { OnOk result (self.new ≡ spec.gained self.old (spec.entry_of_ref entry.now)) }
        ensures refused { spec.Faults result
            (spec.write_fault self.old (spec.entry_of_ref entry.now)) }
        // Errors of the writer or the entry take precedence over `OutOfMemory`.
        ensures first { spec.FaultsFirst result
            (spec.write_fault self.old (spec.entry_of_ref entry.now)) }
        // After an error the entry is dropped; the list and its counts stay.
        ensures failed { OnErr result (self.new ≡ record self.old { failed = true }) }
    {
        if self.failed {
            return Err(Error::WriterFailed);
        }
        self.failed = true;
        let tally = admit(
            &self.chunk,
            self.chunk_size,
            last_written(&self.chunk, &self.blocks),
            &self.meta,
            &mut self.filter_writer,
            &self.options,
            entry,
        )?;
        take_entry(
            &mut self.chunk,
            &mut self.chunk_size,
            &mut self.blocks,
            &mut self.meta,
            &self.options,
            entry,
        )?;
        self.meta.count(tally);
        self.failed = false;
        Ok(())
    }

    /// Cuts the pending entries as a block, full or not.
    ///
    /// Without pending entries nothing is written.
    ///
    /// # Errors
    ///
    /// [`Error::WriterFailed`] if an earlier call failed, or [`Error::OutOfMemory`]. After an error
    /// each later call fails with [`Error::WriterFailed`].
    pub fn spill_block(&mut self) -> Result<(), Error>
        ensures ok { OnOk result (self.new ≡ spec.spilled self.old) }
        ensures refused { spec.Faults result (spec.failed_fault self.old.failed) }
        ensures first { spec.FaultsFirst result (spec.failed_fault self.old.failed) }
        ensures failed { OnErr result (self.new ≡ record self.old { failed = true }) }
        // Without pending entries, only a failed writer returns an error.
        ensures idle { OnErr result (self.old.pending ≡ [] → self.old.failed ≡ true) }
    {
        if self.failed {
            return Err(Error::WriterFailed); // nothing is cut
        }
        self.failed = true;
        self.blocks.cut(&mut self.chunk, &mut self.meta)?;
        self.chunk_size = 0;
        self.failed = false;
        Ok(())
    }

    /// Finishes the table and returns it, or `None` if nothing was written.
    ///
    /// It cuts the pending entries as a block. Then it writes the index, the filter, the version
    /// and the meta block.
    ///
    /// # Errors
    ///
    /// - [`Error::WriterFailed`] if an earlier call failed;
    /// - [`Error::BlockTooLarge`] or [`Error::SectionTooLarge`] if the size bound of a block or
    ///   section of the index, then of the filter, reaches 2^32;
    /// - [`Error::OutOfMemory`].
    ///
    /// # Examples
    ///
    /// ```
    /// writer.finish()
    /// // ..
    /// let Some(written) = write_table(rt.alloc())? else {
    ///     return Ok(());
    /// };
    /// let table = open_table(rt.alloc(), written)?;
    /// ```
    pub fn finish(mut self) -> Result<Option<FinishedTable<A>>, Error>
        ensures table { IfOk result (λ t. MatchOption t (spec.written self ≡ [])
            (λ f. spec.IsFinished self f.id f.checksum.0 f.bytes)) }
        ensures refused { spec.Faults result (spec.finish_fault self) }
        ensures first { spec.FaultsFirst result (spec.failed_fault self.failed) }
        // If nothing was written, only a failed writer returns an error.
        ensures idle { OnErr result (spec.written self ≡ [] → self.failed ≡ true) }
        // Whatever the result, the list is strict and its entries fit the fields of a table.
        ensures strict { spec.IsStrict (spec.written self) }
        ensures fits { spec.AllByRecursion (spec.EntryFits spec.V4) (spec.written self) }
    {
        let spilled = self.spill_block();
        let item_count = self.meta.item_count;
        if let Err(error) = spilled {
            drop(self);
            return Err(error);
        }
        if item_count == 0 {
            drop(self);
            return Ok(None);
        }
        Ok(Some(self.table()?))
    }

    /// Writes the sections after the data blocks, and the trailer. Its errors are those of
    /// [`Writer::finish`].
    fn table(self) -> Result<FinishedTable<A>, Error>
        requires works { self.failed ≡ false }
        requires cut { self.pending ≡ [] }
        ensures id { IfOk result (λ t. t.id ≡ self.label.table_id) }
        ensures checksum { IfOk result (λ t. t.checksum.0 ≡ spec.fnv1a t.bytes) }
        ensures table { IfOk result (λ t. spec.WritesTable self t.bytes) }
        ensures refused { spec.Faults result (spec.sections_fault self) }
        ensures label { spec.LabelFits self.label }
    {
        let Writer {
            label,
            options,
            blocks,
            chunk,
            meta,
            filter_writer,
            ..
        } = self;
        drop(chunk);
        let (mut file_writer, index_writer, mut buffer) = blocks.into_parts();
        let index_writer = index_writer.into_kind(options.index_kind);
        let sections = write_sections(
            &mut file_writer,
            &mut buffer,
            index_writer,
            filter_writer,
            &label,
            &options,
            &meta,
        );
        drop(meta);
        drop(buffer);
        if let Err(error) = sections {
            drop(file_writer);
            return Err(error);
        }
        let (bytes, checksum) = file_writer.finish()?;
        Ok(FinishedTable {
            id: label.table_id,
            checksum,
            bytes,
        })
    }

    /// Returns the options.
    pub(crate) fn options(&self) -> Options
        ensures is { result ≡ self.now.options }
        ensures small { spec.IsSmallFilter result.filter_kind }
    {
        self.options
    }

    /// Replaces the options.
    pub(crate) fn with_options(mut self, options: Options) -> Writer<A>
        requires fresh { spec.IsFresh self }
        requires small { spec.IsSmallFilter options.filter_kind }
        ensures { result ≡ record self { options = options } }
    {
        self.options = options;
        self
    }

    /// Replaces all options.
    ///
    /// The data block size and the partition sizes are at most 4,194,304 bytes. The data block
    /// restart interval is at least 1. A table can be opened only if its index block restart
    /// interval is 1.
    pub fn use_options(self, options: Options) -> Writer<A>
        requires fresh { spec.IsFresh self }
        requires some { 0 < options.data_block_restart_interval }
        requires small_blocks { options.data_block_size ≤ 4194304 }
        requires small_index { spec.IsSmallIndex options.index_kind }
        requires small_filter { spec.IsSmallFilter options.filter_kind }
        ensures { result ≡ record self { options = options } }
    {
        self.with_options(options)
    }

    /// Sets the restart interval of data blocks, at least 1.
    ///
    /// It is stored in the meta block and changes nothing else.
    pub fn use_data_block_restart_interval(mut self, interval: u8) -> Writer<A>
        requires fresh { spec.IsFresh self }
        requires some { 0 < interval }
        ensures { spec.SetsOption self result
            (λ o. record o { data_block_restart_interval = interval }) }
    {
        self.options.data_block_restart_interval = interval;
        self
    }

    /// Sets the restart interval of index blocks.
    ///
    /// It is stored in the meta block and changes no index block. A table can be opened only if it
    /// is 1.
    pub fn use_index_block_restart_interval(mut self, interval: u8) -> Writer<A>
        requires { spec.IsFresh self }
        ensures { spec.SetsOption self result
            (λ o. record o { index_block_restart_interval = interval }) }
    {
        self.options.index_block_restart_interval = interval;
        self
    }

    /// Sets the hash ratio of data blocks.
    ///
    /// It is stored in the meta block and changes nothing else.
    pub fn use_data_block_hash_ratio(mut self, ratio: u32) -> Writer<A>
        requires { spec.IsFresh self }
        ensures { spec.SetsOption self result (λ o. record o { data_block_hash_ratio = ratio }) }
    {
        self.options.data_block_hash_ratio = ratio;
        self
    }

    /// Sets the data block size in bytes, at most 4,194,304.
    ///
    /// A data block is cut once its keys and values reach this total length.
    pub fn use_data_block_size(mut self, size: u32) -> Writer<A>
        requires fresh { spec.IsFresh self }
        requires small { size ≤ 4194304 }
        ensures { spec.SetsOption self result (λ o. record o { data_block_size = size }) }
    {
        self.options.data_block_size = size;
        self
    }

    /// Selects a partitioned filter whose partitions are cut at 4,096 bytes.
    ///
    /// It replaces a partition size set before.
    pub fn use_partitioned_filter(mut self) -> Writer<A>
        requires { spec.IsFresh self }
        ensures { spec.SetsOption self result
            (λ o. record o { filter_kind = spec.PartitionedFilter 4096 }) }
    {
        self.options.filter_kind = FilterKind::Partitioned(4_096);
        self
    }

    /// Selects a partitioned index whose partitions are cut at 4,096 bytes.
    ///
    /// It replaces a partition size set before.
    pub fn use_partitioned_index(mut self) -> Writer<A>
        requires { spec.IsFresh self }
        ensures { spec.SetsOption self result
            (λ o. record o { index_kind = spec.PartitionedIndex 4096 }) }
    {
        self.options.index_kind = IndexKind::Partitioned(4_096);
        self
    }

    /// Sets the size in bytes, at most 4,194,304, at which index and filter partitions are cut.
    ///
    /// A full index or filter is not affected.
    pub fn use_meta_partition_size(mut self, size: u32) -> Writer<A>
        requires fresh { spec.IsFresh self }
        requires small { size ≤ 4194304 }
        ensures { spec.SetsOption self result (λ o. record o {
          index_kind = spec.index_with_size size o.index_kind;
          filter_kind = spec.filter_with_size size o.filter_kind;
        }) }
    {
        self.options.index_kind = self.options.index_kind.with_size(size);
        self.options.filter_kind = self.options.filter_kind.with_size(size);
        self
    }

    /// Sets the number of filter bits for each key.
    ///
    /// With 0 bits no filter is written.
    pub fn use_bloom_policy(mut self, policy: BloomConstructionPolicy) -> Writer<A>
        requires { spec.IsFresh self }
        ensures { spec.SetsOption self result (λ o. record o { bloom_policy = policy }) }
    {
        self.options.bloom_policy = policy;
        self
    }

    /// Sets the compression of data blocks.
    ///
    /// `None` is the only variant, so the call changes nothing.
    pub fn use_data_block_compression(self, compression: CompressionType) -> Writer<A>
        requires { spec.IsFresh self }
        ensures { result ≡ self }
    {
        match compression {
            CompressionType::None => self,
        }
    }

    /// Sets the compression of index blocks.
    ///
    /// `None` is the only variant, so the call changes nothing.
    pub fn use_index_block_compression(self, compression: CompressionType) -> Writer<A>
        requires { spec.IsFresh self }
        ensures { result ≡ self }
    {
        match compression {
            CompressionType::None => self,
        }
    }
}

/// A finished table.
///
/// Its `Debug` output has the length of `bytes`, not their content.
#[derive(Drop)]
pub struct FinishedTable<A: Allocator = Global> {
    /// The table's id.
    pub id: TableId,
    /// The FNV-1a checksum of `bytes`.
    pub checksum: Checksum,
    /// The bytes of the table: its sections and the trailer.
    pub bytes: Slice<A>,
}

impl<A: Allocator> fmt::Debug for FinishedTable<A> {
    fn fmt<W: fmt::Write>(&self, f: &mut fmt::Formatter<W>) -> fmt::Result {
        f.debug_struct("FinishedTable")
            .field("id", &self.id)
            .field("checksum", &self.checksum)
            .field("len", &self.bytes.len())
            .finish()
    }
}

/// Writes the table version section. Fails only with [`Error::OutOfMemory`] and then writes
/// nothing.
fn write_version<A: Allocator + Clone>(file_writer: &mut SectionWriter<A>) -> Result<(), Error>
    requires { spec.HasNoVersion file_writer.old }
    ensures ok { OnOk result
        (file_writer.new ≡ spec.appended file_writer.old (spec.version_section spec.V4)) }
    ensures err { IfErr result (λ e. e ≡ spec.OutOfMemory) }
{
    file_writer.start(SectionName::TableVersion)?;
    file_writer.append(&[4])
}

/// Returns the last entry written: the last pending one, else the last one of the cut blocks.
fn last_written<'a, A: Allocator + Clone>(
    chunk: &'a BlockBuffer<A>,
    blocks: &'a DataBlocks<A>,
) -> Option<EntryRef<'a>>
    ensures last { spec.option_map spec.entry_of_ref result ≡
        spec.last_of (spec.last_of None (spec.joined blocks.now.chunks)) chunk.now }
    // Each entry takes `entry_head_len` bytes or more, so a `u64` can count them.
    ensures few { spec.entry_head_len * length (spec.joined blocks.now.chunks) < 2 ^ 64 }
{
    let cut = blocks.last_block();
    let buffer = if chunk.is_empty() { cut } else { chunk };
    buffer.last()
}

/// Checks an entry after `before`, registers its key, and returns its changes to the counts. Errors
/// of the entry take precedence over [`Error::OutOfMemory`].
fn admit<A: Allocator + Clone>(
    chunk: &BlockBuffer<A>,
    chunk_size: usize,
    before: Option<EntryRef<'_>>,
    meta: &Metadata<A>,
    filter_writer: &mut Option<FilterWriterImpl<A>>,
    options: &Options,
    entry: &EntryRef<'_>,
) -> Result<Tally<A>, Error>
    requires sized { chunk_size ≡ spec.entries_size chunk.now }
    requires small { spec.empty_len + spec.entry_head_len * length chunk.now + chunk_size < 2 ^ 32 }
    requires rising { spec.CanRegister options.now.filter_kind options.now.bloom_policy
        filter_writer.old (spec.keys_of_entry options.now before entry.now) }
    ensures tally { let e = spec.entry_of_ref entry.now in
        IfOk result (λ t. t ≡
        spec.tally_of (spec.option_map spec.entry_of_ref before.entry) e meta.now.first_key) }
    ensures registered { OnOk result (spec.Registers options.now filter_writer.old filter_writer.new
        (spec.keys_of_entry options.now before.entry entry.now)) }
    ensures refused { spec.Faults result (spec.item_fault chunk.now (spec.entry_of_ref entry.now)) }
    ensures first { spec.FaultsFirst result
        (spec.item_fault chunk.now (spec.entry_of_ref entry.now)) }
{
    check_room(chunk, chunk_size, entry)?;
    let tally = meta.tally(chunk.allocator(), before, entry)?;
    register_key(
        filter_writer,
        chunk.allocator(),
        options,
        tally.starts_key,
        entry.user_key,
    )?;
    Ok(tally)
}

/// Appends an entry to the pending ones, and cuts these as a block once they are full. Fails only
/// with [`Error::OutOfMemory`]. The entry is dropped then, and the rest is unchanged.
fn take_entry<A: Allocator + Clone>(
    chunk: &mut BlockBuffer<A>,
    chunk_size: &mut usize,
    blocks: &mut DataBlocks<A>,
    meta: &mut Metadata<A>,
    options: &Options,
    entry: &EntryRef<'_>,
) -> Result<(), Error>
    requires sized { chunk_size.old ≡ spec.entries_size chunk.old }
    requires works { blocks.old.failed ≡ false }
    requires short { spec.IsShortEntry (spec.entry_of_ref entry.now) }
    requires strict { spec.IsStrict (spec.joined blocks.old.chunks
        ++ (chunk.old ++ spec.entry_of_ref entry.now ∷ [])) }
    requires fit { spec.entries_fault (chunk.old ++ spec.entry_of_ref entry.now ∷ []) ≡ None }
    requires small { spec.entry_size (spec.entry_of_ref entry.now) + chunk_size.old < 2 ^ 64 }
    requires counts { spec.CountsCut blocks.old.chunks meta.old }
    ensures taken { OnOk result (spec.IsTakenWhenFull options.now.data_block_size
        (chunk.old ++ spec.entry_of_ref entry.now ∷ []) blocks.old meta.old chunk.new chunk_size.new
        blocks.new meta.new) }
    ensures left { OnErr result (chunk.new ≡ chunk.old) }
    ensures same_size { OnErr result (chunk_size.new ≡ chunk_size.old) }
    ensures uncut { OnErr result (blocks.new.chunks ≡ blocks.old.chunks) }
    ensures uncounted { OnErr result (meta.new ≡ meta.old) }
    ensures err { IfErr result (λ e. e ≡ spec.OutOfMemory) }
{
    let size = *chunk_size + entry.user_key.len() + entry.value.len();
    let before = chunk.mark();
    chunk.push(entry)?;
    if size < options.data_block_size as usize {
        *chunk_size = size;
        return Ok(());
    }
    if let Err(error) = blocks.cut(chunk, meta) {
        chunk.rewind(before); // drops the entry
        return Err(error);
    }
    *chunk_size = 0;
    Ok(())
}

/// Writes the sections after the data blocks: index, filter, version and meta block. Its errors are
/// those of [`Writer::finish`].
fn write_sections<A: Allocator + Clone>(
    file_writer: &mut SectionWriter<A>,
    buffer: &mut Vec<u8, A>,
    index_writer: IndexWriterImpl<A>,
    filter_writer: Option<FilterWriterImpl<A>>,
    label: &Label,
    options: &Options,
    meta: &Metadata<A>,
) -> Result<(), Error>
    requires { spec.HaveParts options.now file_writer.old index_writer filter_writer meta.now }
    ensures table { OnOk result (spec.ForTableParts label.now options.now file_writer.old
        index_writer filter_writer meta.now (λ w. spec.WritesTable w
        (spec.finished file_writer.new))) }
    ensures refused { spec.ForTableParts label.now options.now file_writer.old index_writer
        filter_writer meta.now (λ w. spec.Faults result (spec.sections_fault w)) }
{
    let index_blocks = index_writer.finish(file_writer)?;
    let filter_blocks = finish_filter(filter_writer, options, file_writer)?;
    write_version(file_writer)?;
    let counts = BlockCounts {
        index: index_blocks,
        filter: filter_blocks,
    };
    write_meta(file_writer, buffer, label, options, counts, meta)
}

/// Returns an error if the entry is too long, or the block of the pending entries too large with it.
fn check_room<A: Allocator>(
    chunk: &BlockBuffer<A>,
    chunk_size: usize,
    entry: &EntryRef<'_>,
) -> Result<(), Error>
    requires sized { chunk_size ≡ spec.entries_size chunk.now }
    requires small { spec.empty_len + spec.entry_head_len * length chunk.now + chunk_size < 2 ^ 32 }
    ensures { MatchResult result (λ _. spec.item_fault chunk.now (spec.entry_of_ref entry.now)
        ≡ None) (λ e. spec.item_fault chunk.now (spec.entry_of_ref entry.now) ≡ Some e) }
{
    check_entry(entry)?;
    let entries = chunk.len() as u64 + 1;
    let bytes = chunk_size as u64 + entry.user_key.len() as u64 + entry.value.len() as u64;
    if EMPTY_LEN + ENTRY_HEAD_LEN * entries + bytes >= 1 << 32 {
        return Err(Error::BlockTooLarge);
    }
    Ok(())
}
