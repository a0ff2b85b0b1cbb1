//! The writer of a partitioned filter.
ghost use Rattle.std.specs.Prelude.{◌≡◌, ◌+◌, ◌++◌, ◌∷◌, ℕ, List, [], None, true, false, nat_le};
ghost use Rattle.std.specs.Prelude.{length, map, take, All, IfOk, IfErr, OnOk, OnErr};
ghost use Rattle.lsm_writers.specs.Words as spec;
ghost use Rattle.sst_blocks.specs.declared.table.options.FilterKind.TheVariants.{Partitioned};

use crate::section::build::build_from_buffer;
use crate::section::filter_writer::FilterWriter;
use crate::section::key_buffer::KeyBuffer;
use sst_blocks::{
    Block, BlockType, BloomConstructionPolicy, Builder, CompressionType, Error, IndexBlock,
    KeyedBlockHandle, SectionName, SectionWriter, filter_bound,
};
use std::alloc::{Allocator, Global};
use std::marker::Model;

/// A cut partition: its last key and its filter.
#[derive(Drop)]
struct FilterPartition<A: Allocator = Global> {
    end_key: KeyBuffer<A>,
    filter: Builder<A>,
}

impl<A: Allocator> Model for FilterPartition<A> {
    ghost use Rattle.lsm_writers.specs.section.Held.{CutPart};

    ghost Value = { CutPart };

    ghost view = { λ p. record { end_key = p.end_key; filter = p.filter } };
}

/// A writer of a partitioned filter: partitions cut at a size in bytes, and a top level of their
/// last keys.
///
/// Contracts see the filters of the cut partitions, and the hashes of the keys after them.
#[derive(Drop)]
pub struct PartitionedFilterWriter<A: Allocator = Global> {
    bloom_policy: BloomConstructionPolicy,
    partition_size: u32,
    compression: CompressionType,
    // the cut partitions, and a bound on the length of their blocks
    partitions: Vec<FilterPartition<A>, A>,
    relative_file_pos: u64,
    // the pending keys: their hashes, and the last one if there is one
    bloom_hash_buffer: Vec<u64, A>,
    last_key: Option<KeyBuffer<A>>,
    failed: bool,
}

impl<A: Allocator> Model for PartitionedFilterWriter<A> {
    ghost use Rattle.std.specs.Prelude.{◌++◌};
    ghost use Rattle.lsm_writers.specs.section.Held.{CutParts, as_list, end_keys};
    ghost use Rattle.lsm_writers.specs.section.Rising.{AreRising};

    ghost Value = { CutParts };

    ghost view = { λ w. record {
      policy = w.bloom_policy;
      size = w.partition_size;
      parts = w.partitions.items;
      bound = w.relative_file_pos;
      hashes = w.bloom_hash_buffer.items;
      last = w.last_key;
      failed = w.failed;
    } };

    ghost invariant = { λ w. AreRising (end_keys w.partitions.items ++ as_list w.last_key) };
}

impl<A: Allocator + Clone> PartitionedFilterWriter<A> {
    /// Creates a writer without keys, with partitions of 4,096 bytes.
    ///
    /// # Errors
    ///
    /// Only [`Error::OutOfMemory`], if the allocator cannot be cloned.
    pub fn new(
        alloc: A,
        policy: BloomConstructionPolicy,
    ) -> Result<PartitionedFilterWriter<A>, Error>
        ensures value { IfOk result (λ w. w ≡ record {
          policy = policy;
          size = 4096;
          parts = [];
          bound = 0;
          hashes = [];
          last = None;
          failed = false;
        }) }
        ensures holds { IfOk result (λ w. spec.HoldsParts w spec.no_keys) }
        ensures err { IfErr result (λ e. e ≡ spec.OutOfMemory) }
    {
        Ok(PartitionedFilterWriter {
            bloom_policy: policy,
            partition_size: 4_096,
            compression: CompressionType::None,
            partitions: Vec::new(alloc.clone()?),
            relative_file_pos: 0,
            bloom_hash_buffer: Vec::new(alloc),
            last_key: None,
            failed: false,
        })
    }

    // Returns whether the filter of the pending keys reaches the partition size.
    fn is_full(&self) -> bool
        ensures { result ≡
            nat_le self.now.size
            (spec.size_for (spec.tenths_of self.now.policy) (length self.now.hashes)) }
    {
        let approx_filter_size = self
            .bloom_policy
            .estimated_filter_size(self.bloom_hash_buffer.len());
        approx_filter_size >= self.partition_size as usize
    }

    // Cuts the pending keys as a partition; `end_key` is the last of them.
    fn spill_filter_partition(&mut self, end_key: KeyBuffer<A>) -> Result<(), Error>
        requires { spec.AreRising (spec.end_keys self.old.parts ++ end_key ∷ []) }
        ensures ok { OnOk result (spec.Cuts end_key self.old self.new) }
        ensures policy { self.new.policy ≡ self.old.policy }
        ensures size { self.new.size ≡ self.old.size }
        ensures failed { self.new.failed ≡ self.old.failed }
        ensures refused { let n = length self.old.hashes in
            spec.Faults result (spec.fault_for (spec.tenths_of self.old.policy) n) }
    {
        let n = self.bloom_hash_buffer.len();
        let filter = build_from_buffer(&self.bloom_policy, &self.bloom_hash_buffer)?;
        self.partitions.push(FilterPartition { end_key, filter })?;
        self.relative_file_pos = self
            .relative_file_pos
            .saturating_add(filter_bound(&self.bloom_policy, n));
        self.bloom_hash_buffer.clear();
        drop(self.last_key.take());
        Ok(())
    }

    // Adds a pending key, and cuts the pending keys once their filter reaches the partition size.
    fn push_key(&mut self, key: &[u8]) -> Result<(), Error>
        requires { spec.AreRising (spec.end_keys self.old.parts ++ key.now ∷ []) }
        ensures ok { OnOk result ((given : spec.GivenKeys) → spec.HoldsParts self.old given →
            spec.HoldsParts self.new (spec.with_key (Partitioned self.old.size) self.old.policy
            given key.now)) }
        ensures policy { self.new.policy ≡ self.old.policy }
        ensures size { self.new.size ≡ self.old.size }
        ensures failed { self.new.failed ≡ self.old.failed }
        ensures refused { (given : spec.GivenKeys) → spec.HoldsParts self.old given →
            spec.Faults result (spec.register_fault (Partitioned self.old.size) self.old.policy
            given.pending key.now) }
    {
        let hash = Builder::<A>::get_hash(key);
        self.bloom_hash_buffer.push(hash)?;
        KeyBuffer::keep(&mut self.last_key, self.partitions.allocator(), key)?;
        if !self.is_full() {
            return Ok(());
        }
        match self.last_key.take() {
            Some(end_key) => self.spill_filter_partition(end_key),
            None => Ok(()), // unreachable: `keep` stored the key
        }
    }

    // Returns a bound on the size in bytes of the block of the pending keys: 0 without keys.
    fn pending_bound(&self) -> u64
        ensures { (given : spec.GivenKeys) → spec.HoldsParts self.now given →
            result ≡ spec.key_parts_bound (spec.rest_keys self.now.policy given.pending) }
    {
        match self.bloom_hash_buffer.len() {
            0 => 0,
            n => filter_bound(&self.bloom_policy, n),
        }
    }

    // Checks the size bounds of the pending keys' filter and of the section of all partitions.
    fn check_sizes(&self) -> Result<(), Error>
        ensures { (given : spec.GivenKeys) → spec.HoldsParts self.now given →
            spec.Refuses result (spec.size_fault (Partitioned self.now.size) self.now.policy
            given) }
    {
        let pending = self.pending_bound();
        if pending > u64::from(u32::MAX) {
            return Err(Error::BlockTooLarge);
        }
        if self.relative_file_pos.saturating_add(pending) > u64::from(u32::MAX) {
            return Err(Error::SectionTooLarge);
        }
        Ok(())
    }

    // Cuts the pending keys if there are any.
    fn spill_rest(&mut self) -> Result<(), Error>
        ensures ok { OnOk result ((given : spec.GivenKeys) →
            spec.HoldsParts self.old given → spec.HoldsAll self.new given) }
        ensures policy { self.new.policy ≡ self.old.policy }
        ensures size { self.new.size ≡ self.old.size }
        ensures refused { (given : spec.GivenKeys) → spec.HoldsParts self.old given →
            spec.Faults result (spec.keys_fault self.old.policy given.pending) }
        // Without pending keys it succeeds.
        ensures idle { OnErr result (self.old.last ≡ None → ⊥) }
    {
        match self.last_key.take() {
            None => Ok(()),
            Some(end_key) => self.spill_filter_partition(end_key),
        }
    }
}

impl<A: Allocator + Clone> FilterWriter<A> for PartitionedFilterWriter<A> {
    ghost use Rattle.lsm_writers.specs.section.Held.{HoldsParts};
    ghost use Rattle.sst_blocks.specs.declared.table.options.FilterKind.TheVariants.{Partitioned};

    ghost kind = { λ w. Partitioned w.size };

    ghost policy = { λ w. w.policy };

    ghost has_failed = { λ w. w.failed };

    ghost Holds = { HoldsParts };

    ghost with_policy = { λ w policy. record w { policy = policy } };

    ghost with_partition_size = { λ w size. record w { size = size } };

    fn register_key_bytes(&mut self, key: &[u8]) -> Result<(), Error> {
        if self.failed {
            return Err(Error::WriterFailed); // nothing is registered
        }
        self.failed = true;
        self.push_key(key)?;
        self.failed = false;
        Ok(())
    }

    fn finish(mut self, writer: &mut SectionWriter<A>) -> Result<usize, Error> {
        if self.failed {
            return Err(Error::WriterFailed); // nothing is written
        }
        self.check_sizes()?;
        self.spill_rest()?;
        if self.partitions.is_empty() {
            return Ok(0);
        }
        write_sections(writer, self.partitions, self.compression)
    }

    fn set_filter_policy(
        mut self,
        bloom_policy: BloomConstructionPolicy,
    ) -> PartitionedFilterWriter<A> {
        self.bloom_policy = bloom_policy;
        self
    }

    fn use_tli_compression(mut self, compression: CompressionType) -> PartitionedFilterWriter<A> {
        self.compression = compression;
        self
    }

    fn use_partition_size(mut self, size: u32) -> PartitionedFilterWriter<A> {
        self.partition_size = size;
        self
    }
}

/// Writes the section of the partitions and that of their top level, and returns the number of
/// partitions. Fails if the block of the top level is too large, or with [`Error::OutOfMemory`].
fn write_sections<A: Allocator + Clone>(
    writer: &mut SectionWriter<A>,
    partitions: Vec<FilterPartition<A>, A>,
    compression: CompressionType,
) -> Result<usize, Error>
    requires unwritten { spec.HasNoFilter writer.old }
    requires rising { spec.AreRising (spec.end_keys partitions.items) }
    ensures ok { OnOk result (writer.new ≡
        spec.appended writer.old (spec.part_sections (length writer.old.bytes) partitions.items)) }
    ensures short { OnOk result (
        spec.SectionFits
        (spec.FilterTli, spec.tops_block (length writer.old.bytes) partitions.items)) }
    ensures count { IfOk result (λ n. n ≡ length partitions.items) }
    ensures before { take (length writer.old.bytes) writer.new.bytes ≡ writer.old.bytes }
    ensures refused { spec.Faults result (spec.top_fault (spec.end_keys partitions.items)) }
{
    writer.start(SectionName::Filter)?;
    let handles = write_partitions(writer, partitions)?;
    write_top_level(writer, &handles, compression)?;
    Ok(handles.len())
}

/// Writes the blocks of the partitions, one after another, and returns their handles for the top
/// level. Fails only with [`Error::OutOfMemory`].
fn write_partitions<A: Allocator + Clone>(
    writer: &mut SectionWriter<A>,
    partitions: Vec<FilterPartition<A>, A>,
) -> Result<Vec<KeyedBlockHandle<A>, A>, Error>
    ensures ok { OnOk result (writer.new.bytes ≡
        writer.old.bytes ++ spec.flat_map (spec.filter_block spec.V4)
        (spec.filters_of partitions.items)) }
    ensures handles { let at = length writer.old.bytes in
        IfOk result (λ hs. hs.items ≡ spec.tops_of at partitions.items) }
    ensures started { writer.new.started ≡ writer.old.started }
    ensures before { take (length writer.old.bytes) writer.new.bytes ≡ writer.old.bytes }
    ensures err { IfErr result (λ e. e ≡ spec.OutOfMemory) }
{
    let mut handles = Vec::new(partitions.allocator().clone()?);
    for partition in partitions {
        let handle = write_partition(writer, partition)?;
        handles.push(handle)?;
    }
    Ok(handles)
}

/// Appends the block of a partition, and returns its handle for the top level. Fails only with
/// [`Error::OutOfMemory`].
fn write_partition<A: Allocator + Clone>(
    writer: &mut SectionWriter<A>,
    partition: FilterPartition<A>,
) -> Result<KeyedBlockHandle<A>, Error>
    ensures ok { let bytes = writer.old.bytes ++ spec.filter_block spec.V4 partition.filter in
        OnOk result (writer.new ≡ record writer.old { bytes = bytes }) }
    ensures handle { IfOk result (λ h. h ≡ record {
      end_key = partition.end_key;
      seqno = 0;
      offset = length writer.old.bytes;
      size = spec.header_len + length (spec.payload_of partition.filter);
    }) }
    ensures unchanged { OnErr result (writer.new ≡ writer.old) }
    ensures err { IfErr result (λ e. e ≡ spec.OutOfMemory) }
{
    let end_key = partition.end_key.into_key()?;
    let payload = partition.filter.build();
    let place = Block::write_into(writer, &payload, BlockType::Filter, CompressionType::None)?;
    Ok(KeyedBlockHandle::new(end_key, 0, place))
}

/// Writes the section of the top level: one block of these handles. Fails if it is too large, or
/// with [`Error::OutOfMemory`].
fn write_top_level<A: Allocator + Clone>(
    writer: &mut SectionWriter<A>,
    handles: &Vec<KeyedBlockHandle<A>, A>,
    compression: CompressionType,
) -> Result<(), Error>
    requires unwritten { All (λ s. spec.slot_index s.0 ≡ 4 → ⊥) writer.old.started }
    requires strict { spec.AreStrictHandles handles.now.items }
    ensures ok { OnOk result (writer.new ≡
        spec.appended writer.old ((spec.FilterTli, spec.handles_block spec.V4 handles.now.items)
        ∷ [])) }
    ensures short { OnOk result
        (spec.SectionFits (spec.FilterTli, spec.handles_block spec.V4 handles.now.items)) }
    ensures before { take (length writer.old.bytes) writer.new.bytes ≡ writer.old.bytes }
    ensures refused { spec.Faults result (spec.handles_fault handles.now.items) }
{
    let mut payload = Vec::new(handles.allocator().clone()?);
    IndexBlock::encode_into(&mut payload, handles)?;
    writer.start(SectionName::FilterTli)?;
    Block::write_into(writer, &payload, BlockType::Index, compression)?;
    Ok(())
}
