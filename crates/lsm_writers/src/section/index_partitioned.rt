//! The writer of a partitioned index.
ghost use Rattle.std.specs.Prelude.{◌≡◌, ◌+◌, ◌-◌, ◌<◌, ◌≤◌, ◌^◌, ◌++◌, ◌∷◌, [], false, length};
ghost use Rattle.std.specs.Prelude.{take};
ghost use Rattle.std.specs.Prelude.{IfOk, IfErr, OnOk, OnErr};
ghost use Rattle.lsm_writers.specs.Words as spec;
ghost use Rattle.sst_blocks.specs.declared.table.options.IndexKind.TheVariants.{Partitioned};

use crate::section::block::{write_block, write_empty_top_level, write_top_level};
use crate::section::index_writer::BlockIndexWriter;
use crate::section::kept::KeptHandles;
use sst_blocks::{
    BlockHandle, CompressionType, Error, KeyedBlockHandle, SectionName, SectionWriter, SeqNo,
};
use std::alloc::{Allocator, Global};
use std::marker::Model;

/// Bytes that a handle adds to the size of its partition, besides its end key.
const HANDLE_SIZE: u64 = 48;

/// A writer of a partitioned index: partitions cut at a size in bytes, and a top level of their
/// handles.
///
/// It stores the handles of all data blocks until [`BlockIndexWriter::finish`]. Contracts see these
/// handles.
#[derive(Drop)]
pub struct PartitionedIndexWriter<A: Allocator = Global> {
    compression: CompressionType,
    partition_size: u32,
    kept: KeptHandles<A>,
}

impl<A: Allocator> Model for PartitionedIndexWriter<A> {
    ghost use Rattle.sst_blocks.specs.Handles.{AreStrictHandles};
    ghost use Rattle.sst_blocks.specs.declared.table.options.IndexKind.TheVariants.{Partitioned};
    ghost use Rattle.lsm_writers.specs.section.Registered.{Registered};

    ghost Value = { Registered };

    ghost view = { λ w. record {
      handles = w.kept.handles;
      kind = Partitioned w.partition_size;
      failed = w.kept.failed;
    } };

    ghost invariant = { λ w. AreStrictHandles w.kept.handles };
}

impl<A: Allocator> PartitionedIndexWriter<A> {
    /// Creates a writer without handles, with partitions of 4,096 bytes.
    pub fn new(alloc: A) -> PartitionedIndexWriter<A>
        ensures { result ≡ record { handles = []; kind = Partitioned 4096; failed = false } }
    {
        PartitionedIndexWriter::of(CompressionType::None, 4_096, KeptHandles::new(alloc))
    }

    /// Creates a writer of these handles, with partitions of `partition_size` bytes.
    pub(crate) fn of(
        compression: CompressionType,
        partition_size: u32,
        kept: KeptHandles<A>,
    ) -> PartitionedIndexWriter<A>
        requires { spec.AreStrictHandles kept.handles }
        ensures { result ≡ record {
          handles = kept.handles;
          kind = Partitioned partition_size;
          failed = kept.failed;
        } }
    {
        PartitionedIndexWriter {
            compression,
            partition_size,
            kept,
        }
    }
}

impl<A: Allocator + Clone> BlockIndexWriter<A> for PartitionedIndexWriter<A> {
    ghost kind = { λ w. w.kind };

    ghost registered = { λ w. w.handles };

    ghost has_failed = { λ w. w.failed };

    fn register_ref(
        &mut self,
        end_key: &[u8],
        seqno: SeqNo,
        block: BlockHandle,
    ) -> Result<(), Error> {
        self.kept.register(end_key, seqno, block)
    }

    fn finish(self, writer: &mut SectionWriter<A>) -> Result<usize, Error> {
        if self.kept.has_failed() {
            return Err(Error::WriterFailed); // nothing is written
        }
        if self.kept.is_empty() {
            write_no_partitions(writer, self.compression)?;
            return Ok(0);
        }
        write_sections(writer, self.kept, self.partition_size, self.compression)
    }

    fn use_compression(mut self, compression: CompressionType) -> PartitionedIndexWriter<A> {
        self.compression = compression;
        self
    }

    fn use_partition_size(mut self, size: u32) -> PartitionedIndexWriter<A> {
        self.partition_size = size;
        self
    }
}

/// Writes an empty section of partitions, and the section of a top level without handles. Only the
/// section writer allocates. Fails only with [`Error::OutOfMemory`]; no byte is written then.
fn write_no_partitions<A: Allocator + Clone>(
    writer: &mut SectionWriter<A>,
    compression: CompressionType,
) -> Result<(), Error>
    requires { spec.HasNoIndex writer.old }
    ensures ok { let at = length writer.old.bytes in
        OnOk result (writer.new ≡ spec.appended writer.old (spec.partitioned_index spec.V4 at [])) }
    ensures bytes { OnErr result (writer.new.bytes ≡ writer.old.bytes) }
    ensures err { IfErr result (λ e. e ≡ spec.OutOfMemory) }
{
    writer.start(SectionName::Index)?;
    write_empty_top_level(writer, compression)
}

/// Writes the section of the partitions and that of their top level, and returns the number of
/// partitions. Fails if a block or the section is too large, or with [`Error::OutOfMemory`].
fn write_sections<A: Allocator + Clone>(
    writer: &mut SectionWriter<A>,
    kept: KeptHandles<A>,
    partition_size: u32,
    compression: CompressionType,
) -> Result<usize, Error>
    requires unwritten { spec.HasNoIndex writer.old }
    requires strict { spec.AreStrictHandles kept.handles }
    ensures ok { OnOk result (writer.new ≡ spec.appended writer.old
        (spec.partitioned_index spec.V4 (length writer.old.bytes)
        (spec.parts_of_index partition_size kept.handles))) }
    ensures count { let parts = spec.parts_by (spec.is_full_index partition_size) kept.handles in
        IfOk result (λ n. n ≡ length parts) }
    ensures fits { OnOk result (spec.AllByRecursion spec.SectionFits
        (spec.partitioned_index spec.V4 (length writer.old.bytes)
        (spec.parts_of_index partition_size kept.handles))) }
    ensures before { take (length writer.old.bytes) writer.new.bytes ≡ writer.old.bytes }
    ensures refused { spec.Faults result (spec.kind_fault (Partitioned partition_size) kept.handles) }
{
    let handles = kept.into_handles()?;
    writer.start(SectionName::Index)?;
    let mut buffer = Vec::new(handles.allocator().clone()?);
    let mut tops = Vec::new(handles.allocator().clone()?);
    write_partitions(
        writer,
        &handles,
        partition_size,
        &mut tops,
        &mut buffer,
        compression,
    )?;
    write_top_level(writer, &tops, &mut buffer, compression)?;
    Ok(tops.len())
}

/// Cuts the handles into partitions and writes their blocks one after another. Fills `tops`, which
/// is empty before, with the handles of these blocks. Fails if a block or the section is too large,
/// or with [`Error::OutOfMemory`].
fn write_partitions<A: Allocator + Clone>(
    writer: &mut SectionWriter<A>,
    handles: &[KeyedBlockHandle<A>],
    partition_size: u32,
    tops: &mut Vec<KeyedBlockHandle<A>, A>,
    buffer: &mut Vec<u8, A>,
    compression: CompressionType,
) -> Result<(), Error>
    requires strict { spec.AreStrictHandles handles.now }
    requires empty { tops.old.items ≡ [] }
    ensures ok { OnOk result (writer.new ≡ record writer.old {
      bytes = writer.old.bytes ++
          spec.flat_map (spec.handles_block spec.V4) (spec.parts_of_index partition_size handles.now);
    }) }
    ensures tops { let parts = spec.parts_by (spec.is_full_index partition_size) handles.now in
        OnOk result (tops.new.items ≡ spec.index_tops spec.V4 (length writer.old.bytes) parts) }
    ensures short { let parts = spec.parts_by (spec.is_full_index partition_size) handles.now in
        OnOk result (length (spec.flat_map (spec.handles_block spec.V4) parts) < 2 ^ 32) }
    ensures before { take (length writer.old.bytes) writer.new.bytes ≡ writer.old.bytes }
    ensures refused { let parts = spec.parts_by (spec.is_full_index partition_size) handles.now in
        spec.Faults result (spec.parts_fault 0 parts) }
{
    let base = writer.position();
    let mut start = 0;
    let mut size = 0;
    for (i, handle) in handles.iter().enumerate() {
        size = with_handle(size, handle);
        if size >= u64::from(partition_size) {
            let part = &handles[start..i + 1];
            write_partition(writer, base, part, tops, buffer, compression)?;
            start = i + 1;
            size = 0;
        }
    }
    if start < handles.len() {
        let part = &handles[start..];
        write_partition(writer, base, part, tops, buffer, compression)?;
    }
    Ok(())
}

/// Returns the size of a partition of `size` bytes with one more handle. The sum saturates.
fn with_handle<A: Allocator>(size: u64, handle: &KeyedBlockHandle<A>) -> u64
    ensures { result ≡ spec.capped (size + spec.handle_size handle.now) }
{
    let size = size.saturating_add(handle.end_key().len() as u64);
    size.saturating_add(HANDLE_SIZE)
}

/// Appends the block of a partition, and adds its handle to `tops`. The blocks of the section start
/// at `base`. Fails if the block or the section so far is too large, or with
/// [`Error::OutOfMemory`].
fn write_partition<A: Allocator + Clone>(
    writer: &mut SectionWriter<A>,
    base: u64,
    part: &[KeyedBlockHandle<A>],
    tops: &mut Vec<KeyedBlockHandle<A>, A>,
    buffer: &mut Vec<u8, A>,
    compression: CompressionType,
) -> Result<(), Error>
    requires some { 0 < length part.now }
    requires strict { spec.AreStrictHandles part.now }
    requires behind { base ≤ length writer.old.bytes }
    ensures ok { let bytes = writer.old.bytes ++ spec.handles_block spec.V4 part.now in
        OnOk result (writer.new ≡ record writer.old { bytes = bytes }) }
    ensures top { let top = spec.index_tops spec.V4 (length writer.old.bytes) (part.now ∷ []) in
        OnOk result (tops.new.items ≡ tops.old.items ++ top) }
    ensures bound { let size = length (spec.handles_block spec.V4 part.now) in
        OnOk result (size ≡ spec.index_block_bound_of part.now) }
    ensures short { OnOk result (length writer.new.bytes - base < 2 ^ 32) }
    ensures before { take (length writer.old.bytes) writer.new.bytes ≡ writer.old.bytes }
    ensures refused { spec.Faults result
        (spec.part_fault (length writer.old.bytes - base) part.now) }
{
    let block = write_block(writer, part, buffer, compression)?;
    if writer.position() - base > u64::from(u32::MAX) {
        return Err(Error::SectionTooLarge);
    }
    let last = &part[part.len() - 1];
    let end_key = last.end_key().clone()?;
    tops.push(KeyedBlockHandle::new(end_key, last.seqno(), block))?;
    Ok(())
}
