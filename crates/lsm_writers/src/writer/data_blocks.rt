//! The data blocks of a table, and the index of them.
ghost use Rattle.std.specs.Prelude.{◌≡◌, ◌+◌, ◌*◌, ◌++◌, ◌^◌, ◌<◌, [], ◌∷◌, None};
ghost use Rattle.std.specs.Prelude.{true, false, length, IfOk, IfErr, OnOk, OnErr};
ghost use Rattle.lsm_writers.specs.Words as spec;

use crate::writer::block_buffer::BlockBuffer;
use crate::writer::meta::Metadata;
use crate::{BlockIndexWriter, FullIndexWriter, KeyBuffer};
use sst_blocks::{BlockHandle, BlockOffset, Error, SectionName, SectionWriter};
use sst_entries::EntryRef;
use std::alloc::{Allocator, Global};
use std::marker::Model;
use std::mem;

/// The data blocks cut so far, one after another in the data section, and the index of their
/// handles. Contracts see the chunks of the blocks, as decoded from the bytes.
#[derive(Drop)]
pub(crate) struct DataBlocks<A: Allocator = Global> {
    file_writer: SectionWriter<A>,
    index_writer: FullIndexWriter<A>,
    // the entries of the last block; the next block reuses the memory
    last_block: BlockBuffer<A>,
    // memory for the last key of the next block
    spare_key: Option<KeyBuffer<A>>,
}

impl<A: Allocator> Model for DataBlocks<A> {
    ghost use Rattle.std.specs.Prelude.{◌*◌, ◌^◌, ◌<◌, None, length};
    ghost use Rattle.sst_entries.specs.Strict.{last_of};
    ghost use Rattle.sst_blocks.specs.declared.version.TableVersion.TheVariants.{V4};
    ghost use Rattle.sst_blocks.specs.Bounds.{entry_head_len};
    ghost use Rattle.sst_blocks.specs.table.Chunks.{joined};
    ghost use Rattle.lsm_writers.specs.Cut.{Cut, chunks_in, AreCut};

    ghost Value = { Cut };

    ghost view = { λ b. record {
      chunks = chunks_in V4 (length b.index_writer.handles) b.file_writer.bytes;
      failed = b.index_writer.failed;
    } };

    ghost invariant = { λ b.
        AreCut (chunks_in V4 (length b.index_writer.handles) b.file_writer.bytes)
        b.file_writer b.index_writer.handles (last_of None b.last_block) b.index_writer.failed
        × (entry_head_len * length (joined
        (chunks_in V4 (length b.index_writer.handles) b.file_writer.bytes)) < 2 ^ 64) };
}

impl<A: Allocator + Clone> DataBlocks<A> {
    /// Starts a data section without blocks. Fails only with [`Error::OutOfMemory`].
    pub(crate) fn new(alloc: A) -> Result<DataBlocks<A>, Error>
        ensures ok { IfOk result (λ b. b ≡ record { chunks = []; failed = false }) }
        ensures err { IfErr result (λ e. e ≡ spec.OutOfMemory) }
    {
        let last_block = BlockBuffer::new(alloc.clone()?)?;
        let index_writer = FullIndexWriter::new(alloc.clone()?);
        let mut file_writer = SectionWriter::new(alloc)?;
        file_writer.start(SectionName::Data)?;
        Ok(DataBlocks {
            file_writer,
            index_writer,
            last_block,
            spare_key: None,
        })
    }

    /// Returns the entries of the last block; its last entry is the last of all blocks.
    #[inline]
    pub(crate) fn last_block(&self) -> &BlockBuffer<A>
        ensures last { spec.last_of None result.now
            ≡ spec.last_of None (spec.joined self.now.chunks) }
        // Each entry takes `entry_head_len` bytes or more, so a `u64` can count them.
        ensures few { spec.entry_head_len * length (spec.joined self.now.chunks) < 2 ^ 64 }
    {
        &self.last_block
    }

    /// Cuts the entries of `chunk` as a block, and registers it with the index. An empty `chunk` is
    /// not cut. Afterwards `chunk` is empty, and `meta` counts the block. Fails only with
    /// [`Error::OutOfMemory`]; `chunk` and `meta` are unchanged then.
    pub(crate) fn cut(
        &mut self,
        chunk: &mut BlockBuffer<A>,
        meta: &mut Metadata<A>,
    ) -> Result<(), Error>
        requires works { self.old.failed ≡ false }
        requires strict { spec.IsStrict (spec.joined self.old.chunks ++ chunk.old) }
        requires fit { spec.entries_fault chunk.old ≡ None }
        requires counts { spec.CountsCut self.old.chunks meta.old }
        ensures ok { OnOk result (self.new.chunks ≡ self.old.chunks ++ spec.rest_chunk chunk.old) }
        ensures works { OnOk result (self.new.failed ≡ false) }
        ensures taken { OnOk result (chunk.new ≡ []) }
        ensures counted { OnOk result (meta.new ≡ spec.with_cut self.new.chunks meta.old) }
        ensures unchanged { OnErr result (self.new.chunks ≡ self.old.chunks) }
        ensures left { OnErr result (chunk.new ≡ chunk.old) }
        ensures uncounted { OnErr result (meta.new ≡ meta.old) }
        // An empty chunk never causes an error.
        ensures some { OnErr result (chunk.old ≡ [] → ⊥) }
        ensures err { IfErr result (λ e. e ≡ spec.OutOfMemory) }
    {
        let Some(last) = chunk.last() else {
            return Ok(());
        };
        KeyBuffer::keep(&mut self.spare_key, chunk.allocator(), last.user_key)?;
        add_block(&mut self.file_writer, &mut self.index_writer, chunk)?;
        let end = BlockOffset(self.file_writer.position());
        meta.count_block(chunk.len(), chunk.payload_len(), end, &mut self.spare_key);
        mem::swap(&mut self.last_block, chunk);
        chunk.clear();
        Ok(())
    }

    /// Returns the data section, the index of all its blocks, and memory to reuse.
    pub(crate) fn into_parts(self) -> (SectionWriter<A>, FullIndexWriter<A>, Vec<u8, A>)
        requires { self.failed ≡ false }
        ensures data { result.0
            ≡ spec.laid ((spec.Data, spec.data_section spec.V4 self.chunks) ∷ []) }
        ensures index { result.1.handles ≡ spec.handles spec.V4 self.chunks }
        ensures works { result.1.failed ≡ false }
        ensures blocks { spec.AllByRecursion (spec.BlockFits spec.V4) self.chunks }
    {
        let DataBlocks {
            file_writer,
            index_writer,
            last_block,
            ..
        } = self;
        (file_writer, index_writer, last_block.into_memory())
    }
}

/// Appends a block of these entries, and registers it with the index. Fails only with
/// [`Error::OutOfMemory`]; the blocks before it stay.
fn add_block<A: Allocator + Clone>(
    file_writer: &mut SectionWriter<A>,
    index_writer: &mut FullIndexWriter<A>,
    entries: &mut BlockBuffer<A>,
) -> Result<(), Error>
    requires some { 0 < length entries.old }
    requires fit { spec.entries_fault entries.old ≡ None }
    requires cut { spec.CanCut file_writer.old index_writer.old.handles index_writer.old.failed
        entries.old }
    ensures added { OnOk result (spec.AddsChunk file_writer.old index_writer.old entries.old
        file_writer.new index_writer.new) }
    ensures works { OnOk result (index_writer.new.failed ≡ false) }
    ensures same { entries.new ≡ entries.old }
    ensures left { OnErr result (spec.LeavesChunks file_writer.old index_writer.old file_writer.new
        index_writer.new) }
    ensures err { IfErr result (λ e. e ≡ spec.OutOfMemory) }
{
    let block = entries.write_into(file_writer)?;
    register_block(index_writer, entries, block)
}

/// Registers the block of these entries with the index. Fails only with [`Error::OutOfMemory`].
fn register_block<A: Allocator + Clone>(
    index_writer: &mut FullIndexWriter<A>,
    entries: &BlockBuffer<A>,
    block: BlockHandle,
) -> Result<(), Error>
    requires some { 0 < length entries.now }
    requires works { index_writer.old.failed ≡ false }
    requires strict { let last = spec.last_entry entries.now in
        spec.AreStrictHandles (index_writer.old.handles
        ++ spec.handle_with last.user_key last.seqno block ∷ []) }
    ensures ok { let last = spec.last_entry entries.now in
        OnOk result (index_writer.new.handles ≡ index_writer.old.handles
        ++ spec.handle_with last.user_key last.seqno block ∷ []) }
    ensures works { OnOk result (index_writer.new.failed ≡ false) }
    ensures unchanged { OnErr result (index_writer.new.handles ≡ index_writer.old.handles) }
    ensures failed { OnErr result (index_writer.new.failed ≡ true) }
    ensures err { IfErr result (λ e. e ≡ spec.OutOfMemory) }
{
    let last = entries.last().unwrap(); // there is an entry
    index_writer.register_ref(last.user_key, last.seqno, block)
}
