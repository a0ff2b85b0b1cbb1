//! The trait of index writers.

use sst_blocks::{BlockHandle, CompressionType, Error, KeyedBlockHandle, SectionWriter, SeqNo};
use std::alloc::Allocator;

/// A writer of the block index of a table, from the handles of its data blocks.
pub trait BlockIndexWriter<A: Allocator> {
    ghost use Rattle.std.specs.Prelude.{◌≡◌, ℕ, Bool, true, false, List, [], ◌∷◌, ◌++◌, length};
    ghost use Rattle.std.specs.Prelude.{take, OnOk, OnErr, IfOk};
    ghost use Rattle.std.specs.List.{AllByRecursion};
    ghost use Rattle.sst_entries.specs.Error.{Faults, FaultsFirst};
    ghost use Rattle.sst_blocks.specs.declared.version.TableVersion.TheVariants.{V4};
    ghost use Rattle.sst_blocks.specs.Handle.{Handle};
    ghost use Rattle.sst_blocks.specs.Handles.{AreStrictHandles};
    ghost use Rattle.sst_blocks.specs.table.Failed.{failed_fault};
    ghost use Rattle.sst_blocks.specs.table.File.{HasNoIndex};
    ghost use Rattle.sst_blocks.specs.table.Fits.{SectionFits};
    ghost use Rattle.sst_blocks.specs.table.Kinds.{index_parts, index_sections, index_with_size};
    ghost use Rattle.sst_blocks.specs.table.Layout.{appended};
    ghost use Rattle.sst_blocks.specs.declared.table.options.IndexKind.{IndexKind};
    ghost use Rattle.lsm_writers.specs.section.IndexRefusing.{index_fault};
    ghost use Rattle.lsm_writers.specs.section.Kept.{handle_with};

    /// The kind of the index.
    ghost kind: { Self → IndexKind };

    /// The registered handles.
    ghost registered: { Self → List Handle };

    /// Whether a call failed.
    ghost has_failed: { Self → Bool };

    /// Registers a data block.
    ///
    /// Blocks must be registered in strict order of their last entries, by key and sequence number.
    ///
    /// # Errors
    ///
    /// [`Error::WriterFailed`] if an earlier call failed, or [`Error::OutOfMemory`]. After an error
    /// each later registration and [`BlockIndexWriter::finish`] fail with [`Error::WriterFailed`].
    fn register_data_block(&mut self, handle: &KeyedBlockHandle<A>) -> Result<(), Error>
        requires { AreStrictHandles (registered self.old ++ handle.now ∷ []) }
        ensures ok { OnOk result (registered self.new ≡ registered self.old ++ handle.now ∷ []) }
        ensures works { OnOk result (has_failed self.new ≡ false) }
        ensures unchanged { OnErr result (registered self.new ≡ registered self.old) }
        ensures failed { OnErr result (has_failed self.new ≡ true) }
        ensures kind { kind self.new ≡ kind self.old }
        ensures refused { Faults result (failed_fault (has_failed self.old)) }
        // `WriterFailed` takes precedence over `OutOfMemory`.
        ensures first { FaultsFirst result (failed_fault (has_failed self.old)) }
    {
        let block = BlockHandle::new(handle.offset(), handle.size());
        self.register_ref(handle.end_key().as_slice(), handle.seqno(), block)
    }

    /// Registers a data block by its handle and the key and sequence number of its last entry.
    ///
    /// See [`BlockIndexWriter::register_data_block`]. All end keys share one buffer, into which
    /// this end key is copied.
    fn register_ref(
        &mut self,
        end_key: &[u8],
        seqno: SeqNo,
        block: BlockHandle,
    ) -> Result<(), Error>
        requires { AreStrictHandles (registered self.old ++ handle_with end_key.now seqno block
            ∷ []) }
        ensures ok { OnOk result (registered self.new ≡
            registered self.old ++ handle_with end_key.now seqno block ∷ []) }
        ensures works { OnOk result (has_failed self.new ≡ false) }
        ensures unchanged { OnErr result (registered self.new ≡ registered self.old) }
        ensures failed { OnErr result (has_failed self.new ≡ true) }
        ensures kind { kind self.new ≡ kind self.old }
        ensures refused { Faults result (failed_fault (has_failed self.old)) }
        // `WriterFailed` takes precedence over `OutOfMemory`.
        ensures first { FaultsFirst result (failed_fault (has_failed self.old)) };

    /// Writes the index, and returns its number of blocks without the top level of partitions.
    ///
    /// Without handles it writes a block of no handles. An index with partitions also has an empty
    /// section of partitions before it. Only the section writer allocates then; this is not proved.
    ///
    /// # Errors
    ///
    /// - [`Error::WriterFailed`] if an earlier call failed;
    /// - [`Error::KeyTooLong`] if an end key is too long;
    /// - [`Error::BlockTooLarge`] if the size bound of a block reaches 2^32;
    /// - [`Error::SectionTooLarge`] after a partition, if the bounds of the partitions so far add
    ///   up to 2^32 or more;
    /// - [`Error::OutOfMemory`].
    ///
    /// Blocks are checked one after another, the top level last. After an error the bytes written
    /// before the call stay. Without handles, an error writes no byte.
    fn finish(self, writer: &mut SectionWriter<A>) -> Result<usize, Error>
        requires { HasNoIndex writer.old }
        ensures ok { OnOk result (writer.new ≡ appended writer.old
            (index_sections (kind self) V4 (length writer.old.bytes) (registered self)
            (index_parts (kind self) (registered self)))) }
        ensures count { IfOk result (λ n. n ≡
            length (index_parts (kind self) (registered self))) }
        ensures fits { OnOk result (AllByRecursion SectionFits
            (index_sections (kind self) V4 (length writer.old.bytes) (registered self)
            (index_parts (kind self) (registered self)))) }
        ensures before { take (length writer.old.bytes) writer.new.bytes ≡ writer.old.bytes }
        ensures refused { Faults result
            (index_fault (kind self) (has_failed self) (registered self)) }
        ensures first { FaultsFirst result (failed_fault (has_failed self)) }
        // Without handles, an error writes no byte.
        ensures idle { OnErr result (registered self ≡ [] →
            writer.new.bytes ≡ writer.old.bytes) };

    /// Sets the compression of the index blocks.
    ///
    /// The call changes neither the handles nor the bytes written.
    fn use_compression(self, compression: CompressionType) -> Self
        ensures kind { kind result ≡ kind self }
        ensures registered { registered result ≡ registered self }
        ensures failed { has_failed result ≡ has_failed self };

    /// Sets the size in bytes at which a partition is cut, if the index has partitions.
    ///
    /// Each handle counts with the length of its end key plus 48 bytes.
    fn use_partition_size(self, size: u32) -> Self
        ensures kind { kind result ≡ index_with_size size (kind self) }
        ensures registered { registered result ≡ registered self }
        ensures failed { has_failed result ≡ has_failed self };
}
