//! The writer of a full index.
ghost use Rattle.std.specs.Prelude.{◌≡◌, ◌∷◌, [], false, length, take, IfOk, OnOk};
ghost use Rattle.lsm_writers.specs.Words as spec;
ghost use Rattle.sst_blocks.specs.declared.table.options.IndexKind.TheVariants.{Full};

use crate::section::block::{write_empty_top_level, write_top_level};
use crate::section::index_either::IndexWriterImpl;
use crate::section::index_writer::BlockIndexWriter;
use crate::section::kept::KeptHandles;
use sst_blocks::{BlockHandle, CompressionType, Error, IndexKind, SectionWriter, SeqNo};
use std::alloc::{Allocator, Global};
use std::marker::Model;

/// A writer of a full index: one block with the handles of all data blocks.
///
/// Contracts see the handles.
#[derive(Drop)]
pub struct FullIndexWriter<A: Allocator = Global> {
    compression: CompressionType,
    kept: KeptHandles<A>,
}

impl<A: Allocator> Model for FullIndexWriter<A> {
    ghost use Rattle.sst_blocks.specs.Handles.{AreStrictHandles};
    ghost use Rattle.sst_blocks.specs.declared.table.options.IndexKind.TheVariants.{Full};
    ghost use Rattle.lsm_writers.specs.section.Registered.{Registered};

    ghost Value = { Registered };

    ghost view = { λ w. record {
      handles = w.kept.handles;
      kind = Full;
      failed = w.kept.failed;
    } };

    ghost invariant = { λ w. AreStrictHandles w.kept.handles };
}

impl<A: Allocator> FullIndexWriter<A> {
    /// Creates a writer without handles.
    pub fn new(alloc: A) -> FullIndexWriter<A>
        ensures { result ≡ record { handles = []; kind = Full; failed = false } }
    {
        FullIndexWriter::of(CompressionType::None, KeptHandles::new(alloc))
    }

    /// Creates a writer of these handles.
    pub(crate) fn of(compression: CompressionType, kept: KeptHandles<A>) -> FullIndexWriter<A>
        requires { spec.AreStrictHandles kept.handles }
        ensures { result ≡
            record { handles = kept.handles; kind = Full; failed = kept.failed } }
    {
        FullIndexWriter { compression, kept }
    }

    /// Converts the writer into one of an index of this kind, with the same handles.
    ///
    /// A caller can thus choose the kind after all handles are registered.
    pub fn into_kind(self, kind: IndexKind) -> IndexWriterImpl<A>
        ensures { spec.registered_by result ≡ record self { kind = kind } }
    {
        IndexWriterImpl::of(kind, self.compression, self.kept)
    }
}

impl<A: Allocator + Clone> BlockIndexWriter<A> for FullIndexWriter<A> {
    ghost kind = { λ w. w.kind };

    ghost registered = { λ w. w.handles };

    ghost has_failed = { λ w. w.failed };

    fn register_ref(
        &mut self,
        end_key: &[u8],
        seqno: SeqNo,
        block: BlockHandle,
    ) -> Result<(), Error> {
        self.kept.register(end_key, seqno, block)
    }

    fn finish(self, writer: &mut SectionWriter<A>) -> Result<usize, Error> {
        if self.kept.has_failed() {
            return Err(Error::WriterFailed); // nothing is written
        }
        if self.kept.is_empty() {
            write_empty_top_level(writer, self.compression)?;
            return Ok(1);
        }
        write_section(writer, self.kept, self.compression)
    }

    fn use_compression(mut self, compression: CompressionType) -> FullIndexWriter<A> {
        self.compression = compression;
        self
    }

    fn use_partition_size(self, _size: u32) -> FullIndexWriter<A> {
        self
    }
}

/// Writes the section of one block of these handles, and returns its number of blocks. Fails if the
/// block is too large, or with [`Error::OutOfMemory`].
fn write_section<A: Allocator + Clone>(
    writer: &mut SectionWriter<A>,
    kept: KeptHandles<A>,
    compression: CompressionType,
) -> Result<usize, Error>
    requires unwritten { spec.HasNoIndex writer.old }
    requires strict { spec.AreStrictHandles kept.handles }
    ensures ok { OnOk result (writer.new ≡
        spec.appended writer.old ((spec.Tli, spec.handles_block spec.V4 kept.handles) ∷ [])) }
    ensures count { IfOk result (λ n. n ≡ 1) }
    ensures fits { OnOk result (spec.SectionFits (spec.Tli, spec.handles_block spec.V4 kept.handles)) }
    ensures before { take (length writer.old.bytes) writer.new.bytes ≡ writer.old.bytes }
    ensures refused { spec.Faults result (spec.handles_fault kept.handles) }
{
    let handles = kept.into_handles()?;
    let mut buffer = Vec::new(handles.allocator().clone()?);
    write_top_level(writer, &handles, &mut buffer, compression)?;
    Ok(1)
}
