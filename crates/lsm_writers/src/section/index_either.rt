//! The index writer of a kind chosen at run time.
ghost use Rattle.std.specs.Prelude.{◌≡◌};
ghost use Rattle.lsm_writers.specs.Words as spec;

use crate::section::index_full::FullIndexWriter;
use crate::section::index_partitioned::PartitionedIndexWriter;
use crate::section::index_writer::BlockIndexWriter;
use crate::section::kept::KeptHandles;
use sst_blocks::{BlockHandle, CompressionType, Error, IndexKind, SectionWriter, SeqNo};
use std::alloc::{Allocator, Global};

/// An index writer of a kind chosen at run time.
#[derive(Drop)]
pub enum IndexWriterImpl<A: Allocator = Global> {
    /// Writes one block with all handles.
    Full(FullIndexWriter<A>),
    /// Writes partitions and a top level.
    Partitioned(PartitionedIndexWriter<A>),
}

impl<A: Allocator> IndexWriterImpl<A> {
    /// Creates a writer of these handles, for an index of this kind.
    pub(crate) fn of(
        kind: IndexKind,
        compression: CompressionType,
        kept: KeptHandles<A>,
    ) -> IndexWriterImpl<A>
        requires { spec.AreStrictHandles kept.handles }
        ensures { spec.registered_by result ≡
            record { handles = kept.handles; kind = kind; failed = kept.failed } }
    {
        match kind {
            IndexKind::Full => IndexWriterImpl::Full(FullIndexWriter::of(compression, kept)),
            IndexKind::Partitioned(size) => {
                IndexWriterImpl::Partitioned(PartitionedIndexWriter::of(compression, size, kept))
            }
        }
    }
}

impl<A: Allocator + Clone> BlockIndexWriter<A> for IndexWriterImpl<A> {
    ghost use Rattle.lsm_writers.specs.section.IndexEither.{registered_by};

    ghost kind = { λ w. (registered_by w).kind };

    ghost registered = { λ w. (registered_by w).handles };

    ghost has_failed = { λ w. (registered_by w).failed };

    fn register_ref(
        &mut self,
        end_key: &[u8],
        seqno: SeqNo,
        block: BlockHandle,
    ) -> Result<(), Error> {
        match self {
            IndexWriterImpl::Full(writer) => writer.register_ref(end_key, seqno, block),
            IndexWriterImpl::Partitioned(writer) => writer.register_ref(end_key, seqno, block),
        }
    }

    fn finish(self, writer: &mut SectionWriter<A>) -> Result<usize, Error> {
        match self {
            IndexWriterImpl::Full(index) => index.finish(writer),
            IndexWriterImpl::Partitioned(index) => index.finish(writer),
        }
    }

    fn use_compression(self, compression: CompressionType) -> IndexWriterImpl<A> {
        match self {
            IndexWriterImpl::Full(writer) => {
                IndexWriterImpl::Full(writer.use_compression(compression))
            }
            IndexWriterImpl::Partitioned(writer) => {
                IndexWriterImpl::Partitioned(writer.use_compression(compression))
            }
        }
    }

    fn use_partition_size(self, size: u32) -> IndexWriterImpl<A> {
        match self {
            IndexWriterImpl::Full(writer) => IndexWriterImpl::Full(writer.use_partition_size(size)),
            IndexWriterImpl::Partitioned(writer) => {
                IndexWriterImpl::Partitioned(writer.use_partition_size(size))
            }
        }
    }
}
