//! The filter writer of a kind chosen at run time.

use crate::section::filter_full::FullFilterWriter;
use crate::section::filter_partitioned::PartitionedFilterWriter;
use crate::section::filter_writer::FilterWriter;
use sst_blocks::{BloomConstructionPolicy, CompressionType, Error, SectionWriter};
use std::alloc::{Allocator, Global};

/// A filter writer of a kind chosen at run time.
#[derive(Drop)]
pub enum FilterWriterImpl<A: Allocator = Global> {
    /// Writes one block with all keys.
    Full(FullFilterWriter<A>),
    /// Writes partitions and a top level.
    Partitioned(PartitionedFilterWriter<A>),
}

impl<A: Allocator + Clone> FilterWriter<A> for FilterWriterImpl<A> {
    ghost use Rattle.lsm_writers.specs.section.FilterEither.{HoldsBy, failed_by, kind_by};
    ghost use Rattle.lsm_writers.specs.section.FilterEither.{policy_by};
    ghost use Rattle.lsm_writers.specs.section.FilterEither.{with_policy_by, with_size_by};

    ghost kind = { λ w. kind_by w };

    ghost policy = { λ w. policy_by w };

    ghost has_failed = { λ w. failed_by w };

    ghost Holds = { λ w keys. HoldsBy w keys };

    ghost with_policy = { λ w policy. with_policy_by w policy };

    ghost with_partition_size = { λ w size. with_size_by w size };

    fn register_key_bytes(&mut self, key: &[u8]) -> Result<(), Error> {
        match self {
            FilterWriterImpl::Full(writer) => writer.register_key_bytes(key),
            FilterWriterImpl::Partitioned(writer) => writer.register_key_bytes(key),
        }
    }

    fn finish(self, writer: &mut SectionWriter<A>) -> Result<usize, Error> {
        match self {
            FilterWriterImpl::Full(filter) => filter.finish(writer),
            FilterWriterImpl::Partitioned(filter) => filter.finish(writer),
        }
    }

    fn set_filter_policy(self, bloom_policy: BloomConstructionPolicy) -> FilterWriterImpl<A> {
        match self {
            FilterWriterImpl::Full(writer) => {
                FilterWriterImpl::Full(writer.set_filter_policy(bloom_policy))
            }
            FilterWriterImpl::Partitioned(writer) => {
                FilterWriterImpl::Partitioned(writer.set_filter_policy(bloom_policy))
            }
        }
    }

    fn use_tli_compression(self, compression: CompressionType) -> FilterWriterImpl<A> {
        match self {
            FilterWriterImpl::Full(writer) => {
                FilterWriterImpl::Full(writer.use_tli_compression(compression))
            }
            FilterWriterImpl::Partitioned(writer) => {
                FilterWriterImpl::Partitioned(writer.use_tli_compression(compression))
            }
        }
    }

    fn use_partition_size(self, size: u32) -> FilterWriterImpl<A> {
        match self {
            FilterWriterImpl::Full(writer) => {
                FilterWriterImpl::Full(writer.use_partition_size(size))
            }
            FilterWriterImpl::Partitioned(writer) => {
                FilterWriterImpl::Partitioned(writer.use_partition_size(size))
            }
        }
    }
}
