//! Registration of a table's keys with its filter.
ghost use Rattle.std.specs.Prelude.{◌≡◌, ◌<◌, ◌^◌, ◌&&◌, ℕ, List, [], nat_lt, OnOk, IfOk};
ghost use Rattle.std.specs.Prelude.{IfErr};
ghost use Rattle.lsm_writers.specs.Words as spec;

use crate::{
    FilterWriter, FilterWriterImpl, FullFilterWriter, PartitionedFilterWriter, small_partitions_fit,
};
use sst_blocks::{BloomConstructionPolicy, Error, FilterKind, Options, SectionWriter};
use std::alloc::Allocator;

/// Creates a filter writer of the options' kind and policy, without keys. Fails only with
/// [`Error::OutOfMemory`].
fn filter_writer_of<A: Allocator + Clone>(
    alloc: A,
    options: &Options,
) -> Result<FilterWriterImpl<A>, Error>
    ensures ok { IfOk result (λ w. spec.HasKeys options.now.filter_kind options.now.bloom_policy w
        []) }
    ensures err { IfErr result (λ e. e ≡ spec.OutOfMemory) }
{
    let policy = options.bloom_policy;
    Ok(match options.filter_kind {
        FilterKind::Full => FilterWriterImpl::Full(FullFilterWriter::new(alloc, policy)),
        FilterKind::Partitioned(size) => FilterWriterImpl::Partitioned(PartitionedFilterWriter::new(
            alloc, policy,
        )?.use_partition_size(size)),
    })
}

/// Returns whether the key of an entry is registered. The entry must be the first of its key, and
/// the policy active.
fn is_registered(policy: BloomConstructionPolicy, starts_key: bool) -> bool
    ensures is { result ≡ (nat_lt 0 (spec.tenths_of policy) && starts_key) }
    ensures few { spec.tenths_of policy < 2 ^ 32 }
{
    policy.is_active() && starts_key
}

/// Registers the key of an entry if the entry is the first of its key and the policy is active. The
/// first registered key creates the writer. Fails only with [`Error::OutOfMemory`].
pub(crate) fn register_key<A: Allocator + Clone>(
    filter_writer: &mut Option<FilterWriterImpl<A>>,
    alloc: &A,
    options: &Options,
    starts_key: bool,
    key: &[u8],
) -> Result<(), Error>
    requires { spec.CanRegister options.now.filter_kind options.now.bloom_policy filter_writer.old
        (spec.registered_key options.now.bloom_policy starts_key key.now) }
    ensures ok { OnOk result (spec.Registers options.now filter_writer.old filter_writer.new
        (spec.registered_key options.now.bloom_policy starts_key key.now)) }
    ensures err { IfErr result (λ e. e ≡ spec.OutOfMemory) }
{
    if !is_registered(options.bloom_policy, starts_key) {
        return Ok(());
    }
    small_partitions_fit(); // so no part is too large
    if let Some(writer) = filter_writer {
        return writer.register_key_bytes(key);
    }
    let mut writer = filter_writer_of(alloc.clone()?, options)?;
    if let Err(error) = writer.register_key_bytes(key) {
        drop(writer);
        return Err(error);
    }
    drop(filter_writer.replace(writer));
    Ok(())
}

/// Writes the filter of the registered keys, and returns its block count for the meta block. Fails
/// if a block or section of it is too large, or with [`Error::OutOfMemory`].
pub(crate) fn finish_filter<A: Allocator + Clone>(
    filter_writer: Option<FilterWriterImpl<A>>,
    options: &Options,
    file_writer: &mut SectionWriter<A>,
) -> Result<usize, Error>
    requires { spec.HasNoFilter file_writer.old }
    ensures ok { let kind = options.now.filter_kind in let policy = options.now.bloom_policy in
        IfOk result (λ n. (keys : List (List ℕ)) → spec.MayHaveKeys kind policy filter_writer keys →
        spec.WritesFilter kind policy keys file_writer.old file_writer.new n) }
    ensures refused { spec.ForKeysOf options.now filter_writer
        (λ keys. spec.Faults result (spec.filter_fault options.now.filter_kind
        options.now.bloom_policy keys)) }
{
    match filter_writer {
        Some(writer) => writer.finish(file_writer),
        None => Ok(match options.filter_kind {
            FilterKind::Full => 1,
            FilterKind::Partitioned(_) => 0,
        }),
    }
}
