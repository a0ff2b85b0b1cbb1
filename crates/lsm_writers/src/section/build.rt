//! Building a filter from the hashes of its keys.
ghost use Rattle.std.specs.Prelude.{◌≡◌, ℕ, List, length, map, IfOk};
ghost use Rattle.lsm_writers.specs.Words as spec;

use sst_blocks::{BloomConstructionPolicy, Builder, Error, filter_bound};
use std::alloc::Allocator;

/// Builds the filter of the keys with these hashes, with the allocator of the buffer. It checks the
/// size before it clones the allocator. Its errors are those of [`build_filter`].
pub(crate) fn build_from_buffer<A: Allocator + Clone>(
    policy: &BloomConstructionPolicy,
    hashes: &Vec<u64, A>,
) -> Result<Builder<A>, Error>
    ensures filter { IfOk result (λ f. (keys : List (List ℕ)) →
        hashes.now.items ≡ map spec.hash_of keys → spec.IsFilterFor policy.now keys f) }
    ensures refused { let n = length hashes.now.items in
        spec.Faults result (spec.fault_for (spec.tenths_of policy.now) n) }
    ensures first { let n = length hashes.now.items in
        spec.FaultsFirst result (spec.fault_for (spec.tenths_of policy.now) n) }
{
    if filter_bound(policy, hashes.len()) > u64::from(u32::MAX) {
        return Err(Error::BlockTooLarge);
    }
    build_filter(hashes.allocator().clone()?, policy, hashes)
}

/// Builds the filter of the keys with these hashes. Fails with [`Error::BlockTooLarge`] if its
/// block would have 2^32 bytes or more, or with [`Error::OutOfMemory`].
fn build_filter<A: Allocator>(
    alloc: A,
    policy: &BloomConstructionPolicy,
    hashes: &[u64],
) -> Result<Builder<A>, Error>
    ensures filter { IfOk result (λ f. (keys : List (List ℕ)) →
        hashes.now ≡ map spec.hash_of keys → spec.IsFilterFor policy.now keys f) }
    ensures refused { spec.Faults result
        (spec.fault_for (spec.tenths_of policy.now) (length hashes.now)) }
{
    let mut filter = policy.init(alloc, hashes.len())?;
    for hash in hashes {
        filter.set_with_hash(*hash);
    }
    Ok(filter)
}
