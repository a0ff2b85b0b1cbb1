//! The size of filters.
ghost use Rattle.std.specs.Prelude.{◌≡◌, ◌<◌, ◌^◌, nat_lt, IfOk, IfErr, Some, []};
ghost use Rattle.sst_blocks.specs.Words as spec;

use crate::Builder;
use sst_entries::Error;
use std::alloc::Allocator;

/// The policy for the size of a filter.
#[derive(Clone, Copy, Debug, PartialEq, Eq)]
pub enum BloomConstructionPolicy {
    /// The number of bits per key, in tenths of a bit.
    BitsPerKey(u32),
}

impl Default for BloomConstructionPolicy {
    ghost use Rattle.std.specs.Prelude.{◌≡◌};
    ghost use Rattle.sst_blocks.specs.filter.Policy.{tenths_of};

    /// Returns 10 bits per key.
    fn default() -> BloomConstructionPolicy
        ensures { tenths_of result ≡ 100 }
    {
        BloomConstructionPolicy::BitsPerKey(100)
    }
}

// The block of a filter is shorter than 2^32 bytes.
fn fits(bound: u64) -> bool
    ensures { result ≡ nat_lt bound (2 ^ 32) }
{
    bound <= u64::from(u32::MAX)
}

impl BloomConstructionPolicy {
    fn tenths(&self) -> u32
        ensures { result ≡ spec.tenths_of self.now }
    {
        let BloomConstructionPolicy::BitsPerKey(tenths) = self;
        *tenths
    }

    /// Returns whether filters are written at all: the number of bits per key is not 0.
    pub fn is_active(&self) -> bool
        ensures { result ≡ nat_lt 0 (spec.tenths_of self.now) }
    {
        self.tenths() > 0
    }

    /// Returns the size of the bits of a filter for `n` keys, in bytes.
    ///
    /// It is at least 8, and saturates at `usize::MAX`.
    pub fn estimated_filter_size(&self, n: usize) -> usize
        ensures { result ≡ spec.size_for (spec.tenths_of self.now) n }
    {
        let bits = n as u128 * u128::from(self.tenths());
        let size = bits.div_ceil(80).max(8);
        usize::try_from(size).unwrap_or(usize::MAX)
    }

    // The number of probes per hash.
    fn probe_count(&self) -> u8
        ensures { result ≡ spec.probe_count (spec.tenths_of self.now) }
    {
        let count = u64::from(self.tenths()) * 69 / 1_000;
        count.clamp(1, 30) as u8
    }

    /// Creates a filter for `n` keys with no bit set.
    ///
    /// # Errors
    ///
    /// Fails with [`Error::BlockTooLarge`] exactly if [`filter_bound`] is 2^32 or more; this is
    /// checked before any allocation. Otherwise it fails only with [`Error::OutOfMemory`].
    pub fn init<A: Allocator>(&self, alloc: A, n: usize) -> Result<Builder<A>, Error>
        ensures empty { IfOk result (λ b. b ≡ spec.empty_filter (spec.tenths_of self.now) n) }
        ensures hashes { IfOk result (λ b. spec.IsFilterOf b []) }
        ensures refused { spec.Faults result (spec.fault_for (spec.tenths_of self.now) n) }
        ensures first { spec.FaultsFirst result (spec.fault_for (spec.tenths_of self.now) n) }
    {
        if !fits(filter_bound(self, n)) {
            return Err(Error::BlockTooLarge);
        }
        let size = self.estimated_filter_size(n);
        let mut payload = Vec::with_capacity(alloc, size + 1)?;
        payload.push(self.probe_count())?;
        payload.resize(size + 1, 0)?;
        Ok(Builder::of(payload))
    }
}

/// Returns the length of the block of a filter of `n` keys, in bytes.
///
/// It saturates at `u64::MAX`.
pub fn filter_bound(policy: &BloomConstructionPolicy, n: usize) -> u64
    ensures { result ≡ spec.bound_for (spec.tenths_of policy.now) n }
{
    (policy.estimated_filter_size(n) as u64).saturating_add(25)
}
