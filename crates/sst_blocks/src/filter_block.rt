//! Filter blocks: a Bloom filter of a table or of a part of it.
ghost use Rattle.std.specs.Prelude.{◌≡◌, ◌+◌, List, ℕ, true, length};
ghost use Rattle.sst_blocks.specs.Words as spec;

use crate::{Block, Slice, contains_hash};
use std::alloc::{AllocError, Allocator, Global};
use std::marker::Model;

/// A loaded Bloom filter.
///
/// It shares the table's bytes; clones share everything. In contracts it is the number of probes
/// and the bytes of its bits.
#[derive(Drop)]
pub struct FilterBlock<A: Allocator = Global> {
    // The number of probes, then the bits.
    payload: Slice<A>,
}

impl<A: Allocator> Model for FilterBlock<A> {
    ghost use Rattle.std.specs.Prelude.{◌≡◌, ◌<◌, ◌^◌, true, length};
    ghost use Rattle.sst_blocks.specs.filter.Filter.{BloomFilter, filter_in};
    ghost use Rattle.sst_blocks.specs.Block.{is_filter};

    ghost Value = { BloomFilter };

    ghost view = { λ b. filter_in b.payload };

    ghost invariant = { λ b. (is_filter b.payload ≡ true) × (length b.payload < 2 ^ 32) };
}

impl<A: Allocator> Clone for FilterBlock<A> {
    ghost use Rattle.std.specs.Prelude.{◌≡◌};

    ghost is_clone = { λ b copy. copy ≡ b };

    /// Returns a filter that shares everything.
    ///
    /// # Errors
    ///
    /// Fails with `AllocError` if a reference count cannot be raised.
    fn clone(&self) -> Result<FilterBlock<A>, AllocError> {
        Ok(FilterBlock {
            payload: self.payload.clone()?,
        })
    }
}

impl<A: Allocator> FilterBlock<A> {
    /// Returns the filter of a loaded block, which must be of kind `Filter`.
    pub fn new(block: Block<A>) -> FilterBlock<A>
        requires { block.kind ≡ spec.Filter }
        ensures filter { result ≡ spec.filter_in block.payload }
        ensures payload { spec.payload_of result ≡ block.payload }
        ensures grammar { spec.is_filter block.payload ≡ true }
    {
        FilterBlock {
            payload: block.payload,
        }
    }

    /// Returns whether a key with this hash may have been set.
    ///
    /// A `false` means that none was set. The call does not allocate.
    #[inline]
    pub fn maybe_contains_hash(&self, hash: u64) -> bool
        ensures admits { result ≡ spec.admits self.now hash }
        ensures yes { (hashes : List ℕ) → spec.IsFilterOf self.now hashes →
            spec.is_in hash hashes ≡ true → result ≡ true }
    {
        contains_hash(self.payload.as_slice(), hash)
    }

    /// Returns the length of the payload in bytes: the bits, and the byte before them.
    pub fn size(&self) -> usize
        ensures { result ≡ 1 + length self.now.bits }
    {
        self.payload.len()
    }
}
