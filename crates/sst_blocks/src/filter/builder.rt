//! Building a Bloom filter.
ghost use Rattle.std.specs.Prelude.{◌≡◌, ◌<◌, ◌++◌, ◌∷◌, [], length, List, ℕ};
ghost use Rattle.sst_blocks.specs.Words as spec;

use crate::filter::bit_array::set_probes;
use crate::hash;
use std::alloc::{Allocator, Global};
use std::marker::Model;

/// A Bloom filter under construction (Bloom, "Space/time trade-offs in hash coding with allowable
/// errors", Communications of the ACM 13, 1970).
///
/// In contracts it is the number of probes per hash and the bytes of the bits.
#[derive(Drop)]
pub struct Builder<A: Allocator = Global> {
    // The number of probes, then the bits.
    payload: Vec<u8, A>,
}

impl<A: Allocator> Model for Builder<A> {
    ghost use Rattle.std.specs.Prelude.{◌<◌, length};
    ghost use Rattle.sst_blocks.specs.filter.Filter.{BloomFilter, IsBuilt, filter_in};

    ghost Value = { BloomFilter };

    ghost view = { λ b. filter_in b.payload.items };

    ghost invariant = { λ b. (0 < length b.payload.items) × IsBuilt (filter_in b.payload.items) };
}

impl<A: Allocator> Builder<A> {
    // The builder of a payload.
    pub(crate) fn of(payload: Vec<u8, A>) -> Builder<A>
        requires some { 0 < length payload.items }
        requires built { spec.IsBuilt (spec.filter_in payload.items) }
        ensures { result ≡ spec.filter_in payload.items }
    {
        Builder { payload }
    }

    /// Returns the hash by which a filter stores and tests a key.
    pub fn get_hash(key: &[u8]) -> u64
        ensures { result ≡ spec.hash_of key.now }
    {
        hash(key)
    }

    /// Sets the bits of a hash.
    pub fn set_with_hash(&mut self, hash: u64)
        ensures gains { spec.Gains self.old hash self.new }
        ensures hashes { (hashes : List ℕ) → spec.IsFilterOf self.old hashes →
            spec.IsFilterOf self.new (hashes ++ hash ∷ []) }
    {
        self.gain(hash);
    }

    fn gain(&mut self, hash: u64)
        ensures { spec.Gains self.old hash self.new }
    {
        let count = self.payload[0];
        set_probes(&mut self.payload[1..], count, hash);
    }

    /// Returns the payload of the filter's block: the number of probes in one byte, then the bits.
    pub fn build(self) -> Vec<u8, A>
        ensures payload { result.items ≡ spec.payload_of self }
        // The payload matches the grammar of filter blocks, and its block is shorter than 2^32
        // bytes.
        ensures built { spec.IsBuilt self }
    {
        self.payload
    }
}
