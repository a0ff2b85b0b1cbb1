//! The writer of a full filter.
ghost use Rattle.std.specs.Prelude.{◌≡◌, ℕ, List, [], false, length, map, take, IfOk};
ghost use Rattle.lsm_writers.specs.Words as spec;
ghost use Rattle.sst_blocks.specs.declared.table.options.FilterKind.TheVariants.{Full};

use crate::section::build::build_from_buffer;
use crate::section::filter_writer::FilterWriter;
use sst_blocks::{
    Block, BlockType, BloomConstructionPolicy, Builder, CompressionType, Error, SectionName,
    SectionWriter,
};
use std::alloc::{Allocator, Global};
use std::marker::Model;

/// A writer of a full filter: one block for all keys.
///
/// Contracts see the hashes of the keys.
#[derive(Drop)]
pub struct FullFilterWriter<A: Allocator = Global> {
    bloom_policy: BloomConstructionPolicy,
    // The size depends on the number of keys, so `finish` builds the filter.
    bloom_hash_buffer: Vec<u64, A>,
    failed: bool,
}

impl<A: Allocator> Model for FullFilterWriter<A> {
    ghost use Rattle.lsm_writers.specs.section.Held.{Hashes};

    ghost Value = { Hashes };

    ghost view = { λ w. record {
      policy = w.bloom_policy;
      hashes = w.bloom_hash_buffer.items;
      failed = w.failed;
    } };
}

impl<A: Allocator> FullFilterWriter<A> {
    /// Creates a writer without keys.
    pub fn new(alloc: A, policy: BloomConstructionPolicy) -> FullFilterWriter<A>
        ensures value { result ≡ record { policy = policy; hashes = []; failed = false } }
        ensures holds { spec.HoldsHashes result spec.no_keys }
    {
        FullFilterWriter {
            bloom_policy: policy,
            bloom_hash_buffer: Vec::new(alloc),
            failed: false,
        }
    }
}

impl<A: Allocator + Clone> FilterWriter<A> for FullFilterWriter<A> {
    ghost use Rattle.lsm_writers.specs.section.Held.{HoldsHashes};
    ghost use Rattle.sst_blocks.specs.declared.table.options.FilterKind.TheVariants.{Full};

    ghost kind = { λ _. Full };

    ghost policy = { λ w. w.policy };

    ghost has_failed = { λ w. w.failed };

    ghost Holds = { HoldsHashes };

    ghost with_policy = { λ w policy. record w { policy = policy } };

    ghost with_partition_size = { λ w _. w };

    fn register_key_bytes(&mut self, key: &[u8]) -> Result<(), Error> {
        if self.failed {
            return Err(Error::WriterFailed); // nothing is registered
        }
        self.failed = true;
        self.bloom_hash_buffer.push(Builder::<A>::get_hash(key))?;
        self.failed = false;
        Ok(())
    }

    fn finish(self, writer: &mut SectionWriter<A>) -> Result<usize, Error> {
        if self.failed {
            return Err(Error::WriterFailed); // nothing is written
        }
        if self.bloom_hash_buffer.is_empty() {
            return Ok(1); // an empty filter counts as one block
        }
        write_filter(writer, &self.bloom_policy, &self.bloom_hash_buffer)
    }

    fn set_filter_policy(mut self, bloom_policy: BloomConstructionPolicy) -> FullFilterWriter<A> {
        self.bloom_policy = bloom_policy;
        self
    }

    fn use_tli_compression(self, _compression: CompressionType) -> FullFilterWriter<A> {
        self
    }

    fn use_partition_size(self, _size: u32) -> FullFilterWriter<A> {
        self
    }
}

/// Writes the filter section for these hashes, and returns its number of blocks. Before any
/// allocation it fails with [`Error::BlockTooLarge`] if the filter is too large. Else it fails only
/// with [`Error::OutOfMemory`].
fn write_filter<A: Allocator + Clone>(
    writer: &mut SectionWriter<A>,
    policy: &BloomConstructionPolicy,
    hashes: &Vec<u64, A>,
) -> Result<usize, Error>
    requires unwritten { spec.HasNoFilter writer.old }
    requires some { hashes.now.items ≡ [] → ⊥ }
    ensures ok { IfOk result (λ n. (keys : List (List ℕ)) →
        hashes.now.items ≡ map spec.hash_of keys →
        spec.WritesParts Full policy.now (spec.given_by Full policy.now keys) writer.old writer.new
        n) }
    ensures before { take (length writer.old.bytes) writer.new.bytes ≡ writer.old.bytes }
    ensures refused { let n = length hashes.now.items in
        spec.Faults result (spec.fault_for (spec.tenths_of policy.now) n) }
    ensures first { let n = length hashes.now.items in
        spec.FaultsFirst result (spec.fault_for (spec.tenths_of policy.now) n) }
{
    let filter = build_from_buffer(policy, hashes)?;
    let payload = filter.build();
    writer.start(SectionName::Filter)?;
    Block::write_into(writer, &payload, BlockType::Filter, CompressionType::None)?;
    Ok(1)
}
