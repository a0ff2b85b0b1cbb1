//! The trait of filter writers, and laws of the filters that they write.
ghost use Rattle.lsm_writers.specs.Words as spec;

use sst_blocks::{BloomConstructionPolicy, CompressionType, Error, SectionWriter, UserKey};
use std::alloc::Allocator;

/// A writer of the filter of a table, from its keys in rising order.
pub trait FilterWriter<A: Allocator> {
    ghost use Rattle.std.specs.Prelude.{◌≡◌, ℕ, Bool, true, false, length, take, OnOk, OnErr, IfOk};
    ghost use Rattle.std.specs.Option.{option_or};
    ghost use Rattle.sst_entries.specs.Error.{Faults, FaultsFirst};
    ghost use Rattle.sst_blocks.specs.declared.filter.policy.BloomConstructionPolicy.{
      BloomConstructionPolicy,
    };
    ghost use Rattle.sst_blocks.specs.table.Failed.{failed_fault};
    ghost use Rattle.sst_blocks.specs.table.File.{HasNoFilter};
    ghost use Rattle.sst_blocks.specs.declared.table.options.FilterKind.{FilterKind};
    ghost use Rattle.lsm_writers.specs.section.Given.{GivenKeys, no_keys, with_key};
    ghost use Rattle.lsm_writers.specs.section.FilterRefusing.{given_fault, register_fault};
    ghost use Rattle.lsm_writers.specs.section.FilterRefusing.{size_fault};
    ghost use Rattle.lsm_writers.specs.section.Rising.{Rises};
    ghost use Rattle.lsm_writers.specs.section.Writing.{WritesParts};
    ghost use Rattle.sst_blocks.specs.table.Kinds.{filter_with_size};

    /// The kind of the filter.
    ghost kind: { Self → FilterKind };

    /// The policy, which sets the size of the filter.
    ghost policy: { Self → BloomConstructionPolicy };

    /// Whether a call failed.
    ghost has_failed: { Self → Bool };

    /// The writer holds these keys: those of the cut partitions, then the pending ones. It stores
    /// most keys as hashes only.
    ghost Holds: { Self → GivenKeys → Type 0 };

    /// The writer after its policy is set.
    ghost with_policy: { Self → BloomConstructionPolicy → Self };

    /// The writer after its partition size is set, if it has partitions.
    ghost with_partition_size: { Self → ℕ → Self };

    /// Registers a key that is greater than all registered before.
    ///
    /// The key becomes pending. The pending keys are cut as a partition once their filter, under
    /// the current policy, reaches the current partition size. Partitions cut before do not change.
    ///
    /// # Errors
    ///
    /// - [`Error::WriterFailed`] if an earlier call failed;
    /// - [`Error::BlockTooLarge`] if the key completes a partition whose filter is too large;
    /// - [`Error::OutOfMemory`].
    ///
    /// After an error each later registration and [`FilterWriter::finish`] fail with
    /// [`Error::WriterFailed`].
    fn register_key(&mut self, key: &UserKey<A>) -> Result<(), Error>
        requires { has_failed self.old ≡ false → Rises (Holds self.old) key.now }
        ensures ok { OnOk result ((given : GivenKeys) → Holds self.old given →
            Holds self.new (with_key (kind self.old) (policy self.old) given key.now)) }
        ensures works { OnOk result (has_failed self.new ≡ false) }
        ensures failed { OnErr result (has_failed self.new ≡ true) }
        ensures kind { kind self.new ≡ kind self.old }
        ensures policy { policy self.new ≡ policy self.old }
        ensures refused { (given : GivenKeys) → Holds self.old given →
            Faults result (option_or (failed_fault (has_failed self.old))
            (register_fault (kind self.old) (policy self.old) given.pending key.now)) }
        // `WriterFailed` takes precedence over `OutOfMemory`.
        ensures first { FaultsFirst result (failed_fault (has_failed self.old)) }
    {
        self.register_key_bytes(key.as_slice())
    }

    /// Registers the key with these bytes; see [`FilterWriter::register_key`].
    fn register_key_bytes(&mut self, key: &[u8]) -> Result<(), Error>
        requires { has_failed self.old ≡ false → Rises (Holds self.old) key.now }
        ensures ok { OnOk result ((given : GivenKeys) → Holds self.old given →
            Holds self.new (with_key (kind self.old) (policy self.old) given key.now)) }
        ensures works { OnOk result (has_failed self.new ≡ false) }
        ensures failed { OnErr result (has_failed self.new ≡ true) }
        ensures kind { kind self.new ≡ kind self.old }
        ensures policy { policy self.new ≡ policy self.old }
        ensures refused { (given : GivenKeys) → Holds self.old given →
            Faults result (option_or (failed_fault (has_failed self.old))
            (register_fault (kind self.old) (policy self.old) given.pending key.now)) }
        // `WriterFailed` takes precedence over `OutOfMemory`.
        ensures first { FaultsFirst result (failed_fault (has_failed self.old)) };

    /// Writes the filter and returns its block count for the meta block.
    ///
    /// The count is 1 for a full filter, even without keys, and else the number of partitions.
    /// Without keys it writes nothing and does not allocate.
    ///
    /// # Errors
    ///
    /// The first of these, before any allocation:
    ///
    /// - [`Error::WriterFailed`] if an earlier call failed;
    /// - [`Error::BlockTooLarge`] if the filter of all keys, or of those after the last cut, needs
    ///   a block of 2^32 bytes or more;
    /// - [`Error::SectionTooLarge`] if the blocks of all partitions add up to 2^32 bytes or more.
    ///
    /// Then, for partitions:
    ///
    /// - [`Error::KeyTooLong`] if the last key of a partition is too long for the top level;
    /// - [`Error::BlockTooLarge`] if the top level is too large.
    ///
    /// Also [`Error::OutOfMemory`]. After an error the bytes written before the call stay.
    fn finish(self, writer: &mut SectionWriter<A>) -> Result<usize, Error>
        requires { HasNoFilter writer.old }
        ensures ok { IfOk result (λ n. (given : GivenKeys) → Holds self given →
            WritesParts (kind self) (policy self) given writer.old writer.new n) }
        ensures before { take (length writer.old.bytes) writer.new.bytes ≡ writer.old.bytes }
        ensures refused { (given : GivenKeys) → Holds self given →
            Faults result (option_or (failed_fault (has_failed self))
            (given_fault (kind self) (policy self) given)) }
        ensures first { FaultsFirst result (failed_fault (has_failed self)) }
        // Size errors that depend on the number of keys take precedence over `OutOfMemory`.
        ensures sized { (given : GivenKeys) → Holds self given →
            FaultsFirst result (option_or (failed_fault (has_failed self))
            (size_fault (kind self) (policy self) given)) }
        // Without keys, only a failed writer returns an error.
        ensures idle { OnErr result (Holds self no_keys → has_failed self ≡ true) };

    /// Sets the policy, which sets the size of the filter.
    ///
    /// It applies to the pending and all later keys. The registered keys and the cut partitions
    /// stay.
    fn set_filter_policy(self, bloom_policy: BloomConstructionPolicy) -> Self
        ensures value { result ≡ with_policy self bloom_policy }
        ensures policy { policy result ≡ bloom_policy }
        ensures kind { kind result ≡ kind self }
        ensures failed { has_failed result ≡ has_failed self }
        ensures holds { (given : GivenKeys) → Holds self given → Holds result given };

    /// Sets the compression of the top level, if the filter has partitions.
    ///
    /// The call changes neither the keys nor the bytes written.
    fn use_tli_compression(self, compression: CompressionType) -> Self
        ensures { result ≡ self };

    /// Sets the size in bytes at which a partition is cut, if the filter has partitions.
    ///
    /// It applies from the next key on. The registered keys and the cut partitions stay.
    fn use_partition_size(self, size: u32) -> Self
        ensures value { result ≡ with_partition_size self size }
        ensures policy { policy result ≡ policy self }
        ensures kind { kind result ≡ filter_with_size size (kind self) }
        ensures failed { has_failed result ≡ has_failed self }
        ensures holds { (given : GivenKeys) → Holds self given → Holds result given };
}

/// States that the filter of a cut partition is never too large at small partition sizes.
///
/// The partition size is at most 4,194,304 bytes. The options must stay unchanged from the first
/// key on. The call does nothing.
pub fn small_partitions_fit()
    ensures { spec.SmallPartsLaw }
{}

/// States the keys and filters of a writer whose kind and policy are set before the first key.
///
/// The writer holds the list of keys, cut into parts. [`FilterWriter::finish`] writes the filters
/// of these parts. A full filter has one part with all keys. Else each part is the shortest prefix
/// of the rest whose filter reaches the partition size. The last part is the rest.
///
/// Except for [`Error::OutOfMemory`], `finish` of an unfailed writer fails exactly with the first
/// of these:
///
/// - the filter of all keys, or of those after the last cut, is too large;
/// - for partitions only, the section is too long;
/// - for partitions only, the top level cannot be written.
///
/// The call does nothing.
pub fn options_set_before_keys()
    ensures none { spec.GivenNoneLaw }
    ensures more { spec.GivenMoreLaw }
    ensures writes { spec.SameFiltersLaw }
    ensures fault { spec.SameFaultLaw }
{}

/// States that the filter written by [`FilterWriter::finish`] admits each registered key.
///
/// A key that it does not admit was not registered. The options may change between keys.
///
/// The block of a full filter loads, and its filter has the hash of the key. With partitions, take
/// the first handle of the top level whose end key is not below the key. Its block loads, and the
/// filter in it has the hash.
///
/// A second clause: registering a key appends it to the registered keys. The call does nothing.
pub fn registered_keys_are_admitted()
    ensures admitted { spec.AdmittedLaw }
    ensures gained { spec.AllKeysLaw }
{}
