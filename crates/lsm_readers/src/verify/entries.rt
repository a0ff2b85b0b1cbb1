//! Reading the entries of a data block.
ghost use Rattle.std.specs.Prelude.{◌≡◌, ◌<◌, IfErr, IfOk, Some, length, true};
ghost use Rattle.lsm_readers.specs.Words as spec;
ghost use Rattle.lsm_readers.specs.declared.verify.VerifyError.TheVariants.{OutOfMemory};

use super::{Counts, Fault, Unread, VerifyError, found};
use crate::Inner;
use sst_blocks::{
    BlockSource, Builder, DataBlock, Error, InternalValue, ItemName, Opened, SectionName, SeqNo,
    ValueType,
};
use std::alloc::Allocator;

/// Subtracts from a count of the meta block at an offset. Fails if too little is left.
pub(super) fn spend(meta: u64, item: ItemName, left: u64, by: u64) -> Result<u64, VerifyError>
    ensures returned { spec.Finds (λ n. n) result (spec.spent meta item left by) }
    ensures calm { IfErr result (λ e. spec.is_found e ≡ true) }
{
    if left < by {
        return Err(found(SectionName::Meta, meta, Fault::Unborne(item)));
    }
    Ok(left - by)
}

/// Whether an entry is the first of its key, given the entry directly before it.
fn starts_key<A: Allocator>(last: &Option<InternalValue<A>>, entry: &InternalValue<A>) -> bool
    ensures { result ≡ spec.starts_key last.now entry.now }
{
    match last {
        None => true,
        Some(last) => last.key.user_key != entry.key.user_key,
    }
}

fn is_weak<A: Allocator>(entry: &InternalValue<A>) -> bool
    ensures { result ≡ spec.is_weak entry.now }
{
    matches!(entry.key.value_type, ValueType::WeakTombstone)
}

/// Whether an entry is a value directly after a weak tombstone of its key.
fn is_reclaimable<A: Allocator>(last: &Option<InternalValue<A>>, entry: &InternalValue<A>) -> bool
    ensures { result ≡ spec.is_reclaimable last.now entry.now }
{
    match last {
        None => false,
        Some(last) => {
            matches!(entry.key.value_type, ValueType::Value)
                && is_weak(last)
                && last.key.user_key == entry.key.user_key
        }
    }
}

/// Whether an entry is in order after the one before it.
fn may_follow<A: Allocator>(last: &Option<InternalValue<A>>, entry: &InternalValue<A>) -> bool
    ensures { result ≡ spec.may_follow last.now entry.now }
{
    match last {
        None => true,
        Some(last) => entry.may_follow(Some(last)),
    }
}

/// Checks an entry's seqno, and that it is in order after the one before it.
fn test_order<A: Allocator>(
    at: u64,
    last: &Option<InternalValue<A>>,
    entry: &InternalValue<A>,
) -> Result<(), VerifyError>
    ensures returned { spec.Finds (λ (_ : _). tt) result (spec.order_found at last.now entry.now) }
    ensures calm { IfErr result (λ e. spec.is_found e ≡ true) }
{
    if entry.key.seqno < SeqNo::MAX {
        if may_follow(last, entry) {
            Ok(())
        } else {
            Err(found(SectionName::Data, at, Fault::Unordered))
        }
    } else {
        Err(found(SectionName::Data, at, Fault::TooHigh))
    }
}

/// Checks that the first entry of the table has the minimum key in the meta block.
fn test_first<A: Allocator>(
    inner: &Inner<A>,
    last: &Option<InternalValue<A>>,
    entry: &InternalValue<A>,
) -> Result<(), VerifyError>
    ensures returned { spec.Finds (λ (_ : _). tt) result
        (spec.first_found (spec.parts_of inner.now) last.now entry.now) }
    ensures calm { IfErr result (λ e. spec.is_found e ≡ true) }
{
    if last.is_some() || inner.metadata.key_range.min() == &entry.key.user_key {
        Ok(())
    } else {
        let meta = inner.regions.metadata.offset().0;
        Err(found(SectionName::Meta, meta, Fault::Unborne(ItemName::KeyMin)))
    }
}

/// Whether the filter may contain a key, by its blocks in the table's bytes.
fn admits<A: Allocator + Clone>(
    source: &BlockSource<A>,
    inner: &Inner<A>,
    key: &[u8],
) -> Result<bool, Error>
    ensures { result ≡ spec.admitted (spec.body_of source.now) (spec.parts_of inner.now) key.now }
{
    let hash = Builder::<A>::get_hash(key);
    let mut opened = Opened::none();
    if let Some(tops) = &inner.pinned_filter_index {
        return match tops.find(key, SeqNo::MAX) {
            Some(handle) => source.maybe_contains_hash(&handle, hash, &mut opened),
            None => Ok(false),
        };
    }
    match &inner.regions.filter {
        Some(handle) => source.maybe_contains_hash(handle, hash, &mut opened),
        None => Ok(true),
    }
}

/// Checks that the filter does not exclude the key of an entry. Only the first entry of a key is
/// checked.
fn test_key<A: Allocator + Clone>(
    source: &BlockSource<A>,
    inner: &Inner<A>,
    at: u64,
    last: &Option<InternalValue<A>>,
    entry: &InternalValue<A>,
) -> Result<(), VerifyError>
    ensures returned { spec.Finds (λ (_ : _). tt) result
        (spec.key_found (spec.body_of source.now) (spec.parts_of inner.now) at last.now entry.now) }
    ensures calm { IfErr result (λ e. spec.is_found e ≡ true) }
{
    if !starts_key(last, entry) {
        return Ok(());
    }
    match admits(source, inner, entry.key.user_key.as_slice()) {
        Ok(true) => Ok(()),
        Ok(false) => Err(found(SectionName::Data, at, Fault::Denied)),
        Err(error) => Err(found(SectionName::Data, at, Fault::Unfiltered(error))),
    }
}

/// Subtracts an entry from the counts.
#[tactic(auto, unfolding(crate::specs::Verify::entry_spent))]
fn count_entry<A: Allocator>(
    meta: u64,
    last: &Option<InternalValue<A>>,
    entry: &InternalValue<A>,
    counts: Counts,
) -> Result<Counts, VerifyError>
    ensures returned { spec.Finds (λ (c : spec.CountsLeft). c) result
        (spec.entry_spent meta last.now entry.now counts) }
    ensures calm { IfErr result (λ e. spec.is_found e ≡ true) }
{
    let tombstone = u64::from(entry.is_tombstone());
    let weak = u64::from(is_weak(entry));
    let reclaimable = u64::from(is_reclaimable(last, entry));
    let items = spend(meta, ItemName::ItemCount, counts.items, 1)?;
    let tombstones = spend(meta, ItemName::TombstoneCount, counts.tombstones, tombstone)?;
    let weak = spend(meta, ItemName::WeakTombstoneCount, counts.weak, weak)?;
    let reclaimable = spend(
        meta,
        ItemName::WeakTombstoneReclaimable,
        counts.reclaimable,
        reclaimable,
    )?;
    Ok(Counts {
        blocks: counts.blocks,
        size: counts.size,
        items,
        tombstones,
        weak,
        reclaimable,
        lowest: counts.lowest.min(entry.key.seqno),
        highest: counts.highest.max(entry.key.seqno),
    })
}

/// Checks an entry of the data block at an offset, and returns the counts that are left after it.
#[tactic(auto, unfolding(crate::specs::Verify::entry_tested))]
fn test_entry<A: Allocator + Clone>(
    source: &BlockSource<A>,
    inner: &Inner<A>,
    at: u64,
    left: &Unread<A>,
    entry: &InternalValue<A>,
) -> Result<Counts, VerifyError>
    ensures returned { spec.Finds (λ (c : spec.CountsLeft). c) result
        (spec.entry_tested (spec.body_of source.now) (spec.parts_of inner.now) at left.now
        entry.now) }
    ensures calm { IfErr result (λ e. spec.is_found e ≡ true) }
{
    test_order(at, &left.last, entry)?;
    test_first(inner, &left.last, entry)?;
    test_key(source, inner, at, &left.last, entry)?;
    let meta = inner.regions.metadata.offset().0;
    count_entry(meta, &left.last, entry, left.counts)
}

/// Reads an entry of the data block at an offset.
#[tactic(auto, unfolding(crate::specs::Verify::entry_found))]
fn read_entry<A: Allocator + Clone>(
    source: &BlockSource<A>,
    inner: &Inner<A>,
    at: u64,
    left: &mut Unread<A>,
    entry: InternalValue<A>,
) -> Result<(), VerifyError>
    ensures returned { spec.Finds (λ (_ : _). left.new) result
        (spec.entry_found (spec.body_of source.now) (spec.parts_of inner.now) at left.old entry) }
    ensures calm { IfErr result (λ e. spec.is_found e ≡ true) }
{
    let counts = test_entry(source, inner, at, left, &entry)?;
    left.last = Some(entry);
    left.counts = counts;
    Ok(())
}

/// The entry at an index in a block. Fails with `OutOfMemory` only.
fn entry_at<A: Allocator>(
    block: &DataBlock<A>,
    index: usize,
) -> Result<InternalValue<A>, VerifyError>
    requires { index < length block.now }
    ensures ok { IfOk result (λ e. spec.slice_get block.now index ≡ Some e) }
    ensures err { IfErr result (λ e. e ≡ OutOfMemory) }
{
    match block.entry(index) {
        Ok(entry) => Ok(entry),
        Err(_) => Err(VerifyError::OutOfMemory),
    }
}

/// Reads the entries of the data block at an offset, in order.
pub(super) fn read_entries<A: Allocator + Clone>(
    source: &BlockSource<A>,
    inner: &Inner<A>,
    at: u64,
    left: &mut Unread<A>,
    block: &DataBlock<A>,
) -> Result<(), VerifyError>
    ensures { spec.Finds (λ (_ : _). left.new) result
        (spec.entries_found (spec.body_of source.now) (spec.parts_of inner.now) at left.old
        block.now) }
{
    for index in 0..block.len() {
        let entry = entry_at(block, index)?;
        read_entry(source, inner, at, left, entry)?;
    }
    Ok(())
}
