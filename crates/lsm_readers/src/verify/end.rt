//! Checking a filter block, and the totals after all blocks are read.
ghost use Rattle.std.specs.Prelude.{◌≡◌, IfErr, IsOk, Some, true};
ghost use Rattle.lsm_readers.specs.Words as spec;
ghost use Rattle.sst_blocks.specs.declared.block_type.BlockType.TheVariants as block;
ghost use Rattle.sst_blocks.specs.declared.section.SectionName.TheVariants as section;

use super::{Counts, Fault, Unread, VerifyError, found, unloaded};
use crate::Inner;
use sst_blocks::{BlockHandle, BlockSource, BlockType, Error, ItemName, Opened, SectionName};
use std::alloc::Allocator;

/// Checks that a filter block loads.
pub(super) fn test_filter<A: Allocator + Clone>(
    source: &BlockSource<A>,
    place: &BlockHandle,
) -> Result<(), VerifyError>
    ensures returned { spec.Finds (λ (_ : _). tt) result
        (spec.filter_found (spec.body_of source.now) place.now) }
    ensures early { let body = spec.body_of source.now in
        spec.FindsFirst result (spec.early_at body section.Filter place.now block.Filter) }
{
    let mut opened = Opened::none();
    match source.load(place, BlockType::Filter, &mut opened) {
        Ok(block) => {
            drop(block);
            Ok(())
        }
        Err(error) => Err(unloaded(SectionName::Filter, place.offset().0, error)),
    }
}

/// Checks a number in the meta block at an offset against the one that was read.
fn test_same(meta: u64, item: ItemName, said: u64, read: u64) -> Result<(), VerifyError>
    ensures returned { spec.Finds (λ (_ : _). tt) result (spec.same_found meta item said read) }
    ensures calm { IfErr result (λ e. spec.is_found e ≡ true) }
{
    if said == read {
        Ok(())
    } else {
        Err(found(SectionName::Meta, meta, Fault::Unborne(item)))
    }
}

/// Checks that no count is left to read, and that the lowest and the highest seqno match.
#[tactic(auto, unfolding(crate::specs::Verify::counts_found))]
fn test_counts<A: Allocator>(inner: &Inner<A>, counts: &Counts) -> Result<(), VerifyError>
    ensures returned { spec.Finds (λ (_ : _). tt) result
        (spec.counts_found (spec.parts_of inner.now) counts.now) }
    ensures calm { IfErr result (λ e. spec.is_found e ≡ true) }
{
    let meta = inner.regions.metadata.offset().0;
    test_same(meta, ItemName::BlockCountData, counts.blocks, 0)?;
    test_same(meta, ItemName::FileSize, counts.size, 0)?;
    test_same(meta, ItemName::ItemCount, counts.items, 0)?;
    test_same(meta, ItemName::TombstoneCount, counts.tombstones, 0)?;
    test_same(meta, ItemName::WeakTombstoneCount, counts.weak, 0)?;
    test_same(
        meta,
        ItemName::WeakTombstoneReclaimable,
        counts.reclaimable,
        0,
    )?;
    let (lowest, highest) = inner.metadata.seqnos;
    test_same(meta, ItemName::SeqnoMin, lowest, counts.lowest)?;
    test_same(meta, ItemName::SeqnoMax, highest, counts.highest)
}

/// Checks that there is no data block at offset 0.
fn test_unnamed<A: Allocator + Clone>(source: &BlockSource<A>) -> Result<(), VerifyError>
    ensures returned { spec.Finds (λ (_ : _). tt) result
        (spec.unnamed_found (spec.body_of source.now)) }
    // A load that fails before any allocation does not fail with `OutOfMemory`.
    ensures calm { (e : spec.Error) →
        spec.position_fault (spec.body_of source.now) 0 block.Data ≡ Some e → IsOk result }
{
    let mut opened = Opened::none();
    match source.load_at(0, BlockType::Data, &mut opened) {
        Ok(block) => {
            drop(block);
            Err(found(SectionName::Data, 0, Fault::Unnamed))
        }
        Err(Error::OutOfMemory) => Err(VerifyError::OutOfMemory),
        Err(_) => Ok(()),
    }
}

/// Checks a key in the meta block at an offset against the one that was read.
fn test_range_key(meta: u64, item: ItemName, said: &[u8], read: &[u8]) -> Result<(), VerifyError>
    ensures returned { spec.Finds (λ (_ : _). tt) result
        (spec.key_same meta item said.now read.now) }
    ensures calm { IfErr result (λ e. spec.is_found e ≡ true) }
{
    if said == read {
        Ok(())
    } else {
        Err(found(SectionName::Meta, meta, Fault::Unborne(item)))
    }
}

/// Checks the totals of a table after its entries were read.
#[tactic(auto, unfolding(crate::specs::Verify::end_found))]
pub(super) fn test_left<A: Allocator + Clone>(
    source: &BlockSource<A>,
    inner: &Inner<A>,
    left: &Unread<A>,
) -> Result<(), VerifyError>
    ensures returned { spec.Finds (λ (_ : _). tt) result
        (spec.end_found (spec.body_of source.now) (spec.parts_of inner.now) left.now) }
    // A fault that is found before any allocation takes precedence over `OutOfMemory`.
    ensures early { spec.FindsFirst result (spec.end_early (spec.parts_of inner.now) left.now) }
    ensures calm { spec.EndsCalmly (spec.body_of source.now) left.now.last →
        IfErr result (λ e. spec.is_found e ≡ true) }
{
    let meta = inner.regions.metadata.offset().0;
    let range = &inner.metadata.key_range;
    test_counts(inner, &left.counts)?;
    match &left.last {
        Some(last) => test_range_key(
            meta,
            ItemName::KeyMax,
            range.max().as_slice(),
            last.key.user_key.as_slice(),
        ),
        None => {
            test_range_key(meta, ItemName::KeyMin, range.min().as_slice(), &[])?;
            test_range_key(meta, ItemName::KeyMax, range.max().as_slice(), &[])?;
            test_unnamed(source)
        }
    }
}
