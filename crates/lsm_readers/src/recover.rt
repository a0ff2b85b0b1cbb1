//! Reading the state of a table from any source of its blocks.
ghost use Rattle.std.specs.Prelude.{◌≡◌, IfErr, IfOk, List, Option};
ghost use Rattle.lsm_readers.specs.Words as spec;

use crate::meta::load_meta;
use crate::pinned::{load_handles_in, load_index};
use crate::{Inner, ParsedMeta, ParsedRegions, PinnedBlocks};
use lsm_iters::beside;
use sst_blocks::{
    BlockHandle, BlockType, Checksum, Error, FilterBlock, IndexBlock, LoadBlocks, SeqNo, Toc,
    TreeId,
};
use std::alloc::Allocator;

/// Loads the top level of a filter, if it has one. Fails as [`LoadBlocks::load`] does.
fn load_filter_index<S: LoadBlocks>(
    source: &mut S,
    handle: Option<BlockHandle>,
) -> Result<Option<IndexBlock<S::Alloc>>, Error>
    ensures returned { let tops = spec.tops_result (S.body source.old) handle in
        spec.IsKnown S.access → spec.Gives (λ (tops : Option (List spec.Handle)). tops) result tops }
    ensures body { S.body source.new ≡ S.body source.old }
{
    match handle {
        None => Ok(None),
        Some(handle) => Ok(Some(load_handles_in(source, &handle)?)),
    }
}

/// Loads the filter block at a handle, if there is one. Fails as [`LoadBlocks::load`] does.
fn load_filter<S: LoadBlocks>(
    source: &mut S,
    handle: Option<BlockHandle>,
) -> Result<Option<FilterBlock<S::Alloc>>, Error>
    ensures returned { let filter = spec.filter_result (S.body source.old) handle in
        spec.IsKnown S.access →
        spec.Gives (λ (filter : Option spec.BloomFilter). filter) result filter }
    ensures body { S.body source.new ≡ S.body source.old }
{
    let Some(handle) = handle else {
        return Ok(None);
    };
    let block = source.load(&handle, BlockType::Filter)?;
    Ok(Some(FilterBlock::new(block)))
}

/// The handle of the filter block to pin: that of a full filter, if `pin_filter` is set.
pub(crate) fn filter_to_pin(regions: &ParsedRegions, pin_filter: bool) -> Option<BlockHandle>
    ensures { result ≡ spec.pinned_filter regions.now pin_filter }
{
    if pin_filter && regions.filter_tli.is_none() {
        regions.filter
    } else {
        None
    }
}

/// Loads the blocks to pin. Fails with the first fault of the index, the filter's top level and the
/// full filter's block, in this order.
fn load_pinned<S: LoadBlocks>(
    source: &mut S,
    regions: &ParsedRegions,
    pin_filter: bool,
    pin_index: bool,
) -> Result<PinnedBlocks<S::Alloc>, Error>
    ensures returned { let pinned = spec.pinned_result (S.body source.old) regions.now pin_filter
        pin_index in spec.IsKnown S.access → spec.Gives spec.pinned_of result pinned }
    ensures body { S.body source.new ≡ S.body source.old }
{
    let index = load_index(source, regions, pin_index)?;
    let (index, filter_index) = beside(index, load_filter_index(source, regions.filter_tli))?;
    let pinned = filter_to_pin(regions, pin_filter);
    let (tops, filter_block) = beside((index, filter_index), load_filter(source, pinned))?;
    let (index, filter_index) = tops;
    Ok(PinnedBlocks {
        index,
        filter_index,
        filter_block,
    })
}

/// Fails with [`Error::GlobalSeqNoTooLarge`] if the highest seqno plus the global seqno exceeds
/// `u64::MAX`.
fn test_number<A: Allocator>(metadata: &ParsedMeta<A>, global_seqno: SeqNo) -> Result<(), Error>
    ensures returned { let facts = spec.facts_of metadata.now in
        spec.Gives (λ (_ : _). facts) result (spec.facts_fitting facts global_seqno) }
    ensures alone { IfErr result (λ e. e ≡ spec.GlobalSeqNoTooLarge) }
{
    match metadata.seqnos.1.checked_add(global_seqno) {
        Some(_) => Ok(()),
        None => Err(Error::GlobalSeqNoTooLarge),
    }
}

/// Loads and parses the meta block. Fails as [`ParsedMeta::load_with_handle`] does, then if the
/// global seqno does not fit.
fn fitting_metadata<S: LoadBlocks>(
    source: &mut S,
    handle: &BlockHandle,
    global_seqno: SeqNo,
) -> Result<ParsedMeta<S::Alloc>, Error>
    ensures returned { let facts = spec.fitting_result (S.body source.old) handle.now global_seqno
        in spec.IsKnown S.access → spec.Gives spec.facts_of result facts }
    ensures early { let body = S.body source.old in
        spec.IsInMemory S.access → spec.FaultsFirst result
        (spec.place_fault body handle.now.offset handle.now.size spec.Meta) }
    ensures body { S.body source.new ≡ S.body source.old }
{
    let metadata = load_meta(source, handle)?;
    let fits = test_number(&metadata, global_seqno);
    fits.and(Ok(metadata))
}

/// Reads the state of a table from a source of its blocks.
///
/// `toc` is the table's table of contents. The other arguments are those of [`Table::recover`]. The
/// call loads the meta block and the blocks to pin: at most one index block and one filter block or
/// its top level.
///
/// # Errors
///
/// Those of [`Table::recover`] after the trailer, in the same order, or [`Error::OutOfMemory`].
///
/// [`Table::recover`]: crate::Table::recover
pub fn recover_in<S: LoadBlocks>(
    source: &mut S,
    toc: &Toc,
    checksum: Checksum,
    global_seqno: SeqNo,
    tree_id: TreeId,
    pin_filter: bool,
    pin_index: bool,
) -> Result<Inner<S::Alloc>, Error>
    // For the bytes whose trailer has these sections, it returns their parts.
    ensures returned { spec.IsKnown S.access → spec.OnBytes toc.now (S.body source.old) (λ bytes.
        spec.Gives spec.parts_of result
        (spec.parts_result bytes global_seqno pin_filter pin_index)) }
    ensures early { spec.IsInMemory S.access → spec.OnBytes toc.now (S.body source.old) (λ bytes.
        spec.FaultsFirst result
        (spec.early_in (spec.body_of bytes) (spec.places_result bytes))) }
    ensures number { IfOk result (λ inner. inner.global_seqno ≡ global_seqno) }
    ensures tree { IfOk result (λ inner. inner.tree_id ≡ tree_id) }
    ensures checksum { IfOk result (λ inner. inner.checksum ≡ checksum) }
{
    let regions = ParsedRegions::parse_from_toc(toc)?;
    let metadata = fitting_metadata(source, &regions.metadata, global_seqno)?;
    let pinned = load_pinned(source, &regions, pin_filter, pin_index);
    let (metadata, pinned) = beside(metadata, pinned)?;
    Ok(Inner {
        tree_id,
        global_seqno,
        checksum,
        metadata,
        regions,
        pinned_block_index: pinned.index,
        pinned_filter_index: pinned.filter_index,
        pinned_filter_block: pinned.filter_block,
    })
}
