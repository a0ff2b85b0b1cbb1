//! The pinned part of a table's index, and all that depends on the kind of index.
ghost use Rattle.std.specs.Prelude.{◌≡◌, List, IfOk, IfErr};
ghost use Rattle.lsm_readers.specs.Words as spec;
ghost use Rattle.sst_entries.specs.declared.error.Error.TheVariants.{OutOfMemory};

use crate::ParsedRegions;
use lsm_iters::{BlockIndexImpl, FullBlockIndex, TwoLevelBlockIndex, VolatileBlockIndex, beside};
use sst_blocks::{
    BlockHandle, BlockSource, BlockType, Counted, Error, Header, IndexBlock, LoadBlocks, SeqNo,
};
use std::alloc::{Allocator, Global};

/// The pinned part of a table's index.
#[derive(Drop)]
pub enum PinnedBlockIndex<A: Allocator = Global> {
    /// The single block of a full index.
    Full(FullBlockIndex<A>),
    /// Nothing: each read loads the single block of a full index.
    VolatileFull,
    /// The top level of a partitioned index, with the handles of the partitions.
    TwoLevel(IndexBlock<A>),
}

/// Loads the index block at `handle`, and returns its handles.
///
/// # Errors
///
/// Fails as [`BlockSource::load`] does.
pub fn load_handles<A: Allocator + Clone>(
    source: &BlockSource<A>,
    handle: &BlockHandle,
) -> Result<IndexBlock<A>, Error>
    ensures returned { spec.Gives (λ (handles : List spec.Handle). handles) result
        (spec.handles_result (spec.body_of source.now) handle.now) }
    ensures early { let body = spec.body_of source.now in
        spec.FaultsFirst result
        (spec.place_fault body handle.now.offset handle.now.size spec.Index) }
{
    load_handles_in(&mut Counted::new(source), handle)
}

/// Loads the index block at a handle, and returns its handles. Fails as [`LoadBlocks::load`] does.
pub(crate) fn load_handles_in<S: LoadBlocks>(
    source: &mut S,
    handle: &BlockHandle,
) -> Result<IndexBlock<S::Alloc>, Error>
    ensures returned { let handles = spec.handles_result (S.body source.old) handle.now in
        spec.IsKnown S.access → spec.Gives (λ (handles : List spec.Handle). handles) result handles }
    ensures early { let body = S.body source.old in
        spec.IsInMemory S.access → spec.FaultsFirst result
        (spec.place_fault body handle.now.offset handle.now.size spec.Index) }
    ensures body { S.body source.new ≡ S.body source.old }
{
    let block = source.load(handle, BlockType::Index)?;
    Ok(IndexBlock::new(block))
}

/// Loads the part of an index that is pinned. Fails as [`LoadBlocks::load`] does.
pub(crate) fn load_index<S: LoadBlocks>(
    source: &mut S,
    regions: &ParsedRegions,
    pin_index: bool,
) -> Result<PinnedBlockIndex<S::Alloc>, Error>
    ensures returned { let index = spec.index_result (S.body source.old) regions.now pin_index in
        spec.IsKnown S.access → spec.Gives spec.pinned_index_of result index }
    ensures body { S.body source.new ≡ S.body source.old }
{
    if regions.index.is_some() {
        return Ok(PinnedBlockIndex::TwoLevel(load_handles_in(source, &regions.tli)?));
    }
    if !pin_index {
        return Ok(PinnedBlockIndex::VolatileFull);
    }
    let handles = load_handles_in(source, &regions.tli)?;
    Ok(PinnedBlockIndex::Full(FullBlockIndex::new(handles)))
}

/// The handle that the index block at `handle` has for a key at a stored seqno.
fn handle_at<S: LoadBlocks>(
    source: &mut S,
    handle: &BlockHandle,
    key: &[u8],
    seqno: SeqNo,
) -> Result<Option<BlockHandle>, Error>
    ensures read { let read = spec.handle_in_block (S.body source.old) key.now seqno handle.now in
        spec.ReadsFrom S.access result read (S.opened source.old) (S.opened source.new) }
    ensures body { S.body source.new ≡ S.body source.old }
{
    source.find(handle, key, seqno)
}

/// A full index whose block each iterator loads. Fails with [`Error::OutOfMemory`] only.
fn volatile_index<A: Allocator + Clone>(
    source: &BlockSource<A>,
    handle: BlockHandle,
) -> Result<BlockIndexImpl<A>, Error>
    ensures index { let read = spec.on_demand (spec.body_of source.now) handle in
        IfOk result (λ index. spec.index_read index ≡ read) }
    ensures kind { IfOk result (λ index. spec.index_kind_of index ≡ spec.on_each_read) }
    ensures err { IfErr result (λ e. e ≡ OutOfMemory) }
{
    let (alloc, source) = (source.allocator().clone()?, source.clone()?);
    let index = VolatileBlockIndex::new(alloc, source, handle);
    Ok(BlockIndexImpl::VolatileFull(index))
}

/// A partitioned index. Fails with [`Error::OutOfMemory`] only.
fn two_level_index<A: Allocator + Clone>(
    source: &BlockSource<A>,
    tops: &IndexBlock<A>,
) -> Result<BlockIndexImpl<A>, Error>
    ensures index { let read = spec.two_level (spec.body_of source.now) tops.now in
        IfOk result (λ index. spec.index_read index ≡ read) }
    ensures kind { IfOk result (λ index. spec.index_kind_of index ≡ spec.partitioned) }
    ensures err { IfErr result (λ e. e ≡ OutOfMemory) }
{
    let (alloc, source) = (source.allocator().clone()?, source.clone()?);
    let (source, tops) = beside(source, tops.clone())?;
    let index = TwoLevelBlockIndex::new(alloc, source, tops);
    Ok(BlockIndexImpl::TwoLevel(index))
}

impl<A: Allocator + Clone> PinnedBlockIndex<A> {
    /// Loads the part of an index that is pinned.
    ///
    /// A partitioned index pins its top level. A full index pins its block if `pin_index` is set,
    /// else nothing.
    ///
    /// # Errors
    ///
    /// Fails as [`BlockSource::load`] does.
    pub fn load(
        source: &BlockSource<A>,
        regions: &ParsedRegions,
        pin_index: bool,
    ) -> Result<PinnedBlockIndex<A>, Error>
        ensures { spec.Gives spec.pinned_index_of result
            (spec.index_result (spec.body_of source.now) regions.now pin_index) }
    {
        load_index(&mut Counted::new(source), regions, pin_index)
    }

    /// Returns the block index over a table's bytes.
    ///
    /// `tli` is the handle of the top level, or of the single block of a full index. The call loads
    /// nothing.
    ///
    /// # Errors
    ///
    /// [`Error::OutOfMemory`] only.
    pub fn over(
        &self,
        source: &BlockSource<A>,
        tli: &BlockHandle,
    ) -> Result<BlockIndexImpl<A>, Error>
        ensures index { let kept = spec.pinned_index_of self.now in
            let read = spec.index_over (spec.body_of source.now) kept tli.now in
            IfOk result (λ index. spec.index_read index ≡ read) }
        ensures kind { let kept = spec.pinned_index_of self.now in
            IfOk result (λ index. spec.index_kind_of index ≡ spec.kind_kept kept) }
        ensures err { IfErr result (λ e. e ≡ OutOfMemory) }
    {
        match self {
            PinnedBlockIndex::Full(index) => {
                let handles = index.inner().clone()?;
                Ok(BlockIndexImpl::Full(FullBlockIndex::new(handles)))
            }
            PinnedBlockIndex::VolatileFull => volatile_index(source, *tli),
            PinnedBlockIndex::TwoLevel(tops) => two_level_index(source, tops),
        }
    }
}

impl<A: Allocator> PinnedBlockIndex<A> {
    /// Returns the payload length of the pinned index block in bytes, or 0 if none is pinned.
    ///
    /// `tli` is the handle of that block.
    #[inline]
    pub fn payload_len(&self, tli: &BlockHandle) -> usize
        ensures { result ≡ spec.index_len (spec.pinned_index_of self.now) tli.now }
    {
        match self {
            PinnedBlockIndex::VolatileFull => 0,
            // The subtraction does not saturate: a loaded block is at least as long as its header.
            PinnedBlockIndex::Full(_) | PinnedBlockIndex::TwoLevel(_) => {
                (tli.size() as usize).saturating_sub(Header::serialized_len())
            }
        }
    }
}

/// The handle of the first data block that reaches a key at a stored seqno.
///
/// As a method of the index it would need a bound that ties its allocator to the source's.
#[inline]
pub(crate) fn handle_by<S: LoadBlocks>(
    source: &mut S,
    index: &PinnedBlockIndex<S::Alloc>,
    tli: &BlockHandle,
    key: &[u8],
    seqno: SeqNo,
) -> Result<Option<BlockHandle>, Error>
    ensures read { let read = spec.handle_by (S.body source.old) (spec.pinned_index_of index.now)
        tli.now key.now seqno in
        spec.ReadsFrom S.access result read (S.opened source.old) (S.opened source.new) }
    ensures body { S.body source.new ≡ S.body source.old }
{
    match index {
        PinnedBlockIndex::Full(index) => Ok(index.inner().find(key, seqno)),
        PinnedBlockIndex::VolatileFull => handle_at(source, tli, key, seqno),
        PinnedBlockIndex::TwoLevel(tops) => match tops.find(key, seqno) {
            Some(handle) => handle_at(source, &handle, key, seqno),
            None => Ok(None),
        },
    }
}
