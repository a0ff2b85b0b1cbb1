//! Reading an index block, and the data block of a handle.
ghost use Rattle.std.specs.Prelude.{◌≡◌, ◌<◌, List, IfErr, IfOk, Some, length, true};
ghost use Rattle.lsm_readers.specs.Words as spec;
ghost use Rattle.lsm_readers.specs.declared.verify.VerifyError.TheVariants.{OutOfMemory};
ghost use Rattle.sst_blocks.specs.declared.block_type.BlockType.TheVariants as block;
ghost use Rattle.sst_blocks.specs.declared.section.SectionName.TheVariants as section;

use super::entries::{read_entries, spend};
use super::{Counts, Fault, Unread, VerifyError, found, unloaded};
use crate::{Inner, load_handles};
use sst_blocks::{
    BlockHandle, BlockSource, BlockType, DataBlock, IndexBlock, InternalValue, ItemName,
    KeyedBlockHandle, Opened, SectionName, SeqNo,
};
use std::alloc::Allocator;

/// Checks that a data block's handle starts at the expected offset.
fn test_place(at: u64, offset: u64) -> Result<(), VerifyError>
    ensures returned { spec.Finds (λ (_ : _). tt) result (spec.place_found at offset) }
    ensures calm { IfErr result (λ e. spec.is_found e ≡ true) }
{
    if offset == at {
        Ok(())
    } else {
        Err(found(SectionName::Data, offset, Fault::Misplaced))
    }
}

/// Subtracts a data block from the counts.
#[tactic(auto, unfolding(crate::specs::Verify::block_spent))]
fn count_block(meta: u64, size: u32, counts: Counts) -> Result<Counts, VerifyError>
    ensures returned { spec.Finds (λ (c : spec.CountsLeft). c) result
        (spec.block_spent meta size counts) }
    ensures calm { IfErr result (λ e. spec.is_found e ≡ true) }
{
    let blocks = spend(meta, ItemName::BlockCountData, counts.blocks, 1)?;
    let size = spend(meta, ItemName::FileSize, counts.size, u64::from(size))?;
    Ok(Counts {
        blocks,
        size,
        ..counts
    })
}

/// Loads the data block of a handle, and checks that it has an entry.
pub(super) fn load_chunk<A: Allocator + Clone>(
    source: &BlockSource<A>,
    handle: &BlockHandle,
) -> Result<DataBlock<A>, VerifyError>
    ensures returned { spec.Finds (λ (c : List spec.Entry). c) result
        (spec.chunk_found (spec.body_of source.now) handle.now) }
    ensures early { let body = spec.body_of source.now in
        spec.FindsFirst result (spec.early_at body section.Data handle.now block.Data) }
{
    let at = handle.offset().0;
    // The next blocks are needed soon. Comparing their checksums with this one's costs little more.
    source.compare_ahead(at, 4);
    let mut opened = Opened::none();
    let block = match source.load(handle, BlockType::Data, &mut opened) {
        Ok(block) => DataBlock::new(block),
        Err(error) => return Err(unloaded(SectionName::Data, at, error)),
    };
    if block.is_empty() {
        return Err(found(SectionName::Data, at, Fault::Hollow));
    }
    Ok(block)
}

/// Loads the index block at a handle in a section.
pub(super) fn load_part<A: Allocator + Clone>(
    source: &BlockSource<A>,
    section: SectionName,
    place: &BlockHandle,
) -> Result<IndexBlock<A>, VerifyError>
    ensures returned { spec.Finds (λ (hs : List spec.Handle). hs) result
        (spec.handles_found (spec.body_of source.now) section place.now) }
    ensures early { let body = spec.body_of source.now in
        spec.FindsFirst result (spec.early_at body section place.now block.Index) }
{
    match load_handles(source, place) {
        Ok(handles) => Ok(handles),
        Err(error) => Err(unloaded(section, place.offset().0, error)),
    }
}

/// Checks the key and the seqno in the handle of a block in a section.
fn test_end<A: Allocator>(
    section: SectionName,
    handle: &KeyedBlockHandle<A>,
    key: &[u8],
    seqno: SeqNo,
) -> Result<(), VerifyError>
    ensures returned { spec.Finds (λ (_ : _). tt) result
        (spec.end_named section handle.now key.now seqno) }
    ensures calm { IfErr result (λ e. spec.is_found e ≡ true) }
{
    if handle.end_key().as_slice() != key {
        return Err(found(section, handle.offset().0, Fault::OtherKey));
    }
    if handle.seqno() == seqno {
        Ok(())
    } else {
        Err(found(section, handle.offset().0, Fault::OtherNumber))
    }
}

/// Checks that a handle has the key and the seqno of the last entry read.
fn test_last<A: Allocator>(
    handle: &KeyedBlockHandle<A>,
    last: &Option<InternalValue<A>>,
) -> Result<(), VerifyError>
    ensures returned { spec.Finds (λ (_ : _). tt) result
        (spec.last_named section.Data handle.now last.now) }
    ensures calm { IfErr result (λ e. spec.is_found e ≡ true) }
{
    match last {
        None => Err(found(SectionName::Data, handle.offset().0, Fault::Hollow)),
        Some(last) => test_end(
            SectionName::Data,
            handle,
            last.key.user_key.as_slice(),
            last.key.seqno,
        ),
    }
}

/// Counts a data block, and checks that it starts where the one before it ended.
#[tactic(auto, unfolding(crate::specs::Verify::counted_found))]
pub(super) fn count_at<A: Allocator>(
    inner: &Inner<A>,
    counts: Counts,
    place: &BlockHandle,
) -> Result<Counts, VerifyError>
    ensures returned { spec.Finds (λ (c : spec.CountsLeft). c) result
        (spec.counted_found (spec.parts_of inner.now) counts place.now) }
    ensures calm { IfErr result (λ e. spec.is_found e ≡ true) }
{
    let begins = inner.metadata.file_size.saturating_sub(counts.size);
    test_place(begins, place.offset().0)?;
    let meta = inner.regions.metadata.offset().0;
    count_block(meta, place.size(), counts)
}

/// Reads the entries of a data block, and checks the last of them against its handle.
#[tactic(auto, unfolding(crate::specs::Verify::contents_found))]
pub(super) fn read_contents<A: Allocator + Clone>(
    source: &BlockSource<A>,
    inner: &Inner<A>,
    left: &mut Unread<A>,
    handle: &KeyedBlockHandle<A>,
    block: &DataBlock<A>,
) -> Result<(), VerifyError>
    ensures { spec.Finds (λ (_ : _). left.new) result
        (spec.contents_found (spec.body_of source.now) (spec.parts_of inner.now) left.old handle.now
        block.now) }
{
    read_entries(source, inner, handle.offset().0, left, block)?;
    test_last(handle, &left.last)?;
    Ok(())
}

/// The handle at an index in a block. Fails with `OutOfMemory` only.
pub(super) fn handle_at<A: Allocator>(
    handles: &IndexBlock<A>,
    index: usize,
) -> Result<KeyedBlockHandle<A>, VerifyError>
    requires { index < length handles.now }
    ensures ok { IfOk result (λ h. spec.slice_get handles.now index ≡ Some h) }
    ensures err { IfErr result (λ e. e ≡ OutOfMemory) }
{
    match handles.handle(index) {
        Ok(handle) => Ok(handle),
        Err(_) => Err(VerifyError::OutOfMemory),
    }
}

/// Checks a handle of a top level against the last handle of its partition.
pub(super) fn test_top<A: Allocator>(
    top: &KeyedBlockHandle<A>,
    handles: &IndexBlock<A>,
) -> Result<(), VerifyError>
    ensures { spec.Finds (λ (_ : _). tt) result (spec.top_named top.now handles.now) }
{
    let count = handles.len();
    if count == 0 {
        return Err(found(SectionName::Index, top.offset().0, Fault::Hollow));
    }
    let last = handle_at(handles, count - 1)?;
    test_end(
        SectionName::Index,
        top,
        last.end_key().as_slice(),
        last.seqno(),
    )
}
