//! Sources of blocks, and queries of one block.
ghost use Rattle.std.specs.Prelude.{◌≡◌};
ghost use Rattle.sst_blocks.specs.Words as spec;

use crate::source::BlockSource;
use crate::{
    Block, BlockHandle, BlockType, DataBlock, Error, FilterBlock, IndexBlock, InternalValue,
    Opened, SeqNo,
};
use std::alloc::{Allocator, Global};
use std::marker::Model;

/// A source from which blocks are loaded, one handle at a time.
///
/// Only [`LoadBlocks::load`] is required; the other calls load the block and query it. [`Counted`]
/// overrides them with calls that need no memory for the offsets of items.
///
/// A source says how it has its bytes. If they are not in memory, a load that cannot read them
/// fails with [`Error::OutOfMemory`], and the source keeps the reason.
pub trait LoadBlocks {
    ghost use Rattle.std.specs.Prelude.{◌≡◌, ◌<◌, Bool, List, ℕ, Option, IfOk, IfSome};
    ghost use Rattle.sst_blocks.specs.Access.{Access, IsInMemory, IsKnown};
    ghost use Rattle.sst_blocks.specs.Asked.{find_result, maybe_result, point_result};
    ghost use Rattle.sst_blocks.specs.Block.{load_result, place_fault, Loaded};
    ghost use Rattle.sst_blocks.specs.declared.block_type.BlockType.TheVariants.{Data, Filter};
    ghost use Rattle.sst_blocks.specs.declared.block_type.BlockType.TheVariants.{Index};
    ghost use Rattle.sst_blocks.specs.Place.{Place};
    ghost use Rattle.sst_entries.specs.Entry.{Entry};
    ghost use Rattle.sst_entries.specs.Error.{Gives, FaultsFirst};
    ghost use Rattle.sst_blocks.specs.Opened.{with_load};
    ghost use Rattle.sst_blocks.specs.declared.opened.Opened.{Opened};

    /// The allocator of the blocks.
    type Alloc: Allocator;

    /// How it has the bytes.
    ghost access: { Access };

    /// The bytes before the trailer, where they are known.
    ghost body: { Self → List ℕ };

    /// The number of loads of each kind.
    ghost opened: { Self → Opened };

    /// Loads the block of a kind that a handle describes.
    ///
    /// Each call counts as one load.
    ///
    /// # Errors
    ///
    /// Fails as [`BlockSource::load`] on the same bytes. If they are not in memory,
    /// [`Error::OutOfMemory`] can hide any error.
    fn load(&mut self, handle: &BlockHandle, kind: BlockType) -> Result<Block<Self::Alloc>, Error>
        ensures returned { let bytes = body self.old in
            IsKnown access → Gives (λ (b : Loaded). b) result
            (load_result bytes handle.now.offset handle.now.size kind) }
        ensures first { let bytes = body self.old in
            IsInMemory access →
            FaultsFirst result (place_fault bytes handle.now.offset handle.now.size kind) }
        ensures kind { IfOk result (λ b. b.kind ≡ kind) }
        ensures body { body self.new ≡ body self.old }
        ensures counted { opened self.new ≡ with_load kind (opened self.old) };

    /// Returns the first entry of a key with a sequence number below `seqno`, in the data block of
    /// a handle.
    ///
    /// Each call counts as one load.
    ///
    /// # Errors
    ///
    /// Fails as [`BlockSource::point_read`]. [`Error::OutOfMemory`] hides only the errors that it
    /// can hide in [`LoadBlocks::load`].
    fn point_read(
        &mut self,
        handle: &BlockHandle,
        key: &[u8],
        seqno: SeqNo,
    ) -> Result<Option<InternalValue<Self::Alloc>>, Error>
        ensures returned { let bytes = body self.old in
            IsKnown access → Gives (λ (found : Option Entry). found) result
            (point_result bytes handle.now.offset handle.now.size key.now seqno) }
        ensures first { let bytes = body self.old in
            IsInMemory access →
            FaultsFirst result (place_fault bytes handle.now.offset handle.now.size Data) }
        ensures visible { IfOk result (λ found. IfSome found (λ e. e.seqno < seqno)) }
        ensures body { body self.new ≡ body self.old }
        ensures counted { opened self.new ≡ with_load Data (opened self.old) }
    {
        let block = self.load(handle, BlockType::Data)?;
        let entries = DataBlock::new(block);
        let found = entries.point_read(key, seqno);
        drop(entries);
        found
    }

    /// Finds the first handle that reaches a key at `seqno`, in the index block of a handle.
    ///
    /// It reaches as defined for [`BlockSource::find`]. Each call counts as one load.
    ///
    /// # Errors
    ///
    /// Fails as [`BlockSource::find`], or with [`Error::OutOfMemory`]. The latter hides only the
    /// errors that it can hide in [`LoadBlocks::load`].
    fn find(
        &mut self,
        handle: &BlockHandle,
        key: &[u8],
        seqno: SeqNo,
    ) -> Result<Option<BlockHandle>, Error>
        ensures returned { let bytes = body self.old in
            IsKnown access → Gives (λ (found : Option Place). found) result
            (find_result bytes handle.now.offset handle.now.size key.now seqno) }
        ensures first { let bytes = body self.old in
            IsInMemory access →
            FaultsFirst result (place_fault bytes handle.now.offset handle.now.size Index) }
        ensures body { body self.new ≡ body self.old }
        ensures counted { opened self.new ≡ with_load Index (opened self.old) }
    {
        let block = self.load(handle, BlockType::Index)?;
        let handles = IndexBlock::new(block);
        let found = handles.find(key, seqno);
        drop(handles);
        Ok(found)
    }

    /// Returns whether the filter in the filter block of a handle may contain a hash.
    ///
    /// Each call counts as one load.
    ///
    /// # Errors
    ///
    /// Fails as [`BlockSource::maybe_contains_hash`], or with [`Error::OutOfMemory`]. The latter
    /// hides only the errors that it can hide in [`LoadBlocks::load`].
    fn maybe_contains_hash(&mut self, handle: &BlockHandle, hash: u64) -> Result<bool, Error>
        ensures returned { let bytes = body self.old in
            IsKnown access → Gives (λ (maybe : Bool). maybe) result
            (maybe_result bytes handle.now.offset handle.now.size hash) }
        ensures first { let bytes = body self.old in
            IsInMemory access →
            FaultsFirst result (place_fault bytes handle.now.offset handle.now.size Filter) }
        ensures body { body self.new ≡ body self.old }
        ensures counted { opened self.new ≡ with_load Filter (opened self.old) }
    {
        let block = self.load(handle, BlockType::Filter)?;
        let filter = FilterBlock::new(block);
        let maybe = filter.maybe_contains_hash(hash);
        drop(filter);
        Ok(maybe)
    }
}

/// A [`BlockSource`] that counts its loads.
#[derive(Drop)]
pub struct Counted<'a, A: Allocator = Global> {
    source: &'a BlockSource<A>,
    opened: Opened,
}

impl<'a, A: Allocator> Model for Counted<'a, A> {
    ghost use Rattle.std.specs.Prelude.{List, ℕ};
    ghost use Rattle.sst_blocks.specs.declared.opened.Opened.{Opened};

    ghost Value = { List ℕ × Opened };

    ghost view = { λ c. (c.source.now, c.opened) };
}

impl<'a, A: Allocator + Clone> Counted<'a, A> {
    /// Creates a source with zero counts.
    pub fn new(source: &'a BlockSource<A>) -> Counted<'a, A>
        ensures source { result.0 ≡ source.now }
        ensures none { result.1 ≡ spec.none_opened }
    {
        Counted {
            source,
            opened: Opened::none(),
        }
    }

    /// Returns the number of loads of each kind.
    pub fn opened(&self) -> Opened
        ensures { result ≡ self.now.1 }
    {
        self.opened
    }
}

impl<A: Allocator + Clone> LoadBlocks for Counted<'_, A> {
    ghost use Rattle.sst_blocks.specs.Access.{in_memory};
    ghost use Rattle.sst_blocks.specs.Sections.{body_of};

    type Alloc = A;

    ghost access = { in_memory };

    ghost body = { λ c. body_of c.0 };

    ghost opened = { λ c. c.1 };

    fn load(&mut self, handle: &BlockHandle, kind: BlockType) -> Result<Block<A>, Error> {
        self.source.load(handle, kind, &mut self.opened)
    }

    fn point_read(
        &mut self,
        handle: &BlockHandle,
        key: &[u8],
        seqno: SeqNo,
    ) -> Result<Option<InternalValue<A>>, Error> {
        self.source.point_read(handle, key, seqno, &mut self.opened)
    }

    fn find(
        &mut self,
        handle: &BlockHandle,
        key: &[u8],
        seqno: SeqNo,
    ) -> Result<Option<BlockHandle>, Error> {
        self.source.find(handle, key, seqno, &mut self.opened)
    }

    fn maybe_contains_hash(&mut self, handle: &BlockHandle, hash: u64) -> Result<bool, Error> {
        self.source
            .maybe_contains_hash(handle, hash, &mut self.opened)
    }
}
