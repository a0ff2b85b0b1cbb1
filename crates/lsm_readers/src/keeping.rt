//! A block source that caches its last filter, index and entry block.
ghost use Rattle.std.specs.Prelude.{◌≡◌, List, ℕ, IfErr, IfOk, IfSome};
ghost use Rattle.lsm_readers.specs.Words as spec;
ghost use Rattle.sst_entries.specs.declared.error.Error.TheVariants.{OutOfMemory};

use crate::batch::Finder;
use crate::point::read_in;
use sst_blocks::{
    Block, BlockHandle, BlockSource, BlockType, DataBlock, Error, InternalValue, LoadBlocks,
    Opened, SeqNo,
};
use std::alloc::{Allocator, Global};
use std::marker::Model;

/// A cached block and its handle.
#[derive(Drop)]
pub(crate) struct Kept<A: Allocator = Global> {
    handle: BlockHandle,
    block: Block<A>,
}

/// A source that caches the last filter, index and entry block that it loaded. Data and meta blocks
/// are both entry blocks. `opened` counts all requests, including those answered from the cache.
#[derive(Drop)]
pub(crate) struct Keeping<'a, A: Allocator = Global> {
    source: &'a BlockSource<A>,
    opened: Opened,
    filter: Option<Kept<A>>,
    index: Option<Kept<A>>,
    entries: Option<Kept<A>>,
}

impl<'a, A: Allocator> Model for Keeping<'a, A> {
    ghost use Rattle.std.specs.Prelude.{List, ℕ};
    ghost use Rattle.sst_blocks.specs.declared.opened.Opened.{Opened};
    ghost use Rattle.sst_blocks.specs.Sections.{body_of};
    ghost use Rattle.lsm_readers.specs.point.Keeping.{KeepsOf};

    ghost Value = { List ℕ × Opened };

    ghost view = { λ k. (k.source.now, k.opened) };

    ghost invariant = { λ k. let body = body_of k.source.now in
        KeepsOf body k.filter × (KeepsOf body k.index × KeepsOf body k.entries) };
}

impl<'a, A: Allocator + Clone> Keeping<'a, A> {
    /// Returns a source with nothing cached.
    pub(crate) fn new(source: &'a BlockSource<A>) -> Keeping<'a, A>
        ensures source { result.0 ≡ source.now }
        ensures none { result.1 ≡ spec.none_opened }
    {
        Keeping {
            source,
            opened: Opened::none(),
            filter: None,
            index: None,
            entries: None,
        }
    }
}

impl<A: Allocator + Clone> LoadBlocks for Keeping<'_, A> {
    ghost use Rattle.sst_blocks.specs.Access.{in_memory};
    ghost use Rattle.sst_blocks.specs.Sections.{body_of};

    type Alloc = A;

    ghost access = { in_memory };

    ghost body = { λ k. body_of k.0 };

    ghost opened = { λ k. k.1 };

    #[tactic(auto, using(sst_blocks::proofs::LoadLemmas::kind_given))]
    fn load(&mut self, handle: &BlockHandle, kind: BlockType) -> Result<Block<A>, Error> {
        self.opened.count(kind);
        match kind {
            BlockType::Filter => load_kept(self.source, &mut self.filter, handle, kind),
            BlockType::Index => load_kept(self.source, &mut self.index, handle, kind),
            BlockType::Data | BlockType::Meta => {
                load_kept(self.source, &mut self.entries, handle, kind)
            }
        }
    }

    // A point read of a block that is not cached does not cache it.
    fn point_read(
        &mut self,
        handle: &BlockHandle,
        key: &[u8],
        seqno: SeqNo,
    ) -> Result<Option<InternalValue<A>>, Error> {
        match kept_at(&self.entries, handle, BlockType::Data) {
            Some(block) => {
                self.opened.count(BlockType::Data);
                read_kept(block, key, seqno)
            }
            None => self.source.point_read(handle, key, seqno, &mut self.opened),
        }
    }
}

/// Finds entries. A block that several keys need is loaded once.
impl<A: Allocator + Clone> Finder<A> for Keeping<'_, A> {
    ghost use Rattle.std.specs.Prelude.{◌≡◌};
    ghost use Rattle.sst_blocks.specs.Sections.{body_of};

    type Found = InternalValue<A>;

    ghost is_over = { λ k bytes. body_of k.0 ≡ body_of bytes };

    ghost entry = { λ _ e. e };

    ghost is_within = { λ _ _. Unit {0} };

    fn find_in(
        &mut self,
        _blocks: &BlockSource<A>,
        handle: &BlockHandle,
        global_seqno: SeqNo,
        key: &[u8],
        seqno: SeqNo,
    ) -> Result<Option<InternalValue<A>>, Error> {
        read_in(self, *handle, global_seqno, key, seqno)
    }

    // Errors are ignored: the first of the reads reports a fault of the block. If memory for the
    // entry offsets is missing, each read searches the block entry by entry.
    fn expect(&mut self, _blocks: &BlockSource<A>, handle: &BlockHandle) {
        drop(self.load(handle, BlockType::Data));
    }
}

/// The cached block, if it is the one of this kind at the handle.
fn kept_at<'k, A: Allocator>(
    kept: &'k Option<Kept<A>>,
    handle: &BlockHandle,
    kind: BlockType,
) -> Option<&'k Block<A>>
    ensures { (body : List ℕ) → spec.KeepsOf body kept.now →
        IfSome result (λ b. spec.IsLoaded body handle.now kind b.now) }
{
    match kept {
        Some(kept) if kept.handle == *handle && kept.block.kind() == kind => Some(&kept.block),
        _ => None,
    }
}

/// Returns the newest version of `key` visible at `seqno` in a cached block. Fails with
/// [`Error::OutOfMemory`] only.
fn read_kept<A: Allocator>(
    block: &Block<A>,
    key: &[u8],
    seqno: SeqNo,
) -> Result<Option<InternalValue<A>>, Error>
    requires { spec.HoldsEntries block.now.kind }
    ensures found { let found = spec.point (spec.entries_of block.now) key.now seqno in
        IfOk result (λ x. x ≡ found) }
    ensures err { IfErr result (λ e. e ≡ OutOfMemory) }
{
    let entries = DataBlock::new(block.clone()?);
    let found = entries.point_read(key, seqno);
    drop(entries);
    found
}

/// Returns the block of a kind at a handle from the cache, or loads and caches it. Fails as
/// [`BlockSource::load`] does.
fn load_kept<A: Allocator + Clone>(
    source: &BlockSource<A>,
    kept: &mut Option<Kept<A>>,
    handle: &BlockHandle,
    kind: BlockType,
) -> Result<Block<A>, Error>
    requires kept { spec.KeepsOf (spec.body_of source.now) kept.old }
    ensures returned { let body = spec.body_of source.now in
        spec.Gives (λ (b : spec.Loaded). b) result
        (spec.load_result body handle.now.offset handle.now.size kind) }
    ensures first { let body = spec.body_of source.now in
        spec.FaultsFirst result (spec.place_fault body handle.now.offset handle.now.size kind) }
    ensures kept { spec.KeepsOf (spec.body_of source.now) kept.new }
{
    if let Some(block) = kept_at(kept, handle, kind) {
        return Ok(block.clone()?);
    }
    let mut opened = Opened::none();
    let block = source.load(handle, kind, &mut opened)?;
    let again = block.clone()?;
    *kept = Some(Kept {
        handle: *handle,
        block: again,
    });
    Ok(block)
}
