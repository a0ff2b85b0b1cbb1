//! A source that caches its last filter, index and entry block.
ghost use Rattle.std.specs.Prelude.{◌≡◌, List, ℕ, IfErr, IfOk, IfSome, Ok, true};
ghost use Rattle.lsm_files.specs.Words as spec;

use crate::{FileBlocks, FileError, ReadAt};
use sst_blocks::{Block, BlockHandle, BlockType, Error, LoadBlocks};
use std::alloc::{Allocator, Global};
use std::marker::Model;

/// A cached block and its handle.
#[derive(Drop)]
pub(crate) struct Kept<A: Allocator = Global> {
    handle: BlockHandle,
    block: Block<A>,
}

/// A source that caches the last filter, index and entry block that it read. It counts all
/// requests, including those answered from the cache.
#[derive(Drop)]
pub(crate) struct Keeping<'a, R: ReadAt, A: Allocator = Global> {
    source: FileBlocks<'a, R, A>,
    filter: Option<Kept<A>>,
    index: Option<Kept<A>>,
    entries: Option<Kept<A>>,
}

impl<'a, R: ReadAt, A: Allocator> Model for Keeping<'a, R, A> {
    ghost use Rattle.std.specs.Prelude.{List, ℕ, Bool};
    ghost use Rattle.sst_blocks.specs.declared.opened.Opened.{Opened};
    ghost use Rattle.sst_blocks.specs.Sections.{body_of};
    ghost use Rattle.lsm_files.specs.Reads.{AreKnown};
    ghost use Rattle.lsm_files.specs.Keeping.{KeepsBlockOf};

    ghost Value = { List ℕ × Opened × Bool };

    ghost view = { λ k. k.source };

    ghost invariant = { λ k. let body = body_of k.source.0 in AreKnown R.reads →
        KeepsBlockOf body k.filter × (KeepsBlockOf body k.index × KeepsBlockOf body k.entries) };
}

impl<'a, R: ReadAt, A: Allocator + Clone> Keeping<'a, R, A> {
    /// Returns a source with nothing cached.
    pub(crate) fn new(source: FileBlocks<'a, R, A>) -> Keeping<'a, R, A>
        ensures { result ≡ source.entry }
    {
        Keeping {
            source,
            filter: None,
            index: None,
            entries: None,
        }
    }

    /// Returns a result of calls on this source, as [`FileBlocks::result`].
    pub(crate) fn result<T: Drop>(self, found: Result<T, Error>) -> Result<T, FileError>
        ensures ok { IfOk found (λ x. result ≡ Ok x) }
        ensures err { IfErr found (λ e. spec.IsErrAnd result (spec.IsFailureOr R.reads e)) }
        ensures failed { self.entry.2 ≡ true → IfErr result spec.IsIo }
    {
        self.source.result(found)
    }
}

impl<R: ReadAt, A: Allocator + Clone> LoadBlocks for Keeping<'_, R, A> {
    ghost use Rattle.sst_blocks.specs.Sections.{body_of};
    ghost use Rattle.lsm_files.specs.Reads.{access_of};

    type Alloc = A;

    ghost access = { access_of R.reads };

    ghost body = { λ k. body_of k.0 };

    ghost opened = { λ k. k.1 };

    fn load(&mut self, handle: &BlockHandle, kind: BlockType) -> Result<Block<A>, Error> {
        match kind {
            BlockType::Filter => load_kept(&mut self.source, &mut self.filter, handle, kind),
            BlockType::Index => load_kept(&mut self.source, &mut self.index, handle, kind),
            BlockType::Data | BlockType::Meta => {
                load_kept(&mut self.source, &mut self.entries, handle, kind)
            }
        }
    }
}

/// The cached block, if it is the one of this kind at the handle.
fn kept_at<'k, A: Allocator>(
    kept: &'k Option<Kept<A>>,
    handle: &BlockHandle,
    kind: BlockType,
) -> Option<&'k Block<A>>
    ensures kind { IfSome result (λ b. b.now.kind ≡ kind) }
    ensures same { IfSome result (λ b. spec.IsCached handle.now b.now kept.now) }
    ensures loaded { (body : List ℕ) → spec.KeepsBlockOf body kept.now →
        IfSome result (λ b. spec.IsLoadOf body handle.now kind b.now) }
{
    match kept {
        Some(kept) if kept.handle == *handle && kept.block.kind() == kind => Some(&kept.block),
        _ => None,
    }
}

/// Returns the block of a kind at a handle from the cache, or loads and caches it. Fails as
/// [`LoadBlocks::load`] does.
fn load_kept<R: ReadAt, A: Allocator + Clone>(
    source: &mut FileBlocks<'_, R, A>,
    kept: &mut Option<Kept<A>>,
    handle: &BlockHandle,
    kind: BlockType,
) -> Result<Block<A>, Error>
    requires { spec.AreKnown R.reads → spec.KeepsBlockOf (spec.body_of source.old.0) kept.old }
    ensures returned { let body = spec.body_of source.old.0 in
        spec.AreKnown R.reads → spec.Gives (λ (b : spec.Loaded). b) result
        (spec.load_result body handle.now.offset handle.now.size kind) }
    ensures kind { IfOk result (λ b. b.kind ≡ kind) }
    // The block is cached.
    ensures same { IfOk result (λ b. spec.IsCached handle.now b kept.new) }
    ensures kept { spec.AreKnown R.reads → spec.KeepsBlockOf (spec.body_of source.old.0) kept.new }
    ensures body { spec.body_of source.new.0 ≡ spec.body_of source.old.0 }
    ensures opened { source.new.1 ≡ spec.with_load kind source.old.1 }
{
    if let Some(block) = kept_at(kept, handle, kind) {
        source.count(kind);
        return Ok(block.clone()?);
    }
    let block = source.load(handle, kind)?;
    let again = block.clone()?;
    *kept = Some(Kept {
        handle: *handle,
        block: again,
    });
    Ok(block)
}
