//! The handles left of an index block.
ghost use Rattle.std.specs.Prelude.{◌≡◌, ◌∷◌, [], Err, false, IfOk, IfErr};
ghost use Rattle.lsm_iters.specs.Words as spec;

use crate::block_index::edges::Edges;
use crate::block_index::iter::OwnedIndexBlockIter;
use sst_blocks::{
    BlockHandle, BlockSource, BlockType, Error, IndexBlock, KeyedBlockHandle, Opened,
};
use sst_entries::Direction;
use std::alloc::Allocator;
use std::marker::Model;

/// The handles left of an index block; none if no block is loaded. Contracts see the handles.
#[derive(Drop)]
pub struct Part<A: Allocator> {
    iter: Option<OwnedIndexBlockIter<A>>,
}

impl<A: Allocator> Model for Part<A> {
    ghost use Rattle.std.specs.Prelude.{List};
    ghost use Rattle.sst_blocks.specs.Handle.{Handle};
    ghost use Rattle.lsm_iters.specs.block_index.Seen.{rest_of};

    ghost Value = { List Handle };

    ghost view = { λ p. rest_of p.iter };
}

impl<A: Allocator> Part<A> {
    /// Returns a part without handles.
    pub fn none() -> Part<A>
        ensures { result ≡ [] }
    {
        Part { iter: None }
    }

    /// Returns a part with the handles that an iterator still yields.
    pub fn of(iter: OwnedIndexBlockIter<A>) -> Part<A>
        ensures { result ≡ spec.rest_in iter }
    {
        Part { iter: Some(iter) }
    }

    /// Takes the first handle.
    ///
    /// After an error nothing is left.
    pub fn next(&mut self) -> Option<Result<KeyedBlockHandle<A>, Error>>
        ensures { spec.PartGives spec.front_of self.old result self.new }
    {
        match &mut self.iter {
            Some(iter) => iter.next(),
            None => None,
        }
    }

    /// Takes the last handle.
    ///
    /// After an error nothing is left.
    pub fn next_back(&mut self) -> Option<Result<KeyedBlockHandle<A>, Error>>
        ensures { spec.PartGives spec.back_of self.old result self.new }
    {
        match &mut self.iter {
            Some(iter) => iter.next_back(),
            None => None,
        }
    }

    /// Takes the handle at an end and returns its block's offset and size.
    ///
    /// It does not allocate, so it returns no error.
    pub fn take_place(&mut self, at: Direction) -> Option<Result<BlockHandle, Error>>
        ensures { spec.TakesPlace (spec.PartGives (spec.taken_at at)) self.old result self.new }
    {
        match &mut self.iter {
            Some(iter) => iter.step_place(at),
            None => None,
        }
    }
}

/// Loads an index block and returns its handles between the edges.
///
/// Each call counts as a load, also if it fails.
///
/// # Errors
///
/// Those of [`BlockSource::load`].
pub fn load_handles<A: Allocator + Clone>(
    source: &BlockSource<A>,
    handle: &BlockHandle,
    edges: &Edges<A>,
    opened: &mut Opened,
) -> Result<OwnedIndexBlockIter<A>, Error>
    ensures ok { let returned = spec.block_between (spec.body_of source.now) edges.now.0
        edges.now.1 in IfOk result (λ hs. spec.ok_results (spec.rest_in hs) ≡ returned handle.now) }
    ensures err { let returned = spec.block_between (spec.body_of source.now) edges.now.0
        edges.now.1 in
        IfErr result (λ e. spec.is_memory e ≡ false → Err e ∷ [] ≡ returned handle.now) }
    // An error that is found before allocating is returned rather than `OutOfMemory`.
    ensures first { spec.FaultsFirst result
        (spec.block_early (spec.body_of source.now) handle.now) }
    ensures counted { opened.new ≡ spec.with_index_loads 1 opened.old }
{
    let block = source.load(handle, BlockType::Index, opened)?;
    Ok(edges.within(IndexBlock::new(block)))
}

/// Loads an index block and returns its handles between the edges as a [`Part`].
///
/// Each call counts as a load, also if it fails.
///
/// # Errors
///
/// Those of [`BlockSource::load`].
pub fn load_part<A: Allocator + Clone>(
    source: &BlockSource<A>,
    handle: &BlockHandle,
    edges: &Edges<A>,
    opened: &mut Opened,
) -> Result<Part<A>, Error>
    ensures ok { let returned = spec.block_between (spec.body_of source.now) edges.now.0
        edges.now.1 in IfOk result (λ hs. spec.ok_results hs ≡ returned handle.now) }
    ensures err { let returned = spec.block_between (spec.body_of source.now) edges.now.0
        edges.now.1 in
        IfErr result (λ e. spec.is_memory e ≡ false → Err e ∷ [] ≡ returned handle.now) }
    ensures first { spec.FaultsFirst result
        (spec.block_early (spec.body_of source.now) handle.now) }
    ensures counted { opened.new ≡ spec.with_index_loads 1 opened.old }
{
    match load_handles(source, handle, edges, opened) {
        Ok(iter) => Ok(Part::of(iter)),
        Err(error) => Err(error),
    }
}
