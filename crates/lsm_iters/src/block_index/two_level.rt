//! The two-level index: a pinned top level over partitions that each iterator loads one by one.
ghost use Rattle.std.specs.Prelude.{◌≡◌, ◌↔◌, [], IsTrue, Some, None, IfOk, IfErr};
ghost use Rattle.std.specs.Prelude.{ℕ, List, Option};
ghost use Rattle.lsm_iters.specs.Words as spec;

use crate::block_index::edges::Edges;
use crate::block_index::iter::OwnedIndexBlockIter;
use crate::block_index::kinds::BlockIndexIter;
use crate::block_index::partitions::Partitions;
use crate::{Ends, Walk};
use sst_blocks::{
    BlockHandle, BlockSource, Error, IndexBlock, KeyedBlockHandle, Opened, SeqNo, UserKey,
};
use sst_entries::Direction;
use std::alloc::{Allocator, Global};
use std::marker::Model;

/// A two-level index: a pinned top level over partitions.
///
/// The handles of the top level name partitions, which hold the handles of the data blocks.
/// Contracts see the bytes before the trailer and the handles of the top level.
#[derive(Drop)]
pub struct TwoLevelBlockIndex<A: Allocator = Global> {
    alloc: A,
    source: BlockSource<A>,
    top_level_index: IndexBlock<A>,
}

impl<A: Allocator> Model for TwoLevelBlockIndex<A> {
    ghost use Rattle.std.specs.Prelude.{List, ℕ};
    ghost use Rattle.sst_blocks.specs.Handle.{Handle};
    ghost use Rattle.sst_blocks.specs.Sections.{body_of};

    ghost Value = { List ℕ × List Handle };

    ghost view = { λ index. (body_of index.source, index.top_level_index) };
}

impl<A: Allocator + Clone> TwoLevelBlockIndex<A> {
    /// Returns the index of a top level that was loaded from a source.
    pub fn new(
        alloc: A,
        source: BlockSource<A>,
        top_level_index: IndexBlock<A>,
    ) -> TwoLevelBlockIndex<A>
        ensures { result ≡ (spec.body_of source, top_level_index) }
    {
        TwoLevelBlockIndex {
            alloc,
            source,
            top_level_index,
        }
    }

    /// Returns an iterator from the first handle whose end key reaches a key and a sequence number.
    ///
    /// An end key reaches them if it is greater than `key`, or equal with a sequence number below
    /// `seqno`. It always returns an iterator, even if there is no such handle. Nothing is loaded.
    ///
    /// # Errors
    ///
    /// [`Error::OutOfMemory`] only.
    pub fn forward_reader(&self, key: &[u8], seqno: SeqNo) -> Result<Iter<A>, Error>
        ensures sought { IfOk result (λ i. spec.IsTwoLevelSought i (Some (key.now, seqno)) None) }
        ensures between { let edge = Some (key.now, seqno) in
            IfOk result (λ i. spec.IsBetween (spec.two_level_left i) edge None) }
        ensures index { let index = spec.two_level self.now.0 self.now.1 in
            IfOk result (λ i. (spec.two_level_left i).index ≡ index) }
        ensures opened { IfOk result (λ i. i.opened ≡ spec.none_opened) }
        ensures yields { IfOk result (λ i. spec.YieldsFreely ⟦<Iter<A> as Iterator>⟧.next_gives
            ⟦<Iter<A> as DoubleEndedIterator>⟧.next_back_gives i (spec.two_level_left i).results) }
        ensures err { IfErr result (λ e. e ≡ spec.OutOfMemory) }
    {
        let mut iter = self.iter()?;
        let sought = iter.seek_lower(key, seqno);
        sought.and(Ok(iter))
    }

    /// Returns an iterator over all handles.
    ///
    /// Nothing is loaded.
    ///
    /// # Errors
    ///
    /// [`Error::OutOfMemory`] only.
    pub fn iter(&self) -> Result<Iter<A>, Error>
        ensures unsought { IfOk result (λ i. i ≡ spec.new_two_level self.now.0 self.now.1) }
        ensures between { IfOk result (λ i. spec.IsBetween (spec.two_level_left i) None None) }
        ensures yields { IfOk result (λ i. spec.YieldsFreely ⟦<Iter<A> as Iterator>⟧.next_gives
            ⟦<Iter<A> as DoubleEndedIterator>⟧.next_back_gives i (spec.two_level_left i).results) }
        ensures err { IfErr result (λ e. e ≡ spec.OutOfMemory) }
    {
        let alloc = self.alloc.clone()?;
        let tops = self.top_level_index.clone()?;
        let source = self.source.clone()?;
        let parts = Partitions {
            source,
            tops: OwnedIndexBlockIter::new(tops),
            edges: Edges::new(alloc),
            opened: Opened::none(),
        };
        Ok(Iter {
            walk: Walk::new(parts),
        })
    }
}

// Returns whether no handle is left of a partition; true if none is loaded.
fn is_over<A: Allocator>(part: &Option<OwnedIndexBlockIter<A>>) -> bool
    ensures { IsTrue result ↔ (spec.rest_of part.now ≡ []) }
{
    match part {
        Some(part) => part.is_empty(),
        None => true,
    }
}

/// A double-ended iterator over the handles of a two-level index.
///
/// It loads a partition when a step first needs it, and counts each load. No step loads more than
/// it needs. If a partition cannot be loaded, it yields the error instead of its handles. An error
/// that is found without allocating takes precedence over [`Error::OutOfMemory`] of the same
/// partition. After an error of a step or a seek, `OutOfMemory` included, it is exhausted at both
/// ends.
#[derive(Drop)]
pub struct Iter<A: Allocator = Global> {
    walk: Walk<Partitions<A>, OwnedIndexBlockIter<A>>,
}

impl<A: Allocator> Model for Iter<A> {
    ghost use Rattle.lsm_iters.specs.block_index.Left.{TwoLevel};
    ghost use Rattle.lsm_iters.specs.block_index.Partitions.{two_level_of};

    ghost Value = { TwoLevel };

    ghost view = { λ i. two_level_of i.walk };
}

impl<A: Allocator + Clone> Iter<A> {
    /// Returns whether no edge was sought and no step was made.
    pub(crate) fn is_unsought(&self) -> bool
        ensures { IsTrue result ↔ spec.IsTwoLevelSought self.now None None }
    {
        let parts = &self.walk.parts;
        let whole = parts.tops.is_whole() && parts.edges.are_none();
        whole && is_over(&self.walk.front) && is_over(&self.walk.back)
    }

    /// Seeks a lower edge and stores it. It does not allocate.
    pub(crate) fn keep_lower(&mut self, key: UserKey<A>, seqno: SeqNo)
        ensures sought { (upper : Option (List ℕ)) → spec.IsTwoLevelSought self.old None upper →
            spec.IsTwoLevelSought self.new (Some (key, seqno)) upper }
        ensures over { spec.IsEnded (spec.two_level_left self.old) →
            spec.IsEnded (spec.two_level_left self.new) }
        ensures none { spec.LoadsNone (spec.two_level_left self.old)
            (spec.two_level_left self.new) }
    {
        self.walk.parts.tops.seek_lower(key.as_slice(), seqno);
        self.walk.parts.edges.set_lower(key, seqno);
    }

    /// Seeks an upper edge and stores it. It does not allocate.
    pub(crate) fn keep_upper(&mut self, key: UserKey<A>)
        ensures sought { (lower : Option (List ℕ × ℕ)) → spec.IsTwoLevelSought self.old lower None →
            spec.IsTwoLevelSought self.new lower (Some key) }
        ensures over { spec.IsEnded (spec.two_level_left self.old) →
            spec.IsEnded (spec.two_level_left self.new) }
        ensures none { spec.LoadsNone (spec.two_level_left self.old)
            (spec.two_level_left self.new) }
    {
        self.walk.parts.tops.seek_upper(key.as_slice(), 0);
        self.walk.parts.edges.set_upper(key);
    }

    /// Returns the next item at an end.
    #[inline(always)]
    fn answer(&mut self, at: Direction) -> Option<Result<KeyedBlockHandle<A>, Error>>
        ensures { spec.TwoLevelGives (spec.taken_at at) (spec.needs_at at) (spec.fault_at at)
            self.old result self.new }
    {
        self.walk.step(at)
    }

    /// Takes the handle at an end and returns its block's offset and size.
    ///
    /// After an error it is exhausted at both ends.
    pub(crate) fn take_place(&mut self, at: Direction) -> Option<Result<BlockHandle, Error>>
        ensures { spec.TakesPlace
            (spec.TwoLevelGives (spec.taken_at at) (spec.needs_at at) (spec.fault_at at))
            self.old result self.new }
    {
        match self.answer(at) {
            Some(Ok(handle)) => Some(Ok(handle.into_inner())),
            Some(Err(error)) => Some(Err(error)),
            None => None,
        }
    }

    /// Drops the handles that are left.
    fn end(&mut self)
        ensures { self.new ≡ record self.old { tops = []; front = []; back = [] } }
    {
        self.walk.end();
    }
}

impl<A: Allocator + Clone> Iterator for Iter<A> {
    type Item = Result<KeyedBlockHandle<A>, Error>;

    ghost can_next = { λ _. Unit {0} };

    ghost next_gives = { spec.TwoLevelGives spec.front_of spec.front_needs spec.front_early };

    ghost remaining = { λ s. spec.at_most (spec.left_size (spec.two_level_left s)) };

    fn next(&mut self) -> Option<Self::Item> {
        self.answer(Direction::Front)
    }
}

impl<A: Allocator + Clone> DoubleEndedIterator for Iter<A> {
    ghost can_next_back = { λ _. Unit {0} };

    ghost next_back_gives = { spec.TwoLevelGives spec.back_of spec.back_needs spec.back_early };

    fn next_back(&mut self) -> Option<Self::Item> {
        self.answer(Direction::Back)
    }
}

impl<A: Allocator + Clone> BlockIndexIter<A> for Iter<A> {
    ghost left = { spec.two_level_left };

    ghost sought = { spec.IsTwoLevelSought };

    ghost seek_answers = { spec.AnswersTrue };

    ghost takes_memory = { λ _. Unit {0} };

    fn seek_lower(&mut self, key: &[u8], seqno: SeqNo) -> Result<bool, Error> {
        match self.walk.parts.edges.copy(key) {
            Ok(key) => {
                self.keep_lower(key, seqno);
                Ok(true)
            }
            Err(refusal) => {
                self.end();
                Err(refusal)
            }
        }
    }

    fn seek_upper(&mut self, key: &[u8], _seqno: SeqNo) -> Result<bool, Error> {
        match self.walk.parts.edges.copy(key) {
            Ok(key) => {
                self.keep_upper(key);
                Ok(true)
            }
            Err(refusal) => {
                self.end();
                Err(refusal)
            }
        }
    }

    fn opened(&self) -> Opened {
        self.walk.parts.opened
    }
}
