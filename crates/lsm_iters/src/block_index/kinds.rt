//! The traits of block indexes and their three kinds.
ghost use Rattle.std.specs.Prelude.{◌≡◌, ℕ, Bool, List, Option, [], Some, None, false, MatchOption};
ghost use Rattle.std.specs.Prelude.{◌↔◌, ◌-◌, ◌^◌, IsTrue, OnOk, OnErr, IfOk, IfErr};
ghost use Rattle.lsm_iters.specs.Words as spec;

use crate::block_index::full::{self, FullBlockIndex};
use crate::block_index::two_level::{self, TwoLevelBlockIndex};
use crate::block_index::volatile::{self, VolatileBlockIndex};
use sst_blocks::{BlockHandle, Error, KeyedBlockHandle, Opened, SeqNo, UserKey};
use sst_entries::Direction;
use std::alloc::{Allocator, Global};

/// A double-ended iterator over the handles of an index, between edges that may be sought.
///
/// Seek each edge at most once, before the first step. The result of a later seek is unspecified,
/// except that an exhausted iterator stays exhausted.
///
/// After an error of a step or a seek, [`Error::OutOfMemory`] included, it is exhausted at both
/// ends.
pub trait BlockIndexIter<A: Allocator>: DoubleEndedIterator<
    Item = Result<KeyedBlockHandle<A>, Error>,
> {
    // The handles and errors that it still yields.
    ghost left: { Self → spec.Left };

    // These edges were sought, and no step was made.
    ghost sought: { Self → Option (List ℕ × ℕ) → Option (List ℕ) → Type 0 };

    // The results that a seek may return, by the handles left.
    ghost seek_answers: { Self → Bool → Type 0 };

    // Whether a seek may allocate, for its copy of the edge.
    ghost takes_memory: { Self → Type 0 };

    /// Drops the handles before the first whose end key reaches a key and a sequence number.
    ///
    /// An end key reaches them if it is greater than `key`, or equal with a sequence number below
    /// `seqno`. Returns false only if nothing is left. It loads nothing.
    ///
    /// # Errors
    ///
    /// [`Error::OutOfMemory`] only, and never with a pinned full index. After the error it is
    /// exhausted at both ends and loads nothing more; a later seek does not change that.
    fn seek_lower(&mut self, key: &[u8], seqno: SeqNo) -> Result<bool, Error>
        ensures sought { (upper : Option (List ℕ)) → sought self.old None upper →
            OnOk result (sought self.new (Some (key.now, seqno)) upper) }
        ensures between { (upper : Option (List ℕ)) → sought self.old None upper →
            OnOk result (spec.IsBetween (left self.new) (Some (key.now, seqno)) upper) }
        ensures answers { IfOk result (λ any. seek_answers self.new any) }
        ensures none { IfOk result (λ any. any ≡ false → (left self.new).results ≡ []) }
        // A seek does not revive an exhausted iterator.
        ensures over { spec.IsEnded (left self.old) → spec.IsEnded (left self.new) }
        // In any order of calls at both ends, the results left are yielded up to the first error.
        ensures yields { spec.YieldsEnding Self.next_gives Self.next_back_gives Self.can_next
            Self.can_next_back self.new (left self.new).results }
        ensures index { (left self.new).index ≡ (left self.old).index }
        ensures opened { (left self.new).opened ≡ (left self.old).opened }
        // After an error, each call at either end returns `None` and loads nothing.
        ensures ended { OnErr result (spec.IsEnded (left self.new)) }
        ensures stays { OnErr result
            (spec.StaysEnded Self.next_gives Self.next_back_gives left self.new) }
        ensures refused { OnErr result (takes_memory self.old) }
        // A pinned full index never allocates in a seek, in any later state.
        ensures wants { takes_memory self.new → takes_memory self.old }
        ensures err { IfErr result (λ e. e ≡ spec.OutOfMemory) };

    /// Drops the handles after the first whose end key is greater than a key.
    ///
    /// The sequence number is ignored: versions of the key may continue in the block after a handle
    /// that ends with the key. Returns false only if nothing is left. It loads nothing.
    ///
    /// # Errors
    ///
    /// Those of [`BlockIndexIter::seek_lower`], with the same state after an error.
    fn seek_upper(&mut self, key: &[u8], seqno: SeqNo) -> Result<bool, Error>
        ensures sought { (lower : Option (List ℕ × ℕ)) → sought self.old lower None →
            OnOk result (sought self.new lower (Some key.now)) }
        ensures between { (lower : Option (List ℕ × ℕ)) → sought self.old lower None →
            OnOk result (spec.IsBetween (left self.new) lower (Some key.now)) }
        ensures answers { IfOk result (λ any. seek_answers self.new any) }
        ensures none { IfOk result (λ any. any ≡ false → (left self.new).results ≡ []) }
        ensures over { spec.IsEnded (left self.old) → spec.IsEnded (left self.new) }
        ensures yields { spec.YieldsEnding Self.next_gives Self.next_back_gives Self.can_next
            Self.can_next_back self.new (left self.new).results }
        ensures index { (left self.new).index ≡ (left self.old).index }
        ensures opened { (left self.new).opened ≡ (left self.old).opened }
        ensures ended { OnErr result (spec.IsEnded (left self.new)) }
        ensures stays { OnErr result
            (spec.StaysEnded Self.next_gives Self.next_back_gives left self.new) }
        ensures refused { OnErr result (takes_memory self.old) }
        ensures wants { takes_memory self.new → takes_memory self.old }
        ensures err { IfErr result (λ e. e ≡ spec.OutOfMemory) };

    /// Returns how many blocks of each kind were loaded.
    fn opened(&self) -> Opened
        ensures { result ≡ (left self.now).opened };
}

/// A block index: from keys to the handles of data blocks.
pub trait BlockIndex<A: Allocator> {
    // Its handles between two edges.
    ghost index: { Self → spec.Index };

    // Whether there is a reader from an edge on.
    ghost has_reader: { Self → Option (List ℕ × ℕ) → Type 0 };

    /// Returns an iterator from the first handle whose end key reaches a key and a sequence number.
    ///
    /// An end key reaches them if it is greater than `key`, or equal with a sequence number below
    /// `seqno`. It returns `None` only if there is no such handle, and only for a pinned full
    /// index. Nothing is loaded.
    ///
    /// # Errors
    ///
    /// [`Error::OutOfMemory`] only.
    fn forward_reader(
        &self,
        key: &[u8],
        seqno: SeqNo,
    ) -> Result<Option<BlockIndexIterImpl<A>>, Error>
        ensures found { let edge = Some (key.now, seqno) in
            IfOk result (λ found. MatchOption found ((index self.now).returned edge None ≡ [])
            (λ i. spec.IsReader i (index self.now) edge None)) }
        ensures reader { let has = has_reader self.now (Some (key.now, seqno)) in
            IfOk result (λ found. MatchOption found (has → ⊥) (λ i. has)) }
        ensures err { IfErr result (λ e. e ≡ spec.OutOfMemory) };

    /// Returns an iterator over all handles.
    ///
    /// Nothing is loaded.
    ///
    /// # Errors
    ///
    /// [`Error::OutOfMemory`] only.
    fn iter(&self) -> Result<BlockIndexIterImpl<A>, Error>
        ensures all { IfOk result (λ i. spec.IsReader i (index self.now) None None) }
        ensures err { IfErr result (λ e. e ≡ spec.OutOfMemory) };
}

/// A block index of one of three kinds.
#[derive(Drop)]
pub enum BlockIndexImpl<A: Allocator = Global> {
    /// One pinned block.
    Full(FullBlockIndex<A>),
    /// One block, loaded on demand.
    VolatileFull(VolatileBlockIndex<A>),
    /// A pinned top level over partitions.
    TwoLevel(TwoLevelBlockIndex<A>),
}

impl<A: Allocator + Clone> BlockIndex<A> for BlockIndexImpl<A> {
    ghost index = { spec.index_of };

    ghost has_reader = { spec.HasReader };

    fn forward_reader(
        &self,
        key: &[u8],
        seqno: SeqNo,
    ) -> Result<Option<BlockIndexIterImpl<A>>, Error> {
        match self {
            BlockIndexImpl::Full(index) => match index.forward_reader(key, seqno)? {
                Some(iter) => Ok(Some(BlockIndexIterImpl::Full(iter))),
                None => Ok(None),
            },
            BlockIndexImpl::VolatileFull(index) => {
                let iter = index.forward_reader(key, seqno)?;
                Ok(Some(BlockIndexIterImpl::Volatile(iter)))
            }
            BlockIndexImpl::TwoLevel(index) => {
                let iter = index.forward_reader(key, seqno)?;
                Ok(Some(BlockIndexIterImpl::TwoLevel(iter)))
            }
        }
    }

    fn iter(&self) -> Result<BlockIndexIterImpl<A>, Error> {
        match self {
            BlockIndexImpl::Full(index) => Ok(BlockIndexIterImpl::Full(index.iter()?)),
            BlockIndexImpl::VolatileFull(index) => Ok(BlockIndexIterImpl::Volatile(index.iter()?)),
            BlockIndexImpl::TwoLevel(index) => Ok(BlockIndexIterImpl::TwoLevel(index.iter()?)),
        }
    }
}

/// The iterator of a [`BlockIndexImpl`].
#[derive(Drop)]
pub enum BlockIndexIterImpl<A: Allocator = Global> {
    /// Iterates over a pinned block.
    Full(full::Iter<A>),
    /// Iterates over a block that the first step loads.
    Volatile(volatile::Iter<A>),
    /// Iterates over a two-level index.
    TwoLevel(two_level::Iter<A>),
}

impl<A: Allocator + Clone> BlockIndexIterImpl<A> {
    /// Returns whether no edge was sought and no step was made.
    ///
    /// With a pinned full index, a seek that dropped no handle does not count.
    pub fn is_unsought(&self) -> bool
        ensures { IsTrue result ↔ spec.IsSought self.now None None }
    {
        match self {
            BlockIndexIterImpl::Full(iter) => iter.is_unsought(),
            BlockIndexIterImpl::Volatile(iter) => iter.is_unsought(),
            BlockIndexIterImpl::TwoLevel(iter) => iter.is_unsought(),
        }
    }

    /// Seeks a lower edge at any sequence number. An index that is not loaded shares the key.
    ///
    /// # Errors
    ///
    /// [`Error::OutOfMemory`] only, and never with a pinned full index. The edges are then
    /// unchanged.
    pub(crate) fn keep_lower(&mut self, key: &UserKey<A>) -> Result<(), Error>
        ensures sought { spec.IsSought self.old None None →
            OnOk result (spec.IsSought self.new (Some (key.now, 2 ^ 64 - 1)) None) }
        ensures none { spec.LoadsNone (spec.left_of self.old) (spec.left_of self.new) }
        ensures refused { OnErr result (spec.TakesMemory self.old) }
        ensures wants { spec.TakesMemory self.new → spec.TakesMemory self.old }
        ensures err { IfErr result (λ e. e ≡ spec.OutOfMemory) }
    {
        match self {
            BlockIndexIterImpl::Full(iter) => {
                iter.seek_lower(key.as_slice(), SeqNo::MAX).and(Ok(()))
            }
            BlockIndexIterImpl::Volatile(iter) => {
                iter.keep_lower(key.clone()?, SeqNo::MAX);
                Ok(())
            }
            BlockIndexIterImpl::TwoLevel(iter) => {
                iter.keep_lower(key.clone()?, SeqNo::MAX);
                Ok(())
            }
        }
    }

    /// Seeks an upper edge. An index that is not loaded shares the key.
    ///
    /// # Errors
    ///
    /// Those of [`Self::keep_lower`].
    pub(crate) fn keep_upper(&mut self, key: &UserKey<A>) -> Result<(), Error>
        ensures sought { (low : Option (List ℕ × ℕ)) → spec.IsSought self.old low None →
            OnOk result (spec.IsSought self.new low (Some key.now)) }
        ensures none { spec.LoadsNone (spec.left_of self.old) (spec.left_of self.new) }
        ensures refused { OnErr result (spec.TakesMemory self.old) }
        ensures err { IfErr result (λ e. e ≡ spec.OutOfMemory) }
    {
        match self {
            BlockIndexIterImpl::Full(iter) => {
                iter.seek_upper(key.as_slice(), SeqNo::MAX).and(Ok(()))
            }
            BlockIndexIterImpl::Volatile(iter) => {
                iter.keep_upper(key.clone()?);
                Ok(())
            }
            BlockIndexIterImpl::TwoLevel(iter) => {
                iter.keep_upper(key.clone()?);
                Ok(())
            }
        }
    }

    /// Takes the handle at an end and returns its block's offset and size.
    ///
    /// Only a two-level index shares the handle's end key meanwhile. After an error it is
    /// exhausted at both ends.
    pub(crate) fn take_place(&mut self, at: Direction) -> Option<Result<BlockHandle, Error>>
        ensures { spec.TakesPlace (spec.LeftGives (spec.taken_at at)) (spec.left_of self.old)
            result (spec.left_of self.new) }
    {
        match self {
            BlockIndexIterImpl::Full(iter) => iter.take_place(at),
            BlockIndexIterImpl::Volatile(iter) => iter.take_place(at),
            BlockIndexIterImpl::TwoLevel(iter) => iter.take_place(at),
        }
    }

    /// Steps at the front, by kind.
    #[inline]
    fn step(&mut self) -> Option<Result<KeyedBlockHandle<A>, Error>>
        ensures { spec.FrontGives self.old result self.new }
    {
        match self {
            BlockIndexIterImpl::Full(iter) => iter.next(),
            BlockIndexIterImpl::Volatile(iter) => iter.next(),
            BlockIndexIterImpl::TwoLevel(iter) => iter.next(),
        }
    }

    /// Steps at the back, by kind.
    #[inline]
    fn step_back(&mut self) -> Option<Result<KeyedBlockHandle<A>, Error>>
        ensures { spec.BackGives self.old result self.new }
    {
        match self {
            BlockIndexIterImpl::Full(iter) => iter.next_back(),
            BlockIndexIterImpl::Volatile(iter) => iter.next_back(),
            BlockIndexIterImpl::TwoLevel(iter) => iter.next_back(),
        }
    }
}

impl<A: Allocator + Clone> Iterator for BlockIndexIterImpl<A> {
    type Item = Result<KeyedBlockHandle<A>, Error>;

    ghost can_next = { λ _. Unit {0} };

    ghost next_gives = { spec.FrontGives };

    ghost remaining = { λ s. spec.at_most (spec.left_size (spec.left_of s)) };

    fn next(&mut self) -> Option<Self::Item> {
        self.step()
    }
}

impl<A: Allocator + Clone> DoubleEndedIterator for BlockIndexIterImpl<A> {
    ghost can_next_back = { λ _. Unit {0} };

    ghost next_back_gives = { spec.BackGives };

    fn next_back(&mut self) -> Option<Self::Item> {
        self.step_back()
    }
}

impl<A: Allocator + Clone> BlockIndexIter<A> for BlockIndexIterImpl<A> {
    ghost left = { spec.left_of };

    ghost sought = { spec.IsSought };

    ghost seek_answers = { spec.SeekAnswers };

    ghost takes_memory = { spec.TakesMemory };

    fn seek_lower(&mut self, key: &[u8], seqno: SeqNo) -> Result<bool, Error> {
        match self {
            BlockIndexIterImpl::Full(iter) => iter.seek_lower(key, seqno),
            BlockIndexIterImpl::Volatile(iter) => iter.seek_lower(key, seqno),
            BlockIndexIterImpl::TwoLevel(iter) => iter.seek_lower(key, seqno),
        }
    }

    fn seek_upper(&mut self, key: &[u8], seqno: SeqNo) -> Result<bool, Error> {
        match self {
            BlockIndexIterImpl::Full(iter) => iter.seek_upper(key, seqno),
            BlockIndexIterImpl::Volatile(iter) => iter.seek_upper(key, seqno),
            BlockIndexIterImpl::TwoLevel(iter) => iter.seek_upper(key, seqno),
        }
    }

    fn opened(&self) -> Opened {
        match self {
            BlockIndexIterImpl::Full(iter) => iter.opened(),
            BlockIndexIterImpl::Volatile(iter) => iter.opened(),
            BlockIndexIterImpl::TwoLevel(iter) => iter.opened(),
        }
    }
}
