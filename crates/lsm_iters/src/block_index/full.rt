//! The full index: one pinned block with the handle of every data block.
ghost use Rattle.std.specs.Prelude.{◌≡◌, ◌-◌, Some, None, IfOk, IfErr, MatchOption, [], ◌↔◌};
ghost use Rattle.std.specs.Prelude.{IsTrue};
ghost use Rattle.lsm_iters.specs.Words as spec;

use crate::block_index::iter::OwnedIndexBlockIter;
use crate::block_index::kinds::BlockIndexIter;
use sst_blocks::{BlockHandle, Error, IndexBlock, KeyedBlockHandle, Opened, SeqNo};
use sst_entries::Direction;
use std::alloc::{Allocator, Global};
use std::marker::Model;

/// An index of one pinned block. Contracts see its handles.
#[derive(Drop)]
pub struct FullBlockIndex<A: Allocator = Global>(IndexBlock<A>);

impl<A: Allocator> Model for FullBlockIndex<A> {
    ghost use Rattle.std.specs.Prelude.{List};
    ghost use Rattle.sst_blocks.specs.Handle.{Handle};

    ghost Value = { List Handle };

    ghost view = { λ index. index.0 };
}

impl<A: Allocator> FullBlockIndex<A> {
    /// Returns the index of a loaded block.
    pub fn new(block: IndexBlock<A>) -> FullBlockIndex<A>
        ensures { result ≡ block }
    {
        FullBlockIndex(block)
    }

    /// Returns the block of handles.
    pub fn inner(&self) -> &IndexBlock<A>
        ensures { result.now ≡ self.now }
    {
        &self.0
    }

    /// Returns an iterator from the first handle whose end key reaches a key and a sequence number.
    ///
    /// An end key reaches them if it is greater than `key`, or equal with a sequence number below
    /// `seqno`. It returns `None` exactly if there is no such handle.
    ///
    /// # Errors
    ///
    /// [`Error::OutOfMemory`] only.
    pub fn forward_reader(&self, key: &[u8], seqno: SeqNo) -> Result<Option<Iter<A>>, Error>
        ensures none { IfOk result (λ found. MatchOption found
            (spec.window self.now (Some (key.now, seqno)) None ≡ []) (λ i. spec.rest_in i ≡ [] →
            ⊥)) }
        ensures found { let place = spec.reaching_place (key.now, seqno) self.now in
            IfOk result (λ found. MatchOption found (Unit {0})
            (λ i. i ≡ spec.span_from place (spec.whole_span self.now))) }
        ensures kept { let handles = spec.window self.now (Some (key.now, seqno)) None in
            IfOk result (λ found. MatchOption found (Unit {0}) (λ i. spec.rest_in i ≡ handles)) }
        ensures yields { let gives = ⟦<Iter<A> as Iterator>⟧.next_gives in
            let back_gives = ⟦<Iter<A> as DoubleEndedIterator>⟧.next_back_gives in
            IfOk result (λ found. MatchOption found (Unit {0}) (λ i.
            spec.YieldsEnding gives back_gives (λ _. Unit {0}) (λ _. Unit {0}) i
            (spec.span_left i).results)) }
        ensures err { IfErr result (λ e. e ≡ spec.OutOfMemory) }
    {
        let mut iter = self.iter()?;
        if iter.0.seek_lower(key, seqno) {
            Ok(Some(iter))
        } else {
            drop(iter);
            Ok(None)
        }
    }

    /// Returns an iterator over all handles.
    ///
    /// # Errors
    ///
    /// [`Error::OutOfMemory`] only.
    pub fn iter(&self) -> Result<Iter<A>, Error>
        ensures whole { IfOk result (λ i. i ≡ spec.whole_span self.now) }
        ensures between { IfOk result (λ i. spec.IsBetween (spec.span_left i) None None) }
        ensures yields { IfOk result (λ i. spec.YieldsFreely ⟦<Iter<A> as Iterator>⟧.next_gives
            ⟦<Iter<A> as DoubleEndedIterator>⟧.next_back_gives i (spec.span_left i).results) }
        ensures err { IfErr result (λ e. e ≡ spec.OutOfMemory) }
    {
        Ok(Iter(OwnedIndexBlockIter::new(self.0.clone()?)))
    }
}

/// A double-ended iterator over the handles of a full index.
///
/// After [`Error::OutOfMemory`] it is exhausted at both ends.
#[derive(Drop)]
pub struct Iter<A: Allocator = Global>(OwnedIndexBlockIter<A>);

impl<A: Allocator> Model for Iter<A> {
    ghost use Rattle.sst_blocks.specs.Handle.{Handle};
    ghost use Rattle.sst_entries.specs.Span.{Span};

    ghost Value = { Span Handle };

    ghost view = { λ i. i.0 };
}

impl<A: Allocator> Iter<A> {
    /// Returns whether all handles are left: no step was made, and no seek dropped a handle.
    pub(crate) fn is_unsought(&self) -> bool
        ensures { IsTrue result ↔ spec.IsSpanSought self.now None None }
    {
        self.0.is_whole()
    }

    /// Takes the handle at an end and returns its block's offset and size.
    ///
    /// It does not allocate, so it returns no error.
    pub(crate) fn take_place(&mut self, at: Direction) -> Option<Result<BlockHandle, Error>>
        ensures { spec.TakesPlace (spec.LeftGives (spec.taken_at at)) (spec.span_left self.old)
            result (spec.span_left self.new) }
    {
        self.0.step_place(at)
    }
}

impl<A: Allocator> Iterator for Iter<A> {
    type Item = Result<KeyedBlockHandle<A>, Error>;

    ghost can_next = { λ _. Unit {0} };

    ghost next_gives = { spec.SpanGives spec.front_of };

    ghost remaining = { λ s. spec.at_most (s.to - s.from) };

    fn next(&mut self) -> Option<Self::Item> {
        self.0.next()
    }
}

impl<A: Allocator> DoubleEndedIterator for Iter<A> {
    ghost can_next_back = { λ _. Unit {0} };

    ghost next_back_gives = { spec.SpanGives spec.back_of };

    fn next_back(&mut self) -> Option<Self::Item> {
        self.0.next_back()
    }
}

impl<A: Allocator> BlockIndexIter<A> for Iter<A> {
    ghost left = { spec.span_left };

    ghost sought = { spec.IsSpanSought };

    ghost seek_answers = { spec.AnswersAny };

    ghost takes_memory = { λ _. ⊥ };

    fn seek_lower(&mut self, key: &[u8], seqno: SeqNo) -> Result<bool, Error> {
        Ok(self.0.seek_lower(key, seqno))
    }

    fn seek_upper(&mut self, key: &[u8], seqno: SeqNo) -> Result<bool, Error> {
        Ok(self.0.seek_upper(key, seqno))
    }

    fn opened(&self) -> Opened {
        Opened::none()
    }
}
