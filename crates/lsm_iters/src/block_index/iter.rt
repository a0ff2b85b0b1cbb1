//! A double-ended iterator over the handles of an index block that it owns.
ghost use Rattle.std.specs.Prelude.{◌≡◌, ◌+◌, ◌-◌, ◌↔◌, [], IsTrue, Some, None};
ghost use Rattle.lsm_iters.specs.Words as spec;

use crate::Ends;
use sst_blocks::{BlockHandle, Error, IndexBlock, KeyedBlockHandle, SeqNo};
use sst_entries::Direction;
use std::alloc::{Allocator, Global};
use std::marker::Model;

/// A double-ended iterator over the handles of an index block that it owns.
///
/// After [`Error::OutOfMemory`] it is exhausted at both ends. Contracts see the block's handles and
/// the index range that is left.
#[derive(Drop)]
pub struct OwnedIndexBlockIter<A: Allocator = Global> {
    block: IndexBlock<A>,
    from: usize,
    to: usize,
}

impl<A: Allocator> Model for OwnedIndexBlockIter<A> {
    ghost use Rattle.std.specs.Prelude.{◌≤◌, length};
    ghost use Rattle.sst_blocks.specs.Handle.{Handle};
    ghost use Rattle.sst_entries.specs.Span.{Span};

    ghost Value = { Span Handle };

    ghost view = { λ i. record { list = i.block; from = i.from; to = i.to } };

    ghost invariant = { λ i. i.to ≤ length i.block };
}

impl<A: Allocator> OwnedIndexBlockIter<A> {
    /// Returns an iterator over all handles of a block.
    pub fn new(block: IndexBlock<A>) -> OwnedIndexBlockIter<A>
        ensures whole { result ≡ spec.whole_span block }
        ensures yields { spec.YieldsLeft ⟦<OwnedIndexBlockIter<A> as Iterator>⟧.next_gives
            ⟦<OwnedIndexBlockIter<A> as DoubleEndedIterator>⟧.next_back_gives result }
    {
        let to = block.len();
        OwnedIndexBlockIter { block, from: 0, to }
    }

    /// Drops the handles before the first whose end key reaches a key and a sequence number.
    ///
    /// An end key reaches them if it is greater than `key`, or equal with a sequence number below
    /// `seqno`. Returns whether a handle is left.
    pub fn seek_lower(&mut self, key: &[u8], seqno: SeqNo) -> bool
        ensures narrowed { let place = spec.reaching_place (key.now, seqno) self.old.list in
            self.new ≡ spec.span_from place self.old }
        ensures left { IsTrue result ↔ (spec.rest_in self.new ≡ [] → ⊥) }
        ensures kept { spec.rest_in self.new ≡ spec.window (spec.rest_in self.old)
            (Some (key.now, seqno)) None }
        ensures both { spec.KeepsUpperEdge (key.now, seqno) self.old self.new }
        ensures yields { spec.YieldsLeft ⟦<OwnedIndexBlockIter<A> as Iterator>⟧.next_gives
            ⟦<OwnedIndexBlockIter<A> as DoubleEndedIterator>⟧.next_back_gives self.new }
    {
        self.from = self.from.max(self.block.first_reaching(key, seqno));
        self.from < self.to
    }

    /// Drops the handles after the first whose end key is greater than a key.
    ///
    /// Returns whether a handle is left. The sequence number is ignored: versions of the key may
    /// continue in the block after a handle that ends with the key.
    pub fn seek_upper(&mut self, key: &[u8], _seqno: SeqNo) -> bool
        ensures narrowed { self.new ≡ spec.span_to (1 + spec.above_place key.now self.old.list)
            self.old }
        ensures left { IsTrue result ↔ (spec.rest_in self.new ≡ [] → ⊥) }
        // The handles left are those within the list's window up to the key.
        ensures kept { let upper = spec.window self.old.list None (Some key.now) in
            spec.rest_in self.new ≡ spec.rest_in (record self.old { list = upper }) }
        ensures both { spec.KeepsLowerEdge key.now self.old self.new }
        ensures yields { spec.YieldsLeft ⟦<OwnedIndexBlockIter<A> as Iterator>⟧.next_gives
            ⟦<OwnedIndexBlockIter<A> as DoubleEndedIterator>⟧.next_back_gives self.new }
    {
        let last = self.block.first_above(key);
        self.to = self.to.min(last.saturating_add(1));
        self.from < self.to
    }

    /// Takes the first handle and returns its block's offset and size.
    ///
    /// It does not allocate, since the end key is not shared.
    pub(crate) fn next_place(&mut self) -> Option<BlockHandle>
        ensures { spec.PlaceGives spec.front_of self.old result self.new }
    {
        if self.to <= self.from {
            return None;
        }
        let place = self.block.place_at(self.from);
        self.from += 1;
        Some(place)
    }

    /// Takes the last handle and returns its block's offset and size.
    ///
    /// It does not allocate, since the end key is not shared.
    pub(crate) fn next_place_back(&mut self) -> Option<BlockHandle>
        ensures { spec.PlaceGives spec.back_of self.old result self.new }
    {
        if self.to <= self.from {
            return None;
        }
        let place = self.block.place_at(self.to - 1);
        self.to -= 1;
        Some(place)
    }

    /// Takes the handle at an end and returns its block's offset and size.
    ///
    /// It does not allocate.
    pub(crate) fn take_place(&mut self, at: Direction) -> Option<BlockHandle>
        ensures { spec.PlaceGives (spec.taken_at at) self.old result self.new }
    {
        match at {
            Direction::Front => self.next_place(),
            Direction::Back => self.next_place_back(),
        }
    }

    /// Takes the handle at an end and returns its block's offset and size, as a step's result.
    ///
    /// It does not allocate, so it returns no error.
    pub(crate) fn step_place(&mut self, at: Direction) -> Option<Result<BlockHandle, Error>>
        ensures step { spec.TakesPlace (spec.PartGives (spec.taken_at at)) (spec.rest_in self.old)
            result (spec.rest_in self.new) }
        ensures list { self.new.list ≡ self.old.list }
    {
        match self.take_place(at) {
            Some(place) => Some(Ok(place)),
            None => None,
        }
    }

    /// Returns whether all handles of the block are left.
    pub(crate) fn is_whole(&self) -> bool
        ensures { IsTrue result ↔ (spec.rest_in self.now ≡ self.now.list) }
    {
        self.to.saturating_sub(self.from) == self.block.len()
    }

    /// Returns whether no handle is left.
    pub(crate) fn is_empty(&self) -> bool
        ensures { IsTrue result ↔ (spec.rest_in self.now ≡ []) }
    {
        self.to <= self.from
    }

    /// Drops the handles that are left.
    pub(crate) fn end(&mut self)
        ensures rest { spec.rest_in self.new ≡ [] }
        ensures list { self.new.list ≡ self.old.list }
    {
        self.to = self.from.min(self.to);
    }
}

impl<A: Allocator> Iterator for OwnedIndexBlockIter<A> {
    type Item = Result<KeyedBlockHandle<A>, Error>;

    ghost can_next = { λ _. Unit {0} };

    ghost next_gives = { spec.SpanGives spec.front_of };

    ghost remaining = { λ s. spec.at_most (s.to - s.from) };

    fn next(&mut self) -> Option<Self::Item> {
        if self.to <= self.from {
            return None;
        }
        match self.block.handle(self.from) {
            Ok(handle) => {
                self.from += 1;
                Some(Ok(handle))
            }
            Err(refusal) => {
                // Exhausted after an error.
                self.from = self.to;
                Some(Err(refusal))
            }
        }
    }
}

impl<A: Allocator> DoubleEndedIterator for OwnedIndexBlockIter<A> {
    ghost can_next_back = { λ _. Unit {0} };

    ghost next_back_gives = { spec.SpanGives spec.back_of };

    fn next_back(&mut self) -> Option<Self::Item> {
        if self.to <= self.from {
            return None;
        }
        match self.block.handle(self.to - 1) {
            Ok(handle) => {
                self.to -= 1;
                Some(Ok(handle))
            }
            Err(refusal) => {
                // Exhausted after an error.
                self.to = self.from;
                Some(Err(refusal))
            }
        }
    }
}

impl<A: Allocator> Ends for OwnedIndexBlockIter<A> {
    type Item = KeyedBlockHandle<A>;

    ghost left = { spec.span_remains };

    #[inline(always)]
    fn step(&mut self, at: Direction) -> Option<Result<KeyedBlockHandle<A>, Error>> {
        match at {
            Direction::Front => self.next(),
            Direction::Back => self.next_back(),
        }
    }
}
