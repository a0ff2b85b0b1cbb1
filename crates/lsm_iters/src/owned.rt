//! A double-ended iterator over the entries of a data block that it owns.
ghost use Rattle.std.specs.Prelude.{◌≡◌, ◌-◌, ◌↔◌, [], IsTrue, length};
ghost use Rattle.lsm_iters.specs.Words as spec;

use crate::Bound;
use crate::block_cursor::BlockCursor;
use sst_blocks::{DataBlock, IterItem, SeqNo};
use std::alloc::{Allocator, Global};
use std::marker::Model;

/// A double-ended iterator over the entries of a data block that it owns.
///
/// After [`sst_blocks::Error::OutOfMemory`] it is exhausted at both ends. Contracts see the block's
/// entries and the index range that is left.
#[derive(Drop)]
pub struct OwnedDataBlockIter<A: Allocator = Global> {
    block: DataBlock<A>,
    from: usize,
    to: usize,
}

impl<A: Allocator> Model for OwnedDataBlockIter<A> {
    ghost use Rattle.std.specs.Prelude.{◌≤◌, length};
    ghost use Rattle.sst_entries.specs.Entry.{Entry};
    ghost use Rattle.sst_entries.specs.Span.{Span};

    ghost Value = { Span Entry };

    ghost view = { λ i. record { list = i.block; from = i.from; to = i.to } };

    ghost invariant = { λ i. i.to ≤ length i.block };
}

impl<A: Allocator> OwnedDataBlockIter<A> {
    /// Returns an iterator over all entries of a block.
    pub fn new(block: DataBlock<A>) -> OwnedDataBlockIter<A>
        ensures whole { result ≡ spec.whole_span block }
        ensures yields { spec.YieldsLeft ⟦<OwnedDataBlockIter<A> as Iterator>⟧.next_gives
            ⟦<OwnedDataBlockIter<A> as DoubleEndedIterator>⟧.next_back_gives result }
    {
        let to = block.len();
        OwnedDataBlockIter { block, from: 0, to }
    }

    /// Returns a cursor over the entries that are left.
    pub(crate) fn into_cursor(self) -> BlockCursor<A>
        ensures { result ≡ spec.cursor_of (spec.rest_in self) }
    {
        BlockCursor::new(self.block, self.from, self.to)
    }

    /// Drops the entries before a lower bound and returns whether an entry is left.
    ///
    /// The sequence number is ignored.
    pub fn seek_lower_bound(&mut self, bound: &Bound<A>, _seqno: SeqNo) -> bool
        ensures narrowed { let place = spec.lower_place (spec.edge_of bound.now) self.old.list in
            self.new ≡ spec.span_from place self.old }
        ensures left { IsTrue result ↔ (spec.rest_in self.new ≡ [] → ⊥) }
        ensures kept { spec.rest_in self.new ≡ spec.within (spec.edge_of bound.now) spec.Unbounded
            (spec.rest_in self.old) }
        ensures both { spec.KeepsUpper (spec.edge_of bound.now) self.old self.new }
        ensures yields { spec.YieldsLeft ⟦<OwnedDataBlockIter<A> as Iterator>⟧.next_gives
            ⟦<OwnedDataBlockIter<A> as DoubleEndedIterator>⟧.next_back_gives self.new }
    {
        self.from = self.from.max(first_behind(&self.block, bound));
        self.from < self.to
    }

    /// Drops the entries after an upper bound and returns whether an entry is left.
    ///
    /// The sequence number is ignored.
    pub fn seek_upper_bound(&mut self, bound: &Bound<A>, _seqno: SeqNo) -> bool
        ensures narrowed { let place = spec.upper_place (spec.edge_of bound.now) self.old.list in
            self.new ≡ spec.span_to place self.old }
        ensures left { IsTrue result ↔ (spec.rest_in self.new ≡ [] → ⊥) }
        ensures kept { spec.rest_in self.new ≡ spec.within spec.Unbounded (spec.edge_of bound.now)
            (spec.rest_in self.old) }
        ensures both { spec.KeepsLower (spec.edge_of bound.now) self.old self.new }
        ensures yields { spec.YieldsLeft ⟦<OwnedDataBlockIter<A> as Iterator>⟧.next_gives
            ⟦<OwnedDataBlockIter<A> as DoubleEndedIterator>⟧.next_back_gives self.new }
    {
        self.to = self.to.min(first_past(&self.block, bound));
        self.from < self.to
    }
}

impl<A: Allocator> Iterator for OwnedDataBlockIter<A> {
    type Item = IterItem<A>;

    ghost can_next = { λ _. Unit {0} };

    ghost next_gives = { spec.SpanGives spec.front_of };

    ghost remaining = { λ s. spec.at_most (s.to - s.from) };

    #[inline(always)]
    fn next(&mut self) -> Option<IterItem<A>> {
        if self.to <= self.from {
            return None;
        }
        match self.block.entry(self.from) {
            Ok(entry) => {
                self.from += 1;
                Some(Ok(entry))
            }
            Err(refusal) => {
                // Exhausted after an error.
                self.from = self.to;
                Some(Err(refusal))
            }
        }
    }
}

impl<A: Allocator> DoubleEndedIterator for OwnedDataBlockIter<A> {
    ghost can_next_back = { λ _. Unit {0} };

    ghost next_back_gives = { spec.SpanGives spec.back_of };

    #[inline(always)]
    fn next_back(&mut self) -> Option<IterItem<A>> {
        if self.to <= self.from {
            return None;
        }
        match self.block.entry(self.to - 1) {
            Ok(entry) => {
                self.to -= 1;
                Some(Ok(entry))
            }
            Err(refusal) => {
                // Exhausted after an error.
                self.to = self.from;
                Some(Err(refusal))
            }
        }
    }
}

/// Returns whether no entry is before a lower bound, by one comparison. An empty block returns
/// true.
fn begins_within<A: Allocator>(block: &DataBlock<A>, bound: &Bound<A>) -> bool
    ensures place { IsTrue result → spec.lower_place (spec.edge_of bound.now) block.now ≡ 0 }
    ensures strict { spec.IsStrict block.now }
{
    if block.len() == 0 {
        return true;
    }
    let (key, _) = block.key_at(0);
    match bound {
        Bound::Included(low) => !key.cmp(low.as_slice()).is_lt(),
        Bound::Excluded(low) => low.as_slice().cmp(key).is_lt(),
    }
}

/// Returns whether no entry is after an upper bound, by one comparison. An empty block returns
/// true.
fn ends_within<A: Allocator>(block: &DataBlock<A>, bound: &Bound<A>) -> bool
    ensures place { IsTrue result →
        spec.upper_place (spec.edge_of bound.now) block.now ≡ length block.now }
    ensures strict { spec.IsStrict block.now }
{
    let len = block.len();
    if len == 0 {
        return true;
    }
    let (key, _) = block.key_at(len - 1);
    match bound {
        Bound::Included(high) => !high.as_slice().cmp(key).is_lt(),
        Bound::Excluded(high) => key.cmp(high.as_slice()).is_lt(),
    }
}

/// Returns the number of entries before a lower bound. It searches only if the bound cuts off some.
fn first_behind<A: Allocator>(block: &DataBlock<A>, bound: &Bound<A>) -> usize
    ensures place { result ≡ spec.lower_place (spec.edge_of bound.now) block.now }
    ensures strict { spec.IsStrict block.now }
{
    if begins_within(block, bound) {
        return 0;
    }
    match bound {
        Bound::Included(key) => block.first_at_least(key.as_slice()),
        Bound::Excluded(key) => block.first_above(key.as_slice()),
    }
}

/// Returns the number of entries up to an upper bound. It searches only if the bound cuts off some.
fn first_past<A: Allocator>(block: &DataBlock<A>, bound: &Bound<A>) -> usize
    ensures place { result ≡ spec.upper_place (spec.edge_of bound.now) block.now }
    ensures strict { spec.IsStrict block.now }
{
    if ends_within(block, bound) {
        return block.len();
    }
    match bound {
        Bound::Included(key) => block.first_above(key.as_slice()),
        Bound::Excluded(key) => block.first_at_least(key.as_slice()),
    }
}
