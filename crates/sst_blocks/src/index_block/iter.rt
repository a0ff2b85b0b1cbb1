//! An iterator over the handles of an index block.
ghost use Rattle.std.specs.Prelude.{◌≡◌, ◌+◌, ◌-◌, ◌↔◌, [], IsTrue, Some, None};
ghost use Rattle.sst_blocks.specs.Words as spec;

use super::IndexBlock;
use crate::{Error, KeyedBlockHandle, SeqNo};
use std::alloc::{Allocator, Global};
use std::marker::Model;

/// An iterator over the handles of an index block, from both ends.
///
/// Its only error is [`Error::OutOfMemory`]. After the error both ends are exhausted.
#[derive(Drop)]
pub struct Iter<'a, A: Allocator = Global> {
    block: &'a IndexBlock<A>,
    from: usize,
    to: usize,
}

impl<'a, A: Allocator> Model for Iter<'a, A> {
    ghost use Rattle.std.specs.Prelude.{◌≤◌, length};
    ghost use Rattle.sst_blocks.specs.Handle.{Handle};
    ghost use Rattle.sst_entries.specs.Span.{Span};

    ghost Value = { Span Handle };

    ghost view = { λ i. record { list = i.block.now; from = i.from; to = i.to } };

    ghost invariant = { λ i. i.to ≤ length i.block.now };
}

impl<'a, A: Allocator> Iter<'a, A> {
    pub(super) fn new(block: &'a IndexBlock<A>) -> Iter<'a, A>
        ensures { result ≡ spec.whole_span block.now }
    {
        Iter {
            block,
            from: 0,
            to: block.len(),
        }
    }

    /// Drops the handles before the first that reaches a key at `seqno`, and returns whether any
    /// remain.
    ///
    /// A handle reaches it if its end key is greater, or equal with a sequence number below
    /// `seqno`.
    pub fn seek(&mut self, key: &[u8], seqno: SeqNo) -> bool
        ensures narrowed { let place = spec.reaching_place (key.now, seqno) self.old.list in
            self.new ≡ spec.span_from place self.old }
        ensures left { IsTrue result ↔ (spec.rest_in self.new ≡ [] → ⊥) }
        ensures kept { spec.rest_in self.new ≡ spec.window (spec.rest_in self.old)
            (Some (key.now, seqno)) None }
        ensures both { spec.KeepsUpperEdge (key.now, seqno) self.old self.new }
        ensures yields { spec.YieldsLeft ⟦<Iter<'a, A> as Iterator>⟧.next_gives
            ⟦<Iter<'a, A> as DoubleEndedIterator>⟧.next_back_gives self.new }
    {
        self.from = self.from.max(self.block.first_reaching(key, seqno));
        self.from < self.to
    }

    /// Drops the handles after the first whose end key is greater than `key`, and returns whether
    /// any remain.
    ///
    /// The sequence number is ignored. If a block ends with the key, the next one may contain more
    /// versions of it.
    pub fn seek_upper(&mut self, key: &[u8], _seqno: SeqNo) -> bool
        ensures narrowed { self.new ≡ spec.span_to (1 + spec.above_place key.now self.old.list)
            self.old }
        ensures left { IsTrue result ↔ (spec.rest_in self.new ≡ [] → ⊥) }
        // Keeps the remaining handles within the list's window up to the key.
        ensures kept { let upper = spec.window self.old.list None (Some key.now) in
            spec.rest_in self.new ≡ spec.rest_in (record self.old { list = upper }) }
        ensures both { spec.KeepsLowerEdge key.now self.old self.new }
        ensures yields { spec.YieldsLeft ⟦<Iter<'a, A> as Iterator>⟧.next_gives
            ⟦<Iter<'a, A> as DoubleEndedIterator>⟧.next_back_gives self.new }
    {
        let last = self.block.first_above(key);
        self.to = self.to.min(last.saturating_add(1));
        self.from < self.to
    }
}

impl<A: Allocator> Iterator for Iter<'_, A> {
    type Item = Result<KeyedBlockHandle<A>, Error>;

    ghost can_next = { λ _. Unit {0} };

    ghost next_gives = { spec.SpanGives spec.front_of };

    ghost remaining = { λ s. spec.at_most (s.to - s.from) };

    fn next(&mut self) -> Option<Self::Item> {
        if self.to <= self.from {
            return None;
        }
        match self.block.handle(self.from) {
            Ok(handle) => {
                self.from += 1;
                Some(Ok(handle))
            }
            Err(refusal) => {
                // The iterator is exhausted.
                self.from = self.to;
                Some(Err(refusal))
            }
        }
    }
}

impl<A: Allocator> DoubleEndedIterator for Iter<'_, A> {
    ghost can_next_back = { λ _. Unit {0} };

    ghost next_back_gives = { spec.SpanGives spec.back_of };

    fn next_back(&mut self) -> Option<Self::Item> {
        if self.to <= self.from {
            return None;
        }
        match self.block.handle(self.to - 1) {
            Ok(handle) => {
                self.to -= 1;
                Some(Ok(handle))
            }
            Err(refusal) => {
                // The iterator is exhausted.
                self.to = self.from;
                Some(Err(refusal))
            }
        }
    }
}
