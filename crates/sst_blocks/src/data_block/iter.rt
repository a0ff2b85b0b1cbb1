//! An iterator over the entries of a data block.
ghost use Rattle.std.specs.Prelude.{◌≡◌, ◌-◌, ◌↔◌, [], IsTrue};
ghost use Rattle.sst_blocks.specs.Words as spec;

use super::DataBlock;
use crate::IterItem;
use std::alloc::{Allocator, Global};
use std::marker::Model;

/// An iterator over the entries of a data block, from both ends.
///
/// Its only error is [`crate::Error::OutOfMemory`]. After the error both ends are exhausted.
#[derive(Drop)]
pub struct Iter<'a, A: Allocator = Global> {
    block: &'a DataBlock<A>,
    from: usize,
    to: usize,
}

impl<'a, A: Allocator> Model for Iter<'a, A> {
    ghost use Rattle.std.specs.Prelude.{◌≤◌, length};
    ghost use Rattle.sst_entries.specs.Entry.{Entry};
    ghost use Rattle.sst_entries.specs.Span.{Span};

    ghost Value = { Span Entry };

    ghost view = { λ i. record { list = i.block.now; from = i.from; to = i.to } };

    ghost invariant = { λ i. i.to ≤ length i.block.now };
}

impl<'a, A: Allocator> Iter<'a, A> {
    pub(super) fn new(block: &'a DataBlock<A>) -> Iter<'a, A>
        ensures { result ≡ spec.whole_span block.now }
    {
        Iter {
            block,
            from: 0,
            to: block.len(),
        }
    }

    /// Drops the entries with keys below `key`, and returns whether any remain.
    pub fn seek(&mut self, key: &[u8]) -> bool
        ensures narrowed { let place = spec.lower_place (spec.Included key.now) self.old.list in
            self.new ≡ spec.span_from place self.old }
        ensures left { IsTrue result ↔ (spec.rest_in self.new ≡ [] → ⊥) }
        ensures kept { spec.rest_in self.new ≡ spec.within (spec.Included key.now) spec.Unbounded
            (spec.rest_in self.old) }
        ensures both { spec.KeepsUpper (spec.Included key.now) self.old self.new }
        ensures yields { spec.YieldsLeft ⟦<Iter<'a, A> as Iterator>⟧.next_gives
            ⟦<Iter<'a, A> as DoubleEndedIterator>⟧.next_back_gives self.new }
    {
        self.from = self.from.max(self.block.first_at_least(key));
        self.from < self.to
    }

    /// Drops the entries with keys up to and including `key`, and returns whether any remain.
    pub fn seek_exclusive(&mut self, key: &[u8]) -> bool
        ensures narrowed { let place = spec.lower_place (spec.Excluded key.now) self.old.list in
            self.new ≡ spec.span_from place self.old }
        ensures left { IsTrue result ↔ (spec.rest_in self.new ≡ [] → ⊥) }
        ensures kept { spec.rest_in self.new ≡ spec.within (spec.Excluded key.now) spec.Unbounded
            (spec.rest_in self.old) }
        ensures both { spec.KeepsUpper (spec.Excluded key.now) self.old self.new }
        ensures yields { spec.YieldsLeft ⟦<Iter<'a, A> as Iterator>⟧.next_gives
            ⟦<Iter<'a, A> as DoubleEndedIterator>⟧.next_back_gives self.new }
    {
        self.from = self.from.max(self.block.first_above(key));
        self.from < self.to
    }

    /// Drops the entries with keys above `key`, and returns whether any remain.
    pub fn seek_upper(&mut self, key: &[u8]) -> bool
        ensures narrowed { let place = spec.upper_place (spec.Included key.now) self.old.list in
            self.new ≡ spec.span_to place self.old }
        ensures left { IsTrue result ↔ (spec.rest_in self.new ≡ [] → ⊥) }
        ensures kept { spec.rest_in self.new ≡ spec.within spec.Unbounded (spec.Included key.now)
            (spec.rest_in self.old) }
        ensures both { spec.KeepsLower (spec.Included key.now) self.old self.new }
        ensures yields { spec.YieldsLeft ⟦<Iter<'a, A> as Iterator>⟧.next_gives
            ⟦<Iter<'a, A> as DoubleEndedIterator>⟧.next_back_gives self.new }
    {
        self.to = self.to.min(self.block.first_above(key));
        self.from < self.to
    }

    /// Drops the entries with keys from `key` on, and returns whether any remain.
    pub fn seek_upper_exclusive(&mut self, key: &[u8]) -> bool
        ensures narrowed { let place = spec.upper_place (spec.Excluded key.now) self.old.list in
            self.new ≡ spec.span_to place self.old }
        ensures left { IsTrue result ↔ (spec.rest_in self.new ≡ [] → ⊥) }
        ensures kept { spec.rest_in self.new ≡ spec.within spec.Unbounded (spec.Excluded key.now)
            (spec.rest_in self.old) }
        ensures both { spec.KeepsLower (spec.Excluded key.now) self.old self.new }
        ensures yields { spec.YieldsLeft ⟦<Iter<'a, A> as Iterator>⟧.next_gives
            ⟦<Iter<'a, A> as DoubleEndedIterator>⟧.next_back_gives self.new }
    {
        self.to = self.to.min(self.block.first_at_least(key));
        self.from < self.to
    }
}

impl<A: Allocator> Iterator for Iter<'_, A> {
    type Item = IterItem<A>;

    ghost can_next = { λ _. Unit {0} };

    ghost next_gives = { spec.SpanGives spec.front_of };

    ghost remaining = { λ s. spec.at_most (s.to - s.from) };

    fn next(&mut self) -> Option<IterItem<A>> {
        if self.to <= self.from {
            return None;
        }
        match self.block.entry(self.from) {
            Ok(entry) => {
                self.from += 1;
                Some(Ok(entry))
            }
            Err(refusal) => {
                // The iterator is exhausted.
                self.from = self.to;
                Some(Err(refusal))
            }
        }
    }
}

impl<A: Allocator> DoubleEndedIterator for Iter<'_, A> {
    ghost can_next_back = { λ _. Unit {0} };

    ghost next_back_gives = { spec.SpanGives spec.back_of };

    fn next_back(&mut self) -> Option<IterItem<A>> {
        if self.to <= self.from {
            return None;
        }
        match self.block.entry(self.to - 1) {
            Ok(entry) => {
                self.to -= 1;
                Some(Ok(entry))
            }
            Err(refusal) => {
                // The iterator is exhausted.
                self.to = self.from;
                Some(Err(refusal))
            }
        }
    }
}
