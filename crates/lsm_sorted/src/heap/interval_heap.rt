//! A double-ended priority queue, as an interval heap.
ghost use Rattle.std.specs.Prelude.{◌≡◌, ◌⊎◌, ℕ, ◌+◌, ◌*◌, ◌/◌, ◌%◌, ◌<◌, ◌≤◌, [], ◌∷◌, length};
ghost use Rattle.std.specs.Prelude.{IfOk, IfErr, IfNone, IfSome, IsPermutation, MatchOption};
ghost use Rattle.lsm_sorted.specs.Words as spec;

mod intervals;

use intervals::{order_last, root_end, sink};
use sst_entries::{Direction, Error};
use std::alloc::{Allocator, Global};
use std::marker::Model;

/// A double-ended priority queue, implemented as an interval heap.
///
/// See van Leeuwen and Wood, "Interval Heaps", The Computer Journal 36, 1993. One vector is seen as
/// a tree whose node i has the items at 2i and 2i + 1. They are the ends of an interval that
/// contains all intervals of the nodes below it. So a push or a pop takes a logarithmic number of
/// comparisons; this is not proved. Only [`IntervalHeap::with_capacity`] allocates. The order of
/// equal items is unspecified.
#[derive(Drop)]
pub struct IntervalHeap<T: Ord, A: Allocator = Global> {
    items: Vec<T, A>,
}

impl<T: Ord, A: Allocator> Model for IntervalHeap<T, A> {
    ghost use Rattle.std.specs.Vec.{vec_capacity};
    ghost use Rattle.lsm_sorted.specs.merge.IntervalHeap.{Heap};
    ghost use Rattle.lsm_sorted.specs.merge.Intervals.{IsIntervalHeap};

    ghost Value = { Heap T };

    ghost view = { λ h. record { items = h.items.items; room = vec_capacity h.items } };

    ghost invariant = { λ h. IsIntervalHeap T.cmp h.items.items };
}

impl<T: Ord, A: Allocator> IntervalHeap<T, A> {
    /// Creates an empty heap with room for `capacity` items.
    ///
    /// # Errors
    ///
    /// [`Error::OutOfMemory`] only.
    pub fn with_capacity(alloc: A, capacity: usize) -> Result<Self, Error>
        ensures empty { IfOk result (λ h. h.items ≡ []) }
        ensures room { IfOk result (λ h. h.room ≡ capacity) }
        ensures err { IfErr result (λ e. e ≡ spec.OutOfMemory) }
    {
        Ok(IntervalHeap {
            items: Vec::with_capacity(alloc, capacity)?,
        })
    }

    /// Returns the number of items.
    pub fn len(&self) -> usize
        ensures { result ≡ length self.now.items }
    {
        self.items.len()
    }

    /// Inserts an item.
    ///
    /// The heap must have room for it.
    pub fn push(&mut self, item: T)
        requires { length self.old.items < self.old.room }
        ensures items { IsPermutation (item ∷ self.old.items) self.new.items }
        ensures room { self.new.room ≡ self.old.room }
    {
        self.items.push_reserved(item);
        order_last(&mut self.items);
    }

    /// Removes and returns an item that no other is less than, or `None` if the heap is empty.
    pub fn pop_min(&mut self) -> Option<T>
        ensures none { IfNone result (self.old.items ≡ []) }
        ensures unchanged { IfNone result (self.new.items ≡ []) }
        ensures taken { IfSome result (λ x. IsPermutation self.old.items (x ∷ self.new.items)) }
        ensures least { IfSome result (λ x. spec.IsLeast T.cmp x self.old.items) }
        ensures room { self.new.room ≡ self.old.room }
    {
        self.pop(Direction::Front)
    }

    /// Removes and returns an item that no other is greater than, or `None` if the heap is empty.
    pub fn pop_max(&mut self) -> Option<T>
        ensures none { IfNone result (self.old.items ≡ []) }
        ensures unchanged { IfNone result (self.new.items ≡ []) }
        ensures taken { IfSome result (λ x. IsPermutation self.old.items (x ∷ self.new.items)) }
        ensures greatest { IfSome result (λ x. spec.IsGreatest T.cmp x self.old.items) }
        ensures room { self.new.room ≡ self.old.room }
    {
        self.pop(Direction::Back)
    }

    // Removes the first item as seen from an end.
    fn pop(&mut self, end: Direction) -> Option<T>
        ensures none { IfNone result (self.old.items ≡ []) }
        ensures unchanged { IfNone result (self.new.items ≡ []) }
        ensures taken { IfSome result (λ x. IsPermutation self.old.items (x ∷ self.new.items)) }
        ensures first { IfSome result (λ x. spec.IsLeast (spec.toward end T.cmp) x self.old.items) }
        ensures room { self.new.room ≡ self.old.room }
    {
        if self.items.is_empty() {
            return None;
        }
        let place = root_end(end, self.items.len());
        let item = self.items.swap_remove(place);
        sink(&mut self.items, end, place);
        Some(item)
    }
}
