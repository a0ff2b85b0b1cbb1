//! A double-ended priority queue, as two tournaments over the same slots.
ghost use Rattle.std.specs.Prelude.{◌≡◌, ◌*◌, ◌<◌, [], ◌∷◌, length, IfOk, IfErr, IfNone, IfSome};
ghost use Rattle.std.specs.Prelude.{IsPermutation};
ghost use Rattle.lsm_sorted.specs.Words as spec;

use crate::heap::lazy_tournament::LazyTournament;
use sst_entries::Error;
use std::alloc::{Allocator, Global};
use std::marker::Model;

/// A double-ended priority queue, implemented as two tournaments over the same slots.
///
/// Each item has a slot. The least item wins one tournament, and the greatest wins the other. See
/// "trees of winners" in Knuth, "The Art of Computer Programming", volume 3, "Sorting by
/// Selection".
///
/// A push or a pop plays the matches above one slot again. This takes at most `h` comparisons for
/// each tournament. `2^h` is the least power of two that is the capacity or more. A pop leaves the
/// matches above the slot that it empties to the next call. A push takes that slot, so a pop and a
/// push play them once. Only [`Tournament::with_capacity`] allocates. The order of equal items is
/// unspecified.
#[derive(Drop)]
pub struct Tournament<T: Ord, A: Allocator = Global> {
    // It plays both ends from the start.
    queue: LazyTournament<T, A>,
}

impl<T: Ord, A: Allocator> Model for Tournament<T, A> {
    ghost use Rattle.std.specs.Prelude.{◌≡◌, true};
    ghost use Rattle.lsm_sorted.specs.merge.Tournament.{Contest};

    ghost Value = { Contest T };

    ghost view = { λ t. t.queue };

    ghost invariant = { λ t. (t.queue.plays_front ≡ true) × (t.queue.plays_back ≡ true) };
}

impl<T: Ord, A: Allocator + Clone> Tournament<T, A> {
    /// Creates an empty tournament with room for `capacity` items.
    ///
    /// # Errors
    ///
    /// [`Error::OutOfMemory`] only.
    pub fn with_capacity(alloc: A, capacity: usize) -> Result<Self, Error>
        ensures empty { IfOk result (λ h. h.items ≡ []) }
        ensures room { IfOk result (λ h. h.room ≡ capacity) }
        ensures steps { IfOk result (λ h. h.steps ≡ 0) }
        ensures err { IfErr result (λ e. e ≡ spec.OutOfMemory) }
    {
        Ok(Tournament {
            queue: LazyTournament::new(alloc, capacity, true)?,
        })
    }
}

impl<T: Ord, A: Allocator> Tournament<T, A> {
    /// Returns the number of items.
    pub fn len(&self) -> usize
        ensures { result ≡ length self.now.items }
    {
        self.queue.len()
    }

    /// Returns the number of comparisons of two items so far, saturating at `u64::MAX`.
    pub fn steps(&self) -> u64
        ensures { result ≡ self.now.steps }
    {
        self.queue.steps()
    }

    /// Inserts an item.
    ///
    /// The queue must have room for it.
    pub fn push(&mut self, item: T)
        requires { length self.old.items < self.old.room }
        ensures items { IsPermutation (item ∷ self.old.items) self.new.items }
        ensures room { self.new.room ≡ self.old.room }
        ensures steps { spec.PlaysAtMost (2 * spec.height self.old.room) self.old self.new }
    {
        self.queue.push(item);
    }

    /// Removes and returns an item that no other is less than, or `None` if the queue is empty.
    pub fn pop_min(&mut self) -> Option<T>
        ensures none { IfNone result (self.old.items ≡ []) }
        ensures unchanged { IfNone result (self.new.items ≡ []) }
        ensures taken { IfSome result (λ x. IsPermutation self.old.items (x ∷ self.new.items)) }
        ensures least { IfSome result (λ x. spec.IsLeast T.cmp x self.old.items) }
        ensures room { self.new.room ≡ self.old.room }
        ensures steps { spec.PlaysAtMost (2 * spec.height self.old.room) self.old self.new }
    {
        self.queue.pop_min()
    }

    /// Removes and returns an item that no other is greater than, or `None` if the queue is empty.
    pub fn pop_max(&mut self) -> Option<T>
        ensures none { IfNone result (self.old.items ≡ []) }
        ensures unchanged { IfNone result (self.new.items ≡ []) }
        ensures taken { IfSome result (λ x. IsPermutation self.old.items (x ∷ self.new.items)) }
        ensures greatest { IfSome result (λ x. spec.IsGreatest T.cmp x self.old.items) }
        ensures room { self.new.room ≡ self.old.room }
        ensures steps { spec.PlaysAtMost (2 * spec.height self.old.room) self.old self.new }
    {
        self.queue.pop_max()
    }
}
