//! A double-ended priority queue, as two tournaments over the same slots, each played from the
//! first pop at its end on.
ghost use Rattle.std.specs.Prelude.{◌≡◌, ◌+◌, ◌<◌, [], ◌∷◌, length, true, false, IfOk, IfErr};
ghost use Rattle.std.specs.Prelude.{IfNone, IfSome, IsPermutation};
ghost use Rattle.lsm_sorted.specs.Words as spec;

mod brackets;
mod slots;

use brackets::Brackets;
use slots::Slots;
use sst_entries::{Direction, Error};
use std::alloc::{Allocator, Global};
use std::marker::Model;

/// A [`Tournament`](crate::Tournament) that plays the matches of an end from the first pop at that
/// end on.
///
/// The first pop at an end plays all its matches. This takes at most one comparison fewer than
/// there are slots. Their number is `2^h`, the least power of two that is the capacity or more.
/// After that, each push and pop, at either end, takes at most `h` comparisons for that end.
///
/// So if only [`LazyTournament::pop_min`] is called, no match is played for the greatest item. A
/// push before the first pop compares nothing. Only [`LazyTournament::with_capacity`] allocates.
/// The order of equal items is unspecified.
#[derive(Drop)]
pub struct LazyTournament<T: Ord, A: Allocator = Global> {
    slots: Slots<T, A>,
    brackets: Brackets<A>,
}

impl<T: Ord, A: Allocator> Model for LazyTournament<T, A> {
    ghost use Rattle.lsm_sorted.specs.merge.Slots.{occupants};
    ghost use Rattle.lsm_sorted.specs.merge.Tournament.{Contest};
    ghost use Rattle.lsm_sorted.specs.merge.Brackets.{IsTournament};

    ghost Value = { Contest T };

    ghost view = { λ t. record {
      items = occupants t.slots.places;
      room = t.slots.room;
      steps = t.brackets.steps;
      plays_front = t.brackets.front.is_played;
      plays_back = t.brackets.back.is_played;
    } };

    ghost invariant = { λ t. IsTournament T.cmp t.slots t.brackets };
}

impl<T: Ord, A: Allocator + Clone> LazyTournament<T, A> {
    /// Creates an empty tournament with room for `capacity` items.
    ///
    /// Neither end plays matches yet.
    ///
    /// # Errors
    ///
    /// [`Error::OutOfMemory`] only.
    pub fn with_capacity(alloc: A, capacity: usize) -> Result<Self, Error>
        ensures empty { IfOk result (λ t. t.items ≡ []) }
        ensures room { IfOk result (λ t. t.room ≡ capacity) }
        ensures steps { IfOk result (λ t. t.steps ≡ 0) }
        ensures front { IfOk result (λ t. t.plays_front ≡ false) }
        ensures back { IfOk result (λ t. t.plays_back ≡ false) }
        ensures err { IfErr result (λ e. e ≡ spec.OutOfMemory) }
    {
        Self::new(alloc, capacity, false)
    }

    // An empty tournament that plays matches at both ends from the start, or at none.
    pub(crate) fn new(alloc: A, capacity: usize, is_played: bool) -> Result<Self, Error>
        ensures empty { IfOk result (λ t. t.items ≡ []) }
        ensures room { IfOk result (λ t. t.room ≡ capacity) }
        ensures steps { IfOk result (λ t. t.steps ≡ 0) }
        ensures front { IfOk result (λ t. t.plays_front ≡ is_played) }
        ensures back { IfOk result (λ t. t.plays_back ≡ is_played) }
        ensures err { IfErr result (λ e. e ≡ spec.OutOfMemory) }
    {
        // More than 2^63 slots do not fit in memory.
        let Some(leaves) = capacity.checked_next_power_of_two() else {
            return Err(Error::OutOfMemory);
        };
        let brackets = Brackets::new(alloc.clone()?, leaves, is_played)?;
        Ok(LazyTournament {
            slots: Slots::new(alloc, capacity, leaves)?,
            brackets,
        })
    }
}

impl<T: Ord, A: Allocator> LazyTournament<T, A> {
    /// Returns the number of items.
    pub fn len(&self) -> usize
        ensures { result ≡ length self.now.items }
    {
        self.slots.len()
    }

    /// Returns the number of comparisons of two items so far, saturating at `u64::MAX`.
    pub fn steps(&self) -> u64
        ensures { result ≡ self.now.steps }
    {
        self.brackets.steps
    }

    /// Inserts an item.
    ///
    /// The queue must have room for it.
    pub fn push(&mut self, item: T)
        requires { length self.old.items < self.old.room }
        ensures items { IsPermutation (item ∷ self.old.items) self.new.items }
        ensures room { self.new.room ≡ self.old.room }
        ensures steps { spec.PlaysAtMost (spec.rematches self.old) self.old self.new }
        ensures ends { spec.SameEnds self.old self.new }
    {
        let slot = self.slots.insert(item);
        self.brackets.emptied = None;
        self.brackets.follow(self.slots.as_slice(), slot);
    }

    /// Removes and returns an item that no other is less than, or `None` if the queue is empty.
    pub fn pop_min(&mut self) -> Option<T>
        ensures none { IfNone result (self.old.items ≡ []) }
        ensures unchanged { IfNone result (self.new.items ≡ []) }
        ensures taken { IfSome result (λ x. IsPermutation self.old.items (x ∷ self.new.items)) }
        ensures least { IfSome result (λ x. spec.IsLeast T.cmp x self.old.items) }
        ensures room { self.new.room ≡ self.old.room }
        ensures steps { spec.PlaysAtMost
            (spec.rematches self.old + spec.first_round spec.Front self.old) self.old self.new }
        ensures front { self.new.plays_front ≡ true }
        ensures back { self.new.plays_back ≡ self.old.plays_back }
    {
        self.pop(Direction::Front)
    }

    /// Removes and returns an item that no other is greater than, or `None` if the queue is empty.
    pub fn pop_max(&mut self) -> Option<T>
        ensures none { IfNone result (self.old.items ≡ []) }
        ensures unchanged { IfNone result (self.new.items ≡ []) }
        ensures taken { IfSome result (λ x. IsPermutation self.old.items (x ∷ self.new.items)) }
        ensures greatest { IfSome result (λ x. spec.IsGreatest T.cmp x self.old.items) }
        ensures room { self.new.room ≡ self.old.room }
        ensures steps { spec.PlaysAtMost
            (spec.rematches self.old + spec.first_round spec.Back self.old) self.old self.new }
        ensures front { self.new.plays_front ≡ self.old.plays_front }
        ensures back { self.new.plays_back ≡ true }
    {
        self.pop(Direction::Back)
    }

    // Removes the first item as seen from an end. The matches above the slot that it empties are
    // left to the next call. A push takes that slot, so a pop and a push play them once.
    fn pop(&mut self, end: Direction) -> Option<T>
        ensures none { IfNone result (self.old.items ≡ []) }
        ensures unchanged { IfNone result (self.new.items ≡ []) }
        ensures taken { IfSome result (λ x. IsPermutation self.old.items (x ∷ self.new.items)) }
        ensures first { IfSome result (λ x. spec.IsLeast (spec.toward end T.cmp) x self.old.items) }
        ensures room { self.new.room ≡ self.old.room }
        ensures steps { spec.PlaysAtMost (spec.rematches self.old + spec.first_round end self.old)
            self.old self.new }
        ensures plays { spec.PlaysFrom end self.old self.new }
    {
        let slot = self.brackets.winner(self.slots.as_slice(), end);
        let item = self.slots.remove(slot)?;
        self.brackets.emptied = Some(slot);
        Some(item)
    }
}
