//! An iterator that is polled at the front only, with one slot for an entry before the next.
ghost use Rattle.std.specs.Prelude.{Bool, ◌≡◌, ℕ, ◌+◌, ◌<◌, List, ◌∷◌, false};
ghost use Rattle.lsm_sorted.specs.Words as spec;

use crate::Ends;
use sst_entries::{InternalValue, IterItem};
use std::alloc::Allocator;

/// An iterator that takes its last entry back.
#[derive(Drop)]
pub struct Ahead<I: Iterator> {
    pub(crate) source: Ends<I>,
    pub(crate) front: Option<I::Item>,
}

impl<I: Iterator<Item = IterItem<A>>, A: Allocator> Ahead<I> {
    pub(crate) fn new(iter: I) -> Self
        ensures iter { result.source.iter ≡ iter }
        ensures fresh { result.source.done ≡ false }
        ensures front { result.front ≡ None }
    {
        Ahead {
            source: Ends::new(iter),
            front: None,
        }
    }

    pub(crate) fn next(&mut self) -> Option<IterItem<A>>
        requires { spec.Goes I.next_gives spec.nowhere I.can_next I.can_next I.remaining
            self.old.source }
        ensures goes { spec.Goes I.next_gives spec.nowhere I.can_next I.can_next I.remaining
            self.new.source }
        ensures yields { (stops : spec.Error → Bool) →
            spec.YieldsFirst stops (spec.HoldsAhead stops I.next_gives) self.old result self.new }
        ensures hears { spec.Hears I.next_gives spec.Front result (spec.IsStep spec.front_of result)
            (spec.ahead_outlook self.old) (spec.ahead_outlook self.new) }
        ensures lowers { spec.Lowers result (spec.ahead_size I.remaining self.old)
            (spec.ahead_size I.remaining self.new) }
        ensures free { self.new.front ≡ None }
    {
        if let Some(x) = self.front.take() {
            return Some(x);
        }
        self.source.next_in_front()
    }

    // Puts an entry before the remaining ones.
    pub(crate) fn put_back(&mut self, x: InternalValue<A>)
        requires { self.old.front ≡ None }
        ensures source { self.new.source ≡ self.old.source }
        ensures lists { (stops : spec.Error → Bool) (xs : List spec.R) →
            spec.HoldsAhead stops I.next_gives self.old xs →
            spec.HoldsAhead stops I.next_gives self.new (Ok x ∷ xs) }
        ensures puts { spec.Hears I.next_gives spec.Front None (λ xs ys. ys ≡ Ok x ∷ xs)
            (spec.ahead_outlook self.old) (spec.ahead_outlook self.new) }
        ensures size { spec.ahead_size I.remaining self.new ≡ spec.ahead_size I.remaining self.old
            + 1 }
    {
        self.front = Some(Ok(x));
    }
}
