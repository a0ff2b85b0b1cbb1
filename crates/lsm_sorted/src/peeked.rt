//! An iterator with one slot for an entry at each end.
ghost use Rattle.std.specs.Prelude.{◌≡◌, ℕ, ◌+◌, ◌<◌, ◌∷◌, ◌++◌, [], false};
ghost use Rattle.lsm_sorted.specs.Words as spec;

use crate::Ends;
use sst_entries::{InternalValue, IterItem};
use std::alloc::Allocator;

/// An iterator that takes an entry back at either end.
///
/// An entry put back at one end is also yielded at the other, once nothing is left between.
#[derive(Drop)]
pub struct Peeked<I: Iterator> {
    pub(crate) source: Ends<I>,
    pub(crate) front: Option<I::Item>,
    pub(crate) back: Option<I::Item>,
}

impl<I: Iterator<Item = IterItem<A>>, A: Allocator> Peeked<I> {
    pub(crate) fn new(iter: I) -> Self
        ensures iter { result.source.iter ≡ iter }
        ensures fresh { result.source.done ≡ false }
        ensures front { result.front ≡ None }
        ensures back { result.back ≡ None }
    {
        Peeked {
            source: Ends::new(iter),
            front: None,
            back: None,
        }
    }

    // Always inlined: a call that returns an entry by value costs more than the step.
    #[inline(always)]
    pub(crate) fn next(&mut self) -> Option<IterItem<A>>
        requires { spec.Goes I.next_gives spec.nowhere I.can_next I.can_next I.remaining
            self.old.source }
        ensures goes { spec.Goes I.next_gives spec.nowhere I.can_next I.can_next I.remaining
            self.new.source }
        ensures hears { spec.Hears I.next_gives spec.Front result (spec.IsStep spec.front_of result)
            (spec.peeked_outlook self.old) (spec.peeked_outlook self.new) }
        ensures lowers { spec.Lowers result (spec.peeked_size I.remaining self.old)
            (spec.peeked_size I.remaining self.new) }
        ensures free { self.new.front ≡ None }
    {
        if let Some(x) = self.front.take() {
            return Some(x);
        }
        match self.source.next_in_front() {
            Some(x) => Some(x),
            None => match self.back.take() {
                Some(x) => Some(x),
                None => None,
            },
        }
    }

    // Puts an entry before the remaining ones.
    pub(crate) fn put_front(&mut self, x: InternalValue<A>)
        requires { self.old.front ≡ None }
        ensures source { self.new.source ≡ self.old.source }
        ensures puts { spec.Hears I.next_gives spec.Front None (λ xs ys. ys ≡ Ok x ∷ xs)
            (spec.peeked_outlook self.old) (spec.peeked_outlook self.new) }
        ensures size { spec.peeked_size I.remaining self.new ≡ spec.peeked_size I.remaining self.old
            + 1 }
    {
        self.front = Some(Ok(x));
    }
}

impl<I: DoubleEndedIterator<Item = IterItem<A>>, A: Allocator> Peeked<I> {
    #[inline(always)]
    pub(crate) fn next_back(&mut self) -> Option<IterItem<A>>
        requires { spec.Goes I.next_gives I.next_back_gives I.can_next I.can_next_back I.remaining
            self.old.source }
        ensures goes { spec.Goes I.next_gives I.next_back_gives I.can_next I.can_next_back
            I.remaining self.new.source }
        ensures hears { spec.Hears I.next_back_gives spec.Back result
            (spec.IsStep spec.back_of result)
            (spec.peeked_outlook self.old) (spec.peeked_outlook self.new) }
        ensures lowers { spec.Lowers result (spec.peeked_size I.remaining self.old)
            (spec.peeked_size I.remaining self.new) }
        ensures free { self.new.back ≡ None }
    {
        if let Some(x) = self.back.take() {
            return Some(x);
        }
        match self.source.next_back() {
            Some(x) => Some(x),
            None => match self.front.take() {
                Some(x) => Some(x),
                None => None,
            },
        }
    }

    // Puts an entry after the remaining ones.
    pub(crate) fn put_back(&mut self, x: InternalValue<A>)
        requires { self.old.back ≡ None }
        ensures source { self.new.source ≡ self.old.source }
        ensures puts { spec.Hears I.next_back_gives spec.Back None (λ xs ys. ys ≡ xs ++ Ok x ∷ [])
            (spec.peeked_outlook self.old) (spec.peeked_outlook self.new) }
        ensures size { spec.peeked_size I.remaining self.new ≡ spec.peeked_size I.remaining self.old
            + 1 }
    {
        self.back = Some(Ok(x));
    }
}
