//! An iterator that is not polled again after `None`, since it then promises nothing.
ghost use Rattle.std.specs.Prelude.{Bool, ◌≡◌, false, Option};
ghost use Rattle.lsm_sorted.specs.Words as spec;

use sst_entries::{Direction, IterItem};
use std::alloc::Allocator;

/// An end at which iterators are polled.
pub trait End<I: Iterator> {
    // The relation of a call at the back, and the states that allow one.
    ghost back_gives: { I → Option I.Item → I → Type 0 };

    ghost can_back: { I → Type 0 };

    ghost end: { spec.Direction };

    fn end() -> Direction
        ensures { result ≡ end };

    // Polls the iterator at this end.
    fn ask(iter: &mut I) -> Option<I::Item>
        requires { spec.CanYield I.next_gives back_gives I.can_next can_back iter.old }
        ensures steps { spec.Steps I.next_gives back_gives end iter.old result iter.new }
        ensures goes { spec.MakesProgress
            (spec.CanYield I.next_gives back_gives I.can_next can_back)
            I.remaining iter.old result iter.new };
}

/// The front, of iterators that may have no back.
pub struct AtFront;

/// The back.
pub struct AtBack;

impl<I: Iterator> End<I> for AtFront {
    ghost back_gives = { spec.nowhere };

    ghost can_back = { I.can_next };

    ghost end = { spec.Front };

    fn end() -> Direction {
        Direction::Front
    }

    fn ask(iter: &mut I) -> Option<I::Item> {
        iter.next()
    }
}

impl<I: DoubleEndedIterator> End<I> for AtBack {
    ghost back_gives = { I.next_back_gives };

    ghost can_back = { I.can_next_back };

    ghost end = { spec.Back };

    fn end() -> Direction {
        Direction::Back
    }

    fn ask(iter: &mut I) -> Option<I::Item> {
        iter.next_back()
    }
}

/// An iterator that is exhausted at both ends once either end returns `None`.
#[derive(Drop)]
pub struct Ends<I> {
    pub iter: I,
    pub done: bool,
}

impl<I> Ends<I> {
    pub fn new(iter: I) -> Self
        ensures iter { result.iter ≡ iter }
        ensures fresh { result.done ≡ false }
    {
        Ends { iter, done: false }
    }
}

impl<I: Iterator<Item = IterItem<A>>, A: Allocator> Ends<I> {
    // Polls the iterator at an end.
    #[inline(always)]
    pub fn ask<E: End<I>>(&mut self) -> Option<IterItem<A>>
        requires { spec.Goes I.next_gives E.back_gives I.can_next E.can_back I.remaining self.old }
        ensures goes { spec.Goes I.next_gives E.back_gives I.can_next E.can_back I.remaining
            self.new }
        ensures yields { (stops : spec.Error → Bool) →
            spec.YieldsAt E.end stops (spec.Left stops I.next_gives E.back_gives) self.old result
            self.new }
        ensures asked { spec.Asked (spec.Steps I.next_gives E.back_gives E.end) self.old result
            self.new }
        ensures lowers { spec.Lowers result (spec.ends_size I.remaining self.old)
            (spec.ends_size I.remaining self.new) }
    {
        if self.done {
            return None;
        }
        let answer = E::ask(&mut self.iter);
        self.done = answer.is_none();
        answer
    }

    // The next item of an iterator that is polled at the front only.
    pub fn next_in_front(&mut self) -> Option<IterItem<A>>
        requires { spec.Goes I.next_gives spec.nowhere I.can_next I.can_next I.remaining self.old }
        ensures goes { spec.Goes I.next_gives spec.nowhere I.can_next I.can_next I.remaining
            self.new }
        ensures yields { (stops : spec.Error → Bool) →
            spec.YieldsFirst stops (spec.Left stops I.next_gives spec.nowhere) self.old result
            self.new }
        ensures asked { spec.Asked I.next_gives self.old result self.new }
        ensures lowers { spec.Lowers result (spec.ends_size I.remaining self.old)
            (spec.ends_size I.remaining self.new) }
    {
        self.ask::<AtFront>()
    }
}

impl<I: DoubleEndedIterator<Item = IterItem<A>>, A: Allocator> Ends<I> {
    // The first item of an iterator that is polled at both ends.
    pub fn next(&mut self) -> Option<IterItem<A>>
        requires { spec.Goes I.next_gives I.next_back_gives I.can_next I.can_next_back I.remaining
            self.old }
        ensures goes { spec.Goes I.next_gives I.next_back_gives I.can_next I.can_next_back
            I.remaining self.new }
        ensures yields { (stops : spec.Error → Bool) → spec.YieldsFirst stops
            (spec.Left stops I.next_gives I.next_back_gives) self.old result self.new }
        ensures asked { spec.Asked I.next_gives self.old result self.new }
        ensures lowers { spec.Lowers result (spec.ends_size I.remaining self.old)
            (spec.ends_size I.remaining self.new) }
    {
        self.next_in_front()
    }

    // The last item of an iterator that is polled at both ends.
    pub fn next_back(&mut self) -> Option<IterItem<A>>
        requires { spec.Goes I.next_gives I.next_back_gives I.can_next I.can_next_back I.remaining
            self.old }
        ensures goes { spec.Goes I.next_gives I.next_back_gives I.can_next I.can_next_back
            I.remaining self.new }
        ensures yields { (stops : spec.Error → Bool) → spec.YieldsLast stops
            (spec.Left stops I.next_gives I.next_back_gives) self.old result self.new }
        ensures asked { spec.Asked I.next_back_gives self.old result self.new }
        ensures lowers { spec.Lowers result (spec.ends_size I.remaining self.old)
            (spec.ends_size I.remaining self.new) }
    {
        self.ask::<AtBack>()
    }
}
