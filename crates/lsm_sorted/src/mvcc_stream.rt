//! A stream of the newest version of each key.
ghost use Rattle.std.specs.Prelude.{not, ◌≡◌, ℕ, ◌+◌, ◌<◌};
ghost use Rattle.lsm_sorted.specs.Words as spec;

use crate::give_up::give_up;
use crate::peeked::Peeked;
use sst_entries::{InternalValue, IterItem};
use std::alloc::Allocator;

// Tests equality only, which requires less of the order than the test at the back.
fn has_other_key<A: Allocator>(x: &InternalValue<A>, y: &InternalValue<A>) -> bool
    ensures { result ≡ not (spec.same_key x.now.user_key y.now.user_key) }
{
    x.key.user_key != y.key.user_key
}

fn has_lower_key<A: Allocator>(x: &InternalValue<A>, y: &InternalValue<A>) -> bool
    ensures { result ≡ spec.key_lt x.now.user_key y.now.user_key }
{
    x.key.user_key < y.key.user_key
}

/// An iterator over the newest version of each key of sorted entries.
///
/// It is double-ended if its source is. The source must yield its keys in ascending order, and the
/// versions of a key from the newest down. Tombstones are yielded like values.
///
/// An error of the source is passed on and replaces the version that it interrupts. At the front,
/// this is the version before the error. At the back, these are the versions of one key after it.
///
/// Each step reads each version of its key once. Between steps the stream holds at most one entry
/// at each end, and one more during a step.
#[derive(Drop)]
pub struct MvccStream<I: Iterator> {
    inner: Peeked<I>,
}

impl<I: Iterator<Item = IterItem<A>>, A: Allocator> MvccStream<I> {
    /// Creates a stream over sorted entries.
    ///
    /// The call does not poll the source. For calls at both ends, see
    /// [`MvccStream::from_both_ends`].
    pub fn new(iter: I) -> Self
        ensures starts { spec.mvcc_outlook result ≡ spec.before_any iter }
        ensures may { spec.CanYield I.next_gives spec.nowhere I.can_next I.can_next iter →
            spec.IsFinite (I.remaining iter) →
            spec.MayStep I.next_gives spec.nowhere I.can_next I.can_next I.remaining result }
        // For any source, errors included, the results are those of the steps on it.
        ensures heard { spec.AnswersSteps I.next_gives spec.nowhere iter
            ⟦<MvccStream<I> as Iterator>⟧.next_gives spec.nowhere result }
        // For any list, the same up to an error that stops the source.
        ensures steps { spec.YieldsSteps I.next_gives spec.nowhere iter
            ⟦<MvccStream<I> as Iterator>⟧.next_gives spec.nowhere result }
        // For sorted entries, it yields the newest version of each key.
        ensures newest { spec.YieldsNewestOf I.next_gives spec.nowhere iter
            ⟦<MvccStream<I> as Iterator>⟧.next_gives spec.nowhere result }
        ensures can { spec.CanStepForward I.next_gives I.can_next I.remaining iter
            ⟦<MvccStream<I> as Iterator>⟧.next_gives ⟦<MvccStream<I> as Iterator>⟧.can_next result }
    {
        MvccStream {
            inner: Peeked::new(iter),
        }
    }
}

impl<I: Iterator<Item = IterItem<A>>, A: Allocator> MvccStream<I> {
    // The source of the stream, in any state of the stream.
    pub(crate) fn source(&self) -> &I
        ensures { result.now ≡ spec.read_from self.now }
    {
        &self.inner.source.iter
    }
}

impl<I: DoubleEndedIterator<Item = IterItem<A>>, A: Allocator> MvccStream<I> {
    /// States what a stream over a double-ended source yields, for calls at both ends in any order.
    ///
    /// The call does nothing: its contract states the law.
    pub fn from_both_ends(&self)
        ensures heard { spec.OnItsSource (spec.AnswersSteps I.next_gives I.next_back_gives)
            ⟦<MvccStream<I> as Iterator>⟧.next_gives
            ⟦<MvccStream<I> as DoubleEndedIterator>⟧.next_back_gives self.now }
        ensures steps { spec.OnItsSource (spec.YieldsSteps I.next_gives I.next_back_gives)
            ⟦<MvccStream<I> as Iterator>⟧.next_gives
            ⟦<MvccStream<I> as DoubleEndedIterator>⟧.next_back_gives self.now }
        ensures newest { spec.OnItsSource (spec.YieldsNewestOf I.next_gives I.next_back_gives)
            ⟦<MvccStream<I> as Iterator>⟧.next_gives
            ⟦<MvccStream<I> as DoubleEndedIterator>⟧.next_back_gives self.now }
        ensures can { (iter : I) → spec.mvcc_outlook self.now ≡ spec.before_any iter →
            spec.CanStep I.next_gives I.next_back_gives iter
            ⟦<MvccStream<I> as Iterator>⟧.next_gives
            ⟦<MvccStream<I> as DoubleEndedIterator>⟧.next_back_gives self.now
            I.can_next I.can_next_back I.remaining
            ⟦<MvccStream<I> as Iterator>⟧.can_next
            ⟦<MvccStream<I> as DoubleEndedIterator>⟧.can_next_back }
    {}
}

impl<I: Iterator<Item = IterItem<A>>, A: Allocator> Iterator for MvccStream<I> {
    type Item = IterItem<A>;

    ghost can_next = { spec.MayStep I.next_gives spec.nowhere I.can_next I.can_next I.remaining };

    ghost next_gives = { spec.StepsAt (spec.MayStep I.next_gives spec.nowhere I.can_next I.can_next
        I.remaining) I.next_gives spec.Front spec.front_step };

    ghost remaining = { λ s. spec.at_most (spec.mvcc_size I.remaining s) };

    fn next(&mut self) -> Option<IterItem<A>> {
        let head = match self.inner.next() {
            Some(Ok(head)) => head,
            Some(Err(error)) => return Some(Err(error)),
            None => return None,
        };
        loop {
            match self.inner.next() {
                Some(Ok(other)) => {
                    if has_other_key(&other, &head) {
                        self.inner.put_front(other);
                        return Some(Ok(head));
                    }
                    give_up(other);
                }
                Some(Err(error)) => {
                    give_up(head);
                    return Some(Err(error));
                }
                None => return Some(Ok(head)),
            }
        }
    }
}

impl<I: DoubleEndedIterator<Item = IterItem<A>>, A: Allocator> DoubleEndedIterator
    for MvccStream<I> {
    ghost can_next_back = { spec.MayStep I.next_gives I.next_back_gives I.can_next I.can_next_back
        I.remaining };

    ghost next_back_gives = { spec.StepsAt (spec.MayStep I.next_gives I.next_back_gives I.can_next
        I.can_next_back I.remaining) I.next_back_gives spec.Back spec.back_step };

    fn next_back(&mut self) -> Option<IterItem<A>> {
        let mut tail = match self.inner.next_back() {
            Some(Ok(tail)) => tail,
            Some(Err(error)) => return Some(Err(error)),
            None => return None,
        };
        loop {
            match self.inner.next_back() {
                Some(Ok(before)) => {
                    if has_lower_key(&before, &tail) {
                        self.inner.put_back(before);
                        return Some(Ok(tail));
                    }
                    tail = before;
                }
                Some(Err(error)) => return Some(Err(error)),
                None => return Some(Ok(tail)),
            }
        }
    }
}
